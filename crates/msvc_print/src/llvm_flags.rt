//! Flags of `llvm-undname`, as bits beyond the 32 of [`DemangleFlags`](msvc_nodes::flags::DemangleFlags). Only Full
//! obeys them. They drop nothing of a function that is pointed to, and nothing of a nested symbol.

/// Drops the calling convention of a function.
pub const NO_CALLING_CONVENTION: u64 = 0x2_0000_0000;

/// Drops what a function returns. A conversion operator keeps it in its name.
pub const NO_RETURN_TYPE: u64 = 0x4_0000_0000;

/// Drops `public` and the like of a function or a variable.
pub const NO_ACCESS_SPECIFIER: u64 = 0x8_0000_0000;

/// Drops `static`, `virtual` and `extern "C"` of a function or a variable.
pub const NO_MEMBER_TYPE: u64 = 0x10_0000_0000;

/// Drops the type of a variable.
pub const NO_VARIABLE_TYPE: u64 = 0x20_0000_0000;
