//! The grammars that a caller chooses between.

/// Names a grammar: which symbols are read, and in which style their declarations are printed.
#[derive(Clone, Copy, Debug, PartialEq, Eq)]
pub enum Grammar {
    /// The grammar of the Rust crate `msvc-demangler`, with its texts. They never change.
    Crate,
    /// The symbols of today's compilers, in the style of `llvm-undname`. It follows the compilers.
    Full,
}
