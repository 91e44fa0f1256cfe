//! A demangler of C++ symbols as Microsoft's compiler mangles them: `?x@@3PEAY1NKM@5HEA` is `int (*x)[3500][6]`.
//!
//! [`parse`] reads a symbol into a tree, [`serialize`] prints a tree, and [`demangle`] does both.
#![tactic(auto)]

ghost use Rattle.std.specs.Prelude.{IfErr, IfOk, None, string_bytes};
ghost use Rattle.msvc_nodes.specs.Trees.{SymbolTree};
ghost use Rattle.msvc_grammar.specs.Parsed.{GrammarLaws, IsRejected};
ghost use Rattle.msvc_cursor.specs.Limits.{limits_of};
ghost use Rattle.msvc_symbol.specs.Demangled.{HashesAreShown, IsDeclared, IsDeclaredWithin, IsErrorUnder};

pub use alloc_fuse::Fuse;
pub use bitflags::Flags;
pub use msvc_cursor::back_references::BackReference;
pub use msvc_cursor::failure::{Failure, Message};
pub use msvc_cursor::limits::{DEFAULT_BYTE_LIMIT, DEFAULT_NODE_LIMIT, Limits};
pub use msvc_filter::{
    Filtered, filter_slice, filter_slice_as, filter_slice_in, filter_text, filter_text_colored,
    filter_text_in, filter_text_without,
};
pub use msvc_lines::{undname_lines, undname_one, undname_run};
pub use msvc_nodes::error::{Error, ErrorRepr, Limit};
pub use msvc_nodes::flags::{DemangleFlags, FuncClass, StorageClass};
pub use msvc_print::{NamePlace, Text, llvm_flags};
pub use msvc_read::{
    back_references, parse, parse_prefix, parse_within, symbol_length, symbol_length_within,
};
pub use msvc_streams::{Fault, Watched};
use msvc_symbol::declare_once;
pub use msvc_symbol::{Demangler, Grammar, Named};
pub use msvc_tree::tree::{
    CallingConv, Name, NameSequence, Operator, Params, ParseResult, Symbol, Type, VarStorageKind,
};
pub use msvc_write::serialize;
use std::alloc::Global;

/// Returns the declaration of the symbol that `input` begins with, under `flags`.
///
/// It is the text that [`serialize`] prints for the tree of [`parse`]. Bytes after a complete symbol are ignored.
///
/// # Limits
///
/// None: a tree, and a declaration, can be far larger than its symbol. For symbols that are not trusted call
/// [`demangle_within`].
///
/// # Errors
///
/// Fails if `input` begins with no symbol; the error then has an offset into `input`, in bytes. Fails out of memory if
/// an allocation fails; that error has no offset.
///
/// # Examples
///
/// ```
/// let text = demangle(alloc, "?x@@3PEAY1NKM@5HEA", DemangleFlags::llvm())?;
/// assert_eq!(rt; text.as_str(), "int (*x)[3500][6]");
/// ```
pub fn demangle(alloc: Global, input: &str, flags: DemangleFlags) -> Result<String, Error>
    ensures declared { IfOk result (λ text. (tree : SymbolTree)
        × IsDeclared input.now tree flags.0 (string_bytes text)) }
    ensures rejected { IfErr result (λ e. IsRejected None input.now e) }
    ensures laws { GrammarLaws input.now }
    ensures hashes { IfOk result (λ text. HashesAreShown input.now (string_bytes text)) }
{
    demangle_within(alloc, input, flags, usize::MAX, usize::MAX)
}

/// Returns the declaration of the symbol that `input` begins with, as [`demangle`] does, within two limits.
///
/// # Limits
///
/// The tree has at most `nodes` nodes: each name and each type in a tree is a node, at every depth. The declaration has
/// at most `bytes` bytes. `usize::MAX` is no limit, and leaves the other limit in force. [`DEFAULT_NODE_LIMIT`] and
/// [`DEFAULT_BYTE_LIMIT`] suit symbols that are not trusted. Together the limits bound the memory that a call takes,
/// whatever the length of `input`. They and, linearly, the length of `input` bound its time.
///
/// # Errors
///
/// Fails where [`parse_within`] does. Fails with "longer than allowed" if the declaration has more than `bytes` bytes;
/// the offset is the number of bytes read. [`Error::limit`] returns the limit that an error is about.
///
/// # Examples
///
/// ```
/// let short = demangle_within(alloc, "?x@ns@@3HA", DemangleFlags::llvm(), 4, 9)?;
/// assert_eq!(rt; short.as_str(), "int ns::x");
/// let long = demangle_within(alloc, "?xy@ns@@3HA", DemangleFlags::llvm(), 4, 9);
/// assert!(rt; long.is_err_and(|error| error.is_over_limit()));
/// ```
pub fn demangle_within(
    alloc: Global,
    input: &str,
    flags: DemangleFlags,
    nodes: usize,
    bytes: usize,
) -> Result<String, Error>
    ensures declared { IfOk result (λ text.
        IsDeclaredWithin (limits_of nodes bytes) input.now flags.0 (string_bytes text)) }
    ensures rejected { IfErr result (λ e. IsErrorUnder (limits_of nodes bytes) input.now flags.0 e) }
    ensures hashes { IfOk result (λ text. HashesAreShown input.now (string_bytes text)) }
{
    let mut text = Text::new(alloc);
    match declare_once(alloc, input, flags, Limits::new(nodes, bytes), &mut text) {
        Ok(_) => Ok(text.into_string()),
        Err(failure) => Err(failure.error(alloc, input)),
    }
}
