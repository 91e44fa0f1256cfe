//! The calls that read a symbol: their results own their memory, and their errors have a text.

ghost use Rattle.std.specs.Prelude.{◌≤◌, List, map, IfOk, IfErr, None, Some};
ghost use Rattle.msvc_nodes.specs.Trees.{SymbolTree};
ghost use Rattle.msvc_rules.specs.Counts.{node_count};
ghost use Rattle.msvc_rules.specs.State.{Note};
ghost use Rattle.msvc_rules.specs.Limits.{IsWithin, limit_of_number};
ghost use Rattle.msvc_tree.specs.View.{tree_of};
ghost use Rattle.msvc_grammar.specs.Parsed as spec;
ghost use Rattle.msvc_cursor.specs.Errors.{IsInside};
ghost use Rattle.msvc_cursor.specs.Failures.{Fails};
ghost use Rattle.msvc_cursor.specs.Notes.{note_of};
ghost use Rattle.msvc_cursor.specs.SymbolsRead.{IsSymbolRead};

use alloc_fuse::Fuse;
use bumpalo::Bump;
use msvc_cursor::back_references::BackReference;
use msvc_cursor::failure::Failure;
use msvc_cursor::limits::Limits;
use msvc_cursor::symbol_read::SymbolRead;
use msvc_nodes::error::Error;
use msvc_nodes::sizes::arena_to_read;
use msvc_productions::read;
use msvc_tree::to_tree::nodes_to_tree;
use msvc_tree::tree::ParseResult;
use std::alloc::{AllocError, Global};

/// Returns the tree of the symbol that `input` begins with.
///
/// The names in the tree borrow from `input`. Bytes after a complete symbol are ignored.
///
/// A tree can be far larger than its symbol: for symbols that are not trusted call [`parse_within`].
///
/// # Errors
///
/// Fails if `input` begins with no symbol; the error then has an offset into `input`, in bytes. Fails out of memory if
/// an allocation fails; that error has no offset.
///
/// # Examples
///
/// ```
/// let tree = parse(alloc, "?x@ns@@3HA")?;
/// let text = serialize(alloc, &tree, DemangleFlags::llvm())?;
/// assert_eq!(rt; text.as_str(), "int ns::x");
/// ```
pub fn parse<'a>(alloc: Global, input: &'a str) -> Result<ParseResult<'a>, Error>
    ensures parsed { IfOk result (λ r. spec.IsParsed input.now (tree_of r)) }
    ensures rejected { IfErr result (λ e. spec.IsRejected None input.now e) }
    ensures laws { spec.GrammarLaws input.now }
{
    match parse_prefix(alloc, input) {
        Ok((parsed, _)) => Ok(parsed),
        Err(error) => Err(error),
    }
}

/// Returns the tree of the symbol that `input` begins with, as [`parse`] does, and its length in bytes.
///
/// These bytes alone have the same tree, with no bytes left.
///
/// # Errors
///
/// Fails where [`parse`] does, with the same error.
///
/// # Examples
///
/// ```
/// let prefix = parse_prefix(alloc, "?x@@3HA+0x10")?;
/// assert_eq!(rt; prefix.1, 7);
/// ```
pub fn parse_prefix<'a>(alloc: Global, input: &'a str) -> Result<(ParseResult<'a>, usize), Error>
    ensures parsed { IfOk result (λ r. spec.IsParsed input.now (tree_of r.0)) }
    ensures length { IfOk result (λ r. spec.IsSymbolLength r.1 input.now) }
    ensures rejected { IfErr result (λ e. spec.IsRejected None input.now e) }
    ensures laws { spec.GrammarLaws input.now }
{
    match read_tree(alloc, input, Limits::none()) {
        Ok(read) => Ok(read),
        Err(failure) => Err(failure.error(alloc, input)),
    }
}

/// Returns the tree of the symbol that `input` begins with, as [`parse`] does, within a limit on its nodes.
///
/// # Limits
///
/// The tree has at most `nodes` nodes: each name and each type in a tree is a node, at every depth. `usize::MAX` is a
/// limit too, which the tree of a short symbol can exceed.
///
/// # Errors
///
/// Fails where [`parse`] does, or with "more nodes than allowed" at the first node too many: then `input` begins with no
/// symbol within the limit, but may begin with a larger one. Any other error with an offset means that it begins with no
/// symbol of any size.
///
/// # Examples
///
/// ```
/// let limited = parse_within(alloc, "?x@ns@@3HA", 3);
/// assert!(rt; limited.err().is_some_and(|error| error.is_over_limit()));
/// ```
pub fn parse_within<'a>(
    alloc: Global,
    input: &'a str,
    nodes: usize,
) -> Result<ParseResult<'a>, Error>
    ensures parsed { IfOk result (λ r. spec.IsParsed input.now (tree_of r)) }
    ensures within { IfOk result (λ r. node_count (tree_of r) ≤ nodes) }
    ensures rejected { IfErr result (λ e. spec.IsRejected (Some nodes) input.now e) }
{
    let limits = Limits {
        nodes: Some(nodes),
        bytes: None,
    };
    match read_tree(alloc, input, limits) {
        Ok((tree, _)) => Ok(tree),
        Err(failure) => Err(failure.error(alloc, input)),
    }
}

/// Returns the length in bytes of the symbol that `input` begins with, as [`parse_prefix`] does, and makes no tree.
///
/// # Errors
///
/// Fails where [`parse`] does, with the same error.
///
/// # Examples
///
/// ```
/// assert_eq!(rt; symbol_length(alloc, "?x@@3HA+0x10")?, 7);
/// ```
pub fn symbol_length(alloc: Global, input: &str) -> Result<usize, Error>
    ensures parsed { IfOk result (λ _. (tree : SymbolTree) × spec.IsParsed input.now tree) }
    ensures length { IfOk result (λ bytes. spec.IsSymbolLength bytes input.now) }
    ensures rejected { IfErr result (λ e. spec.IsRejected None input.now e) }
    ensures laws { spec.GrammarLaws input.now }
{
    match read_length(alloc, input, Limits::none()) {
        Ok(bytes) => Ok(bytes),
        Err(failure) => Err(failure.error(alloc, input)),
    }
}

/// Returns the length in bytes of the symbol that `input` begins with, as [`symbol_length`] does, within a limit on its
/// nodes.
///
/// # Limits
///
/// The tree has at most `nodes` nodes, as for [`parse_within`], but `usize::MAX` is no limit.
///
/// # Errors
///
/// Fails where [`parse_within`] does or, without a limit, where [`parse`] does, with the same error.
pub fn symbol_length_within(alloc: Global, input: &str, nodes: usize) -> Result<usize, Error>
    ensures parsed { IfOk result (λ _. (tree : SymbolTree) × spec.IsParsed input.now tree
        × IsWithin (limit_of_number nodes) (node_count tree)) }
    ensures length { IfOk result (λ bytes. spec.IsSymbolLength bytes input.now) }
    ensures rejected { IfErr result (λ e. spec.IsRejected (limit_of_number nodes) input.now e) }
{
    match read_length(alloc, input, Limits::new(nodes, usize::MAX)) {
        Ok(bytes) => Ok(bytes),
        Err(failure) => Err(failure.error(alloc, input)),
    }
}

/// Returns the digits that were read as whole parameters in the symbol that `input` begins with.
///
/// They are in rising order of their offsets. With the bytes of an earlier parameter in place of its digit, the text
/// has the same tree and the same bytes after the symbol.
///
/// # Errors
///
/// Fails where [`parse`] does, with the same error.
///
/// # Examples
///
/// ```
/// for digit in &back_references(alloc, "?f@@YAXPAH0@Z")? {
///     assert_eq!(rt; (digit.at, digit.start, digit.end), (10, 7, 10));
/// }
/// ```
pub fn back_references(alloc: Global, input: &str) -> Result<Vec<BackReference>, Error>
    ensures listed { IfOk result (λ found. spec.AreReferences input.now (map note_of found.items)) }
    ensures rejected { IfErr result (λ e. spec.IsRejected None input.now e) }
    ensures laws { spec.GrammarLaws input.now }
{
    match copy_references(alloc, input) {
        Ok(references) => Ok(references),
        Err(failure) => Err(failure.error(alloc, input)),
    }
}

/// Makes an arena that is large enough to read the symbol that `input` begins with. Requests no memory for a text that
/// doesn't begin with `?`.
fn arena_for(alloc: Global, input: &str, limits: Limits) -> Result<Bump<Fuse>, AllocError> {
    Bump::try_with_capacity(Fuse::new(alloc), arena_to_read(input, limits.nodes))
}

/// Reads the symbol that `input` begins with, and returns its tree and its length in bytes.
fn read_tree<'a>(
    alloc: Global,
    input: &'a str,
    limits: Limits,
) -> Result<(ParseResult<'a>, usize), Failure>
    ensures read { IfOk result (λ r. (notes : List Note)
        × IsSymbolRead limits.nodes input.now (tree_of r.0) r.1 notes) }
    ensures fails { IfErr result (λ reason. Fails limits.nodes input.now reason) }
    ensures inside { IfErr result (λ reason. IsInside input.now reason) }
{
    let arena = arena_for(alloc, input, limits)?;
    let SymbolRead { symbol, length, .. } = read(&arena, input, limits)?;
    match nodes_to_tree(alloc, &symbol) {
        Ok(tree) => Ok((tree, length)),
        Err(_) => Err(Failure::Memory),
    }
}

/// Reads the symbol that `input` begins with, and returns its length in bytes.
fn read_length(alloc: Global, input: &str, limits: Limits) -> Result<usize, Failure>
    ensures read { IfOk result (λ bytes. (tree : SymbolTree) × (notes : List Note)
        × IsSymbolRead limits.nodes input.now tree bytes notes) }
    ensures fails { IfErr result (λ reason. Fails limits.nodes input.now reason) }
    ensures inside { IfErr result (λ reason. IsInside input.now reason) }
{
    let arena = arena_for(alloc, input, limits)?;
    let read = read(&arena, input, limits)?;
    Ok(read.length)
}

/// Reads the symbol that `input` begins with, and copies the list of its back references.
fn copy_references(alloc: Global, input: &str) -> Result<Vec<BackReference>, Failure>
    ensures listed { IfOk result (λ found. spec.AreReferences input.now (map note_of found.items)) }
    ensures fails { IfErr result (λ reason. Fails None input.now reason) }
    ensures inside { IfErr result (λ reason. IsInside input.now reason) }
{
    let limits = Limits::none();
    let arena = arena_for(alloc, input, limits)?;
    let read = read(&arena, input, limits)?;
    match Vec::from_slice(alloc, &read.references) {
        Ok(copied) => Ok(copied),
        Err(_) => Err(Failure::Memory),
    }
}
