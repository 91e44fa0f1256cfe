//! The two steps of all calls: [`read`] reads a symbol, and [`print`] prints its declaration.

ghost use Rattle.std.specs.Prelude.{◌≡◌, IfErr, IfOk, None, map, unwrap_or};
ghost use Rattle.msvc_nodes.specs.NodeView.{typed_symbol_of};
ghost use Rattle.msvc_nodes.specs.Trees.{SymbolTree};
ghost use Rattle.msvc_rules.specs.Counts.{node_count};
ghost use Rattle.msvc_rules.specs.Limits.{IsWithin};
ghost use Rattle.msvc_rules.specs.Parsed.{AreReferencesIn, GrammarLawsIn, IsParsedIn, IsSymbolLengthIn};
ghost use Rattle.msvc_full_grammar.specs.Parsed.{FullLaws, full_dialect};
ghost use Rattle.msvc_cursor.specs.Errors.{IsInside};
ghost use Rattle.msvc_cursor.specs.Failures.{FailsIn};
ghost use Rattle.msvc_cursor.specs.Notes.{note_of};
ghost use Rattle.msvc_cursor.specs.SymbolsRead.{IsSymbolReadIn};
ghost use Rattle.msvc_print.specs.Declaration.{declaration};
ghost use Rattle.msvc_print.specs.NamePlaces.{IsNamePlace};
ghost use Rattle.msvc_symbol.specs.Demangled.{IsDeclaredAs, IsDeclaredAsIn, IsNamedAsIn};
ghost use Rattle.msvc_symbol.specs.Failures.{IsFailure, IsFailureIn};
ghost use Rattle.msvc_symbol.specs.Grammars.{declaration_in, dialect_of, styled, word_with};
ghost use Rattle.msvc_symbol.specs.Steps.{IsPrinted, IsUnprinted};

use crate::grammar::Grammar;
use alloc_fuse::Fuse;
use bumpalo::Bump;
use msvc_cursor::back_references::BackReference;
use msvc_cursor::failure::Failure;
use msvc_cursor::limits::Limits;
use msvc_cursor::symbol_read::SymbolRead;
use msvc_nodes::flags::DemangleFlags;
use msvc_nodes::nodes::TypedSymbol;
use msvc_nodes::sizes::{arena_to_print, text_of};
use msvc_print::{NamePlace, Style, Text, Wording, print_named, print_styled};
use std::alloc::{Allocator, Global};

/// Reads the symbol of a grammar that `input` begins with, within the limit on nodes. All memory is the arena's.
///
/// # Errors
///
/// Fails if `input` begins with no symbol, if its tree has more nodes than allowed, or if an allocation fails.
#[inline(always)]
pub fn read<'a, 'b, A: Allocator>(
    grammar: Grammar,
    arena: &'b Bump<A>,
    input: &'a str,
    limits: Limits,
) -> Result<SymbolRead<'a, 'b, A>, Failure>
    ensures read { IfOk result (λ r. IsSymbolReadIn (dialect_of grammar) limits.nodes input.now
        (typed_symbol_of r.symbol) r.length (map note_of r.references.items)) }
    ensures fails { IfErr result (λ failure. FailsIn (dialect_of grammar) limits.nodes input.now failure) }
    ensures inside { IfErr result (λ failure. IsInside input.now failure) }
    ensures laws { GrammarLawsIn (dialect_of grammar) input.now }
{
    match grammar {
        Grammar::Crate => msvc_productions::read(arena, input, limits),
        Grammar::Full => read_full(arena, input, limits),
    }
}

/// Reads a symbol of Full as [`read`] does, out of the way of the other grammar.
#[cold]
fn read_full<'a, 'b, A: Allocator>(
    arena: &'b Bump<A>,
    input: &'a str,
    limits: Limits,
) -> Result<SymbolRead<'a, 'b, A>, Failure>
    ensures read { IfOk result (λ r. IsSymbolReadIn full_dialect limits.nodes input.now (typed_symbol_of r.symbol)
        r.length (map note_of r.references.items)) }
    ensures fails { IfErr result (λ failure. FailsIn full_dialect limits.nodes input.now failure) }
    ensures inside { IfErr result (λ failure. IsInside input.now failure) }
    ensures laws { FullLaws input.now }
{
    msvc_full_readers::read(arena, input, limits)
}

/// Prints the declaration of a symbol of a grammar, which takes `length` bytes, to `text`, which it empties first, within
/// the limit on bytes. The printer's stack is in `arena`.
///
/// # Errors
///
/// Fails if the declaration has more bytes than allowed, or if an allocation fails.
#[inline(always)]
pub fn print<'a, 'b, B: Allocator, A: Allocator>(
    grammar: Grammar,
    arena: &'b Bump<B>,
    symbol: &'b TypedSymbol<'a, 'b>,
    length: usize,
    flags: DemangleFlags,
    limits: Limits,
    text: &mut Text<A>,
) -> Result<(), Failure>
    ensures printed { IfOk result (λ _.
        IsPrinted limits.bytes (declaration_in grammar (typed_symbol_of symbol.now) flags.0) text.new.text) }
    ensures fails { IfErr result (λ failure.
        IsUnprinted limits.bytes (declaration_in grammar (typed_symbol_of symbol.now) flags.0) length failure) }
{
    match grammar {
        Grammar::Crate => print_in(arena, symbol, length, Style::new(flags), limits, text),
        Grammar::Full => print_in(arena, symbol, length, Style::full(flags), limits, text),
    }
}

/// Returns the limit on bytes as a number, which is `usize::MAX` without a limit.
#[inline(always)]
fn max_bytes(limits: Limits) -> usize
    ensures { result ≡ unwrap_or limits.bytes usize.MAX }
{
    match limits.bytes {
        Some(bytes) => bytes,
        None => usize::MAX,
    }
}

/// Prints as [`print`] does, in a style.
#[inline(always)]
fn print_in<'a, 'b, W: Wording, B: Allocator, A: Allocator>(
    arena: &'b Bump<B>,
    symbol: &'b TypedSymbol<'a, 'b>,
    length: usize,
    style: Style<W>,
    limits: Limits,
    text: &mut Text<A>,
) -> Result<(), Failure>
    ensures printed { IfOk result (λ _.
        IsPrinted limits.bytes (declaration (typed_symbol_of symbol.now) style.bits) text.new.text) }
    ensures fails { IfErr result (λ failure.
        IsUnprinted limits.bytes (declaration (typed_symbol_of symbol.now) style.bits) length failure) }
{
    text.try_reserve_once(text_of(length))?;
    if print_styled(arena, symbol, style, max_bytes(limits), text)? {
        Ok(())
    } else {
        Err(Failure::TooLong(length))
    }
}

/// Reads the symbol of a grammar that `input` begins with, and prints its declaration to `text`. Returns the bytes that
/// the symbol takes.
///
/// # Errors
///
/// Fails if `input` begins with no symbol, if its tree or its declaration exceeds a limit, or if an allocation fails.
#[inline(always)]
pub(crate) fn declare<B: Allocator, A: Allocator>(
    grammar: Grammar,
    arena: &Bump<B>,
    input: &str,
    flags: DemangleFlags,
    limits: Limits,
    text: &mut Text<A>,
) -> Result<usize, Failure>
    ensures declared { IfOk result (λ length.
        IsDeclaredAsIn grammar limits input.now flags.0 length text.new.text) }
    ensures fails { IfErr result (λ failure. IsFailureIn grammar limits input.now flags.0 failure) }
    ensures inside { IfErr result (λ failure. IsInside input.now failure) }
{
    let SymbolRead { symbol, length, .. } = read(grammar, arena, input, limits)?;
    print(grammar, arena, &symbol, length, flags, limits, text)?;
    Ok(length)
}

/// What was read and printed of a symbol.
#[derive(Clone, Copy)]
pub struct Named {
    /// Bytes that the symbol takes.
    pub length: usize,
    /// Where the name of the symbol stands in its declaration.
    pub place: NamePlace,
}

/// Does what [`declare`] does, says where the name stands, and in Full leaves out what flags of `llvm-undname` drop.
///
/// # Errors
///
/// Fails where [`declare`] does.
#[cold]
pub(crate) fn declare_named<B: Allocator, A: Allocator>(
    grammar: Grammar,
    arena: &Bump<B>,
    input: &str,
    flags: DemangleFlags,
    left_out: u64,
    limits: Limits,
    text: &mut Text<A>,
) -> Result<Named, Failure>
    ensures declared { IfOk result (λ named.
        IsNamedAsIn grammar limits input.now (word_with grammar flags.0 left_out) named text.new.text) }
    ensures fails { IfErr result (λ failure.
        IsFailureIn grammar limits input.now (word_with grammar flags.0 left_out) failure) }
    ensures inside { IfErr result (λ failure. IsInside input.now failure) }
{
    let SymbolRead { symbol, length, .. } = read(grammar, arena, input, limits)?;
    let place = print_with(
        grammar, arena, &symbol, length, flags, left_out, limits, text,
    )?;
    Ok(Named { length, place })
}

/// Prints as [`print`] does, and returns where the name stands.
fn print_with<'a, 'b, B: Allocator, A: Allocator>(
    grammar: Grammar,
    arena: &'b Bump<B>,
    symbol: &'b TypedSymbol<'a, 'b>,
    length: usize,
    flags: DemangleFlags,
    left_out: u64,
    limits: Limits,
    text: &mut Text<A>,
) -> Result<NamePlace, Failure>
    ensures printed { IfOk result (λ _. IsPrinted limits.bytes
        (declaration_in grammar (typed_symbol_of symbol.now) (word_with grammar flags.0 left_out)) text.new.text) }
    ensures named { IfOk result (λ place. IsNamePlace (typed_symbol_of symbol.now)
        (styled grammar (word_with grammar flags.0 left_out)) place) }
    ensures fails { IfErr result (λ failure. IsUnprinted limits.bytes
        (declaration_in grammar (typed_symbol_of symbol.now) (word_with grammar flags.0 left_out)) length failure) }
{
    match grammar {
        Grammar::Crate => name_in(arena, symbol, length, Style::new(flags), limits, text),
        Grammar::Full => {
            let style = Style::full_with(flags, left_out);
            name_in(arena, symbol, length, style, limits, text)
        }
    }
}

/// Prints as [`print_in`] does, and returns where the name stands.
fn name_in<'a, 'b, W: Wording, B: Allocator, A: Allocator>(
    arena: &'b Bump<B>,
    symbol: &'b TypedSymbol<'a, 'b>,
    length: usize,
    style: Style<W>,
    limits: Limits,
    text: &mut Text<A>,
) -> Result<NamePlace, Failure>
    ensures printed { IfOk result (λ _.
        IsPrinted limits.bytes (declaration (typed_symbol_of symbol.now) style.bits) text.new.text) }
    ensures named { IfOk result (λ place. IsNamePlace (typed_symbol_of symbol.now) style.bits place) }
    ensures fails { IfErr result (λ failure.
        IsUnprinted limits.bytes (declaration (typed_symbol_of symbol.now) style.bits) length failure) }
{
    text.try_reserve_once(text_of(length))?;
    match print_named(arena, symbol, style, max_bytes(limits), text)? {
        Some(place) => Ok(place),
        None => Err(Failure::TooLong(length)),
    }
}

/// Does what [`declare`] does for a symbol of the crate's grammar, in an arena that is made for it.
///
/// # Errors
///
/// Fails where [`declare`] does.
pub fn declare_once<A: Allocator + Copy>(
    alloc: A,
    input: &str,
    flags: DemangleFlags,
    limits: Limits,
    text: &mut Text<A>,
) -> Result<usize, Failure>
    ensures declared { IfOk result (λ length. IsDeclaredAs limits input.now flags.0 length text.new.text) }
    ensures fails { IfErr result (λ failure. IsFailure limits input.now flags.0 failure) }
    ensures inside { IfErr result (λ failure. IsInside input.now failure) }
{
    let arena = Bump::try_with_capacity(Fuse::new(alloc), arena_to_print(input, limits.nodes))?;
    declare(Grammar::Crate, &arena, input, flags, limits, text)
}

/// Returns the length in bytes of the symbol of a grammar that `input` begins with, within the limit on nodes.
///
/// # Errors
///
/// Fails where [`read`] does.
#[inline(always)]
pub(crate) fn measure<B: Allocator>(
    grammar: Grammar,
    arena: &Bump<B>,
    input: &str,
    limits: Limits,
) -> Result<usize, Failure>
    ensures parsed { IfOk result (λ _. (tree : SymbolTree) × IsParsedIn (dialect_of grammar) input.now tree
        × IsWithin limits.nodes (node_count tree)) }
    ensures length { IfOk result (λ bytes. IsSymbolLengthIn (dialect_of grammar) bytes input.now) }
    ensures fails { IfErr result (λ failure. FailsIn (dialect_of grammar) limits.nodes input.now failure) }
    ensures inside { IfErr result (λ failure. IsInside input.now failure) }
{
    let SymbolRead { length, .. } = read(grammar, arena, input, limits)?;
    Ok(length)
}

/// Returns a copy of the list of the back references of the symbol of a grammar that `input` begins with.
///
/// # Errors
///
/// Fails if `input` begins with no symbol, or if an allocation fails.
pub(crate) fn copy_references<B: Allocator>(
    grammar: Grammar,
    alloc: Global,
    arena: &Bump<B>,
    input: &str,
) -> Result<Vec<BackReference>, Failure>
    ensures listed { IfOk result (λ found.
        AreReferencesIn (dialect_of grammar) input.now (map note_of found.items)) }
    ensures fails { IfErr result (λ failure. FailsIn (dialect_of grammar) None input.now failure) }
    ensures inside { IfErr result (λ failure. IsInside input.now failure) }
{
    let read = read(grammar, arena, input, Limits::none())?;
    match Vec::from_slice(alloc, &read.references) {
        Ok(copied) => Ok(copied),
        Err(_) => Err(Failure::Memory),
    }
}
