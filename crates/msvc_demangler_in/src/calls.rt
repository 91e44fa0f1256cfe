//! The calls in lent memory. What needs no memory of its own is in `msvc_c_calls`.

ghost use Rattle.std.specs.Prelude.{◌≡◌, ℕ, List, length};
ghost use Rattle.msvc_nodes.specs.NodeView.{typed_symbol_of};
ghost use Rattle.msvc_c_calls.specs.Buffers.{IsWritten};
ghost use Rattle.msvc_c_calls.specs.Calls.{IsFilteredInto, IsFound, IsMeasured, grammar_of};
ghost use Rattle.msvc_demangler_in.specs.Shown.{IsListed, IsShown};
ghost use Rattle.msvc_demangler_in.specs.TreeTexts.{IsTreeText};

use crate::memory::{demangler_in, demangler_without_text};
use crate::references::{Reference, write_references};
use bumpalo::Bump;
use lent_memory::Lent;
use msvc_c_calls::{
    self as calls, CallResult, OK, OUT_OF_MEMORY, grammar_of, out_of_memory, unmeasured,
};
use msvc_debug::write_tree;
use msvc_demangler::Limits;
use msvc_nodes::nodes::TypedSymbol;
use msvc_symbol::read;
use std::alloc::Allocator;

/// Writes the declaration of a symbol, or why it has none, into `out`.
pub(crate) fn declare(
    arena: &Lent,
    text: &Lent,
    symbol: &str,
    flags: u32,
    limits: Limits,
    out: &mut [u8],
) -> CallResult
    ensures { (shown : List ℕ)
        × IsFound (grammar_of flags) limits symbol.now flags result.status result.offset shown
        × (result.length ≡ length shown) × IsWritten shown out.old out.new }
{
    match demangler_in(arena, text) {
        Some(mut demangler) => calls::declare(&mut demangler, symbol, flags, limits, out),
        None => out_of_memory(out),
    }
}

/// Writes the tree of a symbol, or why it has none, into `out`.
pub(crate) fn show(
    memory: &Lent,
    symbol: &str,
    flags: u32,
    limits: Limits,
    out: &mut [u8],
) -> CallResult
    ensures { (shown : List ℕ)
        × IsShown (grammar_of flags) limits symbol.now result.status result.offset shown
        × (result.length ≡ length shown) × IsWritten shown out.old out.new }
{
    let Some(mut demangler) = demangler_without_text(memory) else {
        return out_of_memory(out);
    };
    let arena = demangler.arena();
    let failure = match read(grammar_of(flags), arena, symbol, limits) {
        Ok(read) => return write_tree_of(arena, &read.symbol, out),
        Err(failure) => failure,
    };
    calls::write_reason(demangler.arena(), failure, symbol, out)
}

/// Writes the tree of a symbol, as a text that is made in the arena, or the message that memory ran out.
fn write_tree_of<'a, 'b, A: Allocator>(
    arena: &'b Bump<A>,
    symbol: &'b TypedSymbol<'a, 'b>,
    out: &mut [u8],
) -> CallResult
    ensures { (shown : List ℕ) × IsTreeText (typed_symbol_of symbol.now) result.status result.offset shown
        × (result.length ≡ length shown) × IsWritten shown out.old out.new }
{
    let mut text = String::new(arena);
    match write_tree(arena, symbol, &mut text) {
        Ok(()) => CallResult {
            status: OK,
            offset: 0,
            length: calls::write(&text, out),
        },
        Err(_) => out_of_memory(out),
    }
}

/// Lists the back references of a symbol, and writes those for which `out` has places.
pub(crate) fn list(
    memory: &Lent,
    symbol: &str,
    flags: u32,
    limits: Limits,
    out: &mut [Reference],
) -> CallResult
    ensures { IsListed (grammar_of flags) limits symbol.now out.old out.new result.status result.offset result.length }
{
    let Some(mut demangler) = demangler_without_text(memory) else {
        return unmeasured(OUT_OF_MEMORY, 0);
    };
    match read(grammar_of(flags), demangler.arena(), symbol, limits) {
        Ok(read) => CallResult {
            status: OK,
            offset: 0,
            length: write_references(&read.references, out),
        },
        Err(failure) => calls::unread(failure, symbol),
    }
}

/// Measures how many bytes a symbol takes.
pub(crate) fn measure(memory: &Lent, symbol: &str, flags: u32, limits: Limits) -> CallResult
    ensures { IsMeasured (grammar_of flags) limits symbol.now result.status result.offset result.length }
{
    match demangler_without_text(memory) {
        Some(mut demangler) => calls::measure(&mut demangler, symbol, flags, limits),
        None => unmeasured(OUT_OF_MEMORY, 0),
    }
}

/// Writes a text, with each symbol inside it replaced by its declaration, into `out`.
pub(crate) fn filter(
    arena: &Lent,
    text: &Lent,
    input: &[u8],
    flags: u32,
    out: &mut [u8],
) -> CallResult
    ensures filtered { IsFilteredInto (grammar_of flags) flags input.now out.old out.new
        result.status result.length }
    ensures offset { result.offset ≡ 0 }
{
    match demangler_in(arena, text) {
        Some(mut demangler) => calls::filter(&mut demangler, input, flags, out),
        None => out_of_memory(out),
    }
}
