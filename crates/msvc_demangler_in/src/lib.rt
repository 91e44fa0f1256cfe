//! The demangler for C without malloc: the calls that `include/msvc_demangler_in.h` declares. They take all memory from
//! workspaces that the caller lends, and call nothing of the C library.
#![tactic(auto)]

ghost use Rattle.std.specs.Prelude.{◌≡◌, ℕ, List, length};
ghost use Rattle.msvc_demangler.specs.Limits.{limits_of};
ghost use Rattle.msvc_c_calls.specs.Calls.{IsFilteredInto, IsFound, IsMeasured, grammar_of};
ghost use Rattle.msvc_demangler_in.specs.Shown.{IsListed, IsShown};
ghost use Rattle.msvc_demangler_in.specs.Workspaces.{IsBack, IsWrittenUnless};

mod calls;
mod memory;
mod references;

use calls::{declare, filter, list, measure, show};
use lent_memory::Workspace;
use memory::{give_back, lend};
use msvc_c_calls::{CallResult, NOT_UTF8, OUT_OF_MEMORY, not_utf8, out_of_memory, unmeasured};
use msvc_demangler::Limits;
use references::Reference;
use std::str::from_utf8;

/// Does what `msvc_demangler_demangle` does, in the memory of `arena` and `text`, and returns that memory to them.
#[unsafe(no_mangle)]
pub extern "C" fn msvc_demangler_demangle_in_parts(
    symbol: &[u8],
    flags: u32,
    max_nodes: usize,
    max_bytes: usize,
    arena: &mut Workspace,
    text: &mut Workspace,
    out: &mut [u8],
) -> CallResult
    ensures found { (shown : List ℕ)
        × IsFound (grammar_of flags) (limits_of max_nodes max_bytes) symbol.now flags
        result.status result.offset shown
        × (result.length ≡ length shown) × IsWrittenUnless result.status shown out.old out.new }
    ensures arena { IsBack result.status arena.old.ptr arena.old.size arena.new.ptr arena.new.size }
    ensures text { IsBack result.status text.old.ptr text.old.size text.new.ptr text.new.size }
{
    match from_utf8(symbol) {
        Ok(symbol) => {
            let limits = Limits::new(max_nodes, max_bytes);
            demangle_in(symbol, flags, limits, arena, text, out)
        }
        Err(fault) => not_utf8(fault.valid_up_to(), out),
    }
}

/// Does what `msvc_demangler_prefix` does, in the memory of `arena`, and returns that memory to it.
#[unsafe(no_mangle)]
pub extern "C" fn msvc_demangler_prefix_in_parts(
    symbol: &[u8],
    flags: u32,
    max_nodes: usize,
    arena: &mut Workspace,
) -> CallResult
    ensures measured { IsMeasured (grammar_of flags) (limits_of max_nodes usize.MAX) symbol.now
        result.status result.offset result.length }
    ensures arena { IsBack result.status arena.old.ptr arena.old.size arena.new.ptr arena.new.size }
{
    match from_utf8(symbol) {
        Ok(symbol) => measure_in(symbol, flags, Limits::new(max_nodes, usize::MAX), arena),
        Err(fault) => unmeasured(NOT_UTF8, fault.valid_up_to()),
    }
}

/// Does what `msvc_demangler_filter` does, in the memory of `arena` and `text`, and returns that memory to them.
#[unsafe(no_mangle)]
pub extern "C" fn msvc_demangler_filter_in_parts(
    input: &[u8],
    flags: u32,
    arena: &mut Workspace,
    text: &mut Workspace,
    out: &mut [u8],
) -> CallResult
    ensures filtered { IsFilteredInto (grammar_of flags) flags input.now out.old out.new
        result.status result.length }
    ensures offset { result.offset ≡ 0 }
    ensures arena { IsBack result.status arena.old.ptr arena.old.size arena.new.ptr arena.new.size }
    ensures text { IsBack result.status text.old.ptr text.old.size text.new.ptr text.new.size }
{
    let arena_memory = lend(arena);
    let text_memory = lend(text);
    let found = filter(&arena_memory, &text_memory, input, flags, out);
    let has_arena = give_back(arena_memory, arena);
    let has_text = give_back(text_memory, text);
    if has_arena && has_text {
        found
    } else {
        out_of_memory(out)
    }
}

/// Writes the tree of a symbol, in the memory of `arena`, which has it again after the call.
#[unsafe(no_mangle)]
pub extern "C" fn msvc_demangler_tree_in_parts(
    symbol: &[u8],
    flags: u32,
    max_nodes: usize,
    arena: &mut Workspace,
    out: &mut [u8],
) -> CallResult
    ensures shown { (shown : List ℕ)
        × IsShown (grammar_of flags) (limits_of max_nodes usize.MAX) symbol.now
        result.status result.offset shown
        × (result.length ≡ length shown) × IsWrittenUnless result.status shown out.old out.new }
    ensures arena { IsBack result.status arena.old.ptr arena.old.size arena.new.ptr arena.new.size }
{
    match from_utf8(symbol) {
        Ok(symbol) => show_in(
            symbol,
            flags,
            Limits::new(max_nodes, usize::MAX),
            arena,
            out,
        ),
        Err(fault) => not_utf8(fault.valid_up_to(), out),
    }
}

/// Lists the back references of a symbol, in the memory of `arena`, which has it again after the call.
#[unsafe(no_mangle)]
pub extern "C" fn msvc_demangler_references_in_parts(
    symbol: &[u8],
    flags: u32,
    max_nodes: usize,
    arena: &mut Workspace,
    out: &mut [Reference],
) -> CallResult
    ensures listed { IsListed (grammar_of flags) (limits_of max_nodes usize.MAX) symbol.now out.old out.new
        result.status result.offset result.length }
    ensures arena { IsBack result.status arena.old.ptr arena.old.size arena.new.ptr arena.new.size }
{
    match from_utf8(symbol) {
        Ok(symbol) => list_in(
            symbol,
            flags,
            Limits::new(max_nodes, usize::MAX),
            arena,
            out,
        ),
        Err(fault) => unmeasured(NOT_UTF8, fault.valid_up_to()),
    }
}

/// Writes the declaration of a symbol that is UTF-8, or why it has none.
fn demangle_in(
    symbol: &str,
    flags: u32,
    limits: Limits,
    arena: &mut Workspace,
    text: &mut Workspace,
    out: &mut [u8],
) -> CallResult
    ensures found { (shown : List ℕ)
        × IsFound (grammar_of flags) limits symbol.now flags result.status result.offset shown
        × (result.length ≡ length shown) × IsWrittenUnless result.status shown out.old out.new }
    ensures arena { IsBack result.status arena.old.ptr arena.old.size arena.new.ptr arena.new.size }
    ensures text { IsBack result.status text.old.ptr text.old.size text.new.ptr text.new.size }
{
    let arena_memory = lend(arena);
    let text_memory = lend(text);
    let found = declare(&arena_memory, &text_memory, symbol, flags, limits, out);
    let has_arena = give_back(arena_memory, arena);
    let has_text = give_back(text_memory, text);
    if has_arena && has_text {
        found
    } else {
        out_of_memory(out)
    }
}

/// Measures how many bytes a symbol takes that is UTF-8.
fn measure_in(symbol: &str, flags: u32, limits: Limits, arena: &mut Workspace) -> CallResult
    ensures measured { IsMeasured (grammar_of flags) limits symbol.now
        result.status result.offset result.length }
    ensures arena { IsBack result.status arena.old.ptr arena.old.size arena.new.ptr arena.new.size }
{
    let memory = lend(arena);
    let found = measure(&memory, symbol, flags, limits);
    if give_back(memory, arena) {
        found
    } else {
        unmeasured(OUT_OF_MEMORY, 0)
    }
}

/// Writes the tree of a symbol that is UTF-8, or why it has none.
fn show_in(
    symbol: &str,
    flags: u32,
    limits: Limits,
    arena: &mut Workspace,
    out: &mut [u8],
) -> CallResult
    ensures shown { (shown : List ℕ)
        × IsShown (grammar_of flags) limits symbol.now result.status result.offset shown
        × (result.length ≡ length shown) × IsWrittenUnless result.status shown out.old out.new }
    ensures arena { IsBack result.status arena.old.ptr arena.old.size arena.new.ptr arena.new.size }
{
    let memory = lend(arena);
    let found = show(&memory, symbol, flags, limits, out);
    let has_arena = give_back(memory, arena);
    if has_arena { found } else { out_of_memory(out) }
}

/// Lists the back references of a symbol that is UTF-8.
fn list_in(
    symbol: &str,
    flags: u32,
    limits: Limits,
    arena: &mut Workspace,
    out: &mut [Reference],
) -> CallResult
    ensures listed { IsListed (grammar_of flags) limits symbol.now out.old out.new
        result.status result.offset result.length }
    ensures arena { IsBack result.status arena.old.ptr arena.old.size arena.new.ptr arena.new.size }
{
    let memory = lend(arena);
    let found = list(&memory, symbol, flags, limits, out);
    let has_arena = give_back(memory, arena);
    if has_arena {
        found
    } else {
        unmeasured(OUT_OF_MEMORY, 0)
    }
}
