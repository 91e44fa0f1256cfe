//! The calls of both libraries, over a demangler of any memory.

ghost use Rattle.std.specs.Prelude.{◌≡◌, ◌≢◌, ℕ, IfNone, IfSome, List, length};
ghost use Rattle.msvc_cursor.specs.declared.failure.Failure.TheVariants as why;
ghost use Rattle.msvc_demangler.specs.Failures.{FailsIn, IsFailureText, IsInside};
ghost use Rattle.msvc_demangler.specs.Failures.{limit_of_failure, offset_of_failure};
ghost use Rattle.msvc_demangler.specs.CallLimits as spec;
ghost use Rattle.msvc_demangler.specs.GrammarNames as names;
ghost use Rattle.msvc_demangler.specs.Grammars.{dialect_of};
ghost use Rattle.msvc_c_calls.specs.Buffers.{IsWritten};
ghost use Rattle.msvc_c_calls.specs.Calls.{IsFilteredInto, IsFound, IsMeasured, IsNotRead};
ghost use Rattle.msvc_c_calls.specs.Calls.{grammar_of, not_utf8_text, out_of_memory_text};
ghost use Rattle.msvc_c_calls.specs.Reasons.{IsReason, IsStatusOf};

use crate::{
    CallResult, FULL, NOT_UTF8, NOT_UTF8_TEXT, OK, OUT_OF_MEMORY, OUT_OF_MEMORY_TEXT, end_filtered,
    status_of, write,
};
use bumpalo::Bump;
use msvc_demangler::{DemangleFlags, Demangler, Failure, Flags, Grammar, Limits, filter_slice_as};
use std::alloc::Allocator;

/// Returns the grammar that a word of flags chooses: Full with the flag FULL, else the crate's.
pub fn grammar_of(flags: u32) -> Grammar
    ensures { result ≡ grammar_of flags }
{
    if flags < FULL {
        Grammar::Crate
    } else {
        Grammar::Full
    }
}

/// Writes that memory ran out, and returns that.
pub fn out_of_memory(out: &mut [u8]) -> CallResult
    ensures result { (result.status ≡ 3) × (result.offset ≡ 0) × (result.length ≡ length out_of_memory_text) }
    ensures written { IsWritten out_of_memory_text out.old out.new }
{
    CallResult {
        status: OUT_OF_MEMORY,
        offset: 0,
        length: write(OUT_OF_MEMORY_TEXT, out),
    }
}

/// Writes that a symbol is UTF-8 up to an offset only, and returns that.
pub fn not_utf8(offset: usize, out: &mut [u8]) -> CallResult
    ensures result { (result.status ≡ 2) × (result.offset ≡ offset) × (result.length ≡ length not_utf8_text) }
    ensures written { IsWritten not_utf8_text out.old out.new }
{
    CallResult {
        status: NOT_UTF8,
        offset,
        length: write(NOT_UTF8_TEXT, out),
    }
}

/// Returns that a symbol has no length.
pub fn unmeasured(status: u32, offset: usize) -> CallResult
    ensures { (result.status ≡ status) × (result.offset ≡ offset) × (result.length ≡ 0) }
{
    CallResult {
        status,
        offset,
        length: 0,
    }
}

/// Writes the declaration of a symbol, or why it has none, into `out`.
pub fn declare<A: Allocator + Copy>(
    demangler: &mut Demangler<A>,
    symbol: &str,
    flags: u32,
    limits: Limits,
    out: &mut [u8],
) -> CallResult
    ensures { (shown : List ℕ)
        × IsFound (grammar_of flags) limits symbol.now flags result.status result.offset shown
        × (result.length ≡ length shown) × IsWritten shown out.old out.new }
{
    let style = DemangleFlags::from_bits_retain(flags);
    let failure = match demangler.declaration(grammar_of(flags), symbol, style, limits) {
        Ok(declaration) => {
            return CallResult {
                status: OK,
                offset: 0,
                length: write(declaration, out),
            };
        }
        Err(failure) => failure,
    };
    write_reason(demangler.arena(), failure, symbol, out)
}

/// Measures how many bytes a symbol takes.
pub fn measure<A: Allocator + Copy>(
    demangler: &mut Demangler<A>,
    symbol: &str,
    flags: u32,
    limits: Limits,
) -> CallResult
    ensures { IsMeasured (grammar_of flags) limits symbol.now result.status result.offset result.length }
{
    match demangler.measure(grammar_of(flags), symbol, limits) {
        Ok(length) => CallResult {
            status: OK,
            offset: 0,
            length,
        },
        Err(failure) => unread(failure, symbol),
    }
}

/// Writes a text, with each symbol inside it replaced by its declaration, into `out`.
pub fn filter<A: Allocator + Copy>(
    demangler: &mut Demangler<A>,
    input: &[u8],
    flags: u32,
    out: &mut [u8],
) -> CallResult
    ensures filtered { IsFilteredInto (grammar_of flags) flags input.now out.old out.new
        result.status result.length }
    ensures offset { result.offset ≡ 0 }
{
    let style = DemangleFlags::from_bits_retain(flags);
    let room = out.len().saturating_sub(1);
    let found = filter_slice_as(demangler, grammar_of(flags), input, style, &mut out[..room]);
    end_filtered(found, out)
}

/// Returns why a symbol is not read.
pub fn unread(failure: Failure, symbol: &str) -> CallResult
    ensures { (g : names.Grammar) (limits : spec.Limits) → FailsIn (dialect_of g) limits.nodes symbol.now failure
        → (text : List ℕ) × IsNotRead g limits symbol.now result.status result.offset text × (result.length ≡ 0) }
{
    match rejection(failure, symbol) {
        Some((status, offset)) => unmeasured(status, offset),
        None => unmeasured(OUT_OF_MEMORY, 0),
    }
}

/// Writes why a call fails. The text is made in `arena`.
pub fn write_reason<A: Allocator>(
    arena: &Bump<A>,
    failure: Failure,
    symbol: &str,
    out: &mut [u8],
) -> CallResult
    requires { IsInside symbol.now failure }
    ensures { (shown : List ℕ) × IsReason symbol.now failure result.status result.offset shown
        × (result.length ≡ length shown) × IsWritten shown out.old out.new }
{
    let Some((status, offset)) = rejection(failure, symbol) else {
        return out_of_memory(out);
    };
    match write_text(arena, failure, symbol, out) {
        Some(length) => CallResult {
            status,
            offset,
            length,
        },
        None => out_of_memory(out),
    }
}

/// Writes the text of a failure, which is made in the arena, and returns its length in bytes.
fn write_text<A: Allocator>(
    arena: &Bump<A>,
    failure: Failure,
    symbol: &str,
    out: &mut [u8],
) -> Option<usize>
    requires { IsInside symbol.now failure }
    ensures none { IfNone result (out.new ≡ out.old) }
    ensures some { IfSome result (λ count. (shown : List ℕ) × IsFailureText symbol.now failure shown
        × (count ≡ length shown) × IsWritten shown out.old out.new) }
{
    match failure.text(arena, symbol) {
        Ok(text) => Some(write(&text, out)),
        Err(_) => None,
    }
}

/// Returns the status and the offset of a failure that rejects a symbol, or `None` if memory ran out.
fn rejection(failure: Failure, symbol: &str) -> Option<(u32, usize)>
    ensures status { IfSome result (λ r. IsStatusOf (limit_of_failure failure) r.0) }
    ensures offset { IfSome result (λ r. r.1 ≡ offset_of_failure symbol.now failure) }
    ensures memory { IfSome result (λ _. failure ≢ why.Memory) }
{
    if failure.is_out_of_memory() {
        return None;
    }
    Some((status_of(failure.limit()), failure.offset(symbol)))
}
