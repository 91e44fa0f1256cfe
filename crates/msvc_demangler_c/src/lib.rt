//! The demangler for C: the calls that `include/msvc_demangler.h` declares. They take and return bytes, keep no state,
//! and can be called by any number of threads.
#![tactic(auto)]

ghost use Rattle.std.specs.Prelude.{◌≡◌, ℕ, List, length};
ghost use Rattle.msvc_demangler.specs.Limits.{limits_of};
ghost use Rattle.msvc_c_calls.specs.Buffers.{IsWritten};
ghost use Rattle.msvc_c_calls.specs.Calls.{IsFilteredInto, IsFound, IsMeasured, grammar_of};
ghost use Rattle.msvc_demangler_c.specs.Version.{version};

use msvc_c_calls::{CallResult, NOT_UTF8, declare, filter, measure, not_utf8, unmeasured, write};
use msvc_demangler::{Demangler, Limits};
use std::alloc::Global;
use std::str::from_utf8;

/// The version of the library.
const VERSION: &str = "0.11.0";

/// Writes the declaration of the symbol that these bytes begin with, or why there is none, into `out` by the rules of
/// `snprintf`: cut short if it does not fit, and with a NUL after it. The symbol's tree may have at most `max_nodes`
/// nodes and the declaration at most `max_bytes` bytes; 2^64 - 1 is no limit.
#[unsafe(no_mangle)]
pub extern "C" fn msvc_demangler_demangle(
    alloc: Global,
    symbol: &[u8],
    flags: u32,
    max_nodes: usize,
    max_bytes: usize,
    out: &mut [u8],
) -> CallResult
    ensures { (text : List ℕ)
        × IsFound (grammar_of flags) (limits_of max_nodes max_bytes) symbol.now flags
        result.status result.offset text
        × (result.length ≡ length text) × IsWritten text out.old out.new }
{
    match from_utf8(symbol) {
        Ok(symbol) => {
            let limits = Limits::new(max_nodes, max_bytes);
            declare(&mut Demangler::new(alloc), symbol, flags, limits, out)
        }
        Err(fault) => not_utf8(fault.valid_up_to(), out),
    }
}

/// Returns the length in bytes of the symbol that a longer text begins with, with the same limit on nodes. Of the flags
/// only that of the grammar matters.
#[unsafe(no_mangle)]
pub extern "C" fn msvc_demangler_prefix(
    alloc: Global,
    symbol: &[u8],
    flags: u32,
    max_nodes: usize,
) -> CallResult
    ensures { IsMeasured (grammar_of flags) (limits_of max_nodes usize.MAX) symbol.now
        result.status result.offset result.length }
{
    match from_utf8(symbol) {
        Ok(symbol) => {
            let limits = Limits::new(max_nodes, usize::MAX);
            measure(&mut Demangler::new(alloc), symbol, flags, limits)
        }
        Err(fault) => unmeasured(NOT_UTF8, fault.valid_up_to()),
    }
}

/// Writes a text, with each symbol inside it replaced by its declaration, into `out` by the rules of `snprintf`. The
/// limits on a symbol are the default ones.
#[unsafe(no_mangle)]
pub extern "C" fn msvc_demangler_filter(
    alloc: Global,
    text: &[u8],
    flags: u32,
    out: &mut [u8],
) -> CallResult
    ensures filtered { IsFilteredInto (grammar_of flags) flags text.now out.old out.new
        result.status result.length }
    ensures offset { result.offset ≡ 0 }
{
    filter(&mut Demangler::new(alloc), text, flags, out)
}

/// Writes the version into `out`, by the same rules, and returns its length in bytes.
#[unsafe(no_mangle)]
pub extern "C" fn msvc_demangler_version(out: &mut [u8]) -> usize
    ensures written { IsWritten version out.old out.new }
    ensures length { result ≡ length version }
{
    write(VERSION, out)
}
