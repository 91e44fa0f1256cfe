//! The libraries for C, but for their symbols and their memory: the calls, over a demangler of any memory, their
//! results and statuses, and writing a text into a buffer.
#![tactic(auto)]

ghost use Rattle.std.specs.Prelude.{◌≡◌, IfErr, IfOk, length, set};
ghost use Rattle.msvc_c_calls.specs.Buffers.{IsWritten};
ghost use Rattle.msvc_c_calls.specs.Calls.{out_of_memory_text};
ghost use Rattle.msvc_c_calls.specs.Reasons.{IsStatusOf};

mod calls;

pub use calls::{
    declare, filter, grammar_of, measure, not_utf8, out_of_memory, unmeasured, unread, write_reason,
};
use msvc_demangler::{Filtered, Limit};
use std::alloc::AllocError;

/// The status of a declaration, a length or a filtered text.
pub const OK: u32 = 0;

/// The status of an input that begins with no symbol.
const INVALID: u32 = 1;

/// The status of an input that is not UTF-8.
pub const NOT_UTF8: u32 = 2;

/// The status of a call that ran out of memory.
pub const OUT_OF_MEMORY: u32 = 3;

/// The status of a text that begins with no symbol within the limit on nodes, and may begin with a larger one.
const TOO_MANY_NODES: u32 = 4;

/// The status of a symbol whose declaration has more bytes than allowed.
const TOO_LONG: u32 = 5;

/// The flag of the grammar Full: the highest bit of a word of flags, which no flag of printing has.
const FULL: u32 = 0x8000_0000;

/// The text of a symbol that is not UTF-8.
const NOT_UTF8_TEXT: &str = "not UTF-8";

/// The text of a call that is out of memory.
const OUT_OF_MEMORY_TEXT: &str = "out of memory";

/// The result of a call: `struct msvc_demangler_result` of the header.
#[repr(C)]
#[derive(Drop)]
pub struct CallResult {
    /// One of the statuses.
    pub status: u32,
    /// The offset in bytes at which the symbol was rejected, or up to which it is UTF-8; else 0.
    pub offset: usize,
    /// The bytes of the whole text, without the NUL after it, whether it fits or not; or the bytes of the symbol.
    pub length: usize,
}

/// Returns the status of a rejected symbol by the limit that its error is about.
fn status_of(limit: Option<Limit>) -> u32
    ensures { IsStatusOf limit result }
{
    match limit {
        None => INVALID,
        Some(Limit::Nodes) => TOO_MANY_NODES,
        Some(Limit::Bytes) => TOO_LONG,
    }
}

/// Writes a text and a NUL into a buffer, cut short before a character if they do not fit, and returns the length of
/// the text in bytes.
pub fn write(text: &str, out: &mut [u8]) -> usize
    ensures written { IsWritten text.now out.old out.new }
    ensures length { result ≡ length text.now }
{
    let whole = text.len();
    if out.is_empty() {
        return whole;
    }
    let cut = text.floor_char_boundary(out.len() - 1);
    out[..cut].copy_from_slice(&text.as_bytes()[..cut]);
    out[cut] = 0;
    whole
}

/// Writes a NUL after the bytes that the filter has written into a buffer without its last byte, and returns the result
/// of the call. If memory ran out, writes that message instead.
fn end_filtered(found: Result<Filtered, AllocError>, out: &mut [u8]) -> CallResult
    ensures offset { result.offset ≡ 0 }
    ensures filtered { IfOk found (λ f. (result.status ≡ 0) × (result.length ≡ f.length)
        × (out.new ≡ set out.old f.written 0)) }
    ensures not_filtered { IfErr found (λ _. (result.status ≡ 3) × (result.length ≡ length out_of_memory_text)
        × IsWritten out_of_memory_text out.old out.new) }
{
    match found {
        Ok(Filtered { length, written }) => {
            if written < out.len() {
                out[written] = 0;
            }
            CallResult {
                status: OK,
                offset: 0,
                length,
            }
        }
        Err(_) => CallResult {
            status: OUT_OF_MEMORY,
            offset: 0,
            length: write(OUT_OF_MEMORY_TEXT, out),
        },
    }
}
