//! The search for a byte: one by one, 16 at once, and by `memchr`.

ghost use Rattle.std.specs.List.{position_or_len};
ghost use Rattle.std.specs.Prelude.{◌==◌, ◌≡◌, ◌≤◌, ◌<◌, IfSome, length, take};
ghost use Rattle.memchr.specs.Find.{IsFirstByte};

use memchr::memchr;
use std::simd::prelude::*;

/// How many bytes are tested at once.
const BLOCK: usize = 16;

/// Returns the index of the first `byte`. Tests bytes one by one if they are few, else the first 16 at once, and calls
/// `memchr` only for those after them.
#[inline(always)]
pub fn find_byte(byte: u8, bytes: &[u8]) -> Option<usize>
    ensures first { IsFirstByte (λ b. b == byte) bytes.now result }
    ensures inside { IfSome result (λ n. n < length bytes.now) }
{
    if bytes.len() < BLOCK {
        'bytes: for i in 0..bytes.len() {
            if bytes[i] == byte {
                return Some(i);
            }
        }
        return None;
    }
    let before = bytes_before(byte, bytes);
    if before < BLOCK {
        return Some(before);
    }
    match memchr(byte, &bytes[BLOCK..]) {
        Some(index) => Some(BLOCK + index),
        None => None,
    }
}

/// Returns how many of the first bytes precede the first `byte`: all of them if it is not among them.
fn bytes_before(byte: u8, bytes: &[u8]) -> usize
    requires { 16 ≤ length bytes.now }
    ensures { result ≡ position_or_len (λ b. b == byte) (take 16 bytes.now) }
{
    let marks = u8x16::from_slice(bytes)
        .simd_eq(u8x16::splat(byte))
        .to_bitmask();
    if marks == 0 {
        return BLOCK;
    }
    marks.trailing_zeros() as usize
}
