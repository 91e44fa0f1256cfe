//! Writes string literals: their characters with escapes, as far as a symbol has their bytes.
#![tactic(auto, using(crate::proofs::Settling::settling), unfolding(crate::specs::Strings::character, crate::specs::Strings::character_at, crate::specs::Strings::escape, crate::specs::Strings::hex, crate::specs::Strings::literal, crate::specs::Strings::narrow_width))]

ghost use Rattle.std.specs.Prelude.{◌≡◌, ◌≤◌, ◌<◌, ◌+◌, ◌*◌, OnOk, length, slice_index};
ghost use Rattle.msvc_print.specs.Limited.{Writes};
ghost use Rattle.msvc_print.specs.Strings as spec;

use crate::text::{Text, write_text};
use msvc_nodes::nodes::Number;
use std::alloc::{AllocError, Allocator};

/// Tells how wide the characters of a string are.
#[derive(Clone, Copy)]
pub enum Width {
    /// Takes two bytes, the high one first.
    Wide,
    /// Takes one byte.
    One,
    /// Takes two bytes, the low one first.
    Two,
    /// Takes four bytes, the lowest first.
    Four,
}

impl Width {
    /// Returns the number of bytes of a character.
    fn size(self) -> usize
        ensures { result ≡ spec.size self }
    {
        match self {
            Width::One => 1,
            Width::Wide | Width::Two => 2,
            Width::Four => 4,
        }
    }

    /// Returns what the text of a string begins with.
    fn start(self) -> &'static [u8]
        ensures { result.now ≡ spec.start self }
    {
        match self {
            Width::Wide => b"L\"",
            Width::One => b"\"",
            Width::Two => b"u\"",
            Width::Four => b"U\"",
        }
    }

    /// Returns the character whose bytes begin at a place.
    fn character_at(self, bytes: &[Number], at: usize) -> u32
        requires { at + spec.size self ≤ length bytes.now }
        ensures { result ≡ spec.character_at self (spec.bytes_of bytes.now) at }
    {
        match self {
            Width::Wide => 256 * byte_at(bytes, at) + byte_at(bytes, at + 1),
            Width::One => byte_at(bytes, at),
            Width::Two => byte_at(bytes, at) + 256 * byte_at(bytes, at + 1),
            Width::Four => {
                byte_at(bytes, at)
                    + 256 * byte_at(bytes, at + 1)
                    + 65536 * byte_at(bytes, at + 2)
                    + 16777216 * byte_at(bytes, at + 3)
            }
        }
    }
}

/// Returns the number of bytes.
fn count_bytes(bytes: &[Number]) -> usize
    ensures is { result ≡ length (spec.bytes_of bytes.now) }
    ensures len { result ≡ length bytes.now }
{
    bytes.len()
}

/// Returns the byte at a place.
fn byte_at(bytes: &[Number], at: usize) -> u32
    requires { at < length bytes.now }
    ensures is { result ≡ slice_index (spec.bytes_of bytes.now) at }
    ensures small { result < 256 }
{
    (bytes[at].value % 256) as u32
}

/// Returns the number of zero bytes with one byte more, among all of them or those at the end.
fn count_byte(zeros: usize, byte: u32, at_end: bool) -> usize
    requires { zeros < usize.MAX }
    ensures { result ≡ spec.count_zero at_end zeros byte }
{
    if byte == 0 {
        zeros + 1
    } else if at_end {
        0
    } else {
        zeros
    }
}

/// Returns the number of zero bytes, all of them or those at the end.
fn count_zeros(bytes: &[Number], at_end: bool) -> usize
    ensures { result ≡ spec.zeros_of at_end (spec.bytes_of bytes.now) }
{
    let mut zeros = 0;
    let mut at = 0;
    'bytes: while at < bytes.len() {
        zeros = count_byte(zeros, byte_at(bytes, at), at_end);
        at += 1;
    }
    zeros
}

/// Returns the width that zero bytes let guess: four bytes from `four` zero bytes on, if the length allows it, and two
/// from `two` on.
fn guessed(four: usize, two: usize, zeros: usize, len: u64) -> Width
    ensures { result ≡ spec.guessed four two zeros len }
{
    if zeros >= four && len % 4 == 0 {
        Width::Four
    } else if zeros >= two {
        Width::Two
    } else {
        Width::One
    }
}

/// Returns the width of the characters of a string that is not wide, by its length and the bytes that were read.
fn narrow_width(len: u64, bytes: &[Number]) -> Width
    ensures { result ≡ spec.narrow_width len (spec.bytes_of bytes.now) }
{
    if len % 2 == 1 {
        return Width::One;
    }
    if len < 32 {
        return guessed(4, 2, count_zeros(bytes, true), len);
    }
    let read = count_bytes(bytes);
    guessed(2 * read / 3, read / 3, count_zeros(bytes, false), len)
}

/// Returns the byte behind a backslash that stands for a character, if there is one.
fn escape(character: u32) -> Option<u8>
    ensures { result ≡ spec.escape character }
{
    match character {
        0 => Some(b'0'),
        7 => Some(b'a'),
        8 => Some(b'b'),
        9 => Some(b't'),
        10 => Some(b'n'),
        11 => Some(b'v'),
        12 => Some(b'f'),
        13 => Some(b'r'),
        34 => Some(b'"'),
        39 => Some(b'\''),
        92 => Some(b'\\'),
        _ => None,
    }
}

/// Returns a hex digit.
pub fn hex_digit(digit: u8) -> u8
    requires { digit < 16 }
    ensures { result ≡ spec.hex_digit digit }
{
    if digit < 10 {
        b'0' + digit
    } else {
        b'A' - 10 + digit
    }
}

/// Writes the hex digits of a byte.
fn write_hex_byte<A: Allocator>(out: &mut Text<A>, byte: u8) -> Result<(), AllocError>
    ensures { OnOk result (Writes (spec.hex_byte byte) out.old out.new) }
{
    write_text(out, &[hex_digit(byte / 16), hex_digit(byte % 16)])
}

/// Writes the hex digits of the byte of a number that `unit` is the lowest value of, if the number has so many bytes.
fn write_hex_from<A: Allocator>(out: &mut Text<A>, unit: u32, number: u32) -> Result<(), AllocError>
    requires { 0 < unit }
    ensures { OnOk result (Writes (spec.hex_from unit number) out.old out.new) }
{
    if number >= unit {
        write_hex_byte(out, (number / unit % 256) as u8)?;
    }
    Ok(())
}

/// Writes the hex digits of the bytes of a number, the highest first.
fn write_hex<A: Allocator>(out: &mut Text<A>, number: u32) -> Result<(), AllocError>
    ensures { OnOk result (Writes (spec.hex number) out.old out.new) }
{
    write_hex_from(out, 16777216, number)?;
    write_hex_from(out, 65536, number)?;
    write_hex_from(out, 256, number)?;
    write_hex_byte(out, (number % 256) as u8)
}

/// Returns whether a character is a printable one of ASCII.
fn is_printable(character: u32) -> bool
    ensures { result ≡ spec.is_printable character }
{
    character >= 32 && character < 127
}

/// Writes a character that no letter stands for: itself where it is printable, and else its hex digits.
fn write_plain_character<A: Allocator>(out: &mut Text<A>, character: u32) -> Result<(), AllocError>
    ensures { OnOk result (Writes (spec.plain_character character) out.old out.new) }
{
    if is_printable(character) {
        return write_text(out, &[character as u8]);
    }
    write_text(out, b"\\x")?;
    write_hex(out, character)
}

/// Writes a character.
fn write_character<A: Allocator>(out: &mut Text<A>, character: u32) -> Result<(), AllocError>
    ensures { OnOk result (Writes (spec.character character) out.old out.new) }
{
    match escape(character) {
        Some(letter) => write_text(out, &[b'\\', letter]),
        None => write_plain_character(out, character),
    }
}

/// Writes as many characters from the first on.
fn write_characters<A: Allocator>(
    out: &mut Text<A>,
    width: Width,
    bytes: &[Number],
    count: usize,
) -> Result<(), AllocError>
    requires { spec.size width * count ≤ length bytes.now }
    ensures { OnOk result (Writes (spec.characters width (spec.bytes_of bytes.now) 0 count) out.old out.new) }
{
    let mut at = 0;
    let mut left = count;
    'characters: while left > 0 {
        write_character(out, width.character_at(bytes, at))?;
        at += width.size();
        left -= 1;
    }
    Ok(())
}

/// Writes the end of a string, behind its characters: a quotation mark, and `...` after it if characters were cut off.
fn write_end<A: Allocator>(out: &mut Text<A>, is_cut: bool) -> Result<(), AllocError>
    ensures { OnOk result (Writes (spec.end is_cut) out.old out.new) }
{
    write_text(out, b"\"")?;
    if is_cut {
        write_text(out, b"...")?;
    }
    Ok(())
}

/// Returns how many characters of a width are written of `read` bytes: all, or all but the last one unless it is cut.
fn count_characters(width: Width, is_cut: bool, read: usize) -> usize
    ensures is { result ≡ spec.count width is_cut read }
    ensures fits { spec.size width * result ≤ read }
{
    let groups = read / width.size();
    if is_cut {
        groups
    } else {
        groups.saturating_sub(1)
    }
}

/// Writes a string with characters of a width.
fn write_quoted<A: Allocator>(
    out: &mut Text<A>,
    width: Width,
    is_cut: bool,
    bytes: &[Number],
) -> Result<(), AllocError>
    ensures { OnOk result (Writes (spec.quoted width is_cut (spec.bytes_of bytes.now)) out.old out.new) }
{
    let count = count_characters(width, is_cut, count_bytes(bytes));
    write_text(out, width.start())?;
    write_characters(out, width, bytes, count)?;
    write_end(out, is_cut)
}

/// Returns the width of the characters of a string, by its length and the bytes that were read.
fn width_of(is_wide: bool, len: u64, bytes: &[Number]) -> Width
    ensures { result ≡ spec.width is_wide len (spec.bytes_of bytes.now) }
{
    if is_wide {
        return Width::Wide;
    }
    narrow_width(len, bytes)
}

/// Writes a string literal by its length in bytes, and the bytes that were read.
fn write_read<A: Allocator>(
    out: &mut Text<A>,
    is_wide: bool,
    len: u64,
    bytes: &[Number],
) -> Result<(), AllocError>
    ensures { OnOk result (Writes (spec.literal is_wide len (spec.bytes_of bytes.now)) out.old out.new) }
{
    let is_cut = (count_bytes(bytes) as u64) < len;
    write_quoted(out, width_of(is_wide, len, bytes), is_cut, bytes)
}

/// Writes a string literal by its numbers, the first of which is its length. Writes nothing if there are none.
#[cold]
pub fn write_string<A: Allocator>(
    out: &mut Text<A>,
    is_wide: bool,
    numbers: &[Number],
) -> Result<(), AllocError>
    ensures { OnOk result (Writes (spec.literal_pieces is_wide numbers.now) out.old out.new) }
{
    match numbers {
        [] => Ok(()),
        [len, bytes @ ..] => write_read(out, is_wide, len.value, bytes),
    }
}
