//! Strings: their parts, and the bytes that their encoded bytes stand for.
#![tactic(auto, using(msvc_cursor::proofs::Choices::letter_step, crate::proofs::StringSteps::steps))]

ghost use Rattle.std.specs.Option.{option_map};
ghost use Rattle.std.specs.Prelude.{ℕ, List, ◌≡◌, ◌≤◌, ◌<◌, ◌∷◌, IfSome, length, None};
ghost use Rattle.msvc_rules.specs.Readers.{letter_here, with_value};
ghost use Rattle.msvc_rules.specs.Rules.{lookup};
ghost use Rattle.msvc_full_grammar.specs.Fragments.{each_plain};
ghost use Rattle.msvc_full_grammar.specs.Letters.{hexadecimal, hexadecimal_base, widths};
ghost use Rattle.msvc_full_grammar.specs.Reading.{read};
ghost use Rattle.msvc_full_grammar.specs.Strings.{decoded, escaped, in_digits};
ghost use Rattle.msvc_cursor.specs.Parser.{Consumes, ReadsAs, Stays};
ghost use Rattle.msvc_full_letters.specs.Strings.{encoded_string, escape_of, from_first};

use crate::numbers::{count, plain};
use bumpalo::collections::into_bump_slice;
use msvc_cursor::budget::NodeBudget;
use msvc_cursor::failure::{Failed, Message};
use msvc_cursor::letters;
use msvc_cursor::parser::Parser;
use msvc_nodes::nodes::Number;
use std::alloc::Allocator;

/// Base of the two digits of a byte.
const BASE: u8 = 16;

/// Holds what a letter adds to its own byte where it stands for another.
const RAISED: u8 = 128;

/// Holds the parts of a string. The encoded bytes borrow from the symbol.
#[derive(Clone, Copy)]
pub struct EncodedString<'a> {
    /// Tells the width of the characters: 0, or 1 of wide ones.
    pub width: u8,
    /// Holds the length of the string, in bytes.
    pub length: u64,
    /// Holds the bytes that the bytes of the string are decoded from.
    pub encoded: &'a [u8],
}

/// Reads `ENCODED_STRING = "@_" width COUNT {byte} "@" {byte} "@"`: the bytes up to the first `@`, a checksum, are
/// dropped. Returns parts that borrow from the symbol. Fails at any other byte than `@` and `_`, after any other width,
/// where the count begins, and where bytes begin that no `@` ends.
pub fn encoded_string<'a, 'b, L: NodeBudget, A: Allocator>(
    parser: &mut Parser<'a, 'b, L, A>,
) -> Result<EncodedString<'a>, Failed>
    ensures value { ReadsAs (λ s. (s.width, (s.length, s.encoded.now))) parser.old parser.new result
        (read encoded_string) }
    ensures consumes { Consumes parser.old parser.new result }
{
    parser.expect(b"@_", Message::StringStartExpected)?;
    let width = width(parser)?;
    let length = count(parser)?;
    parser.source_name()?;
    let Ok(encoded) = parser.source_name() else {
        return no_end(parser);
    };
    Ok(EncodedString {
        width,
        length,
        encoded,
    })
}

/// Records that no `@` ends the bytes of a string: after a byte that stands for none, or else at the end of the text.
#[cold]
#[inline(never)]
fn no_end<'a, 'b, L: NodeBudget, A: Allocator>(
    parser: &mut Parser<'a, 'b, L, A>,
) -> Result<EncodedString<'a>, Failed>
    ensures value { ReadsAs {Y = ℕ × (ℕ × List ℕ)} (λ s. (s.width, (s.length, s.encoded.now))) parser.old parser.new
        result (λ left s. None) }
    ensures consumes { Consumes parser.old parser.new result }
{
    if let Some(escaped) = at_unknown(parser.rest) {
        if let Some((byte, left)) = unknown_byte(escaped) {
            return Err(parser.reject_at(Message::UnknownCharacter(byte), left));
        }
    }
    Err(parser.reject_at(Message::EndOfInput, 0))
}

/// Returns the encoded bytes behind the first `?` that stands for no byte, if there is one.
fn at_unknown<'a>(encoded: &'a [u8]) -> Option<&'a [u8]>
    ensures { IfSome result (λ escaped. length escaped.now ≤ length encoded.now) }
{
    let mut left = encoded;
    while let [first, rest @ ..] = left {
        let Some((_, behind)) = string_byte(*first, rest) else {
            return Some(rest);
        };
        left = behind;
    }
    None
}

/// Reads the width of characters. Fails after any other byte, and at the end of the text.
fn width<'a, 'b, L: NodeBudget, A: Allocator>(
    parser: &mut Parser<'a, 'b, L, A>,
) -> Result<u8, Failed>
    ensures value { ReadsAs (λ w. w) parser.old parser.new result (letter_here widths) }
    ensures consumes { Consumes parser.old parser.new result }
{
    match parser.byte()? {
        b'0' => Ok(0),
        b'1' => Ok(1),
        _ => Err(parser.reject(Message::UnknownStringCharacterType)),
    }
}

/// Returns the length of a string and then each byte that its encoded bytes stand for, as numbers in the arena. Fails
/// after a byte that stands for none.
pub fn string_bytes<'a, 'b, L: NodeBudget, A: Allocator>(
    parser: &mut Parser<'a, 'b, L, A>,
    length: u64,
    encoded: &'a [u8],
) -> Result<&'b [Number], Failed>
    ensures value { ReadsAs (λ zs. zs.now) parser.old parser.new result
        (with_value (option_map (λ bs. each_plain (length ∷ bs)) (decoded encoded.now))) }
    ensures stays { Stays parser.old parser.new result }
{
    let mut numbers = Vec::new(parser.arena);
    if numbers.push(plain(length)).is_err() {
        return Err(parser.no_memory());
    }
    let mut left = encoded;
    while let [first, rest @ ..] = left {
        let Some((byte, rest)) = string_byte(*first, rest) else {
            return no_byte(parser, rest);
        };
        if numbers.push(plain(u64::from(byte))).is_err() {
            return Err(parser.no_memory());
        }
        left = rest;
    }
    Ok(into_bump_slice(numbers))
}

/// Decodes the byte that `first` and `rest` encode at their start. Returns it and the bytes after its encoding, which
/// borrow from `rest`, or `None` if these bytes stand for no byte.
#[tactic(auto, unfolding(msvc_full_grammar::specs::Strings::decoded))]
#[inline(always)]
fn string_byte(first: u8, rest: &[u8]) -> Option<(u8, &[u8])>
    ensures value { decoded (first ∷ rest.now) ≡ from_first (option_map (λ r. (r.0, r.1.now)) result) }
    ensures shorter { IfSome result (λ r. length r.1.now ≤ length rest.now) }
{
    if first == b'?' {
        return escaped_byte(rest);
    }
    Some((first, rest))
}

/// Returns the byte that encoded bytes behind a `?` begin with, and those after it, which borrow from `bytes`. Returns
/// `None` if they stand for no byte.
#[inline(always)]
fn escaped_byte(bytes: &[u8]) -> Option<(u8, &[u8])>
    ensures value { escaped bytes.now ≡ from_first (option_map (λ r. (r.0, r.1.now)) result) }
    ensures shorter { IfSome result (λ r. length r.1.now ≤ length bytes.now) }
{
    let [letter, others @ ..] = bytes else {
        return None;
    };
    if *letter == b'$' {
        return byte_of_digits(others);
    }
    Some((escape(*letter)?, others))
}

/// Returns the byte of the two digits that encoded bytes begin with, and those after it, which borrow from `bytes`.
/// Returns `None` if there are no two digits.
#[tactic(auto, using(crate::proofs::StringSteps::steps), unfolding(msvc_full_grammar::specs::Strings::in_digits, msvc_full_grammar::specs::Strings::low_digit))]
#[inline(always)]
fn byte_of_digits(bytes: &[u8]) -> Option<(u8, &[u8])>
    ensures value { in_digits bytes.now ≡ from_first (option_map (λ r. (r.0, r.1.now)) result) }
    ensures shorter { IfSome result (λ r. length r.1.now ≤ length bytes.now) }
{
    let [high, low, others @ ..] = bytes else {
        return None;
    };
    let high = digit(*high)?;
    let low = digit(*low)?;
    Some((high * BASE + low, others))
}

/// Records that the encoded bytes behind a `?` stand for no byte: after the one that no table has, which may be the `@`
/// behind them.
#[cold]
#[inline(never)]
fn no_byte<'a, 'b, L: NodeBudget, A: Allocator>(
    parser: &mut Parser<'a, 'b, L, A>,
    escaped: &[u8],
) -> Result<&'b [Number], Failed>
    ensures value { ReadsAs (λ zs. zs.now) parser.old parser.new result (λ left s. None) }
    ensures stays { Stays parser.old parser.new result }
{
    let left = parser.rest.len();
    let failed = match unknown_byte(escaped) {
        Some((byte, behind)) => parser.reject_at(
            Message::UnknownCharacter(byte),
            left.saturating_add(behind).saturating_add(1),
        ),
        None => parser.reject_at(Message::UnknownCharacter(b'@'), left),
    };
    Err(failed)
}

/// Returns the byte that no table has, of encoded bytes behind a `?` that stand for none, and how many bytes follow
/// it. Returns `None` if the bytes end before it.
fn unknown_byte(escaped: &[u8]) -> Option<(u8, usize)>
    ensures { IfSome result (λ x. x.1 < length escaped.now) }
{
    let unknown = match escaped {
        [b'$', high, others @ ..] if digit(*high).is_some() => others,
        [b'$', others @ ..] => others,
        [..] => escaped,
    };
    match unknown {
        [byte, others @ ..] => Some((*byte, others.len())),
        [] => None,
    }
}

/// Returns the value of a base 16 digit, written `A` to `P`.
fn digit(letter: u8) -> Option<u8>
    ensures value { result ≡ lookup letter hexadecimal }
    ensures low { IfSome result (λ d. d < hexadecimal_base) }
{
    letters::hexadecimal(letter)
}

/// Returns the byte that a `?` and this letter stand for.
#[tactic(auto, unfolding(crate::specs::Strings::escape_of))]
fn escape(letter: u8) -> Option<u8>
    ensures { result ≡ escape_of letter }
{
    let byte = match letter {
        b'0' => b',',
        b'1' => b'/',
        b'2' => b'\\',
        b'3' => b':',
        b'4' => b'.',
        b'5' => b' ',
        b'6' => b'\n',
        b'7' => b'\t',
        b'8' => b'\'',
        b'9' => b'-',
        b'a'..=b'z' => letter + RAISED,
        b'A'..=b'Z' => letter + RAISED,
        _ => return None,
    };
    Some(byte)
}
