//! Numbers: a digit, or base 16 letters up to an `@`. Their values have 64 bits.
#![tactic(auto, using(crate::proofs::NumberSteps::steps, crate::proofs::WrappedLetters::letters_go_on), unfolding(crate::proofs::WrappedLetters::letters_at))]

ghost use Rattle.std.specs.Prelude.{◌≡◌};
ghost use Rattle.msvc_full_grammar.specs.Fragments.{plain, small};
ghost use Rattle.msvc_full_grammar.specs.Productions as production;
ghost use Rattle.msvc_full_grammar.specs.Reading.{read, read_name};
ghost use Rattle.msvc_cursor.specs.Parser.{Consumes, ReadsAs};
ghost use Rattle.msvc_full_letters.specs.Numbers.{wrapped_letters};

use msvc_cursor::budget::NodeBudget;
use msvc_cursor::failure::{Failed, Message};
use msvc_cursor::letters::hexadecimal;
use msvc_cursor::parser::Parser;
use msvc_nodes::nodes::Number;
use std::alloc::Allocator;

/// Base of a number's letters.
const BASE: u64 = 16;

/// One more than the greatest value of the low 32 bits.
const LOW_BITS: u64 = 1 << 32;

/// Reads `NUMBER = ["?"] COUNT`: a `?` stands for a minus.
#[inline(always)]
pub fn number<'a, 'b, L: NodeBudget, A: Allocator>(
    parser: &mut Parser<'a, 'b, L, A>,
) -> Result<Number, Failed>
    ensures value { ReadsAs (λ n. n) parser.old parser.new result (read_name production.number) }
    ensures consumes { Consumes parser.old parser.new result }
{
    if !parser.consume(b"?") {
        let value = count(parser)?;
        return Ok(plain(value));
    }
    let value = count(parser)?;
    Ok(Number {
        is_negative: true,
        value,
    })
}

/// Returns a number without a sign.
#[inline(always)]
pub fn plain(value: u64) -> Number
    ensures { result ≡ plain value }
{
    Number {
        is_negative: false,
        value,
    }
}

/// Reads `SMALL_NUMBER = NUMBER` and drops the bits of the number above the low 32.
pub fn small_number<'a, 'b, L: NodeBudget, A: Allocator>(
    parser: &mut Parser<'a, 'b, L, A>,
) -> Result<i32, Failed>
    ensures value { ReadsAs (λ z. z) parser.old parser.new result (read_name production.small_number) }
    ensures consumes { Consumes parser.old parser.new result }
{
    let number = number(parser)?;
    Ok(low_bits(number))
}

/// Returns the low 32 bits of a number, signed.
fn low_bits(number: Number) -> i32
    ensures { result ≡ small number }
{
    let low = ((number.value % LOW_BITS) as u32).cast_signed();
    if number.is_negative {
        return low.wrapping_neg();
    }
    low
}

/// Reads `COUNT = digit | LETTERS`: the value of a digit is one more than the digit. Fails at any other byte, where the
/// count begins.
pub fn count<'a, 'b, L: NodeBudget, A: Allocator>(
    parser: &mut Parser<'a, 'b, L, A>,
) -> Result<u64, Failed>
    ensures value { ReadsAs (λ n. n) parser.old parser.new result (read_name production.count) }
    ensures consumes { Consumes parser.old parser.new result }
{
    match parser.digit() {
        Some(digit) => Ok(u64::from(digit) + 1),
        None => letters(parser),
    }
}

/// Reads `LETTERS = {letter} "@"`: `A` to `P` are base 16 digits, and bits beyond the low 64 are dropped.
fn letters<'a, 'b, L: NodeBudget, A: Allocator>(
    parser: &mut Parser<'a, 'b, L, A>,
) -> Result<u64, Failed>
    ensures value { ReadsAs (λ n. n) parser.old parser.new result (read wrapped_letters) }
    ensures consumes { Consumes parser.old parser.new result }
{
    let left = parser.rest.len();
    let mut value = 0u64;
    while let [letter, rest @ ..] = parser.rest {
        parser.rest = rest;
        if *letter == b'@' {
            return Ok(value);
        }
        let Some(digit) = hexadecimal(*letter) else {
            return Err(parser.reject_at(Message::BadNumber, left));
        };
        value = value.wrapping_mul(BASE).wrapping_add(u64::from(digit));
    }
    Err(parser.reject_at(Message::BadNumber, left))
}
