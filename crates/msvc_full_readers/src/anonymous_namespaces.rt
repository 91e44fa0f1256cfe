//! Anonymous namespaces.

ghost use Rattle.std.specs.Prelude.{◌≡◌, ◌<◌, ◌++◌, codes, IfOk, Some};
ghost use Rattle.std.specs.Prelude.{string_bytes};
ghost use Rattle.msvc_nodes.specs.NodeView.{name_at};
ghost use Rattle.msvc_rules.specs.Readers.{and_then, letter_here};
ghost use Rattle.msvc_full_grammar.specs.Fragments.{anonymous_namespace, has_capital};
ghost use Rattle.msvc_full_grammar.specs.Letters.{hexadecimal_codes};
ghost use Rattle.msvc_full_grammar.specs.Productions as production;
ghost use Rattle.msvc_full_grammar.specs.Reading.{read, read_name};
ghost use Rattle.msvc_cursor.specs.Parser.{Consumes, ReadsAs};
ghost use Rattle.msvc_full_readers.specs.Readings.{anonymous_name, is_capital};

use bumpalo::Bump;
use msvc_cursor::budget::NodeBudget;
use msvc_cursor::failure::{Failed, Message};
use msvc_cursor::letters;
use msvc_cursor::parser::Parser;
use msvc_nodes::nodes::Name;
use std::alloc::Allocator;

/// Reads `ANONYMOUS_NAMESPACE = ANONYMOUS_DIGITS`, after its `?A`.
#[inline(never)]
pub fn anonymous_namespace<'a, 'b, L: NodeBudget, A: Allocator>(
    parser: &mut Parser<'a, 'b, L, A>,
) -> Result<&'b Name<'a, 'b>, Failed>
    ensures value { ReadsAs name_at parser.old parser.new result (read anonymous_namespace) }
    ensures consumes { Consumes parser.old parser.new result }
{
    parser.count_node()?;
    anonymous_name(parser)
}

/// Reads `ANONYMOUS_DIGITS = ["0x" {hexadecimal digit}] "@"` as a name, which is not counted. With digits it is
/// memorized, unless one is a capital.
#[inline(never)]
pub fn anonymous_name<'a, 'b, L: NodeBudget, A: Allocator>(
    parser: &mut Parser<'a, 'b, L, A>,
) -> Result<&'b Name<'a, 'b>, Failed>
    ensures value { ReadsAs name_at parser.old parser.new result (read anonymous_name) }
    ensures consumes { Consumes parser.old parser.new result }
{
    if parser.consume(b"@") {
        return parser.put_name(Name::Anonymous);
    }
    parser.expect(b"0x", Message::AtExpected)?;
    let digits = hexadecimal_digits(parser)?;
    if has_capital(digits.as_bytes()) {
        return parser.put_name(Name::AnonymousDigits(digits));
    }
    parser.put_and_add_name(Name::AnonymousDigits(digits))
}

/// Reads the digits after `0x` and stores them in the arena, with the `0x`.
fn hexadecimal_digits<'a, 'b, L: NodeBudget, A: Allocator>(
    parser: &mut Parser<'a, 'b, L, A>,
) -> Result<&'b str, Failed>
    ensures value { ReadsAs (λ t. t.now) parser.old parser.new result
        (λ left s. and_then (read_name production.hexadecimal_digits left s)
        (λ ds left s. Some (codes "0x" ++ ds, left, s))) }
    ensures consumes { Consumes parser.old parser.new result }
{
    let digits = hex_digit_string(parser)?;
    match parser.arena.try_alloc_str(&digits) {
        Ok(digits) => Ok(digits),
        Err(_) => Err(parser.no_memory()),
    }
}

/// Reads `HEXADECIMAL_DIGITS = {hexadecimal digit} "@"`, and returns `0x` and the digits.
fn hex_digit_string<'a, 'b, L: NodeBudget, A: Allocator>(
    parser: &mut Parser<'a, 'b, L, A>,
) -> Result<String<&'b Bump<A>>, Failed>
    ensures value { ReadsAs string_bytes parser.old parser.new result
        (λ left s. and_then (read_name production.hexadecimal_digits left s)
        (λ ds left s. Some (codes "0x" ++ ds, left, s))) }
    ensures consumes { Consumes parser.old parser.new result }
{
    let Ok(mut digits) = String::from_str(parser.arena, "0x") else {
        return Err(parser.no_memory());
    };
    'digits: loop {
        if parser.consume(b"@") {
            return Ok(digits);
        }
        let digit = hexadecimal_digit(parser)?;
        if digits.push(char::from(digit)).is_err() {
            return Err(parser.no_memory());
        }
    }
}

/// Reads a base 16 digit, and returns its byte unchanged.
fn hexadecimal_digit<'a, 'b, L: NodeBudget, A: Allocator>(
    parser: &mut Parser<'a, 'b, L, A>,
) -> Result<u8, Failed>
    ensures value { ReadsAs (λ d. d) parser.old parser.new result (letter_here hexadecimal_codes) }
    ensures consumes { Consumes parser.old parser.new result }
    ensures low { IfOk result (λ d. d < 128) }
{
    let left = parser.rest.len();
    let Some(letter) = parser.next_byte() else {
        return Err(parser.reject_at(Message::AtExpected, left));
    };
    match letters::hexadecimal_code(letter) {
        Some(digit) => Ok(digit),
        None => Err(parser.reject_at(Message::AtExpected, left)),
    }
}

/// Returns whether a capital is among the digits of an anonymous namespace.
fn has_capital(digits: &[u8]) -> bool
    ensures { result ≡ has_capital digits.now }
{
    digits.iter().any(|digit| is_capital(*digit))
}

/// Returns whether a digit is a capital.
fn is_capital(digit: u8) -> bool
    ensures { result ≡ is_capital digit }
{
    matches!(digit, b'A' | b'B' | b'C' | b'D' | b'E' | b'F')
}
