//! Symbols whose names were too long and are replaced by a hash.

ghost use Rattle.std.specs.Prelude.{◌≡◌, is_some};
ghost use Rattle.msvc_grammar.specs.Grammar.{hashed_symbol, is_hash};
ghost use Rattle.msvc_grammar.specs.Letters.{hexadecimal_codes};
ghost use Rattle.msvc_grammar.specs.Reading.{read};
ghost use Rattle.msvc_rules.specs.Rules as rules;
ghost use Rattle.msvc_cursor.specs.Parser.{Consumes, hash_at, name_length, ReadsAs};
ghost use Rattle.msvc_cursor.specs.Rows.{typed_symbol_at};

use msvc_cursor::budget::NodeBudget;
use msvc_cursor::failure::{Failed, Message};
use msvc_cursor::letters;
use msvc_cursor::parser::Parser;
use msvc_nodes::nodes::{Name, TypedSymbol};
use std::alloc::Allocator;

/// Reads `HASHED_SYMBOL = 32 * hexadecimal digit "@"`, after its `??@`.
#[inline(never)]
pub fn hashed_symbol<'a, 'b, L: NodeBudget, A: Allocator>(
    parser: &mut Parser<'a, 'b, L, A>,
) -> Result<&'b TypedSymbol<'a, 'b>, Failed>
    ensures value { ReadsAs typed_symbol_at parser.old parser.new result (read hashed_symbol) }
    ensures consumes { Consumes parser.old parser.new result }
{
    parser.count_node()?;
    parser.count_node()?;
    let digits = hash(parser)?;
    let name = parser.put_name(Name::Md5(digits))?;
    parser.untyped_symbol(name)
}

/// Reads the digits of a hash up to and including the next `@`, and returns them without it.
fn hash<'a, 'b, L: NodeBudget, A: Allocator>(
    parser: &mut Parser<'a, 'b, L, A>,
) -> Result<&'a [u8], Failed>
    ensures value { ReadsAs (λ n. n.now) parser.old parser.new result (λ left s. hash_at (name_length left) left s) }
    ensures consumes { Consumes parser.old parser.new result }
{
    let left = parser.rest;
    match parser.source_name() {
        Ok(digits) if is_hash(digits) => Ok(digits),
        _ => Err(parser.reject_at(Message::HashLength, after_digits(left))),
    }
}

/// Returns whether these are the 32 digits of a hash.
fn is_hash(digits: &[u8]) -> bool
    ensures { result ≡ is_hash digits.now }
{
    digits.len() == 32 && are_digits(digits)
}

/// Returns whether all bytes are hexadecimal digits.
fn are_digits(bytes: &[u8]) -> bool
    ensures { result ≡ rules.every (λ b. is_some (rules.lookup b hexadecimal_codes)) bytes.now }
{
    bytes
        .iter()
        .all(|byte| letters::hexadecimal_code(*byte).is_some())
}

/// Returns how many bytes are left after the hexadecimal digits at the start.
fn after_digits(bytes: &[u8]) -> usize {
    match bytes
        .iter()
        .position(|byte| letters::hexadecimal_code(*byte).is_none())
    {
        Some(end) => bytes.len().saturating_sub(end),
        None => 0,
    }
}
