//! Offsets: those by which functions move their `this`, and those of pointers to members.
#![tactic(auto, using(crate::proofs::OffsetSteps::steps))]

ghost use Rattle.std.specs.Prelude.{◌≡◌, ◌<◌, IfOk, length};
ghost use Rattle.msvc_rules.specs.Readers.{with_value};
ghost use Rattle.msvc_full_grammar.specs.Fragments as spec;
ghost use Rattle.msvc_full_grammar.specs.Productions as production;
ghost use Rattle.msvc_full_grammar.specs.Reading.{read, read_name};
ghost use Rattle.msvc_cursor.specs.Parser.{Consumes, MayConsume, ReadsAs, Stays};
ghost use Rattle.msvc_full_letters.specs.Numbers.{signed_offset, unsigned_offset};

use crate::numbers::{number, plain, small_number};
use bumpalo::collections::into_bump_slice;
use msvc_cursor::budget::NodeBudget;
use msvc_cursor::failure::{Failed, Message};
use msvc_cursor::parser::Parser;
use msvc_full_grammar::forms::Adjustment;
use msvc_nodes::nodes::Number;
use std::alloc::Allocator;

/// Reads the offsets by which a function moves its `this`: the last has no sign.
pub fn offsets_of<'a, 'b, L: NodeBudget, A: Allocator>(
    parser: &mut Parser<'a, 'b, L, A>,
    adjustment: Adjustment,
) -> Result<&'b [Number], Failed>
    ensures value { ReadsAs (λ zs. zs.now) parser.old parser.new result
        (read_name (production.offsets_of adjustment)) }
    ensures consumes { Consumes parser.old parser.new result }
{
    match adjustment {
        Adjustment::Adjustor => {
            let last = unsigned_offset(parser)?;
            put_numbers(parser, &[last])
        }
        Adjustment::VtorDisp => {
            let first = signed_offset(parser)?;
            let last = unsigned_offset(parser)?;
            put_numbers(parser, &[first, last])
        }
        Adjustment::VtorDispEx => {
            let first = signed_offset(parser)?;
            let second = signed_offset(parser)?;
            let third = signed_offset(parser)?;
            let last = unsigned_offset(parser)?;
            put_numbers(parser, &[first, second, third, last])
        }
    }
}

/// Reads an offset with its sign.
fn signed_offset<'a, 'b, L: NodeBudget, A: Allocator>(
    parser: &mut Parser<'a, 'b, L, A>,
) -> Result<Number, Failed>
    ensures value { ReadsAs (λ n. n) parser.old parser.new result (read signed_offset) }
    ensures consumes { Consumes parser.old parser.new result }
{
    let offset = small_number(parser)?;
    Ok(signed_number(offset))
}

/// Reads an offset whose bits have no sign.
fn unsigned_offset<'a, 'b, L: NodeBudget, A: Allocator>(
    parser: &mut Parser<'a, 'b, L, A>,
) -> Result<Number, Failed>
    ensures value { ReadsAs (λ n. n) parser.old parser.new result (read unsigned_offset) }
    ensures consumes { Consumes parser.old parser.new result }
{
    let offset = small_number(parser)?;
    Ok(unsigned_number(offset))
}

/// Stores numbers.
fn put_numbers<'a, 'b, L: NodeBudget, A: Allocator>(
    parser: &mut Parser<'a, 'b, L, A>,
    numbers: &[Number],
) -> Result<&'b [Number], Failed>
    ensures value { ReadsAs (λ zs. zs.now) parser.old parser.new result (with_value (Some numbers.now)) }
    ensures stays { Stays parser.old parser.new result }
{
    match parser.arena.try_alloc_slice_copy(numbers) {
        Ok(stored) => Ok(stored),
        Err(_) => Err(parser.no_memory()),
    }
}

/// Returns a number with its sign.
fn signed_number(number: i32) -> Number
    ensures { result ≡ spec.signed_number number }
{
    Number {
        is_negative: number < 0,
        value: u64::from(number.unsigned_abs()),
    }
}

/// Returns a number whose bits have no sign.
fn unsigned_number(number: i32) -> Number
    ensures { result ≡ spec.unsigned_number number }
{
    plain(u64::from(number.cast_unsigned()))
}

/// Reads exactly `count` numbers.
pub fn numbers<'a, 'b, L: NodeBudget, A: Allocator>(
    parser: &mut Parser<'a, 'b, L, A>,
    count: u64,
) -> Result<&'b [Number], Failed>
    ensures value { ReadsAs (λ zs. zs.now) parser.old parser.new result (read_name (production.numbers count)) }
    ensures consumes { MayConsume parser.old parser.new result }
{
    let mut numbers = Vec::new(parser.arena);
    for _ in 0..count {
        let number = number(parser)?;
        if numbers.push(number).is_err() {
            return Err(parser.no_memory());
        }
    }
    Ok(into_bump_slice(numbers))
}

/// Reads the index of a guard, a number of at least 0; at the end of the text there is none.
pub fn guard_index<'a, 'b, L: NodeBudget, A: Allocator>(
    parser: &mut Parser<'a, 'b, L, A>,
) -> Result<&'b [Number], Failed>
    ensures value { ReadsAs (λ zs. zs.now) parser.old parser.new result (read_name production.guard_index) }
    ensures consumes { MayConsume parser.old parser.new result }
{
    if parser.rest.is_empty() {
        return Ok(&[]);
    }
    let index = small_number(parser)?;
    if index < 0 {
        return Err(parser.reject(Message::ExpectedUnsigned));
    }
    put_numbers(parser, &[unsigned_number(index)])
}
