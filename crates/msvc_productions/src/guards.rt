//! Guards of static variables in functions: their indices, and the numbers of thread-safe ones.

ghost use Rattle.std.specs.Prelude.{◌≡◌, ◌<◌, ◌≤◌, ◌+◌, ◌*◌, codes, IfOk, IfSome, if◌then◌else◌, length, map, None};
ghost use Rattle.std.specs.Prelude.{Some, true};
ghost use Rattle.msvc_nodes.specs.NodeView.{name_at, name_of};
ghost use Rattle.msvc_nodes.specs.Trees.{name_trees, numbered};
ghost use Rattle.msvc_nodes.specs.declared.kinds.NumberedType.TheVariants as number_kind;
ghost use Rattle.msvc_rules.specs.Readers.{and_then, in_node, letter_here, with_value};
ghost use Rattle.msvc_grammar.specs.Grammar.{greatest_number, guard_marker, is_in_range, numbered_guard};
ghost use Rattle.msvc_grammar.specs.Letters.{digits};
ghost use Rattle.msvc_grammar.specs.Reading.{read, read_name};
ghost use Rattle.msvc_rules.specs.Rules as rules;
ghost use Rattle.msvc_grammar.specs.Productions as production;
ghost use Rattle.msvc_cursor.specs.Parser.{Consumes, indexed, MayConsume, ReadsAs};
ghost use Rattle.msvc_cursor.specs.Rows.{EndsNames, named_at, typed_symbol_at};
ghost use Rattle.msvc_cursor.specs.NestedList.{current, enclosing};

use crate::qualified_names::{nested_name, scope};
use msvc_cursor::budget::NodeBudget;
use msvc_cursor::failure::{Failed, Message};
use msvc_cursor::nested_list::Checkpoint;
use msvc_cursor::parser::Parser;
use msvc_nodes::kinds::NumberedType;
use msvc_nodes::nodes::{Name, Symbol, Type, TypedSymbol};
use std::alloc::Allocator;

/// Base of a guard's number.
const BASE: u64 = 10;

/// Greatest number of a guard.
const GREATEST_NUMBER: u64 = 2147483647;

/// Reads the index of a guard if the symbol's name is one, and adds it to the name.
pub fn indexed_symbol<'a, 'b, L: NodeBudget, A: Allocator>(
    parser: &mut Parser<'a, 'b, L, A>,
    symbol: &'b Symbol<'a, 'b>,
) -> Result<&'b Symbol<'a, 'b>, Failed>
    ensures value { ReadsAs named_at parser.old parser.new result
        (indexed (name_of symbol.now.name.now) (map name_at symbol.now.scope.now)) }
    ensures consumes { MayConsume parser.old parser.new result }
{
    let Name::Guard(guard, _) = symbol.name else {
        return Ok(symbol);
    };
    let index = guard_index(parser)?;
    let name = parser.put_name(Name::Guard(*guard, index))?;
    parser.put(Symbol {
        name,
        scope: symbol.scope,
    })
}

/// Reads `GUARD_INDEX = GUARD_MARKER end | GUARD_MARKER NUMBER`: the number is at least 0.
fn guard_index<'a, 'b, L: NodeBudget, A: Allocator>(
    parser: &mut Parser<'a, 'b, L, A>,
) -> Result<Option<u32>, Failed>
    ensures value { ReadsAs (λ i. i) parser.old parser.new result (read_name (production.guard_index true)) }
    ensures consumes { Consumes parser.old parser.new result }
{
    guard_marker(parser)?;
    if parser.rest.is_empty() {
        return Ok(None);
    }
    let index = parser.number()?;
    if index < 0 {
        return Err(parser.reject(Message::ExpectedUnsigned));
    }
    Ok(Some(index as u32))
}

/// Reads `GUARD_MARKER = "4IA" | "5"`.
fn guard_marker<'a, 'b, L: NodeBudget, A: Allocator>(
    parser: &mut Parser<'a, 'b, L, A>,
) -> Result<(), Failed>
    ensures value { ReadsAs (λ _. tt) parser.old parser.new result (read guard_marker) }
    ensures consumes { Consumes parser.old parser.new result }
{
    if parser.consume(b"4IA") {
        return Ok(());
    }
    parser.expect(b"5", Message::UnexpectedLocalGuardMarker)
}

/// Reads `NUMBERED_GUARD = GUARD_NUMBER NESTED_NAME SCOPE "4HA"`, after its `?$TSS`.
#[cycle(readers)]
#[inline(never)]
pub fn numbered_guard<'a, 'b, L: NodeBudget, A: Allocator>(
    parser: &mut Parser<'a, 'b, L, A>,
) -> Result<&'b TypedSymbol<'a, 'b>, Failed>
    ensures value { ReadsAs typed_symbol_at parser.old parser.new result (read numbered_guard) }
    ensures consumes { Consumes parser.old parser.new result }
{
    let number = guard_number(parser)?;
    let name = nested_name(parser)?;
    let checkpoint = scope(parser)?;
    guard_of_number(parser, number.cast_signed(), name, checkpoint)
}

/// Reads the `4HA` of a numbered guard and stores the guard, whose scope is on the list.
#[inline(never)]
fn guard_of_number<'a, 'b, L: NodeBudget, A: Allocator>(
    parser: &mut Parser<'a, 'b, L, A>,
    number: i32,
    name: &'b Name<'a, 'b>,
    checkpoint: Checkpoint,
) -> Result<&'b TypedSymbol<'a, 'b>, Failed>
    requires { checkpoint.from ≤ length (enclosing parser.old.listed_names) }
    ensures value { ReadsAs typed_symbol_at parser.old parser.new result
        (λ left s. and_then (read (rules.literal (codes "4HA")) left s)
        (λ _ left s. in_node left s (λ left s. Some (
          record {
            name = name_of name.now;
            scope = name_trees (map name_at (current parser.old.listed_names));
            symbol_type = numbered number_kind.ThreadSafeGuard number;
          },
          left,
          s,
        )))) }
    ensures shorter { IfOk result (λ _. length parser.new.rest.now ≤ length parser.old.rest.now) }
    ensures kept { EndsNames checkpoint parser.old parser.new result }
{
    parser.expect(b"4HA", Message::GuardTypeExpected)?;
    parser.count_node()?;
    put_guard(parser, number, name, checkpoint)
}

/// Stores a numbered guard of these parts. It stands outside the cycle, as `put_tagged` does.
#[inline(never)]
fn put_guard<'a, 'b, L: NodeBudget, A: Allocator>(
    parser: &mut Parser<'a, 'b, L, A>,
    number: i32,
    name: &'b Name<'a, 'b>,
    checkpoint: Checkpoint,
) -> Result<&'b TypedSymbol<'a, 'b>, Failed>
    requires { checkpoint.from ≤ length (enclosing parser.old.listed_names) }
    ensures value { ReadsAs typed_symbol_at parser.old parser.new result
        (with_value (Some (record {
          name = name_of name.now;
          scope = name_trees (map name_at (current parser.old.listed_names));
          symbol_type = numbered number_kind.ThreadSafeGuard number;
        }))) }
    ensures rest { IfOk result (λ _. parser.new.rest.now ≡ parser.old.rest.now) }
    ensures kept { EndsNames checkpoint parser.old parser.new result }
{
    let symbol = parser.put_symbol(name, checkpoint)?;
    let symbol_type = parser.put_type(Type::Numbered(NumberedType::ThreadSafeGuard, number))?;
    parser.put_typed_symbol(symbol, symbol_type)
}

/// Reads `GUARD_NUMBER = digit {digit} "@"`: base 10, at most 2,147,483,647.
#[tactic(auto, using(msvc_cursor::proofs::GuardSteps::decimal_steps))]
fn guard_number<'a, 'b, L: NodeBudget, A: Allocator>(
    parser: &mut Parser<'a, 'b, L, A>,
) -> Result<u32, Failed>
    ensures value { ReadsAs (λ n. n) parser.old parser.new result
        (λ left s. and_then (letter_here digits left s) (λ d. read_name (production.decimal d))) }
    ensures consumes { Consumes parser.old parser.new result }
    ensures small { IfOk result (λ n. n ≤ greatest_number) }
{
    let mut value = u32::from(guard_digit(parser)?);
    'digits: loop {
        if parser.consume(b"@") {
            return Ok(value);
        }
        let digit = guard_digit(parser)?;
        let Some(longer) = longer_number(value, digit) else {
            return Err(parser.reject(Message::GuardNumberTooLarge));
        };
        value = longer;
    }
}

/// Reads a digit of a guard's number.
fn guard_digit<'a, 'b, L: NodeBudget, A: Allocator>(
    parser: &mut Parser<'a, 'b, L, A>,
) -> Result<u8, Failed>
    ensures value { ReadsAs (λ d. d) parser.old parser.new result (letter_here digits) }
    ensures consumes { Consumes parser.old parser.new result }
    ensures small { IfOk result (λ d. d < 10) }
{
    match parser.digit() {
        Some(digit) => Ok(digit),
        None => Err(parser.reject(Message::MissingDigit)),
    }
}

/// Returns the number with one more digit appended, if it is not too large.
fn longer_number(value: u32, digit: u8) -> Option<u32>
    ensures value { result ≡ (if is_in_range (value * 10 + digit) then Some (value * 10 + digit) else None) }
    ensures small { IfSome result (λ n. n ≤ greatest_number) }
{
    let longer = u64::from(value) * BASE + u64::from(digit);
    if longer > GREATEST_NUMBER {
        return None;
    }
    Some(longer as u32)
}
