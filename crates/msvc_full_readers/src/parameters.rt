//! Parameters, and the table of types that they are added to.

ghost use Rattle.std.specs.Option.{option_map};
ghost use Rattle.std.specs.Prelude.{◌≡◌, ◌<◌, IfOk, IfSome, length, map};
ghost use Rattle.msvc_nodes.specs.NodeView.{type_at};
ghost use Rattle.msvc_full_grammar.specs.Productions as production;
ghost use Rattle.msvc_full_grammar.specs.Fragments.{parameter};
ghost use Rattle.msvc_full_grammar.specs.Reading.{read, read_name};
ghost use Rattle.msvc_cursor.specs.Parser.{Consumes, ReadsAs, frame_of};
ghost use Rattle.msvc_cursor.specs.Rows.{ListsTypes};
ghost use Rattle.msvc_cursor.specs.NestedList.{current};
ghost use Rattle.msvc_full_readers.specs.Readings.{parameters_behind, parameters_stop};

use crate::store::put_outer_type;
use crate::types::type_;
use bitflags::Flags;
use msvc_cursor::back_references::enters_table;
use msvc_cursor::budget::NodeBudget;
use msvc_cursor::failure::Failed;
use msvc_cursor::nested_list::Checkpoint;
use msvc_cursor::parser::Parser;
use msvc_grammar::forms::Ellipsis;
use msvc_nodes::flags::StorageClass;
use msvc_nodes::nodes::Type;
use msvc_shapes::rows;
use std::alloc::Allocator;

/// Reads `FUNCTION_PARAMETERS = "X" | "_V" EXPLICIT_PARAMETERS | PARAMETERS`: an `X` means one `void`. The types are on
/// a new part of the parser's list, and the result ends that part.
#[cycle(readers)]
#[inline(never)]
pub fn function_parameters<'a, 'b, L: NodeBudget, A: Allocator>(
    parser: &mut Parser<'a, 'b, L, A>,
) -> Result<Checkpoint, Failed>
    ensures value { ReadsAs (λ _. map type_at (current parser.new.listed_types)) parser.old parser.new result
        (read_name production.function_parameters) }
    ensures shorter { IfOk result (λ _. length parser.new.rest.now < length parser.old.rest.now) }
    ensures lists { ListsTypes parser.old parser.new result }
{
    if parser.consume(b"X") {
        parser.count_node()?;
        return parser.no_parameters();
    }
    if parser.consume(b"_V") {
        return explicit_parameters(parser);
    }
    let checkpoint = parser.listed_types.begin();
    parameters(parser)?;
    Ok(checkpoint)
}

/// Reads `EXPLICIT_PARAMETERS = PARAMETER PARAMETERS`: the first is an explicit `this`.
#[cycle(readers)]
#[inline(never)]
fn explicit_parameters<'a, 'b, L: NodeBudget, A: Allocator>(
    parser: &mut Parser<'a, 'b, L, A>,
) -> Result<Checkpoint, Failed>
    ensures value { ReadsAs (λ _. map type_at (current parser.new.listed_types)) parser.old parser.new result
        (read_name production.explicit_parameters) }
    ensures shorter { IfOk result (λ _. length parser.new.rest.now < length parser.old.rest.now) }
    ensures lists { ListsTypes parser.old parser.new result }
{
    parser.count_node()?;
    let first = parameter(parser)?;
    let this = put_outer_type(
        parser,
        rows::EXPLICIT_THIS,
        &[],
        first,
        StorageClass::empty(),
    )?;
    let checkpoint = parser.listed_types.begin();
    parser.list_type(this)?;
    parameters(parser)?;
    Ok(checkpoint)
}

/// Reads `PARAMETERS = {PARAMETER} ("@" | "Z")` behind the types that are on the parser's list: a `Z` adds an ellipsis.
#[cycle(readers)]
fn parameters<'a, 'b, L: NodeBudget, A: Allocator>(
    parser: &mut Parser<'a, 'b, L, A>,
) -> Result<(), Failed>
    ensures value { ReadsAs (λ _. map type_at (current parser.new.listed_types)) parser.old parser.new result
        (parameters_behind (map type_at (current parser.old.listed_types))) }
    ensures shorter { IfOk result (λ _. length parser.new.rest.now < length parser.old.rest.now) }
    ensures kept { IfOk result (λ _. frame_of parser.new
        ≡ record (frame_of parser.old) { listed_types = current parser.new.listed_types }) }
{
    'parameters: loop {
        if let Some((ellipsis, rest)) = parameters_stop(parser.rest) {
            parser.rest = rest;
            parser.list_ellipsis(ellipsis)?;
            return Ok(());
        }
        let parameter = parameter(parser)?;
        parser.list_type(parameter)?;
    }
}

/// Reads `PARAMETER = digit | TYPE`.
#[cycle(readers)]
fn parameter<'a, 'b, L: NodeBudget, A: Allocator>(
    parser: &mut Parser<'a, 'b, L, A>,
) -> Result<&'b Type<'a, 'b>, Failed>
    ensures value { ReadsAs type_at parser.old parser.new result (read parameter) }
    ensures consumes { Consumes parser.old parser.new result }
{
    let start = parser.rest;
    if let Some(digit) = parser.digit() {
        return parser.parameter_of_digit(digit, start);
    }
    let before = parser.limit;
    let parameter = type_(parser, StorageClass::empty())?;
    if enters_table(start, parser.rest) {
        let nodes = parser.limit.since(before);
        return parser.add_type(parameter, start, nodes);
    }
    Ok(parameter)
}

/// Returns whether an ellipsis is last and the bytes that follow, if the parameters end here.
#[tactic(auto, unfolding(crate::specs::Readings::parameters_stop))]
fn parameters_stop<'a>(left: &'a [u8]) -> Option<(Ellipsis, &'a [u8])>
    ensures value { option_map (λ stop. (stop.0, stop.1.now)) result ≡ parameters_stop left.now }
    ensures shorter { IfSome result (λ stop. length stop.1.now < length left.now) }
{
    match left {
        [b'@', rest @ ..] => Some((Ellipsis::Absent, rest)),
        [b'Z', rest @ ..] => Some((Ellipsis::Present, rest)),
        _ => None,
    }
}
