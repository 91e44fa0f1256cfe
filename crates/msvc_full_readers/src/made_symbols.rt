//! Symbols that have no name of the source, and parts of them, as far as they call no reader of the cycle.

ghost use Rattle.std.specs.Prelude.{◌≡◌, Some};
ghost use Rattle.msvc_nodes.specs.NodeView.{name_at, name_of, type_at, type_of};
ghost use Rattle.msvc_nodes.specs.Trees.{plain};
ghost use Rattle.msvc_nodes.specs.declared.kinds.PlainType.TheVariants as plain_kind;
ghost use Rattle.msvc_rules.specs.Readers.{in_node};
ghost use Rattle.msvc_rules.specs.Rules.{literal};
ghost use Rattle.msvc_grammar.specs.Reading.{read as crate_read};
ghost use Rattle.msvc_full_grammar.specs.Forms as forms_of;
ghost use Rattle.msvc_full_grammar.specs.Fragments as spec;
ghost use Rattle.msvc_full_grammar.specs.Productions as production;
ghost use Rattle.msvc_full_grammar.specs.Reading.{read, read_name};
ghost use Rattle.msvc_full_grammar.specs.declared.forms.SymbolForm.TheVariants as symbol_forms;
ghost use Rattle.msvc_cursor.specs.Parser.{Consumes, MayConsume, ReadsAs, Stays};
ghost use Rattle.msvc_cursor.specs.Rows.{typed_symbol_at};
ghost use Rattle.msvc_full_readers.specs.Readings.{c_function_name, descriptor_of, end_of_stub, funclet_variable};
ghost use Rattle.msvc_full_readers.specs.Readings.{guard_marker, home_at};

use crate::store::{
    FuncletHome, put_bytes_name, put_described, put_empty_name, put_funclet_variable,
    put_numbers_name,
};
use msvc_cursor::budget::NodeBudget;
use msvc_cursor::failure::{Failed, Message};
use msvc_cursor::parser::Parser;
use msvc_full_letters::names::source_name;
use msvc_full_letters::numbers::small_number;
use msvc_full_letters::offsets::guard_index;
use msvc_full_letters::qualifiers::convention;
use msvc_full_letters::strings::{encoded_string, string_bytes};
use msvc_nodes::kinds::{Guard, PlainType};
use msvc_nodes::nodes::{Name, Type, TypedSymbol};
use msvc_shapes::rows;
use std::alloc::Allocator;

/// Reads the hash of a name, or of a locator, which `??_R4@` follows.
#[inline(never)]
pub fn whole_hash<'a, 'b, L: NodeBudget, A: Allocator>(
    parser: &mut Parser<'a, 'b, L, A>,
) -> Result<&'b TypedSymbol<'a, 'b>, Failed>
    ensures value { ReadsAs typed_symbol_at parser.old parser.new result (read_name production.whole_hash) }
    ensures consumes { Consumes parser.old parser.new result }
{
    let digits = parser.source_name()?;
    let name = whole_hash_name(parser, digits)?;
    parser.count_node()?;
    parser.untyped_symbol(name)
}

/// Reads whether a locator has the hash, and stores the name.
fn whole_hash_name<'a, 'b, L: NodeBudget, A: Allocator>(
    parser: &mut Parser<'a, 'b, L, A>,
    digits: &'a [u8],
) -> Result<&'b Name<'a, 'b>, Failed>
    ensures value { ReadsAs name_at parser.old parser.new result (read (spec.whole_hash_name digits.now)) }
    ensures consumes { MayConsume parser.old parser.new result }
{
    let is_locator = parser.consume(b"??_R4@");
    parser.count_node()?;
    if is_locator {
        return put_bytes_name(parser, rows::MD5_LOCATOR, digits);
    }
    parser.put_name(Name::Md5(digits))
}

/// Reads the hash of a name inside another name.
#[inline(never)]
pub fn hashed_symbol<'a, 'b, L: NodeBudget, A: Allocator>(
    parser: &mut Parser<'a, 'b, L, A>,
) -> Result<&'b TypedSymbol<'a, 'b>, Failed>
    ensures value { ReadsAs typed_symbol_at parser.old parser.new result
        (read_name (production.symbol_after symbol_forms.Hashed)) }
    ensures consumes { Consumes parser.old parser.new result }
{
    let digits = parser.source_name()?;
    parser.count_node()?;
    let name = parser.put_name(Name::Md5(digits))?;
    parser.count_node()?;
    parser.untyped_symbol(name)
}

/// Reads a string: the width of its characters, its length, and its bytes.
#[inline(never)]
pub fn string_symbol<'a, 'b, L: NodeBudget, A: Allocator>(
    parser: &mut Parser<'a, 'b, L, A>,
) -> Result<&'b TypedSymbol<'a, 'b>, Failed>
    ensures value { ReadsAs typed_symbol_at parser.old parser.new result
        (read_name (production.symbol_after symbol_forms.String)) }
    ensures consumes { Consumes parser.old parser.new result }
{
    let string = encoded_string(parser)?;
    let bytes = string_bytes(parser, string.length, string.encoded)?;
    parser.count_node()?;
    let name = put_numbers_name(parser, string_row(string.width), bytes)?;
    parser.count_node()?;
    parser.untyped_symbol(name)
}

/// Returns the row of a string whose characters have this width.
fn string_row(width: u8) -> u8
    ensures { result ≡ spec.string_row width }
{
    if width == 0 {
        return rows::STRING_LITERAL;
    }
    rows::WIDE_STRING_LITERAL
}

/// Stores the descriptor of a type, or the name of a type, by its row.
#[inline(never)]
pub fn described_symbol<'a, 'b, L: NodeBudget, A: Allocator>(
    parser: &mut Parser<'a, 'b, L, A>,
    row: u8,
    described: &'b Type<'a, 'b>,
) -> Result<&'b TypedSymbol<'a, 'b>, Failed>
    ensures value { ReadsAs typed_symbol_at parser.old parser.new result
        (λ left s. Some (descriptor_of row (type_of described.now), left, s)) }
    ensures stays { Stays parser.old parser.new result }
{
    let name = put_empty_name(parser, row)?;
    put_described(parser, name, described)
}

/// Counts and stores what a funclet has where its function is known by its name alone.
pub fn named_home<'a, 'b, L: NodeBudget, A: Allocator>(
    parser: &mut Parser<'a, 'b, L, A>,
    scope: &'b Name<'a, 'b>,
) -> Result<FuncletHome<'a, 'b>, Failed>
    ensures value { ReadsAs home_at parser.old parser.new result
        (λ left s. in_node left s (λ l t. Some ((name_of scope.now, plain plain_kind.None), l, t))) }
    ensures stays { Stays parser.old parser.new result }
{
    let symbol_type = parser.new_plain(PlainType::None)?;
    Ok(FuncletHome { scope, symbol_type })
}

/// Counts and stores what a funclet has that is written as a static variable of its function.
pub fn variable_home<'a, 'b, L: NodeBudget, A: Allocator>(
    parser: &mut Parser<'a, 'b, L, A>,
    scope: &'b Name<'a, 'b>,
) -> Result<FuncletHome<'a, 'b>, Failed>
    ensures value { ReadsAs home_at parser.old parser.new result
        (λ left s. in_node left s (λ l t. in_node l t
        (λ k u. Some ((name_of scope.now, funclet_variable), k, u)))) }
    ensures stays { Stays parser.old parser.new result }
{
    parser.count_node()?;
    parser.count_node()?;
    let symbol_type = put_funclet_variable(parser)?;
    Ok(FuncletHome { scope, symbol_type })
}

/// Reads `SOURCE_NAME "4HA"`: the name of a function of C, as a symbol without a type.
#[inline(never)]
pub fn c_function_name<'a, 'b, L: NodeBudget, A: Allocator>(
    parser: &mut Parser<'a, 'b, L, A>,
) -> Result<&'b Name<'a, 'b>, Failed>
    ensures value { ReadsAs name_at parser.old parser.new result (read c_function_name) }
    ensures consumes { Consumes parser.old parser.new result }
{
    parser.count_node()?;
    let text = source_name(parser)?;
    parser.count_node()?;
    let name = parser.put_name(Name::Source(text))?;
    parser.count_node()?;
    parser.expect(b"4HA", Message::GuardTypeExpected)?;
    let function = parser.untyped_symbol(name)?;
    parser.put_nested(function)
}

/// Reads the text behind the variable of a stub: `@@` where the variable is required, and else `@`.
pub fn stub_end<'a, 'b, L: NodeBudget, A: Allocator>(
    parser: &mut Parser<'a, 'b, L, A>,
    required: bool,
) -> Result<(), Failed>
    ensures value { ReadsAs (λ _. tt) parser.old parser.new result (crate_read (literal (end_of_stub required))) }
    ensures consumes { Consumes parser.old parser.new result }
{
    if required {
        return parser.expect(b"@@", Message::InitializerEndExpected);
    }
    parser.expect(b"@", Message::AtExpected)
}

/// Counts and stores no type, where the variable of a stub isn't required.
pub fn no_variable<'a, 'b, L: NodeBudget, A: Allocator>(
    parser: &mut Parser<'a, 'b, L, A>,
    required: bool,
) -> Result<&'b Type<'a, 'b>, Failed>
    ensures value { ReadsAs type_at parser.old parser.new result (read_name (production.no_variable required)) }
    ensures stays { Stays parser.old parser.new result }
{
    if required {
        return Err(parser.reject(Message::VariableExpected));
    }
    parser.new_plain(PlainType::None)
}

/// Reads `GUARD_NAME = ("4IA" | "5") GUARD_INDEX`.
#[inline(never)]
pub fn guard_name<'a, 'b, L: NodeBudget, A: Allocator>(
    parser: &mut Parser<'a, 'b, L, A>,
    guard: Guard,
) -> Result<&'b Name<'a, 'b>, Failed>
    ensures value { ReadsAs name_at parser.old parser.new result (read_name (production.guard_name guard)) }
    ensures consumes { Consumes parser.old parser.new result }
{
    parser.count_node()?;
    guard_marker(parser)?;
    let index = guard_index(parser)?;
    put_numbers_name(parser, guard_row(guard), index)
}

/// Reads the marker of a guard.
fn guard_marker<'a, 'b, L: NodeBudget, A: Allocator>(
    parser: &mut Parser<'a, 'b, L, A>,
) -> Result<(), Failed>
    ensures value { ReadsAs (λ _. tt) parser.old parser.new result (read guard_marker) }
    ensures consumes { Consumes parser.old parser.new result }
{
    if parser.consume(b"4IA") {
        return Ok(());
    }
    parser.expect(b"5", Message::UnexpectedLocalGuardMarker)
}

/// Returns the row of a guard.
fn guard_row(guard: Guard) -> u8
    ensures { result ≡ spec.guard_row guard }
{
    match guard {
        Guard::Static => rows::STATIC_GUARD,
        Guard::Thread => rows::THREAD_GUARD,
    }
}

/// Reads a call of a virtual function by its place in a table.
#[inline(never)]
pub fn virtual_call<'a, 'b, L: NodeBudget, A: Allocator>(
    parser: &mut Parser<'a, 'b, L, A>,
) -> Result<&'b Type<'a, 'b>, Failed>
    ensures value { ReadsAs type_at parser.old parser.new result
        (read_name (production.encoding_after forms_of.virtual_call)) }
    ensures consumes { Consumes parser.old parser.new result }
{
    parser.count_node()?;
    let offset = small_number(parser)?;
    parser.expect(b"A", Message::AExpected)?;
    let convention = convention(parser)?;
    parser.put_type(Type::VcallThunk(offset, convention))
}
