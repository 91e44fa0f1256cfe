//! Arguments of templates.

ghost use Rattle.std.specs.Prelude.{◌≡◌, ◌<◌, [], codes, IfOk, length, map, None, Some};
ghost use Rattle.msvc_nodes.specs.NodeView.{name_at, type_at};
ghost use Rattle.msvc_nodes.specs.Trees.{no_names, no_types, shape};
ghost use Rattle.msvc_rules.specs.Readers.{in_node};
ghost use Rattle.msvc_rules.specs.Rules.{begins};
ghost use Rattle.msvc_full_grammar.specs.Productions as production;
ghost use Rattle.msvc_full_grammar.specs.Fragments.{values_of};
ghost use Rattle.msvc_full_grammar.specs.Reading.{read, read_name};
ghost use Rattle.msvc_full_grammar.specs.Rows.{absent_row};
ghost use Rattle.msvc_full_grammar.specs.declared.forms.ArgumentForm.TheVariants as argument_forms;
ghost use Rattle.msvc_full_grammar.specs.declared.forms.ValueForm.TheVariants as value_forms;
ghost use Rattle.msvc_cursor.specs.Parser.{Consumes, MayConsume, ReadsAs, Stays};
ghost use Rattle.msvc_cursor.specs.Rows.{ListsTypes};
ghost use Rattle.msvc_cursor.specs.NestedList.{current};

use crate::names::{nested_symbol, scope, type_name};
use crate::store::{
    put_empty_type, put_member_of, put_named_outer, put_named_type, put_number_type,
    put_numbered_outer, put_numbers_type, put_outer_type, put_pair, put_symbol_offsets,
    put_union_value, put_values,
};
use crate::types::{tagged_type, type_, type_row};
use bitflags::Flags;
use msvc_cursor::budget::NodeBudget;
use msvc_cursor::failure::{Failed, Message};
use msvc_cursor::nested_list::Checkpoint;
use msvc_cursor::parser::Parser;
use msvc_full_grammar::forms::{ArgumentForm, Listed, ValueForm};
use msvc_full_letters::numbers::{count, number, plain};
use msvc_full_letters::offsets::numbers;
use msvc_full_letters::texts::{argument_form, member_form, value_behind, value_form};
use msvc_nodes::flags::StorageClass;
use msvc_nodes::kinds::{PlainType, TagKind};
use msvc_nodes::nodes::Type;
use msvc_shapes::rows;
use std::alloc::Allocator;

/// Reads `LISTED = {ONE_LISTED} "@"`: arguments of a template, members of a class or elements of an array. They are on
/// a new part of the parser's list of types, and the result ends that part.
#[cycle(readers)]
#[inline(always)]
pub fn listed<'a, 'b, L: NodeBudget, A: Allocator>(
    parser: &mut Parser<'a, 'b, L, A>,
    kind: Listed,
) -> Result<Checkpoint, Failed>
    ensures value { ReadsAs (λ _. map type_at (current parser.new.listed_types)) parser.old parser.new result
        (read_name (production.listed kind)) }
    ensures shorter { IfOk result (λ _. length parser.new.rest.now < length parser.old.rest.now) }
    ensures lists { ListsTypes parser.old parser.new result }
{
    let checkpoint = parser.listed_types.begin();
    'listed: loop {
        if parser.consume(b"@") {
            return Ok(checkpoint);
        }
        let one = one_listed(parser, kind)?;
        parser.list_type(one)?;
    }
}

/// Reads `ONE_LISTED = text of arguments ARGUMENT_AFTER | TYPE | MEMBER | TEMPLATE_VALUE "@"`.
#[cycle(readers)]
#[inline(always)]
fn one_listed<'a, 'b, L: NodeBudget, A: Allocator>(
    parser: &mut Parser<'a, 'b, L, A>,
    kind: Listed,
) -> Result<&'b Type<'a, 'b>, Failed>
    ensures value { ReadsAs type_at parser.old parser.new result (read_name (production.one_listed kind)) }
    ensures consumes { Consumes parser.old parser.new result }
{
    match kind {
        Listed::Argument => {
            if let Some((form, rest)) = argument_form(parser.rest) {
                parser.rest = rest;
                return argument_after(parser, form);
            }
            if let Some(rest) = value_behind(parser.rest) {
                parser.rest = rest;
                return no_value(parser);
            }
            type_(parser, StorageClass::empty())
        }
        Listed::Member => member(parser),
        Listed::Element => {
            let value = template_value(parser)?;
            parser.expect(b"@", Message::AtExpected)?;
            Ok(value)
        }
    }
}

/// Reads what follows the text of an argument.
#[cycle(readers)]
#[inline(never)]
fn argument_after<'a, 'b, L: NodeBudget, A: Allocator>(
    parser: &mut Parser<'a, 'b, L, A>,
    form: ArgumentForm,
) -> Result<&'b Type<'a, 'b>, Failed>
    ensures value { ReadsAs type_at parser.old parser.new result (read_name (production.argument_after form)) }
    ensures consumes { MayConsume parser.old parser.new result }
{
    match form {
        ArgumentForm::EmptyPack => parser.new_plain(PlainType::EmptyPack),
        ArgumentForm::Alias => tagged_type(parser, TagKind::Alias, StorageClass::empty()),
        ArgumentForm::Typed => typed_value(parser),
        ArgumentForm::Value(form) => value_after(parser, form),
    }
}

/// Reads `TYPE TEMPLATE_VALUE`: a value with its type.
#[cycle(readers)]
#[inline(never)]
fn typed_value<'a, 'b, L: NodeBudget, A: Allocator>(
    parser: &mut Parser<'a, 'b, L, A>,
) -> Result<&'b Type<'a, 'b>, Failed>
    ensures value { ReadsAs type_at parser.old parser.new result
        (read_name (production.argument_after argument_forms.Typed)) }
    ensures consumes { Consumes parser.old parser.new result }
{
    parser.count_node()?;
    let value_type = type_(parser, StorageClass::empty())?;
    let value = template_value(parser)?;
    put_pair(parser, rows::TYPED, value, value_type)
}

/// Reads `TEMPLATE_VALUE = text of values VALUE_AFTER`.
#[cycle(readers)]
#[inline(never)]
pub fn template_value<'a, 'b, L: NodeBudget, A: Allocator>(
    parser: &mut Parser<'a, 'b, L, A>,
) -> Result<&'b Type<'a, 'b>, Failed>
    ensures value { ReadsAs type_at parser.old parser.new result (read_name production.template_value) }
    ensures consumes { Consumes parser.old parser.new result }
{
    let Some((form, rest)) = value_form(parser.rest) else {
        return no_value(parser);
    };
    parser.rest = rest;
    value_after(parser, form)
}

/// Records that the text continues with no text of a value.
#[inline(never)]
fn no_value<'a, 'b, L: NodeBudget, A: Allocator>(
    parser: &mut Parser<'a, 'b, L, A>,
) -> Result<&'b Type<'a, 'b>, Failed>
    ensures value { ReadsAs type_at parser.old parser.new result (λ left s. None) }
    ensures consumes { Consumes parser.old parser.new result }
{
    parser.byte()?;
    Err(parser.reject(Message::UnknownTemplateValue))
}

/// Reads what follows the text of a value.
#[cycle(readers)]
#[inline(always)]
fn value_after<'a, 'b, L: NodeBudget, A: Allocator>(
    parser: &mut Parser<'a, 'b, L, A>,
    form: ValueForm,
) -> Result<&'b Type<'a, 'b>, Failed>
    ensures value { ReadsAs type_at parser.old parser.new result (read_name (production.value_after form)) }
    ensures consumes { MayConsume parser.old parser.new result }
{
    match form {
        ValueForm::Row(row) => type_row(parser, row, StorageClass::empty()),
        ValueForm::Symbol(row) => symbol_value(parser, row),
        ValueForm::Offsets(count) => offsets(parser, count),
        ValueForm::MemberOffsets(count) => member_offsets(parser, count),
        ValueForm::Bits(row) => bits(parser, row),
        ValueForm::Word(row) => value_word(parser, row),
        ValueForm::Aggregate => aggregate(parser),
        ValueForm::Elements => elements(parser),
        ValueForm::Subobject => subobject(parser),
        ValueForm::Member => member_of_value(parser),
        ValueForm::Element => element_of_value(parser),
        ValueForm::Union => union_value(parser),
        ValueForm::MemberOf => member_by_name(parser),
    }
}

/// Reads `MEMBER = text of members VALUE_AFTER | TYPE MEMBER_VALUE`.
#[cycle(readers)]
#[inline(never)]
fn member<'a, 'b, L: NodeBudget, A: Allocator>(
    parser: &mut Parser<'a, 'b, L, A>,
) -> Result<&'b Type<'a, 'b>, Failed>
    ensures value { ReadsAs type_at parser.old parser.new result (read_name production.member) }
    ensures consumes { Consumes parser.old parser.new result }
{
    if let Some((form, rest)) = member_form(parser.rest) {
        parser.rest = rest;
        return value_after(parser, form);
    }
    parser.count_node()?;
    let value_type = type_(parser, StorageClass::empty())?;
    let value = member_value(parser)?;
    put_pair(parser, rows::TYPED, value, value_type)
}

/// Reads `MEMBER_VALUE = "@" | TEMPLATE_VALUE`.
#[cycle(readers)]
fn member_value<'a, 'b, L: NodeBudget, A: Allocator>(
    parser: &mut Parser<'a, 'b, L, A>,
) -> Result<&'b Type<'a, 'b>, Failed>
    ensures value { ReadsAs type_at parser.old parser.new result (read_name production.member_value) }
    ensures consumes { Consumes parser.old parser.new result }
{
    if parser.consume(b"@") {
        return absent(parser);
    }
    template_value(parser)
}

/// Stores that a member has no value.
fn absent<'a, 'b, L: NodeBudget, A: Allocator>(
    parser: &mut Parser<'a, 'b, L, A>,
) -> Result<&'b Type<'a, 'b>, Failed>
    ensures value { ReadsAs type_at parser.old parser.new result
        (λ left s. in_node left s (λ l t. Some (shape absent_row 0 [] [] no_names no_types, l, t))) }
    ensures stays { Stays parser.old parser.new result }
{
    parser.count_node()?;
    put_empty_type(parser, rows::ABSENT, StorageClass::empty())
}

/// Reads the values of members or elements, in braces.
#[cycle(readers)]
fn values<'a, 'b, L: NodeBudget, A: Allocator>(
    parser: &mut Parser<'a, 'b, L, A>,
    kind: Listed,
) -> Result<&'b Type<'a, 'b>, Failed>
    ensures value { ReadsAs type_at parser.old parser.new result (read (values_of kind)) }
    ensures consumes { Consumes parser.old parser.new result }
{
    parser.count_node()?;
    let checkpoint = listed(parser, kind)?;
    put_values(parser, checkpoint)
}

/// Reads a class and the values of its members.
#[cycle(readers)]
#[inline(never)]
fn aggregate<'a, 'b, L: NodeBudget, A: Allocator>(
    parser: &mut Parser<'a, 'b, L, A>,
) -> Result<&'b Type<'a, 'b>, Failed>
    ensures value { ReadsAs type_at parser.old parser.new result
        (read_name (production.value_after value_forms.Aggregate)) }
    ensures consumes { Consumes parser.old parser.new result }
{
    parser.count_node()?;
    let class = type_(parser, StorageClass::empty())?;
    let members = values(parser, Listed::Member)?;
    put_pair(parser, rows::AGGREGATE, class, members)
}

/// Reads the type of the elements of an array and their values.
#[cycle(readers)]
#[inline(never)]
fn elements<'a, 'b, L: NodeBudget, A: Allocator>(
    parser: &mut Parser<'a, 'b, L, A>,
) -> Result<&'b Type<'a, 'b>, Failed>
    ensures value { ReadsAs type_at parser.old parser.new result
        (read_name (production.value_after value_forms.Elements)) }
    ensures consumes { Consumes parser.old parser.new result }
{
    parser.count_node()?;
    let of_elements = type_(parser, StorageClass::empty())?;
    let elements = values(parser, Listed::Element)?;
    put_pair(parser, rows::TYPED, elements, of_elements)
}

/// Reads `TEMPLATE_VALUE "@"`: a part of another value.
#[cycle(readers)]
#[inline(never)]
fn subobject<'a, 'b, L: NodeBudget, A: Allocator>(
    parser: &mut Parser<'a, 'b, L, A>,
) -> Result<&'b Type<'a, 'b>, Failed>
    ensures value { ReadsAs type_at parser.old parser.new result
        (read_name (production.value_after value_forms.Subobject)) }
    ensures consumes { Consumes parser.old parser.new result }
{
    parser.count_node()?;
    let value = template_value(parser)?;
    parser.expect(b"@", Message::AtExpected)?;
    put_outer_type(parser, rows::SUBOBJECT, &[], value, StorageClass::empty())
}

/// Reads `TEMPLATE_VALUE TYPE_NAME "@"`: a member of a value.
#[cycle(readers)]
#[inline(never)]
fn member_of_value<'a, 'b, L: NodeBudget, A: Allocator>(
    parser: &mut Parser<'a, 'b, L, A>,
) -> Result<&'b Type<'a, 'b>, Failed>
    ensures value { ReadsAs type_at parser.old parser.new result
        (read_name (production.value_after value_forms.Member)) }
    ensures consumes { Consumes parser.old parser.new result }
{
    parser.count_node()?;
    let value = template_value(parser)?;
    let name = type_name(parser)?;
    parser.expect(b"@", Message::AtExpected)?;
    put_named_outer(parser, rows::MEMBER, name, value, StorageClass::empty())
}

/// Reads `TEMPLATE_VALUE "0" NUMBER "@"`: an element of a value.
#[cycle(readers)]
#[inline(never)]
fn element_of_value<'a, 'b, L: NodeBudget, A: Allocator>(
    parser: &mut Parser<'a, 'b, L, A>,
) -> Result<&'b Type<'a, 'b>, Failed>
    ensures value { ReadsAs type_at parser.old parser.new result
        (read_name (production.value_after value_forms.Element)) }
    ensures consumes { Consumes parser.old parser.new result }
{
    parser.count_node()?;
    let value = template_value(parser)?;
    parser.expect(b"0", Message::ZeroExpected)?;
    let place = number(parser)?;
    parser.expect(b"@", Message::AtExpected)?;
    put_numbered_outer(parser, rows::ELEMENT, place, value, StorageClass::empty())
}

/// Reads the type of a union, and the name and the value of its member, if it has one.
#[cycle(readers)]
#[inline(never)]
fn union_value<'a, 'b, L: NodeBudget, A: Allocator>(
    parser: &mut Parser<'a, 'b, L, A>,
) -> Result<&'b Type<'a, 'b>, Failed>
    ensures value { ReadsAs type_at parser.old parser.new result
        (read_name (production.value_after value_forms.Union)) }
    ensures consumes { Consumes parser.old parser.new result }
{
    parser.count_node()?;
    let union_type = type_(parser, StorageClass::empty())?;
    if parser.consume(b"@") {
        return put_outer_type(
            parser,
            rows::EMPTY_UNION,
            &[],
            union_type,
            StorageClass::empty(),
        );
    }
    let name = type_name(parser)?;
    let value = template_value(parser)?;
    parser.expect(b"@", Message::AtExpected)?;
    put_union_value(parser, name, union_type, value)
}

/// Reads `SCOPE TYPE_NAME "@"`: a pointer to a member by its name.
#[cycle(readers)]
#[inline(never)]
fn member_by_name<'a, 'b, L: NodeBudget, A: Allocator>(
    parser: &mut Parser<'a, 'b, L, A>,
) -> Result<&'b Type<'a, 'b>, Failed>
    ensures value { ReadsAs type_at parser.old parser.new result
        (read_name (production.value_after value_forms.MemberOf)) }
    ensures consumes { Consumes parser.old parser.new result }
{
    parser.count_node()?;
    let checkpoint = scope(parser)?;
    let member = type_name(parser)?;
    parser.expect(b"@", Message::AtExpected)?;
    put_member_of(parser, checkpoint, member)
}

/// Reads the bits of a number, of the type that the row says.
#[inline(never)]
fn bits<'a, 'b, L: NodeBudget, A: Allocator>(
    parser: &mut Parser<'a, 'b, L, A>,
    row: u8,
) -> Result<&'b Type<'a, 'b>, Failed>
    ensures value { ReadsAs type_at parser.old parser.new result
        (read_name (production.value_after (value_forms.Bits row))) }
    ensures consumes { Consumes parser.old parser.new result }
{
    parser.count_node()?;
    let value = count(parser)?;
    put_number_type(parser, row, StorageClass::empty(), plain(value))
}

/// Stores a value that has nothing in it, by its row.
#[inline(never)]
fn value_word<'a, 'b, L: NodeBudget, A: Allocator>(
    parser: &mut Parser<'a, 'b, L, A>,
    row: u8,
) -> Result<&'b Type<'a, 'b>, Failed>
    ensures value { ReadsAs type_at parser.old parser.new result
        (read_name (production.value_after (value_forms.Word row))) }
    ensures consumes { MayConsume parser.old parser.new result }
{
    parser.count_node()?;
    put_empty_type(parser, row, StorageClass::empty())
}

/// Reads a symbol as a value.
#[cycle(readers)]
#[inline(never)]
fn symbol_value<'a, 'b, L: NodeBudget, A: Allocator>(
    parser: &mut Parser<'a, 'b, L, A>,
    row: u8,
) -> Result<&'b Type<'a, 'b>, Failed>
    ensures value { ReadsAs type_at parser.old parser.new result
        (read_name (production.value_after (value_forms.Symbol row))) }
    ensures consumes { Consumes parser.old parser.new result }
{
    parser.count_node()?;
    let symbol = nested_symbol(parser)?;
    put_named_type(parser, row, StorageClass::empty(), symbol)
}

/// Reads offsets of a pointer to a member.
#[inline(never)]
fn offsets<'a, 'b, L: NodeBudget, A: Allocator>(
    parser: &mut Parser<'a, 'b, L, A>,
    count: u64,
) -> Result<&'b Type<'a, 'b>, Failed>
    ensures value { ReadsAs type_at parser.old parser.new result
        (read_name (production.value_after (value_forms.Offsets count))) }
    ensures consumes { MayConsume parser.old parser.new result }
{
    parser.count_node()?;
    let numbers = numbers(parser, count)?;
    put_numbers_type(parser, rows::OFFSETS, numbers)
}

/// Reads the function that is pointed to, where a `?` stands, and offsets.
#[cycle(readers)]
#[inline(never)]
fn member_offsets<'a, 'b, L: NodeBudget, A: Allocator>(
    parser: &mut Parser<'a, 'b, L, A>,
    count: u64,
) -> Result<&'b Type<'a, 'b>, Failed>
    ensures value { ReadsAs type_at parser.old parser.new result
        (read_name (production.value_after (value_forms.MemberOffsets count))) }
    ensures consumes { MayConsume parser.old parser.new result }
{
    parser.count_node()?;
    if !is_symbol_next(parser.rest) {
        let numbers = numbers(parser, count)?;
        return put_numbers_type(parser, rows::OFFSETS, numbers);
    }
    let function = nested_symbol(parser)?;
    let numbers = numbers(parser, count)?;
    put_symbol_offsets(parser, function, numbers)
}

/// Returns whether a symbol is next.
fn is_symbol_next(left: &[u8]) -> bool
    ensures { result ≡ begins left.now (codes "?") }
{
    match left {
        [b'?', ..] => true,
        [_, ..] => false,
        [] => false,
    }
}
