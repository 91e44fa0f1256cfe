//! Names, scopes and templates.

ghost use Rattle.std.specs.Prelude.{◌<◌, IfOk, length, map, None};
ghost use Rattle.msvc_nodes.specs.NodeView.{name_at};
ghost use Rattle.msvc_full_grammar.specs.Fragments.{nested_symbol, new_template, template_inside};
ghost use Rattle.msvc_full_grammar.specs.Productions as production;
ghost use Rattle.msvc_full_grammar.specs.Reading.{read, read_name};
ghost use Rattle.msvc_full_grammar.specs.declared.forms.NameRow.TheVariants as rows_of;
ghost use Rattle.msvc_full_grammar.specs.declared.forms.OperatorForm.TheVariants as operators;
ghost use Rattle.msvc_cursor.specs.Parser.{Consumes, MayConsume, ReadsAs};
ghost use Rattle.msvc_cursor.specs.Rows.{ListsNames, named_at};
ghost use Rattle.msvc_cursor.specs.NestedList.{current};

use crate::anonymous_namespaces::anonymous_namespace;
use crate::arguments::listed;
use crate::store::{
    new_operator, put_base_class, put_class, put_empty_name, put_frame, put_named_name,
};
use crate::symbols::{begins, symbol_body};
use msvc_cursor::budget::NodeBudget;
use msvc_cursor::failure::{Failed, Message};
use msvc_cursor::nested_list::Checkpoint;
use msvc_cursor::parser::Parser;
use msvc_full_grammar::forms::{Listed, NameRow, OperatorForm};
use msvc_full_letters::names::new_source_name;
use msvc_full_letters::numbers::{count, plain, small_number};
use msvc_full_letters::operators::{operator_form, unknown_operator};
use msvc_nodes::nodes::{BaseClass, Name, Symbol};
use msvc_shapes::rows;
use std::alloc::Allocator;

/// Reads `SYMBOL_NAME = digit | "?$" TEMPLATE_NAME | "?" OPERATOR_NAME | SOURCE_NAME`.
#[cycle(readers)]
pub fn symbol_name<'a, 'b, L: NodeBudget, A: Allocator>(
    parser: &mut Parser<'a, 'b, L, A>,
) -> Result<&'b Name<'a, 'b>, Failed>
    ensures value { ReadsAs name_at parser.old parser.new result (read_name production.symbol_name) }
    ensures consumes { Consumes parser.old parser.new result }
{
    if let Some(digit) = parser.digit() {
        return parser.name_of_digit(digit);
    }
    if parser.consume(b"?$") {
        return template_name(parser);
    }
    if parser.consume(b"?") {
        return operator_name(parser);
    }
    new_source_name(parser)
}

/// Reads the code of an operator, and what this code says to stand behind it.
#[cycle(readers)]
pub fn operator_name<'a, 'b, L: NodeBudget, A: Allocator>(
    parser: &mut Parser<'a, 'b, L, A>,
) -> Result<&'b Name<'a, 'b>, Failed>
    ensures value { ReadsAs name_at parser.old parser.new result (read_name production.operator_name) }
    ensures consumes { Consumes parser.old parser.new result }
{
    let Some((form, rest)) = operator_form(parser.rest) else {
        return no_operator(parser);
    };
    parser.rest = rest;
    match form {
        OperatorForm::Plain(kind) => new_operator(parser, kind),
        OperatorForm::Word(row) => operator_word(parser, row),
        OperatorForm::Row(NameRow::Frame) => frame(parser),
        OperatorForm::Row(NameRow::LiteralOperator) => literal_operator(parser),
        OperatorForm::BaseClass => base_class_descriptor(parser),
    }
}

/// Records that the text continues with no code of an operator.
#[inline(never)]
fn no_operator<'a, 'b, L: NodeBudget, A: Allocator>(
    parser: &mut Parser<'a, 'b, L, A>,
) -> Result<&'b Name<'a, 'b>, Failed>
    ensures value { ReadsAs name_at parser.old parser.new result (λ left s. None) }
    ensures consumes { Consumes parser.old parser.new result }
{
    let (message, left) = unknown_operator(parser.rest);
    Err(parser.reject_at(message, left))
}

/// Reads `FRAME = COUNT "?" SYMBOL`: a scope inside a function.
#[cycle(readers)]
fn frame<'a, 'b, L: NodeBudget, A: Allocator>(
    parser: &mut Parser<'a, 'b, L, A>,
) -> Result<&'b Name<'a, 'b>, Failed>
    ensures value { ReadsAs name_at parser.old parser.new result (read_name (production.name_row rows_of.Frame)) }
    ensures consumes { Consumes parser.old parser.new result }
{
    parser.count_node()?;
    let value = count(parser)?;
    parser.expect(b"?", Message::QuestionMarkExpected)?;
    let function = nested_symbol(parser)?;
    put_frame(parser, plain(value), function)
}

/// Reads a symbol as a name.
#[cycle(readers)]
pub fn nested_symbol<'a, 'b, L: NodeBudget, A: Allocator>(
    parser: &mut Parser<'a, 'b, L, A>,
) -> Result<&'b Name<'a, 'b>, Failed>
    ensures value { ReadsAs name_at parser.old parser.new result (read nested_symbol) }
    ensures consumes { Consumes parser.old parser.new result }
{
    parser.count_node()?;
    parser.expect(b"?", Message::NoQuestionMark)?;
    let symbol = symbol_body(parser)?;
    parser.put_nested(symbol)
}

/// Reads a source name, the suffix of an operator of literals.
#[inline(never)]
fn literal_operator<'a, 'b, L: NodeBudget, A: Allocator>(
    parser: &mut Parser<'a, 'b, L, A>,
) -> Result<&'b Name<'a, 'b>, Failed>
    ensures value { ReadsAs name_at parser.old parser.new result
        (read_name (production.name_row rows_of.LiteralOperator)) }
    ensures consumes { Consumes parser.old parser.new result }
{
    parser.count_node()?;
    let suffix = new_source_name(parser)?;
    put_named_name(parser, rows::LITERAL_OPERATOR, suffix)
}

/// Counts and stores an operator that has nothing in it, by its row.
#[inline(never)]
fn operator_word<'a, 'b, L: NodeBudget, A: Allocator>(
    parser: &mut Parser<'a, 'b, L, A>,
    row: u8,
) -> Result<&'b Name<'a, 'b>, Failed>
    ensures value { ReadsAs name_at parser.old parser.new result
        (read_name (production.operator_after (operators.Word row))) }
    ensures consumes { MayConsume parser.old parser.new result }
{
    parser.count_node()?;
    put_empty_name(parser, row)
}

/// Reads four numbers: the place of a base class in an object, and its attributes.
#[inline(never)]
fn base_class_descriptor<'a, 'b, L: NodeBudget, A: Allocator>(
    parser: &mut Parser<'a, 'b, L, A>,
) -> Result<&'b Name<'a, 'b>, Failed>
    ensures value { ReadsAs name_at parser.old parser.new result
        (read_name (production.operator_after operators.BaseClass)) }
    ensures consumes { Consumes parser.old parser.new result }
{
    parser.count_node()?;
    let member = small_number(parser)?;
    let pointer = small_number(parser)?;
    let entry = small_number(parser)?;
    let attributes = small_number(parser)?;
    put_base_class(
        parser,
        BaseClass {
            member,
            pointer,
            entry,
            attributes,
        },
    )
}

/// Reads `TYPE_NAME = digit | "?$" TEMPLATE_NAME | SOURCE_NAME`.
#[cycle(readers)]
pub fn type_name<'a, 'b, L: NodeBudget, A: Allocator>(
    parser: &mut Parser<'a, 'b, L, A>,
) -> Result<&'b Name<'a, 'b>, Failed>
    ensures value { ReadsAs name_at parser.old parser.new result (read_name production.type_name) }
    ensures consumes { Consumes parser.old parser.new result }
{
    if let Some(digit) = parser.digit() {
        return parser.name_of_digit(digit);
    }
    if parser.consume(b"?$") {
        return new_template(parser);
    }
    new_source_name(parser)
}

/// Reads `TYPE_SYMBOL = TYPE_NAME SCOPE`.
#[cycle(readers)]
pub fn type_symbol<'a, 'b, L: NodeBudget, A: Allocator>(
    parser: &mut Parser<'a, 'b, L, A>,
) -> Result<&'b Symbol<'a, 'b>, Failed>
    ensures value { ReadsAs named_at parser.old parser.new result (read_name production.type_symbol) }
    ensures consumes { Consumes parser.old parser.new result }
{
    let name = type_name(parser)?;
    let checkpoint = scope(parser)?;
    parser.put_symbol(name, checkpoint)
}

/// Reads `CLASS_SYMBOL = TYPE_SYMBOL`: the class of a member, as a symbol without a type.
#[cycle(readers)]
#[inline(never)]
pub fn class_symbol<'a, 'b, L: NodeBudget, A: Allocator>(
    parser: &mut Parser<'a, 'b, L, A>,
) -> Result<&'b Name<'a, 'b>, Failed>
    ensures value { ReadsAs name_at parser.old parser.new result (read_name production.class_symbol) }
    ensures consumes { Consumes parser.old parser.new result }
{
    parser.count_node()?;
    let symbol = type_symbol(parser)?;
    put_class(parser, symbol)
}

/// Reads a template and memorizes it.
#[cycle(readers)]
#[inline(never)]
fn new_template<'a, 'b, L: NodeBudget, A: Allocator>(
    parser: &mut Parser<'a, 'b, L, A>,
) -> Result<&'b Name<'a, 'b>, Failed>
    ensures value { ReadsAs name_at parser.old parser.new result (read new_template) }
    ensures consumes { Consumes parser.old parser.new result }
{
    let before = parser.limit;
    let template = template_name(parser)?;
    let nodes = parser.limit.since(before);
    parser.add_name(template, nodes)
}

/// Reads `TEMPLATE_NAME = SYMBOL_NAME ARGUMENTS`, with separate tables of names and types.
#[cycle(readers)]
#[inline(never)]
pub fn template_name<'a, 'b, L: NodeBudget, A: Allocator>(
    parser: &mut Parser<'a, 'b, L, A>,
) -> Result<&'b Name<'a, 'b>, Failed>
    ensures value { ReadsAs name_at parser.old parser.new result (read_name production.template_name) }
    ensures consumes { Consumes parser.old parser.new result }
{
    let saved = parser.tables.open_template();
    let template = template(parser)?;
    parser.tables.close_template(saved);
    Ok(template)
}

/// Reads the name and the arguments of a template.
#[cycle(readers)]
fn template<'a, 'b, L: NodeBudget, A: Allocator>(
    parser: &mut Parser<'a, 'b, L, A>,
) -> Result<&'b Name<'a, 'b>, Failed>
    ensures value { ReadsAs name_at parser.old parser.new result (read template_inside) }
    ensures consumes { Consumes parser.old parser.new result }
{
    parser.count_node()?;
    let name = symbol_name(parser)?;
    let checkpoint = listed(parser, Listed::Argument)?;
    parser.put_template(name, checkpoint)
}

/// Reads `SCOPE = {NESTED_NAME} "@"`, the innermost name first. The names are on a new part of the parser's list, and
/// the result ends that part.
#[cycle(readers)]
#[inline(always)]
pub fn scope<'a, 'b, L: NodeBudget, A: Allocator>(
    parser: &mut Parser<'a, 'b, L, A>,
) -> Result<Checkpoint, Failed>
    ensures value { ReadsAs (λ _. map name_at (current parser.new.listed_names)) parser.old parser.new result
        (read_name production.scope) }
    ensures shorter { IfOk result (λ _. length parser.new.rest.now < length parser.old.rest.now) }
    ensures lists { ListsNames parser.old parser.new result }
{
    let checkpoint = parser.listed_names.begin();
    'names: loop {
        if parser.consume(b"@") {
            return Ok(checkpoint);
        }
        let name = nested_name(parser)?;
        if parser.listed_names.push(name).is_err() {
            return Err(parser.no_memory());
        }
    }
}

/// Reads `TARGETS = {CLASS_SYMBOL} "@"`: the classes that a table is for. The names are on a new part of the parser's
/// list, and the result ends that part.
#[cycle(readers)]
#[inline(never)]
pub fn targets<'a, 'b, L: NodeBudget, A: Allocator>(
    parser: &mut Parser<'a, 'b, L, A>,
) -> Result<Checkpoint, Failed>
    ensures value { ReadsAs (λ _. map name_at (current parser.new.listed_names)) parser.old parser.new result
        (read_name production.targets) }
    ensures shorter { IfOk result (λ _. length parser.new.rest.now < length parser.old.rest.now) }
    ensures lists { ListsNames parser.old parser.new result }
{
    let checkpoint = parser.listed_names.begin();
    'names: loop {
        if parser.consume(b"@") {
            return Ok(checkpoint);
        }
        let name = class_symbol(parser)?;
        if parser.listed_names.push(name).is_err() {
            return Err(parser.no_memory());
        }
    }
}

/// Reads `NESTED_NAME = digit | "?$" TEMPLATE_NAME | "?A" ANONYMOUS_NAMESPACE | "?" MARKED_SCOPE | SOURCE_NAME`.
#[cycle(readers)]
#[inline(always)]
fn nested_name<'a, 'b, L: NodeBudget, A: Allocator>(
    parser: &mut Parser<'a, 'b, L, A>,
) -> Result<&'b Name<'a, 'b>, Failed>
    ensures value { ReadsAs name_at parser.old parser.new result (read_name production.nested_name) }
    ensures consumes { Consumes parser.old parser.new result }
{
    if let Some(digit) = parser.digit() {
        return parser.name_of_digit(digit);
    }
    if parser.consume(b"?$") {
        return new_template(parser);
    }
    if parser.consume(b"?A") {
        return anonymous_namespace(parser);
    }
    if parser.consume(b"?") {
        return marked_scope(parser);
    }
    new_source_name(parser)
}

/// Reads `MARKED_SCOPE = "Q" CLASS_SYMBOL | FRAME | SYMBOL`: an interface, a scope inside a function, or a symbol.
#[cycle(readers)]
#[inline(never)]
fn marked_scope<'a, 'b, L: NodeBudget, A: Allocator>(
    parser: &mut Parser<'a, 'b, L, A>,
) -> Result<&'b Name<'a, 'b>, Failed>
    ensures value { ReadsAs name_at parser.old parser.new result (read_name production.marked_scope) }
    ensures consumes { Consumes parser.old parser.new result }
{
    if parser.consume(b"Q") {
        parser.count_node()?;
        let class = class_symbol(parser)?;
        return put_named_name(parser, rows::INTERFACE, class);
    }
    if begins(parser.rest, b"?") {
        return nested_symbol(parser);
    }
    frame(parser)
}
