//! Names, scopes and templates, and the table of names that they are added to.

ghost use Rattle.std.specs.Prelude.{◌≡◌, ◌<◌, ◌++◌, codes, IfOk, length, map, Some};
ghost use Rattle.std.specs.Prelude.{string_bytes};
ghost use Rattle.msvc_nodes.specs.NodeView.{name_at, name_of};
ghost use Rattle.msvc_nodes.specs.Trees.{discriminator, template};
ghost use Rattle.msvc_rules.specs.Counts.{name_count};
ghost use Rattle.msvc_rules.specs.Readers.{and_then, in_node, letter_here, with_value};
ghost use Rattle.msvc_grammar.specs.Grammar.{new_interface, new_source_name, template_inside, template_kept};
ghost use Rattle.msvc_grammar.specs.Letters.{hexadecimal_codes};
ghost use Rattle.msvc_grammar.specs.Reading.{read, read_name};
ghost use Rattle.msvc_grammar.specs.Productions as production;
ghost use Rattle.msvc_cursor.specs.Parser.{add_template_name, Consumes, ReadsAs, Stays};
ghost use Rattle.msvc_cursor.specs.Rows.{ListsNames, named_at};
ghost use Rattle.msvc_cursor.specs.NestedList.{current};

use crate::parameters::parameters;
use crate::special_names::special_name;
use crate::symbols::symbol_body;
use bumpalo::Bump;
use msvc_cursor::budget::NodeBudget;
use msvc_cursor::failure::{Failed, Message};
use msvc_cursor::letters;
use msvc_cursor::nested_list::Checkpoint;
use msvc_cursor::parser::Parser;
use msvc_grammar::forms::TemplateNames;
use msvc_nodes::nodes::{Name, Symbol};
use std::alloc::Allocator;

/// Reads a source name and memorizes it.
fn new_source_name<'a, 'b, L: NodeBudget, A: Allocator>(
    parser: &mut Parser<'a, 'b, L, A>,
) -> Result<&'b Name<'a, 'b>, Failed>
    ensures value { ReadsAs name_at parser.old parser.new result (read new_source_name) }
    ensures consumes { Consumes parser.old parser.new result }
{
    parser.count_node()?;
    let text = parser.source_name()?;
    let name = parser.put_name(Name::Source(text))?;
    parser.add_name_inline(name, L::one())
}

/// Memorizes a template name that has `nodes` nodes, unless `templates` says not to, and returns it.
#[inline(never)]
fn add_template_name<'a, 'b, L: NodeBudget, A: Allocator>(
    parser: &mut Parser<'a, 'b, L, A>,
    name: &'b Name<'a, 'b>,
    nodes: L,
    templates: TemplateNames,
) -> Result<&'b Name<'a, 'b>, Failed>
    requires { L.used nodes ≡ name_count L.weight (name_of name.now) }
    ensures value { ReadsAs name_at parser.old parser.new result
        (λ left s. with_value (Some (name_of name.now)) left
        (add_template_name templates (name_of name.now) s)) }
    ensures stays { Stays parser.old parser.new result }
{
    match templates {
        TemplateNames::Memorized => parser.add_name(name, nodes),
        TemplateNames::NotMemorized => Ok(name),
    }
}

/// Reads `UNQUALIFIED_NAME = digit | "?$" TEMPLATE_NAME | "?" SPECIAL_NAME | SOURCE_NAME`.
#[cycle(readers)]
#[inline(always)]
fn unqualified_name<'a, 'b, L: NodeBudget, A: Allocator>(
    parser: &mut Parser<'a, 'b, L, A>,
    templates: TemplateNames,
) -> Result<&'b Name<'a, 'b>, Failed>
    ensures value { ReadsAs name_at parser.old parser.new result
        (read_name (production.unqualified_name templates)) }
    ensures consumes { Consumes parser.old parser.new result }
{
    if let Some(digit) = parser.digit() {
        return parser.name_of_digit(digit);
    }
    if parser.consume(b"?$") {
        return template_name(parser, templates);
    }
    if parser.consume(b"?") {
        return special_name(parser);
    }
    new_source_name(parser)
}

/// Reads `TEMPLATE_NAME = UNQUALIFIED_NAME PARAMETERS`, with separate tables of names and types.
#[cycle(readers)]
#[inline(never)]
pub fn template_name<'a, 'b, L: NodeBudget, A: Allocator>(
    parser: &mut Parser<'a, 'b, L, A>,
    templates: TemplateNames,
) -> Result<&'b Name<'a, 'b>, Failed>
    ensures value { ReadsAs name_at parser.old parser.new result (read (template_kept templates)) }
    ensures consumes { Consumes parser.old parser.new result }
{
    let before = parser.limit;
    let saved = parser.tables.open_template();
    let template = template(parser)?;
    parser.tables.close_template(saved);
    let nodes = parser.limit.since(before);
    add_template_name(parser, template, nodes, templates)
}

/// Reads the name and the arguments of a template.
#[cycle(readers)]
pub fn template<'a, 'b, L: NodeBudget, A: Allocator>(
    parser: &mut Parser<'a, 'b, L, A>,
) -> Result<&'b Name<'a, 'b>, Failed>
    ensures value { ReadsAs name_at parser.old parser.new result (read template_inside) }
    ensures consumes { Consumes parser.old parser.new result }
{
    parser.count_node()?;
    let name = unqualified_name(parser, TemplateNames::Memorized)?;
    let checkpoint = parameters(parser)?;
    parser.put_template(name, checkpoint)
}

/// Reads `NESTED_NAME = digit | "?" LOCALLY_SCOPED_NAME | SOURCE_NAME`.
#[cycle(readers)]
#[inline(always)]
pub fn nested_name<'a, 'b, L: NodeBudget, A: Allocator>(
    parser: &mut Parser<'a, 'b, L, A>,
) -> Result<&'b Name<'a, 'b>, Failed>
    ensures value { ReadsAs name_at parser.old parser.new result (read_name production.nested_name) }
    ensures consumes { Consumes parser.old parser.new result }
{
    if let Some(digit) = parser.digit() {
        return parser.name_of_digit(digit);
    }
    if parser.consume(b"?") {
        return locally_scoped_name(parser);
    }
    new_source_name(parser)
}

/// Reads `LOCALLY_SCOPED_NAME = "?" SYMBOL_BODY | "$" TEMPLATE_NAME | "A" ANONYMOUS_NAMESPACE | "Q" SOURCE_NAME "@" |
/// NUMBER`.
#[cycle(readers)]
fn locally_scoped_name<'a, 'b, L: NodeBudget, A: Allocator>(
    parser: &mut Parser<'a, 'b, L, A>,
) -> Result<&'b Name<'a, 'b>, Failed>
    ensures value { ReadsAs name_at parser.old parser.new result (read_name production.locally_scoped_name) }
    ensures consumes { Consumes parser.old parser.new result }
{
    if parser.consume(b"?") {
        parser.count_node()?;
        let symbol = symbol_body(parser)?;
        return parser.put_nested(symbol);
    }
    if parser.consume(b"$") {
        return template_name(parser, TemplateNames::Memorized);
    }
    if parser.consume(b"A") {
        return anonymous_namespace(parser);
    }
    if parser.consume(b"Q") {
        return interface(parser);
    }
    discriminator(parser)
}

/// Reads the number that distinguishes a scope.
#[inline(never)]
fn discriminator<'a, 'b, L: NodeBudget, A: Allocator>(
    parser: &mut Parser<'a, 'b, L, A>,
) -> Result<&'b Name<'a, 'b>, Failed>
    ensures value { ReadsAs name_at parser.old parser.new result
        (λ left s. in_node left s (λ left s. and_then (read_name production.number left s)
        (λ z left s. Some (discriminator z, left, s)))) }
    ensures consumes { Consumes parser.old parser.new result }
{
    parser.count_node()?;
    let number = parser.number()?;
    parser.put_name(Name::Discriminator(number))
}

/// Reads the name of an interface, after its `?Q`.
#[inline(never)]
fn interface<'a, 'b, L: NodeBudget, A: Allocator>(
    parser: &mut Parser<'a, 'b, L, A>,
) -> Result<&'b Name<'a, 'b>, Failed>
    ensures value { ReadsAs name_at parser.old parser.new result (read new_interface) }
    ensures consumes { Consumes parser.old parser.new result }
{
    parser.count_node()?;
    let text = parser.source_name()?;
    parser.expect(b"@", Message::AtExpected)?;
    parser.put_and_add_name(Name::Interface(text))
}

/// Reads `ANONYMOUS_NAMESPACE = ["0x" {hexadecimal digit}] "@"`, after its `?A`.
#[inline(never)]
fn anonymous_namespace<'a, 'b, L: NodeBudget, A: Allocator>(
    parser: &mut Parser<'a, 'b, L, A>,
) -> Result<&'b Name<'a, 'b>, Failed>
    ensures value { ReadsAs name_at parser.old parser.new result (read_name production.anonymous_namespace) }
    ensures consumes { Consumes parser.old parser.new result }
{
    if !parser.consume(b"0x") {
        parser.count_node()?;
        parser.expect(b"@", Message::AtExpected)?;
        return parser.put_name(Name::Anonymous);
    }
    parser.count_node()?;
    let digits = hexadecimal_digits(parser)?;
    parser.put_and_add_name(Name::AnonymousDigits(digits))
}

/// Reads the digits after `0x` and stores them in the arena, with the `0x`.
fn hexadecimal_digits<'a, 'b, L: NodeBudget, A: Allocator>(
    parser: &mut Parser<'a, 'b, L, A>,
) -> Result<&'b str, Failed>
    ensures value { ReadsAs (λ t. t.now) parser.old parser.new result
        (λ left s. and_then (read_name production.hexadecimal_digits left s)
        (λ ds left s. Some (codes "0x" ++ ds, left, s))) }
    ensures consumes { Consumes parser.old parser.new result }
{
    let digits = hex_digit_string(parser)?;
    match parser.arena.try_alloc_str(&digits) {
        Ok(digits) => Ok(digits),
        Err(_) => Err(parser.no_memory()),
    }
}

/// Reads `HEXADECIMAL_DIGITS = {hexadecimal digit} "@"`, and returns `0x` and the digits.
fn hex_digit_string<'a, 'b, L: NodeBudget, A: Allocator>(
    parser: &mut Parser<'a, 'b, L, A>,
) -> Result<String<&'b Bump<A>>, Failed>
    ensures value { ReadsAs string_bytes parser.old parser.new result
        (λ left s. and_then (read_name production.hexadecimal_digits left s)
        (λ ds left s. Some (codes "0x" ++ ds, left, s))) }
    ensures consumes { Consumes parser.old parser.new result }
{
    let Ok(mut digits) = String::from_str(parser.arena, "0x") else {
        return Err(parser.no_memory());
    };
    'digits: loop {
        if parser.consume(b"@") {
            return Ok(digits);
        }
        let digit = hexadecimal_digit(parser)?;
        if digits.push(char::from(digit)).is_err() {
            return Err(parser.no_memory());
        }
    }
}

/// Reads a base 16 digit, and returns its byte unchanged.
fn hexadecimal_digit<'a, 'b, L: NodeBudget, A: Allocator>(
    parser: &mut Parser<'a, 'b, L, A>,
) -> Result<u8, Failed>
    ensures value { ReadsAs (λ d. d) parser.old parser.new result (letter_here hexadecimal_codes) }
    ensures consumes { Consumes parser.old parser.new result }
    ensures low { IfOk result (λ d. d < 128) }
{
    let left = parser.rest.len();
    let Some(letter) = parser.next_byte() else {
        return Err(parser.reject_at(Message::AtExpected, left));
    };
    match letters::hexadecimal_code(letter) {
        Some(digit) => Ok(digit),
        None => Err(parser.reject_at(Message::AtExpected, left)),
    }
}

/// Reads `SCOPE = {NESTED_NAME} "@"`, the innermost name first. The names are on a new part of the parser's list, and
/// the result ends that part.
#[cycle(readers)]
pub fn scope<'a, 'b, L: NodeBudget, A: Allocator>(
    parser: &mut Parser<'a, 'b, L, A>,
) -> Result<Checkpoint, Failed>
    ensures value { ReadsAs (λ _. map name_at (current parser.new.listed_names)) parser.old parser.new result
        (read_name production.scope) }
    ensures shorter { IfOk result (λ _. length parser.new.rest.now < length parser.old.rest.now) }
    ensures lists { ListsNames parser.old parser.new result }
{
    let checkpoint = parser.listed_names.begin();
    'names: loop {
        if parser.consume(b"@") {
            return Ok(checkpoint);
        }
        let name = nested_name(parser)?;
        if parser.listed_names.push(name).is_err() {
            return Err(parser.no_memory());
        }
    }
}

/// Reads `QUALIFIED_NAME = UNQUALIFIED_NAME SCOPE`.
#[cycle(readers)]
pub fn qualified_name<'a, 'b, L: NodeBudget, A: Allocator>(
    parser: &mut Parser<'a, 'b, L, A>,
    templates: TemplateNames,
) -> Result<&'b Symbol<'a, 'b>, Failed>
    ensures value { ReadsAs named_at parser.old parser.new result
        (read_name (production.qualified_name templates)) }
    ensures consumes { Consumes parser.old parser.new result }
{
    let name = unqualified_name(parser, templates)?;
    let checkpoint = scope(parser)?;
    parser.put_symbol(name, checkpoint)
}
