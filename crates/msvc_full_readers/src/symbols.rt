//! Symbols, and the encodings after their names.

ghost use Rattle.std.specs.Prelude.{◌≡◌, codes, IfOk, length, None, Some};
ghost use Rattle.msvc_nodes.specs.NodeView.{name_at, name_of, type_at, typed_symbol_of};
ghost use Rattle.msvc_rules.specs.Counts.{name_count};
ghost use Rattle.msvc_rules.specs.Rules.{after, begins};
ghost use Rattle.msvc_full_grammar.specs.Forms as forms_of;
ghost use Rattle.msvc_full_grammar.specs.Letters.{variable_texts};
ghost use Rattle.msvc_full_grammar.specs.Productions as production;
ghost use Rattle.msvc_full_grammar.specs.Reading.{read, read_name};
ghost use Rattle.msvc_full_grammar.specs.declared.forms.SymbolForm.TheVariants as symbol_forms;
ghost use Rattle.msvc_cursor.specs.Parser.{Consumes, MayConsume, ReadsAs, Stays, text_at};
ghost use Rattle.msvc_cursor.specs.Rows.{named_at, typed_symbol_at};
ghost use Rattle.msvc_full_letters.specs.Views.{encoding_form_of};
ghost use Rattle.msvc_full_grammar.specs.Fragments.{funclet_frame, name_alone};
ghost use Rattle.msvc_full_readers.specs.Readings.{entered, home_at, marked_text, name_in_scope, symbol_body};

use crate::arguments::template_value;
use crate::functions::{function_type, member_function, result_type};
use crate::made_symbols::{
    c_function_name, described_symbol, guard_name, hashed_symbol, named_home, no_variable,
    string_symbol, stub_end, variable_home, virtual_call, whole_hash,
};
use crate::names::{class_symbol, operator_name, scope, symbol_name, targets, template_name};
use crate::qualifiers::{adjusted_row, of_c};
use crate::repeated_classes::variable_end;
use crate::store::{
    FuncletHome, put_class, put_frame, put_funclet, put_named_type, put_outer_type, put_stub,
    put_table, put_typed_name, put_unscoped,
};
use crate::types::{type_, type_row};
use bitflags::Flags;
use msvc_cursor::budget::NodeBudget;
use msvc_cursor::failure::{Failed, Failure, Message};
use msvc_cursor::parser::Parser;
use msvc_full_grammar::forms::{Adjustment, OwnQualifiers, Stub, SymbolForm};
use msvc_full_letters::forms::EncodingForm;
use msvc_full_letters::numbers::plain;
use msvc_full_letters::offsets::offsets_of;
use msvc_full_letters::qualifiers::qualifier;
use msvc_full_letters::texts::{
    code_form, encoding_form, funclet_row, function_form, symbol_form, unknown_encoding,
    variable_kind,
};
use msvc_nodes::flags::{FuncClass, StorageClass};
use msvc_nodes::kinds::{Guard, PlainType, VarStorageKind};
use msvc_nodes::nodes::{Name, Symbol, Type, TypedSymbol};
use msvc_shapes::rows;
use std::alloc::Allocator;

/// Reads `WHOLE_TEXT = "." NAMED_TYPE | text of funclets FUNCLET | "??@" WHOLE_HASH | SYMBOL`.
pub fn whole_text<'a, 'b, L: NodeBudget, A: Allocator>(
    parser: &mut Parser<'a, 'b, L, A>,
) -> Result<TypedSymbol<'a, 'b>, Failed>
    ensures value { ReadsAs typed_symbol_of parser.old parser.new result (read_name production.whole_text) }
    ensures start { after (codes ".") parser.old.rest.now ≡ None → after (codes "?") parser.old.rest.now ≡ None
        → (IfOk result (λ _. ⊥))
        × (parser.new.last_error.reason ≡ Failure.Rejected Message.NoQuestionMark (length parser.old.rest.now)) }
{
    if parser.consume(b".") {
        let named = named_type(parser)?;
        return Ok(*named);
    }
    if !begins(parser.rest, b"?") {
        return Err(parser.reject(Message::NoQuestionMark));
    }
    let symbol = marked_text(parser)?;
    Ok(*symbol)
}

/// Reads a text that begins with a `?`.
fn marked_text<'a, 'b, L: NodeBudget, A: Allocator>(
    parser: &mut Parser<'a, 'b, L, A>,
) -> Result<&'b TypedSymbol<'a, 'b>, Failed>
    ensures value { ReadsAs typed_symbol_at parser.old parser.new result (read marked_text) }
    ensures consumes { Consumes parser.old parser.new result }
{
    if let Some((row, rest)) = funclet_row(parser.rest) {
        let left = parser.rest.len();
        parser.rest = rest;
        return funclet(parser, row, left);
    }
    if !parser.consume(b"?") {
        return Err(parser.reject(Message::NoQuestionMark));
    }
    if parser.consume(b"?@") {
        return whole_hash(parser);
    }
    symbol_body(parser)
}

/// Reads `NAMED_TYPE = RESULT_TYPE`: the name of a type.
#[inline(never)]
fn named_type<'a, 'b, L: NodeBudget, A: Allocator>(
    parser: &mut Parser<'a, 'b, L, A>,
) -> Result<&'b TypedSymbol<'a, 'b>, Failed>
    ensures value { ReadsAs typed_symbol_at parser.old parser.new result (read_name production.named_type) }
    ensures consumes { Consumes parser.old parser.new result }
{
    parser.count_node()?;
    parser.count_node()?;
    let named = result_type(parser)?;
    described_symbol(parser, rows::TYPE_DESCRIPTOR_NAME, named)
}

/// Reads `FUNCLET = bytes "@" FUNCLET_HOME`: the rest of the name of a funclet, and the function that it is a part of.
/// Fails at the first byte of the name, behind the `?`, if no `@` ends it. `left` is the number of unread bytes there.
#[cycle(funclets)]
#[inline(never)]
fn funclet<'a, 'b, L: NodeBudget, A: Allocator>(
    parser: &mut Parser<'a, 'b, L, A>,
    row: u8,
    left: usize,
) -> Result<&'b TypedSymbol<'a, 'b>, Failed>
    ensures value { ReadsAs typed_symbol_at parser.old parser.new result (read_name (production.funclet row)) }
    ensures consumes { Consumes parser.old parser.new result }
{
    let Ok(label) = parser.source_name() else {
        return Err(parser.reject_at(Message::MissingAt, left.saturating_sub(1)));
    };
    parser.count_node()?;
    let home = funclet_home(parser)?;
    put_funclet(parser, row, label, home)
}

/// Reads `FUNCLET_HOME = "0@" SYMBOL_NAME SCOPE | "?0?" FUNCLET_FUNCTION`.
#[cycle(funclets)]
fn funclet_home<'a, 'b, L: NodeBudget, A: Allocator>(
    parser: &mut Parser<'a, 'b, L, A>,
) -> Result<FuncletHome<'a, 'b>, Failed>
    ensures value { ReadsAs home_at parser.old parser.new result (read_name production.funclet_home) }
    ensures consumes { Consumes parser.old parser.new result }
{
    if parser.consume(b"0@") {
        let function = name_alone(parser)?;
        return named_home(parser, function);
    }
    parser.expect(b"?0?", Message::FuncletScopeExpected)?;
    let function = funclet_frame(parser)?;
    variable_home(parser, function)
}

/// Reads `SYMBOL_NAME SCOPE` as a symbol without a type.
fn name_alone<'a, 'b, L: NodeBudget, A: Allocator>(
    parser: &mut Parser<'a, 'b, L, A>,
) -> Result<&'b Name<'a, 'b>, Failed>
    ensures value { ReadsAs name_at parser.old parser.new result (read name_alone) }
    ensures consumes { Consumes parser.old parser.new result }
{
    parser.count_node()?;
    let symbol = name_in_scope(parser)?;
    put_class(parser, symbol)
}

/// Reads `FUNCLET_FUNCTION` as a scope inside that function.
#[cycle(funclets)]
fn funclet_frame<'a, 'b, L: NodeBudget, A: Allocator>(
    parser: &mut Parser<'a, 'b, L, A>,
) -> Result<&'b Name<'a, 'b>, Failed>
    ensures value { ReadsAs name_at parser.old parser.new result (read funclet_frame) }
    ensures consumes { Consumes parser.old parser.new result }
{
    parser.count_node()?;
    let function = funclet_function(parser)?;
    put_frame(parser, plain(1), function)
}

/// Reads `FUNCLET_FUNCTION = SOURCE_NAME "4HA" | FUNCLET_OR_SYMBOL "@4HA"`.
#[cycle(funclets)]
fn funclet_function<'a, 'b, L: NodeBudget, A: Allocator>(
    parser: &mut Parser<'a, 'b, L, A>,
) -> Result<&'b Name<'a, 'b>, Failed>
    ensures value { ReadsAs name_at parser.old parser.new result (read_name production.funclet_function) }
    ensures consumes { Consumes parser.old parser.new result }
{
    if !begins(parser.rest, b"?") {
        return c_function_name(parser);
    }
    parser.count_node()?;
    let function = funclet_or_symbol(parser)?;
    parser.expect(b"@4HA", Message::FuncletEndExpected)?;
    parser.put_nested(function)
}

/// Reads `FUNCLET_OR_SYMBOL = text of funclets FUNCLET | SYMBOL`.
#[cycle(funclets)]
fn funclet_or_symbol<'a, 'b, L: NodeBudget, A: Allocator>(
    parser: &mut Parser<'a, 'b, L, A>,
) -> Result<&'b TypedSymbol<'a, 'b>, Failed>
    ensures value { ReadsAs typed_symbol_at parser.old parser.new result (read_name production.funclet_or_symbol) }
    ensures consumes { Consumes parser.old parser.new result }
{
    if let Some((row, rest)) = funclet_row(parser.rest) {
        let left = parser.rest.len();
        parser.rest = rest;
        return funclet(parser, row, left);
    }
    symbol(parser)
}

/// Returns whether `bytes` begins with a literal.
pub fn begins(bytes: &[u8], literal: &[u8]) -> bool
    ensures { result ≡ begins bytes.now literal.now }
{
    let [expected, others @ ..] = literal else {
        return true;
    };
    match bytes {
        [first, rest @ ..] if *first == *expected => begins(rest, others),
        [_, ..] => false,
        [] => false,
    }
}

/// Reads `SYMBOL = "?" SYMBOL_BODY`.
fn symbol<'a, 'b, L: NodeBudget, A: Allocator>(
    parser: &mut Parser<'a, 'b, L, A>,
) -> Result<&'b TypedSymbol<'a, 'b>, Failed>
    ensures value { ReadsAs typed_symbol_at parser.old parser.new result (read_name production.symbol) }
    ensures consumes { Consumes parser.old parser.new result }
{
    parser.expect(b"?", Message::NoQuestionMark)?;
    symbol_body(parser)
}

/// Reads `SYMBOL_BODY = "?$" TEMPLATE_SYMBOL | "?" MARKED_SYMBOL | NAMED_SYMBOL`.
#[cycle(readers)]
pub fn symbol_body<'a, 'b, L: NodeBudget, A: Allocator>(
    parser: &mut Parser<'a, 'b, L, A>,
) -> Result<&'b TypedSymbol<'a, 'b>, Failed>
    ensures value { ReadsAs typed_symbol_at parser.old parser.new result (read symbol_body) }
    ensures consumes { Consumes parser.old parser.new result }
{
    if parser.consume(b"?$") {
        return template_symbol(parser);
    }
    if parser.consume(b"?") {
        return marked_symbol(parser);
    }
    named_symbol(parser)
}

/// Reads `MARKED_SYMBOL = text of symbols SYMBOL_AFTER | OPERATOR_SYMBOL`.
#[cycle(readers)]
#[inline(never)]
fn marked_symbol<'a, 'b, L: NodeBudget, A: Allocator>(
    parser: &mut Parser<'a, 'b, L, A>,
) -> Result<&'b TypedSymbol<'a, 'b>, Failed>
    ensures value { ReadsAs typed_symbol_at parser.old parser.new result (read_name production.marked_symbol) }
    ensures consumes { Consumes parser.old parser.new result }
{
    if let Some((form, rest)) = symbol_form(parser.rest) {
        parser.rest = rest;
        return symbol_after(parser, form);
    }
    operator_symbol(parser)
}

/// Reads `OPERATOR_SYMBOL = OPERATOR_NAME SCOPE ENCODING`.
#[cycle(readers)]
fn operator_symbol<'a, 'b, L: NodeBudget, A: Allocator>(
    parser: &mut Parser<'a, 'b, L, A>,
) -> Result<&'b TypedSymbol<'a, 'b>, Failed>
    ensures value { ReadsAs typed_symbol_at parser.old parser.new result (read_name production.operator_symbol) }
    ensures consumes { Consumes parser.old parser.new result }
{
    let name = operator_name(parser)?;
    let checkpoint = scope(parser)?;
    let symbol = parser.put_symbol(name, checkpoint)?;
    let symbol_type = encoding(parser)?;
    parser.put_typed_symbol(symbol, symbol_type)
}

/// Reads what follows the text of a symbol that has no name of the source.
#[cycle(readers)]
#[inline(never)]
fn symbol_after<'a, 'b, L: NodeBudget, A: Allocator>(
    parser: &mut Parser<'a, 'b, L, A>,
    form: SymbolForm,
) -> Result<&'b TypedSymbol<'a, 'b>, Failed>
    ensures value { ReadsAs typed_symbol_at parser.old parser.new result (read_name (production.symbol_after form)) }
    ensures consumes { Consumes parser.old parser.new result }
{
    match form {
        SymbolForm::Hashed => hashed_symbol(parser),
        SymbolForm::String => string_symbol(parser),
        SymbolForm::Descriptor => descriptor_symbol(parser),
        SymbolForm::Guard(guard) => guard_symbol(parser, guard),
        SymbolForm::Stub(stub) => stub_symbol(parser, stub),
        SymbolForm::Object => object_symbol(parser),
    }
}

/// Reads `RESULT_TYPE "@8"`: the descriptor of a type.
#[cycle(readers)]
#[inline(never)]
fn descriptor_symbol<'a, 'b, L: NodeBudget, A: Allocator>(
    parser: &mut Parser<'a, 'b, L, A>,
) -> Result<&'b TypedSymbol<'a, 'b>, Failed>
    ensures value { ReadsAs typed_symbol_at parser.old parser.new result
        (read_name (production.symbol_after symbol_forms.Descriptor)) }
    ensures consumes { Consumes parser.old parser.new result }
{
    parser.count_node()?;
    parser.count_node()?;
    let described = result_type(parser)?;
    parser.expect(b"@8", Message::DescriptorEndExpected)?;
    described_symbol(parser, rows::TYPE_DESCRIPTOR, described)
}

/// Reads `SCOPE GUARD_NAME`: a guard of static variables.
#[cycle(readers)]
#[inline(never)]
fn guard_symbol<'a, 'b, L: NodeBudget, A: Allocator>(
    parser: &mut Parser<'a, 'b, L, A>,
    guard: Guard,
) -> Result<&'b TypedSymbol<'a, 'b>, Failed>
    ensures value { ReadsAs typed_symbol_at parser.old parser.new result
        (read_name (production.symbol_after (symbol_forms.Guard guard))) }
    ensures consumes { Consumes parser.old parser.new result }
{
    let checkpoint = scope(parser)?;
    let name = guard_name(parser, guard)?;
    let symbol = parser.put_symbol(name, checkpoint)?;
    let symbol_type = parser.new_plain(PlainType::None)?;
    parser.put_typed_symbol(symbol, symbol_type)
}

/// Reads `TEMPLATE_VALUE "@"`: an object that is an argument of a template.
#[cycle(readers)]
#[inline(never)]
fn object_symbol<'a, 'b, L: NodeBudget, A: Allocator>(
    parser: &mut Parser<'a, 'b, L, A>,
) -> Result<&'b TypedSymbol<'a, 'b>, Failed>
    ensures value { ReadsAs typed_symbol_at parser.old parser.new result
        (read_name (production.symbol_after symbol_forms.Object)) }
    ensures consumes { Consumes parser.old parser.new result }
{
    parser.count_node()?;
    let value = template_value(parser)?;
    parser.expect(b"@", Message::AtExpected)?;
    let name = put_typed_name(parser, rows::TEMPLATE_OBJECT, value)?;
    parser.count_node()?;
    parser.untyped_symbol(name)
}

/// Reads `STUBBED FUNCTION_CODE`: a function that begins or ends the life of a variable.
#[cycle(readers)]
#[inline(never)]
fn stub_symbol<'a, 'b, L: NodeBudget, A: Allocator>(
    parser: &mut Parser<'a, 'b, L, A>,
    stub: Stub,
) -> Result<&'b TypedSymbol<'a, 'b>, Failed>
    ensures value { ReadsAs typed_symbol_at parser.old parser.new result
        (read_name (production.symbol_after (symbol_forms.Stub stub))) }
    ensures consumes { Consumes parser.old parser.new result }
{
    parser.count_node()?;
    parser.count_node()?;
    let stubbed = stubbed(parser)?;
    let name = put_stub(parser, stub, stubbed)?;
    let symbol_type = function_code(parser)?;
    put_unscoped(parser, name, symbol_type)
}

/// Reads `STUBBED = ["?"] ("?$" STUBBED_TEMPLATE | STUBBED_NAME)`: what a stub is of, a variable behind a `?`.
#[cycle(readers)]
fn stubbed<'a, 'b, L: NodeBudget, A: Allocator>(
    parser: &mut Parser<'a, 'b, L, A>,
) -> Result<&'b TypedSymbol<'a, 'b>, Failed>
    ensures value { ReadsAs typed_symbol_at parser.old parser.new result (read_name production.stubbed) }
    ensures consumes { Consumes parser.old parser.new result }
{
    if parser.consume(b"?$") {
        return stubbed_template(parser, false);
    }
    if !parser.consume(b"?") {
        return stubbed_name(parser, false);
    }
    if parser.consume(b"?$") {
        return stubbed_template(parser, true);
    }
    stubbed_name(parser, true)
}

/// Reads `STUBBED_TEMPLATE = TEMPLATE_NAME SCOPE VARIABLE_OR_NONE`: the template's name is memorized where a variable
/// follows.
#[cycle(readers)]
#[inline(never)]
fn stubbed_template<'a, 'b, L: NodeBudget, A: Allocator>(
    parser: &mut Parser<'a, 'b, L, A>,
    required: bool,
) -> Result<&'b TypedSymbol<'a, 'b>, Failed>
    ensures value { ReadsAs typed_symbol_at parser.old parser.new result
        (read_name (production.stubbed_template required)) }
    ensures consumes { Consumes parser.old parser.new result }
{
    let before = parser.limit;
    let name = template_name(parser)?;
    let nodes = parser.limit.since(before);
    let checkpoint = scope(parser)?;
    let symbol = parser.put_symbol(name, checkpoint)?;
    add_variable_name(parser, name, nodes)?;
    let symbol_type = variable_or_none(parser, required)?;
    parser.put_typed_symbol(symbol, symbol_type)
}

/// Reads `STUBBED_NAME = SYMBOL_NAME SCOPE VARIABLE_OR_NONE`.
#[cycle(readers)]
fn stubbed_name<'a, 'b, L: NodeBudget, A: Allocator>(
    parser: &mut Parser<'a, 'b, L, A>,
    required: bool,
) -> Result<&'b TypedSymbol<'a, 'b>, Failed>
    ensures value { ReadsAs typed_symbol_at parser.old parser.new result
        (read_name (production.stubbed_name required)) }
    ensures consumes { Consumes parser.old parser.new result }
{
    let symbol = name_in_scope(parser)?;
    let symbol_type = variable_or_none(parser, required)?;
    parser.put_typed_symbol(symbol, symbol_type)
}

/// Reads `VARIABLE_OR_NONE = text of variables VARIABLE ("@@" | "@") | NO_VARIABLE`: the longer end if the variable is
/// required.
#[cycle(readers)]
fn variable_or_none<'a, 'b, L: NodeBudget, A: Allocator>(
    parser: &mut Parser<'a, 'b, L, A>,
    required: bool,
) -> Result<&'b Type<'a, 'b>, Failed>
    ensures value { ReadsAs type_at parser.old parser.new result (read_name (production.variable_or_none required)) }
    ensures consumes { MayConsume parser.old parser.new result }
{
    if let Some((kind, rest)) = variable_kind(parser.rest) {
        parser.rest = rest;
        let variable = variable(parser, kind)?;
        stub_end(parser, required)?;
        return Ok(variable);
    }
    no_variable(parser, required)
}

/// Reads `FUNCTION_CODE = text of functions ENCODING_AFTER`: the signature of a function.
#[cycle(readers)]
fn function_code<'a, 'b, L: NodeBudget, A: Allocator>(
    parser: &mut Parser<'a, 'b, L, A>,
) -> Result<&'b Type<'a, 'b>, Failed>
    ensures value { ReadsAs type_at parser.old parser.new result (read_name production.function_code) }
    ensures consumes { Consumes parser.old parser.new result }
{
    let Some((form, rest)) = code_form(parser.rest) else {
        return no_encoding(parser);
    };
    parser.rest = rest;
    encoding_after(parser, form)
}

/// Reads `TEMPLATE_SYMBOL = TEMPLATE_NAME SCOPE ENCODING`: the template's name is memorized where a variable follows.
#[cycle(readers)]
#[inline(never)]
fn template_symbol<'a, 'b, L: NodeBudget, A: Allocator>(
    parser: &mut Parser<'a, 'b, L, A>,
) -> Result<&'b TypedSymbol<'a, 'b>, Failed>
    ensures value { ReadsAs typed_symbol_at parser.old parser.new result (read_name production.template_symbol) }
    ensures consumes { Consumes parser.old parser.new result }
{
    let before = parser.limit;
    let name = template_name(parser)?;
    let nodes = parser.limit.since(before);
    let checkpoint = scope(parser)?;
    let symbol = parser.put_symbol(name, checkpoint)?;
    add_variable_name(parser, name, nodes)?;
    let symbol_type = encoding(parser)?;
    parser.put_typed_symbol(symbol, symbol_type)
}

/// Memorizes the name of a template that has `nodes` nodes, where a variable follows.
#[inline(never)]
fn add_variable_name<'a, 'b, L: NodeBudget, A: Allocator>(
    parser: &mut Parser<'a, 'b, L, A>,
    name: &'b Name<'a, 'b>,
    nodes: L,
) -> Result<(), Failed>
    requires { L.used nodes ≡ name_count L.weight (name_of name.now) }
    ensures value { ReadsAs (λ _. tt {0}) parser.old parser.new result
        (λ left s. Some (tt {0}, left, entered (text_at variable_texts left) (name_of name.now) s)) }
    ensures stays { Stays parser.old parser.new result }
{
    if let Some(_) = variable_kind(parser.rest) {
        parser.add_name(name, nodes)?;
    }
    Ok(())
}

/// Reads `NAMED_SYMBOL = SYMBOL_NAME SCOPE ENCODING`.
#[cycle(readers)]
#[inline(never)]
fn named_symbol<'a, 'b, L: NodeBudget, A: Allocator>(
    parser: &mut Parser<'a, 'b, L, A>,
) -> Result<&'b TypedSymbol<'a, 'b>, Failed>
    ensures value { ReadsAs typed_symbol_at parser.old parser.new result (read_name production.named_symbol) }
    ensures consumes { Consumes parser.old parser.new result }
{
    let symbol = name_in_scope(parser)?;
    let symbol_type = encoding(parser)?;
    parser.put_typed_symbol(symbol, symbol_type)
}

/// Reads `SYMBOL_NAME SCOPE`.
#[cycle(readers)]
#[inline(always)]
fn name_in_scope<'a, 'b, L: NodeBudget, A: Allocator>(
    parser: &mut Parser<'a, 'b, L, A>,
) -> Result<&'b Symbol<'a, 'b>, Failed>
    ensures value { ReadsAs named_at parser.old parser.new result (read name_in_scope) }
    ensures consumes { Consumes parser.old parser.new result }
{
    let name = symbol_name(parser)?;
    let checkpoint = scope(parser)?;
    parser.put_symbol(name, checkpoint)
}

/// Reads `ENCODING = text of variables VARIABLE | end | text of encodings ENCODING_AFTER`.
#[cycle(readers)]
fn encoding<'a, 'b, L: NodeBudget, A: Allocator>(
    parser: &mut Parser<'a, 'b, L, A>,
) -> Result<&'b Type<'a, 'b>, Failed>
    ensures value { ReadsAs type_at parser.old parser.new result (read_name production.encoding) }
    ensures consumes { MayConsume parser.old parser.new result }
{
    if let Some((kind, rest)) = variable_kind(parser.rest) {
        parser.rest = rest;
        return variable(parser, kind);
    }
    if parser.rest.is_empty() {
        return parser.new_plain(PlainType::None);
    }
    let Some((form, rest)) = encoding_form(parser.rest) else {
        return no_encoding(parser);
    };
    parser.rest = rest;
    encoding_after(parser, form)
}

/// Records that the text continues with no text of an encoding.
#[inline(never)]
fn no_encoding<'a, 'b, L: NodeBudget, A: Allocator>(
    parser: &mut Parser<'a, 'b, L, A>,
) -> Result<&'b Type<'a, 'b>, Failed>
    ensures value { ReadsAs type_at parser.old parser.new result (λ left s. None) }
    ensures consumes { Consumes parser.old parser.new result }
{
    let (message, left) = unknown_encoding(parser.rest);
    Err(parser.reject_at(message, left))
}

/// Reads what follows the text of an encoding.
#[cycle(readers)]
#[inline(always)]
fn encoding_after<'a, 'b, L: NodeBudget, A: Allocator>(
    parser: &mut Parser<'a, 'b, L, A>,
    form: EncodingForm,
) -> Result<&'b Type<'a, 'b>, Failed>
    ensures value { ReadsAs type_at parser.old parser.new result
        (read_name (production.encoding_after (encoding_form_of form))) }
    ensures consumes { MayConsume parser.old parser.new result }
{
    match form {
        EncodingForm::Row(row) => type_row(parser, row, StorageClass::empty()),
        EncodingForm::FreeFunction => function_type(parser, OwnQualifiers::Absent),
        EncodingForm::Function(class) => member_function(parser, class),
        EncodingForm::Thunk(adjustment, class) => thunk(parser, adjustment, class),
        EncodingForm::CFunction => c_function(parser),
        EncodingForm::ManagedFunction => managed_function(parser),
        EncodingForm::Table => table(parser),
        EncodingForm::TypeInformation => parser.new_plain(PlainType::Rtti),
        EncodingForm::VirtualCall => virtual_call(parser),
        EncodingForm::Displacement => displacement(parser),
    }
}

/// Reads a function of managed code, after its `$$F`, `$$H` or `$$h`.
#[cycle(readers)]
#[inline(never)]
fn managed_function<'a, 'b, L: NodeBudget, A: Allocator>(
    parser: &mut Parser<'a, 'b, L, A>,
) -> Result<&'b Type<'a, 'b>, Failed>
    ensures value { ReadsAs type_at parser.old parser.new result
        (read_name (production.encoding_after forms_of.managed_function)) }
    ensures consumes { Consumes parser.old parser.new result }
{
    let Some((form, rest)) = function_form(parser.rest) else {
        return no_encoding(parser);
    };
    parser.rest = rest;
    encoding_after(parser, form)
}

/// Reads the class that a map of displacements is for.
#[cycle(readers)]
#[inline(never)]
fn displacement<'a, 'b, L: NodeBudget, A: Allocator>(
    parser: &mut Parser<'a, 'b, L, A>,
) -> Result<&'b Type<'a, 'b>, Failed>
    ensures value { ReadsAs type_at parser.old parser.new result
        (read_name (production.encoding_after forms_of.displaced)) }
    ensures consumes { Consumes parser.old parser.new result }
{
    parser.count_node()?;
    let class = class_symbol(parser)?;
    put_named_type(parser, rows::DISPLACEMENT, StorageClass::empty(), class)
}

/// Reads a function of C, after its `$$J0`.
#[cycle(readers)]
#[inline(never)]
fn c_function<'a, 'b, L: NodeBudget, A: Allocator>(
    parser: &mut Parser<'a, 'b, L, A>,
) -> Result<&'b Type<'a, 'b>, Failed>
    ensures value { ReadsAs type_at parser.old parser.new result
        (read_name (production.encoding_after forms_of.c_function)) }
    ensures consumes { Consumes parser.old parser.new result }
{
    let Some((form, rest)) = function_form(parser.rest) else {
        return no_encoding(parser);
    };
    parser.rest = rest;
    encoding_after(parser, of_c(form))
}

/// Reads the offsets by which a function moves its `this`, and its signature.
#[cycle(readers)]
#[inline(never)]
fn thunk<'a, 'b, L: NodeBudget, A: Allocator>(
    parser: &mut Parser<'a, 'b, L, A>,
    adjustment: Adjustment,
    class: FuncClass,
) -> Result<&'b Type<'a, 'b>, Failed>
    ensures value { ReadsAs type_at parser.old parser.new result
        (read_name (production.encoding_after (forms_of.thunk_of adjustment class.0))) }
    ensures consumes { Consumes parser.old parser.new result }
{
    parser.count_node()?;
    let offsets = offsets_of(parser, adjustment)?;
    let function = member_function(parser, class)?;
    put_outer_type(
        parser,
        adjusted_row(adjustment),
        offsets,
        function,
        StorageClass::empty(),
    )
}

/// Reads a qualifier and the classes that a table is for.
#[cycle(readers)]
#[inline(never)]
fn table<'a, 'b, L: NodeBudget, A: Allocator>(
    parser: &mut Parser<'a, 'b, L, A>,
) -> Result<&'b Type<'a, 'b>, Failed>
    ensures value { ReadsAs type_at parser.old parser.new result
        (read_name (production.encoding_after forms_of.table_of_class)) }
    ensures consumes { Consumes parser.old parser.new result }
{
    parser.count_node()?;
    let qualifiers = qualifier(parser)?;
    let checkpoint = targets(parser)?;
    put_table(parser, qualifiers, checkpoint)
}

/// Reads `VARIABLE = TYPE VARIABLE_END`.
#[cycle(readers)]
fn variable<'a, 'b, L: NodeBudget, A: Allocator>(
    parser: &mut Parser<'a, 'b, L, A>,
    kind: VarStorageKind,
) -> Result<&'b Type<'a, 'b>, Failed>
    ensures value { ReadsAs type_at parser.old parser.new result (read_name (production.variable kind)) }
    ensures consumes { Consumes parser.old parser.new result }
{
    parser.count_node()?;
    let variable = type_(parser, StorageClass::empty())?;
    let class = variable_end(parser, variable)?;
    parser.put_type(Type::Variable(kind, class, variable))
}
