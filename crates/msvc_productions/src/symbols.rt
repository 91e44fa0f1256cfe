//! Symbols, and the encodings after their names.

ghost use Rattle.std.specs.Prelude.{◌≡◌, ◌≤◌, codes, IfOk, length, map, None, Some};
ghost use Rattle.msvc_nodes.specs.NodeView.{name_at, type_at, type_of, typed_symbol_of};
ghost use Rattle.msvc_nodes.specs.Trees.{name_trees, table};
ghost use Rattle.msvc_rules.specs.Readers.{with_value};
ghost use Rattle.msvc_rules.specs.Sorts.{table_of, variable_of, virtual_call};
ghost use Rattle.msvc_grammar.specs.Grammar.{named_symbol, template_symbol};
ghost use Rattle.msvc_grammar.specs.Reading.{read, read_name};
ghost use Rattle.msvc_rules.specs.Rules as rules;
ghost use Rattle.msvc_grammar.specs.Productions as production;
ghost use Rattle.msvc_cursor.specs.Parser.{Consumes, MayConsume, ReadsAs};
ghost use Rattle.msvc_cursor.specs.Rows.{EndsNames, typed_symbol_at};
ghost use Rattle.msvc_cursor.specs.NestedList.{current, enclosing};

use crate::function_types::{convention, function, member};
use crate::guards::{indexed_symbol, numbered_guard};
use crate::hashed_symbols::hashed_symbol;
use crate::qualified_names::{qualified_name, scope, template_name};
use crate::types::type_;
use bitflags::Flags;
use msvc_cursor::budget::NodeBudget;
use msvc_cursor::failure::{Failed, Failure, Message};
use msvc_cursor::letters::{self, OptionalLetters};
use msvc_cursor::nested_list::Checkpoint;
use msvc_cursor::parser::Parser;
use msvc_grammar::forms::TemplateNames;
use msvc_nodes::flags::StorageClass;
use msvc_nodes::kinds::{PlainType, SpecialTableKind, VarStorageKind};
use msvc_nodes::nodes::{Scope, Type, TypedSymbol};
use std::alloc::Allocator;

/// Reads `SYMBOL = "?" SYMBOL_BODY`.
pub fn symbol<'a, 'b, L: NodeBudget, A: Allocator>(
    parser: &mut Parser<'a, 'b, L, A>,
) -> Result<TypedSymbol<'a, 'b>, Failed>
    ensures value { ReadsAs typed_symbol_of parser.old parser.new result (read_name production.symbol) }
    ensures start { rules.after (codes "?") parser.old.rest.now ≡ None
        → (IfOk result (λ _. ⊥))
        × (parser.new.last_error.reason ≡ Failure.Rejected Message.NoQuestionMark (length parser.old.rest.now)) }
{
    if !parser.consume(b"?") {
        return Err(parser.reject(Message::NoQuestionMark));
    }
    let symbol = symbol_body(parser)?;
    Ok(*symbol)
}

/// Reads `SYMBOL_BODY = "?@" HASHED_SYMBOL | "$TSS" NUMBERED_GUARD | "$" TEMPLATE_NAME | NAMED_SYMBOL`.
#[cycle(readers)]
pub fn symbol_body<'a, 'b, L: NodeBudget, A: Allocator>(
    parser: &mut Parser<'a, 'b, L, A>,
) -> Result<&'b TypedSymbol<'a, 'b>, Failed>
    ensures value { ReadsAs typed_symbol_at parser.old parser.new result (read_name production.symbol_body) }
    ensures consumes { Consumes parser.old parser.new result }
{
    if parser.consume(b"?@") {
        return hashed_symbol(parser);
    }
    if parser.consume(b"$TSS") {
        return numbered_guard(parser);
    }
    if parser.consume(b"$") {
        return template_symbol(parser);
    }
    named_symbol(parser)
}

/// Reads a symbol that is a template.
#[cycle(readers)]
#[inline(never)]
fn template_symbol<'a, 'b, L: NodeBudget, A: Allocator>(
    parser: &mut Parser<'a, 'b, L, A>,
) -> Result<&'b TypedSymbol<'a, 'b>, Failed>
    ensures value { ReadsAs typed_symbol_at parser.old parser.new result (read template_symbol) }
    ensures consumes { Consumes parser.old parser.new result }
{
    let name = template_name(parser, TemplateNames::NotMemorized)?;
    parser.count_node()?;
    parser.untyped_symbol(name)
}

/// Reads a name in its scope, the index of a guard, and an encoding.
#[cycle(readers)]
#[inline(never)]
fn named_symbol<'a, 'b, L: NodeBudget, A: Allocator>(
    parser: &mut Parser<'a, 'b, L, A>,
) -> Result<&'b TypedSymbol<'a, 'b>, Failed>
    ensures value { ReadsAs typed_symbol_at parser.old parser.new result (read named_symbol) }
    ensures consumes { Consumes parser.old parser.new result }
{
    let named = qualified_name(parser, TemplateNames::NotMemorized)?;
    let symbol = indexed_symbol(parser, named)?;
    let symbol_type = encoding(parser)?;
    parser.put_typed_symbol(symbol, symbol_type)
}

/// Reads `ENCODING = end | letter of encodings, and what its row asks for`.
#[cycle(readers)]
#[tactic(auto, using(msvc_cursor::proofs::SymbolSteps::encoding_steps), unfolding(msvc_cursor::proofs::SymbolSteps::encoding_by, msvc_nodes::specs::NodeView::type_of))]
fn encoding<'a, 'b, L: NodeBudget, A: Allocator>(
    parser: &mut Parser<'a, 'b, L, A>,
) -> Result<&'b Type<'a, 'b>, Failed>
    ensures value { ReadsAs type_at parser.old parser.new result (read_name production.encoding) }
    ensures consumes { MayConsume parser.old parser.new result }
{
    let Some(letter) = parser.next_byte() else {
        return parser.new_plain(PlainType::None);
    };
    match letter {
        b'0' => variable(parser, VarStorageKind::PrivateStatic),
        b'1' => variable(parser, VarStorageKind::ProtectedStatic),
        b'2' => variable(parser, VarStorageKind::PublicStatic),
        b'3' => variable(parser, VarStorageKind::Global),
        b'4' => variable(parser, VarStorageKind::FunctionLocalStatic),
        b'6' => table(parser, SpecialTableKind::Functions),
        b'7' => table(parser, SpecialTableKind::Bases),
        b'8' => parser.new_plain(PlainType::Rtti),
        b'9' => parser.new_plain(PlainType::None),
        b'_' => parser.encoded_string(),
        b'$' => virtual_call(parser),
        b'Y' => function(parser),
        _ => match letters::function_class(letter) {
            Some(class) => member(parser, class),
            None => Err(parser.reject(Message::UnknownFuncClass)),
        },
    }
}

/// Reads `VARIABLE = TYPE [storage class]`.
#[cycle(readers)]
fn variable<'a, 'b, L: NodeBudget, A: Allocator>(
    parser: &mut Parser<'a, 'b, L, A>,
    kind: VarStorageKind,
) -> Result<&'b Type<'a, 'b>, Failed>
    ensures value { ReadsAs type_at parser.old parser.new result
        (read_name (production.encoding_after (variable_of kind))) }
    ensures consumes { MayConsume parser.old parser.new result }
{
    parser.count_node()?;
    let variable = type_(parser, StorageClass::empty())?;
    let class = parser.optional(OptionalLetters::StorageClasses);
    parser.put_type(Type::Variable(kind, class, variable))
}

/// Reads `[qualifier] SCOPE`: the table of a class, after its letter.
#[cycle(readers)]
pub fn table<'a, 'b, L: NodeBudget, A: Allocator>(
    parser: &mut Parser<'a, 'b, L, A>,
    table: SpecialTableKind,
) -> Result<&'b Type<'a, 'b>, Failed>
    ensures value { ReadsAs type_at parser.old parser.new result
        (read_name (production.encoding_after (table_of table))) }
    ensures consumes { MayConsume parser.old parser.new result }
{
    parser.count_node()?;
    let class = parser.optional(OptionalLetters::Qualifiers);
    let checkpoint = scope(parser)?;
    put_table(parser, table, class, checkpoint)
}

/// Stores the table of a class, whose scope is on the list.
#[tactic(auto, using(msvc_cursor::proofs::Nodes::views))]
#[inline(never)]
fn put_table<'a, 'b, L: NodeBudget, A: Allocator>(
    parser: &mut Parser<'a, 'b, L, A>,
    kind: SpecialTableKind,
    class: StorageClass,
    checkpoint: Checkpoint,
) -> Result<&'b Type<'a, 'b>, Failed>
    requires { checkpoint.from ≤ length (enclosing parser.old.listed_names) }
    ensures value { ReadsAs type_at parser.old parser.new result
        (with_value (Some (table kind (name_trees (map name_at (current parser.old.listed_names))) class.0))) }
    ensures rest { IfOk result (λ _. parser.new.rest.now ≡ parser.old.rest.now) }
    ensures kept { EndsNames checkpoint parser.old parser.new result }
{
    let Some(names) = parser.listed_names.end_in(parser.arena, checkpoint) else {
        return Err(parser.no_memory());
    };
    let scope = parser.put(Scope { names: names.items })?;
    parser.put_type(Type::Table(kind, class, scope))
}

/// Reads `VIRTUAL_CALL = "B" NUMBER "A" convention`: a thunk that calls a virtual function.
fn virtual_call<'a, 'b, L: NodeBudget, A: Allocator>(
    parser: &mut Parser<'a, 'b, L, A>,
) -> Result<&'b Type<'a, 'b>, Failed>
    ensures value { ReadsAs type_at parser.old parser.new result (read_name (production.encoding_after virtual_call)) }
    ensures consumes { MayConsume parser.old parser.new result }
{
    parser.count_node()?;
    parser.expect(b"B", Message::BExpected)?;
    let offset = parser.number()?;
    parser.expect(b"A", Message::AExpected)?;
    let convention = convention(parser)?;
    parser.put_type(Type::VcallThunk(offset, convention))
}
