//! Nodes of several parts. Each function stands outside the cycle of readers, which then only call, so that a step
//! lemma is all that the prover needs of a reader.
#![tactic(auto, using(crate::proofs::StoreSteps::steps), unfolding(msvc_cursor::specs::Parser::byte_here, msvc_rules::specs::Readers::counting, msvc_nodes::specs::NodeView::name_of, msvc_nodes::specs::NodeView::type_of))]

ghost use Rattle.std.specs.Prelude.{◌≡◌, ◌≤◌, ◌<◌, ◌∷◌, ◌++◌, [], IfOk, IfSome, length, map, reverse, Some};
ghost use Rattle.std.specs.Mem.{FitsInMemory};
ghost use Rattle.msvc_nodes.specs.NodeView.{name_at, name_of, type_at, type_of};
ghost use Rattle.msvc_nodes.specs.Trees.{name_trees, names, nested, no_names, no_types, plain, shape, shaped};
ghost use Rattle.msvc_nodes.specs.Trees.{type_trees};
ghost use Rattle.msvc_nodes.specs.Trees.{types};
ghost use Rattle.msvc_nodes.specs.Trees as tree;
ghost use Rattle.msvc_nodes.specs.declared.kinds.PlainType.TheVariants as plain_kind;
ghost use Rattle.msvc_rules.specs.Readers.{in_node, with_value};
ghost use Rattle.msvc_full_grammar.specs.Reading.{read};
ghost use Rattle.msvc_nodes.specs.declared.kinds.VarStorageKind.TheVariants as storage_kind;
ghost use Rattle.msvc_full_grammar.specs.Rows.{frame_row, member_of_row, symbol_offsets_row, tables_row};
ghost use Rattle.msvc_full_grammar.specs.Rows.{union_value_row, values_row};
ghost use Rattle.msvc_cursor.specs.NestedList.{current, enclosing};
ghost use Rattle.msvc_cursor.specs.Parser.{ReadsAs, Stays};
ghost use Rattle.msvc_cursor.specs.Rows.{EndsNames, EndsTypes, typed_symbol_at};
ghost use Rattle.msvc_full_grammar.specs.Fragments as spec;
ghost use Rattle.msvc_nodes.specs.NodeView.{typed_symbol_of};
ghost use Rattle.msvc_full_readers.specs.Readings.{funclet_of, funclet_variable, home_at, signature_at};
ghost use Rattle.msvc_full_readers.specs.Readings.{signature_end, stub_name_of};

use crate::qualifiers::noexcept;
use bitflags::Flags;
use bumpalo::Bump;
use bumpalo::collections::into_bump_slice;
use msvc_cursor::budget::NodeBudget;
use msvc_cursor::failure::{Failed, Message};
use msvc_cursor::nested_list::Checkpoint;
use msvc_cursor::parser::Parser;
use msvc_full_grammar::forms::Stub;
use msvc_nodes::flags::{FuncClass, StorageClass};
use msvc_nodes::kinds::{Convention, PlainOperator, PlainType, PrimitiveKind, VarStorageKind};
use msvc_nodes::list::List;
use msvc_nodes::nodes::{BaseClass, Function, Name, Number, Shape, Symbol, Type, TypedSymbol};
use msvc_shapes::rows;
use std::alloc::Allocator;

/// Stores a list of one item, or returns nothing if memory runs out.
fn list_of<'b, T: Copy, A: Allocator>(arena: &'b Bump<A>, item: T) -> Option<List<'b, T>>
    requires { FitsInMemory T.row }
    ensures { IfSome result (λ list. list.items.now ≡ item ∷ []) }
{
    match arena.try_alloc([item]) {
        Ok(list) => Some(List { items: list }),
        Err(_) => None,
    }
}

/// Stores a type of a row that has qualifiers and nothing else, if any.
pub fn put_empty_type<'a, 'b, L: NodeBudget, A: Allocator>(
    parser: &mut Parser<'a, 'b, L, A>,
    row: u8,
    qualifiers: StorageClass,
) -> Result<&'b Type<'a, 'b>, Failed>
    ensures value { ReadsAs type_at parser.old parser.new result
        (with_value (Some (shape row qualifiers.0 [] [] no_names no_types))) }
    ensures stays { Stays parser.old parser.new result }
{
    let numbers: &[Number] = &[];
    let names: &[&Name<'a, 'b>] = &[];
    let types: &[&Type<'a, 'b>] = &[];
    let shape = parser.put(Shape {
        row,
        qualifiers,
        numbers,
        text: b"",
        names,
        types,
    })?;
    parser.put_type(Type::Shape(shape))
}

/// Stores a type of a row that has qualifiers, if any, and a number.
#[inline(always)]
pub fn put_number_type<'a, 'b, L: NodeBudget, A: Allocator>(
    parser: &mut Parser<'a, 'b, L, A>,
    row: u8,
    qualifiers: StorageClass,
    number: Number,
) -> Result<&'b Type<'a, 'b>, Failed>
    ensures value { ReadsAs type_at parser.old parser.new result
        (with_value (Some (shape row qualifiers.0 (number ∷ []) [] no_names no_types))) }
    ensures stays { Stays parser.old parser.new result }
{
    let Some(numbers) = list_of(parser.arena, number) else {
        return Err(parser.no_memory());
    };
    let names: &[&Name<'a, 'b>] = &[];
    let types: &[&Type<'a, 'b>] = &[];
    let shape = parser.put(Shape {
        row,
        qualifiers,
        numbers: numbers.items,
        text: b"",
        names,
        types,
    })?;
    parser.put_type(Type::Shape(shape))
}

/// Stores a type of a row that has qualifiers, if any, and a name.
#[inline(never)]
pub fn put_named_type<'a, 'b, L: NodeBudget, A: Allocator>(
    parser: &mut Parser<'a, 'b, L, A>,
    row: u8,
    qualifiers: StorageClass,
    name: &'b Name<'a, 'b>,
) -> Result<&'b Type<'a, 'b>, Failed>
    ensures value { ReadsAs type_at parser.old parser.new result
        (with_value (Some (shape row qualifiers.0 [] [] (names (name_of name.now) no_names) no_types))) }
    ensures stays { Stays parser.old parser.new result }
{
    let Some(names) = list_of(parser.arena, name) else {
        return Err(parser.no_memory());
    };
    let numbers: &[Number] = &[];
    let types: &[&Type<'a, 'b>] = &[];
    let shape = parser.put(Shape {
        row,
        qualifiers,
        numbers,
        text: b"",
        names: names.items,
        types,
    })?;
    parser.put_type(Type::Shape(shape))
}

/// Stores a type of a row that has numbers, if any.
#[inline(never)]
pub fn put_numbers_type<'a, 'b, L: NodeBudget, A: Allocator>(
    parser: &mut Parser<'a, 'b, L, A>,
    row: u8,
    numbers: &'b [Number],
) -> Result<&'b Type<'a, 'b>, Failed>
    ensures value { ReadsAs type_at parser.old parser.new result
        (with_value (Some (shape row 0 numbers.now [] no_names no_types))) }
    ensures stays { Stays parser.old parser.new result }
{
    let names: &[&Name<'a, 'b>] = &[];
    let types: &[&Type<'a, 'b>] = &[];
    let shape = parser.put(Shape {
        row,
        qualifiers: StorageClass::empty(),
        numbers,
        text: b"",
        names,
        types,
    })?;
    parser.put_type(Type::Shape(shape))
}

/// Stores a type of a row around another type, with numbers and qualifiers, if any.
#[inline(never)]
pub fn put_outer_type<'a, 'b, L: NodeBudget, A: Allocator>(
    parser: &mut Parser<'a, 'b, L, A>,
    row: u8,
    numbers: &'b [Number],
    inner: &'b Type<'a, 'b>,
    qualifiers: StorageClass,
) -> Result<&'b Type<'a, 'b>, Failed>
    ensures value { ReadsAs type_at parser.old parser.new result
        (with_value (Some (shape row qualifiers.0 numbers.now [] no_names (types (type_of inner.now) no_types)))) }
    ensures stays { Stays parser.old parser.new result }
{
    let Some(types) = list_of(parser.arena, inner) else {
        return Err(parser.no_memory());
    };
    let names: &[&Name<'a, 'b>] = &[];
    let shape = parser.put(Shape {
        row,
        qualifiers,
        numbers,
        text: b"",
        names,
        types: types.items,
    })?;
    parser.put_type(Type::Shape(shape))
}

/// Stores a type of a row that has two types.
#[inline(never)]
pub fn put_pair<'a, 'b, L: NodeBudget, A: Allocator>(
    parser: &mut Parser<'a, 'b, L, A>,
    row: u8,
    first: &'b Type<'a, 'b>,
    second: &'b Type<'a, 'b>,
) -> Result<&'b Type<'a, 'b>, Failed>
    ensures value { ReadsAs type_at parser.old parser.new result
        (with_value (Some (shape row 0 [] [] no_names
        (types (type_of first.now) (types (type_of second.now) no_types))))) }
    ensures stays { Stays parser.old parser.new result }
{
    let mut types = Vec::new(parser.arena);
    if types.push(first).is_err() || types.push(second).is_err() {
        return Err(parser.no_memory());
    }
    let numbers: &[Number] = &[];
    let names: &[&Name<'a, 'b>] = &[];
    let shape = parser.put(Shape {
        row,
        qualifiers: StorageClass::empty(),
        numbers,
        text: b"",
        names,
        types: into_bump_slice(types),
    })?;
    parser.put_type(Type::Shape(shape))
}

/// Stores a value of a union by the name and the value of its member.
#[inline(never)]
pub fn put_union_value<'a, 'b, L: NodeBudget, A: Allocator>(
    parser: &mut Parser<'a, 'b, L, A>,
    member: &'b Name<'a, 'b>,
    union_type: &'b Type<'a, 'b>,
    value: &'b Type<'a, 'b>,
) -> Result<&'b Type<'a, 'b>, Failed>
    ensures value { ReadsAs type_at parser.old parser.new result
        (with_value (Some (shape union_value_row 0 [] [] (names (name_of member.now) no_names)
        (types (type_of union_type.now) (types (type_of value.now) no_types))))) }
    ensures stays { Stays parser.old parser.new result }
{
    let mut types = Vec::new(parser.arena);
    if types.push(union_type).is_err() || types.push(value).is_err() {
        return Err(parser.no_memory());
    }
    let Some(names) = list_of(parser.arena, member) else {
        return Err(parser.no_memory());
    };
    let numbers: &[Number] = &[];
    let shape = parser.put(Shape {
        row: rows::UNION_VALUE,
        qualifiers: StorageClass::empty(),
        numbers,
        text: b"",
        names: names.items,
        types: into_bump_slice(types),
    })?;
    parser.put_type(Type::Shape(shape))
}

/// Stores the values on the list, in braces.
#[tactic(auto, using(msvc_cursor::proofs::Nodes::views, crate::proofs::StoreSteps::steps))]
#[inline(never)]
pub fn put_values<'a, 'b, L: NodeBudget, A: Allocator>(
    parser: &mut Parser<'a, 'b, L, A>,
    checkpoint: Checkpoint,
) -> Result<&'b Type<'a, 'b>, Failed>
    requires { checkpoint.from ≤ length (enclosing parser.old.listed_types) }
    ensures value { ReadsAs type_at parser.old parser.new result
        (with_value (Some (shape values_row 0 [] [] no_names
        (type_trees (map type_at (current parser.old.listed_types)))))) }
    ensures rest { IfOk result (λ _. parser.new.rest.now ≡ parser.old.rest.now) }
    ensures kept { EndsTypes checkpoint parser.old parser.new result }
{
    let Some(types) = parser.listed_types.end_in(parser.arena, checkpoint) else {
        return Err(parser.no_memory());
    };
    let numbers: &[Number] = &[];
    let names: &[&Name<'a, 'b>] = &[];
    let shape = parser.put(Shape {
        row: rows::VALUES,
        qualifiers: StorageClass::empty(),
        numbers,
        text: b"",
        names,
        types: types.items,
    })?;
    parser.put_type(Type::Shape(shape))
}

/// Stores a list of items, the last first, and one behind them, or returns nothing if memory runs out.
fn from_last<'b, T: Copy, A: Allocator>(
    arena: &'b Bump<A>,
    items: &[T],
    behind: T,
) -> Option<List<'b, T>>
    ensures { IfSome result (λ list. list.items.now ≡ reverse items.now ++ behind ∷ []) }
{
    let mut list = Vec::new(arena);
    let mut at = items.len();
    'items: while at > 0 {
        at -= 1;
        if list.push(items[at]).is_err() {
            return None;
        }
    }
    if list.push(behind).is_err() {
        return None;
    }
    Some(List {
        items: into_bump_slice(list),
    })
}

/// Stores a pointer to a member by its scope, whose names are on the list, and its name.
#[tactic(auto, using(msvc_cursor::proofs::Nodes::views, crate::proofs::StoreSteps::steps))]
#[inline(never)]
pub fn put_member_of<'a, 'b, L: NodeBudget, A: Allocator>(
    parser: &mut Parser<'a, 'b, L, A>,
    checkpoint: Checkpoint,
    member: &'b Name<'a, 'b>,
) -> Result<&'b Type<'a, 'b>, Failed>
    requires { checkpoint.from ≤ length (enclosing parser.old.listed_names) }
    ensures value { ReadsAs type_at parser.old parser.new result
        (with_value (Some (shape member_of_row 0 [] []
        (name_trees (reverse (map name_at (current parser.old.listed_names)) ++ name_of member.now ∷ [])) no_types))) }
    ensures rest { IfOk result (λ _. parser.new.rest.now ≡ parser.old.rest.now) }
    ensures kept { EndsNames checkpoint parser.old parser.new result }
{
    let Some(scope) = parser.listed_names.end_in(parser.arena, checkpoint) else {
        return Err(parser.no_memory());
    };
    let Some(names) = from_last(parser.arena, scope.items, member) else {
        return Err(parser.no_memory());
    };
    let numbers: &[Number] = &[];
    let types: &[&Type<'a, 'b>] = &[];
    let shape = parser.put(Shape {
        row: rows::MEMBER_OF,
        qualifiers: StorageClass::empty(),
        numbers,
        text: b"",
        names: names.items,
        types,
    })?;
    parser.put_type(Type::Shape(shape))
}

/// Stores offsets of a pointer to a member function.
#[inline(never)]
pub fn put_symbol_offsets<'a, 'b, L: NodeBudget, A: Allocator>(
    parser: &mut Parser<'a, 'b, L, A>,
    function: &'b Name<'a, 'b>,
    numbers: &'b [Number],
) -> Result<&'b Type<'a, 'b>, Failed>
    ensures value { ReadsAs type_at parser.old parser.new result
        (with_value (Some (shape symbol_offsets_row 0 numbers.now [] (names (name_of function.now) no_names)
        no_types))) }
    ensures stays { Stays parser.old parser.new result }
{
    let Some(names) = list_of(parser.arena, function) else {
        return Err(parser.no_memory());
    };
    let types: &[&Type<'a, 'b>] = &[];
    let shape = parser.put(Shape {
        row: rows::SYMBOL_OFFSETS,
        qualifiers: StorageClass::empty(),
        numbers,
        text: b"",
        names: names.items,
        types,
    })?;
    parser.put_type(Type::Shape(shape))
}

/// Stores a table for the classes on the list.
#[tactic(auto, using(msvc_cursor::proofs::Nodes::views, crate::proofs::StoreSteps::steps))]
#[inline(never)]
pub fn put_table<'a, 'b, L: NodeBudget, A: Allocator>(
    parser: &mut Parser<'a, 'b, L, A>,
    qualifiers: StorageClass,
    checkpoint: Checkpoint,
) -> Result<&'b Type<'a, 'b>, Failed>
    requires { checkpoint.from ≤ length (enclosing parser.old.listed_names) }
    ensures value { ReadsAs type_at parser.old parser.new result
        (with_value (Some (shape tables_row qualifiers.0 [] []
        (name_trees (map name_at (current parser.old.listed_names))) no_types))) }
    ensures rest { IfOk result (λ _. parser.new.rest.now ≡ parser.old.rest.now) }
    ensures kept { EndsNames checkpoint parser.old parser.new result }
{
    let Some(names) = parser.listed_names.end_in(parser.arena, checkpoint) else {
        return Err(parser.no_memory());
    };
    let numbers: &[Number] = &[];
    let types: &[&Type<'a, 'b>] = &[];
    let shape = parser.put(Shape {
        row: rows::TABLES,
        qualifiers,
        numbers,
        text: b"",
        names: names.items,
        types,
    })?;
    parser.put_type(Type::Shape(shape))
}

/// Stores a type of a row around another type, with a name and qualifiers, if any.
#[inline(never)]
pub fn put_named_outer<'a, 'b, L: NodeBudget, A: Allocator>(
    parser: &mut Parser<'a, 'b, L, A>,
    row: u8,
    name: &'b Name<'a, 'b>,
    inner: &'b Type<'a, 'b>,
    qualifiers: StorageClass,
) -> Result<&'b Type<'a, 'b>, Failed>
    ensures value { ReadsAs type_at parser.old parser.new result
        (with_value (Some (shape row qualifiers.0 [] [] (names (name_of name.now) no_names)
        (types (type_of inner.now) no_types)))) }
    ensures stays { Stays parser.old parser.new result }
{
    let Some(names) = list_of(parser.arena, name) else {
        return Err(parser.no_memory());
    };
    let Some(types) = list_of(parser.arena, inner) else {
        return Err(parser.no_memory());
    };
    let numbers: &[Number] = &[];
    let shape = parser.put(Shape {
        row,
        qualifiers,
        numbers,
        text: b"",
        names: names.items,
        types: types.items,
    })?;
    parser.put_type(Type::Shape(shape))
}

/// Stores a type of a row around another type, with a number and qualifiers, if any.
#[inline(never)]
pub fn put_numbered_outer<'a, 'b, L: NodeBudget, A: Allocator>(
    parser: &mut Parser<'a, 'b, L, A>,
    row: u8,
    number: Number,
    inner: &'b Type<'a, 'b>,
    qualifiers: StorageClass,
) -> Result<&'b Type<'a, 'b>, Failed>
    ensures value { ReadsAs type_at parser.old parser.new result
        (with_value (Some (shape row qualifiers.0 (number ∷ []) [] no_names (types (type_of inner.now) no_types)))) }
    ensures stays { Stays parser.old parser.new result }
{
    let Some(numbers) = list_of(parser.arena, number) else {
        return Err(parser.no_memory());
    };
    put_outer_type(parser, row, numbers.items, inner, qualifiers)
}

/// Stores a name of a row that has a type.
#[inline(never)]
pub fn put_typed_name<'a, 'b, L: NodeBudget, A: Allocator>(
    parser: &mut Parser<'a, 'b, L, A>,
    row: u8,
    inner: &'b Type<'a, 'b>,
) -> Result<&'b Name<'a, 'b>, Failed>
    ensures value { ReadsAs name_at parser.old parser.new result
        (with_value (Some (shaped row 0 [] [] no_names (types (type_of inner.now) no_types)))) }
    ensures stays { Stays parser.old parser.new result }
{
    let Some(types) = list_of(parser.arena, inner) else {
        return Err(parser.no_memory());
    };
    let numbers: &[Number] = &[];
    let names: &[&Name<'a, 'b>] = &[];
    let shape = parser.put(Shape {
        row,
        qualifiers: StorageClass::empty(),
        numbers,
        text: b"",
        names,
        types: types.items,
    })?;
    parser.put_name(Name::Shape(shape))
}

/// Stores a name of a row that has nothing in it.
pub fn put_empty_name<'a, 'b, L: NodeBudget, A: Allocator>(
    parser: &mut Parser<'a, 'b, L, A>,
    row: u8,
) -> Result<&'b Name<'a, 'b>, Failed>
    ensures value { ReadsAs name_at parser.old parser.new result
        (with_value (Some (shaped row 0 [] [] no_names no_types))) }
    ensures stays { Stays parser.old parser.new result }
{
    let numbers: &[Number] = &[];
    let names: &[&Name<'a, 'b>] = &[];
    let types: &[&Type<'a, 'b>] = &[];
    let shape = parser.put(Shape {
        row,
        qualifiers: StorageClass::empty(),
        numbers,
        text: b"",
        names,
        types,
    })?;
    parser.put_name(Name::Shape(shape))
}

/// Stores a name of a row that has bytes of the symbol.
pub fn put_bytes_name<'a, 'b, L: NodeBudget, A: Allocator>(
    parser: &mut Parser<'a, 'b, L, A>,
    row: u8,
    text: &'a [u8],
) -> Result<&'b Name<'a, 'b>, Failed>
    ensures value { ReadsAs name_at parser.old parser.new result
        (with_value (Some (shaped row 0 [] text.now no_names no_types))) }
    ensures stays { Stays parser.old parser.new result }
{
    let numbers: &[Number] = &[];
    let names: &[&Name<'a, 'b>] = &[];
    let types: &[&Type<'a, 'b>] = &[];
    let shape = parser.put(Shape {
        row,
        qualifiers: StorageClass::empty(),
        numbers,
        text,
        names,
        types,
    })?;
    parser.put_name(Name::Shape(shape))
}

/// Stores a name of a row that has numbers.
pub fn put_numbers_name<'a, 'b, L: NodeBudget, A: Allocator>(
    parser: &mut Parser<'a, 'b, L, A>,
    row: u8,
    numbers: &'b [Number],
) -> Result<&'b Name<'a, 'b>, Failed>
    ensures value { ReadsAs name_at parser.old parser.new result
        (with_value (Some (shaped row 0 numbers.now [] no_names no_types))) }
    ensures stays { Stays parser.old parser.new result }
{
    let names: &[&Name<'a, 'b>] = &[];
    let types: &[&Type<'a, 'b>] = &[];
    let shape = parser.put(Shape {
        row,
        qualifiers: StorageClass::empty(),
        numbers,
        text: b"",
        names,
        types,
    })?;
    parser.put_name(Name::Shape(shape))
}

/// Stores the place of a base class as a name.
pub fn put_base_class<'a, 'b, L: NodeBudget, A: Allocator>(
    parser: &mut Parser<'a, 'b, L, A>,
    place: BaseClass,
) -> Result<&'b Name<'a, 'b>, Failed>
    ensures value { ReadsAs name_at parser.old parser.new result (with_value (Some
        (tree.base_class_descriptor place.member place.pointer place.entry place.attributes))) }
    ensures stays { Stays parser.old parser.new result }
{
    let place = parser.put(place)?;
    parser.put_name(Name::BaseClassDescriptor(place))
}

/// Holds what a funclet has beside its name: the function that it is a part of, as a scope, and its type.
#[derive(Clone, Copy)]
pub struct FuncletHome<'a, 'b> {
    /// Holds the function.
    pub scope: &'b Name<'a, 'b>,
    /// Holds the type.
    pub symbol_type: &'b Type<'a, 'b>,
}

/// Stores a funclet by its row and the rest of its name.
#[inline(never)]
pub fn put_funclet<'a, 'b, L: NodeBudget, A: Allocator>(
    parser: &mut Parser<'a, 'b, L, A>,
    row: u8,
    label: &'a [u8],
    home: FuncletHome<'a, 'b>,
) -> Result<&'b TypedSymbol<'a, 'b>, Failed>
    ensures value { ReadsAs typed_symbol_at parser.old parser.new result
        (with_value (Some (funclet_of row label.now (home_at home.entry)))) }
    ensures stays { Stays parser.old parser.new result }
{
    let name = put_bytes_name(parser, row, label)?;
    let Some(scope) = list_of(parser.arena, home.scope) else {
        return Err(parser.no_memory());
    };
    let symbol = parser.put(Symbol {
        name,
        scope: scope.items,
    })?;
    parser.put_typed_symbol(symbol, home.symbol_type)
}

/// Stores the type of a funclet that is written as a static variable.
pub fn put_funclet_variable<'a, 'b, L: NodeBudget, A: Allocator>(
    parser: &mut Parser<'a, 'b, L, A>,
) -> Result<&'b Type<'a, 'b>, Failed>
    ensures value { ReadsAs type_at parser.old parser.new result (with_value (Some funclet_variable)) }
    ensures stays { Stays parser.old parser.new result }
{
    let int = parser.put_type(Type::Base(PrimitiveKind::Int, StorageClass::empty()))?;
    parser.put_type(Type::Variable(
        VarStorageKind::FunctionLocalStatic,
        StorageClass::empty(),
        int,
    ))
}

/// Returns the row of a stub by the type of what it is of.
fn stub_row<'a, 'b>(stub: Stub, of: &'b Type<'a, 'b>) -> u8
    ensures { result ≡ spec.stub_row stub (type_of of.now) }
{
    let is_name = match of {
        Type::Plain(plain) => matches!(*plain, PlainType::None),
        _ => false,
    };
    match stub {
        Stub::Initializer if is_name => rows::INITIALIZER_OF_NAME,
        Stub::Initializer => rows::INITIALIZER_OF_VARIABLE,
        Stub::Destructor if is_name => rows::DESTRUCTOR_OF_NAME,
        Stub::Destructor => rows::DESTRUCTOR_OF_VARIABLE,
    }
}

/// Stores the name of a stub.
#[inline(never)]
pub fn put_stub<'a, 'b, L: NodeBudget, A: Allocator>(
    parser: &mut Parser<'a, 'b, L, A>,
    stub: Stub,
    of: &'b TypedSymbol<'a, 'b>,
) -> Result<&'b Name<'a, 'b>, Failed>
    ensures value { ReadsAs name_at parser.old parser.new result
        (with_value (Some (stub_name_of stub (typed_symbol_of of.now)))) }
    ensures stays { Stays parser.old parser.new result }
{
    let row = stub_row(stub, of.symbol_type);
    let of = parser.put_nested(of)?;
    put_named_name(parser, row, of)
}

/// Stores a symbol without a scope.
#[inline(never)]
pub fn put_unscoped<'a, 'b, L: NodeBudget, A: Allocator>(
    parser: &mut Parser<'a, 'b, L, A>,
    name: &'b Name<'a, 'b>,
    symbol_type: &'b Type<'a, 'b>,
) -> Result<&'b TypedSymbol<'a, 'b>, Failed>
    ensures value { ReadsAs typed_symbol_at parser.old parser.new result
        (with_value (Some (record {
          name = name_of name.now;
          scope = no_names;
          symbol_type = type_of symbol_type.now;
        }))) }
    ensures stays { Stays parser.old parser.new result }
{
    let scope: &[&Name<'a, 'b>] = &[];
    let symbol = parser.put(Symbol { name, scope })?;
    parser.put_typed_symbol(symbol, symbol_type)
}

/// Stores the descriptor of a type under this name, as a variable without a scope.
pub fn put_described<'a, 'b, L: NodeBudget, A: Allocator>(
    parser: &mut Parser<'a, 'b, L, A>,
    name: &'b Name<'a, 'b>,
    described: &'b Type<'a, 'b>,
) -> Result<&'b TypedSymbol<'a, 'b>, Failed>
    ensures value { ReadsAs typed_symbol_at parser.old parser.new result
        (with_value (Some (record {
          name = name_of name.now;
          scope = no_names;
          symbol_type = tree.variable (type_of described.now) storage_kind.Global 0;
        }))) }
    ensures stays { Stays parser.old parser.new result }
{
    let symbol_type = parser.put_type(Type::Variable(
        VarStorageKind::Global,
        StorageClass::empty(),
        described,
    ))?;
    put_unscoped(parser, name, symbol_type)
}

/// Stores a name of a row that has a name.
#[inline(never)]
pub fn put_named_name<'a, 'b, L: NodeBudget, A: Allocator>(
    parser: &mut Parser<'a, 'b, L, A>,
    row: u8,
    name: &'b Name<'a, 'b>,
) -> Result<&'b Name<'a, 'b>, Failed>
    ensures value { ReadsAs name_at parser.old parser.new result
        (with_value (Some (shaped row 0 [] [] (names (name_of name.now) no_names) no_types))) }
    ensures stays { Stays parser.old parser.new result }
{
    let Some(names) = list_of(parser.arena, name) else {
        return Err(parser.no_memory());
    };
    let numbers: &[Number] = &[];
    let types: &[&Type<'a, 'b>] = &[];
    let shape = parser.put(Shape {
        row,
        qualifiers: StorageClass::empty(),
        numbers,
        text: b"",
        names: names.items,
        types,
    })?;
    parser.put_name(Name::Shape(shape))
}

/// Stores a scope inside a function.
#[inline(never)]
pub fn put_frame<'a, 'b, L: NodeBudget, A: Allocator>(
    parser: &mut Parser<'a, 'b, L, A>,
    number: Number,
    function: &'b Name<'a, 'b>,
) -> Result<&'b Name<'a, 'b>, Failed>
    ensures value { ReadsAs name_at parser.old parser.new result
        (with_value (Some (shaped frame_row 0 (number ∷ []) [] (names (name_of function.now) no_names) no_types))) }
    ensures stays { Stays parser.old parser.new result }
{
    let Some(numbers) = list_of(parser.arena, number) else {
        return Err(parser.no_memory());
    };
    let Some(names) = list_of(parser.arena, function) else {
        return Err(parser.no_memory());
    };
    let types: &[&Type<'a, 'b>] = &[];
    let shape = parser.put(Shape {
        row: rows::FRAME,
        qualifiers: StorageClass::empty(),
        numbers: numbers.items,
        text: b"",
        names: names.items,
        types,
    })?;
    parser.put_name(Name::Shape(shape))
}

/// Counts and stores an operator with nothing in it.
#[inline(never)]
pub fn new_operator<'a, 'b, L: NodeBudget, A: Allocator>(
    parser: &mut Parser<'a, 'b, L, A>,
    kind: PlainOperator,
) -> Result<&'b Name<'a, 'b>, Failed>
    ensures value { ReadsAs name_at parser.old parser.new result
        (λ left s. in_node left s (with_value (Some (tree.operator kind)))) }
    ensures stays { Stays parser.old parser.new result }
{
    parser.count_node()?;
    parser.put_name(Name::Plain(kind))
}

/// Stores a class as a symbol without a type, whose node it counts. That of the symbol is already counted.
#[tactic(auto, using(msvc_cursor::proofs::Nodes::views), unfolding(msvc_rules::specs::Readers::counting, msvc_nodes::specs::NodeView::name_of, msvc_nodes::specs::NodeView::type_of))]
#[inline(never)]
pub fn put_class<'a, 'b, L: NodeBudget, A: Allocator>(
    parser: &mut Parser<'a, 'b, L, A>,
    symbol: &'b Symbol<'a, 'b>,
) -> Result<&'b Name<'a, 'b>, Failed>
    ensures value { ReadsAs name_at parser.old parser.new result
        (λ left s. in_node left s (with_value (Some (nested (name_of symbol.now.name.now)
        (name_trees (map name_at symbol.now.scope.now)) (plain plain_kind.None))))) }
    ensures stays { Stays parser.old parser.new result }
{
    let symbol_type = parser.new_plain(PlainType::None)?;
    let class = parser.put_typed_symbol(symbol, symbol_type)?;
    parser.put_nested(class)
}

/// Reads the end of a signature, `"_E" | "Z"`, and stores its parts with the parameters on the list.
#[inline(never)]
pub fn put_signature<'a, 'b, L: NodeBudget, A: Allocator>(
    parser: &mut Parser<'a, 'b, L, A>,
    convention: Convention,
    class: FuncClass,
    qualifiers: StorageClass,
    returned: &'b Type<'a, 'b>,
    checkpoint: Checkpoint,
) -> Result<&'b Function<'a, 'b>, Failed>
    requires { checkpoint.from ≤ length (enclosing parser.old.listed_types) }
    ensures value { ReadsAs signature_at parser.old parser.new result
        (read (signature_end qualifiers.0 convention (type_of returned.now)
        (map type_at (current parser.old.listed_types)))) }
    ensures given { IfOk result (λ f. f.now.class.0 ≡ class.0) }
    ensures shorter { IfOk result (λ _. length parser.new.rest.now < length parser.old.rest.now) }
    ensures kept { EndsTypes checkpoint parser.old parser.new result }
{
    if parser.consume(b"_E") {
        let with_noexcept = noexcept().union(qualifiers);
        return parser.put_parts(convention, class, with_noexcept, returned, checkpoint);
    }
    parser.expect(b"Z", Message::ZExpected)?;
    parser.put_parts(convention, class, qualifiers, returned, checkpoint)
}
