//! Pushes what names and types share.
#![tactic(auto, using(crate::proofs::Items::pushed), unfolding(crate::specs::TreeText::tree_text, crate::specs::Items::item_text))]

ghost use Rattle.std.specs.Prelude.{◌++◌, OnOk, codes};
ghost use Rattle.std.specs.Fmt.{signed_decimal};
ghost use Rattle.msvc_nodes.specs.NodeView.{name_of, names_in, type_of, types_in, typed_symbol_of};
ghost use Rattle.msvc_debug.specs.Items.{Pushes, lists_of, shape_of, values_of};
ghost use Rattle.msvc_debug.specs.TreeText as spec;
ghost use Rattle.msvc_debug.specs.Words.{bracketed, qualifier_names};

use crate::item::{Item, Types, push};
use msvc_nodes::flags::StorageClass;
use msvc_nodes::nodes::{Name, Scope, Shape, Symbol, Type, TypedSymbol};
use std::alloc::{AllocError, Allocator};

/// Pushes a word.
pub(crate) fn push_word<'a, 'b, S: Allocator>(
    stack: &mut Vec<Item<'a, 'b>, S>,
    word: &'b str,
) -> Result<(), AllocError>
    ensures { OnOk result (Pushes word.now stack.old.items stack.new.items) }
{
    push(stack, Item::Text(word))
}

/// Pushes a word and the bracket after it.
pub(crate) fn push_opening<'a, 'b, S: Allocator>(
    stack: &mut Vec<Item<'a, 'b>, S>,
    word: &'b str,
) -> Result<(), AllocError>
    ensures { OnOk result (Pushes (word.now ++ codes "(") stack.old.items stack.new.items) }
{
    push_word(stack, "(")?;
    push_word(stack, word)
}

/// Pushes a number in brackets after a word.
pub(crate) fn push_numbered<'a, 'b, S: Allocator>(
    stack: &mut Vec<Item<'a, 'b>, S>,
    word: &'b str,
    number: i32,
) -> Result<(), AllocError>
    ensures { OnOk result (Pushes (bracketed word.now (signed_decimal number)) stack.old.items stack.new.items) }
{
    push_word(stack, ")")?;
    push(stack, Item::Number(number))?;
    push_opening(stack, word)
}

/// Pushes a number and the space after it.
pub(crate) fn push_spaced<'a, 'b, S: Allocator>(
    stack: &mut Vec<Item<'a, 'b>, S>,
    number: i32,
) -> Result<(), AllocError>
    ensures { OnOk result (Pushes (signed_decimal number ++ codes " ") stack.old.items stack.new.items) }
{
    push_word(stack, " ")?;
    push(stack, Item::Number(number))
}

/// Pushes the names of a scope as one part.
pub(crate) fn push_scope<'a, 'b, S: Allocator>(
    stack: &mut Vec<Item<'a, 'b>, S>,
    names: &'b [&'b Name<'a, 'b>],
) -> Result<(), AllocError>
    ensures { OnOk result (Pushes (spec.scope_text (names_in names.now)) stack.old.items stack.new.items) }
{
    push(stack, Item::Scope(Scope { names }))
}

/// Pushes the names of a list as one part.
pub(crate) fn push_names<'a, 'b, S: Allocator>(
    stack: &mut Vec<Item<'a, 'b>, S>,
    names: &'b [&'b Name<'a, 'b>],
) -> Result<(), AllocError>
    ensures { OnOk result (Pushes (spec.names_text (names_in names.now)) stack.old.items stack.new.items) }
{
    push(stack, Item::Names(Scope { names }))
}

/// Pushes the types of a list as one part.
pub(crate) fn push_types<'a, 'b, S: Allocator>(
    stack: &mut Vec<Item<'a, 'b>, S>,
    types: &'b [&'b Type<'a, 'b>],
) -> Result<(), AllocError>
    ensures { OnOk result (Pushes (spec.types_text (types_in types.now)) stack.old.items stack.new.items) }
{
    push(stack, Item::Types(Types { types }))
}

/// Pushes a name in its scope.
pub(crate) fn push_symbol<'a, 'b, S: Allocator>(
    stack: &mut Vec<Item<'a, 'b>, S>,
    symbol: &Symbol<'a, 'b>,
) -> Result<(), AllocError>
    ensures { OnOk result (Pushes (spec.scope_text (names_in symbol.now.scope.now)
        ++ spec.name_text (name_of symbol.now.name.now)) stack.old.items stack.new.items) }
{
    push(stack, Item::Name(symbol.name))?;
    push_scope(stack, symbol.scope)
}

/// Pushes a name in its scope, and its type.
pub(crate) fn push_typed_symbol<'a, 'b, S: Allocator>(
    stack: &mut Vec<Item<'a, 'b>, S>,
    symbol: &TypedSymbol<'a, 'b>,
) -> Result<(), AllocError>
    ensures { OnOk result (Pushes (spec.tree_text (typed_symbol_of symbol.now)) stack.old.items stack.new.items) }
{
    push(stack, Item::Type(symbol.symbol_type))?;
    push_word(stack, ": ")?;
    push_symbol(stack, &symbol.symbol)
}

/// Pushes the qualifiers of a type, the type inside and the bracket that closes it.
pub(crate) fn push_inside<'a, 'b, S: Allocator>(
    stack: &mut Vec<Item<'a, 'b>, S>,
    set: StorageClass,
    inner: &'b Type<'a, 'b>,
) -> Result<(), AllocError>
    ensures { OnOk result (Pushes (qualifier_names set.0 ++ spec.type_text (type_of inner.now) ++ codes ")")
        stack.old.items stack.new.items) }
{
    push_word(stack, ")")?;
    push(stack, Item::Type(inner))?;
    push(stack, Item::Qualifiers(set))
}

/// Pushes a type with its qualifiers in brackets after a word.
pub(crate) fn push_qualified<'a, 'b, S: Allocator>(
    stack: &mut Vec<Item<'a, 'b>, S>,
    word: &'b str,
    set: StorageClass,
    inner: &'b Type<'a, 'b>,
) -> Result<(), AllocError>
    ensures { OnOk result (Pushes (bracketed word.now (qualifier_names set.0 ++ spec.type_text (type_of inner.now)))
        stack.old.items stack.new.items) }
{
    push_inside(stack, set, inner)?;
    push_opening(stack, word)
}

/// Pushes a shape.
pub(crate) fn push_shape<'a, 'b, S: Allocator>(
    stack: &mut Vec<Item<'a, 'b>, S>,
    shape: &Shape<'a, 'b>,
) -> Result<(), AllocError>
    ensures { OnOk result (Pushes (shape_of shape.now) stack.old.items stack.new.items) }
{
    push_word(stack, ")")?;
    push_lists(stack, shape)?;
    push_values(stack, shape)?;
    push_opening(stack, "Shape")
}

/// Pushes the names and the types of a shape, both in square brackets.
fn push_lists<'a, 'b, S: Allocator>(
    stack: &mut Vec<Item<'a, 'b>, S>,
    shape: &Shape<'a, 'b>,
) -> Result<(), AllocError>
    ensures { OnOk result (Pushes (lists_of shape.now) stack.old.items stack.new.items) }
{
    push_word(stack, "]")?;
    push_types(stack, shape.types)?;
    push_word(stack, "] [")?;
    push_names(stack, shape.names)?;
    push_word(stack, " [")
}

/// Pushes the row of a shape, its qualifiers, its numbers and its bytes.
fn push_values<'a, 'b, S: Allocator>(
    stack: &mut Vec<Item<'a, 'b>, S>,
    shape: &Shape<'a, 'b>,
) -> Result<(), AllocError>
    ensures { OnOk result (Pushes (values_of shape.now) stack.old.items stack.new.items) }
{
    push_word(stack, "\"")?;
    push(stack, Item::Spelled(shape.text))?;
    push_word(stack, "\"")?;
    push(stack, Item::Numbers(shape.numbers))?;
    push(stack, Item::Qualifiers(shape.qualifiers))?;
    push_spaced(stack, i32::from(shape.row))
}
