//! Pushes the parts of names.
#![tactic(auto, using(crate::proofs::Items::pushed), unfolding(crate::specs::TreeText::name_text, crate::specs::TreeText::tree_text, crate::specs::Items::item_text, msvc_nodes::specs::NodeView::name_of))]

ghost use Rattle.std.specs.Prelude.{[], OnOk, codes};
ghost use Rattle.std.specs.Str.Lossy.{utf8_lossy};
ghost use Rattle.msvc_nodes.specs.NodeView.{name_of, types_in, typed_symbol_of};
ghost use Rattle.msvc_nodes.specs.Trees as tree;
ghost use Rattle.msvc_debug.specs.Items.{Pushes, place_of};
ghost use Rattle.msvc_debug.specs.TreeText as spec;
ghost use Rattle.msvc_debug.specs.Words.{bracketed};

use crate::item::{Item, push};
use crate::parts::{
    push_numbered, push_opening, push_qualified, push_shape, push_spaced, push_typed_symbol,
    push_types, push_word,
};
use crate::words::{guard_word, operator_word};
use msvc_nodes::kinds::Guard;
use msvc_nodes::nodes::{BaseClass, Name, Template, TypedSymbol};
use std::alloc::{AllocError, Allocator};

/// Pushes a name.
pub(crate) fn push_name<'a, 'b, S: Allocator>(
    stack: &mut Vec<Item<'a, 'b>, S>,
    name: &Name<'a, 'b>,
) -> Result<(), AllocError>
    ensures { OnOk result (Pushes (spec.name_text (name_of name.now)) stack.old.items stack.new.items) }
{
    match name {
        Name::Source(bytes) => push(stack, Item::Spelled(*bytes)),
        Name::Interface(bytes) => push_spelled(stack, "AsInterface", *bytes),
        Name::Md5(digits) => push_spelled(stack, "Md5", *digits),
        Name::Anonymous => push_word(stack, "AnonymousNamespace"),
        Name::AnonymousDigits(digits) => push_bracketed(stack, "AnonymousNamespace", *digits),
        Name::Plain(operator) => push_word(stack, operator_word(*operator)),
        Name::Guard(guard, number) => push_guard(stack, *guard, *number),
        Name::TypeDescriptor(set, described) => {
            push_qualified(stack, "RTTITypeDescriptor", *set, *described)
        }
        Name::BaseClassDescriptor(place) => push_place(stack, *place),
        Name::Template(template) => push_template(stack, *template),
        Name::Discriminator(number) => push_numbered(stack, "Discriminator", *number),
        Name::Nested(symbol) => push_nested(stack, *symbol),
        Name::Shape(shape) => push_shape(stack, *shape),
    }
}

/// Pushes bytes of the symbol in brackets after a word.
fn push_spelled<'a, 'b, S: Allocator>(
    stack: &mut Vec<Item<'a, 'b>, S>,
    word: &'b str,
    bytes: &'a [u8],
) -> Result<(), AllocError>
    ensures { OnOk result (Pushes (bracketed word.now (utf8_lossy bytes.now)) stack.old.items stack.new.items) }
{
    push_word(stack, ")")?;
    push(stack, Item::Spelled(bytes))?;
    push_opening(stack, word)
}

/// Pushes a text in brackets after a word.
fn push_bracketed<'a, 'b, S: Allocator>(
    stack: &mut Vec<Item<'a, 'b>, S>,
    word: &'b str,
    inside: &'b str,
) -> Result<(), AllocError>
    ensures { OnOk result (Pushes (bracketed word.now inside.now) stack.old.items stack.new.items) }
{
    push_word(stack, ")")?;
    push_word(stack, inside)?;
    push_opening(stack, word)
}

/// Pushes a guard and its number.
fn push_guard<'a, 'b, S: Allocator>(
    stack: &mut Vec<Item<'a, 'b>, S>,
    guard: Guard,
    number: Option<u32>,
) -> Result<(), AllocError>
    ensures { OnOk result (Pushes (spec.name_text (tree.guard guard number)) stack.old.items stack.new.items) }
{
    push_word(stack, ")")?;
    push(stack, Item::Index(number))?;
    push_opening(stack, guard_word(guard))
}

/// Pushes the place of a base class.
fn push_place<'a, 'b, S: Allocator>(
    stack: &mut Vec<Item<'a, 'b>, S>,
    place: &BaseClass,
) -> Result<(), AllocError>
    ensures { OnOk result (Pushes (bracketed (codes "RTTIBaseClassDescriptor") (place_of place.now))
        stack.old.items stack.new.items) }
{
    push_word(stack, ")")?;
    push_offsets(stack, place)?;
    push_opening(stack, "RTTIBaseClassDescriptor")
}

/// Pushes the numbers of a base class.
fn push_offsets<'a, 'b, S: Allocator>(
    stack: &mut Vec<Item<'a, 'b>, S>,
    place: &BaseClass,
) -> Result<(), AllocError>
    ensures { OnOk result (Pushes (place_of place.now) stack.old.items stack.new.items) }
{
    push(stack, Item::Number(place.attributes))?;
    push_spaced(stack, place.entry)?;
    push_spaced(stack, place.pointer)?;
    push_spaced(stack, place.member)
}

/// Pushes a template with its arguments.
fn push_template<'a, 'b, S: Allocator>(
    stack: &mut Vec<Item<'a, 'b>, S>,
    template: &Template<'a, 'b>,
) -> Result<(), AllocError>
    ensures { OnOk result (Pushes (spec.name_text (tree.template (name_of template.now.name.now)
        (types_in template.now.arguments.now))) stack.old.items stack.new.items) }
{
    push_word(stack, ">")?;
    push_types(stack, template.arguments)?;
    push_word(stack, "<")?;
    push(stack, Item::Name(template.name))
}

/// Pushes a symbol in brackets.
fn push_nested<'a, 'b, S: Allocator>(
    stack: &mut Vec<Item<'a, 'b>, S>,
    symbol: &TypedSymbol<'a, 'b>,
) -> Result<(), AllocError>
    ensures { OnOk result (Pushes (bracketed [] (spec.tree_text (typed_symbol_of symbol.now)))
        stack.old.items stack.new.items) }
{
    push_word(stack, ")")?;
    push_typed_symbol(stack, symbol)?;
    push_word(stack, "(")
}
