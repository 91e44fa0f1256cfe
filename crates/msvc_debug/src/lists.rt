//! Pushes the parts of lists of names and types.
#![tactic(auto, using(crate::proofs::Items::pushed), unfolding(crate::specs::TreeText::scope_text, crate::specs::TreeText::names_text, crate::specs::TreeText::more_names, crate::specs::TreeText::types_text, crate::specs::TreeText::more_types, crate::specs::Items::item_text))]

ghost use Rattle.std.specs.Prelude.{OnOk};
ghost use Rattle.msvc_nodes.specs.NodeView.{names_in, types_in};
ghost use Rattle.msvc_debug.specs.Items.{Pushes};
ghost use Rattle.msvc_debug.specs.TreeText as spec;

use crate::item::{Item, push};
use crate::parts::{push_names, push_scope, push_types, push_word};
use msvc_nodes::nodes::{Name, Type};
use std::alloc::{AllocError, Allocator};

/// Pushes the names of a scope, those around the innermost as one part.
pub(crate) fn push_scope_names<'a, 'b, S: Allocator>(
    stack: &mut Vec<Item<'a, 'b>, S>,
    names: &'b [&'b Name<'a, 'b>],
) -> Result<(), AllocError>
    ensures { OnOk result (Pushes (spec.scope_text (names_in names.now)) stack.old.items stack.new.items) }
{
    let Some((innermost, outer)) = names.split_first() else {
        return Ok(());
    };
    push_word(stack, "::")?;
    push(stack, Item::Name(*innermost))?;
    push_scope(stack, outer)
}

/// Pushes the names of a list, those after the first as one part.
pub(crate) fn push_each_name<'a, 'b, S: Allocator>(
    stack: &mut Vec<Item<'a, 'b>, S>,
    names: &'b [&'b Name<'a, 'b>],
) -> Result<(), AllocError>
    ensures { OnOk result (Pushes (spec.names_text (names_in names.now)) stack.old.items stack.new.items) }
{
    let Some((first, rest)) = names.split_first() else {
        return Ok(());
    };
    push_more_names(stack, rest)?;
    push(stack, Item::Name(*first))
}

/// Pushes the names after the first of a list.
fn push_more_names<'a, 'b, S: Allocator>(
    stack: &mut Vec<Item<'a, 'b>, S>,
    names: &'b [&'b Name<'a, 'b>],
) -> Result<(), AllocError>
    ensures { OnOk result (Pushes (spec.more_names (names_in names.now)) stack.old.items stack.new.items) }
{
    if names.is_empty() {
        return Ok(());
    }
    push_names(stack, names)?;
    push_word(stack, ", ")
}

/// Pushes the types of a list, those after the first as one part.
pub(crate) fn push_each_type<'a, 'b, S: Allocator>(
    stack: &mut Vec<Item<'a, 'b>, S>,
    types: &'b [&'b Type<'a, 'b>],
) -> Result<(), AllocError>
    ensures { OnOk result (Pushes (spec.types_text (types_in types.now)) stack.old.items stack.new.items) }
{
    let Some((first, rest)) = types.split_first() else {
        return Ok(());
    };
    push_more_types(stack, rest)?;
    push(stack, Item::Type(*first))
}

/// Pushes the types after the first of a list.
fn push_more_types<'a, 'b, S: Allocator>(
    stack: &mut Vec<Item<'a, 'b>, S>,
    types: &'b [&'b Type<'a, 'b>],
) -> Result<(), AllocError>
    ensures { OnOk result (Pushes (spec.more_types (types_in types.now)) stack.old.items stack.new.items) }
{
    if types.is_empty() {
        return Ok(());
    }
    push_types(stack, types)?;
    push_word(stack, ", ")
}
