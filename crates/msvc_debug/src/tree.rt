//! Writes a tree. No function here calls itself: the parts of a tree go onto a stack, so a deep tree takes only memory.
#![tactic(auto, using(crate::proofs::Items::pushed), unfolding(crate::specs::Items::item_text))]

ghost use Rattle.std.specs.Prelude.{◌≡◌, ◌++◌, OnOk};
ghost use Rattle.std.specs.String.{string_bytes};
ghost use Rattle.msvc_nodes.specs.NodeView.{typed_symbol_of};
ghost use Rattle.msvc_debug.specs.Items.{item_text, rest_text};
ghost use Rattle.msvc_debug.specs.TreeText.{tree_text};

use crate::item::Item;
use crate::lists::{push_each_name, push_each_type, push_scope_names};
use crate::literals::{write_literal, write_spelled};
use crate::names::push_name;
use crate::parts::push_typed_symbol;
use crate::types::push_type;
use crate::words::{write_class, write_index, write_number, write_numbers, write_qualifiers};
use msvc_nodes::nodes::TypedSymbol;
use std::alloc::{AllocError, Allocator};

/// Appends the text of a symbol's tree to `text`. Takes memory for a stack beside that of the text.
///
/// # Errors
///
/// Fails if an allocation fails; then `text` has a part of the tree.
pub fn write_tree<'a, 'b, A: Allocator + Copy>(
    alloc: A,
    symbol: &'b TypedSymbol<'a, 'b>,
    text: &mut String<A>,
) -> Result<(), AllocError>
    ensures text { OnOk result (string_bytes text.new
        ≡ string_bytes text.old ++ tree_text (typed_symbol_of symbol.now)) }
{
    let mut stack = Vec::new(alloc);
    push_typed_symbol(&mut stack, symbol)?;
    'items: for _ in 0..u64::MAX {
        let Some(item) = stack.pop() else {
            return Ok(());
        };
        write_item(alloc, &mut stack, text, item)?;
    }
    // No memory holds a tree with so many parts.
    Err(AllocError)
}

/// Writes an item that has no parts, or pushes the parts of one that has, the last part first.
fn write_item<'a, 'b, A: Allocator + Copy>(
    alloc: A,
    stack: &mut Vec<Item<'a, 'b>, A>,
    text: &mut String<A>,
    item: Item<'a, 'b>,
) -> Result<(), AllocError>
    ensures { OnOk result (string_bytes text.new ++ rest_text stack.new.items
        ≡ string_bytes text.old ++ (item_text item.entry ++ rest_text stack.old.items)) }
{
    match item {
        Item::Text(word) => text.push_str(word),
        Item::Spelled(bytes) => write_spelled(alloc, text, bytes),
        Item::Literal(bytes) => write_literal(alloc, text, bytes),
        Item::Number(number) => write_number(text, number),
        Item::Index(index) => write_index(text, index),
        Item::Numbers(numbers) => write_numbers(text, numbers),
        Item::Qualifiers(set) => write_qualifiers(text, set),
        Item::Class(set) => write_class(text, set),
        Item::Name(name) => push_name(stack, name),
        Item::Scope(scope) => push_scope_names(stack, scope.names),
        Item::Names(list) => push_each_name(stack, list.names),
        Item::Type(shown) => push_type(stack, shown),
        Item::Types(list) => push_each_type(stack, list.types),
    }
}
