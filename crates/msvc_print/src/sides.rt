//! Pushes parts of a symbol: its name, and what its type has on both sides of the name.
#![tactic(auto, using(crate::proofs::Stack::pushes), unfolding(crate::specs::Sides::kept_left, crate::specs::Sides::kept_right))]

ghost use Rattle.std.specs.Prelude.{◌≡◌, OnOk};
ghost use Rattle.msvc_nodes.specs.NodeView.{type_of};
ghost use Rattle.msvc_print.specs.Halves.{after, before};
ghost use Rattle.msvc_print.specs.Sides.{kept_left, kept_right};
ghost use Rattle.msvc_print.specs.SymbolNodes.{part_of};
ghost use Rattle.msvc_print.specs.Weights.{type_weight};
ghost use Rattle.msvc_print.specs.Work.{AddsAtMost, Pushes};

use crate::item::{Item, push};
use crate::pointed::Pointed;
use crate::qualified_names::push_typed_symbol;
use crate::style::{Style, Wording};
use bitflags::Flags;
use msvc_nodes::flags::DemangleFlags;
use msvc_nodes::nodes::{Type, TypedSymbol};
use std::alloc::{AllocError, Allocator};

/// A part of a symbol's declaration.
#[derive(Clone, Copy)]
pub enum Part {
    /// All of it.
    All,
    /// What the type has before the name.
    Left,
    /// The name.
    Name,
    /// What the type has after the name.
    Right,
}

/// Pushes a part of a symbol.
pub fn push_part<'a, 'b, W: Wording, S: Allocator>(
    stack: &mut Vec<Item<'a, 'b>, S>,
    tree: &'b TypedSymbol<'a, 'b>,
    part: Part,
    flags: Style<W>,
) -> Result<(), AllocError>
    ensures { OnOk result (Pushes (part_of tree.now part flags.bits) flags.bits stack.old.items stack.new.items) }
{
    match part {
        Part::All => push_typed_symbol(stack, tree, Pointed::No, flags),
        Part::Left => push_left(stack, tree.symbol_type, Pointed::No, flags),
        Part::Name => push(stack, Item::Symbol(&tree.symbol, Some(tree.symbol_type))),
        Part::Right => push_right(stack, tree.symbol_type, Pointed::No, flags),
    }
}

/// Pushes what the type of a symbol has before the name. NAME_ONLY and NO_FUNCTION_RETURNS drop it.
pub fn push_left<'a, 'b, W: Wording, S: Allocator>(
    stack: &mut Vec<Item<'a, 'b>, S>,
    t: &'b Type<'a, 'b>,
    pointed: Pointed,
    flags: Style<W>,
) -> Result<(), AllocError>
    ensures text { OnOk result (Pushes (kept_left (before (type_of t.now) pointed flags.bits) flags.bits) flags.bits
        stack.old.items stack.new.items) }
    ensures lighter { OnOk result (AddsAtMost (type_weight (type_of t.now)) stack.old.items stack.new.items) }
{
    if flags.contains(DemangleFlags::NAME_ONLY)
        || flags.contains(DemangleFlags::NO_FUNCTION_RETURNS)
    {
        return Ok(());
    }
    push(stack, Item::Before(t, pointed))
}

/// Pushes what the type of a symbol has after the name. NAME_ONLY drops it.
pub fn push_right<'a, 'b, W: Wording, S: Allocator>(
    stack: &mut Vec<Item<'a, 'b>, S>,
    t: &'b Type<'a, 'b>,
    pointed: Pointed,
    flags: Style<W>,
) -> Result<(), AllocError>
    ensures text { OnOk result (Pushes (kept_right (after (type_of t.now) pointed flags.bits) flags.bits) flags.bits
        stack.old.items stack.new.items) }
    ensures lighter { OnOk result (AddsAtMost (type_weight (type_of t.now)) stack.old.items stack.new.items) }
{
    if flags.contains(DemangleFlags::NAME_ONLY) {
        return Ok(());
    }
    push(stack, Item::After(t, pointed))
}
