//! Tells how a type stands under what is around it, by which some types put parentheses round the mark of a pointer.
#![tactic(auto, using(crate::proofs::Nodes::printed), unfolding(crate::specs::Pointed::opens, crate::specs::Pointed::unaligned_shape, msvc_nodes::specs::NodeView::type_of))]

ghost use Rattle.std.specs.Prelude.{◌≡◌, [], drop};
ghost use Rattle.msvc_nodes.specs.NodeView.{type_of, types_in};
ghost use Rattle.msvc_print.specs.Pointed as spec;
ghost use Rattle.msvc_shapes.specs.Layouts as layouts;
ghost use Rattle.msvc_shapes.specs.declared.layouts.Side.TheVariants.{Left};

use crate::style::{Style, Wording};
use bitflags::Flags;
use msvc_nodes::flags::StorageClass;
use msvc_nodes::nodes::{Shape, Type};
use msvc_shapes::layouts::{Side, Slot, slots};

/// Tells how a type stands: directly under a pointer or a reference, or not.
#[derive(Clone, Copy)]
pub enum Pointed {
    No,
    /// It is the type of a nested symbol.
    Inner,
    Yes,
    /// It stands under a pointer that is `__unaligned`.
    Unaligned,
}

/// Returns whether a type stands directly under a pointer or a reference.
pub fn is_pointed(pointed: Pointed) -> bool
    ensures { result ≡ spec.is_pointed pointed }
{
    match pointed {
        Pointed::No => false,
        Pointed::Inner => false,
        Pointed::Yes => true,
        Pointed::Unaligned => true,
    }
}

/// Returns whether a type stands directly under a pointer that is `__unaligned`.
pub fn is_unaligned(pointed: Pointed) -> bool
    ensures { result ≡ spec.is_unaligned pointed }
{
    match pointed {
        Pointed::No => false,
        Pointed::Inner => false,
        Pointed::Yes => false,
        Pointed::Unaligned => true,
    }
}

/// Returns how a type stands under a pointer or a reference with these qualifiers.
#[inline(always)]
pub fn pointed_by<W: Wording>(qualifiers: StorageClass, flags: Style<W>) -> Pointed
    ensures { result ≡ spec.pointed_by qualifiers.0 flags.bits }
{
    if flags.is_full() && qualifiers.contains(StorageClass::UNALIGNED) {
        Pointed::Unaligned
    } else {
        Pointed::Yes
    }
}

/// Returns how a type stands under one that is no pointer: as that type does, if it is that of a nested symbol.
pub fn passed_on(pointed: Pointed) -> Pointed
    ensures { result ≡ spec.passed_on pointed }
{
    match pointed {
        Pointed::No => Pointed::No,
        Pointed::Inner => Pointed::Inner,
        Pointed::Yes => Pointed::No,
        Pointed::Unaligned => Pointed::No,
    }
}

/// Returns how a type stands under a shape with these qualifiers, which is the mark of a pointer or is none.
pub fn under<W: Wording>(
    pointed: Pointed,
    is_mark: bool,
    qualifiers: StorageClass,
    flags: Style<W>,
) -> Pointed
    ensures { result ≡ spec.under pointed is_mark qualifiers.0 flags.bits }
{
    if is_mark {
        pointed_by(qualifiers, flags)
    } else {
        passed_on(pointed)
    }
}

/// Returns whether a flag of `llvm-undname` drops something of a type that stands so.
#[inline(always)]
pub fn leaves_out<W: Wording>(pointed: Pointed, flag: u64, flags: Style<W>) -> bool
    ensures { result ≡ spec.leaves_out pointed flag flags.bits }
{
    match pointed {
        Pointed::No => flags.drops(flag),
        _ => false,
    }
}

/// Returns whether a slot is the parenthesis before the mark of a pointer.
fn is_opening<'t>(slot: Slot<'t>) -> bool
    ensures { result ≡ spec.is_opening (layouts.slot_seen slot.entry) }
{
    match slot {
        Slot::Opening => true,
        _ => false,
    }
}

/// Returns whether a row prints a parenthesis before the mark of a pointer to its shapes.
fn row_opens(row: u8) -> bool
    ensures { result ≡ spec.some_opening (layouts.slots row Left) }
{
    let left = slots(row, Side::Left);
    let mut at = 0;
    'slots: while at < left.len() {
        if is_opening(left[at]) {
            return true;
        }
        at += 1;
    }
    false
}

/// Returns whether a type prints a parenthesis before the mark of a pointer to it.
fn opens<'a, 'b>(t: &'b Type<'a, 'b>) -> bool
    ensures { result ≡ spec.opens (type_of t.now) }
{
    match t {
        Type::Array(_, _, _) => true,
        Type::Function(_) => true,
        Type::MemberFunction(_) => true,
        Type::Shape(shape) => row_opens(shape.row),
        _ => false,
    }
}

/// Returns whether the mark of a pointer with these qualifiers to a type has `__unaligned` before it. It has none if
/// the type prints it before its parenthesis.
#[inline(always)]
pub fn has_unaligned_mark<'a, 'b, W: Wording>(
    qualifiers: StorageClass,
    t: &'b Type<'a, 'b>,
    flags: Style<W>,
) -> bool
    ensures { result ≡ spec.unaligned_mark qualifiers.0 (type_of t.now) flags.bits }
{
    flags.is_full() && qualifiers.contains(StorageClass::UNALIGNED) && !opens(t)
}

/// Returns the same of the mark that a shape is.
pub fn is_unaligned_shape<'a, 'b, W: Wording>(shape: &'b Shape<'a, 'b>, flags: Style<W>) -> bool
    ensures { result ≡ spec.unaligned_shape shape.now.qualifiers.0 (types_in shape.now.types.now) flags.bits }
{
    match shape.types {
        [] => false,
        [first, ..] => has_unaligned_mark(shape.qualifiers, *first, flags),
    }
}
