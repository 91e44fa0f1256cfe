//! Writes simple types, which need no stack: base types, numbers, and pointers and references to these. They have
//! nothing after the name.
#![tactic(auto, using(crate::proofs::Nodes::printed), unfolding(crate::specs::Halves::after, crate::specs::Halves::before, msvc_nodes::specs::NodeView::type_of))]

ghost use Rattle.std.specs.Prelude.{◌≡◌, ◌≤◌, ◌++◌, ◌∷◌, [], Bool, true, false, OnOk, IfOk, drop, length};
ghost use Rattle.msvc_nodes.specs.NodeView.{type_of, types_in};
ghost use Rattle.msvc_print.specs.Declaration.{parameters};
ghost use Rattle.msvc_print.specs.SimpleTypes as spec;
ghost use Rattle.msvc_print.specs.Halves.{after, before};
ghost use Rattle.msvc_print.specs.Limited.{Writes, add_all};
ghost use Rattle.msvc_print.specs.Pieces.{text};
ghost use Rattle.msvc_print.specs.Pointed.{pointed_by, unaligned_mark};
ghost use Rattle.msvc_print.specs.Words.{base_word, marked, qualifiers as qualifier_pieces};
ghost use Rattle.msvc_print.specs.declared.pointed.Pointed.TheVariants.{No};

use crate::function_types::write_separator;
use crate::pointed::{Pointed, has_unaligned_mark};
use crate::spaces::{write_mark, write_qualifiers};
use crate::style::{Style, Wording};
use crate::text::{Text, write_text};
use crate::types::{is_empty_pack, write_numbered};
use crate::words::{base_word, mark_word};
use msvc_nodes::flags::StorageClass;
use msvc_nodes::kinds::PrimitiveKind;
use msvc_nodes::nodes::Type;
use std::alloc::{AllocError, Allocator};

/// Writes the word of a base type, and its qualifiers.
pub fn write_base<W: Wording, A: Allocator>(
    out: &mut Text<A>,
    base: PrimitiveKind,
    qualifiers: StorageClass,
    flags: Style<W>,
) -> Result<(), AllocError>
    ensures { OnOk result (Writes (text (base_word base flags.bits) ∷ qualifier_pieces qualifiers.0 flags.bits) out.old
        out.new) }
{
    write_text(out, base_word(base, flags))?;
    write_qualifiers(out, qualifiers, flags)
}

/// Writes a type that has no other in it, if it is simple. Returns whether it is.
pub fn write_simple_inner<'a, 'b, W: Wording, A: Allocator>(
    out: &mut Text<A>,
    t: &'b Type<'a, 'b>,
    flags: Style<W>,
) -> Result<bool, AllocError>
    ensures simple { IfOk result (λ is. is ≡ true → (pointed : Pointed) →
        Writes (before (type_of t.now) pointed flags.bits) out.old out.new) }
    ensures ends { IfOk result (λ is. is ≡ true → (pointed : Pointed) → after (type_of t.now) pointed flags.bits ≡ []) }
    ensures other { IfOk result (λ is. is ≡ false → out.new ≡ out.old) }
{
    match t {
        Type::Base(base, qualifiers) => {
            write_base(out, *base, *qualifiers, flags)?;
            Ok(true)
        }
        Type::Numbered(kind, number) => {
            write_numbered(out, *kind, *number, Pointed::No, flags)?;
            Ok(true)
        }
        _ => Ok(false),
    }
}

/// Writes what a pointer or a reference has before the name, if what it points to is simple. Returns whether it is.
pub fn write_simple_pointer<'a, 'b, W: Wording, A: Allocator>(
    out: &mut Text<A>,
    word: &[u8],
    qualifiers: StorageClass,
    inner: &'b Type<'a, 'b>,
    flags: Style<W>,
) -> Result<bool, AllocError>
    ensures simple { IfOk result (λ is. is ≡ true →
        Writes (before (type_of inner.now) (pointed_by qualifiers.0 flags.bits) flags.bits
        ++ marked (unaligned_mark qualifiers.0 (type_of inner.now) flags.bits) word.now qualifiers.0 flags.bits) out.old
        out.new) }
    ensures ends { IfOk result (λ is. is ≡ true →
        after (type_of inner.now) (pointed_by qualifiers.0 flags.bits) flags.bits ≡ []) }
    ensures other { IfOk result (λ is. is ≡ false → out.new ≡ out.old) }
{
    if !write_simple_inner(out, inner, flags)? {
        return Ok(false);
    }
    let is_unaligned = has_unaligned_mark(qualifiers, inner, flags);
    write_mark(out, word, qualifiers, is_unaligned, flags)?;
    Ok(true)
}

/// Writes a type, if it is simple. Returns whether it is.
#[inline(always)]
pub fn write_simple<'a, 'b, W: Wording, A: Allocator>(
    out: &mut Text<A>,
    t: &'b Type<'a, 'b>,
    flags: Style<W>,
) -> Result<bool, AllocError>
    ensures simple { IfOk result (λ is. is ≡ true → Writes (before (type_of t.now) No flags.bits) out.old out.new) }
    ensures ends { IfOk result (λ is. is ≡ true → after (type_of t.now) No flags.bits ≡ []) }
    ensures other { IfOk result (λ is. is ≡ false → out.new ≡ out.old) }
{
    match t {
        Type::Pointing(affinity, qualifiers, inner) => {
            write_simple_pointer(out, mark_word(*affinity), *qualifiers, *inner, flags)
        }
        _ => write_simple_inner(out, t, flags),
    }
}

/// Writes the types of a list that stand before the first one that is not simple, with a comma before each but the
/// first, and the comma before that one. Returns its place, or the length of the list if all are simple. Ends where
/// `out` is not whole.
pub fn write_simple_types<'a, 'b, W: Wording, A: Allocator>(
    out: &mut Text<A>,
    types: &'b [&'b Type<'a, 'b>],
    first: bool,
    flags: Style<W>,
) -> Result<usize, AllocError>
    ensures fits { IfOk result (λ at. at ≤ length types.now) }
    ensures text { IfOk result (λ at. add_all out.new (spec.begun (drop at types.now) flags.bits)
        ≡ add_all out.old (parameters (types_in types.now) first flags.bits)) }
{
    let mut none_yet = first;
    let mut at = 0;
    'types: while at < types.len() && out.is_whole() {
        let t = types[at];
        if !is_empty_pack(t) {
            write_separator(out, none_yet, flags)?;
            if !write_simple(out, t, flags)? {
                return Ok(at);
            }
            none_yet = false;
        }
        at += 1;
    }
    Ok(at)
}
