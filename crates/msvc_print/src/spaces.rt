//! Spaces that depend on the byte before them, and the qualifiers, marks and parentheses that are written with them.
#![tactic(auto, using(crate::proofs::Stack::pushes), unfolding(crate::specs::Words::angle_end, crate::specs::Words::closing, crate::specs::Words::marked, crate::specs::Words::opening, crate::specs::Words::table_qualifiers))]

ghost use Rattle.std.specs.Prelude.{◌≡◌, ◌∷◌, [], OnOk, cond};
ghost use Rattle.msvc_print.specs.Flags.{has, space_before_pointer};
ghost use Rattle.msvc_print.specs.Pieces as pieces;
ghost use Rattle.msvc_print.specs.Limited.{Writes};
ghost use Rattle.msvc_print.specs.Pieces.{is_written_after, space};
ghost use Rattle.msvc_print.specs.Words as spec;

use crate::pointed::{Pointed, is_pointed, is_unaligned};
use crate::style::{Style, Wording};
use crate::text::{Text, write_text};
use bitflags::Flags;
use msvc_nodes::flags::{DemangleFlags, StorageClass};
use std::alloc::{AllocError, Allocator};

/// Tells after which bytes a space is written.
#[derive(Clone, Copy)]
pub enum Space {
    /// Follows an ASCII letter, `>`, `)`, `&` or `*`.
    AfterPointer,
    /// Follows an ASCII letter, `>`, `)` or `&`.
    AfterReference,
    /// Follows an ASCII letter, `>` or `)`.
    AfterWord,
    /// Follows any byte but a space and `(`.
    UnlessOpen,
    /// Follows `>`.
    AfterAngle,
    /// Follows an ASCII letter, an ASCII digit or `>`, in the second grammar's style.
    AfterFullWord,
    /// Follows an ASCII letter, an ASCII digit, `>`, `)` or `&`, in the second grammar's style.
    AfterFullReference,
    /// Follows an ASCII letter, an ASCII digit, `>`, `)`, `&`, `*`, `^` or `%`, in the second grammar's style.
    AfterFullPointer,
}

/// Returns whether a byte is an ASCII letter, an ASCII digit or `>`.
fn ends_full_word(byte: u8) -> bool
    ensures { result ≡ pieces.ends_full_word byte }
{
    byte.is_ascii_alphanumeric() || byte == b'>'
}

/// Returns whether a byte ends a word in the second grammar's style, or is `)` or `&`.
fn ends_full_reference(byte: u8) -> bool
    ensures { result ≡ pieces.ends_full_reference byte }
{
    ends_full_word(byte) || byte == b')' || byte == b'&'
}

impl Space {
    /// Returns whether the space is written after `byte`, which is 0 at the start of a text.
    fn is_written_after(self, byte: u8) -> bool
        ensures { result ≡ is_written_after self byte }
    {
        let ends_word = byte.is_ascii_alphabetic() || byte == b'>' || byte == b')';
        match self {
            Space::AfterWord => ends_word,
            Space::AfterReference => ends_word || byte == b'&',
            Space::AfterPointer => ends_word || byte == b'&' || byte == b'*',
            Space::UnlessOpen => !(byte == b' ' || byte == b'('),
            Space::AfterAngle => byte == b'>',
            Space::AfterFullWord => ends_full_word(byte),
            Space::AfterFullReference => ends_full_reference(byte),
            Space::AfterFullPointer => {
                ends_full_reference(byte) || byte == b'*' || byte == b'^' || byte == b'%'
            }
        }
    }
}

/// Writes a space, if one is written after the last byte of `out`.
#[inline(always)]
pub fn write_space<A: Allocator>(out: &mut Text<A>, kind: Space) -> Result<(), AllocError>
    ensures { OnOk result (Writes (space kind ∷ []) out.old out.new) }
{
    if !kind.is_written_after(out.last_byte()) {
        return Ok(());
    }
    write_text(out, b" ")
}

/// Returns a space that SPACE_BEFORE_POINTER chooses: `word` under it, and else `other`.
fn chosen_space<W: Wording>(flags: Style<W>, word: Space, other: Space) -> Space
    ensures { result ≡ cond (has flags.bits space_before_pointer) word other }
{
    if flags.contains(DemangleFlags::SPACE_BEFORE_POINTER) {
        word
    } else {
        other
    }
}

/// Returns the space before the mark of a pointer and its qualifiers, in the second grammar's style.
fn full_space<W: Wording>(flags: Style<W>) -> Space
    ensures { result ≡ spec.full_space flags.bits }
{
    chosen_space(flags, Space::AfterFullWord, Space::AfterFullPointer)
}

/// Returns the space before the name of a symbol.
pub fn name_space<W: Wording>(flags: Style<W>) -> Space
    ensures { result ≡ spec.name_space flags.bits }
{
    if flags.is_full() {
        return chosen_space(flags, Space::AfterFullWord, Space::AfterFullReference);
    }
    chosen_space(flags, Space::AfterWord, Space::AfterReference)
}

/// Returns the space before the parenthesis before the mark of a pointer.
fn opening_space<W: Wording>(flags: Style<W>) -> Space
    ensures { result ≡ spec.opening_space flags.bits }
{
    if flags.is_full() {
        return full_space(flags);
    }
    Space::AfterPointer
}

/// Writes a space and a qualifier, if its bit is set.
#[inline(always)]
pub fn write_qualifier<A: Allocator>(
    out: &mut Text<A>,
    kind: Space,
    bit: StorageClass,
    word: &[u8],
    qualifiers: StorageClass,
) -> Result<(), AllocError>
    ensures { OnOk result (Writes (spec.qualifier kind bit.0 word.now qualifiers.0) out.old out.new) }
{
    if qualifiers.contains(bit) {
        write_space(out, kind)?;
        write_text(out, word)?;
    }
    Ok(())
}

/// Writes a word, if its bit is set.
pub fn write_set_word<A: Allocator>(
    out: &mut Text<A>,
    bit: StorageClass,
    word: &[u8],
    qualifiers: StorageClass,
) -> Result<(), AllocError>
    ensures { OnOk result (Writes (spec.set_word bit.0 word.now qualifiers.0) out.old out.new) }
{
    if qualifiers.contains(bit) {
        write_text(out, word)?;
    }
    Ok(())
}

/// Writes the qualifiers of a type that is no pointer, in the second grammar's style.
#[cold]
fn write_full_qualifiers<A: Allocator>(
    out: &mut Text<A>,
    qualifiers: StorageClass,
) -> Result<(), AllocError>
    ensures { OnOk result (Writes (spec.full_qualifiers qualifiers.0) out.old out.new) }
{
    write_set_word(out, StorageClass::CONST, b" const", qualifiers)?;
    write_set_word(out, StorageClass::VOLATILE, b" volatile", qualifiers)?;
    write_set_word(out, StorageClass::RESTRICT, b" __restrict", qualifiers)
}

/// Writes the qualifiers of a table, with one space between them.
#[cold]
pub fn write_table_qualifiers<A: Allocator>(
    out: &mut Text<A>,
    qualifiers: StorageClass,
) -> Result<(), AllocError>
    ensures { OnOk result (Writes (spec.table_qualifiers qualifiers.0) out.old out.new) }
{
    write_set_word(out, StorageClass::CONST, b"const", qualifiers)?;
    if qualifiers.contains(StorageClass::CONST) {
        return write_set_word(out, StorageClass::VOLATILE, b" volatile", qualifiers);
    }
    write_set_word(out, StorageClass::VOLATILE, b"volatile", qualifiers)
}

/// Writes `const` and `volatile`, if their bits are set.
#[inline(always)]
pub fn write_qualifiers<W: Wording, A: Allocator>(
    out: &mut Text<A>,
    qualifiers: StorageClass,
    flags: Style<W>,
) -> Result<(), AllocError>
    ensures { OnOk result (Writes (spec.qualifiers qualifiers.0 flags.bits) out.old out.new) }
{
    if qualifiers.is_empty() {
        return Ok(());
    }
    write_set_qualifiers(out, qualifiers, flags)
}

/// Writes `const`, `volatile` or both, as their bits are set. At least one bit is.
fn write_set_qualifiers<W: Wording, A: Allocator>(
    out: &mut Text<A>,
    qualifiers: StorageClass,
    flags: Style<W>,
) -> Result<(), AllocError>
    ensures { OnOk result (Writes (spec.qualifiers qualifiers.0 flags.bits) out.old out.new) }
{
    if flags.is_full() {
        return write_full_qualifiers(out, qualifiers);
    }
    let kind = chosen_space(flags, Space::AfterWord, Space::AfterPointer);
    write_qualifier(out, kind, StorageClass::CONST, b"const", qualifiers)?;
    write_qualifier(out, kind, StorageClass::VOLATILE, b"volatile", qualifiers)
}

/// Writes the qualifiers of a pointer in the second grammar's style, each after the space `kind`.
fn write_mark_qualifiers<A: Allocator>(
    out: &mut Text<A>,
    kind: Space,
    qualifiers: StorageClass,
) -> Result<(), AllocError>
    ensures { OnOk result (Writes (spec.mark_qualifiers kind qualifiers.0) out.old out.new) }
{
    write_qualifier(out, kind, StorageClass::CONST, b"const", qualifiers)?;
    write_qualifier(out, kind, StorageClass::VOLATILE, b"volatile", qualifiers)?;
    write_qualifier(out, kind, StorageClass::RESTRICT, b"__restrict", qualifiers)
}

/// Writes the qualifiers of a pointer in the second grammar's style.
#[cold]
pub fn write_pointer_qualifiers<W: Wording, A: Allocator>(
    out: &mut Text<A>,
    qualifiers: StorageClass,
    flags: Style<W>,
) -> Result<(), AllocError>
    ensures { OnOk result (Writes (spec.mark_qualifiers (spec.full_space flags.bits) qualifiers.0) out.old out.new) }
{
    let kind = full_space(flags);
    write_mark_qualifiers(out, kind, qualifiers)
}

/// Writes the `__unaligned` of a pointer in the second grammar's style, if it has one.
#[inline(always)]
pub fn write_unaligned<W: Wording, A: Allocator>(
    out: &mut Text<A>,
    has_it: bool,
    flags: Style<W>,
) -> Result<(), AllocError>
    ensures { OnOk result (Writes (spec.unaligned has_it flags.bits) out.old out.new) }
{
    if has_it {
        write_space(out, full_space(flags))?;
        write_text(out, b"__unaligned ")?;
    }
    Ok(())
}

/// Writes the space before the mark of a pointer or a reference in the second grammar's style.
fn write_full_mark_space<W: Wording, A: Allocator>(
    out: &mut Text<A>,
    flags: Style<W>,
) -> Result<(), AllocError>
    ensures { OnOk result (Writes (spec.full_mark_space flags.bits) out.old out.new) }
{
    if !flags.contains(DemangleFlags::HUG_TYPE) {
        return write_space(out, Space::AfterFullPointer);
    }
    if flags.contains(DemangleFlags::SPACE_BEFORE_POINTER) {
        write_space(out, Space::AfterFullWord)?;
    }
    Ok(())
}

/// Writes the mark of a pointer or a reference with its qualifiers, in the second grammar's style.
#[cold]
fn write_full_mark<W: Wording, A: Allocator>(
    out: &mut Text<A>,
    word: &[u8],
    qualifiers: StorageClass,
    is_unaligned: bool,
    flags: Style<W>,
) -> Result<(), AllocError>
    ensures { OnOk result (Writes (spec.full_marked is_unaligned word.now qualifiers.0 flags.bits) out.old out.new) }
{
    let kind = full_space(flags);
    write_unaligned(out, is_unaligned, flags)?;
    write_full_mark_space(out, flags)?;
    write_text(out, word)?;
    write_mark_qualifiers(out, kind, qualifiers)
}

/// Writes the space before the mark of a pointer or a reference, and the mark with its qualifiers, the `__unaligned`
/// among them if `is_unaligned` says so.
pub fn write_mark<W: Wording, A: Allocator>(
    out: &mut Text<A>,
    word: &[u8],
    qualifiers: StorageClass,
    is_unaligned: bool,
    flags: Style<W>,
) -> Result<(), AllocError>
    ensures { OnOk result (Writes (spec.marked is_unaligned word.now qualifiers.0 flags.bits) out.old out.new) }
{
    if flags.is_full() {
        return write_full_mark(out, word, qualifiers, is_unaligned, flags);
    }
    if !flags.contains(DemangleFlags::HUG_TYPE) {
        write_space(out, Space::AfterPointer)?;
    } else if flags.contains(DemangleFlags::SPACE_BEFORE_POINTER) {
        write_space(out, Space::AfterWord)?;
    }
    write_text(out, word)?;
    write_qualifiers(out, qualifiers, flags)
}

/// Writes the parenthesis before the mark of a pointer, and the `__unaligned` of the pointer before it, if the type is
/// pointed to.
pub fn write_opening<W: Wording, A: Allocator>(
    out: &mut Text<A>,
    pointed: Pointed,
    flags: Style<W>,
) -> Result<(), AllocError>
    ensures { OnOk result (Writes (spec.opening pointed flags.bits) out.old out.new) }
{
    if is_pointed(pointed) {
        write_unaligned(out, flags.is_full() && is_unaligned(pointed), flags)?;
        write_parenthesis(out, flags)?;
    }
    Ok(())
}

/// Writes a parenthesis before the mark of a pointer.
fn write_parenthesis<W: Wording, A: Allocator>(
    out: &mut Text<A>,
    flags: Style<W>,
) -> Result<(), AllocError>
    ensures { OnOk result (Writes (spec.parenthesis flags.bits) out.old out.new) }
{
    write_space(out, opening_space(flags))?;
    write_text(out, b"(")
}

/// Writes the parenthesis that closes that of [`write_opening`], if the type is pointed to.
pub fn write_closing<A: Allocator>(out: &mut Text<A>, pointed: Pointed) -> Result<(), AllocError>
    ensures { OnOk result (Writes (spec.closing pointed) out.old out.new) }
{
    if is_pointed(pointed) {
        write_text(out, b")")?;
    }
    Ok(())
}

/// Writes the end of the arguments of a template.
pub fn write_angle_end<W: Wording, A: Allocator>(
    out: &mut Text<A>,
    flags: Style<W>,
) -> Result<(), AllocError>
    ensures { OnOk result (Writes (spec.angle_end flags.bits) out.old out.new) }
{
    if !flags.is_full() {
        write_space(out, Space::AfterAngle)?;
    }
    write_text(out, b">")
}
