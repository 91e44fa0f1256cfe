//! Writes what the declaration of a function has beside its types: words, calling conventions, qualifiers, commas.
#![tactic(auto, using(crate::proofs::Stack::pushes), unfolding(crate::specs::Functions::access_words, crate::specs::Functions::calling, crate::specs::Functions::convention_pieces, crate::specs::Functions::extern_words, crate::specs::Functions::full_calling, crate::specs::Functions::full_wide_word, crate::specs::Functions::function_qualifiers, crate::specs::Functions::kind_words, crate::specs::Functions::member_start, crate::specs::Functions::member_words, crate::specs::Functions::separator, crate::specs::Functions::wide_qualifier))]

ghost use Rattle.std.specs.Prelude.{◌≡◌, OnOk};
ghost use Rattle.msvc_print.specs.Functions as spec;
ghost use Rattle.msvc_print.specs.Limited.{Writes};
ghost use Rattle.msvc_print.specs.Work.{end_pieces};

use crate::item::ListEnd;
use crate::llvm_flags::{NO_ACCESS_SPECIFIER, NO_CALLING_CONVENTION, NO_MEMBER_TYPE};
use crate::pointed::{Pointed, is_pointed, leaves_out};
use crate::spaces::{
    Space, write_angle_end, write_opening, write_qualifier, write_set_word, write_space,
};
use crate::style::{Style, Wording};
use crate::text::{Text, write_text};
use bitflags::Flags;
use msvc_nodes::flags::{DemangleFlags, FuncClass, StorageClass};
use msvc_nodes::kinds::Convention;
use std::alloc::{AllocError, Allocator};

/// Returns the word of a calling convention, with one space after it.
fn spaced_convention<'t>(convention: Convention) -> &'t [u8]
    ensures { result.now ≡ spec.spaced_convention convention }
{
    match convention {
        Convention::Cdecl => b"__cdecl ",
        Convention::Pascal => b"__pascal ",
        Convention::Thiscall => b"__thiscall ",
        Convention::Stdcall => b"__stdcall ",
        Convention::Fastcall => b"__fastcall ",
        Convention::_Regcall => b"__regcall ",
        Convention::Clrcall => b"__clrcall ",
        Convention::Eabi => b"__eabi ",
        Convention::Vectorcall => b"__vectorcall ",
        Convention::Swift => b"__attribute__((__swiftcall__))  ",
        Convention::SwiftAsync => b"__attribute__((__swiftasynccall__))  ",
        Convention::PreserveMost => b"__attribute__((__preserve_most__))  ",
        Convention::PreserveNone => b"__attribute__((__preserve_none__))  ",
        Convention::Regcall4 => b"__regcall4 ",
    }
}

/// Returns the word of a calling convention.
fn convention_word<'t>(convention: Convention) -> &'t [u8]
    ensures { result.now ≡ spec.convention_word convention }
{
    match convention {
        Convention::Cdecl => b"__cdecl",
        Convention::Pascal => b"__pascal",
        Convention::Thiscall => b"__thiscall",
        Convention::Stdcall => b"__stdcall",
        Convention::Fastcall => b"__fastcall",
        Convention::_Regcall => b"__regcall",
        Convention::Clrcall => b"__clrcall",
        Convention::Eabi => b"__eabi",
        Convention::Vectorcall => b"__vectorcall",
        Convention::Swift => b"__attribute__((__swiftcall__)) ",
        Convention::SwiftAsync => b"__attribute__((__swiftasynccall__)) ",
        Convention::PreserveMost => b"__attribute__((__preserve_most__)) ",
        Convention::PreserveNone => b"__attribute__((__preserve_none__)) ",
        Convention::Regcall4 => b"__regcall4",
    }
}

/// Writes the calling convention of a function in the second grammar's style, after the parenthesis before the mark of
/// a pointer to the function.
#[cold]
fn write_full_calling<W: Wording, A: Allocator>(
    out: &mut Text<A>,
    pointed: Pointed,
    convention: Convention,
    flags: Style<W>,
) -> Result<(), AllocError>
    ensures { OnOk result (Writes (spec.full_calling pointed convention flags.bits) out.old out.new) }
{
    write_opening(out, pointed, flags)?;
    if leaves_out(pointed, NO_CALLING_CONVENTION, flags)
        || flags.contains(DemangleFlags::NO_MS_KEYWORDS)
    {
        return Ok(());
    }
    if is_pointed(pointed) {
        return write_text(out, spaced_convention(convention));
    }
    write_space(out, Space::AfterFullWord)?;
    write_text(out, convention_word(convention))
}

/// Writes the parenthesis before the mark of a pointer to a function, and the calling convention. NO_MS_KEYWORDS drops
/// the word of the convention.
pub fn write_calling<W: Wording, A: Allocator>(
    out: &mut Text<A>,
    pointed: Pointed,
    convention: Convention,
    flags: Style<W>,
) -> Result<(), AllocError>
    ensures { OnOk result (Writes (spec.calling pointed convention flags.bits) out.old out.new) }
{
    if flags.is_full() {
        return write_full_calling(out, pointed, convention, flags);
    }
    write_opening(out, pointed, flags)?;
    write_space(out, Space::UnlessOpen)?;
    if flags.contains(DemangleFlags::NO_MS_KEYWORDS) {
        return Ok(());
    }
    write_text(out, spaced_convention(convention))
}

/// Writes a word of a member function, if its bit is set.
fn write_member_word<A: Allocator>(
    out: &mut Text<A>,
    bit: FuncClass,
    word: &[u8],
    class: FuncClass,
) -> Result<(), AllocError>
    ensures { OnOk result (Writes (spec.member_word bit.0 word.now class.0) out.old out.new) }
{
    if class.contains(bit) {
        write_text(out, word)?;
    }
    Ok(())
}

/// Writes who may call a member function. NO_ACCESS_SPECIFIERS and NO_ACCESS_SPECIFIER drop it.
fn write_access_words<W: Wording, A: Allocator>(
    out: &mut Text<A>,
    pointed: Pointed,
    class: FuncClass,
    flags: Style<W>,
) -> Result<(), AllocError>
    ensures { OnOk result (Writes (spec.access_words pointed class.0 flags.bits) out.old out.new) }
{
    if leaves_out(pointed, NO_ACCESS_SPECIFIER, flags)
        || flags.contains(DemangleFlags::NO_ACCESS_SPECIFIERS)
    {
        return Ok(());
    }
    write_member_word(out, FuncClass::PRIVATE, b"private: ", class)?;
    write_member_word(out, FuncClass::PROTECTED, b"protected: ", class)?;
    write_member_word(out, FuncClass::PUBLIC, b"public: ", class)
}

/// Returns the bit of `extern "C"` in the class of a function. Only the second grammar gives it.
fn extern_c() -> FuncClass
    ensures { result.0 ≡ spec.extern_c }
{
    FuncClass::from_bits_retain(256)
}

/// Writes `extern "C"` of a function, which only the second grammar's style shows.
fn write_extern_words<W: Wording, A: Allocator>(
    out: &mut Text<A>,
    class: FuncClass,
    flags: Style<W>,
) -> Result<(), AllocError>
    ensures { OnOk result (Writes (spec.extern_words class.0 flags.bits) out.old out.new) }
{
    if !flags.is_full() {
        return Ok(());
    }
    let bit = extern_c();
    write_member_word(out, bit, b"extern \"C\" ", class)
}

/// Returns whether NO_MEMBER_TYPE, of the crate's flags or of LLVM's, drops `static` and the like.
pub fn hides_kind<W: Wording>(pointed: Pointed, flags: Style<W>) -> bool
    ensures { result ≡ spec.hides_kind pointed flags.bits }
{
    leaves_out(pointed, NO_MEMBER_TYPE, flags) || flags.contains(DemangleFlags::NO_MEMBER_TYPE)
}

/// Writes `static`, `virtual` and `extern "C"` of a member function, unless a flag drops them.
fn write_kind_words<W: Wording, A: Allocator>(
    out: &mut Text<A>,
    pointed: Pointed,
    class: FuncClass,
    flags: Style<W>,
) -> Result<(), AllocError>
    ensures { OnOk result (Writes (spec.kind_words pointed class.0 flags.bits) out.old out.new) }
{
    if hides_kind(pointed, flags) {
        return Ok(());
    }
    write_member_word(out, FuncClass::STATIC, b"static ", class)?;
    write_member_word(out, FuncClass::VIRTUAL, b"virtual ", class)?;
    write_extern_words(out, class, flags)
}

/// Writes the words of a member function.
fn write_member_words<W: Wording, A: Allocator>(
    out: &mut Text<A>,
    pointed: Pointed,
    class: FuncClass,
    flags: Style<W>,
) -> Result<(), AllocError>
    ensures { OnOk result (Writes (spec.member_words pointed class.0 flags.bits) out.old out.new) }
{
    write_member_word(out, FuncClass::THUNK, b"[thunk]: ", class)?;
    write_access_words(out, pointed, class, flags)?;
    write_kind_words(out, pointed, class, flags)
}

/// Writes the words of a member function, unless it is pointed to.
pub fn write_member_start<W: Wording, A: Allocator>(
    out: &mut Text<A>,
    pointed: Pointed,
    class: FuncClass,
    flags: Style<W>,
) -> Result<(), AllocError>
    ensures { OnOk result (Writes (spec.member_start pointed class.0 flags.bits) out.old out.new) }
{
    if !is_pointed(pointed) {
        write_member_words(out, pointed, class, flags)?;
    }
    Ok(())
}

/// Writes `__ptr64`, if its bit is set and WITH_PTR64 shows it.
fn write_wide_qualifier<W: Wording, A: Allocator>(
    out: &mut Text<A>,
    qualifiers: StorageClass,
    flags: Style<W>,
) -> Result<(), AllocError>
    ensures { OnOk result (Writes (spec.wide_qualifier qualifiers.0 flags.bits) out.old out.new) }
{
    if flags.contains(DemangleFlags::WITH_PTR64) {
        write_qualifier(
            out,
            Space::AfterPointer,
            StorageClass::PTR64,
            b"__ptr64",
            qualifiers,
        )?;
    }
    Ok(())
}

/// Writes `__ptr64` in the second grammar's style, if its bit is set and WITH_PTR64 shows it.
fn write_full_wide_word<W: Wording, A: Allocator>(
    out: &mut Text<A>,
    qualifiers: StorageClass,
    flags: Style<W>,
) -> Result<(), AllocError>
    ensures { OnOk result (Writes (spec.full_wide_word qualifiers.0 flags.bits) out.old out.new) }
{
    if flags.contains(DemangleFlags::WITH_PTR64) {
        return write_set_word(out, StorageClass::PTR64, b" __ptr64", qualifiers);
    }
    Ok(())
}

/// Writes the qualifiers of a function itself that the second grammar's style shows before `noexcept`.
fn write_full_this_words<W: Wording, A: Allocator>(
    out: &mut Text<A>,
    qualifiers: StorageClass,
    flags: Style<W>,
) -> Result<(), AllocError>
    ensures { OnOk result (Writes (spec.full_this_words qualifiers.0 flags.bits) out.old out.new) }
{
    if flags.contains(DemangleFlags::NO_THISTYPE) {
        return Ok(());
    }
    write_set_word(out, StorageClass::CONST, b" const", qualifiers)?;
    write_set_word(out, StorageClass::VOLATILE, b" volatile", qualifiers)?;
    write_full_wide_word(out, qualifiers, flags)?;
    write_set_word(out, StorageClass::RESTRICT, b" __restrict", qualifiers)?;
    write_set_word(out, StorageClass::UNALIGNED, b" __unaligned", qualifiers)
}

/// Writes the qualifiers of a function itself that the second grammar's style shows after `noexcept`.
fn write_full_reference_words<W: Wording, A: Allocator>(
    out: &mut Text<A>,
    qualifiers: StorageClass,
    flags: Style<W>,
) -> Result<(), AllocError>
    ensures { OnOk result (Writes (spec.full_reference_words qualifiers.0 flags.bits) out.old out.new) }
{
    if flags.contains(DemangleFlags::NO_THISTYPE) {
        return Ok(());
    }
    write_set_word(out, StorageClass::LVALUE_QUAL, b" &", qualifiers)?;
    write_set_word(out, StorageClass::RVALUE_QUAL, b" &&", qualifiers)
}

/// Returns the bit of `noexcept` in the qualifiers of a function itself. Only the second grammar gives it.
fn noexcept() -> StorageClass
    ensures { result.0 ≡ spec.noexcept }
{
    StorageClass::from_bits_retain(512)
}

/// Writes the qualifiers of a function itself in the second grammar's style. Both bits of NO_THISTYPE together drop all
/// but `noexcept`.
#[cold]
fn write_full_function_qualifiers<W: Wording, A: Allocator>(
    out: &mut Text<A>,
    qualifiers: StorageClass,
    flags: Style<W>,
) -> Result<(), AllocError>
    ensures { OnOk result (Writes (spec.full_function_qualifiers qualifiers.0 flags.bits) out.old out.new) }
{
    write_full_this_words(out, qualifiers, flags)?;
    let bit = noexcept();
    write_set_word(out, bit, b" noexcept", qualifiers)?;
    write_full_reference_words(out, qualifiers, flags)
}

/// Writes the qualifiers of a function itself. Both bits of NO_THISTYPE together drop them.
fn write_function_qualifiers<W: Wording, A: Allocator>(
    out: &mut Text<A>,
    qualifiers: StorageClass,
    flags: Style<W>,
) -> Result<(), AllocError>
    ensures { OnOk result (Writes (spec.function_qualifiers qualifiers.0 flags.bits) out.old out.new) }
{
    if qualifiers.is_empty() {
        return Ok(());
    }
    if flags.is_full() {
        return write_full_function_qualifiers(out, qualifiers, flags);
    }
    if flags.contains(DemangleFlags::NO_THISTYPE) {
        return Ok(());
    }
    let kind = Space::AfterPointer;
    write_qualifier(out, kind, StorageClass::CONST, b"const", qualifiers)?;
    write_qualifier(out, kind, StorageClass::VOLATILE, b"volatile", qualifiers)?;
    write_wide_qualifier(out, qualifiers, flags)?;
    write_qualifier(out, kind, StorageClass::RESTRICT, b"__restrict", qualifiers)?;
    write_qualifier(out, kind, StorageClass::LVALUE_QUAL, b"&", qualifiers)?;
    write_qualifier(out, kind, StorageClass::RVALUE_QUAL, b"&&", qualifiers)
}

/// Writes the end of a list of types.
pub fn write_list_end<W: Wording, A: Allocator>(
    out: &mut Text<A>,
    end: ListEnd,
    flags: Style<W>,
) -> Result<(), AllocError>
    ensures { OnOk result (Writes (end_pieces end flags.bits) out.old out.new) }
{
    match end {
        ListEnd::Round(qualifiers) => {
            write_text(out, b")")?;
            write_function_qualifiers(out, qualifiers, flags)
        }
        ListEnd::Bare => write_text(out, b")"),
        ListEnd::Angle => write_angle_end(out, flags),
    }
}

/// Returns the comma between two parameters.
pub fn comma<W: Wording>(flags: Style<W>) -> &'static [u8]
    ensures { result.now ≡ spec.comma flags.bits }
{
    if !flags.contains(DemangleFlags::SPACE_AFTER_COMMA) {
        return b",";
    }
    b", "
}

/// Writes the comma before a parameter that is not the first. Each word is a constant, which is stored without a call.
pub fn write_separator<W: Wording, A: Allocator>(
    out: &mut Text<A>,
    first: bool,
    flags: Style<W>,
) -> Result<(), AllocError>
    ensures { OnOk result (Writes (spec.separator first flags.bits) out.old out.new) }
{
    if first {
        return Ok(());
    }
    if flags.contains(DemangleFlags::SPACE_AFTER_COMMA) {
        write_text(out, b", ")
    } else {
        write_text(out, b",")
    }
}
