//! The words of types, a row each: of base types, kinds of named types, pointers and variables.

ghost use Rattle.std.specs.Prelude.{◌≡◌, cond};
ghost use Rattle.msvc_print.specs.Words as spec;

use crate::llvm_flags::{NO_ACCESS_SPECIFIER, NO_MEMBER_TYPE};
use crate::pointed::{Pointed, leaves_out};
use crate::style::{Style, Wording};
use msvc_nodes::base_types;
use msvc_nodes::flags::DemangleFlags;
use msvc_nodes::kinds::{PointerAffinity, PrimitiveKind, TagKind, VarStorageKind};

/// Matches a base type with its word.
macro_rules! word_of_base_type {
    (($base:ident $microsoft:ident) $({ $($code:literal $name:ident $word:literal $($other:literal)?,)* })*) => {
        match $base {
            $($(PrimitiveKind::$name => word_in_row!($microsoft $word $($other)?),)*)*
        }
    };
}

/// Chooses between the words of a row, if it has two.
macro_rules! word_in_row {
    ($microsoft:ident $word:literal) => {
        $word
    };
    ($microsoft:ident $word:literal $other:literal) => {
        either($microsoft, $other, $word)
    };
}

/// Returns the word of a base type. MS_TYPENAMES chooses those of 64 and 128 bits.
#[tactic(auto, unfolding(crate::specs::Words::base_word))]
pub fn base_word<'t, W: Wording>(base: PrimitiveKind, flags: Style<W>) -> &'t [u8]
    ensures { result.now ≡ spec.base_word base flags.bits }
{
    let microsoft = flags.contains(DemangleFlags::MS_TYPENAMES);
    base_types!(word_of_base_type (base microsoft))
}

/// Returns `first` if `choice` is true, and else `second`.
fn either<'t>(choice: bool, first: &'t [u8], second: &'t [u8]) -> &'t [u8]
    ensures { result.now ≡ cond choice first.now second.now }
{
    if choice { first } else { second }
}

/// Returns the word before a name that stands for a type. NO_CLASS_TYPE drops it.
pub fn tag_word<'t, W: Wording>(tag: TagKind, flags: Style<W>) -> &'t [u8]
    ensures { result.now ≡ spec.tag_word tag flags.bits }
{
    either(
        flags.contains(DemangleFlags::NO_CLASS_TYPE),
        b"",
        kind_word(tag),
    )
}

/// Returns the word for the kind of a named type.
fn kind_word<'t>(tag: TagKind) -> &'t [u8]
    ensures { result.now ≡ spec.kind_word tag }
{
    match tag {
        TagKind::Class => b"class ",
        TagKind::Struct => b"struct ",
        TagKind::Union => b"union ",
        TagKind::Enum => b"enum ",
        TagKind::Alias => b"",
    }
}

/// Returns the mark of a pointer or a reference.
pub fn mark_word<'t>(affinity: PointerAffinity) -> &'t [u8]
    ensures { result.now ≡ spec.mark_word affinity }
{
    match affinity {
        PointerAffinity::Pointer => b"*",
        PointerAffinity::Reference => b"&",
        PointerAffinity::RValueReference => b"&&",
    }
}

/// Returns the words before a variable, which say who may name it.
fn variable_word<'t>(kind: VarStorageKind) -> &'t [u8]
    ensures { result.now ≡ spec.variable_word kind }
{
    match kind {
        VarStorageKind::PrivateStatic => b"private: static ",
        VarStorageKind::ProtectedStatic => b"protected: static ",
        VarStorageKind::PublicStatic => b"public: static ",
        VarStorageKind::Global => b"",
        VarStorageKind::FunctionLocalStatic => b"",
    }
}

/// Returns the word for who may use a variable, alone.
fn access_word<'t>(kind: VarStorageKind) -> &'t [u8]
    ensures { result.now ≡ spec.access_word kind }
{
    match kind {
        VarStorageKind::PrivateStatic => b"private: ",
        VarStorageKind::ProtectedStatic => b"protected: ",
        VarStorageKind::PublicStatic => b"public: ",
        VarStorageKind::Global => b"",
        VarStorageKind::FunctionLocalStatic => b"",
    }
}

/// Returns `static` of a variable, alone.
fn static_word<'t>(kind: VarStorageKind) -> &'t [u8]
    ensures { result.now ≡ spec.static_word kind }
{
    match kind {
        VarStorageKind::PrivateStatic => b"static ",
        VarStorageKind::ProtectedStatic => b"static ",
        VarStorageKind::PublicStatic => b"static ",
        VarStorageKind::Global => b"",
        VarStorageKind::FunctionLocalStatic => b"",
    }
}

/// Returns the words of a variable, without those that flags drop.
pub fn shown_variable_word<'t, W: Wording>(
    pointed: Pointed,
    kind: VarStorageKind,
    flags: Style<W>,
) -> &'t [u8]
    ensures { result.now ≡ spec.shown_variable_word pointed kind flags.bits }
{
    let without_kind = leaves_out(pointed, NO_MEMBER_TYPE, flags);
    if leaves_out(pointed, NO_ACCESS_SPECIFIER, flags) {
        if without_kind {
            return b"";
        }
        return static_word(kind);
    }
    if without_kind {
        return access_word(kind);
    }
    variable_word(kind)
}
