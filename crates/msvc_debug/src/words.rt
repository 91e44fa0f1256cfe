//! Words, numbers and sets in the text of a tree, for nodes without parts.

ghost use Rattle.std.specs.Prelude.{◌≡◌, ◌++◌, OnOk, cond, []};
ghost use Rattle.std.specs.Fmt.{signed_decimal};
ghost use Rattle.std.specs.String.{string_bytes};
ghost use Rattle.msvc_debug.specs.Words as spec;

use bitflags::Flags;
use msvc_nodes::flags::{FuncClass, StorageClass};
use msvc_nodes::kinds::{
    Convention, Guard, NumberedType, PlainOperator, PlainType, PointerAffinity, PrimitiveKind,
    SpecialTableKind, TagKind, VarStorageKind,
};
use msvc_nodes::nodes::Number;
use msvc_nodes::{base_types, plain_operators};
use std::alloc::{AllocError, Allocator};

/// Appends a word if `is_there` is true.
fn write_word_if<A: Allocator>(
    text: &mut String<A>,
    is_there: bool,
    word: &str,
) -> Result<(), AllocError>
    ensures { OnOk result (string_bytes text.new ≡ string_bytes text.old ++ cond is_there word.now []) }
{
    if is_there {
        return text.push_str(word);
    }
    Ok(())
}

/// Appends the names of qualifiers, each with a space after it.
pub(crate) fn write_qualifiers<A: Allocator>(
    text: &mut String<A>,
    set: StorageClass,
) -> Result<(), AllocError>
    ensures { OnOk result (string_bytes text.new ≡ string_bytes text.old ++ spec.qualifier_names set.0) }
{
    write_word_if(text, set.contains(StorageClass::CONST), "CONST ")?;
    write_word_if(text, set.contains(StorageClass::VOLATILE), "VOLATILE ")?;
    write_word_if(text, set.contains(StorageClass::FAR), "FAR ")?;
    write_word_if(text, set.contains(StorageClass::HUGE), "HUGE ")?;
    write_word_if(text, set.contains(StorageClass::UNALIGNED), "UNALIGNED ")?;
    write_word_if(text, set.contains(StorageClass::RESTRICT), "RESTRICT ")?;
    write_word_if(text, set.contains(StorageClass::PTR64), "PTR64 ")?;
    write_word_if(
        text,
        set.contains(StorageClass::LVALUE_QUAL),
        "LVALUE_QUAL ",
    )?;
    write_word_if(
        text,
        set.contains(StorageClass::RVALUE_QUAL),
        "RVALUE_QUAL ",
    )
}

/// Appends the names of the class of a member function, each with a space after it.
pub(crate) fn write_class<A: Allocator>(
    text: &mut String<A>,
    set: FuncClass,
) -> Result<(), AllocError>
    ensures { OnOk result (string_bytes text.new ≡ string_bytes text.old ++ spec.class_names set.0) }
{
    write_word_if(text, set.contains(FuncClass::PUBLIC), "PUBLIC ")?;
    write_word_if(text, set.contains(FuncClass::PROTECTED), "PROTECTED ")?;
    write_word_if(text, set.contains(FuncClass::PRIVATE), "PRIVATE ")?;
    write_word_if(text, set.contains(FuncClass::GLOBAL), "GLOBAL ")?;
    write_word_if(text, set.contains(FuncClass::STATIC), "STATIC ")?;
    write_word_if(text, set.contains(FuncClass::VIRTUAL), "VIRTUAL ")?;
    write_word_if(text, set.contains(FuncClass::FAR), "FAR ")?;
    write_word_if(text, set.contains(FuncClass::THUNK), "THUNK ")
}

/// Appends a number.
pub(crate) fn write_number<A: Allocator>(
    text: &mut String<A>,
    number: i32,
) -> Result<(), AllocError>
    ensures { OnOk result (string_bytes text.new ≡ string_bytes text.old ++ signed_decimal number) }
{
    write!(text, "{number}")
}

/// Appends a number that may be missing.
pub(crate) fn write_index<A: Allocator>(
    text: &mut String<A>,
    index: Option<u32>,
) -> Result<(), AllocError>
    ensures { OnOk result (string_bytes text.new ≡ string_bytes text.old ++ spec.index_text index) }
{
    match index {
        None => text.push_str("None"),
        Some(number) => {
            text.push_str("Some(")?;
            write!(text, "{number}")?;
            text.push(')')
        }
    }
}

/// Appends numbers, each with its sign and with a space after it.
pub(crate) fn write_numbers<A: Allocator>(
    text: &mut String<A>,
    numbers: &[Number],
) -> Result<(), AllocError>
    ensures { OnOk result (string_bytes text.new ≡ string_bytes text.old ++ spec.numbers_text numbers.now) }
{
    for number in numbers {
        write_signed(text, *number)?;
    }
    Ok(())
}

/// Appends a number with its sign and with a space after it.
fn write_signed<A: Allocator>(text: &mut String<A>, number: Number) -> Result<(), AllocError>
    ensures { OnOk result (string_bytes text.new ≡ string_bytes text.old ++ spec.signed_text number) }
{
    let Number { is_negative, value } = number;
    write_word_if(text, is_negative, "-")?;
    write!(text, "{value}")?;
    text.push(' ')
}

/// Returns the word of what has nothing in it.
pub(crate) fn plain_word(plain: PlainType) -> &'static str
    ensures { result.now ≡ spec.plain_word plain }
{
    match plain {
        PlainType::None => "None",
        PlainType::EmptyPack => "EmptyParameterPack",
        PlainType::Rtti => "RTTIType",
        PlainType::Variadic => "VarArgs",
        PlainType::Nullptr => "Nullptr",
    }
}

/// Returns the word of what has one number.
pub(crate) fn numbered_word(kind: NumberedType) -> &'static str
    ensures { result.now ≡ spec.numbered_word kind }
{
    match kind {
        NumberedType::Constant => "Constant",
        NumberedType::TemplateParameter => "TemplateParameterWithIndex",
        NumberedType::ThreadSafeGuard => "ThreadSafeStaticGuard",
    }
}

/// Returns the word of a pointer or a reference.
pub(crate) fn mark_word(affinity: PointerAffinity) -> &'static str
    ensures { result.now ≡ spec.mark_word affinity }
{
    match affinity {
        PointerAffinity::Pointer => "Ptr",
        PointerAffinity::Reference => "Ref",
        PointerAffinity::RValueReference => "RValueRef",
    }
}

/// Returns the word of a table.
pub(crate) fn table_word(table: SpecialTableKind) -> &'static str
    ensures { result.now ≡ spec.table_word table }
{
    match table {
        SpecialTableKind::Functions => "CXXVFTable",
        SpecialTableKind::Bases => "CXXVBTable",
    }
}

/// Returns the word of a guard.
pub(crate) fn guard_word(guard: Guard) -> &'static str
    ensures { result.now ≡ spec.guard_word guard }
{
    match guard {
        Guard::Static => "LocalStaticGuard",
        Guard::Thread => "LocalStaticThreadGuard",
    }
}

/// Returns the name of the kind of a named type.
pub(crate) fn tag_word(tag: TagKind) -> &'static str
    ensures { result.now ≡ spec.tag_word tag }
{
    match tag {
        TagKind::Class => "Class",
        TagKind::Struct => "Struct",
        TagKind::Union => "Union",
        TagKind::Enum => "Enum",
        TagKind::Alias => "Alias",
    }
}

/// Returns the name of where a variable lives and who may name it.
pub(crate) fn variable_word(kind: VarStorageKind) -> &'static str
    ensures { result.now ≡ spec.variable_word kind }
{
    match kind {
        VarStorageKind::PrivateStatic => "PrivateStatic",
        VarStorageKind::ProtectedStatic => "ProtectedStatic",
        VarStorageKind::PublicStatic => "PublicStatic",
        VarStorageKind::Global => "Global",
        VarStorageKind::FunctionLocalStatic => "FunctionLocalStatic",
    }
}

/// Returns the name of a calling convention.
pub(crate) fn convention_word(convention: Convention) -> &'static str
    ensures { result.now ≡ spec.convention_word convention }
{
    match convention {
        Convention::Cdecl => "Cdecl",
        Convention::Pascal => "Pascal",
        Convention::Thiscall => "Thiscall",
        Convention::Stdcall => "Stdcall",
        Convention::Fastcall => "Fastcall",
        Convention::_Regcall => "_Regcall",
        Convention::Clrcall => "Clrcall",
        Convention::Eabi => "Eabi",
        Convention::Vectorcall => "Vectorcall",
        Convention::Swift => "Swift",
        Convention::SwiftAsync => "SwiftAsync",
        Convention::PreserveMost => "PreserveMost",
        Convention::PreserveNone => "PreserveNone",
        Convention::Regcall4 => "Regcall4",
    }
}

/// Matches a base type with its name.
macro_rules! name_of_base_type {
    (($base:ident) $({ $($code:literal $name:ident $word:literal $($other:literal)?,)* })*) => {
        match $base {
            $($(PrimitiveKind::$name => stringify!($name),)*)*
        }
    };
}

/// Returns the name of a base type.
#[tactic(auto, unfolding(crate::specs::Words::base_word))]
pub(crate) fn base_word(base: PrimitiveKind) -> &'static str
    ensures { result.now ≡ spec.base_word base }
{
    base_types!(name_of_base_type(base))
}

/// Matches an operator with its name.
macro_rules! name_of_operator {
    (($operator:ident) $({ $($code:literal $name:ident $word:literal,)* })*) => {
        match $operator {
            $($(PlainOperator::$name => stringify!($name),)*)*
        }
    };
}

/// Returns the name of an operator.
#[tactic(auto, unfolding(crate::specs::Words::operator_word))]
pub(crate) fn operator_word(operator: PlainOperator) -> &'static str
    ensures { result.now ≡ spec.operator_word operator }
{
    plain_operators!(name_of_operator(operator))
}
