//! Converts values of the enumerations of `msvc_nodes::kinds` to operators, types and conventions of a tree.

ghost use Rattle.std.specs.Prelude.{◌≡◌};
ghost use Rattle.msvc_nodes.specs.Trees.{base, base_class_descriptor, guard, numbered, operator, plain, pointing};
ghost use Rattle.msvc_nodes.specs.Trees.{table, tagged, vcall_thunk};
ghost use Rattle.msvc_tree.specs.Ownable.{IsOwnableConvention};
ghost use Rattle.msvc_tree.specs.View.{convention_of, name_of, operator_of, scope_of, type_of};

use crate::tree::{CallingConv, NameSequence, Operator, Symbol, Type};
use msvc_nodes::flags::StorageClass;
use msvc_nodes::kinds::{
    Convention, Guard, NumberedType, PlainOperator, PlainType, PointerAffinity, PrimitiveKind,
    SpecialTableKind, TagKind,
};
use msvc_nodes::nodes::BaseClass;
use msvc_nodes::{base_types, plain_operators};

/// Matches a plain operator with the variant of an owned tree.
macro_rules! operator_of_kind {
    (($kind:ident) $({ $($code:literal $name:ident $word:literal,)* })*) => {
        match $kind {
            $($(PlainOperator::$name => Operator::$name,)*)*
        }
    };
}

/// Returns the operator.
pub(crate) fn plain_operator<'a>(kind: PlainOperator) -> Operator<'a>
    ensures { operator_of result ≡ operator kind }
{
    plain_operators!(operator_of_kind(kind))
}

/// Makes a guard, with the number after it.
pub(crate) fn guard_operator<'a>(kind: Guard, number: Option<u32>) -> Operator<'a>
    ensures { operator_of result ≡ guard kind number }
{
    match kind {
        Guard::Static => Operator::LocalStaticGuard(number),
        Guard::Thread => Operator::LocalStaticThreadGuard(number),
    }
}

/// Makes the descriptor of a base class of its place.
pub(crate) fn base_class_operator<'a>(place: &BaseClass) -> Operator<'a>
    ensures { operator_of result
        ≡ base_class_descriptor place.now.member place.now.pointer place.now.entry place.now.attributes }
{
    Operator::RTTIBaseClassDescriptor(place.member, place.pointer, place.entry, place.attributes)
}

/// Makes a type that has nothing in it.
pub(crate) fn plain_type<'a>(kind: PlainType) -> Type<'a>
    ensures { type_of result ≡ plain kind }
{
    match kind {
        PlainType::None => Type::None,
        PlainType::EmptyPack => Type::EmptyParameterPack,
        PlainType::Rtti => Type::RTTIType,
        PlainType::Variadic => Type::VarArgs,
        PlainType::Nullptr => Type::Nullptr,
    }
}

/// Matches a base type with the variant of an owned tree.
macro_rules! base_of_kind {
    (($kind:ident $qualifiers:ident) $({ $($code:literal $name:ident $word:literal $($other:literal)?,)* })*) => {
        match $kind {
            $($(PrimitiveKind::$name => Type::$name($qualifiers),)*)*
        }
    };
}

/// Makes a base type with its qualifiers.
pub(crate) fn base_type<'a>(kind: PrimitiveKind, qualifiers: StorageClass) -> Type<'a>
    ensures { type_of result ≡ base kind qualifiers.0 }
{
    base_types!(base_of_kind (kind qualifiers))
}

/// Makes a class, struct, union, enumeration or alias of its name in its scope, with its qualifiers.
pub(crate) fn tagged_type<'a>(
    kind: TagKind,
    symbol: Symbol<'a>,
    qualifiers: StorageClass,
) -> Type<'a>
    ensures { type_of result ≡ tagged kind (name_of symbol.entry.name) (scope_of symbol.entry.scope) qualifiers.0 }
{
    match kind {
        TagKind::Class => Type::Class(symbol, qualifiers),
        TagKind::Struct => Type::Struct(symbol, qualifiers),
        TagKind::Union => Type::Union(symbol, qualifiers),
        TagKind::Enum => Type::Enum(symbol, qualifiers),
        TagKind::Alias => Type::Alias(symbol, qualifiers),
    }
}

/// Makes a type that has a number.
pub(crate) fn numbered_type<'a>(kind: NumberedType, number: i32) -> Type<'a>
    ensures { type_of result ≡ numbered kind number }
{
    match kind {
        NumberedType::Constant => Type::Constant(number),
        NumberedType::TemplateParameter => Type::TemplateParameterWithIndex(number),
        NumberedType::ThreadSafeGuard => Type::ThreadSafeStaticGuard(number),
    }
}

/// Makes a pointer or a reference to a type, with its own qualifiers.
pub(crate) fn pointing_type<'a>(
    kind: PointerAffinity,
    inner: Box<Type<'a>>,
    qualifiers: StorageClass,
) -> Type<'a>
    ensures { type_of result ≡ pointing kind (type_of inner.entry.value) qualifiers.0 }
{
    match kind {
        PointerAffinity::Pointer => Type::Ptr(inner, qualifiers),
        PointerAffinity::Reference => Type::Ref(inner, qualifiers),
        PointerAffinity::RValueReference => Type::RValueRef(inner, qualifiers),
    }
}

/// Makes a table of virtual functions or bases, of the scope of the base that it is for, with its qualifiers.
pub(crate) fn table_type<'a>(
    kind: SpecialTableKind,
    scope: NameSequence<'a>,
    qualifiers: StorageClass,
) -> Type<'a>
    ensures { type_of result ≡ table kind (scope_of scope.entry) qualifiers.0 }
{
    match kind {
        SpecialTableKind::Functions => Type::CXXVFTable(scope, qualifiers),
        SpecialTableKind::Bases => Type::CXXVBTable(scope, qualifiers),
    }
}

/// Makes a thunk of a virtual call of its offset, in bytes, and its convention.
pub(crate) fn vcall_thunk_type<'a>(number: i32, convention: Convention) -> Type<'a>
    requires { IsOwnableConvention convention }
    ensures { type_of result ≡ vcall_thunk number convention }
{
    Type::VCallThunk(number, owned_convention(convention))
}

/// Returns the convention as owned trees have it.
pub(crate) fn owned_convention(convention: Convention) -> CallingConv
    requires { IsOwnableConvention convention }
    ensures { convention_of result ≡ convention }
{
    match convention {
        Convention::Cdecl => CallingConv::Cdecl,
        Convention::Pascal => CallingConv::Pascal,
        Convention::Thiscall => CallingConv::Thiscall,
        Convention::Stdcall => CallingConv::Stdcall,
        Convention::Fastcall => CallingConv::Fastcall,
        Convention::_Regcall => CallingConv::_Regcall,
        Convention::Clrcall
        | Convention::Eabi
        | Convention::Vectorcall
        | Convention::Swift
        | Convention::SwiftAsync
        | Convention::PreserveMost
        | Convention::PreserveNone
        | Convention::Regcall4 => unreachable!(),
    }
}

/// Returns the convention as nodes have it.
pub(crate) fn node_convention(convention: CallingConv) -> Convention
    ensures { result ≡ convention_of convention }
{
    match convention {
        CallingConv::Cdecl => Convention::Cdecl,
        CallingConv::Pascal => Convention::Pascal,
        CallingConv::Thiscall => Convention::Thiscall,
        CallingConv::Stdcall => Convention::Stdcall,
        CallingConv::Fastcall => Convention::Fastcall,
        CallingConv::_Regcall => Convention::_Regcall,
    }
}
