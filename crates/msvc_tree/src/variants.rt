//! Variants of names, operators and types of a tree, with their parts borrowed. Variants with the same fields are one,
//! and an enumeration of `msvc_nodes::kinds` distinguishes them. Equality and the conversion to nodes match on it.

ghost use Rattle.std.specs.Prelude.{◌≡◌};
ghost use Rattle.msvc_tree.specs.View.{name_of, operator_of, type_of};
ghost use Rattle.msvc_tree.specs.Variants.{name_in, operator_in, type_in};

use crate::kinds::node_convention;
use crate::tree::{
    Name, NameSequence, Operator, Params, ParseResult, Symbol, Type, VarStorageKind,
};
use msvc_nodes::flags::{FuncClass, StorageClass};
use msvc_nodes::kinds::{
    Convention, Guard, NumberedType, PlainOperator, PlainType, PointerAffinity, PrimitiveKind,
    SpecialTableKind, Spelling, TagKind,
};
use msvc_nodes::nodes::BaseClass;
use msvc_nodes::{base_types, plain_operators};

/// The variant of a borrowed name, with its parts.
#[derive(Clone, Copy)]
pub(crate) enum NameRef<'t, 'a> {
    Spelled(Spelling, &'a [u8]),
    Operator(&'t Operator<'a>),
    Template(&'t Name<'a>, &'t Params<'a>),
    Discriminator(i32),
    /// A symbol with its type, as a scope.
    Nested(&'t ParseResult<'a>),
    /// An anonymous namespace, with its digits if it has them.
    Anonymous(&'t Option<String>),
}

/// The variant of a borrowed operator, with its parts.
#[derive(Clone, Copy)]
pub(crate) enum OperatorRef<'t, 'a> {
    Plain(PlainOperator),
    Guard(Guard, Option<u32>),
    /// The qualifiers that were read for the type, and the type.
    TypeDescriptor(StorageClass, &'t Type<'a>),
    BaseClassDescriptor(BaseClass),
}

/// The parts of a borrowed function type, whatever its class.
#[derive(Clone, Copy)]
pub(crate) struct FunctionRef<'t, 'a> {
    pub convention: Convention,
    pub parameters: &'t Params<'a>,
    pub qualifiers: StorageClass,
    /// The type that the function returns.
    pub returned: &'t Type<'a>,
}

/// The variant of a borrowed type, with its parts.
#[derive(Clone, Copy)]
pub(crate) enum TypeRef<'t, 'a> {
    Plain(PlainType),
    Base(PrimitiveKind, StorageClass),
    Tagged(TagKind, &'t Symbol<'a>, StorageClass),
    Numbered(NumberedType, i32),
    ConstantString(&'t [u8]),
    Pointing(PointerAffinity, &'t Type<'a>, StorageClass),
    /// The length of the outermost level, the elements, the qualifiers.
    Array(i32, &'t Type<'a>, StorageClass),
    Function(FunctionRef<'t, 'a>),
    MemberFunction(FuncClass, FunctionRef<'t, 'a>),
    /// The class whose member function is pointed to, and the function.
    MemberPointer(&'t Symbol<'a>, FuncClass, FunctionRef<'t, 'a>),
    Variable(&'t Type<'a>, VarStorageKind, StorageClass),
    Table(SpecialTableKind, &'t NameSequence<'a>, StorageClass),
    VcallThunk(i32, Convention),
}

/// Returns which variant a name is.
pub(crate) fn name_ref<'t, 'a>(tree: &'t Name<'a>) -> NameRef<'t, 'a>
    ensures { name_in result ≡ name_of tree.now }
{
    match tree {
        Name::Operator(operator) => NameRef::Operator(operator),
        Name::NonTemplate(text) => NameRef::Spelled(Spelling::Source, text),
        Name::Template(name, arguments) => NameRef::Template(name, arguments),
        Name::Discriminator(number) => NameRef::Discriminator(*number),
        Name::ParsedName(symbol) => NameRef::Nested(symbol),
        Name::AnonymousNamespace(digits) => NameRef::Anonymous(digits),
        Name::AsInterface(text) => NameRef::Spelled(Spelling::Interface, text),
        Name::Md5(digits) => NameRef::Spelled(Spelling::Md5, digits),
    }
}

/// Matches the operator of an owned tree with the arms that are given and with the plain operators.
macro_rules! kind_of_operator {
    (($tree:ident { $($arms:tt)* }) $({ $($code:literal $name:ident $word:literal,)* })*) => {
        match $tree {
            $($arms)*
            $($(Operator::$name => PlainOperator::$name,)*)*
        }
    };
}

/// Returns which variant an operator is.
pub(crate) fn operator_ref<'t, 'a>(tree: &'t Operator<'a>) -> OperatorRef<'t, 'a>
    ensures { operator_in result ≡ operator_of tree.now }
{
    let plain = plain_operators!(kind_of_operator (tree {
        Operator::LocalStaticGuard(number) => return OperatorRef::Guard(Guard::Static, *number),
        Operator::LocalStaticThreadGuard(number) => return OperatorRef::Guard(
            Guard::Thread,
            *number,
        ),
        Operator::RTTITypeDescriptor(qualifiers, described) => {
            return OperatorRef::TypeDescriptor(*qualifiers, described);
        }
        Operator::RTTIBaseClassDescriptor(member, pointer, entry, attributes) => {
            return OperatorRef::BaseClassDescriptor(BaseClass {
                member: *member,
                pointer: *pointer,
                entry: *entry,
                attributes: *attributes,
            });
        }
    }));
    OperatorRef::Plain(plain)
}

/// Matches the type of an owned tree with the arms that are given and with the base types.
macro_rules! base_of_type {
    (($tree:ident { $($arms:tt)* }) $({ $($code:literal $name:ident $word:literal $($other:literal)?,)* })*) => {
        match $tree {
            $($arms)*
            $($(Type::$name(qualifiers) => (PrimitiveKind::$name, *qualifiers),)*)*
        }
    };
}

/// Returns which variant a type is.
pub(crate) fn type_ref<'t, 'a>(tree: &'t Type<'a>) -> TypeRef<'t, 'a>
    ensures { type_in result ≡ type_of tree.now }
{
    let (base, qualifiers) = base_types!(base_of_type (tree {
        Type::None => return TypeRef::Plain(PlainType::None),
        Type::ConstantString(text) => return TypeRef::ConstantString(text),
        Type::EmptyParameterPack => return TypeRef::Plain(PlainType::EmptyPack),
        Type::RTTIType => return TypeRef::Plain(PlainType::Rtti),
        Type::Class(symbol, qualifiers) => return TypeRef::Tagged(
            TagKind::Class,
            symbol,
            *qualifiers,
        ),
        Type::Struct(symbol, qualifiers) => return TypeRef::Tagged(
            TagKind::Struct,
            symbol,
            *qualifiers,
        ),
        Type::Union(symbol, qualifiers) => return TypeRef::Tagged(
            TagKind::Union,
            symbol,
            *qualifiers,
        ),
        Type::Enum(symbol, qualifiers) => return TypeRef::Tagged(
            TagKind::Enum,
            symbol,
            *qualifiers,
        ),
        Type::Alias(symbol, qualifiers) => return TypeRef::Tagged(
            TagKind::Alias,
            symbol,
            *qualifiers,
        ),
        Type::Constant(number) => return TypeRef::Numbered(NumberedType::Constant, *number),
        Type::TemplateParameterWithIndex(number) => {
            return TypeRef::Numbered(NumberedType::TemplateParameter, *number);
        }
        Type::ThreadSafeStaticGuard(number) => {
            return TypeRef::Numbered(NumberedType::ThreadSafeGuard, *number);
        }
        Type::VarArgs => return TypeRef::Plain(PlainType::Variadic),
        Type::Nullptr => return TypeRef::Plain(PlainType::Nullptr),
        Type::Ptr(inner, qualifiers) => return TypeRef::Pointing(
            PointerAffinity::Pointer,
            inner,
            *qualifiers,
        ),
        Type::Ref(inner, qualifiers) => return TypeRef::Pointing(
            PointerAffinity::Reference,
            inner,
            *qualifiers,
        ),
        Type::RValueRef(inner, qualifiers) => return TypeRef::Pointing(
            PointerAffinity::RValueReference,
            inner,
            *qualifiers,
        ),
        Type::Array(length, inner, qualifiers) => return TypeRef::Array(
            *length,
            inner,
            *qualifiers,
        ),
        Type::NonMemberFunction(convention, parameters, qualifiers, returned) => {
            return TypeRef::Function(FunctionRef {
                convention: node_convention(*convention),
                parameters,
                qualifiers: *qualifiers,
                returned,
            });
        }
        Type::MemberFunction(class, convention, parameters, qualifiers, returned) => {
            let function = FunctionRef {
                convention: node_convention(*convention),
                parameters,
                qualifiers: *qualifiers,
                returned,
            };
            return TypeRef::MemberFunction(*class, function);
        }
        Type::MemberFunctionPointer(symbol, class, convention, parameters, qualifiers, returned) => {
            let function = FunctionRef {
                convention: node_convention(*convention),
                parameters,
                qualifiers: *qualifiers,
                returned,
            };
            return TypeRef::MemberPointer(symbol, *class, function);
        }
        Type::Var(inner, kind, qualifiers) => return TypeRef::Variable(inner, *kind, *qualifiers),
        Type::CXXVFTable(scope, qualifiers) => return TypeRef::Table(
            SpecialTableKind::Functions,
            scope,
            *qualifiers,
        ),
        Type::CXXVBTable(scope, qualifiers) => return TypeRef::Table(
            SpecialTableKind::Bases,
            scope,
            *qualifiers,
        ),
        Type::VCallThunk(number, convention) => {
            return TypeRef::VcallThunk(*number, node_convention(*convention));
        }
    }));
    TypeRef::Base(base, qualifiers)
}
