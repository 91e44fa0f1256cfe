//! Makes a type or a name of parts that steps returned; returns the first error if one failed. The results are opened
//! here, and not in the arms of the `match` that calls the steps: there each arm would have to drop what it holds, and
//! the proof would take twice as long.

ghost use Rattle.std.specs.Prelude.{◌≡◌, IfOk};
ghost use Rattle.std.specs.Result.{IsOkAnd};
ghost use Rattle.msvc_nodes.specs.Trees.{array, constant_string, function, member_function, member_pointer, pointing};
ghost use Rattle.msvc_nodes.specs.Trees.{nested, table, tagged, template, type_descriptor, variable};
ghost use Rattle.msvc_tree.specs.Ownable.{IsOwnableConvention};
ghost use Rattle.msvc_tree.specs.View.{name_of, params_of, scope_of, tree_of, type_of};

use crate::kinds::{owned_convention, pointing_type, table_type, tagged_type};
use crate::results::pair_ok;
use crate::tree::{
    Name, NameSequence, Operator, Params, ParseResult, Symbol, Type, VarStorageKind,
};
use msvc_nodes::flags::{FuncClass, StorageClass};
use msvc_nodes::kinds::{Convention, PointerAffinity, SpecialTableKind, TagKind};
use std::alloc::AllocError;

/// Makes a symbol with its type.
pub(crate) fn typed_symbol_from<'a>(
    symbol: Result<Symbol<'a>, AllocError>,
    symbol_type: Result<Type<'a>, AllocError>,
) -> Result<ParseResult<'a>, AllocError>
    ensures { IfOk result (λ r. IsOkAnd symbol.entry (λ s. IsOkAnd symbol_type.entry (λ t.
        (name_of r.symbol.name ≡ name_of s.name) × (scope_of r.symbol.scope ≡ scope_of s.scope)
        × (type_of r.symbol_type ≡ type_of t)))) }
{
    let (symbol, symbol_type) = pair_ok(symbol, symbol_type)?;
    Ok(ParseResult {
        symbol,
        symbol_type,
    })
}

/// Makes a name in its scope.
pub(crate) fn symbol_from<'a>(
    name: Result<Name<'a>, AllocError>,
    scope: Result<NameSequence<'a>, AllocError>,
) -> Result<Symbol<'a>, AllocError>
    ensures { IfOk result (λ s. IsOkAnd name.entry (λ n. IsOkAnd scope.entry (λ ns.
        (name_of s.name ≡ name_of n) × (scope_of s.scope ≡ scope_of ns)))) }
{
    let (name, scope) = pair_ok(name, scope)?;
    Ok(Symbol { name, scope })
}

/// Makes a class, struct, union, enumeration or alias of its name in its scope.
pub(crate) fn tagged_from<'a>(
    tag: TagKind,
    symbol: Result<Symbol<'a>, AllocError>,
    qualifiers: StorageClass,
) -> Result<Type<'a>, AllocError>
    ensures { IfOk result (λ t. IsOkAnd symbol.entry (λ s. type_of t
        ≡ tagged tag (name_of s.name) (scope_of s.scope) qualifiers.0)) }
{
    Ok(tagged_type(tag, symbol?, qualifiers))
}

/// Makes a string literal of its bytes.
pub(crate) fn constant_string_from<'a>(
    text: Result<Vec<u8>, AllocError>,
) -> Result<Type<'a>, AllocError>
    ensures { IfOk result (λ t. IsOkAnd text (λ v. type_of t ≡ constant_string v.items)) }
{
    Ok(Type::ConstantString(text?))
}

/// Makes a pointer or a reference of the type that it points to.
pub(crate) fn pointing_from<'a>(
    affinity: PointerAffinity,
    inner: Result<Box<Type<'a>>, AllocError>,
    qualifiers: StorageClass,
) -> Result<Type<'a>, AllocError>
    ensures { IfOk result (λ t. IsOkAnd inner.entry
        (λ b. type_of t ≡ pointing affinity (type_of b.value) qualifiers.0)) }
{
    Ok(pointing_type(affinity, inner?, qualifiers))
}

/// Makes an array of its length and its elements.
pub(crate) fn array_from<'a>(
    length: i32,
    inner: Result<Box<Type<'a>>, AllocError>,
    qualifiers: StorageClass,
) -> Result<Type<'a>, AllocError>
    ensures { IfOk result (λ t. IsOkAnd inner.entry (λ b. type_of t ≡ array length (type_of b.value) qualifiers.0)) }
{
    Ok(Type::Array(length, inner?, qualifiers))
}

/// Makes a plain function of its parameters and the type that it returns.
pub(crate) fn function_from<'a>(
    convention: Convention,
    parameters: Result<Params<'a>, AllocError>,
    qualifiers: StorageClass,
    returned: Result<Box<Type<'a>>, AllocError>,
) -> Result<Type<'a>, AllocError>
    requires { IsOwnableConvention convention }
    ensures { IfOk result (λ t. IsOkAnd parameters.entry (λ p. IsOkAnd returned.entry (λ b. type_of t
        ≡ function convention (params_of p) qualifiers.0 (type_of b.value)))) }
{
    let (parameters, returned) = pair_ok(parameters, returned)?;
    Ok(Type::NonMemberFunction(
        owned_convention(convention),
        parameters,
        qualifiers,
        returned,
    ))
}

/// Makes a member function of its parameters and the type that it returns.
pub(crate) fn member_function_from<'a>(
    class: FuncClass,
    convention: Convention,
    parameters: Result<Params<'a>, AllocError>,
    qualifiers: StorageClass,
    returned: Result<Box<Type<'a>>, AllocError>,
) -> Result<Type<'a>, AllocError>
    requires { IsOwnableConvention convention }
    ensures { IfOk result (λ t. IsOkAnd parameters.entry (λ p. IsOkAnd returned.entry (λ b. type_of t
        ≡ member_function class.0 convention (params_of p) qualifiers.0 (type_of b.value)))) }
{
    let (parameters, returned) = pair_ok(parameters, returned)?;
    Ok(Type::MemberFunction(
        class,
        owned_convention(convention),
        parameters,
        qualifiers,
        returned,
    ))
}

/// Makes a pointer to a member function of its class, its parameters and the type that it returns.
pub(crate) fn member_pointer_from<'a>(
    pointed: Result<Symbol<'a>, AllocError>,
    class: FuncClass,
    convention: Convention,
    parameters: Result<Params<'a>, AllocError>,
    qualifiers: StorageClass,
    returned: Result<Box<Type<'a>>, AllocError>,
) -> Result<Type<'a>, AllocError>
    requires { IsOwnableConvention convention }
    ensures { IfOk result (λ t. IsOkAnd pointed.entry (λ s. IsOkAnd parameters.entry (λ p. IsOkAnd returned.entry (λ b.
        type_of t ≡ member_pointer (name_of s.name) (scope_of s.scope) class.0 convention (params_of p) qualifiers.0
        (type_of b.value))))) }
{
    let (pointed, (parameters, returned)) = pair_ok(pointed, pair_ok(parameters, returned))?;
    Ok(Type::MemberFunctionPointer(
        pointed,
        class,
        owned_convention(convention),
        parameters,
        qualifiers,
        returned,
    ))
}

/// Makes a variable of its type.
pub(crate) fn variable_from<'a>(
    inner: Result<Box<Type<'a>>, AllocError>,
    kind: VarStorageKind,
    qualifiers: StorageClass,
) -> Result<Type<'a>, AllocError>
    ensures { IfOk result (λ t. IsOkAnd inner.entry (λ b. type_of t ≡ variable (type_of b.value) kind qualifiers.0)) }
{
    Ok(Type::Var(inner?, kind, qualifiers))
}

/// Makes a table of virtual functions or bases of the scope of the base that it is for.
pub(crate) fn table_from<'a>(
    which: SpecialTableKind,
    scope: Result<NameSequence<'a>, AllocError>,
    qualifiers: StorageClass,
) -> Result<Type<'a>, AllocError>
    ensures { IfOk result (λ t. IsOkAnd scope.entry (λ s. type_of t ≡ table which (scope_of s) qualifiers.0)) }
{
    Ok(table_type(which, scope?, qualifiers))
}

/// Makes a template of its name and its arguments.
pub(crate) fn template_from<'a>(
    name: Result<Box<Name<'a>>, AllocError>,
    arguments: Result<Params<'a>, AllocError>,
) -> Result<Name<'a>, AllocError>
    ensures { IfOk result (λ n. IsOkAnd name.entry (λ b. IsOkAnd arguments.entry (λ p. name_of n
        ≡ template (name_of b.value) (params_of p)))) }
{
    let (name, arguments) = pair_ok(name, arguments)?;
    Ok(Name::Template(name, arguments))
}

/// Makes a scope of a symbol with its type.
pub(crate) fn nested_from<'a>(
    symbol: Result<Box<ParseResult<'a>>, AllocError>,
) -> Result<Name<'a>, AllocError>
    ensures { IfOk result (λ n. IsOkAnd symbol.entry (λ b. name_of n
        ≡ nested (tree_of b.value).name (tree_of b.value).scope (tree_of b.value).symbol_type)) }
{
    Ok(Name::ParsedName(symbol?))
}

/// Makes the descriptor of a type.
pub(crate) fn type_descriptor_from<'a>(
    qualifiers: StorageClass,
    described: Result<Box<Type<'a>>, AllocError>,
) -> Result<Name<'a>, AllocError>
    ensures { IfOk result (λ n. IsOkAnd described.entry (λ b. name_of n
        ≡ type_descriptor qualifiers.0 (type_of b.value))) }
{
    Ok(Name::Operator(Operator::RTTITypeDescriptor(qualifiers, described?)))
}
