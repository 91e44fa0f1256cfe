//! Converts nodes to trees, in one pass. A tree borrows nothing from the arena: names are parts of the text that was
//! read, digits and string literals are copied. Contracts state that the definitions view a tree and its node as the
//! same tree.

ghost use Rattle.std.specs.Prelude.{◌≡◌, IfOk, Some};
ghost use Rattle.msvc_nodes.specs.NodeView.{name_of as node_name, type_of as node_type, names_in as node_names};
ghost use Rattle.msvc_nodes.specs.NodeView.{types_in as node_types, typed_symbol_of};
ghost use Rattle.msvc_nodes.specs.Trees.{anonymous, base_class_descriptor};
ghost use Rattle.msvc_tree.specs.Ownable.{IsOwnable, IsOwnableName, IsOwnableNames, IsOwnableType, IsOwnableTypes};
ghost use Rattle.msvc_tree.specs.View.{name_of, type_of, scope_of, params_of, tree_of};

use crate::kinds::{
    base_type, guard_operator, numbered_type, plain_operator, plain_type, vcall_thunk_type,
};
use crate::parts::{
    array_from, constant_string_from, function_from, member_function_from, member_pointer_from,
    nested_from, pointing_from, symbol_from, table_from, tagged_from, template_from,
    type_descriptor_from, typed_symbol_from, variable_from,
};
use crate::results::{box_ok, push_ok};
use crate::tree::{Name, NameSequence, Operator, Params, ParseResult, Symbol, Type};
use msvc_nodes::nodes;
use std::alloc::{AllocError, Global};

/// Converts the nodes of a symbol to a tree, which does not borrow from their arena.
///
/// The nodes must have no [`nodes::Shape`], and no convention that [`crate::tree::CallingConv`] lacks, since owned trees
/// can't hold these. The crate's grammar makes no such nodes.
///
/// # Errors
///
/// Fails if an allocation fails.
#[cycle(to_tree)]
pub fn nodes_to_tree<'a, 'b>(
    alloc: Global,
    whole: &'b nodes::TypedSymbol<'a, 'b>,
) -> Result<ParseResult<'a>, AllocError>
    requires { IsOwnable (typed_symbol_of whole.now) }
    ensures { IfOk result (λ r. tree_of r ≡ typed_symbol_of whole.now) }
{
    typed_symbol_from(
        symbol_to_tree(alloc, &whole.symbol),
        type_to_tree(alloc, whole.symbol_type),
    )
}

/// Converts a name in its scope.
#[cycle(to_tree)]
#[inline(always)]
pub(crate) fn symbol_to_tree<'a, 'b>(
    alloc: Global,
    symbol: &'b nodes::Symbol<'a, 'b>,
) -> Result<Symbol<'a>, AllocError>
    requires name { IsOwnableName (node_name symbol.now.name.now) }
    requires scope { IsOwnableNames (node_names symbol.now.scope.now) }
    ensures name { IfOk result (λ s. name_of s.name ≡ node_name symbol.now.name.now) }
    ensures scope { IfOk result (λ s. scope_of s.scope ≡ node_names symbol.now.scope.now) }
{
    symbol_from(
        name_to_tree(alloc, symbol.name),
        names_to_tree(alloc, symbol.scope),
    )
}

/// Converts a name: one of the source where this is called, any other by a call.
#[cycle(to_tree)]
pub(crate) fn name_to_tree<'a, 'b>(
    alloc: Global,
    name: &'b nodes::Name<'a, 'b>,
) -> Result<Name<'a>, AllocError>
    requires { IsOwnableName (node_name name.now) }
    ensures { IfOk result (λ n. name_of n ≡ node_name name.now) }
{
    match name {
        nodes::Name::Source(text) => Ok(Name::NonTemplate(*text)),
        _ => any_name_to_tree(alloc, name),
    }
}

/// Converts any name.
#[cycle(to_tree)]
fn any_name_to_tree<'a, 'b>(
    alloc: Global,
    name: &'b nodes::Name<'a, 'b>,
) -> Result<Name<'a>, AllocError>
    requires { IsOwnableName (node_name name.now) }
    ensures { IfOk result (λ n. name_of n ≡ node_name name.now) }
{
    match name {
        nodes::Name::Source(text) => Ok(Name::NonTemplate(*text)),
        nodes::Name::Interface(text) => Ok(Name::AsInterface(*text)),
        nodes::Name::Md5(digits) => Ok(Name::Md5(*digits)),
        nodes::Name::Anonymous => Ok(Name::AnonymousNamespace(None)),
        nodes::Name::AnonymousDigits(digits) => digits_to_tree(alloc, *digits),
        nodes::Name::Plain(operator) => Ok(Name::Operator(plain_operator(*operator))),
        nodes::Name::Guard(guard, number) => Ok(Name::Operator(guard_operator(*guard, *number))),
        nodes::Name::TypeDescriptor(qualifiers, described) => {
            type_descriptor_from(*qualifiers, boxed_to_tree(alloc, *described))
        }
        nodes::Name::BaseClassDescriptor(place) => Ok(base_class(*place)),
        nodes::Name::Template(template) => template_from(
            box_ok(alloc, name_to_tree(alloc, template.name)),
            types_to_tree(alloc, template.arguments),
        ),
        nodes::Name::Discriminator(number) => Ok(Name::Discriminator(*number)),
        nodes::Name::Nested(symbol) => nested_from(box_ok(alloc, nodes_to_tree(alloc, *symbol))),
        nodes::Name::Shape(_) => unreachable!(),
    }
}

/// Converts a type.
#[cycle(to_tree)]
pub(crate) fn type_to_tree<'a, 'b>(
    alloc: Global,
    node: &'b nodes::Type<'a, 'b>,
) -> Result<Type<'a>, AllocError>
    requires { IsOwnableType (node_type node.now) }
    ensures { IfOk result (λ t. type_of t ≡ node_type node.now) }
{
    match node {
        nodes::Type::Plain(plain) => Ok(plain_type(*plain)),
        nodes::Type::Base(base, qualifiers) => Ok(base_type(*base, *qualifiers)),
        nodes::Type::Tagged(tag, qualifiers, symbol) => {
            tagged_from(*tag, symbol_to_tree(alloc, *symbol), *qualifiers)
        }
        nodes::Type::Numbered(kind, number) => Ok(numbered_type(*kind, *number)),
        nodes::Type::ConstantString(text) => constant_string_from(copied_bytes(alloc, *text)),
        nodes::Type::Pointing(affinity, qualifiers, inner) => {
            pointing_from(*affinity, boxed_to_tree(alloc, *inner), *qualifiers)
        }
        nodes::Type::Array(length, qualifiers, inner) => {
            array_from(*length, boxed_to_tree(alloc, *inner), *qualifiers)
        }
        nodes::Type::Function(function) => function_from(
            function.convention,
            types_to_tree(alloc, function.parameters),
            function.qualifiers,
            boxed_to_tree(alloc, function.returned),
        ),
        nodes::Type::MemberFunction(function) => member_function_from(
            function.class,
            function.convention,
            types_to_tree(alloc, function.parameters),
            function.qualifiers,
            boxed_to_tree(alloc, function.returned),
        ),
        nodes::Type::MemberPointer(symbol, function) => member_pointer_from(
            symbol_to_tree(alloc, *symbol),
            function.class,
            function.convention,
            types_to_tree(alloc, function.parameters),
            function.qualifiers,
            boxed_to_tree(alloc, function.returned),
        ),
        nodes::Type::Variable(kind, qualifiers, inner) => {
            variable_from(boxed_to_tree(alloc, *inner), *kind, *qualifiers)
        }
        nodes::Type::Table(table, qualifiers, scope) => {
            table_from(*table, names_to_tree(alloc, scope.names), *qualifiers)
        }
        nodes::Type::VcallThunk(number, convention) => {
            Ok(vcall_thunk_type(*number, *convention))
        }
        nodes::Type::Shape(_) => unreachable!(),
    }
}

/// Converts a type and boxes it.
#[cycle(to_tree)]
fn boxed_to_tree<'a, 'b>(
    alloc: Global,
    node: &'b nodes::Type<'a, 'b>,
) -> Result<Box<Type<'a>>, AllocError>
    requires { IsOwnableType (node_type node.now) }
    ensures { IfOk result (λ b. type_of b.value ≡ node_type node.now) }
{
    box_ok(alloc, type_to_tree(alloc, node))
}

/// Converts the names of a scope.
#[cycle(to_tree)]
#[inline(always)]
pub(crate) fn names_to_tree<'a, 'b>(
    alloc: Global,
    names: &'b [&'b nodes::Name<'a, 'b>],
) -> Result<NameSequence<'a>, AllocError>
    requires { IsOwnableNames (node_names names.now) }
    ensures { IfOk result (λ s. scope_of s ≡ node_names names.now) }
{
    let mut made = Vec::with_capacity(alloc, names.len())?;
    for name in names {
        push_ok(&mut made, name_to_tree(alloc, *name))?;
    }
    Ok(NameSequence { names: made })
}

/// Converts a list of types.
#[cycle(to_tree)]
#[inline(always)]
pub(crate) fn types_to_tree<'a, 'b>(
    alloc: Global,
    types: &'b [&'b nodes::Type<'a, 'b>],
) -> Result<Params<'a>, AllocError>
    requires { IsOwnableTypes (node_types types.now) }
    ensures { IfOk result (λ p. params_of p ≡ node_types types.now) }
{
    let mut made = Vec::with_capacity(alloc, types.len())?;
    for item in types {
        push_ok(&mut made, type_to_tree(alloc, *item))?;
    }
    Ok(Params { types: made })
}

/// Makes the descriptor of a base class of its place.
fn base_class<'a>(place: &nodes::BaseClass) -> Name<'a>
    ensures { name_of result
        ≡ base_class_descriptor place.now.member place.now.pointer place.now.entry place.now.attributes }
{
    Name::Operator(Operator::RTTIBaseClassDescriptor(
        place.member,
        place.pointer,
        place.entry,
        place.attributes,
    ))
}

/// Makes an anonymous namespace of its digits, which are copied.
fn digits_to_tree<'a>(alloc: Global, digits: &str) -> Result<Name<'a>, AllocError>
    ensures { IfOk result (λ n. name_of n ≡ anonymous (Some digits.now)) }
{
    Ok(Name::AnonymousNamespace(Some(String::from_str(alloc, digits)?)))
}

/// Copies the bytes of a string literal.
fn copied_bytes(alloc: Global, bytes: &[u8]) -> Result<Vec<u8>, AllocError>
    ensures { IfOk result (λ v. v.items ≡ bytes.now) }
{
    bytes.to_vec(alloc)
}
