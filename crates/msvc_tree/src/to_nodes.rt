//! Converts trees to nodes in an arena, in one pass. Texts are not copied: nodes borrow them from the tree. Contracts
//! state that the definitions view a node and its tree as the same tree.

ghost use Rattle.std.specs.Prelude.{◌≡◌, IfOk, option_map, string_bytes};
ghost use Rattle.msvc_nodes.specs.NodeView.{name_of as node_name, type_of as node_type, names_in as node_names};
ghost use Rattle.msvc_nodes.specs.NodeView.{types_in as node_types, typed_symbol_of};
ghost use Rattle.msvc_nodes.specs.Trees.{anonymous, spelled};
ghost use Rattle.msvc_tree.specs.View.{name_of, operator_of, type_of, scope_of, params_of, tree_of};

use crate::tree::{Name, NameSequence, Operator, Params, ParseResult, Symbol, Type};
use crate::variants::{
    FunctionRef, NameRef, OperatorRef, TypeRef, name_ref, operator_ref, type_ref,
};
use alloc_fuse::Fuse;
use bitflags::Flags;
use bumpalo::Bump;
use bumpalo::collections::into_bump_slice;
use msvc_nodes::flags::FuncClass;
use msvc_nodes::kinds::Spelling;
use msvc_nodes::list::List;
use msvc_nodes::nodes::{self, Function, Scope, Template, TypedSymbol};
use msvc_nodes::sizes::TREE_ARENA;
use std::alloc::{AllocError, Global};

/// Makes an arena for the nodes of most trees. Fails only when it is out of memory.
pub fn arena_for_nodes(alloc: Global) -> Result<Bump<Fuse>, AllocError> {
    Bump::try_with_capacity(Fuse::new(alloc), TREE_ARENA)
}

/// Converts the tree of a symbol to nodes in `arena`. Fails only when it is out of memory.
#[cycle(to_nodes)]
pub fn tree_to_nodes<'a, 'b>(
    arena: &'b Bump<Fuse>,
    tree: &'b ParseResult<'a>,
) -> Result<TypedSymbol<'a, 'b>, AllocError>
    ensures { IfOk result (λ w. typed_symbol_of w ≡ tree_of tree.now) }
{
    let symbol = symbol_to_nodes(arena, &tree.symbol)?;
    let symbol_type = type_to_nodes(arena, &tree.symbol_type)?;
    Ok(TypedSymbol {
        symbol,
        symbol_type,
    })
}

/// Converts a name in its scope to nodes.
#[cycle(to_nodes)]
#[inline(always)]
pub(crate) fn symbol_to_nodes<'a, 'b>(
    arena: &'b Bump<Fuse>,
    tree: &'b Symbol<'a>,
) -> Result<nodes::Symbol<'a, 'b>, AllocError>
    ensures name { IfOk result (λ s. node_name s.name.now ≡ name_of tree.now.name) }
    ensures scope { IfOk result (λ s. node_names s.scope.now ≡ scope_of tree.now.scope) }
{
    let name = name_to_nodes(arena, &tree.name)?;
    let scope = names_to_nodes(arena, &tree.scope)?;
    Ok(nodes::Symbol {
        name,
        scope: scope.items,
    })
}

/// Converts a name to a node: one of the source at once, any other by a call.
#[cycle(to_nodes)]
#[inline(never)]
pub(crate) fn name_to_nodes<'a, 'b>(
    arena: &'b Bump<Fuse>,
    tree: &'b Name<'a>,
) -> Result<&'b nodes::Name<'a, 'b>, AllocError>
    ensures { IfOk result (λ n. node_name n.now ≡ name_of tree.now) }
{
    match tree {
        Name::NonTemplate(text) => put_name(arena, nodes::Name::Source(*text)),
        _ => any_name_to_nodes(arena, tree),
    }
}

/// Converts any name to a node.
#[cycle(to_nodes)]
#[inline(never)]
fn any_name_to_nodes<'a, 'b>(
    arena: &'b Bump<Fuse>,
    tree: &'b Name<'a>,
) -> Result<&'b nodes::Name<'a, 'b>, AllocError>
    ensures { IfOk result (λ n. node_name n.now ≡ name_of tree.now) }
{
    match name_ref(tree) {
        NameRef::Spelled(how, text) => put_name(arena, spelled_node(how, text)),
        NameRef::Operator(operator) => operator_to_nodes(arena, operator),
        NameRef::Template(name, arguments) => {
            let name = name_to_nodes(arena, name)?;
            let arguments = types_to_nodes(arena, arguments)?.items;
            let template = put(arena, Template { name, arguments })?;
            put_name(arena, nodes::Name::Template(template))
        }
        NameRef::Discriminator(number) => put_name(arena, nodes::Name::Discriminator(number)),
        NameRef::Nested(symbol) => {
            let symbol = put(arena, tree_to_nodes(arena, symbol)?)?;
            put_name(arena, nodes::Name::Nested(symbol))
        }
        NameRef::Anonymous(digits) => put_name(arena, anonymous_node(digits)),
    }
}

/// Converts an operator to the node of a name.
#[cycle(to_nodes)]
fn operator_to_nodes<'a, 'b>(
    arena: &'b Bump<Fuse>,
    tree: &'b Operator<'a>,
) -> Result<&'b nodes::Name<'a, 'b>, AllocError>
    ensures { IfOk result (λ n. node_name n.now ≡ operator_of tree.now) }
{
    match operator_ref(tree) {
        OperatorRef::Plain(plain) => put_name(arena, nodes::Name::Plain(plain)),
        OperatorRef::Guard(guard, number) => put_name(arena, nodes::Name::Guard(guard, number)),
        OperatorRef::TypeDescriptor(qualifiers, described) => {
            let described = type_to_nodes(arena, described)?;
            put_name(arena, nodes::Name::TypeDescriptor(qualifiers, described))
        }
        OperatorRef::BaseClassDescriptor(place) => {
            let place = put(arena, place)?;
            put_name(arena, nodes::Name::BaseClassDescriptor(place))
        }
    }
}

/// Converts a type to a node.
#[cycle(to_nodes)]
pub(crate) fn type_to_nodes<'a, 'b>(
    arena: &'b Bump<Fuse>,
    tree: &'b Type<'a>,
) -> Result<&'b nodes::Type<'a, 'b>, AllocError>
    ensures { IfOk result (λ t. node_type t.now ≡ type_of tree.now) }
{
    match type_ref(tree) {
        TypeRef::Plain(plain) => put_type(arena, nodes::Type::Plain(plain)),
        TypeRef::Base(base, qualifiers) => put_type(arena, nodes::Type::Base(base, qualifiers)),
        TypeRef::Tagged(tag, symbol, qualifiers) => {
            let symbol = put(arena, symbol_to_nodes(arena, symbol)?)?;
            put_type(arena, nodes::Type::Tagged(tag, qualifiers, symbol))
        }
        TypeRef::Numbered(kind, number) => put_type(arena, nodes::Type::Numbered(kind, number)),
        TypeRef::ConstantString(text) => put_type(arena, nodes::Type::ConstantString(text)),
        TypeRef::Pointing(affinity, inner, qualifiers) => {
            let inner = type_to_nodes(arena, inner)?;
            put_type(arena, nodes::Type::Pointing(affinity, qualifiers, inner))
        }
        TypeRef::Array(length, inner, qualifiers) => {
            let inner = type_to_nodes(arena, inner)?;
            put_type(arena, nodes::Type::Array(length, qualifiers, inner))
        }
        TypeRef::Function(function) => {
            let function = function_to_nodes(arena, FuncClass::empty(), function)?;
            put_type(arena, nodes::Type::Function(function))
        }
        TypeRef::MemberFunction(class, function) => {
            let function = function_to_nodes(arena, class, function)?;
            put_type(arena, nodes::Type::MemberFunction(function))
        }
        TypeRef::MemberPointer(symbol, class, function) => {
            let symbol = put(arena, symbol_to_nodes(arena, symbol)?)?;
            let function = function_to_nodes(arena, class, function)?;
            put_type(arena, nodes::Type::MemberPointer(symbol, function))
        }
        TypeRef::Variable(inner, kind, qualifiers) => {
            let inner = type_to_nodes(arena, inner)?;
            put_type(arena, nodes::Type::Variable(kind, qualifiers, inner))
        }
        TypeRef::Table(table, scope, qualifiers) => {
            let names = names_to_nodes(arena, scope)?.items;
            let scope = put(arena, Scope { names })?;
            put_type(arena, nodes::Type::Table(table, qualifiers, scope))
        }
        TypeRef::VcallThunk(number, convention) => {
            put_type(arena, nodes::Type::VcallThunk(number, convention))
        }
    }
}

/// Converts a function to a node, with its class.
#[cycle(to_nodes)]
#[inline(always)]
fn function_to_nodes<'a, 'b>(
    arena: &'b Bump<Fuse>,
    class: FuncClass,
    tree: FunctionRef<'b, 'a>,
) -> Result<&'b Function<'a, 'b>, AllocError>
    ensures class { IfOk result (λ f. f.now.class.0 ≡ class.0) }
    ensures convention { IfOk result (λ f. f.now.convention ≡ tree.entry.convention) }
    ensures parameters { IfOk result (λ f. node_types f.now.parameters.now ≡ params_of tree.entry.parameters.now) }
    ensures qualifiers { IfOk result (λ f. f.now.qualifiers.0 ≡ tree.entry.qualifiers.0) }
    ensures returned { IfOk result (λ f. node_type f.now.returned.now ≡ type_of tree.entry.returned.now) }
{
    let parameters = types_to_nodes(arena, tree.parameters)?.items;
    let returned = type_to_nodes(arena, tree.returned)?;
    put(
        arena,
        Function {
            convention: tree.convention,
            class,
            qualifiers: tree.qualifiers,
            parameters,
            returned,
        },
    )
}

/// Converts the names of a scope to a list of nodes.
#[cycle(to_nodes)]
#[inline(always)]
pub(crate) fn names_to_nodes<'a, 'b>(
    arena: &'b Bump<Fuse>,
    tree: &'b NameSequence<'a>,
) -> Result<List<'b, &'b nodes::Name<'a, 'b>>, AllocError>
    ensures { IfOk result (λ l. node_names l.items.now ≡ scope_of tree.now) }
{
    let mut nodes = Vec::with_capacity(arena, tree.names.len())?;
    for name in &tree.names {
        nodes.push_reserved(name_to_nodes(arena, name)?);
    }
    Ok(List {
        items: into_bump_slice(nodes),
    })
}

/// Converts a list of types to a list of nodes.
#[cycle(to_nodes)]
#[inline(always)]
pub(crate) fn types_to_nodes<'a, 'b>(
    arena: &'b Bump<Fuse>,
    tree: &'b Params<'a>,
) -> Result<List<'b, &'b nodes::Type<'a, 'b>>, AllocError>
    ensures { IfOk result (λ l. node_types l.items.now ≡ params_of tree.now) }
{
    let mut nodes = Vec::with_capacity(arena, tree.types.len())?;
    for item in &tree.types {
        nodes.push_reserved(type_to_nodes(arena, item)?);
    }
    Ok(List {
        items: into_bump_slice(nodes),
    })
}

/// Moves a value into the arena.
fn put<'b, T: Copy>(arena: &'b Bump<Fuse>, node: T) -> Result<&'b T, AllocError>
    ensures { IfOk result (λ t. t.now ≡ node) }
{
    Ok(arena.try_alloc(node)?)
}

/// Moves the node of a name into the arena.
fn put_name<'a, 'b>(
    arena: &'b Bump<Fuse>,
    node: nodes::Name<'a, 'b>,
) -> Result<&'b nodes::Name<'a, 'b>, AllocError>
    ensures { IfOk result (λ n. node_name n.now ≡ node_name node.entry) }
{
    put(arena, node)
}

/// Moves the node of a type into the arena.
fn put_type<'a, 'b>(
    arena: &'b Bump<Fuse>,
    node: nodes::Type<'a, 'b>,
) -> Result<&'b nodes::Type<'a, 'b>, AllocError>
    ensures { IfOk result (λ t. node_type t.now ≡ node_type node.entry) }
{
    put(arena, node)
}

/// Makes the node of a name that is a text, by how it is spelled.
fn spelled_node<'a, 'b>(how: Spelling, text: &'a [u8]) -> nodes::Name<'a, 'b>
    ensures { node_name result ≡ spelled how text.now }
{
    match how {
        Spelling::Source => nodes::Name::Source(text),
        Spelling::Interface => nodes::Name::Interface(text),
        Spelling::Md5 => nodes::Name::Md5(text),
    }
}

/// Makes the node of an anonymous namespace, with its digits if it has them.
fn anonymous_node<'a, 'b>(digits: &'b Option<String>) -> nodes::Name<'a, 'b>
    ensures { node_name result ≡ anonymous (option_map string_bytes digits.now) }
{
    match digits {
        None => nodes::Name::Anonymous,
        Some(digits) => nodes::Name::AnonymousDigits(digits.as_str()),
    }
}
