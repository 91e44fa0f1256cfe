//! Pushes the parts of types.
#![tactic(auto, using(crate::proofs::Items::pushed), unfolding(crate::specs::TreeText::type_text, crate::specs::Items::item_text, msvc_nodes::specs::NodeView::type_of))]

ghost use Rattle.std.specs.Prelude.{◌++◌, OnOk, codes};
ghost use Rattle.msvc_nodes.specs.NodeView.{name_of, names_in, type_of};
ghost use Rattle.msvc_nodes.specs.Trees as tree;
ghost use Rattle.msvc_debug.specs.Items.{Pushes, member_of, signature_of};
ghost use Rattle.msvc_debug.specs.TreeText as spec;
ghost use Rattle.msvc_debug.specs.Words.{bracketed};

use crate::item::{Item, push};
use crate::parts::{
    push_inside, push_numbered, push_opening, push_qualified, push_scope, push_shape, push_spaced,
    push_symbol, push_types, push_word,
};
use crate::words::{
    base_word, convention_word, mark_word, numbered_word, plain_word, table_word, tag_word,
    variable_word,
};
use msvc_nodes::flags::StorageClass;
use msvc_nodes::kinds::{Convention, PrimitiveKind, SpecialTableKind, TagKind, VarStorageKind};
use msvc_nodes::nodes::{Function, Scope, Symbol, Type};
use std::alloc::{AllocError, Allocator};

/// Pushes a type.
pub(crate) fn push_type<'a, 'b, S: Allocator>(
    stack: &mut Vec<Item<'a, 'b>, S>,
    shown: &Type<'a, 'b>,
) -> Result<(), AllocError>
    ensures { OnOk result (Pushes (spec.type_text (type_of shown.now)) stack.old.items stack.new.items) }
{
    match shown {
        Type::Plain(plain) => push_word(stack, plain_word(*plain)),
        Type::Base(base, set) => push_base(stack, *base, *set),
        Type::Tagged(tag, set, symbol) => push_tagged(stack, *tag, *set, *symbol),
        Type::Numbered(kind, number) => push_numbered(stack, numbered_word(*kind), *number),
        Type::ConstantString(bytes) => push_literal(stack, *bytes),
        Type::Pointing(affinity, set, inner) => {
            push_qualified(stack, mark_word(*affinity), *set, *inner)
        }
        Type::Array(length, set, inner) => push_array(stack, *length, *set, *inner),
        Type::Function(function) => push_function(stack, *function),
        Type::MemberFunction(function) => push_member_function(stack, *function),
        Type::MemberPointer(class, function) => push_member_pointer(stack, *class, *function),
        Type::Variable(kind, set, inner) => push_variable(stack, *kind, *set, *inner),
        Type::Table(table, set, scope) => push_table(stack, *table, *set, *scope),
        Type::VcallThunk(offset, convention) => push_thunk(stack, *offset, *convention),
        Type::Shape(shape) => push_shape(stack, *shape),
    }
}

/// Pushes a base type with its qualifiers.
fn push_base<'a, 'b, S: Allocator>(
    stack: &mut Vec<Item<'a, 'b>, S>,
    base: PrimitiveKind,
    set: StorageClass,
) -> Result<(), AllocError>
    ensures { OnOk result (Pushes (spec.type_text (tree.base base set.0)) stack.old.items stack.new.items) }
{
    push_word(stack, base_word(base))?;
    push(stack, Item::Qualifiers(set))
}

/// Pushes a named type with its qualifiers.
fn push_tagged<'a, 'b, S: Allocator>(
    stack: &mut Vec<Item<'a, 'b>, S>,
    tag: TagKind,
    set: StorageClass,
    symbol: &Symbol<'a, 'b>,
) -> Result<(), AllocError>
    ensures { OnOk result (Pushes (spec.type_text (tree.tagged tag (name_of symbol.now.name.now)
        (names_in symbol.now.scope.now) set.0)) stack.old.items stack.new.items) }
{
    push_word(stack, ")")?;
    push_symbol(stack, symbol)?;
    push(stack, Item::Qualifiers(set))?;
    push_opening(stack, tag_word(tag))
}

/// Pushes the bytes of a string constant.
fn push_literal<'a, 'b, S: Allocator>(
    stack: &mut Vec<Item<'a, 'b>, S>,
    bytes: &'b [u8],
) -> Result<(), AllocError>
    ensures { OnOk result (Pushes (spec.type_text (tree.constant_string bytes.now)) stack.old.items stack.new.items) }
{
    push_word(stack, ")")?;
    push(stack, Item::Literal(bytes))?;
    push_opening(stack, "ConstantString")
}

/// Pushes an array: the length of its outermost level, its qualifiers and its elements.
fn push_array<'a, 'b, S: Allocator>(
    stack: &mut Vec<Item<'a, 'b>, S>,
    length: i32,
    set: StorageClass,
    inner: &'b Type<'a, 'b>,
) -> Result<(), AllocError>
    ensures { OnOk result (Pushes (spec.type_text (tree.array length (type_of inner.now) set.0))
        stack.old.items stack.new.items) }
{
    push_inside(stack, set, inner)?;
    push_spaced(stack, length)?;
    push_opening(stack, "Array")
}

/// Pushes a variable: who may name it and where it lives, its storage class and its type.
fn push_variable<'a, 'b, S: Allocator>(
    stack: &mut Vec<Item<'a, 'b>, S>,
    kind: VarStorageKind,
    set: StorageClass,
    inner: &'b Type<'a, 'b>,
) -> Result<(), AllocError>
    ensures { OnOk result (Pushes (spec.type_text (tree.variable (type_of inner.now) kind set.0))
        stack.old.items stack.new.items) }
{
    push_inside(stack, set, inner)?;
    push_word(stack, " ")?;
    push_word(stack, variable_word(kind))?;
    push_opening(stack, "Var")
}

/// Pushes a table with its qualifiers and the scope of the base that it is for.
fn push_table<'a, 'b, S: Allocator>(
    stack: &mut Vec<Item<'a, 'b>, S>,
    table: SpecialTableKind,
    set: StorageClass,
    scope: &Scope<'a, 'b>,
) -> Result<(), AllocError>
    ensures { OnOk result (Pushes (spec.type_text (tree.table table (names_in scope.now.names.now) set.0))
        stack.old.items stack.new.items) }
{
    push_word(stack, ")")?;
    push_scope(stack, scope.names)?;
    push(stack, Item::Qualifiers(set))?;
    push_opening(stack, table_word(table))
}

/// Pushes a thunk of a virtual call.
fn push_thunk<'a, 'b, S: Allocator>(
    stack: &mut Vec<Item<'a, 'b>, S>,
    offset: i32,
    convention: Convention,
) -> Result<(), AllocError>
    ensures { OnOk result (Pushes (spec.type_text (tree.vcall_thunk offset convention))
        stack.old.items stack.new.items) }
{
    push_word(stack, ")")?;
    push_word(stack, convention_word(convention))?;
    push_spaced(stack, offset)?;
    push_opening(stack, "VCallThunk")
}

/// Pushes the convention of a function, its qualifiers, its parameters in square brackets, and what it returns.
fn push_signature<'a, 'b, S: Allocator>(
    stack: &mut Vec<Item<'a, 'b>, S>,
    function: &Function<'a, 'b>,
) -> Result<(), AllocError>
    ensures { OnOk result (Pushes (signature_of function.now) stack.old.items stack.new.items) }
{
    push(stack, Item::Type(function.returned))?;
    push_word(stack, "] ")?;
    push_types(stack, function.parameters)?;
    push_word(stack, "[")?;
    push(stack, Item::Qualifiers(function.qualifiers))?;
    push_word(stack, " ")?;
    push_word(stack, convention_word(function.convention))
}

/// Pushes a plain function. Its class is empty, and no tree has it.
fn push_function<'a, 'b, S: Allocator>(
    stack: &mut Vec<Item<'a, 'b>, S>,
    function: &Function<'a, 'b>,
) -> Result<(), AllocError>
    ensures { OnOk result (Pushes (bracketed (codes "NonMemberFunction") (signature_of function.now))
        stack.old.items stack.new.items) }
{
    push_word(stack, ")")?;
    push_signature(stack, function)?;
    push_opening(stack, "NonMemberFunction")
}

/// Pushes the names of the class of a member function, and its other parts.
fn push_member<'a, 'b, S: Allocator>(
    stack: &mut Vec<Item<'a, 'b>, S>,
    function: &Function<'a, 'b>,
) -> Result<(), AllocError>
    ensures { OnOk result (Pushes (member_of function.now) stack.old.items stack.new.items) }
{
    push_signature(stack, function)?;
    push(stack, Item::Class(function.class))
}

/// Pushes a member function.
fn push_member_function<'a, 'b, S: Allocator>(
    stack: &mut Vec<Item<'a, 'b>, S>,
    function: &Function<'a, 'b>,
) -> Result<(), AllocError>
    ensures { OnOk result (Pushes (bracketed (codes "MemberFunction") (member_of function.now))
        stack.old.items stack.new.items) }
{
    push_word(stack, ")")?;
    push_member(stack, function)?;
    push_opening(stack, "MemberFunction")
}

/// Pushes a pointer to a member function: the class whose member it is, and the function.
fn push_member_pointer<'a, 'b, S: Allocator>(
    stack: &mut Vec<Item<'a, 'b>, S>,
    class: &Symbol<'a, 'b>,
    function: &Function<'a, 'b>,
) -> Result<(), AllocError>
    ensures { OnOk result (Pushes (bracketed (codes "MemberFunctionPointer")
        (spec.scope_text (names_in class.now.scope.now) ++ spec.name_text (name_of class.now.name.now) ++ codes " "
        ++ member_of function.now)) stack.old.items stack.new.items) }
{
    push_word(stack, ")")?;
    push_member(stack, function)?;
    push_word(stack, " ")?;
    push_symbol(stack, class)?;
    push_opening(stack, "MemberFunctionPointer")
}
