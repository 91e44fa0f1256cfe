//! Equality of nodes: two are the same where they are seen as the same tree.
#![tactic(auto, using(crate::proofs::NodeViews::views), unfolding(crate::specs::NodeView::name_of, crate::specs::NodeView::type_of))]

ghost use Rattle.std.specs.Prelude.{◌≡◌, ◌↔◌, IsTrue};
ghost use Rattle.msvc_nodes.specs.Equality.{same_name as name_is, same_type as type_is};
ghost use Rattle.msvc_nodes.specs.NodeView.{name_of, type_of, names_in, types_in, typed_symbol_of};

use crate::flags::StorageClass;
use crate::kinds::{SpecialTableKind, TagKind};
use crate::nodes::{
    BaseClass, Function, Name, Number, Scope, Shape, Symbol, Template, Type, TypedSymbol,
};

/// Tests whether two names are seen as the same.
#[inline(always)]
pub fn is_same_name<'a, 'b>(left: &'b Name<'a, 'b>, right: &'b Name<'a, 'b>) -> bool
    ensures { result ≡ name_is (name_of left.now) (name_of right.now) }
{
    same_name_inline(left, right)
}

/// Does what [`same_name`] does, and compares names of the source, which most are, in the caller's own code.
#[inline(always)]
fn same_name_inline<'a, 'b>(left: &'b Name<'a, 'b>, right: &'b Name<'a, 'b>) -> bool
    ensures { IsTrue result ↔ (name_of left.now ≡ name_of right.now) }
{
    match left {
        Name::Source(text) => match right {
            Name::Source(other) => same_text(*text, *other),
            _ => false,
        },
        _ => same_name(left, right),
    }
}

/// Tests whether two types are seen as the same.
pub fn is_same_type<'a, 'b>(left: &'b Type<'a, 'b>, right: &'b Type<'a, 'b>) -> bool
    ensures { result ≡ type_is (type_of left.now) (type_of right.now) }
{
    same_type(left, right)
}

/// Tests whether two texts have the same bytes.
fn same_text(left: &[u8], right: &[u8]) -> bool
    ensures { IsTrue result ↔ (left.now ≡ right.now) }
{
    left == right
}

/// Tests whether two anonymous namespaces have the same digits.
fn same_digits(digits: &str, others: &str) -> bool
    ensures { IsTrue result ↔ (digits.now ≡ others.now) }
{
    digits == others
}

/// Tests whether two base classes have the same place, by all four numbers.
fn same_place(left: &BaseClass, right: &BaseClass) -> bool
    ensures { IsTrue result ↔ ((left.now.member ≡ right.now.member) × (left.now.pointer ≡ right.now.pointer)
        × (left.now.entry ≡ right.now.entry) × (left.now.attributes ≡ right.now.attributes)) }
{
    left.member == right.member
        && left.pointer == right.pointer
        && left.entry == right.entry
        && left.attributes == right.attributes
}

/// Tests whether two names are seen as the same: of one variant, with the same parts.
#[cycle(same)]
fn same_name<'a, 'b>(left: &'b Name<'a, 'b>, right: &'b Name<'a, 'b>) -> bool
    ensures { IsTrue result ↔ (name_of left.now ≡ name_of right.now) }
{
    match left {
        Name::Source(text) => match right {
            Name::Source(other) => same_text(*text, *other),
            _ => false,
        },
        Name::Interface(text) => match right {
            Name::Interface(other) => same_text(*text, *other),
            _ => false,
        },
        Name::Md5(text) => match right {
            Name::Md5(other) => same_text(*text, *other),
            _ => false,
        },
        Name::Anonymous => match right {
            Name::Anonymous => true,
            _ => false,
        },
        Name::AnonymousDigits(digits) => match right {
            Name::AnonymousDigits(others) => same_digits(*digits, *others),
            _ => false,
        },
        Name::Plain(operator) => match right {
            Name::Plain(other) => *operator == *other,
            _ => false,
        },
        Name::Guard(guard, number) => match right {
            Name::Guard(other, others) => *guard == *other && *number == *others,
            _ => false,
        },
        Name::TypeDescriptor(qualifiers, described) => match right {
            Name::TypeDescriptor(others, other) => {
                *qualifiers == *others && same_type(*described, *other)
            }
            _ => false,
        },
        Name::BaseClassDescriptor(place) => match right {
            Name::BaseClassDescriptor(other) => same_place(*place, *other),
            _ => false,
        },
        Name::Template(template) => match right {
            Name::Template(other) => same_template(*template, *other),
            _ => false,
        },
        Name::Discriminator(number) => match right {
            Name::Discriminator(other) => *number == *other,
            _ => false,
        },
        Name::Nested(symbol) => match right {
            Name::Nested(other) => same_typed_symbol(*symbol, *other),
            _ => false,
        },
        Name::Shape(shape) => match right {
            Name::Shape(other) => same_shape(*shape, *other),
            _ => false,
        },
    }
}

/// Tests whether two types that are named are of one kind, with the same qualifiers.
fn same_tag(tag: TagKind, qualifiers: StorageClass, other: TagKind, others: StorageClass) -> bool
    ensures { IsTrue result ↔ ((tag ≡ other) × (qualifiers.0 ≡ others.0)) }
{
    tag == other && qualifiers == others
}

/// Tests whether two tables are of one kind, with the same qualifiers.
fn same_table(
    table: SpecialTableKind,
    qualifiers: StorageClass,
    other: SpecialTableKind,
    others: StorageClass,
) -> bool
    ensures { IsTrue result ↔ ((table ≡ other) × (qualifiers.0 ≡ others.0)) }
{
    table == other && qualifiers == others
}

/// Tests whether the scopes of two tables have the same names.
#[cycle(same)]
fn same_scope<'a, 'b>(left: &'b Scope<'a, 'b>, right: &'b Scope<'a, 'b>) -> bool
    ensures { IsTrue result ↔ (names_in left.now.names.now ≡ names_in right.now.names.now) }
{
    same_names(left.names, right.names)
}

/// Tests whether two lists have the same numbers, in their order.
fn same_numbers(left: &[Number], right: &[Number]) -> bool
    ensures { IsTrue result ↔ (left.now ≡ right.now) }
{
    left == right
}

/// Tests whether two shapes are of one row, with the same qualifiers, numbers and bytes.
fn same_leaves<'a, 'b>(left: &'b Shape<'a, 'b>, right: &'b Shape<'a, 'b>) -> bool
    ensures { IsTrue result ↔ ((left.now.row ≡ right.now.row) × (left.now.qualifiers.0 ≡ right.now.qualifiers.0)
        × (left.now.numbers.now ≡ right.now.numbers.now) × (left.now.text.now ≡ right.now.text.now)) }
{
    left.row == right.row
        && left.qualifiers == right.qualifiers
        && same_numbers(left.numbers, right.numbers)
        && same_text(left.text, right.text)
}

/// Tests whether two shapes are of one row, with the same parts.
#[cycle(same)]
fn same_shape<'a, 'b>(left: &'b Shape<'a, 'b>, right: &'b Shape<'a, 'b>) -> bool
    ensures { IsTrue result ↔ ((left.now.row ≡ right.now.row) × (left.now.qualifiers.0 ≡ right.now.qualifiers.0)
        × (left.now.numbers.now ≡ right.now.numbers.now) × (left.now.text.now ≡ right.now.text.now)
        × (names_in left.now.names.now ≡ names_in right.now.names.now)
        × (types_in left.now.types.now ≡ types_in right.now.types.now)) }
{
    same_leaves(left, right)
        && same_names(left.names, right.names)
        && same_types(left.types, right.types)
}

/// Tests whether two functions have the same class, and are the same but for that.
#[cycle(same)]
fn same_member<'a, 'b>(left: &'b Function<'a, 'b>, right: &'b Function<'a, 'b>) -> bool
    ensures { IsTrue result ↔ ((left.now.class.0 ≡ right.now.class.0) × (left.now.convention ≡ right.now.convention)
        × (left.now.qualifiers.0 ≡ right.now.qualifiers.0)
        × (types_in left.now.parameters.now ≡ types_in right.now.parameters.now)
        × (type_of left.now.returned.now ≡ type_of right.now.returned.now)) }
{
    left.class == right.class && same_function(left, right)
}

/// Tests whether two templates have the same name and the same arguments.
#[cycle(same)]
fn same_template<'a, 'b>(left: &'b Template<'a, 'b>, right: &'b Template<'a, 'b>) -> bool
    ensures { IsTrue result ↔ ((name_of left.now.name.now ≡ name_of right.now.name.now)
        × (types_in left.now.arguments.now ≡ types_in right.now.arguments.now)) }
{
    same_name(left.name, right.name) && same_types(left.arguments, right.arguments)
}

/// Tests whether two names are the same, in the same scope.
#[cycle(same)]
fn same_symbol<'a, 'b>(left: &'b Symbol<'a, 'b>, right: &'b Symbol<'a, 'b>) -> bool
    ensures { IsTrue result ↔ ((name_of left.now.name.now ≡ name_of right.now.name.now)
        × (names_in left.now.scope.now ≡ names_in right.now.scope.now)) }
{
    same_name(left.name, right.name) && same_names(left.scope, right.scope)
}

/// Tests whether two symbols name the same, with the same type.
#[cycle(same)]
fn same_typed_symbol<'a, 'b>(left: &'b TypedSymbol<'a, 'b>, right: &'b TypedSymbol<'a, 'b>) -> bool
    ensures { IsTrue result ↔ (typed_symbol_of left.now ≡ typed_symbol_of right.now) }
{
    same_symbol(&left.symbol, &right.symbol) && same_type(left.symbol_type, right.symbol_type)
}

/// Tests whether two functions have the same convention, qualifiers and parameters, and return the same, whatever their
/// classes.
#[cycle(same)]
fn same_function<'a, 'b>(left: &'b Function<'a, 'b>, right: &'b Function<'a, 'b>) -> bool
    ensures { IsTrue result ↔ ((left.now.convention ≡ right.now.convention)
        × (left.now.qualifiers.0 ≡ right.now.qualifiers.0)
        × (types_in left.now.parameters.now ≡ types_in right.now.parameters.now)
        × (type_of left.now.returned.now ≡ type_of right.now.returned.now)) }
{
    left.convention == right.convention
        && left.qualifiers == right.qualifiers
        && same_types(left.parameters, right.parameters)
        && same_type(left.returned, right.returned)
}

/// Tests whether two scopes have the same names, in their order.
#[cycle(same)]
fn same_names<'a, 'b>(left: &'b [&'b Name<'a, 'b>], right: &'b [&'b Name<'a, 'b>]) -> bool
    ensures { IsTrue result ↔ (names_in left.now ≡ names_in right.now) }
{
    if left.len() != right.len() {
        return false;
    }
    for (i, name) in left.iter().enumerate() {
        if !same_name(*name, right[i]) {
            return false;
        }
    }
    true
}

/// Tests whether two lists have the same types, in their order.
#[cycle(same)]
fn same_types<'a, 'b>(left: &'b [&'b Type<'a, 'b>], right: &'b [&'b Type<'a, 'b>]) -> bool
    ensures { IsTrue result ↔ (types_in left.now ≡ types_in right.now) }
{
    if left.len() != right.len() {
        return false;
    }
    for (i, item) in left.iter().enumerate() {
        if !same_type(*item, right[i]) {
            return false;
        }
    }
    true
}

/// Tests whether two types are seen as the same: of one variant, with the same parts.
#[cycle(same)]
fn same_type<'a, 'b>(left: &'b Type<'a, 'b>, right: &'b Type<'a, 'b>) -> bool
    ensures { IsTrue result ↔ (type_of left.now ≡ type_of right.now) }
{
    match left {
        Type::Plain(plain) => match right {
            Type::Plain(other) => *plain == *other,
            _ => false,
        },
        Type::Base(base, qualifiers) => match right {
            Type::Base(other, others) => *base == *other && *qualifiers == *others,
            _ => false,
        },
        Type::Tagged(tag, qualifiers, symbol) => match right {
            Type::Tagged(other_tag, others, other) => {
                same_tag(*tag, *qualifiers, *other_tag, *others) && same_symbol(*symbol, *other)
            }
            _ => false,
        },
        Type::Numbered(kind, number) => match right {
            Type::Numbered(other, others) => *kind == *other && *number == *others,
            _ => false,
        },
        Type::ConstantString(text) => match right {
            Type::ConstantString(other) => same_text(*text, *other),
            _ => false,
        },
        Type::Pointing(affinity, qualifiers, inner) => match right {
            Type::Pointing(other_affinity, others, other) => {
                *affinity == *other_affinity && *qualifiers == *others && same_type(*inner, *other)
            }
            _ => false,
        },
        Type::Array(length, qualifiers, inner) => match right {
            Type::Array(count, others, other) => {
                *length == *count && *qualifiers == *others && same_type(*inner, *other)
            }
            _ => false,
        },
        Type::Function(function) => match right {
            Type::Function(other) => same_function(*function, *other),
            _ => false,
        },
        Type::MemberFunction(function) => match right {
            Type::MemberFunction(other) => same_member(*function, *other),
            _ => false,
        },
        Type::MemberPointer(symbol, function) => match right {
            Type::MemberPointer(class, other) => {
                same_symbol(*symbol, *class) && same_member(*function, *other)
            }
            _ => false,
        },
        Type::Variable(kind, qualifiers, inner) => match right {
            Type::Variable(storage, others, other) => {
                *kind == *storage && *qualifiers == *others && same_type(*inner, *other)
            }
            _ => false,
        },
        Type::Table(table, qualifiers, scope) => match right {
            Type::Table(other, others, names) => {
                same_table(*table, *qualifiers, *other, *others) && same_scope(*scope, *names)
            }
            _ => false,
        },
        Type::VcallThunk(number, convention) => match right {
            Type::VcallThunk(other, call) => *number == *other && *convention == *call,
            _ => false,
        },
        Type::Shape(shape) => match right {
            Type::Shape(other) => same_shape(*shape, *other),
            _ => false,
        },
    }
}
