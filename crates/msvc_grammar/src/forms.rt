//! Tells what the tables of texts and of codes stand for, and which cases one production has.

use msvc_nodes::kinds::{Guard, PlainOperator};

/// Tells what a type begins with, where it begins with one of the texts that are tried before a plain type.
#[derive(Clone, Copy)]
pub enum TypePrefix {
    /// An enumeration, and its name follows.
    Enumeration,
    /// A reference to a function.
    ReferenceToFunction,
    /// A pointer to a function.
    PointerToFunction,
    /// A pointer to a member function, with qualifiers.
    QualifiedMemberPointer,
    /// A number as an argument of a template.
    Constant,
    /// A parameter of a template.
    TemplateParameter,
    /// An array.
    Array,
    /// A reference to a value that is going away.
    RValueReference,
    /// No arguments for a parameter pack.
    EmptyPack,
    /// The type of the null pointer.
    Nullptr,
    /// A function.
    Function,
    /// A function with qualifiers on `this`.
    QualifiedFunction,
    /// A type by another name.
    Alias,
    /// A plain type with qualifiers of its own.
    CvQualified,
    /// A pointer to a member function as an argument of a template.
    MemberPointer,
}

/// Tells what the code of a special name stands for.
#[derive(Clone, Copy)]
pub enum SpecialForm {
    /// An operator with nothing in it.
    Plain(PlainOperator),
    /// The guard of a static variable in a function, without an index.
    Guard(Guard),
    /// The descriptor of a type, which follows.
    TypeDescriptor,
    /// The place of a base class in an object, and four numbers follow.
    BaseClass,
}

/// Tells whether a function has qualifiers on `this`, the object that it is called on.
#[derive(Clone, Copy)]
pub enum ObjectQualifiers {
    Absent,
    Present,
}

/// Tells what precedes the signature of a pointer to a member function.
#[derive(Clone, Copy)]
pub enum MemberPointerForm {
    /// Qualifiers, if the pointer is a type.
    Qualified,
    /// The class of the member function, if the pointer is a template argument.
    OfClass,
}

/// Tells whether a function is a member of a class.
#[derive(Clone, Copy)]
pub enum FunctionKind {
    Free,
    Member,
}

/// Tells whether a list of parameters ends with an ellipsis.
#[derive(Clone, Copy)]
pub enum Ellipsis {
    Absent,
    Present,
}

/// Tells whether a template name is memorized: all are but the name of a symbol.
#[derive(Clone, Copy)]
pub enum TemplateNames {
    Memorized,
    NotMemorized,
}
