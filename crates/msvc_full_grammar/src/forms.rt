//! Tells what the tables of texts stand for, and which rows of the table of shapes are read field by field.

use msvc_nodes::kinds::{Guard, PlainOperator};

/// Tells whether a function has qualifiers of its own, which it has on the object that it is called on.
#[derive(Clone, Copy)]
pub enum OwnQualifiers {
    Absent,
    Present,
}

/// Tells which row of types is read field by field.
#[derive(Clone, Copy)]
pub enum TypeRow {
    /// A number as an argument of a template.
    Integer,
    /// A type known by its name alone.
    Custom,
    /// The type of the null pointer.
    Nullptr,
    /// A function of C.
    ExternC,
}

/// Tells which row of names is read field by field.
#[derive(Clone, Copy)]
pub enum NameRow {
    /// A scope inside a function.
    Frame,
    /// An operator of literals, and its suffix follows.
    LiteralOperator,
}

/// Tells what the code of an operator stands for.
#[derive(Clone, Copy)]
pub enum OperatorForm {
    /// An operator with nothing in it.
    Plain(PlainOperator),
    /// An operator with nothing in it, by its row of the table of shapes.
    Word(u8),
    /// The fields of a row follow.
    Row(NameRow),
    /// The descriptor of a base class, and its numbers follow.
    BaseClass,
}

/// Tells what a value among the arguments of a template begins with.
#[derive(Clone, Copy)]
pub enum ValueForm {
    /// The fields of a row follow.
    Row(TypeRow),
    /// A symbol follows, which a shape of this row has.
    Symbol(u8),
    /// This many offsets of a pointer to a member follow.
    Offsets(u64),
    /// The same, and the function that is pointed to may stand before them.
    MemberOffsets(u64),
    /// The bits of a number of this row follow.
    Bits(u8),
    /// Nothing follows, and the value is a word of this row.
    Word(u8),
    /// A type follows, and the values of the members of a class.
    Aggregate,
    /// A type follows, and the values of the elements of an array.
    Elements,
    /// A value follows that is a part of another.
    Subobject,
    /// A value follows, and the name of a member of it.
    Member,
    /// A value follows, and the place of an element of it.
    Element,
    /// A type follows, and one member of a union with its value, if any.
    Union,
    /// The scope of a member follows, and its name.
    MemberOf,
}

/// Tells what a list of types up to an `@` has.
#[derive(Clone, Copy)]
pub enum Listed {
    /// Arguments of a template.
    Argument,
    /// Values of the members of a class.
    Member,
    /// Values of the elements of an array, each with an `@` behind it.
    Element,
}

/// Tells what an argument of a template begins with, where it is no type.
#[derive(Clone, Copy)]
pub enum ArgumentForm {
    /// No arguments for a parameter pack.
    EmptyPack,
    /// A template by another name, which follows.
    Alias,
    /// A value, and its type before it.
    Typed,
    /// A value of this form.
    Value(ValueForm),
}

/// Tells how a function moves its `this` before it calls another one.
#[derive(Clone, Copy)]
pub enum Adjustment {
    /// By a fixed offset.
    Adjustor,
    /// By an offset that the object holds.
    VtorDisp,
    /// By an offset that a virtual base of the object holds.
    VtorDispEx,
}

/// Tells what a symbol begins with, after its `??`, that has no name of the source.
#[derive(Clone, Copy)]
pub enum SymbolForm {
    /// The hash of a name.
    Hashed,
    /// A string.
    String,
    /// The descriptor of a type.
    Descriptor,
    /// A guard of static variables.
    Guard(Guard),
    /// A function that begins or ends the life of a variable.
    Stub(Stub),
    /// An object that is an argument of a template.
    Object,
}

/// Tells which function the compiler makes for a variable of static storage.
#[derive(Clone, Copy)]
pub enum Stub {
    /// The function that initializes the variable.
    Initializer,
    /// The function that destroys the variable at exit.
    Destructor,
}
