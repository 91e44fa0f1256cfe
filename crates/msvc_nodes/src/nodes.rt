//! Trees in an arena. Each node is a few words that are copied; what stands in it is borrowed: of `'a` from the text
//! that was read, of `'b` from the arena. Lists are slices in the arena.

use crate::flags::{FuncClass, StorageClass};
use crate::kinds::{
    Convention, Guard, NumberedType, PlainOperator, PlainType, PointerAffinity, PrimitiveKind,
    SpecialTableKind, TagKind, VarStorageKind,
};

/// The name of a symbol, or one name of a scope.
#[derive(Clone, Copy)]
#[cycle(nodes)]
pub enum Name<'a, 'b> {
    /// A name as it stands in the source, a part of the text, without the `@` after it; possibly empty.
    Source(&'a [u8]),
    /// The name of the interface that a member function comes from, a part of the text.
    Interface(&'a [u8]),
    /// The 32 hexadecimal digits that stand for a name that was too long, a part of the text.
    Md5(&'a [u8]),
    /// An anonymous namespace without digits.
    Anonymous,
    /// An anonymous namespace with `0x` and its hexadecimal digits, in the arena.
    AnonymousDigits(&'b str),
    /// The name of an operator, a constructor or something that the compiler made, with nothing in it.
    Plain(PlainOperator),
    /// The guard of a static variable in a function, with its number if there is one.
    Guard(Guard, Option<u32>),
    /// The descriptor of a type: the qualifiers that were read for it, and the type in the arena, which has them too.
    TypeDescriptor(StorageClass, &'b Type<'a, 'b>),
    /// The descriptor of a base class: its place, in the arena.
    BaseClassDescriptor(&'b BaseClass),
    /// A template with its arguments, in the arena.
    Template(&'b Template<'a, 'b>),
    /// The number of a scope inside a function, which tells scopes of one function apart.
    Discriminator(i32),
    /// A symbol with its type as a scope, in the arena, as that of the function around a local variable.
    Nested(&'b TypedSymbol<'a, 'b>),
    /// A name whose parts are those of a row of the table of shapes, in the arena.
    Shape(&'b Shape<'a, 'b>),
}

/// A number of 64 bits and its sign, which nothing can have too.
#[derive(Clone, Copy, PartialEq, Eq)]
pub struct Number {
    /// Whether the number has a minus.
    pub is_negative: bool,
    /// The number without its sign.
    pub value: u64,
}

/// The parts of a name or a type of the table of shapes. Its row says which of them it has and what they mean.
#[derive(Clone, Copy)]
#[cycle(nodes)]
pub struct Shape<'a, 'b> {
    /// The row of the table.
    pub row: u8,
    /// The qualifiers; empty if the row has none.
    pub qualifiers: StorageClass,
    /// The numbers in their order, in the arena.
    pub numbers: &'b [Number],
    /// The bytes, a part of the text; empty if the row has none.
    pub text: &'a [u8],
    /// The names in their order, a list of references in the arena. A symbol is a [`Name::Nested`].
    pub names: &'b [&'b Name<'a, 'b>],
    /// The types in their order, a list of references in the arena.
    pub types: &'b [&'b Type<'a, 'b>],
}

/// The place of a base class in an object. Offsets are in bytes; -1 stands for none.
#[derive(Clone, Copy)]
pub struct BaseClass {
    /// The offset of the member.
    pub member: i32,
    /// The offset of the pointer to the table of virtual bases.
    pub pointer: i32,
    /// The offset in the table of virtual bases.
    pub entry: i32,
    /// A set of attributes.
    pub attributes: i32,
}

/// A template with its arguments.
#[derive(Clone, Copy)]
#[cycle(nodes)]
pub struct Template<'a, 'b> {
    /// The template's name, in the arena.
    pub name: &'b Name<'a, 'b>,
    /// The arguments in their order: a list of references in the arena.
    pub arguments: &'b [&'b Type<'a, 'b>],
}

/// A name in its scope.
#[derive(Clone, Copy)]
#[cycle(nodes)]
pub struct Symbol<'a, 'b> {
    /// What is named, without its scope, in the arena.
    pub name: &'b Name<'a, 'b>,
    /// The names around it, the innermost first, in the arena; empty outside all scopes.
    pub scope: &'b [&'b Name<'a, 'b>],
}

/// A symbol with its type.
#[derive(Clone, Copy)]
#[cycle(nodes)]
pub struct TypedSymbol<'a, 'b> {
    /// The name that is declared.
    pub symbol: Symbol<'a, 'b>,
    /// Its type, in the arena; of the kind `PlainType::None` where the symbol has none.
    pub symbol_type: &'b Type<'a, 'b>,
}

/// The type of a function, of a member function, or of what a pointer to a member function points to.
#[derive(Clone, Copy)]
#[cycle(nodes)]
pub struct Function<'a, 'b> {
    /// How the function is called.
    pub convention: Convention,
    /// The access, the kind and the thunks of a member function; empty for a plain function.
    pub class: FuncClass,
    /// The function's qualifiers; empty for a plain function and for a static member function.
    pub qualifiers: StorageClass,
    /// The parameters in their order, a list of references in the arena.
    pub parameters: &'b [&'b Type<'a, 'b>],
    /// What the function returns, in the arena.
    pub returned: &'b Type<'a, 'b>,
}

/// The names of a scope.
#[derive(Clone, Copy)]
#[cycle(nodes)]
pub struct Scope<'a, 'b> {
    /// The innermost first, in the arena: of `a::b::x` they are `b`, `a`.
    pub names: &'b [&'b Name<'a, 'b>],
}

/// A type, or what stands in the place of one. A `StorageClass` holds the qualifiers of the type itself: those of a
/// pointer are the pointer's, not those of what it points to.
#[derive(Clone, Copy)]
#[cycle(nodes)]
pub enum Type<'a, 'b> {
    /// What stands in the place of a type and has nothing in it, as no type, or `...`.
    Plain(PlainType),
    /// A type that is one word of the language, or a few, with its qualifiers.
    Base(PrimitiveKind, StorageClass),
    /// A class, a struct, a union, an enumeration or an alias, its qualifiers, and its name in its scope, in the arena.
    Tagged(TagKind, StorageClass, &'b Symbol<'a, 'b>),
    /// A number, or what is known by its number: a parameter of a template, or a guard.
    Numbered(NumberedType, i32),
    /// The bytes of a string literal, decoded, in the arena.
    ConstantString(&'b [u8]),
    /// A pointer or a reference, its qualifiers, and what it points to, in the arena.
    Pointing(PointerAffinity, StorageClass, &'b Type<'a, 'b>),
    /// An array: the length of the outermost level in elements, the qualifiers, and the elements, in the arena.
    Array(i32, StorageClass, &'b Type<'a, 'b>),
    /// A plain function, in the arena.
    Function(&'b Function<'a, 'b>),
    /// A member function, in the arena.
    MemberFunction(&'b Function<'a, 'b>),
    /// A pointer to a member function: the class whose member it is, and the function, both in the arena.
    MemberPointer(&'b Symbol<'a, 'b>, &'b Function<'a, 'b>),
    /// A variable: who may name it and where it lives, the storage class after its type, and its type, in the arena.
    Variable(VarStorageKind, StorageClass, &'b Type<'a, 'b>),
    /// A table of virtual functions or bases, its qualifiers, and the scope of the base that it is for, in the arena.
    Table(SpecialTableKind, StorageClass, &'b Scope<'a, 'b>),
    /// A thunk of a virtual call: the offset in the table of virtual functions, in bytes, and the convention.
    VcallThunk(i32, Convention),
    /// A type, or what stands in the place of one, whose parts are those of a row of the table of shapes, in the arena.
    Shape(&'b Shape<'a, 'b>),
}
