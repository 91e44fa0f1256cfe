//! The tree of a symbol: its name with its scope, and its type. A tree owns its parts, but names borrow the text that
//! was read.

mod clone;
mod equality;

use msvc_nodes::flags::{FuncClass, StorageClass};
pub use msvc_nodes::kinds::{CallingConv, VarStorageKind};

/// The name of a symbol, or one name of a scope. Bytes that it borrows are a part of the text that was read.
#[derive(Debug, Drop)]
#[cycle(ast)]
pub enum Name<'a> {
    /// The name of an operator, a constructor or something that the compiler made.
    Operator(Operator<'a>),
    /// A name as the source spells it, borrowed from the text, without the `@` after it; possibly empty.
    NonTemplate(&'a [u8]),
    /// A template's name, and its arguments in their order.
    Template(Box<Name<'a>>, Params<'a>),
    /// The number of a scope inside a function, which distinguishes scopes of one function.
    Discriminator(i32),
    /// A whole symbol as a scope, as that of the function around a local variable.
    ParsedName(Box<ParseResult<'a>>),
    /// An anonymous namespace, with `0x` and the hexadecimal digits after it if they are there; this text is owned.
    AnonymousNamespace(Option<String>),
    /// The name of the interface that a member function comes from, borrowed from the text, without the brackets that
    /// it is printed in.
    AsInterface(&'a [u8]),
    /// The 32 hexadecimal digits, of either case, of the hash of a name that was too long, borrowed from the text,
    /// without the `??@` before and the `@` after them.
    Md5(&'a [u8]),
}

/// The names that the compiler gives, each with its printed text.
#[derive(Debug, Drop)]
#[cycle(ast)]
pub enum Operator<'a> {
    /// A constructor: printed as the innermost name of its scope.
    Ctor,
    /// A destructor: printed as `~` and the innermost name of its scope.
    Dtor,
    /// `operator new`.
    New,
    /// `operator delete`.
    Delete,
    /// `operator=`.
    Equal,
    /// `operator>>`.
    RShift,
    /// `operator<<`.
    LShift,
    /// `operator!`.
    Bang,
    /// `operator==`.
    EqualEqual,
    /// `operator!=`.
    BangEqual,
    /// `operator[]`.
    Subscript,
    /// A conversion: printed as `operator` and the type that the function returns.
    Conversion,
    /// `operator->`.
    Arrow,
    /// `operator*`.
    Star,
    /// `operator++`.
    PlusPlus,
    /// `operator--`.
    MinusMinus,
    /// `operator-`.
    Minus,
    /// `operator+`.
    Plus,
    /// `operator&`.
    Amp,
    /// `operator->*`.
    ArrowStar,
    /// `operator/`.
    Slash,
    /// `operator%`.
    Percent,
    /// `operator<`.
    Less,
    /// `operator<=`.
    LessEqual,
    /// `operator>`.
    Greater,
    /// `operator>=`.
    GreaterEqual,
    /// `operator,`.
    Comma,
    /// `operator()`.
    Call,
    /// `operator~`.
    Tilde,
    /// `operator^`.
    Caret,
    /// `operator|`.
    Pipe,
    /// `operator&&`.
    AmpAmp,
    /// `operator||`.
    PipePipe,
    /// `operator*=`.
    StarEqual,
    /// `operator+=`.
    PlusEqual,
    /// `operator-=`.
    MinusEqual,
    /// `operator/=`.
    SlashEqual,
    /// `operator%=`.
    PercentEqual,
    /// `operator>>=`.
    GreaterGreaterEqual,
    /// `operator<<=`.
    LessLessEqual,
    /// `operator&=`.
    AmpEqual,
    /// `operator|=`.
    PipeEqual,
    /// `operator^=`.
    CaretEqual,
    /// `` `vftable' ``.
    VFTable,
    /// `` `vbtable' ``.
    VBTable,
    /// `` `vcall' ``.
    VCall,
    /// `` `typeof' ``.
    Typeof,
    /// The guard of a static variable in a function, with the number after it, at least 0, if there is one.
    LocalStaticGuard(Option<u32>),
    /// `` `string' ``.
    String,
    /// `` `vbase destructor' ``.
    VBaseDtor,
    /// `` `vector deleting destructor' ``.
    VectorDeletingDtor,
    /// `` `default constructor closure' ``.
    DefaultCtorClosure,
    /// `` `scalar deleting destructor' ``.
    ScalarDeletingDtor,
    /// `` `vector constructor iterator' ``.
    VectorCtorIterator,
    /// `` `vector destructor iterator' ``.
    VectorDtorIterator,
    /// `` `vector vbase constructor iterator' ``.
    VectorVBaseCtorIterator,
    /// `` `virtual displacement map' ``.
    VirtualDisplacementMap,
    /// `` `eh vector constructor iterator' ``.
    EHVectorCtorIterator,
    /// `` `eh vector destructor iterator' ``.
    EHVectorDtorIterator,
    /// `` `eh vector vbase constructor iterator' ``.
    EHVectorVBaseCtorIterator,
    /// `` `copy constructor closure' ``.
    CopyCtorClosure,
    /// `` `local vftable' ``.
    LocalVFTable,
    /// `` `local vftable constructor closure' ``.
    LocalVFTableCtorClosure,
    /// `` operator new[] ``.
    ArrayNew,
    /// `` operator delete[] ``.
    ArrayDelete,
    /// `` `placement delete closure' ``.
    PlacementDeleteClosure,
    /// `` `placement delete[] closure' ``.
    PlacementArrayDeleteClosure,
    /// The descriptor of a type: the qualifiers that were read for it, and the type, which has them too.
    RTTITypeDescriptor(StorageClass, Box<Type<'a>>),
    /// The place of a base class in an object, in the order in which the four numbers are read and printed: the offset
    /// of the member, that of the pointer to the table of virtual bases, that in the table, and a set of attributes.
    /// Offsets are in bytes; -1 means none.
    RTTIBaseClassDescriptor(i32, i32, i32, i32),
    /// `` `RTTI Base Class Array' ``.
    RTTIBaseClassArray,
    /// `` `RTTI Class Hierarchy Descriptor' ``.
    RTTIClassHierarchyDescriptor,
    /// `` `RTTI Complete Object Locator' ``.
    RTTIClassCompleteObjectLocator,
    /// `` `dynamic initializer' ``.
    DynamicInitializer,
    /// `` `dynamic atexit destructor' ``.
    DynamicAtexitDtor,
    /// The guard of a thread-safe static variable in a function, with the number after it, at least 0, if there is one.
    LocalStaticThreadGuard(Option<u32>),
    /// `operator ""`, whose suffix is the innermost name of the scope.
    LiteralOperatorName,
    /// `co_await`.
    CoroutineAwait,
}

/// The names of a scope, the innermost first.
#[derive(Debug, Drop)]
#[cycle(ast)]
pub struct NameSequence<'a> {
    /// The innermost first: of `a::b::x` they are `b`, `a`.
    pub names: Vec<Name<'a>>,
}

/// The parameters of a function or the arguments of a template, in their order.
#[derive(Debug, Drop)]
#[cycle(ast)]
pub struct Params<'a> {
    /// In their order. One `Void` alone for `(void)`; `VarArgs` last where the list ends in `...`.
    pub types: Vec<Type<'a>>,
}

/// A name in its scope.
#[derive(Debug, Drop)]
#[cycle(ast)]
pub struct Symbol<'a> {
    /// The name, without its scope.
    pub name: Name<'a>,
    /// The names around it, the innermost first; empty outside all scopes.
    pub scope: NameSequence<'a>,
}

/// A whole symbol: its name and its type.
#[derive(Debug, Drop)]
#[cycle(ast)]
pub struct ParseResult<'a> {
    /// The name that is declared.
    pub symbol: Symbol<'a>,
    /// Its type; `Type::None` where the symbol has none.
    pub symbol_type: Type<'a>,
}

/// A type, or a placeholder for one. A `StorageClass` is the last field except where a comment states otherwise, and
/// holds the qualifiers of the type itself: those of a pointer are the pointer's, not those of its target. Trees inside
/// are owned; only names are borrowed, from the text.
#[derive(Debug, Drop)]
#[cycle(ast)]
pub enum Type<'a> {
    /// No type: of a symbol that is a name alone, and where a constructor or a destructor returns nothing.
    None,
    /// The bytes of a string literal, decoded and owned: at most 32 where characters have one byte, at most 64 where
    /// they have two.
    ConstantString(Vec<u8>),
    /// A parameter pack with nothing in it; lists are printed without it.
    EmptyParameterPack,
    /// The placeholder for a type after the names of run-time type information.
    RTTIType,
    /// The types that are one word of the language, or a few, each with its qualifiers.
    Void(StorageClass),
    Char(StorageClass),
    Schar(StorageClass),
    Uchar(StorageClass),
    Short(StorageClass),
    Ushort(StorageClass),
    Int(StorageClass),
    Uint(StorageClass),
    Long(StorageClass),
    Ulong(StorageClass),
    Float(StorageClass),
    Double(StorageClass),
    Ldouble(StorageClass),
    Bool(StorageClass),
    Wchar(StorageClass),
    Char8(StorageClass),
    Char16(StorageClass),
    Char32(StorageClass),
    /// The integers of 64 and 128 bits, whose words go by the flag `MS_TYPENAMES`.
    Int64(StorageClass),
    Uint64(StorageClass),
    Int128(StorageClass),
    Uint128(StorageClass),
    /// A class by its name in its scope, and its qualifiers; the same for the four below.
    Class(Symbol<'a>, StorageClass),
    /// A struct.
    Struct(Symbol<'a>, StorageClass),
    /// A union.
    Union(Symbol<'a>, StorageClass),
    /// An enumeration.
    Enum(Symbol<'a>, StorageClass),
    /// A type alias, printed as its name alone.
    Alias(Symbol<'a>, StorageClass),
    /// A number as a template argument: 32 bits, signed; higher bits were dropped.
    Constant(i32),
    /// A parameter of a template by its number, which is negated where it was read after `?`.
    TemplateParameterWithIndex(i32),
    /// The guard of a thread-safe static variable by its number, from 0 to 2147483647.
    ThreadSafeStaticGuard(i32),
    /// `...`, the last of a list of parameters.
    VarArgs,
    /// `std::nullptr_t`.
    Nullptr,
    /// The target of a pointer, and the pointer's qualifiers.
    Ptr(Box<Type<'a>>, StorageClass),
    /// The target of a reference `&`, and the reference's qualifiers.
    Ref(Box<Type<'a>>, StorageClass),
    /// The target of a reference `&&`, and the reference's qualifiers.
    RValueRef(Box<Type<'a>>, StorageClass),
    /// The length of the outermost level, in elements, as it was read, so 0 or below too; the elements, which are an
    /// array again where there are more levels; and the qualifiers, which each level has.
    Array(i32, Box<Type<'a>>, StorageClass),
    /// The convention, the parameters, the function's qualifiers, which are empty for a plain function, and the return
    /// type.
    NonMemberFunction(CallingConv, Params<'a>, StorageClass, Box<Type<'a>>),
    /// The class, the convention, the parameters, the function's qualifiers (empty for a static one), and the return
    /// type.
    MemberFunction(FuncClass, CallingConv, Params<'a>, StorageClass, Box<Type<'a>>),
    /// The class of the member, its function class, the convention, the parameters, the function's qualifiers, and the
    /// return type.
    MemberFunctionPointer(
        Symbol<'a>,
        FuncClass,
        CallingConv,
        Params<'a>,
        StorageClass,
        Box<Type<'a>>,
    ),
    /// The variable's type, who may name it and where it lives, and the storage class after the type.
    Var(Box<Type<'a>>, VarStorageKind, StorageClass),
    /// The scope of the base that the table of virtual functions is for, the innermost name first, possibly empty,
    /// and the table's qualifiers.
    CXXVFTable(NameSequence<'a>, StorageClass),
    /// The same of a table of virtual bases.
    CXXVBTable(NameSequence<'a>, StorageClass),
    /// The offset in the table of virtual functions, in bytes, and the convention.
    VCallThunk(i32, CallingConv),
}
