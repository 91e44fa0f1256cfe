//! Which variant a name or a type is, among those with the same fields: one enumeration for each kind of fields, which
//! the definitions use too.

/// How a name that is a part of the text is to be read.
#[derive(Clone, Copy, PartialEq, Eq)]
pub enum Spelling {
    /// As it stands in the source.
    Source,
    /// The name of an interface.
    Interface,
    /// The digits of a hash.
    Md5,
}

/// The operators with nothing in them, as `Operator` names them.
#[derive(Clone, Copy, PartialEq, Eq, Debug)]
pub enum PlainOperator {
    Ctor,
    Dtor,
    New,
    Delete,
    Equal,
    RShift,
    LShift,
    Bang,
    EqualEqual,
    BangEqual,
    Subscript,
    Conversion,
    Arrow,
    Star,
    PlusPlus,
    MinusMinus,
    Minus,
    Plus,
    Amp,
    ArrowStar,
    Slash,
    Percent,
    Less,
    LessEqual,
    Greater,
    GreaterEqual,
    Comma,
    Call,
    Tilde,
    Caret,
    Pipe,
    AmpAmp,
    PipePipe,
    StarEqual,
    PlusEqual,
    MinusEqual,
    SlashEqual,
    PercentEqual,
    GreaterGreaterEqual,
    LessLessEqual,
    AmpEqual,
    PipeEqual,
    CaretEqual,
    VFTable,
    VBTable,
    VCall,
    Typeof,
    String,
    VBaseDtor,
    VectorDeletingDtor,
    DefaultCtorClosure,
    ScalarDeletingDtor,
    VectorCtorIterator,
    VectorDtorIterator,
    VectorVBaseCtorIterator,
    VirtualDisplacementMap,
    EHVectorCtorIterator,
    EHVectorDtorIterator,
    EHVectorVBaseCtorIterator,
    CopyCtorClosure,
    LocalVFTable,
    LocalVFTableCtorClosure,
    ArrayNew,
    ArrayDelete,
    PlacementDeleteClosure,
    PlacementArrayDeleteClosure,
    RTTIBaseClassArray,
    RTTIClassHierarchyDescriptor,
    RTTIClassCompleteObjectLocator,
    DynamicInitializer,
    DynamicAtexitDtor,
    LiteralOperatorName,
    CoroutineAwait,
}

/// Calls the macro `rows` with `arguments` and the table of plain operators: four lists of rows, for the codes that are
/// one letter, and for those that are `_`, `_R` and `__` with a letter after it. A row is that letter, the operator and
/// what it prints.
#[macro_export]
macro_rules! plain_operators {
    ($rows:ident $arguments:tt) => {
        $rows! {
            $arguments
            {
                b'0' Ctor b"ctor",
                b'1' Dtor b"dtor",
                b'2' New b"operator new",
                b'3' Delete b"operator delete",
                b'4' Equal b"operator=",
                b'5' RShift b"operator>>",
                b'6' LShift b"operator<<",
                b'7' Bang b"operator!",
                b'8' EqualEqual b"operator==",
                b'9' BangEqual b"operator!=",
                b'A' Subscript b"operator[]",
                b'B' Conversion b"operatorcast",
                b'C' Arrow b"operator->",
                b'D' Star b"operator*",
                b'E' PlusPlus b"operator++",
                b'F' MinusMinus b"operator--",
                b'G' Minus b"operator-",
                b'H' Plus b"operator+",
                b'I' Amp b"operator&",
                b'J' ArrowStar b"operator->*",
                b'K' Slash b"operator/",
                b'L' Percent b"operator%",
                b'M' Less b"operator<",
                b'N' LessEqual b"operator<=",
                b'O' Greater b"operator>",
                b'P' GreaterEqual b"operator>=",
                b'Q' Comma b"operator,",
                b'R' Call b"operator()",
                b'S' Tilde b"operator~",
                b'T' Caret b"operator^",
                b'U' Pipe b"operator|",
                b'V' AmpAmp b"operator&&",
                b'W' PipePipe b"operator||",
                b'X' StarEqual b"operator*=",
                b'Y' PlusEqual b"operator+=",
                b'Z' MinusEqual b"operator-=",
            }
            {
                b'0' SlashEqual b"operator/=",
                b'1' PercentEqual b"operator%=",
                b'2' GreaterGreaterEqual b"operator>>=",
                b'3' LessLessEqual b"operator<<=",
                b'4' AmpEqual b"operator&=",
                b'5' PipeEqual b"operator|=",
                b'6' CaretEqual b"operator^=",
                b'7' VFTable b"`vftable'",
                b'8' VBTable b"`vbtable'",
                b'9' VCall b"`vcall'",
                b'A' Typeof b"`typeof'",
                b'C' String b"`string'",
                b'D' VBaseDtor b"`vbase destructor'",
                b'E' VectorDeletingDtor b"`vector deleting destructor'",
                b'F' DefaultCtorClosure b"`default constructor closure'",
                b'G' ScalarDeletingDtor b"`scalar deleting destructor'",
                b'H' VectorCtorIterator b"`vector constructor iterator'",
                b'I' VectorDtorIterator b"`vector destructor iterator'",
                b'J' VectorVBaseCtorIterator b"`vector vbase constructor iterator'",
                b'K' VirtualDisplacementMap b"`virtual displacement map'",
                b'L' EHVectorCtorIterator b"`eh vector constructor iterator'",
                b'M' EHVectorDtorIterator b"`eh vector destructor iterator'",
                b'N' EHVectorVBaseCtorIterator b"`eh vector vbase constructor iterator'",
                b'O' CopyCtorClosure b"`copy constructor closure'",
                b'S' LocalVFTable b"`local vftable'",
                b'T' LocalVFTableCtorClosure b"`local vftable constructor closure'",
                b'U' ArrayNew b"operator new[]",
                b'V' ArrayDelete b"operator delete[]",
                b'X' PlacementDeleteClosure b"`placement delete closure'",
                b'Y' PlacementArrayDeleteClosure b"`placement delete[] closure'",
            }
            {
                b'2' RTTIBaseClassArray b"`RTTI Base Class Array'",
                b'3' RTTIClassHierarchyDescriptor b"`RTTI Class Hierarchy Descriptor'",
                b'4' RTTIClassCompleteObjectLocator b"`RTTI Complete Object Locator'",
            }
            {
                b'E' DynamicInitializer b"`dynamic initializer'",
                b'F' DynamicAtexitDtor b"`dynamic atexit destructor'",
                b'K' LiteralOperatorName b"operator \"\"",
                b'L' CoroutineAwait b" co_await",
            }
        }
    };
}

/// The guards of static variables in functions.
#[derive(Clone, Copy, PartialEq, Eq)]
pub enum Guard {
    /// Of any.
    Static,
    /// Of a thread-safe one.
    Thread,
}

/// What stands in the place of a type and has nothing in it.
#[derive(Clone, Copy, PartialEq, Eq)]
pub enum PlainType {
    /// No type.
    None,
    /// An empty parameter pack.
    EmptyPack,
    /// What stands after the names of run-time type information.
    Rtti,
    /// `...`.
    Variadic,
    /// `std::nullptr_t`.
    Nullptr,
}

/// The types that are one word of the language, or a few, as `Type` names them.
#[derive(Clone, Copy, PartialEq, Eq, Debug)]
pub enum PrimitiveKind {
    Void,
    Char,
    Schar,
    Uchar,
    Short,
    Ushort,
    Int,
    Uint,
    Long,
    Ulong,
    Float,
    Double,
    Ldouble,
    Bool,
    Wchar,
    Char8,
    Char16,
    Char32,
    Int64,
    Uint64,
    Int128,
    Uint128,
}

/// Calls the macro `rows` with `arguments` and the table of base types: two lists of rows, for the codes that are one
/// letter, and for those that are `_` with a letter after it. A row is that letter, the type and its word, and then the
/// word that MS_TYPENAMES chooses, if it is another.
#[macro_export]
macro_rules! base_types {
    ($rows:ident $arguments:tt) => {
        $rows! {
            $arguments
            {
                b'X' Void b"void",
                b'D' Char b"char",
                b'C' Schar b"signed char",
                b'E' Uchar b"unsigned char",
                b'F' Short b"short",
                b'G' Ushort b"unsigned short",
                b'H' Int b"int",
                b'I' Uint b"unsigned int",
                b'J' Long b"long",
                b'K' Ulong b"unsigned long",
                b'M' Float b"float",
                b'N' Double b"double",
                b'O' Ldouble b"long double",
            }
            {
                b'N' Bool b"bool",
                b'W' Wchar b"wchar_t",
                b'Q' Char8 b"char8_t",
                b'S' Char16 b"char16_t",
                b'U' Char32 b"char32_t",
                b'J' Int64 b"int64_t" b"__int64",
                b'K' Uint64 b"uint64_t" b"unsigned __int64",
                b'L' Int128 b"int128_t" b"__int128",
                b'M' Uint128 b"uint128_t" b"unsigned __int128",
            }
        }
    };
}

/// The types that are named.
#[derive(Clone, Copy, PartialEq, Eq, Debug)]
pub enum TagKind {
    Class,
    Struct,
    Union,
    Enum,
    Alias,
}

/// What stands in the place of a type and has one number.
#[derive(Clone, Copy, PartialEq, Eq)]
pub enum NumberedType {
    /// A number as a template argument.
    Constant,
    /// A parameter of a template.
    TemplateParameter,
    /// The guard of a thread-safe static variable.
    ThreadSafeGuard,
}

/// Pointers and references.
#[derive(Clone, Copy, PartialEq, Eq)]
pub enum PointerAffinity {
    /// `*`.
    Pointer,
    /// `&`.
    Reference,
    /// `&&`.
    RValueReference,
}

/// Tables that the compiler makes.
#[derive(Clone, Copy, PartialEq, Eq)]
pub enum SpecialTableKind {
    /// Of virtual functions.
    Functions,
    /// Of virtual bases.
    Bases,
}

/// How a function is called, in owned trees.
#[derive(Clone, Copy, PartialEq, Eq, Debug)]
pub enum CallingConv {
    /// `__cdecl`, by the letters `A` and `B`.
    Cdecl,
    /// `__pascal`, by `C`.
    Pascal,
    /// `__thiscall`, by `E`.
    Thiscall,
    /// `__stdcall`, by `G`.
    Stdcall,
    /// `__fastcall`, by `I`.
    Fastcall,
    /// `__regcall`. No letter gives it.
    _Regcall,
}

/// How a function is called.
#[derive(Clone, Copy, PartialEq, Eq, Debug)]
pub enum Convention {
    /// `__cdecl`.
    Cdecl,
    /// `__pascal`.
    Pascal,
    /// `__thiscall`.
    Thiscall,
    /// `__stdcall`.
    Stdcall,
    /// `__fastcall`.
    Fastcall,
    /// `__regcall`.
    _Regcall,
    /// `__clrcall`. This and those below are read by no letter of the crate's grammar.
    Clrcall,
    /// `__eabi`.
    Eabi,
    /// `__vectorcall`.
    Vectorcall,
    /// `__attribute__((__swiftcall__))`.
    Swift,
    /// `__attribute__((__swiftasynccall__))`.
    SwiftAsync,
    /// `__attribute__((__preserve_most__))`.
    PreserveMost,
    /// `__attribute__((__preserve_none__))`.
    PreserveNone,
    /// `__regcall4`.
    Regcall4,
}

/// Where a variable lives, and who may name it.
#[derive(Clone, Copy, PartialEq, Eq, Debug)]
pub enum VarStorageKind {
    /// `private: static `, by the letter `0`.
    PrivateStatic,
    /// `protected: static `, by `1`.
    ProtectedStatic,
    /// `public: static `, by `2`.
    PublicStatic,
    /// Outside all classes, by `3`; nothing is printed for it.
    Global,
    /// A static variable of a function, by `4`; nothing is printed for it.
    FunctionLocalStatic,
}
