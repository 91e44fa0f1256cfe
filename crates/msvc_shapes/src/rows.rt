//! Holds the numbers of the rows, as nodes have them. `specs/Rows` has the same numbers.

/// A number among the arguments of a template: number 0.
pub const INTEGER: u8 = 0;
/// A type by a name alone: name 0, and qualifiers.
pub const CUSTOM: u8 = 1;
/// `std::nullptr_t`, with qualifiers.
pub const NULLPTR: u8 = 2;
/// All levels of an array: type 0 is that of the elements, the numbers are the lengths of the levels, the outermost
/// first, 0 if the length is not known; with qualifiers.
pub const ARRAYS: u8 = 3;
/// A pointer to a member that is no function: type 0 is that of the member, name 0 is the class, a symbol without a
/// type; with the qualifiers of the pointer.
pub const MEMBER_POINTER: u8 = 4;
/// `extern "C"` in the place of a type.
pub const EXTERN_C: u8 = 5;
/// A scope inside a function: name 0 is the function, a symbol, and number 0 tells scopes of one function apart.
pub const FRAME: u8 = 6;
/// The operator of a literal: name 0 is its suffix.
pub const LITERAL_OPERATOR: u8 = 7;
/// `operator<=>`.
pub const SPACESHIP: u8 = 8;
/// The address of a symbol among the arguments of a template: name 0 is the symbol.
pub const ADDRESS: u8 = 9;
/// A symbol among the arguments of a template: name 0.
pub const OBJECT: u8 = 10;
/// Offsets of a pointer to a member among the arguments of a template: the numbers.
pub const OFFSETS: u8 = 11;
/// The same, and name 0 is the function that is pointed to, a symbol.
pub const SYMBOL_OFFSETS: u8 = 12;
/// A value among the arguments of a template, with its type: type 0 is the value, type 1 its type.
pub const TYPED: u8 = 13;
/// A function that moves its `this`: type 0 is the function, number 0 the offset.
pub const ADJUSTOR: u8 = 14;
/// The same by a `vtordisp`: type 0, and two numbers.
pub const VTORDISP: u8 = 15;
/// The same in a virtual base: type 0, and four numbers.
pub const VTORDISPEX: u8 = 16;
/// A table of virtual functions or of virtual bases: the names are the classes that it is for, symbols without
/// types, with the qualifiers of the table.
pub const TABLES: u8 = 17;
/// The descriptor of a type at run time.
pub const TYPE_DESCRIPTOR: u8 = 18;
/// A hashed name of a locator: the digits of the hash are the bytes.
pub const MD5_LOCATOR: u8 = 19;
/// The initializer of a variable: name 0 is its name, a symbol without a type.
pub const INITIALIZER_OF_NAME: u8 = 20;
/// The initializer of a variable: name 0 is the variable, a symbol.
pub const INITIALIZER_OF_VARIABLE: u8 = 21;
/// The destructor of a variable at exit: name 0 is its name, a symbol without a type.
pub const DESTRUCTOR_OF_NAME: u8 = 22;
/// The destructor of a variable at exit: name 0 is the variable, a symbol.
pub const DESTRUCTOR_OF_VARIABLE: u8 = 23;
/// The guard of static variables of a function: number 0, if there is one, is the index of the guard.
pub const STATIC_GUARD: u8 = 24;
/// The guard of a thread-safe static variable of a function, with the same number.
pub const THREAD_GUARD: u8 = 25;
/// A string: number 0 is its length in bytes, the other numbers are the bytes that the symbol has.
pub const STRING_LITERAL: u8 = 26;
/// The same of wide characters.
pub const WIDE_STRING_LITERAL: u8 = 27;
/// `` `managed vector ctor iterator' ``.
pub const MANAGED_VECTOR_CTOR_ITERATOR: u8 = 28;
/// `` `managed vector dtor iterator' ``.
pub const MANAGED_VECTOR_DTOR_ITERATOR: u8 = 29;
/// `` `EH vector copy ctor iterator' ``.
pub const EH_VECTOR_COPY_CTOR_ITERATOR: u8 = 30;
/// `` `EH vector vbase copy ctor iterator' ``.
pub const EH_VECTOR_VBASE_COPY_CTOR_ITERATOR: u8 = 31;
/// `` `vector copy ctor iterator' ``.
pub const VECTOR_COPY_CTOR_ITERATOR: u8 = 32;
/// `` `vector vbase copy constructor iterator' ``.
pub const VECTOR_VBASE_COPY_CTOR_ITERATOR: u8 = 33;
/// `` `managed vector vbase copy constructor iterator' ``.
pub const MANAGED_VECTOR_VBASE_COPY_CTOR_ITERATOR: u8 = 34;
/// The name of the descriptor of a type at run time.
pub const TYPE_DESCRIPTOR_NAME: u8 = 35;
/// A map of displacements of virtual bases: name 0 is the class that it is for, a symbol.
pub const DISPLACEMENT: u8 = 36;
/// `auto`, with qualifiers.
pub const AUTO: u8 = 37;
/// `decltype(auto)`, with qualifiers.
pub const DECLTYPE_AUTO: u8 = 38;
/// A pointer to a block: type 0 is what it points to; with the qualifiers of the pointer.
pub const BLOCK: u8 = 39;
/// A handle of C++/CLI: type 0 is what it points to; with the qualifiers of the pointer.
pub const HANDLE: u8 = 40;
/// A tracking reference of C++/CLI: type 0 is what it refers to; with the qualifiers of the pointer.
pub const TRACKING: u8 = 41;
/// A symbol in brackets in a scope: name 0 is the symbol, without a type.
pub const INTERFACE: u8 = 42;
/// A null pointer to a member among the arguments of a template.
pub const NULL_MEMBER: u8 = 43;
/// A member without a value in a value of a class.
pub const ABSENT: u8 = 44;
/// A pointer to a member by its name: the names are those of its scope, the outermost first, and the member's.
pub const MEMBER_OF: u8 = 45;
/// A `float` among the arguments of a template: number 0 has its bits.
pub const FLOAT: u8 = 46;
/// The same of `double`.
pub const DOUBLE: u8 = 47;
/// The same of `_Float16`.
pub const FLOAT16: u8 = 48;
/// The same of `__bf16`.
pub const BFLOAT16: u8 = 49;
/// The same of `__float80`.
pub const FLOAT80: u8 = 50;
/// The same of `__float128`.
pub const FLOAT128: u8 = 51;
/// The same of `__ibm128`.
pub const IBM128: u8 = 52;
/// A pinning pointer of C++/CLI: type 0 is what it points to; with qualifiers.
pub const PIN: u8 = 53;
/// An array of C++/CLI: type 0 is that of the elements, number 0 its rank; with qualifiers.
pub const CLI_ARRAY: u8 = 54;
/// The name of a part of a function that catches an exception: the bytes are those after `catch$`.
pub const CATCH_FUNCLET: u8 = 55;
/// An object that a template was given: type 0 is its value.
pub const TEMPLATE_OBJECT: u8 = 56;
/// The address of a part of an object among the arguments of a template: type 0 is the part.
pub const SUBOBJECT: u8 = 57;
/// A member of an object: type 0 is the object, name 0 the member.
pub const MEMBER: u8 = 58;
/// An element of an array: type 0 is the array, number 0 the place of the element.
pub const ELEMENT: u8 = 59;
/// A value of a class: type 0 is the class, type 1 the values of its members.
pub const AGGREGATE: u8 = 60;
/// Values in braces, of the members of a class or of the elements of an array: the types.
pub const VALUES: u8 = 61;
/// A value of a union that has no member: type 0 is the union.
pub const EMPTY_UNION: u8 = 62;
/// A value of a union: type 0 is the union, name 0 the member, type 1 its value.
pub const UNION_VALUE: u8 = 63;
/// The name of a part that destroys what an exception leaves: the bytes after `dtor$`.
pub const DESTRUCTOR_FUNCLET: u8 = 64;
/// The same of a filter of exceptions: the bytes after `filt$`.
pub const FILTER_FUNCLET: u8 = 65;
/// The same of a part that runs whether or not there is an exception: the bytes after `fin$`.
pub const FINALLY_FUNCLET: u8 = 66;
/// An explicit `this` among the parameters of a function: type 0 is that of the parameter.
pub const EXPLICIT_THIS: u8 = 67;
