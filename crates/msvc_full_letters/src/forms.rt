//! Tells what the tables of texts of Full stand for, as `msvc_full_grammar` does, with sets in place of their bits.

use msvc_full_grammar::forms::{Adjustment, OwnQualifiers, TypeRow};
use msvc_nodes::flags::{FuncClass, StorageClass};
use msvc_nodes::kinds::{PointerAffinity, TagKind};

/// Tells what the type of a symbol begins with, where the symbol is no variable.
#[derive(Clone, Copy)]
pub enum EncodingForm {
    /// The fields of a row follow.
    Row(TypeRow),
    /// A function outside all classes.
    FreeFunction,
    /// A function of this class.
    Function(FuncClass),
    /// A function of this class that moves its `this` before it calls another one.
    Thunk(Adjustment, FuncClass),
    /// A function of C, whose class follows.
    CFunction,
    /// A function of managed code, whose class follows.
    ManagedFunction,
    /// A table of a class, and what it is for follows.
    Table,
    /// Nothing, after the names of run-time type information.
    TypeInformation,
    /// A call of a virtual function by its place in a table.
    VirtualCall,
    /// A map of displacements, and the class that it is for follows.
    Displacement,
}

/// Tells what a type begins with, but for the base types of one letter.
#[derive(Clone, Copy)]
pub enum TypeForm {
    /// A class, and its name follows.
    Named(TagKind),
    /// A pointer with these qualifiers beside those that it is read with.
    Pointer(StorageClass),
    /// A reference of this kind.
    Reference(PointerAffinity),
    /// A reference that is volatile itself.
    VolatileReference,
    /// Arrays.
    Arrays,
    /// A function.
    Function(OwnQualifiers),
    /// A type as it stands.
    Same,
    /// A type behind a qualifier.
    Qualified,
    /// The fields of a row follow.
    Row(TypeRow),
    /// A base type of a second letter.
    Extended,
}
