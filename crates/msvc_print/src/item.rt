//! The items of the printer's stack: what is left to print.

ghost use Rattle.std.specs.Prelude.{◌≡◌, ◌++◌, ◌∷◌, [], OnOk};

use crate::pointed::Pointed;
use msvc_nodes::flags::StorageClass;
use msvc_nodes::kinds::Convention;
use msvc_nodes::nodes::{Name, Scope, Shape, Symbol, Type};
use msvc_shapes::layouts::Side;
use std::alloc::{AllocError, Allocator};

/// Says how a list of types ends.
#[derive(Clone, Copy)]
pub enum ListEnd {
    /// Prints `)`, and the qualifiers of the function itself, whose parameters the list is.
    Round(StorageClass),
    /// Prints `)`, of a member function that is pointed to.
    Bare,
    /// Prints `>`, of the arguments of a template.
    Angle,
}

/// Names the types that are left of a list, and what stands after the last.
#[derive(Clone, Copy)]
pub struct TypeList<'a, 'b> {
    pub types: &'b [&'b Type<'a, 'b>],
    /// Whether none was printed yet.
    pub first: bool,
    pub end: ListEnd,
}

/// Says which part of a declaration is left to print. It borrows the nodes that it names.
#[derive(Clone, Copy)]
pub enum Item<'a, 'b> {
    /// Prints fixed words.
    Text(&'b [u8]),
    /// Prints fixed words after the space that operators begin with.
    Spaced(&'b [u8]),
    /// Prints a name. The flag says whether it is the name of a symbol itself.
    Name(&'b Name<'a, 'b>, bool),
    /// Prints the names of a scope, the innermost first, each with `::` after it.
    Scope(Scope<'a, 'b>),
    /// Prints a name in its scope, and the type of the symbol that it is the name of.
    Symbol(&'b Symbol<'a, 'b>, Option<&'b Type<'a, 'b>>),
    /// Prints the class whose member function is pointed to.
    Class(&'b Symbol<'a, 'b>),
    /// Prints `const` and `volatile`.
    Qualifiers(StorageClass),
    /// Prints the mark of a pointer or a reference, with its qualifiers. The flag says whether `__unaligned` stands
    /// before it.
    Mark(&'b [u8], StorageClass, bool),
    /// Prints the qualifiers of a level of an array, and the parenthesis before the mark of a pointer to it.
    ArrayLevel(StorageClass, Pointed),
    /// Prints the calling convention of a function, and the parenthesis before the mark of a pointer to it.
    Calling(Pointed, Convention),
    /// Prints the types that are left of a list, and what stands after the last.
    Parameters(TypeList<'a, 'b>),
    /// Prints what a type has before the name.
    Before(&'b Type<'a, 'b>, Pointed),
    /// Prints what a type has after the name.
    After(&'b Type<'a, 'b>, Pointed),
    /// Prints the slots of a side of a shape from a place on.
    Slots(&'b Shape<'a, 'b>, Side, Pointed, usize),
}

/// Pushes an item. Its contract is the part of `Vec::push`'s that proofs of steps need.
pub fn push<'a, 'b, S: Allocator>(
    stack: &mut Vec<Item<'a, 'b>, S>,
    item: Item<'a, 'b>,
) -> Result<(), AllocError>
    ensures { OnOk result (stack.new.items ≡ stack.old.items ++ item.entry ∷ []) }
{
    stack.push(item)?;
    Ok(())
}
