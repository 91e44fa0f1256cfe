//! The items of the stack: what is left to write.
#![tactic(auto, using(crate::proofs::Items::pushed))]

ghost use Rattle.std.specs.Prelude.{OnOk};
ghost use Rattle.msvc_debug.specs.Items.{Pushes, item_text};

use msvc_nodes::flags::{FuncClass, StorageClass};
use msvc_nodes::nodes::{Name, Number, Scope, Type};
use std::alloc::{AllocError, Allocator};

/// Names the types that are left of a list.
#[derive(Clone, Copy)]
pub(crate) struct Types<'a, 'b> {
    pub(crate) types: &'b [&'b Type<'a, 'b>],
}

/// Says which part of the text is left to write. It borrows the nodes that it names.
#[derive(Clone, Copy)]
pub(crate) enum Item<'a, 'b> {
    /// Writes a word.
    Text(&'b str),
    /// Writes bytes of the symbol as text.
    Spelled(&'a [u8]),
    /// Writes the bytes of a string constant, in quotes.
    Literal(&'b [u8]),
    /// Writes a number.
    Number(i32),
    /// Writes a number that may be missing.
    Index(Option<u32>),
    /// Writes numbers with their signs, each with a space after it.
    Numbers(&'b [Number]),
    /// Writes the names of qualifiers, each with a space after it.
    Qualifiers(StorageClass),
    /// Writes the names of the class of a member function, each with a space after it.
    Class(FuncClass),
    /// Writes a name without its scope.
    Name(&'b Name<'a, 'b>),
    /// Writes the names of a scope, whose innermost stands first, from the outermost on, each with `::` after it.
    Scope(Scope<'a, 'b>),
    /// Writes names in their order, with commas between them.
    Names(Scope<'a, 'b>),
    /// Writes a type.
    Type(&'b Type<'a, 'b>),
    /// Writes the types of a list, with commas between them.
    Types(Types<'a, 'b>),
}

/// Pushes an item.
pub(crate) fn push<'a, 'b, S: Allocator>(
    stack: &mut Vec<Item<'a, 'b>, S>,
    item: Item<'a, 'b>,
) -> Result<(), AllocError>
    ensures { OnOk result (Pushes (item_text item.entry) stack.old.items stack.new.items) }
{
    stack.push(item)?;
    Ok(())
}
