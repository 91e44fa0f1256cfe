//! A list whose last part is in use. The items before it belong to callers that are still filling theirs.

ghost use Rattle.std.specs.Prelude.{◌≤◌, length};

use bumpalo::Bump;
use std::alloc::Allocator;

mod steps;

/// The place in a `NestedList` at which a part begins that is left while a later part is in use.
#[derive(Clone, Copy)]
pub struct Checkpoint {
    /// The index of the first item of that part.
    pub from: usize,
}

/// A list of which the items from `from` on are in use.
#[derive(Drop)]
pub struct NestedList<'b, T: Copy, A: Allocator> {
    items: Vec<T, &'b Bump<A>>,
    from: usize,
    ghost inside: { from ≤ length items.items },
}
