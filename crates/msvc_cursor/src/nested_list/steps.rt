//! Operations on a `NestedList`. The struct stands in another file, since a ghost field may not cite definitions about
//! its own struct.

ghost use Rattle.std.specs.Prelude.{◌≡◌, ◌≤◌, ◌<◌, ◌++◌, ◌∷◌, [], drop, IfOk, IfSome, length, slice_get, take};
ghost use Rattle.std.specs.Prelude.{vec_capacity, vec_len};
ghost use Rattle.msvc_cursor.specs.NestedList.{current, enclosing};

use crate::nested_list::{Checkpoint, NestedList};
use bumpalo::Bump;
use msvc_nodes::list::List;
use std::alloc::{AllocError, Allocator};

/// How many items to reserve for a list at first. It is the least by which a list grows.
const FIRST_ITEMS: usize = 8;

impl<'b, T: Copy, A: Allocator> NestedList<'b, T, A> {
    /// Creates an empty list.
    pub fn new(arena: &'b Bump<A>) -> NestedList<'b, T, A>
        ensures current { current result ≡ [] }
        ensures enclosing { enclosing result ≡ [] }
    {
        NestedList {
            items: Vec::new(arena),
            from: 0,
        }
    }

    /// Returns the items in use.
    pub fn items(&self) -> &[T]
        ensures { result.now ≡ current self.now }
    {
        &self.items[self.from..]
    }

    /// Returns the item at an index, counted from the first in use.
    pub fn get(&self, index: usize) -> Option<T>
        ensures { result ≡ slice_get (current self.now) index }
    {
        match self.items().get(index) {
            Some(item) => Some(*item),
            None => None,
        }
    }

    /// Appends an item.
    #[inline(always)]
    pub fn push(&mut self, item: T) -> Result<(), AllocError>
        ensures current { IfOk result (λ _. current self.new ≡ current self.old ++ item ∷ []) }
        ensures enclosing { IfOk result (λ _. enclosing self.new ≡ enclosing self.old) }
    {
        if self.items.len() >= self.items.capacity() {
            grow(&mut self.items)?;
        }
        self.items.push_reserved(item);
        Ok(())
    }

    /// Begins a new, empty part. The result ends it.
    pub fn begin(&mut self) -> Checkpoint
        ensures place { result.from ≡ length (enclosing self.old) }
        ensures current { current self.new ≡ [] }
        ensures enclosing { enclosing self.new ≡ enclosing self.old ++ current self.old }
    {
        let checkpoint = Checkpoint { from: self.from };
        self.from = self.items.len();
        checkpoint
    }

    /// Drops the part in use. The items before it, from the checkpoint on, are in use again.
    pub fn end(&mut self, checkpoint: Checkpoint)
        requires { checkpoint.from ≤ length (enclosing self.old) }
        ensures current { current self.new ≡ drop checkpoint.from (enclosing self.old) }
        ensures enclosing { enclosing self.new ≡ take checkpoint.from (enclosing self.old) }
    {
        self.items.truncate(self.from);
        self.from = checkpoint.from;
    }

    /// Copies the part in use into the arena and drops it, or returns nothing if memory runs out.
    #[inline(always)]
    pub fn end_in(&mut self, arena: &'b Bump<A>, checkpoint: Checkpoint) -> Option<List<'b, T>>
        requires { checkpoint.from ≤ length (enclosing self.old) }
        ensures items { IfSome result (λ list. list.items.now ≡ current self.old) }
        ensures current { IfSome result (λ _. current self.new ≡ drop checkpoint.from (enclosing self.old)) }
        ensures enclosing { IfSome result (λ _. enclosing self.new ≡ take checkpoint.from (enclosing self.old)) }
    {
        let list = copied(arena, self.items())?;
        self.end(checkpoint);
        Some(list)
    }
}

/// Requests memory for more items of a full list.
#[cold]
#[inline(never)]
fn grow<'b, T: Copy, A: Allocator>(items: &mut Vec<T, &'b Bump<A>>) -> Result<(), AllocError>
    ensures items { items.new.items ≡ items.old.items }
    ensures spare { IfOk result (λ _. vec_len items.new < vec_capacity items.new) }
{
    items.try_reserve(FIRST_ITEMS)
}

/// Copies items into the arena, or returns nothing if memory runs out. Up to three, as most lists have, are stored as
/// one value. A longer list is taken apart and put together again, so that all arms return in registers.
#[inline(always)]
fn copied<'b, T: Copy, A: Allocator>(arena: &'b Bump<A>, items: &[T]) -> Option<List<'b, T>>
    ensures { IfSome result (λ list. list.items.now ≡ items.now) }
{
    match items {
        [] => Some(List { items: &[] }),
        [one] => match arena.try_alloc([*one]) {
            Ok(list) => Some(List { items: list }),
            Err(_) => None,
        },
        [one, two] => match arena.try_alloc([*one, *two]) {
            Ok(list) => Some(List { items: list }),
            Err(_) => None,
        },
        [one, two, three] => match arena.try_alloc([*one, *two, *three]) {
            Ok(list) => Some(List { items: list }),
            Err(_) => None,
        },
        _ => match copied_slice(arena, items) {
            Some(list) => Some(List { items: list.items }),
            None => None,
        },
    }
}

/// Copies any number of items into the arena, or returns nothing if memory runs out.
#[inline(never)]
fn copied_slice<'b, T: Copy, A: Allocator>(arena: &'b Bump<A>, items: &[T]) -> Option<List<'b, T>>
    ensures { IfSome result (λ list. list.items.now ≡ items.now) }
{
    match arena.try_alloc_slice_copy(items) {
        Ok(list) => Some(List { items: list }),
        Err(_) => None,
    }
}
