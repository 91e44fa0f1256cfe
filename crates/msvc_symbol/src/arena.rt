//! An arena that is kept from one symbol to the next.

ghost use Rattle.std.specs.Prelude.{◌≡◌};

use alloc_fuse::Fuse;
use bumpalo::Bump;
use msvc_cursor::failure::Failure;
use msvc_cursor::limits::Limits;
use msvc_nodes::sizes::arena_to_print;
use std::alloc::{AllocError, Allocator, Global};

/// The bytes of an arena that is never made anew.
const FIXED: usize = usize::MAX;

/// An arena that is emptied for each symbol, and made anew for one that needs more memory than those before it.
#[derive(Drop)]
pub struct Arena<A: Allocator + Copy = Global>
where
    Fuse<A>: Allocator,
{
    alloc: A,
    /// The nodes of the last symbol, and the stack of the printer.
    bump: Bump<Fuse<A>>,
    /// Bytes that the arena began with, or [`FIXED`].
    began: usize,
}

impl<A: Allocator + Copy> Arena<A> {
    /// Makes an arena. Requests no memory.
    pub fn new(alloc: A) -> Arena<A> {
        Arena {
            alloc,
            bump: Bump::new(Fuse::new(alloc)),
            began: 0,
        }
    }

    /// Makes an arena that has all the available memory, and is never made anew.
    pub(crate) fn over(alloc: A, bump: Bump<Fuse<A>>) -> Arena<A> {
        Arena {
            alloc,
            bump,
            began: FIXED,
        }
    }

    /// Returns the allocator.
    pub(crate) fn alloc(&self) -> A {
        self.alloc
    }

    /// Empties the arena and returns it.
    pub(crate) fn emptied(&mut self) -> &Bump<Fuse<A>> {
        // An arena that some list was not given back to stays as it is, and can still be used.
        let _ = self.bump.reset();
        &self.bump
    }

    /// Empties the arena, requests what the symbol that `input` begins with is expected to need, and returns it. Requests
    /// no memory for a text that doesn't begin with `?`.
    ///
    /// # Errors
    ///
    /// Fails if an allocation fails.
    #[inline(always)]
    pub fn prepared(&mut self, input: &str, limits: Limits) -> Result<&Bump<Fuse<A>>, AllocError> {
        let bytes = arena_to_print(input, limits.nodes);
        if self.began < bytes {
            self.bump = Bump::try_with_capacity(Fuse::new(self.alloc), bytes)?;
            self.began = bytes;
        }
        Ok(self.emptied())
    }

    /// Returns the result of a symbol. If memory ran out, the next symbol uses a new arena.
    #[inline(always)]
    pub(crate) fn end<T>(&mut self, done: Result<T, Failure>) -> Result<T, Failure>
        ensures { result ≡ done }
    {
        if let Err(Failure::Memory) = done {
            self.drop_next();
        }
        done
    }

    /// Makes the next symbol use a new arena, unless this one is fixed: an arena that has failed once fails for good.
    #[cold]
    fn drop_next(&mut self) {
        if self.began != FIXED {
            self.began = 0;
        }
    }
}
