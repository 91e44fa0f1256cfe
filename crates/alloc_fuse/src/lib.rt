//! An allocator that fails for good once it has failed.
#![tactic(auto)]

use std::alloc::{AllocError, Allocator, Global};
use std::cell::Cell;

/// Wraps an allocator as `std::iter::Fuse` wraps an iterator: once a request has failed, each later one fails, and the
/// allocator gets none of them. So an arena, which requests less after a failed request, fails at the first.
#[derive(Drop)]
pub struct Fuse<A = Global> {
    alloc: A,
    failed: Cell<bool>,
}

impl<A> Fuse<A> {
    /// Wraps `alloc`.
    pub fn new(alloc: A) -> Fuse<A> {
        Fuse {
            alloc,
            failed: Cell::new(false),
        }
    }

    /// Returns whether a request has failed.
    pub fn has_failed(&self) -> bool {
        self.failed.get()
    }

    /// Makes all later requests fail.
    fn fail(&self) {
        self.failed.set(true);
    }
}

unsafe impl<A: Allocator> Allocator for Fuse<A> {
    ghost dealloc_token = { λ fuse. A.dealloc_token fuse.alloc };

    fn allocate(&self, size: usize, align: usize) -> Result<*mut u8, AllocError> {
        if self.has_failed() {
            return Err(AllocError);
        }
        match self.alloc.allocate(size, align) {
            Ok(block) => Ok(block),
            Err(error) => {
                self.fail();
                Err(error)
            }
        }
    }

    unsafe fn deallocate(&self, ptr: *mut u8, size: usize, align: usize) {
        self.alloc.deallocate(ptr, size, align);
    }
}
