//! The memory that a caller lends, as the caller passes it.

ghost use Rattle.std.specs.Prelude.{◌≡◌, ℕ};
ghost use Rattle.lent_memory.specs.Blocks.{no_memory};
ghost use Rattle.lent_memory.specs.Ownership.{IsSize, bytes_or_none};

use std::marker::Model;
use std::mem::{ManuallyDrop, replace};
use std::ptr::null_mut;

/// Owns `size` bytes at `ptr`, aligned to 16, of any contents. If the size is 0, it owns nothing and `ptr` may be null.
#[repr(C)]
pub struct Workspace {
    pub ptr: *mut u8,
    pub size: usize,
    ghost fits: { IsSize size },
}

impl Model for Workspace {
    ghost also_owns = { λ w. bytes_or_none w.size w.ptr };
}

impl Workspace {
    /// Makes a workspace of no bytes, with a null `ptr`.
    pub fn none() -> Workspace
        ensures { (result.ptr, result.size) ≡ no_memory }
    {
        Workspace {
            ptr: null_mut(),
            size: 0,
        }
    }

    /// Moves the bytes out, and leaves `none`.
    pub fn take(&mut self) -> Workspace
        ensures taken { result ≡ self.old }
        ensures none { (self.new.ptr, self.new.size) ≡ no_memory }
    {
        replace(self, Workspace::none())
    }

    /// Moves `memory` in. Bytes that were there before are lost to the program.
    pub fn put_back(&mut self, memory: Workspace)
        ensures { self.new ≡ memory }
    {
        let none = replace(self, memory);
        let _none = unsafe { ManuallyDrop::new_unchecked(none) };
    }

    /// Returns the number of bytes, and the workspace unchanged.
    pub(crate) fn with_size(self) -> (usize, Workspace)
        ensures { (result.0 ≡ self.size) × (result.1 ≡ self) }
    {
        let Workspace { ptr, size } = self;
        (size, Workspace { ptr, size })
    }
}

/// Owns what a workspace owns, without its size at hand: the allocator that the memory goes back to knows it.
pub(crate) struct Block {
    pub(crate) ptr: *mut u8,
    ghost size: { ℕ },
    ghost fits: { IsSize size },
}

impl Model for Block {
    ghost also_owns = { λ b. bytes_or_none b.size b.ptr };
}

impl Block {
    /// Makes a workspace of the block and its size.
    pub(crate) fn sized(self, size: usize) -> Workspace
        requires { size ≡ self.size }
        ensures { (result.ptr ≡ self.ptr) × (result.size ≡ size) }
    {
        let Block { ptr } = self;
        Workspace { ptr, size }
    }
}
