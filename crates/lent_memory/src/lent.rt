//! The allocator: one block at a time, of all the memory.

ghost use Rattle.std.specs.Prelude.{◌≡◌, ◌≤◌, ◌<◌, IfSome};
ghost use Rattle.lent_memory.specs.Blocks.{block_token};
ghost use Rattle.lent_memory.specs.Ownership.{IsSize};

use crate::slot::Slot;
use crate::workspace::{Block, Workspace};
use std::alloc::{AllocError, Allocator};
use std::mem::ManuallyDrop;

/// Lends a workspace as an allocator that is used as `&Lent`: it gives out one block, of at most all the bytes, and
/// fails for every other request until that block is given back. So it serves what makes one request, as an arena that
/// begins as large as it will ever be.
pub struct Lent {
    size: usize,
    slot: Slot,
    ghost tied: { (slot.1 ≡ size) × IsSize size },
}

impl Lent {
    /// Makes an allocator of `memory`.
    pub fn new(memory: Workspace) -> Lent
        ensures { result.slot ≡ (memory.ptr, memory.size) }
    {
        let (size, memory) = memory.with_size();
        Lent {
            size,
            slot: Slot::new(memory),
        }
    }

    /// Returns how many bytes a block can have.
    pub fn size(&self) -> usize
        ensures { result ≡ self.now.size }
    {
        self.size
    }

    /// Returns the workspace, or `None` if its block was not given back.
    pub fn into_inner(self) -> Option<Workspace>
        ensures { IfSome result (λ m. (m.ptr, m.size) ≡ self.slot) }
    {
        let Lent { size: _, slot } = self;
        slot.into_inner()
    }

    /// Takes the memory for a block of `size` bytes, if it is there and large enough.
    fn take(&self, size: usize, align: usize) -> Option<Workspace>
        ensures { IfSome result (λ m. ((m.ptr, m.size) ≡ self.now.slot)
            × (1 ≤ m.size) × (size ≤ m.size) × (align ≤ 16)) }
    {
        if align > 16 || size > self.size || self.size == 0 {
            return None;
        }
        self.slot.replace(None)
    }

    /// Puts the memory of a block back.
    fn give_back(&self, block: Block)
        requires { (block.ptr, block.size) ≡ self.now.slot }
    {
        let memory = block.sized(self.size);
        match self.slot.replace(Some(memory)) {
            Some(other) => {
                let _lost = unsafe { ManuallyDrop::new_unchecked(other) };
            }
            None => {}
        }
    }
}

unsafe impl Allocator for Lent {
    ghost dealloc_token = { λ lent. block_token lent.slot };

    fn allocate(&self, size: usize, align: usize) -> Result<*mut u8, AllocError> {
        match self.take(size, align) {
            Some(Workspace { ptr, size: _ }) => Ok(ptr),
            None => Err(AllocError),
        }
    }

    unsafe fn deallocate(&self, ptr: *mut u8, _size: usize, _align: usize) {
        self.give_back(Block { ptr });
    }
}

impl Drop for Lent {
    fn drop(self) {
        let _lost = unsafe { ManuallyDrop::new_unchecked(self) };
    }
}
