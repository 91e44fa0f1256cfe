//! A cell that holds a workspace, or nothing while its memory is given out.

ghost use Rattle.std.specs.Prelude.{◌≡◌, ℕ, IfSome};
ghost use base.Fml.{fex, fsep, ftrue};
ghost use denote.RawPtr.{Ptr};
ghost use Rattle.lent_memory.specs.Blocks.{behind_a_ref};

use crate::workspace::Workspace;
use std::marker::{Move, Owns};

/// Holds one workspace or none, and is changed through a `&`. Contracts see it as the address and the size of that
/// workspace, which stay the same while it holds none.
pub(crate) struct Slot {
    memory: Option<Workspace>,
}

impl Owns for Slot {
    ghost Value = { Ptr × ℕ };

    ghost shr_at = { λ r. behind_a_ref Fields (λ i. fex (IfSome i.memory (λ m. (m.ptr, m.size) ≡ r)) (λ _. ftrue)) };
}

impl Move for Slot {
    ghost own_val = { λ r vs. fex Inside (λ i. fsep (Fields.own_val i vs)
        (fex (IfSome i.memory (λ m. (m.ptr, m.size) ≡ r)) (λ _. ftrue))) };
}

impl Slot {
    /// Makes a slot that holds `memory`.
    pub(crate) fn new(memory: Workspace) -> Slot
        ensures { result ≡ (memory.ptr, memory.size) }
    {
        Slot {
            memory: Some(memory),
        }
    }

    /// Moves `memory` in, and returns what the slot held.
    pub(crate) fn replace(&self, memory: Option<Workspace>) -> Option<Workspace>
        requires { IfSome memory (λ m. (m.ptr, m.size) ≡ self.now) }
        ensures { IfSome result (λ m. (m.ptr, m.size) ≡ self.now) }
    {
        let place = &raw const self.memory as *mut Option<Workspace>;
        unsafe {
            let old = place.read();
            place.write(memory);
            old
        }
    }

    /// Returns what the slot holds.
    pub(crate) fn into_inner(self) -> Option<Workspace>
        ensures { IfSome result (λ m. (m.ptr, m.size) ≡ self) }
    {
        let Slot { memory } = self;
        memory
    }
}
