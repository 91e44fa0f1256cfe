//! Entries of the tables of names and types. They stand apart from the tables, since a ghost field may not cite
//! definitions about its own struct.

ghost use Rattle.std.specs.Prelude.{◌≡◌};
ghost use Rattle.msvc_nodes.specs.NodeView.{name_of, type_of};
ghost use Rattle.msvc_rules.specs.Counts.{name_count, type_count};

use crate::budget::NodeBudget;
use msvc_nodes::nodes::{Name, Type};
use std::alloc::AllocError;

/// A memorized name, and how many nodes it has.
pub struct MemorizedName<'a, 'b, L: NodeBudget> {
    pub memorized: &'b Name<'a, 'b>,
    pub nodes: L,
    ghost counted: { L.used nodes ≡ name_count L.weight (name_of memorized.now) },
}

impl<'a, 'b, L: NodeBudget> Copy for MemorizedName<'a, 'b, L> {}

impl<'a, 'b, L: NodeBudget> Clone for MemorizedName<'a, 'b, L> {
    fn clone(&self) -> Result<MemorizedName<'a, 'b, L>, AllocError> {
        Ok(MemorizedName {
            memorized: self.memorized,
            nodes: self.nodes,
        })
    }
}

/// A memorized type, the offsets in bytes where its text starts and ends, and how many nodes it has.
pub struct MemorizedType<'a, 'b, L: NodeBudget> {
    pub memorized: &'b Type<'a, 'b>,
    pub start: usize,
    pub end: usize,
    pub nodes: L,
    ghost counted: { L.used nodes ≡ type_count L.weight (type_of memorized.now) },
}

impl<'a, 'b, L: NodeBudget> Copy for MemorizedType<'a, 'b, L> {}

impl<'a, 'b, L: NodeBudget> Clone for MemorizedType<'a, 'b, L> {
    fn clone(&self) -> Result<MemorizedType<'a, 'b, L>, AllocError> {
        Ok(MemorizedType {
            memorized: self.memorized,
            start: self.start,
            end: self.end,
            nodes: self.nodes,
        })
    }
}
