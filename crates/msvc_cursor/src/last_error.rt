//! The reason why the last reader failed. It stands apart from the parser, since a ghost field may not cite definitions
//! about its own struct.

ghost use Rattle.std.specs.Prelude.{◌≡◌, true};
ghost use Rattle.msvc_cursor.specs.Messages.{may_fail_for};

use crate::budget::NodeBudget;
use crate::failure::Failure;
use std::marker::PhantomData;

/// The reason why the last reader failed. It is the limit on nodes only if nodes are counted.
#[derive(Drop)]
pub struct LastError<L: NodeBudget> {
    pub reason: Failure,
    pub budget: PhantomData<L>,
    ghost counted: { may_fail_for L.weight reason ≡ true },
}
