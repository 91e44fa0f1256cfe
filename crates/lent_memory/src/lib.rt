//! Memory that a caller lends, as an allocator. Nothing here calls the C library.
#![tactic(auto)]

mod lent;
mod slot;
mod workspace;

pub use lent::Lent;
pub use workspace::Workspace;
