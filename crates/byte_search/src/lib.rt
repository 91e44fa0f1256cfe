//! Finds a byte that is often near.
#![tactic(auto)]

mod search;

pub use search::find_byte;
