//! Shared parts of the programs: their arguments, and how they end.
#![tactic(auto)]

mod program;

pub use program::{BUFFER_LENGTH, arguments, failure};
