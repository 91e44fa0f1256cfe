//! One symbol: reads it and prints its declaration, or returns why it has none.
#![tactic(auto)]

mod arena;
mod demangler;
mod grammar;
mod steps;

pub use arena::Arena;
pub use demangler::Demangler;
pub use grammar::Grammar;
pub use steps::{Named, declare_once, print, read};
