//! Full, the second grammar of Microsoft's C++ symbols, and its laws. Nothing here reads a symbol.
#![tactic(auto)]

pub mod forms;
