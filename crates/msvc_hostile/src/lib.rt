//! Tests of `msvc_bench` beside rows: hostile texts, the number of bytes that are read, and low limits on nodes.
//!
//! This is a library without tests, since a crate with tests is proved twice; its tests are in `msvc_bench`.
#![tactic(auto)]

mod answers;
mod failures;
mod full_grammar;
mod grammar;
pub mod hostile;
mod kept;
mod made;
pub mod multiplied;
pub mod prefix;
pub mod within;
mod written;
