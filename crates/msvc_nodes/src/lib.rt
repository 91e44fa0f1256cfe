//! What readers and printers of Microsoft's C++ symbols share: errors, sets of bits, and nodes in an arena with a test
//! for equal trees. The specifications beside it define the trees and how nodes are seen as trees.
//!
//! Nothing here reads a symbol or prints a declaration, and no type here owns a tree: those live in `msvc_tree`.
#![tactic(auto)]

pub mod error;
pub mod flags;
pub mod kinds;
pub mod list;
pub mod nodes;
pub mod same;
pub mod sizes;
