//! Trees of symbols that own their parts: the types of `tree`, with equality and copies, and the conversions to and
//! from nodes.
//!
//! Nothing here reads a symbol or prints a declaration. Nodes and the enumerations of `kinds`, which readers and
//! printers share, are in `msvc_nodes`.
#![tactic(auto, using(crate::proofs::NodeLaws::nodes, crate::proofs::Views::rows, msvc_nodes::proofs::NodeViews::views), unfolding(crate::specs::View::name_of, crate::specs::View::operator_of, crate::specs::View::type_of, msvc_nodes::specs::NodeView::name_of, msvc_nodes::specs::NodeView::type_of))]

mod kinds;
mod parts;
mod results;
pub mod to_nodes;
pub mod to_tree;
pub mod tree;
mod variants;
