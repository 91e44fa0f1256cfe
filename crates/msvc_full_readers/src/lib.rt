//! The productions of Full, the second grammar, that call each other, a reader each, all in one cycle of calls,
//! `readers`; `symbol` begins it. Every other function here serves that cycle alone and calls none of it: it reads a
//! part without recursion, or stores a node. `read` reads the symbol that a text begins with. Letters, texts of tables
//! and numbers are in `msvc_full_letters`, the parser's state in `msvc_cursor`. Nothing here prints.
#![tactic(auto, using(crate::proofs::Steps::steps), unfolding(msvc_nodes::specs::NodeView::name_of, msvc_nodes::specs::NodeView::type_of))]

mod anonymous_namespaces;
mod arguments;
mod base_types;
mod functions;
mod made_symbols;
mod names;
mod parameters;
mod pointers;
mod qualifiers;
mod reading;
mod repeated_classes;
mod store;
mod symbols;
mod types;

pub use reading::read;
