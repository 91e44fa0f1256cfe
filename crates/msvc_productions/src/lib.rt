//! The productions that call each other, a reader each, all in one cycle of calls, `readers`; `symbol` begins it. Every
//! other function here serves that cycle alone and calls none of it: it reads a part without recursion, or stores a
//! node. `read` reads the symbol that a text begins with. Letters, numbers, strings, back references and the parser's
//! state are in `msvc_cursor`. Nothing here prints.
#![tactic(auto, using(msvc_cursor::proofs::Steps::steps), unfolding(msvc_grammar::specs::Grammar::arrays, msvc_nodes::specs::NodeView::name_of, msvc_nodes::specs::NodeView::type_of))]

mod function_types;
mod guards;
mod hashed_symbols;
mod parameters;
mod qualified_names;
mod reading;
mod special_names;
pub mod symbols;
mod types;

pub use reading::read;
