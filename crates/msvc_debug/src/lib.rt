//! The tree of a symbol for a person to read, on one line, by the names that the types of `msvc_tree` and their parts
//! have: of `?f@A@@QBEHPBD@Z`, `A::f: MemberFunction(PUBLIC Thiscall CONST [Ptr(CONST Char)] Int)`. The text is that of
//! `specs/TreeText`.
#![tactic(auto)]

mod hidden;
mod item;
mod lists;
mod literals;
mod names;
mod parts;
mod tree;
mod types;
mod words;

pub use tree::write_tree;
