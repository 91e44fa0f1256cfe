//! The parser's state, and what is read without recursion: letters, texts of tables, numbers, strings, memorized names
//! and types. Lists, the limit on nodes and rejections are here too. A reader that calls one of the cycle in
//! `msvc_productions` belongs there; small readers that only that cycle calls, and functions that store nodes, stand
//! beside it.
#![tactic(auto)]

pub mod back_references;
pub mod budget;
pub mod entries;
pub mod failure;
pub mod last_error;
pub mod letters;
pub mod limits;
pub mod nested_list;
pub mod numbers;
pub mod parser;
pub mod source_names;
pub mod special_codes;
pub mod store;
pub mod strings;
pub mod symbol_read;
pub mod type_prefixes;
