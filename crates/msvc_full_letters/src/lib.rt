//! Reads what Full, the second grammar, has without recursion: letters, texts of tables, numbers, qualifiers and names.
//! A reader takes the parser of `msvc_cursor`, which has the state of both grammars. Where the two have the same table,
//! as `proofs/SharedTables` shows, the function of `msvc_cursor` reads it. The steps of productions that begin with a
//! text of a table are in `proofs/TextSteps`.
#![tactic(auto)]

pub mod arrays;
pub mod forms;
pub mod letters;
pub mod names;
pub mod numbers;
pub mod offsets;
pub mod operators;
pub mod qualifiers;
pub mod strings;
pub mod texts;
