//! Holds the table of shapes: names and types of the second grammar, a row each, with what each row prints, as data.
//!
//! A node of a shape has the number of its row and the parts that the row prints. A new row is its number in `rows`,
//! its layout in `layouts`, and the same two in `specs`. Nothing here writes a text or reads a symbol.
#![tactic(auto)]

pub mod layouts;
pub mod rows;
