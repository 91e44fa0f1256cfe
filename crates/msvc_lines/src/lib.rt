//! `undname`: each line, or each argument, is one symbol.
#![tactic(auto)]

mod lines;
mod run;

pub use lines::{undname_lines, undname_one};
pub use run::undname_run;
