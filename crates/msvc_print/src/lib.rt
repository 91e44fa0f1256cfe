//! The printer: writes the declaration of a symbol's nodes under flags.
//!
//! All words and all rules of printing live here, over nodes in an arena. Nothing here knows mangled texts, their
//! grammar or owned trees.
//!
//! A symbol goes through `printer`: its `Printer` has the stack of `item`, the output and the flags, and loops over the
//! stack. Each step is a method of `Printer` in `qualified_names` or `types`; these call `simple_types`,
//! `function_types`, `operators` and `words`; `spaces` writes the spaces, and `text` the bytes.
//!
//! One printer prints the trees of both grammars: `style` says whose spaces and words it prints.
//!
//! A method `print_*` works on the stack and the text, a function `write_*` on the text alone, and a function `push_*`
//! on the stack alone.
#![tactic(auto, using(crate::proofs::Stack::pushes))]

mod function_types;
mod hexadecimal;
mod item;
pub mod llvm_flags;
mod named;
mod operators;
mod pointed;
mod printer;
mod qualified_names;
mod shapes;
mod sides;
mod simple_types;
mod spaces;
mod strings;
mod style;
mod text;
mod types;
mod words;

pub use named::{NamePlace, print_named};
pub use printer::{print, print_styled, print_within};
pub use style::{CrateWording, FullWording, Style, Wording};
pub use text::{Text, into_string_lossy};
