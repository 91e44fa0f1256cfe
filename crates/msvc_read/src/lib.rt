//! The calls that read a symbol and print nothing.
#![tactic(auto)]

mod calls;

pub use calls::{
    back_references, parse, parse_prefix, parse_within, symbol_length, symbol_length_within,
};
