//! Symbols inside text: each is replaced by its declaration, and no other byte changes.
#![tactic(auto)]

mod filter;
mod symbol_bounds;

pub use filter::{
    Filtered, How, filter_blocks, filter_slice, filter_slice_as, filter_slice_in, filter_text,
    filter_text_colored, filter_text_in, filter_text_without,
};
