//! Readers and writers that remember whether a call on them has failed, and the fault that ends a run over them.
#![tactic(auto)]

mod blocks;
mod output;
mod watched;

pub use blocks::{drop_front, lines_len};
pub use output::{write_all, write_line};
pub use watched::{
    Fault, Polls, ReadFailure, Taken, Watched, consume, fail, fill_buf, line_end, read_block,
};
