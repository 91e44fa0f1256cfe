//! Compares the demangler with expected results from outside, and its calls with one another.
//!
//!     msvc_bench < stdin
//!     msvc_bench prefix < prefix.tsv
//!     msvc_bench within NODES < symbols
//!     msvc_bench within-full NODES < symbols
//!     msvc_bench hostile SEED COUNT < stdin
//!     msvc_bench hostile-full SEED COUNT < stdin
//!     msvc_bench measure ROUNDS < names
//!     msvc_bench kept ROUNDS < names
//!     msvc_bench kept-full ROUNDS < names
#![tactic(auto)]

mod calls;
mod digits;
mod filter;
mod fuse;
mod limits;
mod lines;
mod measure;
mod streams;

use msvc_demangler::Grammar;
use msvc_hostile::{hostile, prefix, within};
use std::{env, io};

fn main(rt: HostRuntime) -> io::Result<()> {
    let mut words = env::args(&rt)?.skip(1);
    let Some(command) = words.next() else {
        return msvc_rows::compare(&rt, Grammar::Crate);
    };
    let first = number(words.next());
    let second = number(words.next());
    let grammar = grammar_of(command.as_str());
    match command.as_str() {
        "prefix" => prefix::compare(&rt),
        "within" | "within-full" => within::reject(&rt, grammar, first),
        "hostile" | "hostile-full" => hostile::run(&rt, grammar, first, second),
        "kept" | "kept-full" => measure::measure_kept(&rt, grammar, first),
        _ => measure::measure(&rt, first),
    }
}

/// Returns the grammar of a command.
fn grammar_of(command: &str) -> Grammar {
    if command.ends_with("-full") {
        Grammar::Full
    } else {
        Grammar::Crate
    }
}

/// Returns the number that a word spells, and 0 for any other word or none.
fn number(word: Option<String>) -> u64 {
    word.and_then(|digits| digits.as_str().parse().ok())
        .unwrap_or(0)
}
