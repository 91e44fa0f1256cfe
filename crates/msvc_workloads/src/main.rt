//! Calls the demangler as its users do, over symbols that are made from shapes, and prints a digest of all that the
//! calls return: `msvc_workloads WORKLOAD COUNT SEED < shapes`. `bench/run` times it.
//!
//! The workload `all` runs each of the others. Another seed gives another input of the same kind and size.
#![tactic(auto)]

mod digest;
mod hostile;
mod jobs;
mod random;
mod shapes;
mod texts;

use digest::Digest;
use jobs::run;
use shapes::Shapes;
use std::alloc::{AllocError, Global};
use std::{env, io};

/// The names of the workloads.
const WORKLOADS: [&str; 6] = ["names", "lines", "map", "log", "trees", "hostile"];

fn main(rt: HostRuntime) -> io::Result<()> {
    let mut words = env::args(&rt)?.skip(1);
    let Some(chosen) = words.next() else {
        return println!(rt; "usage: msvc_workloads WORKLOAD COUNT SEED < shapes");
    };
    let count = number(words.next());
    let seed = number(words.next());
    let text = io::read_to_string(rt.alloc(), rt.stdin())?;
    let shapes = Shapes::read(rt.alloc(), text.as_str(), seed)?;
    for workload in WORKLOADS {
        if chosen.as_str() == workload || chosen.as_str() == "all" {
            let sum = sum_of(rt.alloc(), workload, &shapes, count)?;
            println!(rt; "{workload} {sum:016x}")?;
        }
    }
    Ok(())
}

/// Returns the number that a word stands for, and 0 for any other word or none.
fn number(word: Option<String>) -> u64 {
    word.and_then(|digits| digits.as_str().parse().ok())
        .unwrap_or(0)
}

/// Returns the digest of a workload.
fn sum_of(alloc: Global, workload: &str, shapes: &Shapes, count: u64) -> Result<u64, AllocError> {
    let mut digest = Digest::new();
    run(alloc, workload, shapes, count, &mut digest)?;
    Ok(digest.sum)
}
