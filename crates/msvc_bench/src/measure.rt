//! Measures the time of the demangler for names, in one process: `msvc_bench measure ROUNDS` with the names as lines of
//! standard input, `msvc_bench kept ROUNDS` with one kept demangler, `msvc_bench kept-full ROUNDS` with one of Full.
//! `measure/run` compares the first two with LLVM's library.

use msvc_demangler::{DemangleFlags, Demangler, Grammar, demangle};
use std::alloc::Global;
use std::io;
use std::time::{Duration, Instant};

/// Demangles all names in each of `rounds` rounds, and prints the nanoseconds of the fastest round and the bytes of its
/// texts. With 0 rounds, prints the names that are demangled.
pub fn measure(rt: &HostRuntime, rounds: u64) -> io::Result<()> {
    let names = read_names(rt)?;
    if rounds == 0 {
        return print_demangled(rt, &names);
    }
    let mut fastest = Duration::MAX;
    let mut bytes = 0;
    for _ in 0..rounds {
        let start = Instant::now(rt)?;
        bytes = length_of_texts(rt.alloc(), &names);
        fastest = fastest.min(start.elapsed(rt)?);
    }
    print_round(rt, fastest, bytes)
}

/// Does the same by one demangler of a grammar, which is kept from name to name and from round to round.
pub fn measure_kept(rt: &HostRuntime, grammar: Grammar, rounds: u64) -> io::Result<()> {
    let names = read_names(rt)?;
    let mut demangler = Demangler::with_grammar(rt.alloc(), grammar);
    let mut fastest = Duration::MAX;
    let mut bytes = 0;
    for _ in 0..rounds {
        let start = Instant::now(rt)?;
        bytes = length_of_kept_texts(&mut demangler, &names);
        fastest = fastest.min(start.elapsed(rt)?);
    }
    print_round(rt, fastest, bytes)
}

/// Reads the names, a line each.
fn read_names(rt: &HostRuntime) -> io::Result<Vec<String>> {
    let mut names = Vec::new(rt.alloc());
    for line in rt.lines(rt.alloc()) {
        names.push(line?)?;
    }
    Ok(names)
}

/// Prints the nanoseconds of the fastest round and the bytes of its texts.
fn print_round(rt: &HostRuntime, fastest: Duration, bytes: u64) -> io::Result<()> {
    let nanoseconds = fastest.as_nanos();
    println!(rt; "{nanoseconds} {bytes}")
}

/// Prints the names that have a text, a line each.
fn print_demangled(rt: &HostRuntime, names: &[String]) -> io::Result<()> {
    for name in names {
        if demangle(rt.alloc(), name.as_str(), DemangleFlags::llvm()).is_ok() {
            println!(rt; "{name}")?;
        }
    }
    Ok(())
}

/// Makes one round. Returns the bytes of the texts of all names.
fn length_of_texts(alloc: Global, names: &[String]) -> u64 {
    let mut bytes = 0u64;
    for name in names {
        if let Ok(text) = demangle(alloc, name.as_str(), DemangleFlags::llvm()) {
            bytes = bytes.wrapping_add(text.len() as u64);
        }
    }
    bytes
}

/// Makes one round with one demangler. Returns the bytes of the texts of all names.
fn length_of_kept_texts(demangler: &mut Demangler, names: &[String]) -> u64 {
    let mut bytes = 0u64;
    for name in names {
        if let Ok(text) = demangler.demangle(name.as_str(), DemangleFlags::llvm()) {
            bytes = bytes.wrapping_add(text.len() as u64);
        }
    }
    bytes
}
