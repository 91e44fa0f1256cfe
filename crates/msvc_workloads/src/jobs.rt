//! The workloads: what is called, over what.

use crate::digest::Digest;
use crate::hostile::put_hostile;
use crate::shapes::Shapes;
use crate::texts::{Kind, Lines};
use msvc_demangler::{
    BackReference, DEFAULT_BYTE_LIMIT, DEFAULT_NODE_LIMIT, DemangleFlags, Fault, ParseResult,
    Watched, back_references, demangle, demangle_within, filter_text, parse, serialize,
    symbol_length, undname_lines,
};
use std::alloc::{AllocError, Global};
use std::str::from_utf8;

/// How many lines of a text are read in one call.
const BLOCK: u64 = 4600;

/// Runs a workload over so many symbols or lines.
pub fn run(
    alloc: Global,
    workload: &str,
    shapes: &Shapes,
    count: u64,
    digest: &mut Digest,
) -> Result<(), AllocError> {
    match workload {
        "lines" => blocks(alloc, shapes, Kind::Symbols, count, digest),
        "map" => blocks(alloc, shapes, Kind::Map, count, digest),
        "log" => blocks(alloc, shapes, Kind::Log, count, digest),
        _ => symbols(alloc, workload, shapes, count, digest),
    }
}

/// Runs a workload that calls for each symbol.
fn symbols(
    alloc: Global,
    workload: &str,
    shapes: &Shapes,
    count: u64,
    digest: &mut Digest,
) -> Result<(), AllocError> {
    let mut symbol = Vec::new(alloc);
    for number in 0..count {
        symbol.clear();
        match workload {
            "names" => {
                shapes.put_name(number, &mut symbol)?;
                name(alloc, text_of(&symbol), number, digest)?;
            }
            "trees" => {
                shapes.put_name(number, &mut symbol)?;
                tree(alloc, text_of(&symbol), digest)?;
                measure(alloc, text_of(&symbol), digest)?;
            }
            _ => {
                put_hostile(shapes, number, &mut symbol)?;
                guarded(alloc, text_of(&symbol), number, digest)?;
            }
        }
    }
    Ok(())
}

/// Returns the text of bytes that are all of ASCII.
#[inline(never)]
fn text_of(bytes: &[u8]) -> &str {
    from_utf8(bytes).unwrap_or("")
}

/// Demangles a symbol, under two words of flags by turns.
fn name(alloc: Global, text: &str, number: u64, digest: &mut Digest) -> Result<(), AllocError> {
    let flags = if number.is_multiple_of(2) {
        DemangleFlags::llvm()
    } else {
        DemangleFlags::COMPLETE
    };
    digest.declared(alloc, demangle(alloc, text, flags))
}

/// Demangles a symbol that is not trusted, with limits and without by turns.
fn guarded(alloc: Global, text: &str, number: u64, digest: &mut Digest) -> Result<(), AllocError> {
    let flags = DemangleFlags::llvm();
    let (nodes, bytes) = if (number / 16).is_multiple_of(2) {
        (DEFAULT_NODE_LIMIT, DEFAULT_BYTE_LIMIT)
    } else {
        (usize::MAX, usize::MAX)
    };
    digest.declared(alloc, demangle_within(alloc, text, flags, nodes, bytes))
}

/// Parses a symbol into a tree, and prints the tree.
fn tree(alloc: Global, text: &str, digest: &mut Digest) -> Result<(), AllocError> {
    match parse(alloc, text) {
        Ok(parsed) => {
            let printed = print(alloc, &parsed, digest);
            drop(parsed);
            printed
        }
        Err(error) => digest.error(alloc, &error),
    }
}

/// Prints a tree under two words of flags.
fn print(alloc: Global, parsed: &ParseResult<'_>, digest: &mut Digest) -> Result<(), AllocError> {
    digest.declared(alloc, serialize(alloc, parsed, DemangleFlags::llvm()))?;
    digest.declared(alloc, serialize(alloc, parsed, DemangleFlags::COMPLETE))
}

/// Measures a symbol, and lists its back references.
fn measure(alloc: Global, text: &str, digest: &mut Digest) -> Result<(), AllocError> {
    match symbol_length(alloc, text) {
        Ok(length) => digest.word(length as u64),
        Err(error) => digest.error(alloc, &error)?,
    }
    match back_references(alloc, text) {
        Ok(references) => {
            list(&references, digest);
            Ok(())
        }
        Err(error) => digest.error(alloc, &error),
    }
}

/// Folds back references.
fn list(references: &[BackReference], digest: &mut Digest) {
    for reference in references {
        digest.word(reference.at as u64);
        digest.word(reference.start as u64);
        digest.word(reference.end as u64);
    }
}

/// Runs a workload over texts of many lines.
fn blocks(
    alloc: Global,
    shapes: &Shapes,
    kind: Kind,
    count: u64,
    digest: &mut Digest,
) -> Result<(), AllocError> {
    let lines = Lines::new(alloc, shapes, kind)?;
    let mut block = Vec::new(alloc);
    let mut out = Vec::new(alloc);
    for first in 0..count.div_ceil(BLOCK) {
        block.clear();
        let first = first.wrapping_mul(BLOCK);
        for number in first..first.saturating_add(BLOCK).min(count) {
            lines.put(number, &mut block)?;
        }
        out.clear();
        out = match kind {
            Kind::Symbols => answered(alloc, &block, out, digest),
            _ => filtered(alloc, &block, out, digest),
        };
        digest.bytes(&out);
    }
    Ok(())
}

/// Demangles each line of a block, and returns what is printed, in a vector that is used again.
#[inline(never)]
fn answered(alloc: Global, block: &[u8], out: Vec<u8>, digest: &mut Digest) -> Vec<u8> {
    let mut input = Watched::new(block);
    let mut answers = Watched::new(out);
    let mut remarks = Watched::new(Vec::new(alloc));
    let done = undname_lines(alloc, &mut input, &mut answers, &mut remarks, false);
    digest.word(code_of(done));
    digest.bytes(&remarks.into_inner());
    answers.into_inner()
}

/// Filters a block, and returns what is printed, in a vector that is used again.
#[inline(never)]
fn filtered(alloc: Global, block: &[u8], out: Vec<u8>, digest: &mut Digest) -> Vec<u8> {
    let mut input = Watched::new(block);
    let mut text = Watched::new(out);
    let done = filter_text(alloc, &mut input, &mut text, DemangleFlags::llvm());
    digest.word(code_of(done));
    text.into_inner()
}

/// Returns a number for how a run ended.
fn code_of(done: Result<(), Fault>) -> u64 {
    match done {
        Ok(()) => 0,
        Err(Fault::Read) => 1,
        Err(Fault::Write) => 2,
        Err(Fault::Memory) => 3,
    }
}
