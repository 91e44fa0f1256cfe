//! Compares the errors of calls with limits with each other and with those of the calls without: of the calls without a
//! demangler for the crate's grammar, and of those of a demangler for Full.
//!
//! `msvc_bench within NODES` prints for each line of standard input its error under that limit on nodes,
//! `msvc_bench within-full NODES` the error of Full.

use crate::failures::all_fail;
use crate::made::{is_rejected_so, is_within, rejection_of, shown_as};
use msvc_demangler::{
    DemangleFlags, Demangler, Error, Grammar, Limits, demangle_within, parse_within,
    symbol_length_within,
};
use std::alloc::Global;
use std::io;

/// The beginning of the error for the limit on nodes.
const WANT: &str = "more nodes than allowed (offset: ";

/// The most limits that are tried until the fewest nodes are found.
const TRIES: usize = 64;

pub fn reject(rt: &HostRuntime, grammar: Grammar, nodes: u64) -> io::Result<()> {
    let nodes = usize::try_from(nodes).unwrap_or(usize::MAX);
    let mut demangler = Demangler::with_grammar(rt.alloc(), grammar);
    for line in rt.lines(rt.alloc()) {
        let line = line?;
        match rejection_within(rt.alloc(), &mut demangler, line.as_str(), nodes) {
            Some(shown) => println!(rt; "{shown}")?,
            None => println!(rt; "not refused by all")?,
        }
    }
    Ok(())
}

/// Returns the fewest nodes with which a text is accepted, found by doubling, then by bisection; the largest number if
/// none is found.
pub fn fewest_nodes(demangler: &mut Demangler, text: &str) -> usize {
    let mut rejected = 0usize;
    let mut accepted = usize::MAX;
    for _ in 0..TRIES {
        let next = next_try(rejected, accepted);
        if next == rejected {
            break;
        }
        if demangler.symbol_length_within(text, next).is_ok() {
            accepted = next;
        } else {
            rejected = next;
        }
    }
    accepted
}

/// Returns the next limit to try between a rejected and an accepted one; the former if there is none between them.
fn next_try(rejected: usize, accepted: usize) -> usize {
    if accepted == usize::MAX {
        return rejected.saturating_mul(2).max(1);
    }
    rejected.saturating_add(accepted.saturating_sub(rejected) / 2)
}

/// Returns whether the calls of a grammar reject a text for the limit on nodes.
pub fn wants_nodes(alloc: Global, demangler: &mut Demangler, text: &str, nodes: usize) -> bool {
    match rejection_within(alloc, demangler, text, nodes) {
        Some(shown) => shown.as_str().starts_with(WANT),
        None => false,
    }
}

/// Returns whether the calls of a grammar reject a text that has no symbol of any size: with the error text `wanted`,
/// or for the limit on nodes if that can be exceeded.
pub fn is_rejected(alloc: Global, demangler: &mut Demangler, text: &str, wanted: &str) -> bool {
    for nodes in [0, 1] {
        let Some(shown) = rejection_within(alloc, demangler, text, nodes) else {
            return false;
        };
        if shown.as_str() != wanted && !shown.as_str().starts_with(WANT) {
            return false;
        }
    }
    match rejection_within(alloc, demangler, text, usize::MAX) {
        Some(shown) => shown.as_str() == wanted,
        None => false,
    }
}

/// Returns the common error text of the calls of a grammar under a limit on nodes; `None` if one of them accepts the
/// text, if they differ, if the offset isn't inside the text, or if memory runs out.
fn rejection_within(
    alloc: Global,
    demangler: &mut Demangler,
    text: &str,
    nodes: usize,
) -> Option<String> {
    match demangler.grammar() {
        Grammar::Crate => {
            let refusal = rejection_of(parse_within(alloc, text, nodes))?;
            shown_by_all(alloc, text, nodes, &refusal)
        }
        Grammar::Full => {
            let refusal = rejection_of(demangler.symbol_length_within(text, nodes))?;
            shown_by_kept(alloc, demangler, text, nodes, &refusal)
        }
    }
}

/// Returns the text of the error of `parse_within`, if the other calls reject the text with it too, at a place in it.
fn shown_by_all(alloc: Global, text: &str, nodes: usize, refusal: &Error) -> Option<String> {
    let shown = shown_as(alloc, refusal).ok()?;
    let declared = demangle_within(alloc, text, DemangleFlags::COMPLETE, nodes, usize::MAX);
    let measured = symbol_length_within(alloc, text, nodes);
    if is_rejected_so(alloc, declared, shown.as_str())
        && is_rejected_so(alloc, measured, shown.as_str())
        && is_within(refusal, text)
    {
        return Some(shown);
    }
    None
}

/// Returns the text of the error of `symbol_length_within`, if the demangler's other calls reject the text with it too,
/// at a place in it.
fn shown_by_kept(
    alloc: Global,
    demangler: &mut Demangler,
    text: &str,
    nodes: usize,
    refusal: &Error,
) -> Option<String> {
    let shown = shown_as(alloc, refusal).ok()?;
    let limits = Limits::new(nodes, usize::MAX);
    let declared = demangler.demangle_within(text, DemangleFlags::COMPLETE, nodes, usize::MAX);
    if is_rejected_so(alloc, declared, shown.as_str())
        && all_fail(alloc, demangler, text, limits, shown.as_str())
        && is_within(refusal, text)
    {
        return Some(shown);
    }
    None
}
