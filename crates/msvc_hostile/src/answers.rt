//! Makes all calls on one text, with ample memory. Calls that accept it must not run out of memory, and calls that
//! reject it must print the same error. Proofs cover which texts they accept and what they return.

use crate::made::{WORDS, is_made, is_rejected_so, is_within, shown_as};
use crate::{kept, within};
use msvc_demangler::{
    DemangleFlags, Demangler, Error, Flags, Grammar, ParseResult, back_references, demangle, parse,
    parse_prefix, serialize, symbol_length,
};
use std::alloc::Global;

/// The common result of all calls on a text.
#[derive(Clone, Copy, Drop)]
pub enum Answer {
    /// Each rejects it alike, at a place within it.
    Rejected,
    /// It is a symbol.
    Accepted {
        /// The number of its bytes that are read.
        bytes: usize,
        /// The number of its digits that are whole parameters.
        digits: usize,
    },
    /// They contradict one another, or one of them runs out of memory.
    Contradicted,
}

/// Makes all calls of a demangler's grammar on a text. Returns their common result.
///
/// Those of the crate's grammar are `parse_prefix`, `parse`, `demangle`, `back_references`, `serialize`,
/// `symbol_length` and their variants with a limit; those of Full are the calls of the demangler.
pub fn all_answers(alloc: Global, demangler: &mut Demangler, text: &str) -> Answer {
    match demangler.grammar() {
        Grammar::Crate => free_answers(alloc, demangler, text),
        Grammar::Full => kept_answers(alloc, demangler, text),
    }
}

/// Makes all calls of the crate's grammar on a text.
fn free_answers(alloc: Global, demangler: &mut Demangler, text: &str) -> Answer {
    let read = parse_prefix(alloc, text);
    let answer = match &read {
        Ok(whole) => accepted(alloc, demangler, text, whole),
        Err(refusal) => rejected(alloc, demangler, text, refusal),
    };
    drop(read);
    answer
}

/// Makes all calls of a demangler on a text.
fn kept_answers(alloc: Global, demangler: &mut Demangler, text: &str) -> Answer {
    let bytes = match demangler.symbol_length_within(text, usize::MAX) {
        Ok(bytes) => bytes,
        Err(refusal) => return rejected(alloc, demangler, text, &refusal),
    };
    let Ok(found) = demangler.back_references(text) else {
        return Answer::Contradicted;
    };
    if kept::all_accept(alloc, demangler, text, bytes) {
        return Answer::Accepted {
            bytes,
            digits: found.len(),
        };
    }
    Answer::Contradicted
}

/// Returns the result for an accepted text, of which a tree and a number of bytes were read.
fn accepted(
    alloc: Global,
    demangler: &mut Demangler,
    text: &str,
    read: &(ParseResult<'_>, usize),
) -> Answer {
    let Ok(found) = back_references(alloc, text) else {
        return Answer::Contradicted;
    };
    if all_accept(alloc, demangler, text, &read.0) {
        return Answer::Accepted {
            bytes: read.1,
            digits: found.len(),
        };
    }
    Answer::Contradicted
}

/// Returns whether each other call accepts a text of this tree, and those with a limit name it if no node is allowed.
fn all_accept(
    alloc: Global,
    demangler: &mut Demangler,
    text: &str,
    tree: &ParseResult<'_>,
) -> bool {
    is_made(parse(alloc, text))
        && is_made(symbol_length(alloc, text))
        && is_printed(alloc, text, tree)
        && within::wants_nodes(alloc, demangler, text, 0)
}

/// Returns whether a text and its tree have declarations under each set of flags.
fn is_printed(alloc: Global, text: &str, tree: &ParseResult<'_>) -> bool {
    for word in WORDS {
        let flags = DemangleFlags::from_bits_retain(word);
        if !is_made(demangle(alloc, text, flags)) || !is_made(serialize(alloc, tree, flags)) {
            return false;
        }
    }
    true
}

/// Returns the result for a text that one call rejects.
fn rejected(alloc: Global, demangler: &mut Demangler, text: &str, refusal: &Error) -> Answer {
    match shown_as(alloc, refusal) {
        Ok(shown)
            if is_within(refusal, text) && all_reject(alloc, demangler, text, shown.as_str()) => {
            Answer::Rejected
        }
        _ => Answer::Contradicted,
    }
}

/// Returns whether each call of a demangler's grammar rejects a text with the error text `shown`.
fn all_reject(alloc: Global, demangler: &mut Demangler, text: &str, shown: &str) -> bool {
    let reject = match demangler.grammar() {
        Grammar::Crate => free_reject(alloc, text, shown),
        Grammar::Full => kept::all_reject(alloc, demangler, text, shown),
    };
    reject && within::is_rejected(alloc, demangler, text, shown)
}

/// Returns whether the calls of the crate's grammar without a limit reject a text with the error text `shown`.
fn free_reject(alloc: Global, text: &str, shown: &str) -> bool {
    is_rejected_so(alloc, parse(alloc, text), shown)
        && is_rejected_so(alloc, symbol_length(alloc, text), shown)
        && is_rejected_so(alloc, back_references(alloc, text), shown)
        && is_rejected(alloc, text, shown)
}

/// Returns whether `demangle` rejects a text with the error text `shown` under each set of flags.
fn is_rejected(alloc: Global, text: &str, shown: &str) -> bool {
    for word in WORDS {
        let flags = DemangleFlags::from_bits_retain(word);
        if !is_rejected_so(alloc, demangle(alloc, text, flags), shown) {
            return false;
        }
    }
    true
}
