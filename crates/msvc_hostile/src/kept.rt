//! Makes all calls of one demangler on a text: `symbol_length_within`, `measure`, `back_references`, `demangle`,
//! `demangle_within`, `declaration` and `declare`, and the filters where the text is a symbol alone.

use crate::failures::all_fail;
use crate::made::{WORDS, is_rejected_so};
use crate::within::{fewest_nodes, wants_nodes};
use msvc_demangler::{
    DEFAULT_BYTE_LIMIT, DEFAULT_NODE_LIMIT, DemangleFlags, Demangler, Flags, Limit, Limits,
    Watched, filter_slice_in, filter_text_in,
};
use std::alloc::Global;

/// The most bytes that a filter reads as a symbol.
const CANDIDATE: usize = 4096;

/// What all calls must return for a symbol.
#[derive(Clone, Copy, Drop)]
struct Wanted<'a> {
    /// The number of its bytes.
    length: usize,
    /// The fewest nodes with which it is accepted.
    nodes: usize,
    flags: DemangleFlags,
    /// Its declaration under the flags.
    shown: &'a str,
}

/// Returns whether each call accepts a text that begins with a symbol of `length` bytes, and this symbol alone, if as
/// many nodes and bytes are allowed as it needs. The calls with a limit must name it if one less is allowed.
pub fn all_accept(alloc: Global, demangler: &mut Demangler, text: &str, length: usize) -> bool {
    let Some(symbol) = text.get(..length) else {
        return false;
    };
    let nodes = fewest_nodes(demangler, text);
    all_measure(demangler, text, length, nodes)
        && all_measure(demangler, symbol, length, nodes)
        && wants_nodes(alloc, demangler, text, 0)
        && wants_nodes(alloc, demangler, text, nodes.saturating_sub(1))
        && all_print(alloc, demangler, text, symbol, nodes)
}

/// Returns whether the calls that measure a symbol return its length with as many nodes as it needs, and without a
/// limit.
fn all_measure(demangler: &mut Demangler, text: &str, length: usize, nodes: usize) -> bool {
    let grammar = demangler.grammar();
    for most in [nodes, usize::MAX] {
        let limits = Limits::new(most, usize::MAX);
        if demangler.symbol_length_within(text, most).ok() != Some(length)
            || demangler.measure(grammar, text, limits).ok() != Some(length)
        {
            return false;
        }
    }
    true
}

/// Returns whether the calls that print declare a text, and the symbol that it begins with, under each set of flags.
fn all_print(
    alloc: Global,
    demangler: &mut Demangler,
    text: &str,
    symbol: &str,
    nodes: usize,
) -> bool {
    for word in WORDS {
        let flags = DemangleFlags::from_bits_retain(word);
        let Some(shown) = declared(alloc, demangler, text, flags) else {
            return false;
        };
        let wanted = Wanted {
            length: symbol.len(),
            nodes,
            flags,
            shown: shown.as_str(),
        };
        if !is_printed(alloc, demangler, text, symbol, wanted) {
            return false;
        }
    }
    true
}

/// Returns a copy of the declaration of a text; `None` if it has none, or if memory runs out.
fn declared(
    alloc: Global,
    demangler: &mut Demangler,
    text: &str,
    flags: DemangleFlags,
) -> Option<String> {
    let shown = demangler.demangle(text, flags).ok()?;
    String::from_str(alloc, shown).ok()
}

/// Returns whether the calls that print declare a text, and the symbol that it begins with, as wanted.
fn is_printed(
    alloc: Global,
    demangler: &mut Demangler,
    text: &str,
    symbol: &str,
    wanted: Wanted<'_>,
) -> bool {
    let bytes = wanted.shown.len();
    all_declare(demangler, text, wanted, usize::MAX, usize::MAX)
        && all_declare(demangler, text, wanted, wanted.nodes, bytes)
        && all_declare(demangler, symbol, wanted, wanted.nodes, bytes)
        && want_bytes(demangler, text, wanted)
        && (is_beyond_filter(symbol, wanted)
            || is_filtered(alloc, demangler, symbol, wanted.flags, wanted.shown))
}

/// Returns whether the calls with limits declare a text as wanted under these limits.
fn all_declare(
    demangler: &mut Demangler,
    text: &str,
    wanted: Wanted<'_>,
    nodes: usize,
    bytes: usize,
) -> bool {
    let grammar = demangler.grammar();
    let limits = Limits::new(nodes, bytes);
    is_text(
        demangler.demangle_within(text, wanted.flags, nodes, bytes),
        wanted.shown,
    ) && is_text(
        demangler.declaration(grammar, text, wanted.flags, limits),
        wanted.shown,
    ) && demangler.declare(grammar, text, wanted.flags, limits).ok() == Some(wanted.length)
        && demangler.declared() == wanted.shown.as_bytes()
}

/// Returns whether a call returns the text `shown`.
fn is_text<E: Drop>(made: Result<&str, E>, shown: &str) -> bool {
    match made {
        Ok(text) => text == shown,
        Err(_) => false,
    }
}

/// Returns whether the calls name the limit on bytes, behind the symbol, if one byte less is allowed than it needs.
fn want_bytes(demangler: &mut Demangler, text: &str, wanted: Wanted<'_>) -> bool {
    let bytes = wanted.shown.len().saturating_sub(1);
    let limits = Limits::new(wanted.nodes, bytes);
    let refusal = demangler
        .demangle_within(text, wanted.flags, wanted.nodes, bytes)
        .err();
    let failure = demangler
        .declare(demangler.grammar(), text, wanted.flags, limits)
        .err();
    match (refusal, failure) {
        (Some(refusal), Some(failure)) => {
            refusal.limit() == Some(Limit::Bytes)
                && refusal.offset() == Some(wanted.length)
                && failure.limit() == Some(Limit::Bytes)
                && failure.offset(text) == wanted.length
        }
        _ => false,
    }
}

/// Returns whether a symbol is none of a filter: it is too long, exceeds a limit, has a byte that ends candidates, or may
/// be the ending of a file's name.
fn is_beyond_filter(symbol: &str, wanted: Wanted<'_>) -> bool {
    symbol.len() > CANDIDATE
        || wanted.nodes > DEFAULT_NODE_LIMIT
        || wanted.shown.len() > DEFAULT_BYTE_LIMIT
        || symbol.bytes().any(|byte| byte <= b' ' || byte == 0x7F)
        || is_file_ending(symbol)
}

/// Returns whether a text is a full stop, and letters alone up to the end of the word.
fn is_file_ending(text: &str) -> bool {
    let Some(letters) = text.strip_prefix('.') else {
        return false;
    };
    for byte in letters.bytes() {
        if !byte.is_ascii_alphabetic() {
            return !is_word_byte(byte);
        }
    }
    true
}

/// Returns whether both filters write `shown` for a text.
fn is_filtered(
    alloc: Global,
    demangler: &mut Demangler,
    text: &str,
    flags: DemangleFlags,
    shown: &str,
) -> bool {
    let mut input = Watched::new(text.as_bytes());
    let mut out = Watched::new(Vec::new(alloc));
    let done = filter_text_in(demangler, &mut input, &mut out, flags);
    done.is_ok()
        && out.into_inner().as_slice() == shown.as_bytes()
        && is_slice_filtered(alloc, demangler, text, flags, shown)
}

/// Returns whether the filter of slices writes `shown` for a text, into a slice of just this size.
fn is_slice_filtered(
    alloc: Global,
    demangler: &mut Demangler,
    text: &str,
    flags: DemangleFlags,
    shown: &str,
) -> bool {
    let Ok(mut out) = Vec::from_elem(alloc, 0u8, shown.len()) else {
        return false;
    };
    match filter_slice_in(demangler, text.as_bytes(), flags, &mut out) {
        Ok(filtered) => {
            filtered.length == shown.len()
                && filtered.written == shown.len()
                && out.as_slice() == shown.as_bytes()
        }
        Err(_) => false,
    }
}

/// Returns whether each call without a limit rejects a text with the error text `shown`, and both filters keep it if it
/// is a single word.
pub fn all_reject(alloc: Global, demangler: &mut Demangler, text: &str, shown: &str) -> bool {
    for word in WORDS {
        let flags = DemangleFlags::from_bits_retain(word);
        if !is_rejected_so(alloc, demangler.demangle(text, flags), shown) {
            return false;
        }
    }
    let limits = Limits::new(usize::MAX, usize::MAX);
    is_rejected_so(alloc, demangler.back_references(text), shown)
        && all_fail(alloc, demangler, text, limits, shown)
        && (!is_single_word(text)
            || is_filtered(alloc, demangler, text, DemangleFlags::llvm(), text))
}

/// Returns whether a filter reads a symbol only at the beginning of a text.
fn is_single_word(text: &str) -> bool {
    text.starts_with('?') && text.bytes().all(is_word_byte)
}

/// Returns whether a byte is of a word.
fn is_word_byte(byte: u8) -> bool {
    byte.is_ascii_alphanumeric() || matches!(byte, b'_' | b'$' | b'@' | b'?')
}
