//! Places where a symbol may be in a text: words, their starts, and the candidates that begin there.

ghost use Rattle.std.specs.Prelude.{◌&&◌, ◌∷◌, ◌==◌, ◌||◌, ◌≡◌, ◌≤◌, ◌<◌, ℕ, List, [], drop, length, not, take};
ghost use Rattle.std.specs.Prelude.{slice_index, true};
ghost use Rattle.std.specs.List.{list_all, list_any, take_while};
ghost use Rattle.msvc_symbol.specs.declared.grammar.Grammar.TheVariants.{Crate, Full};
ghost use Rattle.msvc_filter.specs.SymbolBounds.{begins_funclet, blocks_start, candidate, continues, ends_in_letters};
ghost use Rattle.msvc_filter.specs.SymbolBounds.{ends_word, is_file_ending};
ghost use Rattle.msvc_filter.specs.SymbolBounds.{is_mark, is_start, is_trailing_byte, is_visible, is_word_byte};
ghost use Rattle.msvc_filter.specs.SymbolBounds.{max_bytes, other_mark, symbol_extent, utf8_front};
ghost use Rattle.msvc_filter.specs.WordStates.{IsPlain, IsUnmarked, Keeps, may_start, past};

use memchr::memchr;
use msvc_symbol::Grammar;
use std::str::from_utf8;

/// The most bytes of a candidate: the longest name that Microsoft's compiler gives.
const MAX_BYTES: usize = 4096;

/// Bytes from a start on that decide whether a symbol begins there: those of a candidate, and two after it.
pub(crate) const MAX_LOOKED_AT: usize = MAX_BYTES + 2;

/// Returns whether a byte is of a word.
fn is_word_byte(byte: u8) -> bool
    ensures { result ≡ is_word_byte byte }
{
    byte.is_ascii_alphanumeric() || matches!(byte, b'_' | b'$' | b'@' | b'?')
}

/// Returns whether no symbol begins with a `?` after a byte.
fn blocks_start(byte: u8) -> bool
    ensures { result ≡ blocks_start byte }
{
    byte.is_ascii_alphanumeric() || byte == b'.'
}

/// The state of the bytes before a place on which a start depends.
#[derive(Clone, Copy)]
pub(crate) struct WordState {
    /// True if the word that ends before this place has a `?`.
    seen_question_mark: bool,
    /// The byte before this place.
    last: u8,
}

impl WordState {
    /// Begins after a byte that ends a line or a symbol, so that no word continues after it.
    pub(crate) fn new(last: u8) -> WordState
        ensures { Keeps result last [] }
    {
        WordState {
            seen_question_mark: false,
            last,
        }
    }

    /// Returns whether a symbol of a grammar may start at the first of the bytes `left`.
    #[inline(always)]
    pub(crate) fn is_start(self, grammar: Grammar, left: &[u8]) -> bool
        ensures { (last : ℕ) (passed : List ℕ) → Keeps self last passed
            → result ≡ is_start grammar last passed left.now }
    {
        match grammar {
            Grammar::Crate => self.may_start(left),
            Grammar::Full => self.may_start_in_full(left),
        }
    }

    /// Returns whether a symbol of the crate's grammar may start at the first of the bytes `left`.
    fn may_start(self, left: &[u8]) -> bool
        ensures { result ≡ may_start Crate self left.now }
    {
        match left {
            [b'?', ..] => self.is_free(),
            _ => false,
        }
    }

    /// Returns whether a symbol of Full may start at the first of the bytes `left`.
    fn may_start_in_full(self, left: &[u8]) -> bool
        ensures { result ≡ may_start Full self left.now }
    {
        match left {
            [b'?', ..] => {
                self.is_free() && !(is_word_byte(self.last) && begins_funclet(candidate(left)))
            }
            [b'.', ..] => !(is_word_byte(self.last) || is_file_ending(candidate(left))),
            _ => false,
        }
    }

    /// Returns whether a `?` may start a symbol here.
    fn is_free(self) -> bool
        ensures { result ≡ not (self.seen_question_mark || blocks_start self.last) }
    {
        !(self.seen_question_mark || blocks_start(self.last))
    }

    /// Moves past a byte that stays.
    pub(crate) fn after(self, byte: u8) -> WordState
        ensures { (last : ℕ) (passed : List ℕ) → Keeps self last passed → Keeps result last (byte ∷ passed) }
    {
        WordState {
            seen_question_mark: sees_question_mark(self.seen_question_mark, byte),
            last: byte,
        }
    }

    /// Returns the scan after `bytes`, which have no `?` and are copied as they are.
    pub(crate) fn pass(self, bytes: &[u8]) -> WordState
        requires some { 0 < length bytes.now }
        requires plain { IsPlain bytes.now }
        ensures { (last : ℕ) (passed : List ℕ) → Keeps self last passed → Keeps result last (past bytes.now passed) }
    {
        WordState {
            seen_question_mark: self.seen_question_mark && all_word_bytes(bytes),
            last: bytes[bytes.len() - 1],
        }
    }
}

/// Returns whether a text begins as the name of a funclet.
fn begins_funclet(text: &str) -> bool
    ensures { result ≡ begins_funclet text.now }
{
    matches!(
        text.as_bytes(),
        [b'?', b'c', b'a', b't', b'c', b'h', b'$', ..]
            | [b'?', b'd', b't', b'o', b'r', b'$', ..]
            | [b'?', b'f', b'i', b'l', b't', b'$', ..]
            | [b'?', b'f', b'i', b'n', b'$', ..]
    )
}

/// Returns whether letters alone follow the first byte of a text before the end of its word.
fn is_file_ending(text: &str) -> bool
    ensures { result ≡ is_file_ending text.now }
{
    match text.as_bytes() {
        [_, rest @ ..] => ends_in_letters(rest),
        [] => false,
    }
}

/// Returns whether letters alone stand before the end of a word.
fn ends_in_letters(bytes: &[u8]) -> bool
    ensures { result ≡ ends_in_letters bytes.now }
{
    let mut left = bytes;
    'letters: while let [first, rest @ ..] = left {
        if !first.is_ascii_alphabetic() {
            return !is_word_byte(*first);
        }
        left = rest;
    }
    true
}

/// Returns whether the word that continues after a byte has had a `?`.
fn sees_question_mark(seen_question_mark: bool, byte: u8) -> bool
    ensures { result ≡ (seen_question_mark || byte == 63) && is_word_byte byte }
{
    (seen_question_mark || byte == b'?') && is_word_byte(byte)
}

/// Returns whether all bytes are of a word.
fn all_word_bytes(bytes: &[u8]) -> bool
    ensures { result ≡ list_all is_word_byte bytes.now }
{
    'bytes: for i in 0..bytes.len() {
        if !is_word_byte(bytes[i]) {
            return false;
        }
    }
    true
}

/// Returns whether symbols of a grammar may start with a byte.
#[inline(always)]
pub(crate) fn is_mark(grammar: Grammar, byte: u8) -> bool
    ensures { result ≡ is_mark grammar byte }
{
    byte == b'?' || byte == other_mark(grammar)
}

/// Returns the byte beside `?` with which symbols of a grammar may start; `?` too if there is none.
#[inline(always)]
fn other_mark(grammar: Grammar) -> u8
    ensures { result ≡ other_mark grammar }
{
    match grammar {
        Grammar::Crate => b'?',
        Grammar::Full => b'.',
    }
}

/// Returns whether symbols of a grammar may start with one of the bytes.
#[inline(always)]
pub(crate) fn has_mark(grammar: Grammar, bytes: &[u8]) -> bool
    ensures { result ≡ list_any (λ b. is_mark grammar b) bytes.now }
{
    match grammar {
        Grammar::Crate => bytes.contains(&b'?'),
        Grammar::Full => unmarked_len(grammar, bytes) < bytes.len(),
    }
}

/// Counts the bytes before the first with which a symbol of a grammar may start, or all if there is none.
#[inline(always)]
pub(crate) fn unmarked_len(grammar: Grammar, bytes: &[u8]) -> usize
    ensures bound { result ≤ length bytes.now }
    ensures unmarked { IsUnmarked grammar (take result bytes.now) }
    ensures end { result < length bytes.now → is_mark grammar (slice_index bytes.now result) ≡ true }
{
    match grammar {
        Grammar::Crate => plain_len(bytes),
        Grammar::Full => unmarked_len_in_full(bytes),
    }
}

/// Counts the bytes before the first `?` or full stop, or all if there is none.
#[inline(never)]
fn unmarked_len_in_full(bytes: &[u8]) -> usize
    ensures bound { result ≤ length bytes.now }
    ensures unmarked { IsUnmarked Full (take result bytes.now) }
    ensures end { result < length bytes.now → is_mark Full (slice_index bytes.now result) ≡ true }
{
    let mut len = 0;
    'unmarked: while len < bytes.len() && !is_mark(Grammar::Full, bytes[len]) {
        len += 1;
    }
    len
}

/// Counts the bytes before the first `?`, or all if there is none.
#[inline(always)]
fn plain_len(bytes: &[u8]) -> usize
    ensures bound { result ≤ length bytes.now }
    ensures plain { IsUnmarked Crate (take result bytes.now) }
    ensures end { result < length bytes.now → slice_index bytes.now result ≡ 63 }
{
    match bytes {
        // One byte between two of them needs no search.
        [first, b'?', ..] if *first != b'?' => 1,
        _ => memchr(b'?', bytes).unwrap_or(bytes.len()),
    }
}

/// Returns the bytes that may be a symbol at a start.
pub(crate) fn candidate(left: &[u8]) -> &str
    ensures { result.now ≡ candidate left.now }
{
    utf8_front(&left[..visible_len(left)])
}

/// Counts the visible bytes at the front, up to the most of a candidate.
fn visible_len(left: &[u8]) -> usize
    ensures bound { result ≤ length left.now }
    ensures visible { take result left.now ≡ take max_bytes (take_while is_visible left.now) }
{
    let most = left.len().min(MAX_BYTES);
    let mut len = 0;
    'visible: while len < most && is_visible(left[len]) {
        len += 1;
    }
    len
}

/// Returns whether a byte is neither a space nor a control character.
fn is_visible(byte: u8) -> bool
    ensures { result ≡ is_visible byte }
{
    byte > b' ' && byte != 0x7F
}

/// Returns the longest beginning of some bytes that is UTF-8.
pub(crate) fn utf8_front(bytes: &[u8]) -> &str
    ensures { result.now ≡ utf8_front bytes.now }
{
    match from_utf8(bytes) {
        Ok(text) => text,
        Err(error) => from_utf8(&bytes[..error.valid_up_to()]).unwrap_or(""),
    }
}

/// Returns the number of bytes that a symbol takes: the `read` bytes that were read of it, and in the crate's grammar
/// one more if that byte is an `@` or a capital that ends its word.
pub(crate) fn symbol_extent(grammar: Grammar, left: &[u8], read: usize) -> usize
    requires { read ≤ length left.now }
    ensures extent { result ≡ symbol_extent grammar left.now read }
    ensures bound { result ≤ length left.now }
    ensures least { read ≤ result }
{
    match grammar {
        Grammar::Crate if is_trailing_byte(&left[read..]) => read + 1,
        _ => read,
    }
}

/// Returns whether an `@` or a capital is next, and ends its word.
fn is_trailing_byte(left: &[u8]) -> bool
    ensures left_over { result ≡ is_trailing_byte left.now }
{
    match left {
        [b'@' | b'A'..=b'Z', rest @ ..] => ends_word(rest),
        _ => false,
    }
}

/// Returns whether a symbol continues after the bytes that it takes, in a way that the reader doesn't know.
pub(crate) fn continues(left: &[u8], bytes: usize) -> bool
    requires { bytes ≤ length left.now }
    ensures { result ≡ continues (drop bytes left.now) }
{
    match &left[bytes..] {
        [next, ..] => next.is_ascii_alphanumeric() || matches!(*next, b'_' | b'@'),
        [] => false,
    }
}

/// Returns whether no byte of a word is next.
fn ends_word(left: &[u8]) -> bool
    ensures { result ≡ ends_word left.now }
{
    match left {
        [next, ..] => !is_word_byte(*next),
        [] => true,
    }
}
