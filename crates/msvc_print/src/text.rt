//! The text that a declaration is written to: its bytes, under a limit.

ghost use Rattle.std.specs.Prelude.{◌≡◌, ◌≤◌, ◌+◌, ◌∷◌, ◌++◌, [], ℕ, List, Some, OnOk, IfOk, is_some};
ghost use Rattle.std.specs.Prelude.{length, string_bytes, take};
ghost use Rattle.std.specs.Str.{IsUtf8};
ghost use Rattle.std.specs.Str.Lossy.{utf8_lossy};
ghost use Rattle.msvc_print.specs.Limited.{Writes, empty_within};
ghost use Rattle.msvc_print.specs.Pieces.{last_byte, text};

use itoa::{Buffer, Integer};
use std::alloc::{AllocError, Allocator, Global};
use std::marker::Model;
use std::simd::Simd;
use std::str::from_utf8_unchecked;

/// Fills the memory behind a text until more is written there. Its bytes differ, so that the compiler copies them and
/// does not call `memset`, which the C library is not documented to need.
const FILLING: [[u8; 2]; 256] = [*b"._"; 256];

/// Length in bytes from which a piece is long.
const LONG: usize = 256;

/// Most bytes that are filled behind a long piece: enough for the words before the next one, which is copied over the
/// rest of them.
const FILLED_AFTER_LONG: usize = 64;

/// A text under a limit of bytes. A piece that would exceed the limit is left out, whatever its length, and the text is
/// not whole from then on: its bytes are unspecified, and at most as many as the limit.
#[derive(Drop)]
pub struct Text<A: Allocator = Global> {
    /// Holds the bytes that were written, and then bytes that are filled already, so that a write only copies.
    bytes: Vec<u8, A>,
    /// How many bytes were written.
    written: usize,
    max: usize,
    /// How many more bytes are filled and within the limit. `max` stands between it and `written`: side by side, both
    /// were changed as one value of 16 bytes, and a write waited until the one before had stored both halves.
    ready: usize,
    whole: bool,
    /// Whether memory was requested ahead.
    reserved: bool,
}

impl<A: Allocator> Model for Text<A> {
    ghost use Rattle.std.specs.Prelude.{◌+◌, ◌≤◌, length, take};
    ghost use Rattle.msvc_print.specs.Limited.{LimitedText, limited};

    ghost Value = { LimitedText };

    ghost view = { λ t. limited t.max t.whole (take t.written t.bytes.items) };

    ghost invariant = { λ t. (t.written + t.ready ≤ length t.bytes.items) × (t.written + t.ready ≤ t.max) };
}

impl<A: Allocator> Text<A> {
    /// Makes an empty text without a limit. Requests no memory.
    pub fn new(alloc: A) -> Text<A>
        ensures { result ≡ empty_within usize.MAX }
    {
        Text {
            bytes: Vec::new(alloc),
            written: 0,
            ready: 0,
            max: usize::MAX,
            whole: true,
            reserved: false,
        }
    }

    /// Requests memory for `additional` more bytes, whatever the limit, and fills it. Changes no byte of the text.
    ///
    /// Fails only if an allocation fails.
    pub fn try_reserve(&mut self, additional: usize) -> Result<(), AllocError>
        ensures { self.new ≡ self.old }
    {
        self.reserved = true;
        let filled = self.bytes.len() - self.written;
        self.bytes.reserve(additional.saturating_sub(filled))?;
        fill_ahead(&mut self.bytes, additional);
        Ok(())
    }

    /// Requests memory for `bytes` bytes ahead, unless that was done before. Changes no byte.
    ///
    /// Fails only if an allocation fails.
    pub fn try_reserve_once(&mut self, bytes: usize) -> Result<(), AllocError>
        ensures { self.new ≡ self.old }
    {
        if self.reserved {
            return Ok(());
        }
        self.try_reserve(bytes)
    }

    /// Makes the text empty and whole, with a limit of `max` bytes. Keeps its memory.
    pub fn clear(&mut self, max: usize)
        ensures { self.new ≡ empty_within max }
    {
        self.written = 0;
        self.ready = self.bytes.len().min(max);
        self.max = max;
        self.whole = true;
    }

    /// Replaces the text by some bytes, without a limit.
    ///
    /// Fails only if an allocation fails; the text is then unspecified.
    pub fn replace(&mut self, bytes: &[u8]) -> Result<(), AllocError>
        ensures { OnOk result (self.new.text ≡ Some bytes.now) }
    {
        self.clear(usize::MAX);
        write_text(self, bytes)
    }

    /// Returns whether no piece was left out.
    pub fn is_whole(&self) -> bool
        ensures { result ≡ is_some self.now.text }
    {
        self.whole
    }

    /// Returns the bytes of the text, which are unspecified if it is not whole.
    pub fn as_bytes(&self) -> &[u8]
        ensures { (bytes : List ℕ) → self.now.text ≡ Some bytes → result.now ≡ bytes }
    {
        &self.bytes[..self.written]
    }

    /// Returns the length of the text in bytes, which is unspecified if it is not whole.
    pub(crate) fn len(&self) -> usize
        ensures { (bytes : List ℕ) → self.now.text ≡ Some bytes → result ≡ length bytes }
    {
        self.written
    }

    /// Returns the last byte of the text, 0 if it is empty. The byte is unspecified if the text is not whole.
    pub(crate) fn last_byte(&self) -> u8
        ensures last { (bytes : List ℕ) → self.now.text ≡ Some bytes → result ≡ last_byte bytes }
        ensures fits { (bytes : List ℕ) → self.now.text ≡ Some bytes → length bytes ≤ self.now.max }
    {
        if self.written == 0 {
            return 0;
        }
        self.bytes[self.written - 1]
    }

    /// Returns the bytes of a whole text that is UTF-8 as a string, without a check.
    pub fn as_str(&self) -> &str
        requires { (bytes : List ℕ) × (self.now.text ≡ Some bytes) × IsUtf8 bytes }
        ensures { self.now.text ≡ Some result.now }
    {
        unsafe { from_utf8_unchecked(self.as_bytes()) }
    }

    /// Returns what was written, without a copy.
    fn into_bytes(self) -> Vec<u8, A>
        ensures { (bytes : List ℕ) → self.text ≡ Some bytes → result.items ≡ bytes }
    {
        let Text { bytes, written, .. } = self;
        let mut bytes = bytes;
        bytes.truncate(written);
        bytes
    }

    /// Converts a whole text that is UTF-8 to a string, without a check and without a copy.
    pub fn into_string(self) -> String<A>
        requires { (bytes : List ℕ) × (self.text ≡ Some bytes) × IsUtf8 bytes }
        ensures { self.text ≡ Some (string_bytes result) }
    {
        let bytes = self.into_bytes();
        unsafe { String::from_utf8_unchecked(bytes) }
    }
}

/// Converts a whole text to a string. Each piece that is not UTF-8 becomes U+FFFD.
///
/// Allocates only if the bytes are not UTF-8, and fails only if an allocation fails.
pub fn into_string_lossy<A: Allocator>(alloc: A, declared: Text<A>) -> Result<String<A>, AllocError>
    ensures whole { IfOk result (λ text. (bytes : List ℕ) → declared.text ≡ Some bytes → IsUtf8 bytes →
        string_bytes text ≡ bytes) }
    ensures lossy { IfOk result (λ text. (bytes : List ℕ) → declared.text ≡ Some bytes →
        string_bytes text ≡ utf8_lossy bytes) }
{
    match String::from_utf8(declared.into_bytes()) {
        Ok(text) => Ok(text),
        Err(error) => String::from_utf8_lossy(alloc, error.as_bytes()),
    }
}

/// Copies a piece of `N` to twice `N` bytes into `bytes` from index `at`: its first `N` bytes, and its last.
fn copy_ends<const N: usize>(bytes: &mut [u8], at: usize, piece: &[u8])
    requires fits { at + length piece.now ≤ length bytes.old }
    requires covers { (N ≤ length piece.now) × (length piece.now ≤ N + N) }
    ensures start { take (at + length piece.now) bytes.new ≡ take at bytes.old ++ piece.now }
    ensures len { length bytes.new ≡ length bytes.old }
{
    let last = piece.len() - N;
    Simd::<u8, N>::from_slice(piece).copy_to_slice(&mut bytes[at..]);
    Simd::<u8, N>::from_slice(&piece[last..]).copy_to_slice(&mut bytes[at + last..]);
}

/// Copies `piece`, which is long, into `bytes` from index `at`.
#[inline(never)]
fn copy_long(bytes: &mut [u8], at: usize, piece: &[u8])
    requires { at + length piece.now ≤ length bytes.old }
    ensures start { take (at + length piece.now) bytes.new ≡ take at bytes.old ++ piece.now }
    ensures len { length bytes.new ≡ length bytes.old }
{
    bytes[at..at + piece.len()].copy_from_slice(piece);
}

/// Copies `piece` into `bytes` from index `at`. Most pieces are of at most 32 bytes, for which no call is needed.
#[inline(always)]
fn copy_at(bytes: &mut [u8], at: usize, piece: &[u8])
    requires { at + length piece.now ≤ length bytes.old }
    ensures start { take (at + length piece.now) bytes.new ≡ take at bytes.old ++ piece.now }
    ensures len { length bytes.new ≡ length bytes.old }
{
    let len = piece.len();
    if len < 2 {
        if len == 1 {
            bytes[at] = piece[0];
        }
    } else if len < 4 {
        copy_ends::<2>(bytes, at, piece);
    } else if len < 8 {
        copy_ends::<4>(bytes, at, piece);
    } else if len < 16 {
        copy_ends::<8>(bytes, at, piece);
    } else if len <= 32 {
        copy_ends::<16>(bytes, at, piece);
    } else {
        copy_long(bytes, at, piece);
    }
}

/// Fills bytes behind a text, at most `max` and no more than there is memory for. Returns how many.
fn fill_ahead<A: Allocator>(bytes: &mut Vec<u8, A>, max: usize) -> usize
    ensures kept { take (length bytes.old.items) bytes.new.items ≡ bytes.old.items }
    ensures filled { length bytes.old.items + result ≤ length bytes.new.items }
    ensures fits { result ≤ max }
{
    let filling = FILLING.as_flattened();
    let free = bytes.capacity().saturating_sub(bytes.len());
    let count = free.min(filling.len()).min(max);
    match bytes.extend_from_slice(&filling[..count]) {
        Ok(()) => count,
        Err(_) => 0,
    }
}

/// Writes bytes as they are, behind those that were written, if the limit allows them. Once a piece was left out,
/// writes nothing more and requests no memory.
#[cold]
fn write_text_beyond<A: Allocator>(out: &mut Text<A>, bytes: &[u8]) -> Result<(), AllocError>
    ensures { OnOk result (Writes (text bytes.now ∷ []) out.old out.new) }
{
    out.ready = 0;
    if !out.whole || bytes.len() > out.max - out.written {
        out.whole = false;
        return Ok(());
    }
    out.bytes.truncate(out.written);
    out.bytes.extend_from_slice(bytes)?;
    out.written += bytes.len();
    let most = if bytes.len() < LONG {
        FILLING.as_flattened().len()
    } else {
        FILLED_AFTER_LONG
    };
    out.ready = fill_ahead(&mut out.bytes, most.min(out.max - out.written));
    Ok(())
}

/// Writes bytes as they are.
#[inline(always)]
pub fn write_text<A: Allocator>(out: &mut Text<A>, bytes: &[u8]) -> Result<(), AllocError>
    ensures { OnOk result (Writes (text bytes.now ∷ []) out.old out.new) }
{
    if bytes.len() > out.ready {
        return write_text_beyond(out, bytes);
    }
    copy_at(&mut out.bytes, out.written, bytes);
    out.written += bytes.len();
    out.ready -= bytes.len();
    Ok(())
}

/// Writes a number in decimal, with a minus if it is negative.
pub fn write_number<I: Integer, A: Allocator>(
    out: &mut Text<A>,
    number: I,
) -> Result<(), AllocError>
    ensures { OnOk result (Writes (text (I.text number) ∷ []) out.old out.new) }
{
    let mut buffer = Buffer::new();
    write_text(out, buffer.format(number).as_bytes())
}
