//! The filter over texts: each symbol in them is replaced by its declaration.

ghost use Rattle.std.specs.Prelude.{◌≡◌, ◌≤◌, ◌+◌, ◌++◌, ◌∷◌, ℕ, List, [], IfErr, IfNone, IfOk, IfSome};
ghost use Rattle.std.specs.Prelude.{MatchResult};
ghost use Rattle.std.specs.Prelude.{OnOk, OnSome, Some, drop, length, map, take, true};
ghost use Rattle.std.specs.Io.KnownBytes.{Appends, Consumes, IsAtEnd};
ghost use Rattle.msvc_nodes.specs.Trees.{SymbolTree};
ghost use Rattle.msvc_rules.specs.Counts.{node_count};
ghost use Rattle.msvc_rules.specs.Parsed.{IsParsedIn, IsSymbolLengthIn};
ghost use Rattle.msvc_symbol.specs.Failures.{IsFailureIn};
ghost use Rattle.msvc_symbol.specs.Grammars.{dialect_of, under};
ghost use Rattle.msvc_streams.specs.Faults.{SetsFailureFlag, failure_flag, no_stream};
ghost use Rattle.msvc_filter.specs.Choices.{chosen, colored_without, without};
ghost use Rattle.msvc_filter.specs.Colors as spec;
ghost use Rattle.msvc_filter.specs.Colors.{declaration_under, shown_under};
ghost use Rattle.msvc_filter.specs.Shown.{IsShownIn};
ghost use Rattle.msvc_filter.specs.SliceWriters.{IsSliceWriter, space_after};
ghost use Rattle.msvc_filter.specs.Filtered.{AreOnlyParts, AreOnlyPartsIn, IsNoStart, IsNoneWithin, Part};
ghost use Rattle.msvc_filter.specs.Filtered.{declared, fitting, kept, max_declared, max_nodes};
ghost use Rattle.msvc_filter.specs.Filtered.{text_of_parts};
ghost use Rattle.msvc_streams.specs.Runs.{IsWithoutEnd, Writes, WritesPart};
ghost use Rattle.msvc_filter.specs.FilterRuns.{WritesFiltered, WritesFilteredBlocks, WritesFilteredIn};
ghost use Rattle.msvc_filter.specs.WordStates.{ArePartsUpTo, IsFilteredUpTo, IsFound};
ghost use Rattle.msvc_filter.specs.WordStates.{IsDecidedText, IsDecidedTextOf, IsRestText, WritesLines};
ghost use Rattle.msvc_filter.specs.WordStates.{IsSymbolShown, Keeps};
ghost use Rattle.msvc_filter.specs.SymbolBounds.{is_start};

use crate::symbol_bounds::{
    MAX_LOOKED_AT, WordState, candidate, continues, has_mark, is_mark, symbol_extent, unmarked_len,
    utf8_front,
};
use msvc_cursor::failure::Failure;
use msvc_cursor::limits::{DEFAULT_BYTE_LIMIT, DEFAULT_NODE_LIMIT, Limits};
use msvc_nodes::flags::DemangleFlags;
use msvc_print::NamePlace;
use msvc_streams::{
    Fault, Polls, Taken, Watched, consume, drop_front, fail, fill_buf, line_end, lines_len,
    read_block, write_all,
};
use msvc_symbol::{Demangler, Grammar};
use std::alloc::{AllocError, Allocator, Global};
use std::io::{BufRead, Write};

/// How symbols are read and shown.
#[derive(Clone, Copy)]
pub struct How {
    /// The grammar of the symbols.
    pub grammar: Grammar,
    /// What declarations show.
    pub flags: DemangleFlags,
    /// What Full leaves out: flags of `llvm-undname`.
    pub left_out: u64,
    /// Whether declarations are colored, and names bold, by control sequences.
    pub is_colored: bool,
}

/// The most bytes of a line that are held before a piece of the line is written.
const MAX_HELD: usize = 65_536;

/// Copies `input` to `out`, with each symbol in it replaced by its declaration under `flags`. All other bytes stay.
///
/// A line of at most 65,536 bytes is read whole, then filtered, then written, so that a fault leaves no part of it
/// behind, unless a write fails. A line that the reader shows whole is written from the reader's buffer, and consumed
/// then, also if the write failed; so reader and writer must not share a borrow that lasts from `fill_buf` to
/// `consume`, as of a `RefCell`. A longer line is written in pieces, so that a line of any length takes no more memory.
///
/// # Limits
///
/// At each start at most 4,096 bytes are read as a symbol, of at most 10,000 nodes, and at most 65,536 bytes are
/// printed; so the time is linear in the bytes.
///
/// # Errors
///
/// Returns the first fault: [`Fault::Read`] if the reader fails, [`Fault::Write`] if the writer fails,
/// [`Fault::Memory`] if an allocation fails. The lines before it are written.
///
/// # Examples
///
/// ```
/// let mut input = Watched::new(b"at ?x@@3HA+1\n".as_slice());
/// let mut out = Watched::new(Vec::new(alloc));
/// assert!(rt; filter_text(alloc, &mut input, &mut out, DemangleFlags::llvm()).is_ok());
/// assert_eq!(rt; out.into_inner().as_slice(), b"at int x+1\n".as_slice());
/// ```
pub fn filter_text<R: BufRead, W: Write>(
    alloc: Global,
    input: &mut Watched<R>,
    out: &mut Watched<W>,
    flags: DemangleFlags,
) -> Result<(), Fault>
    ensures text { (taken text : List ℕ) × Consumes (R.remaining input.old.stream) (R.remaining input.new.stream) taken
        × Appends (W.contents out.old.stream) (W.contents out.new.stream) text
        × WritesFiltered result flags.0 taken text }
    ensures end { OnOk result (OnSome (R.remaining input.old.stream) (IsAtEnd (R.remaining input.new.stream))) }
    ensures sets_failed { SetsFailureFlag result (failure_flag input.old input.new) (failure_flag out.old out.new)
        no_stream }
{
    filter_text_in(&mut Demangler::new(alloc), input, out, flags)
}

/// Copies `input` to `out`, as [`filter_text`] does, with the grammar and the memory of a demangler.
///
/// # Errors
///
/// Fails where [`filter_text`] does.
///
/// # Examples
///
/// ```
/// let mut demangler = Demangler::with_grammar(alloc, Grammar::Full);
/// let mut input = Watched::new(b"at ?f@@YA?A?<auto>@@H@Z+0x5\n".as_slice());
/// let mut out = Watched::new(Vec::new(alloc));
/// let flags = DemangleFlags::llvm();
/// assert!(rt; filter_text_in(&mut demangler, &mut input, &mut out, flags).is_ok());
/// let expected = b"at <auto> __cdecl f(int)+0x5\n".as_slice();
/// assert_eq!(rt; out.into_inner().as_slice(), expected);
/// ```
pub fn filter_text_in<R: BufRead, W: Write>(
    demangler: &mut Demangler,
    input: &mut Watched<R>,
    out: &mut Watched<W>,
    flags: DemangleFlags,
) -> Result<(), Fault>
    ensures text { (taken text : List ℕ) × Consumes (R.remaining input.old.stream) (R.remaining input.new.stream) taken
        × Appends (W.contents out.old.stream) (W.contents out.new.stream) text
        × WritesFilteredIn result (under demangler.old.grammar flags.0) taken text }
    ensures end { OnOk result (OnSome (R.remaining input.old.stream) (IsAtEnd (R.remaining input.new.stream))) }
    ensures sets_failed { SetsFailureFlag result (failure_flag input.old input.new) (failure_flag out.old out.new)
        no_stream }
{
    filter_text_without(demangler, input, out, flags, 0)
}

/// Copies `input` to `out`, as [`filter_text_in`] does, and leaves out of declarations what `left_out` drops: flags of
/// `llvm-undname`, which only Full obeys. Other bits of it count for nothing.
///
/// # Errors
///
/// Fails where [`filter_text`] does.
///
/// # Examples
///
/// ```
/// let mut demangler = Demangler::with_grammar(alloc, Grammar::Full);
/// let mut input = Watched::new(b"at ?f@@YAHH@Z+0x5\n".as_slice());
/// let mut out = Watched::new(Vec::new(alloc));
/// let flags = DemangleFlags::llvm();
/// let left_out = llvm_flags::NO_RETURN_TYPE;
/// assert!(rt; filter_text_without(&mut demangler, &mut input, &mut out, flags, left_out).is_ok());
/// assert_eq!(rt; out.into_inner().as_slice(), b"at __cdecl f(int)+0x5\n".as_slice());
/// ```
pub fn filter_text_without<R: BufRead, W: Write>(
    demangler: &mut Demangler,
    input: &mut Watched<R>,
    out: &mut Watched<W>,
    flags: DemangleFlags,
    left_out: u64,
) -> Result<(), Fault>
    ensures text { (taken text : List ℕ) × Consumes (R.remaining input.old.stream) (R.remaining input.new.stream) taken
        × Appends (W.contents out.old.stream) (W.contents out.new.stream) text
        × WritesFilteredIn result (without demangler.old.grammar flags.0 left_out) taken text }
    ensures end { OnOk result (OnSome (R.remaining input.old.stream) (IsAtEnd (R.remaining input.new.stream))) }
    ensures sets_failed { SetsFailureFlag result (failure_flag input.old input.new) (failure_flag out.old out.new)
        no_stream }
{
    let how = how_of(demangler, flags, left_out, false);
    filter_lines(demangler, how, input, out)
}

/// Copies `input` to `out`, as [`filter_text_without`] does, with declarations in cyan, and the name of each symbol
/// bold, as control sequences set them in a terminal.
///
/// # Errors
///
/// Fails where [`filter_text`] does.
///
/// # Examples
///
/// ```
/// let mut demangler = Demangler::with_grammar(alloc, Grammar::Full);
/// let mut input = Watched::new(b"at ?f@@YAHH@Z+0x5\n".as_slice());
/// let mut out = Watched::new(Vec::new(alloc));
/// let flags = DemangleFlags::llvm();
/// assert!(rt; filter_text_colored(&mut demangler, &mut input, &mut out, flags, 0).is_ok());
/// let expected = b"at \x1b[36mint __cdecl \x1b[1mf\x1b[22m(int)\x1b[39m+0x5\n".as_slice();
/// assert_eq!(rt; out.into_inner().as_slice(), expected);
/// ```
pub fn filter_text_colored<R: BufRead, W: Write>(
    demangler: &mut Demangler,
    input: &mut Watched<R>,
    out: &mut Watched<W>,
    flags: DemangleFlags,
    left_out: u64,
) -> Result<(), Fault>
    ensures text { (taken text : List ℕ) × Consumes (R.remaining input.old.stream) (R.remaining input.new.stream) taken
        × Appends (W.contents out.old.stream) (W.contents out.new.stream) text
        × WritesFilteredIn result (colored_without demangler.old.grammar flags.0 left_out) taken text }
    ensures end { OnOk result (OnSome (R.remaining input.old.stream) (IsAtEnd (R.remaining input.new.stream))) }
    ensures sets_failed { SetsFailureFlag result (failure_flag input.old input.new) (failure_flag out.old out.new)
        no_stream }
{
    let how = how_of(demangler, flags, left_out, true);
    filter_lines(demangler, how, input, out)
}

/// Returns how symbols are read and shown with the grammar of a demangler.
fn how_of(demangler: &Demangler, flags: DemangleFlags, left_out: u64, is_colored: bool) -> How
    ensures grammar { result.grammar ≡ demangler.now.grammar }
    ensures flags { result.flags ≡ flags }
    ensures left_out { result.left_out ≡ left_out }
    ensures is_colored { result.is_colored ≡ is_colored }
{
    How {
        grammar: demangler.grammar(),
        flags,
        left_out,
        is_colored,
    }
}

/// Copies `input` to `out`, as [`filter_text`] does, with each symbol of a grammar replaced.
fn filter_lines<R: BufRead, W: Write>(
    demangler: &mut Demangler,
    how: How,
    input: &mut Watched<R>,
    out: &mut Watched<W>,
) -> Result<(), Fault>
    ensures text { (taken text : List ℕ) × Consumes (R.remaining input.old.stream) (R.remaining input.new.stream) taken
        × Appends (W.contents out.old.stream) (W.contents out.new.stream) text
        × WritesFilteredIn result (chosen how) taken text }
    ensures end { OnOk result (OnSome (R.remaining input.old.stream) (IsAtEnd (R.remaining input.new.stream))) }
    ensures sets_failed { SetsFailureFlag result (failure_flag input.old input.new) (failure_flag out.old out.new)
        no_stream }
{
    let alloc = demangler.alloc();
    let mut text = Vec::new(alloc);
    let mut piece = Vec::new(alloc);
    let mut scan = WordState::new(b'\n');
    let mut polls = Polls::none();
    'pieces: loop {
        let shown = match fill_buf(input, &mut polls) {
            Ok(shown) => shown,
            Err(failure) => return Err(fail(input, failure)),
        };
        let (end, taken) = line_end(shown);
        match taken {
            Taken::Line if piece.is_empty() => {
                // A line that the reader shows whole is not copied.
                let line = &shown[..end];
                let put = write_rest(demangler, how, &mut text, line, scan, out);
                consume(input, end);
                put?;
                scan = WordState::new(b'\n');
            }
            Taken::Line => {
                if piece.extend_from_slice(&shown[..end]).is_err() {
                    return Err(Fault::Memory);
                }
                consume(input, end);
                write_rest(demangler, how, &mut text, &piece, scan, out)?;
                piece.clear();
                scan = WordState::new(b'\n');
            }
            Taken::Part => {
                if piece.extend_from_slice(&shown[..end]).is_err() {
                    return Err(Fault::Memory);
                }
                consume(input, end);
                write_decided(demangler, how, &mut text, &mut piece, &mut scan, out)?;
            }
            Taken::End => {
                return write_rest(demangler, how, &mut text, &piece, scan, out);
            }
        }
    }
}

/// Copies `input` to `out` with each symbol in it replaced by its declaration, all lines that `input` shows at once.
///
/// Writes the text of all whole lines that `input` has shown before it polls `input` again, and holds only the bytes of
/// the next line then. A line of more than 65,536 bytes is written in pieces, so that a line of any length takes no
/// more memory.
///
/// # Limits
///
/// Those of [`filter_text`] on a symbol and its declaration.
///
/// # Errors
///
/// Returns the first fault, as [`filter_text`] does.
pub fn filter_blocks<R: BufRead, W: Write>(
    demangler: &mut Demangler,
    how: How,
    input: &mut Watched<R>,
    out: &mut Watched<W>,
) -> Result<(), Fault>
    ensures text { (taken text : List ℕ) × Consumes (R.remaining input.old.stream) (R.remaining input.new.stream) taken
        × Appends (W.contents out.old.stream) (W.contents out.new.stream) text
        × WritesFilteredBlocks result (chosen how) taken text }
    ensures end { OnOk result (OnSome (R.remaining input.old.stream) (IsAtEnd (R.remaining input.new.stream))) }
    ensures sets_failed { SetsFailureFlag result (failure_flag input.old input.new) (failure_flag out.old out.new)
        no_stream }
{
    let alloc = demangler.alloc();
    let mut text = Vec::new(alloc);
    let mut block = Vec::new(alloc);
    let mut scan = WordState::new(b'\n');
    let mut polls = Polls::none();
    'blocks: loop {
        let from = block.len();
        if !read_block(input, &mut polls, &mut block)? {
            return write_rest(demangler, how, &mut text, &block, scan, out);
        }
        let end = lines_len(&block, from);
        if end == 0 {
            write_decided(demangler, how, &mut text, &mut block, &mut scan, out)?;
        } else {
            write_lines(demangler, how, &mut text, &block[..end], scan, out)?;
            drop_front(&mut block, end);
            scan = WordState::new(b'\n');
        }
    }
}

/// Writes the filtered text of whole lines: of all at once or, if memory doesn't suffice for it, line by line.
fn write_lines<W: Write>(
    demangler: &mut Demangler,
    how: How,
    text: &mut Vec<u8>,
    lines: &[u8],
    scan: WordState,
    out: &mut Watched<W>,
) -> Result<(), Fault>
    ensures text { (written : List ℕ) × Appends (W.contents out.old.stream) (W.contents out.new.stream) written
        × WritesLines result (chosen how) scan lines.now written }
    ensures sets_failed { SetsFailureFlag result no_stream (failure_flag out.old out.new) no_stream }
{
    match write_rest(demangler, how, text, lines, scan, out) {
        Ok(()) => Ok(()),
        Err(Fault::Memory) => write_each_line(demangler, how, text, lines, scan, out),
        Err(fault) => Err(fault),
    }
}

/// Writes the filtered text of whole lines, line by line.
#[cold]
fn write_each_line<W: Write>(
    demangler: &mut Demangler,
    how: How,
    text: &mut Vec<u8>,
    lines: &[u8],
    mut scan: WordState,
    out: &mut Watched<W>,
) -> Result<(), Fault>
    ensures text { (written : List ℕ) × Appends (W.contents out.old.stream) (W.contents out.new.stream) written
        × WritesLines result (chosen how) scan lines.now written }
    ensures sets_failed { SetsFailureFlag result no_stream (failure_flag out.old out.new) no_stream }
{
    let mut left = lines;
    'lines: loop {
        match line_end(left) {
            (end, Taken::Line) => {
                write_rest(demangler, how, text, &left[..end], scan, out)?;
                scan = WordState::new(b'\n');
                left = &left[end..];
            }
            (_, Taken::Part | Taken::End) => {
                return write_rest(demangler, how, text, left, scan, out);
            }
        }
    }
}

/// Writes the decided bytes of a line whose end was not read, if more bytes of it are held than [`MAX_HELD`], and
/// leaves the other bytes in `piece`.
fn write_decided<W: Write>(
    demangler: &mut Demangler,
    how: How,
    text: &mut Vec<u8>,
    piece: &mut Vec<u8>,
    scan: &mut WordState,
    out: &mut Watched<W>,
) -> Result<(), Fault>
    ensures text { (written : List ℕ) × Appends (W.contents out.old.stream) (W.contents out.new.stream) written
        × MatchResult result (λ _. IsDecidedText (chosen how) scan.old piece.old.items written scan.new
        piece.new.items)
        (λ fault. WritesPart fault (IsDecidedTextOf (chosen how) scan.old piece.old.items) written) }
    ensures unended { IfOk result (λ _. IsWithoutEnd piece.old.items → IsWithoutEnd piece.new.items) }
    ensures sets_failed { SetsFailureFlag result no_stream (failure_flag out.old out.new) no_stream }
{
    if piece.len() <= MAX_HELD {
        return Ok(());
    }
    let until = piece.len() - MAX_LOOKED_AT;
    match filter_piece(demangler, how, piece, until, scan, text) {
        Ok(at) => {
            write_all(out, text)?;
            drop_front(piece, at);
            Ok(())
        }
        Err(_) => Err(Fault::Memory),
    }
}

/// Writes the filtered text of the rest of a line. `text` has the capacity for it.
#[inline(always)]
fn write_rest<W: Write>(
    demangler: &mut Demangler,
    how: How,
    text: &mut Vec<u8>,
    piece: &[u8],
    scan: WordState,
    out: &mut Watched<W>,
) -> Result<(), Fault>
    ensures text { (written : List ℕ) × Appends (W.contents out.old.stream) (W.contents out.new.stream) written
        × Writes result (IsRestText (chosen how) scan piece.now) written }
    ensures sets_failed { SetsFailureFlag result no_stream (failure_flag out.old out.new) no_stream }
{
    // Most lines have no symbol, and stay as they are.
    if !has_mark(how.grammar, piece) {
        return write_all(out, piece);
    }
    write_filtered(demangler, how, text, piece, scan, out)
}

/// Writes the filtered text of the rest of a line that may have a symbol.
#[inline(never)]
fn write_filtered<W: Write>(
    demangler: &mut Demangler,
    how: How,
    text: &mut Vec<u8>,
    piece: &[u8],
    mut scan: WordState,
    out: &mut Watched<W>,
) -> Result<(), Fault>
    ensures text { (written : List ℕ) × Appends (W.contents out.old.stream) (W.contents out.new.stream) written
        × Writes result (IsRestText (chosen how) scan piece.now) written }
    ensures sets_failed { SetsFailureFlag result no_stream (failure_flag out.old out.new) no_stream }
{
    let end = piece.len();
    match filter_piece(demangler, how, piece, end, &mut scan, text) {
        Ok(_) => write_all(out, text),
        Err(_) => Err(Fault::Memory),
    }
}

/// Result of [`filter_slice`].
#[derive(Clone, Copy)]
pub struct Filtered {
    /// Bytes of the whole filtered text, whether they fitted or not.
    pub length: usize,
    /// Bytes written.
    pub written: usize,
}

/// Writes `text` into `out` with each symbol in it replaced by its declaration under `flags`.
///
/// Writes as much as fits, in whole characters of declarations. Bytes of `out` after these are unchanged. Requests
/// memory for symbols, and none for the text.
///
/// # Limits
///
/// Those of [`filter_text`] on a symbol and its declaration.
///
/// # Errors
///
/// Fails if an allocation fails, or if the filtered text has more bytes than a `usize` counts. The contents of `out`
/// are unspecified then.
///
/// # Examples
///
/// ```
/// let mut out = [0; 64];
/// let filtered = filter_slice(alloc, b"at ?f@@YAXXZ+0x5", DemangleFlags::llvm(), &mut out)?;
/// assert_eq!(rt; &out[..filtered.written], b"at void __cdecl f(void)+0x5".as_slice());
/// ```
pub fn filter_slice(
    alloc: Global,
    text: &[u8],
    flags: DemangleFlags,
    out: &mut [u8],
) -> Result<Filtered, AllocError>
    ensures text { IfOk result (λ f. (parts : List Part) × AreOnlyParts flags.0 text.now parts
        × (f.length ≡ length (text_of_parts parts)) × (f.written ≡ length (fitting (length out.old) parts))
        × (out.new ≡ fitting (length out.old) parts ++ drop (length (fitting (length out.old) parts)) out.old)) }
{
    filter_slice_in(&mut Demangler::new(alloc), text, flags, out)
}

/// Writes `text` into `out`, as [`filter_slice`] does, with the grammar and the memory of a demangler.
///
/// # Errors
///
/// Fails where [`filter_slice`] does.
pub fn filter_slice_in<A: Allocator + Copy>(
    demangler: &mut Demangler<A>,
    text: &[u8],
    flags: DemangleFlags,
    out: &mut [u8],
) -> Result<Filtered, AllocError>
    ensures text { IfOk result (λ f. (parts : List Part) × AreOnlyPartsIn (under demangler.old.grammar flags.0)
        text.now parts
        × (f.length ≡ length (text_of_parts parts)) × (f.written ≡ length (fitting (length out.old) parts))
        × (out.new ≡ fitting (length out.old) parts ++ drop (length (fitting (length out.old) parts)) out.old)) }
{
    let grammar = demangler.grammar();
    filter_slice_as(demangler, grammar, text, flags, out)
}

/// Writes `text` into `out`, as [`filter_slice`] does, with each symbol of a grammar replaced, with the memory of a
/// demangler, whose grammar may be another.
///
/// # Errors
///
/// Fails where [`filter_slice`] does.
pub fn filter_slice_as<A: Allocator + Copy>(
    demangler: &mut Demangler<A>,
    grammar: Grammar,
    text: &[u8],
    flags: DemangleFlags,
    out: &mut [u8],
) -> Result<Filtered, AllocError>
    ensures text { IfOk result (λ f. (parts : List Part) × AreOnlyPartsIn (under grammar flags.0) text.now parts
        × (f.length ≡ length (text_of_parts parts)) × (f.written ≡ length (fitting (length out.old) parts))
        × (out.new ≡ fitting (length out.old) parts ++ drop (length (fitting (length out.old) parts)) out.old)) }
{
    let how = How {
        grammar,
        flags,
        left_out: 0,
        is_colored: false,
    };
    let mut scan = WordState::new(b'\n');
    let mut writer = SliceWriter {
        length: 0,
        written: 0,
        space: out.len(),
    };
    let mut at = 0;
    'symbols: while at < text.len() {
        match next_symbol(demangler, how, &text[at..], text.len() - at, &mut scan)? {
            Some(found) => {
                writer = write_verbatim(out, writer, &text[at..at + found.before])?;
                writer = write_declaration(out, writer, demangler.declared())?;
                at += found.before + found.bytes;
            }
            None => {
                writer = write_verbatim(out, writer, &text[at..])?;
                at = text.len();
            }
        }
    }
    Ok(Filtered {
        length: writer.length,
        written: writer.written,
    })
}

/// A slice and the number of its bytes that are filled.
#[derive(Clone, Copy)]
struct SliceWriter {
    /// Bytes of the filtered text, whether they fitted or not.
    length: usize,
    /// Bytes written.
    written: usize,
    /// Bytes that later parts may take: none after a declaration that was truncated.
    space: usize,
}

/// Writes as many bytes that stay as fit.
fn write_verbatim(
    out: &mut [u8],
    writer: SliceWriter,
    bytes: &[u8],
) -> Result<SliceWriter, AllocError>
    requires { writer.written + writer.space ≤ length out.old }
    ensures { IfOk result (λ f. (given : List ℕ) (parts : List Part) → IsSliceWriter given parts writer out.old
        → IsSliceWriter given (parts ++ map kept bytes.now) f out.new) }
{
    write_first(out, writer, bytes, bytes.len().min(writer.space))
}

/// Writes as many whole characters of a declaration as fit.
fn write_declaration(
    out: &mut [u8],
    writer: SliceWriter,
    text: &[u8],
) -> Result<SliceWriter, AllocError>
    requires { writer.written + writer.space ≤ length out.old }
    ensures { IfOk result (λ f. (given : List ℕ) (parts : List Part) → IsSliceWriter given parts writer out.old
        → IsSliceWriter given (parts ++ declared text.now ∷ []) f out.new) }
{
    let taken = fitting_len(text, writer.space);
    write_first(out, writer, text, taken)
}

/// Counts the bytes of a declaration that fit into `space` bytes in whole characters.
fn fitting_len(text: &[u8], space: usize) -> usize
    ensures bound { result ≤ space }
    ensures within { result ≤ length text.now }
    ensures fits { (rest : List Part) → fitting space (declared text.now ∷ rest)
        ≡ take result text.now ++ fitting (space_after result (length text.now) space) rest }
{
    if text.len() <= space {
        text.len()
    } else {
        utf8_front(&text[..space]).len()
    }
}

/// Writes the first `taken` of some bytes.
fn write_first(
    out: &mut [u8],
    writer: SliceWriter,
    bytes: &[u8],
    taken: usize,
) -> Result<SliceWriter, AllocError>
    requires room { writer.written + writer.space ≤ length out.old }
    requires bound { taken ≤ writer.space }
    requires within { taken ≤ length bytes.now }
    ensures { IfOk result (λ f. (given : List ℕ) (parts others : List Part) → text_of_parts others ≡ bytes.now
        → ((rest : List Part) → fitting writer.space (others ++ rest)
        ≡ take taken bytes.now ++ fitting (space_after taken (length bytes.now) writer.space) rest)
        → IsSliceWriter given parts writer out.old → IsSliceWriter given (parts ++ others) f out.new) }
{
    let length = match writer.length.checked_add(bytes.len()) {
        Some(length) => length,
        None => return Err(AllocError),
    };
    copy_into(out, writer.written, &bytes[..taken]);
    Ok(SliceWriter {
        length,
        written: writer.written + taken,
        space: if taken < bytes.len() {
            0
        } else {
            writer.space - taken
        },
    })
}

/// Writes some bytes into a slice from a place on.
fn copy_into(out: &mut [u8], at: usize, bytes: &[u8])
    requires { at + length bytes.now ≤ length out.old }
    ensures { out.new ≡ take at out.old ++ (bytes.now ++ drop (at + length bytes.now) out.old) }
{
    out[at..at + bytes.len()].copy_from_slice(bytes);
}

/// Replaces the contents of `text` by the filtered text of `piece` up to `until`, or up to the end of the symbol that
/// `until` is inside. Returns how many bytes of `piece` these are.
fn filter_piece(
    demangler: &mut Demangler,
    how: How,
    piece: &[u8],
    until: usize,
    scan: &mut WordState,
    text: &mut Vec<u8>,
) -> Result<usize, AllocError>
    requires { until ≤ length piece.now }
    ensures { IfOk result (λ at.
        IsFilteredUpTo (chosen how) scan.old piece.now until text.new.items at scan.new) }
{
    text.clear();
    let mut at = 0;
    'symbols: while at < until {
        match next_symbol(demangler, how, &piece[at..], until - at, scan)? {
            Some(found) => {
                text.extend_from_slice(&piece[at..at + found.before])?;
                text.extend_from_slice(demangler.declared())?;
                at += found.before + found.bytes;
            }
            None => {
                text.extend_from_slice(&piece[at..until])?;
                at = until;
            }
        }
    }
    Ok(at)
}

/// The place of a symbol in a text.
#[derive(Clone, Copy)]
struct Found {
    /// Bytes before the symbol.
    before: usize,
    /// Bytes that the symbol takes.
    bytes: usize,
}

/// Finds the first symbol of `left` that begins before `until`, and prints its declaration as the demangler's text.
/// Moves the scan to the end of the symbol, or to `until` if there is none.
fn next_symbol<A: Allocator + Copy>(
    demangler: &mut Demangler<A>,
    how: How,
    left: &[u8],
    until: usize,
    scan: &mut WordState,
) -> Result<Option<Found>, AllocError>
    requires { until ≤ length left.now }
    ensures none { IfOk result (λ found. IfNone found
        (ArePartsUpTo (chosen how) scan.old left.now until (map kept (take until left.now)) until
        scan.new)) }
    ensures some { IfOk result (λ found. IfSome found (λ f.
        IsFound (chosen how) scan.old left.now until f.before f.bytes demangler.new.text scan.new)) }
{
    let mut at = 0;
    'bytes: while at < until {
        if !is_mark(how.grammar, left[at]) {
            let end = at + unmarked_len(how.grammar, &left[at..until]);
            *scan = scan.pass(&left[at..end]);
            at = end;
            continue;
        }
        match symbol_at(demangler, how, &left[at..], *scan)? {
            Some(bytes) => {
                *scan = WordState::new(left[at + bytes - 1]);
                return Ok(Some(Found { before: at, bytes }));
            }
            None => {
                *scan = scan.after(left[at]);
                at += 1;
            }
        }
    }
    Ok(None)
}

/// Returns the length in bytes of the symbol that begins here, if one does, with its declaration as the demangler's
/// text.
fn symbol_at<A: Allocator + Copy>(
    demangler: &mut Demangler<A>,
    how: How,
    left: &[u8],
    scan: WordState,
) -> Result<Option<usize>, AllocError>
    ensures none { IfOk result (λ found. IfNone found ((last : ℕ) (passed : List ℕ) → Keeps scan last passed
        → is_start how.grammar last passed left.now ≡ true → IsNoStart (chosen how) left.now)) }
    ensures some { IfOk result (λ found. IfSome found (λ bytes. ((last : ℕ) (passed : List ℕ) → Keeps scan last passed
        → is_start how.grammar last passed left.now ≡ true)
        × IsSymbolShown (chosen how) left.now bytes demangler.new.text)) }
{
    if !scan.is_start(how.grammar, left) {
        return Ok(None);
    }
    match_symbol(demangler, how, left)
}

/// Returns the length in bytes of the symbol that begins at a start, if one does, with its declaration as the
/// demangler's text.
fn match_symbol<A: Allocator + Copy>(
    demangler: &mut Demangler<A>,
    how: How,
    left: &[u8],
) -> Result<Option<usize>, AllocError>
    ensures none { IfOk result (λ found. IfNone found (IsNoStart (chosen how) left.now)) }
    ensures some { IfOk result (λ found. IfSome found (λ bytes.
        IsSymbolShown (chosen how) left.now bytes demangler.new.text)) }
{
    match demangle_candidate(demangler, how, candidate(left))? {
        Some(read) => {
            let bytes = symbol_extent(how.grammar, left, read);
            if continues(left, bytes) {
                return Ok(None);
            }
            Ok(Some(bytes))
        }
        None => Ok(None),
    }
}

/// Shows the symbol that `input` begins with as the demangler's text, and returns the number of bytes that were read
/// for it. Returns `None` if there is no symbol, or one that exceeds a limit; the text is unspecified then.
fn demangle_candidate<A: Allocator + Copy>(
    demangler: &mut Demangler<A>,
    how: How,
    input: &str,
) -> Result<Option<usize>, AllocError>
    ensures declared { IfOk result (λ found. IfSome found (λ bytes. (tree : SymbolTree)
        × IsParsedIn (dialect_of how.grammar) input.now tree
        × (demangler.new.text ≡ Some (shown_under (chosen how) tree)) × (node_count tree ≤ max_nodes)
        × IsSymbolLengthIn (dialect_of how.grammar) bytes input.now
        × (length (declaration_under (chosen how) tree) ≤ max_declared))) }
    ensures none { IfOk result (λ found. IfNone found (IsNoneWithin (chosen how) input.now)) }
{
    let limits = Limits {
        nodes: Some(DEFAULT_NODE_LIMIT),
        bytes: Some(DEFAULT_BYTE_LIMIT),
    };
    match show(demangler, how, input, limits) {
        Ok(length) => Ok(Some(length)),
        Err(failure) => {
            if failure.is_out_of_memory() {
                Err(AllocError)
            } else {
                Ok(None)
            }
        }
    }
}

/// Shows the symbol that `input` begins with as the demangler's text: its declaration, within limits. Returns the bytes
/// that the symbol takes.
#[inline(always)]
fn show<A: Allocator + Copy>(
    demangler: &mut Demangler<A>,
    how: How,
    input: &str,
    limits: Limits,
) -> Result<usize, Failure>
    ensures shown { IfOk result (λ length. IsShownIn (chosen how) limits input.now length demangler.new.text) }
    ensures fails { IfErr result (λ failure.
        IsFailureIn how.grammar limits input.now (chosen how).flags failure) }
{
    if how.is_colored || how.left_out != 0 {
        return show_named(demangler, how, input, limits);
    }
    demangler.declare(how.grammar, input, how.flags, limits)
}

/// Shows a symbol as [`show`] does, in colors or without what is left out.
#[cold]
fn show_named<A: Allocator + Copy>(
    demangler: &mut Demangler<A>,
    how: How,
    input: &str,
    limits: Limits,
) -> Result<usize, Failure>
    ensures shown { IfOk result (λ length. IsShownIn (chosen how) limits input.now length demangler.new.text) }
    ensures fails { IfErr result (λ failure.
        IsFailureIn how.grammar limits input.now (chosen how).flags failure) }
{
    let named = demangler.declare_named(how.grammar, input, how.flags, how.left_out, limits)?;
    if how.is_colored {
        let text = colored(demangler.alloc(), demangler.declared(), named.place)?;
        demangler.replace(&text)?;
    }
    Ok(named.length)
}

/// Returns a declaration in colors; the name in it stands at `place`.
fn colored<A: Allocator>(
    alloc: A,
    declared: &[u8],
    place: NamePlace,
) -> Result<Vec<u8, A>, AllocError>
    requires ordered { place.start ≤ place.end }
    requires inside { place.end ≤ length declared.now }
    ensures { IfOk result (λ text. text.items ≡ spec.colored declared.now place) }
{
    let mut text = Vec::new(alloc);
    text.extend_from_slice(b"\x1b[36m")?;
    text.extend_from_slice(&declared[..place.start])?;
    text.extend_from_slice(b"\x1b[1m")?;
    text.extend_from_slice(&declared[place.start..place.end])?;
    text.extend_from_slice(b"\x1b[22m")?;
    text.extend_from_slice(&declared[place.end..])?;
    text.extend_from_slice(b"\x1b[39m")?;
    Ok(text)
}
