//! `undname` over one symbol and over lines, from a reader to writers.

ghost use Rattle.std.specs.Prelude.{◌≡◌, ◌∷◌, ◌++◌, ℕ, List, [], IfErr, IfOk, None, OnOk, OnSome, Some, string_bytes};
ghost use Rattle.std.specs.Io.KnownBytes.{Appends, Consumes, IsAtEnd};
ghost use Rattle.msvc_nodes.specs.Trees.{SymbolTree};
ghost use Rattle.msvc_grammar.specs.Parsed.{IsParsed};
ghost use Rattle.msvc_cursor.specs.Errors.{IsInside};
ghost use Rattle.msvc_cursor.specs.Failures.{Fails};
ghost use Rattle.msvc_print.specs.Declaration.{declaration};
ghost use Rattle.msvc_lines.specs.Answers.{IsLineText, IsText, IsTextOf, line_flags};
ghost use Rattle.msvc_lines.specs.Lines.{line_of};
ghost use Rattle.msvc_lines.specs.Reports.{IsErrorLine, IsFailureLine, IsReport, WritesReports, tree_line};
ghost use Rattle.msvc_streams.specs.Faults.{SetsFailureFlag, failure_flag, no_stream};
ghost use Rattle.msvc_streams.specs.Runs.{Writes};
ghost use Rattle.msvc_lines.specs.LineRuns.{WritesLines};

use msvc_cursor::failure::Failure;
use msvc_cursor::limits::Limits;
use msvc_cursor::symbol_read::SymbolRead;
use msvc_debug::write_tree;
use msvc_nodes::error::Error;
use msvc_nodes::flags::DemangleFlags;
use msvc_print::Text;
use msvc_streams::{
    Fault, Polls, Taken, Watched, consume, fail, fill_buf, line_end, write_all, write_line,
};
use msvc_symbol::{Arena, Grammar, print, read};
use std::alloc::{AllocError, Global};
use std::io::{BufRead, Write};
use std::str::from_utf8;

/// Bytes to reserve for the text of an error. Few errors of symbols take more.
const ERROR_TEXT: usize = 256;

/// Bytes that the line of an error has beside that text.
const ERROR_AROUND: usize = 8;

/// Demangles one symbol: writes its declaration and a line feed to `out`. If the symbol is rejected, writes `error: `,
/// the error and a line feed to `err`, and then the symbol itself and a line feed to `out`. If `verbose`, writes the
/// symbol's tree and a line feed to `err` before its declaration.
///
/// # Errors
///
/// Fails with [`Fault::Write`] if a writer fails, and with [`Fault::Memory`] if an allocation fails, with nothing
/// written to `out`.
pub fn undname_one<W: Write, E: Write>(
    alloc: Global,
    symbol: &str,
    out: &mut Watched<W>,
    err: &mut Watched<E>,
    verbose: bool,
) -> Result<(), Fault>
    ensures text { (text : List ℕ) × Appends (W.contents out.old.stream) (W.contents out.new.stream) text
        × Writes result (IsLineText symbol.now) text }
    ensures errors { (text : List ℕ) × Appends (E.contents err.old.stream) (E.contents err.new.stream) text
        × Writes result (IsReport verbose symbol.now) text }
    ensures sets_failed { SetsFailureFlag result no_stream (failure_flag out.old out.new)
        (failure_flag err.old err.new) }
{
    let mut arena = Arena::new(alloc);
    let mut text = Text::new(alloc);
    undname_in(alloc, &mut arena, &mut text, symbol, out, err, verbose)
}

/// Demangles one symbol, as [`undname_one`] does, with memory that is kept for the next.
pub(crate) fn undname_in<W: Write, E: Write>(
    alloc: Global,
    arena: &mut Arena,
    text: &mut Text,
    symbol: &str,
    out: &mut Watched<W>,
    err: &mut Watched<E>,
    verbose: bool,
) -> Result<(), Fault>
    ensures text { (text : List ℕ) × Appends (W.contents out.old.stream) (W.contents out.new.stream) text
        × Writes result (IsLineText symbol.now) text }
    ensures errors { (text : List ℕ) × Appends (E.contents err.old.stream) (E.contents err.new.stream) text
        × Writes result (IsReport verbose symbol.now) text }
    ensures sets_failed { SetsFailureFlag result no_stream (failure_flag out.old out.new)
        (failure_flag err.old err.new) }
{
    let mut tree = String::new(alloc);
    match declare(alloc, arena, symbol, verbose, &mut tree, text) {
        Ok(()) => {
            write_all(err, tree.as_bytes())?;
            write_line(out, text.as_bytes())
        }
        Err(Failure::Memory) => Err(Fault::Memory),
        Err(failure) => {
            report(alloc, failure, symbol, err)?;
            write_line(out, symbol.as_bytes())
        }
    }
}

/// Reads a symbol, and prints its declaration to `text`. If `verbose`, appends its tree and a line feed to `tree` in
/// between.
///
/// # Errors
///
/// Fails if the symbol is rejected, or if an allocation fails. After a failed allocation the arena can't be used again.
fn declare(
    alloc: Global,
    arena: &mut Arena,
    symbol: &str,
    verbose: bool,
    tree: &mut String,
    text: &mut Text,
) -> Result<(), Failure>
    ensures declared { IfOk result (λ _. (t : SymbolTree) × IsParsed symbol.now t
        × (text.new.text ≡ Some (declaration t line_flags))
        × (string_bytes tree.new ≡ string_bytes tree.old ++ tree_line verbose t)) }
    ensures fails { IfErr result (λ failure. Fails None symbol.now failure) }
    ensures inside { IfErr result (λ failure. IsInside symbol.now failure) }
{
    let limits = Limits::none();
    let arena = arena.prepared(symbol, limits)?;
    let SymbolRead {
        symbol: nodes,
        length,
        ..
    } = read(Grammar::Crate, arena, symbol, limits)?;
    if verbose {
        write_tree(alloc, &nodes, tree)?;
        tree.push('\n')?;
    }
    let flags = DemangleFlags::llvm();
    print(Grammar::Crate, arena, &nodes, length, flags, limits, text)
}

/// Writes the error of a symbol that is rejected for this reason.
fn report<E: Write>(
    alloc: Global,
    failure: Failure,
    symbol: &str,
    err: &mut Watched<E>,
) -> Result<(), Fault>
    requires { IsInside symbol.now failure }
    ensures errors { (text : List ℕ) × Appends (E.contents err.old.stream) (E.contents err.new.stream) text
        × Writes result (IsFailureLine failure symbol.now) text }
    ensures sets_failed { SetsFailureFlag result no_stream no_stream (failure_flag err.old err.new) }
{
    let error = failure.error(alloc, symbol);
    if error.is_out_of_memory() {
        return Err(Fault::Memory);
    }
    match error_line(alloc, &error) {
        Ok(text) => write_all(err, text.as_bytes()),
        Err(_) => Err(Fault::Memory),
    }
}

/// Returns the line that is written for a rejected symbol: `error: `, the error, and a line feed.
fn error_line(alloc: Global, error: &Error) -> Result<String, AllocError>
    ensures { IfOk result (λ line. IsErrorLine error.now (string_bytes line)) }
{
    let mut shown = String::with_capacity(alloc, ERROR_TEXT)?;
    write!(shown, "{error}")?;
    let mut line = String::with_capacity(alloc, shown.len() + ERROR_AROUND)?;
    line.push_str("error: ")?;
    line.push_str(shown.as_str())?;
    line.push('\n')?;
    Ok(line)
}

/// Demangles each line of `input`, to its end, as [`undname_one`] does. Skips lines that are not UTF-8.
///
/// A line that the reader shows whole is read from the reader's buffer, and consumed once it is answered, also if a
/// write failed; so reader and writers must not share a borrow that lasts from `fill_buf` to `consume`, as of a
/// `RefCell`.
///
/// # Limits
///
/// None: a symbol of some 40,000 levels overflows a stack of 8 MB.
///
/// # Errors
///
/// Returns the first fault: [`Fault::Read`] if the reader fails, [`Fault::Write`] if a writer fails, [`Fault::Memory`]
/// if an allocation fails. The lines before it are written.
///
/// # Examples
///
/// ```
/// let mut input = Watched::new(b"?x@@3HA\nmain\n".as_slice());
/// let (mut out, mut err) = (Watched::new(Vec::new(alloc)), Watched::new(Vec::new(alloc)));
/// assert!(rt; undname_lines(alloc, &mut input, &mut out, &mut err, false).is_ok());
/// assert_eq!(rt; out.into_inner().as_slice(), b"int x\nmain\n".as_slice());
/// ```
pub fn undname_lines<R: BufRead, W: Write, E: Write>(
    alloc: Global,
    input: &mut Watched<R>,
    out: &mut Watched<W>,
    err: &mut Watched<E>,
    verbose: bool,
) -> Result<(), Fault>
    ensures text { (taken text : List ℕ) × Consumes (R.remaining input.old.stream) (R.remaining input.new.stream) taken
        × Appends (W.contents out.old.stream) (W.contents out.new.stream) text × WritesLines result taken text }
    ensures errors { (taken text : List ℕ)
        × Consumes (R.remaining input.old.stream) (R.remaining input.new.stream) taken
        × Appends (E.contents err.old.stream) (E.contents err.new.stream) text
        × WritesReports result verbose taken text }
    ensures end { OnOk result (OnSome (R.remaining input.old.stream) (IsAtEnd (R.remaining input.new.stream))) }
    ensures sets_failed { SetsFailureFlag result (failure_flag input.old input.new) (failure_flag out.old out.new)
        (failure_flag err.old err.new) }
{
    let mut arena = Arena::new(alloc);
    let mut text = Text::new(alloc);
    let mut piece = Vec::new(alloc);
    let mut polls = Polls::none();
    'pieces: loop {
        let shown = match fill_buf(input, &mut polls) {
            Ok(shown) => shown,
            Err(failure) => return Err(fail(input, failure)),
        };
        let (end, taken) = line_end(shown);
        match taken {
            Taken::Line if piece.is_empty() => {
                // A line that the reader shows whole is not copied.
                let line = &shown[..end];
                let put = undname_line(alloc, &mut arena, &mut text, line, out, err, verbose);
                consume(input, end);
                put?;
            }
            Taken::Line => {
                if piece.extend_from_slice(&shown[..end]).is_err() {
                    return Err(Fault::Memory);
                }
                consume(input, end);
                undname_line(alloc, &mut arena, &mut text, &piece, out, err, verbose)?;
                piece.clear();
            }
            Taken::Part => {
                if piece.extend_from_slice(&shown[..end]).is_err() {
                    return Err(Fault::Memory);
                }
                consume(input, end);
            }
            Taken::End => {
                if piece.is_empty() {
                    return Ok(());
                }
                return undname_line(alloc, &mut arena, &mut text, &piece, out, err, verbose);
            }
        }
    }
}

/// Demangles one line, unless it is not UTF-8.
fn undname_line<W: Write, E: Write>(
    alloc: Global,
    arena: &mut Arena,
    text: &mut Text,
    piece: &[u8],
    out: &mut Watched<W>,
    err: &mut Watched<E>,
    verbose: bool,
) -> Result<(), Fault>
    ensures text { (text : List ℕ) × Appends (W.contents out.old.stream) (W.contents out.new.stream) text
        × Writes result (IsText (line_of piece.now ∷ [])) text }
    ensures errors { (text : List ℕ) × Appends (E.contents err.old.stream) (E.contents err.new.stream) text
        × Writes result (IsTextOf (IsReport verbose) (line_of piece.now ∷ [])) text }
    ensures sets_failed { SetsFailureFlag result no_stream (failure_flag out.old out.new)
        (failure_flag err.old err.new) }
{
    match from_utf8(without_end(piece)) {
        Ok(line) => undname_in(alloc, arena, text, line, out, err, verbose),
        Err(_) => Ok(()),
    }
}

/// Returns a piece without the line feed that ends it, and without one carriage return before that.
fn without_end(piece: &[u8]) -> &[u8]
    ensures { result.now ≡ line_of piece.now }
{
    let Some(line) = piece.strip_suffix(b"\n") else {
        return piece;
    };
    line.strip_suffix(b"\r").unwrap_or(line)
}
