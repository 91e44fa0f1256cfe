//! The whole run of the program `undname`, over readers and writers: its options, and the symbols among its arguments.

ghost use Rattle.std.specs.Prelude.{◌≡◌, [], ℕ, List, OnOk, OnSome, map, string_bytes};
ghost use Rattle.std.specs.Io.KnownBytes.{Appends, Consumes, IsAtEnd};
ghost use Rattle.msvc_streams.specs.Faults.{SetsFailureFlag, failure_flag, no_stream};
ghost use Rattle.msvc_lines.specs.Answers.{IsLineText};
ghost use Rattle.msvc_lines.specs.Arguments.{WritesAnswers, WritesRemarks, WritesSymbols, is_verbose, symbols_of};
ghost use Rattle.msvc_lines.specs.Reports.{IsReport};

use crate::lines::{undname_in, undname_lines};
use msvc_print::Text;
use msvc_streams::{Fault, Watched};
use msvc_symbol::Arena;
use std::alloc::Global;
use std::io::{BufRead, Write};

/// Runs `undname` on its arguments, without the program's name: demangles each symbol in order or, if there is none,
/// each line of `input`. A first argument `-v` is an option: with it each tree is written to `err` before its
/// declaration.
///
/// # Errors
///
/// Returns the first fault, at which the run ends. The caller flushes the writers and reports the fault.
pub fn undname_run<R: BufRead, W: Write, E: Write>(
    alloc: Global,
    words: &[String],
    input: &mut Watched<R>,
    out: &mut Watched<W>,
    err: &mut Watched<E>,
) -> Result<(), Fault>
    ensures text { (taken text : List ℕ) × Consumes (R.remaining input.old.stream) (R.remaining input.new.stream) taken
        × Appends (W.contents out.old.stream) (W.contents out.new.stream) text
        × WritesAnswers result (symbols_of (map string_bytes words.now)) taken text }
    ensures errors { (taken text : List ℕ)
        × Consumes (R.remaining input.old.stream) (R.remaining input.new.stream) taken
        × Appends (E.contents err.old.stream) (E.contents err.new.stream) text
        × WritesRemarks result (is_verbose (map string_bytes words.now)) (symbols_of (map string_bytes words.now))
        taken text }
    ensures end { symbols_of (map string_bytes words.now) ≡ []
        → OnOk result (OnSome (R.remaining input.old.stream) (IsAtEnd (R.remaining input.new.stream))) }
    ensures sets_failed { SetsFailureFlag result (failure_flag input.old input.new) (failure_flag out.old out.new)
        (failure_flag err.old err.new) }
{
    let (symbols, verbose) = options(words);
    if symbols.is_empty() {
        return undname_lines(alloc, input, out, err, verbose);
    }
    undname_all(alloc, symbols, out, err, verbose)
}

/// Splits the arguments into the symbols and whether the first argument is `-v`.
fn options(words: &[String]) -> (&[String], bool)
    ensures symbols { map string_bytes result.0.now ≡ symbols_of (map string_bytes words.now) }
    ensures verbose { result.1 ≡ is_verbose (map string_bytes words.now) }
{
    match words.split_first() {
        Some((first, symbols)) if first.as_str() == "-v" => (symbols, true),
        _ => (words, false),
    }
}

/// Demangles each symbol, in order.
fn undname_all<W: Write, E: Write>(
    alloc: Global,
    symbols: &[String],
    out: &mut Watched<W>,
    err: &mut Watched<E>,
    verbose: bool,
) -> Result<(), Fault>
    ensures text { (text : List ℕ) × Appends (W.contents out.old.stream) (W.contents out.new.stream) text
        × WritesSymbols result IsLineText (map string_bytes symbols.now) text }
    ensures errors { (text : List ℕ) × Appends (E.contents err.old.stream) (E.contents err.new.stream) text
        × WritesSymbols result (IsReport verbose) (map string_bytes symbols.now) text }
    ensures sets_failed { SetsFailureFlag result no_stream (failure_flag out.old out.new)
        (failure_flag err.old err.new) }
{
    let mut arena = Arena::new(alloc);
    let mut text = Text::new(alloc);
    for symbol in symbols {
        undname_in(
            alloc,
            &mut arena,
            &mut text,
            symbol.as_str(),
            out,
            err,
            verbose,
        )?;
    }
    Ok(())
}
