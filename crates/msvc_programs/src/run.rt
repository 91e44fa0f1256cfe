//! The run of the program `undname` over its words and streams.

ghost use Rattle.std.specs.Prelude.{◌≡◌, ◌≢◌, ◌++◌, [], ℕ, List, IfErr, OnOk, OnSome, codes, map};
ghost use Rattle.std.specs.Prelude.{string_bytes};
ghost use Rattle.std.specs.Prelude.{Result as Outcome, false, true};
ghost use Rattle.std.specs.Io.KnownBytes.{Appends, Consumes, IsAtEnd};
ghost use Rattle.msvc_streams.specs.Faults.{failure_flag, no_stream};
ghost use Rattle.msvc_streams.specs.Runs.{Writes};
ghost use Rattle.msvc_lines.specs.Arguments.{is_verbose, symbols_of};
ghost use Rattle.msvc_programs.specs.Faults.{PrintsFault};
ghost use Rattle.msvc_programs.specs.Programs.{PrintsAnswers, PrintsLines, PrintsReports, SetsFlags, status_of};
ghost use Rattle.msvc_programs.specs.Programs as spec;
ghost use Rattle.msvc_lines.specs.Answers.{IsFilterText};
ghost use Rattle.msvc_lines.specs.Reports.{AreReports};

use crate::faults::report_fault;
use msvc_lines::undname_run;
use msvc_streams::{Fault, Polls, Watched, drop_front, lines_len, read_block, write_all};
use std::alloc::Global;
use std::io::{BufRead, Write};

/// The most bytes of lines whose answers are held until all are written. More are those of a long line.
const MAX_HELD: usize = 1 << 20;

/// Runs the program `undname` over its words, without the program's name, and its streams, and returns the exit status.
///
/// Demangles the symbols among the words or, if there are none, the lines of `input`, as [`undname_run`] does. Answers
/// all lines that `input` shows before it polls `input` again. Writes the reports on symbols to `err`, then their
/// answers to `out`, also if the reports can't be written, and after a fault its line to `err`. Holds no text when it
/// polls, and writes to both outputs once for all lines that were shown, if memory suffices.
pub fn undname<R: BufRead, W: Write, E: Write>(
    alloc: Global,
    words: &[String],
    input: &mut Watched<R>,
    out: &mut Watched<W>,
    err: &mut Watched<E>,
) -> u8
    ensures { (done : Outcome (Unit {0}) Fault) × (result ≡ status_of done)
        × ((taken text : List ℕ) × Consumes (R.remaining input.old.stream) (R.remaining input.new.stream) taken
        × Appends (W.contents out.old.stream) (W.contents out.new.stream) text
        × PrintsAnswers done (symbols_of (map string_bytes words.now)) taken text)
        × ((taken text line : List ℕ) × Consumes (R.remaining input.old.stream) (R.remaining input.new.stream) taken
        × Appends (E.contents err.old.stream) (E.contents err.new.stream) (text ++ line)
        × PrintsReports done (is_verbose (map string_bytes words.now)) (symbols_of (map string_bytes words.now)) taken
        text × PrintsFault (codes "undname") done line)
        × (symbols_of (map string_bytes words.now) ≡ []
        → OnOk done (OnSome (R.remaining input.old.stream) (IsAtEnd (R.remaining input.new.stream))))
        × SetsFlags done (failure_flag input.old input.new) (failure_flag out.old out.new)
        (failure_flag err.old err.new) }
{
    let done = answer_all(alloc, words, input, out, err);
    match done {
        Ok(()) => 0,
        Err(fault) => {
            report_fault("undname", fault, err);
            1
        }
    }
}

/// Answers the symbols among the words or, if there are none, the lines of `input`.
fn answer_all<R: BufRead, W: Write, E: Write>(
    alloc: Global,
    words: &[String],
    input: &mut Watched<R>,
    out: &mut Watched<W>,
    err: &mut Watched<E>,
) -> Result<(), Fault>
    ensures text { (taken text : List ℕ) × Consumes (R.remaining input.old.stream) (R.remaining input.new.stream) taken
        × Appends (W.contents out.old.stream) (W.contents out.new.stream) text
        × PrintsAnswers result (symbols_of (map string_bytes words.now)) taken text }
    ensures errors { (taken text : List ℕ)
        × Consumes (R.remaining input.old.stream) (R.remaining input.new.stream) taken
        × Appends (E.contents err.old.stream) (E.contents err.new.stream) text
        × PrintsReports result (is_verbose (map string_bytes words.now)) (symbols_of (map string_bytes words.now))
        taken text }
    ensures end { symbols_of (map string_bytes words.now) ≡ []
        → OnOk result (OnSome (R.remaining input.old.stream) (IsAtEnd (R.remaining input.new.stream))) }
    ensures sets_failed { SetsFlags result (failure_flag input.old input.new) (failure_flag out.old out.new)
        (failure_flag err.old err.new) }
{
    if has_symbols(words) {
        answer(alloc, words, b"", out, err)
    } else {
        answer_lines(alloc, words, input, out, err)
    }
}

/// Tests whether there are symbols among the words: any word, but `-v` as the first.
fn has_symbols(words: &[String]) -> bool
    ensures some { result ≡ true → symbols_of (map string_bytes words.now) ≢ [] }
    ensures none { result ≡ false → symbols_of (map string_bytes words.now) ≡ [] }
{
    match words {
        [] => false,
        [word] => word.as_str() != "-v",
        _ => true,
    }
}

/// Answers the lines of `input`, all that it shows at once.
fn answer_lines<R: BufRead, W: Write, E: Write>(
    alloc: Global,
    words: &[String],
    input: &mut Watched<R>,
    out: &mut Watched<W>,
    err: &mut Watched<E>,
) -> Result<(), Fault>
    requires { symbols_of (map string_bytes words.now) ≡ [] }
    ensures text { (taken text : List ℕ) × Consumes (R.remaining input.old.stream) (R.remaining input.new.stream) taken
        × Appends (W.contents out.old.stream) (W.contents out.new.stream) text
        × PrintsLines result IsFilterText taken text }
    ensures errors { (taken text : List ℕ)
        × Consumes (R.remaining input.old.stream) (R.remaining input.new.stream) taken
        × Appends (E.contents err.old.stream) (E.contents err.new.stream) text
        × PrintsLines result (AreReports (is_verbose (map string_bytes words.now))) taken text }
    ensures end { OnOk result (OnSome (R.remaining input.old.stream) (IsAtEnd (R.remaining input.new.stream))) }
    ensures sets_failed { SetsFlags result (failure_flag input.old input.new) (failure_flag out.old out.new)
        (failure_flag err.old err.new) }
{
    let mut block = Vec::new(alloc);
    let mut polls = Polls::none();
    'blocks: loop {
        let from = block.len();
        let more = match read_block(input, &mut polls, &mut block) {
            Ok(more) => more,
            Err(fault) => return Err(fault),
        };
        if !more {
            return answer(alloc, words, &block, out, err);
        }
        let end = lines_len(&block, from);
        match answer(alloc, words, &block[..end], out, err) {
            Ok(()) => {}
            Err(fault) => return Err(fault),
        }
        drop_front(&mut block, end);
    }
}

/// Answers the symbols among the words or, if there are none, the lines of `block`. Writes all reports at once, then
/// all answers.
fn answer<W: Write, E: Write>(
    alloc: Global,
    words: &[String],
    block: &[u8],
    out: &mut Watched<W>,
    err: &mut Watched<E>,
) -> Result<(), Fault>
    requires { symbols_of (map string_bytes words.now) ≢ [] → block.now ≡ [] }
    ensures text { (text : List ℕ) × Appends (W.contents out.old.stream) (W.contents out.new.stream) text
        × PrintsAnswers result (symbols_of (map string_bytes words.now)) block.now text }
    ensures errors { (text : List ℕ) × Appends (E.contents err.old.stream) (E.contents err.new.stream) text
        × PrintsReports result (is_verbose (map string_bytes words.now)) (symbols_of (map string_bytes words.now))
        block.now text }
    ensures fault { IfErr result (λ fault. fault ≢ Fault.Read) }
    ensures sets_failed { SetsFlags result no_stream (failure_flag out.old out.new) (failure_flag err.old err.new) }
{
    if block.len() > MAX_HELD {
        return answer_unheld(alloc, words, block, out, err);
    }
    let mut answers = Watched::new(Vec::new(alloc));
    let mut reports = Watched::new(Vec::new(alloc));
    match undname_run(
        alloc,
        words,
        &mut Watched::new(block),
        &mut answers,
        &mut reports,
    ) {
        Ok(()) => write_both(&answers.into_inner(), &reports.into_inner(), out, err),
        Err(_) => answer_unheld(alloc, words, block, out, err),
    }
}

/// Writes reports, and then answers, also if the reports can't be written.
fn write_both<W: Write, E: Write>(
    answers: &[u8],
    reports: &[u8],
    out: &mut Watched<W>,
    err: &mut Watched<E>,
) -> Result<(), Fault>
    ensures text { (text : List ℕ) × Appends (W.contents out.old.stream) (W.contents out.new.stream) text
        × Writes result (λ whole. whole ≡ answers.now) text }
    ensures errors { (text : List ℕ) × Appends (E.contents err.old.stream) (E.contents err.new.stream) text
        × Writes result (λ whole. whole ≡ reports.now) text }
    ensures fault { IfErr result (λ fault. fault ≡ Fault.Write) }
    ensures sets_failed { SetsFlags result no_stream (failure_flag out.old out.new) (failure_flag err.old err.new) }
{
    let reported = write_all(err, reports);
    match write_all(out, answers) {
        Ok(()) => reported,
        Err(fault) => Err(fault),
    }
}

/// Answers as [`answer`] does, and writes each report and each answer at once, without memory for all of them.
#[cold]
fn answer_unheld<W: Write, E: Write>(
    alloc: Global,
    words: &[String],
    block: &[u8],
    out: &mut Watched<W>,
    err: &mut Watched<E>,
) -> Result<(), Fault>
    requires { symbols_of (map string_bytes words.now) ≢ [] → block.now ≡ [] }
    ensures text { (text : List ℕ) × Appends (W.contents out.old.stream) (W.contents out.new.stream) text
        × PrintsAnswers result (symbols_of (map string_bytes words.now)) block.now text }
    ensures errors { (text : List ℕ) × Appends (E.contents err.old.stream) (E.contents err.new.stream) text
        × PrintsReports result (is_verbose (map string_bytes words.now)) (symbols_of (map string_bytes words.now))
        block.now text }
    ensures fault { IfErr result (λ fault. fault ≢ Fault.Read) }
    ensures sets_failed { SetsFlags result no_stream (failure_flag out.old out.new) (failure_flag err.old err.new) }
{
    match undname_run(alloc, words, &mut Watched::new(block), out, err) {
        Ok(()) => Ok(()),
        Err(fault) => Err(slice_fault(fault)),
    }
}

/// Returns the fault of a run over a slice, which is read without a fault.
fn slice_fault(fault: Fault) -> Fault
    ensures { result ≡ spec.slice_fault fault }
{
    match fault {
        Fault::Write => Fault::Write,
        Fault::Read | Fault::Memory => Fault::Memory,
    }
}
