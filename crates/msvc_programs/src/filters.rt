//! The run of the program `msvcfilt` over its arguments and streams.

ghost use Rattle.std.specs.Prelude.{◌≡◌, ℕ, List, Option, IfOk, IfSome, None, Some, codes, map};
ghost use Rattle.std.specs.Prelude.{Result as Outcome, Bool};
ghost use Rattle.std.specs.Io.KnownBytes.{Appends};
ghost use Rattle.msvc_streams.specs.Faults.{SetsFailureFlag, failure_flag, no_stream};
ghost use Rattle.msvc_streams.specs.declared.watched.Fault.{Fault};
ghost use Rattle.msvc_filter.specs.Choices.{chosen};
ghost use Rattle.msvc_programs.specs.Faults.{PrintsFault};
ghost use Rattle.msvc_programs.specs.Filters.{WritesArguments, WritesInput, WritesInputs, status_of_inputs, text_of};
ghost use Rattle.msvc_programs.specs.Filters as spec;

use crate::faults::report_fault;
use msvc_filter::{How, filter_blocks};
use msvc_streams::{Fault, Watched};
use msvc_symbol::Demangler;
use std::alloc::{AllocError, Global};
use std::io::{BufRead, Write};

/// What `msvcfilt` asks of the system: its inputs by their names, and who reads its output.
pub trait Host<R: BufRead> {
    /// The bytes of the input of a name, where they are known.
    ghost bytes: { Self → List ℕ → Option (List ℕ) } = { λ host name. None };

    /// Opens an input. Reports one that can't be opened, and returns `None` then.
    ///
    /// # Errors
    ///
    /// Fails if an allocation fails.
    fn open(&self, name: &str) -> Result<Option<R>, AllocError>
        ensures { IfOk result (λ opened. IfSome opened (λ input. R.remaining input ≡ bytes self.now name.now)) };

    /// Reports an input that was opened, and can't be read to its end.
    fn report(&self, name: &str);

    /// Returns whether the reader of the output has exited.
    fn is_closed(&self) -> bool;
}

/// Runs the program `msvcfilt` over its arguments, which name inputs or, if `as_symbols`, are symbols or other texts,
/// each a line. Returns the exit status.
///
/// Filters them in order, as [`filter_blocks`] does, each input from its beginning as a text of its own. Asks `host` to
/// report an input that can't be opened or read to its end, and filters those after it. Ends at any other fault, and
/// writes its line to `err`, unless the output can't be written because its reader has exited.
pub fn msvcfilt<R: BufRead + Drop, H: Host<R>, W: Write, E: Write>(
    alloc: Global,
    how: How,
    arguments: &[&str],
    as_symbols: bool,
    host: &H,
    out: &mut Watched<W>,
    err: &mut Watched<E>,
) -> u8
    ensures { (done : Outcome Bool Fault) × (result ≡ status_of_inputs done)
        × ((text : List ℕ) × Appends (W.contents out.old.stream) (W.contents out.new.stream) text
        × WritesArguments (chosen how) (H.bytes host.now) as_symbols (map text_of arguments.now) done text)
        × ((line : List ℕ) × Appends (E.contents err.old.stream) (E.contents err.new.stream) line
        × PrintsFault (codes "msvcfilt") done line)
        × SetsFailureFlag done no_stream (failure_flag out.old out.new) no_stream }
{
    let mut demangler = Demangler::new(alloc);
    let done = filter_arguments(&mut demangler, how, arguments, as_symbols, host, out);
    end(done, host, err)
}

/// Returns the exit status of a run that ended so, after a report if a fault ended it.
fn end<R: BufRead, H: Host<R>, E: Write>(
    done: Result<bool, Fault>,
    host: &H,
    err: &mut Watched<E>,
) -> u8
    ensures status { result ≡ status_of_inputs done }
    ensures line { (line : List ℕ) × Appends (E.contents err.old.stream) (E.contents err.new.stream) line
        × PrintsFault (codes "msvcfilt") done line }
{
    match done {
        Ok(true) => 0,
        Ok(false) => 1,
        Err(fault) => {
            if fault != Fault::Write || !host.is_closed() {
                report_fault("msvcfilt", fault, err);
            }
            1
        }
    }
}

/// Filters the inputs that the arguments name, or the arguments as symbols. Returns whether all was read to its end.
fn filter_arguments<R: BufRead + Drop, H: Host<R>, W: Write>(
    demangler: &mut Demangler,
    how: How,
    arguments: &[&str],
    as_symbols: bool,
    host: &H,
    out: &mut Watched<W>,
) -> Result<bool, Fault>
    ensures text { (text : List ℕ) × Appends (W.contents out.old.stream) (W.contents out.new.stream) text
        × WritesArguments (chosen how) (H.bytes host.now) as_symbols (map text_of arguments.now) result text }
    ensures sets_failed { SetsFailureFlag result no_stream (failure_flag out.old out.new) no_stream }
{
    if as_symbols {
        filter_symbols(demangler, how, arguments, out)
    } else {
        filter_inputs(demangler, how, arguments, host, out)
    }
}

/// Filters symbols, or other texts, each as a line. Returns whether all were filtered.
fn filter_symbols<W: Write>(
    demangler: &mut Demangler,
    how: How,
    symbols: &[&str],
    out: &mut Watched<W>,
) -> Result<bool, Fault>
    ensures text { (text : List ℕ) × Appends (W.contents out.old.stream) (W.contents out.new.stream) text
        × WritesInput result (chosen how) (Some (spec.as_lines (map text_of symbols.now))) text }
    ensures sets_failed { SetsFailureFlag result no_stream (failure_flag out.old out.new) no_stream }
{
    match as_lines(demangler.alloc(), symbols) {
        Ok(lines) => filter_input(demangler, how, lines.as_slice(), out),
        Err(_) => Err(Fault::Memory),
    }
}

/// Returns symbols, each as a line.
fn as_lines(alloc: Global, symbols: &[&str]) -> Result<Vec<u8>, AllocError>
    ensures { IfOk result (λ lines. lines.items ≡ spec.as_lines (map text_of symbols.now)) }
{
    let mut lines = Vec::new(alloc);
    for symbol in symbols {
        lines.extend_from_slice(symbol.as_bytes())?;
        lines.push(b'\n')?;
    }
    Ok(lines)
}

/// Filters the inputs of some names, in order. Returns whether all were read to their ends.
fn filter_inputs<R: BufRead + Drop, H: Host<R>, W: Write>(
    demangler: &mut Demangler,
    how: How,
    names: &[&str],
    host: &H,
    out: &mut Watched<W>,
) -> Result<bool, Fault>
    ensures text { (text : List ℕ) × Appends (W.contents out.old.stream) (W.contents out.new.stream) text
        × WritesInputs (chosen how) (H.bytes host.now) (map text_of names.now) result text }
    ensures sets_failed { SetsFailureFlag result no_stream (failure_flag out.old out.new) no_stream }
{
    let mut all_read = true;
    for name in names {
        let read = filter_named(demangler, how, name, host, out)?;
        all_read = all_read && read;
    }
    Ok(all_read)
}

/// Filters the input of a name. Returns whether it was read to its end, after a report if it was not.
fn filter_named<R: BufRead + Drop, H: Host<R>, W: Write>(
    demangler: &mut Demangler,
    how: How,
    name: &str,
    host: &H,
    out: &mut Watched<W>,
) -> Result<bool, Fault>
    ensures text { (text : List ℕ) × Appends (W.contents out.old.stream) (W.contents out.new.stream) text
        × WritesInput result (chosen how) (H.bytes host.now name.now) text }
    ensures sets_failed { SetsFailureFlag result no_stream (failure_flag out.old out.new) no_stream }
{
    match host.open(name) {
        Ok(Some(input)) => {
            let read = filter_input(demangler, how, input, out);
            if let Ok(false) = read {
                host.report(name);
            }
            read
        }
        Ok(None) => Ok(false),
        Err(_) => Err(Fault::Memory),
    }
}

/// Filters an input. Returns whether it was read to its end.
fn filter_input<R: BufRead + Drop, W: Write>(
    demangler: &mut Demangler,
    how: How,
    input: R,
    out: &mut Watched<W>,
) -> Result<bool, Fault>
    ensures text { (text : List ℕ) × Appends (W.contents out.old.stream) (W.contents out.new.stream) text
        × WritesInput result (chosen how) (R.remaining input) text }
    ensures sets_failed { SetsFailureFlag result no_stream (failure_flag out.old out.new) no_stream }
{
    match filter_blocks(demangler, how, &mut Watched::new(input), out) {
        Ok(()) => Ok(true),
        Err(Fault::Read) => Ok(false),
        Err(fault) => Err(fault),
    }
}
