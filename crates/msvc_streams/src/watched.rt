//! Streams that are watched: whether a call on a reader or a writer has failed. Only `consume` and `write_some` move
//! bytes, and only `fail` and `write_some` set the failure flag of a stream.

ghost use Rattle.std.specs.Prelude.{◌≡◌, ◌+◌, ◌-◌, ◌^◌, ◌≤◌, ◌<◌, ◌++◌, ◌↔◌, ℕ, List, [], Err, false, true};
ghost use Rattle.std.specs.Prelude.{IfErr, IfOk, IfSome, IsTrue, OnErr, OnSome, length, take};
ghost use Rattle.std.specs.Borrow.{sem};
ghost use Rattle.std.specs.Io.{StartsWith};
ghost use Rattle.std.specs.Io.BufRead.{DropsConsumable, FillKeeps, Rests};
ghost use Rattle.std.specs.Io.KnownBytes.{Appends, Consumes, IsAtEnd, Keeps};
ghost use Rattle.msvc_streams.specs.contracts.watched.Watched.{the_row};
ghost use Rattle.msvc_streams.specs.Faults.{SetsFailureFlag, failure_flag, no_stream};
ghost use Rattle.msvc_streams.specs.Polled.{Counts, is_at_limit, polled};
ghost use Rattle.msvc_streams.specs.Taking.{IsCut, IsTaken};

use byte_search::find_byte;
use std::io::{BufRead, Write};
use std::marker::Model;

/// Reason why a run ended early.
#[derive(Clone, Copy, Debug, PartialEq, Eq)]
pub enum Fault {
    /// The reader failed.
    Read,
    /// A writer failed.
    Write,
    /// An allocation failed.
    Memory,
}

/// A reader or a writer, and whether a call on it has failed. Contracts refer to both fields.
#[derive(Drop)]
pub struct Watched<T> {
    stream: T,
    failed: bool,
}

/// The number of times that a reader was polled in a run. Only `fill_buf` counts.
#[derive(Drop)]
pub struct Polls {
    count: u64,
}

impl Polls {
    /// Returns the number before the first poll.
    pub fn none() -> Polls
        ensures { polled result ≡ 0 }
    {
        Polls { count: 0 }
    }
}

/// The failure of a reader. Only `fill_buf` makes one.
#[derive(Clone, Copy)]
pub struct ReadFailure {
    /// Whether the reader was polled too often; else it failed itself.
    at_limit: bool,
}

/// Bytes that were taken from a reader.
#[derive(Clone, Copy)]
pub enum Taken {
    /// Some bytes, none of them a line feed.
    Part,
    /// The bytes up to a line feed, and it.
    Line,
    /// Nothing, at the end of the reader.
    End,
}

impl<T> Model for Watched<T> {
    ghost use Rattle.msvc_streams.specs.Streams.{Stream};

    ghost Value = { Stream T };

    ghost view = { λ w. record { stream = w.stream; failed = w.failed } };
}

impl<T> Watched<T> {
    /// Watches a stream, which has not failed.
    pub fn new(inner: T) -> Watched<T>
        ensures stream { result.stream ≡ inner }
        ensures failed { result.failed ≡ false }
    {
        Watched {
            stream: inner,
            failed: false,
        }
    }

    /// Returns whether a call on the stream has failed.
    pub fn failed(&self) -> bool
        ensures { result ≡ self.now.failed }
    {
        self.failed
    }

    /// Returns the stream.
    pub fn into_inner(self) -> T
        ensures { result ≡ self.stream }
    {
        let Watched { stream, failed: _ } = self;
        stream
    }
}

/// Polls the reader once, and returns the bytes that it shows: none only at its end. Takes none of them.
///
/// Fails if the reader fails, also if it is interrupted, and if it was polled 2^64 - 1 times before.
pub fn fill_buf<'a, R: BufRead>(
    input: &'a mut Watched<R>,
    polls: &mut Polls,
) -> Result<&'a [u8], ReadFailure>
    ensures front { IfSome (R.remaining input.old.stream) (λ xs. IfOk result (λ s. StartsWith xs s.now)) }
    ensures end { IfSome (R.remaining input.old.stream) (λ xs. IfOk result (λ s. length s.now ≡ 0 → xs ≡ [])) }
    ensures counted { IfOk result (λ _. Counts polls.old polls.new) }
    ensures limit { IfErr result (λ failure. IsTrue (is_at_limit failure) ↔ (polled polls.old ≡ 2 ^ 64 - 1)) }
    ensures too_many { polled polls.old ≡ 2 ^ 64 - 1 → IfOk result (λ _. ⊥) }
    ensures* after_borrow { sem 𝓛 (Rests (the_row R.row) input.entry (λ new.
        FillKeeps (R.remaining input.old.stream) (R.remaining new.stream) (R.consumable_len new.stream) result
        × (new.failed ≡ input.old.failed))) }
{
    if polls.count == u64::MAX {
        return Err(ReadFailure { at_limit: true });
    }
    polls.count += 1;
    match input.stream.fill_buf() {
        Ok(shown) => Ok(shown),
        Err(_) => Err(ReadFailure { at_limit: false }),
    }
}

/// Records that a reader has failed, and returns its fault.
pub fn fail<R: BufRead>(input: &mut Watched<R>, failure: ReadFailure) -> Fault
    ensures fault { result ≡ Fault.Read }
    ensures failed { input.new.failed ≡ true }
    ensures stream { input.new.stream ≡ input.old.stream }
{
    let ReadFailure { at_limit: _ } = failure;
    input.failed = true;
    Fault::Read
}

/// Takes `count` of the bytes that the reader shows.
pub fn consume<R: BufRead>(input: &mut Watched<R>, count: usize)
    ensures bytes { DropsConsumable (R.remaining input.old.stream) (R.remaining input.new.stream)
        (R.consumable_len input.old.stream) count }
    ensures failed { input.new.failed ≡ input.old.failed }
{
    input.stream.consume(count);
}

/// Polls the reader once, and appends all bytes that it shows to `block`. Returns whether it showed any.
///
/// Returns the fault of a failed call at once, also of an interrupted one, and takes nothing then. No clause states
/// that the reader is polled no second time, since a reader's contract describes its bytes and counts no calls.
pub fn read_block<R: BufRead>(
    input: &mut Watched<R>,
    polls: &mut Polls,
    block: &mut Vec<u8>,
) -> Result<bool, Fault>
    ensures taken { (taken : List ℕ) × (block.new.items ≡ block.old.items ++ taken)
        × Consumes (R.remaining input.old.stream) (R.remaining input.new.stream) taken × IsTaken result taken }
    ensures end { IfOk result (λ more. more ≡ false →
        OnSome (R.remaining input.old.stream) (IsAtEnd (R.remaining input.new.stream))) }
    ensures sets_failed { SetsFailureFlag result (failure_flag input.old input.new) no_stream no_stream }
    ensures counted { IfOk result (λ _. Counts polls.old polls.new) }
    ensures too_many { polled polls.old ≡ 2 ^ 64 - 1 → result ≡ Err Fault.Read }
{
    let shown = match fill_buf(input, polls) {
        Ok(shown) => shown,
        Err(failure) => return Err(fail(input, failure)),
    };
    let count = shown.len();
    if block.extend_from_slice(shown).is_err() {
        return Err(Fault::Memory);
    }
    consume(input, count);
    Ok(count > 0)
}

/// Returns the number of the shown bytes that are taken at once, and their kind.
pub fn line_end(shown: &[u8]) -> (usize, Taken)
    ensures bound { result.0 ≤ length shown.now }
    ensures taken { IsCut result.1 (take result.0 shown.now) }
    ensures end { result.1 ≡ Taken.End → shown.now ≡ [] }
{
    match find_byte(b'\n', shown) {
        Some(at) => (at + 1, Taken::Line),
        None if shown.is_empty() => (0, Taken::End),
        None => (shown.len(), Taken::Part),
    }
}

impl<W: Write> Watched<W> {
    /// Writes some bytes once, and returns the number that the writer took. A writer that takes none has failed.
    ///
    /// Returns the fault of a failed call at once, also of an interrupted one. No clause states that nothing is written
    /// after it, for the reason at `read_block`.
    pub(crate) fn write_some(&mut self, bytes: &[u8]) -> Result<usize, Fault>
        ensures bound { IfOk result (λ n. n ≤ length bytes.now) }
        ensures moves { IfOk result (λ n. 0 < n) }
        ensures ok { IfOk result (λ n.
            Appends (W.contents self.old.stream) (W.contents self.new.stream) (take n bytes.now)) }
        ensures err { OnErr result (Keeps (W.contents self.old.stream) (W.contents self.new.stream)) }
        ensures fault { IfErr result (λ f. f ≡ Fault.Write) }
        ensures sets_failed { SetsFailureFlag result no_stream (failure_flag self.old self.new) no_stream }
    {
        match self.stream.write(bytes) {
            Ok(n) if n > 0 => Ok(n),
            _ => {
                self.failed = true;
                Err(Fault::Write)
            }
        }
    }
}
