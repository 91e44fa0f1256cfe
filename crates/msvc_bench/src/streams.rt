//! A reader and a writer in memory, with a limit on the bytes of a call, which fail in a given call in a given way.
//! After that call they succeed, and count the calls.

ghost use Rattle.std.specs.Prelude.{◌≤◌, IfOk};

use std::alloc::Global;
use std::io;
use std::io::{BufRead, ErrorKind, Read, Write};

/// The place and the way of a stream's failure, and the number of calls after it.
#[derive(Drop)]
pub struct Failing {
    /// The number of bytes that move before the call that fails.
    before: usize,
    /// The error of that call; without an error it moves no byte.
    error: Option<ErrorKind>,
    has_failed: bool,
    late: usize,
}

impl Failing {
    /// Returns a failure after `before` bytes.
    pub fn after(before: usize, error: Option<ErrorKind>) -> Failing {
        Failing {
            before,
            error,
            has_failed: false,
            late: 0,
        }
    }

    /// Returns a failure that does not occur.
    pub fn never() -> Failing {
        Failing::after(usize::MAX, None)
    }

    /// Returns the number of calls after the one that failed.
    pub fn late(&self) -> usize {
        self.late
    }

    /// Returns how many of `count` bytes a call may move.
    fn meet(&mut self, count: usize) -> io::Result<usize>
        ensures { IfOk result (λ n. n ≤ count) }
    {
        if self.has_failed {
            self.late = self.late.saturating_add(1);
            return Ok(count);
        }
        if self.before > 0 {
            return Ok(count.min(self.before));
        }
        self.has_failed = true;
        match self.error {
            Some(kind) => Err(io::Error::from(kind)),
            None => Ok(0),
        }
    }

    /// Counts `count` moved bytes.
    fn moved(&mut self, count: usize) {
        self.before = self.before.saturating_sub(count);
    }
}

/// A reader with a limit on the bytes of a call.
#[derive(Drop)]
pub struct Reader<'a> {
    pub bytes: &'a [u8],
    most: usize,
    pub failing: Failing,
}

impl<'a> Reader<'a> {
    /// Returns a reader of these bytes.
    pub fn new(bytes: &'a [u8], most: usize, failing: Failing) -> Reader<'a> {
        Reader {
            bytes,
            most,
            failing,
        }
    }
}

impl Read for Reader<'_> {
    fn read(&mut self, buf: &mut [u8]) -> io::Result<usize> {
        let count = self.failing.meet(buf.len().min(self.most))?;
        let read = self.bytes.read(&mut buf[..count])?;
        self.failing.moved(read);
        Ok(read)
    }
}

impl BufRead for Reader<'_> {
    fn fill_buf(&mut self) -> io::Result<&[u8]> {
        let count = self.failing.meet(self.bytes.len().min(self.most))?;
        Ok(&self.bytes[..count])
    }

    fn consume(&mut self, amount: usize) {
        self.failing.moved(amount);
        self.bytes.consume(amount);
    }
}

/// A writer with a limit on the bytes of a call.
#[derive(Drop)]
pub struct Writer {
    pub taken: Vec<u8>,
    most: usize,
    pub failing: Failing,
}

impl Writer {
    /// Returns a writer that has taken nothing.
    pub fn new(alloc: Global, most: usize, failing: Failing) -> Writer {
        Writer {
            taken: Vec::new(alloc),
            most,
            failing,
        }
    }
}

impl Write for Writer {
    fn write(&mut self, buf: &[u8]) -> io::Result<usize> {
        let count = self.failing.meet(buf.len().min(self.most))?;
        let written = self.taken.write(&buf[..count])?;
        self.failing.moved(written);
        Ok(written)
    }

    fn flush(&mut self) -> io::Result<()> {
        Ok(())
    }
}
