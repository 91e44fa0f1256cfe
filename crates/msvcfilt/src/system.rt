//! The system as the program asks it: its inputs, and its output.

use crate::PROGRAM;
use crate::options::STANDARD_INPUT;
use msvc_programs::Host;
use msvc_stdio::BUFFER_LENGTH;
use std::alloc::AllocError;
use std::cell::Cell;
use std::fs::File;
use std::io::{BufReader, Error, ErrorKind, Read, Result, Stdin, Stdout, Write};

/// What the streams of the program keep of their failures.
#[derive(Drop)]
pub(crate) struct Failures {
    /// The error of the file that was read last, if it has one.
    read: Cell<Option<Error>>,
    /// Whether a write has failed since the reader of the pipe has exited.
    is_closed: Cell<bool>,
}

impl Failures {
    /// Begins without a failure.
    pub(crate) fn none() -> Failures {
        Failures {
            read: Cell::new(None),
            is_closed: Cell::new(false),
        }
    }
}

/// Standard output.
#[derive(Drop)]
pub(crate) struct Output<'a> {
    stream: Stdout,
    failures: &'a Failures,
}

impl<'a> Output<'a> {
    /// Makes a writer that keeps whether its pipe is closed.
    pub(crate) fn new(stream: Stdout, failures: &'a Failures) -> Output<'a> {
        Output { stream, failures }
    }
}

impl Write for Output<'_> {
    fn write(&mut self, bytes: &[u8]) -> Result<usize> {
        let written = self.stream.write(bytes);
        if let Err(error) = &written {
            self.failures
                .is_closed
                .set(error.kind() == ErrorKind::BrokenPipe);
        }
        written
    }

    fn flush(&mut self) -> Result<()> {
        self.stream.flush()
    }
}

/// A file or standard input.
#[derive(Drop)]
enum Stream {
    File(File),
    Standard(Stdin),
}

/// An input, which keeps the error of a file.
#[derive(Drop)]
pub(crate) struct Source<'a> {
    stream: Stream,
    failures: &'a Failures,
}

impl Read for Source<'_> {
    fn read(&mut self, bytes: &mut [u8]) -> Result<usize> {
        match &mut self.stream {
            Stream::Standard(input) => input.read(bytes),
            Stream::File(file) => {
                let read = file.read(bytes);
                if let Err(error) = &read {
                    self.failures.read.set(Some(*error));
                }
                read
            }
        }
    }
}

/// The system with its files and standard streams.
#[derive(Drop)]
pub(crate) struct System<'a> {
    rt: &'a HostRuntime,
    failures: &'a Failures,
}

impl<'a> System<'a> {
    /// Makes a system whose streams keep their failures here.
    pub(crate) fn new(rt: &'a HostRuntime, failures: &'a Failures) -> System<'a> {
        System { rt, failures }
    }

    /// Opens a file or standard input.
    fn stream(&self, name: &str) -> Result<Stream> {
        if name == STANDARD_INPUT {
            return Ok(Stream::Standard(self.rt.stdin()));
        }
        Ok(Stream::File(File::open(self.rt, name)?))
    }
}

impl<'a> Host<BufReader<Source<'a>>> for System<'a> {
    fn open(&self, name: &str) -> std::result::Result<Option<BufReader<Source<'a>>>, AllocError> {
        self.failures.read.set(None);
        let stream = match self.stream(name) {
            Ok(stream) => stream,
            Err(error) => {
                report_open(self.rt, name, error);
                return Ok(None);
            }
        };
        let source = Source {
            stream,
            failures: self.failures,
        };
        match BufReader::with_capacity(self.rt.alloc(), BUFFER_LENGTH, source) {
            Ok(input) => Ok(Some(input)),
            Err(_) => Err(AllocError),
        }
    }

    fn report(&self, name: &str) {
        let _ = match self.failures.read.get() {
            Some(error) => eprintln!(self.rt; "{PROGRAM}: {name}: {error}"),
            None => eprintln!(self.rt; "{PROGRAM}: read failed"),
        };
    }

    fn is_closed(&self) -> bool {
        self.failures.is_closed.get()
    }
}

/// Reports that a file can't be opened. If there is none, and its name may be a symbol, says which option takes those.
fn report_open(rt: &HostRuntime, name: &str, error: Error) {
    let _ = if error.kind() == ErrorKind::NotFound && name.starts_with('?') {
        eprintln!(rt; "{PROGRAM}: {name}: {error}; with -s arguments are symbols")
    } else {
        eprintln!(rt; "{PROGRAM}: {name}: {error}")
    };
}
