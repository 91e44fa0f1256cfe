//! The arguments of a program, and how it ends.

use msvc_demangler::Fault;
use std::env;
use std::io::{self, ErrorKind};
use std::process::ExitCode;

/// Bytes that a program reads, or writes, at once.
pub const BUFFER_LENGTH: usize = 64 * 1024;

/// The exit status if the arguments are wrong.
const WRONG_ARGUMENTS: u8 = 2;

/// Returns the arguments of a program, its name first.
///
/// # Errors
///
/// Reports an argument that isn't UTF-8, or an allocation that fails, and returns the exit status.
pub fn arguments(rt: &HostRuntime, program: &str) -> Result<Vec<String>, ExitCode> {
    match words(rt) {
        Ok(words) => Ok(words),
        Err(error) if error.kind() == ErrorKind::InvalidData => {
            let _ = eprintln!(rt; "{program}: argument is not UTF-8");
            Err(ExitCode::from(WRONG_ARGUMENTS))
        }
        Err(_) => Err(failure(rt, program, Fault::Memory)),
    }
}

/// Returns all words of the command line. One that isn't UTF-8 is invalid data.
fn words(rt: &HostRuntime) -> io::Result<Vec<String>> {
    let mut words = Vec::new(rt.alloc());
    for word in env::args(rt)? {
        words.push(word)?;
    }
    Ok(words)
}

/// Reports why the run of a program ended, and returns the status of a failure.
pub fn failure(rt: &HostRuntime, program: &str, fault: Fault) -> ExitCode {
    let reason = match fault {
        Fault::Read => "read failed",
        Fault::Write => "write failed",
        Fault::Memory => "out of memory",
    };
    let _ = eprintln!(rt; "{program}: {reason}");
    ExitCode::FAILURE
}
