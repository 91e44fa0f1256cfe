//! `msvcfilt [OPTIONS] [FILE..]` writes each file, or standard input if there is none, with each symbol in it replaced
//! by its declaration: `foo!void __cdecl crash(void)+0x12` for `foo!?crash@@YAXXZ+0x12`. With `-n` it prints names
//! without types. With `-s` the arguments are no files but symbols, or other texts, each filtered as a line. It reads
//! symbols as today's compilers write them, with `--grammar crate` as the Rust crate does. In a terminal declarations
//! are colored, and names bold. It writes the text of each line before it waits for the next.
//!
//! The exit status is 0, or 1 if a file or standard input can't be read, the text can't be written, or an allocation
//! fails, or 2 if the arguments are wrong. Then standard error has a message, unless the reader of the output pipe has
//! exited. After a file that can't be read the others are still filtered.
#![tactic(auto)]

mod options;
mod system;

use clap::{ArgMatches, Command};
use msvc_demangler::{Fault, Watched};
use msvc_programs::{How, msvcfilt};
use msvc_stdio::{arguments, failure};
use options::{Color, Settings};
use std::env::{self, VarError};
use std::io::{ErrorKind, IsTerminal};
use std::process::ExitCode;
use system::{Failures, Output, System};

/// The program's name.
const PROGRAM: &str = "msvcfilt";

fn main(rt: HostRuntime) -> ExitCode {
    match arguments(&rt, PROGRAM) {
        Ok(words) => perform(&rt, &words),
        Err(status) => status,
    }
}

/// Runs the program on the words of the command line, and returns the exit status.
fn perform(rt: &HostRuntime, words: &[String]) -> ExitCode {
    let program = Command::new(rt.alloc(), PROGRAM).version("0.11.0 (Full 1)");
    match options::read(rt.alloc(), program, words) {
        Ok((matches, settings)) => run(rt, &matches, settings),
        Err(error) => show(rt, &error),
    }
}

/// Prints the help, the version or a mistake in the arguments, and returns the exit status.
fn show(rt: &HostRuntime, error: &clap::Error) -> ExitCode {
    if error.kind() == clap::error::ErrorKind::OutOfMemory {
        return failure(rt, PROGRAM, Fault::Memory);
    }
    match error.print(rt) {
        Ok(()) => ExitCode::from(error.exit_code() as u8),
        Err(error) if error.kind() == ErrorKind::BrokenPipe => ExitCode::FAILURE,
        Err(_) => failure(rt, PROGRAM, Fault::Write),
    }
}

/// Returns whether declarations are colored. By default they are in a terminal, unless `NO_COLOR` of the environment is
/// set and not empty.
fn is_colored(rt: &HostRuntime, color: Color) -> bool {
    match color {
        Color::Auto => rt.stdout().is_terminal() && !has_no_color(rt),
        Color::Always => true,
        Color::Never => false,
    }
}

/// Returns whether the environment has `NO_COLOR` and it is not empty.
fn has_no_color(rt: &HostRuntime) -> bool {
    match env::var(rt, "NO_COLOR") {
        Ok(value) => !value.is_empty(),
        Err(error) => error != VarError::NotPresent,
    }
}

/// Filters the arguments as symbols, or the files that they name. Returns the exit status.
fn run(rt: &HostRuntime, matches: &ArgMatches<'_>, settings: Settings) -> ExitCode {
    let how = How {
        grammar: settings.grammar,
        flags: settings.flags,
        left_out: settings.left_out,
        is_colored: is_colored(rt, settings.color),
    };
    let failures = Failures::none();
    let status = msvcfilt(
        rt.alloc(),
        how,
        matches
            .get_strs("file")
            .unwrap_or(&[options::STANDARD_INPUT]),
        matches.get_flag("symbols"),
        &System::new(rt, &failures),
        &mut Watched::new(Output::new(rt.stdout(), &failures)),
        &mut Watched::new(rt.stderr()),
    );
    ExitCode::from(status)
}
