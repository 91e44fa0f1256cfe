//! `undname [-v] [symbols]` prints the declaration of each symbol on a line: `int ns::x` for `?x@ns@@3HA`. Without
//! symbols it reads them from the lines of standard input, and prints the result of each line before it waits for the
//! next. A rejected symbol is printed unchanged, and the error goes to standard error; `-v`, as the first argument,
//! also prints each tree there. Any other argument is a symbol.
//!
//! The exit status is 0, or 1 if standard input can't be read, a line can't be written, or memory runs out, or 2 if
//! an argument isn't UTF-8. Then standard error has a message, and the lines before are printed.
#![tactic(auto)]

use msvc_demangler::{Fault, Watched};
use msvc_programs::undname;
use msvc_stdio::{BUFFER_LENGTH, arguments, failure};
use std::io::BufReader;
use std::process::ExitCode;

/// The program's name.
const PROGRAM: &str = "undname";

fn main(rt: HostRuntime) -> ExitCode {
    let words = match arguments(&rt, PROGRAM) {
        Ok(words) => words,
        Err(status) => return status,
    };
    let Ok(input) = BufReader::with_capacity(rt.alloc(), BUFFER_LENGTH, rt.stdin()) else {
        return failure(&rt, PROGRAM, Fault::Memory);
    };
    let status = undname(
        rt.alloc(),
        words.get(1..).unwrap_or(&[]),
        &mut Watched::new(input),
        &mut Watched::new(rt.stdout()),
        &mut Watched::new(rt.stderr()),
    );
    ExitCode::from(status)
}
