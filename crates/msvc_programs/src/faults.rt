//! What a program says of a fault that its run ended with.

ghost use Rattle.std.specs.Prelude.{◌≡◌, ◌++◌, ℕ, List, true};
ghost use Rattle.std.specs.Io.KnownBytes.{Appends};
ghost use Rattle.msvc_streams.specs.Runs.{Writes};
ghost use Rattle.msvc_programs.specs.Faults as spec;
ghost use Rattle.msvc_programs.specs.Faults.{fault_line};

use msvc_streams::{Fault, Watched, write_all};
use std::io::Write;

/// Writes the line of a fault, if it can be written.
pub(crate) fn report_fault<E: Write>(program: &str, fault: Fault, err: &mut Watched<E>)
    ensures line { (text more : List ℕ) × Appends (E.contents err.old.stream) (E.contents err.new.stream) text
        × (fault_line program.now fault ≡ text ++ more) }
    ensures failed { err.old.failed ≡ true → err.new.failed ≡ true }
{
    let _ = write_fault(program, fault, err);
}

/// Writes the line of a fault.
fn write_fault<E: Write>(program: &str, fault: Fault, err: &mut Watched<E>) -> Result<(), Fault>
    ensures text { (written : List ℕ) × Appends (E.contents err.old.stream) (E.contents err.new.stream) written
        × Writes result (λ whole. whole ≡ fault_line program.now fault) written }
    ensures failed { err.old.failed ≡ true → err.new.failed ≡ true }
{
    write_all(err, program.as_bytes())?;
    write_all(err, rest_of_line(fault))
}

/// Returns what follows the program's name in the line of a fault.
fn rest_of_line(fault: Fault) -> &'static [u8]
    ensures { result.now ≡ spec.rest_of_line fault }
{
    match fault {
        Fault::Read => b": read failed\n",
        Fault::Write => b": write failed\n",
        Fault::Memory => b": out of memory\n",
    }
}
