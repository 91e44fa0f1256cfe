//! Writes whole texts to a watched writer.

ghost use Rattle.std.specs.Prelude.{◌≡◌, ◌++◌, ◌∷◌, ℕ, List, [], IfErr};
ghost use Rattle.std.specs.Io.KnownBytes.{Appends};
ghost use Rattle.msvc_streams.specs.Faults.{SetsFailureFlag, failure_flag, no_stream};
ghost use Rattle.msvc_streams.specs.Runs.{Writes};

use crate::watched::{Fault, Watched};
use std::io::Write;

/// Writes all of some bytes.
pub fn write_all<W: Write>(out: &mut Watched<W>, bytes: &[u8]) -> Result<(), Fault>
    ensures text { (written : List ℕ) × Appends (W.contents out.old.stream) (W.contents out.new.stream) written
        × Writes result (λ whole. whole ≡ bytes.now) written }
    ensures fault { IfErr result (λ fault. fault ≡ Fault.Write) }
    ensures sets_failed { SetsFailureFlag result no_stream (failure_flag out.old out.new) no_stream }
{
    let mut sent = 0;
    'writes: while sent < bytes.len() {
        sent += out.write_some(&bytes[sent..])?;
    }
    Ok(())
}

/// Writes some bytes and a line feed.
pub fn write_line<W: Write>(out: &mut Watched<W>, bytes: &[u8]) -> Result<(), Fault>
    ensures text { (written : List ℕ) × Appends (W.contents out.old.stream) (W.contents out.new.stream) written
        × Writes result (λ whole. whole ≡ bytes.now ++ 10 ∷ []) written }
    ensures fault { IfErr result (λ fault. fault ≡ Fault.Write) }
    ensures sets_failed { SetsFailureFlag result no_stream (failure_flag out.old out.new) no_stream }
{
    write_all(out, bytes)?;
    write_all(out, b"\n")
}
