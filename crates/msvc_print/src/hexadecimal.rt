//! Writes numbers in hexadecimal.
#![tactic(auto, using(crate::proofs::Settling::settling))]

ghost use Rattle.std.specs.Prelude.{◌≡◌, ◌≤◌, ◌∷◌, [], OnOk, true, drop};
ghost use Rattle.std.specs.Fmt.{digits};
ghost use Rattle.msvc_print.specs.Limited.{Writes};
ghost use Rattle.msvc_print.specs.Pieces.{text};

use crate::strings::hex_digit;
use crate::text::{Text, write_text};
use std::alloc::{AllocError, Allocator};

/// Writes the digits of a number at the end of a buffer, which is longer than they are. Returns where they begin.
fn put_digits(number: u64, buffer: &mut [u8; 64]) -> usize
    ensures fits { result ≤ 64 }
    ensures written { drop result buffer.new ≡ digits 16 true number }
{
    let mut at = 64;
    let mut left = number;
    'digits: while at > 0 {
        at -= 1;
        buffer[at] = hex_digit((left % 16) as u8);
        left /= 16;
        if left == 0 {
            break;
        }
    }
    at
}

/// Writes a number in hexadecimal, in capital letters and without leading zeros.
#[cold]
pub fn write_hexadecimal<A: Allocator>(out: &mut Text<A>, number: u64) -> Result<(), AllocError>
    ensures { OnOk result (Writes (text (digits 16 true number) ∷ []) out.old out.new) }
{
    let mut buffer = [0; 64];
    let at = put_digits(number, &mut buffer);
    write_text(out, &buffer[at..])
}
