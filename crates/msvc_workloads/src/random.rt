//! Numbers and letters that are drawn.

use std::alloc::AllocError;

/// The odd number by which SplitMix64 goes on.
pub const MULTIPLIER: u64 = 0x9E37_79B9_7F4A_7C15;

/// The letters of identifiers: one for each number of five bits.
const LETTERS: [u8; 32] = *b"abcdefghijklmnopqrstuvwxyzCIMST_";

/// Mixes the bits of a number, as SplitMix64 does.
pub fn mixed(number: u64) -> u64 {
    let number = (number ^ (number >> 30)).wrapping_mul(0xBF58_476D_1CE4_E5B9);
    let number = (number ^ (number >> 27)).wrapping_mul(0x94D0_49BB_1331_11EB);
    number ^ (number >> 31)
}

/// Returns the letter of the lowest five bits.
fn letter(bits: u64) -> u8 {
    LETTERS[(bits % 32) as usize]
}

/// Overwrites a place with letters, one for each five bits, over and over.
pub fn write_letters(place: &mut [u8], bits: u64) {
    let mut bits = bits;
    for byte in place {
        *byte = letter(bits);
        bits = bits.rotate_right(5);
    }
}

/// Writes so many letters behind `out`.
pub fn put_letters(out: &mut Vec<u8>, bits: u64, count: u64) -> Result<(), AllocError> {
    let mut bits = bits;
    for _ in 0..count {
        out.push(letter(bits))?;
        bits = bits.rotate_right(5);
    }
    Ok(())
}
