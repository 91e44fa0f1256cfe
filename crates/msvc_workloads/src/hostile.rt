//! Symbols that are not to be trusted: cut, damaged, and those whose declarations are far larger than they are.

use crate::shapes::Shapes;
use std::alloc::AllocError;

/// The bytes that damage a symbol: one for each number of four bits.
const DAMAGE: [u8; 16] = *b"?@$_0123456789AZ";

/// The numbers of the two symbols of a megabyte.
const LONG_NAME: u64 = 1000;

const LONG_LIST: u64 = 2000;

/// How many letters a long name has, and how many classes a long list.
const LONG_LETTERS: u64 = 1_000_000;

const LONG_CLASSES: u64 = 60_000;

/// Writes the symbol of this number behind `out`.
#[inline(never)]
pub fn put_hostile(shapes: &Shapes, number: u64, out: &mut Vec<u8>) -> Result<(), AllocError> {
    let drawn = shapes.drawn(number);
    match number {
        LONG_NAME => return put_long_name(shapes, out),
        LONG_LIST => return put_long_list(shapes, out),
        _ => {}
    }
    match number % 16 {
        0..=6 => shapes.put_beginning(number, drawn, out),
        7..=12 => put_damaged(shapes, number, drawn, out),
        13 => put_multiplied(shapes, number, 1 + drawn % 7, out),
        14 => put_nested(shapes, number, 1 + drawn % 50, out),
        _ => put_doubled(shapes, number, 1 + drawn % 5, out),
    }
}

/// Writes a symbol with one to three of its bytes replaced.
fn put_damaged(
    shapes: &Shapes,
    number: u64,
    drawn: u64,
    out: &mut Vec<u8>,
) -> Result<(), AllocError> {
    shapes.put_name(number, out)?;
    let mut left = drawn;
    for _ in 0..1 + drawn % 3 {
        let at = left.checked_rem(out.len() as u64).unwrap_or(0) as usize;
        if let Some(byte) = out.get_mut(at) {
            *byte = DAMAGE[(left / 256 % 16) as usize];
        }
        left = left.rotate_left(21);
    }
    Ok(())
}

/// Writes a function of a pointer to a class and of so many pointers to functions, each of which has two parameters of
/// the type before.
fn put_multiplied(
    shapes: &Shapes,
    number: u64,
    functions: u64,
    out: &mut Vec<u8>,
) -> Result<(), AllocError> {
    out.extend_from_slice(b"?f@@YAXPAV")?;
    shapes.put_drawn(number, 12, out)?;
    out.extend_from_slice(b"@@")?;
    for digit in b"0123456789".iter().take(functions as usize) {
        out.extend_from_slice(b"P6AX")?;
        out.extend_from_slice(&[*digit, *digit])?;
        out.extend_from_slice(b"@Z")?;
    }
    out.extend_from_slice(b"@Z")
}

/// Writes a variable whose type has so many levels of templates and of pointers.
fn put_nested(
    shapes: &Shapes,
    number: u64,
    levels: u64,
    out: &mut Vec<u8>,
) -> Result<(), AllocError> {
    out.extend_from_slice(b"?x@@3")?;
    put_times(b"V?$A@PEAPEA", levels, out)?;
    out.push(b'U')?;
    shapes.put_drawn(number, 12, out)?;
    put_times(b"@@", levels.wrapping_add(1), out)?;
    out.push(b'A')?;
    Ok(())
}

/// Writes a variable in so many scopes, which are constructors of templates that stand in one another. Each level
/// doubles the declaration.
fn put_doubled(
    shapes: &Shapes,
    number: u64,
    levels: u64,
    out: &mut Vec<u8>,
) -> Result<(), AllocError> {
    out.push(b'?')?;
    shapes.put_drawn(number, 12, out)?;
    out.push(b'@')?;
    put_times(b"?1???0?$A@Va@", levels, out)?;
    put_times(b"@@@QEAA@XZ", levels, out)?;
    out.extend_from_slice(b"@3HA")
}

/// Writes a variable whose name has a million letters.
fn put_long_name(shapes: &Shapes, out: &mut Vec<u8>) -> Result<(), AllocError> {
    out.push(b'?')?;
    shapes.put_drawn(LONG_NAME, LONG_LETTERS, out)?;
    out.extend_from_slice(b"@@3HA")
}

/// Writes a function whose parameters, pointers to classes, take a megabyte.
fn put_long_list(shapes: &Shapes, out: &mut Vec<u8>) -> Result<(), AllocError> {
    out.extend_from_slice(b"?f@@YAX")?;
    for class in 0..LONG_CLASSES {
        out.extend_from_slice(b"PEAU")?;
        shapes.put_drawn(class, 12, out)?;
        out.extend_from_slice(b"@@")?;
    }
    out.extend_from_slice(b"@Z")
}

/// Writes bytes so many times.
fn put_times(bytes: &[u8], times: u64, out: &mut Vec<u8>) -> Result<(), AllocError> {
    for _ in 0..times {
        out.extend_from_slice(bytes)?;
    }
    Ok(())
}
