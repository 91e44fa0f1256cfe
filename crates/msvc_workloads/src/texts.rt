//! Lines of texts in which symbols stand: of lists of symbols, of a linker's map, and of a log.

use crate::random::put_letters;
use crate::shapes::Shapes;
use std::alloc::{AllocError, Global};

/// How many lines of a log are made, from which all others are taken.
const LOG_LINES: u64 = 2048;

/// One line of a log in so many has a symbol.
const LOG_SYMBOLS: u64 = 100;

/// After each so many lines of a log, the next lines have no line feed, up to the end of the cycle.
const LOG_FEEDS: u64 = 4000;

const LOG_CYCLE: u64 = 4600;

/// The digits of addresses.
const DIGITS: [u8; 16] = *b"0123456789abcdef";

/// What lines are like.
#[derive(Clone, Copy)]
pub enum Kind {
    Symbols,
    Map,
    Log,
}

/// Lines of a kind, by their numbers.
#[derive(Drop)]
pub struct Lines<'a> {
    shapes: &'a Shapes,
    kind: Kind,
    /// Lines of a log without line feeds, and where each ends.
    log: Vec<u8>,
    ends: Vec<usize>,
}

impl<'a> Lines<'a> {
    /// Makes the lines of a log, where the kind wants them.
    pub fn new(alloc: Global, shapes: &'a Shapes, kind: Kind) -> Result<Lines<'a>, AllocError> {
        let mut log = Vec::new(alloc);
        let mut ends = Vec::new(alloc);
        if let Kind::Log = kind {
            for number in 0..LOG_LINES {
                put_log_text(shapes, number, &mut log)?;
                ends.push(log.len())?;
            }
        }
        Ok(Lines {
            shapes,
            kind,
            log,
            ends,
        })
    }

    /// Writes the line of this number behind `out`.
    #[inline(never)]
    pub fn put(&self, number: u64, out: &mut Vec<u8>) -> Result<(), AllocError> {
        match self.kind {
            Kind::Symbols => put_symbol_line(self.shapes, number, out),
            Kind::Map => put_map_line(self.shapes, number, out),
            Kind::Log => self.put_log_line(number, out),
        }
    }

    /// Writes a line of a log, which may have a symbol at its end.
    fn put_log_line(&self, number: u64, out: &mut Vec<u8>) -> Result<(), AllocError> {
        let at = (self.shapes.drawn(number) % (LOG_LINES - 1)) as usize;
        let start = self.ends.get(at).copied().unwrap_or(0);
        let end = self.ends.get(at.wrapping_add(1)).copied().unwrap_or(0);
        out.extend_from_slice(self.log.get(start..end).unwrap_or(&[]))?;
        if number % LOG_SYMBOLS == 7 {
            out.extend_from_slice(b" in app!")?;
            self.shapes.put_name(number / LOG_SYMBOLS, out)?;
            out.extend_from_slice(b"+0x1f")?;
        }
        if number % LOG_CYCLE < LOG_FEEDS {
            out.push(b'\n')?;
        }
        Ok(())
    }
}

/// Writes a line with a symbol alone; some symbols are cut, and each ninth line has a name of C.
fn put_symbol_line(shapes: &Shapes, number: u64, out: &mut Vec<u8>) -> Result<(), AllocError> {
    match number % 45 {
        8 | 17 | 26 | 35 | 44 => {
            out.push(b'_')?;
            shapes.put_drawn(number, 8 + number % 16, out)?;
        }
        4 => shapes.put_beginning(number, shapes.drawn(number), out)?,
        _ => shapes.put_name(number, out)?,
    }
    out.push(b'\n')?;
    Ok(())
}

/// Writes a line as in a linker's map, with the address of a symbol, the symbol, and the file that it is from.
fn put_map_line(shapes: &Shapes, number: u64, out: &mut Vec<u8>) -> Result<(), AllocError> {
    let address = hexadecimal(number.wrapping_mul(16));
    out.extend_from_slice(b" 0001:")?;
    out.extend_from_slice(&address)?;
    out.extend_from_slice(b"       ")?;
    shapes.put_name(number, out)?;
    out.extend_from_slice(b"   00000001")?;
    out.extend_from_slice(&address)?;
    out.extend_from_slice(b" f   lib:obj.obj\n")
}

/// Writes a line of a log, of 80 to 300 bytes. In some lines question marks stand that begin no symbol.
fn put_log_text(shapes: &Shapes, number: u64, out: &mut Vec<u8>) -> Result<(), AllocError> {
    let drawn = shapes.drawn(number);
    out.extend_from_slice(b"2031-05-17T09:41:07.")?;
    out.extend_from_slice(&hexadecimal(drawn))?;
    out.extend_from_slice(b" [worker] INFO")?;
    for word in 0..6 + drawn % 29 {
        let bits = shapes.drawn(drawn.wrapping_add(word));
        out.push(b' ')?;
        put_letters(out, bits, 3 + bits % 8)?;
    }
    if drawn.rotate_left(20) % 16 == 0 {
        out.extend_from_slice(b" found? GET /find?key=a&more=b?c")?;
    }
    Ok(())
}

/// Returns the digits of a number's lowest 32 bits.
fn hexadecimal(number: u64) -> [u8; 8] {
    let mut digits = [b'0'; 8];
    let mut left = number;
    for digit in digits.iter_mut().rev() {
        *digit = DIGITS[(left % 16) as usize];
        left /= 16;
    }
    digits
}
