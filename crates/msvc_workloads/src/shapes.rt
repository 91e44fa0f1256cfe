//! Symbols that are made from shapes: real symbols in which identifiers stand in braces, as `?{name}@{Class}@@QEAAXXZ`.
//! A symbol that is made has other identifiers of the same lengths; those that are equal in a shape stay equal, so that
//! back references stay right.

use crate::random::{MULTIPLIER, mixed, put_letters, write_letters};
use std::alloc::{AllocError, Global};

/// As many bits of an identifier's letters tell the rounds apart: three letters.
const ROUND_BITS: u64 = 0x7FFF;

/// After so many letters of its identifiers a symbol differs from all others.
const SETTLED_LETTERS: usize = 6;

/// An identifier: where it stands in its symbol, and a number that equal identifiers of a shape share.
#[derive(Clone, Copy)]
struct Identifier {
    start: usize,
    end: usize,
    number: u64,
}

/// A shape: where it stands in the text of all shapes, and its identifiers in their list.
#[derive(Clone, Copy)]
struct Shape {
    start: usize,
    end: usize,
    first: usize,
    last: usize,
    /// Where the identifier ends that has the letter by which a symbol differs from all others.
    settled: usize,
}

/// Shapes, and the seed of what is made from them.
#[derive(Drop)]
pub struct Shapes {
    text: Vec<u8>,
    identifiers: Vec<Identifier>,
    shapes: Vec<Shape>,
    pub seed: u64,
}

impl Shapes {
    /// Reads shapes, each on a line.
    pub fn read(alloc: Global, text: &str, seed: u64) -> Result<Shapes, AllocError> {
        let mut shapes = Shapes {
            text: Vec::new(alloc),
            identifiers: Vec::new(alloc),
            shapes: Vec::new(alloc),
            seed: mixed(seed),
        };
        for line in text.lines() {
            shapes.add(line.as_bytes())?;
        }
        Ok(shapes)
    }

    /// Adds a shape.
    fn add(&mut self, line: &[u8]) -> Result<(), AllocError> {
        let start = self.text.len();
        let first = self.identifiers.len();
        let mut letters = 0;
        let mut settled = 0;
        let mut identifier = Identifier {
            start: 0,
            end: 0,
            number: 0,
        };
        for byte in line {
            let end = self.text.len().wrapping_sub(start);
            match byte {
                b'{' => {
                    identifier = Identifier {
                        start: end,
                        end,
                        number: self.seed ^ start as u64,
                    };
                }
                b'}' => {
                    identifier.end = end;
                    self.identifiers.push(identifier)?;
                    if letters < SETTLED_LETTERS {
                        letters = letters.wrapping_add(end.wrapping_sub(identifier.start));
                        settled = end;
                    }
                }
                _ => {
                    self.text.push(*byte)?;
                    identifier.number = mixed(identifier.number ^ u64::from(*byte));
                }
            }
        }
        self.shapes.push(Shape {
            start,
            end: self.text.len(),
            first,
            last: self.identifiers.len(),
            settled,
        })?;
        Ok(())
    }

    /// Returns the shape of a symbol, by its number, and how many symbols of that shape come before it.
    fn shape_of(&self, number: u64) -> Option<(Shape, u64)> {
        let count = self.shapes.len() as u64;
        let shape = self.shapes.get(number.checked_rem(count)? as usize)?;
        Some((*shape, number.checked_div(count)?))
    }

    /// Writes the symbol of this number behind `out`. All symbols of less than 32,768 rounds over the shapes differ.
    #[inline(never)]
    pub fn put_name(&self, number: u64, out: &mut Vec<u8>) -> Result<(), AllocError> {
        let Some((shape, round)) = self.shape_of(number) else {
            return Ok(());
        };
        let base = out.len();
        if let Some(text) = self.text.get(shape.start..shape.end) {
            out.extend_from_slice(text)?;
        }
        let identifiers = self.identifiers.get(shape.first..shape.last);
        for identifier in identifiers.unwrap_or(&[]) {
            let start = base.wrapping_add(identifier.start);
            let end = base.wrapping_add(identifier.end);
            if let Some(place) = out.as_mut_slice().get_mut(start..end) {
                write_letters(place, letters_of(identifier.number, round));
            }
        }
        Ok(())
    }

    /// Writes a beginning of the symbol of this number, by a number that is drawn.
    pub fn put_beginning(
        &self,
        number: u64,
        drawn: u64,
        out: &mut Vec<u8>,
    ) -> Result<(), AllocError> {
        let base = out.len();
        self.put_name(number, out)?;
        if let Some((shape, _)) = self.shape_of(number) {
            let rest = shape
                .end
                .wrapping_sub(shape.start)
                .wrapping_sub(shape.settled);
            let more = drawn.checked_rem(rest as u64).unwrap_or(0) as usize;
            out.truncate(base.wrapping_add(shape.settled).wrapping_add(more));
        }
        Ok(())
    }

    /// Returns a number that is drawn for this one.
    pub fn drawn(&self, number: u64) -> u64 {
        mixed(self.seed ^ number.wrapping_mul(MULTIPLIER))
    }

    /// Writes so many letters that are drawn for a number.
    pub fn put_drawn(&self, number: u64, count: u64, out: &mut Vec<u8>) -> Result<(), AllocError> {
        put_letters(out, letters_of(self.seed, number), count)
    }
}

/// Returns the bits of an identifier's letters in a round. The first three letters differ from round to round.
fn letters_of(identifier: u64, round: u64) -> u64 {
    let step = round.wrapping_mul(MULTIPLIER);
    let drawn = mixed(identifier.wrapping_add(step));
    drawn ^ ((drawn ^ identifier.wrapping_add(step)) & ROUND_BITS)
}
