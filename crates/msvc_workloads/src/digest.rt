//! A digest of all that a workload's calls return.

use msvc_demangler::Error;
use std::alloc::{AllocError, Global};

/// The prime of FNV-1a for words of 64 bits.
const PRIME: u64 = 0x0000_0100_0000_01B3;

/// How far a sum is turned after each word, so that its high bits reach the low ones.
const TURN: u32 = 23;

/// A digest that folds words of eight bytes.
#[derive(Clone, Copy)]
pub struct Digest {
    pub sum: u64,
}

impl Digest {
    /// Returns the digest of nothing.
    pub fn new() -> Digest {
        Digest {
            sum: 0xCBF2_9CE4_8422_2325,
        }
    }

    /// Folds a word.
    pub fn word(&mut self, word: u64) {
        self.sum = folded(self.sum, word);
    }

    /// Folds bytes and how many they are: four words at once, then words, then bytes.
    #[inline(never)]
    pub fn bytes(&mut self, bytes: &[u8]) {
        self.word(bytes.len() as u64);
        let (words, rest) = bytes.as_chunks::<8>();
        let (fours, single) = words.as_chunks::<4>();
        self.fours(fours);
        for word in single {
            self.word(u64::from_le_bytes(*word));
        }
        for byte in rest {
            self.word(u64::from(*byte));
        }
    }

    /// Folds words in four sums side by side, which wait less for each other than one.
    fn fours(&mut self, fours: &[[[u8; 8]; 4]]) {
        if fours.is_empty() {
            return;
        }
        let mut sums = [1, 2, 3, 4];
        for [first, second, third, fourth] in fours {
            let [a, b, c, d] = sums;
            sums = [
                folded(a, u64::from_le_bytes(*first)),
                folded(b, u64::from_le_bytes(*second)),
                folded(c, u64::from_le_bytes(*third)),
                folded(d, u64::from_le_bytes(*fourth)),
            ];
        }
        for sum in sums {
            self.word(sum);
        }
    }

    /// Folds a declaration, or why there is none.
    pub fn declared(
        &mut self,
        alloc: Global,
        made: Result<String, Error>,
    ) -> Result<(), AllocError> {
        match made {
            Ok(text) => {
                self.bytes(text.as_bytes());
                Ok(())
            }
            Err(error) => self.error(alloc, &error),
        }
    }

    /// Folds the offset and the message of an error.
    pub fn error(&mut self, alloc: Global, error: &Error) -> Result<(), AllocError> {
        self.word(error.offset().unwrap_or(usize::MAX) as u64);
        let message = format!(in alloc; "{error}")?;
        self.bytes(message.as_bytes());
        Ok(())
    }
}

/// Returns a sum with a word folded in.
fn folded(sum: u64, word: u64) -> u64 {
    (sum ^ word).wrapping_mul(PRIME).rotate_left(TURN)
}
