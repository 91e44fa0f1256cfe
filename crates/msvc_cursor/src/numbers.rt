//! Numbers: a digit, or base 16 letters up to an `@`.
#![tactic(auto, using(crate::proofs::NumberSteps::steps, msvc_grammar::proofs::Hexadecimal::letters_go_on), unfolding(msvc_grammar::proofs::Hexadecimal::letters_at))]

ghost use Rattle.msvc_grammar.specs.Grammar.{signed_letters};
ghost use Rattle.msvc_grammar.specs.Productions.{magnitude, number};
ghost use Rattle.msvc_grammar.specs.Reading.{read, read_name};
ghost use Rattle.msvc_cursor.specs.Parser.{Consumes, ReadsAs};

use crate::budget::NodeBudget;
use crate::failure::{Failed, Message};
use crate::letters;
use crate::parser::Parser;
use std::alloc::Allocator;

/// Base of a number's letters.
const BASE: u32 = 16;

impl<'a, 'b, L: NodeBudget, A: Allocator> Parser<'a, 'b, L, A> {
    /// Reads `NUMBER = ["?"] MAGNITUDE`: a `?` negates.
    pub fn number(&mut self) -> Result<i32, Failed>
        ensures value { ReadsAs (λ z. z) self.old self.new result (read_name number) }
        ensures consumes { Consumes self.old self.new result }
    {
        if !self.consume(b"?") {
            return self.magnitude();
        }
        let value = self.magnitude()?;
        Ok(value.wrapping_neg())
    }

    /// Reads `MAGNITUDE = digit | LETTERS`: the value of a digit is one more than the digit.
    fn magnitude(&mut self) -> Result<i32, Failed>
        ensures value { ReadsAs (λ z. z) self.old self.new result (read_name magnitude) }
        ensures consumes { Consumes self.old self.new result }
    {
        match self.digit() {
            Some(digit) => Ok((u32::from(digit) + 1).cast_signed()),
            None => self.hexadecimal(),
        }
    }

    /// Reads `LETTERS = {letter} "@"`: `A` to `P` are base 16 digits, and bits beyond the low 32 are dropped.
    fn hexadecimal(&mut self) -> Result<i32, Failed>
        ensures value { ReadsAs (λ z. z) self.old self.new result (read signed_letters) }
        ensures consumes { Consumes self.old self.new result }
    {
        let left = self.rest.len();
        let mut value = 0u32;
        while let [letter, rest @ ..] = self.rest {
            self.rest = rest;
            if *letter == b'@' {
                return Ok(value.cast_signed());
            }
            let Some(digit) = letters::hexadecimal(*letter) else {
                return Err(self.reject_at(Message::BadNumber, left));
            };
            value = value.wrapping_mul(BASE).wrapping_add(u32::from(digit));
        }
        Err(self.reject_at(Message::BadNumber, left))
    }
}
