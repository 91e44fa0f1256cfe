//! String constants: a symbol has the first characters of one, each encoded as a byte.
#![tactic(auto, using(crate::proofs::Choices::letter_step, crate::proofs::StringSteps::steps), unfolding(msvc_nodes::specs::NodeView::type_of))]

ghost use Rattle.std.specs.Prelude.{◌≡◌, ◌<◌, IfOk, length};
ghost use Rattle.msvc_nodes.specs.NodeView.{type_at};
ghost use Rattle.msvc_rules.specs.Readers.{letter_here};
ghost use Rattle.msvc_rules.specs.Sorts.{encoded_string};
ghost use Rattle.msvc_grammar.specs.Grammar.{escaped_character, halves, string_length};
ghost use Rattle.msvc_grammar.specs.Letters.{character_sizes, hexadecimal};
ghost use Rattle.msvc_grammar.specs.Productions.{character, characters, encoding_after};
ghost use Rattle.msvc_grammar.specs.Reading.{read, read_name};
ghost use Rattle.msvc_cursor.specs.Parser.{Consumes, MayConsume, ReadsAs};

use crate::budget::NodeBudget;
use crate::failure::{Failed, Message};
use crate::letters;
use crate::parser::Parser;
use bumpalo::Bump;
use bumpalo::collections::into_bump_slice;
use msvc_nodes::nodes::Type;
use std::alloc::Allocator;

/// Base of the two digits of a byte.
const BASE: u8 = 16;

/// Greatest number of characters of one byte in a symbol.
const MAX_CHARACTERS: u32 = 32;

impl<'a, 'b, L: NodeBudget, A: Allocator> Parser<'a, 'b, L, A> {
    /// Reads `ENCODED_STRING = character size NUMBER NUMBER CHARACTERS`: the second number is dropped.
    pub fn encoded_string(&mut self) -> Result<&'b Type<'a, 'b>, Failed>
        ensures value { ReadsAs type_at self.old self.new result (read_name (encoding_after encoded_string)) }
        ensures consumes { MayConsume self.old self.new result }
    {
        self.count_node()?;
        let size = self.character_size()?;
        let length = self.number()?;
        self.number()?;
        let text = self.characters(string_length(size, length))?;
        self.put_type(Type::ConstantString(into_bump_slice(text)))
    }

    /// Reads how many bytes a character has.
    fn character_size(&mut self) -> Result<u8, Failed>
        ensures value { ReadsAs (λ n. n) self.old self.new result (letter_here character_sizes) }
        ensures consumes { Consumes self.old self.new result }
    {
        let letter = self.byte()?;
        match letters::character_size(letter) {
            Some(size) => Ok(size),
            None => Err(self.reject(Message::UnknownStringCharacterType)),
        }
    }

    /// Reads exactly `count` characters.
    fn characters(&mut self, count: u32) -> Result<Vec<u8, &'b Bump<A>>, Failed>
        ensures value { ReadsAs (λ v. v.items) self.old self.new result (read_name (characters count)) }
        ensures consumes { MayConsume self.old self.new result }
    {
        let mut text = Vec::new(self.arena);
        for _ in 0..count {
            let character = self.character()?;
            if text.push(character).is_err() {
                return Err(self.no_memory());
            }
        }
        Ok(text)
    }

    /// Reads `CHARACTER = plain character | "?" ESCAPED_CHARACTER`.
    fn character(&mut self) -> Result<u8, Failed>
        ensures value { ReadsAs (λ n. n) self.old self.new result (read_name character) }
        ensures consumes { Consumes self.old self.new result }
    {
        let letter = self.byte()?;
        if letter == b'?' {
            return self.escaped_character();
        }
        match letters::character(letter) {
            Some(character) => Ok(character),
            None => Err(self.reject(Message::UnknownCharacter(letter))),
        }
    }

    /// Reads `ESCAPED_CHARACTER = escaped character | "$" HALVES`.
    fn escaped_character(&mut self) -> Result<u8, Failed>
        ensures value { ReadsAs (λ n. n) self.old self.new result (read escaped_character) }
        ensures consumes { Consumes self.old self.new result }
    {
        let letter = self.byte()?;
        if letter == b'$' {
            return self.halves();
        }
        match letters::escaped_character(letter) {
            Some(character) => Ok(character),
            None => Err(self.reject(Message::UnknownCharacter(letter))),
        }
    }

    /// Reads `HALVES = hexadecimal hexadecimal`: the high half of a byte, then the low one.
    fn halves(&mut self) -> Result<u8, Failed>
        ensures value { ReadsAs (λ n. n) self.old self.new result (read halves) }
        ensures consumes { Consumes self.old self.new result }
    {
        let high = self.half()?;
        let low = self.half()?;
        Ok(high * BASE + low)
    }

    /// Reads one digit of a byte.
    fn half(&mut self) -> Result<u8, Failed>
        ensures value { ReadsAs (λ n. n) self.old self.new result (letter_here hexadecimal) }
        ensures consumes { Consumes self.old self.new result }
        ensures low { IfOk result (λ n. n < 16) }
    {
        let letter = self.byte()?;
        match letters::hexadecimal(letter) {
            Some(half) => Ok(half),
            None => Err(self.reject(Message::UnknownCharacter(letter))),
        }
    }
}

/// Returns how many bytes a symbol has of a string of `length` bytes, whose characters have `size` bytes.
fn string_length(size: u8, length: i32) -> u32
    ensures { result ≡ string_length size length }
{
    if length < 0 {
        return 0;
    }
    (length as u32).min(MAX_CHARACTERS * u32::from(size))
}
