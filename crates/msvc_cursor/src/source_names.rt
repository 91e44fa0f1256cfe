//! Names of the source.

ghost use Rattle.std.specs.Prelude.{◌≡◌, IfErr, None};
ghost use Rattle.msvc_cursor.specs.Parser.{Consumes, cut_at, name_length, ReadsAs};

use crate::budget::NodeBudget;
use crate::failure::{Failed, Message};
use crate::parser::Parser;
use byte_search::find_byte;
use std::alloc::Allocator;

impl<'a, 'b, L: NodeBudget, A: Allocator> Parser<'a, 'b, L, A> {
    /// Reads `SOURCE_NAME = {byte} "@"`: the bytes up to the next `@`, possibly none.
    pub fn source_name(&mut self) -> Result<&'a [u8], Failed>
        ensures value { ReadsAs (λ n. n.now) self.old self.new result (λ left s. cut_at (name_length left) left s) }
        ensures consumes { Consumes self.old self.new result }
        ensures missing { IfErr result (λ _. name_length self.old.rest.now ≡ None) }
    {
        let bytes = self.rest;
        match find_byte(b'@', bytes) {
            Some(end) => {
                self.rest = &bytes[end + 1..];
                Ok(&bytes[..end])
            }
            None => Err(self.reject(Message::MissingAt)),
        }
    }
}
