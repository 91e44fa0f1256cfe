//! The parser: its state, and the steps that read single bytes and literals, store nodes in the arena, and record
//! errors.
//!
//! Each level of a nested symbol takes stack. So a reader returns a reference into the arena or a place in a list of
//! the parser, never a value of many words, and functions that memorize a name or a type, record an error or store a
//! node of several parts are never inlined. None of their variables is in a reader's frame while a nested part is read.
//! Names of the source, which nest nothing, are memorized inline, by `add_name_inline`.
#![tactic(auto, unfolding(crate::specs::Parser::byte_here, msvc_rules::specs::Readers::counting, msvc_grammar::specs::Reading::read, msvc_rules::specs::Readers::read_by))]

ghost use Rattle.std.specs.Option.{option_map};
ghost use Rattle.std.specs.Prelude.{◌≡◌, ◌≤◌, ◌<◌, ◌+◌, ◌∷◌, [], IfErr, IfOk, IfSome, IsTrue, length, MatchOption};
ghost use Rattle.std.specs.Prelude.{None, Some, nat_lt, true};
ghost use Rattle.msvc_nodes.specs.NodeView.{name_at, name_of, type_at, type_of};
ghost use Rattle.msvc_rules.specs.Readers.{counting, letter_here, with_value};
ghost use Rattle.msvc_rules.specs.Rules.{after, literal, optional};
ghost use Rattle.msvc_rules.specs.State.{beginning_with, place};
ghost use Rattle.msvc_grammar.specs.Letters.{digits};
ghost use Rattle.msvc_grammar.specs.Reading.{read};
ghost use Rattle.msvc_cursor.specs.Messages.{limit_of_message};
ghost use Rattle.msvc_cursor.specs.Parser.{AlwaysReads, byte_here, consumed, Consumes, frame_of, MayRead};
ghost use Rattle.msvc_cursor.specs.Parser.{optional_letters, ReadsAs, state_of, Stays};

use crate::back_references::{BackReference, BackrefTables};
use crate::budget::NodeBudget;
use crate::failure::{Failed, Failure, Message};
use crate::last_error::LastError;
use crate::letters::{self, OptionalLetters};
use crate::nested_list::NestedList;
use bitflags::Flags;
use bumpalo::Bump;
use msvc_nodes::flags::StorageClass;
use msvc_nodes::nodes::{Name, Type};
use std::alloc::Allocator;
use std::marker::PhantomData;

/// The state of the parser.
#[derive(Drop)]
pub struct Parser<'a, 'b, L: NodeBudget, A: Allocator> {
    /// Holds the nodes, and all lists that grow while a text is read.
    pub arena: &'b Bump<A>,
    /// Length of the text, in bytes.
    pub text_length: usize,
    /// The bytes that are still unread.
    pub rest: &'a [u8],
    /// The tables of names and types that digits refer to.
    pub tables: BackrefTables<'a, 'b, L, A>,
    /// The names of the scopes that are being read.
    pub listed_names: NestedList<'b, &'b Name<'a, 'b>, A>,
    /// The parameters of the lists that are being read.
    pub listed_types: NestedList<'b, &'b Type<'a, 'b>, A>,
    /// The digits that were read as whole parameters so far.
    pub references: Vec<BackReference, &'b Bump<A>>,
    /// The limit on nodes.
    pub limit: L,
    /// The error of the last reader that failed.
    pub last_error: LastError<L>,
}

impl<'a, 'b, L: NodeBudget, A: Allocator> Parser<'a, 'b, L, A> {
    /// Creates a parser at the start of a text.
    pub fn new(arena: &'b Bump<A>, text: &'a [u8], limit: L) -> Parser<'a, 'b, L, A>
        ensures rest { result.rest.now ≡ text.now }
        ensures state { state_of result ≡ beginning_with (record {
          weight = L.weight;
          used = L.used limit;
          max = L.max limit;
        }) text.now }
    {
        Parser {
            arena,
            text_length: text.len(),
            rest: text,
            tables: BackrefTables {
                names: NestedList::new(arena),
                types: NestedList::new(arena),
            },
            listed_names: NestedList::new(arena),
            listed_types: NestedList::new(arena),
            references: Vec::new(arena),
            limit,
            last_error: LastError {
                reason: Failure::Memory,
                budget: PhantomData,
            },
        }
    }

    /// Records an allocation failure.
    #[cold]
    #[inline(never)]
    pub fn no_memory(&mut self) -> Failed
        ensures last_error { self.new.last_error.reason ≡ Failure.Memory }
        ensures rest { self.new.rest.now ≡ self.old.rest.now }
        ensures state { state_of self.new ≡ state_of self.old }
        ensures kept { frame_of self.new ≡ frame_of self.old }
    {
        self.last_error.reason = Failure::Memory;
        Failed
    }

    /// Records a syntax error where `left` bytes are unread.
    #[cold]
    #[inline(never)]
    pub fn reject_at(&mut self, message: Message, left: usize) -> Failed
        requires { limit_of_message message ≡ None }
        ensures last_error { self.new.last_error.reason ≡ Failure.Rejected message left }
        ensures rest { self.new.rest.now ≡ self.old.rest.now }
        ensures state { state_of self.new ≡ state_of self.old }
        ensures kept { frame_of self.new ≡ frame_of self.old }
    {
        self.last_error.reason = Failure::Rejected(message, left);
        Failed
    }

    /// Stores a node in the arena.
    pub fn put<T: Copy>(&mut self, node: T) -> Result<&'b T, Failed>
        ensures node { IfOk result (λ t. t.now ≡ node) }
        ensures rest { IfOk result (λ _. self.new.rest.now ≡ self.old.rest.now) }
        ensures state { IfOk result (λ _. state_of self.new ≡ state_of self.old) }
        ensures kept { IfOk result (λ _. frame_of self.new ≡ frame_of self.old) }
        ensures last_error { IfErr result (λ _. self.new.last_error.reason ≡ Failure.Memory) }
    {
        match self.arena.try_alloc(node) {
            Ok(node) => Ok(node),
            Err(_) => Err(self.no_memory()),
        }
    }

    /// Stores a name in the arena.
    #[inline(always)]
    pub fn put_name(&mut self, name: Name<'a, 'b>) -> Result<&'b Name<'a, 'b>, Failed>
        ensures value { ReadsAs name_at self.old self.new result (with_value (Some (name_of name.entry))) }
        ensures node { IfOk result (λ n. name_at n ≡ name_of name.entry) }
        ensures state { IfOk result (λ _. state_of self.new ≡ state_of self.old) }
        ensures stays { Stays self.old self.new result }
        ensures last_error { IfErr result (λ _. self.new.last_error.reason ≡ Failure.Memory) }
    {
        self.put(name)
    }

    /// Stores a type in the arena.
    #[inline(always)]
    pub fn put_type(&mut self, node: Type<'a, 'b>) -> Result<&'b Type<'a, 'b>, Failed>
        ensures value { ReadsAs type_at self.old self.new result (with_value (Some (type_of node.entry))) }
        ensures node { IfOk result (λ t. type_at t ≡ type_of node.entry) }
        ensures state { IfOk result (λ _. state_of self.new ≡ state_of self.old) }
        ensures stays { Stays self.old self.new result }
        ensures last_error { IfErr result (λ _. self.new.last_error.reason ≡ Failure.Memory) }
    {
        self.put(node)
    }

    /// Counts a node before it is read, or fails if the limit is reached.
    pub fn count_node(&mut self) -> Result<(), Failed>
        ensures value { ReadsAs (λ _. tt) self.old self.new result (λ left s. counting s.count.weight left s) }
        ensures stays { Stays self.old self.new result }
    {
        if !self.limit.count_node() {
            return Err(self.reject_nodes());
        }
        Ok(())
    }

    /// Counts the nodes of a table entry, or fails if they exceed the limit.
    pub fn count_nodes(&mut self, nodes: L) -> Result<(), Failed>
        ensures value { ReadsAs (λ _. tt) self.old self.new result (counting (L.used nodes)) }
        ensures stays { Stays self.old self.new result }
    {
        if !self.limit.count_nodes(nodes) {
            return Err(self.reject_nodes());
        }
        Ok(())
    }

    /// Records a syntax error at the first unread byte.
    #[cold]
    #[inline(never)]
    pub fn reject(&mut self, message: Message) -> Failed
        requires { limit_of_message message ≡ None }
        ensures last_error { self.new.last_error.reason ≡ Failure.Rejected message (length self.old.rest.now) }
        ensures rest { self.new.rest.now ≡ self.old.rest.now }
        ensures state { state_of self.new ≡ state_of self.old }
        ensures kept { frame_of self.new ≡ frame_of self.old }
    {
        self.last_error.reason = Failure::Rejected(message, self.rest.len());
        Failed
    }

    /// Records at the first unread byte that the limit on nodes is reached.
    #[cold]
    #[inline(never)]
    fn reject_nodes(&mut self) -> Failed
        requires { nat_lt 0 L.weight ≡ true }
        ensures last_error { self.new.last_error.reason
            ≡ Failure.Rejected Message.TooManyNodes (length self.old.rest.now) }
        ensures rest { self.new.rest.now ≡ self.old.rest.now }
        ensures state { state_of self.new ≡ state_of self.old }
        ensures kept { frame_of self.new ≡ frame_of self.old }
    {
        self.last_error.reason = Failure::Rejected(Message::TooManyNodes, self.rest.len());
        Failed
    }

    /// Returns the offset in bytes at which the suffix `left` of the text starts.
    pub fn offset_of(&self, left: &[u8]) -> usize
        ensures { result ≡ place left.now (state_of self.now) }
    {
        self.text_length.saturating_sub(left.len())
    }

    /// Reads the next byte, if there is one.
    pub fn next_byte(&mut self) -> Option<u8>
        ensures value { MayRead (λ b. b) self.old self.new result byte_here }
        ensures shorter { IfSome result (λ b. length self.new.rest.now < length self.old.rest.now) }
        ensures still { MatchOption result (self.new.rest.now ≡ self.old.rest.now) (λ b. Unit {0}) }
        ensures state { state_of self.new ≡ state_of self.old }
        ensures kept { frame_of self.new ≡ frame_of self.old }
    {
        let [first, rest @ ..] = self.rest else {
            return None;
        };
        self.rest = rest;
        Some(*first)
    }

    /// Reads the next byte, or fails at the end.
    pub fn byte(&mut self) -> Result<u8, Failed>
        ensures value { ReadsAs (λ b. b) self.old self.new result byte_here }
        ensures consumes { Consumes self.old self.new result }
    {
        match self.next_byte() {
            Some(byte) => Ok(byte),
            None => Err(self.reject(Message::EndOfInput)),
        }
    }

    /// Reads the next byte if it is a digit, and returns its value.
    pub fn digit(&mut self) -> Option<u8>
        ensures value { option_map (λ d. (d, self.new.rest.now, state_of self.new)) result
            ≡ letter_here digits self.old.rest.now (state_of self.old) }
        ensures shorter { IfSome result (λ d. length self.new.rest.now < length self.old.rest.now) }
        ensures still { MatchOption result (self.new.rest.now ≡ self.old.rest.now) (λ d. Unit {0}) }
        ensures state { state_of self.new ≡ state_of self.old }
        ensures kept { frame_of self.new ≡ frame_of self.old }
    {
        if let [first, rest @ ..] = self.rest {
            if let Some(digit) = letters::digit(*first) {
                self.rest = rest;
                return Some(digit);
            }
        }
        None
    }

    /// Reads a literal, and returns false without reading if the text does not continue with it. The test of the first
    /// byte is inlined: most literals have one byte, and most tests fail there.
    #[inline(always)]
    pub fn consume(&mut self, literal: &[u8]) -> bool
        ensures value { consumed result self.new.rest.now ≡ after literal.now self.old.rest.now }
        ensures shorter { IsTrue result → length literal.now + length self.new.rest.now ≡ length self.old.rest.now }
        ensures still { (IsTrue result → ⊥) → self.new.rest.now ≡ self.old.rest.now }
        ensures state { state_of self.new ≡ state_of self.old }
        ensures kept { frame_of self.new ≡ frame_of self.old }
    {
        let [expected, others @ ..] = literal else {
            return true;
        };
        match self.rest {
            [first, rest @ ..] if *first == *expected => match others {
                [] => {
                    self.rest = rest;
                    true
                }
                [next] => match rest {
                    [second, left @ ..] if *second == *next => {
                        self.rest = left;
                        true
                    }
                    _ => false,
                },
                [_, ..] => self.consume_after(rest, others),
            },
            [_, ..] => false,
            [] => false,
        }
    }

    /// Reads up to `bytes` and then `literal`, and returns false without reading if `bytes` does not begin with it.
    #[inline(never)]
    fn consume_after(&mut self, bytes: &'a [u8], literal: &[u8]) -> bool
        ensures value { consumed result self.new.rest.now ≡ after literal.now bytes.now }
        ensures shorter { IsTrue result → length literal.now + length self.new.rest.now ≡ length bytes.now }
        ensures still { (IsTrue result → ⊥) → self.new.rest.now ≡ self.old.rest.now }
        ensures state { state_of self.new ≡ state_of self.old }
        ensures kept { frame_of self.new ≡ frame_of self.old }
    {
        match bytes_after(bytes, literal) {
            Some(rest) => {
                self.rest = rest;
                true
            }
            None => false,
        }
    }

    /// Reads a text, or fails if it is not next.
    pub fn expect(&mut self, text: &[u8], message: Message) -> Result<(), Failed>
        requires { limit_of_message message ≡ None }
        ensures value { ReadsAs (λ _. tt) self.old self.new result (read (literal text.now)) }
        ensures shorter { IfOk result (λ _. length text.now + length self.new.rest.now ≡ length self.old.rest.now) }
        ensures kept { IfOk result (λ _. frame_of self.new ≡ frame_of self.old) }
    {
        if !self.consume(text) {
            return Err(self.reject(message));
        }
        Ok(())
    }

    /// Reads a letter of a table of qualifiers, and returns no qualifiers if the next byte is none.
    pub fn optional(&mut self, letters: OptionalLetters) -> StorageClass
        ensures value { AlwaysReads self.old self.new result.0 (read (optional (optional_letters letters))) }
        ensures shorter { length self.new.rest.now ≤ length self.old.rest.now }
        ensures kept { frame_of self.new ≡ frame_of self.old }
    {
        if let [first, rest @ ..] = self.rest {
            let bits = match letters {
                OptionalLetters::StorageClasses => letters::storage_class(*first),
                OptionalLetters::Qualifiers => letters::qualifier(*first),
                OptionalLetters::ReferenceQualifiers => letters::reference_qualifier(*first),
            };
            if let Some(bits) = bits {
                self.rest = rest;
                return bits;
            }
        }
        StorageClass::empty()
    }

    /// Reads `letter` and returns `bits`, or returns no bits if another byte is next.
    pub fn optional_flag(&mut self, letter: u8, bits: StorageClass) -> StorageClass
        ensures value { AlwaysReads self.old self.new result.0 (read (optional ((letter, bits.0) ∷ []))) }
        ensures shorter { length self.new.rest.now ≤ length self.old.rest.now }
        ensures kept { frame_of self.new ≡ frame_of self.old }
    {
        match self.rest {
            [first, rest @ ..] if *first == letter => {
                self.rest = rest;
                bits
            }
            _ => StorageClass::empty(),
        }
    }
}

/// Returns the bytes after a literal, if `bytes` begins with it.
fn bytes_after<'a>(bytes: &'a [u8], literal: &[u8]) -> Option<&'a [u8]>
    ensures value { option_map (λ rest. rest.now) result ≡ after literal.now bytes.now }
    ensures shorter { IfSome result (λ rest. length literal.now + length rest.now ≡ length bytes.now) }
{
    let [expected, others @ ..] = literal else {
        return Some(bytes);
    };
    match bytes {
        [first, rest @ ..] if *first == *expected => bytes_after(rest, others),
        [_, ..] => None,
        [] => None,
    }
}
