//! Qualifiers and conventions.
#![tactic(auto, using(msvc_cursor::proofs::Choices::letter_step, crate::proofs::QualifierSteps::steps))]

ghost use Rattle.std.specs.Option.{option_map};
ghost use Rattle.std.specs.Prelude.{◌≡◌, ◌≤◌, ◌<◌, IfSome, length, MatchOption, None, Some};
ghost use Rattle.msvc_rules.specs.Readers.{letter_here};
ghost use Rattle.msvc_full_grammar.specs.Fragments.{managed_mark, own_of_class};
ghost use Rattle.msvc_full_grammar.specs.Letters.{conventions, qualifiers};
ghost use Rattle.msvc_full_grammar.specs.Productions as production;
ghost use Rattle.msvc_full_grammar.specs.Reading.{read, read_name};
ghost use Rattle.msvc_cursor.specs.Parser.{AlwaysReads, Consumes, frame_of, MayConsume, ReadsAs, state_of};

use crate::letters;
use bitflags::Flags;
use msvc_cursor::budget::NodeBudget;
use msvc_cursor::failure::{Failed, Message};
use msvc_cursor::letters::{OptionalLetters, qualifier as qualifier_of};
use msvc_cursor::parser::Parser;
use msvc_full_grammar::forms::OwnQualifiers;
use msvc_nodes::flags::{FuncClass, StorageClass};
use msvc_nodes::kinds::Convention;
use std::alloc::Allocator;

/// Reads the letter of `const` and `volatile`, if it is next.
#[inline(always)]
pub fn qualifier_here<'a, 'b, L: NodeBudget, A: Allocator>(
    parser: &mut Parser<'a, 'b, L, A>,
) -> Option<StorageClass>
    ensures value { option_map (λ (q : StorageClass). (q.0, parser.new.rest.now, state_of parser.new)) result
        ≡ letter_here qualifiers parser.old.rest.now (state_of parser.old) }
    ensures shorter { IfSome result (λ q. length parser.new.rest.now < length parser.old.rest.now) }
    ensures still { MatchOption result (parser.new.rest.now ≡ parser.old.rest.now) (λ q. Unit {0}) }
    ensures state { state_of parser.new ≡ state_of parser.old }
    ensures kept { frame_of parser.new ≡ frame_of parser.old }
{
    if let [first, rest @ ..] = parser.rest {
        if let Some(qualifier) = qualifier_of(*first) {
            parser.rest = rest;
            return Some(qualifier);
        }
    }
    None
}

/// Records that no letter of `const` and `volatile` is next: that the text ends, or after any other byte.
#[cold]
#[inline(never)]
fn no_qualifier<'a, 'b, L: NodeBudget, A: Allocator>(
    parser: &mut Parser<'a, 'b, L, A>,
) -> Result<StorageClass, Failed>
    ensures value { ReadsAs (λ (q : StorageClass). q.0) parser.old parser.new result (λ left s. None) }
    ensures consumes { Consumes parser.old parser.new result }
{
    parser.byte()?;
    Err(parser.reject(Message::UnknownStorageClass))
}

/// Reads the letter of `const` and `volatile`. Fails after any other byte.
#[inline(always)]
pub fn qualifier<'a, 'b, L: NodeBudget, A: Allocator>(
    parser: &mut Parser<'a, 'b, L, A>,
) -> Result<StorageClass, Failed>
    ensures value { ReadsAs (λ (q : StorageClass). q.0) parser.old parser.new result (letter_here qualifiers) }
    ensures consumes { Consumes parser.old parser.new result }
{
    if let Some(qualifier) = qualifier_here(parser) {
        return Ok(qualifier);
    }
    no_qualifier(parser)
}

/// Reads the letter of a calling convention, if it is next.
#[inline(always)]
fn convention_here<'a, 'b, L: NodeBudget, A: Allocator>(
    parser: &mut Parser<'a, 'b, L, A>,
) -> Option<Convention>
    ensures value { option_map (λ c. (c, parser.new.rest.now, state_of parser.new)) result
        ≡ letter_here conventions parser.old.rest.now (state_of parser.old) }
    ensures shorter { IfSome result (λ c. length parser.new.rest.now < length parser.old.rest.now) }
    ensures still { MatchOption result (parser.new.rest.now ≡ parser.old.rest.now) (λ c. Unit {0}) }
    ensures state { state_of parser.new ≡ state_of parser.old }
    ensures kept { frame_of parser.new ≡ frame_of parser.old }
{
    if let [first, rest @ ..] = parser.rest {
        if let Some(convention) = letters::convention(*first) {
            parser.rest = rest;
            return Some(convention);
        }
    }
    None
}

/// Records that no letter of a calling convention is next: that the text ends, or after any other byte.
#[cold]
#[inline(never)]
fn no_convention<'a, 'b, L: NodeBudget, A: Allocator>(
    parser: &mut Parser<'a, 'b, L, A>,
) -> Result<Convention, Failed>
    ensures value { ReadsAs (λ c. c) parser.old parser.new result (λ left s. None) }
    ensures consumes { Consumes parser.old parser.new result }
{
    parser.byte()?;
    Err(parser.reject(Message::UnknownCallingConv))
}

/// Reads the letter of a calling convention. Fails after any other byte.
#[inline(always)]
pub fn convention<'a, 'b, L: NodeBudget, A: Allocator>(
    parser: &mut Parser<'a, 'b, L, A>,
) -> Result<Convention, Failed>
    ensures value { ReadsAs (λ c. c) parser.old parser.new result (letter_here conventions) }
    ensures consumes { Consumes parser.old parser.new result }
{
    if let Some(convention) = convention_here(parser) {
        return Ok(convention);
    }
    no_convention(parser)
}

/// Reads `MARKS = ["E"] ["I"] ["F"]`.
pub fn marks<'a, 'b, L: NodeBudget, A: Allocator>(parser: &mut Parser<'a, 'b, L, A>) -> StorageClass
    ensures value { AlwaysReads parser.old parser.new result.0 (read_name production.marks) }
    ensures shorter { length parser.new.rest.now ≤ length parser.old.rest.now }
    ensures kept { frame_of parser.new ≡ frame_of parser.old }
{
    let size = parser.optional_flag(b'E', StorageClass::PTR64);
    let restrict = parser.optional_flag(b'I', StorageClass::RESTRICT);
    let alignment = parser.optional_flag(b'F', StorageClass::UNALIGNED);
    size.union(restrict.union(alignment))
}

/// Reads `["$A"]`, the mark of a function of managed code, which has no meaning.
fn managed_mark<'a, 'b, L: NodeBudget, A: Allocator>(parser: &mut Parser<'a, 'b, L, A>)
    ensures value { AlwaysReads parser.old parser.new tt (read managed_mark) }
    ensures shorter { length parser.new.rest.now ≤ length parser.old.rest.now }
    ensures kept { frame_of parser.new ≡ frame_of parser.old }
{
    if parser.consume(b"$A") {
        return;
    }
}

/// Reads `OWN_QUALIFIERS = MARKS ["$A"] ["G" | "H"] qualifier`, or nothing where a function has none.
pub fn own_qualifiers<'a, 'b, L: NodeBudget, A: Allocator>(
    parser: &mut Parser<'a, 'b, L, A>,
    own: OwnQualifiers,
) -> Result<StorageClass, Failed>
    ensures value { ReadsAs (λ (q : StorageClass). q.0) parser.old parser.new result
        (read_name (production.own_qualifiers own)) }
    ensures consumes { MayConsume parser.old parser.new result }
{
    match own {
        OwnQualifiers::Absent => Ok(StorageClass::empty()),
        OwnQualifiers::Present => {
            let before = marks(parser);
            managed_mark(parser);
            let reference = parser.optional(OptionalLetters::ReferenceQualifiers);
            let class = qualifier(parser)?;
            Ok(before.union(reference.union(class)))
        }
    }
}

/// Returns whether a function of a class has qualifiers of its own: a static one has none, and one outside all classes
/// has none.
pub fn own_of_class(class: FuncClass) -> OwnQualifiers
    ensures { result ≡ own_of_class class.0 }
{
    if class.contains(FuncClass::STATIC) {
        return OwnQualifiers::Absent;
    }
    if class.contains(FuncClass::GLOBAL) {
        return OwnQualifiers::Absent;
    }
    OwnQualifiers::Present
}
