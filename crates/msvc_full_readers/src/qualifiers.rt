//! Qualifiers that decide what follows, and those of a function beside its class.

ghost use Rattle.std.specs.Option.{option_map};
ghost use Rattle.std.specs.Prelude.{◌≡◌, ◌<◌, IfSome, length, MatchOption};
ghost use Rattle.msvc_rules.specs.Readers.{letter_here};
ghost use Rattle.msvc_full_grammar.specs.Fragments.{adjusted_row, of_c, own_of_class};
ghost use Rattle.msvc_full_letters.specs.Views.{encoding_form_of};
ghost use Rattle.msvc_full_grammar.specs.Letters as letters_of;
ghost use Rattle.msvc_cursor.specs.Parser.{frame_of, state_of};

use bitflags::Flags;
use msvc_cursor::budget::NodeBudget;
use msvc_cursor::parser::Parser;
use msvc_full_grammar::forms::{Adjustment, OwnQualifiers};
use msvc_full_letters::forms::EncodingForm;
use msvc_full_letters::letters;
use msvc_nodes::flags::{FuncClass, StorageClass};
use msvc_shapes::rows;
use std::alloc::Allocator;

/// Reads the letter of the qualifier of a member that is pointed to, if it is next.
pub fn member_qualifier<'a, 'b, L: NodeBudget, A: Allocator>(
    parser: &mut Parser<'a, 'b, L, A>,
) -> Option<StorageClass>
    ensures value { option_map (λ (q : StorageClass). (q.0, parser.new.rest.now, state_of parser.new)) result
        ≡ letter_here letters_of.member_qualifiers parser.old.rest.now (state_of parser.old) }
    ensures shorter { IfSome result (λ q. length parser.new.rest.now < length parser.old.rest.now) }
    ensures still { MatchOption result (parser.new.rest.now ≡ parser.old.rest.now) (λ q. Unit {0}) }
    ensures state { state_of parser.new ≡ state_of parser.old }
    ensures kept { frame_of parser.new ≡ frame_of parser.old }
{
    if let [first, rest @ ..] = parser.rest {
        if let Some(qualifier) = letters::member_qualifier(*first) {
            parser.rest = rest;
            return Some(qualifier);
        }
    }
    None
}

/// Reads the letter of a pointer or a reference of managed code, if it is next, and returns its row. `own_row` is the
/// row of its `A`.
pub fn managed_row_here<'a, 'b, L: NodeBudget, A: Allocator>(
    parser: &mut Parser<'a, 'b, L, A>,
    own_row: u8,
) -> Option<u8>
    ensures value { option_map (λ row. (row, parser.new.rest.now, state_of parser.new)) result
        ≡ letter_here (letters_of.managed_rows own_row) parser.old.rest.now (state_of parser.old) }
    ensures shorter { IfSome result (λ q. length parser.new.rest.now < length parser.old.rest.now) }
    ensures still { MatchOption result (parser.new.rest.now ≡ parser.old.rest.now) (λ q. Unit {0}) }
    ensures state { state_of parser.new ≡ state_of parser.old }
    ensures kept { frame_of parser.new ≡ frame_of parser.old }
{
    if let [first, rest @ ..] = parser.rest {
        if let Some(row) = letters::managed_row(own_row, *first) {
            parser.rest = rest;
            return Some(row);
        }
    }
    None
}

/// Returns whether a function of a class has qualifiers of its own: a static one has none, and one outside all classes
/// has none.
pub fn own_of_class(class: FuncClass) -> OwnQualifiers
    ensures { result ≡ own_of_class class.0 }
{
    if class.contains(FuncClass::STATIC) {
        return OwnQualifiers::Absent;
    }
    if class.contains(FuncClass::GLOBAL) {
        return OwnQualifiers::Absent;
    }
    OwnQualifiers::Present
}

/// Returns the bit of `noexcept` among a function's own qualifiers.
pub fn noexcept() -> StorageClass
    ensures { result.0 ≡ letters_of.noexcept }
{
    StorageClass::from_bits_retain(512)
}

/// Returns the bit of a function of C in its class.
fn c_linkage() -> FuncClass
    ensures { result.0 ≡ letters_of.c_linkage }
{
    FuncClass::from_bits_retain(256)
}

/// Returns the same class of function, of C.
pub fn of_c(form: EncodingForm) -> EncodingForm
    ensures { encoding_form_of result ≡ of_c (encoding_form_of form) }
{
    match form {
        EncodingForm::FreeFunction => {
            EncodingForm::Function(FuncClass::GLOBAL.union(c_linkage()))
        }
        EncodingForm::Function(class) => EncodingForm::Function(class.union(c_linkage())),
        EncodingForm::Thunk(adjustment, class) => {
            EncodingForm::Thunk(adjustment, class.union(c_linkage()))
        }
        _ => form,
    }
}

/// Returns the row of a function that moves its `this`.
pub fn adjusted_row(adjustment: Adjustment) -> u8
    ensures { result ≡ adjusted_row adjustment }
{
    match adjustment {
        Adjustment::Adjustor => rows::ADJUSTOR,
        Adjustment::VtorDisp => rows::VTORDISP,
        Adjustment::VtorDispEx => rows::VTORDISPEX,
    }
}
