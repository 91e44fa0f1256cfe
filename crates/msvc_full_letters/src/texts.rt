//! Texts that introduce a form, and the form of each.
#![tactic(auto, unfolding(msvc_cursor::specs::Parser::text_at))]

ghost use Rattle.std.specs.Option.{option_map};
ghost use Rattle.std.specs.Prelude.{◌≡◌, ◌<◌, ◌≤◌, bit_or, IfSome, length, None};
ghost use Rattle.msvc_full_grammar.specs.Letters.{argument_texts, far, funclet_texts, member_texts, symbol_texts};
ghost use Rattle.msvc_full_grammar.specs.Letters.{type_texts};
ghost use Rattle.msvc_full_grammar.specs.Letters.{value_texts, variable_texts};
ghost use Rattle.msvc_cursor.specs.Messages.{limit_of_message};
ghost use Rattle.msvc_cursor.specs.Parser.{at_rest, text_at};
ghost use Rattle.msvc_full_letters.specs.Texts.{argument_dollar_texts, argument_double_dollar_texts, code_at};
ghost use Rattle.msvc_full_letters.specs.Texts.{code_dollar_texts, encoding_at, funclet_c_texts, funclet_d_texts};
ghost use Rattle.msvc_full_letters.specs.Texts.{funclet_f_texts, funclet_mark_texts};
ghost use Rattle.msvc_full_letters.specs.Texts.{encoding_dollar_texts, function_at, function_dollar_texts};
ghost use Rattle.msvc_full_letters.specs.Texts.{type_dollar_texts, type_double_dollar_texts, unless_dollar};
ghost use Rattle.msvc_full_letters.specs.Texts.{value_behind};
ghost use Rattle.msvc_full_letters.specs.Views.{encoding_form_of, type_form_of};

use crate::forms::{EncodingForm, TypeForm};
use crate::letters::{encoding, function, moved};
use bitflags::Flags;
use msvc_cursor::failure::Message;
use msvc_full_grammar::forms::{
    Adjustment, ArgumentForm, OwnQualifiers, Stub, SymbolForm, TypeRow, ValueForm,
};
use msvc_nodes::flags::{FuncClass, StorageClass};
use msvc_nodes::kinds::{Guard, PointerAffinity, TagKind, VarStorageKind};
use msvc_shapes::rows;

/// Returns the form of type whose text `left` begins with, and the bytes after that text.
#[inline(always)]
pub fn type_form<'a>(left: &'a [u8]) -> Option<(TypeForm, &'a [u8])>
    ensures value { option_map (λ x. (type_form_of x.0, x.1.now)) result ≡ text_at type_texts left.now }
    ensures shorter { IfSome result (λ x. length x.1.now < length left.now) }
{
    match left {
        [b'$', rest @ ..] => type_form_after_dollar(rest),
        [b'T', rest @ ..] => Some((TypeForm::Named(TagKind::Union), rest)),
        [b'U', rest @ ..] => Some((TypeForm::Named(TagKind::Struct), rest)),
        [b'V', rest @ ..] => Some((TypeForm::Named(TagKind::Class), rest)),
        [b'W', b'4', rest @ ..] => Some((TypeForm::Named(TagKind::Enum), rest)),
        [b'P', rest @ ..] => Some((TypeForm::Pointer(StorageClass::empty()), rest)),
        [b'Q', rest @ ..] => Some((TypeForm::Pointer(StorageClass::CONST), rest)),
        [b'R', rest @ ..] => Some((TypeForm::Pointer(StorageClass::VOLATILE), rest)),
        [b'S', rest @ ..] => Some((
            TypeForm::Pointer(StorageClass::CONST.union(StorageClass::VOLATILE)),
            rest,
        )),
        [b'A', rest @ ..] => Some((TypeForm::Reference(PointerAffinity::Reference), rest)),
        [b'B', rest @ ..] => Some((TypeForm::VolatileReference, rest)),
        [b'Y', rest @ ..] => Some((TypeForm::Arrays, rest)),
        [b'?', rest @ ..] => Some((TypeForm::Row(TypeRow::Custom), rest)),
        [b'_', rest @ ..] => Some((TypeForm::Extended, rest)),
        _ => None,
    }
}

/// Returns the same after a `$`.
#[inline(always)]
fn type_form_after_dollar<'a>(left: &'a [u8]) -> Option<(TypeForm, &'a [u8])>
    ensures value { option_map (λ x. (type_form_of x.0, x.1.now)) result ≡ text_at type_dollar_texts left.now }
    ensures shorter { IfSome result (λ x. length x.1.now ≤ length left.now) }
{
    match left {
        [b'$', rest @ ..] => type_form_after_dollars(rest),
        _ => None,
    }
}

/// Returns the same after `$$`.
#[inline(always)]
fn type_form_after_dollars<'a>(left: &'a [u8]) -> Option<(TypeForm, &'a [u8])>
    ensures value { option_map (λ x. (type_form_of x.0, x.1.now)) result
        ≡ text_at type_double_dollar_texts left.now }
    ensures shorter { IfSome result (λ x. length x.1.now ≤ length left.now) }
{
    match left {
        [b'Q', rest @ ..] => Some((TypeForm::Reference(PointerAffinity::RValueReference), rest)),
        [b'B', rest @ ..] => Some((TypeForm::Same, rest)),
        [b'C', rest @ ..] => Some((TypeForm::Qualified, rest)),
        [b'T', rest @ ..] => Some((TypeForm::Row(TypeRow::Nullptr), rest)),
        [b'A', b'6', rest @ ..] => Some((TypeForm::Function(OwnQualifiers::Absent), rest)),
        [b'A', b'8', b'@', b'@', rest @ ..] => {
            Some((TypeForm::Function(OwnQualifiers::Present), rest))
        }
        _ => None,
    }
}

/// Returns the form of argument whose text `left` begins with, and the bytes after that text.
#[inline(always)]
pub fn argument_form<'a>(left: &'a [u8]) -> Option<(ArgumentForm, &'a [u8])>
    ensures value { option_map (λ x. (x.0, x.1.now)) result ≡ text_at argument_texts left.now }
    ensures shorter { IfSome result (λ x. length x.1.now < length left.now) }
{
    match left {
        [b'$', rest @ ..] => argument_form_after_dollar(rest),
        _ => None,
    }
}

/// Returns the same after a `$`.
#[inline(always)]
fn argument_form_after_dollar<'a>(left: &'a [u8]) -> Option<(ArgumentForm, &'a [u8])>
    ensures value { option_map (λ x. (x.0, x.1.now)) result
        ≡ text_at argument_dollar_texts left.now }
    ensures shorter { IfSome result (λ x. length x.1.now ≤ length left.now) }
{
    match left {
        [b'$', rest @ ..] => argument_form_after_dollars(rest),
        [b'S', rest @ ..] => Some((ArgumentForm::EmptyPack, rest)),
        [b'M', rest @ ..] => Some((ArgumentForm::Typed, rest)),
        [b'0', rest @ ..] => Some((ArgumentForm::Value(ValueForm::Row(TypeRow::Integer)), rest)),
        [b'1', rest @ ..] => Some((ArgumentForm::Value(ValueForm::Symbol(rows::ADDRESS)), rest)),
        [b'E', rest @ ..] => Some((ArgumentForm::Value(ValueForm::Symbol(rows::OBJECT)), rest)),
        [b'F', rest @ ..] => Some((ArgumentForm::Value(ValueForm::Offsets(2)), rest)),
        [b'G', rest @ ..] => Some((ArgumentForm::Value(ValueForm::Offsets(3)), rest)),
        [b'H', rest @ ..] => Some((ArgumentForm::Value(ValueForm::MemberOffsets(1)), rest)),
        [b'I', rest @ ..] => Some((ArgumentForm::Value(ValueForm::MemberOffsets(2)), rest)),
        [b'J', rest @ ..] => Some((ArgumentForm::Value(ValueForm::MemberOffsets(3)), rest)),
        [b'A', rest @ ..] => Some((ArgumentForm::Value(ValueForm::Bits(rows::FLOAT)), rest)),
        [b'B', rest @ ..] => Some((ArgumentForm::Value(ValueForm::Bits(rows::DOUBLE)), rest)),
        [b'V', rest @ ..] => Some((ArgumentForm::Value(ValueForm::Bits(rows::FLOAT16)), rest)),
        [b'W', rest @ ..] => Some((ArgumentForm::Value(ValueForm::Bits(rows::BFLOAT16)), rest)),
        [b'X', rest @ ..] => Some((ArgumentForm::Value(ValueForm::Bits(rows::FLOAT80)), rest)),
        [b'Y', rest @ ..] => Some((ArgumentForm::Value(ValueForm::Bits(rows::FLOAT128)), rest)),
        [b'Z', rest @ ..] => Some((ArgumentForm::Value(ValueForm::Bits(rows::IBM128)), rest)),
        [b'N', rest @ ..] => Some((
            ArgumentForm::Value(ValueForm::Word(rows::NULL_MEMBER)),
            rest,
        )),
        [b'2', rest @ ..] => Some((ArgumentForm::Value(ValueForm::Aggregate), rest)),
        [b'3', rest @ ..] => Some((ArgumentForm::Value(ValueForm::Elements), rest)),
        [b'5', rest @ ..] => Some((ArgumentForm::Value(ValueForm::Subobject), rest)),
        [b'6', rest @ ..] => Some((ArgumentForm::Value(ValueForm::Member), rest)),
        [b'C', rest @ ..] => Some((ArgumentForm::Value(ValueForm::Element), rest)),
        [b'7', rest @ ..] => Some((ArgumentForm::Value(ValueForm::Union), rest)),
        [b'8', rest @ ..] => Some((ArgumentForm::Value(ValueForm::MemberOf), rest)),
        _ => None,
    }
}

/// Returns the same after `$$`.
#[inline(always)]
fn argument_form_after_dollars<'a>(left: &'a [u8]) -> Option<(ArgumentForm, &'a [u8])>
    ensures value { option_map (λ x. (x.0, x.1.now)) result
        ≡ text_at argument_double_dollar_texts left.now }
    ensures shorter { IfSome result (λ x. length x.1.now ≤ length left.now) }
{
    match left {
        [b'V' | b'Z', rest @ ..] => Some((ArgumentForm::EmptyPack, rest)),
        [b'Y', rest @ ..] => Some((ArgumentForm::Alias, rest)),
        [b'$', b'V', rest @ ..] => Some((ArgumentForm::EmptyPack, rest)),
        _ => None,
    }
}

/// Returns the bytes after the `$` of a value, unless another `$` follows, as it does before a type.
#[tactic(auto, unfolding(crate::specs::Texts::value_behind))]
#[inline(always)]
pub fn value_behind<'a>(left: &'a [u8]) -> Option<&'a [u8]>
    ensures value { option_map (λ x. x.now) result ≡ value_behind left.now }
    ensures shorter { IfSome result (λ x. length x.now < length left.now) }
{
    match left {
        [b'$', rest @ ..] => unless_dollar(rest),
        _ => None,
    }
}

/// Returns the bytes, unless they begin with a `$`.
#[inline(always)]
fn unless_dollar<'a>(left: &'a [u8]) -> Option<&'a [u8]>
    ensures value { option_map (λ x. x.now) result ≡ unless_dollar left.now }
    ensures shorter { IfSome result (λ x. length x.now ≤ length left.now) }
{
    match left {
        [b'$', ..] => None,
        _ => Some(left),
    }
}

/// Returns the form of value whose text `left` begins with, and the bytes after that text.
pub fn value_form<'a>(left: &'a [u8]) -> Option<(ValueForm, &'a [u8])>
    ensures value { option_map (λ x. (x.0, x.1.now)) result ≡ text_at value_texts left.now }
    ensures shorter { IfSome result (λ x. length x.1.now < length left.now) }
{
    match left {
        [b'0', rest @ ..] => Some((ValueForm::Row(TypeRow::Integer), rest)),
        [b'1', rest @ ..] => Some((ValueForm::Symbol(rows::ADDRESS), rest)),
        [b'E', rest @ ..] => Some((ValueForm::Symbol(rows::OBJECT), rest)),
        [b'F', rest @ ..] => Some((ValueForm::Offsets(2), rest)),
        [b'G', rest @ ..] => Some((ValueForm::Offsets(3), rest)),
        [b'H', rest @ ..] => Some((ValueForm::MemberOffsets(1), rest)),
        [b'I', rest @ ..] => Some((ValueForm::MemberOffsets(2), rest)),
        [b'J', rest @ ..] => Some((ValueForm::MemberOffsets(3), rest)),
        [b'A', rest @ ..] => Some((ValueForm::Bits(rows::FLOAT), rest)),
        [b'B', rest @ ..] => Some((ValueForm::Bits(rows::DOUBLE), rest)),
        [b'V', rest @ ..] => Some((ValueForm::Bits(rows::FLOAT16), rest)),
        [b'W', rest @ ..] => Some((ValueForm::Bits(rows::BFLOAT16), rest)),
        [b'X', rest @ ..] => Some((ValueForm::Bits(rows::FLOAT80), rest)),
        [b'Y', rest @ ..] => Some((ValueForm::Bits(rows::FLOAT128), rest)),
        [b'Z', rest @ ..] => Some((ValueForm::Bits(rows::IBM128), rest)),
        [b'N', rest @ ..] => Some((ValueForm::Word(rows::NULL_MEMBER), rest)),
        [b'2', rest @ ..] => Some((ValueForm::Aggregate, rest)),
        [b'3', rest @ ..] => Some((ValueForm::Elements, rest)),
        [b'5', rest @ ..] => Some((ValueForm::Subobject, rest)),
        [b'6', rest @ ..] => Some((ValueForm::Member, rest)),
        [b'C', rest @ ..] => Some((ValueForm::Element, rest)),
        [b'7', rest @ ..] => Some((ValueForm::Union, rest)),
        [b'8', rest @ ..] => Some((ValueForm::MemberOf, rest)),
        _ => None,
    }
}

/// Returns the form of value without a type, among the members of a class, whose text `left` begins with, and the bytes
/// after that text.
pub fn member_form<'a>(left: &'a [u8]) -> Option<(ValueForm, &'a [u8])>
    ensures value { option_map (λ x. (x.0, x.1.now)) result ≡ text_at member_texts left.now }
    ensures shorter { IfSome result (λ x. length x.1.now < length left.now) }
{
    match left {
        [b'0', rest @ ..] => Some((ValueForm::Row(TypeRow::Integer), rest)),
        [b'2', rest @ ..] => Some((ValueForm::Aggregate, rest)),
        [b'3', rest @ ..] => Some((ValueForm::Elements, rest)),
        [b'7', rest @ ..] => Some((ValueForm::Union, rest)),
        _ => None,
    }
}

/// Returns what a symbol is that has no name of the source, whose text `left` begins with, and the bytes after that
/// text.
#[inline(always)]
pub fn symbol_form<'a>(left: &'a [u8]) -> Option<(SymbolForm, &'a [u8])>
    ensures value { option_map (λ x. (x.0, x.1.now)) result ≡ text_at symbol_texts left.now }
    ensures shorter { IfSome result (λ x. length x.1.now < length left.now) }
{
    match left {
        [b'@', rest @ ..] => Some((SymbolForm::Hashed, rest)),
        [b'_', b'C', rest @ ..] => Some((SymbolForm::String, rest)),
        [b'_', b'R', b'0', rest @ ..] => Some((SymbolForm::Descriptor, rest)),
        [b'_', b'B', rest @ ..] => Some((SymbolForm::Guard(Guard::Static), rest)),
        [b'_', b'_', b'J', rest @ ..] => Some((SymbolForm::Guard(Guard::Thread), rest)),
        [b'_', b'_', b'E', rest @ ..] => Some((SymbolForm::Stub(Stub::Initializer), rest)),
        [b'_', b'_', b'F', rest @ ..] => Some((SymbolForm::Stub(Stub::Destructor), rest)),
        [b'_', b'_', b'N', rest @ ..] => Some((SymbolForm::Object, rest)),
        _ => None,
    }
}

/// Returns the row of the funclet whose text `left` begins with, and the bytes after that text.
#[inline(always)]
pub fn funclet_row<'a>(left: &'a [u8]) -> Option<(u8, &'a [u8])>
    ensures value { option_map (λ x. (x.0, x.1.now)) result ≡ text_at funclet_texts left.now }
    ensures shorter { IfSome result (λ x. length x.1.now < length left.now) }
{
    match left {
        [b'?', rest @ ..] => funclet_row_after_mark(rest),
        _ => None,
    }
}

/// Returns the same after a `?`.
#[inline(always)]
fn funclet_row_after_mark<'a>(left: &'a [u8]) -> Option<(u8, &'a [u8])>
    ensures value { option_map (λ x. (x.0, x.1.now)) result ≡ text_at funclet_mark_texts left.now }
    ensures shorter { IfSome result (λ x. length x.1.now ≤ length left.now) }
{
    match left {
        [b'c', rest @ ..] => funclet_row_after_c(rest),
        [b'd', rest @ ..] => funclet_row_after_d(rest),
        [b'f', rest @ ..] => funclet_row_after_f(rest),
        _ => None,
    }
}

/// Returns the same after `?c`.
#[inline(always)]
fn funclet_row_after_c<'a>(left: &'a [u8]) -> Option<(u8, &'a [u8])>
    ensures value { option_map (λ x. (x.0, x.1.now)) result ≡ text_at funclet_c_texts left.now }
    ensures shorter { IfSome result (λ x. length x.1.now ≤ length left.now) }
{
    match left {
        [b'a', b't', b'c', b'h', b'$', rest @ ..] => Some((rows::CATCH_FUNCLET, rest)),
        _ => None,
    }
}

/// Returns the same after `?d`.
#[inline(always)]
fn funclet_row_after_d<'a>(left: &'a [u8]) -> Option<(u8, &'a [u8])>
    ensures value { option_map (λ x. (x.0, x.1.now)) result ≡ text_at funclet_d_texts left.now }
    ensures shorter { IfSome result (λ x. length x.1.now ≤ length left.now) }
{
    match left {
        [b't', b'o', b'r', b'$', rest @ ..] => Some((rows::DESTRUCTOR_FUNCLET, rest)),
        _ => None,
    }
}

/// Returns the same after `?f`.
#[inline(always)]
fn funclet_row_after_f<'a>(left: &'a [u8]) -> Option<(u8, &'a [u8])>
    ensures value { option_map (λ x. (x.0, x.1.now)) result ≡ text_at funclet_f_texts left.now }
    ensures shorter { IfSome result (λ x. length x.1.now ≤ length left.now) }
{
    match left {
        [b'i', b'l', b't', b'$', rest @ ..] => Some((rows::FILTER_FUNCLET, rest)),
        [b'i', b'n', b'$', rest @ ..] => Some((rows::FINALLY_FUNCLET, rest)),
        _ => None,
    }
}

/// Returns where the variable lives whose text `left` begins with, and the bytes after that text.
#[inline(always)]
pub fn variable_kind<'a>(left: &'a [u8]) -> Option<(VarStorageKind, &'a [u8])>
    ensures value { option_map (λ x. (x.0, x.1.now)) result ≡ text_at variable_texts left.now }
    ensures shorter { IfSome result (λ x. length x.1.now < length left.now) }
{
    match left {
        [b'0', rest @ ..] => Some((VarStorageKind::PrivateStatic, rest)),
        [b'1', rest @ ..] => Some((VarStorageKind::ProtectedStatic, rest)),
        [b'2', rest @ ..] => Some((VarStorageKind::PublicStatic, rest)),
        [b'3', rest @ ..] => Some((VarStorageKind::Global, rest)),
        [b'4', rest @ ..] => Some((VarStorageKind::FunctionLocalStatic, rest)),
        _ => None,
    }
}

/// Returns what the type of a symbol is, no variable, whose text `left` begins with, and the bytes after that text.
#[tactic(auto, unfolding(crate::specs::Texts::encoding_at))]
#[inline(always)]
pub fn encoding_form<'a>(left: &'a [u8]) -> Option<(EncodingForm, &'a [u8])>
    ensures value { option_map (λ x. (encoding_form_of x.0, x.1.now)) result ≡ encoding_at left.now }
    ensures shorter { IfSome result (λ x. length x.1.now < length left.now) }
{
    match left {
        [b'$', rest @ ..] => encoding_form_after_dollar(rest),
        [letter, rest @ ..] => with_rest(encoding(*letter), rest),
        [] => None,
    }
}

/// Returns the same after a `$`.
#[inline(never)]
fn encoding_form_after_dollar<'a>(left: &'a [u8]) -> Option<(EncodingForm, &'a [u8])>
    ensures value { option_map (λ x. (encoding_form_of x.0, x.1.now)) result
        ≡ text_at encoding_dollar_texts left.now }
    ensures shorter { IfSome result (λ x. length x.1.now ≤ length left.now) }
{
    match left {
        [b'B', rest @ ..] => Some((EncodingForm::VirtualCall, rest)),
        [b'C', rest @ ..] => Some((EncodingForm::Displacement, rest)),
        _ => code_form_after_dollar(left),
    }
}

/// Returns what a function is that may be of C or of managed code, whose text `left` begins with, and the bytes after
/// that text.
#[tactic(auto, unfolding(crate::specs::Texts::code_at))]
pub fn code_form<'a>(left: &'a [u8]) -> Option<(EncodingForm, &'a [u8])>
    ensures value { option_map (λ x. (encoding_form_of x.0, x.1.now)) result ≡ code_at left.now }
    ensures shorter { IfSome result (λ x. length x.1.now < length left.now) }
{
    match left {
        [b'$', rest @ ..] => code_form_after_dollar(rest),
        [letter, rest @ ..] => with_rest(function(*letter), rest),
        [] => None,
    }
}

/// Returns the same after a `$`.
fn code_form_after_dollar<'a>(left: &'a [u8]) -> Option<(EncodingForm, &'a [u8])>
    ensures value { option_map (λ x. (encoding_form_of x.0, x.1.now)) result ≡ text_at code_dollar_texts left.now }
    ensures shorter { IfSome result (λ x. length x.1.now ≤ length left.now) }
{
    match left {
        [b'$', b'J', b'0', rest @ ..] => Some((EncodingForm::CFunction, rest)),
        [b'$', b'F' | b'H' | b'h', rest @ ..] => Some((EncodingForm::ManagedFunction, rest)),
        _ => function_form_after_dollar(left),
    }
}

/// Returns what a function is whose class `left` begins with, and the bytes after that class.
#[tactic(auto, unfolding(crate::specs::Texts::function_at))]
pub fn function_form<'a>(left: &'a [u8]) -> Option<(EncodingForm, &'a [u8])>
    ensures value { option_map (λ x. (encoding_form_of x.0, x.1.now)) result ≡ function_at left.now }
    ensures shorter { IfSome result (λ x. length x.1.now < length left.now) }
{
    match left {
        [b'$', rest @ ..] => function_form_after_dollar(rest),
        [letter, rest @ ..] => with_rest(function(*letter), rest),
        [] => None,
    }
}

/// Returns the same after a `$`.
fn function_form_after_dollar<'a>(left: &'a [u8]) -> Option<(EncodingForm, &'a [u8])>
    ensures value { option_map (λ x. (encoding_form_of x.0, x.1.now)) result
        ≡ text_at function_dollar_texts left.now }
    ensures shorter { IfSome result (λ x. length x.1.now ≤ length left.now) }
{
    match left {
        [b'0', rest @ ..] => Some((moved(Adjustment::VtorDisp, FuncClass::PRIVATE), rest)),
        [b'1', rest @ ..] => Some((moved(Adjustment::VtorDisp, far(FuncClass::PRIVATE)), rest)),
        [b'2', rest @ ..] => Some((moved(Adjustment::VtorDisp, FuncClass::PROTECTED), rest)),
        [b'3', rest @ ..] => {
            Some((moved(Adjustment::VtorDisp, far(FuncClass::PROTECTED)), rest))
        }
        [b'4', rest @ ..] => Some((moved(Adjustment::VtorDisp, FuncClass::PUBLIC), rest)),
        [b'5', rest @ ..] => Some((moved(Adjustment::VtorDisp, far(FuncClass::PUBLIC)), rest)),
        [b'R', b'0', rest @ ..] => Some((moved(Adjustment::VtorDispEx, FuncClass::PRIVATE), rest)),
        [b'R', b'1', rest @ ..] => {
            Some((moved(Adjustment::VtorDispEx, far(FuncClass::PRIVATE)), rest))
        }
        [b'R', b'2', rest @ ..] => {
            Some((moved(Adjustment::VtorDispEx, FuncClass::PROTECTED), rest))
        }
        [b'R', b'3', rest @ ..] => {
            Some((
                moved(Adjustment::VtorDispEx, far(FuncClass::PROTECTED)),
                rest,
            ))
        }
        [b'R', b'4', rest @ ..] => Some((moved(Adjustment::VtorDispEx, FuncClass::PUBLIC), rest)),
        [b'R', b'5', rest @ ..] => {
            Some((moved(Adjustment::VtorDispEx, far(FuncClass::PUBLIC)), rest))
        }
        _ => None,
    }
}

/// Returns a class with FAR.
fn far(class: FuncClass) -> FuncClass
    ensures { result.0 ≡ bit_or class.0 far }
{
    class.union(FuncClass::FAR)
}

/// Returns a form, if there is one, and the bytes after its text.
#[inline(always)]
fn with_rest<'a>(form: Option<EncodingForm>, rest: &'a [u8]) -> Option<(EncodingForm, &'a [u8])>
    ensures value { option_map (λ x. (encoding_form_of x.0, x.1.now)) result
        ≡ at_rest (option_map encoding_form_of form) rest.now }
    ensures still { IfSome result (λ x. length x.1.now ≡ length rest.now) }
{
    match form {
        Some(form) => Some((form, rest)),
        None => None,
    }
}

/// Returns why the bytes begin with no text of a symbol's type, and how many are left where that is seen.
pub fn unknown_encoding(left: &[u8]) -> (Message, usize)
    ensures { limit_of_message result.0 ≡ None }
{
    match left {
        [] | [b'$'] | [b'$', b'R'] => (Message::EndOfInput, 0),
        [b'$', b'$', rest @ ..] => (Message::UnknownFuncClass, rest.len()),
        [b'$', b'R', _, rest @ ..] => (Message::UnknownFuncClass, rest.len()),
        [b'$', _, rest @ ..] => (Message::UnknownFuncClass, rest.len()),
        [_, rest @ ..] => (Message::UnknownFuncClass, rest.len()),
    }
}
