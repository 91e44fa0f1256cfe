//! Texts that introduce a form of type, and the form of each.
#![tactic(auto, unfolding(crate::specs::Parser::text_at))]

ghost use Rattle.std.specs.Option.{option_map};
ghost use Rattle.std.specs.Prelude.{◌≡◌, ◌<◌, ◌≤◌, IfSome, length};
ghost use Rattle.msvc_grammar.specs.Letters.{type_texts};
ghost use Rattle.msvc_cursor.specs.Parser.{dollar_texts, double_dollar_texts, text_at};

use msvc_grammar::forms::TypePrefix;

/// Returns the form whose text `left` begins with, and the bytes after that text.
#[inline(always)]
pub fn type_prefix<'a>(left: &'a [u8]) -> Option<(TypePrefix, &'a [u8])>
    ensures value { option_map (λ x. (x.0, x.1.now)) result ≡ text_at type_texts left.now }
    ensures shorter { IfSome result (λ x. length x.1.now < length left.now) }
{
    match left {
        [b'$', rest @ ..] => dollar_prefix(rest),
        [b'W', b'4', rest @ ..] => Some((TypePrefix::Enumeration, rest)),
        [b'A', b'6', rest @ ..] => Some((TypePrefix::ReferenceToFunction, rest)),
        [b'P', b'6', rest @ ..] => Some((TypePrefix::PointerToFunction, rest)),
        [b'P', b'8', rest @ ..] => Some((TypePrefix::QualifiedMemberPointer, rest)),
        _ => None,
    }
}

/// Returns the same after a `$`.
#[inline(always)]
fn dollar_prefix<'a>(left: &'a [u8]) -> Option<(TypePrefix, &'a [u8])>
    ensures value { option_map (λ x. (x.0, x.1.now)) result ≡ text_at dollar_texts left.now }
    ensures shorter { IfSome result (λ x. length x.1.now ≤ length left.now) }
{
    match left {
        [b'$', rest @ ..] => double_dollar_prefix(rest),
        [b'0', rest @ ..] => Some((TypePrefix::Constant, rest)),
        [b'D', rest @ ..] => Some((TypePrefix::TemplateParameter, rest)),
        [b'S', rest @ ..] => Some((TypePrefix::EmptyPack, rest)),
        [b'1' | b'H' | b'I' | b'J', rest @ ..] => Some((TypePrefix::MemberPointer, rest)),
        _ => None,
    }
}

/// Returns the same after `$$`.
#[inline(always)]
fn double_dollar_prefix<'a>(left: &'a [u8]) -> Option<(TypePrefix, &'a [u8])>
    ensures value { option_map (λ x. (x.0, x.1.now)) result ≡ text_at double_dollar_texts left.now }
    ensures shorter { IfSome result (λ x. length x.1.now ≤ length left.now) }
{
    match left {
        [b'Q', rest @ ..] => Some((TypePrefix::RValueReference, rest)),
        [b'V' | b'Z', rest @ ..] => Some((TypePrefix::EmptyPack, rest)),
        [b'T', rest @ ..] => Some((TypePrefix::Nullptr, rest)),
        [b'Y', rest @ ..] => Some((TypePrefix::Alias, rest)),
        [b'C', rest @ ..] => Some((TypePrefix::CvQualified, rest)),
        [b'B', b'Y', rest @ ..] => Some((TypePrefix::Array, rest)),
        [b'$', b'V', rest @ ..] => Some((TypePrefix::EmptyPack, rest)),
        [b'A', b'6', rest @ ..] => Some((TypePrefix::Function, rest)),
        [b'A', b'8', b'@', b'@', rest @ ..] => Some((TypePrefix::QualifiedFunction, rest)),
        _ => None,
    }
}
