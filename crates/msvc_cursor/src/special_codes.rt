//! The codes of special names.
#![tactic(auto, unfolding(crate::specs::Parser::special_at, crate::specs::Parser::special_at_after_under))]

ghost use Rattle.std.specs.Option.{option_map};
ghost use Rattle.std.specs.Prelude.{◌≡◌, ◌<◌, length, IfSome, None};
ghost use Rattle.msvc_rules.specs.Rules.{lookup};
ghost use Rattle.msvc_grammar.specs.Letters.{under_special_letters, basic_special_letters};
ghost use Rattle.msvc_grammar.specs.Letters.{double_under_special_letters, type_information_letters};
ghost use Rattle.msvc_cursor.specs.Messages.{limit_of_message};
ghost use Rattle.msvc_cursor.specs.Parser.{at_rest, special_at_after_under, special_at};

use crate::failure::Message;
use msvc_grammar::forms::SpecialForm;
use msvc_nodes::kinds::{Guard, PlainOperator};
use msvc_nodes::plain_operators;

/// Returns what the code stands for that the bytes begin with, and the bytes after it.
pub fn special_form<'a>(left: &'a [u8]) -> Option<(SpecialForm, &'a [u8])>
    ensures value { option_map (λ x. (x.0, x.1.now)) result ≡ special_at left.now }
    ensures shorter { IfSome result (λ x. length x.1.now < length left.now) }
{
    match left {
        [b'_', rest @ ..] => special_form_after_under(rest),
        [letter, rest @ ..] => with_rest(basic_form(*letter), rest),
        [] => None,
    }
}

/// Returns the same after a `_`.
fn special_form_after_under<'a>(left: &'a [u8]) -> Option<(SpecialForm, &'a [u8])>
    ensures value { option_map (λ x. (x.0, x.1.now)) result ≡ special_at_after_under left.now }
    ensures shorter { IfSome result (λ x. length x.1.now < length left.now) }
{
    match left {
        [b'_', letter, rest @ ..] => with_rest(double_under_form(*letter), rest),
        [b'R', letter, rest @ ..] => with_rest(type_information_form(*letter), rest),
        [] | [b'_'] | [b'R'] => None,
        [letter, rest @ ..] => with_rest(under_form(*letter), rest),
    }
}

/// Returns what a code stands for, if it is one, and the bytes after it.
fn with_rest<'a>(form: Option<SpecialForm>, rest: &'a [u8]) -> Option<(SpecialForm, &'a [u8])>
    ensures value { option_map (λ x. (x.0, x.1.now)) result ≡ at_rest form rest.now }
    ensures still { IfSome result (λ x. length x.1.now ≡ length rest.now) }
{
    match form {
        Some(form) => Some((form, rest)),
        None => None,
    }
}

/// Matches a letter with the arms that are given and with one of the four lists of `plain_operators`.
macro_rules! operator_of_letter {
    ((basic $letter:ident $arms:tt) $rows:tt $under:tt $type_information:tt $double_under:tt) => {
        operator_in!($letter $arms $rows)
    };
    ((under $letter:ident $arms:tt) $basic:tt $rows:tt $type_information:tt $double_under:tt) => {
        operator_in!($letter $arms $rows)
    };
    ((type_information $letter:ident $arms:tt) $basic:tt $under:tt $rows:tt $double_under:tt) => {
        operator_in!($letter $arms $rows)
    };
    ((double_under $letter:ident $arms:tt) $basic:tt $under:tt $type_information:tt $rows:tt) => {
        operator_in!($letter $arms $rows)
    };
}

/// Matches a letter with rows of operators. The arms that are given return their forms, and any other letter `None`.
macro_rules! operator_in {
    ($letter:ident { $($arm:literal => $form:expr),* } { $($code:literal $operator:ident $word:literal,)* }) => {
        match $letter {
            $($arm => return Some($form),)*
            $($code => PlainOperator::$operator,)*
            _ => return None,
        }
    };
}

/// Returns what a code of one letter stands for.
fn basic_form(letter: u8) -> Option<SpecialForm>
    ensures { result ≡ lookup letter basic_special_letters }
{
    let operator = plain_operators!(operator_of_letter (basic letter {}));
    Some(SpecialForm::Plain(operator))
}

/// Returns what a letter stands for after `_`.
fn under_form(letter: u8) -> Option<SpecialForm>
    ensures { result ≡ lookup letter under_special_letters }
{
    let operator = plain_operators!(operator_of_letter (under letter {
        b'B' => SpecialForm::Guard(Guard::Static)
    }));
    Some(SpecialForm::Plain(operator))
}

/// Returns what a letter stands for after `_R`, of run-time type information.
fn type_information_form(letter: u8) -> Option<SpecialForm>
    ensures { result ≡ lookup letter type_information_letters }
{
    let operator = plain_operators!(operator_of_letter (type_information letter {
        b'0' => SpecialForm::TypeDescriptor,
        b'1' => SpecialForm::BaseClass
    }));
    Some(SpecialForm::Plain(operator))
}

/// Returns what a letter stands for after `__`.
fn double_under_form(letter: u8) -> Option<SpecialForm>
    ensures { result ≡ lookup letter double_under_special_letters }
{
    let operator = plain_operators!(operator_of_letter (double_under letter {
        b'J' => SpecialForm::Guard(Guard::Thread)
    }));
    Some(SpecialForm::Plain(operator))
}

/// Returns why the bytes begin with no code of a special name, and how many are left where that is seen.
pub fn unknown_code(left: &[u8]) -> (Message, usize)
    ensures { limit_of_message result.0 ≡ None }
{
    match left {
        [] | [b'_'] | [b'_', b'R'] => (Message::EndOfInput, 0),
        [b'_', b'R', _, rest @ ..] => (Message::UnknownRttiOperatorName, rest.len()),
        [b'_', b'_', rest @ ..] => (Message::UnknownOperatorName, rest.len()),
        [b'_', _, rest @ ..] => (Message::UnknownOperatorName, rest.len()),
        [_, rest @ ..] => (Message::UnknownOperatorName, rest.len()),
    }
}
