//! The codes of operators.
#![tactic(auto, unfolding(msvc_cursor::specs::Parser::text_at))]

ghost use Rattle.std.specs.Option.{option_map};
ghost use Rattle.std.specs.Prelude.{◌≡◌, ◌<◌, ◌≤◌, IfSome, length, None};
ghost use Rattle.msvc_rules.specs.Rules.{lookup};
ghost use Rattle.msvc_cursor.specs.Messages.{limit_of_message};
ghost use Rattle.msvc_cursor.specs.Parser.{at_rest, text_at};
ghost use Rattle.msvc_full_letters.specs.Texts.{double_under_operator_texts, operator_at, operator_letters};
ghost use Rattle.msvc_full_letters.specs.Texts.{type_information_texts, under_operator_texts};

use msvc_cursor::failure::Message;
use msvc_full_grammar::forms::{NameRow, OperatorForm};
use msvc_nodes::kinds::PlainOperator;
use msvc_nodes::plain_operators;
use msvc_shapes::rows;

/// Returns what the code stands for that the bytes begin with, and the bytes after it.
#[tactic(auto, unfolding(crate::specs::Texts::operator_at))]
pub fn operator_form<'a>(left: &'a [u8]) -> Option<(OperatorForm, &'a [u8])>
    ensures value { option_map (λ x. (x.0, x.1.now)) result ≡ operator_at left.now }
    ensures shorter { IfSome result (λ x. length x.1.now < length left.now) }
{
    match left {
        [b'_', rest @ ..] => operator_form_after_under(rest),
        [letter, rest @ ..] => with_rest(basic_operator(*letter), rest),
        [] => None,
    }
}

/// Returns the same after a `_`.
fn operator_form_after_under<'a>(left: &'a [u8]) -> Option<(OperatorForm, &'a [u8])>
    ensures value { option_map (λ x. (x.0, x.1.now)) result
        ≡ text_at under_operator_texts left.now }
    ensures shorter { IfSome result (λ x. length x.1.now ≤ length left.now) }
{
    match left {
        [b'_', rest @ ..] => operator_form_after_unders(rest),
        [b'R', rest @ ..] => operator_form_after_r(rest),
        [b'B', rest @ ..] => Some((OperatorForm::Word(rows::STATIC_GUARD), rest)),
        [b'0', rest @ ..] => Some((OperatorForm::Plain(PlainOperator::SlashEqual), rest)),
        [b'1', rest @ ..] => Some((OperatorForm::Plain(PlainOperator::PercentEqual), rest)),
        [b'2', rest @ ..] => Some((
            OperatorForm::Plain(PlainOperator::GreaterGreaterEqual),
            rest,
        )),
        [b'3', rest @ ..] => Some((OperatorForm::Plain(PlainOperator::LessLessEqual), rest)),
        [b'4', rest @ ..] => Some((OperatorForm::Plain(PlainOperator::AmpEqual), rest)),
        [b'5', rest @ ..] => Some((OperatorForm::Plain(PlainOperator::PipeEqual), rest)),
        [b'6', rest @ ..] => Some((OperatorForm::Plain(PlainOperator::CaretEqual), rest)),
        [b'7', rest @ ..] => Some((OperatorForm::Plain(PlainOperator::VFTable), rest)),
        [b'8', rest @ ..] => Some((OperatorForm::Plain(PlainOperator::VBTable), rest)),
        [b'9', rest @ ..] => Some((OperatorForm::Plain(PlainOperator::VCall), rest)),
        [b'A', rest @ ..] => Some((OperatorForm::Plain(PlainOperator::Typeof), rest)),
        [b'D', rest @ ..] => Some((OperatorForm::Plain(PlainOperator::VBaseDtor), rest)),
        [b'E', rest @ ..] => Some((OperatorForm::Plain(PlainOperator::VectorDeletingDtor), rest)),
        [b'F', rest @ ..] => Some((OperatorForm::Plain(PlainOperator::DefaultCtorClosure), rest)),
        [b'G', rest @ ..] => Some((OperatorForm::Plain(PlainOperator::ScalarDeletingDtor), rest)),
        [b'H', rest @ ..] => Some((OperatorForm::Plain(PlainOperator::VectorCtorIterator), rest)),
        [b'I', rest @ ..] => Some((OperatorForm::Plain(PlainOperator::VectorDtorIterator), rest)),
        [b'J', rest @ ..] => Some((
            OperatorForm::Plain(PlainOperator::VectorVBaseCtorIterator),
            rest,
        )),
        [b'K', rest @ ..] => Some((
            OperatorForm::Plain(PlainOperator::VirtualDisplacementMap),
            rest,
        )),
        [b'L', rest @ ..] => Some((
            OperatorForm::Plain(PlainOperator::EHVectorCtorIterator),
            rest,
        )),
        [b'M', rest @ ..] => Some((
            OperatorForm::Plain(PlainOperator::EHVectorDtorIterator),
            rest,
        )),
        [b'N', rest @ ..] => Some((
            OperatorForm::Plain(PlainOperator::EHVectorVBaseCtorIterator),
            rest,
        )),
        [b'O', rest @ ..] => Some((OperatorForm::Plain(PlainOperator::CopyCtorClosure), rest)),
        [b'S', rest @ ..] => Some((OperatorForm::Plain(PlainOperator::LocalVFTable), rest)),
        [b'T', rest @ ..] => Some((
            OperatorForm::Plain(PlainOperator::LocalVFTableCtorClosure),
            rest,
        )),
        [b'U', rest @ ..] => Some((OperatorForm::Plain(PlainOperator::ArrayNew), rest)),
        [b'V', rest @ ..] => Some((OperatorForm::Plain(PlainOperator::ArrayDelete), rest)),
        [b'X', rest @ ..] => Some((
            OperatorForm::Plain(PlainOperator::PlacementDeleteClosure),
            rest,
        )),
        [b'Y', rest @ ..] => Some((
            OperatorForm::Plain(PlainOperator::PlacementArrayDeleteClosure),
            rest,
        )),
        _ => None,
    }
}

/// Returns the same after `_R`.
fn operator_form_after_r<'a>(left: &'a [u8]) -> Option<(OperatorForm, &'a [u8])>
    ensures value { option_map (λ x. (x.0, x.1.now)) result
        ≡ text_at type_information_texts left.now }
    ensures shorter { IfSome result (λ x. length x.1.now ≤ length left.now) }
{
    match left {
        [b'1', rest @ ..] => Some((OperatorForm::BaseClass, rest)),
        [b'2', rest @ ..] => Some((OperatorForm::Plain(PlainOperator::RTTIBaseClassArray), rest)),
        [b'3', rest @ ..] => Some((
            OperatorForm::Plain(PlainOperator::RTTIClassHierarchyDescriptor),
            rest,
        )),
        [b'4', rest @ ..] => Some((
            OperatorForm::Plain(PlainOperator::RTTIClassCompleteObjectLocator),
            rest,
        )),
        _ => None,
    }
}

/// Returns the same after `__`.
fn operator_form_after_unders<'a>(left: &'a [u8]) -> Option<(OperatorForm, &'a [u8])>
    ensures value { option_map (λ x. (x.0, x.1.now)) result
        ≡ text_at double_under_operator_texts left.now }
    ensures shorter { IfSome result (λ x. length x.1.now ≤ length left.now) }
{
    match left {
        [b'K', rest @ ..] => Some((OperatorForm::Row(NameRow::LiteralOperator), rest)),
        [b'L', rest @ ..] => Some((OperatorForm::Plain(PlainOperator::CoroutineAwait), rest)),
        [b'A', rest @ ..] => Some((OperatorForm::Word(rows::MANAGED_VECTOR_CTOR_ITERATOR), rest)),
        [b'B', rest @ ..] => Some((OperatorForm::Word(rows::MANAGED_VECTOR_DTOR_ITERATOR), rest)),
        [b'C', rest @ ..] => Some((OperatorForm::Word(rows::EH_VECTOR_COPY_CTOR_ITERATOR), rest)),
        [b'D', rest @ ..] => Some((
            OperatorForm::Word(rows::EH_VECTOR_VBASE_COPY_CTOR_ITERATOR),
            rest,
        )),
        [b'G', rest @ ..] => Some((OperatorForm::Word(rows::VECTOR_COPY_CTOR_ITERATOR), rest)),
        [b'H', rest @ ..] => Some((
            OperatorForm::Word(rows::VECTOR_VBASE_COPY_CTOR_ITERATOR),
            rest,
        )),
        [b'I', rest @ ..] => Some((
            OperatorForm::Word(rows::MANAGED_VECTOR_VBASE_COPY_CTOR_ITERATOR),
            rest,
        )),
        [b'J', rest @ ..] => Some((OperatorForm::Word(rows::THREAD_GUARD), rest)),
        [b'M', rest @ ..] => Some((OperatorForm::Word(rows::SPACESHIP), rest)),
        _ => None,
    }
}

/// Returns what a code stands for, if it is one, and the bytes after it.
fn with_rest<'a>(form: Option<OperatorForm>, rest: &'a [u8]) -> Option<(OperatorForm, &'a [u8])>
    ensures value { option_map (λ x. (x.0, x.1.now)) result
        ≡ at_rest form rest.now }
    ensures still { IfSome result (λ x. length x.1.now ≡ length rest.now) }
{
    match form {
        Some(form) => Some((form, rest)),
        None => None,
    }
}

/// Matches a letter with the first of the four lists of `plain_operators`.
macro_rules! basic_operator_of {
    (($letter:ident) $rows:tt $under:tt $type_information:tt $double_under:tt) => {
        operator_in!($letter $rows)
    };
}

/// Matches a letter with rows of operators. Any other letter returns `None`.
macro_rules! operator_in {
    ($letter:ident { $($code:literal $operator:ident $word:literal,)* }) => {
        match $letter {
            $($code => PlainOperator::$operator,)*
            _ => return None,
        }
    };
}

/// Returns what a code of one letter stands for.
fn basic_operator(letter: u8) -> Option<OperatorForm>
    ensures { result ≡ lookup letter operator_letters }
{
    let operator = plain_operators!(basic_operator_of(letter));
    Some(OperatorForm::Plain(operator))
}

/// Returns why the bytes begin with no code of an operator, and how many are left where that is seen.
pub fn unknown_operator(left: &[u8]) -> (Message, usize)
    ensures { limit_of_message result.0 ≡ None }
{
    match left {
        [] | [b'_'] | [b'_', b'_' | b'R'] => (Message::EndOfInput, 0),
        [b'_', b'R', _, rest @ ..] => (Message::UnknownRttiOperatorName, rest.len()),
        [b'_', b'_', _, rest @ ..] => (Message::UnknownOperatorName, rest.len()),
        [b'_', _, rest @ ..] => (Message::UnknownOperatorName, rest.len()),
        [_, rest @ ..] => (Message::UnknownOperatorName, rest.len()),
    }
}
