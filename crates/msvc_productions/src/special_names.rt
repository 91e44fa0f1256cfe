//! Special names: those that the compiler gives, as to operators and tables.

ghost use Rattle.std.specs.Prelude.{◌<◌, None, Some};
ghost use Rattle.msvc_nodes.specs.NodeView.{name_at};
ghost use Rattle.msvc_nodes.specs.Trees.{base_class_descriptor, guard, operator};
ghost use Rattle.msvc_rules.specs.Readers.{in_node, with_value};
ghost use Rattle.msvc_rules.specs.State.{place};
ghost use Rattle.msvc_grammar.specs.Reading.{read_name};
ghost use Rattle.msvc_grammar.specs.Productions as production;
ghost use Rattle.msvc_grammar.specs.declared.forms.SpecialForm.TheVariants as special;
ghost use Rattle.msvc_cursor.specs.Parser.{Consumes, ReadsAs, Stays};

use crate::types::type_;
use msvc_cursor::budget::NodeBudget;
use msvc_cursor::failure::{Failed, Message};
use msvc_cursor::letters::OptionalLetters;
use msvc_cursor::parser::Parser;
use msvc_cursor::special_codes::{special_form, unknown_code};
use msvc_grammar::forms::SpecialForm;
use msvc_nodes::kinds::{Guard, PlainOperator};
use msvc_nodes::nodes::{BaseClass, Name};
use std::alloc::Allocator;

/// Reads `SPECIAL_NAME = code of special names, and what its row asks for`. Each case ends in a call, so that this
/// frame is gone while the type of a descriptor is read.
#[cycle(readers)]
pub fn special_name<'a, 'b, L: NodeBudget, A: Allocator>(
    parser: &mut Parser<'a, 'b, L, A>,
) -> Result<&'b Name<'a, 'b>, Failed>
    ensures value { ReadsAs name_at parser.old parser.new result (read_name production.special_name) }
    ensures consumes { Consumes parser.old parser.new result }
{
    let Some((form, rest)) = special_form(parser.rest) else {
        return no_special_name(parser);
    };
    parser.rest = rest;
    match form {
        SpecialForm::Plain(operator) => new_operator(parser, operator),
        SpecialForm::Guard(guard) => new_guard(parser, guard),
        SpecialForm::TypeDescriptor => type_descriptor(parser),
        SpecialForm::BaseClass => base_class_descriptor(parser),
    }
}

/// Records that the text continues with no code of a special name.
#[inline(never)]
fn no_special_name<'a, 'b, L: NodeBudget, A: Allocator>(
    parser: &mut Parser<'a, 'b, L, A>,
) -> Result<&'b Name<'a, 'b>, Failed>
    ensures value { ReadsAs name_at parser.old parser.new result (λ left s. None) }
    ensures consumes { Consumes parser.old parser.new result }
{
    let (message, left) = unknown_code(parser.rest);
    Err(parser.reject_at(message, left))
}

/// Counts and stores an operator without parts.
#[inline(never)]
fn new_operator<'a, 'b, L: NodeBudget, A: Allocator>(
    parser: &mut Parser<'a, 'b, L, A>,
    kind: PlainOperator,
) -> Result<&'b Name<'a, 'b>, Failed>
    ensures value { ReadsAs name_at parser.old parser.new result
        (λ left s. in_node left s (with_value (Some (operator kind)))) }
    ensures stays { Stays parser.old parser.new result }
{
    parser.count_node()?;
    parser.put_name(Name::Plain(kind))
}

/// Counts and stores a guard without an index.
#[inline(never)]
fn new_guard<'a, 'b, L: NodeBudget, A: Allocator>(
    parser: &mut Parser<'a, 'b, L, A>,
    kind: Guard,
) -> Result<&'b Name<'a, 'b>, Failed>
    ensures value { ReadsAs name_at parser.old parser.new result
        (λ left s. in_node left s (with_value (Some (guard kind None)))) }
    ensures stays { Stays parser.old parser.new result }
{
    parser.count_node()?;
    parser.put_name(Name::Guard(kind, None))
}

/// Reads `"?" [storage class] TYPE`: a type descriptor, after its code.
#[cycle(readers)]
#[inline(never)]
fn type_descriptor<'a, 'b, L: NodeBudget, A: Allocator>(
    parser: &mut Parser<'a, 'b, L, A>,
) -> Result<&'b Name<'a, 'b>, Failed>
    ensures value { ReadsAs name_at parser.old parser.new result
        (read_name (production.special_after special.TypeDescriptor)) }
    ensures consumes { Consumes parser.old parser.new result }
{
    parser.count_node()?;
    parser.expect(b"?", Message::QuestionMarkExpected)?;
    let class = parser.optional(OptionalLetters::StorageClasses);
    let described = type_(parser, class)?;
    parser.put_name(Name::TypeDescriptor(class, described))
}

/// Reads four numbers: the place of a base class, after its code.
#[inline(never)]
fn base_class_descriptor<'a, 'b, L: NodeBudget, A: Allocator>(
    parser: &mut Parser<'a, 'b, L, A>,
) -> Result<&'b Name<'a, 'b>, Failed>
    ensures value { ReadsAs name_at parser.old parser.new result
        (read_name (production.special_after special.BaseClass)) }
    ensures consumes { Consumes parser.old parser.new result }
{
    parser.count_node()?;
    let member = parser.number()?;
    let pointer = parser.number()?;
    let entry = parser.number()?;
    let attributes = parser.number()?;
    put_base_class(
        parser,
        BaseClass {
            member,
            pointer,
            entry,
            attributes,
        },
    )
}

/// Stores the place of a base class as a name. It stands outside the cycle, as `put_tagged` does.
fn put_base_class<'a, 'b, L: NodeBudget, A: Allocator>(
    parser: &mut Parser<'a, 'b, L, A>,
    place: BaseClass,
) -> Result<&'b Name<'a, 'b>, Failed>
    ensures value { ReadsAs name_at parser.old parser.new result
        (with_value (Some (base_class_descriptor place.member place.pointer place.entry place.attributes))) }
    ensures stays { Stays parser.old parser.new result }
{
    let place = parser.put(place)?;
    parser.put_name(Name::BaseClassDescriptor(place))
}
