//! Names of operators: their words, a row each, and which of them print otherwise as the name of a symbol itself.
#![tactic(auto, using(crate::proofs::Stack::pushes), unfolding(crate::specs::Operators::base_class_pieces, crate::specs::Operators::guard_number, crate::specs::Operators::guard_pieces, crate::specs::Operators::full_operator_word, crate::specs::Operators::name_kind, crate::specs::Operators::operator_pieces, crate::specs::Operators::operator_word, crate::specs::Operators::template_kind, msvc_nodes::specs::NodeView::name_of))]

ghost use Rattle.std.specs.Prelude.{◌≡◌, OnOk, cond};
ghost use Rattle.msvc_nodes.specs.Trees.{operator};
ghost use Rattle.msvc_nodes.specs.NodeView.{name_of};
ghost use Rattle.msvc_print.specs.Operators.{base_class_pieces, guard_number, guard_pieces, guard_word, listed};
ghost use Rattle.msvc_print.specs.Flags.{full_style, has};
ghost use Rattle.msvc_print.specs.Operators.{full_operator_word, name_kind, operator_pieces, operator_word, spaced};
ghost use Rattle.msvc_print.specs.Operators.{template_kind};
ghost use Rattle.msvc_print.specs.Limited.{add_all};
ghost use Rattle.msvc_print.specs.declared.operators.NameKind.TheVariants.{BaseTable, Ordinary};

use crate::function_types::write_separator;
use crate::spaces::{Space, write_space};
use crate::style::{Style, Wording};
use crate::text::{Text, write_number, write_text};
use msvc_nodes::kinds::{Guard, PlainOperator};
use msvc_nodes::nodes::{BaseClass, Name};
use msvc_nodes::plain_operators;
use std::alloc::{AllocError, Allocator};

/// How a name prints where it is the name of a symbol itself.
#[derive(Clone, Copy)]
pub enum NameKind {
    /// As in any scope.
    Ordinary,
    /// As the innermost name of its scope.
    Constructor,
    /// The same after `~`.
    Destructor,
    /// As what the function returns.
    Conversion,
    /// As the table of virtual bases.
    BaseTable,
    /// Before its scope.
    Literal,
}

/// Returns how the name of a table of virtual bases prints where it is the name of a symbol itself.
fn base_table_kind<W: Wording>(flags: Style<W>) -> NameKind
    ensures { result ≡ cond (has flags.bits full_style) Ordinary BaseTable }
{
    if flags.is_full() {
        NameKind::Ordinary
    } else {
        NameKind::BaseTable
    }
}

/// Returns how the name of a plain operator prints where it is the name of a symbol itself.
fn operator_kind<W: Wording>(plain: PlainOperator, flags: Style<W>) -> NameKind
    ensures { result ≡ name_kind (operator plain) flags.bits }
{
    match plain {
        PlainOperator::Ctor => NameKind::Constructor,
        PlainOperator::Dtor => NameKind::Destructor,
        PlainOperator::Conversion => NameKind::Conversion,
        PlainOperator::VBTable => base_table_kind(flags),
        PlainOperator::LiteralOperatorName => NameKind::Literal,
        _ => NameKind::Ordinary,
    }
}

/// Returns how a plain operator that is the name of a template prints, where the template is the name of a symbol
/// itself, in the second grammar's style.
fn template_operator_kind(plain: PlainOperator) -> NameKind
    ensures { result ≡ template_kind (operator plain) }
{
    match plain {
        PlainOperator::Ctor => NameKind::Constructor,
        PlainOperator::Dtor => NameKind::Destructor,
        PlainOperator::Conversion => NameKind::Conversion,
        _ => NameKind::Ordinary,
    }
}

/// Returns how the name of a template prints where the template is the name of a symbol itself, in the second grammar's
/// style.
fn full_template_kind<'a, 'b>(name: &'b Name<'a, 'b>) -> NameKind
    ensures { result ≡ template_kind (name_of name.now) }
{
    match name {
        Name::Plain(operator) => template_operator_kind(*operator),
        _ => NameKind::Ordinary,
    }
}

/// Returns how a template prints where it is the name of a symbol itself, by its name.
fn template_kind<'a, 'b, W: Wording>(name: &'b Name<'a, 'b>, flags: Style<W>) -> NameKind
    ensures { result ≡ cond (has flags.bits full_style) (template_kind (name_of name.now)) Ordinary }
{
    if flags.is_full() {
        return full_template_kind(name);
    }
    NameKind::Ordinary
}

/// Returns how a name prints where it is the name of a symbol itself.
pub fn name_kind<'a, 'b, W: Wording>(name: &'b Name<'a, 'b>, flags: Style<W>) -> NameKind
    ensures { result ≡ name_kind (name_of name.now) flags.bits }
{
    match name {
        Name::Plain(operator) => operator_kind(*operator, flags),
        Name::Template(template) => template_kind(template.name, flags),
        _ => NameKind::Ordinary,
    }
}

/// Writes fixed words after the space that operators begin with.
pub fn write_spaced_word<A: Allocator>(out: &mut Text<A>, word: &[u8]) -> Result<(), AllocError>
    ensures { OnOk result (out.new ≡ add_all out.old (spaced word.now)) }
{
    write_space(out, Space::AfterPointer)?;
    write_text(out, word)
}

/// Writes the name of an operator.
pub fn write_operator<W: Wording, A: Allocator>(
    out: &mut Text<A>,
    operator: PlainOperator,
    flags: Style<W>,
) -> Result<(), AllocError>
    ensures { OnOk result (out.new ≡ add_all out.old (operator_pieces operator flags.bits)) }
{
    if flags.is_full() {
        return write_text(out, full_operator_word(operator));
    }
    write_spaced_word(out, operator_word(operator))
}

/// Writes the number of a guard, if it has one.
fn write_guard_number<A: Allocator>(
    out: &mut Text<A>,
    number: Option<u32>,
) -> Result<(), AllocError>
    ensures { OnOk result (out.new ≡ add_all out.old (guard_number number)) }
{
    match number {
        Some(index) => {
            write_text(out, b"{")?;
            write_number(out, index)?;
            write_text(out, b"}")
        }
        None => Ok(()),
    }
}

/// Returns the word of a guard.
fn guard_word<'t>(guard: Guard) -> &'t [u8]
    ensures { result.now ≡ guard_word guard }
{
    match guard {
        Guard::Static => b"`local static guard'",
        Guard::Thread => b"`local static thread guard'",
    }
}

/// Writes the guard of a static variable.
pub fn write_guard<A: Allocator>(
    out: &mut Text<A>,
    guard: Guard,
    number: Option<u32>,
) -> Result<(), AllocError>
    ensures { OnOk result (out.new ≡ add_all out.old (guard_pieces guard number)) }
{
    write_spaced_word(out, guard_word(guard))?;
    write_guard_number(out, number)
}

/// Writes a comma and a number.
fn write_comma_number<W: Wording, A: Allocator>(
    out: &mut Text<A>,
    number: i32,
    flags: Style<W>,
) -> Result<(), AllocError>
    ensures { OnOk result (out.new ≡ add_all out.old (listed number flags.bits)) }
{
    write_separator(out, false, flags)?;
    write_number(out, number)
}

/// Writes the place of a base class in an object, as run-time type information names it.
#[cold]
pub fn write_base_class<W: Wording, A: Allocator>(
    out: &mut Text<A>,
    class: &BaseClass,
    flags: Style<W>,
) -> Result<(), AllocError>
    ensures { OnOk result (out.new ≡ add_all out.old
        (base_class_pieces class.now.member class.now.pointer class.now.entry class.now.attributes flags.bits)) }
{
    write_spaced_word(out, b"`RTTI Base Class Descriptor at (")?;
    write_number(out, class.member)?;
    write_comma_number(out, class.pointer, flags)?;
    write_comma_number(out, class.entry, flags)?;
    write_comma_number(out, class.attributes, flags)?;
    write_text(out, b")'")
}

/// Matches an operator with what it prints.
macro_rules! word_of_operator {
    (($operator:ident) $({ $($code:literal $name:ident $word:literal,)* })*) => {
        match $operator {
            $($(PlainOperator::$name => $word,)*)*
        }
    };
}

/// Returns the words of an operator.
fn operator_word<'t>(operator: PlainOperator) -> &'t [u8]
    ensures { result.now ≡ operator_word operator }
{
    plain_operators!(word_of_operator(operator))
}

/// Returns the words of an operator in the second grammar's style.
fn full_operator_word<'t>(operator: PlainOperator) -> &'t [u8]
    ensures { result.now ≡ full_operator_word operator }
{
    match operator {
        PlainOperator::VBaseDtor => b"`vbase dtor'",
        PlainOperator::VectorDeletingDtor => b"`vector deleting dtor'",
        PlainOperator::DefaultCtorClosure => b"`default ctor closure'",
        PlainOperator::ScalarDeletingDtor => b"`scalar deleting dtor'",
        PlainOperator::VectorCtorIterator => b"`vector ctor iterator'",
        PlainOperator::VectorDtorIterator => b"`vector dtor iterator'",
        PlainOperator::VectorVBaseCtorIterator => b"`vector vbase ctor iterator'",
        PlainOperator::EHVectorCtorIterator => b"`eh vector ctor iterator'",
        PlainOperator::EHVectorDtorIterator => b"`eh vector dtor iterator'",
        PlainOperator::EHVectorVBaseCtorIterator => b"`eh vector vbase ctor iterator'",
        PlainOperator::CopyCtorClosure => b"`copy ctor closure'",
        PlainOperator::LocalVFTableCtorClosure => b"`local vftable ctor closure'",
        PlainOperator::CoroutineAwait => b"operator co_await",
        _ => operator_word(operator),
    }
}
