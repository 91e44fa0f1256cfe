//! Types.

ghost use Rattle.std.specs.Option.{option_map};
ghost use Rattle.std.specs.Prelude.{◌≡◌, ◌<◌, ◌≤◌, IfSome, length, ℕ};
ghost use Rattle.msvc_nodes.specs.NodeView.{type_at};
ghost use Rattle.msvc_full_grammar.specs.Forms.{qualified};
ghost use Rattle.msvc_full_grammar.specs.Productions as production;
ghost use Rattle.msvc_full_grammar.specs.Reading.{read, read_name};
ghost use Rattle.msvc_full_grammar.specs.declared.forms.TypeRow.TheVariants as rows_of;
ghost use Rattle.msvc_full_letters.specs.Views.{type_form_of};
ghost use Rattle.msvc_cursor.specs.Parser.{Consumes, MayConsume, ReadsAs, beyond, frame_of, state_of};
ghost use Rattle.msvc_full_readers.specs.Readings.{array_lengths, elements, tagged_type, type_from};

use crate::base_types::{base_type, extended_type};
use crate::functions::function_type;
use crate::names::{type_name, type_symbol};
use crate::pointers::{pointer, reference};
use crate::store::{put_empty_type, put_named_type, put_number_type, put_outer_type};
use bitflags::Flags;
use msvc_cursor::budget::NodeBudget;
use msvc_cursor::failure::{Failed, Message};
use msvc_cursor::parser::Parser;
use msvc_full_grammar::forms::TypeRow;
use msvc_full_letters::arrays::{dimensions, lengths};
use msvc_full_letters::forms::TypeForm;
use msvc_full_letters::numbers::number;
use msvc_full_letters::qualifiers::{qualifier, qualifier_here};
use msvc_full_letters::texts::type_form;
use msvc_nodes::flags::StorageClass;
use msvc_nodes::kinds::{PointerAffinity, TagKind};
use msvc_nodes::nodes::{Number, Type};
use msvc_shapes::rows;
use std::alloc::Allocator;

/// Reads `TYPE = text of types TYPE_AFTER | base letter`. Each case ends in a call, and none in a failure that is made
/// here, so that this frame is gone while parts are read.
#[cycle(readers)]
pub fn type_<'a, 'b, L: NodeBudget, A: Allocator>(
    parser: &mut Parser<'a, 'b, L, A>,
    qualifiers: StorageClass,
) -> Result<&'b Type<'a, 'b>, Failed>
    ensures value { ReadsAs type_at parser.old parser.new result (read_name (production.type_ qualifiers.0)) }
    ensures consumes { Consumes parser.old parser.new result }
{
    let (form, all) = type_start(parser, qualifiers);
    match form {
        Some(form) => type_after(parser, form, all),
        None => base_type(parser, all),
    }
}

/// Reads the marks before a type, `{"$$B" | "$$C" qualifier}`, and the text of the type, if it has one. Returns the
/// form of that text, and the qualifiers of the marks beside those given; the form of a `$$C` if no qualifier follows
/// it. Marks make no node, so a loop reads them, which takes no stack.
#[inline(always)]
fn type_start<'a, 'b, L: NodeBudget, A: Allocator>(
    parser: &mut Parser<'a, 'b, L, A>,
    qualifiers: StorageClass,
) -> (Option<TypeForm>, StorageClass)
    ensures value { (extra : ℕ)
        → read_name (production.type_ qualifiers.0) parser.old.rest.now (beyond extra (state_of parser.old))
        ≡ type_from (option_map type_form_of result.0) result.1.0 parser.new.rest.now (beyond extra (state_of parser.new)) }
    ensures shorter { length parser.new.rest.now ≤ length parser.old.rest.now }
    ensures text { IfSome result.0 (λ _. length parser.new.rest.now < length parser.old.rest.now) }
    ensures kept { frame_of parser.new ≡ frame_of parser.old }
{
    let mut all = qualifiers;
    'marks: loop {
        let Some((form, rest)) = type_form(parser.rest) else {
            return (None, all);
        };
        parser.rest = rest;
        match form {
            TypeForm::Same => {}
            TypeForm::Qualified => {
                let Some(more) = qualifier_here(parser) else {
                    return (Some(form), all);
                };
                all = all.union(more);
            }
            _ => return (Some(form), all),
        }
    }
}

/// Reads what follows the text of a type.
#[cycle(readers)]
#[inline(always)]
fn type_after<'a, 'b, L: NodeBudget, A: Allocator>(
    parser: &mut Parser<'a, 'b, L, A>,
    form: TypeForm,
    qualifiers: StorageClass,
) -> Result<&'b Type<'a, 'b>, Failed>
    ensures value { ReadsAs type_at parser.old parser.new result
        (read_name (production.type_after qualifiers.0 (type_form_of form))) }
    ensures consumes { MayConsume parser.old parser.new result }
{
    match form {
        TypeForm::Named(tag) => tagged_type(parser, tag, qualifiers),
        TypeForm::Pointer(more) => pointer(parser, qualifiers.union(more)),
        TypeForm::Reference(affinity) => reference(parser, affinity, qualifiers),
        TypeForm::VolatileReference => reference(
            parser,
            PointerAffinity::Reference,
            qualifiers.union(StorageClass::VOLATILE),
        ),
        TypeForm::Arrays => arrays(parser, qualifiers),
        TypeForm::Function(own) => function_type(parser, own),
        TypeForm::Same => type_(parser, qualifiers),
        TypeForm::Qualified => qualified_type(parser, qualifiers),
        TypeForm::Row(row) => type_row(parser, row, qualifiers),
        TypeForm::Extended => extended_type(parser, qualifiers),
    }
}

/// Reads `qualifier TYPE`: a type with more qualifiers.
#[cycle(readers)]
#[inline(never)]
fn qualified_type<'a, 'b, L: NodeBudget, A: Allocator>(
    parser: &mut Parser<'a, 'b, L, A>,
    qualifiers: StorageClass,
) -> Result<&'b Type<'a, 'b>, Failed>
    ensures value { ReadsAs type_at parser.old parser.new result
        (read_name (production.type_after qualifiers.0 qualified)) }
    ensures consumes { Consumes parser.old parser.new result }
{
    let more = qualifier(parser)?;
    type_(parser, qualifiers.union(more))
}

/// Reads `TYPE_SYMBOL`: a class, a struct, a union, an enumeration or an alias by its name.
#[cycle(readers)]
pub fn tagged_type<'a, 'b, L: NodeBudget, A: Allocator>(
    parser: &mut Parser<'a, 'b, L, A>,
    tag: TagKind,
    qualifiers: StorageClass,
) -> Result<&'b Type<'a, 'b>, Failed>
    ensures value { ReadsAs type_at parser.old parser.new result (read (tagged_type tag qualifiers.0)) }
    ensures consumes { Consumes parser.old parser.new result }
{
    parser.count_node()?;
    let symbol = type_symbol(parser)?;
    parser.put_tagged(tag, symbol, qualifiers)
}

/// Reads `TYPE_ROW = fields of the row`.
#[cycle(readers)]
pub fn type_row<'a, 'b, L: NodeBudget, A: Allocator>(
    parser: &mut Parser<'a, 'b, L, A>,
    row: TypeRow,
    qualifiers: StorageClass,
) -> Result<&'b Type<'a, 'b>, Failed>
    ensures value { ReadsAs type_at parser.old parser.new result (read_name (production.type_row qualifiers.0 row)) }
    ensures consumes { MayConsume parser.old parser.new result }
{
    match row {
        TypeRow::Integer => integer(parser, qualifiers),
        TypeRow::Custom => {
            parser.count_node()?;
            let name = type_name(parser)?;
            parser.expect(b"@", Message::AtExpected)?;
            put_named_type(parser, rows::CUSTOM, qualifiers, name)
        }
        TypeRow::Nullptr => nullptr(parser, qualifiers),
        TypeRow::ExternC => extern_c(parser, qualifiers),
    }
}

/// Reads a number as an argument of a template.
#[inline(always)]
fn integer<'a, 'b, L: NodeBudget, A: Allocator>(
    parser: &mut Parser<'a, 'b, L, A>,
    qualifiers: StorageClass,
) -> Result<&'b Type<'a, 'b>, Failed>
    ensures value { ReadsAs type_at parser.old parser.new result
        (read_name (production.type_row qualifiers.0 rows_of.Integer)) }
    ensures consumes { Consumes parser.old parser.new result }
{
    parser.count_node()?;
    let number = number(parser)?;
    put_number_type(parser, rows::INTEGER, qualifiers, number)
}

/// Stores the type of the null pointer.
#[inline(never)]
fn nullptr<'a, 'b, L: NodeBudget, A: Allocator>(
    parser: &mut Parser<'a, 'b, L, A>,
    qualifiers: StorageClass,
) -> Result<&'b Type<'a, 'b>, Failed>
    ensures value { ReadsAs type_at parser.old parser.new result
        (read_name (production.type_row qualifiers.0 rows_of.Nullptr)) }
    ensures consumes { MayConsume parser.old parser.new result }
{
    parser.count_node()?;
    put_empty_type(parser, rows::NULLPTR, qualifiers)
}

/// Stores `extern "C"`.
#[inline(never)]
fn extern_c<'a, 'b, L: NodeBudget, A: Allocator>(
    parser: &mut Parser<'a, 'b, L, A>,
    qualifiers: StorageClass,
) -> Result<&'b Type<'a, 'b>, Failed>
    ensures value { ReadsAs type_at parser.old parser.new result
        (read_name (production.type_row qualifiers.0 rows_of.ExternC)) }
    ensures consumes { MayConsume parser.old parser.new result }
{
    parser.count_node()?;
    put_empty_type(parser, rows::EXTERN_C, qualifiers)
}

/// Reads `ARRAYS = DIMENSIONS LENGTHS ELEMENTS`.
#[cycle(readers)]
#[inline(never)]
fn arrays<'a, 'b, L: NodeBudget, A: Allocator>(
    parser: &mut Parser<'a, 'b, L, A>,
    qualifiers: StorageClass,
) -> Result<&'b Type<'a, 'b>, Failed>
    ensures value { ReadsAs type_at parser.old parser.new result (read_name (production.arrays qualifiers.0)) }
    ensures consumes { Consumes parser.old parser.new result }
{
    parser.count_node()?;
    let lengths = array_lengths(parser)?;
    elements(parser, lengths, qualifiers)
}

/// Reads `DIMENSIONS LENGTHS`: the lengths of arrays, the outermost first. It is a call, so that its frame is gone
/// while the elements are read.
#[inline(never)]
fn array_lengths<'a, 'b, L: NodeBudget, A: Allocator>(
    parser: &mut Parser<'a, 'b, L, A>,
) -> Result<&'b [Number], Failed>
    ensures value { ReadsAs (λ zs. zs.now) parser.old parser.new result (read array_lengths) }
    ensures consumes { Consumes parser.old parser.new result }
{
    let levels = dimensions(parser)?;
    lengths(parser, levels)
}

/// Reads `ELEMENTS = ["$$C" qualifier] TYPE`: what stands after the lengths of arrays.
#[cycle(readers)]
#[inline(always)]
fn elements<'a, 'b, L: NodeBudget, A: Allocator>(
    parser: &mut Parser<'a, 'b, L, A>,
    lengths: &'b [Number],
    qualifiers: StorageClass,
) -> Result<&'b Type<'a, 'b>, Failed>
    ensures value { ReadsAs type_at parser.old parser.new result (read (elements lengths.now qualifiers.0)) }
    ensures consumes { Consumes parser.old parser.new result }
{
    if parser.consume(b"$$C") {
        let more = qualifier(parser)?;
        let element = type_(parser, StorageClass::empty())?;
        return put_outer_type(
            parser,
            rows::ARRAYS,
            lengths,
            element,
            qualifiers.union(more),
        );
    }
    let element = type_(parser, StorageClass::empty())?;
    put_outer_type(parser, rows::ARRAYS, lengths, element, qualifiers)
}
