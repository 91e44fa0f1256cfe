//! Pointers, references and pointers to members.

ghost use Rattle.msvc_nodes.specs.NodeView.{type_at};
ghost use Rattle.msvc_full_grammar.specs.Productions as production;
ghost use Rattle.msvc_full_grammar.specs.Reading.{read, read_name};
ghost use Rattle.msvc_cursor.specs.Parser.{Consumes, ReadsAs};
ghost use Rattle.std.specs.Prelude.{None};
ghost use Rattle.msvc_full_grammar.specs.Fragments.{managed_array, managed_type, pointed, pointed_type};
ghost use Rattle.msvc_full_readers.specs.Readings.{block, managed, numbered_managed, pointed_function, pointed_member};
ghost use Rattle.msvc_full_readers.specs.Readings.{pointed_member_function};

use crate::functions::function_type;
use crate::names::class_symbol;
use crate::qualifiers::{managed_row_here, member_qualifier};
use crate::store::{put_named_outer, put_numbered_outer, put_outer_type};
use crate::types::type_;
use bitflags::Flags;
use msvc_cursor::budget::NodeBudget;
use msvc_cursor::failure::{Failed, Message};
use msvc_cursor::parser::Parser;
use msvc_full_grammar::forms::OwnQualifiers;
use msvc_full_letters::numbers::plain;
use msvc_full_letters::qualifiers::{marks, qualifier};
use msvc_nodes::flags::StorageClass;
use msvc_nodes::kinds::PointerAffinity;
use msvc_nodes::nodes::Type;
use msvc_shapes::rows;
use std::alloc::Allocator;

/// Reads `POINTER = "6" FUNCTION_TYPE | "8" CLASS_SYMBOL FUNCTION_TYPE | "_E" FUNCTION_TYPE | MARKS member qualifier
/// CLASS_SYMBOL TYPE | MARKS POINTED`.
#[cycle(readers)]
#[inline(never)]
pub fn pointer<'a, 'b, L: NodeBudget, A: Allocator>(
    parser: &mut Parser<'a, 'b, L, A>,
    qualifiers: StorageClass,
) -> Result<&'b Type<'a, 'b>, Failed>
    ensures value { ReadsAs type_at parser.old parser.new result (read_name (production.pointer qualifiers.0)) }
    ensures consumes { Consumes parser.old parser.new result }
{
    parser.count_node()?;
    if parser.consume(b"6") {
        return pointed_function(parser, PointerAffinity::Pointer, qualifiers);
    }
    if parser.consume(b"8") {
        return pointed_member_function(parser, qualifiers);
    }
    if parser.consume(b"_E") {
        return block(parser, qualifiers);
    }
    let marks = marks(parser);
    if let Some(member_qualifiers) = member_qualifier(parser) {
        return pointed_member(parser, member_qualifiers, qualifiers.union(marks));
    }
    pointed(
        parser,
        rows::HANDLE,
        PointerAffinity::Pointer,
        qualifiers.union(marks),
    )
}

/// Reads `REFERENCE = "6" FUNCTION_TYPE | MARKS POINTED`.
#[cycle(readers)]
#[inline(never)]
pub fn reference<'a, 'b, L: NodeBudget, A: Allocator>(
    parser: &mut Parser<'a, 'b, L, A>,
    affinity: PointerAffinity,
    qualifiers: StorageClass,
) -> Result<&'b Type<'a, 'b>, Failed>
    ensures value { ReadsAs type_at parser.old parser.new result
        (read_name (production.reference affinity qualifiers.0)) }
    ensures consumes { Consumes parser.old parser.new result }
{
    parser.count_node()?;
    if parser.consume(b"6") {
        return pointed_function(parser, affinity, qualifiers);
    }
    let marks = marks(parser);
    pointed(parser, rows::TRACKING, affinity, qualifiers.union(marks))
}

/// Reads `POINTED = "$" MANAGED | qualifier TYPE`: what a pointer or a reference refers to, behind its marks. `own_row`
/// is the row of its `$A`.
#[cycle(readers)]
#[inline(always)]
fn pointed<'a, 'b, L: NodeBudget, A: Allocator>(
    parser: &mut Parser<'a, 'b, L, A>,
    own_row: u8,
    affinity: PointerAffinity,
    qualifiers: StorageClass,
) -> Result<&'b Type<'a, 'b>, Failed>
    ensures value { ReadsAs type_at parser.old parser.new result (read (pointed own_row affinity qualifiers.0)) }
    ensures consumes { Consumes parser.old parser.new result }
{
    if parser.consume(b"$") {
        return managed(parser, own_row, qualifiers);
    }
    pointed_type(parser, affinity, qualifiers)
}

/// Reads what a pointer or a reference of managed code refers to, behind its `$`.
#[cycle(readers)]
#[inline(never)]
fn managed<'a, 'b, L: NodeBudget, A: Allocator>(
    parser: &mut Parser<'a, 'b, L, A>,
    own_row: u8,
    qualifiers: StorageClass,
) -> Result<&'b Type<'a, 'b>, Failed>
    ensures value { ReadsAs type_at parser.old parser.new result (read (managed own_row qualifiers.0)) }
    ensures consumes { Consumes parser.old parser.new result }
{
    if let Some(row) = managed_row_here(parser, own_row) {
        return managed_type(parser, row, qualifiers);
    }
    numbered_managed(parser, qualifiers)
}

/// Reads an array of managed code behind its `$`: the number of its dimensions, and the type of its elements with its
/// qualifier.
#[cycle(readers)]
fn numbered_managed<'a, 'b, L: NodeBudget, A: Allocator>(
    parser: &mut Parser<'a, 'b, L, A>,
    qualifiers: StorageClass,
) -> Result<&'b Type<'a, 'b>, Failed>
    ensures value { ReadsAs type_at parser.old parser.new result (read (numbered_managed qualifiers.0)) }
    ensures consumes { Consumes parser.old parser.new result }
{
    if !parser.consume(b"0") {
        return no_managed(parser);
    }
    let Some(digit) = parser.digit() else {
        return no_managed(parser);
    };
    let class = qualifier(parser)?;
    let element = type_(parser, class)?;
    let dimensions = plain(u64::from(digit));
    put_numbered_outer(parser, rows::CLI_ARRAY, dimensions, element, qualifiers)
}

/// Records that no text of managed code is next: that the text ends, or after any other byte.
#[cold]
#[inline(never)]
fn no_managed<'a, 'b, L: NodeBudget, A: Allocator>(
    parser: &mut Parser<'a, 'b, L, A>,
) -> Result<&'b Type<'a, 'b>, Failed>
    ensures value { ReadsAs type_at parser.old parser.new result (λ left s. None) }
    ensures consumes { Consumes parser.old parser.new result }
{
    parser.byte()?;
    Err(parser.reject(Message::UnknownManagedPointer))
}

/// Reads what a handle or a tracking reference refers to, with its qualifier.
#[cycle(readers)]
#[inline(never)]
fn managed_type<'a, 'b, L: NodeBudget, A: Allocator>(
    parser: &mut Parser<'a, 'b, L, A>,
    row: u8,
    qualifiers: StorageClass,
) -> Result<&'b Type<'a, 'b>, Failed>
    ensures value { ReadsAs type_at parser.old parser.new result (read (managed_type row qualifiers.0)) }
    ensures consumes { Consumes parser.old parser.new result }
{
    let class = qualifier(parser)?;
    let inner = type_(parser, class)?;
    put_outer_type(parser, row, &[], inner, qualifiers)
}

/// Reads the function that a pointer to a block refers to.
#[cycle(readers)]
#[inline(never)]
fn block<'a, 'b, L: NodeBudget, A: Allocator>(
    parser: &mut Parser<'a, 'b, L, A>,
    qualifiers: StorageClass,
) -> Result<&'b Type<'a, 'b>, Failed>
    ensures value { ReadsAs type_at parser.old parser.new result (read (block qualifiers.0)) }
    ensures consumes { Consumes parser.old parser.new result }
{
    let inner = function_type(parser, OwnQualifiers::Absent)?;
    put_outer_type(parser, rows::BLOCK, &[], inner, qualifiers)
}

/// Reads the function that a pointer or a reference refers to.
#[cycle(readers)]
#[inline(never)]
fn pointed_function<'a, 'b, L: NodeBudget, A: Allocator>(
    parser: &mut Parser<'a, 'b, L, A>,
    affinity: PointerAffinity,
    qualifiers: StorageClass,
) -> Result<&'b Type<'a, 'b>, Failed>
    ensures value { ReadsAs type_at parser.old parser.new result (read (pointed_function affinity qualifiers.0)) }
    ensures consumes { Consumes parser.old parser.new result }
{
    let inner = function_type(parser, OwnQualifiers::Absent)?;
    parser.put_type(Type::Pointing(affinity, qualifiers, inner))
}

/// Reads what any other pointer or reference refers to, with its qualifier.
#[cycle(readers)]
#[inline(never)]
fn pointed_type<'a, 'b, L: NodeBudget, A: Allocator>(
    parser: &mut Parser<'a, 'b, L, A>,
    affinity: PointerAffinity,
    qualifiers: StorageClass,
) -> Result<&'b Type<'a, 'b>, Failed>
    ensures value { ReadsAs type_at parser.old parser.new result (read (pointed_type affinity qualifiers.0)) }
    ensures consumes { Consumes parser.old parser.new result }
{
    let class = qualifier(parser)?;
    let inner = type_(parser, class)?;
    parser.put_type(Type::Pointing(affinity, qualifiers, inner))
}

/// Reads the class and the type of a member function that a pointer refers to.
#[cycle(readers)]
#[inline(never)]
fn pointed_member_function<'a, 'b, L: NodeBudget, A: Allocator>(
    parser: &mut Parser<'a, 'b, L, A>,
    qualifiers: StorageClass,
) -> Result<&'b Type<'a, 'b>, Failed>
    ensures value { ReadsAs type_at parser.old parser.new result (read (pointed_member_function qualifiers.0)) }
    ensures consumes { Consumes parser.old parser.new result }
{
    let class = class_symbol(parser)?;
    let member = function_type(parser, OwnQualifiers::Present)?;
    put_named_outer(parser, rows::MEMBER_POINTER, class, member, qualifiers)
}

/// Reads the class and the type of any other member that a pointer refers to. The type has the qualifiers
/// `of_member`.
#[cycle(readers)]
#[inline(never)]
fn pointed_member<'a, 'b, L: NodeBudget, A: Allocator>(
    parser: &mut Parser<'a, 'b, L, A>,
    of_member: StorageClass,
    qualifiers: StorageClass,
) -> Result<&'b Type<'a, 'b>, Failed>
    ensures value { ReadsAs type_at parser.old parser.new result (read (pointed_member of_member.0 qualifiers.0)) }
    ensures consumes { Consumes parser.old parser.new result }
{
    let class = class_symbol(parser)?;
    let member = type_(parser, of_member)?;
    put_named_outer(parser, rows::MEMBER_POINTER, class, member, qualifiers)
}
