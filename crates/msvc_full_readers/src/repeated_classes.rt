//! The class of a member once more, which stands after the type of a variable and is dropped.

ghost use Rattle.msvc_nodes.specs.NodeView.{type_of};
ghost use Rattle.msvc_full_grammar.specs.Forms.{of_member_pointer, of_pointer};
ghost use Rattle.std.specs.Prelude.{◌≡◌, ◌==◌};
ghost use Rattle.msvc_rules.specs.Rules.{some_of};
ghost use Rattle.msvc_full_grammar.specs.Fragments.{end_of, end_of_row, pointer_rows};
ghost use Rattle.msvc_full_readers.specs.Readings.{end_of_other};
ghost use Rattle.msvc_full_grammar.specs.Productions as production;
ghost use Rattle.msvc_full_grammar.specs.Reading.{read_name};
ghost use Rattle.msvc_cursor.specs.Parser.{Consumes, ReadsAs};

use crate::anonymous_namespaces::anonymous_name;
use bitflags::Flags;
use msvc_cursor::budget::NodeBudget;
use msvc_cursor::failure::Failed;
use msvc_cursor::parser::Parser;
use msvc_full_letters::names::source_name;
use msvc_full_letters::qualifiers::{marks, qualifier};
use msvc_nodes::flags::StorageClass;
use msvc_nodes::nodes::{Name, Type};
use msvc_shapes::rows;
use std::alloc::Allocator;

/// Reads `VARIABLE_END = MARKS qualifier [REPEATED_CLASS]` after a pointer, a reference or a pointer to a member, which
/// give no qualifiers, and `qualifier` after any other type.
#[inline(never)]
pub fn variable_end<'a, 'b, L: NodeBudget, A: Allocator>(
    parser: &mut Parser<'a, 'b, L, A>,
    variable: &'b Type<'a, 'b>,
) -> Result<StorageClass, Failed>
    ensures value { ReadsAs (λ (q : StorageClass). q.0) parser.old parser.new result
        (read_name (production.variable_end (end_of (type_of variable.now)))) }
    ensures consumes { Consumes parser.old parser.new result }
{
    match variable {
        Type::Pointing(_, _, _) => end_of_pointer(parser),
        Type::Shape(shape) => end_of_shape(parser, shape.row),
        Type::Plain(_) => qualifier(parser),
        Type::Base(_, _) => qualifier(parser),
        Type::Tagged(_, _, _) => qualifier(parser),
        Type::Numbered(_, _) => qualifier(parser),
        Type::ConstantString(_) => qualifier(parser),
        Type::Array(_, _, _) => qualifier(parser),
        Type::Function(_) => qualifier(parser),
        Type::MemberFunction(_) => qualifier(parser),
        Type::MemberPointer(_, _) => qualifier(parser),
        Type::Variable(_, _, _) => qualifier(parser),
        Type::Table(_, _, _) => qualifier(parser),
        Type::VcallThunk(_, _) => qualifier(parser),
    }
}

/// Reads what stands after a shape of this row.
fn end_of_shape<'a, 'b, L: NodeBudget, A: Allocator>(
    parser: &mut Parser<'a, 'b, L, A>,
    row: u8,
) -> Result<StorageClass, Failed>
    ensures value { ReadsAs (λ (q : StorageClass). q.0) parser.old parser.new result
        (read_name (production.variable_end (end_of_row row))) }
    ensures consumes { Consumes parser.old parser.new result }
{
    if row == rows::MEMBER_POINTER {
        return end_of_member_pointer(parser);
    }
    end_of_other_shape(parser, row)
}

/// Reads what stands after a shape of this row that is no pointer to a member.
fn end_of_other_shape<'a, 'b, L: NodeBudget, A: Allocator>(
    parser: &mut Parser<'a, 'b, L, A>,
    row: u8,
) -> Result<StorageClass, Failed>
    ensures value { ReadsAs (λ (q : StorageClass). q.0) parser.old parser.new result
        (read_name (production.variable_end (end_of_other row))) }
    ensures consumes { Consumes parser.old parser.new result }
{
    if is_pointer_row(row) {
        return end_of_pointer(parser);
    }
    qualifier(parser)
}

/// Returns whether a row is that of a pointer or a reference of managed code or of a block.
fn is_pointer_row(row: u8) -> bool
    ensures { result ≡ some_of (λ r. row == r) pointer_rows }
{
    matches!(
        row,
        rows::BLOCK | rows::HANDLE | rows::TRACKING | rows::PIN | rows::CLI_ARRAY
    )
}

/// Reads what stands after a pointer or a reference.
fn end_of_pointer<'a, 'b, L: NodeBudget, A: Allocator>(
    parser: &mut Parser<'a, 'b, L, A>,
) -> Result<StorageClass, Failed>
    ensures value { ReadsAs (λ (q : StorageClass). q.0) parser.old parser.new result
        (read_name (production.variable_end of_pointer)) }
    ensures consumes { Consumes parser.old parser.new result }
{
    marks(parser);
    qualifier(parser)?;
    Ok(StorageClass::empty())
}

/// Reads what stands after a pointer to a member.
fn end_of_member_pointer<'a, 'b, L: NodeBudget, A: Allocator>(
    parser: &mut Parser<'a, 'b, L, A>,
) -> Result<StorageClass, Failed>
    ensures value { ReadsAs (λ (q : StorageClass). q.0) parser.old parser.new result
        (read_name (production.variable_end of_member_pointer)) }
    ensures consumes { Consumes parser.old parser.new result }
{
    marks(parser);
    qualifier(parser)?;
    repeated_class(parser)?;
    Ok(StorageClass::empty())
}

/// Reads `REPEATED_CLASS = REPEATED_NAME REPEATED_SCOPE`.
fn repeated_class<'a, 'b, L: NodeBudget, A: Allocator>(
    parser: &mut Parser<'a, 'b, L, A>,
) -> Result<(), Failed>
    ensures value { ReadsAs (λ _. tt) parser.old parser.new result (read_name production.repeated_class) }
    ensures consumes { Consumes parser.old parser.new result }
{
    repeated_name(parser)?;
    repeated_scope(parser)
}

/// Reads `REPEATED_SCOPE = {REPEATED_NAME} "@"`.
fn repeated_scope<'a, 'b, L: NodeBudget, A: Allocator>(
    parser: &mut Parser<'a, 'b, L, A>,
) -> Result<(), Failed>
    ensures value { ReadsAs (λ _. tt) parser.old parser.new result (read_name production.repeated_scope) }
    ensures consumes { Consumes parser.old parser.new result }
{
    'names: loop {
        if parser.consume(b"@") {
            return Ok(());
        }
        repeated_name(parser)?;
    }
}

/// Reads `REPEATED_NAME = digit | "?A" ANONYMOUS_DIGITS | SOURCE_NAME`: a name without a node. The last two are
/// memorized as elsewhere.
fn repeated_name<'a, 'b, L: NodeBudget, A: Allocator>(
    parser: &mut Parser<'a, 'b, L, A>,
) -> Result<(), Failed>
    ensures value { ReadsAs (λ _. tt) parser.old parser.new result (read_name production.repeated_name) }
    ensures consumes { Consumes parser.old parser.new result }
{
    if let Some(digit) = parser.digit() {
        return parser.check_name_of_digit(digit);
    }
    if parser.consume(b"?A") {
        anonymous_name(parser)?;
        return Ok(());
    }
    let text = source_name(parser)?;
    parser.put_and_add_name(Name::Source(text))?;
    Ok(())
}
