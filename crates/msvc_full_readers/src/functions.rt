//! Types of functions and of member functions.

ghost use Rattle.std.specs.Prelude.{◌≡◌, IfOk};
ghost use Rattle.msvc_nodes.specs.NodeView.{type_at};
ghost use Rattle.msvc_full_grammar.specs.Forms.{function_of};
ghost use Rattle.msvc_full_grammar.specs.Productions as production;
ghost use Rattle.msvc_full_grammar.specs.Reading.{read_name};
ghost use Rattle.msvc_cursor.specs.Parser.{Consumes, ReadsAs};
ghost use Rattle.msvc_full_readers.specs.Readings.{signature_at};

use crate::parameters::function_parameters;
use crate::qualifiers::own_of_class;
use crate::store::put_signature;
use crate::types::type_;
use bitflags::Flags;
use msvc_cursor::budget::NodeBudget;
use msvc_cursor::failure::Failed;
use msvc_cursor::parser::Parser;
use msvc_full_grammar::forms::OwnQualifiers;
use msvc_full_letters::qualifiers::{convention, own_qualifiers, qualifier};
use msvc_nodes::flags::{FuncClass, StorageClass};
use msvc_nodes::kinds::PlainType;
use msvc_nodes::nodes::{Function, Type};
use std::alloc::Allocator;

/// Reads `FUNCTION_TYPE = SIGNATURE`.
#[cycle(readers)]
#[inline(never)]
pub fn function_type<'a, 'b, L: NodeBudget, A: Allocator>(
    parser: &mut Parser<'a, 'b, L, A>,
    own: OwnQualifiers,
) -> Result<&'b Type<'a, 'b>, Failed>
    ensures value { ReadsAs type_at parser.old parser.new result (read_name (production.function_type own)) }
    ensures consumes { Consumes parser.old parser.new result }
{
    parser.count_node()?;
    let f = signature(parser, own, FuncClass::empty())?;
    parser.put_type(Type::Function(f))
}

/// Reads the signature of a function of a class.
#[cycle(readers)]
pub fn member_function<'a, 'b, L: NodeBudget, A: Allocator>(
    parser: &mut Parser<'a, 'b, L, A>,
    class: FuncClass,
) -> Result<&'b Type<'a, 'b>, Failed>
    ensures value { ReadsAs type_at parser.old parser.new result
        (read_name (production.encoding_after (function_of class.0))) }
    ensures consumes { Consumes parser.old parser.new result }
{
    parser.count_node()?;
    let f = signature(parser, own_of_class(class), class)?;
    parser.put_type(Type::MemberFunction(f))
}

/// Reads `SIGNATURE = OWN_QUALIFIERS convention RETURNED FUNCTION_PARAMETERS ("_E" | "Z")`.
#[cycle(readers)]
fn signature<'a, 'b, L: NodeBudget, A: Allocator>(
    parser: &mut Parser<'a, 'b, L, A>,
    own: OwnQualifiers,
    class: FuncClass,
) -> Result<&'b Function<'a, 'b>, Failed>
    ensures value { ReadsAs signature_at parser.old parser.new result (read_name (production.signature own)) }
    ensures given { IfOk result (λ f. f.now.class.0 ≡ class.0) }
    ensures consumes { Consumes parser.old parser.new result }
{
    let qualifiers = own_qualifiers(parser, own)?;
    let convention = convention(parser)?;
    let returned = returned(parser)?;
    let checkpoint = function_parameters(parser)?;
    put_signature(parser, convention, class, qualifiers, returned, checkpoint)
}

/// Reads `RETURNED = "@" | RESULT_TYPE`: an `@` means no type, as of a constructor.
#[cycle(readers)]
fn returned<'a, 'b, L: NodeBudget, A: Allocator>(
    parser: &mut Parser<'a, 'b, L, A>,
) -> Result<&'b Type<'a, 'b>, Failed>
    ensures value { ReadsAs type_at parser.old parser.new result (read_name production.returned) }
    ensures consumes { Consumes parser.old parser.new result }
{
    if parser.consume(b"@") {
        return parser.new_plain(PlainType::None);
    }
    result_type(parser)
}

/// Reads `RESULT_TYPE = "?" qualifier TYPE | TYPE`.
#[cycle(readers)]
#[inline(always)]
pub fn result_type<'a, 'b, L: NodeBudget, A: Allocator>(
    parser: &mut Parser<'a, 'b, L, A>,
) -> Result<&'b Type<'a, 'b>, Failed>
    ensures value { ReadsAs type_at parser.old parser.new result (read_name production.result_type) }
    ensures consumes { Consumes parser.old parser.new result }
{
    if parser.consume(b"?") {
        let qualifiers = qualifier(parser)?;
        return type_(parser, qualifiers);
    }
    type_(parser, StorageClass::empty())
}
