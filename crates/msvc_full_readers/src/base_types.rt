//! Base types, by their letters.

ghost use Rattle.msvc_nodes.specs.NodeView.{type_at};
ghost use Rattle.msvc_full_grammar.specs.Forms.{extended};
ghost use Rattle.msvc_full_grammar.specs.Letters as letters_of;
ghost use Rattle.msvc_full_grammar.specs.Productions as production;
ghost use Rattle.msvc_full_grammar.specs.Reading.{read_name};
ghost use Rattle.msvc_full_letters.specs.Texts.{base_by};
ghost use Rattle.msvc_cursor.specs.Parser.{Consumes, ReadsAs};

use crate::store::put_empty_type;
use msvc_cursor::budget::NodeBudget;
use msvc_cursor::failure::{Failed, Message};
use msvc_cursor::letters;
use msvc_cursor::parser::Parser;
use msvc_full_letters::letters::deduced_row;
use msvc_nodes::flags::StorageClass;
use msvc_nodes::nodes::Type;
use std::alloc::Allocator;

/// Reads the letter of a base type.
#[inline(never)]
pub fn base_type<'a, 'b, L: NodeBudget, A: Allocator>(
    parser: &mut Parser<'a, 'b, L, A>,
    qualifiers: StorageClass,
) -> Result<&'b Type<'a, 'b>, Failed>
    ensures value { ReadsAs type_at parser.old parser.new result (base_by letters_of.base_types qualifiers.0) }
    ensures consumes { Consumes parser.old parser.new result }
{
    parser.count_node()?;
    let letter = parser.byte()?;
    match letters::base_type(letter) {
        Some(base) => parser.put_type(Type::Base(base, qualifiers)),
        None => Err(parser.reject(Message::UnknownPrimitiveType)),
    }
}

/// Reads the second letter of a base type, or the letter of a type that is deduced, after its `_`.
#[inline(never)]
pub fn extended_type<'a, 'b, L: NodeBudget, A: Allocator>(
    parser: &mut Parser<'a, 'b, L, A>,
    qualifiers: StorageClass,
) -> Result<&'b Type<'a, 'b>, Failed>
    ensures value { ReadsAs type_at parser.old parser.new result
        (read_name (production.type_after qualifiers.0 extended)) }
    ensures consumes { Consumes parser.old parser.new result }
{
    parser.count_node()?;
    let letter = parser.byte()?;
    if let Some(row) = deduced_row(letter) {
        return put_empty_type(parser, row, qualifiers);
    }
    match letters::extended_type(letter) {
        Some(base) => parser.put_type(Type::Base(base, qualifiers)),
        None => Err(parser.reject(Message::UnknownPrimitiveType)),
    }
}
