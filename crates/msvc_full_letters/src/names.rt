//! Names of the source.
#![tactic(auto)]

ghost use Rattle.msvc_nodes.specs.NodeView.{name_at};
ghost use Rattle.msvc_full_grammar.specs.Fragments.{new_source_name};
ghost use Rattle.msvc_full_grammar.specs.Productions as production;
ghost use Rattle.msvc_full_grammar.specs.Reading.{read, read_name};
ghost use Rattle.msvc_cursor.specs.Parser.{Consumes, ReadsAs};

use msvc_cursor::budget::NodeBudget;
use msvc_cursor::failure::{Failed, Message};
use msvc_cursor::parser::Parser;
use msvc_nodes::nodes::Name;
use std::alloc::Allocator;

/// Reads `SOURCE_NAME = byte {byte} "@"`: the bytes up to the next `@`, of which the first is no `?`. Fails where the
/// name begins.
#[tactic(auto, using(crate::proofs::NameSteps::source_name_step), unfolding(crate::specs::Names::source_name_at))]
#[inline(always)]
pub fn source_name<'a, 'b, L: NodeBudget, A: Allocator>(
    parser: &mut Parser<'a, 'b, L, A>,
) -> Result<&'a [u8], Failed>
    ensures value { ReadsAs (λ n. n.now) parser.old parser.new result (read_name production.source_name) }
    ensures consumes { Consumes parser.old parser.new result }
{
    match parser.rest {
        [b'?' | b'@', ..] => Err(parser.reject(Message::NameExpected)),
        [_, ..] => parser.source_name(),
        [] => parser.source_name(),
    }
}

/// Reads a source name, stores it and memorizes it.
#[tactic(auto, using(crate::proofs::NameSteps::new_source_name_step), unfolding(msvc_nodes::specs::NodeView::name_of))]
pub fn new_source_name<'a, 'b, L: NodeBudget, A: Allocator>(
    parser: &mut Parser<'a, 'b, L, A>,
) -> Result<&'b Name<'a, 'b>, Failed>
    ensures value { ReadsAs name_at parser.old parser.new result (read new_source_name) }
    ensures consumes { Consumes parser.old parser.new result }
{
    parser.count_node()?;
    let text = source_name(parser)?;
    let name = parser.put_name(Name::Source(text))?;
    parser.add_name_inline(name, L::one())
}
