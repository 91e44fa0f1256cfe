//! Reads the symbol of Full that a text begins with, into nodes of an arena.

ghost use Rattle.std.specs.Prelude.{◌≡◌, ◌+◌, codes, IfErr, IfOk, None, Err, length, map, true, ℕ};
ghost use Rattle.msvc_nodes.specs.NodeView.{typed_symbol_of};
ghost use Rattle.msvc_rules.specs.Rules.{after};
ghost use Rattle.msvc_rules.specs.State.{beginning_with};
ghost use Rattle.msvc_full_grammar.specs.Parsed.{FullLaws, full_dialect};
ghost use Rattle.msvc_full_grammar.specs.Productions.{whole_text};
ghost use Rattle.msvc_full_grammar.specs.Reading.{read_name};
ghost use Rattle.msvc_cursor.specs.Errors.{IsInside};
ghost use Rattle.msvc_cursor.specs.Failures.{FailsIn};
ghost use Rattle.msvc_cursor.specs.Messages.{may_fail_for};
ghost use Rattle.msvc_cursor.specs.Notes.{note_of};
ghost use Rattle.msvc_cursor.specs.Parser.{IsRead, with_length};
ghost use Rattle.msvc_cursor.specs.SymbolsRead.{IsSymbolReadIn};

use crate::symbols::whole_text;
use bumpalo::Bump;
use msvc_cursor::budget::{NodeBudget, NodeLimit, Unlimited};
use msvc_cursor::failure::{Failure, Message};
use msvc_cursor::limits::Limits;
use msvc_cursor::parser::Parser;
use msvc_cursor::symbol_read::SymbolRead;
use std::alloc::Allocator;

/// Reads the symbol that `input` begins with, within the limit on nodes. All memory is the arena's.
///
/// # Errors
///
/// Fails if `input` begins with no symbol, if its tree has more nodes than allowed, or if an allocation fails.
#[inline(always)]
pub fn read<'a, 'b, A: Allocator>(
    arena: &'b Bump<A>,
    input: &'a str,
    limits: Limits,
) -> Result<SymbolRead<'a, 'b, A>, Failure>
    ensures read { IfOk result (λ r. IsSymbolReadIn full_dialect limits.nodes input.now (typed_symbol_of r.symbol)
        r.length (map note_of r.references.items)) }
    ensures fails { IfErr result (λ reason. FailsIn full_dialect limits.nodes input.now reason) }
    ensures inside { IfErr result (λ reason. IsInside input.now reason) }
    ensures laws { FullLaws input.now }
{
    match limits.nodes {
        None => read_counted(arena, input, Unlimited),
        Some(max) => read_counted(arena, input, NodeLimit { used: 0, max }),
    }
}

/// Reads the symbol that `input` begins with, within a budget of nodes.
#[inline(always)]
fn read_counted<'a, 'b, L: NodeBudget, A: Allocator>(
    arena: &'b Bump<A>,
    input: &'a str,
    budget: L,
) -> Result<SymbolRead<'a, 'b, A>, Failure>
    ensures value { (extra : ℕ)
        → IsRead extra (λ r. (typed_symbol_of r.symbol, r.length, map note_of r.references.items)) result
        (with_length input.now (read_name whole_text input.now (beginning_with (record {
          weight = L.weight;
          used = L.used budget;
          max = L.max budget + extra;
        }) input.now))) }
    ensures start { after (codes ".") input.now ≡ None → after (codes "?") input.now ≡ None
        → result ≡ Err (Failure.Rejected Message.NoQuestionMark (length input.now)) }
    ensures counted { IfErr result (λ reason. may_fail_for L.weight reason ≡ true) }
{
    let mut parser = Parser::new(arena, input.as_bytes(), budget);
    match whole_text(&mut parser) {
        Ok(symbol) => Ok(SymbolRead {
            symbol,
            length: input.len().saturating_sub(parser.rest.len()),
            references: parser.references,
        }),
        Err(_) => Err(parser.last_error.reason),
    }
}
