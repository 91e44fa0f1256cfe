//! The lengths of arrays.
#![tactic(auto, using(crate::proofs::LengthSteps::steps, crate::proofs::QualifierSteps::dimensions_step))]

ghost use Rattle.msvc_full_grammar.specs.Productions as production;
ghost use Rattle.msvc_full_grammar.specs.Reading.{read_name};
ghost use Rattle.msvc_cursor.specs.Parser.{Consumes, MayConsume, ReadsAs};

use crate::numbers::{count, plain};
use bumpalo::collections::into_bump_slice;
use msvc_cursor::budget::NodeBudget;
use msvc_cursor::failure::{Failed, Message};
use msvc_cursor::parser::Parser;
use msvc_nodes::nodes::Number;
use std::alloc::Allocator;

/// Reads `DIMENSIONS = COUNT`: the number of dimensions of an array. Fails after a 0.
pub fn dimensions<'a, 'b, L: NodeBudget, A: Allocator>(
    parser: &mut Parser<'a, 'b, L, A>,
) -> Result<u64, Failed>
    ensures value { ReadsAs (λ n. n) parser.old parser.new result (read_name production.dimensions) }
    ensures consumes { Consumes parser.old parser.new result }
{
    let dimensions = count(parser)?;
    if dimensions == 0 {
        return Err(parser.reject(Message::InvalidArrayDimension(0)));
    }
    Ok(dimensions)
}

/// Reads exactly `levels` lengths of an array, the outermost first.
pub fn lengths<'a, 'b, L: NodeBudget, A: Allocator>(
    parser: &mut Parser<'a, 'b, L, A>,
    levels: u64,
) -> Result<&'b [Number], Failed>
    ensures value { ReadsAs (λ zs. zs.now) parser.old parser.new result (read_name (production.lengths levels)) }
    ensures consumes { MayConsume parser.old parser.new result }
{
    let mut lengths = Vec::new(parser.arena);
    for _ in 0..levels {
        let value = count(parser)?;
        if lengths.push(plain(value)).is_err() {
            return Err(parser.no_memory());
        }
    }
    Ok(into_bump_slice(lengths))
}
