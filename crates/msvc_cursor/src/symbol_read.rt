//! What is read of a text that begins with a symbol.

use crate::back_references::BackReference;
use bumpalo::Bump;
use msvc_nodes::nodes::TypedSymbol;
use std::alloc::Allocator;

/// The symbol that a text begins with. Its names borrow from the text. A part that occurs twice in the symbol is
/// shared.
#[derive(Drop)]
pub struct SymbolRead<'a, 'b, A: Allocator> {
    /// The nodes of the symbol, in the arena.
    pub symbol: TypedSymbol<'a, 'b>,
    /// The bytes that the symbol takes.
    pub length: usize,
    /// The digits that were read as whole parameters, in rising order of their offsets.
    pub references: Vec<BackReference, &'b Bump<A>>,
}
