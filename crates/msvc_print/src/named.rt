//! Prints a declaration, and says where in it the name of its symbol stands.

ghost use Rattle.std.specs.Prelude.{◌≡◌, ℕ, IfOk, IfSome, OnOk, is_some, true};
ghost use Rattle.msvc_nodes.specs.NodeView.{typed_symbol_of};
ghost use Rattle.msvc_print.specs.Declaration.{declaration};
ghost use Rattle.msvc_print.specs.Limited.{empty_within, within};
ghost use Rattle.msvc_print.specs.NamePlaces.{IsNamePlace};
ghost use Rattle.msvc_print.specs.Within.{IsPrintedWithin};

use crate::printer::print_part;
use crate::sides::Part;
use crate::spaces::{name_space, write_space};
use crate::style::{Style, Wording};
use crate::text::Text;
use bumpalo::Bump;
use msvc_nodes::nodes::TypedSymbol;
use std::alloc::{AllocError, Allocator};

/// The place of the name of a symbol in its declaration, as indices of bytes. A space before the name is outside.
#[derive(Clone, Copy)]
pub struct NamePlace {
    /// Index of the first byte.
    pub start: usize,
    /// Index behind the last byte.
    pub end: usize,
}

/// Prints a symbol to an empty text, and returns where the name stands; the place is unspecified if `out` is not whole.
fn print_around_name<'a, 'b, W: Wording, B: Allocator, A: Allocator>(
    arena: &'b Bump<B>,
    symbol: &'b TypedSymbol<'a, 'b>,
    style: Style<W>,
    out: &mut Text<A>,
) -> Result<NamePlace, AllocError>
    ensures text { OnOk result ((max : ℕ) → out.old ≡ empty_within max
        → out.new.text ≡ within max (declaration (typed_symbol_of symbol.now) style.bits)) }
    ensures name { IfOk result (λ place. (max : ℕ) → out.old ≡ empty_within max → is_some out.new.text ≡ true
        → IsNamePlace (typed_symbol_of symbol.now) style.bits place) }
{
    print_part(arena, symbol, Part::Left, style, out)?;
    write_space(out, name_space(style))?;
    let start = out.len();
    print_part(arena, symbol, Part::Name, style, out)?;
    let end = out.len();
    print_part(arena, symbol, Part::Right, style, out)?;
    Ok(NamePlace { start, end })
}

/// Prints as [`print_styled`](crate::print_styled) does, and returns where the name of the symbol stands, or `None` if
/// the declaration has more than `max` bytes.
///
/// Fails only if an allocation fails; `out` is then unspecified.
#[cold]
pub fn print_named<'a, 'b, W: Wording, B: Allocator, A: Allocator>(
    arena: &'b Bump<B>,
    symbol: &'b TypedSymbol<'a, 'b>,
    style: Style<W>,
    max: usize,
    out: &mut Text<A>,
) -> Result<Option<NamePlace>, AllocError>
    ensures printed { IfOk result (λ found.
        IsPrintedWithin max (declaration (typed_symbol_of symbol.now) style.bits) (is_some found) out.new.text) }
    ensures named { IfOk result (λ found. IfSome found (λ place.
        IsNamePlace (typed_symbol_of symbol.now) style.bits place)) }
    ensures unlimited { IfOk result (λ found. max ≡ usize.MAX → is_some found ≡ true) }
{
    out.clear(max);
    let place = print_around_name(arena, symbol, style, out)?;
    if out.is_whole() {
        return Ok(Some(place));
    }
    if max == usize::MAX {
        // No allocation has so many bytes.
        return Err(AllocError);
    }
    Ok(None)
}
