//! The printer: its state, its loop over the stack, and one step for each item.

ghost use Rattle.std.specs.Prelude.{◌≡◌, ◌<◌, OnOk, IfOk, Some, true};
ghost use Rattle.msvc_nodes.specs.NodeView.{typed_symbol_of};
ghost use Rattle.msvc_print.specs.Declaration.{declaration};
ghost use Rattle.msvc_print.specs.Flags.{full_style};
ghost use Rattle.msvc_print.specs.Limited.{Writes};
ghost use Rattle.msvc_print.specs.SymbolNodes.{part_of};
ghost use Rattle.msvc_print.specs.Within.{IsPrintedWithin};
ghost use Rattle.msvc_print.specs.Work.{Keeps, Lightens, Prints, finished_after, item_pieces, item_weight};

use crate::function_types::write_calling;
use crate::item::Item;
use crate::operators::write_spaced_word;
use crate::sides::{Part, push_part};
use crate::spaces::{write_mark, write_qualifiers};
use crate::style::{Style, Wording};
use crate::text::{Text, write_text};
use crate::types::write_array_prefix;
use bumpalo::Bump;
use msvc_nodes::flags::DemangleFlags;
use msvc_nodes::nodes::TypedSymbol;
use msvc_nodes::sizes::first_items;
use std::alloc::{AllocError, Allocator};

/// The state of the printer. Both parts are borrowed: of a struct that owns memory, the prover does not learn what a
/// reference in it held at its end.
#[derive(Drop)]
pub struct Printer<'a, 'b, 't, W: Wording, S: Allocator, A: Allocator> {
    /// The items that are not printed yet. The last one is printed next.
    pub stack: &'t mut Vec<Item<'a, 'b>, S>,
    /// The text that pieces are written to.
    pub out: &'t mut Text<A>,
    /// The flags and the style that the symbol is printed under. They stay as they are.
    pub flags: Style<W>,
}

impl<'a, 'b, 't, W: Wording, S: Allocator, A: Allocator> Printer<'a, 'b, 't, W, S, A> {
    /// Prints one item of the stack.
    fn print_item(&mut self, item: Item<'a, 'b>) -> Result<(), AllocError>
        ensures text { OnOk result (Prints (item_pieces item.entry self.old.flags.bits) self.old self.new) }
        ensures lighter { OnOk result (Lightens (item_weight item.entry) self.old self.new) }
        ensures kept { Keeps self.old self.new }
    {
        match item {
            Item::Text(bytes) => write_text(self.out, bytes),
            Item::Name(name, of_symbol) => self.print_name(name, of_symbol),
            Item::Scope(scope) => self.print_scope(scope.names),
            Item::Symbol(symbol, symbol_type) => self.print_qualified_name(symbol, symbol_type),
            Item::Class(class) => self.print_member_pointer_class(class),
            Item::Spaced(word) => write_spaced_word(self.out, word),
            Item::Qualifiers(qualifiers) => write_qualifiers(self.out, qualifiers, self.flags),
            Item::Mark(word, qualifiers, is_unaligned) => write_mark(
                self.out,
                word,
                qualifiers,
                is_unaligned,
                self.flags,
            ),
            Item::ArrayLevel(qualifiers, pointed) => write_array_prefix(
                self.out, qualifiers, pointed, self.flags,
            ),
            Item::Calling(pointed, convention) => write_calling(
                self.out, pointed, convention, self.flags,
            ),
            Item::Parameters(list) => self.print_parameters(list.types, list.first, list.end),
            Item::Before(t, pointed) => self.print_prefix(t, pointed),
            Item::After(t, pointed) => self.print_suffix(t, pointed),
            Item::Slots(shape, side, pointed, at) => self.print_slots(shape, side, pointed, at),
        }
    }

    /// Prints the items of the stack, the last first, until none is left or `out` is not whole.
    fn run(&mut self) -> Result<(), AllocError>
        ensures text { OnOk result (self.new.out.now ≡ finished_after self.old self.old.out.now) }
        ensures kept { Keeps self.old self.new }
    {
        'items: while self.out.is_whole() {
            let Some(item) = self.stack.pop() else {
                return Ok(());
            };
            self.print_item(item)?;
        }
        Ok(())
    }
}

/// Prints a part of a symbol after the text of `out`. The stack of the printer is in `arena`.
///
/// Fails only if an allocation fails; `out` is then unspecified.
pub fn print_part<'a, 'b, W: Wording, B: Allocator, A: Allocator>(
    arena: &'b Bump<B>,
    symbol: &'b TypedSymbol<'a, 'b>,
    part: Part,
    style: Style<W>,
    out: &mut Text<A>,
) -> Result<(), AllocError>
    ensures { OnOk result (Writes (part_of symbol.now part style.bits) out.old out.new) }
{
    let mut stack = Vec::with_capacity(arena, first_items(arena.chunk_capacity()))?;
    push_part(&mut stack, symbol, part, style)?;
    let mut printer = Printer {
        stack: &mut stack,
        out,
        flags: style,
    };
    printer.run()
}

/// Replaces the text of `out` with the declaration of `symbol` under `flags`. The stack of the printer is in `arena`.
///
/// Fails only if an allocation fails; `out` is then unspecified.
pub fn print<'a, 'b, B: Allocator, A: Allocator>(
    arena: &'b Bump<B>,
    symbol: &'b TypedSymbol<'a, 'b>,
    flags: DemangleFlags,
    out: &mut Text<A>,
) -> Result<(), AllocError>
    ensures text { OnOk result (out.new.text ≡ Some (declaration (typed_symbol_of symbol.now) flags.0)) }
    ensures narrow { flags.0 < full_style }
{
    print_within(arena, symbol, flags, usize::MAX, out)?;
    Ok(())
}

/// Prints as [`print`] does, if the declaration has at most `max` bytes, and returns whether it has. If it is longer,
/// `out` is not whole: a piece that would exceed `max` bytes is not written, and printing ends after the step that it
/// is a part of. `usize::MAX` is no limit.
///
/// Fails only if an allocation fails; `out` is then unspecified.
pub fn print_within<'a, 'b, B: Allocator, A: Allocator>(
    arena: &'b Bump<B>,
    symbol: &'b TypedSymbol<'a, 'b>,
    flags: DemangleFlags,
    max: usize,
    out: &mut Text<A>,
) -> Result<bool, AllocError>
    ensures printed { IfOk result (λ within.
        IsPrintedWithin max (declaration (typed_symbol_of symbol.now) flags.0) within out.new.text) }
    ensures unlimited { IfOk result (λ within. max ≡ usize.MAX → within ≡ true) }
    ensures narrow { flags.0 < full_style }
{
    print_styled(arena, symbol, Style::new(flags), max, out)
}

/// Prints as [`print_within`] does, in any style.
///
/// Fails only if an allocation fails; `out` is then unspecified.
#[inline(always)]
pub fn print_styled<'a, 'b, W: Wording, B: Allocator, A: Allocator>(
    arena: &'b Bump<B>,
    symbol: &'b TypedSymbol<'a, 'b>,
    style: Style<W>,
    max: usize,
    out: &mut Text<A>,
) -> Result<bool, AllocError>
    ensures printed { IfOk result (λ within.
        IsPrintedWithin max (declaration (typed_symbol_of symbol.now) style.bits) within out.new.text) }
    ensures unlimited { IfOk result (λ within. max ≡ usize.MAX → within ≡ true) }
{
    out.clear(max);
    print_part(arena, symbol, Part::All, style, out)?;
    let within = out.is_whole();
    if !within && max == usize::MAX {
        // No allocation has so many bytes.
        return Err(AllocError);
    }
    Ok(within)
}
