//! Prints shapes by the layouts of the table of shapes: writes the slots that have no name and no type in them, and
//! pushes the rest.
#![tactic(auto, using(crate::proofs::Stack::pushes))]

ghost use Rattle.std.specs.Prelude.{[], drop, Some, None, IfOk, OnOk, true, false, ◌≡◌, ◌+◌, ◌++◌};
ghost use Rattle.msvc_nodes.specs.NodeView.{name_of, names_in, type_of, types_in};
ghost use Rattle.msvc_print.specs.Declaration.{each_name, each_type, name_pieces};
ghost use Rattle.msvc_print.specs.Functions.{comma as comma_pieces};
ghost use Rattle.msvc_print.specs.Halves.{after, before};
ghost use Rattle.msvc_print.specs.Limited.{Writes};
ghost use Rattle.msvc_print.specs.ShapeNodes.{part_slot_pieces, parts_of, rest_of_slots, rest_weight, shape_of};
ghost use Rattle.msvc_print.specs.ShapeNodes.{parts_weight, slot_of};
ghost use Rattle.msvc_print.specs.Shapes as spec;
ghost use Rattle.msvc_print.specs.Weights.{name_weight, scope_weight, type_weight, types_weight};
ghost use Rattle.msvc_print.specs.Work.{AddsAtMost, Keeps, Lightens, Prints, Pushes};
ghost use Rattle.msvc_print.specs.declared.shapes.PartSlot.{PartSlot as PartSlotCode};
ghost use Rattle.msvc_shapes.specs.Layouts as layouts;
ghost use Rattle.msvc_print.specs.declared.pointed.Pointed.TheVariants.{No};

use crate::function_types::{comma, hides_kind, write_separator};
use crate::hexadecimal::write_hexadecimal;
use crate::item::{Item, push};
use crate::pointed::{Pointed, is_unaligned_shape, under};
use crate::printer::Printer;
use crate::spaces::{
    write_closing, write_mark, write_opening, write_pointer_qualifiers, write_qualifiers,
    write_table_qualifiers, write_unaligned,
};
use crate::strings::write_string;
use crate::style::{Style, Wording};
use crate::text::{Text, write_number, write_text};
use crate::types::push_suffix;
use msvc_nodes::nodes::{Name, Number, Shape, Type};
use msvc_shapes::layouts::{Side, Slot, around, slots};
use std::alloc::{AllocError, Allocator};

/// Tells which names or types a slot prints that has some in it.
#[derive(Clone, Copy)]
pub enum PartSlot<'t> {
    /// Prints the name at this place, as that of a symbol itself.
    Symbol(usize),
    /// Prints the name at this place, as in a scope.
    Name(usize),
    /// Prints all names as in a scope, parted by these bytes.
    Names(&'t [u8]),
    /// Prints the type at this place, around nothing.
    Type(usize),
    /// Prints all types from this place on, each around nothing, parted by commas.
    Types(usize),
}

/// Writes a number in decimal, after a minus if it has one.
fn write_signed<A: Allocator>(out: &mut Text<A>, number: Number) -> Result<(), AllocError>
    ensures { OnOk result (Writes (spec.number_pieces number) out.old out.new) }
{
    if number.is_negative {
        write_text(out, b"-")?;
    }
    write_number(out, number.value)
}

/// Writes the number at a place, if there is one.
fn write_number_at<A: Allocator>(
    out: &mut Text<A>,
    numbers: &[Number],
    at: usize,
) -> Result<(), AllocError>
    ensures { OnOk result (Writes (spec.number_at numbers.now at) out.old out.new) }
{
    if at >= numbers.len() {
        return Ok(());
    }
    write_signed(out, numbers[at])
}

/// Writes the length of a level of an array in brackets, which are empty if it is 0.
fn write_level<A: Allocator>(out: &mut Text<A>, length: Number) -> Result<(), AllocError>
    ensures { OnOk result (Writes (spec.level_pieces length) out.old out.new) }
{
    write_text(out, b"[")?;
    if length.value != 0 {
        write_signed(out, length)?;
    }
    write_text(out, b"]")
}

/// Writes the lengths of the levels of an array.
fn write_levels<A: Allocator>(out: &mut Text<A>, lengths: &[Number]) -> Result<(), AllocError>
    ensures { OnOk result (Writes (spec.each_level lengths.now) out.old out.new) }
{
    let mut at = 0;
    'levels: while at < lengths.len() {
        write_level(out, lengths[at])?;
        at += 1;
    }
    Ok(())
}

/// Writes all numbers, with a comma before each but the first.
fn write_numbers<W: Wording, A: Allocator>(
    out: &mut Text<A>,
    numbers: &[Number],
    flags: Style<W>,
) -> Result<(), AllocError>
    ensures { OnOk result (Writes (spec.each_number numbers.now true flags.bits) out.old out.new) }
{
    let mut at = 0;
    'numbers: while at < numbers.len() {
        write_separator(out, at == 0, flags)?;
        write_signed(out, numbers[at])?;
        at += 1;
    }
    Ok(())
}

/// Writes a number in braces, unless it is 0.
fn write_index<A: Allocator>(out: &mut Text<A>, number: Number) -> Result<(), AllocError>
    ensures { OnOk result (Writes (spec.index_pieces number) out.old out.new) }
{
    if number.value == 0 {
        return Ok(());
    }
    write_text(out, b"{")?;
    write_signed(out, number)?;
    write_text(out, b"}")
}

/// Writes the number at a place in braces, if there is one and it is not 0.
fn write_index_at<A: Allocator>(
    out: &mut Text<A>,
    numbers: &[Number],
    at: usize,
) -> Result<(), AllocError>
    ensures { OnOk result (Writes (spec.index_at numbers.now at) out.old out.new) }
{
    if at >= numbers.len() {
        return Ok(());
    }
    write_index(out, numbers[at])
}

/// Writes a comma and a number, unless it is 1.
fn write_rank<W: Wording, A: Allocator>(
    out: &mut Text<A>,
    number: Number,
    flags: Style<W>,
) -> Result<(), AllocError>
    ensures { OnOk result (Writes (spec.rank_pieces number flags.bits) out.old out.new) }
{
    if number.value == 1 {
        return Ok(());
    }
    write_text(out, comma(flags))?;
    write_signed(out, number)
}

/// Writes a comma and the number at a place, if there is one and it is not 1.
fn write_rank_at<W: Wording, A: Allocator>(
    out: &mut Text<A>,
    numbers: &[Number],
    at: usize,
    flags: Style<W>,
) -> Result<(), AllocError>
    ensures { OnOk result (Writes (spec.rank_at numbers.now at flags.bits) out.old out.new) }
{
    if at >= numbers.len() {
        return Ok(());
    }
    write_rank(out, numbers[at], flags)
}

/// Writes the number at a place in hexadecimal, if there is one.
fn write_hexadecimal_at<A: Allocator>(
    out: &mut Text<A>,
    numbers: &[Number],
    at: usize,
) -> Result<(), AllocError>
    ensures { OnOk result (Writes (spec.hexadecimal_at numbers.now at) out.old out.new) }
{
    if at >= numbers.len() {
        return Ok(());
    }
    write_hexadecimal(out, numbers[at].value)
}

/// Writes a word, unless there are no names.
fn write_names_word<'a, 'b, A: Allocator>(
    out: &mut Text<A>,
    word: &[u8],
    names: &'b [&'b Name<'a, 'b>],
) -> Result<(), AllocError>
    ensures { OnOk result (Writes (spec.names_word_pieces word.now names.now) out.old out.new) }
{
    match names {
        [] => Ok(()),
        [..] => write_text(out, word),
    }
}

/// Writes a word, unless a flag drops it as it drops `static`.
fn write_kind_word<W: Wording, A: Allocator>(
    out: &mut Text<A>,
    word: &[u8],
    pointed: Pointed,
    flags: Style<W>,
) -> Result<(), AllocError>
    ensures { OnOk result (Writes (spec.kind_word_pieces word.now pointed flags.bits) out.old out.new) }
{
    if hides_kind(pointed, flags) {
        return Ok(());
    }
    write_text(out, word)
}

/// Writes a slot that has no name and no type in it, or else returns which it has.
#[tactic(auto, using(crate::proofs::ShapePieces::slot_writing), unfolding(crate::specs::Shapes::slot_pieces))]
fn write_slot<'a, 'b, W: Wording, A: Allocator>(
    out: &mut Text<A>,
    slot: Slot<'b>,
    shape: &'b Shape<'a, 'b>,
    pointed: Pointed,
    flags: Style<W>,
) -> Result<Option<PartSlot<'b>>, AllocError>
    ensures written { IfOk result (λ names. names ≡ None → Writes
        (spec.slot_pieces (layouts.slot_seen slot.entry) pointed (parts_of shape.now flags.bits) flags.bits)
        out.old out.new) }
    ensures same { IfOk result (λ names. (s : PartSlotCode) → names ≡ Some s → out.new ≡ out.old) }
    ensures named { IfOk result (λ names. (s : PartSlotCode) → names ≡ Some s →
        layouts.slot_seen slot.entry ≡ slot_of s) }
{
    match slot {
        Slot::Word(word) => write_text(out, word)?,
        Slot::KindWord(word) => write_kind_word(out, word, pointed, flags)?,
        Slot::Number(at) => write_number_at(out, shape.numbers, at)?,
        Slot::Lengths => write_levels(out, shape.numbers)?,
        Slot::Qualifiers => write_qualifiers(out, shape.qualifiers, flags)?,
        Slot::PointerQualifiers => write_pointer_qualifiers(out, shape.qualifiers, flags)?,
        Slot::Unaligned => write_unaligned(out, is_unaligned_shape(shape, flags), flags)?,
        Slot::Mark(word) => write_mark(
            out,
            word,
            shape.qualifiers,
            is_unaligned_shape(shape, flags),
            flags,
        )?,
        Slot::Opening => write_opening(out, pointed, flags)?,
        Slot::Closing => write_closing(out, pointed)?,
        Slot::Symbol(at) => return Ok(Some(PartSlot::Symbol(at))),
        Slot::Name(at) => return Ok(Some(PartSlot::Name(at))),
        Slot::NamesWord(word) => write_names_word(out, word, shape.names)?,
        Slot::Names(between) => return Ok(Some(PartSlot::Names(between))),
        Slot::Type(at) => return Ok(Some(PartSlot::Type(at))),
        Slot::Types(at) => return Ok(Some(PartSlot::Types(at))),
        Slot::Numbers => write_numbers(out, shape.numbers, flags)?,
        Slot::Comma => write_separator(out, false, flags)?,
        Slot::Index(at) => write_index_at(out, shape.numbers, at)?,
        Slot::Rank(at) => write_rank_at(out, shape.numbers, at, flags)?,
        Slot::Hexadecimal(at) => write_hexadecimal_at(out, shape.numbers, at)?,
        Slot::Bytes => write_text(out, shape.text)?,
        Slot::TableQualifiers => write_table_qualifiers(out, shape.qualifiers)?,
        Slot::Literal(is_wide) => write_string(out, is_wide, shape.numbers)?,
    }
    Ok(None)
}

/// Pushes a name of a list, if the list has one at this place.
fn push_name_at<'a, 'b, W: Wording, S: Allocator>(
    stack: &mut Vec<Item<'a, 'b>, S>,
    names: &'b [&'b Name<'a, 'b>],
    at: usize,
    of_symbol: bool,
    flags: Style<W>,
) -> Result<(), AllocError>
    ensures text { OnOk result (Pushes (spec.pieces_at (each_name (names_in names.now) of_symbol flags.bits) at)
        flags.bits stack.old.items stack.new.items) }
    ensures lighter { OnOk result (AddsAtMost (scope_weight (names_in names.now)) stack.old.items stack.new.items) }
{
    if at >= names.len() {
        return Ok(());
    }
    push(stack, Item::Name(names[at], of_symbol))
}

/// Pushes a name as in a scope, with a word before it unless it is the first.
fn push_parted_name<'a, 'b, W: Wording, S: Allocator>(
    stack: &mut Vec<Item<'a, 'b>, S>,
    name: &'b Name<'a, 'b>,
    between: &'b [u8],
    first: bool,
    flags: Style<W>,
) -> Result<(), AllocError>
    ensures text { OnOk result (Pushes (spec.parting between.now first ++ name_pieces (name_of name.now) false
        flags.bits) flags.bits stack.old.items stack.new.items) }
    ensures lighter { OnOk result (AddsAtMost (1 + name_weight (name_of name.now)) stack.old.items stack.new.items) }
{
    push(stack, Item::Name(name, false))?;
    if first {
        return Ok(());
    }
    push(stack, Item::Text(between))
}

/// Pushes names as in a scope, parted by a word, the last first.
fn push_names<'a, 'b, W: Wording, S: Allocator>(
    stack: &mut Vec<Item<'a, 'b>, S>,
    names: &'b [&'b Name<'a, 'b>],
    between: &'b [u8],
    flags: Style<W>,
) -> Result<(), AllocError>
    ensures text { OnOk result (Pushes (spec.parted between.now (each_name (names_in names.now) false flags.bits) true)
        flags.bits stack.old.items stack.new.items) }
    ensures lighter { OnOk result (AddsAtMost (scope_weight (names_in names.now)) stack.old.items stack.new.items) }
{
    let mut at = names.len();
    'names: while at > 0 {
        at -= 1;
        push_parted_name(stack, names[at], between, at == 0, flags)?;
    }
    Ok(())
}

/// Pushes a type around nothing.
fn push_type<'a, 'b, W: Wording, S: Allocator>(
    stack: &mut Vec<Item<'a, 'b>, S>,
    t: &'b Type<'a, 'b>,
    flags: Style<W>,
) -> Result<(), AllocError>
    ensures text { OnOk result (Pushes
        (before (type_of t.now) No flags.bits ++ after (type_of t.now) No flags.bits)
        flags.bits stack.old.items stack.new.items) }
    ensures lighter { OnOk result (AddsAtMost (type_weight (type_of t.now) + type_weight (type_of t.now))
        stack.old.items stack.new.items) }
{
    push(stack, Item::After(t, Pointed::No))?;
    push(stack, Item::Before(t, Pointed::No))
}

/// Pushes a type of a list around nothing, if the list has one at this place.
fn push_type_at<'a, 'b, W: Wording, S: Allocator>(
    stack: &mut Vec<Item<'a, 'b>, S>,
    types: &'b [&'b Type<'a, 'b>],
    at: usize,
    flags: Style<W>,
) -> Result<(), AllocError>
    ensures text { OnOk result (Pushes (spec.pieces_at (each_type (types_in types.now) flags.bits) at)
        flags.bits stack.old.items stack.new.items) }
    ensures lighter { OnOk result (AddsAtMost (types_weight (types_in types.now)) stack.old.items stack.new.items) }
{
    if at >= types.len() {
        return Ok(());
    }
    push_type(stack, types[at], flags)
}

/// Pushes a type around nothing, with a word before it unless it is the first.
fn push_parted_type<'a, 'b, W: Wording, S: Allocator>(
    stack: &mut Vec<Item<'a, 'b>, S>,
    t: &'b Type<'a, 'b>,
    word: &'b [u8],
    first: bool,
    flags: Style<W>,
) -> Result<(), AllocError>
    ensures text { OnOk result (Pushes (spec.parting word.now first
        ++ (before (type_of t.now) No flags.bits ++ after (type_of t.now) No flags.bits))
        flags.bits stack.old.items stack.new.items) }
    ensures lighter { OnOk result (AddsAtMost (1 + type_weight (type_of t.now) + type_weight (type_of t.now))
        stack.old.items stack.new.items) }
{
    push(stack, Item::After(t, Pointed::No))?;
    push(stack, Item::Before(t, Pointed::No))?;
    if first {
        return Ok(());
    }
    push(stack, Item::Text(word))
}

/// Pushes types around nothing, parted by a word, the last first.
fn push_types<'a, 'b, W: Wording, S: Allocator>(
    stack: &mut Vec<Item<'a, 'b>, S>,
    types: &'b [&'b Type<'a, 'b>],
    between: &'b [u8],
    flags: Style<W>,
) -> Result<(), AllocError>
    ensures text { OnOk result (Pushes (spec.parted between.now (each_type (types_in types.now) flags.bits) true)
        flags.bits stack.old.items stack.new.items) }
    ensures lighter { OnOk result (AddsAtMost (types_weight (types_in types.now)) stack.old.items stack.new.items) }
{
    let mut at = types.len();
    'types: while at > 0 {
        at -= 1;
        push_parted_type(stack, types[at], between, at == 0, flags)?;
    }
    Ok(())
}

/// Pushes the types of a list from a place on around nothing, parted by commas.
fn push_types_from<'a, 'b, W: Wording, S: Allocator>(
    stack: &mut Vec<Item<'a, 'b>, S>,
    types: &'b [&'b Type<'a, 'b>],
    at: usize,
    flags: Style<W>,
) -> Result<(), AllocError>
    ensures text { OnOk result (Pushes (spec.parted (comma_pieces flags.bits)
        (drop at (each_type (types_in types.now) flags.bits)) true) flags.bits stack.old.items stack.new.items) }
    ensures lighter { OnOk result (AddsAtMost (types_weight (types_in types.now)) stack.old.items stack.new.items) }
{
    if at >= types.len() {
        return Ok(());
    }
    push_types(stack, &types[at..], comma(flags), flags)
}

/// Pushes the names or the types that a slot prints.
fn push_part_slot<'a, 'b, W: Wording, S: Allocator>(
    stack: &mut Vec<Item<'a, 'b>, S>,
    names: &'b [&'b Name<'a, 'b>],
    types: &'b [&'b Type<'a, 'b>],
    slot: PartSlot<'b>,
    flags: Style<W>,
) -> Result<(), AllocError>
    ensures text { OnOk result (Pushes
        (part_slot_pieces slot.entry (names_in names.now) (types_in types.now) flags.bits)
        flags.bits stack.old.items stack.new.items) }
    ensures lighter { OnOk result (AddsAtMost (parts_weight (names_in names.now) (types_in types.now)) stack.old.items
        stack.new.items) }
{
    match slot {
        PartSlot::Symbol(at) => push_name_at(stack, names, at, true, flags),
        PartSlot::Name(at) => push_name_at(stack, names, at, false, flags),
        PartSlot::Names(between) => push_names(stack, names, between, flags),
        PartSlot::Type(at) => push_type_at(stack, types, at, flags),
        PartSlot::Types(at) => push_types_from(stack, types, at, flags),
    }
}

impl<'a, 'b, 't, W: Wording, S: Allocator, A: Allocator> Printer<'a, 'b, 't, W, S, A> {
    /// Prints a side of a shape from a slot on: writes slots up to the first that has names or types in it, and pushes
    /// these and the rest.
    #[cold]
    #[inline(never)]
    pub fn print_slots(
        &mut self,
        shape: &'b Shape<'a, 'b>,
        side: Side,
        pointed: Pointed,
        at: usize,
    ) -> Result<(), AllocError>
        ensures text { OnOk result (Prints (rest_of_slots shape.now side pointed at self.old.flags.bits)
            self.old self.new) }
        ensures lighter { OnOk result (Lightens (rest_weight shape.now side at) self.old self.new) }
        ensures kept { Keeps self.old self.new }
    {
        let slots = slots(shape.row, side);
        let mut at = at;
        'slots: while at < slots.len() {
            let slot = slots[at];
            at += 1;
            match write_slot(self.out, slot, shape, pointed, self.flags)? {
                None => {}
                Some(parts) => {
                    push(self.stack, Item::Slots(shape, side, pointed, at))?;
                    return push_part_slot(self.stack, shape.names, shape.types, parts, self.flags);
                }
            }
        }
        Ok(())
    }

    /// Prints what a shape, and the type around it, have before the name.
    #[cold]
    #[inline(never)]
    pub fn print_shape_prefix(
        &mut self,
        shape: &'b Shape<'a, 'b>,
        pointed: Pointed,
    ) -> Result<(), AllocError>
        ensures text { OnOk result (Prints (before (shape_of shape.now) pointed self.old.flags.bits) self.old
            self.new) }
        ensures lighter { OnOk result (Lightens (type_weight (shape_of shape.now)) self.old self.new) }
        ensures kept { Keeps self.old self.new }
    {
        match around(shape.row) {
            None => self.print_slots(shape, Side::Left, pointed, 0),
            Some(is_mark) => match shape.types {
                [] => self.print_slots(shape, Side::Left, pointed, 0),
                [first, ..] => {
                    push(self.stack, Item::Slots(shape, Side::Left, pointed, 0))?;
                    let beneath = under(pointed, is_mark, shape.qualifiers, self.flags);
                    self.print_inner(*first, beneath)
                }
            },
        }
    }

    /// Prints what a shape, and the type around it, have after the name.
    #[cold]
    #[inline(never)]
    pub fn print_shape_suffix(
        &mut self,
        shape: &'b Shape<'a, 'b>,
        pointed: Pointed,
    ) -> Result<(), AllocError>
        ensures text { OnOk result (Prints (after (shape_of shape.now) pointed self.old.flags.bits) self.old self.new) }
        ensures lighter { OnOk result (Lightens (type_weight (shape_of shape.now)) self.old self.new) }
        ensures kept { Keeps self.old self.new }
    {
        match around(shape.row) {
            None => self.print_slots(shape, Side::Right, pointed, 0),
            Some(is_mark) => match shape.types {
                [] => self.print_slots(shape, Side::Right, pointed, 0),
                [first, ..] => {
                    let beneath = under(pointed, is_mark, shape.qualifiers, self.flags);
                    push_suffix(self.stack, *first, beneath, self.flags)?;
                    self.print_slots(shape, Side::Right, pointed, 0)
                }
            },
        }
    }
}
