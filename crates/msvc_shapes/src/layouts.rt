//! Holds the layouts of shapes: what each row of the table prints, as data.
#![tactic(auto, unfolding(crate::specs::Layouts::layout_of, crate::specs::Layouts::slots))]

ghost use Rattle.std.specs.Prelude.{◌≡◌};
ghost use Rattle.msvc_shapes.specs.Layouts as spec;

use crate::rows::*;

/// Tells on which side of a name a shape prints slots.
#[derive(Clone, Copy)]
pub enum Side {
    /// Before the name, after what the type that the shape is inside of has there.
    Left,
    /// After the name, before what that type has there.
    Right,
}

/// Tells what a piece of a layout prints.
#[derive(Clone, Copy)]
pub enum Slot<'t> {
    /// Prints fixed bytes.
    Word(&'t [u8]),
    /// Prints fixed bytes that NO_MEMBER_TYPE drops, as it drops `static` and `virtual`.
    KindWord(&'t [u8]),
    /// Prints the number at this place.
    Number(usize),
    /// Prints each number in brackets, as the lengths of the levels of an array; 0 as `[]`.
    Lengths,
    /// Prints the qualifiers of a type that is no pointer.
    Qualifiers,
    /// Prints the qualifiers of a pointer, after its mark.
    PointerQualifiers,
    /// Prints the `__unaligned` of a pointer, before its mark.
    Unaligned,
    /// Prints this mark of a pointer, with the space before it and the qualifiers of the pointer.
    Mark(&'t [u8]),
    /// Prints the parenthesis before the mark of a pointer to the shape.
    Opening,
    /// Prints the parenthesis that closes it.
    Closing,
    /// Prints the name at this place, as that of a symbol itself.
    Symbol(usize),
    /// Prints the name at this place, as in a scope.
    Name(usize),
    /// Prints all numbers, parted by commas.
    Numbers,
    /// Prints a comma.
    Comma,
    /// Prints the number at this place in braces; nothing if it is 0.
    Index(usize),
    /// Prints a comma and the number at this place; nothing if it is 1.
    Rank(usize),
    /// Prints the number at this place in hexadecimal, in capital letters and without its sign.
    Hexadecimal(usize),
    /// Prints the bytes of the shape.
    Bytes,
    /// Prints the qualifiers of a table, with no space before them.
    TableQualifiers,
    /// Prints fixed bytes if the shape has names.
    NamesWord(&'t [u8]),
    /// Prints all names as in a scope, parted by these bytes.
    Names(&'t [u8]),
    /// Prints the type at this place, around nothing.
    Type(usize),
    /// Prints all types from this place on, each around nothing, parted by commas.
    Types(usize),
    /// Prints a string by the numbers: its length, and the bytes that were read. The flag says whether its characters
    /// are wide.
    Literal(bool),
}

/// Holds the layout of a row.
#[derive(Clone, Copy)]
struct Layout<'t> {
    /// Tells whether type 0 of the shape is printed around it, and then whether the shape stands under that type as the
    /// mark of a pointer does.
    around: Option<bool>,
    /// Holds what the shape prints before the name.
    left: &'t [Slot<'t>],
    /// Holds what the shape prints after the name.
    right: &'t [Slot<'t>],
}

/// Returns the layout of a row that has nothing around it and nothing after the name.
fn before<'t>(left: &'t [Slot<'t>]) -> Layout<'t>
    ensures { spec.layout_seen result ≡ spec.before (spec.slots_seen left.now) }
{
    Layout {
        around: None,
        left,
        right: &[],
    }
}

/// Returns the layout of a row that has type 0 around it and is no mark of a pointer.
fn inside<'t>(left: &'t [Slot<'t>], right: &'t [Slot<'t>]) -> Layout<'t>
    ensures { spec.layout_seen result ≡ spec.inside (spec.slots_seen left.now) (spec.slots_seen right.now) }
{
    Layout {
        around: Some(false),
        left,
        right,
    }
}

/// Returns the layout of a row that stands under type 0 as the mark of a pointer does.
fn pointer<'t>(left: &'t [Slot<'t>]) -> Layout<'t>
    ensures { spec.layout_seen result ≡ spec.pointer (spec.slots_seen left.now) }
{
    Layout {
        around: Some(true),
        left,
        right: &[],
    }
}

/// Returns the layout of a row, an empty one if there is no such row.
#[inline(always)]
fn layout_of<'t>(row: u8) -> Layout<'t>
    ensures { spec.layout_seen result ≡ spec.layout_of row }
{
    match row {
        INTEGER => before(&[Slot::Number(0)]),
        CUSTOM => before(&[Slot::Name(0), Slot::Qualifiers]),
        NULLPTR => before(&[Slot::Word(b"std::nullptr_t"), Slot::Qualifiers]),
        ARRAYS => inside(
            &[Slot::Qualifiers, Slot::Opening],
            &[Slot::Closing, Slot::Lengths],
        ),
        MEMBER_POINTER => pointer(&[
            Slot::Unaligned,
            Slot::Symbol(0),
            Slot::Word(b"::*"),
            Slot::PointerQualifiers,
        ]),
        EXTERN_C => before(&[Slot::KindWord(b"extern \"C\" ")]),
        FRAME => before(&[
            Slot::Word(b"`"),
            Slot::Symbol(0),
            Slot::Word(b"'::`"),
            Slot::Number(0),
            Slot::Word(b"'"),
        ]),
        LITERAL_OPERATOR => before(&[Slot::Word(b"operator \"\""), Slot::Name(0)]),
        SPACESHIP => before(&[Slot::Word(b"operator<=>")]),
        ADDRESS => before(&[Slot::Word(b"&"), Slot::Symbol(0)]),
        OBJECT => before(&[Slot::Symbol(0)]),
        OFFSETS => before(&[Slot::Word(b"{"), Slot::Numbers, Slot::Word(b"}")]),
        SYMBOL_OFFSETS => before(&[
            Slot::Word(b"{"),
            Slot::Symbol(0),
            Slot::Comma,
            Slot::Numbers,
            Slot::Word(b"}"),
        ]),
        TYPED => inside(&[], &[]),
        ADJUSTOR => inside(
            &[],
            &[Slot::Word(b"`adjustor{"), Slot::Numbers, Slot::Word(b"}'")],
        ),
        VTORDISP => inside(
            &[],
            &[Slot::Word(b"`vtordisp{"), Slot::Numbers, Slot::Word(b"}'")],
        ),
        VTORDISPEX => inside(
            &[],
            &[
                Slot::Word(b"`vtordispex{"),
                Slot::Numbers,
                Slot::Word(b"}'"),
            ],
        ),
        TABLES => Layout {
            around: None,
            left: &[Slot::TableQualifiers],
            right: &[
                Slot::NamesWord(b"{for "),
                Slot::Names(b"s "),
                Slot::NamesWord(b"}"),
            ],
        },
        TYPE_DESCRIPTOR => before(&[Slot::Word(b"`RTTI Type Descriptor'")]),
        MD5_LOCATOR => before(&[Slot::Word(b"??@"), Slot::Bytes, Slot::Word(b"@??_R4@")]),
        INITIALIZER_OF_NAME => before(&[
            Slot::Word(b"`dynamic initializer for '"),
            Slot::Symbol(0),
            Slot::Word(b"''"),
        ]),
        INITIALIZER_OF_VARIABLE => before(&[
            Slot::Word(b"`dynamic initializer for `"),
            Slot::Symbol(0),
            Slot::Word(b"''"),
        ]),
        DESTRUCTOR_OF_NAME => before(&[
            Slot::Word(b"`dynamic atexit destructor for '"),
            Slot::Symbol(0),
            Slot::Word(b"''"),
        ]),
        DESTRUCTOR_OF_VARIABLE => before(&[
            Slot::Word(b"`dynamic atexit destructor for `"),
            Slot::Symbol(0),
            Slot::Word(b"''"),
        ]),
        STATIC_GUARD => before(&[Slot::Word(b"`local static guard'"), Slot::Index(0)]),
        THREAD_GUARD => before(&[Slot::Word(b"`local static thread guard'"), Slot::Index(0)]),
        STRING_LITERAL => before(&[Slot::Literal(false)]),
        WIDE_STRING_LITERAL => before(&[Slot::Literal(true)]),
        MANAGED_VECTOR_CTOR_ITERATOR => before(&[Slot::Word(b"`managed vector ctor iterator'")]),
        MANAGED_VECTOR_DTOR_ITERATOR => before(&[Slot::Word(b"`managed vector dtor iterator'")]),
        EH_VECTOR_COPY_CTOR_ITERATOR => before(&[Slot::Word(b"`EH vector copy ctor iterator'")]),
        EH_VECTOR_VBASE_COPY_CTOR_ITERATOR => before(&[Slot::Word(
            b"`EH vector vbase copy ctor iterator'",
        )]),
        VECTOR_COPY_CTOR_ITERATOR => before(&[Slot::Word(b"`vector copy ctor iterator'")]),
        VECTOR_VBASE_COPY_CTOR_ITERATOR => before(&[Slot::Word(
            b"`vector vbase copy constructor iterator'",
        )]),
        MANAGED_VECTOR_VBASE_COPY_CTOR_ITERATOR => before(&[Slot::Word(
            b"`managed vector vbase copy constructor iterator'",
        )]),
        TYPE_DESCRIPTOR_NAME => before(&[Slot::Word(b"`RTTI Type Descriptor Name'")]),
        DISPLACEMENT => Layout {
            around: None,
            left: &[],
            right: &[Slot::Word(b"{for "), Slot::Name(0), Slot::Word(b"}")],
        },
        AUTO => before(&[Slot::Word(b"auto"), Slot::Qualifiers]),
        DECLTYPE_AUTO => before(&[Slot::Word(b"decltype(auto)"), Slot::Qualifiers]),
        BLOCK => pointer(&[Slot::Mark(b"^")]),
        HANDLE => pointer(&[Slot::Mark(b"^")]),
        TRACKING => pointer(&[Slot::Mark(b"%")]),
        INTERFACE => before(&[Slot::Word(b"["), Slot::Symbol(0), Slot::Word(b"]")]),
        NULL_MEMBER => before(&[Slot::Word(b"nullptr")]),
        ABSENT => before(&[Slot::Word(b"{}")]),
        MEMBER_OF => before(&[Slot::Word(b"&"), Slot::Names(b"::")]),
        FLOAT => before(&[
            Slot::Word(b"float{0x"),
            Slot::Hexadecimal(0),
            Slot::Word(b"}"),
        ]),
        DOUBLE => before(&[
            Slot::Word(b"double{0x"),
            Slot::Hexadecimal(0),
            Slot::Word(b"}"),
        ]),
        FLOAT16 => before(&[
            Slot::Word(b"_Float16{0x"),
            Slot::Hexadecimal(0),
            Slot::Word(b"}"),
        ]),
        BFLOAT16 => before(&[
            Slot::Word(b"__bf16{0x"),
            Slot::Hexadecimal(0),
            Slot::Word(b"}"),
        ]),
        FLOAT80 => before(&[
            Slot::Word(b"__float80{0x"),
            Slot::Hexadecimal(0),
            Slot::Word(b"}"),
        ]),
        FLOAT128 => before(&[
            Slot::Word(b"__float128{0x"),
            Slot::Hexadecimal(0),
            Slot::Word(b"}"),
        ]),
        IBM128 => before(&[
            Slot::Word(b"__ibm128{0x"),
            Slot::Hexadecimal(0),
            Slot::Word(b"}"),
        ]),
        PIN => before(&[
            Slot::Word(b"cli::pin_ptr<"),
            Slot::Type(0),
            Slot::Word(b">"),
            Slot::Qualifiers,
        ]),
        CLI_ARRAY => before(&[
            Slot::Word(b"cli::array<"),
            Slot::Type(0),
            Slot::Rank(0),
            Slot::Word(b">^"),
            Slot::Qualifiers,
        ]),
        TEMPLATE_OBJECT => before(&[Slot::Type(0)]),
        SUBOBJECT => before(&[Slot::Word(b"&"), Slot::Type(0)]),
        MEMBER => before(&[Slot::Type(0), Slot::Word(b"."), Slot::Name(0)]),
        ELEMENT => before(&[
            Slot::Type(0),
            Slot::Word(b"["),
            Slot::Number(0),
            Slot::Word(b"]"),
        ]),
        AGGREGATE => before(&[Slot::Type(0), Slot::Type(1)]),
        VALUES => before(&[Slot::Word(b"{"), Slot::Types(0), Slot::Word(b"}")]),
        EMPTY_UNION => before(&[Slot::Type(0), Slot::Word(b"{}")]),
        UNION_VALUE => before(&[
            Slot::Type(0),
            Slot::Word(b"{."),
            Slot::Name(0),
            Slot::Word(b" = "),
            Slot::Type(1),
            Slot::Word(b"}"),
        ]),
        CATCH_FUNCLET => before(&[Slot::Word(b"catch$"), Slot::Bytes]),
        DESTRUCTOR_FUNCLET => before(&[Slot::Word(b"dtor$"), Slot::Bytes]),
        FILTER_FUNCLET => before(&[Slot::Word(b"filt$"), Slot::Bytes]),
        FINALLY_FUNCLET => before(&[Slot::Word(b"fin$"), Slot::Bytes]),
        EXPLICIT_THIS => before(&[Slot::Word(b"this "), Slot::Type(0)]),
        _ => before(&[]),
    }
}

/// Returns whether type 0 of a shape of this row is printed around the shape, and then whether the shape stands under
/// that type as the mark of a pointer does.
pub fn around(row: u8) -> Option<bool>
    ensures { result ≡ (spec.layout_of row).around }
{
    layout_of(row).around
}

/// Returns what a shape of this row prints on a side.
#[inline(always)]
pub fn slots<'t>(row: u8, side: Side) -> &'t [Slot<'t>]
    ensures { spec.slots_seen result.now ≡ spec.slots row side }
{
    match side {
        Side::Left => layout_of(row).left,
        Side::Right => layout_of(row).right,
    }
}
