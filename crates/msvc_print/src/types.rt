//! Prints types on both sides of a name: writes the pieces that come first, and pushes what is left.
#![tactic(auto, using(crate::proofs::Nodes::printed), unfolding(crate::specs::Declaration::is_empty_pack, crate::specs::Declaration::is_none, crate::specs::Declaration::returned_end, crate::specs::Declaration::table_end, crate::specs::Halves::after, crate::specs::Halves::before, crate::specs::Weights::type_weight, msvc_nodes::specs::NodeView::type_of))]

ghost use Rattle.std.specs.Prelude.{ℕ, [], ◌∷◌, ◌++◌, ◌+◌, Bool, true, false, IfOk, OnOk, ◌≡◌, codes, cond};
ghost use Rattle.std.specs.Fmt.{signed_decimal};
ghost use Rattle.msvc_nodes.specs.Trees.{plain, numbered};
ghost use Rattle.msvc_nodes.specs.NodeView.{names_in, type_of, types_in};
ghost use Rattle.msvc_nodes.specs.declared.kinds.SpecialTableKind.TheVariants.{Functions};
ghost use Rattle.msvc_print.specs.Declaration as spec;
ghost use Rattle.msvc_print.specs.Functions.{calling, function_qualifier};
ghost use Rattle.msvc_print.specs.Flags.{llvm_no_variable};
ghost use Rattle.msvc_print.specs.Halves.{after, after_called, before, before_called, function_end, member_pointer_end};
ghost use Rattle.msvc_print.specs.Limited.{Writes};
ghost use Rattle.msvc_print.specs.Pieces.{text};
ghost use Rattle.msvc_print.specs.SymbolNodes.{no_type, symbol_name_of, symbol_weight_of};
ghost use Rattle.msvc_print.specs.Weights.{scope_weight, type_weight, types_weight};
ghost use Rattle.msvc_print.specs.Pointed as spec_pointed;
ghost use Rattle.msvc_print.specs.Pointed.{pointed_by, unaligned_mark};
ghost use Rattle.msvc_print.specs.Words.{closing, marked, opening, qualifiers as qualifier_pieces, shown_variable_word};
ghost use Rattle.msvc_print.specs.Work.{AddsAtMost, Keeps, LeavesAtMost, Lightens, Prints, Pushes, rest_of_parameters};
ghost use Rattle.msvc_print.specs.declared.pointed.Pointed.TheVariants.{No};

use crate::function_types::{write_calling, write_list_end, write_member_start, write_separator};
use crate::item::{Item, ListEnd, TypeList, push};
use crate::llvm_flags::{NO_RETURN_TYPE, NO_VARIABLE_TYPE};
use crate::pointed::{Pointed, has_unaligned_mark, leaves_out, passed_on, pointed_by};
use crate::printer::Printer;
use crate::simple_types::{
    write_base, write_simple, write_simple_inner, write_simple_pointer, write_simple_types,
};
use crate::spaces::{write_closing, write_opening, write_qualifiers};
use crate::style::{Style, Wording};
use crate::text::{Text, write_number, write_text};
use crate::words::{mark_word, shown_variable_word, tag_word};
use bitflags::Flags;
use msvc_nodes::flags::StorageClass;
use msvc_nodes::kinds::{Convention, NumberedType, PlainType, SpecialTableKind, VarStorageKind};
use msvc_nodes::nodes::{Function, Name, Symbol, Type};
use std::alloc::{AllocError, Allocator};

impl<'a, 'b, 't, W: Wording, S: Allocator, A: Allocator> Printer<'a, 'b, 't, W, S, A> {
    /// Prints what a type has before the name.
    pub fn print_prefix(&mut self, t: &'b Type<'a, 'b>, pointed: Pointed) -> Result<(), AllocError>
        ensures text { OnOk result (Prints (before (type_of t.now) pointed self.old.flags.bits) self.old self.new) }
        ensures lighter { OnOk result (Lightens (type_weight (type_of t.now)) self.old self.new) }
        ensures kept { Keeps self.old self.new }
    {
        match t {
            Type::Plain(plain) => write_plain(self.out, *plain, pointed, self.flags),
            Type::Base(base, qualifiers) => write_base(self.out, *base, *qualifiers, self.flags),
            Type::Tagged(tag, qualifiers, symbol) => {
                self.print_tagged(tag_word(*tag, self.flags), *symbol, *qualifiers)
            }
            Type::Numbered(kind, number) => write_numbered(
                self.out, *kind, *number, pointed, self.flags,
            ),
            Type::ConstantString(_) => Ok(()),
            Type::Pointing(affinity, qualifiers, inner) => {
                self.print_pointer(mark_word(*affinity), *qualifiers, *inner)
            }
            Type::Array(_, qualifiers, inner) => {
                push(self.stack, Item::ArrayLevel(*qualifiers, pointed))?;
                self.print_inner(*inner, Pointed::No)
            }
            Type::Function(function) => self.print_function(*function, pointed),
            Type::MemberFunction(function) => {
                write_member_start(self.out, pointed, function.class, self.flags)?;
                self.print_function(*function, pointed)
            }
            Type::MemberPointer(class, function) => {
                push(self.stack, Item::Class(*class))?;
                self.print_function(*function, Pointed::Yes)
            }
            Type::Variable(kind, qualifiers, inner) => self.print_variable(
                *inner,
                *kind,
                *qualifiers,
                pointed,
            ),
            Type::Table(_, qualifiers, _) => write_qualifiers(self.out, *qualifiers, self.flags),
            Type::VcallThunk(_, convention) => write_thunk(
                self.out,
                pointed,
                *convention,
                self.flags,
            ),
            Type::Shape(shape) => self.print_shape_prefix(*shape, pointed),
        }
    }

    /// Prints what a base type, a number, a class or an enumeration has before the name. Returns whether the type is
    /// one of these, which have nothing after the name.
    #[inline(always)]
    fn print_innermost(&mut self, t: &'b Type<'a, 'b>) -> Result<bool, AllocError>
        ensures text { IfOk result (λ is. is ≡ true → (pointed : Pointed) →
            Prints (before (type_of t.now) pointed self.old.flags.bits) self.old self.new) }
        ensures ends { IfOk result (λ is. is ≡ true → (pointed : Pointed) →
            after (type_of t.now) pointed self.old.flags.bits ≡ []) }
        ensures lighter { IfOk result (λ is. is ≡ true → Lightens (type_weight (type_of t.now)) self.old self.new) }
        ensures other { IfOk result (λ is. is ≡ false →
            (self.new.stack.now ≡ self.old.stack.now) × (self.new.out.now ≡ self.old.out.now)) }
        ensures kept { Keeps self.old self.new }
    {
        match t {
            Type::Tagged(tag, qualifiers, symbol) => {
                self.print_tagged(tag_word(*tag, self.flags), *symbol, *qualifiers)?;
                Ok(true)
            }
            _ => write_simple_inner(self.out, t, self.flags),
        }
    }

    /// Prints what a type inside another has before the name. Most have no type in them, and are printed at once.
    pub fn print_inner(&mut self, t: &'b Type<'a, 'b>, pointed: Pointed) -> Result<(), AllocError>
        ensures text { OnOk result (Prints (before (type_of t.now) pointed self.old.flags.bits) self.old self.new) }
        ensures lighter { OnOk result (LeavesAtMost (type_weight (type_of t.now)) self.old self.new) }
        ensures kept { Keeps self.old self.new }
    {
        if self.print_innermost(t)? {
            return Ok(());
        }
        push(self.stack, Item::Before(t, pointed))
    }

    /// Prints what a pointer or a reference has before the name.
    fn print_pointer(
        &mut self,
        word: &'b [u8],
        qualifiers: StorageClass,
        inner: &'b Type<'a, 'b>,
    ) -> Result<(), AllocError>
        ensures text { OnOk result (Prints
            (before (type_of inner.now) (pointed_by qualifiers.0 self.old.flags.bits) self.old.flags.bits
            ++ marked (unaligned_mark qualifiers.0 (type_of inner.now) self.old.flags.bits) word.now qualifiers.0
            self.old.flags.bits) self.old self.new) }
        ensures lighter { OnOk result (Lightens (2 + type_weight (type_of inner.now)) self.old self.new) }
        ensures kept { Keeps self.old self.new }
    {
        if write_simple_pointer(self.out, word, qualifiers, inner, self.flags)? {
            return Ok(());
        }
        let is_unaligned = has_unaligned_mark(qualifiers, inner, self.flags);
        push(self.stack, Item::Mark(word, qualifiers, is_unaligned))?;
        self.print_inner(inner, pointed_by(qualifiers, self.flags))
    }

    /// Prints what a function has before its name.
    fn print_function(
        &mut self,
        function: &'b Function<'a, 'b>,
        pointed: Pointed,
    ) -> Result<(), AllocError>
        ensures text { OnOk result (Prints (before_called pointed function.now.convention
            (spec.returned_end (type_of function.now.returned.now) self.old.flags.bits)
            (before (type_of function.now.returned.now) No self.old.flags.bits) self.old.flags.bits)
            self.old self.new) }
        ensures lighter { OnOk result (Lightens (3 + type_weight (type_of function.now.returned.now))
            self.old self.new) }
        ensures kept { Keeps self.old self.new }
    {
        if leaves_out(pointed, NO_RETURN_TYPE, self.flags) {
            return write_calling(self.out, pointed, function.convention, self.flags);
        }
        if !self.out.is_whole() {
            return Ok(());
        }
        if write_simple(self.out, function.returned, self.flags)? {
            write_returned_end(self.out, function.returned, self.flags)?;
            return write_calling(self.out, pointed, function.convention, self.flags);
        }
        push(self.stack, Item::Calling(pointed, function.convention))?;
        push_returned_end(self.stack, function.returned, self.flags)?;
        self.print_inner(function.returned, Pointed::No)
    }

    /// Prints what a variable has before its name: its words, its type, and its qualifiers.
    fn print_variable(
        &mut self,
        inner: &'b Type<'a, 'b>,
        kind: VarStorageKind,
        qualifiers: StorageClass,
        pointed: Pointed,
    ) -> Result<(), AllocError>
        ensures text { OnOk result
            (Prints (text (shown_variable_word pointed kind self.old.flags.bits)
            ∷ cond (spec_pointed.leaves_out pointed llvm_no_variable self.old.flags.bits) []
            (before (type_of inner.now) No self.old.flags.bits
            ++ qualifier_pieces qualifiers.0 self.old.flags.bits)) self.old self.new) }
        ensures lighter { OnOk result (Lightens (3 + type_weight (type_of inner.now)) self.old self.new) }
        ensures kept { Keeps self.old self.new }
    {
        write_text(self.out, shown_variable_word(pointed, kind, self.flags))?;
        if leaves_out(pointed, NO_VARIABLE_TYPE, self.flags) {
            return Ok(());
        }
        push_qualifiers(self.stack, qualifiers, self.flags)?;
        self.print_inner(inner, Pointed::No)
    }

    /// Prints what a type has after the name.
    pub fn print_suffix(&mut self, t: &'b Type<'a, 'b>, pointed: Pointed) -> Result<(), AllocError>
        ensures text { OnOk result (Prints (after (type_of t.now) pointed self.old.flags.bits) self.old self.new) }
        ensures lighter { OnOk result (Lightens (type_weight (type_of t.now)) self.old self.new) }
        ensures kept { Keeps self.old self.new }
    {
        match t {
            Type::Pointing(_, qualifiers, inner) => push_suffix(
                self.stack,
                *inner,
                pointed_by(*qualifiers, self.flags),
                self.flags,
            ),
            Type::Array(length, _, inner) => {
                write_length(self.out, *length, pointed)?;
                push_suffix(self.stack, *inner, Pointed::No, self.flags)
            }
            Type::Function(function) => self.print_function_end(*function, pointed),
            Type::MemberFunction(function) => self.print_function_end(*function, pointed),
            Type::MemberPointer(_, function) => self.print_member_pointer_end(*function),
            Type::Variable(_, _, inner) => push_suffix_unless(
                self.stack,
                *inner,
                leaves_out(pointed, NO_VARIABLE_TYPE, self.flags),
                self.flags,
            ),
            Type::Table(table, _, scope) => self.print_table_end(*table, scope.names),
            Type::VcallThunk(number, _) => write_thunk_end(self.out, *number, self.flags),
            Type::Shape(shape) => self.print_shape_suffix(*shape, pointed),
            Type::Plain(_) => Ok(()),
            Type::Base(_, _) => Ok(()),
            Type::Tagged(_, _, _) => Ok(()),
            Type::Numbered(_, _) => Ok(()),
            Type::ConstantString(_) => Ok(()),
        }
    }

    /// Prints what a function has after its name: its parameters, its qualifiers, and the rest of what it returns.
    fn print_function_end(
        &mut self,
        function: &'b Function<'a, 'b>,
        pointed: Pointed,
    ) -> Result<(), AllocError>
        ensures text { OnOk result
            (Prints (function_end pointed
            (spec.parameters (types_in function.now.parameters.now) true self.old.flags.bits) function.now.qualifiers.0
            self.old.flags.bits (after_called pointed (after (type_of function.now.returned.now) No
            self.old.flags.bits) self.old.flags.bits)) self.old self.new) }
        ensures lighter { OnOk result (Lightens (3 + types_weight (types_in function.now.parameters.now)
            + type_weight (type_of function.now.returned.now)) self.old self.new) }
        ensures kept { Keeps self.old self.new }
    {
        write_closing(self.out, pointed)?;
        write_text(self.out, b"(")?;
        let is_dropped = leaves_out(pointed, NO_RETURN_TYPE, self.flags);
        push_suffix_unless(self.stack, function.returned, is_dropped, self.flags)?;
        self.print_parameters(
            function.parameters,
            true,
            ListEnd::Round(function.qualifiers),
        )
    }

    /// Prints what a pointer to a member function has after its name: the parameters, the rest of what the function
    /// returns, and its `const`.
    fn print_member_pointer_end(&mut self, function: &'b Function<'a, 'b>) -> Result<(), AllocError>
        ensures text { OnOk result
            (Prints (member_pointer_end
            (spec.parameters (types_in function.now.parameters.now) true self.old.flags.bits) function.now.qualifiers.0
            (after (type_of function.now.returned.now) No self.old.flags.bits)) self.old self.new) }
        ensures lighter { OnOk result (Lightens (3 + types_weight (types_in function.now.parameters.now)
            + type_weight (type_of function.now.returned.now)) self.old self.new) }
        ensures kept { Keeps self.old self.new }
    {
        write_text(self.out, b")(")?;
        push_const(self.stack, function.qualifiers, self.flags)?;
        push_suffix(self.stack, function.returned, Pointed::No, self.flags)?;
        self.print_parameters(function.parameters, true, ListEnd::Bare)
    }

    /// Prints what a table has after its name: the scope that it is for.
    fn print_table_end(
        &mut self,
        table: SpecialTableKind,
        names: &'b [&'b Name<'a, 'b>],
    ) -> Result<(), AllocError>
        ensures text { OnOk result
            (Prints (spec.table_end table (names_in names.now)
            (spec.scope_path (names_in names.now) self.old.flags.bits))
            self.old self.new) }
        ensures lighter { OnOk result (Lightens (3 + scope_weight (names_in names.now)) self.old self.new) }
        ensures kept { Keeps self.old self.new }
    {
        match table {
            SpecialTableKind::Functions => self.print_vftable_target(names),
            SpecialTableKind::Bases => {
                push(self.stack, Item::Text(b"'}}"))?;
                self.print_path(names)
            }
        }
    }

    /// Prints the scope that a table of virtual functions is for, if it is for one.
    fn print_vftable_target(&mut self, names: &'b [&'b Name<'a, 'b>]) -> Result<(), AllocError>
        ensures text { OnOk result
            (Prints (spec.table_end Functions (names_in names.now)
            (spec.scope_path (names_in names.now) self.old.flags.bits)) self.old self.new) }
        ensures lighter { OnOk result (Lightens (3 + scope_weight (names_in names.now)) self.old self.new) }
        ensures kept { Keeps self.old self.new }
    {
        match names {
            [] => Ok(()),
            [_, ..] => {
                write_text(self.out, b"{for `")?;
                push(self.stack, Item::Text(b"'}"))?;
                self.print_path(names)
            }
        }
    }

    /// Prints the simple types that a list begins with, with a comma before each but the first. If one that is not
    /// simple follows, begins to print it and pushes the rest; else prints what stands after the last.
    fn print_list(
        &mut self,
        types: &'b [&'b Type<'a, 'b>],
        first: bool,
        end: ListEnd,
    ) -> Result<(), AllocError>
        ensures text { OnOk result (Prints (rest_of_parameters types.now first end self.old.flags.bits)
            self.old self.new) }
        ensures lighter { OnOk result (Lightens (types_weight (types_in types.now)) self.old self.new) }
        ensures kept { Keeps self.old self.new }
    {
        let at = write_simple_types(self.out, types, first, self.flags)?;
        if !self.out.is_whole() {
            return Ok(());
        }
        match &types[at..] {
            [] => write_list_end(self.out, end, self.flags),
            [t, later @ ..] => {
                let left = TypeList {
                    types: later,
                    first: false,
                    end,
                };
                push(self.stack, Item::Parameters(left))?;
                self.print_parameter(*t)
            }
        }
    }

    /// Prints the types of a list, with a comma before each but the first, and what stands after them. Goes on with the
    /// lists that are then the last items of the stack.
    pub fn print_parameters(
        &mut self,
        types: &'b [&'b Type<'a, 'b>],
        first: bool,
        end: ListEnd,
    ) -> Result<(), AllocError>
        ensures text { OnOk result (Prints (rest_of_parameters types.now first end self.old.flags.bits)
            self.old self.new) }
        ensures lighter { OnOk result (Lightens (types_weight (types_in types.now)) self.old self.new) }
        ensures kept { Keeps self.old self.new }
    {
        let mut list = TypeList { types, first, end };
        'lists: loop {
            self.print_list(list.types, list.first, list.end)?;
            let Some(Item::Parameters(next)) = self.stack.last() else {
                return Ok(());
            };
            list = *next;
            self.stack.pop();
        }
    }

    /// Prints a type on both sides of nothing.
    fn print_parameter(&mut self, t: &'b Type<'a, 'b>) -> Result<(), AllocError>
        ensures text { OnOk result (Prints (before (type_of t.now) No self.old.flags.bits
            ++ after (type_of t.now) No self.old.flags.bits) self.old self.new) }
        ensures lighter { OnOk result (Lightens (type_weight (type_of t.now) + type_weight (type_of t.now))
            self.old self.new) }
        ensures kept { Keeps self.old self.new }
    {
        if self.print_innermost(t)? {
            return Ok(());
        }
        push_suffix(self.stack, t, Pointed::No, self.flags)?;
        self.print_prefix(t, Pointed::No)
    }

    /// Prints a word, a name in its scope, and qualifiers.
    #[inline(always)]
    fn print_tagged(
        &mut self,
        word: &[u8],
        symbol: &'b Symbol<'a, 'b>,
        qualifiers: StorageClass,
    ) -> Result<(), AllocError>
        ensures text { OnOk result
            (Prints (text word.now ∷ (symbol_name_of symbol.now no_type self.old.flags.bits
            ++ qualifier_pieces qualifiers.0 self.old.flags.bits)) self.old self.new) }
        ensures lighter { OnOk result (Lightens (3 + symbol_weight_of symbol.now no_type) self.old self.new) }
        ensures kept { Keeps self.old self.new }
    {
        write_text(self.out, word)?;
        push_qualifiers(self.stack, qualifiers, self.flags)?;
        self.print_qualified_name(symbol, None)
    }
}

/// Writes a type that has nothing in it.
fn write_plain<W: Wording, A: Allocator>(
    out: &mut Text<A>,
    kind: PlainType,
    pointed: Pointed,
    flags: Style<W>,
) -> Result<(), AllocError>
    ensures { OnOk result (Writes (before (plain kind) pointed flags.bits) out.old out.new) }
{
    match kind {
        PlainType::Variadic => write_text(out, b"..."),
        PlainType::None => Ok(()),
        PlainType::EmptyPack => Ok(()),
        PlainType::Rtti => Ok(()),
        PlainType::Nullptr => write_text(out, b"std::nullptr_t"),
    }
}

/// Writes a type that has one number in it.
pub fn write_numbered<W: Wording, A: Allocator>(
    out: &mut Text<A>,
    kind: NumberedType,
    number: i32,
    pointed: Pointed,
    flags: Style<W>,
) -> Result<(), AllocError>
    ensures { OnOk result (Writes (before (numbered kind number) pointed flags.bits) out.old out.new) }
{
    match kind {
        NumberedType::Constant => write_number(out, number),
        NumberedType::TemplateParameter => write_template_parameter(out, number),
        NumberedType::ThreadSafeGuard => write_thread_safe_guard(out, number),
    }
}

/// Returns whether a type may have something after the name.
fn may_have_suffix<'a, 'b>(t: &'b Type<'a, 'b>) -> bool
    ensures { result ≡ false → (pointed : Pointed) (flags : ℕ) → after (type_of t.now) pointed flags ≡ [] }
{
    match t {
        Type::Pointing(_, _, _) => true,
        Type::Array(_, _, _) => true,
        Type::Function(_) => true,
        Type::MemberFunction(_) => true,
        Type::MemberPointer(_, _) => true,
        Type::Variable(_, _, _) => true,
        Type::Table(_, _, _) => true,
        Type::VcallThunk(_, _) => true,
        Type::Shape(_) => true,
        Type::Plain(_) => false,
        Type::Base(_, _) => false,
        Type::Tagged(_, _, _) => false,
        Type::Numbered(_, _) => false,
        Type::ConstantString(_) => false,
    }
}

/// Pushes what a type has after the name, if it, or the type that it points to, may have anything there.
pub fn push_suffix<'a, 'b, W: Wording, S: Allocator>(
    stack: &mut Vec<Item<'a, 'b>, S>,
    t: &'b Type<'a, 'b>,
    pointed: Pointed,
    flags: Style<W>,
) -> Result<(), AllocError>
    ensures text { OnOk result
        (Pushes (after (type_of t.now) pointed flags.bits) flags.bits stack.old.items stack.new.items) }
    ensures lighter { OnOk result (AddsAtMost (type_weight (type_of t.now)) stack.old.items stack.new.items) }
{
    let may_have = match t {
        Type::Pointing(_, _, inner) => may_have_suffix(*inner),
        _ => may_have_suffix(t),
    };
    if may_have {
        push(stack, Item::After(t, pointed))?;
    }
    Ok(())
}

/// Pushes what a type has after the name, unless a flag drops it.
fn push_suffix_unless<'a, 'b, W: Wording, S: Allocator>(
    stack: &mut Vec<Item<'a, 'b>, S>,
    t: &'b Type<'a, 'b>,
    is_dropped: bool,
    flags: Style<W>,
) -> Result<(), AllocError>
    ensures text { OnOk result (Pushes (cond is_dropped [] (after (type_of t.now) No flags.bits)) flags.bits
        stack.old.items stack.new.items) }
    ensures lighter { OnOk result (AddsAtMost (type_weight (type_of t.now)) stack.old.items stack.new.items) }
{
    if is_dropped {
        return Ok(());
    }
    push_suffix(stack, t, Pointed::No, flags)
}

/// Pushes `const`, if a member function that is pointed to has it.
fn push_const<'a, 'b, W: Wording, S: Allocator>(
    stack: &mut Vec<Item<'a, 'b>, S>,
    qualifiers: StorageClass,
    flags: Style<W>,
) -> Result<(), AllocError>
    ensures text { OnOk result (Pushes (function_qualifier 1 (codes "const") qualifiers.0) flags.bits
        stack.old.items stack.new.items) }
    ensures lighter { OnOk result (AddsAtMost 1 stack.old.items stack.new.items) }
{
    if qualifiers.contains(StorageClass::CONST) {
        push(stack, Item::Spaced(b"const"))?;
    }
    Ok(())
}

/// Returns whether a type is a pack without parameters.
pub fn is_empty_pack<'a, 'b>(t: &'b Type<'a, 'b>) -> bool
    ensures { result ≡ spec.is_empty_pack (type_of t.now) }
{
    match t {
        Type::Plain(plain) => match *plain {
            PlainType::EmptyPack => true,
            PlainType::None => false,
            PlainType::Rtti => false,
            PlainType::Variadic => false,
            PlainType::Nullptr => false,
        },
        _ => false,
    }
}

/// Returns whether a type is none.
pub fn is_none<'a, 'b>(t: &'b Type<'a, 'b>) -> bool
    ensures { result ≡ spec.is_none (type_of t.now) }
{
    match t {
        Type::Plain(plain) => match *plain {
            PlainType::None => true,
            PlainType::EmptyPack => false,
            PlainType::Rtti => false,
            PlainType::Variadic => false,
            PlainType::Nullptr => false,
        },
        _ => false,
    }
}

/// Returns whether a space stands after what a function returns, as in the second grammar's style.
fn has_returned_end<'a, 'b, W: Wording>(returned: &'b Type<'a, 'b>, flags: Style<W>) -> bool
    ensures { cond result (text (codes " ") ∷ []) [] ≡ spec.returned_end (type_of returned.now) flags.bits }
{
    flags.is_full() && !is_none(returned)
}

/// Writes the space after what a function returns, if one stands there.
fn write_returned_end<'a, 'b, W: Wording, A: Allocator>(
    out: &mut Text<A>,
    returned: &'b Type<'a, 'b>,
    flags: Style<W>,
) -> Result<(), AllocError>
    ensures { OnOk result (Writes (spec.returned_end (type_of returned.now) flags.bits) out.old out.new) }
{
    if has_returned_end(returned, flags) {
        write_text(out, b" ")?;
    }
    Ok(())
}

/// Pushes the space after what a function returns, if one stands there.
fn push_returned_end<'a, 'b, W: Wording, S: Allocator>(
    stack: &mut Vec<Item<'a, 'b>, S>,
    returned: &'b Type<'a, 'b>,
    flags: Style<W>,
) -> Result<(), AllocError>
    ensures text { OnOk result (Pushes (spec.returned_end (type_of returned.now) flags.bits) flags.bits
        stack.old.items stack.new.items) }
    ensures lighter { OnOk result (AddsAtMost 1 stack.old.items stack.new.items) }
{
    if has_returned_end(returned, flags) {
        push(stack, Item::Text(b" "))?;
    }
    Ok(())
}

/// Pushes qualifiers, unless there are none.
fn push_qualifiers<'a, 'b, W: Wording, S: Allocator>(
    stack: &mut Vec<Item<'a, 'b>, S>,
    qualifiers: StorageClass,
    flags: Style<W>,
) -> Result<(), AllocError>
    ensures text { OnOk result
        (Pushes (qualifier_pieces qualifiers.0 flags.bits) flags.bits stack.old.items stack.new.items) }
    ensures lighter { OnOk result (AddsAtMost 1 stack.old.items stack.new.items) }
{
    if !qualifiers.is_empty() {
        push(stack, Item::Qualifiers(qualifiers))?;
    }
    Ok(())
}

/// Writes the type of a thread-safe static guard.
fn write_thread_safe_guard<A: Allocator>(out: &mut Text<A>, number: i32) -> Result<(), AllocError>
    ensures { OnOk result (Writes (text (codes "TSS") ∷ text (signed_decimal number) ∷ [])
        out.old out.new) }
{
    write_text(out, b"TSS")?;
    write_number(out, number)
}

/// Writes what a thunk into a table of virtual functions has before its name.
fn write_thunk<W: Wording, A: Allocator>(
    out: &mut Text<A>,
    pointed: Pointed,
    convention: Convention,
    flags: Style<W>,
) -> Result<(), AllocError>
    ensures { OnOk result (Writes (text (codes "[thunk]: ")
        ∷ calling (spec_pointed.passed_on pointed) convention flags.bits) out.old out.new) }
{
    write_text(out, b"[thunk]: ")?;
    write_calling(out, passed_on(pointed), convention, flags)
}

/// Writes what a thunk has after its name: the offset in the table, in bytes, and the memory model.
fn write_thunk_end<W: Wording, A: Allocator>(
    out: &mut Text<A>,
    number: i32,
    flags: Style<W>,
) -> Result<(), AllocError>
    ensures { OnOk result (Writes (spec.thunk_end number flags.bits) out.old out.new) }
{
    write_text(out, b"{")?;
    write_number(out, number)?;
    write_separator(out, false, flags)?;
    write_text(out, b"{flat}}")
}

/// Writes a template parameter by its number.
fn write_template_parameter<A: Allocator>(out: &mut Text<A>, number: i32) -> Result<(), AllocError>
    ensures { OnOk result (Writes
        (text (codes "`template-parameter") ∷ text (signed_decimal number) ∷ text (codes "'") ∷ [])
        out.old out.new) }
{
    write_text(out, b"`template-parameter")?;
    write_number(out, number)?;
    write_text(out, b"'")
}

/// Writes the parenthesis after the name of a pointer to an array, and the length of the array.
fn write_length<A: Allocator>(
    out: &mut Text<A>,
    length: i32,
    pointed: Pointed,
) -> Result<(), AllocError>
    ensures { OnOk result (Writes (closing pointed ++ spec.length_pieces length) out.old out.new) }
{
    write_closing(out, pointed)?;
    write_text(out, b"[")?;
    write_number(out, length)?;
    write_text(out, b"]")
}

/// Writes the qualifiers of an array, and the parenthesis before the mark of a pointer to it.
pub fn write_array_prefix<W: Wording, A: Allocator>(
    out: &mut Text<A>,
    qualifiers: StorageClass,
    pointed: Pointed,
    flags: Style<W>,
) -> Result<(), AllocError>
    ensures { OnOk result (Writes (qualifier_pieces qualifiers.0 flags.bits
        ++ opening pointed flags.bits) out.old out.new) }
{
    write_qualifiers(out, qualifiers, flags)?;
    write_opening(out, pointed, flags)
}
