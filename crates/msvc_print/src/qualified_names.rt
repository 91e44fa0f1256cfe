//! Prints names: those of scopes, and that of a symbol in its scope. Spelled names are written at once; what holds
//! types or other names is pushed.
#![tactic(auto, using(crate::proofs::Halves::pushed_left, crate::proofs::Nodes::printed), unfolding(crate::specs::Declaration::arguments, crate::specs::Declaration::name_pieces, crate::specs::Declaration::quoted_unless, crate::specs::Operators::scoped, crate::specs::Weights::name_weight, crate::specs::Work::full_return, crate::specs::Work::member_return, crate::specs::Work::moved_return, crate::specs::Work::some_return, msvc_nodes::specs::NodeView::name_of, msvc_nodes::specs::NodeView::type_of))]

ghost use Rattle.std.specs.Prelude.{ℕ, ◌≡◌, ◌≤◌, ◌+◌, ◌++◌, ◌∷◌, [], Bool, true, false, OnOk, IfOk};
ghost use Rattle.std.specs.Prelude.{codes, cond, take, length, option_map, Some, None};
ghost use Rattle.std.specs.Fmt.{signed_decimal};
ghost use Rattle.msvc_nodes.specs.NodeView.{name_of, names_in, type_of, types_in};
ghost use Rattle.msvc_nodes.specs.declared.kinds.Spelling.TheVariants as spelling_kind;
ghost use Rattle.msvc_print.specs.Declaration as spec;
ghost use Rattle.msvc_print.specs.Halves.{after, before};
ghost use Rattle.msvc_print.specs.Operators.{spaced};
ghost use Rattle.msvc_print.specs.Limited.{Writes, add_all};
ghost use Rattle.msvc_print.specs.Pieces.{space, text};
ghost use Rattle.msvc_print.specs.Sides.{alone};
ghost use Rattle.msvc_print.specs.SymbolNodes.{class_pieces_of, class_weight_of, symbol_name_of};
ghost use Rattle.msvc_print.specs.SymbolNodes.{symbol_pieces_of, symbol_weight_of, type_or_none};
ghost use Rattle.msvc_print.specs.SymbolNodes.{typed_symbol_weight_of};
ghost use Rattle.msvc_print.specs.Weights.{name_weight, scope_weight, type_weight, types_weight};
ghost use Rattle.msvc_print.specs.Work.{AddsAtMost, AddsLess, Keeps, Lightens, Prints, Pushes, full_conversion_to};
ghost use Rattle.msvc_print.specs.Work.{full_return, member_return, moved_return, some_return};
ghost use Rattle.msvc_print.specs.declared.spaces.Space.TheVariants.{AfterPointer};
ghost use Rattle.msvc_print.specs.declared.pointed.Pointed.TheVariants.{Inner, No};

use crate::item::{Item, ListEnd, TypeList, push};
use crate::operators::{
    NameKind, name_kind, write_base_class, write_guard, write_operator, write_spaced_word,
};
use crate::pointed::Pointed;
use crate::printer::Printer;
use crate::sides::{push_left, push_right};
use crate::spaces::{Space, name_space, write_space};
use crate::style::{Style, Wording};
use crate::text::{Text, write_number, write_text};
use crate::types::is_none;
use msvc_nodes::flags::DemangleFlags;
use msvc_nodes::nodes::{Name, Scope, Symbol, Type, TypedSymbol};
use msvc_shapes::layouts::Side;
use std::alloc::{AllocError, Allocator};

/// Writes bytes between two words.
fn write_bracketed<A: Allocator>(
    out: &mut Text<A>,
    opening: &[u8],
    bytes: &[u8],
    closing: &[u8],
) -> Result<(), AllocError>
    ensures { OnOk result (Writes (text opening.now ∷ text bytes.now ∷ text closing.now ∷ [])
        out.old out.new) }
{
    write_text(out, opening)?;
    write_text(out, bytes)?;
    write_text(out, closing)
}

/// Writes the name of an interface, in its brackets.
#[cold]
fn write_interface<A: Allocator>(out: &mut Text<A>, bytes: &[u8]) -> Result<(), AllocError>
    ensures { OnOk result (Writes (spec.spelled_name spelling_kind.Interface bytes.now) out.old out.new) }
{
    write_bracketed(out, b"[", bytes, b"]")
}

/// Writes the digits that stand for a name, between their marks.
#[cold]
fn write_md5<A: Allocator>(out: &mut Text<A>, bytes: &[u8]) -> Result<(), AllocError>
    ensures { OnOk result (Writes (spec.spelled_name spelling_kind.Md5 bytes.now) out.old out.new) }
{
    write_bracketed(out, b"??@", bytes, b"@")
}

/// Writes a name if it is spelled, and returns whether it is.
#[inline(always)]
fn write_if_spelled<'a, 'b, A: Allocator>(
    out: &mut Text<A>,
    name: &'b Name<'a, 'b>,
) -> Result<bool, AllocError>
    ensures spelled { IfOk result (λ is. is ≡ true → (of_symbol : Bool) (flags : ℕ) →
        Writes (spec.name_pieces (name_of name.now) of_symbol flags) out.old out.new) }
    ensures other { IfOk result (λ is. is ≡ false → out.new ≡ out.old) }
{
    match name {
        Name::Source(bytes) => {
            write_text(out, *bytes)?;
            Ok(true)
        }
        Name::Interface(bytes) => {
            write_interface(out, *bytes)?;
            Ok(true)
        }
        Name::Md5(bytes) => {
            write_md5(out, *bytes)?;
            Ok(true)
        }
        _ => Ok(false),
    }
}

/// Writes the outermost names of a scope, as long as they are spelled, each with `::` after it. Returns how many names
/// are left.
#[inline(always)]
fn write_spelled_names<'a, 'b, A: Allocator>(
    out: &mut Text<A>,
    names: &'b [&'b Name<'a, 'b>],
) -> Result<usize, AllocError>
    ensures fits { IfOk result (λ left. left ≤ length names.now) }
    ensures text { IfOk result (λ left. (flags : ℕ) →
        add_all out.new (spec.scope_prefix (names_in (take left names.now)) flags)
        ≡ add_all out.old (spec.scope_prefix (names_in names.now) flags)) }
{
    let mut left = names.len();
    while left > 0 {
        if !write_if_spelled(out, names[left - 1])? {
            return Ok(left);
        }
        write_text(out, b"::")?;
        left -= 1;
    }
    Ok(left)
}

/// Writes the number that parts local names, in quotes.
fn write_discriminator<A: Allocator>(out: &mut Text<A>, number: i32) -> Result<(), AllocError>
    ensures { OnOk result (Writes (spec.quoted (text (signed_decimal number) ∷ [])) out.old out.new) }
{
    write_text(out, b"`")?;
    write_number(out, number)?;
    write_text(out, b"'")
}

/// Writes the name of an anonymous namespace.
fn write_anonymous<A: Allocator>(out: &mut Text<A>) -> Result<(), AllocError>
    ensures { OnOk result (Writes (text (codes "`anonymous namespace'") ∷ []) out.old out.new) }
{
    write_text(out, b"`anonymous namespace'")
}

/// Pushes a symbol with its type, which stands as `pointed` says: the name between what the type has before and after
/// it.
pub fn push_typed_symbol<'a, 'b, W: Wording, S: Allocator>(
    stack: &mut Vec<Item<'a, 'b>, S>,
    tree: &'b TypedSymbol<'a, 'b>,
    pointed: Pointed,
    flags: Style<W>,
) -> Result<(), AllocError>
    ensures text { OnOk result (Pushes (symbol_pieces_of tree.now pointed flags.bits) flags.bits
        stack.old.items stack.new.items) }
    ensures lighter { OnOk result (AddsLess (typed_symbol_weight_of tree.now) stack.old.items stack.new.items) }
{
    push_right(stack, tree.symbol_type, pointed, flags)?;
    push(stack, Item::Symbol(&tree.symbol, Some(tree.symbol_type)))?;
    push_left(stack, tree.symbol_type, pointed, flags)
}

impl<'a, 'b, 't, W: Wording, S: Allocator, A: Allocator> Printer<'a, 'b, 't, W, S, A> {
    /// Prints a nested symbol, in quotes unless it is the name of a symbol itself.
    fn print_nested(
        &mut self,
        tree: &'b TypedSymbol<'a, 'b>,
        of_symbol: bool,
    ) -> Result<(), AllocError>
        ensures text { OnOk result (Prints (spec.quoted_unless of_symbol
            (symbol_pieces_of tree.now Inner self.old.flags.bits))
            self.old self.new) }
        ensures lighter { OnOk result (Lightens (3 + typed_symbol_weight_of tree.now) self.old self.new) }
        ensures kept { Keeps self.old self.new }
    {
        if of_symbol {
            return push_typed_symbol(self.stack, tree, Pointed::Inner, self.flags);
        }
        write_text(self.out, b"`")?;
        push(self.stack, Item::Text(b"'"))?;
        push_typed_symbol(self.stack, tree, Pointed::Inner, self.flags)
    }

    /// Prints the descriptor of a type.
    #[cold]
    fn print_descriptor(&mut self, described: &'b Type<'a, 'b>) -> Result<(), AllocError>
        ensures text { OnOk result
            (Prints (space AfterPointer ∷ ((spec.grown (type_of described.now) No alone self.old.flags.bits).left
            ++ text (codes "::`RTTI Type Descriptor'") ∷ [])) self.old self.new) }
        ensures lighter { OnOk result (Lightens (3 + type_weight (type_of described.now)) self.old self.new) }
        ensures kept { Keeps self.old self.new }
    {
        write_space(self.out, Space::AfterPointer)?;
        push(self.stack, Item::Text(b"::`RTTI Type Descriptor'"))?;
        push(self.stack, Item::Before(described, Pointed::No))
    }

    /// Prints a template with its arguments. Most of their names are spelled, and are written at once.
    fn print_template(
        &mut self,
        name: &'b Name<'a, 'b>,
        arguments: &'b [&'b Type<'a, 'b>],
    ) -> Result<(), AllocError>
        ensures text { OnOk result (Prints (spec.name_pieces (name_of name.now) false self.old.flags.bits
            ++ spec.angled (spec.parameters (types_in arguments.now) true self.old.flags.bits) self.old.flags.bits)
            self.old self.new) }
        ensures lighter { OnOk result
            (Lightens (3 + name_weight (name_of name.now) + types_weight (types_in arguments.now)) self.old self.new) }
        ensures kept { Keeps self.old self.new }
    {
        let list = Item::Parameters(TypeList {
            types: arguments,
            first: true,
            end: ListEnd::Angle,
        });
        if write_if_spelled(self.out, name)? {
            write_text(self.out, b"<")?;
            return push(self.stack, list);
        }
        push(self.stack, list)?;
        push(self.stack, Item::Text(b"<"))?;
        push(self.stack, Item::Name(name, false))
    }

    /// Prints a name.
    pub fn print_name(&mut self, name: &'b Name<'a, 'b>, of_symbol: bool) -> Result<(), AllocError>
        ensures text { OnOk result (Prints (spec.name_pieces (name_of name.now) of_symbol self.old.flags.bits)
            self.old self.new) }
        ensures lighter { OnOk result (Lightens (name_weight (name_of name.now)) self.old self.new) }
        ensures kept { Keeps self.old self.new }
    {
        match name {
            Name::Source(bytes) => write_text(self.out, *bytes),
            Name::Interface(bytes) => write_interface(self.out, *bytes),
            Name::Md5(bytes) => write_md5(self.out, *bytes),
            Name::Anonymous => write_anonymous(self.out),
            Name::AnonymousDigits(_) => write_anonymous(self.out),
            Name::Plain(operator) => write_operator(self.out, *operator, self.flags),
            Name::Guard(guard, number) => write_guard(self.out, *guard, *number),
            Name::TypeDescriptor(_, described) => self.print_descriptor(*described),
            Name::BaseClassDescriptor(place) => write_base_class(self.out, *place, self.flags),
            Name::Template(template) => self.print_template(template.name, template.arguments),
            Name::Discriminator(number) => write_discriminator(self.out, *number),
            Name::Nested(tree) => self.print_nested(*tree, of_symbol),
            Name::Shape(shape) => self.print_slots(*shape, Side::Left, Pointed::No, 0),
        }
    }

    /// Prints the first `left` names of a scope, the outermost first, each with `::` after it.
    fn print_remaining_names(
        &mut self,
        names: &'b [&'b Name<'a, 'b>],
        left: usize,
    ) -> Result<(), AllocError>
        requires { left ≤ length names.now }
        ensures text { OnOk result (Prints (spec.scope_prefix (names_in (take left names.now)) self.old.flags.bits)
            self.old self.new) }
        ensures lighter { OnOk result (Lightens (scope_weight (names_in names.now)) self.old self.new) }
        ensures kept { Keeps self.old self.new }
    {
        if left == 0 {
            return Ok(());
        }
        let last = left - 1;
        push_scope(self.stack, &names[..last])?;
        push(self.stack, Item::Text(b"::"))?;
        self.print_name(names[last], false)
    }

    /// Prints the names of a scope, the outermost first, each with `::` after it.
    pub fn print_scope(&mut self, names: &'b [&'b Name<'a, 'b>]) -> Result<(), AllocError>
        ensures text { OnOk result (Prints (spec.scope_prefix (names_in names.now) self.old.flags.bits)
            self.old self.new) }
        ensures lighter { OnOk result (Lightens (scope_weight (names_in names.now)) self.old self.new) }
        ensures kept { Keeps self.old self.new }
    {
        let left = write_spelled_names(self.out, names)?;
        self.print_remaining_names(names, left)
    }

    /// Prints the names of a scope and the name of a symbol in it. The name is printed at once if all names of the
    /// scope are spelled, as most are.
    fn print_in_scope(
        &mut self,
        names: &'b [&'b Name<'a, 'b>],
        name: &'b Name<'a, 'b>,
    ) -> Result<(), AllocError>
        ensures text { OnOk result (Prints (spec.scope_prefix (names_in names.now) self.old.flags.bits
            ++ spec.name_pieces (name_of name.now) true self.old.flags.bits) self.old self.new) }
        ensures lighter { OnOk result (Lightens (1 + scope_weight (names_in names.now) + name_weight (name_of name.now))
            self.old self.new) }
        ensures kept { Keeps self.old self.new }
    {
        let left = write_spelled_names(self.out, names)?;
        if left == 0 {
            return self.print_name(name, true);
        }
        if !self.out.is_whole() {
            return Ok(());
        }
        push(self.stack, Item::Name(name, true))?;
        self.print_remaining_names(names, left)
    }

    /// Prints the names of a scope, the outermost first, with `::` between them.
    pub fn print_path(&mut self, names: &'b [&'b Name<'a, 'b>]) -> Result<(), AllocError>
        ensures text { OnOk result (Prints (spec.scope_path (names_in names.now) self.old.flags.bits) self.old
            self.new) }
        ensures lighter { OnOk result (Lightens (scope_weight (names_in names.now)) self.old self.new) }
        ensures kept { Keeps self.old self.new }
    {
        match names {
            [] => Ok(()),
            [name, outer @ ..] => {
                push(self.stack, Item::Name(*name, false))?;
                self.print_scope(outer)
            }
        }
    }

    /// Prints a symbol's name in its scope, by the kind of the name.
    pub fn print_qualified_name(
        &mut self,
        symbol: &'b Symbol<'a, 'b>,
        symbol_type: Option<&'b Type<'a, 'b>>,
    ) -> Result<(), AllocError>
        ensures text { OnOk result (Prints (symbol_name_of symbol.now (type_or_none symbol_type.entry)
            self.old.flags.bits)
            self.old self.new) }
        ensures lighter { OnOk result (Lightens (symbol_weight_of symbol.now (type_or_none symbol_type.entry))
            self.old self.new) }
        ensures kept { Keeps self.old self.new }
    {
        write_space(self.out, name_space(self.flags))?;
        match name_kind(symbol.name, self.flags) {
            NameKind::Ordinary => self.print_in_scope(symbol.scope, symbol.name),
            NameKind::Constructor => {
                push_arguments(self.stack, symbol.name, self.flags)?;
                push_ctor_dtor_name(self.stack, symbol.scope, false, self.flags)?;
                self.print_scope(symbol.scope)
            }
            NameKind::Destructor => {
                push_arguments(self.stack, symbol.name, self.flags)?;
                push_ctor_dtor_name(self.stack, symbol.scope, true, self.flags)?;
                self.print_scope(symbol.scope)
            }
            NameKind::Conversion => {
                push_conversion(self.stack, symbol.name, symbol_type, self.flags)?;
                self.print_scope(symbol.scope)
            }
            NameKind::BaseTable => {
                push_base_table(self.stack, self.flags)?;
                self.print_scope(symbol.scope)
            }
            NameKind::Literal => {
                write_literal(self.out)?;
                self.print_path(symbol.scope)
            }
        }
    }

    /// Prints the class whose member function is pointed to.
    pub fn print_member_pointer_class(
        &mut self,
        class: &'b Symbol<'a, 'b>,
    ) -> Result<(), AllocError>
        ensures text { OnOk result (Prints (class_pieces_of class.now self.old.flags.bits) self.old self.new) }
        ensures lighter { OnOk result (Lightens (class_weight_of class.now) self.old self.new) }
        ensures kept { Keeps self.old self.new }
    {
        write_space(self.out, Space::AfterPointer)?;
        push(self.stack, Item::Text(b"::*"))?;
        self.print_qualified_name(class, None)
    }
}

/// Pushes the names of a scope, if it has any.
fn push_scope<'a, 'b, S: Allocator>(
    stack: &mut Vec<Item<'a, 'b>, S>,
    names: &'b [&'b Name<'a, 'b>],
) -> Result<(), AllocError>
    ensures text { OnOk result ((flags : ℕ) →
        Pushes (spec.scope_prefix (names_in names.now) flags) flags stack.old.items stack.new.items) }
    ensures lighter { OnOk result (AddsAtMost (scope_weight (names_in names.now)) stack.old.items stack.new.items) }
{
    match names {
        [] => Ok(()),
        [_, ..] => push(stack, Item::Scope(Scope { names })),
    }
}

/// Pushes what a constructor or a destructor prints: the innermost name of its scope, that of a destructor after `~`.
fn push_ctor_dtor_name<'a, 'b, W: Wording, S: Allocator>(
    stack: &mut Vec<Item<'a, 'b>, S>,
    names: &'b [&'b Name<'a, 'b>],
    destructor: bool,
    flags: Style<W>,
) -> Result<(), AllocError>
    ensures text { OnOk result (Pushes
        (spec.class_name (names_in names.now) (cond destructor spec.tilde []) flags.bits) flags.bits
        stack.old.items stack.new.items) }
    ensures lighter { OnOk result (AddsAtMost (1 + scope_weight (names_in names.now)) stack.old.items stack.new.items) }
{
    match names {
        [] => push(stack, Item::Text(b"[invalid]")),
        [name, ..] => {
            push(stack, Item::Name(*name, false))?;
            if destructor {
                push(stack, Item::Text(b"~"))?;
            }
            Ok(())
        }
    }
}

/// Pushes the arguments of a name that is a template.
fn push_arguments<'a, 'b, W: Wording, S: Allocator>(
    stack: &mut Vec<Item<'a, 'b>, S>,
    name: &'b Name<'a, 'b>,
    flags: Style<W>,
) -> Result<(), AllocError>
    ensures text { OnOk result (Pushes (spec.arguments (name_of name.now) flags.bits) flags.bits
        stack.old.items stack.new.items) }
    ensures lighter { OnOk result (AddsLess (name_weight (name_of name.now)) stack.old.items stack.new.items) }
{
    match name {
        Name::Template(template) => push_angled(stack, template.arguments, flags),
        Name::Source(_) => Ok(()),
        Name::Interface(_) => Ok(()),
        Name::Md5(_) => Ok(()),
        Name::Anonymous => Ok(()),
        Name::AnonymousDigits(_) => Ok(()),
        Name::Plain(_) => Ok(()),
        Name::Guard(_, _) => Ok(()),
        Name::TypeDescriptor(_, _) => Ok(()),
        Name::BaseClassDescriptor(_) => Ok(()),
        Name::Discriminator(_) => Ok(()),
        Name::Nested(_) => Ok(()),
        Name::Shape(shape) => Ok(()),
    }
}

/// Pushes the arguments of a template, between `<` and `>`.
fn push_angled<'a, 'b, W: Wording, S: Allocator>(
    stack: &mut Vec<Item<'a, 'b>, S>,
    types: &'b [&'b Type<'a, 'b>],
    flags: Style<W>,
) -> Result<(), AllocError>
    ensures text { OnOk result (Pushes (spec.angled (spec.parameters (types_in types.now) true flags.bits) flags.bits)
        flags.bits
        stack.old.items stack.new.items) }
    ensures lighter { OnOk result (AddsAtMost (1 + types_weight (types_in types.now))
        stack.old.items stack.new.items) }
{
    push(
        stack,
        Item::Parameters(TypeList {
            types,
            first: true,
            end: ListEnd::Angle,
        }),
    )?;
    push(stack, Item::Text(b"<"))
}

/// Returns the type that a member function returns, or `None` of any other type.
fn function_return<'a, 'b>(t: &'b Type<'a, 'b>) -> Option<&'b Type<'a, 'b>>
    ensures { option_map (λ t. type_of t.now) result ≡ member_return (type_of t.now) }
{
    match t {
        Type::MemberFunction(function) => Some(function.returned),
        _ => None,
    }
}

/// Returns the type that a symbol returns, if it is a member function.
fn symbol_return<'a, 'b>(symbol_type: Option<&'b Type<'a, 'b>>) -> Option<&'b Type<'a, 'b>>
    ensures { option_map (λ t. type_of t.now) result ≡ member_return (type_or_none symbol_type.entry) }
{
    match symbol_type {
        Some(t) => function_return(t),
        None => None,
    }
}

/// Returns a type, or `None` if it is none.
fn some_type<'a, 'b>(t: &'b Type<'a, 'b>) -> Option<&'b Type<'a, 'b>>
    ensures { option_map (λ t. type_of t.now) result ≡ cond (spec.is_none (type_of t.now)) None (Some (type_of t.now)) }
{
    if is_none(t) {
        return None;
    }
    Some(t)
}

/// Returns the type that a function returns, or `None` of any other type and of a function that returns nothing.
fn full_function_return<'a, 'b>(t: &'b Type<'a, 'b>) -> Option<&'b Type<'a, 'b>>
    ensures { option_map (λ t. type_of t.now) result ≡ full_return (type_of t.now) }
{
    match t {
        Type::Function(function) => some_type(function.returned),
        Type::MemberFunction(function) => some_type(function.returned),
        Type::Shape(shape) => moved_return(shape.types),
        _ => None,
    }
}

/// Returns the same of the first type of a shape, as of a function that moves its `this`.
fn moved_return<'a, 'b>(types: &'b [&'b Type<'a, 'b>]) -> Option<&'b Type<'a, 'b>>
    ensures { option_map (λ t. type_of t.now) result ≡ moved_return (types_in types.now) }
{
    match types {
        [] => None,
        [first, ..] => member_function_return(first),
    }
}

/// Returns the type that a member function returns, or `None` of any other type and of one that returns nothing.
fn member_function_return<'a, 'b>(t: &'b Type<'a, 'b>) -> Option<&'b Type<'a, 'b>>
    ensures { option_map (λ t. type_of t.now) result ≡ some_return (type_of t.now) }
{
    match t {
        Type::MemberFunction(function) => some_type(function.returned),
        _ => None,
    }
}

/// Returns the type that a symbol returns, if it is a function that returns one.
fn full_symbol_return<'a, 'b>(symbol_type: Option<&'b Type<'a, 'b>>) -> Option<&'b Type<'a, 'b>>
    ensures { option_map (λ t. type_of t.now) result ≡ full_return (type_or_none symbol_type.entry) }
{
    match symbol_type {
        Some(t) => full_function_return(t),
        None => None,
    }
}

/// Pushes what a conversion operator to a type prints in the second grammar's style.
fn push_conversion_to<'a, 'b, W: Wording, S: Allocator>(
    stack: &mut Vec<Item<'a, 'b>, S>,
    name: &'b Name<'a, 'b>,
    returned: &'b Type<'a, 'b>,
    flags: Style<W>,
) -> Result<(), AllocError>
    ensures text { OnOk result (Pushes (text (codes "operator") ∷ (spec.arguments (name_of name.now) flags.bits
        ++ (text (codes " ") ∷ (before (type_of returned.now) No flags.bits
        ++ after (type_of returned.now) No flags.bits)))) flags.bits stack.old.items stack.new.items) }
    ensures lighter { OnOk result (AddsAtMost (1 + name_weight (name_of name.now)
        + type_weight (type_of returned.now) + type_weight (type_of returned.now)) stack.old.items stack.new.items) }
{
    push(stack, Item::After(returned, Pointed::No))?;
    push(stack, Item::Before(returned, Pointed::No))?;
    push(stack, Item::Text(b" "))?;
    push_arguments(stack, name, flags)?;
    push(stack, Item::Text(b"operator"))
}

/// Pushes what a conversion operator prints in the second grammar's style.
#[cold]
fn push_full_conversion<'a, 'b, W: Wording, S: Allocator>(
    stack: &mut Vec<Item<'a, 'b>, S>,
    name: &'b Name<'a, 'b>,
    symbol_type: Option<&'b Type<'a, 'b>>,
    flags: Style<W>,
) -> Result<(), AllocError>
    ensures text { OnOk result (Pushes (full_conversion_to (full_return (type_or_none symbol_type.entry))
        (spec.arguments (name_of name.now) flags.bits) (spec.name_pieces (name_of name.now) true flags.bits) flags.bits)
        flags.bits stack.old.items stack.new.items) }
    ensures lighter { OnOk result (AddsAtMost (1 + name_weight (name_of name.now)
        + type_weight (type_or_none symbol_type.entry) + type_weight (type_or_none symbol_type.entry))
        stack.old.items stack.new.items) }
{
    match full_symbol_return(symbol_type) {
        Some(returned) => push_conversion_to(stack, name, returned, flags),
        None => push(stack, Item::Name(name, true)),
    }
}

/// Pushes what a conversion operator prints.
fn push_conversion<'a, 'b, W: Wording, S: Allocator>(
    stack: &mut Vec<Item<'a, 'b>, S>,
    name: &'b Name<'a, 'b>,
    symbol_type: Option<&'b Type<'a, 'b>>,
    flags: Style<W>,
) -> Result<(), AllocError>
    ensures text { OnOk result (Pushes
        (spec.conversion (type_or_none symbol_type.entry) (spec.arguments (name_of name.now) flags.bits)
        (spec.name_pieces (name_of name.now) true flags.bits) flags.bits) flags.bits stack.old.items stack.new.items) }
    ensures lighter { OnOk result (AddsAtMost (1 + name_weight (name_of name.now)
        + type_weight (type_or_none symbol_type.entry) + type_weight (type_or_none symbol_type.entry))
        stack.old.items stack.new.items) }
{
    if flags.is_full() {
        return push_full_conversion(stack, name, symbol_type, flags);
    }
    match symbol_return(symbol_type) {
        Some(returned) => {
            push(stack, Item::After(returned, Pointed::No))?;
            push(stack, Item::Before(returned, Pointed::No))?;
            push(stack, Item::Text(b"operator "))
        }
        None => push(stack, Item::Name(name, true)),
    }
}

/// Pushes what the name of a table of virtual bases prints.
fn push_base_table<'a, 'b, W: Wording, S: Allocator>(
    stack: &mut Vec<Item<'a, 'b>, S>,
    flags: Style<W>,
) -> Result<(), AllocError>
    ensures text { OnOk result (Pushes (text (codes "`vbtable'{for `") ∷ []) flags.bits stack.old.items
        stack.new.items) }
    ensures lighter { OnOk result (AddsAtMost 1 stack.old.items stack.new.items) }
{
    push(stack, Item::Text(b"`vbtable'{for `"))
}

/// Writes the name of a literal operator.
fn write_literal<A: Allocator>(out: &mut Text<A>) -> Result<(), AllocError>
    ensures { OnOk result (Writes (spaced (codes "operator \"\"")) out.old out.new) }
{
    write_spaced_word(out, b"operator \"\"")
}
