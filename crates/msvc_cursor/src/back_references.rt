//! Back references: the tables of memorized names and types, and the digits that refer to their entries.

ghost use Rattle.std.specs.List.{list_any};
ghost use Rattle.std.specs.Prelude.{◌≡◌, ◌≤◌, ◌+◌, ◌-◌, ◌++◌, [], drop, length, map, nat_lt, slice_get, Some};
ghost use Rattle.std.specs.Prelude.{take};
ghost use Rattle.msvc_nodes.specs.Equality.{same_name, same_type};
ghost use Rattle.msvc_nodes.specs.NodeView.{name_at, name_of, type_at, type_of};
ghost use Rattle.msvc_rules.specs.Counts.{name_count, type_count};
ghost use Rattle.msvc_rules.specs.Readers.{name_known, name_stands, type_known, type_noted, with_value};
ghost use Rattle.msvc_rules.specs.State.{remember_name, remember_type, span_of};
ghost use Rattle.msvc_cursor.specs.Parser.{known_name_of, memorized_of, ReadsAs, Stays};
ghost use Rattle.msvc_cursor.specs.NestedList.{current, enclosing};

use crate::budget::NodeBudget;
use crate::entries::{MemorizedName, MemorizedType};
use crate::failure::{Failed, Message};
use crate::nested_list::{Checkpoint, NestedList};
use crate::parser::Parser;
use msvc_nodes::nodes::{Name, Type};
use msvc_nodes::same::{is_same_name, is_same_type};
use std::alloc::Allocator;

/// How many entries each of the two tables has at most.
const MAX_MEMORIZED: usize = 10;

/// A back reference: a digit that was read as a parameter. All fields are offsets into the text, in bytes.
#[derive(Clone, Copy, PartialEq, Eq, Debug)]
pub struct BackReference {
    /// The offset of the digit.
    pub at: usize,
    /// Where the text of the type it refers to starts.
    pub start: usize,
    /// Where that text ends.
    pub end: usize,
}

/// The tables of memorized names and types. A template has separate tables. While it is read, the entries of the
/// enclosing tables stand before them in the same lists.
#[derive(Drop)]
pub struct BackrefTables<'a, 'b, L: NodeBudget, A: Allocator> {
    pub names: NestedList<'b, MemorizedName<'a, 'b, L>, A>,
    pub types: NestedList<'b, MemorizedType<'a, 'b, L>, A>,
}

/// Where the tables that enclose a template begin.
#[derive(Clone, Copy)]
pub struct SavedTables {
    names: Checkpoint,
    types: Checkpoint,
}

impl<'a, 'b, L: NodeBudget, A: Allocator> BackrefTables<'a, 'b, L, A> {
    /// Begins a template, whose tables are empty. The result ends it.
    pub fn open_template(&mut self) -> SavedTables
        ensures place { (result.names.from ≡ length (enclosing self.old.names))
            × (result.types.from ≡ length (enclosing self.old.types)) }
        ensures current { (current self.new.names ≡ []) × (current self.new.types ≡ []) }
        ensures enclosing { (enclosing self.new.names ≡ enclosing self.old.names ++ current self.old.names)
            × (enclosing self.new.types ≡ enclosing self.old.types ++ current self.old.types) }
    {
        SavedTables {
            names: self.names.begin(),
            types: self.types.begin(),
        }
    }

    /// Ends a template: drops its entries and restores the enclosing tables.
    pub fn close_template(&mut self, saved: SavedTables)
        requires { (saved.names.from ≤ length (enclosing self.old.names))
            × (saved.types.from ≤ length (enclosing self.old.types)) }
        ensures current { (current self.new.names ≡ drop saved.names.from (enclosing self.old.names))
            × (current self.new.types ≡ drop saved.types.from (enclosing self.old.types)) }
        ensures enclosing { (enclosing self.new.names ≡ take saved.names.from (enclosing self.old.names))
            × (enclosing self.new.types ≡ take saved.types.from (enclosing self.old.types)) }
    {
        self.names.end(saved.names);
        self.types.end(saved.types);
    }
}

impl<'a, 'b, L: NodeBudget, A: Allocator> Parser<'a, 'b, L, A> {
    /// Stores a name without parts in the arena, memorizes it and returns it.
    pub fn put_and_add_name(&mut self, name: Name<'a, 'b>) -> Result<&'b Name<'a, 'b>, Failed>
        requires { name_count L.weight (name_of name) ≡ L.weight }
        ensures value { ReadsAs name_at self.old self.new result
            (λ left s. with_value (Some (name_of name.entry)) left (remember_name (name_of name.entry) s)) }
        ensures stays { Stays self.old self.new result }
    {
        let name = self.put_name(name)?;
        self.add_name(name, L::one())
    }

    /// Memorizes a name that has `nodes` nodes, unless the table is full or has an equal one, and returns it.
    pub fn add_name(&mut self, name: &'b Name<'a, 'b>, nodes: L) -> Result<&'b Name<'a, 'b>, Failed>
        requires { L.used nodes ≡ name_count L.weight (name_of name.now) }
        ensures value { ReadsAs name_at self.old self.new result
            (λ left s. with_value (Some (name_of name.now)) left (remember_name (name_of name.now) s)) }
        ensures stays { Stays self.old self.new result }
    {
        self.add_name_inline(name, nodes)
    }

    /// Memorizes a name as [`Parser::add_name`] does, inlined into its caller. Of the readers, only those outside the
    /// cycle call it, since it takes more stack.
    #[inline(always)]
    pub fn add_name_inline(
        &mut self,
        name: &'b Name<'a, 'b>,
        nodes: L,
    ) -> Result<&'b Name<'a, 'b>, Failed>
        requires { L.used nodes ≡ name_count L.weight (name_of name.now) }
        ensures value { ReadsAs name_at self.old self.new result
            (λ left s. with_value (Some (name_of name.now)) left (remember_name (name_of name.now) s)) }
        ensures stays { Stays self.old self.new result }
    {
        let names = self.tables.names.items();
        if names.len() >= MAX_MEMORIZED || is_known_name(names, name) {
            return Ok(name);
        }
        let entry = MemorizedName {
            memorized: name,
            nodes,
        };
        if self.tables.names.push(entry).is_err() {
            return Err(self.no_memory());
        }
        Ok(name)
    }

    /// Returns the name that a digit refers to, or an error if the table has no such entry.
    #[inline(never)]
    pub fn name_of_digit(&mut self, digit: u8) -> Result<&'b Name<'a, 'b>, Failed>
        ensures value { ReadsAs name_at self.old self.new result
            (λ left s. name_known (slice_get s.names digit) left s) }
        ensures stays { Stays self.old self.new result }
    {
        let Some(known) = self.tables.names.get(usize::from(digit)) else {
            return Err(self.reject(Message::NameReferenceTooLarge));
        };
        self.count_nodes(known.nodes)?;
        Ok(known.memorized)
    }

    /// Returns an error if the table has no name that a digit refers to. It counts no node.
    pub fn check_name_of_digit(&mut self, digit: u8) -> Result<(), Failed>
        ensures value { ReadsAs (λ _. tt) self.old self.new result
            (λ left s. name_stands (slice_get s.names digit) left s) }
        ensures stays { Stays self.old self.new result }
    {
        if self.tables.names.get(usize::from(digit)).is_none() {
            return Err(self.reject(Message::NameReferenceTooLarge));
        }
        Ok(())
    }

    /// Returns the type that a digit inside another type refers to, or an error if the table has no such entry.
    pub fn type_of_digit(&mut self, digit: u8) -> Result<&'b Type<'a, 'b>, Failed>
        ensures value { ReadsAs type_at self.old self.new result
            (λ left s. type_known (slice_get s.types digit) left s) }
        ensures stays { Stays self.old self.new result }
    {
        let Some(known) = self.tables.types.get(usize::from(digit)) else {
            return Err(self.reject(Message::InvalidBackReference(digit)));
        };
        self.count_nodes(known.nodes)?;
        Ok(known.memorized)
    }

    /// Returns the type that a digit as a parameter refers to, and notes the back reference. `start` begins with the
    /// digit.
    #[tactic(auto, using(crate::proofs::Nodes::entry_split))]
    #[inline(never)]
    pub fn parameter_of_digit(
        &mut self,
        digit: u8,
        start: &[u8],
    ) -> Result<&'b Type<'a, 'b>, Failed>
        ensures value { ReadsAs type_at self.old self.new result
            (λ left s. type_noted (slice_get s.types digit) start.now left s) }
        ensures stays { Stays self.old self.new result }
    {
        let Some(entry) = self.tables.types.get(usize::from(digit)) else {
            return Err(self.reject(Message::InvalidBackReference(digit)));
        };
        let note = BackReference {
            at: self.offset_of(start),
            start: entry.start,
            end: entry.end,
        };
        if self.references.push(note).is_err() {
            return Err(self.no_memory());
        }
        self.count_nodes(entry.nodes)?;
        Ok(entry.memorized)
    }

    /// Memorizes a type that has `nodes` nodes and whose text is `start` up to the bytes left, unless the table is full
    /// or has an equal one, and returns it.
    #[inline(never)]
    pub fn add_type(
        &mut self,
        memorized: &'b Type<'a, 'b>,
        start: &[u8],
        nodes: L,
    ) -> Result<&'b Type<'a, 'b>, Failed>
        requires { L.used nodes ≡ type_count L.weight (type_of memorized.now) }
        ensures value { ReadsAs type_at self.old self.new result
            (λ left s. with_value (Some (type_of memorized.now)) left
            (remember_type (span_of (type_of memorized.now) start.now left s) s)) }
        ensures stays { Stays self.old self.new result }
    {
        let types = self.tables.types.items();
        if types.len() >= MAX_MEMORIZED || is_known_type(types, memorized) {
            return Ok(memorized);
        }
        let entry = MemorizedType {
            memorized,
            start: self.offset_of(start),
            end: self.offset_of(self.rest),
            nodes,
        };
        if self.tables.types.push(entry).is_err() {
            return Err(self.no_memory());
        }
        Ok(memorized)
    }
}

/// Returns whether an equal name is in the list.
#[inline(always)]
fn is_known_name<'a, 'b, L: NodeBudget>(
    names: &[MemorizedName<'a, 'b, L>],
    name: &'b Name<'a, 'b>,
) -> bool
    ensures { result ≡ list_any (same_name (name_of name.now)) (map known_name_of names.now) }
{
    for known in names {
        if is_same_name(name, known.memorized) {
            return true;
        }
    }
    false
}

/// Returns whether an equal type is in the list.
fn is_known_type<'a, 'b, L: NodeBudget>(
    types: &[MemorizedType<'a, 'b, L>],
    memorized: &'b Type<'a, 'b>,
) -> bool
    ensures { result ≡ list_any (λ known. same_type (type_of memorized.now) known.entered)
        (map memorized_of types.now) }
{
    for known in types {
        if is_same_type(memorized, known.memorized) {
            return true;
        }
    }
    false
}

/// Returns whether more than one byte was read from `left` to `rest`. Only such a parameter is memorized.
pub fn enters_table(left: &[u8], rest: &[u8]) -> bool
    ensures { result ≡ nat_lt 1 (length left.now - length rest.now) }
{
    left.len().saturating_sub(rest.len()) > 1
}
