//! Nodes of several parts, and the parser's list of types. Each function stands outside the cycles of readers, which
//! then only call, so that a step lemma is all that the prover needs of a reader.
#![tactic(auto, using(crate::proofs::Nodes::views), unfolding(crate::specs::Parser::byte_here, msvc_rules::specs::Readers::counting, msvc_nodes::specs::NodeView::name_of, msvc_nodes::specs::NodeView::type_of))]

ghost use Rattle.std.specs.Prelude.{◌≡◌, ◌≤◌, ◌∷◌, ◌++◌, [], IfErr, IfOk, length, map, Some};
ghost use Rattle.msvc_nodes.specs.NodeView.{name_at, name_of, type_at, type_of, typed_symbol_of};
ghost use Rattle.msvc_nodes.specs.Trees as tree;
ghost use Rattle.msvc_nodes.specs.Trees.{base, name_trees, nested, no_names, plain, tagged, template, type_trees};
ghost use Rattle.msvc_nodes.specs.declared.kinds.PlainType.TheVariants as plain_kind;
ghost use Rattle.msvc_nodes.specs.declared.kinds.PrimitiveKind.TheVariants as base_kind;
ghost use Rattle.msvc_rules.specs.Readers.{in_node, with_value};
ghost use Rattle.msvc_cursor.specs.NestedList.{current, enclosing};
ghost use Rattle.msvc_cursor.specs.Parser.{counting_ellipsis, ellipsis_types, frame_of, ReadsAs, state_of, Stays};
ghost use Rattle.msvc_cursor.specs.Rows.{EndsNames, EndsTypes, ListsTypes, named_at, parts_at, typed_symbol_at};

use crate::budget::NodeBudget;
use crate::failure::{Failed, Failure};
use crate::nested_list::Checkpoint;
use crate::parser::Parser;
use bitflags::Flags;
use msvc_grammar::forms::Ellipsis;
use msvc_nodes::flags::{FuncClass, StorageClass};
use msvc_nodes::kinds::{Convention, PlainType, PrimitiveKind, TagKind};
use msvc_nodes::nodes::{Function, Name, Symbol, Template, Type, TypedSymbol};
use std::alloc::Allocator;

impl<'a, 'b, L: NodeBudget, A: Allocator> Parser<'a, 'b, L, A> {
    /// Stores a name in the scope on the list.
    pub fn put_symbol(
        &mut self,
        name: &'b Name<'a, 'b>,
        checkpoint: Checkpoint,
    ) -> Result<&'b Symbol<'a, 'b>, Failed>
        requires { checkpoint.from ≤ length (enclosing self.old.listed_names) }
        ensures value { ReadsAs named_at self.old self.new result
            (with_value (Some (name_of name.now, map name_at (current self.old.listed_names)))) }
        ensures state { IfOk result (λ _. state_of self.new ≡ state_of self.old) }
        ensures rest { IfOk result (λ _. self.new.rest.now ≡ self.old.rest.now) }
        ensures kept { EndsNames checkpoint self.old self.new result }
        ensures last_error { IfErr result (λ _. self.new.last_error.reason ≡ Failure.Memory) }
    {
        let Some(scope) = self.listed_names.end_in(self.arena, checkpoint) else {
            return Err(self.no_memory());
        };
        self.put(Symbol {
            name,
            scope: scope.items,
        })
    }

    /// Stores a symbol as a name.
    #[inline(never)]
    pub fn put_nested(
        &mut self,
        symbol: &'b TypedSymbol<'a, 'b>,
    ) -> Result<&'b Name<'a, 'b>, Failed>
        ensures value { ReadsAs name_at self.old self.new result
            (with_value (Some (nested (typed_symbol_of symbol.now).name (typed_symbol_of symbol.now).scope
            (typed_symbol_of symbol.now).symbol_type))) }
        ensures stays { Stays self.old self.new result }
    {
        self.put_name(Name::Nested(symbol))
    }

    /// Stores a template of its name and of the arguments on the list.
    #[inline(never)]
    pub fn put_template(
        &mut self,
        name: &'b Name<'a, 'b>,
        checkpoint: Checkpoint,
    ) -> Result<&'b Name<'a, 'b>, Failed>
        requires { checkpoint.from ≤ length (enclosing self.old.listed_types) }
        ensures value { ReadsAs name_at self.old self.new result
            (with_value (Some (template (name_of name.now)
            (type_trees (map type_at (current self.old.listed_types)))))) }
        ensures rest { IfOk result (λ _. self.new.rest.now ≡ self.old.rest.now) }
        ensures kept { EndsTypes checkpoint self.old self.new result }
    {
        let Some(arguments) = self.listed_types.end_in(self.arena, checkpoint) else {
            return Err(self.no_memory());
        };
        let template = self.put(Template {
            name,
            arguments: arguments.items,
        })?;
        self.put_name(Name::Template(template))
    }

    /// Stores a symbol with its type.
    #[inline(never)]
    pub fn put_typed_symbol(
        &mut self,
        symbol: &'b Symbol<'a, 'b>,
        symbol_type: &'b Type<'a, 'b>,
    ) -> Result<&'b TypedSymbol<'a, 'b>, Failed>
        ensures value { ReadsAs typed_symbol_at self.old self.new result
            (with_value (Some (record {
              name = name_of symbol.now.name.now;
              scope = name_trees (map name_at symbol.now.scope.now);
              symbol_type = type_of symbol_type.now;
            }))) }
        ensures stays { Stays self.old self.new result }
    {
        self.put(TypedSymbol {
            symbol: *symbol,
            symbol_type,
        })
    }

    /// Stores a symbol that has a name but no scope and no type. Its nodes are already counted.
    pub fn untyped_symbol(
        &mut self,
        name: &'b Name<'a, 'b>,
    ) -> Result<&'b TypedSymbol<'a, 'b>, Failed>
        ensures value { ReadsAs typed_symbol_at self.old self.new result
            (with_value (Some (record {
              name = name_of name.now;
              scope = no_names;
              symbol_type = plain plain_kind.None;
            }))) }
        ensures stays { Stays self.old self.new result }
    {
        // The type is written out, since the prover infers none for an empty slice.
        let scope: &[&Name<'a, 'b>] = &[];
        let symbol_type = self.put_type(Type::Plain(PlainType::None))?;
        self.put(TypedSymbol {
            symbol: Symbol { name, scope },
            symbol_type,
        })
    }

    /// Counts and stores a type without parts.
    #[inline(never)]
    pub fn new_plain(&mut self, kind: PlainType) -> Result<&'b Type<'a, 'b>, Failed>
        ensures value { ReadsAs type_at self.old self.new result
            (λ left s. in_node left s (with_value (Some (plain kind)))) }
        ensures node { IfOk result (λ t. type_at t ≡ plain kind) }
        ensures stays { Stays self.old self.new result }
    {
        self.count_node()?;
        self.put_type(Type::Plain(kind))
    }

    /// Stores a type of its name.
    #[tactic(auto, using(crate::proofs::Nodes::views))]
    pub fn put_tagged(
        &mut self,
        tag: TagKind,
        symbol: &'b Symbol<'a, 'b>,
        qualifiers: StorageClass,
    ) -> Result<&'b Type<'a, 'b>, Failed>
        ensures value { ReadsAs type_at self.old self.new result
            (with_value (Some (tagged tag (name_of symbol.now.name.now)
            (name_trees (map name_at symbol.now.scope.now)) qualifiers.0))) }
        ensures stays { Stays self.old self.new result }
    {
        self.put_type(Type::Tagged(tag, qualifiers, symbol))
    }

    /// Stores the parts of a function, with the parameters on the list.
    pub fn put_parts(
        &mut self,
        convention: Convention,
        class: FuncClass,
        this_qualifiers: StorageClass,
        returned: &'b Type<'a, 'b>,
        checkpoint: Checkpoint,
    ) -> Result<&'b Function<'a, 'b>, Failed>
        requires { checkpoint.from ≤ length (enclosing self.old.listed_types) }
        ensures value { ReadsAs parts_at self.old self.new result
            (with_value (Some (convention, (type_of returned.now, map type_at (current self.old.listed_types))))) }
        ensures given { IfOk result (λ f. (f.now.class.0 ≡ class.0) × (f.now.qualifiers.0 ≡ this_qualifiers.0)) }
        ensures seen { IfOk result (λ f. parts_at f
            ≡ (convention, (type_of returned.now, map type_at (current self.old.listed_types)))) }
        ensures state { IfOk result (λ _. state_of self.new ≡ state_of self.old) }
        ensures rest { IfOk result (λ _. self.new.rest.now ≡ self.old.rest.now) }
        ensures kept { EndsTypes checkpoint self.old self.new result }
        ensures last_error { IfErr result (λ _. self.new.last_error.reason ≡ Failure.Memory) }
    {
        let Some(parameters) = self.listed_types.end_in(self.arena, checkpoint) else {
            return Err(self.no_memory());
        };
        self.put(Function {
            convention,
            class,
            qualifiers: this_qualifiers,
            parameters: parameters.items,
            returned,
        })
    }

    /// Stores a function type of these parts and of the parameters on the list.
    #[inline(never)]
    pub fn put_function_type(
        &mut self,
        convention: Convention,
        this_qualifiers: StorageClass,
        returned: &'b Type<'a, 'b>,
        checkpoint: Checkpoint,
    ) -> Result<&'b Type<'a, 'b>, Failed>
        requires { checkpoint.from ≤ length (enclosing self.old.listed_types) }
        ensures value { ReadsAs type_at self.old self.new result
            (with_value (Some (tree.function convention (type_trees (map type_at (current self.old.listed_types)))
            this_qualifiers.0 (type_of returned.now)))) }
        ensures rest { IfOk result (λ _. self.new.rest.now ≡ self.old.rest.now) }
        ensures kept { EndsTypes checkpoint self.old self.new result }
    {
        let f = self.put_parts(
            convention,
            FuncClass::empty(),
            this_qualifiers,
            returned,
            checkpoint,
        )?;
        self.put_type(Type::Function(f))
    }

    /// Puts one `void`, which is already counted, on a new part of the list. The result ends that part.
    #[inline(never)]
    pub fn no_parameters(&mut self) -> Result<Checkpoint, Failed>
        ensures value { ReadsAs (λ _. map type_at (current self.new.listed_types)) self.old self.new result
            (with_value (Some (base base_kind.Void 0 ∷ []))) }
        ensures rest { IfOk result (λ _. self.new.rest.now ≡ self.old.rest.now) }
        ensures lists { ListsTypes self.old self.new result }
    {
        let checkpoint = self.listed_types.begin();
        let void = self.put_type(Type::Base(PrimitiveKind::Void, StorageClass::empty()))?;
        self.list_type(void)?;
        Ok(checkpoint)
    }

    /// Appends a type to the list of parameters.
    pub fn list_type(&mut self, parameter: &'b Type<'a, 'b>) -> Result<(), Failed>
        ensures rest { IfOk result (λ _. self.new.rest.now ≡ self.old.rest.now) }
        ensures state { IfOk result (λ _. state_of self.new ≡ state_of self.old) }
        ensures kept { IfOk result (λ _. frame_of self.new
            ≡ record (frame_of self.old) { listed_types = current self.old.listed_types ++ parameter.entry ∷ [] }) }
        ensures last_error { IfErr result (λ _. self.new.last_error.reason ≡ Failure.Memory) }
    {
        if self.listed_types.push(parameter).is_err() {
            return Err(self.no_memory());
        }
        Ok(())
    }

    /// Appends an ellipsis to the list of parameters, if there is one, and counts it as a node.
    #[inline(never)]
    pub fn list_ellipsis(&mut self, ellipsis: Ellipsis) -> Result<(), Failed>
        ensures value { ReadsAs (λ _. tt) self.old self.new result (counting_ellipsis ellipsis) }
        ensures rest { IfOk result (λ _. self.new.rest.now ≡ self.old.rest.now) }
        ensures seen { IfOk result (λ _. map type_at (current self.new.listed_types)
            ≡ map type_at (current self.old.listed_types) ++ ellipsis_types ellipsis) }
        ensures kept { IfOk result (λ _. frame_of self.new
            ≡ record (frame_of self.old) { listed_types = current self.new.listed_types }) }
    {
        match ellipsis {
            Ellipsis::Absent => Ok(()),
            Ellipsis::Present => {
                let dots = self.new_plain(PlainType::Variadic)?;
                self.list_type(dots)
            }
        }
    }
}
