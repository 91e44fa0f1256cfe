//! A demangler, which keeps its memory from one symbol to the next.

ghost use Rattle.std.specs.Prelude.{◌≡◌, ℕ, List, [], IfErr, IfOk, None, OnOk, Some, map};
ghost use Rattle.msvc_nodes.specs.Trees.{SymbolTree};
ghost use Rattle.msvc_rules.specs.Counts.{node_count};
ghost use Rattle.msvc_rules.specs.Parsed.{AreReferencesIn, GrammarLawsIn, IsParsedIn, IsRejectedIn};
ghost use Rattle.msvc_rules.specs.Parsed.{IsSymbolLengthIn};
ghost use Rattle.msvc_cursor.specs.Errors.{IsInside};
ghost use Rattle.msvc_cursor.specs.Failures.{FailsIn};
ghost use Rattle.msvc_cursor.specs.Limits.{IsWithin, limit_of_number, limits_of};
ghost use Rattle.msvc_cursor.specs.Notes.{note_of};
ghost use Rattle.msvc_symbol.specs.Demangled.{HashesAreShown, IsDeclaredAsIn, IsDeclaredIn, IsDeclaredWithinIn};
ghost use Rattle.msvc_symbol.specs.Demangled.{IsErrorUnderIn, IsNamedAsIn};
ghost use Rattle.msvc_symbol.specs.Failures.{IsFailureIn};
ghost use Rattle.msvc_symbol.specs.Grammars.{dialect_of, word_with};
ghost use Rattle.msvc_symbol.specs.declared.grammar.Grammar.TheVariants.{Crate};

use crate::arena::Arena;
use crate::grammar::Grammar;
use crate::steps::{Named, copy_references, declare, declare_named, measure};
use alloc_fuse::Fuse;
use bumpalo::Bump;
use msvc_cursor::back_references::BackReference;
use msvc_cursor::failure::Failure;
use msvc_cursor::limits::Limits;
use msvc_nodes::error::Error;
use msvc_nodes::flags::DemangleFlags;
use msvc_print::Text;
use std::alloc::{AllocError, Allocator, Global};
use std::marker::Model;

/// A demangler of the symbols of a grammar. It keeps its memory: a symbol that needs no more than those before it makes
/// no request.
///
/// # Examples
///
/// ```
/// let mut demangler = Demangler::new(alloc);
/// assert_eq!(rt; demangler.demangle("?x@@3HA", DemangleFlags::llvm())?, "int x");
/// assert_eq!(rt; demangler.demangle("?f@@YAXXZ", DemangleFlags::NAME_ONLY)?, "f");
/// let mut full = Demangler::with_grammar(alloc, Grammar::Full);
/// let declared = full.demangle("?f@@YA?A?<auto>@@H@Z", DemangleFlags::llvm())?;
/// assert_eq!(rt; declared, "<auto> __cdecl f(int)");
/// ```
#[derive(Drop)]
pub struct Demangler<A: Allocator + Copy = Global>
where
    Fuse<A>: Allocator,
{
    grammar: Grammar,
    arena: Arena<A>,
    /// The declaration of the last symbol.
    text: Text<A>,
}

impl<A: Allocator + Copy> Model for Demangler<A>
where
    Fuse<A>: Allocator,
{
    ghost use Rattle.msvc_symbol.specs.Grammars.{Kept};

    ghost Value = { Kept };

    ghost view = { λ d. (record {
      grammar = d.grammar;
      text = d.text.text;
    }) };
}

impl<A: Allocator + Copy> Demangler<A> {
    /// Makes a demangler of the symbols that the crate `msvc-demangler` reads. Requests no memory.
    pub fn new(alloc: A) -> Demangler<A>
        ensures grammar { result.grammar ≡ Crate }
        ensures text { result.text ≡ Some [] }
    {
        Demangler::with_grammar(alloc, Grammar::Crate)
    }

    /// Makes a demangler of the symbols of a grammar. Requests no memory.
    pub fn with_grammar(alloc: A, grammar: Grammar) -> Demangler<A>
        ensures grammar { result.grammar ≡ grammar }
        ensures text { result.text ≡ Some [] }
    {
        Demangler {
            grammar,
            arena: Arena::new(alloc),
            text: Text::new(alloc),
        }
    }

    /// Makes a demangler of an arena and a text that have all the available memory. Neither is replaced, and no call
    /// reserves more memory than its symbol needs.
    pub fn over(alloc: A, grammar: Grammar, arena: Bump<Fuse<A>>, text: Text<A>) -> Demangler<A>
        ensures grammar { result.grammar ≡ grammar }
        ensures text { result.text ≡ text.text }
    {
        Demangler {
            grammar,
            arena: Arena::over(alloc, arena),
            text,
        }
    }

    /// Returns the allocator.
    pub fn alloc(&self) -> A {
        self.arena.alloc()
    }

    /// Returns the grammar whose symbols are read.
    pub fn grammar(&self) -> Grammar
        ensures { result ≡ self.now.grammar }
    {
        self.grammar
    }

    /// Reads the symbol of a grammar that `input` begins with, and prints its declaration as the demangler's text.
    /// Returns the bytes that the symbol takes. The grammar may be another than the demangler's.
    ///
    /// # Errors
    ///
    /// Fails if `input` begins with no symbol, if its tree or its declaration exceeds a limit, or if an allocation
    /// fails.
    pub fn declare(
        &mut self,
        grammar: Grammar,
        input: &str,
        flags: DemangleFlags,
        limits: Limits,
    ) -> Result<usize, Failure>
        ensures declared { IfOk result (λ length.
            IsDeclaredAsIn grammar limits input.now flags.0 length self.new.text) }
        ensures fails { IfErr result (λ failure. IsFailureIn grammar limits input.now flags.0 failure) }
        ensures inside { IfErr result (λ failure. IsInside input.now failure) }
        ensures keeps { self.new.grammar ≡ self.old.grammar }
    {
        let arena = self.arena.prepared(input, limits)?;
        let done = declare(grammar, arena, input, flags, limits, &mut self.text);
        self.arena.end(done)
    }

    /// Does what [`Demangler::declare`] does, and says where in the declaration the name of the symbol stands. In Full it
    /// leaves out what `left_out`, flags of [`llvm_flags`](msvc_print::llvm_flags), drops.
    ///
    /// # Errors
    ///
    /// Fails where [`Demangler::declare`] does.
    ///
    /// # Examples
    ///
    /// ```
    /// let mut demangler = Demangler::new(alloc);
    /// let input = "?f@S@@QEAAXXZ";
    /// let (flags, limits) = (DemangleFlags::llvm(), Limits::none());
    /// let named = demangler.declare_named(Grammar::Full, input, flags, 0, limits);
    /// assert!(rt; named.is_ok());
    /// if let Ok(named) = named {
    ///     let declared = demangler.declared();
    ///     assert_eq!(rt; declared, b"public: void __cdecl S::f(void)".as_slice());
    ///     assert_eq!(rt; &declared[named.place.start..named.place.end], b"S::f".as_slice());
    /// }
    /// ```
    pub fn declare_named(
        &mut self,
        grammar: Grammar,
        input: &str,
        flags: DemangleFlags,
        left_out: u64,
        limits: Limits,
    ) -> Result<Named, Failure>
        ensures declared { IfOk result (λ named.
            IsNamedAsIn grammar limits input.now (word_with grammar flags.0 left_out) named self.new.text) }
        ensures fails { IfErr result (λ failure.
            IsFailureIn grammar limits input.now (word_with grammar flags.0 left_out) failure) }
        ensures inside { IfErr result (λ failure. IsInside input.now failure) }
        ensures keeps { self.new.grammar ≡ self.old.grammar }
    {
        let arena = self.arena.prepared(input, limits)?;
        let done = declare_named(
            grammar,
            arena,
            input,
            flags,
            left_out,
            limits,
            &mut self.text,
        );
        self.arena.end(done)
    }

    /// Replaces the demangler's text.
    ///
    /// # Errors
    ///
    /// Fails if an allocation fails; the text is then unspecified.
    pub fn replace(&mut self, text: &[u8]) -> Result<(), AllocError>
        ensures text { OnOk result (self.new.text ≡ Some text.now) }
        ensures keeps { self.new.grammar ≡ self.old.grammar }
    {
        self.text.replace(text)
    }

    /// Returns the demangler's text: the declaration of the last symbol, in bytes, which are unspecified if that had
    /// none.
    pub fn declared(&self) -> &[u8]
        ensures { (bytes : List ℕ) → self.now.text ≡ Some bytes → result.now ≡ bytes }
    {
        self.text.as_bytes()
    }

    /// Returns the declaration of the symbol of a grammar that `input` begins with, within limits. It is borrowed until
    /// the next call.
    ///
    /// # Errors
    ///
    /// Fails where [`Demangler::declare`] does.
    pub fn declaration(
        &mut self,
        grammar: Grammar,
        input: &str,
        flags: DemangleFlags,
        limits: Limits,
    ) -> Result<&str, Failure>
        ensures declared { IfOk result (λ text.
            IsDeclaredWithinIn grammar limits input.now flags.0 text.now) }
        ensures fails { IfErr result (λ failure. IsFailureIn grammar limits input.now flags.0 failure) }
        ensures inside { IfErr result (λ failure. IsInside input.now failure) }
    {
        match self.declare(grammar, input, flags, limits) {
            Ok(_) => Ok(self.text.as_str()),
            Err(failure) => Err(failure),
        }
    }

    /// Returns the length in bytes of the symbol of a grammar that `input` begins with, within the limit on nodes.
    ///
    /// # Errors
    ///
    /// Fails if `input` begins with no symbol, if its tree has more nodes than allowed, or if an allocation fails.
    pub fn measure(
        &mut self,
        grammar: Grammar,
        input: &str,
        limits: Limits,
    ) -> Result<usize, Failure>
        ensures parsed { IfOk result (λ _. (tree : SymbolTree) × IsParsedIn (dialect_of grammar) input.now tree
            × IsWithin limits.nodes (node_count tree)) }
        ensures length { IfOk result (λ bytes. IsSymbolLengthIn (dialect_of grammar) bytes input.now) }
        ensures fails { IfErr result (λ failure. FailsIn (dialect_of grammar) limits.nodes input.now failure) }
        ensures inside { IfErr result (λ failure. IsInside input.now failure) }
        ensures keeps { self.new.grammar ≡ self.old.grammar }
    {
        let arena = self.arena.prepared(input, limits)?;
        let measured = measure(grammar, arena, input, limits);
        self.arena.end(measured)
    }

    /// Frees all memory. The next symbol requests it again.
    pub fn clear(&mut self)
        ensures text { self.new.text ≡ Some [] }
        ensures keeps { self.new.grammar ≡ self.old.grammar }
    {
        *self = Demangler::with_grammar(self.arena.alloc(), self.grammar);
    }

    /// Returns the demangler's arena, which it empties first.
    pub fn arena(&mut self) -> &Bump<Fuse<A>> {
        self.arena.emptied()
    }
}

impl Demangler<Global> {
    /// Returns the declaration of the symbol that `input` begins with, as `demangle` does. It is borrowed until the next
    /// call. What is proved of a call names the grammar that the demangler then has, but the prover knows nothing of a
    /// demangler once a text was borrowed from it: a caller that is to be proved over several calls passes the grammar
    /// to each, by [`Demangler::declaration`].
    ///
    /// # Errors
    ///
    /// Fails where `demangle` does, with the same error.
    pub fn demangle(&mut self, input: &str, flags: DemangleFlags) -> Result<&str, Error>
        ensures declared { IfOk result (λ text. (tree : SymbolTree)
            × IsDeclaredIn self.old.grammar input.now tree flags.0 text.now) }
        ensures rejected { IfErr result (λ e. IsRejectedIn (dialect_of self.old.grammar) None input.now e) }
        ensures laws { GrammarLawsIn (dialect_of self.old.grammar) input.now }
        ensures hashes { self.old.grammar ≡ Crate → IfOk result (λ text. HashesAreShown input.now text.now) }
    {
        self.demangle_within(input, flags, usize::MAX, usize::MAX)
    }

    /// Returns the declaration of the symbol that `input` begins with, as `demangle_within` does. It is
    /// borrowed until the next call.
    ///
    /// # Errors
    ///
    /// Fails where `demangle_within` does, with the same error.
    pub fn demangle_within(
        &mut self,
        input: &str,
        flags: DemangleFlags,
        nodes: usize,
        bytes: usize,
    ) -> Result<&str, Error>
        ensures declared { IfOk result (λ text.
            IsDeclaredWithinIn self.old.grammar (limits_of nodes bytes) input.now flags.0 text.now) }
        ensures rejected { IfErr result (λ e.
            IsErrorUnderIn self.old.grammar (limits_of nodes bytes) input.now flags.0 e) }
        ensures hashes { self.old.grammar ≡ Crate → IfOk result (λ text. HashesAreShown input.now text.now) }
    {
        let alloc = self.arena.alloc();
        let grammar = self.grammar;
        match self.declaration(grammar, input, flags, Limits::new(nodes, bytes)) {
            Ok(text) => Ok(text),
            Err(failure) => Err(failure.error(alloc, input)),
        }
    }

    /// Returns the length in bytes of the symbol that `input` begins with, as `symbol_length_within` does.
    ///
    /// # Errors
    ///
    /// Fails where `symbol_length_within` does, with the same error.
    pub fn symbol_length_within(&mut self, input: &str, nodes: usize) -> Result<usize, Error>
        ensures parsed { IfOk result (λ _. (tree : SymbolTree)
            × IsParsedIn (dialect_of self.old.grammar) input.now tree
            × IsWithin (limit_of_number nodes) (node_count tree)) }
        ensures length { IfOk result (λ bytes. IsSymbolLengthIn (dialect_of self.old.grammar) bytes input.now) }
        ensures rejected { IfErr result (λ e.
            IsRejectedIn (dialect_of self.old.grammar) (limit_of_number nodes) input.now e) }
        ensures keeps { self.new.grammar ≡ self.old.grammar }
    {
        match self.measure(self.grammar, input, Limits::new(nodes, usize::MAX)) {
            Ok(bytes) => Ok(bytes),
            Err(failure) => Err(failure.error(self.arena.alloc(), input)),
        }
    }

    /// Returns the digits that were read as whole parameters in the symbol that `input` begins with, as
    /// `back_references` does.
    ///
    /// # Errors
    ///
    /// Fails where `back_references` does, with the same error.
    pub fn back_references(&mut self, input: &str) -> Result<Vec<BackReference>, Error>
        ensures listed { IfOk result (λ found.
            AreReferencesIn (dialect_of self.old.grammar) input.now (map note_of found.items)) }
        ensures rejected { IfErr result (λ e. IsRejectedIn (dialect_of self.old.grammar) None input.now e) }
        ensures laws { GrammarLawsIn (dialect_of self.old.grammar) input.now }
        ensures keeps { self.new.grammar ≡ self.old.grammar }
    {
        match self.references(input) {
            Ok(found) => Ok(found),
            Err(failure) => Err(failure.error(self.arena.alloc(), input)),
        }
    }

    /// Returns what [`Demangler::back_references`] does, or why it fails.
    fn references(&mut self, input: &str) -> Result<Vec<BackReference>, Failure>
        ensures listed { IfOk result (λ found.
            AreReferencesIn (dialect_of self.old.grammar) input.now (map note_of found.items)) }
        ensures fails { IfErr result (λ failure. FailsIn (dialect_of self.old.grammar) None input.now failure) }
        ensures inside { IfErr result (λ failure. IsInside input.now failure) }
        ensures keeps { self.new.grammar ≡ self.old.grammar }
    {
        let alloc = self.arena.alloc();
        let grammar = self.grammar;
        let arena = self.arena.prepared(input, Limits::none())?;
        let copied = copy_references(grammar, alloc, arena, input);
        self.arena.end(copied)
    }
}
