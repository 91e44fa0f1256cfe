//! Lent memory, and a demangler over it.

ghost use Rattle.std.specs.Prelude.{◌≡◌, IsFalse, IsTrue};
ghost use Rattle.lent_memory.specs.Blocks.{no_memory};

use bumpalo::Bump;
use lent_memory::{Lent, Workspace};
use msvc_demangler::{Demangler, Fuse, Grammar, Text};

/// Bytes of the pages that an arena's first chunk comes to.
const PAGE: usize = 4096;

/// Bytes of a page that an arena does not request.
const UNREQUESTED: usize = 16;

/// Bytes of the first chunk that an arena needs for itself, with those that it does not request.
const OVERHEAD: usize = 64;

/// Takes the memory of a workspace, as an allocator.
pub(crate) fn lend(workspace: &mut Workspace) -> Lent
    ensures lent { result.slot ≡ (workspace.old.ptr, workspace.old.size) }
    ensures none { (workspace.new.ptr, workspace.new.size) ≡ no_memory }
{
    Lent::new(workspace.take())
}

/// Gives the memory back to its workspace, and returns whether all of it was there.
pub(crate) fn give_back(lent: Lent, workspace: &mut Workspace) -> bool
    requires { (workspace.old.ptr, workspace.old.size) ≡ no_memory }
    ensures back { IsTrue result → (workspace.new.ptr, workspace.new.size) ≡ lent.slot }
    ensures lost { IsFalse result → (workspace.new.ptr, workspace.new.size) ≡ no_memory }
{
    match lent.into_inner() {
        Some(memory) => {
            workspace.put_back(memory);
            true
        }
        None => false,
    }
}

/// Makes an arena of all the memory, if that has a page.
fn arena_in(memory: &Lent) -> Option<Bump<Fuse<&Lent>>> {
    let bytes = memory.size().saturating_add(UNREQUESTED) / PAGE * PAGE;
    match Bump::try_with_capacity(Fuse::new(memory), bytes.checked_sub(OVERHEAD)?) {
        Ok(arena) => Some(arena),
        Err(_) => None,
    }
}

/// Makes a demangler of all the memory, if that is enough for one.
pub(crate) fn demangler_in<'a>(arena: &'a Lent, text: &'a Lent) -> Option<Demangler<&'a Lent>> {
    let mut declaration = Text::new(text);
    match declaration.try_reserve(text.size()) {
        Ok(()) => Some(Demangler::over(arena, Grammar::Crate, arena_in(arena)?, declaration)),
        Err(_) => None,
    }
}

/// Makes a demangler of all the memory that has none for a declaration: it can read a symbol, but not print it.
pub(crate) fn demangler_without_text(arena: &Lent) -> Option<Demangler<&Lent>> {
    Some(Demangler::over(arena, Grammar::Crate, arena_in(arena)?, Text::new(arena)))
}
