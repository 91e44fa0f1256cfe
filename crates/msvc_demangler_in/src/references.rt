//! The list of back references, as C gets it.

ghost use Rattle.std.specs.Prelude.{◌≡◌, length, map};
ghost use Rattle.msvc_cursor.specs.Notes.{note_of};
ghost use Rattle.msvc_demangler_in.specs.Shown.{AreListed};

use msvc_demangler::BackReference;

/// A back reference: `struct msvc_demangler_reference` of the header.
#[repr(C)]
#[derive(Clone, Copy)]
pub struct Reference {
    /// The offset of the digit, in bytes.
    pub at: usize,
    /// The start of the text of the type that it refers to.
    pub start: usize,
    /// The end of that text.
    pub end: usize,
}

/// Writes the back references for which `out` has places, and returns how many there are.
pub(crate) fn write_references(found: &[BackReference], out: &mut [Reference]) -> usize
    ensures written { AreListed (map note_of found.now) out.old out.new }
    ensures number { result ≡ length (map note_of found.now) }
{
    let count = found.len().min(out.len());
    'entries: for i in 0..count {
        let BackReference { at, start, end } = found[i];
        out[i] = Reference { at, start, end };
    }
    found.len()
}
