//! A caller of the library whose contract rests on that of the library: it picks a demangler by the scheme of a name.
#![tactic(auto)]

ghost use Rattle.std.specs.Prelude.{IfOk, string_bytes};
ghost use Rattle.msvc_front.specs.Readable.{IsReadable};

use msvc_demangler::{DEFAULT_BYTE_LIMIT, DEFAULT_NODE_LIMIT, DemangleFlags, demangle_within};
use std::alloc::{AllocError, Global};

/// Returns `name` as people read it. A name with a leading `?` is a symbol of Microsoft's compiler: this returns its
/// declaration, and the name unchanged if it has none within the default limits. Names of other schemes are returned
/// unchanged.
///
/// # Errors
///
/// Fails if an allocation fails.
pub fn readable(alloc: Global, name: &str) -> Result<String, AllocError>
    ensures shown { IfOk result (λ text. IsReadable name.now (string_bytes text)) }
{
    if !name.starts_with('?') {
        return name.to_string(alloc);
    }
    let flags = DemangleFlags::llvm();
    match demangle_within(alloc, name, flags, DEFAULT_NODE_LIMIT, DEFAULT_BYTE_LIMIT) {
        Ok(text) => Ok(text),
        Err(error) => {
            if error.is_out_of_memory() {
                Err(AllocError)
            } else {
                name.to_string(alloc)
            }
        }
    }
}
