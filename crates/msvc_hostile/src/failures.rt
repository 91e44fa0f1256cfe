//! Compares the errors of the calls of a demangler that fail with a few numbers.

ghost use Rattle.std.specs.Prelude.{IfErr};
ghost use Rattle.msvc_demangler.specs.Failures.{IsInside};

use crate::made::is_shown;
use msvc_demangler::{DemangleFlags, Demangler, Failure, Limits};
use std::alloc::Global;

/// Returns whether `declaration`, `declare` and `measure` reject a text under limits with the error text `shown`.
pub fn all_fail(
    alloc: Global,
    demangler: &mut Demangler,
    text: &str,
    limits: Limits,
    shown: &str,
) -> bool {
    let grammar = demangler.grammar();
    let flags = DemangleFlags::COMPLETE;
    let declaration = demangler.declaration(grammar, text, flags, limits);
    if !fails(alloc, text, declaration, shown) {
        return false;
    }
    let declared = demangler.declare(grammar, text, flags, limits);
    let measured = demangler.measure(grammar, text, limits);
    fails(alloc, text, declared, shown) && fails(alloc, text, measured, shown)
}

/// Returns whether what a call over a text returned is a failure with the error text `shown`.
fn fails<T: Copy>(alloc: Global, text: &str, found: Result<T, Failure>, shown: &str) -> bool
    requires { IfErr found (λ failure. IsInside text.now failure) }
{
    match found {
        Ok(_) => false,
        Err(failure) => is_shown(alloc, &failure.error(alloc, text), shown),
    }
}
