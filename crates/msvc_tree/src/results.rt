//! Boxes, pushes and pairs the results of steps, without opening them in the caller. A value that is not kept is
//! dropped here, in code that is proved once for every type, not in each function that calls the step.

ghost use Rattle.std.specs.Prelude.{◌≡◌, ◌<◌, ◌+◌, ◌∷◌, ◌++◌, [], Err, IfErr, IfOk, Ok, vec_capacity, vec_len};
ghost use Rattle.std.specs.Result.{IsOkAnd};
ghost use Rattle.msvc_tree.specs.Results.{IsBoxed};

use std::alloc::{AllocFailed, Global};

/// Boxes the value that was made. Returns its error if it failed, or that of a failed allocation.
pub(crate) fn box_ok<T: Drop, E: From<AllocFailed<T>>>(
    alloc: Global,
    made: Result<T, E>,
) -> Result<Box<T>, E>
    ensures { IsBoxed E.from_gives (λ b. b.value) made result }
{
    match Box::new(alloc, made?) {
        Ok(boxed) => Ok(boxed),
        Err(error) => Err(E::from(error)),
    }
}

/// Pushes the value that was made to a list with spare capacity. Returns its error if it failed.
pub(crate) fn push_ok<T: Drop, E: Drop>(list: &mut Vec<T>, made: Result<T, E>) -> Result<(), E>
    requires { vec_len list.old < vec_capacity list.old }
    ensures items { IfOk result (λ _. IsOkAnd made (λ x. list.new.items ≡ list.old.items ++ x ∷ [])) }
    ensures len { IfOk result (λ _. vec_len list.new ≡ vec_len list.old + 1) }
    ensures capacity { vec_capacity list.new ≡ vec_capacity list.old }
    ensures error { IfErr result (λ e. made ≡ Err e) }
{
    list.push_reserved(made?);
    Ok(())
}

/// Pairs two values that were made. Returns the first error if one failed.
pub(crate) fn pair_ok<A: Drop, B: Drop, E: Drop>(
    first: Result<A, E>,
    second: Result<B, E>,
) -> Result<(A, B), E>
    ensures { IfOk result (λ p. (first ≡ Ok p.0) × (second ≡ Ok p.1)) }
{
    let first = first?;
    Ok((first, second?))
}
