//! The limits of a call.

ghost use Rattle.std.specs.Prelude.{◌≡◌, None};
ghost use Rattle.msvc_cursor.specs.Limits.{limit_of_number, limits_of};

/// Default limit on the nodes of a symbol that is not trusted. A call needs stack in proportion to the limit
/// (`docs/limits.md` has the figures), so a thread with a small stack needs a lower one.
pub const DEFAULT_NODE_LIMIT: usize = 10_000;

/// Default limit on the bytes of the declaration of a symbol that is not trusted.
pub const DEFAULT_BYTE_LIMIT: usize = 65_536;

/// The limits of a call. `None` is no limit, and leaves the other limit in force.
#[derive(Clone, Copy)]
pub struct Limits {
    /// The most nodes of the symbol's tree.
    pub nodes: Option<usize>,
    /// The most bytes of its declaration.
    pub bytes: Option<usize>,
}

impl Limits {
    /// Returns the limits that the numbers of a call set: `usize::MAX` is no limit.
    #[inline(always)]
    pub fn new(nodes: usize, bytes: usize) -> Limits
        ensures { result ≡ limits_of nodes bytes }
    {
        Limits {
            nodes: limit(nodes),
            bytes: limit(bytes),
        }
    }

    /// Returns that there is no limit.
    #[inline(always)]
    pub fn none() -> Limits
        ensures nodes { result.nodes ≡ None }
        ensures bytes { result.bytes ≡ None }
    {
        Limits {
            nodes: None,
            bytes: None,
        }
    }
}

/// Returns the limit that a number sets.
#[inline(always)]
fn limit(number: usize) -> Option<usize>
    ensures { result ≡ limit_of_number number }
{
    if number == usize::MAX {
        None
    } else {
        Some(number)
    }
}
