//! How many bytes of memory are requested ahead. All sizes are in bytes.
//!
//! A first request that suffices for a whole symbol makes it the only one: an arena requests more than twice its last
//! block, and a list that grows leaves its old place unused.

ghost use Rattle.std.specs.Prelude.{◌≤◌, ◌^◌};

/// The most that is requested ahead for an arena: for a longer symbol, readers and printers request the rest as they
/// go.
const MAX_ARENA: usize = 1 << 20;

/// The nodes of most trees, and the stack to print them.
pub const TREE_ARENA: usize = 1 << 15;

/// The declarations of most trees.
pub const TREE_TEXT: usize = 128;

/// The longest symbol that has a small arena.
const SHORT: usize = 25;

/// The arena of such a symbol. With what the arena adds, `malloc` of glibc takes the block from a list of its size.
const SHORT_ARENA: usize = 960;

/// The most that is requested ahead for a declaration.
const MAX_TEXT: usize = 1 << 16;

/// The part of a declaration that doesn't depend on its symbol's length.
const TEXT_AT_FIRST: usize = 64;

/// The rest of a declaration, for each byte of its symbol: few names need more.
const TEXT_OF_A_BYTE: usize = 3;

/// Holds what a step takes of an arena at most.
#[derive(Clone, Copy)]
struct Need {
    /// Whatever the symbol.
    at_first: usize,
    /// For each byte of the symbol.
    of_a_byte: usize,
    /// For each node, where nodes are limited.
    of_a_node: usize,
}

/// Reading: a node and its parts, and their places in lists and tables, which have grown by doubling.
const READING: Need = Need {
    at_first: 1024,
    of_a_byte: 96,
    of_a_node: 384,
};

/// Printing: the stack, which has at most one item for two bytes, and has grown by doubling.
const PRINTING: Need = Need {
    at_first: 1024,
    of_a_byte: 64,
    of_a_node: 128,
};

/// Returns what a step needs for a symbol of `bytes` bytes and at most `nodes` nodes.
fn needed(need: Need, bytes: usize, nodes: Option<usize>) -> usize
    ensures max { result ≤ 2 ^ 20 }
{
    let by_bytes = bytes.saturating_mul(need.of_a_byte);
    let most = match nodes {
        Some(nodes) => by_bytes.min(nodes.saturating_mul(need.of_a_node)),
        None => by_bytes,
    };
    most.saturating_add(need.at_first).min(MAX_ARENA)
}

/// Returns what an arena needs to read a symbol that `input` begins with, of at most `nodes` nodes: at most a megabyte,
/// and nothing if `input` doesn't begin with `?`.
pub fn arena_to_read(input: &str, nodes: Option<usize>) -> usize
    ensures max { result ≤ 2 ^ 20 }
{
    match input.as_bytes() {
        [b'?', ..] => needed(READING, input.len(), nodes),
        _ => 0,
    }
}

/// Returns what an arena needs to read such a symbol and to print it: at most a megabyte, and nothing if `input`
/// doesn't begin with `?`.
pub fn arena_to_print(input: &str, nodes: Option<usize>) -> usize
    ensures max { result ≤ 2 ^ 20 }
{
    match input.as_bytes() {
        [b'?', rest @ ..] if rest.len() < SHORT => SHORT_ARENA,
        [b'?', ..] => needed(READING, input.len(), nodes)
            .saturating_add(needed(PRINTING, input.len(), nodes))
            .min(MAX_ARENA),
        _ => 0,
    }
}

/// Returns how many items the printer's stack begins with in an arena that has `left` bytes left: few in a small arena,
/// else more than most symbols need.
pub fn first_items(left: usize) -> usize {
    if left < SHORT_ARENA { 10 } else { 32 }
}

/// Returns the bytes of the declarations of most symbols of `bytes` bytes.
pub fn text_of(bytes: usize) -> usize {
    bytes
        .saturating_mul(TEXT_OF_A_BYTE)
        .saturating_add(TEXT_AT_FIRST)
        .min(MAX_TEXT)
}
