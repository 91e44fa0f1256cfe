//! The declaration of an owned tree.

ghost use Rattle.std.specs.Prelude.{◌≡◌, ◌<◌, IfOk, IfErr, Some, string_bytes};
ghost use Rattle.msvc_nodes.specs.declared.error.ErrorRepr.TheVariants.{Memory};
ghost use Rattle.msvc_tree.specs.View.{tree_of};
ghost use Rattle.msvc_print.specs.Declaration.{declaration};
ghost use Rattle.msvc_print.specs.Flags.{full_style};
ghost use Rattle.msvc_write.specs.Serialized.{IsTextOf};

use msvc_nodes::error::Error;
use msvc_nodes::flags::DemangleFlags;
use msvc_nodes::sizes::TREE_TEXT;
use msvc_print::{Text, into_string_lossy, print};
use msvc_tree::to_nodes::{arena_for_nodes, tree_to_nodes};
use msvc_tree::tree::ParseResult;
use std::alloc::{AllocError, Global};

/// Prints the declaration of a tree to a text without a limit.
fn declared(
    alloc: Global,
    input: &ParseResult<'_>,
    flags: DemangleFlags,
) -> Result<Text, AllocError>
    ensures text { IfOk result (λ out. out.text ≡ Some (declaration (tree_of input.now) flags.0)) }
    ensures narrow { IfOk result (λ _. flags.0 < full_style) }
{
    let arena = arena_for_nodes(alloc)?;
    let symbol = tree_to_nodes(&arena, input)?;
    let mut out = Text::new(alloc);
    out.try_reserve(TREE_TEXT)?;
    print(&arena, &symbol, flags, &mut out)?;
    Ok(out)
}

/// Returns the declaration of the tree `input` under `flags`.
///
/// Bits that are no flag change nothing. If a name of the symbol is not UTF-8, each piece that is not becomes U+FFFD.
///
/// # Errors
///
/// Fails only if an allocation fails.
///
/// # Examples
///
/// ```
/// let tree = parse(alloc, "?f@ns@@YAHPEBD@Z")?;
/// let text = serialize(alloc, &tree, DemangleFlags::NO_MS_KEYWORDS)?;
/// assert_eq!(rt; text.as_str(), "int ns::f(char const *)");
/// ```
pub fn serialize(
    alloc: Global,
    input: &ParseResult<'_>,
    flags: DemangleFlags,
) -> Result<String, Error>
    ensures text { IfOk result (λ text. IsTextOf (tree_of input.now) flags.0 (string_bytes text)) }
    ensures memory { IfErr result (λ e. e ≡ Memory) }
{
    let out = declared(alloc, input, flags)?;
    let text = into_string_lossy(alloc, out)?;
    Ok(text)
}
