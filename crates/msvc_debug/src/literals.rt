//! Writes string constants and other bytes of a symbol as text. The escapes are those of `{:?}` of a text, whose own
//! contract speaks of ASCII alone.
#![tactic(auto, using(crate::proofs::Texts::lossy), unfolding(crate::specs::Literals::escaped, crate::specs::Literals::literal_text))]

ghost use Rattle.std.specs.Prelude.{◌≡◌, ◌++◌, OnOk};
ghost use Rattle.std.specs.List.{flat_map};
ghost use Rattle.std.specs.Str.{chars};
ghost use Rattle.std.specs.Str.Lossy.{utf8_lossy};
ghost use Rattle.std.specs.String.{string_bytes};
ghost use Rattle.msvc_debug.specs.Literals as spec;

use crate::hidden::is_hidden;
use std::alloc::{AllocError, Allocator};
use std::str::from_utf8;

/// Appends bytes of the symbol as text; what is no UTF-8 becomes U+FFFD.
pub(crate) fn write_spelled<B: Allocator, A: Allocator>(
    alloc: B,
    text: &mut String<A>,
    bytes: &[u8],
) -> Result<(), AllocError>
    ensures { OnOk result (string_bytes text.new ≡ string_bytes text.old ++ utf8_lossy bytes.now) }
{
    match from_utf8(bytes) {
        Ok(spelled) => text.push_str(spelled),
        Err(_) => {
            let spelled = String::from_utf8_lossy(alloc, bytes)?;
            text.push_str(spelled.as_str())
        }
    }
}

/// Appends the bytes of a string constant in quotes, as `{:?}` of them as text does.
pub(crate) fn write_literal<B: Allocator, A: Allocator>(
    alloc: B,
    text: &mut String<A>,
    bytes: &[u8],
) -> Result<(), AllocError>
    ensures { OnOk result (string_bytes text.new ≡ string_bytes text.old ++ spec.literal_text bytes.now) }
{
    let spelled = String::from_utf8_lossy(alloc, bytes)?;
    text.push('"')?;
    write_characters(text, spelled.as_str())?;
    text.push('"')
}

/// Appends the characters of a string constant.
fn write_characters<A: Allocator>(text: &mut String<A>, spelled: &str) -> Result<(), AllocError>
    ensures { OnOk result (string_bytes text.new
        ≡ string_bytes text.old ++ flat_map spec.escaped (chars spelled.now)) }
{
    for character in spelled.chars() {
        write_character(text, character)?;
    }
    Ok(())
}

/// Appends a character of a string constant.
fn write_character<A: Allocator>(text: &mut String<A>, character: char) -> Result<(), AllocError>
    ensures { OnOk result (string_bytes text.new ≡ string_bytes text.old ++ spec.escaped character) }
{
    match character {
        '\0' => text.push_str("\\0"),
        '\t' => text.push_str("\\t"),
        '\n' => text.push_str("\\n"),
        '\r' => text.push_str("\\r"),
        '"' => text.push_str("\\\""),
        '\\' => text.push_str("\\\\"),
        _ => write_shown_or_coded(text, character),
    }
}

/// Appends a character, or its code if it is hidden.
fn write_shown_or_coded<A: Allocator>(
    text: &mut String<A>,
    character: char,
) -> Result<(), AllocError>
    ensures { OnOk result (string_bytes text.new ≡ string_bytes text.old ++ spec.shown_or_coded character) }
{
    let code = character as u32;
    if is_hidden(code) {
        return write_code(text, code);
    }
    text.push(character)
}

/// Appends the code of a character.
fn write_code<A: Allocator>(text: &mut String<A>, code: u32) -> Result<(), AllocError>
    ensures { OnOk result (string_bytes text.new ≡ string_bytes text.old ++ spec.code_text code) }
{
    text.push_str("\\u{")?;
    write!(text, "{code:x}")?;
    text.push('}')
}
