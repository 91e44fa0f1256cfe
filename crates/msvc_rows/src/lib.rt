//! Compares the demangler with rows. Each line of standard input is one: flags in hexadecimal, a symbol, and `ok` with
//! the text or `err` with the offset and the message, separated by tabs. A text may have a number after it, of the
//! departure from LLVM in `docs/DIFFERENCES.md`, which is not read. A line that begins with `#` and a space is a heading
//! for the rows below it.
#![tactic(auto)]

use msvc_demangler::{DemangleFlags, Demangler, Error, Flags, Grammar, demangle};
use std::alloc::{AllocError, Global};
use std::io;

/// Prints each row of standard input that differs from what the demangler returns in a grammar. The last line has the
/// counts.
pub fn compare(rt: &HostRuntime, grammar: Grammar) -> io::Result<()> {
    let mut agree = 0u64;
    let mut differ = 0u64;
    for line in rt.lines(rt.alloc()) {
        let line = line?;
        if line.starts_with("# ") {
            continue;
        }
        if agrees(rt.alloc(), grammar, line.as_str())? {
            agree = agree.saturating_add(1);
        } else {
            differ = differ.saturating_add(1);
            println!(rt; "{line}")?;
        }
    }
    println!(rt; "{agree} rows agree, {differ} differ")
}

/// Returns whether the demangler returns the result of the row.
fn agrees(alloc: Global, grammar: Grammar, row: &str) -> Result<bool, AllocError> {
    let mut fields = row.splitn(5, '\t');
    let flags = fields.next().unwrap_or("");
    let symbol = fields.next().unwrap_or("");
    let kind = fields.next().unwrap_or("");
    let first = fields.next().unwrap_or("");
    let message = fields.next().unwrap_or("");
    let Ok(bits) = u32::from_str_radix(flags, 16) else {
        return Ok(false);
    };
    let flags = DemangleFlags::from_bits_retain(bits);
    match declared(alloc, grammar, symbol, flags) {
        Ok(text) => Ok(kind == "ok" && text.as_str() == first),
        Err(refusal) => {
            let shown = format!(in alloc; "{refusal}")?;
            let expected = format!(in alloc; "{message} (offset: {first}, remaining: ")?;
            Ok(kind == "err" && shown.as_str().starts_with(expected.as_str()))
        }
    }
}

/// Returns the declaration of the symbol that `input` begins with, in a grammar.
fn declared(
    alloc: Global,
    grammar: Grammar,
    input: &str,
    flags: DemangleFlags,
) -> Result<String, Error> {
    if grammar == Grammar::Crate {
        return demangle(alloc, input, flags);
    }
    let mut demangler = Demangler::with_grammar(alloc, grammar);
    let text = demangler.demangle(input, flags)?;
    Ok(String::from_str(alloc, text)?)
}
