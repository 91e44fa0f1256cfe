//! Symbols whose trees are far larger than their texts, since each digit represents a type with two digits in it.

use std::alloc::{AllocError, Global};

/// Returns a function of a pointer and of `functions` pointers to functions, each of which has two parameters of the
/// type before.
pub fn multiplied(alloc: Global, functions: u32) -> Result<String, AllocError> {
    let mut text = String::from_str(alloc, "?f@@YAXPAH")?;
    for digit in 0..functions {
        let function = format!(in alloc; "P6AX{digit}{digit}@Z")?;
        text.push_str(function.as_str())?;
    }
    text.push_str("@Z")?;
    Ok(text)
}
