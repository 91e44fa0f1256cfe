//! Queries on the result of a call, which the caller does not open. These functions are generic, so that only the code
//! that drops a tree is proved for trees.

use msvc_demangler::Error;
use std::alloc::{AllocError, Global};

/// The flags under which each text is tried: none, and those of LLVM's texts.
pub const WORDS: [u32; 2] = [0, 0xE00400];

/// Returns whether a call succeeded.
pub fn is_made<T: Drop>(made: Result<T, Error>) -> bool {
    made.is_ok()
}

/// Returns the error of a call, if it failed.
pub fn rejection_of<T: Drop>(made: Result<T, Error>) -> Option<Error> {
    match made {
        Ok(_) => None,
        Err(refusal) => Some(refusal),
    }
}

/// Returns whether a call failed with the error text `shown`.
pub fn is_rejected_so<T: Drop>(alloc: Global, made: Result<T, Error>, shown: &str) -> bool {
    match made {
        Ok(_) => false,
        Err(refusal) => is_shown(alloc, &refusal, shown),
    }
}

/// Returns whether the text of an error is `shown`.
pub fn is_shown(alloc: Global, refusal: &Error, shown: &str) -> bool {
    match shown_as(alloc, refusal) {
        Ok(other) => other.as_str() == shown,
        Err(_) => false,
    }
}

/// Returns the text of an error.
pub fn shown_as(alloc: Global, refusal: &Error) -> Result<String, AllocError> {
    format!(in alloc; "{refusal}")
}

/// Returns whether the offset of an error is inside the text.
pub fn is_within(refusal: &Error, text: &str) -> bool {
    match refusal.offset() {
        Some(offset) => offset <= text.len(),
        None => false,
    }
}
