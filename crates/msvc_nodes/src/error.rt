//! Errors: why a text was rejected, or that memory ran out, and what an error prints. Which message a text is rejected
//! with is up to the parser.

ghost use Rattle.std.specs.Prelude.{◌≡◌, ◌≤◌, ◌↔◌, length, IfOk, IfSome, IsTrue, is_some, string_bytes};
ghost use Rattle.std.specs.Cow.{cow_str_bytes};
ghost use Rattle.std.specs.Str.{IsAscii};
ghost use Rattle.msvc_nodes.specs.declared.error.ErrorRepr.{ErrorRepr};
ghost use Rattle.msvc_nodes.specs.declared.error.ErrorRepr.TheVariants.{FromUtf8, Memory, Utf8};
ghost use Rattle.msvc_nodes.specs.Errors.{IsMessageOrMemory, IsRejectionOrMemory, context_of};
ghost use Rattle.msvc_nodes.specs.Errors.{context_text_of, error_text, limit_of, message_limit, offset_of};
ghost use Rattle.msvc_nodes.specs.Errors.{rejection_text, shortened_text};

use std::alloc::{AllocError, AllocFailed, Allocator, Global};
use std::borrow::CowStr;
use std::fmt;
use std::marker::Model;
use std::str::Utf8Error;
use std::string::FromUtf8Error;

/// How many bytes of the input an error shows at most.
const CONTEXT_LENGTH: usize = 20;

/// The message of an error for a tree with more nodes than a caller allows.
pub const TOO_MANY_NODES: &str = "more nodes than allowed";

/// The message of an error for a declaration with more bytes than a caller allows.
pub const TOO_LONG: &str = "longer than allowed";

/// A limit that a caller sets.
#[derive(Clone, Copy, Debug, PartialEq, Eq)]
pub enum Limit {
    /// The nodes of a tree.
    Nodes,
    /// The bytes of a declaration.
    Bytes,
}

/// Why a call failed. It borrows nothing from the input. Contracts see it as its `ErrorRepr`.
#[derive(Debug, Drop)]
pub struct Error {
    repr: ErrorRepr,
}

/// What an `Error` holds.
#[derive(Debug, Drop)]
pub enum ErrorRepr {
    /// Owned bytes are not UTF-8, and why.
    FromUtf8(FromUtf8Error),
    /// Borrowed bytes are not UTF-8, and why.
    Utf8(Utf8Error),
    /// A text is no symbol: the message, the input at the offset, cut short, and the offset in bytes.
    ParseError(CowStr<'static>, String, usize),
    /// A message alone.
    Other(String),
    /// Out of memory.
    Memory,
}

impl Model for Error {
    ghost Value = { ErrorRepr };

    ghost view = { λ e. e.repr };
}

impl Error {
    /// Makes an error of the message `s`, which is copied, or an error out of memory if the copy fails.
    pub fn new(alloc: Global, s: &str) -> Error
        ensures { IsMessageOrMemory s.now result }
    {
        let repr = match String::from_str(alloc, s) {
            Ok(message) => ErrorRepr::Other(message),
            Err(_) => ErrorRepr::Memory,
        };
        Error { repr }
    }

    /// Returns the offset in the input, in bytes, at which it was rejected; `None` for any other error.
    pub fn offset(&self) -> Option<usize>
        ensures { result ≡ offset_of self.now }
    {
        match &self.repr {
            ErrorRepr::ParseError(_, _, offset) => Some(*offset),
            _ => None,
        }
    }

    /// Tests whether memory ran out.
    pub fn is_out_of_memory(&self) -> bool
        ensures { IsTrue result ↔ (self.now ≡ Memory) }
    {
        matches!(&self.repr, ErrorRepr::Memory)
    }

    /// Returns the limit that the error is about; `None` for any other error.
    pub fn limit(&self) -> Option<Limit>
        ensures { result ≡ limit_of self.now }
    {
        match &self.repr {
            ErrorRepr::ParseError(message, _, _) => message_limit(message.as_bytes()),
            _ => None,
        }
    }

    /// Tests whether the error is about a limit.
    pub fn is_over_limit(&self) -> bool
        ensures { result ≡ is_some (limit_of self.now) }
    {
        self.limit().is_some()
    }
}

/// Returns the limit that a message is about.
fn message_limit(message: &[u8]) -> Option<Limit>
    ensures { result ≡ message_limit message.now }
{
    if message == TOO_MANY_NODES.as_bytes() {
        Some(Limit::Nodes)
    } else if message == TOO_LONG.as_bytes() {
        Some(Limit::Bytes)
    } else {
        None
    }
}

/// Makes the error that rejects `input` at `offset`, in bytes, with a message that is borrowed or was made for it. Its
/// context is the input from there on, or 20 bytes of it and three dots, copied. If the copy fails, the error is out of
/// memory.
pub fn parse_error(alloc: Global, message: CowStr<'static>, input: &[u8], offset: usize) -> Error
    requires { offset ≤ length input.now }
    ensures rejection { IsRejectionOrMemory (cow_str_bytes message.entry) (context_text_of input.now offset) offset
        result }
    ensures ascii { IsAscii input.now →
        IsRejectionOrMemory (cow_str_bytes message.entry) (context_of input.now offset) offset result }
{
    let repr = match context(alloc, &input[offset..]) {
        Ok(context) => ErrorRepr::ParseError(message, context, offset),
        Err(_) => ErrorRepr::Memory,
    };
    Error { repr }
}

/// Copies what an error shows of the bytes that remain at its offset.
#[tactic(auto, using(crate::proofs::Contexts::lossy_text))]
fn context<A: Allocator>(alloc: A, remaining: &[u8]) -> Result<String<A>, AllocError>
    ensures { IfOk result (λ text. string_bytes text ≡ shortened_text remaining.now) }
{
    if remaining.len() <= CONTEXT_LENGTH {
        return String::from_utf8_lossy(alloc, remaining);
    }
    let mut text = String::from_utf8_lossy(alloc, &remaining[..CONTEXT_LENGTH])?;
    text.push_str("...")?;
    Ok(text)
}

/// Why an input is rejected, as an error prints it.
#[derive(Clone, Copy)]
struct Rejection<'m, 'c> {
    message: &'m str,
    /// The input at the offset, cut short.
    context: &'c str,
    /// In bytes.
    offset: usize,
}

impl<'m, 'c> fmt::Display for Rejection<'m, 'c> {
    ghost output = { λ r. rejection_text r.message.now r.context.now r.offset };

    fn fmt<W: fmt::Write>(&self, f: &mut fmt::Formatter<W>) -> fmt::Result {
        let Rejection {
            message,
            context,
            offset,
        } = *self;
        write!(f, "{message} (offset: {offset}, remaining: {context:?})")
    }
}

/// Returns the text that the error of [`parse_error`] prints, for a message, an input and an offset in bytes.
pub fn format_rejection<A: Allocator + Copy>(
    alloc: A,
    message: &str,
    input: &[u8],
    offset: usize,
) -> Result<String<A>, AllocError>
    requires { offset ≤ length input.now }
    ensures { IfOk result (λ text. IfSome
        (rejection_text message.now (context_text_of input.now offset) offset) (λ said. string_bytes text ≡ said)) }
{
    let context = context(alloc, &input[offset..])?;
    let rejection = Rejection {
        message,
        context: &context,
        offset,
    };
    format!(in alloc; "{rejection}")
}

impl fmt::Display for Error {
    ghost output = { error_text };

    fn fmt<W: fmt::Write>(&self, f: &mut fmt::Formatter<W>) -> fmt::Result {
        match &self.repr {
            ErrorRepr::FromUtf8(cause) => write!(f, "{cause}"),
            ErrorRepr::Utf8(cause) => write!(f, "{cause}"),
            ErrorRepr::ParseError(message, context, offset) => {
                let rejection = Rejection {
                    message: message.as_str(),
                    context,
                    offset: *offset,
                };
                write!(f, "{rejection}")
            }
            ErrorRepr::Other(message) => write!(f, "{message}"),
            ErrorRepr::Memory => write!(f, "out of memory"),
        }
    }
}

impl std::error::Error for Error {}

impl From<Utf8Error> for Error {
    ghost from_gives = { λ cause e. e ≡ Utf8 cause };

    fn from(cause: Utf8Error) -> Error {
        Error {
            repr: ErrorRepr::Utf8(cause),
        }
    }
}

impl From<FromUtf8Error> for Error {
    ghost from_gives = { λ cause e. e ≡ FromUtf8 cause };

    fn from(cause: FromUtf8Error) -> Error {
        Error {
            repr: ErrorRepr::FromUtf8(cause),
        }
    }
}

impl From<AllocError> for Error {
    ghost from_gives = { λ _ e. e ≡ Memory };

    fn from(_error: AllocError) -> Error {
        Error {
            repr: ErrorRepr::Memory,
        }
    }
}

impl<T: Drop> From<AllocFailed<T>> for Error {
    ghost from_gives = { λ _ e. e ≡ Memory };

    fn from(_error: AllocFailed<T>) -> Error {
        Error {
            repr: ErrorRepr::Memory,
        }
    }
}
