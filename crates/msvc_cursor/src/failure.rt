//! The reason why a symbol has no declaration. It is a few numbers, and becomes an error with a text only where it
//! leaves a public call.

ghost use Rattle.std.specs.Prelude.{◌≡◌, ◌↔◌, ◌-◌, IfOk, IsTrue, length, string_bytes};
ghost use Rattle.std.specs.Cow.{cow_str_bytes};
ghost use Rattle.msvc_cursor.specs.Errors.{IsErrorOf, IsFailureText, IsInside, IsMessageAt, message_bytes};
ghost use Rattle.msvc_cursor.specs.Errors.{offset_of_failure};
ghost use Rattle.msvc_cursor.specs.Messages.{limit_of_failure, limit_of_message, message_words};
ghost use Rattle.msvc_cursor.specs.declared.failure.Failure.TheVariants as why;

use msvc_nodes::error::{Error, Limit, TOO_LONG, TOO_MANY_NODES, format_rejection, parse_error};
use std::alloc::{AllocError, Allocator, Global};
use std::borrow::CowStr;

/// The text of the error for a failed allocation.
const OUT_OF_MEMORY: &str = "out of memory";

/// The message of a syntax error.
#[derive(Clone, Copy, PartialEq, Eq, Debug)]
pub enum Message {
    NoQuestionMark,
    EndOfInput,
    MissingAt,
    NameExpected,
    BadNumber,
    NameReferenceTooLarge,
    InvalidBackReference(u8),
    InvalidArrayDimension(i32),
    UnknownStorageClass,
    UnknownPrimitiveType,
    UnknownCallingConv,
    UnknownFuncClass,
    ZExpected,
    AtExpected,
    QuestionMarkExpected,
    AExpected,
    BExpected,
    /// `4HA` is missing after the name of a thread-safe guard.
    GuardTypeExpected,
    MissingDigit,
    GuardNumberTooLarge,
    UnexpectedLocalGuardMarker,
    ExpectedUnsigned,
    UnknownStringCharacterType,
    /// A string has a byte that encodes no character.
    UnknownCharacter(u8),
    HashLength,
    UnknownOperatorName,
    UnknownRttiOperatorName,
    UnknownTemplateValue,
    UnknownManagedPointer,
    VariableExpected,
    ZeroExpected,
    /// `@_` is missing before a string.
    StringStartExpected,
    /// `@@` is missing after the variable of an initializer.
    InitializerEndExpected,
    /// `@8` is missing after the type of a descriptor.
    DescriptorEndExpected,
    /// `?0?` is missing before the function of a funclet.
    FuncletScopeExpected,
    /// `@4HA` is missing after the function of a funclet.
    FuncletEndExpected,
    /// The limit on nodes is reached.
    TooManyNodes,
}

/// The text of a message.
#[derive(Drop)]
pub enum MessageText<A: Allocator> {
    /// A text without a number.
    Fixed(&'static str),
    /// A text with a number or a character in it.
    Made(String<A>),
}

impl<A: Allocator> MessageText<A> {
    /// Returns the text.
    fn as_str(&self) -> &str
        ensures { result.now ≡ message_bytes self.now }
    {
        match self {
            MessageText::Fixed(text) => text,
            MessageText::Made(text) => text,
        }
    }
}

/// Converts the text of a message to that of an error, without a copy.
fn into_cow(text: MessageText<Global>) -> CowStr<'static>
    ensures { cow_str_bytes result ≡ message_bytes text }
{
    match text {
        MessageText::Fixed(text) => CowStr::Borrowed(text),
        MessageText::Made(text) => CowStr::Owned(text),
    }
}

impl Message {
    /// Returns the limit that the message is about.
    pub fn limit(self) -> Option<Limit>
        ensures { result ≡ limit_of_message self }
    {
        match self {
            Message::TooManyNodes => Some(Limit::Nodes),
            _ => None,
        }
    }

    /// Returns the text of the message. Only a text with a number in it is allocated.
    fn text<A: Allocator>(self, alloc: A) -> Result<MessageText<A>, AllocError>
        ensures { IfOk result (λ text. message_bytes text ≡ message_words self) }
    {
        let text = match self {
            Message::NoQuestionMark => "does not start with b'?'",
            Message::EndOfInput => "unexpected end of input",
            Message::MissingAt => "read_string: missing b'@'",
            Message::NameExpected => "name expected",
            Message::BadNumber => "bad number",
            Message::NameReferenceTooLarge => "name reference too large",
            Message::UnknownStorageClass => "unknown storage class",
            Message::UnknownPrimitiveType => "unknown primitive type",
            Message::UnknownCallingConv => "unknown calling conv",
            Message::UnknownFuncClass => "unknown func class",
            Message::ZExpected => "Z expected",
            Message::AtExpected => "@ expected",
            Message::QuestionMarkExpected => "? expected",
            Message::AExpected => "A expected",
            Message::BExpected => "B expected",
            Message::GuardTypeExpected => "4HA expected",
            Message::MissingDigit => "missing digit",
            Message::GuardNumberTooLarge => "static guard number too large",
            Message::UnexpectedLocalGuardMarker => "unexpected local guard marker",
            Message::ExpectedUnsigned => "expected unsigned",
            Message::UnknownStringCharacterType => "unknown string character type",
            Message::HashLength => "expected MD5 mangled name of length 32",
            Message::UnknownOperatorName => "unknown operator name",
            Message::UnknownRttiOperatorName => "unknown RTTI Operator name",
            Message::UnknownTemplateValue => "unknown template value",
            Message::UnknownManagedPointer => "unknown managed pointer",
            Message::VariableExpected => "variable expected",
            Message::ZeroExpected => "0 expected",
            Message::StringStartExpected => "@_ expected",
            Message::InitializerEndExpected => "@@ expected",
            Message::DescriptorEndExpected => "@8 expected",
            Message::FuncletScopeExpected => "?0? expected",
            Message::FuncletEndExpected => "@4HA expected",
            Message::TooManyNodes => TOO_MANY_NODES,
            Message::InvalidBackReference(index) => {
                return Ok(MessageText::Made(format!(in alloc; "invalid backreference: {index}")?));
            }
            Message::UnknownCharacter(byte) => {
                let character = char::from(byte);
                return Ok(MessageText::Made(format!(in alloc;
                    "unknown escaped encoded string character {character}"
                )?));
            }
            Message::InvalidArrayDimension(dimension) => {
                return Ok(MessageText::Made(format!(in alloc;
                    "invalid array dimension: {dimension}"
                )?));
            }
        };
        Ok(MessageText::Fixed(text))
    }
}

/// The reason why a symbol has no declaration. It borrows nothing and holds no memory.
#[derive(Clone, Copy, Debug)]
pub enum Failure {
    /// An allocation failed.
    Memory,
    /// The text is rejected with this message where this many bytes are unread.
    Rejected(Message, usize),
    /// The declaration has more bytes than allowed. The symbol takes this many bytes.
    TooLong(usize),
}

impl Failure {
    /// Returns whether memory ran out.
    pub fn is_out_of_memory(self) -> bool
        ensures { IsTrue result ↔ (self ≡ Failure.Memory) }
    {
        matches!(self, Failure::Memory)
    }

    /// Returns the limit that the failure is about; `None` for any other.
    pub fn limit(self) -> Option<Limit>
        ensures { result ≡ limit_of_failure self }
    {
        match self {
            Failure::Memory => None,
            Failure::Rejected(message, _) => message.limit(),
            Failure::TooLong(_) => Some(Limit::Bytes),
        }
    }

    /// Returns the offset in `input`, in bytes, at which it was rejected; 0 if memory ran out.
    pub fn offset(self, input: &str) -> usize
        ensures { result ≡ offset_of_failure input.now self }
    {
        match self {
            Failure::Memory => 0,
            Failure::Rejected(_, left) => input.len().saturating_sub(left),
            Failure::TooLong(length) => length,
        }
    }

    /// Returns what the error of a call prints that fails for this reason.
    ///
    /// # Errors
    ///
    /// Fails if an allocation fails.
    pub fn text<A: Allocator + Copy>(self, alloc: A, input: &str) -> Result<String<A>, AllocError>
        requires { IsInside input.now self }
        ensures { IfOk result (λ text. IsFailureText input.now self (string_bytes text)) }
    {
        match self {
            Failure::Memory => String::from_str(alloc, OUT_OF_MEMORY),
            Failure::Rejected(message, left) => {
                format_message(alloc, message, input.as_bytes(), left)
            }
            Failure::TooLong(length) => format_rejection(alloc, TOO_LONG, input.as_bytes(), length),
        }
    }

    /// Returns the error of a call that fails for this reason: the message, the offset in bytes, and the text at that
    /// offset.
    pub fn error(self, alloc: Global, input: &str) -> Error
        requires { IsInside input.now self }
        ensures { IsErrorOf self input.now result }
    {
        match self {
            Failure::Memory => Error::from(AllocError),
            Failure::Rejected(message, left) => match message.text(alloc) {
                Ok(message) => {
                    let offset = input.len().saturating_sub(left);
                    parse_error(alloc, into_cow(message), input.as_bytes(), offset)
                }
                Err(error) => Error::from(error),
            },
            Failure::TooLong(length) => {
                parse_error(alloc, CowStr::Borrowed(TOO_LONG), input.as_bytes(), length)
            }
        }
    }
}

impl From<AllocError> for Failure {
    ghost from_gives = { λ _ failure. failure ≡ why.Memory };

    fn from(_error: AllocError) -> Failure {
        Failure::Memory
    }
}

/// Returns what the error prints of a message where `left` bytes of `text` are unread.
fn format_message<A: Allocator + Copy>(
    alloc: A,
    message: Message,
    text: &[u8],
    left: usize,
) -> Result<String<A>, AllocError>
    ensures { IfOk result (λ said. IsMessageAt message text.now (length text.now - left) (string_bytes said)) }
{
    let message = message.text(alloc)?;
    format_rejection(
        alloc,
        message.as_str(),
        text,
        text.len().saturating_sub(left),
    )
}

/// Returned by a reader that failed. The parser holds the reason.
#[derive(Clone, Copy, Debug)]
pub struct Failed;
