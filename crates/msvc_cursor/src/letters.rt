//! Tables of letters: one function per table returns what a letter stands for. Below them stand the readers of base
//! types.
#![tactic(auto, using(crate::proofs::TypeSteps::extended_step), unfolding(msvc_nodes::specs::NodeView::type_of))]

ghost use Rattle.std.specs.Option.{option_map};
ghost use Rattle.std.specs.Prelude.{◌≡◌};
ghost use Rattle.msvc_nodes.specs.NodeView.{type_at};
ghost use Rattle.msvc_rules.specs.Rules.{lookup};
ghost use Rattle.msvc_rules.specs.Sorts.{extended};
ghost use Rattle.msvc_grammar.specs.Letters.{base_types, character_sizes, conventions, digits, escaped_characters};
ghost use Rattle.msvc_grammar.specs.Letters.{extended_types, function_classes, hexadecimal, hexadecimal_codes};
ghost use Rattle.msvc_grammar.specs.Letters.{plain_characters, qualifiers, qualifiers_of_arrays, qualifiers_of_returns};
ghost use Rattle.msvc_grammar.specs.Letters.{reference_qualifiers, storage_classes};
ghost use Rattle.msvc_grammar.specs.Productions.{type_after};
ghost use Rattle.msvc_grammar.specs.Reading.{read_name};
ghost use Rattle.msvc_cursor.specs.Parser.{Consumes, ReadsAs, Stays, type_of_letter};

use crate::budget::NodeBudget;
use crate::failure::{Failed, Message};
use crate::parser::Parser;
use bitflags::Flags;
use msvc_nodes::base_types;
use msvc_nodes::flags::{FuncClass, StorageClass};
use msvc_nodes::kinds::{Convention, PrimitiveKind};
use msvc_nodes::nodes::Type;
use std::alloc::Allocator;

/// Returns the table entry that a digit refers to.
pub fn digit(letter: u8) -> Option<u8>
    ensures { result ≡ lookup letter digits }
{
    match letter {
        b'0'..=b'9' => Some(letter - b'0'),
        _ => None,
    }
}

/// Returns the value of a base 16 digit, written `A` to `P`.
pub fn hexadecimal(letter: u8) -> Option<u8>
    ensures { result ≡ lookup letter hexadecimal }
{
    match letter {
        b'A'..=b'P' => Some(letter - b'A'),
        _ => None,
    }
}

/// Returns the digit of a hash or of an anonymous namespace, unchanged.
pub fn hexadecimal_code(letter: u8) -> Option<u8>
    ensures { result ≡ lookup letter hexadecimal_codes }
{
    match letter {
        b'0'..=b'9' | b'a'..=b'f' | b'A'..=b'F' => Some(letter),
        _ => None,
    }
}

/// Returns `const` and `volatile` of a return type.
pub fn return_qualifier(letter: u8) -> Option<StorageClass>
    ensures { option_map (λ (q : StorageClass). q.0) result ≡ lookup letter qualifiers_of_returns }
{
    let qualifier = match letter {
        b'A' => StorageClass::empty(),
        b'B' => StorageClass::CONST,
        b'C' => StorageClass::VOLATILE,
        b'D' => StorageClass::CONST.union(StorageClass::VOLATILE),
        _ => return None,
    };
    Some(qualifier)
}

/// Returns `const` and `volatile` of array elements: no letter means `volatile` without `const`.
pub fn array_qualifier(letter: u8) -> Option<StorageClass>
    ensures { option_map (λ (q : StorageClass). q.0) result ≡ lookup letter qualifiers_of_arrays }
{
    let qualifier = match letter {
        b'A' => StorageClass::empty(),
        b'B' => StorageClass::CONST,
        b'C' | b'D' => StorageClass::CONST.union(StorageClass::VOLATILE),
        _ => return None,
    };
    Some(qualifier)
}

/// Returns `const` and `volatile` of the object of a member function.
pub fn qualifier(letter: u8) -> Option<StorageClass>
    ensures { option_map (λ (q : StorageClass). q.0) result ≡ lookup letter qualifiers }
{
    let qualifier = match letter {
        b'A' | b'Q' => StorageClass::empty(),
        b'B' | b'R' => StorageClass::CONST,
        b'C' | b'S' => StorageClass::VOLATILE,
        b'D' | b'T' => StorageClass::CONST.union(StorageClass::VOLATILE),
        _ => return None,
    };
    Some(qualifier)
}

/// Returns `&` and `&&` of a member function.
pub fn reference_qualifier(letter: u8) -> Option<StorageClass>
    ensures { option_map (λ (q : StorageClass). q.0) result ≡ lookup letter reference_qualifiers }
{
    match letter {
        b'G' => Some(StorageClass::LVALUE_QUAL),
        b'H' => Some(StorageClass::RVALUE_QUAL),
        _ => None,
    }
}

/// Returns `const`, `volatile` and `far` of a variable or of a pointee.
pub fn storage_class(letter: u8) -> Option<StorageClass>
    ensures { option_map (λ (q : StorageClass). q.0) result ≡ lookup letter storage_classes }
{
    let class = match letter {
        b'A' | b'Q' => StorageClass::empty(),
        b'B' | b'R' => StorageClass::CONST,
        b'C' | b'S' => StorageClass::VOLATILE,
        b'D' | b'T' => StorageClass::CONST.union(StorageClass::VOLATILE),
        b'E' => StorageClass::FAR,
        b'F' => StorageClass::CONST.union(StorageClass::FAR),
        b'G' => StorageClass::VOLATILE.union(StorageClass::FAR),
        b'H' => StorageClass::CONST
            .union(StorageClass::VOLATILE)
            .union(StorageClass::FAR),
        _ => return None,
    };
    Some(class)
}

/// The tables of qualifiers of which a symbol has one letter or none.
#[derive(Clone, Copy)]
pub enum OptionalLetters {
    /// Qualifiers of a variable or of a pointee.
    StorageClasses,
    /// `const` and `volatile` of a member function.
    Qualifiers,
    /// `&` and `&&` after a member function.
    ReferenceQualifiers,
}

/// Matches a letter with one of the two lists of `base_types`.
macro_rules! base_type_of_letter {
    ((alone $letter:ident) $rows:tt $after_underscore:tt) => {
        base_type_in!($letter $rows)
    };
    ((after_underscore $letter:ident) $alone:tt $rows:tt) => {
        base_type_in!($letter $rows)
    };
}

/// Matches a letter with rows of base types. Any other letter returns `None`.
macro_rules! base_type_in {
    ($letter:ident { $($code:literal $base:ident $word:literal $($other:literal)?,)* }) => {
        match $letter {
            $($code => PrimitiveKind::$base,)*
            _ => return None,
        }
    };
}

/// Returns the base type of a letter.
pub fn base_type(letter: u8) -> Option<PrimitiveKind>
    ensures { result ≡ lookup letter base_types }
{
    let base = base_types!(base_type_of_letter (alone letter));
    Some(base)
}

/// Returns the base type of a letter after an underscore.
pub fn extended_type(letter: u8) -> Option<PrimitiveKind>
    ensures { result ≡ lookup letter extended_types }
{
    let base = base_types!(base_type_of_letter (after_underscore letter));
    Some(base)
}

/// Returns how many bytes a character of a string has.
pub fn character_size(letter: u8) -> Option<u8>
    ensures { result ≡ lookup letter character_sizes }
{
    match letter {
        b'0' => Some(1),
        b'1' => Some(2),
        _ => None,
    }
}

/// Returns a character of a string that is written unchanged.
pub fn character(letter: u8) -> Option<u8>
    ensures { result ≡ lookup letter plain_characters }
{
    match letter {
        b'0'..=b'9' | b'a'..=b'z' | b'A'..=b'Z' | b'_' | b'$' => Some(letter),
        _ => None,
    }
}

/// Returns the character of a string that is written as `?` and this letter. Capital and small letters are equivalent.
pub fn escaped_character(letter: u8) -> Option<u8>
    ensures { result ≡ lookup letter escaped_characters }
{
    let character = match letter {
        b'a' | b'A' => 0xE1,
        b'b' | b'B' => 0xE2,
        b'c' | b'C' => 0xE3,
        b'd' | b'D' => 0xE4,
        b'e' | b'E' => 0xE5,
        b'f' | b'F' => 0xE6,
        b'g' | b'G' => 0xE7,
        b'h' | b'H' => 0xE8,
        b'i' | b'I' => 0xE9,
        b'j' | b'J' => 0xEA,
        b'k' | b'K' => 0xEB,
        b'l' | b'L' => 0xEC,
        b'm' | b'M' => 0xED,
        b'n' | b'N' => 0xEE,
        b'o' | b'O' => 0xEF,
        b'p' | b'P' => 0xF0,
        b'q' | b'Q' => 0xF1,
        b'r' | b'R' => 0xF2,
        b's' | b'S' => 0xF3,
        b't' | b'T' => 0xF4,
        b'u' | b'U' => 0xF5,
        b'v' | b'V' => 0xF6,
        b'w' | b'W' => 0xF7,
        b'x' | b'X' => 0xF8,
        b'y' | b'Y' => 0xF9,
        b'z' | b'Z' => 0xFA,
        b'0' => b',',
        b'1' => b'/',
        b'2' => b'\\',
        b'3' => b':',
        b'4' => b'.',
        b'5' => b' ',
        b'6' => b'\n',
        b'7' => b'\t',
        b'8' => b'\'',
        b'9' => b'-',
        _ => return None,
    };
    Some(character)
}

/// Returns how a function is called.
pub fn convention(letter: u8) -> Option<Convention>
    ensures { result ≡ lookup letter conventions }
{
    match letter {
        b'A' | b'B' => Some(Convention::Cdecl),
        b'C' => Some(Convention::Pascal),
        b'E' => Some(Convention::Thiscall),
        b'G' => Some(Convention::Stdcall),
        b'I' => Some(Convention::Fastcall),
        _ => None,
    }
}

/// Returns access and kind of a member function.
pub fn function_class(letter: u8) -> Option<FuncClass>
    ensures { option_map (λ (class : FuncClass). class.0) result ≡ lookup letter function_classes }
{
    let class = match letter {
        b'A' => FuncClass::PRIVATE,
        b'B' => FuncClass::PRIVATE.union(FuncClass::FAR),
        b'C' | b'D' => FuncClass::PRIVATE.union(FuncClass::STATIC),
        b'E' | b'F' => FuncClass::PRIVATE.union(FuncClass::VIRTUAL),
        b'G' => FuncClass::PRIVATE
            .union(FuncClass::VIRTUAL)
            .union(FuncClass::THUNK),
        b'H' => FuncClass::PRIVATE
            .union(FuncClass::VIRTUAL)
            .union(FuncClass::FAR)
            .union(FuncClass::THUNK),
        b'I' => FuncClass::PROTECTED,
        b'J' => FuncClass::PROTECTED.union(FuncClass::FAR),
        b'K' => FuncClass::PROTECTED.union(FuncClass::STATIC),
        b'L' => FuncClass::PROTECTED
            .union(FuncClass::STATIC)
            .union(FuncClass::FAR),
        b'M' => FuncClass::PROTECTED.union(FuncClass::VIRTUAL),
        b'N' => FuncClass::PROTECTED
            .union(FuncClass::VIRTUAL)
            .union(FuncClass::FAR),
        b'O' => FuncClass::PROTECTED
            .union(FuncClass::VIRTUAL)
            .union(FuncClass::THUNK),
        b'P' => FuncClass::PROTECTED
            .union(FuncClass::VIRTUAL)
            .union(FuncClass::FAR)
            .union(FuncClass::THUNK),
        b'Q' => FuncClass::PUBLIC,
        b'R' => FuncClass::PUBLIC.union(FuncClass::FAR),
        b'S' => FuncClass::PUBLIC.union(FuncClass::STATIC),
        b'T' => FuncClass::PUBLIC
            .union(FuncClass::STATIC)
            .union(FuncClass::FAR),
        b'U' => FuncClass::PUBLIC.union(FuncClass::VIRTUAL),
        b'V' => FuncClass::PUBLIC
            .union(FuncClass::VIRTUAL)
            .union(FuncClass::FAR),
        b'W' => FuncClass::PUBLIC
            .union(FuncClass::VIRTUAL)
            .union(FuncClass::THUNK),
        b'X' => FuncClass::PUBLIC
            .union(FuncClass::VIRTUAL)
            .union(FuncClass::FAR)
            .union(FuncClass::THUNK),
        b'Y' => FuncClass::GLOBAL,
        b'Z' => FuncClass::GLOBAL.union(FuncClass::FAR),
        _ => return None,
    };
    Some(class)
}

impl<'a, 'b, L: NodeBudget, A: Allocator> Parser<'a, 'b, L, A> {
    /// Returns the type of a letter that needs no other: a base type with the given qualifiers, or the type that a
    /// digit refers to, as it was memorized. Fails at any other letter.
    pub fn type_of_letter(
        &mut self,
        letter: u8,
        qualifiers: StorageClass,
    ) -> Result<&'b Type<'a, 'b>, Failed>
        ensures value { ReadsAs type_at self.old self.new result (type_of_letter qualifiers.0 letter) }
        ensures stays { Stays self.old self.new result }
    {
        if let Some(base) = base_type(letter) {
            self.count_node()?;
            return self.put_type(Type::Base(base, qualifiers));
        }
        let Some(digit) = digit(letter) else {
            return Err(self.reject(Message::UnknownPrimitiveType));
        };
        self.type_of_digit(digit)
    }

    /// Reads a base type by its second letter.
    pub fn extended_type(&mut self, qualifiers: StorageClass) -> Result<&'b Type<'a, 'b>, Failed>
        ensures value { ReadsAs type_at self.old self.new result (read_name (type_after qualifiers.0 extended)) }
        ensures consumes { Consumes self.old self.new result }
    {
        self.count_node()?;
        let letter = self.byte()?;
        match extended_type(letter) {
            Some(base) => self.put_type(Type::Base(base, qualifiers)),
            None => Err(self.reject(Message::UnknownPrimitiveType)),
        }
    }
}
