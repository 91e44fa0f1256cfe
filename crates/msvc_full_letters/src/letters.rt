//! Tables of letters: one function per table returns what a letter stands for.

ghost use Rattle.std.specs.Option.{option_map};
ghost use Rattle.std.specs.Prelude.{◌≡◌, bit_or};
ghost use Rattle.msvc_rules.specs.Rules.{lookup};
ghost use Rattle.msvc_full_grammar.specs.Forms.{thunk_of};
ghost use Rattle.msvc_full_grammar.specs.declared.forms.Adjustment.TheVariants as adjustments;
ghost use Rattle.msvc_full_grammar.specs.Letters.{conventions, deduced_types, managed_rows, member_qualifiers, thunk};
ghost use Rattle.msvc_full_grammar.specs.Letters.{virtual};
ghost use Rattle.msvc_full_letters.specs.Texts.{encoding_letters, function_letters};
ghost use Rattle.msvc_full_letters.specs.Views.{encoding_form_of};

use crate::forms::EncodingForm;
use bitflags::Flags;
use msvc_full_grammar::forms::{Adjustment, TypeRow};
use msvc_nodes::flags::{FuncClass, StorageClass};
use msvc_nodes::kinds::Convention;
use msvc_shapes::rows;

/// Returns how a function is called.
pub fn convention(letter: u8) -> Option<Convention>
    ensures { result ≡ lookup letter conventions }
{
    match letter {
        b'A' | b'B' => Some(Convention::Cdecl),
        b'C' | b'D' => Some(Convention::Pascal),
        b'E' | b'F' => Some(Convention::Thiscall),
        b'G' | b'H' => Some(Convention::Stdcall),
        b'I' | b'J' => Some(Convention::Fastcall),
        b'M' | b'N' => Some(Convention::Clrcall),
        b'O' | b'P' => Some(Convention::Eabi),
        b'Q' => Some(Convention::Vectorcall),
        b'S' => Some(Convention::Swift),
        b'U' => Some(Convention::PreserveMost),
        b'V' => Some(Convention::PreserveNone),
        b'W' => Some(Convention::SwiftAsync),
        b'w' => Some(Convention::_Regcall),
        b'x' => Some(Convention::Regcall4),
        _ => None,
    }
}

/// Returns `const` and `volatile` of a member that is pointed to.
pub fn member_qualifier(letter: u8) -> Option<StorageClass>
    ensures { option_map (λ (q : StorageClass). q.0) result ≡ lookup letter member_qualifiers }
{
    let qualifier = match letter {
        b'Q' => StorageClass::empty(),
        b'R' => StorageClass::CONST,
        b'S' => StorageClass::VOLATILE,
        b'T' => StorageClass::CONST.union(StorageClass::VOLATILE),
        _ => return None,
    };
    Some(qualifier)
}

/// Returns the row of a pointer or a reference of managed code. `own_row` is that of the pointer's or reference's own.
pub fn managed_row(own_row: u8, letter: u8) -> Option<u8>
    ensures { result ≡ lookup letter (managed_rows own_row) }
{
    match letter {
        b'A' => Some(own_row),
        b'B' => Some(rows::PIN),
        b'C' => Some(rows::TRACKING),
        _ => None,
    }
}

/// Returns the row of a type that is deduced.
pub fn deduced_row(letter: u8) -> Option<u8>
    ensures { result ≡ lookup letter deduced_types }
{
    match letter {
        b'P' => Some(rows::AUTO),
        b'T' => Some(rows::DECLTYPE_AUTO),
        _ => None,
    }
}

/// Returns what the type of a symbol is that begins with a letter.
#[inline(always)]
pub fn encoding(letter: u8) -> Option<EncodingForm>
    ensures { option_map encoding_form_of result ≡ lookup letter encoding_letters }
{
    match letter {
        b'6' | b'7' => Some(EncodingForm::Table),
        b'8' => Some(EncodingForm::TypeInformation),
        b'9' => Some(EncodingForm::Row(TypeRow::ExternC)),
        _ => function(letter),
    }
}

/// Returns what a function is whose class is a letter.
pub fn function(letter: u8) -> Option<EncodingForm>
    ensures { option_map encoding_form_of result ≡ lookup letter function_letters }
{
    let class = match letter {
        b'Y' => return Some(EncodingForm::FreeFunction),
        b'G' => return Some(adjustor(FuncClass::PRIVATE)),
        b'H' => return Some(adjustor(FuncClass::PRIVATE.union(FuncClass::FAR))),
        b'O' => return Some(moved(Adjustment::Adjustor, FuncClass::PROTECTED)),
        b'P' => {
            return Some(moved(
                Adjustment::Adjustor,
                FuncClass::PROTECTED.union(FuncClass::FAR),
            ));
        }
        b'W' => return Some(moved(Adjustment::Adjustor, FuncClass::PUBLIC)),
        b'X' => {
            return Some(moved(
                Adjustment::Adjustor,
                FuncClass::PUBLIC.union(FuncClass::FAR),
            ));
        }
        b'A' => FuncClass::PRIVATE,
        b'B' => FuncClass::PRIVATE.union(FuncClass::FAR),
        b'C' => FuncClass::PRIVATE.union(FuncClass::STATIC),
        b'D' => FuncClass::PRIVATE
            .union(FuncClass::STATIC)
            .union(FuncClass::FAR),
        b'E' => FuncClass::PRIVATE.union(FuncClass::VIRTUAL),
        b'F' => FuncClass::PRIVATE
            .union(FuncClass::VIRTUAL)
            .union(FuncClass::FAR),
        b'I' => FuncClass::PROTECTED,
        b'J' => FuncClass::PROTECTED.union(FuncClass::FAR),
        b'K' => FuncClass::PROTECTED.union(FuncClass::STATIC),
        b'L' => FuncClass::PROTECTED
            .union(FuncClass::STATIC)
            .union(FuncClass::FAR),
        b'M' => FuncClass::PROTECTED.union(FuncClass::VIRTUAL),
        b'N' => FuncClass::PROTECTED
            .union(FuncClass::VIRTUAL)
            .union(FuncClass::FAR),
        b'Q' => FuncClass::PUBLIC,
        b'R' => FuncClass::PUBLIC.union(FuncClass::FAR),
        b'S' => FuncClass::PUBLIC.union(FuncClass::STATIC),
        b'T' => FuncClass::PUBLIC
            .union(FuncClass::STATIC)
            .union(FuncClass::FAR),
        b'U' => FuncClass::PUBLIC.union(FuncClass::VIRTUAL),
        b'V' => FuncClass::PUBLIC
            .union(FuncClass::VIRTUAL)
            .union(FuncClass::FAR),
        b'Z' => FuncClass::GLOBAL.union(FuncClass::FAR),
        _ => return None,
    };
    Some(EncodingForm::Function(class))
}

/// Returns a function that moves its `this` by a fixed offset and isn't virtual.
fn adjustor(class: FuncClass) -> EncodingForm
    ensures { encoding_form_of result ≡ thunk_of adjustments.Adjustor (bit_or class.0 thunk) }
{
    EncodingForm::Thunk(Adjustment::Adjustor, class.union(FuncClass::THUNK))
}

/// Returns a virtual function that moves its `this`.
pub fn moved(adjustment: Adjustment, class: FuncClass) -> EncodingForm
    ensures { encoding_form_of result ≡ thunk_of adjustment (bit_or (bit_or class.0 virtual) thunk) }
{
    EncodingForm::Thunk(
        adjustment,
        class.union(FuncClass::VIRTUAL).union(FuncClass::THUNK),
    )
}
