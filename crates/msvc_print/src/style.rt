//! The style of a declaration: the flags, and whose grammar's spaces and words are printed.

ghost use Rattle.std.specs.Prelude.{◌≡◌, ◌+◌, Bool, false, true};
ghost use Rattle.msvc_print.specs.Flags.{full_style, has, with_llvm};
ghost use Rattle.msvc_print.specs.Pointed.{drops};

use bitflags::Flags;
use msvc_nodes::flags::DemangleFlags;
use std::alloc::AllocError;
use std::marker::PhantomData;

/// The bit of the second grammar's style, which no word of [`DemangleFlags`] has.
const FULL: u64 = 0x1_0000_0000;

/// The bits of all flags of `llvm-undname`.
const LLVM_FLAGS: u64 = 0x3E_0000_0000;

/// Names the grammar whose spaces and words are printed. It is a type, so code for one grammar asks nothing as it runs.
pub trait Wording: Copy {
    /// Whether it is the second grammar.
    ghost full: { Bool };

    /// Returns whether it is the second grammar.
    fn is_full() -> bool
        ensures { result ≡ full };
}

/// Names the crate's grammar.
#[derive(Clone, Copy)]
pub struct CrateWording;

impl Wording for CrateWording {
    ghost full = { false };

    #[inline(always)]
    fn is_full() -> bool {
        false
    }
}

/// Names the second grammar.
#[derive(Clone, Copy)]
pub struct FullWording;

impl Wording for FullWording {
    ghost full = { true };

    #[inline(always)]
    fn is_full() -> bool {
        true
    }
}

/// Holds the flags that a declaration is printed under. The style that goes with a grammar is one more bit.
pub struct Style<W: Wording> {
    /// The flags, and the bit of the style.
    pub bits: u64,
    /// The grammar.
    pub wording: PhantomData<W>,
    ghost told: { has bits full_style ≡ W.full },
}

impl<W: Wording> Copy for Style<W> {}

impl<W: Wording> Clone for Style<W> {
    fn clone(&self) -> Result<Style<W>, AllocError> {
        Ok(Style {
            bits: self.bits,
            wording: PhantomData,
        })
    }
}

impl Style<CrateWording> {
    /// Returns the style of the crate's grammar, under flags.
    pub fn new(flags: DemangleFlags) -> Style<CrateWording>
        ensures { result.bits ≡ flags.0 }
    {
        Style {
            bits: u64::from(flags.bits()),
            wording: PhantomData,
        }
    }
}

impl Style<FullWording> {
    /// Returns the style of the second grammar, under flags.
    pub fn full(flags: DemangleFlags) -> Style<FullWording>
        ensures { result.bits ≡ flags.0 + full_style }
    {
        Style {
            bits: u64::from(flags.bits()) + FULL,
            wording: PhantomData,
        }
    }

    /// Returns the style of the second grammar, under flags and flags of `llvm-undname`. Other bits of `others` count
    /// for nothing.
    pub fn full_with(flags: DemangleFlags, others: u64) -> Style<FullWording>
        ensures { result.bits ≡ with_llvm flags.0 others + full_style }
    {
        Style {
            bits: (u64::from(flags.bits()) | (others & LLVM_FLAGS)) + FULL,
            wording: PhantomData,
        }
    }
}

impl<W: Wording> Style<W> {
    /// Returns whether all of some flags are set.
    pub fn contains(self, flags: DemangleFlags) -> bool
        ensures { result ≡ has self.bits flags.0 }
    {
        let bits = u64::from(flags.bits());
        self.bits & bits == bits
    }

    /// Returns whether the style is that of the second grammar and a flag of `llvm-undname` is set.
    #[inline(always)]
    pub fn drops(self, flag: u64) -> bool
        ensures { result ≡ drops flag self.bits }
    {
        W::is_full() && self.bits & flag == flag
    }

    /// Returns whether the style is that of the second grammar.
    #[inline(always)]
    pub fn is_full(self) -> bool
        ensures { result ≡ has self.bits full_style }
    {
        W::is_full()
    }
}
