//! The options and arguments of the command line.

use clap::error::ErrorKind;
use clap::{Arg, ArgAction, ArgMatches, Command, Error};
use msvc_demangler::llvm_flags::{
    NO_ACCESS_SPECIFIER, NO_CALLING_CONVENTION, NO_MEMBER_TYPE, NO_RETURN_TYPE, NO_VARIABLE_TYPE,
};
use msvc_demangler::{DemangleFlags, Flags, Grammar};
use std::alloc::{AllocError, Global};

/// The output of `--help`: at most 24 lines of 80 columns.
const HELP: &str = "\
Replaces each symbol of Microsoft's C++ compiler in a text by its declaration.

Usage: msvcfilt [OPTIONS] [FILE]..., or msvcfilt [OPTIONS] -s SYMBOL...

  FILE                     What to filter; '-', or no FILE, is standard input
  -s, --symbols            Filter the arguments themselves, each as a line
  -n, --name-only          Print names without types
  --no-calling-convention, --no-return-type, --no-access-specifier,
  --no-member-type, --no-variable-type
                           Drop what llvm-undname drops with the same option
  --no-function-returns    Drop all that stands before a name
  --no-this-type           Drop const and the like after parameters
  --no-class-type          Drop class, struct, union and enum
  --with-ptr64             Print __ptr64 after parameters
  --ms-typenames, --space-after-comma, --hug-type, --space-before-pointer
                           Set by default; --flags can clear them
  --flags WORD             Start from these flags (number or 0x..), not 0xE00400
  --grammar NAME           full (default): what compilers write today, or crate
  --color WHEN             auto (default): in a terminal; or always, or never
  -h, --help               Print this help; -V, --version prints the version

Example: echo 'at ?f@@YAXXZ+0x5' | msvcfilt
         at void __cdecl f(void)+0x5
Exit status: 0 if all was read and written, 2 if the arguments are wrong, else 1
";

/// The name of a file that means standard input.
pub(crate) const STANDARD_INPUT: &str = "-";

/// The options that set the same flag in both grammars, and that flag.
const FLAG_OPTIONS: [(&str, DemangleFlags); 9] = [
    ("name-only", DemangleFlags::NAME_ONLY),
    ("no-function-returns", DemangleFlags::NO_FUNCTION_RETURNS),
    ("no-this-type", DemangleFlags::NO_THISTYPE),
    ("no-class-type", DemangleFlags::NO_CLASS_TYPE),
    ("with-ptr64", DemangleFlags::WITH_PTR64),
    ("ms-typenames", DemangleFlags::MS_TYPENAMES),
    ("space-after-comma", DemangleFlags::SPACE_AFTER_COMMA),
    ("hug-type", DemangleFlags::HUG_TYPE),
    ("space-before-pointer", DemangleFlags::SPACE_BEFORE_POINTER),
];

/// The options of `llvm-undname`, what each leaves out in Full, and the flag nearest to it in the crate's grammar, if
/// there is one.
const LLVM_OPTIONS: [(&str, u64, DemangleFlags); 5] = [
    (
        "no-calling-convention",
        NO_CALLING_CONVENTION,
        DemangleFlags::NO_MS_KEYWORDS,
    ),
    (
        "no-access-specifier",
        NO_ACCESS_SPECIFIER,
        DemangleFlags::NO_ACCESS_SPECIFIERS,
    ),
    (
        "no-member-type",
        NO_MEMBER_TYPE,
        DemangleFlags::NO_MEMBER_TYPE,
    ),
    ("no-return-type", NO_RETURN_TYPE, DemangleFlags::COMPLETE),
    (
        "no-variable-type",
        NO_VARIABLE_TYPE,
        DemangleFlags::COMPLETE,
    ),
];

/// Says when declarations are colored.
#[derive(Clone, Copy)]
pub(crate) enum Color {
    /// In a terminal, unless the environment forbids it.
    Auto,
    Always,
    Never,
}

/// What the options set: how symbols are read and printed.
#[derive(Clone, Copy)]
pub(crate) struct Settings {
    pub(crate) flags: DemangleFlags,
    /// What Full leaves out.
    pub(crate) left_out: u64,
    pub(crate) grammar: Grammar,
    pub(crate) color: Color,
}

/// Reads the words of the program's command line into its arguments and settings.
///
/// # Errors
///
/// A request for help or the version, a mistake in the words, or an allocation that fails.
pub(crate) fn read<'a>(
    alloc: Global,
    program: Command<'a>,
    words: &'a [String],
) -> Result<(ArgMatches<'a>, Settings), Error> {
    let mut command = with_options(alloc, program)?;
    let matches = command.try_get_matches_from_mut(words)?;
    if matches.get_flag("symbols") && !matches.contains_id("file") {
        let message = "'--symbols' requires a SYMBOL";
        return Err(command.error(ErrorKind::MissingRequiredArgument, message)?);
    }
    let message = match (
        first_flags(&matches),
        grammar(&matches),
        chosen_color(&matches),
    ) {
        (None, _, _) => "the value of '--flags <WORD>' is no number of 32 bits",
        (_, None, _) => "the value of '--grammar <NAME>' is neither 'full' nor 'crate'",
        (_, _, None) => "the value of '--color <WHEN>' is not 'auto', 'always' or 'never'",
        (_, Some(Grammar::Crate), _) if needs_full(&matches) => {
            "'--no-return-type' and '--no-variable-type' require '--grammar full'"
        }
        (Some(flags), Some(grammar), Some(color)) => {
            let settings = all_settings(&matches, flags, grammar, color);
            return Ok((matches, settings));
        }
    };
    Err(command.error(ErrorKind::ValueValidation, message)?)
}

/// Declares the options and arguments of the program.
fn with_options<'a>(alloc: Global, program: Command<'a>) -> Result<Command<'a>, AllocError> {
    let file = Arg::new(alloc, "file")
        .value_name("FILE")
        .action(ArgAction::Append);
    let symbols = Arg::new(alloc, "symbols")
        .short('s')
        .long("symbols")
        .action(ArgAction::SetTrue);
    let word = Arg::new(alloc, "flags").long("flags").value_name("WORD");
    let grammar = Arg::new(alloc, "grammar")
        .long("grammar")
        .value_name("NAME");
    let color = Arg::new(alloc, "color").long("color").value_name("WHEN");
    let mut command = program
        .override_help(HELP)
        .args_override_self(true)
        .arg(file)?
        .arg(symbols)?
        .arg(word)?
        .arg(grammar)?
        .arg(color)?;
    for (name, _) in FLAG_OPTIONS {
        let mut option = Arg::new(alloc, name).long(name).action(ArgAction::SetTrue);
        if name == "name-only" {
            option = option.short('n');
        }
        command = command.arg(option)?;
    }
    for (name, _, _) in LLVM_OPTIONS {
        command = command.arg(Arg::new(alloc, name).long(name).action(ArgAction::SetTrue))?;
    }
    Ok(command)
}

/// Returns the flags that other options add to, or none if the word of `--flags` is unfit.
fn first_flags(matches: &ArgMatches<'_>) -> Option<DemangleFlags> {
    match matches.get_str("flags") {
        Some(word) => flags_of(word),
        None => Some(DemangleFlags::llvm()),
    }
}

/// Returns whether an option is given that the crate's grammar has no flag for.
fn needs_full(matches: &ArgMatches<'_>) -> bool {
    for (name, _, nearest) in LLVM_OPTIONS {
        if nearest.is_empty() && matches.get_flag(name) {
            return true;
        }
    }
    false
}

/// Returns the settings that add the flags of all options that are given to `flags`.
fn all_settings(
    matches: &ArgMatches<'_>,
    flags: DemangleFlags,
    grammar: Grammar,
    color: Color,
) -> Settings {
    let mut settings = Settings {
        flags,
        left_out: 0,
        grammar,
        color,
    };
    for (name, flag) in FLAG_OPTIONS {
        if matches.get_flag(name) {
            settings.flags.insert(flag);
        }
    }
    for (name, bit, nearest) in LLVM_OPTIONS {
        if matches.get_flag(name) {
            match grammar {
                Grammar::Full => settings.left_out |= bit,
                Grammar::Crate => settings.flags.insert(nearest),
            }
        }
    }
    settings
}

/// Returns the grammar that `--grammar` names, or none if its value is no name of a grammar.
fn grammar(matches: &ArgMatches<'_>) -> Option<Grammar> {
    match matches.get_str("grammar") {
        None | Some("full") => Some(Grammar::Full),
        Some("crate") => Some(Grammar::Crate),
        Some(_) => None,
    }
}

/// Returns when `--color` has declarations colored, or none if its value is no name of that.
fn chosen_color(matches: &ArgMatches<'_>) -> Option<Color> {
    match matches.get_str("color") {
        None | Some("auto") => Some(Color::Auto),
        Some("always") => Some(Color::Always),
        Some("never") => Some(Color::Never),
        Some(_) => None,
    }
}

/// Reads a number of 32 bits: a decimal one, or a hexadecimal one after `0x`.
fn flags_of(word: &str) -> Option<DemangleFlags> {
    let (digits, radix) = match word.strip_prefix("0x") {
        Some(digits) => (digits, 16),
        None => (word, 10),
    };
    if digits.starts_with('+') {
        return None;
    }
    match u32::from_str_radix(digits, radix) {
        Ok(bits) => Some(DemangleFlags::from_bits_retain(bits)),
        Err(_) => None,
    }
}
