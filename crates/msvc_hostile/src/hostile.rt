//! Texts that are meant to break the calls: `msvc_bench hostile SEED COUNT`, or `hostile-full` for Full, with rows on
//! standard input. All calls of the grammar must return the same result for
//!
//! - the symbol of each row, its beginnings, and the symbol with another character in the place of each of its own,
//! - symbols whose digits multiply,
//! - COUNT texts that are drawn from an alphabet, and COUNT such texts after a question mark,
//! - COUNT texts that are generated from the grammar; these are read whole, or rejected for a digit without an entry.
//!
//! Prints a text on which calls disagree. Prints a line of counts for each kind of text, and for each table of the
//! grammar: the number of its rows that were read in accepted texts, which must be all.

use crate::answers::{Answer, all_answers};
use crate::multiplied::multiplied;
use crate::written::{Draft, Table, below, tables, written};
use crate::{full_grammar, grammar};
use msvc_demangler::{Demangler, Grammar};
use rand_pcg::Pcg32;
use std::alloc::{AllocError, Global};
use std::io;
use std::io::ErrorKind;

/// The replacements for each character of a symbol.
const REPLACEMENTS: &str = "?@$09APZ_";

/// The characters of a text that is drawn, and how many it has at most.
const ALPHABET: &[u8] = b"?@$_0123456789ABCDEHPQVXYZax";

const DRAWN: usize = 60;

/// The most bytes of a text that is generated from the grammar. A longer one is not tried.
const WRITTEN: usize = 100;

/// The counts for one kind of texts, and the demangler that all of them share.
#[derive(Drop)]
struct Tally {
    demangler: Demangler,
    texts: u64,
    accepted: u64,
    digits: u64,
    wrong: u64,
}

impl Tally {
    fn new(alloc: Global, grammar: Grammar) -> Self {
        Self {
            demangler: Demangler::with_grammar(alloc, grammar),
            texts: 0,
            accepted: 0,
            digits: 0,
            wrong: 0,
        }
    }

    /// Tries a text.
    fn count(&mut self, rt: &HostRuntime, text: &str) -> io::Result<Answer> {
        self.texts = self.texts.saturating_add(1);
        let answer = all_answers(rt.alloc(), &mut self.demangler, text);
        match answer {
            Answer::Accepted { digits, .. } => {
                self.accepted = self.accepted.saturating_add(1);
                self.digits = self.digits.saturating_add(digits as u64);
            }
            Answer::Rejected => {}
            Answer::Contradicted => self.blame(rt, text)?,
        }
        Ok(answer)
    }

    /// Prints a text on which calls disagree.
    fn blame(&mut self, rt: &HostRuntime, text: &str) -> io::Result<()> {
        self.wrong = self.wrong.saturating_add(1);
        println!(rt; "answered wrongly: {text}")
    }

    fn print(&self, rt: &HostRuntime, kind: &str) -> io::Result<()> {
        let (texts, accepted, digits, wrong) = (self.texts, self.accepted, self.digits, self.wrong);
        println!(rt; "{kind}: {texts} texts, {accepted} accepted, {digits} digits, {wrong} wrong")
    }
}

pub fn run(rt: &HostRuntime, grammar: Grammar, seed: u64, count: u64) -> io::Result<()> {
    let changed = changed_rows(rt, grammar)?;
    changed.print(rt, "rows and their changes")?;
    let multiplied = multiplied_digits(rt, grammar)?;
    multiplied.print(rt, "digits that multiply")?;
    let drawn = drawn_texts(rt, grammar, seed, count, "")?;
    drawn.print(rt, "drawn from an alphabet")?;
    let marked = drawn_texts(rt, grammar, seed, count, "?")?;
    marked.print(rt, "drawn after a question mark")?;
    let mut tables = tables(rt.alloc(), lines_of(grammar))?;
    let written = written_texts(rt, grammar, seed, count, &mut tables)?;
    written.print(rt, "written by the grammar")?;
    let all_read = print_read(rt, &tables)?;
    if all_read
        && [changed, multiplied, drawn, marked, written]
            .iter()
            .all(|tally| tally.wrong == 0)
    {
        return Ok(());
    }
    Err(io::Error::from(ErrorKind::Other))
}

/// Returns the lines that describe the tables of a grammar.
fn lines_of(grammar: Grammar) -> &'static str {
    match grammar {
        Grammar::Crate => grammar::TABLES,
        Grammar::Full => full_grammar::TABLES,
    }
}

/// Tries the symbols of the rows on standard input, and their changed forms.
fn changed_rows(rt: &HostRuntime, grammar: Grammar) -> io::Result<Tally> {
    let mut tally = Tally::new(rt.alloc(), grammar);
    for line in rt.lines(rt.alloc()) {
        let line = line?;
        if !line.starts_with("# ") {
            changes(
                rt,
                &mut tally,
                line.as_str().split('\t').nth(1).unwrap_or(""),
            )?;
        }
    }
    Ok(tally)
}

/// Tries a symbol, its beginnings, and the symbol with each of its characters replaced.
fn changes(rt: &HostRuntime, tally: &mut Tally, symbol: &str) -> io::Result<()> {
    tally.count(rt, symbol)?;
    for (at, character) in symbol.char_indices() {
        let before = symbol.get(..at).unwrap_or("");
        let after = symbol
            .get(at.saturating_add(character.len_utf8())..)
            .unwrap_or("");
        tally.count(rt, before)?;
        replacements(rt, tally, before, after)?;
    }
    Ok(())
}

/// Tries a symbol with each replacement between its parts.
fn replacements(rt: &HostRuntime, tally: &mut Tally, before: &str, after: &str) -> io::Result<()> {
    for replacement in REPLACEMENTS.chars() {
        let text = format!(in rt.alloc(); "{before}{replacement}{after}")?;
        tally.count(rt, text.as_str())?;
    }
    Ok(())
}

/// Tries symbols of no function up to as many functions as the table of types holds.
fn multiplied_digits(rt: &HostRuntime, grammar: Grammar) -> io::Result<Tally> {
    let mut tally = Tally::new(rt.alloc(), grammar);
    for functions in 0..=10 {
        let text = multiplied(rt.alloc(), functions)?;
        tally.count(rt, text.as_str())?;
    }
    Ok(tally)
}

/// Tries `count` random texts with this beginning.
fn drawn_texts(
    rt: &HostRuntime,
    grammar: Grammar,
    seed: u64,
    count: u64,
    beginning: &str,
) -> io::Result<Tally> {
    let mut tally = Tally::new(rt.alloc(), grammar);
    let mut random = Pcg32::new(seed, 0);
    for _ in 0..count {
        let text = drawn(rt.alloc(), &mut random, beginning)?;
        tally.count(rt, text.as_str())?;
    }
    Ok(tally)
}

/// Returns a text with this beginning and a random rest: its length, then each of its characters.
fn drawn(alloc: Global, random: &mut Pcg32, beginning: &str) -> Result<String, AllocError> {
    let mut text = String::from_str(alloc, beginning)?;
    for _ in beginning.len()..below(random, DRAWN.saturating_add(1)) {
        let letter = ALPHABET
            .get(below(random, ALPHABET.len()))
            .copied()
            .unwrap_or(b'?');
        text.push(char::from(letter))?;
    }
    Ok(text)
}

/// Tries `count` texts that are generated from the grammar.
fn written_texts(
    rt: &HostRuntime,
    grammar: Grammar,
    seed: u64,
    count: u64,
    tables: &mut Vec<Table>,
) -> io::Result<Tally> {
    let mut tally = Tally::new(rt.alloc(), grammar);
    let mut random = Pcg32::new(seed, 1);
    for _ in 0..count.saturating_mul(4) {
        if tally.texts == count {
            break;
        }
        let draft = written(rt.alloc(), tables, &mut random)?;
        if draft.text.len() <= WRITTEN {
            read_back(rt, &mut tally, &draft, tables)?;
        }
    }
    Ok(tally)
}

/// Tries a text that the grammar wrote.
fn read_back(
    rt: &HostRuntime,
    tally: &mut Tally,
    draft: &Draft,
    tables: &mut Vec<Table>,
) -> io::Result<()> {
    let text = draft.text.as_str();
    let right = match tally.count(rt, text)? {
        Answer::Accepted { bytes, .. } => {
            draft.count_rows(tables);
            bytes == text.len()
        }
        Answer::Rejected => lacks_an_entry(rt.alloc(), &mut tally.demangler, text)?,
        Answer::Contradicted => true,
    };
    if right { Ok(()) } else { tally.blame(rt, text) }
}

/// Returns whether a text is rejected for a digit that has no entry in its table.
fn lacks_an_entry(
    alloc: Global,
    demangler: &mut Demangler,
    text: &str,
) -> Result<bool, AllocError> {
    let Some(refusal) = demangler.symbol_length_within(text, usize::MAX).err() else {
        return Ok(false);
    };
    let shown = format!(in alloc; "{refusal}")?;
    Ok(
        shown.starts_with("name reference too large (")
            || shown.starts_with("invalid backreference: "),
    )
}

/// Prints how many rows of each table were read, and those that never were. Whether all were.
fn print_read(rt: &HostRuntime, tables: &[Table]) -> io::Result<bool> {
    let mut all = true;
    for table in tables {
        let rows = table.rows.len();
        let read = table.read.iter().filter(|times| **times > 0).count();
        println!(rt; "{}: {read} of {rows} rows read", table.name)?;
        if read < rows {
            all = false;
            print_unread(rt, table)?;
        }
    }
    Ok(all)
}

fn print_unread(rt: &HostRuntime, table: &Table) -> io::Result<()> {
    for (row, times) in table.rows.iter().zip(table.read.iter()) {
        if *times == 0 {
            println!(rt; "never read: {row}")?;
        }
    }
    Ok(())
}
