//! Random texts that are generated from a grammar, which is given as tables of rows.
//!
//! A line is a table: its name, and its rows, parted by bars. A row is a list of words: the name of a table, of which
//! one row is written there; a word of the writer; or a literal text. The first row of each table leads to an end soon.

use rand_core::utils::NextWord;
use rand_pcg::Pcg32;
use std::alloc::{AllocError, Global};

/// The table that a text begins with.
const TEXT: &str = "text";

/// Words of the writer: a name was written that the table of names gets, or a parameter that the table of types gets.
const NAME_DONE: &str = "name_done";

const TYPE_DONE: &str = "type_done";

/// Words of the writer: the part between these two has a table of names and one of types of its own.
const TEMPLATE_BEGINS: &str = "template_begins";

const TEMPLATE_ENDS: &str = "template_ends";

/// The tables whose rows after the first are the digits of the table of names, and of the table of types: as a whole
/// parameter, and elsewhere.
const KNOWN_NAME: &str = "known_name";

const KNOWN_PARAMETER: &str = "known_parameter";

const KNOWN_TYPE: &str = "known_type";

/// The number of bytes and remaining words from which on the first row of a table is taken.
const ROOM: usize = 70;

/// A number of words that no text reaches.
const WORDS: usize = 10_000;

/// A table of the grammar.
#[derive(Drop)]
pub struct Table {
    pub name: &'static str,
    pub rows: Vec<&'static str>,
    /// For each row, how often it was read in an accepted text.
    pub read: Vec<u64>,
}

/// A text in the making, and the words that are left to write, the next one last.
#[derive(Drop)]
pub struct Draft {
    pub text: String,
    words: Vec<&'static str>,
    /// The most entries that the tables of names and types have.
    known: Known,
    /// The same outside of each template around the next word.
    outer: Vec<Known>,
    /// The rows that were taken: the place of a table, and of a row in it.
    taken: Vec<(usize, usize)>,
}

#[derive(Clone, Copy, Drop)]
struct Known {
    names: usize,
    types: usize,
}

/// Returns the tables that these lines describe.
pub fn tables(alloc: Global, lines: &'static str) -> Result<Vec<Table>, AllocError> {
    let mut tables = Vec::new(alloc);
    for line in lines.lines() {
        if let Some((name, rows)) = line.split_once(" = ") {
            tables.push(table_of(alloc, name, rows)?)?;
        }
    }
    Ok(tables)
}

/// Returns a table of these rows, none of which was read.
fn table_of(alloc: Global, name: &'static str, listed: &'static str) -> Result<Table, AllocError> {
    let mut rows = Vec::new(alloc);
    let mut read = Vec::new(alloc);
    for row in listed.split('|') {
        rows.push(row.trim())?;
        read.push(0)?;
    }
    Ok(Table { name, rows, read })
}

/// Returns a text that is generated from the tables of a grammar.
pub fn written(alloc: Global, tables: &[Table], random: &mut Pcg32) -> Result<Draft, AllocError> {
    let mut draft = Draft {
        text: String::new(alloc),
        words: Vec::new(alloc),
        known: Known { names: 0, types: 0 },
        outer: Vec::new(alloc),
        taken: Vec::new(alloc),
    };
    draft.words.push(TEXT)?;
    for _ in 0..WORDS {
        let Some(word) = draft.words.pop() else {
            break;
        };
        draft.write(tables, random, word)?;
    }
    Ok(draft)
}

impl Draft {
    /// Writes a word: runs a word of the writer, takes a row of a table, and appends any other word as a text.
    fn write(
        &mut self,
        tables: &[Table],
        random: &mut Pcg32,
        word: &'static str,
    ) -> Result<(), AllocError> {
        match word {
            NAME_DONE => self.known.names = self.known.names.saturating_add(1),
            TYPE_DONE => self.known.types = self.known.types.saturating_add(1),
            TEMPLATE_BEGINS => {
                self.outer.push(self.known)?;
                self.known = Known { names: 0, types: 0 };
            }
            TEMPLATE_ENDS => {
                if let Some(known) = self.outer.pop() {
                    self.known = known;
                }
            }
            _ => match tables.iter().position(|table| table.name == word) {
                Some(at) => self.take_row(&tables[at], at, random)?,
                None => self.text.push_str(word)?,
            },
        }
        Ok(())
    }

    /// Takes a row of a table: its words are to be written next.
    fn take_row(&mut self, table: &Table, at: usize, random: &mut Pcg32) -> Result<(), AllocError> {
        let row = below(random, self.choices(table));
        self.taken.push((at, row))?;
        for word in table.rows.get(row).copied().unwrap_or("").rsplit(' ') {
            self.words.push(word)?;
        }
        Ok(())
    }

    /// Counts the rows that were taken as read once more.
    pub fn count_rows(&self, tables: &mut [Table]) {
        for (at, row) in self.taken.iter().copied() {
            if let Some(read) = tables.get_mut(at).and_then(|table| table.read.get_mut(row)) {
                *read = read.saturating_add(1);
            }
        }
    }

    /// Returns the number of rows of a table that can be taken: of digits those that have an entry, and only the first
    /// if the text is nearly full.
    fn choices(&self, table: &Table) -> usize {
        if self.text.len().saturating_add(self.words.len()) >= ROOM {
            return 1;
        }
        let known = match table.name {
            KNOWN_NAME => self.known.names,
            KNOWN_PARAMETER | KNOWN_TYPE => self.known.types,
            _ => table.rows.len(),
        };
        known.saturating_add(1).min(table.rows.len())
    }
}

/// Returns a number below `end`, or 0.
pub fn below(random: &mut Pcg32, end: usize) -> usize {
    random.next_word() as usize % end.max(1)
}
