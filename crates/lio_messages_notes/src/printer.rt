//! What notes are written with.

use lio_clauses::{Formula, Names, NoMemory};
use lio_labels::Label;
use lio_messages_hints::{Message, Piece};
use lio_values::print_quoted;
use std::alloc::Global;
use std::str;

/// How many clauses of a formula are written, and how many principals of a clause.
const MOST: usize = 8;

/// How many bytes of a text are written.
const LONGEST: usize = 60;

/// A message over the names of principals.
#[derive(Drop)]
pub(crate) struct Printer<'n> {
    alloc: Global,
    message: Message,
    names: &'n Names,
}

impl<'n> Printer<'n> {
    /// Nothing is written yet.
    pub fn new(alloc: Global, names: &'n Names) -> Printer<'n> {
        Printer {
            alloc,
            message: Message::new(alloc),
            names,
        }
    }

    /// Gives what is written.
    pub fn finish(self) -> Result<String, NoMemory> {
        let Printer { message, .. } = self;
        message.finish()
    }

    /// Writes words.
    pub fn words(&mut self, words: &str) {
        self.message.words(words);
    }

    /// Writes a whole.
    pub fn whole(&mut self, whole: i64) {
        self.message.show(whole);
    }

    /// Writes a template, with these pieces in the places of its `{}`.
    pub fn fill(&mut self, template: &str, first: Piece<'_>, second: Piece<'_>) {
        self.message.fill(template, first, second, Piece::Nothing);
    }

    /// Writes a text as it stands in a script, at most its first bytes.
    pub fn text(&mut self, bytes: &[u8]) {
        let mut shown = Vec::new(self.alloc);
        match print_quoted(&mut shown, bytes.get(..LONGEST).unwrap_or(bytes)) {
            Ok(()) => self.words(str::from_utf8(shown.as_slice()).unwrap_or("..")),
            Err(_) => self.message.refuse(),
        }
    }

    /// Writes bytes in quotes.
    pub fn quoted(&mut self, bytes: &[u8]) {
        self.fill("\"{}\"", Piece::Shown(bytes), Piece::Nothing);
    }

    /// Writes a principal.
    fn principal(&mut self, number: u32) {
        let names = self.names;
        if number < names.len() {
            self.message.bytes(names.name(number));
        } else {
            self.words("?");
        }
    }

    /// Writes the principals of a clause.
    fn principals(&mut self, clause: u64) {
        let mut count = 0;
        for number in 0..64 {
            if clause >> number & 1 == 1 {
                if count > 0 {
                    self.words(" \\/ ");
                }
                if count >= MOST {
                    self.words("..");
                    return;
                }
                self.principal(number);
                count += 1;
            }
        }
    }

    /// Writes a clause.
    fn clause(&mut self, clause: u64) {
        if clause.count_ones() == 1 {
            self.principals(clause);
            return;
        }
        self.words("(");
        self.principals(clause);
        self.words(")");
    }

    /// Writes the clauses of a formula.
    fn clauses(&mut self, clauses: &[u64]) {
        for (place, clause) in clauses.iter().enumerate() {
            if place > 0 {
                self.words(" /\\ ");
            }
            if place >= MOST {
                self.words("..");
                return;
            }
            self.clause(*clause);
        }
    }

    /// Writes a formula.
    pub fn formula(&mut self, formula: &Formula) {
        match formula.clauses() {
            [] => self.words("True"),
            [0] => self.words("False"),
            clauses => self.clauses(clauses),
        }
    }

    /// Writes words and a label behind them.
    pub fn label(&mut self, words: &str, label: &Label) {
        self.words(words);
        self.formula(&label.secrecy);
        self.words(" %% ");
        self.formula(&label.integrity);
    }
}
