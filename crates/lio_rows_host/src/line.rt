//! What is printed of the parts that don't hold.

use lio_clauses::NoMemory;
use lio_rows_fields::escape;
use std::alloc::Global;

/// What is printed behind a case's name; it remembers whether memory was refused.
#[derive(Drop)]
pub(crate) struct Differences {
    alloc: Global,
    text: Vec<u8>,
    is_refused: bool,
}

impl Differences {
    /// Nothing so far.
    pub fn new(alloc: Global) -> Differences {
        Differences {
            alloc,
            text: Vec::new(alloc),
            is_refused: false,
        }
    }

    /// Appends bytes as they are.
    fn plain(&mut self, bytes: &[u8]) {
        if self.text.extend_from_slice(bytes).is_err() {
            self.is_refused = true;
        }
    }

    /// Appends bytes in one line.
    fn escaped(&mut self, bytes: &[u8]) {
        match escape(self.alloc, bytes) {
            Ok(bytes) => self.plain(bytes.as_slice()),
            Err(_) => self.is_refused = true,
        }
    }

    /// Adds a part, by its word and what it is about, in whose place these bytes were found.
    pub fn add(&mut self, word: &str, about: &str, found: &[u8]) {
        self.plain(b"\t");
        self.plain(word.as_bytes());
        if !about.is_empty() {
            self.plain(b" ");
            self.escaped(about.as_bytes());
        }
        self.plain(b": ");
        self.escaped(found);
    }

    /// Adds a part in whose place this number was found.
    pub fn add_number(&mut self, word: &str, found: u64) {
        match format!(in self.alloc; "{found}") {
            Ok(found) => self.add(word, "", found.as_str().as_bytes()),
            Err(_) => self.is_refused = true,
        }
    }

    /// What is printed.
    pub fn finish(self) -> Result<Vec<u8>, NoMemory> {
        let Differences {
            text,
            is_refused,
            ..
        } = self;
        if is_refused {
            return Err(NoMemory);
        }
        Ok(text)
    }
}
