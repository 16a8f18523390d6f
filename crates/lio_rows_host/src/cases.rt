//! The cases of a text.

use lio_clauses::NoMemory;
use std::alloc::{AllocError, Global};

/// A part of a case: its word, what it is about, and its text.
#[derive(Drop)]
pub(crate) struct Part<'t> {
    pub word: &'t str,
    pub about: &'t str,
    pub text: String,
}

/// A case: its name and its parts.
#[derive(Drop)]
pub(crate) struct Case<'t> {
    pub name: &'t str,
    pub parts: Vec<Part<'t>>,
}

impl<'t> Case<'t> {
    /// The first part with this word, if there is one.
    pub fn part(&self, word: &str) -> Option<&Part<'t>> {
        for part in &self.parts {
            if part.word == word {
                return Some(part);
            }
        }
        None
    }

    /// The text of the part with this word, if there is one.
    pub fn text(&self, word: &str) -> Option<&str> {
        match self.part(word) {
            Some(part) => Some(part.text.as_str()),
            None => None,
        }
    }

    /// The number that the part with this word is about, if there is one.
    pub fn number(&self, word: &str) -> Option<u64> {
        match self.part(word) {
            Some(part) => part.about.parse::<u64>().ok(),
            None => None,
        }
    }
}

/// A line that is no case's, or a case.
#[derive(Drop)]
pub(crate) enum Block<'t> {
    /// A line that is printed as it is.
    Line(&'t str),
    /// A line that would belong to a case, where there is none.
    Stray(&'t str),
    Case(Case<'t>),
}

/// What a case is of.
#[derive(Clone, Copy, PartialEq, Eq)]
pub(crate) enum Kind {
    /// The host.
    Host,
    /// The host over futures.
    Futures,
    /// The observer's check.
    Observer,
    /// The answers to questions.
    Questions,
    /// The future of rounds, or the stream of a view, polled by hand.
    Polls,
    /// A table of nodes with two seats.
    Seats,
    /// A table of nodes with two threads.
    Table,
}

/// What a case shares with those before it: its kind, its policy and its script.
#[derive(Clone, Copy)]
pub(crate) struct Setting<'c> {
    pub kind: Kind,
    pub policy: &'c str,
    pub script: &'c str,
}

/// The first part with a word of a block, if it has one.
fn part_of<'c>(block: &'c Block<'_>, word: &str) -> Option<&'c Part<'c>> {
    match block {
        Block::Line(_) | Block::Stray(_) => None,
        Block::Case(case) => case.part(word),
    }
}

/// The text of the last part with a word in some blocks; no text where there is none.
fn last_text<'c>(blocks: &'c [Block<'_>], word: &str) -> &'c str {
    for block in blocks.iter().rev() {
        if let Some(part) = part_of(block, word) {
            return part.text.as_str();
        }
    }
    ""
}

/// The kind that is named last in some blocks: the host, where none is.
fn last_kind(blocks: &[Block<'_>]) -> Kind {
    for block in blocks.iter().rev() {
        if let Some(part) = part_of(block, "program") {
            return kind_named(part.about).unwrap_or(Kind::Host);
        }
    }
    Kind::Host
}

/// What the last of some blocks has, by itself and by those before it.
pub(crate) fn setting_of<'c>(blocks: &'c [Block<'_>]) -> Setting<'c> {
    Setting {
        kind: last_kind(blocks),
        policy: last_text(blocks, "policy"),
        script: last_text(blocks, "script"),
    }
}

/// The kind with a name, if there is one.
pub(crate) fn kind_named(name: &str) -> Option<Kind> {
    match name {
        "host" => Some(Kind::Host),
        "futures" => Some(Kind::Futures),
        "observer" => Some(Kind::Observer),
        "questions" => Some(Kind::Questions),
        "polls" => Some(Kind::Polls),
        "seats" => Some(Kind::Seats),
        "table" => Some(Kind::Table),
        _ => None,
    }
}

/// Appends a line, with its line end: none where it ends with `~`, and a carriage return before it
/// where it ends with `^`.
fn append_line(text: &mut String, line: &str) -> Result<(), AllocError> {
    if let Some(line) = line.strip_suffix("~") {
        return text.push_str(line);
    }
    if let Some(line) = line.strip_suffix("^") {
        text.push_str(line)?;
        return text.push_str("\r\n");
    }
    text.push_str(line)?;
    text.push_str("\n")
}

/// Appends a line to the text of the last part, and tells whether there is one.
fn append_text(blocks: &mut Vec<Block<'_>>, line: &str) -> Result<bool, AllocError> {
    match blocks.last_mut() {
        Some(Block::Case(case)) => match case.parts.last_mut() {
            Some(part) => {
                append_line(&mut part.text, line)?;
                Ok(true)
            }
            None => Ok(false),
        },
        _ => Ok(false),
    }
}

/// Begins a part of the last case, and tells whether there is one.
fn begin_part<'t>(
    alloc: Global,
    blocks: &mut Vec<Block<'t>>,
    word: &'t str,
    about: &'t str,
) -> Result<bool, NoMemory> {
    match blocks.last_mut() {
        Some(Block::Case(case)) => {
            let text = String::new(alloc);
            case.parts.push(Part { word, about, text })?;
            Ok(true)
        }
        _ => Ok(false),
    }
}

/// Adds a line that belongs to no text.
fn add_line<'t>(alloc: Global, blocks: &mut Vec<Block<'t>>, line: &'t str) -> Result<(), NoMemory> {
    if line.is_empty() || line.starts_with("#") {
        blocks.push(Block::Line(line))?;
        return Ok(());
    }
    let (word, about) = line.split_once(' ').unwrap_or((line, ""));
    if word == "case" {
        let parts = Vec::new(alloc);
        blocks.push(Block::Case(Case { name: about, parts }))?;
        return Ok(());
    }
    if !begin_part(alloc, blocks, word, about)? {
        blocks.push(Block::Stray(line))?;
    }
    Ok(())
}

/// The cases of a text, and the lines between them that are printed as they are.
pub(crate) fn read_blocks(alloc: Global, rows: &str) -> Result<Vec<Block<'_>>, NoMemory> {
    let mut blocks = Vec::new(alloc);
    for line in rows.lines() {
        match line.strip_prefix("|") {
            Some(text) => {
                if !append_text(&mut blocks, text)? {
                    blocks.push(Block::Stray(line))?;
                }
            }
            None => add_line(alloc, &mut blocks, line)?,
        }
    }
    Ok(blocks)
}
