//! Commands: a word, one blank, and fields with one tab between two.

use crate::escaping::unescape;
use crate::fault::FieldFault;
use std::alloc::Global;
use std::str;

/// A command: its word, and the bytes that its fields stand for.
#[derive(Drop)]
pub struct Command<'a> {
    pub word: &'a str,
    pub fields: Vec<Vec<u8>>,
}

/// The bytes that the fields of a text stand for.
fn read_fields(alloc: Global, text: &[u8]) -> Result<Vec<Vec<u8>>, FieldFault> {
    let mut fields = Vec::new(alloc);
    for field in text.split(|byte| *byte == b'\t') {
        fields.push(unescape(alloc, field)?)?;
    }
    Ok(fields)
}

/// The command of a line.
pub fn read_command(alloc: Global, line: &[u8]) -> Result<Command<'_>, FieldFault> {
    let blank = line.iter().position(|byte| *byte == b' ');
    match blank {
        Some(place) if place < line.len() => Ok(Command {
            word: str::from_utf8(&line[..place]).map_err(|_| FieldFault::Invalid)?,
            fields: read_fields(alloc, &line[place + 1..])?,
        }),
        _ => Err(FieldFault::Invalid),
    }
}
