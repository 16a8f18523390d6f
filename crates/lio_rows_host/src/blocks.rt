//! Lines that stand for many: each block of lines that begin with `*` stands for 255 blocks of such
//! lines without it, in which `#` is a number, from 1 to 255.

use lio_clauses::NoMemory;
use std::alloc::{AllocError, Global};

/// The number of the last of 256 things.
const LAST: usize = 255;

/// Appends a line and its end.
fn append_line(text: &mut String, line: &str) -> Result<(), AllocError> {
    text.push_str(line)?;
    text.push_str("\n")
}

/// Appends a block of lines, with a number in the place of each `#`.
fn append_numbered(text: &mut String, block: &str, number: &str) -> Result<(), AllocError> {
    let mut parts = block.split('#');
    if let Some(first) = parts.next() {
        text.push_str(first)?;
    }
    for part in parts {
        text.push_str(number)?;
        text.push_str(part)?;
    }
    Ok(())
}

/// Appends the blocks that a block of lines stands for.
fn append_blocks(alloc: Global, text: &mut String, block: &str) -> Result<(), NoMemory> {
    if block.is_empty() {
        return Ok(());
    }
    for number in 1..LAST + 1 {
        let number = format!(in alloc; "{number}")?;
        append_numbered(text, block, number.as_str())?;
    }
    Ok(())
}

/// The text that a text with such blocks stands for.
pub(crate) fn written_out(alloc: Global, rows: &str) -> Result<String, NoMemory> {
    let mut text = String::new(alloc);
    let mut block = String::new(alloc);
    for line in rows.lines() {
        match line.strip_prefix("*") {
            Some(line) => append_line(&mut block, line)?,
            None => {
                append_blocks(alloc, &mut text, block.as_str())?;
                block.clear();
                append_line(&mut text, line)?;
            }
        }
    }
    append_blocks(alloc, &mut text, block.as_str())?;
    Ok(text)
}
