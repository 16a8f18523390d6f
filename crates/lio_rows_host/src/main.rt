//! Runs worked cases of the programs, each over a store in memory, and prints one line a
//! case: its name, and behind it each part that doesn't hold, with what was found in its place.
#![tactic(auto)]

mod blocks;
mod cases;
mod compare;
mod coop;
mod found;
mod gate;
mod host;
mod jobs;
mod line;
mod observer;
mod polls;
mod questions;
mod running;
mod says;
mod seats;
mod store;
mod tables;

use crate::blocks::written_out;
use crate::cases::{Block, Case, Setting, read_blocks, setting_of};
use crate::running::differences;
use lio_clauses::NoMemory;
use std::alloc::Global;
use std::io;
use std::io::{BufWriter, ErrorKind, Write};
use std::random::RandomSource;
use std::sync::Wait;
use std::thread::Threads;

/// What an input or an output ends with that finds no memory.
fn memory_error() -> io::Error {
    io::Error::from(ErrorKind::OutOfMemory)
}

/// Writes what is printed of a case, without a line end.
fn write_case<R, W>(rt: &R, case: &Case<'_>, setting: Setting<'_>, output: &mut W) -> io::Result<()>
where
    R: AllocGlobal + RandomSource + Threads + Wait + Sync,
    W: Write,
{
    output.write_all(case.name.as_bytes())?;
    match differences(rt, case, setting) {
        Ok(found) => output.write_all(found.as_slice()),
        Err(NoMemory) => Err(memory_error()),
    }
}

/// Writes what is printed of the last of some blocks, if there is one.
fn write_last<R, W>(rt: &R, blocks: &[Block<'_>], output: &mut W) -> io::Result<()>
where
    R: AllocGlobal + RandomSource + Threads + Wait + Sync,
    W: Write,
{
    match blocks.last() {
        None => return Ok(()),
        Some(Block::Line(line)) => output.write_all(line.as_bytes())?,
        Some(Block::Stray(line)) => {
            output.write_all(line.as_bytes())?;
            output.write_all(b"\tno case has this line")?;
        }
        Some(Block::Case(case)) => write_case(rt, case, setting_of(blocks), output)?,
    }
    output.write_all(b"\n")
}

/// Writes what is printed of the blocks of a text, in their order.
fn write_blocks<R, W>(rt: &R, blocks: &[Block<'_>], output: &mut W) -> io::Result<()>
where
    R: AllocGlobal + RandomSource + Threads + Wait + Sync,
    W: Write,
{
    for at in 0..blocks.len() {
        write_last(rt, blocks.get(..=at).unwrap_or(blocks), output)?;
    }
    output.flush()
}

/// The blocks that a text stands for.
fn blocks_of(alloc: Global, text: &str) -> io::Result<Vec<Block<'_>>> {
    match read_blocks(alloc, text) {
        Ok(blocks) => Ok(blocks),
        Err(NoMemory) => Err(memory_error()),
    }
}

fn main(rt: HostRuntime) -> io::Result<()> {
    let alloc = rt.alloc();
    let input = io::read_to_string(alloc, rt.reader())?;
    let Ok(text) = written_out(alloc, input.as_str()) else {
        return Err(memory_error());
    };
    let blocks = blocks_of(alloc, text.as_str())?;
    let mut output = BufWriter::new(alloc, io::writer(&rt))?;
    write_blocks(&rt, blocks.as_slice(), &mut output)
}
