//! Answers commands of one line, one line each: the worked examples of the libraries, as data.
#![tactic(auto)]

mod audits;
mod hints;
mod logs;
mod low;
mod observers;
mod policies;
mod refusal;
mod runs;
mod scripts;
mod session;
mod tables;
mod turns;

use lio_rows_commands::Answer;
use refusal::Refusal;
use session::Session;
use std::alloc::Global;
use std::io;
use std::io::{BufRead, BufReader, BufWriter, ErrorKind, Write};

/// Writes what a command answers, without a line end.
fn write_answer<W: Write>(
    alloc: Global,
    answer: Result<Answer, Refusal>,
    output: &mut W,
) -> io::Result<()> {
    match answer {
        Ok(answer) => answer.write(alloc, output),
        Err(refusal) => write!(output, "{refusal}"),
    }
}

/// Writes the line that a line is answered by. A line without bytes, and one that begins with `#`,
/// is written as it is.
fn respond<W: Write>(
    alloc: Global,
    session: &mut Session,
    line: &[u8],
    output: &mut W,
) -> io::Result<()> {
    match line {
        [] => {}
        [b'#', ..] => output.write_all(line)?,
        _ => write_answer(alloc, session.answer(alloc, line), output)?,
    }
    output.write_all(b"\n")
}

fn main(rt: HostRuntime) -> io::Result<()> {
    let alloc = rt.alloc();
    let Ok(mut session) = Session::new(alloc) else {
        return Err(io::Error::from(ErrorKind::OutOfMemory));
    };
    let input = BufReader::new(alloc, rt.reader())?;
    let mut output = BufWriter::new(alloc, io::writer(&rt))?;
    for line in input.split(alloc, b'\n') {
        let line = line?;
        respond(alloc, &mut session, line.as_slice(), &mut output)?;
    }
    output.flush()
}
