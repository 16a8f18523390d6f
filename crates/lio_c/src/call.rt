//! A call between bytes.

ghost use Rattle.std.specs.Prelude.{IfErr, IfOk};
ghost use Rattle.lio_front.specs.Sorted.{bytes_of_words};
ghost use Rattle.lio_c.specs.Answers.{Answers, Replies};
ghost use Rattle.lio_c.specs.Bundle.{IsRefusal};

use crate::alone::call_alone;
use crate::files::read_files;
use crate::message::message;
use crate::refusal::Refusal;
use crate::reply::{print_reply, written};
use crate::words::read_words;
use lio_clauses::NoMemory;
use lio_front::Status;
use lio_host_main::Outcome;
use lio_outside::{SureSay, SureStore};
use std::alloc::Global;

/// Does what words ask for over files in memory, and answers with the reply: what was said, a
/// message, and each file that was written, with its name before it.
fn reply_to(
    alloc: Global,
    words: &[String],
    mut store: SureStore,
) -> Result<(Status, Vec<u8>), NoMemory>
    ensures { IfOk result
        (λ it. Replies (bytes_of_words words.now) store it.0 it.1.items) }
{
    let mut say = SureSay::new(alloc);
    let outcome = call_alone(alloc, words, &mut store, &mut say);
    let message = message(alloc, words, &outcome)?;
    let names = written(alloc, words, &outcome)?;
    let text = message.as_str().as_bytes();
    let reply = print_reply(alloc, say.said(), text, &store, names.as_slice())?;
    let Outcome { status, .. } = outcome;
    Ok((status, reply))
}

/// The same where words and files are given as netstrings.
pub fn answer(alloc: Global, words: &[u8], files: &[u8]) -> Result<(Status, Vec<u8>), Refusal>
    ensures ok { IfOk result (λ it. Answers words.now files.now it.0 it.1.items) }
    ensures err { IfErr result (IsRefusal words.now files.now) }
{
    let words = read_words(alloc, words)?;
    let store = read_files(alloc, files)?;
    let reply = reply_to(alloc, words.as_slice(), store)?;
    Ok(reply)
}
