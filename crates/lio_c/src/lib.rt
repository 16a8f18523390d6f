//! The host as a C library: words and files come as netstrings, what is said, a message and the
//! files that are written go as netstrings, and the files lie in memory in between.
#![tactic(auto)]

mod alone;
mod call;
mod files;
pub mod laws;
mod message;
mod netstrings;
mod refusal;
mod reply;
mod told;
mod words;

ghost use Rattle.std.specs.Prelude.{◌≡◌};
ghost use Rattle.lio_c.specs.Told.{Tells, answer_told, refusal_told, with_reply};

use crate::call::answer;
use crate::told::Told;
use lio_front::Status;
pub use refusal::Refusal;
use std::alloc::Global;

/// What is told where no call is made.
fn refused(refusal: Refusal) -> Told
    ensures { result ≡ refusal_told refusal }
{
    let (status, place) = match refusal {
        Refusal::WordsBroken(place) => (20, place),
        Refusal::WordNotText(number) => (21, number),
        Refusal::FilesBroken(place) => (22, place),
        Refusal::FileAlone(number) => (23, number),
        Refusal::FileTwice(number) => (24, number),
        Refusal::NoMemory => (9, 0),
    };
    Told {
        status,
        place,
        needed: 0,
    }
}

/// What is told of an answer with a reply of so many bytes.
fn answered(status: &Status, needed: usize) -> Told
    ensures { result ≡ answer_told status.now needed }
{
    Told {
        status: status.number() as u32,
        place: 0,
        needed,
    }
}

/// Puts a reply to the front, where there is room for all of it.
fn put(out: &mut [u8], reply: &[u8])
    ensures { out.new ≡ with_reply reply.now out.old }
{
    if reply.len() <= out.len() {
        out[..reply.len()].copy_from_slice(reply);
    }
}

/// Does what words ask for over files in memory, both given as netstrings. Where the reply has no
/// room in `out`, that stays as it was, and a call with as much room as is needed gives it.
#[unsafe(no_mangle)]
pub extern "C" fn lio_host(
    alloc: Global,
    words: &[u8],
    files: &[u8],
    out: &mut [u8],
    told: &mut Told,
)
    ensures { Tells words.now files.now out.old out.new told.new }
{
    match answer(alloc, words, files) {
        Ok((status, reply)) => {
            put(out, reply.as_slice());
            *told = answered(&status, reply.len());
        }
        Err(refusal) => *told = refused(refusal),
    }
}
