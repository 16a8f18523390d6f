//! Cases of the future of rounds, or of the stream of a view where the words name one: each is
//! polled by hand, by a task that notes whether it was woken.

use crate::cases::Case;
use crate::found::Found;
use crate::jobs::futures_job;
use futures::StreamExt;
use futures::task::Poll;
use futures::test::MockTask;
use lio_async_main::first_machine;
use lio_async_rounds::{RoundsFuture, ViewStream};
use lio_clauses::{Names, NoMemory, beside};
use lio_events_reading::read_seen;
use lio_host_main::Loaded;
use lio_labels::Label;
use lio_outside::MemStore;
use lio_start::Job;
use lio_values::Entry;
use std::alloc::{AllocError, Global};
use std::random::RandomSource;

/// How often something is polled at most.
const MOST_POLLS: u32 = 1_000;

/// Appends what a poll gave, and whether the task was woken.
fn push_poll(text: &mut String, gave: &str, task: &MockTask) -> Result<(), AllocError> {
    text.push_str(gave)?;
    text.push_str(if task.is_woken() { ", woken\n" } else { "\n" })
}

/// Polls a future once, and appends what that gave; answers whether it was ready.
fn poll_future(
    alloc: Global,
    task: &MockTask,
    future: &mut RoundsFuture,
    text: &mut String,
) -> Result<bool, NoMemory> {
    match task.poll(future) {
        Poll::Pending => {
            push_poll(text, "pending", task)?;
            Ok(false)
        }
        Poll::Ready(Ok(machine)) => {
            let gave = format!(in alloc; "ready after {} turns", machine.entries().len())?;
            push_poll(text, gave.as_str(), task)?;
            Ok(true)
        }
        Poll::Ready(Err(NoMemory)) => Err(NoMemory),
    }
}

/// What is told of the future of a job's rounds: each poll until it is ready, and one behind it.
fn future_tells(alloc: Global, task: &MockTask, job: &Job) -> Result<String, NoMemory> {
    let mut text = String::new(alloc);
    let mut future = RoundsFuture::new(alloc, first_machine(alloc, job)?);
    for _poll in 0..MOST_POLLS {
        if poll_future(alloc, task, &mut future, &mut text)? {
            poll_future(alloc, task, &mut future, &mut text)?;
            return Ok(text);
        }
    }
    Ok(text)
}

/// The lines of a view that are still to come.
#[derive(Clone, Copy)]
struct Lines<'t> {
    text: &'t [u8],
    names: &'t Names,
    /// The place of the next line among all, from 0.
    place: u64,
}

impl Lines<'_> {
    /// Whether the next line is that of an entry.
    fn next_is(&mut self, alloc: Global, entry: &Entry) -> bool {
        let place = self.place;
        self.place = place.saturating_add(1);
        match read_seen(alloc, self.text, self.names, place) {
            Ok((expected, length)) => {
                self.text = self.text.get(length..).unwrap_or(b"");
                let same = expected == *entry;
                drop(expected);
                same
            }
            Err(_) => false,
        }
    }
}

/// Polls a stream once, and appends what that gave; answers whether it has ended.
fn poll_stream(
    alloc: Global,
    task: &MockTask,
    stream: &mut ViewStream,
    lines: &mut Lines<'_>,
    text: &mut String,
) -> Result<bool, NoMemory> {
    match task.poll(&mut stream.next()) {
        Poll::Pending => {
            push_poll(text, "pending", task)?;
            Ok(false)
        }
        Poll::Ready(Some(Ok(entry))) => {
            let same = lines.next_is(alloc, &entry);
            drop(entry);
            push_poll(text, if same { "line" } else { "another line" }, task)?;
            Ok(false)
        }
        Poll::Ready(Some(Err(NoMemory))) => Err(NoMemory),
        Poll::Ready(None) => {
            push_poll(text, "end", task)?;
            Ok(true)
        }
    }
}

/// What is told of the stream of what an observer sees of a job's rounds, beside the lines that it
/// is to see: each poll until it has ended, and one behind it.
fn stream_tells(
    alloc: Global,
    task: &MockTask,
    job: &Job,
    observer: Label,
    seen: &str,
) -> Result<String, NoMemory> {
    let mut text = String::new(alloc);
    let (observer, machine) = beside(observer, first_machine(alloc, job))?;
    let mut stream = ViewStream::new(alloc, machine, observer);
    let policy = job.policy();
    let mut lines = Lines {
        text: seen.as_bytes(),
        names: &policy.names,
        place: 0,
    };
    for _poll in 0..MOST_POLLS {
        if poll_stream(alloc, task, &mut stream, &mut lines, &mut text)? {
            poll_stream(alloc, task, &mut stream, &mut lines, &mut text)?;
            return Ok(text);
        }
    }
    Ok(text)
}

/// What is told of the future or the stream of a case.
fn tells(
    alloc: Global,
    task: &MockTask,
    case: &Case<'_>,
    loaded: Loaded,
) -> Result<Found, NoMemory> {
    let Loaded { job, observer } = loaded;
    let tells = match observer {
        Some(observer) => {
            let seen = case.text("seen").unwrap_or("");
            stream_tells(alloc, task, &job, observer, seen)
        }
        None => future_tells(alloc, task, &job),
    };
    Found::told(alloc, tells?)
}

/// What is told of a case over a store.
pub(crate) fn run<R: AllocGlobal + RandomSource>(
    rt: &R,
    case: &Case<'_>,
    words: &[String],
    store: &mut MemStore,
) -> Result<Found, NoMemory> {
    let alloc = rt.alloc();
    let Ok(task) = MockTask::new(rt) else {
        return Err(NoMemory);
    };
    match futures_job(alloc, words, store) {
        Ok(loaded) => tells(alloc, &task, case, loaded),
        Err(status) => Found::refused(alloc, status),
    }
}
