//! An example of a service that runs two scripts beside each other under one policy, by rounds that
//! it makes in turn, and prints what an observer sees of each as it comes.
#![tactic(auto)]

use futures::StreamExt;
use futures::task::Poll;
use futures::test::MockTask;
use lio_async_main::{first_machine, read_words};
use lio_async_rounds::ViewStream;
use lio_clauses::NoMemory;
use lio_front::Texts;
use lio_host_main::{HostStatus, Order, prepare_order};
use lio_outside::Store;
use lio_system::RealStore;
use lio_values::Entry;
use std::alloc::Global;
use std::io;
use std::sync::Wait;

/// The observer of both runs.
const OBSERVER: &str = "True %% True";

/// The words that name a policy, a script and an observer.
fn words(alloc: Global, script: &str) -> Result<Vec<String>, NoMemory> {
    let mut words = Vec::new(alloc);
    for word in ["policy.json", script, "view.txt", OBSERVER] {
        words.push(String::from_str(alloc, word)?)?;
    }
    Ok(words)
}

/// What an observer is to see of a script, as the rounds make it.
fn stream_of<S: Store>(
    alloc: Global,
    store: &mut S,
    script: &str,
) -> Result<ViewStream, HostStatus> {
    let words = words(alloc, script)?;
    let Some(command) = read_words(words.as_slice()) else {
        return Err(HostStatus::BadWords);
    };
    let Order {
        job,
        observer,
        way,
        ..
    } = prepare_order(alloc, store, command, &mut Texts::none())?;
    let machine = first_machine(alloc, &job);
    match (machine, observer) {
        (Ok(machine), Some(observer)) => Ok(ViewStream::new(alloc, machine, observer)),
        (Ok(_), None) => Err(HostStatus::BadWords),
        (Err(NoMemory), _) => Err(HostStatus::NoMemory),
    }
}

/// Prints which turn an entry shows.
fn print_turn<R: Print>(rt: &R, script: &str, entry: &Entry) -> io::Result<()> {
    let ticket = entry.ticket;
    let actor = entry.actor;
    println!(rt; "{script}: turn {ticket} that is seen, of task {actor}")
}

/// Polls a stream once, prints an entry that it gives, and answers whether it goes on.
fn serve_once<R: Print>(
    rt: &R,
    task: &MockTask,
    script: &str,
    stream: &mut ViewStream,
) -> io::Result<bool> {
    match task.poll(&mut stream.next()) {
        Poll::Pending => Ok(true),
        Poll::Ready(Some(Ok(entry))) => {
            let printed = print_turn(rt, script, &entry);
            drop(entry);
            printed?;
            Ok(true)
        }
        Poll::Ready(Some(Err(NoMemory))) | Poll::Ready(None) => Ok(false),
    }
}

/// Lets both streams go on in turn, until both have ended.
fn serve<R: Print + Wait>(
    rt: &R,
    task: &MockTask,
    first: &mut ViewStream,
    second: &mut ViewStream,
) -> io::Result<()> {
    for _turn in rt.forever() {
        let first_goes_on = serve_once(rt, task, "first.lio", first)?;
        let second_goes_on = serve_once(rt, task, "second.lio", second)?;
        if !first_goes_on && !second_goes_on {
            return Ok(());
        }
    }
    Ok(())
}

fn main(rt: HostRuntime) -> io::Result<()> {
    let alloc = rt.alloc();
    let mut store = RealStore::new(alloc, &rt);
    let mut first = match stream_of(alloc, &mut store, "first.lio") {
        Ok(stream) => stream,
        Err(_status) => return Err(io::Error::other("the first script can't be run")),
    };
    let mut second = match stream_of(alloc, &mut store, "second.lio") {
        Ok(stream) => stream,
        Err(_status) => return Err(io::Error::other("the second script can't be run")),
    };
    let task = MockTask::new(&rt)?;
    serve(&rt, &task, &mut first, &mut second)
}
