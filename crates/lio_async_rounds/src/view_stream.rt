//! What an observer sees of the rounds of a machine, as a stream.
ghost use Rattle.std.specs.Prelude.{◌≤◌, length};
ghost use Rattle.std.specs.Option.{ForSome};

use crate::seen::{first_seen, seen_entry};
use futures::stream::Stream;
use futures::task::{Context, Poll};
use lio_clauses::NoMemory;
use lio_labels::Label;
use lio_rounds::Machine;
use lio_values::Entry;
use std::alloc::Global;

/// Runs a machine by rounds, at most one each time that it is polled, and gives the entries that an
/// observer sees, each erased, as the rounds make them.
#[derive(Drop)]
pub struct ViewStream {
    alloc: Global,
    machine: Option<Machine>,
    observer: Label,
    /// How many entries of the machine's journal were looked at.
    next: usize,
    /// How many entries were given: the next ticket.
    given: u64,
    ghost within: { ForSome machine (λ m. next ≤ length m.entries) },
    ghost counted: { given ≤ next },
}

impl ViewStream {
    ghost use Rattle.std.specs.Prelude.{◌≡◌, ◌≤◌, [], None, Some, length, MatchBool};
    ghost use Rattle.lio_rounds.specs.MachineParts.{machine_of};
    ghost use Rattle.lio_async_rounds.specs.ViewStream.{Gave, GivesNext, IsFound, waiting};

    /// What an observer sees of the journal of a machine, and of the rounds that it is still to
    /// make. It takes no memory.
    pub fn new(alloc: Global, machine: Machine, observer: Label) -> ViewStream
        ensures machine { result.machine ≡ Some machine }
        ensures observer { result.observer ≡ observer }
        ensures next { result.next ≡ 0 }
        ensures given { result.given ≡ 0 }
    {
        ViewStream {
            alloc,
            machine: Some(machine),
            observer,
            next: 0,
            given: 0,
        }
    }

    /// Goes on to the first entry of a machine's journal that waits to be given, and answers
    /// whether there is one.
    fn find(&mut self, machine: &Machine) -> bool
        requires none { self.old.machine ≡ None }
        requires within { self.old.next ≤ length (machine_of machine.now).entries }
        ensures none { self.new.machine ≡ None }
        ensures observer { self.new.observer ≡ self.old.observer }
        ensures given { self.new.given ≡ self.old.given }
        ensures within { self.new.next ≤ length (machine_of machine.now).entries }
        ensures same { waiting self.new (machine_of machine.now)
            ≡ waiting self.old (machine_of machine.now) }
        ensures found { MatchBool result (IsFound self.new (machine_of machine.now))
            (waiting self.new (machine_of machine.now) ≡ []) }
    {
        let entries = machine.entries();
        self.next = first_seen(entries, self.next, &self.observer);
        self.next < entries.len()
    }

    /// Gives the entry of a machine's journal that was found.
    fn give(&mut self, machine: Machine) -> Poll<Option<Result<Entry, NoMemory>>>
        requires none { self.old.machine ≡ None }
        requires found { IsFound self.old (machine_of machine) }
        ensures { Gave self.old (machine_of machine) result self.new }
    {
        let _ = machine.order();
        let entry = &machine.entries()[self.next];
        match seen_entry(self.alloc, entry, &self.observer, self.given) {
            Ok(entry) => {
                self.next += 1;
                self.given += 1;
                self.machine = Some(machine);
                Poll::Ready(Some(Ok(entry)))
            }
            Err(NoMemory) => Poll::Ready(Some(Err(NoMemory))),
        }
    }

    /// Gives the next entry that the observer sees. Where none waits, it makes one round.
    fn advance(&mut self) -> Poll<Option<Result<Entry, NoMemory>>>
        ensures { GivesNext self.old result self.new }
    {
        let Some(mut machine) = self.machine.take() else {
            return Poll::Ready(None);
        };
        if self.find(&machine) {
            return self.give(machine);
        }
        match machine.round(self.alloc) {
            Ok(0) => Poll::Ready(None),
            Ok(_) => {
                if self.find(&machine) {
                    return self.give(machine);
                }
                self.machine = Some(machine);
                Poll::Pending
            }
            Err(NoMemory) => Poll::Ready(Some(Err(NoMemory))),
        }
    }
}

impl Stream for ViewStream {
    ghost use Rattle.std.specs.Prelude.{◌≡◌, true, [], IfSome};
    ghost use Rattle.futures.specs.Poll.{IfReady, OnPending};
    ghost use Rattle.futures.specs.Runs.{After, Within};
    ghost use Rattle.futures.specs.Task.{Covers, Keeps};
    ghost use Rattle.lio_async_rounds.specs.ViewStream.{GivesNext, Yields};

    type Item = Result<Entry, NoMemory>;

    ghost yields = { λ stream items last. Yields stream items last };

    /// Gives the next entry that the observer sees, erased, with the next ticket. Where none waits,
    /// it makes one round: the stream ends where that moved nothing, and is pending only where it
    /// moved a task and the observer sees nothing of it; it has then woken its own task. Want of
    /// memory is followed by the end alone, and the end by the end.
    fn poll_next(&mut self, cx: &mut Context<'_>) -> Poll<Option<Result<Entry, NoMemory>>>
        ensures value { IfReady result (Yields self.old []) }
        ensures rest { IfReady result
            (λ o. IfSome o (λ x. After (Yields self.old) x (Yields self.new))) }
        ensures same { OnPending result (Within (Yields self.old) (Yields self.new)) }
        ensures registered { OnPending result (Covers cx.new (λ _. ⊥)) }
        ensures kept { Keeps cx.old cx.new }
        ensures gives { GivesNext self.old result self.new }
        ensures woken { OnPending result (cx.new.is_woken ≡ true) }
    {
        match self.advance() {
            Poll::Ready(item) => Poll::Ready(item),
            Poll::Pending => cx.yield_now(),
        }
    }
}
