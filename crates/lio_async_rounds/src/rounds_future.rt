//! The rounds of a machine as a future: each poll makes one round.
ghost use Rattle.std.specs.Prelude.{◌≡◌, ℕ, true, Option, Some, Result};
ghost use Rattle.futures.specs.Poll.{IfReady, OnPending};
ghost use Rattle.futures.specs.Task.{Covers, Keeps};
ghost use Rattle.lio_async_rounds.specs.RoundsFuture.{Gives, Polls};

use futures::future::Future;
use futures::task::{Context, Poll};
use lio_clauses::NoMemory;
use lio_rounds::Machine;
use std::alloc::Global;

/// Runs a machine by rounds, one round each time that it is polled, until a round moves nothing,
/// and then gives the machine.
#[derive(Drop)]
pub struct RoundsFuture {
    alloc: Global,
    machine: Option<Machine>,
}

impl RoundsFuture {
    /// The rounds of a machine, as it stands. It takes no memory.
    pub fn new(alloc: Global, machine: Machine) -> RoundsFuture
        ensures { result.machine ≡ Some machine }
    {
        RoundsFuture {
            alloc,
            machine: Some(machine),
        }
    }

    /// Makes one round, where the machine is still there.
    fn advance(&mut self) -> Poll<Result<Machine, NoMemory>>
        ensures { Polls self.old.machine result self.new.machine }
    {
        let Some(mut machine) = self.machine.take() else {
            return Poll::Pending;
        };
        match machine.round(self.alloc) {
            Ok(0) => Poll::Ready(Ok(machine)),
            Ok(_) => {
                self.machine = Some(machine);
                Poll::Pending
            }
            Err(NoMemory) => Poll::Ready(Err(NoMemory)),
        }
    }
}

impl Future for RoundsFuture {
    type Output = Result<Machine, NoMemory>;

    ghost gives = { λ future output. Gives future.machine output };

    /// Makes one round. It is pending only where that round moved a task, or a poll was ready
    /// before and nothing is left to move, and has then woken its own task.
    fn poll(&mut self, cx: &mut Context<'_>) -> Poll<Result<Machine, NoMemory>>
        ensures value { IfReady result (Gives self.old.machine) }
        ensures same { OnPending result ((x : _) → Gives self.new.machine x
            → Gives self.old.machine x) }
        ensures registered { OnPending result (Covers cx.new (λ _. ⊥)) }
        ensures kept { Keeps cx.old cx.new }
        ensures polls { Polls self.old.machine result self.new.machine }
        ensures woken { OnPending result (cx.new.is_woken ≡ true) }
    {
        match self.advance() {
            Poll::Ready(output) => Poll::Ready(output),
            Poll::Pending => cx.yield_now(),
        }
    }
}
