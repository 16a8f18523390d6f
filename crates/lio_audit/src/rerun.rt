//! The view of a run by rounds, which an observer computes from what it is told.
ghost use Rattle.std.specs.Prelude.{◌≡◌, ◌++◌, ◌<◌, ◌^◌, IfErr, IfOk, List as list_of, OnOk};
ghost use Rattle.std.specs.Prelude.{All, is_some, length, ℕ};
ghost use Rattle.lio_values.specs.Purity.{IsContentPure};
ghost use Rattle.lio_syntax.specs.Statements.{Procedure};
ghost use Rattle.lio_calculus_runs.specs.Rounds.{tasks};
ghost use Rattle.lio_erasure.specs.Low.{IsSeenOfSound, LeavesOutBlanks, low_cell_of};
ghost use Rattle.lio_erasure.specs.Low.{low_configuration_of};
ghost use Rattle.lio_task.specs.Outcome.{listed};
ghost use Rattle.lio_audit.specs.Rerun.{AreRoundsOf, CanBePrinted, RerunSays};

use crate::observer::low_from;
use crate::view_fault::RerunFault;
use lio_clauses::NoMemory;
use lio_erasure::{Low, LowConfig, LowFault};
use lio_events::{Contents, Journal};
use lio_labels::Label;
use lio_syntax::Script;
use lio_task::{Holder, born_in};
use std::alloc::Global;

/// Puts a child last in an order, if there is one.
fn list(order: &mut Vec<u32>, child: Option<u32>) -> Result<(), NoMemory>
    ensures { OnOk result (order.new.items ≡ order.old.items ++ listed child) }
{
    if let Some(child) = child {
        order.push(child)?;
    }
    Ok(())
}

/// Rounds of the erased calculus, so far: the contents that are left, the turns that were taken,
/// and the order of the tasks.
#[derive(Drop)]
struct Rerun {
    low: Low,
    releases: Contents,
    journal: Journal,
    order: Vec<u32>,
}

impl Rerun {
    ghost use Rattle.std.specs.Prelude.{◌≡◌, All, IfErr, IfOk, OnOk, [], false, length};
    ghost use Rattle.lio_values.specs.Purity.{IsContentPure};
    ghost use Rattle.lio_events.specs.Tickets.{AreBelow};
    ghost use Rattle.lio_audit.specs.Asking.{HasAsked, HasCome, Lacks, RoundsSay, rerun_of};

    /// Takes the turn of task `k`, if it can take one, and tells whether it did.
    fn ask(&mut self, alloc: Global, k: u32) -> Result<bool, RerunFault>
        requires below { AreBelow (length self.old.journal) self.old.journal }
        requires pure { All IsContentPure self.old.releases }
        ensures ok { IfOk result (HasAsked (rerun_of self.old) (rerun_of self.new) k) }
        ensures below { OnOk result (AreBelow (length self.new.journal) self.new.journal) }
        ensures pure { All IsContentPure self.new.releases }
        ensures err { IfErr result (Lacks (rerun_of self.old) k) }
    {
        let mut entry = match self.low.turn(alloc, k, &mut self.releases) {
            Ok(entry) => entry,
            Err(LowFault::Still(_)) => return Ok(false),
            Err(LowFault::NoRelease(k)) => return Err(RerunFault::NoRelease(k)),
            Err(LowFault::NoMemory) => return Err(RerunFault::NoMemory),
        };
        entry.ticket = self.journal.entries().len() as u64;
        let child = born_in(&entry);
        self.journal.push(entry)?;
        list(&mut self.order, child)?;
        Ok(true)
    }

    /// Lets each task of the order, as it stands, take a turn if it can, and tells whether one did.
    fn round(&mut self, alloc: Global) -> Result<bool, RerunFault>
        requires below { AreBelow (length self.old.journal) self.old.journal }
        requires pure { All IsContentPure self.old.releases }
        ensures ok { IfOk result
            (λ moved. HasCome (rerun_of self.old) (rerun_of self.new) moved []) }
        ensures below { OnOk result (AreBelow (length self.new.journal) self.new.journal) }
        ensures pure { All IsContentPure self.new.releases }
        ensures err { IfErr result (RoundsSay (rerun_of self.old)) }
    {
        let count = self.order.len();
        let mut moved = false;
        for i in 0..count {
            let k = self.order[i];
            moved = self.ask(alloc, k)? || moved;
        }
        Ok(moved)
    }

    /// Rounds until one moves nothing.
    fn run(&mut self, alloc: Global) -> Result<(), RerunFault>
        requires below { AreBelow (length self.old.journal) self.old.journal }
        requires pure { All IsContentPure self.old.releases }
        ensures ok { OnOk result (HasCome (rerun_of self.old) (rerun_of self.new) false []) }
        ensures err { IfErr result (RoundsSay (rerun_of self.old)) }
    {
        while self.round(alloc)? {}
        Ok(())
    }
}

/// Whether a cell has a task.
fn has_task(cell: &Option<Holder>) -> bool
    ensures { (script : list_of Procedure) → result ≡ is_some (low_cell_of script cell.now).task }
{
    match cell {
        Some(holder) => holder.task.is_some(),
        None => false,
    }
}

/// The tasks of a configuration as an observer sees it, by number.
fn tasks_of(alloc: Global, start: &LowConfig) -> Result<Vec<u32>, NoMemory>
    requires { length start.now < 2 ^ 31 }
    ensures { IfOk result (λ order. (script : list_of Procedure) (longest : ℕ)
        → order.items ≡ tasks (low_configuration_of script longest start.now)) }
{
    let mut order = Vec::new(alloc);
    for (k, cell) in start.as_slice().iter().enumerate() {
        if has_task(cell) {
            order.push(k as u32)?;
        }
    }
    Ok(order)
}

/// Computes the view of a run by rounds, from what an observer sees of the sound configuration
/// where the run began and the contents that it is told: the entries that the erased rounds give,
/// and the contents that are left.
pub fn rerun_view(
    alloc: Global,
    start: LowConfig,
    observer: &Label,
    script: &Script,
    longest: u32,
    releases: Contents,
) -> Result<(Journal, Contents), RerunFault>
    requires seen { IsSeenOfSound observer.now (low_configuration_of script.now longest start) }
    requires kept { LeavesOutBlanks start }
    requires pure { All IsContentPure releases }
    ensures ok { IfOk result (λ it. AreRoundsOf observer.now
        (low_configuration_of script.now longest start) releases it.0 it.1) }
    ensures printable { IfOk result (λ it. CanBePrinted
        (low_configuration_of script.now longest start) releases it.0) }
    ensures err { IfErr result (RerunSays observer.now
        (low_configuration_of script.now longest start) releases) }
{
    let order = tasks_of(alloc, &start)?;
    let low = low_from(alloc, start, observer, script, longest)?;
    let mut rerun = Rerun {
        low,
        releases,
        journal: Journal::new(alloc),
        order,
    };
    match rerun.run(alloc) {
        Ok(()) => {
            let Rerun {
                releases,
                journal,
                ..
            } = rerun;
            Ok((journal, releases))
        }
        Err(fault) => Err(fault),
    }
}
