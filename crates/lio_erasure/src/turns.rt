//! The turns of tasks over the cells that an observer sees.
//!
//! What may fail comes first: the room in the node that serves, and last how the task goes on. From
//! then on no memory is taken, so a refusal leaves all as it was.
//!
//! Each goal has its answer, so no tactic is tried.
#![tactic(none)]

ghost use Rattle.std.specs.Prelude.{◌≡◌, IsSome, IsTrue, OnOk, OnErr, false, true};
ghost use Rattle.lio_cells.specs.Node.{takes_part};
ghost use Rattle.lio_cells.specs.State.{is_absent};
ghost use Rattle.lio_calculus.specs.Step.{cell_at};
ghost use Rattle.lio_erasure.specs.Low.{LeavesOutBlanks, holder_in, is_kept, low_cell_of};
ghost use Rattle.lio_erasure.specs.Low.{low_configuration_of};
ghost use Rattle.lio_erasure.specs.Turn.{CanAdvance, Follows, placed, served};

use crate::cells::LowConfig;
use lio_clauses::NoMemory;
use lio_labels::Label;
use lio_syntax::Script;
use lio_task::Holder;
use lio_values::Entry;
use std::alloc::Global;

impl LowConfig {
    /// Takes a turn, with this entry, in which the node with a number serves. After a refusal all
    /// is as before.
    pub(crate) fn turn_serving(
        &mut self,
        alloc: Global,
        script: &Script,
        longest: u32,
        observer: &Label,
        n: u32,
        entry: &Entry,
    ) -> Result<(), NoMemory>
        requires advances { CanAdvance observer.now (low_configuration_of script.now
            longest self.old) entry.now.actor entry.now.act entry.now.reply }
        requires there { IsSome (holder_in self.old n) }
        requires takes_part { takes_part (cell_at (low_configuration_of script.now longest self.old)
            n).state entry.now.act ≡ true }
        ensures ok { OnOk result (let c = low_configuration_of script.now longest self.old in
            Follows observer.now c (served c n entry.now.act)
            (low_configuration_of script.now longest self.new)
            entry.now.actor entry.now.act entry.now.reply) }
        ensures err { OnErr result (low_configuration_of script.now longest self.new
            ≡ low_configuration_of script.now longest self.old) }
        ensures kept { LeavesOutBlanks self.old → LeavesOutBlanks self.new }
    {
        self.reserve(alloc, n, &entry.act)?;
        self.advance(alloc, script, longest, observer, entry)?;
        self.serve(n, &entry.act);
        self.settle(entry.actor, observer);
        Ok(())
    }

    /// Takes a turn, with this entry, in which no node serves. After a refusal all is as before.
    pub(crate) fn turn_alone(
        &mut self,
        alloc: Global,
        script: &Script,
        longest: u32,
        observer: &Label,
        entry: &Entry,
    ) -> Result<(), NoMemory>
        requires { CanAdvance observer.now (low_configuration_of script.now longest self.old)
            entry.now.actor entry.now.act entry.now.reply }
        ensures ok { OnOk result (let c = low_configuration_of script.now longest self.old in
            Follows observer.now c c (low_configuration_of script.now longest self.new)
            entry.now.actor entry.now.act entry.now.reply) }
        ensures err { OnErr result (low_configuration_of script.now longest self.new
            ≡ low_configuration_of script.now longest self.old) }
        ensures kept { LeavesOutBlanks self.old → LeavesOutBlanks self.new }
    {
        self.advance(alloc, script, longest, observer, entry)?;
        self.settle(entry.actor, observer);
        Ok(())
    }

    /// Takes a turn, with this entry, that puts a cell under a number, if nothing is there. After a
    /// refusal all is as before.
    pub(crate) fn turn_placing(
        &mut self,
        alloc: Global,
        script: &Script,
        longest: u32,
        observer: &Label,
        n: u32,
        cell: Option<Holder>,
        entry: &Entry,
    ) -> Result<(), NoMemory>
        requires advances { CanAdvance observer.now (low_configuration_of script.now
            longest self.old) entry.now.actor entry.now.act entry.now.reply }
        requires there { is_absent (cell_at (low_configuration_of script.now longest self.old)
            entry.now.actor).state ≡ false }
        requires kept { IsTrue (is_kept cell) }
        ensures ok { OnOk result (let c = low_configuration_of script.now longest self.old in
            Follows observer.now c (placed c n (low_cell_of script.now cell))
            (low_configuration_of script.now longest self.new)
            entry.now.actor entry.now.act entry.now.reply) }
        ensures err { OnErr result (low_configuration_of script.now longest self.new
            ≡ low_configuration_of script.now longest self.old) }
        ensures kept { LeavesOutBlanks self.old → LeavesOutBlanks self.new }
    {
        match self.advance(alloc, script, longest, observer, entry) {
            Ok(()) => {
                self.place(n, cell);
                self.settle(entry.actor, observer);
                Ok(())
            }
            Err(error) => {
                drop(cell);
                Err(error)
            }
        }
    }
}
