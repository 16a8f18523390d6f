//! A machine that is stepped by hand or by rounds.
ghost use Rattle.std.specs.Prelude.{◌≡◌, ◌<◌, IsTrue, vec_capacity, vec_len};

use crate::awake::Awake;
use lio_clauses::NoMemory;
use lio_events::Journal;
use lio_syntax::Script;
use lio_task::{Config, StepFault as TurnFault, blank_entry, born_in};
use lio_values::Entry;
use std::alloc::Global;
use std::marker::Model;

/// A configuration with its script, and the journal of the turns taken so far. A task that a round
/// found unable to take a turn sleeps: a round doesn't ask it again until a turn meets the node
/// that it waits for, or ends the task.
#[derive(Drop)]
pub struct Machine {
    config: Config,
    script: Script,
    entries: Vec<Entry>,
    order: Vec<u32>,
    awake: Awake,
}

/// Whether there is room for one more value at the end of a list; it is made where there is none.
#[inline(always)]
fn has_room<T>(list: &mut Vec<T>) -> bool
    ensures items { list.new.items ≡ list.old.items }
    ensures room { IsTrue result → vec_len list.new < vec_capacity list.new }
{
    if list.len() < list.capacity() {
        return true;
    }
    list.try_reserve(1).is_ok()
}

impl Model for Machine {
    ghost use Rattle.lio_task.specs.Configuration.{configuration_of};
    ghost use Rattle.lio_rounds.specs.MachineParts.{MachineParts, machine_code};
    ghost use Rattle.lio_rounds.specs.Invariant.{HasLogsOf, IsMachine};
    ghost use Rattle.lio_rounds.specs.Sleep.{SleepersMay};

    ghost Value = { MachineParts };

    ghost coded = { machine_code };

    ghost view = { λ m. record {
      script = m.script;
      config = m.config;
      entries = m.entries.items;
      order = m.order.items;
    } };

    ghost invariant = { λ m. let c = configuration_of m.script m.config
        in IsMachine c m.order.items m.entries.items × SleepersMay c m.order.items m.awake
        × HasLogsOf m.entries.items m.config };
}

impl Machine {
    ghost use Rattle.std.specs.Prelude.{◌≡◌, ℕ, ◌<◌, ◌≤◌, ◌^◌, false, [], length, slice_index};
    ghost use Rattle.std.specs.Prelude.{slice_index_or, IfOk, IfErr, OnOk, OnErr};
    ghost use Rattle.lio_task.specs.Configuration.{configuration_of};
    ghost use Rattle.lio_calculus.specs.Step.{can};
    ghost use Rattle.lio_calculus_runs.specs.WellFormed.{IsWellFormed};
    ghost use Rattle.lio_calculus_runs.specs.Round.{round};
    ghost use Rattle.lio_calculus_runs.specs.RoundLaws.{IsOrderOf};
    ghost use Rattle.lio_calculus_runs.specs.Rounds.{IsComplete, rounds_from, stepped, tasks};
    ghost use Rattle.lio_calculus.specs.Journals.{AreMergeable, AreNumberedFrom};
    ghost use Rattle.lio_calculus.specs.Journals.{ArePartsOf, IsMerged};
    ghost use Rattle.lio_task.specs.Logs.{AreFresh, log_in};
    ghost use Rattle.lio_task.specs.Takes.{Stays};
    ghost use Rattle.lio_rounds.specs.Invariant.{IsRunTo};
    ghost use Rattle.lio_rounds.specs.MachineState.{HasBegun, HasRun, HasTaken, HasWalked};
    ghost use Rattle.lio_rounds.specs.Schedule.{HasGoneOn};
    ghost use Rattle.lio_rounds.specs.MachineParts.{machine_of};
    ghost use Rattle.lio_rounds.specs.MachineLaws.{HasRunSeen};

    /// A machine that has taken no turn, of a well-formed configuration in which no node has served
    /// one.
    pub fn new(alloc: Global, config: Config, script: Script) -> Result<Machine, NoMemory>
        requires well_formed { IsWellFormed (configuration_of script config) }
        requires fresh { AreFresh config }
        ensures { IfOk result (λ machine. let c = configuration_of script config
            in machine_of machine ≡ record {
              script = script;
              configuration = c;
              entries = [];
              order = tasks c;
            }) }
    {
        Machine::resumed(alloc, Vec::new(alloc), config, script)
    }

    /// A machine that goes on after these turns, which lead to the configuration and whose entries
    /// stand in its logs. The order of its tasks is that of their numbers.
    pub fn resumed(
        alloc: Global,
        entries: Vec<Entry>,
        config: Config,
        script: Script,
    ) -> Result<Machine, NoMemory>
        requires run { IsRunTo (configuration_of script config) entries.items }
        requires numbered { AreNumberedFrom 0 entries.items }
        requires logs { ArePartsOf entries.items (log_in config) }
        ensures { IfOk result (λ machine. let c = configuration_of script config
            in machine_of machine ≡ record {
              script = script;
              configuration = c;
              entries = entries.items;
              order = tasks c;
            }) }
    {
        let mut order = Vec::new(alloc);
        for (k, holder) in config.holders.iter().enumerate() {
            if holder.task.is_some() {
                order.push(k as u32)?;
            }
        }
        Ok(Machine {
            config,
            script,
            entries,
            order,
            awake: Awake::new(alloc),
        })
    }

    /// The tasks: first by number, then children as they were made.
    pub fn order(&self) -> &[u32]
        ensures order { result.now ≡ (machine_of self.now).order }
        ensures lists { IsOrderOf (machine_of self.now).configuration result.now }
        ensures few { length result.now < 2 ^ 31 }
    {
        self.order.as_slice()
    }

    /// The journal so far: the entries of the turns taken, in order. It takes no memory.
    pub fn entries(&self) -> &[Entry]
        ensures { result.now ≡ (machine_of self.now).entries }
    {
        self.entries.as_slice()
    }

    /// The task at this place of the order.
    fn task_at(&self, i: usize) -> u32
        requires { i < length (machine_of self.now).order }
        ensures { result ≡ slice_index (machine_of self.now).order i }
    {
        self.order()[i]
    }

    /// The ticket of the next turn: the number of turns taken.
    fn ticket(&self) -> u64
        ensures { result ≡ length (machine_of self.now).entries }
    {
        self.entries.len() as u64
    }

    /// Takes the turn of task `k`, and keeps its entry; its ticket is the number of turns taken
    /// before it.
    fn advance(&mut self, alloc: Global, k: u32) -> Result<(), TurnFault>
        ensures ok { OnOk result ((entry : Entry)
            × HasTaken (machine_of self.old) (machine_of self.new) k entry) }
        ensures fault { IfErr result (Stays (machine_of self.old).configuration k) }
        ensures err { OnErr result (machine_of self.new ≡ machine_of self.old) }
    {
        if !has_room(&mut self.entries) {
            return Err(TurnFault::NoMemory);
        }
        if !has_room(&mut self.order) {
            return Err(TurnFault::NoMemory);
        }
        let ticket = self.ticket();
        let mut entry = blank_entry(alloc)?;
        match self.config.take(alloc, &self.script, k, ticket, &mut entry) {
            Ok(()) => {
                if let Some(child) = born_in(&entry) {
                    self.order.push_reserved(child);
                }
                self.awake.wake_met(&entry);
                self.entries.push_reserved(entry);
                Ok(())
            }
            Err(fault) => {
                drop(entry);
                Err(fault)
            }
        }
    }

    /// Whether task `k` can take a turn: it is there, hasn't ended, and has no turns left or stands
    /// at no access whose node isn't ready. It takes no memory.
    pub fn can_move(&self, k: u32) -> bool
        ensures { result ≡ can (machine_of self.now).configuration k }
    {
        self.config.can_move(&self.script, k)
    }

    /// Takes the turn of task `k`, and answers its entry; its ticket is the number of turns taken
    /// before it. After a refusal the machine is as before.
    pub fn turn(&mut self, alloc: Global, k: u32) -> Result<Entry, TurnFault>
        ensures ok { IfOk result (HasTaken (machine_of self.old) (machine_of self.new) k) }
        ensures fault { IfErr result (Stays (machine_of self.old).configuration k) }
        ensures err { OnErr result (machine_of self.new ≡ machine_of self.old) }
    {
        let ticket = self.ticket();
        let entry = self.config.next_entry(alloc, &self.script, k, ticket)?;
        match self.advance(alloc, k) {
            Ok(()) => Ok(entry),
            Err(fault) => {
                drop(entry);
                Err(fault)
            }
        }
    }

    /// Makes room in the journal for the turns that are left, where memory for all of them can be
    /// had.
    fn make_room(&mut self)
        ensures { machine_of self.new ≡ machine_of self.old }
    {
        let mut turns = 0usize;
        for holder in &self.config.holders {
            if let Some(task) = &holder.task {
                turns = turns.saturating_add(task.turns_left() as usize);
            }
        }
        let _ = self.entries.try_reserve(turns);
    }

    /// Lets task `k`, which stands at place `i` of the order, sleep. It can't take a turn.
    fn rest(&mut self, alloc: Global, i: usize, k: u32)
        requires place { i < length (machine_of self.old).order }
        requires task { k ≡ slice_index (machine_of self.old).order i }
        requires still { can (machine_of self.old).configuration k ≡ false }
        ensures { machine_of self.new ≡ machine_of self.old }
    {
        let node = self.config.awaited(&self.script, k);
        self.awake.rest(alloc, i as u32, node);
    }

    /// Takes the turn of task `k`, which stands at place `i` of the order, if it can take one, and
    /// answers whether it did.
    fn ask(&mut self, alloc: Global, i: usize, k: u32) -> Result<bool, NoMemory>
        requires place { i < length (machine_of self.old).order }
        requires task { k ≡ slice_index (machine_of self.old).order i }
        ensures ok { IfOk result (HasGoneOn (machine_of self.old) (machine_of self.new) k) }
        ensures err { OnErr result (machine_of self.new ≡ machine_of self.old) }
    {
        match self.advance(alloc, k) {
            Ok(()) => Ok(true),
            Err(TurnFault::Still(_)) => {
                self.rest(alloc, i, k);
                Ok(false)
            }
            Err(TurnFault::NoMemory) => Err(NoMemory),
        }
    }

    /// The next place of the order from this one on that is awake. No task at those between can
    /// take a turn.
    fn next_awake(&self, from: usize, count: usize) -> usize
        requires { count ≤ length (machine_of self.now).order }
        ensures from { from ≤ result }
        ensures still { (place : ℕ) → from ≤ place → place < result
            → place < length (machine_of self.now).order
            × (can (machine_of self.now).configuration
            (slice_index_or (machine_of self.now).order place 0) ≡ false) }
    {
        self.awake.next(from, count)
    }

    /// Lets each task of the order, as it stands, take a turn if it can, and answers how many did.
    /// After want of memory a first part of the round's turns was taken.
    pub fn round(&mut self, alloc: Global) -> Result<u32, NoMemory>
        ensures moved { IfOk result
            (λ n. n ≡ length (round stepped (machine_of self.old).order
            (machine_of self.old).configuration).moved) }
        ensures ok { OnOk result (HasWalked (machine_of self.old) (machine_of self.new)
            (machine_of self.old).order) }
        ensures lists { IsOrderOf (machine_of self.old).configuration (machine_of self.old).order }
        ensures err { OnErr result (HasBegun (machine_of self.old) (machine_of self.new)
            (round stepped (machine_of self.old).order (machine_of self.old).configuration).moved) }
    {
        let count = self.order().len();
        let mut moved = 0;
        let mut i = self.next_awake(0, count);
        while i < count {
            let k = self.task_at(i);
            moved += u32::from(self.ask(alloc, i, k)?);
            i = self.next_awake(i + 1, count);
        }
        Ok(moved)
    }

    /// Rounds until one moves nothing.
    fn run_rounds(&mut self, alloc: Global) -> Result<(), NoMemory>
        ensures ok { OnOk result (HasRun (machine_of self.old) (machine_of self.new)
            (rounds_from (machine_of self.old).order (machine_of self.old).configuration)) }
        ensures complete { OnOk result (IsComplete (machine_of self.new).configuration) }
        ensures err { OnErr result (HasBegun (machine_of self.old) (machine_of self.new)
            (rounds_from (machine_of self.old).order (machine_of self.old).configuration)) }
    {
        while self.round(alloc)? > 0 {}
        Ok(())
    }

    /// Rounds until one moves nothing. After want of memory a first part of the rounds' turns was
    /// taken.
    pub fn run(&mut self, alloc: Global) -> Result<(), NoMemory>
        ensures ok { OnOk result (HasRun (machine_of self.old) (machine_of self.new)
            (rounds_from (machine_of self.old).order (machine_of self.old).configuration)) }
        ensures complete { OnOk result (IsComplete (machine_of self.new).configuration) }
        ensures err { OnErr result (HasBegun (machine_of self.old) (machine_of self.new)
            (rounds_from (machine_of self.old).order (machine_of self.old).configuration)) }
    {
        self.make_room();
        self.run_rounds(alloc)
    }

    /// Gives the journal of the turns taken, and the configuration after them, whose nodes have
    /// their logs: the journal is their merge. Each observer sees of both what the erased calculus
    /// gives.
    pub fn finish(self) -> (Journal, Config)
        ensures journal { result.0 ≡ (machine_of self).entries }
        ensures configuration { configuration_of (machine_of self).script result.1
            ≡ (machine_of self).configuration }
        ensures well_formed { IsWellFormed (machine_of self).configuration }
        ensures seen { HasRunSeen (machine_of self) }
        ensures mergeable { AreMergeable (log_in result.1) }
        ensures merged { IsMerged (log_in result.1) result.0 }
    {
        (Journal::of(self.entries), self.config)
    }
}
