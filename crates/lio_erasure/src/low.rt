//! The erased calculus, which takes turns.
//!
//! Where `#[tactic(none)]` stands each goal has its answer, so no tactic is tried.
ghost use Rattle.std.specs.Prelude.{◌≡◌, IfOk, slice_get};
ghost use Rattle.std.specs.Prelude.{All, List, true, false, IsSome, IsTrue, IfErr, OnErr};
ghost use Rattle.lio_values.specs.declared.value.Content.{Content};
ghost use Rattle.lio_values.specs.Purity.{IsContentPure};
ghost use Rattle.lio_calculus.specs.Step.{blank, can, met_after, waits};
ghost use Rattle.lio_calculus.specs.Afforded.{makes};
ghost use Rattle.lio_task_turns.specs.StateOf.{program_of};
ghost use Rattle.lio_task.specs.Births.{CanBear};
ghost use Rattle.lio_erasure.specs.Low.{IsSeenOfSound, LeavesOutBlanks, is_kept, low_cell_of};
ghost use Rattle.lio_erasure.specs.Low.{low_configuration_of, low_task_in, seen_cell};
ghost use Rattle.lio_erasure.specs.LowParts.{low_of};
ghost use Rattle.lio_erasure.specs.Turn.{IsAsSeen, IsShown, Moves, PlansAct, PlansOwn};
ghost use Rattle.lio_erasure.specs.Turn.{PlansVisit, Stays, TakesTurn, VisitsNew, VisitsNode};

use crate::acts::{lacks_content, shown_act, waits, with_content};
use crate::cells::LowConfig;
use crate::hidden::seen;
use crate::made::made;
use crate::shown::entry_of;
use lio_clauses::{NoMemory, beside};
use lio_events::Contents;
use lio_labels::Label;
use lio_syntax::Script;
use lio_task::{Holder, Next};
use lio_values::{Act, Content, Entry, Held, Reply};
use std::alloc::Global;
use std::marker::Model;
use thiserror::Error;

/// Why a task took no turn.
#[derive(Debug, Clone, Copy, PartialEq, Eq, Error)]
pub enum LowFault {
    /// The task with this number can't take a turn.
    #[error("task {0} can't take a turn")]
    Still(u32),
    /// The task with this number releases or exposes a content that wasn't told.
    #[error("no content is left that task {0} releases")]
    NoRelease(u32),
    /// No memory is left; all is as before.
    #[error("out of memory")]
    NoMemory,
}

impl From<NoMemory> for LowFault {
    ghost use Rattle.lio_erasure.specs.declared.low.LowFault.TheVariants.{NoMemory as without_memory};

    ghost from_gives = { λ _ fault. fault ≡ without_memory };

    fn from(_error: NoMemory) -> LowFault {
        LowFault::NoMemory
    }
}

/// What an observer sees of a configuration, which takes the turns that the observer sees.
#[derive(Drop)]
pub struct Low {
    config: LowConfig,
    observer: Label,
    script: Script,
    longest: u32,
}

impl Model for Low {
    ghost use Rattle.std.specs.Prelude.{◌≡◌};
    ghost use Rattle.lio_erasure.specs.Low.{IsErased, LeavesOutBlanks, low_configuration_of};
    ghost use Rattle.lio_erasure.specs.LowParts.{LowParts, low_code};

    ghost Value = { LowParts };

    ghost coded = { low_code };

    ghost view = { λ low. record {
      script = low.script;
      longest = low.longest;
      observer = low.observer;
      holders = low.config;
    } };

    ghost invariant = { λ low. IsErased low.observer
        (low_configuration_of low.script low.longest low.config) × LeavesOutBlanks low.config };
}

#[tactic(none)]
impl Low {
    /// What an observer sees of a sound configuration, with its script and how long a text
    /// may become in it.
    pub fn new(config: LowConfig, observer: Label, script: Script, longest: u32) -> Low
        requires seen { IsSeenOfSound observer (low_configuration_of script longest config) }
        requires kept { LeavesOutBlanks config }
        ensures { low_of result ≡ record {
          observer = observer;
          configuration = low_configuration_of script longest config;
        } }
    {
        Low {
            config,
            observer,
            script,
            longest,
        }
    }

    /// The cells that the observer sees.
    pub fn config(&self) -> &LowConfig
        ensures cells { let c = (low_of self.now).configuration in
            low_configuration_of c.program.procedures c.program.longest result.now ≡ c }
        ensures kept { LeavesOutBlanks result.now }
    {
        &self.config
    }

    /// What a turn of the task with a number shows.
    fn shown(
        &self,
        alloc: Global,
        k: u32,
        target: Option<u32>,
        act: Act,
        reply: Reply,
    ) -> Result<Entry, NoMemory>
        requires there { IsSome (low_task_in self.now.holders k) }
        requires seen { IsAsSeen self.now.observer act reply }
        ensures { IfOk result (IsShown self.now k target act reply) }
    {
        let Some(task) = self.config.task(k) else {
            unreachable!()
        };
        match shown_act(alloc, act, &self.observer) {
            Ok(act) => entry_of(alloc, k, target, task.label(), act, reply),
            Err(error) => {
                drop(reply);
                Err(error)
            }
        }
    }

    /// Takes the turn of a task that meets no other node, with this act in the place of the one
    /// that it plans.
    fn own(&mut self, alloc: Global, k: u32, act: Act, reply: Reply) -> Result<Entry, NoMemory>
        requires { PlansOwn self.old k act reply }
        ensures ok { IfOk result (Moves (low_of self.old) (low_of self.new) k act) }
        ensures err { OnErr result (low_of self.new ≡ low_of self.old) }
    {
        let entry = self.shown(alloc, k, None, act, reply)?;
        let served = self.config.turn_serving(
            alloc,
            &self.script,
            self.longest,
            &self.observer,
            k,
            &entry,
        );
        let (shown, _) = beside(entry, served)?;
        Ok(shown)
    }

    /// Takes the turn of a task that meets a node that is ready.
    fn meet(&mut self, alloc: Global, k: u32, act: Act, n: u32) -> Result<Entry, NoMemory>
        requires { VisitsNode self.old k act n true }
        ensures ok { IfOk result (Moves (low_of self.old) (low_of self.new) k act) }
        ensures err { OnErr result (low_of self.new ≡ low_of self.old) }
    {
        let Some(holder) = self.config.holder(n) else {
            unreachable!()
        };
        let reply = match holder.node.answer(alloc, &act) {
            Ok(reply) => reply,
            Err(error) => {
                drop(act);
                return Err(error);
            }
        };
        let entry = self.shown(alloc, k, Some(n), act, reply)?;
        let served = self.config.turn_serving(
            alloc,
            &self.script,
            self.longest,
            &self.observer,
            n,
            &entry,
        );
        let (shown, _) = beside(entry, served)?;
        Ok(shown)
    }

    /// Takes the turn of a task that writes or sends to a cell that is left out: it changes the
    /// actor alone.
    fn miss(&mut self, alloc: Global, k: u32, act: Act, n: u32) -> Result<Entry, NoMemory>
        requires visits { VisitsNode self.old k act n false }
        requires stays { waits act ≡ false }
        ensures ok { IfOk result (Moves (low_of self.old) (low_of self.new) k act) }
        ensures err { OnErr result (low_of self.new ≡ low_of self.old) }
    {
        let entry = self.shown(alloc, k, Some(n), act, Reply::Done)?;
        let taken = self
            .config
            .turn_alone(alloc, &self.script, self.longest, &self.observer, &entry);
        let (shown, _) = beside(entry, taken)?;
        Ok(shown)
    }

    /// Takes the turn of a task that makes a node. It is placed only where nothing is.
    fn make(&mut self, alloc: Global, k: u32, act: Act, n: u32) -> Result<Entry, NoMemory>
        requires { VisitsNew self.old k act n }
        ensures ok { IfOk result (Moves (low_of self.old) (low_of self.new) k act) }
        ensures err { OnErr result (low_of self.new ≡ low_of self.old) }
    {
        let entry = self.shown(alloc, k, Some(n), act, Reply::Done)?;
        let cell = match self.made(alloc, &entry) {
            Ok(cell) => cell,
            Err(error) => {
                drop(entry);
                return Err(error);
            }
        };
        if let Err(error) = self.config.turn_placing(
            alloc,
            &self.script,
            self.longest,
            &self.observer,
            n,
            cell,
            &entry,
        ) {
            drop(entry);
            return Err(error);
        }
        Ok(entry)
    }

    /// The node that the act of an entry makes, as the observer sees it.
    fn made(&self, alloc: Global, entry: &Entry) -> Result<Option<Holder>, NoMemory>
        requires makes { IsTrue (makes entry.now.act) }
        requires bears { CanBear self.now.script entry.now.at entry.now.act }
        ensures seen { IfOk result
            (λ cell. low_cell_of self.now.script cell ≡ seen_cell self.now.observer (met_after
            (program_of self.now.script self.now.longest) entry.now.at entry.now.act blank)) }
        ensures kept { IfOk result (λ cell. IsTrue (is_kept cell)) }
    {
        let holder = made(alloc, &entry.act, &entry.at, &self.script)?;
        Ok(seen(holder, &self.observer))
    }
}

impl Low {
    /// Whether task `k` can take a turn, where the content that it releases or exposes is told. It
    /// takes no memory.
    pub fn can_move(&self, k: u32) -> bool
        ensures { result ≡ can (low_of self.now).configuration k }
    {
        match self.config.task(k) {
            Some(task) => self.config.can_go_on(&self.script, task),
            None => false,
        }
    }

    /// Takes the turn of a task that meets no other node. A hidden content that it releases or
    /// exposes to a label below the observer's is the next one of those that were released.
    fn release(
        &mut self,
        alloc: Global,
        k: u32,
        act: Act,
        reply: Reply,
        releases: &mut Contents,
    ) -> Result<Entry, LowFault>
        requires plans { PlansAct self.old k act reply }
        requires pure { All IsContentPure releases.old }
        ensures ok { IfOk result (TakesTurn (low_of self.old)
            (low_of self.new) k releases.old releases.new) }
        ensures fault { IfErr result (Stays (low_of self.old) k releases.old) }
        ensures err { OnErr result ((low_of self.new ≡ low_of self.old)
            × (releases.new ≡ releases.old)) }
        ensures kept { All IsContentPure releases.new }
    {
        if !lacks_content(&act, &reply, &self.observer) {
            return Ok(self.own(alloc, k, act, reply)?);
        }
        match first_content(alloc, releases) {
            Ok(Some(content)) => {
                let entry = self.own(alloc, k, with_content(act, content), reply)?;
                drop(releases.take_front());
                Ok(entry)
            }
            Ok(None) => {
                drop(act);
                drop(reply);
                Err(LowFault::NoRelease(k))
            }
            Err(NoMemory) => {
                drop(act);
                drop(reply);
                Err(LowFault::NoMemory)
            }
        }
    }

    /// Takes the turn of a task that meets a node. An access waits until its node is ready.
    fn visit(&mut self, alloc: Global, k: u32, act: Act, n: u32) -> Result<Entry, LowFault>
        requires { PlansVisit self.old k act n }
        ensures ok { IfOk result (Moves (low_of self.old) (low_of self.new) k act) }
        ensures fault { IfErr result
            (λ fault. (contents : List Content) → Stays (low_of self.old) k contents fault) }
        ensures err { OnErr result (low_of self.new ≡ low_of self.old) }
    {
        let Some(task) = self.config.task(k) else {
            unreachable!()
        };
        let Some(handle) = task.handle(&self.script) else {
            return Ok(self.make(alloc, k, act, n)?);
        };
        if self.config.is_ready(&act, handle) {
            return Ok(self.meet(alloc, k, act, n)?);
        }
        if waits(&act) {
            drop(act);
            return Err(LowFault::Still(k));
        }
        Ok(self.miss(alloc, k, act, n)?)
    }

    /// Takes the turn of task `k` in the erased calculus; the entry's ticket is 0. A hidden content
    /// that the turn releases or exposes to a label below the observer's is the first of
    /// `releases`, which is taken out of them. They are to be pure: none keeps a list with a sealed
    /// value in it. After a refusal the configuration and the releases are as before.
    pub fn turn(
        &mut self,
        alloc: Global,
        k: u32,
        releases: &mut Contents,
    ) -> Result<Entry, LowFault>
        requires { All IsContentPure releases.old }
        ensures ok { IfOk result (TakesTurn (low_of self.old)
            (low_of self.new) k releases.old releases.new) }
        ensures fault { IfErr result (Stays (low_of self.old) k releases.old) }
        ensures err { OnErr result ((low_of self.new ≡ low_of self.old)
            × (releases.new ≡ releases.old)) }
        ensures kept { All IsContentPure releases.new }
    {
        let Some(task) = self.config.task(k) else {
            return Err(LowFault::Still(k));
        };
        match task.next(alloc, &self.script, self.longest)? {
            Next::Over => Err(LowFault::Still(k)),
            Next::Own(act, reply) => self.release(alloc, k, act, reply, releases),
            Next::Visit(act, n) => self.visit(alloc, k, act, n),
        }
    }
}

/// The first of the contents that are told, if there is one.
fn first_content(alloc: Global, contents: &Contents) -> Result<Option<Held<Content>>, NoMemory>
    ensures { IfOk result (λ first. first ≡ slice_get contents.now 0) }
{
    match contents.as_slice().first() {
        Some(content) => Ok(Some(Held::new(alloc, content.copy(alloc)?)?)),
        None => Ok(None),
    }
}
