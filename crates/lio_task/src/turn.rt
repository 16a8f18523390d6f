//! The turn of a task in two halves, over the holders that it is lent: the actor's, and that of the
//! node that its act meets.
//!
//! The first half does all that may fail: a child's task, the reply, the entry with a copy of the
//! task's label, what the nodes that serve it need, and last how the actor goes on. A refusal
//! leaves what the holders stand for as it was. The second half takes no memory: the nodes serve
//! the turn, which has its ticket by then.
ghost use Rattle.std.specs.Prelude.{◌≡◌, IfOk, None};
ghost use Rattle.lio_task.specs.Turns.{ends, looks};
ghost use Rattle.lio_labels.specs.Extremes.{public};

use crate::config::Holder;
use crate::go::Way;
use crate::task::Task;
use lio_cells::Waiters;
use lio_clauses::{NoMemory, assign};
use lio_labels::Label;
use lio_syntax::Script;
use lio_task_plan::Short;
use lio_task_turns::Onward;
use lio_values::{Act, Entry, Reply};
use std::alloc::Global;

/// An entry that shows nothing yet: a step of task 0 at the public label, with ticket 0.
pub fn blank_entry(alloc: Global) -> Result<Entry, NoMemory>
    ensures { IfOk result (λ entry. entry ≡ record {
      ticket = 0;
      actor = 0;
      target = None;
      at = public;
      act = Act.Step;
      reply = Reply.Done;
    }) }
{
    let at = Label::public(alloc)?;
    Ok(Entry {
        ticket: 0,
        actor: 0,
        target: None,
        at,
        act: Act::Step,
        reply: Reply::Done,
    })
}

/// Fills an entry with a step that concerns its task alone, but for its ticket and its label.
#[inline(always)]
fn fill_step(entry: &mut Entry, k: u32)
    ensures { entry.new ≡ record {
      ticket = entry.old.ticket;
      actor = k;
      target = None;
      at = entry.old.at;
      act = Act.Step;
      reply = Reply.Done;
    } }
{
    entry.actor = k;
    entry.target = None;
    if !matches!(entry.act, Act::Step) {
        assign(&mut entry.act, Act::Step);
    }
    if !matches!(entry.reply, Reply::Done) {
        assign(&mut entry.reply, Reply::Done);
    }
}

/// Whether an act is the end of its task.
#[inline(always)]
fn ends(act: &Act) -> bool
    ensures { result ≡ ends act.now }
{
    matches!(act, Act::Ended(_))
}

/// Fills an entry, but for its ticket and its label.
#[inline(always)]
fn fill(entry: &mut Entry, k: u32, target: Option<u32>, act: Act, reply: Reply)
    ensures { entry.new ≡ record {
      ticket = entry.old.ticket;
      actor = k;
      target = target;
      at = entry.old.at;
      act = act;
      reply = reply;
    } }
{
    entry.actor = k;
    entry.target = target;
    assign(&mut entry.act, act);
    assign(&mut entry.reply, reply);
}

/// Whether an act only looks at the node that it meets.
#[inline(always)]
fn looks(act: &Act) -> bool
    ensures { result ≡ looks act.now }
{
    matches!(act, Act::Read | Act::Wait)
}

impl Holder {
    ghost use Rattle.std.specs.Prelude.{◌≡◌, List, IsTrue, IfOk, OnOk, OnErr, Some, None};
    ghost use Rattle.std.specs.Prelude.{if◌then◌else◌};
    ghost use Rattle.lio_values.specs.declared.act.Act.TheVariants.{Step as stepping};
    ghost use Rattle.lio_values.specs.declared.act.Reply.TheVariants.{Done as done};
    ghost use Rattle.lio_syntax.specs.Statements.{Procedure};
    ghost use Rattle.lio_cells.specs.Node.{IsReadyFor};
    ghost use Rattle.lio_cells.specs.State.{ready as is_ready, answer};
    ghost use Rattle.lio_task.specs.Configuration.{cell_of};
    ghost use Rattle.lio_task.specs.declared.go.Way.TheVariants as way;
    ghost use Rattle.lio_task.specs.Turns.{AreAsBefore, Bears, CanMeet, CanRecord, CanRecordMet};
    ghost use Rattle.lio_task.specs.Turns.{CanRecordStep, CanTurn, Gone, HasPrepared, HasTask};
    ghost use Rattle.lio_task.specs.Turns.{IsAsBefore, IsChild, IsFilled, IsLabelOf, PreparesAlone};
    ghost use Rattle.lio_task.specs.Turns.{PreparesMeeting, Recorded, RecordedMet, woken};

    /// A copy of its task's label.
    #[inline(always)]
    fn label(&self, alloc: Global) -> Result<Label, NoMemory>
        requires { HasTask self.now }
        ensures { IfOk result (IsLabelOf self.now) }
    {
        let Some(task) = &self.task else {
            unreachable!()
        };
        task.label().copy(alloc)
    }

    /// Copies its task's label into an entry.
    #[inline(always)]
    fn tell_label(&self, alloc: Global, entry: &mut Entry) -> Result<(), NoMemory>
        requires { HasTask self.now }
        ensures { OnOk result (IsLabelOf self.now entry.new.at) }
    {
        let at = self.label(alloc)?;
        assign(&mut entry.at, at);
        Ok(())
    }

    /// Keeps ready what a turn with this entry needs in its node. It stands for the same cell.
    #[inline(always)]
    fn reserve(&mut self, alloc: Global, entry: &Entry) -> Result<(), NoMemory>
        ensures same { (script : List Procedure) → IsAsBefore script self.old self.new }
        ensures task { self.new.task ≡ self.old.task }
        ensures ready { OnOk result (IsReadyFor self.new.node entry.now) }
    {
        self.node.reserve(alloc, entry)
    }

    /// Lets its task go on after a turn. After a refusal of memory all is as before.
    #[inline(always)]
    fn go(
        &mut self,
        alloc: Global,
        script: &Script,
        way: Way,
        act: &Act,
        reply: &Reply,
    ) -> Result<(), NoMemory>
        requires { CanTurn script.now self.old way }
        ensures ok { OnOk result (Gone script.now self.old self.new way.entry act.now reply.now) }
        ensures err { OnErr result (cell_of script.now self.new ≡ cell_of script.now self.old) }
        ensures node { self.new.node ≡ self.old.node }
    {
        let Some(task) = &mut self.task else {
            unreachable!()
        };
        task.go(alloc, script, way, act, reply)
    }

    /// Keeps ready what a turn with this entry needs in its node, and lets its task go on. After a
    /// refusal of memory it stands for the same cell, and its node has the same log and waiters.
    #[inline(always)]
    fn prepare(
        &mut self,
        alloc: Global,
        script: &Script,
        way: Way,
        entry: &Entry,
    ) -> Result<(), NoMemory>
        requires { CanTurn script.now self.old way }
        ensures ok { OnOk result (HasPrepared script.now self.old self.new way.entry entry.now) }
        ensures err { OnErr result (IsAsBefore script.now self.old self.new) }
    {
        match self.reserve(alloc, entry) {
            Ok(()) => self.go(alloc, script, way, &entry.act, &entry.reply),
            Err(error) => {
                drop(way);
                Err(error)
            }
        }
    }

    /// Does all that may fail of a turn of its task, which has number `k`, where the turn meets no
    /// other node, and fills the entry, but for its ticket. The task has gone on, and the node is
    /// ready for the entry. After a refusal of memory it stands for the same cell, and its node has
    /// the same log and waiters.
    pub fn prepare_alone(
        &mut self,
        alloc: Global,
        script: &Script,
        k: u32,
        act: Act,
        reply: Reply,
        way: Way,
        entry: &mut Entry,
    ) -> Result<(), NoMemory>
        requires { CanTurn script.now self.old way }
        ensures ok { OnOk result
            (PreparesAlone script.now self.old self.new k act reply way.entry entry.new) }
        ensures err { OnErr result (IsAsBefore script.now self.old self.new) }
    {
        match self.tell_label(alloc, entry) {
            Ok(()) => {
                fill(entry, k, None, act, reply);
                self.prepare(alloc, script, way, entry)
            }
            Err(error) => {
                drop(act);
                drop(reply);
                drop(way);
                Err(error)
            }
        }
    }

    /// The same of a turn that is a step and concerns the task alone.
    #[inline(always)]
    pub fn prepare_step(
        &mut self,
        alloc: Global,
        script: &Script,
        k: u32,
        way: Way,
        entry: &mut Entry,
    ) -> Result<(), NoMemory>
        requires { CanTurn script.now self.old way }
        ensures ok { OnOk result
            (PreparesAlone script.now self.old self.new k stepping done way.entry entry.new) }
        ensures step { OnOk result (entry.new.act ≡ stepping) }
        ensures err { OnErr result (IsAsBefore script.now self.old self.new) }
    {
        match self.tell_label(alloc, entry) {
            Ok(()) => {
                fill_step(entry, k);
                self.prepare(alloc, script, way, entry)
            }
            Err(error) => {
                drop(way);
                Err(error)
            }
        }
    }

    /// Lets its task go on by a short step, whose entry this is. After a refusal of memory all is
    /// as before.
    #[inline(always)]
    fn go_short(
        &mut self,
        alloc: Global,
        script: &Script,
        short: Short,
        entry: &Entry,
    ) -> Result<(), NoMemory>
        requires { CanTurn script.now self.old (way.Short short) }
        ensures ok { OnOk result (Gone script.now self.old self.new (way.Short short.entry)
            entry.now.act entry.now.reply) }
        ensures err { OnErr result (cell_of script.now self.new ≡ cell_of script.now self.old) }
        ensures node { self.new.node ≡ self.old.node }
    {
        let Some(task) = &mut self.task else {
            unreachable!()
        };
        task.go_short(alloc, script, short)
    }

    /// The same as `prepare`, of a short step.
    #[inline(always)]
    fn prepare_going(
        &mut self,
        alloc: Global,
        script: &Script,
        short: Short,
        entry: &Entry,
    ) -> Result<(), NoMemory>
        requires { CanTurn script.now self.old (way.Short short) }
        ensures ok { OnOk result
            (HasPrepared script.now self.old self.new (way.Short short.entry) entry.now) }
        ensures err { OnErr result (IsAsBefore script.now self.old self.new) }
    {
        match self.reserve(alloc, entry) {
            Ok(()) => self.go_short(alloc, script, short, entry),
            Err(error) => Err(error),
        }
    }

    /// The same as `prepare_step`, of a short step: no way to go on is moved or let go.
    #[inline(always)]
    pub fn prepare_short(
        &mut self,
        alloc: Global,
        script: &Script,
        k: u32,
        short: Short,
        entry: &mut Entry,
    ) -> Result<(), NoMemory>
        requires { CanTurn script.now self.old (way.Short short) }
        ensures ok { OnOk result (PreparesAlone script.now self.old self.new k stepping done
            (way.Short short.entry) entry.new) }
        ensures step { OnOk result (entry.new.act ≡ stepping) }
        ensures err { OnErr result (IsAsBefore script.now self.old self.new) }
    {
        match self.tell_label(alloc, entry) {
            Ok(()) => {
                fill_step(entry, k);
                self.prepare_going(alloc, script, short, entry)
            }
            Err(error) => Err(error),
        }
    }

    /// The child that an act of its task gives birth to, if it does.
    fn born(&self, alloc: Global, script: &Script, act: &Act) -> Result<Option<Task>, NoMemory>
        requires { Bears script.now self.now act.now }
        ensures { IfOk result (IsChild script.now self.now act.now) }
    {
        let Some(task) = &self.task else {
            unreachable!()
        };
        task.bear(alloc, act, script)
    }

    /// Fills the entry of a turn that meets the node of another holder, but for its ticket, and
    /// keeps ready what the turn needs in that node, which stands for the same cell.
    fn meet(
        &self,
        alloc: Global,
        k: u32,
        met: &mut Holder,
        n: u32,
        act: Act,
        entry: &mut Entry,
    ) -> Result<(), NoMemory>
        requires task { HasTask self.now }
        requires ready { IsTrue (is_ready met.old.node.state act) }
        ensures filled { OnOk result (IsFilled self.now k (Some n) act
            (answer met.old.node.state act) entry.new) }
        ensures same { (script : List Procedure) → IsAsBefore script met.old met.new }
        ensures ready { OnOk result (IsReadyFor met.new.node entry.new) }
    {
        let reply = match met.node.answer(alloc, &act) {
            Ok(reply) => reply,
            Err(error) => {
                drop(act);
                return Err(error);
            }
        };
        match self.tell_label(alloc, entry) {
            Ok(()) => {
                fill(entry, k, Some(n), act, reply);
                met.reserve(alloc, entry)
            }
            Err(error) => {
                drop(act);
                drop(reply);
                Err(error)
            }
        }
    }

    /// Does all that may fail of a turn of its task, which has number `k`, where the turn meets the
    /// node of another holder, which has number `n` and is ready; fills the entry, but for its
    /// ticket, and gives the child that the act gives birth to, if it does. The task has gone on,
    /// and both nodes are ready for the entry. After a refusal of memory both stand for the same
    /// cells, and their nodes have the same logs and waiters.
    pub fn prepare_meeting(
        &mut self,
        alloc: Global,
        script: &Script,
        k: u32,
        met: &mut Holder,
        n: u32,
        act: Act,
        onward: Onward,
        entry: &mut Entry,
    ) -> Result<Option<Task>, NoMemory>
        requires meets { CanMeet script.now self.old act onward }
        requires ready { IsTrue (is_ready met.old.node.state act) }
        ensures ok { IfOk result (PreparesMeeting script.now self.old self.new met.old met.new k n
            act onward.entry entry.new) }
        ensures err { OnErr result (AreAsBefore script.now self.old self.new met.old met.new) }
    {
        let child = match self.born(alloc, script, &act) {
            Ok(child) => child,
            Err(error) => {
                drop(act);
                drop(onward);
                return Err(error);
            }
        };
        if let Err(error) = self.meet(alloc, k, met, n, act, entry) {
            drop(onward);
            drop(child);
            return Err(error);
        }
        match self.prepare(alloc, script, Way::On(onward), entry) {
            Ok(()) => Ok(child),
            Err(error) => {
                drop(child);
                Err(error)
            }
        }
    }

    /// Takes out who waits at its node, where the node is about to change.
    #[inline(always)]
    fn wake(&mut self, changes: bool) -> Option<Waiters>
        ensures woken { result ≡ (if changes then Some self.old.node.waiters else None) }
        ensures node { self.new.node ≡ woken changes self.old.node }
        ensures task { self.new.task ≡ self.old.task }
    {
        if changes {
            Some(self.node.take_waiters())
        } else {
            None
        }
    }

    /// Whether the turn for which its node is ready is the end of its task.
    #[inline(always)]
    fn is_ending(&self) -> bool
        ensures { (entry : Entry) → IsReadyFor self.now.node entry → result ≡ ends entry.act }
    {
        match self.node.pending() {
            Some(entry) => ends(&entry.act),
            None => false,
        }
    }

    /// Whether the turn for which its node is ready only looks at the node.
    #[inline(always)]
    fn is_looked_at(&self) -> bool
        ensures { (entry : Entry) → IsReadyFor self.now.node entry → result ≡ looks entry.act }
    {
        match self.node.pending() {
            Some(entry) => looks(&entry.act),
            None => false,
        }
    }

    /// Records the turn of its task for which its node is ready, with its ticket: the node serves
    /// it. Who waits at the node is taken out where the turn is the task's end, which changes the
    /// node. It takes no memory.
    #[inline(always)]
    pub fn record(&mut self, ticket: u64) -> Option<Waiters>
        requires { CanRecord self.old.node ticket }
        ensures { (entry : Entry) → IsReadyFor self.old.node entry
            → Recorded self.old self.new entry ticket result }
    {
        let woken = self.wake(self.is_ending());
        self.node.serve(ticket);
        woken
    }

    /// Records the step of its task for which its node is ready, with its ticket: the node serves
    /// it. Nobody is woken, since a step changes no node. It takes no memory.
    #[inline(always)]
    pub fn record_step(&mut self, ticket: u64)
        requires { CanRecordStep self.old.node ticket }
        ensures { (entry : Entry) → IsReadyFor self.old.node entry
            → Recorded self.old self.new entry ticket None }
    {
        self.node.serve(ticket);
    }

    /// Records the turn for which its node is ready, and which meets it, with its ticket: the node
    /// serves it, and where the holder has no task it has the child, if there is one. Who waits at
    /// the node is taken out unless the act only looks at it. It takes no memory.
    pub fn record_met(&mut self, ticket: u64, child: Option<Task>) -> Option<Waiters>
        requires { CanRecordMet self.old.node ticket }
        ensures { (entry : Entry) → IsReadyFor self.old.node entry
            → RecordedMet self.old self.new entry ticket child result }
    {
        let woken = self.wake(!self.is_looked_at());
        self.node.serve(ticket);
        if self.task.is_none() {
            self.task = child;
        }
        woken
    }
}
