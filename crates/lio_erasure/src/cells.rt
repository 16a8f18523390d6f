//! The cells that an observer sees.
//!
//! Where `#[tactic(none)]` stands each goal has its answer, so no tactic is tried.
ghost use Rattle.std.specs.Prelude.{◌≡◌, ◌++◌, ◌∷◌, [], ℕ, List, Some, IsSome, IsTrue, OnOk, OnErr};
ghost use Rattle.std.specs.Prelude.{slice_set};
ghost use Rattle.std.specs.Option.{option_copied};
ghost use Rattle.lio_values.specs.declared.act.Act.{Act as Asked};
ghost use Rattle.lio_syntax.specs.Statements.{Procedure};
ghost use Rattle.lio_cells.specs.State.{Kind, is_absent, ready};
ghost use Rattle.lio_calculus.specs.Afforded.{kind_met};
ghost use Rattle.lio_calculus.specs.Plan.{Node as by_handle};
ghost use Rattle.lio_calculus.specs.Step.{cell_at, met};
ghost use Rattle.lio_task_turns.specs.StateOf.{program_of};
ghost use Rattle.lio_erasure.specs.Low.{LeavesOutBlanks, holder_in, is_kept, low_cell_of};
ghost use Rattle.lio_erasure.specs.Low.{low_configuration_of, low_task_in};
ghost use Rattle.lio_erasure.specs.Turn.{Advances, CanAdvance, CanGoOn, CanServe, HasGoneOn};
ghost use Rattle.lio_erasure.specs.Turn.{HasRoom, Places, Serves, Settles, node_of_holder, serving};

use crate::acts::{has_label, is_absent};
use crate::gone::advance;
use crate::hidden::is_seen;
use lio_clauses::{NoMemory, assign};
use lio_labels::Label;
use lio_syntax::Script;
use lio_task::{Holder, Task};
use lio_values::{Act, Entry, Handle};
use std::alloc::Global;
use std::marker::Model;

/// What an observer sees of a configuration, seen as the list of its cells by number: the node and,
/// where it is a job, its task; or none where the cell is left out.
#[derive(Drop)]
pub struct LowConfig {
    cells: Vec<Option<Holder>>,
}

impl Model for LowConfig {
    ghost use Rattle.std.specs.Prelude.{List, Option};
    ghost use Rattle.lio_task.specs.declared.config.Holder.{Holder};
    ghost use Rattle.lio_task.specs.contracts.config.Holder as holder;
    ghost use Rattle.std.specs.Coded.{coded_list, coded_option};

    ghost Value = { List (Option Holder) };

    ghost coded = { coded_list (coded_option holder.the_row.coded) };

    ghost view = { λ low. low.cells.items };
}

impl LowConfig {
    /// No cells.
    pub fn new(alloc: Global) -> LowConfig
        ensures { result ≡ [] }
    {
        LowConfig {
            cells: Vec::new(alloc),
        }
    }

    /// Puts a cell last. After a refusal the list is as before.
    pub fn push(&mut self, cell: Option<Holder>) -> Result<(), NoMemory>
        ensures ok { OnOk result (self.new ≡ self.old ++ cell ∷ []) }
        ensures err { OnErr result (self.new ≡ self.old) }
    {
        self.cells.push(cell)?;
        Ok(())
    }

    /// The cells in order.
    pub fn as_slice(&self) -> &[Option<Holder>]
        ensures { result.now ≡ self.now }
    {
        self.cells.as_slice()
    }

    /// The holder with a number, where its cell isn't left out.
    pub(crate) fn holder(&self, n: u32) -> Option<&Holder>
        ensures { option_copied result ≡ holder_in self.now n }
    {
        self.cells.get(n as usize)?.as_ref()
    }

    /// The task with a number.
    pub(crate) fn task(&self, k: u32) -> Option<&Task>
        ensures { option_copied result ≡ low_task_in self.now k }
    {
        self.holder(k)?.task.as_ref()
    }

    /// Whether nothing is under a number.
    #[tactic(none)]
    fn is_free(&self, n: u32) -> bool
        ensures { (script : List Procedure) (longest : ℕ)
            → result ≡ is_absent (cell_at (low_configuration_of script longest self.now) n).state }
    {
        match self.holder(n) {
            Some(holder) => is_absent(holder.node.state()),
            None => true,
        }
    }

    /// Whether the node that a handle names is there, and is ready for an act that meets nodes of
    /// its kind.
    #[tactic(none)]
    pub(crate) fn is_ready(&self, act: &Act, handle: &Handle) -> bool
        ensures { (script : List Procedure) (longest : ℕ) (kind : Kind)
            → kind_met act.now ≡ Some kind
            → result ≡ ready (met (by_handle kind handle.now) (cell_at (low_configuration_of script
            longest self.now) handle.now.number).state) act.now }
    {
        match self.holder(handle.number) {
            Some(holder) => has_label(holder.node.state(), &handle.label) && holder.node.ready(act),
            None => false,
        }
    }

    /// Puts a cell under a number, in the place of what was there.
    fn put(&mut self, n: u32, cell: Option<Holder>)
        ensures { self.new ≡ slice_set self.old n cell }
    {
        match self.cells.get_mut(n as usize) {
            Some(place) => assign(place, cell),
            None => drop(cell),
        }
    }

    /// Puts a cell under a number, if nothing is there.
    #[tactic(none)]
    pub(crate) fn place(&mut self, n: u32, cell: Option<Holder>)
        ensures places { (script : List Procedure) (longest : ℕ)
            → Places script longest self.old self.new n (low_cell_of script cell) }
        ensures kept { IsTrue (is_kept cell) → LeavesOutBlanks self.old → LeavesOutBlanks self.new }
    {
        if self.is_free(n) {
            self.put(n, cell);
        } else {
            drop(cell);
        }
    }

    /// Takes the memory that an act needs in the node with a number.
    pub(crate) fn reserve(&mut self, alloc: Global, n: u32, act: &Act) -> Result<(), NoMemory>
        ensures same { (script : List Procedure) (longest : ℕ) → low_configuration_of script
            longest self.new ≡ low_configuration_of script longest self.old }
        ensures room { OnOk result (HasRoom (holder_in self.new n) act.now) }
        ensures there { IsSome (holder_in self.old n) → IsSome (holder_in self.new n) }
        ensures kept { LeavesOutBlanks self.old → LeavesOutBlanks self.new }
    {
        let Some(place) = self.cells.get_mut(n as usize) else {
            return Ok(());
        };
        reserve_in(alloc, place, act)
    }

    /// Lets the node with a number serve an act, for which it has room. It takes no memory.
    pub(crate) fn serve(&mut self, n: u32, act: &Act)
        requires { CanServe (holder_in self.old n) act.now }
        ensures serves { (script : List Procedure) (longest : ℕ)
            → Serves script longest self.old self.new n act.now }
        ensures kept { LeavesOutBlanks self.old → LeavesOutBlanks self.new }
    {
        let Some(place) = self.cells.get_mut(n as usize) else {
            unreachable!()
        };
        serve_in(place, act);
    }

    /// Lets the actor of an entry go on after its turn, as the observer sees it. After a refusal
    /// all is as before.
    pub(crate) fn advance(
        &mut self,
        alloc: Global,
        script: &Script,
        longest: u32,
        observer: &Label,
        entry: &Entry,
    ) -> Result<(), NoMemory>
        requires { CanAdvance observer.now (low_configuration_of script.now longest self.old)
            entry.now.actor entry.now.act entry.now.reply }
        ensures ok { OnOk result (Advances observer.now
            (low_configuration_of script.now longest self.old) (low_configuration_of script.now
            longest self.new) entry.now.actor entry.now.act entry.now.reply) }
        ensures err { OnErr result (low_configuration_of script.now longest self.new
            ≡ low_configuration_of script.now longest self.old) }
        ensures serves { (n : ℕ) (asked : Asked)
            → CanServe (holder_in self.old n) asked → CanServe (holder_in self.new n) asked }
        ensures kept { LeavesOutBlanks self.old → LeavesOutBlanks self.new }
    {
        let Some(place) = self.cells.get_mut(entry.actor as usize) else {
            unreachable!()
        };
        advance_in(alloc, place, script, longest, observer, entry)
    }

    /// Leaves out the cell with a number where the observer doesn't see it. It takes no memory.
    #[tactic(none)]
    pub(crate) fn settle(&mut self, k: u32, observer: &Label)
        ensures settles { (script : List Procedure) (longest : ℕ)
            → Settles observer.now script longest self.old self.new k }
        ensures kept { LeavesOutBlanks self.old → LeavesOutBlanks self.new }
    {
        let Some(holder) = self.holder(k) else {
            return;
        };
        if !is_seen(holder, observer) {
            self.put(k, None);
        }
    }
}

/// Takes the memory that an act needs in a node, if it is there.
fn reserve_in(alloc: Global, place: &mut Option<Holder>, act: &Act) -> Result<(), NoMemory>
    ensures same { (script : List Procedure)
        → low_cell_of script place.new ≡ low_cell_of script place.old }
    ensures room { OnOk result (HasRoom place.new act.now) }
    ensures there { IsSome place.old → IsSome place.new }
    ensures kept { IsTrue (is_kept place.old) → IsTrue (is_kept place.new) }
{
    match place {
        Some(holder) => holder.node.reserve_state(alloc, act),
        None => Ok(()),
    }
}

/// Lets a node serve an act, for which it has room. It takes no memory.
fn serve_in(place: &mut Option<Holder>, act: &Act)
    requires { CanServe place.old act.now }
    ensures serves { (script : List Procedure)
        → low_cell_of script place.new ≡ serving act.now (low_cell_of script place.old) }
    ensures kept { IsTrue (is_kept place.old) → IsTrue (is_kept place.new) }
{
    match place {
        Some(holder) => holder.node.renew(act),
        None => unreachable!(),
    }
}

/// Lets the task of a cell go on after the turn with this entry, as the observer sees it. After a
/// refusal it is as before.
fn advance_in(
    alloc: Global,
    place: &mut Option<Holder>,
    script: &Script,
    longest: u32,
    observer: &Label,
    entry: &Entry,
) -> Result<(), NoMemory>
    requires { CanGoOn observer.now (program_of script.now longest)
        (low_cell_of script.now place.old) entry.now.act entry.now.reply }
    ensures ok { OnOk result (HasGoneOn observer.now
        (program_of script.now longest) (low_cell_of script.now place.old)
        (low_cell_of script.now place.new) entry.now.act entry.now.reply) }
    ensures err { OnErr result
        (low_cell_of script.now place.new ≡ low_cell_of script.now place.old) }
    ensures node { node_of_holder place.new ≡ node_of_holder place.old }
    ensures kept { IsTrue (is_kept place.new) }
{
    match place {
        Some(holder) => advance(alloc, holder, script, longest, observer, entry),
        None => unreachable!(),
    }
}
