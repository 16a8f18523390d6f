//! What a node has served.
ghost use Rattle.std.specs.Prelude.{◌≡◌, ◌<◌, [], ◌∷◌, ◌++◌, None, Some, IsSome, IsTrue, IfOk};
ghost use Rattle.std.specs.Prelude.{OnOk, OnErr, vec_len, vec_capacity};
ghost use Rattle.std.specs.Option.{option_copied};
ghost use Rattle.lio_values.specs.declared.entry.Entry.{Entry as entry_type};
ghost use Rattle.lio_cells.specs.Log.{first_of, with_ticket};

use crate::state::State;
use lio_clauses::{NoMemory, assign, beside};
use lio_values::{Act, Entry, Reply};
use std::alloc::Global;
use std::marker::Model;

/// Whether there is room for one more entry at the end of a list; it is made where there is none.
#[inline(always)]
fn has_room(entries: &mut Vec<Entry>) -> bool
    ensures items { entries.new.items ≡ entries.old.items }
    ensures room { IsTrue result → vec_len entries.new < vec_capacity entries.new }
{
    if entries.len() < entries.capacity() {
        return true;
    }
    entries.try_reserve(1).is_ok()
}

/// Puts a copy of an entry at the end of a list, where there is room for it.
#[inline(never)]
fn push_copy(entries: &mut Vec<Entry>, alloc: Global, entry: &Entry) -> Result<(), NoMemory>
    requires { vec_len entries.old < vec_capacity entries.old }
    ensures ok { OnOk result (entries.new.items ≡ entries.old.items ++ entry.now ∷ []) }
    ensures err { OnErr result (entries.new.items ≡ entries.old.items) }
{
    let copy = entry.copy(alloc)?;
    entries.push_reserved(copy);
    Ok(())
}

/// The same; the entry of a step takes no memory but for its label, and is made where it is to lie.
#[inline(always)]
fn push_equal(entries: &mut Vec<Entry>, alloc: Global, entry: &Entry) -> Result<(), NoMemory>
    requires { vec_len entries.old < vec_capacity entries.old }
    ensures ok { OnOk result (entries.new.items ≡ entries.old.items ++ entry.now ∷ []) }
    ensures err { OnErr result (entries.new.items ≡ entries.old.items) }
{
    match (&entry.act, &entry.reply) {
        (Act::Step, Reply::Done) => {
            let at = entry.at.copy(alloc)?;
            entries.push_reserved(Entry {
                ticket: entry.ticket,
                actor: entry.actor,
                target: entry.target,
                at,
                act: Act::Step,
                reply: Reply::Done,
            });
            Ok(())
        }
        _ => push_copy(entries, alloc, entry),
    }
}

/// Equal entries.
fn copy_entries(alloc: Global, entries: &[Entry]) -> Result<Vec<Entry>, NoMemory>
    ensures { IfOk result (λ copies. copies.items ≡ entries.now) }
{
    let mut copies = Vec::new(alloc);
    for entry in entries {
        copies.push(entry.copy(alloc)?)?;
    }
    Ok(copies)
}

/// An equal state, or none.
fn copy_first(alloc: Global, first: &Option<State>) -> Result<Option<State>, NoMemory>
    ensures { IfOk result (λ copy. copy ≡ first.now) }
{
    match first {
        Some(first) => Ok(Some(first.copy(alloc)?)),
        None => Ok(None),
    }
}

/// The entries that a node has served, the state that it began with, and the entry of a turn that
/// is prepared, which waits for its ticket. That state is kept from the first such entry on; until
/// then it is the one that the node has.
#[derive(Drop)]
pub struct Log {
    first: Option<State>,
    entries: Vec<Entry>,
    /// Whether the last entry is pending.
    has_pending: bool,
}

impl Model for Log {
    ghost use Rattle.lio_cells.specs.Log.{LogState, HasLast, pending_of, served_of};
    ghost use Rattle.lio_values.specs.ForestCode.{forest_code};
    ghost use Rattle.std.specs.Coded.{codes};

    ghost Value = { LogState };

    ghost coded = { Prim.hlevel (codes, forest_code) };

    ghost view = { λ l. record {
      first = l.first;
      served = served_of l.has_pending l.entries.items;
      pending = pending_of l.has_pending l.entries.items;
    } };

    ghost invariant = { λ l. HasLast l.has_pending l.entries.items };
}

impl Log {
    /// A log without entries.
    pub fn new(alloc: Global) -> Log
        ensures { result ≡ record { first = None; served = []; pending = None } }
    {
        Log {
            first: None,
            entries: Vec::new(alloc),
            has_pending: false,
        }
    }

    /// The entries that were served.
    pub fn served(&self) -> &[Entry]
        ensures { result.now ≡ self.now.served }
    {
        if self.has_pending {
            &self.entries[..self.entries.len() - 1]
        } else {
            self.entries.as_slice()
        }
    }

    /// The entry that is pending, if there is one.
    pub fn pending(&self) -> Option<&Entry>
        ensures { option_copied result ≡ self.now.pending }
    {
        if self.has_pending {
            self.entries.last()
        } else {
            None
        }
    }

    /// Forgets the entry that is pending.
    pub fn clear_pending(&mut self)
        ensures { self.new ≡ record self.old { pending = None } }
    {
        if self.has_pending {
            self.has_pending = false;
            drop(self.entries.pop());
        }
    }

    /// Keeps a copy of the state that the node began with, which isn't kept yet.
    #[inline(never)]
    fn set_first(&mut self, alloc: Global, state: &State) -> Result<(), NoMemory>
        requires { self.old.first ≡ None }
        ensures kept { OnOk result (IsSome self.new.first) }
        ensures same { first_of self.new.first state.now ≡ first_of self.old.first state.now }
        ensures served { self.new.served ≡ self.old.served }
        ensures pending { self.new.pending ≡ self.old.pending }
    {
        let first = state.copy(alloc)?;
        assign(&mut self.first, Some(first));
        Ok(())
    }

    /// Keeps the state that the node began with, where it isn't kept yet.
    #[inline(always)]
    fn keep_first(&mut self, alloc: Global, state: &State) -> Result<(), NoMemory>
        ensures kept { OnOk result (IsSome self.new.first) }
        ensures same { first_of self.new.first state.now ≡ first_of self.old.first state.now }
        ensures served { self.new.served ≡ self.old.served }
        ensures pending { self.new.pending ≡ self.old.pending }
    {
        if self.first.is_some() {
            return Ok(());
        }
        self.set_first(alloc, state)
    }

    /// Puts a copy of an entry last, which is pending then.
    #[inline(always)]
    fn put(&mut self, alloc: Global, entry: &Entry) -> Result<(), NoMemory>
        requires { self.old.pending ≡ None }
        ensures ok { OnOk result (self.new ≡ record self.old { pending = Some entry.now }) }
        ensures err { OnErr result (self.new ≡ self.old) }
    {
        if !has_room(&mut self.entries) {
            return Err(NoMemory);
        }
        push_equal(&mut self.entries, alloc, entry)?;
        self.has_pending = true;
        Ok(())
    }

    /// Keeps a copy of an entry pending, and the state that the node began with. After a refusal
    /// none is pending.
    #[inline(always)]
    pub fn keep(&mut self, alloc: Global, state: &State, entry: &Entry) -> Result<(), NoMemory>
        requires { self.old.pending ≡ None }
        ensures kept { OnOk result (IsSome self.new.first) }
        ensures same { first_of self.new.first state.now ≡ first_of self.old.first state.now }
        ensures served { self.new.served ≡ self.old.served }
        ensures ok { OnOk result (self.new.pending ≡ Some entry.now) }
        ensures err { OnErr result (self.new.pending ≡ None) }
    {
        self.keep_first(alloc, state)?;
        self.put(alloc, entry)
    }

    /// Serves the entry that is pending, with its ticket. It takes no memory.
    pub fn serve(&mut self, ticket: u64)
        requires { IsSome self.old.pending }
        ensures { (entry : entry_type) → self.old.pending ≡ Some entry → self.new ≡ record self.old {
          served = self.old.served ++ with_ticket entry ticket ∷ [];
          pending = None;
        } }
    {
        let last = self.entries.len() - 1;
        self.entries[last].ticket = ticket;
        self.has_pending = false;
    }

    /// Forgets the entries and the first state.
    pub fn clear(&mut self)
        ensures { self.new ≡ record { first = None; served = []; pending = None } }
    {
        self.entries.clear();
        self.has_pending = false;
        assign(&mut self.first, None);
    }

    /// An equal log, in which nothing is pending.
    pub fn copy(&self, alloc: Global) -> Result<Log, NoMemory>
        ensures { IfOk result (λ log. log ≡ record self.now { pending = None }) }
    {
        let entries = copy_entries(alloc, self.served())?;
        let (entries, first) = beside(entries, copy_first(alloc, &self.first))?;
        Ok(Log {
            first,
            entries,
            has_pending: false,
        })
    }
}
