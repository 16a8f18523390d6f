//! Who waits at a node.
ghost use Rattle.std.specs.Prelude.{◌≡◌, [], IfOk, OnOk, OnErr};
ghost use Rattle.std.specs.List.{list_any};
ghost use Rattle.lio_cells.specs.Node.{is_waiter, is_wish, with_waiter};

use crate::wish::Wish;
use lio_clauses::NoMemory;
use std::alloc::Global;
use std::marker::Model;
use std::mem;

/// A task that waits at a node, and what it waits for.
#[derive(Clone, Copy, Debug, PartialEq, Eq)]
pub struct Waiter {
    /// The number of the task.
    pub task: u32,
    /// What it waits for.
    pub wish: Wish,
}

/// Whether two tasks wait for the same.
fn is_wish(one: Wish, other: Wish) -> bool
    ensures { result ≡ is_wish one other }
{
    match (one, other) {
        (Wish::Take, Wish::Take) => true,
        (Wish::Put, Wish::Put) => true,
        (Wish::Wait, Wish::Wait) => true,
        (_, _) => false,
    }
}

/// Whether two waiters are the same.
fn is_waiter(one: Waiter, other: Waiter) -> bool
    ensures { result ≡ is_waiter one other }
{
    one.task == other.task && is_wish(one.wish, other.wish)
}

/// Who waits at a node, each once.
#[derive(Drop)]
pub struct Waiters {
    items: Vec<Waiter>,
}

impl Model for Waiters {
    ghost use Rattle.std.specs.Prelude.{List};
    ghost use Rattle.lio_cells.specs.declared.waiter.Waiter.{Waiter};

    ghost Value = { List Waiter };

    ghost view = { λ w. w.items.items };
}

impl Waiters {
    /// Nobody.
    pub fn new(alloc: Global) -> Waiters
        ensures { result ≡ [] }
    {
        Waiters {
            items: Vec::new(alloc),
        }
    }

    /// The waiters in the order in which they came.
    pub fn as_slice(&self) -> &[Waiter]
        ensures { result.now ≡ self.now }
    {
        self.items.as_slice()
    }

    /// Whether this one waits.
    fn has(&self, waiter: Waiter) -> bool
        ensures { result ≡ list_any (is_waiter waiter) self.now }
    {
        self.items.iter().any(|other| is_waiter(waiter, *other))
    }

    /// Lets one more wait, unless it does already. After a refusal all is as before.
    pub(crate) fn add(&mut self, waiter: Waiter) -> Result<(), NoMemory>
        ensures ok { OnOk result (self.new ≡ with_waiter self.old waiter) }
        ensures err { OnErr result (self.new ≡ self.old) }
    {
        if !self.has(waiter) {
            self.items.push(waiter)?;
        }
        Ok(())
    }

    /// Lets nobody wait any more.
    pub(crate) fn clear(&mut self)
        ensures { self.new ≡ [] }
    {
        self.items.clear();
    }

    /// Equal waiters.
    pub(crate) fn copy(&self, alloc: Global) -> Result<Waiters, NoMemory>
        ensures { IfOk result (λ waiters. waiters ≡ self.now) }
    {
        let items = Vec::from_slice(alloc, &self.items)?;
        Ok(Waiters { items })
    }

    /// Takes out all who wait. It takes no memory.
    pub(crate) fn take(&mut self) -> Waiters
        ensures all { result ≡ self.old }
        ensures none { self.new ≡ [] }
    {
        let none = Waiters::new(*self.items.allocator());
        mem::replace(self, none)
    }
}
