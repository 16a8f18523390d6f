//! What a seat at a table knows. No value of these types is made: contracts alone speak of them.
use lio_cells::Waiters;
use lio_syntax::Script;
use lio_task::Holder;
use lio_values::Entry;
use std::collections::LinkedList;

/// What a table began with.
pub struct Beginning {
    /// The nodes by number.
    pub holders: LinkedList<Holder>,
    /// The length of the longest text, in bytes.
    pub longest: u32,
    /// What the tasks run.
    pub script: Script,
}

/// A node that a seat holds.
pub struct Claimed {
    /// Its number.
    pub number: u32,
    /// Its log.
    pub log: LinkedList<Entry>,
    /// Who waited at it when it was claimed.
    pub found: Waiters,
}

/// A node that a seat has given back.
pub struct Given {
    /// Its number.
    pub number: u32,
    /// Its log then.
    pub log: LinkedList<Entry>,
    /// Who waited at it then.
    pub waiters: Waiters,
    /// Who waited at it when it was claimed.
    pub found: Waiters,
}

/// What a seat knows.
pub struct View {
    /// What the table began with.
    pub first: Beginning,
    /// The nodes that it holds, the last claimed first.
    pub claimed: LinkedList<Claimed>,
    /// The entries of the turns for which it has drawn tickets, the last first.
    pub drawn: LinkedList<Entry>,
    /// How many tickets it has left.
    pub left: u64,
    /// The last two nodes that it gave back, the last first.
    pub given: LinkedList<Given>,
    /// How many nodes it has taken.
    pub taken: u64,
    /// How often it found a node taken.
    pub busy: u64,
    /// The number of the last node that it found taken.
    pub noted: u32,
    /// How often it was split off, split or joined.
    pub cuts: u64,
}
