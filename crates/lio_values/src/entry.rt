//! The record of a turn.
ghost use Rattle.std.specs.Prelude.{◌≡◌, IfOk};

use crate::act::{Act, Reply};
use crate::text::Text;
use lio_clauses::{Formula, NoMemory};
use lio_labels::Label;
use std::alloc::Global;
use std::mem::size_of;

/// One turn of one task, as a journal records it. Source: the small steps of the concurrent
/// calculus of LIO, ICFP 2012.
#[derive(PartialEq, Eq, Drop)]
pub struct Entry {
    /// How many turns came before it.
    pub ticket: u64,
    /// The number of the task.
    pub actor: u32,
    /// The number of the other node that the turn meets, if there is one.
    pub target: Option<u32>,
    /// The task's current label before the turn.
    pub at: Label,
    pub act: Act,
    pub reply: Reply,
}

// An entry is made in every turn and kept in the journal, so its size and that of what stands in it
// are held here.
const _: () = prove!(size_of::<Formula>() == 16);

const _: () = prove!(size_of::<Label>() == 32);

const _: () = prove!(size_of::<Text>() == 32);

const _: () = prove!(size_of::<Entry>() <= 128);

impl Entry {
    /// An equal entry.
    pub fn copy(&self, alloc: Global) -> Result<Entry, NoMemory>
        ensures { IfOk result (λ entry. entry ≡ self.now) }
    {
        let at = self.at.copy(alloc)?;
        let reply = self.reply.copy(alloc)?;
        let act = self.act.copy(alloc)?;
        Ok(Entry {
            ticket: self.ticket,
            actor: self.actor,
            target: self.target,
            at,
            act,
            reply,
        })
    }
}
