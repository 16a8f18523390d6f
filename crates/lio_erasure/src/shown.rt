//! What a turn of a task shows to an observer.
ghost use Rattle.std.specs.Prelude.{◌≡◌, IfOk};

use lio_clauses::{NoMemory, beside};
use lio_labels::Label;
use lio_values::{Act, Entry, Reply};
use std::alloc::Global;

/// An entry without a ticket.
pub(crate) fn entry_of(
    alloc: Global,
    k: u32,
    target: Option<u32>,
    at: &Label,
    act: Act,
    reply: Reply,
) -> Result<Entry, NoMemory>
    ensures { IfOk result (λ entry. entry ≡ record {
      ticket = 0;
      actor = k;
      target = target;
      at = at.now;
      act = act;
      reply = reply;
    }) }
{
    let ((act, reply), at) = beside((act, reply), at.copy(alloc))?;
    Ok(Entry {
        ticket: 0,
        actor: k,
        target,
        at,
        act,
        reply,
    })
}
