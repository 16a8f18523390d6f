//! The merge of logs.
ghost use Rattle.std.specs.Prelude.{◌≡◌, ◌++◌, All, IfOk, OnOk};
ghost use Rattle.lio_cells.specs.Node.{IsKept};
ghost use Rattle.lio_calculus.specs.Journals.{AreMergeable, IsMerged};
ghost use Rattle.lio_task.specs.Logs.{log_in};
ghost use Rattle.lio_rounds.specs.Acted.{acted_from, acted_in, lent};

use lio_clauses::NoMemory;
use lio_events::Journal;
use lio_task::Config;
use lio_values::Entry;
use std::alloc::Global;

/// Puts those entries of the log of node `n` last whose actor it is.
fn add_acted<'a>(log: &'a [Entry], n: usize, entries: &mut Vec<&'a Entry>) -> Result<(), NoMemory>
    ensures { OnOk result (lent entries.new.items ≡ lent entries.old.items ++ acted_in n log.now) }
{
    for entry in log {
        if entry.actor as usize == n {
            entries.push(entry)?;
        }
    }
    Ok(())
}

/// The entries of all logs, each out of its actor's.
fn acted<'a>(alloc: Global, config: &'a Config) -> Result<Vec<&'a Entry>, NoMemory>
    ensures entries { IfOk result (λ entries. lent entries.items
        ≡ acted_from 0 config.now.holders.items) }
    ensures kept { OnOk result (All (λ holder. IsKept holder.node) config.now.holders.items) }
{
    let mut entries = Vec::new(alloc);
    for (n, holder) in config.holders.iter().enumerate() {
        add_acted(holder.node.log(), n, &mut entries)?;
    }
    Ok(entries)
}

/// Copies of these entries.
fn copies(alloc: Global, entries: &[&Entry]) -> Result<Vec<Entry>, NoMemory>
    ensures { IfOk result (λ copies. copies.items ≡ lent entries.now) }
{
    let mut copies = Vec::with_capacity(alloc, entries.len())?;
    for entry in entries {
        copies.push(entry.copy(alloc)?)?;
    }
    Ok(copies)
}

/// The merged entries of the logs of a configuration's nodes: copies of all, each once, in the
/// order of their tickets.
fn merged(alloc: Global, config: &Config) -> Result<Vec<Entry>, NoMemory>
    requires { AreMergeable (log_in config.now) }
    ensures { IfOk result (λ entries. IsMerged (log_in config.now) entries.items) }
{
    let mut entries = acted(alloc, config)?;
    entries.sort_by_cached_key(|entry| entry.ticket)?;
    copies(alloc, &entries)
}

/// The merge of the logs of a configuration's nodes: copies of all entries, each once, in the order
/// of their tickets. Each entry stands in its actor's log, in its target's, if it has one, and in
/// no other, and entries with the same ticket are one.
pub fn merge(alloc: Global, config: &Config) -> Result<Journal, NoMemory>
    requires { AreMergeable (log_in config.now) }
    ensures { IfOk result (IsMerged (log_in config.now)) }
{
    let entries = merged(alloc, config)?;
    Ok(Journal::of(entries))
}
