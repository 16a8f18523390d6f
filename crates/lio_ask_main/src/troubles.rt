//! How many tasks of a run failed, and how many wait for ever.

ghost use Rattle.std.specs.Prelude.{◌≡◌, ◌<◌, ◌+◌, ◌^◌, cond, List as list};
ghost use Rattle.std.specs.List.{count_by};
ghost use Rattle.lio_syntax.specs.Statements.{Procedure};
ghost use Rattle.lio_task.specs.Configuration.{cell_of};
ghost use Rattle.lio_ask_main.specs.Troubles as spec;

use lio_cells::State;
use lio_task::{Config, Holder};
use lio_values::Content;

/// Whether a content is a fault.
fn is_faulted(content: &Content) -> bool
    ensures { result ≡ spec.is_faulted content.now }
{
    match content {
        Content::Faulted(_) => true,
        Content::Kept(_) | Content::Hidden => false,
    }
}

/// Whether a result is a fault.
fn is_fault(content: &Option<Content>) -> bool
    ensures { result ≡ spec.is_fault content.now }
{
    match content {
        Some(content) => is_faulted(content),
        None => false,
    }
}

/// Whether a node is the job of a task that ended by a fault.
fn has_fault(state: &State) -> bool
    ensures { result ≡ spec.has_fault state.now }
{
    match state {
        State::Job(_, content) => is_fault(content),
        State::Absent | State::Ref(_, _) | State::Var(_, _) | State::Chan(_, _) => false,
    }
}

/// Whether a holder has a task that failed.
fn has_failed(holder: &Holder) -> bool
    ensures { (script : list Procedure) → result ≡ spec.has_failed (cell_of script holder.now) }
{
    has_fault(holder.node.state())
}

/// Whether a holder has a task that hasn't ended.
fn is_waiting(holder: &Holder) -> bool
    ensures { (script : list Procedure) → result ≡ spec.is_waiting (cell_of script holder.now) }
{
    match &holder.task {
        Some(task) => !task.has_ended(),
        None => false,
    }
}

/// A count, and one more where a test holds.
fn with_one(count: usize, holds: bool) -> usize
    requires { count < 2 ^ 63 }
    ensures { result ≡ count + cond holds 1 0 }
{
    if holds { count + 1 } else { count }
}

/// How many tasks failed.
pub(crate) fn failed_count(config: &Config) -> usize
    ensures { (script : list Procedure) → result
        ≡ count_by (λ holder. spec.has_failed (cell_of script holder)) config.now.holders.items }
{
    let mut count = 0;
    for holder in &config.holders {
        count = with_one(count, has_failed(holder));
    }
    count
}

/// How many tasks haven't ended: after a complete run they wait for ever.
pub(crate) fn waiting_count(config: &Config) -> usize
    ensures { (script : list Procedure) → result
        ≡ count_by (λ holder. spec.is_waiting (cell_of script holder)) config.now.holders.items }
{
    let mut count = 0;
    for holder in &config.holders {
        count = with_one(count, is_waiting(holder));
    }
    count
}

/// Whether counts tell of a trouble.
pub(crate) fn are_some(failed: usize, waiting: usize) -> bool
    ensures { result ≡ spec.are_some failed waiting }
{
    !(failed == 0 && waiting == 0)
}
