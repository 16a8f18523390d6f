//! What went wrong in a run, by its last configuration, and by its journal where a task failed.

use crate::found::line_of;
use crate::trace::{Trace, fault_of, fault_source, traces_of};
use lio_cells::State;
use lio_clauses::NoMemory;
use lio_events::Journal;
use lio_policy::Policy;
use lio_start::Job;
use lio_task::{Config, Holder};
use lio_values::{Content, Entry};
use std::alloc::Global;

/// How many notes there are at most.
const MOST: usize = 10;

/// A task that ended by a fault. A turn is named by its place in the journal.
#[derive(Clone, Copy)]
pub(crate) struct Ending {
    /// The number of the task.
    pub task: u32,
    /// The turn in which it ended.
    pub end: usize,
    /// Its turn before that one, where it took one.
    pub before: Option<usize>,
    /// The turn that gave birth to it, where it is a child.
    pub born: Option<usize>,
    /// How many turns it took before it ended.
    pub turns: usize,
    /// The task whose fault it was told in its turn before, where it waited for one.
    pub source: Option<u32>,
    /// How many tasks more ended so at the same line.
    pub more: usize,
}

/// What went wrong.
#[derive(Clone, Copy)]
pub(crate) enum Trouble {
    /// A task ended by a fault that nobody caught.
    Ended(Ending),
    /// The task with this number stands still for ever.
    Waits(u32),
    /// The channel with this number received nothing.
    Silent(u32),
}

/// The end of a run.
#[derive(Clone, Copy)]
struct End<'r> {
    job: &'r Job,
    config: &'r Config,
    entries: &'r [Entry],
}

impl End<'_> {
    /// The line at which a task stood.
    fn line(self, task: u32) -> Option<usize> {
        Some(line_of(self.job, self.config.task(task)?))
    }

    /// Whether two tasks ended by the same kind of fault at the same line, and neither waited for
    /// another.
    fn is_alike(self, one: Ending, other: Ending) -> bool {
        let (Some(first), Some(second)) = (self.entries.get(one.end), self.entries.get(other.end))
        else {
            return false;
        };
        match (fault_of(first), fault_of(second)) {
            (Some(first), Some(second)) => {
                one.source.is_none()
                    && other.source.is_none()
                    && first.kind == second.kind
                    && self.line(one.task) == self.line(other.task)
            }
            _ => false,
        }
    }
}

/// What went wrong in a run: the first of it, and how much more there is.
#[derive(Drop)]
pub struct Troubles {
    pub(crate) first: Vec<Trouble>,
    pub(crate) more: usize,
}

impl Troubles {
    /// Whether all went well.
    pub fn is_empty(&self) -> bool {
        self.first.is_empty()
    }

    /// Adds a trouble.
    fn add(&mut self, trouble: Trouble) -> Result<(), NoMemory> {
        if self.first.len() < MOST {
            self.first.push(trouble)?;
        } else {
            self.more = self.more.saturating_add(1);
        }
        Ok(())
    }

    /// Adds a task that ended by a fault, to the first that ended so at the same line, if one did.
    fn add_ending(&mut self, end: &End<'_>, ending: Ending) -> Result<(), NoMemory> {
        for trouble in &mut self.first {
            if let Trouble::Ended(first) = trouble
                && end.is_alike(*first, ending)
            {
                first.more = first.more.saturating_add(1);
                return Ok(());
            }
        }
        self.add(Trouble::Ended(ending))
    }

    /// Adds the tasks that ended by a fault which nobody caught, in the order of their ends.
    fn add_endings(&mut self, traces: &[Trace], end: &End<'_>) -> Result<(), NoMemory> {
        let entries = end.entries;
        for (place, entry) in entries.iter().enumerate() {
            if fault_of(entry).is_some()
                && let Some(trace) = traces.get(entry.actor as usize)
                && trace.handlers == 0
            {
                self.add_ending(end, ending_of(trace, entries, place, entry.actor))?;
            }
        }
        Ok(())
    }

    /// Adds the tasks that haven't ended, by number.
    fn add_waiting(&mut self, config: &Config) -> Result<(), NoMemory> {
        for (number, holder) in config.holders.iter().enumerate() {
            if let Some(task) = &holder.task
                && !task.has_ended()
            {
                self.add(Trouble::Waits(number_of(number)))?;
            }
        }
        Ok(())
    }

    /// Adds the channels that received nothing, in the policy's order.
    fn add_silent(&mut self, policy: &Policy, config: &Config) -> Result<(), NoMemory> {
        let channels = policy.channels.as_slice().len();
        for (number, holder) in config.holders.iter().take(channels).enumerate() {
            if holder.node.log().is_empty() {
                self.add(Trouble::Silent(number_of(number)))?;
            }
        }
        Ok(())
    }
}

/// A task's end by a fault, in the turn at a place.
fn ending_of(trace: &Trace, entries: &[Entry], place: usize, task: u32) -> Ending {
    let before = match trace.before {
        Some(before) => entries.get(before),
        None => None,
    };
    Ending {
        task,
        end: place,
        before: trace.before,
        born: trace.born,
        turns: trace.turns.saturating_sub(1),
        source: match before {
            Some(entry) => fault_source(entry),
            None => None,
        },
        more: 0,
    }
}

/// The number of the node at a place.
fn number_of(place: usize) -> u32 {
    u32::try_from(place).unwrap_or(u32::MAX)
}

/// Whether what stands at a number is the job of a task that ended by a fault.
fn has_failed(holder: &Holder) -> bool {
    matches!(
        holder.node.state(),
        State::Job(_, Some(Content::Faulted(_)))
    )
}

/// Whether a task ended by a fault.
fn has_any_failed(config: &Config) -> bool {
    for holder in &config.holders {
        if has_failed(holder) {
            return true;
        }
    }
    false
}

/// What went wrong in the run of a job that has this journal and ended with this configuration.
/// Where no task ended by a fault the journal isn't looked at.
pub fn troubles_of(
    alloc: Global,
    job: &Job,
    journal: &Journal,
    config: &Config,
) -> Result<Troubles, NoMemory> {
    let policy = job.policy();
    let mut troubles = Troubles {
        first: Vec::new(alloc),
        more: 0,
    };
    if has_any_failed(config) {
        let entries = journal.entries();
        let traces = traces_of(alloc, policy, entries)?;
        let end = End {
            job,
            config,
            entries,
        };
        troubles.add_endings(traces.as_slice(), &end)?;
    }
    troubles.add_waiting(config)?;
    troubles.add_silent(policy, config)?;
    Ok(troubles)
}
