//! The summary of a run.

ghost use Rattle.std.specs.Prelude.{◌≡◌, ◌<◌, ◌+◌, ◌^◌, ◌++◌, cond, List as list, IfOk, OnOk};
ghost use Rattle.std.specs.List.{count_by};
ghost use Rattle.lio_syntax.specs.Statements.{Procedure};
ghost use Rattle.lio_task.specs.Configuration.{cell_of, configuration_of};
ghost use Rattle.lio_front.specs.Summary as spec;

use crate::sends::channels_lengths;
use lio_clauses::NoMemory;
use lio_events::Journal;
use lio_policy::Policy;
use lio_task::{Config, Holder};
use lio_values::print_number;
use std::alloc::Global;

/// Whether a holder has a task.
fn has_task(holder: &Holder) -> bool
    ensures { (script : list Procedure) → result ≡ spec.has_task (cell_of script holder.now) }
{
    holder.task.is_some()
}

/// Whether a holder has a task that has ended.
fn has_ended(holder: &Holder) -> bool
    ensures { (script : list Procedure) → result ≡ spec.has_ended (cell_of script holder.now) }
{
    match &holder.task {
        Some(task) => task.has_ended(),
        None => false,
    }
}

/// A count, and one more where a test holds.
fn with_one(count: usize, holds: bool) -> usize
    requires { count < 2 ^ 63 }
    ensures { result ≡ count + cond holds 1 0 }
{
    if holds { count + 1 } else { count }
}

/// How many tasks there are.
fn task_count(config: &Config) -> usize
    ensures { (script : list Procedure) → result
        ≡ count_by (λ holder. spec.has_task (cell_of script holder)) config.now.holders.items }
{
    let mut count = 0;
    for holder in &config.holders {
        count = with_one(count, has_task(holder));
    }
    count
}

/// How many tasks have ended.
fn ended_count(config: &Config) -> usize
    ensures { (script : list Procedure) → result
        ≡ count_by (λ holder. spec.has_ended (cell_of script holder)) config.now.holders.items }
{
    let mut count = 0;
    for holder in &config.holders {
        count = with_one(count, has_ended(holder));
    }
    count
}

/// Appends a line: a word and a number.
fn print_line(out: &mut Vec<u8>, word: &[u8], number: usize) -> Result<(), NoMemory>
    ensures { OnOk result (out.new.items ≡ out.old.items ++ spec.line_of word.now number) }
{
    out.extend_from_slice(word)?;
    out.push(b' ')?;
    print_number(out, number as u64)?;
    out.push(b'\n')?;
    Ok(())
}

/// Appends the line of each channel: its name, and how many bytes were sent to it.
fn print_channels(
    out: &mut Vec<u8>,
    alloc: Global,
    policy: &Policy,
    journal: &Journal,
) -> Result<(), NoMemory>
    ensures { OnOk result (out.new.items
        ≡ out.old.items ++ spec.channel_lines journal.now 0 policy.now.channels) }
{
    let channels = policy.channels.as_slice();
    let lengths = channels_lengths(alloc, journal, channels.len())?;
    for (number, channel) in channels.iter().enumerate() {
        out.extend_from_slice(b"channel ")?;
        print_line(out, channel.name.bytes(), lengths[number])?;
    }
    Ok(())
}

/// The summary of a run: how many tasks there are after it, how many of them have ended, how many
/// turns were taken, and how many bytes were sent to each channel.
pub fn summary(
    alloc: Global,
    policy: &Policy,
    config: &Config,
    journal: &Journal,
) -> Result<Vec<u8>, NoMemory>
    ensures { IfOk result (λ text. (script : list Procedure) → text.items
        ≡ spec.summary_text policy.now (configuration_of script config.now) journal.now) }
{
    let mut out = Vec::new(alloc);
    print_line(&mut out, b"tasks", task_count(config))?;
    print_line(&mut out, b"ended", ended_count(config))?;
    print_line(&mut out, b"turns", journal.entries().len())?;
    print_channels(&mut out, alloc, policy, journal)?;
    Ok(out)
}
