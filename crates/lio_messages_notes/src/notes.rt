//! The notes on a run.

use crate::found::Found;
use crate::printer::Printer;
use crate::reason::kind_word;
use crate::source::{Source, SourceLine};
use crate::trace::fault_of;
use crate::troubles::{Ending, Trouble, Troubles};
use lio_clauses::NoMemory;
use lio_events::Journal;
use lio_messages_hints::Piece;
use lio_policy::{FileEntry, Policy, TaskEntry};
use lio_start::Job;
use lio_task::Config;
use lio_values::{Act, Entry, FaultKind};
use std::alloc::Global;

/// What notes speak of: a run of a job, and the file of its script.
#[derive(Clone, Copy)]
struct About<'r> {
    policy: &'r Policy,
    entries: &'r [Entry],
    source: Source<'r>,
}

/// The task of the policy with a number, if it is one of the policy's.
fn policy_task(policy: &Policy, number: u32) -> Option<&TaskEntry> {
    let channels = policy.channels.as_slice().len();
    let place = (number as usize).checked_sub(channels)?;
    policy.tasks.as_slice().get(place)
}

/// The channel with a number.
fn policy_channel(policy: &Policy, number: u32) -> Option<&FileEntry> {
    policy.channels.as_slice().get(number as usize)
}

/// How many turns a birth gives the child.
fn turns_of_birth(entry: &Entry) -> u32 {
    match &entry.act {
        Act::Fork(birth) | Act::Spawn(birth) => birth.get().turns,
        _ => 0,
    }
}

/// A turn or turns, behind their number.
fn turns_word(turns: u32) -> Piece<'static> {
    Piece::Words(if turns == 1 { " turn" } else { " turns" })
}

impl<'r> About<'r> {
    /// The line of the script's text that is the one with this place.
    fn line(&self, place: Option<usize>) -> Option<SourceLine<'r>> {
        self.source.line(place?)
    }

    /// The turn that gave birth to a task, where it is a child.
    fn birth(&self, ending: Ending) -> Option<&'r Entry> {
        self.entries.get(ending.born?)
    }

    /// How many turns a task was given.
    fn turns_given(&self, ending: Ending) -> u32 {
        match (policy_task(self.policy, ending.task), self.birth(ending)) {
            (Some(task), _) => task.turns,
            (None, Some(birth)) => turns_of_birth(birth),
            (None, None) => 0,
        }
    }

    /// Writes a task by its number, and by its name where it is one of the policy's.
    fn print_task(&self, printer: &mut Printer<'_>, number: u32) {
        let (template, name) = match policy_task(self.policy, number) {
            Some(task) => ("task {}, \"{}\",", Piece::Shown(task.name.bytes())),
            None => ("task {}", Piece::Nothing),
        };
        printer.fill(template, Piece::Number(u64::from(number)), name);
    }

    /// Writes a place in the script's file.
    fn print_place(&self, printer: &mut Printer<'_>, line: SourceLine<'_>) {
        let number = Piece::Number(line.number as u64);
        printer.fill("{}:{}", Piece::Words(self.source.name), number);
    }

    /// Writes where a task stood; the file alone where its text isn't there.
    fn print_where(&self, printer: &mut Printer<'_>, line: Option<SourceLine<'_>>) {
        match line {
            Some(line) => {
                printer.words(" at ");
                self.print_place(printer, line);
            }
            None => {
                printer.words(" in ");
                printer.words(self.source.name);
            }
        }
    }

    /// Writes who started a task and where, where it is a child.
    fn print_birth(&self, printer: &mut Printer<'_>, ending: Ending, line: Option<usize>) {
        if let Some(birth) = self.birth(ending) {
            printer.words(", which ");
            self.print_task(printer, birth.actor);
            printer.words(" started");
            self.print_where(printer, self.line(line));
            printer.words(",");
        }
    }

    /// Writes that a task has used up its turns.
    fn print_given(&self, printer: &mut Printer<'_>, ending: Ending) {
        let given = self.turns_given(ending);
        let template = match ending.born {
            Some(_) => "; its parent gives it {}{}",
            None => "; the policy gives it {}{}",
        };
        printer.fill(template, Piece::Number(u64::from(given)), turns_word(given));
        let handed = (given as usize).saturating_sub(ending.turns);
        if handed > 0 {
            printer.fill(
                ", and {} of them went to its children",
                Piece::Number(handed as u64),
                Piece::Nothing,
            );
        }
    }

    /// Writes how many of its turns a task took before it ended.
    fn print_taken(&self, printer: &mut Printer<'_>, ending: Ending) {
        let given = self.turns_given(ending);
        printer.fill(
            ", after {} of {}",
            Piece::Number(ending.turns as u64),
            Piece::Number(u64::from(given)),
        );
        printer.fill("{}", turns_word(given), Piece::Nothing);
    }

    /// Writes the line of the script at which a task ended, why, and what helps, where there is
    /// something to say.
    fn print_detail(&self, printer: &mut Printer<'_>, line: Option<SourceLine<'_>>, found: &Found) {
        if let Some(line) = line {
            let number = Piece::Number(line.number as u64);
            printer.fill("\n  {} | {}", number, Piece::Shown(line.bytes));
        }
        if !found.reason.is_empty() {
            printer.words("\n  ");
            printer.words(found.reason.as_str());
        }
        if let Some(line) = self.line(found.waited) {
            printer.words(" at ");
            self.print_place(printer, line);
        }
        if !found.help.is_empty() {
            printer.words("\n  help: ");
            printer.words(found.help);
        }
    }

    /// Writes how many tasks more ended so, where some did.
    fn print_more(&self, printer: &mut Printer<'_>, more: usize) {
        if more > 0 {
            let tasks = if more == 1 { " task" } else { " tasks" };
            printer.fill(
                "\n  {}{} more ended with it there",
                Piece::Number(more as u64),
                Piece::Words(tasks),
            );
        }
    }

    /// Writes the note on a task that ended by a fault.
    fn print_ending(
        &self,
        printer: &mut Printer<'_>,
        ending: Ending,
        kind: &FaultKind,
        found: &Found,
    ) {
        let line = self.line(found.line);
        self.print_task(printer, ending.task);
        self.print_birth(printer, ending, found.born);
        printer.words(" ended with ");
        printer.words(kind_word(kind));
        self.print_where(printer, line);
        match kind {
            FaultKind::NoTurns if ending.source.is_none() => self.print_given(printer, ending),
            _ => self.print_taken(printer, ending),
        }
        self.print_detail(printer, line, found);
        self.print_more(printer, ending.more);
    }

    /// Writes the note on a task that stands still for ever.
    fn print_waiting(&self, printer: &mut Printer<'_>, task: u32, line: Option<usize>) {
        self.print_task(printer, task);
        printer.words(" waits");
        if let Some(line) = self.line(line) {
            printer.words(" in ");
            printer.quoted(line.bytes);
            printer.words(" (");
            self.print_place(printer, line);
            printer.words(")");
        }
        printer.words(", and no task is left that could wake it");
    }

    /// Writes the note on a channel that received nothing.
    fn print_silent(&self, printer: &mut Printer<'_>, channel: u32) {
        printer.words("channel ");
        if let Some(channel) = policy_channel(self.policy, channel) {
            printer.quoted(channel.name.bytes());
        }
        printer.words(" received nothing");
    }

    /// Writes the note on a trouble.
    fn print_note(&self, printer: &mut Printer<'_>, found: &Found) {
        printer.words("note: ");
        match found.trouble {
            Trouble::Ended(ending) => {
                if let Some(end) = self.entries.get(ending.end)
                    && let Some(fault) = fault_of(end)
                {
                    self.print_ending(printer, ending, &fault.kind, found);
                }
            }
            Trouble::Waits(task) => self.print_waiting(printer, task, found.line),
            Trouble::Silent(channel) => self.print_silent(printer, channel),
        }
        printer.words("\n");
    }
}

/// The notes on the run of a job that has this journal and ended with this configuration, a line or
/// a few for each of its troubles, and how many more there are. Where a line of the script is to be
/// shown, its file's text is.
pub fn notes_text(
    alloc: Global,
    job: &Job,
    journal: &Journal,
    config: &Config,
    troubles: &Troubles,
    source: Source<'_>,
) -> Result<String, NoMemory> {
    let entries = journal.entries();
    let policy = job.policy();
    let about = About {
        policy,
        entries,
        source,
    };
    let mut printer = Printer::new(alloc, &policy.names);
    for trouble in &troubles.first {
        let found = Found::of(alloc, job, config, entries, *trouble)?;
        about.print_note(&mut printer, &found);
    }
    if troubles.more > 0 {
        let more = Piece::Number(troubles.more as u64);
        printer.fill("note: {} more\n", more, Piece::Nothing);
    }
    printer.finish()
}
