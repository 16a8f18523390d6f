//! The texts that are said.

ghost use Rattle.std.specs.Prelude.{◌≡◌, ◌++◌, IfOk, OnOk, length};
ghost use Rattle.lio_front.specs.Summary.{line_of};
ghost use Rattle.lio_ask_main.specs.Answers.{check_text};
ghost use Rattle.lio_ask_main.specs.Troubles.{counts_text};
ghost use Rattle.lio_ask_main.specs.Turns.{turn_line, turn_lines};

use lio_clauses::NoMemory;
use lio_events::Journal;
use lio_values::{Entry, print_number};
use std::alloc::Global;

/// What the program answers.
const HELP: &[u8] =
    b"lio_ask answers questions about a policy, a script and a history. It writes no file.\n\n  lio_ask explain POLICY [--json]      what the policy lets come from which input to which channel, and what no task can do\n  lio_ask check POLICY SCRIPT          whether the script fits the policy, and what in them looks wrong\n  lio_ask audit POLICY SCRIPT HISTORY  whether the history is that of a run, and how many tasks failed or wait for ever\n  lio_ask lines POLICY SCRIPT HISTORY  for each turn of the history its ticket, its task, and the line of the script\n  lio_ask help                         this text\n  lio_ask version                      the version\n\nPOLICY, SCRIPT and HISTORY are names of files. The exit status is 0 where all is well, 13 where a task failed or\nwaits for ever (audit), and else that of lio_host for the same refusal.\n";

/// The version.
const VERSION: &[u8] = b"lio_ask 2.1\n";

/// What is said of the program.
pub(crate) fn print_help(alloc: Global) -> Result<Vec<u8>, NoMemory> {
    Ok(Vec::from_slice(alloc, HELP)?)
}

/// What is said of its version.
pub(crate) fn print_version(alloc: Global) -> Result<Vec<u8>, NoMemory> {
    Ok(Vec::from_slice(alloc, VERSION)?)
}

/// What is said of a script that fits a policy.
pub(crate) fn print_check(alloc: Global) -> Result<Vec<u8>, NoMemory>
    ensures { IfOk result (λ text. text.items ≡ check_text) }
{
    let mut text = Vec::new(alloc);
    text.extend_from_slice(b"check ok\n")?;
    Ok(text)
}

/// Appends a line: a word and a number.
fn print_count(out: &mut Vec<u8>, word: &[u8], number: usize) -> Result<(), NoMemory>
    ensures { OnOk result (out.new.items ≡ out.old.items ++ line_of word.now number) }
{
    out.extend_from_slice(word)?;
    out.push(b' ')?;
    print_number(out, number as u64)?;
    out.push(b'\n')?;
    Ok(())
}

/// What is said of so many turns, and of the tasks that failed and that wait.
pub(crate) fn print_counts(
    alloc: Global,
    turns: usize,
    failed: usize,
    waiting: usize,
) -> Result<Vec<u8>, NoMemory>
    ensures { IfOk result (λ text. text.items ≡ counts_text turns failed waiting) }
{
    let mut out = Vec::new(alloc);
    print_count(&mut out, b"history ok", turns)?;
    print_count(&mut out, b"failed", failed)?;
    print_count(&mut out, b"waiting", waiting)?;
    Ok(out)
}

/// Appends the line of a turn: its ticket, its task, and the number of a line of the script.
fn print_turn(out: &mut Vec<u8>, entry: &Entry, number: u32) -> Result<(), NoMemory>
    ensures { OnOk result (out.new.items ≡ out.old.items ++ turn_line number entry.now) }
{
    print_number(out, entry.ticket)?;
    out.push(b' ')?;
    print_number(out, u64::from(entry.actor))?;
    out.push(b' ')?;
    print_number(out, u64::from(number))?;
    out.push(b'\n')?;
    Ok(())
}

/// The lines of the turns of a journal, with these numbers of lines of the script.
pub(crate) fn print_turns(
    alloc: Global,
    journal: &Journal,
    numbers: &[u32],
) -> Result<Vec<u8>, NoMemory>
    requires { length numbers.now ≡ length journal.now }
    ensures { IfOk result (λ text. text.items ≡ turn_lines numbers.now 0 journal.now) }
{
    let entries = journal.entries();
    let mut out = Vec::new(alloc);
    for (place, entry) in entries.iter().enumerate() {
        print_turn(&mut out, entry, numbers[place])?;
    }
    Ok(out)
}
