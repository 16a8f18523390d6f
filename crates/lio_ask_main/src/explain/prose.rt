//! What a policy lets flow, as a text.

use crate::explain::able::{Lack, lack_of_channel, lack_of_input, lets_something};
use crate::explain::files::ShownFile;
use crate::explain::formulas::{PLAIN, write_formula, write_readers, write_vouchers};
use crate::explain::holdings::{Holding, gather, holders, is_needed, powers, takes_part};
use lio_clauses::{Names, NoMemory};
use lio_labels::Priv;
use lio_messages_hints::{Message, Piece};
use lio_policy::{FileEntry, MayFlow, Policy, TaskEntry, what_may_flow};
use lio_values::List;
use std::alloc::Global;

/// How wide an input is written, before what may become of it.
const WIDTH: usize = 28;

/// What the table says, and what it doesn't.
const ENDS: &str =
    "In a run by rounds the text of an input that never comes to a channel changes no byte of it, whatever the script is.\nWith workers what comes to a channel may depend on the order of turns, and so on other data.\n";

/// What of a policy is written.
#[derive(Clone, Copy)]
struct Told<'p> {
    policy: &'p Policy,
    holdings: &'p [Holding<'p>],
    powers: &'p [&'p Priv],
    rows: &'p [List<MayFlow>],
}

/// Writes a channel: its file, who reads it, and who vouches for it.
fn write_channel(message: &mut Message, names: &Names, channel: &FileEntry) {
    message.words("channel ");
    message.bytes(channel.name.bytes());
    message.words(" (");
    message.show(ShownFile(&channel.file));
    message.words("): read by ");
    write_readers(message, names, &channel.label.secrecy);
    write_vouchers(message, names, &channel.label.integrity);
    message.words("\n");
}

/// Writes an input: its file, its owners, and who vouches for it.
fn write_input(message: &mut Message, names: &Names, input: &FileEntry) {
    message.words("   ");
    message.bytes(input.name.bytes());
    message.words(" (");
    message.show(ShownFile(&input.file));
    match input.label.secrecy.clauses() {
        [] => message.words(", public"),
        [0] => message.words(", for nobody to learn"),
        _ => {
            message.words(", of ");
            write_readers(message, names, &input.label.secrecy);
        }
    }
    write_vouchers(message, names, &input.label.integrity);
    message.words(")");
}

/// Writes blanks up to the width of inputs, from where a line begins; at least two.
fn write_blanks(message: &mut Message, begins: usize) {
    message.words("  ");
    for _column in message.len().saturating_sub(begins)..WIDTH {
        message.words(" ");
    }
}

/// Writes which tasks hold a privilege.
fn write_holders(message: &mut Message, tasks: &[&TaskEntry]) {
    match tasks {
        [task] => {
            message.words("which task ");
            message.bytes(task.name.bytes());
            message.words(" holds");
        }
        tasks => {
            message.words("which tasks ");
            for (place, task) in tasks.iter().enumerate() {
                if place > 0 {
                    message.words(", ");
                }
                message.bytes(task.name.bytes());
            }
            message.words(" hold");
        }
    }
}

/// Writes a privilege, and which tasks hold it.
fn write_power(
    alloc: Global,
    message: &mut Message,
    told: Told<'_>,
    power: &Priv,
) -> Result<(), NoMemory> {
    let policy = told.policy;
    message.words("power<");
    write_formula(message, &policy.names, &power.power, PLAIN);
    message.words(">, ");
    let tasks = holders(alloc, told.holdings, power)?;
    write_holders(message, tasks.as_slice());
    Ok(())
}

/// How many of some privileges an input takes to come to a channel.
#[derive(Clone, Copy)]
enum Needed {
    /// There is one.
    TheOne,
    /// Each alone is enough.
    OneOf,
    /// It doesn't come without any one of them.
    All,
    /// Some of them.
    Some,
}

/// How many of the privileges that have a part in it an input takes to come to a channel.
fn needed_of(parts: &[&Priv], input: &FileEntry, channel: &FileEntry) -> Needed {
    if parts.len() == 1 {
        return Needed::TheOne;
    }
    let (mut is_one_of, mut is_all) = (true, true);
    for power in parts {
        if !input.label.flows_with(power, &channel.label) {
            is_one_of = false;
        }
        if !is_needed(parts, power, input, channel) {
            is_all = false;
        }
    }
    match (is_one_of, is_all) {
        (true, _) => Needed::OneOf,
        (false, true) => Needed::All,
        (false, false) => Needed::Some,
    }
}

/// The words in front of the privileges, and behind them.
fn around(needed: Needed) -> (&'static str, &'static str) {
    match needed {
        Needed::TheOne => ("only by privilege ", ""),
        Needed::OneOf => ("only by one of the privileges ", ""),
        Needed::All => ("only by the privileges ", ", together"),
        Needed::Some => ("only by some of the privileges ", ""),
    }
}

/// The privileges that have a part in what lets an input flow to a channel.
fn parts_of<'p>(
    alloc: Global,
    told: Told<'p>,
    input: &FileEntry,
    channel: &FileEntry,
) -> Result<Vec<&'p Priv>, NoMemory> {
    let mut parts = Vec::new(alloc);
    for power in told.powers {
        if takes_part(power, input, channel) {
            parts.push(*power)?;
        }
    }
    Ok(parts)
}

/// Writes by which privileges an input may come to a channel.
fn write_powers(
    alloc: Global,
    message: &mut Message,
    told: Told<'_>,
    input: &FileEntry,
    channel: &FileEntry,
) -> Result<(), NoMemory> {
    let parts = parts_of(alloc, told, input, channel)?;
    let (before, behind) = around(needed_of(parts.as_slice(), input, channel));
    message.words(before);
    for (place, power) in parts.iter().enumerate() {
        if place > 0 {
            message.words("; ");
        }
        write_power(alloc, message, told, power)?;
    }
    message.words(behind);
    Ok(())
}

/// Writes what may become of an input at a channel.
fn write_flow(
    alloc: Global,
    message: &mut Message,
    told: Told<'_>,
    pair: (&FileEntry, &FileEntry),
    flow: MayFlow,
) -> Result<(), NoMemory> {
    let policy = told.policy;
    let (input, channel) = pair;
    let begins = message.len();
    write_input(message, &policy.names, input);
    write_blanks(message, begins);
    match flow {
        MayFlow::Never => message.words("never"),
        MayFlow::OnlyByPrivilege => write_powers(alloc, message, told, input, channel)?,
        MayFlow::May => message.words("may come here"),
    }
    message.words("\n");
    Ok(())
}

/// Writes each channel with what may become of each input at it.
fn write_rows(alloc: Global, message: &mut Message, told: Told<'_>) -> Result<(), NoMemory> {
    let policy = told.policy;
    let inputs = policy.inputs.as_slice();
    for (channel, row) in policy.channels.as_slice().iter().zip(told.rows.iter()) {
        write_channel(message, &policy.names, channel);
        for (input, flow) in inputs.iter().zip(row.as_slice().iter()) {
            write_flow(alloc, message, told, (input, channel), *flow)?;
        }
    }
    Ok(())
}

/// Why, in words.
fn why(lack: Lack) -> &'static str {
    match lack {
        Lack::NotGiven => "no task is given it",
        Lack::AboveClearances => "no task that is given it has a clearance as high",
        Lack::NoIntegrity => {
            "no task that is given it, with a clearance as high, begins with its integrity"
        }
        Lack::BeginsAbove => "no task that is given it, with a clearance as high, begins as low",
    }
}

/// Writes that no task can do something with a channel or an input, and why.
fn write_lack(message: &mut Message, does: &str, entry: &FileEntry, lack: Lack) {
    message.fill(
        "no task can {} {}: {}\n",
        Piece::Words(does),
        Piece::Shown(entry.name.bytes()),
        Piece::Words(why(lack)),
    );
}

/// Writes what no task can do with the channels and the inputs.
fn write_lacks(message: &mut Message, told: Told<'_>) {
    let policy = told.policy;
    for (place, channel) in policy.channels.as_slice().iter().enumerate() {
        if let Some(lack) = lack_of_channel(told.holdings, place, channel) {
            write_lack(message, "send to", channel, lack);
        }
    }
    for (place, input) in policy.inputs.as_slice().iter().enumerate() {
        if let Some(lack) = lack_of_input(told.holdings, place, input) {
            write_lack(message, "learn", input, lack);
        }
    }
}

/// Writes which privileges let nothing come to a channel that doesn't come there without them.
fn write_idle(alloc: Global, message: &mut Message, told: Told<'_>) -> Result<(), NoMemory> {
    for power in told.powers {
        if !lets_something(told.policy, told.rows, power) {
            write_power(alloc, message, told, power)?;
            message.words(
                ": it lets nothing come to a channel that doesn't come there without it\n",
            );
        }
    }
    Ok(())
}

/// What a policy lets flow, as a text.
pub(crate) fn explain_text(alloc: Global, policy: &Policy) -> Result<Vec<u8>, NoMemory> {
    let rows = what_may_flow(alloc, policy)?;
    let holdings = gather(alloc, policy)?;
    let powers = powers(alloc, holdings.as_slice())?;
    let told = Told {
        policy,
        holdings: holdings.as_slice(),
        powers: powers.as_slice(),
        rows: rows.as_slice(),
    };
    let mut message = Message::new(alloc);
    write_rows(alloc, &mut message, told)?;
    write_lacks(&mut message, told);
    write_idle(alloc, &mut message, told)?;
    message.words(ENDS);
    let text = message.finish()?;
    Ok(Vec::from_slice(alloc, text.as_bytes())?)
}
