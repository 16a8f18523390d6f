//! What a policy lets flow, as a table for programs: a text of JSON.

ghost use Rattle.std.specs.Prelude.{IfOk};
ghost use Rattle.lio_ask_main.specs.Explained.{begins_with};

use crate::explain::able::{Lack, lack_of_channel, lack_of_input, lets_something};
use crate::explain::flows::text_with;
use crate::explain::formulas::{QUOTED, write_formula, write_label};
use crate::explain::holdings::{Holding, gather, holders, powers, takes_part};
use lio_clauses::{Names, NoMemory};
use lio_labels::Priv;
use lio_messages_hints::{Message, Piece};
use lio_policy::{FileEntry, MayFlow, Policy, what_may_flow};
use lio_values::{List, Text};
use std::alloc::Global;
use std::{fmt, str};

/// A name of a file as a text of JSON has it, without its quotes.
#[derive(Clone, Copy)]
struct Escaped<'a>(&'a Text);

impl fmt::Display for Escaped<'_> {
    fn fmt<W: fmt::Write>(&self, f: &mut fmt::Formatter<W>) -> fmt::Result {
        for character in str::from_utf8(self.0.bytes()).unwrap_or("").chars() {
            match character {
                '"' => f.write_str("\\\"")?,
                '\\' => f.write_str("\\\\")?,
                '\u{0}'..='\u{1f}' => {
                    let code = character as u32;
                    write!(f, "\\u{code:04x}")?;
                }
                _ => f.write_char(character)?,
            }
        }
        Ok(())
    }
}

/// Items with a comma between two of them.
#[derive(Drop)]
struct Items {
    message: Message,
    is_first: bool,
}

impl Items {
    /// Begins a list with a name.
    fn begin(&mut self, name: &str) {
        self.message.words(name);
        self.is_first = true;
    }

    /// Begins the next item.
    fn next(&mut self) {
        if !self.is_first {
            self.message.words(",");
        }
        self.is_first = false;
    }
}

/// Writes a channel or an input, with its name as the key.
fn write_entry(items: &mut Items, names: &Names, entry: &FileEntry) {
    items.next();
    let message = &mut items.message;
    message.words("\"");
    message.bytes(entry.name.bytes());
    message.words("\":{\"file\":\"");
    message.show(Escaped(&entry.file));
    message.words("\",\"label\":\"");
    write_label(message, names, &entry.label, QUOTED);
    message.words("\"}");
}

/// Writes channels or inputs as an object with a name.
fn write_entries(items: &mut Items, names: &Names, name: &str, entries: &[FileEntry]) {
    items.begin(name);
    for entry in entries {
        write_entry(items, names, entry);
    }
}

/// Writes which tasks hold a privilege.
fn write_tasks(
    alloc: Global,
    items: &mut Items,
    holdings: &[Holding<'_>],
    power: &Priv,
) -> Result<(), NoMemory> {
    items.begin("\",\"tasks\":[");
    let tasks = holders(alloc, holdings, power)?;
    for task in tasks.as_slice() {
        items.next();
        let name = Piece::Shown(task.name.bytes());
        items
            .message
            .fill("\"{}\"", name, Piece::Nothing, Piece::Nothing);
    }
    Ok(())
}

/// Writes which inputs come to a channel by a privilege, by the channel's row of the table.
fn write_lets_to(
    items: &mut Items,
    policy: &Policy,
    power: &Priv,
    channel: &FileEntry,
    row: &[MayFlow],
) {
    for (input, flow) in policy.inputs.as_slice().iter().zip(row.iter()) {
        if let MayFlow::OnlyByPrivilege = flow
            && takes_part(power, input, channel)
        {
            items.next();
            let channel = Piece::Shown(channel.name.bytes());
            let input = Piece::Shown(input.name.bytes());
            let template = "{\"channel\":\"{}\",\"input\":\"{}\"}";
            items.message.fill(template, channel, input, Piece::Nothing);
        }
    }
}

/// Writes a privilege, which tasks hold it, and which inputs come to which channels by it.
fn write_power(
    alloc: Global,
    items: &mut Items,
    policy: &Policy,
    holdings: &[Holding<'_>],
    rows: &[List<MayFlow>],
    power: &Priv,
) -> Result<(), NoMemory> {
    items.message.words("{\"power\":\"");
    write_formula(&mut items.message, &policy.names, &power.power, QUOTED);
    write_tasks(alloc, items, holdings, power)?;
    items.begin("],\"lets\":[");
    for (channel, row) in policy.channels.as_slice().iter().zip(rows.iter()) {
        write_lets_to(items, policy, power, channel, row.as_slice());
    }
    items.message.words("]}");
    Ok(())
}

/// Writes the privileges of a policy.
fn write_powers(
    alloc: Global,
    items: &mut Items,
    policy: &Policy,
    holdings: &[Holding<'_>],
    rows: &[List<MayFlow>],
) -> Result<(), NoMemory> {
    let powers = powers(alloc, holdings)?;
    items.begin("},\"privileges\":[");
    for (place, power) in powers.as_slice().iter().enumerate() {
        if place > 0 {
            items.message.words(",");
        }
        write_power(alloc, items, policy, holdings, rows, power)?;
    }
    Ok(())
}

/// Why, in a word.
fn why(lack: Lack) -> &'static str {
    match lack {
        Lack::NotGiven => "not_given",
        Lack::AboveClearances => "above_clearances",
        Lack::NoIntegrity => "no_integrity",
        Lack::BeginsAbove => "begins_above",
    }
}

/// Writes that no task can do something with a channel or an input, and why.
fn write_lack(items: &mut Items, template: &str, entry: &FileEntry, lack: Lack) {
    items.next();
    let name = Piece::Shown(entry.name.bytes());
    let why = Piece::Words(why(lack));
    items.message.fill(template, name, why, Piece::Nothing);
}

/// Writes what no task can do with the channels and the inputs.
fn write_lacks(items: &mut Items, policy: &Policy, holdings: &[Holding<'_>]) {
    items.begin("],\"cannot\":[");
    for (place, channel) in policy.channels.as_slice().iter().enumerate() {
        if let Some(lack) = lack_of_channel(holdings, place, channel) {
            let template = "{\"send\":\"{}\",\"why\":\"{}\"}";
            write_lack(items, template, channel, lack);
        }
    }
    for (place, input) in policy.inputs.as_slice().iter().enumerate() {
        if let Some(lack) = lack_of_input(holdings, place, input) {
            let template = "{\"learn\":\"{}\",\"why\":\"{}\"}";
            write_lack(items, template, input, lack);
        }
    }
    items.message.words("]}\n");
}

/// What is told of a policy beside the table of what it lets flow.
fn beside_table(
    alloc: Global,
    policy: &Policy,
    rows: &[List<MayFlow>],
) -> Result<String, NoMemory> {
    let holdings = gather(alloc, policy)?;
    let mut items = Items {
        message: Message::new(alloc),
        is_first: true,
    };
    let channels = policy.channels.as_slice();
    write_entries(&mut items, &policy.names, ",\"channel\":{", channels);
    let inputs = policy.inputs.as_slice();
    write_entries(&mut items, &policy.names, "},\"input\":{", inputs);
    write_powers(alloc, &mut items, policy, holdings.as_slice(), rows)?;
    write_lacks(&mut items, policy, holdings.as_slice());
    let Items { message, .. } = items;
    message.finish()
}

/// What a policy lets flow, as a table for programs.
pub(crate) fn table_text(alloc: Global, policy: &Policy) -> Result<Vec<u8>, NoMemory>
    ensures { IfOk result (λ text. begins_with text.items policy.now) }
{
    let rows = what_may_flow(alloc, policy)?;
    let table = rows.as_slice();
    let beside = beside_table(alloc, policy, table)?;
    let rest = beside.as_str().as_bytes();
    let text = text_with(alloc, policy, table, rest)?;
    Ok(text)
}
