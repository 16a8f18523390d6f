//! What looks wrong in a policy and in a script that fits it. What a warning says has no contract.

use crate::parts::Parts;
use lio_ask_main::said_lines;
use lio_clauses::NoMemory;
use lio_front::Texts;
use lio_messages_hints::{Message, Piece};
use lio_policy::{Arg, FileEntry, Policy, TaskEntry, read_policy};
use lio_syntax::{Script, read_script};
use lio_syntax_lines::{Line, Operand};
use lio_values::{Name, Plain, Text};
use std::alloc::Global;

/// The most warnings that are told.
const MOST: usize = 50;

/// How deep the lists in a task's arguments may be.
const DEEPEST: u32 = 8;

/// Warnings as they are written: of which files, in which lines of text, and how many so far.
#[derive(Drop)]
struct Warnings<'w> {
    message: Message,
    policy: &'w str,
    script: &'w str,
    numbers: Vec<u32>,
    count: usize,
}

impl<'w> Warnings<'w> {
    /// Begins a warning; answers whether there is room for it.
    fn begins(&mut self) -> bool {
        self.count = self.count.saturating_add(1);
        self.count <= MOST
    }

    /// Warns of a name in the line at a place of the script.
    fn of_line(&mut self, place: usize, template: &str, name: &[u8]) {
        if !self.begins() {
            return;
        }
        let number = match self.numbers.get(place) {
            Some(number) => *number,
            None => 0,
        };
        let script = Piece::Words(self.script);
        let number = Piece::Number(u64::from(number));
        self.message.fill("lio_ask: warning: {}:{}: ", script, number, Piece::Nothing);
        self.message.fill(template, Piece::Shown(name), Piece::Nothing, Piece::Nothing);
        self.message.words("\n");
    }

    /// Warns of an entry of the policy.
    fn of_entry(&mut self, template: &str, name: &Text) {
        if !self.begins() {
            return;
        }
        let policy = Piece::Words(self.policy);
        self.message.fill(
            "lio_ask: warning: {}: ",
            policy,
            Piece::Nothing,
            Piece::Nothing,
        );
        let name = Piece::Shown(name.bytes());
        self.message
            .fill(template, name, Piece::Nothing, Piece::Nothing);
        self.message.words("\n");
    }

    /// Ends the warnings with how many more there are.
    fn finish(mut self) -> Result<String, NoMemory> {
        if self.count > MOST {
            let more = Piece::Number(self.count.saturating_sub(MOST) as u64);
            let template = "lio_ask: {} more warnings\n";
            self.message
                .fill(template, more, Piece::Nothing, Piece::Nothing);
        }
        let Warnings {
            message,
            numbers: _,
            ..
        } = self;
        message.finish()
    }
}

/// Whether a name is among these.
fn is_among(names: &[&Name], name: &Name) -> bool {
    for other in names {
        if other.is(name) {
            return true;
        }
    }
    false
}

/// Warns of an operand, where it is there and is a name that no line before binds; of each name
/// once a procedure.
fn warn_unbound<'s>(
    warnings: &mut Warnings<'_>,
    bound: &mut Vec<&'s Name>,
    place: usize,
    operand: Option<&'s Operand>,
) -> Result<(), NoMemory> {
    let Some(Operand::Name(name)) = operand else {
        return Ok(());
    };
    if !is_among(bound.as_slice(), name) {
        let template = "no line before binds `{}` in this procedure";
        warnings.of_line(place, template, name.bytes());
        bound.push(name)?;
    }
    Ok(())
}

/// Takes a name that a line binds, if it binds one.
fn take_bound<'s>(bound: &mut Vec<&'s Name>, name: Option<&'s Name>) -> Result<(), NoMemory> {
    if let Some(name) = name
        && !is_among(bound.as_slice(), name)
    {
        bound.push(name)?;
    }
    Ok(())
}

/// Warns of the operands of a line, and takes the names that it binds.
fn warn_line<'s>(
    warnings: &mut Warnings<'_>,
    bound: &mut Vec<&'s Name>,
    place: usize,
    parts: Parts<'s>,
) -> Result<(), NoMemory> {
    warn_unbound(warnings, bound, place, parts.first)?;
    warn_unbound(warnings, bound, place, parts.second)?;
    warn_unbound(warnings, bound, place, parts.third)?;
    for operand in parts.arguments() {
        warn_unbound(warnings, bound, place, Some(operand))?;
    }
    take_bound(bound, parts.binds)?;
    take_bound(bound, parts.binds_too)
}

/// Warns of names that no line before binds.
fn warn_names(alloc: Global, warnings: &mut Warnings<'_>, script: &Script) -> Result<(), NoMemory> {
    let mut bound = Vec::new(alloc);
    for (place, line) in script.lines().iter().enumerate() {
        if let Line::Proc(_, parameters) = line {
            bound = Vec::new(alloc);
            for name in parameters.as_slice() {
                bound.push(name)?;
            }
        } else {
            warn_line(warnings, &mut bound, place, Parts::of(line))?;
        }
    }
    Ok(())
}

/// Notes that the procedure with a name is called.
fn note_called(called: &mut Vec<bool>, script: &Script, name: &[u8]) {
    if let Some(number) = script.procedure_number(name)
        && let Some(is_called) = called.get_mut(number)
    {
        *is_called = true;
    }
}

/// Warns of procedures that nothing calls and no task runs.
fn warn_procedures(
    alloc: Global,
    warnings: &mut Warnings<'_>,
    policy: &Policy,
    script: &Script,
) -> Result<(), NoMemory> {
    let mut called = Vec::new(alloc);
    for line in script.lines() {
        if let Line::Proc(_, _) = line {
            called.push(false)?;
        }
    }
    for task in policy.tasks.as_slice() {
        note_called(&mut called, script, task.proc_name.bytes());
    }
    for line in script.lines() {
        if let Some(name) = Parts::of(line).calls {
            note_called(&mut called, script, name.bytes());
        }
    }
    let mut number = 0usize;
    for (place, line) in script.lines().iter().enumerate() {
        if let Line::Proc(name, _) = line {
            if let Some(false) = called.get(number) {
                let template = "no task runs the procedure `{}`, and no line calls it";
                warnings.of_line(place, template, name.bytes());
            }
            number = number.saturating_add(1);
        }
    }
    Ok(())
}

/// What an argument gives, for which it matters that it is used.
fn gift(arg: &Arg) -> Option<&'static str> {
    match arg {
        Arg::Input(_) => Some("the input that a task gives it as `{}` isn't used"),
        Arg::Fixed(Plain::Power(_)) => Some(
            "the privilege that a task gives it as `{}` isn't used",
        ),
        Arg::Fixed(Plain::ChanOf(_)) => Some("the channel that a task gives it as `{}` isn't used"),
        Arg::Fixed(_) | Arg::Items(_) => None,
    }
}

/// The place of the line that begins the procedure with a name.
fn place_of(script: &Script, name: &Text) -> Option<usize> {
    let number = script.procedure_number(name.bytes())?;
    Some(script.procedure_line(number))
}

/// Whether one of the lines behind a place works on a name, before the next procedure begins.
fn is_used(script: &Script, place: usize, name: &Name) -> bool {
    for line in script.lines().iter().skip(place.saturating_add(1)) {
        if let Line::Proc(_, _) = line {
            return false;
        }
        if Parts::of(line).works_on(name) {
            return true;
        }
    }
    false
}

/// Warns of what a task gives its procedure, and no line of that works on.
fn warn_gifts(warnings: &mut Warnings<'_>, script: &Script, task: &TaskEntry) {
    let Some(place) = place_of(script, &task.proc_name) else {
        return;
    };
    let Some(Line::Proc(_, parameters)) = script.lines().get(place) else {
        return;
    };
    for (arg, parameter) in task
        .args
        .as_slice()
        .iter()
        .zip(parameters.as_slice().iter())
    {
        if let Some(template) = gift(arg)
            && !is_used(script, place, parameter)
        {
            warnings.of_line(place, template, parameter.bytes());
        }
    }
}

/// Warns of entries that no task is given.
fn warn_entries(
    warnings: &mut Warnings<'_>,
    template: &str,
    entries: &[FileEntry],
    given: &[bool],
) {
    for (place, entry) in entries.iter().enumerate() {
        if let Some(false) = given.get(place) {
            warnings.of_entry(template, &entry.name);
        }
    }
}

/// Which inputs and which channels some task is given, by number.
#[derive(Drop)]
struct Given {
    inputs: Vec<bool>,
    channels: Vec<bool>,
}

/// Notes that what has a number is given to a task.
fn note_given(given: &mut Vec<bool>, number: u32) {
    if let Some(is_given) = given.get_mut(number as usize) {
        *is_given = true;
    }
}

/// Notes what arguments give, and appends the lists that stand in them.
fn note_arguments<'p>(
    given: &mut Given,
    args: &'p [Arg],
    lists: &mut Vec<&'p [Arg]>,
) -> Result<(), NoMemory> {
    for arg in args {
        match arg {
            Arg::Input(number) => note_given(&mut given.inputs, *number),
            Arg::Fixed(Plain::ChanOf(handle)) => note_given(&mut given.channels, handle.number),
            Arg::Fixed(_) => {}
            Arg::Items(items) => lists.push(items.as_slice())?,
        }
    }
    Ok(())
}

/// Notes what the arguments of a task give, in lists too, as deep as a policy may have them.
fn note_task(alloc: Global, given: &mut Given, task: &TaskEntry) -> Result<(), NoMemory> {
    let mut level = Vec::new(alloc);
    level.push(task.args.as_slice())?;
    for _depth in 0..=DEEPEST {
        let mut deeper = Vec::new(alloc);
        for args in level.as_slice() {
            note_arguments(given, args, &mut deeper)?;
        }
        level = deeper;
    }
    Ok(())
}

/// Nothing is given of so many.
fn none_given(alloc: Global, count: usize) -> Result<Vec<bool>, NoMemory> {
    let mut given = Vec::new(alloc);
    for _entry in 0..count {
        given.push(false)?;
    }
    Ok(given)
}

/// Warns of inputs and channels that no task is given.
fn warn_policy(
    alloc: Global,
    warnings: &mut Warnings<'_>,
    policy: &Policy,
) -> Result<(), NoMemory> {
    let inputs = policy.inputs.as_slice();
    let channels = policy.channels.as_slice();
    let mut given = Given {
        inputs: none_given(alloc, inputs.len())?,
        channels: none_given(alloc, channels.len())?,
    };
    for task in policy.tasks.as_slice() {
        note_task(alloc, &mut given, task)?;
    }
    let template = "no task is given the input \"{}\"";
    warn_entries(warnings, template, inputs, given.inputs.as_slice());
    let template = "no task is given the channel \"{}\"";
    warn_entries(warnings, template, channels, given.channels.as_slice());
    Ok(())
}

/// The warnings on a policy and a script that fits it, whose files have these names.
fn warnings_on(
    alloc: Global,
    names: (&str, &str),
    policy: &Policy,
    script: &Script,
    text: &[u8],
) -> Result<String, NoMemory> {
    let mut warnings = Warnings {
        message: Message::new(alloc),
        policy: names.0,
        script: names.1,
        numbers: said_lines(alloc, text)?,
        count: 0,
    };
    warn_policy(alloc, &mut warnings, policy)?;
    warn_names(alloc, &mut warnings, script)?;
    warn_procedures(alloc, &mut warnings, policy, script)?;
    for task in policy.tasks.as_slice() {
        warn_gifts(&mut warnings, script, task);
    }
    warnings.finish()
}

/// The warnings on the texts of a policy and of a script that fits it, whose files have these
/// names; none where they aren't that.
pub(crate) fn warnings_text(
    alloc: Global,
    names: (&str, &str),
    texts: &Texts,
) -> Result<String, NoMemory> {
    let (Some(policy), Some(text)) = (&texts.policy, &texts.script) else {
        return Ok(String::new(alloc));
    };
    let Ok(policy) = read_policy(alloc, policy.as_slice()) else {
        return Ok(String::new(alloc));
    };
    let Ok(script) = read_script(alloc, text.as_slice(), &policy.names) else {
        return Ok(String::new(alloc));
    };
    warnings_on(alloc, names, &policy, &script, text.as_slice())
}
