//! Numbers past a limit.

use crate::entry::{Entry, entry_of};
use crate::found::{Found, told_one, told_three, told_two};
use lio_messages_hints::Piece;
use lio_policy_draft::{ArgDraft, Draft, Limits, TaskDraft, limits_of};
use std::alloc::Global;

/// The most arguments of a task.
const MOST_ARGUMENTS: usize = 8;

/// How deep a list is at most.
const MOST_DEEP: u64 = 8;

/// The most inputs in a list.
const MOST_INPUTS: u64 = 4;

/// What is wrong with the version.
pub(crate) fn version_mistake(alloc: Global, draft: &Draft) -> Found {
    let version = match draft.version {
        Some(version) => Piece::Number(version),
        None => Piece::Words("negative"),
    };
    let template = "\"version\" is {}; this host reads policies of versions 1 and 2";
    told_one(alloc, template, version)
}

/// The limits of a draft's version.
fn limits_in(draft: &Draft) -> Limits {
    limits_of(draft.version.unwrap_or(0))
}

/// The turns and the cells of so many tasks.
fn sums(tasks: &[TaskDraft], count: usize) -> (u64, u64) {
    let mut turns = 0u64;
    let mut cells = 0u64;
    for task in tasks.iter().take(count) {
        turns = turns.saturating_add(u64::from(task.turns));
        cells = cells.saturating_add(u64::from(task.cells));
    }
    (turns, cells)
}

/// What is wrong with the numbers of the document.
fn document_limits(alloc: Global, draft: &Draft) -> Found {
    let tasks = draft.tasks.as_slice();
    let most = limits_in(draft).longest;
    let (longest, is) = match draft.longest {
        Some(longest) => (longest, Piece::Number(longest)),
        None => (0, Piece::Words("negative")),
    };
    if longest < 1 || longest > most {
        let most = Piece::Number(most);
        return told_two(alloc, "\"longest\" is {}; it is 1 to {}", is, most);
    }
    let (turns, _) = sums(tasks, tasks.len());
    let work = Piece::Number(longest.saturating_mul(turns));
    let template = "\"longest\" times the turns of all tasks is {}, more than 1073741824";
    told_one(alloc, template, work)
}

/// How long the first text among a task's arguments is that is longer than this, with its number.
fn long_text(task: &TaskDraft, longest: u64) -> Option<(usize, usize)> {
    for (place, argument) in task.args.as_slice().iter().enumerate() {
        if let ArgDraft::Bytes(text) = argument
            && text.bytes().len() as u64 > longest
        {
            return Some((place.saturating_add(1), text.bytes().len()));
        }
    }
    None
}

/// What is wrong with the numbers of a task, which has a place among the tasks.
fn task_limits(alloc: Global, draft: &Draft, place: usize, task: &TaskDraft) -> Found {
    let limits = limits_in(draft);
    let most = limits.entries;
    if place >= most {
        return told_one(
            alloc,
            "there are at most {} tasks",
            Piece::Number(most as u64),
        );
    }
    let (turns, cells) = sums(draft.tasks.as_slice(), place.saturating_add(1));
    let longest = draft.longest.unwrap_or(0);
    let count = task.args.as_slice().len();
    let (template, first, second) = if turns > limits.turns {
        let template = "with it the tasks have {} turns, more than {}";
        (template, turns, limits.turns)
    } else if cells > limits.cells {
        let template = "with it the tasks have {} cells, more than {}";
        (template, cells, limits.cells)
    } else if count > MOST_ARGUMENTS {
        let template = "it has {} arguments; a procedure has at most 8 parameters";
        (template, count as u64, 0)
    } else if let Some((number, bytes)) = long_text(task, longest) {
        return told_three(
            alloc,
            "argument {} has {} bytes, and \"longest\" is {}",
            Piece::Number(number as u64),
            Piece::Number(bytes as u64),
            Piece::Number(longest),
        );
    } else {
        return list_limits(alloc, task, longest);
    };
    told_two(alloc, template, Piece::Number(first), Piece::Number(second))
}

/// How deep the deepest of some arguments is; 0 where none is a list.
#[cycle(depth)]
fn deepest(arguments: &[ArgDraft]) -> u64 {
    let mut deepest = 0u64;
    for argument in arguments {
        deepest = deepest.max(depth_of(argument));
    }
    deepest
}

/// How deep an argument is; 0 where it is no list.
#[cycle(depth)]
fn depth_of(argument: &ArgDraft) -> u64 {
    match argument {
        ArgDraft::Items(arguments) => deepest(arguments.as_slice()).saturating_add(1),
        _ => 0,
    }
}

/// How many inputs stand among some arguments, at every depth.
#[cycle(inputs)]
fn inputs_among(arguments: &[ArgDraft]) -> u64 {
    let mut count = 0u64;
    for argument in arguments {
        count = count.saturating_add(inputs_in(argument));
    }
    count
}

/// How many inputs an argument has in it, at every depth.
#[cycle(inputs)]
fn inputs_in(argument: &ArgDraft) -> u64 {
    match argument {
        ArgDraft::Input(_) => 1,
        ArgDraft::Items(arguments) => inputs_among(arguments.as_slice()),
        _ => 0,
    }
}

/// What is wrong with the depth or the inputs of an argument, which has a number in its task.
fn list_mistake(alloc: Global, argument: &ArgDraft, number: u64) -> Found {
    let depth = depth_of(argument);
    if depth > MOST_DEEP {
        let template = "argument {} is a list that is {} deep; a list is at most 8 deep";
        return told_two(alloc, template, Piece::Number(number), Piece::Number(depth));
    }
    let inputs = inputs_in(argument);
    if depth > 0 && inputs > MOST_INPUTS {
        let template =
            "argument {} is a list with {} inputs; a list has at most 4, at every depth together";
        return told_two(
            alloc,
            template,
            Piece::Number(number),
            Piece::Number(inputs),
        );
    }
    Ok(None)
}

/// What is wrong with a list among a task's arguments.
fn list_limits(alloc: Global, task: &TaskDraft, longest: u64) -> Found {
    let mut lists = 0u64;
    let mut last = 0u64;
    for (place, argument) in task.args.as_slice().iter().enumerate() {
        let number = (place as u64).saturating_add(1);
        if let Some(mistake) = list_mistake(alloc, argument, number)? {
            return Ok(Some(mistake));
        }
        if depth_of(argument) > 0 {
            lists = lists.saturating_add(1);
            last = number;
        }
    }
    let longest = Piece::Number(longest);
    match lists {
        0 => Ok(None),
        1 => told_two(
            alloc,
            "argument {} is a list that is larger than \"longest\", which is {}",
            Piece::Number(last),
            longest,
        ),
        _ => told_one(
            alloc,
            "an argument is a list that is larger than \"longest\", which is {}",
            longest,
        ),
    }
}

/// What is wrong with the numbers of an entry.
pub(crate) fn limit_mistake(alloc: Global, draft: &Draft, entry: u32) -> Found {
    let template = match entry_of(draft, entry) {
        Entry::Document => return document_limits(alloc, draft),
        Entry::Principal(_, _) => return Ok(None),
        Entry::Channel(_, _) => "there are at most {} channels",
        Entry::Input(_, _) => "there are at most {} inputs",
        Entry::Task(place, task) => return task_limits(alloc, draft, place, task),
    };
    told_one(
        alloc,
        template,
        Piece::Number(limits_in(draft).entries as u64),
    )
}
