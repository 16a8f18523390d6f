//! Tasks that can't begin.

use crate::program::Program;
use lio_clauses::NoMemory;
use lio_front::Shown;
use lio_messages_hints::{Message, Piece, is_procedure_name, similar_procedure};
use lio_policy::Policy;
use lio_syntax::parameter_count;
use lio_values::Text;
use std::alloc::Global;

/// A task that can't begin: its name, its procedure, how many arguments it gives, how many
/// parameters the procedure has, if it is there, and which near to it is there, if one is.
#[derive(Drop)]
pub struct WrongTask {
    name: Text,
    procedure: Text,
    given: usize,
    wanted: Option<usize>,
    meant: Option<Text>,
}

/// A task of a policy that can't begin in a script, if there is one at that place.
pub(crate) fn wrong_task(
    alloc: Global,
    policy: &Policy,
    script: &[u8],
    place: u32,
) -> Result<Option<WrongTask>, NoMemory> {
    let Some(task) = policy.tasks.as_slice().get(place as usize) else {
        return Ok(None);
    };
    let meant = match similar_procedure(script, task.proc_name.bytes()) {
        Some(name) => Some(Text::of(alloc, name)?),
        None => None,
    };
    Ok(Some(WrongTask {
        meant,
        name: task.name.copy(alloc)?,
        procedure: task.proc_name.copy(alloc)?,
        given: task.args.as_slice().len(),
        wanted: parameter_count(alloc, script, task.proc_name.bytes())?,
    }))
}

/// Tells what helps an observer.
fn tell_observer(message: &mut Message, program: Program) {
    if program == Program::Observer {
        message.words("; give the script of the run");
    }
}

/// Tells of some task that can't begin.
pub(crate) fn tell_some_task(message: &mut Message, program: Program, policy: &str) {
    message.words(policy);
    message.words(
        ": a task names a procedure of the script, and gives it as many arguments as it has parameters",
    );
    tell_observer(message, program);
}

/// Tells of a task whose procedure isn't there.
fn tell_no_procedure(message: &mut Message, program: Program, script: &str, task: &WrongTask) {
    message.words(" runs the procedure `");
    message.show(Shown(&task.procedure));
    message.words("`, which ");
    message.words(script);
    message.words(" doesn't have");
    if program != Program::Observer {
        tell_other_procedure(message, task);
    }
}

/// Tells which procedure may have been meant by one that isn't there, or what makes it be there.
fn tell_other_procedure(message: &mut Message, task: &WrongTask) {
    if let Some(meant) = &task.meant {
        message.words("; it has `");
        message.show(Shown(meant));
        message.words("`");
    } else if is_procedure_name(task.procedure.bytes()) {
        message.words("; add a line `proc ");
        message.show(Shown(&task.procedure));
        message.words("`, or name another procedure");
    } else {
        message.words("; no procedure can be named so");
    }
}

/// Tells of a task that can't begin.
pub(crate) fn tell_task(
    message: &mut Message,
    program: Program,
    policy: &str,
    script: &str,
    task: &WrongTask,
) {
    message.words(policy);
    message.words(": task \"");
    message.show(Shown(&task.name));
    message.words("\"");
    match task.wanted {
        None => tell_no_procedure(message, program, script, task),
        Some(wanted) => {
            message.words(" doesn't fit `");
            message.show(Shown(&task.procedure));
            message.fill(
                "` of {}; parameters: {}, arguments: {}",
                Piece::Words(script),
                Piece::Number(wanted as u64),
                Piece::Number(task.given as u64),
            );
        }
    }
    tell_observer(message, program);
}
