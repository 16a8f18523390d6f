//! How a task that is as an observer sees it goes on after its turn.
//!
//! Each goal has its answer, so no tactic is tried.
#![tactic(none)]

ghost use Rattle.std.specs.Prelude.{◌≡◌, IfOk, IsSome, OnOk, OnErr, false};
ghost use Rattle.lio_calculus.specs.Hiding.{hide_task};
ghost use Rattle.lio_task_turns.specs.StateOf.{program_of};
ghost use Rattle.lio_task.specs.Configuration.{cell_of};
ghost use Rattle.lio_task.specs.Next.{resumed};
ghost use Rattle.lio_task.specs.StateOf.{state_in};
ghost use Rattle.lio_erasure.specs.Acts.{hides};
ghost use Rattle.lio_erasure.specs.Turn.{CanGoOn, HasGoneOn};

use crate::acts::hides;
use lio_clauses::{NoMemory, assign};
use lio_labels::Label;
use lio_syntax::Script;
use lio_task::{Holder, Task};
use lio_values::{Act, Entry, Reply};
use std::alloc::Global;

/// A task after its turn, as an observer sees it.
fn gone(
    alloc: Global,
    task: &Task,
    script: &Script,
    longest: u32,
    observer: &Label,
    act: &Act,
    reply: &Reply,
) -> Result<Task, NoMemory>
    ensures { IfOk result (λ gone. state_in script.now gone ≡ hide_task observer.now (resumed
        (program_of script.now longest) (state_in script.now task.now) act.now reply.now)) }
{
    let mut gone = task.copy(alloc)?;
    if let Err(error) = gone.resume(alloc, script, longest, act, reply) {
        drop(gone);
        return Err(error);
    }
    let erased = gone.erase(alloc, observer);
    drop(gone);
    erased
}

/// Lets a task go on after its turn, as an observer sees it. It does so in place, unless the act
/// hides a value. After a refusal it is as before.
fn go_on(
    alloc: Global,
    task: &mut Task,
    script: &Script,
    longest: u32,
    observer: &Label,
    act: &Act,
    reply: &Reply,
) -> Result<(), NoMemory>
    requires { let went = resumed (program_of script.now longest)
        (state_in script.now task.old) act.now reply.now in
        hides observer.now act.now ≡ false → hide_task observer.now went ≡ went }
    ensures ok { OnOk result (state_in script.now task.new ≡ hide_task observer.now (resumed
        (program_of script.now longest) (state_in script.now task.old) act.now reply.now)) }
    ensures err { OnErr result (state_in script.now task.new ≡ state_in script.now task.old) }
{
    if !hides(act, observer) {
        return task.resume(alloc, script, longest, act, reply);
    }
    let gone = gone(alloc, task, script, longest, observer, act, reply)?;
    assign(task, gone);
    Ok(())
}

/// Lets the task of a holder go on after the turn with this entry, as an observer sees it. After a
/// refusal it is as before.
pub(crate) fn advance(
    alloc: Global,
    holder: &mut Holder,
    script: &Script,
    longest: u32,
    observer: &Label,
    entry: &Entry,
) -> Result<(), NoMemory>
    requires { CanGoOn observer.now (program_of script.now longest)
        (cell_of script.now holder.old) entry.now.act entry.now.reply }
    ensures ok { OnOk result (HasGoneOn observer.now
        (program_of script.now longest) (cell_of script.now holder.old)
        (cell_of script.now holder.new) entry.now.act entry.now.reply) }
    ensures err { OnErr result (cell_of script.now holder.new ≡ cell_of script.now holder.old) }
    ensures node { holder.new.node ≡ holder.old.node }
    ensures there { IsSome holder.new.task }
{
    let Some(task) = &mut holder.task else {
        unreachable!()
    };
    go_on(
        alloc,
        task,
        script,
        longest,
        observer,
        &entry.act,
        &entry.reply,
    )
}
