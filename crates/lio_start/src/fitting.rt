//! Whether the tasks of a policy fit a script.
ghost use Rattle.std.specs.Prelude.{◌≡◌, ◌<◌, ◌≤◌, length, slice_get};
ghost use Rattle.lio_start.specs.Fits as spec;
ghost use Rattle.lio_start.specs.Fits.{fault_of, parameter_count};

use crate::fault::StartFault;
use lio_policy::{Policy, TaskEntry};
use lio_syntax::Script;
use lio_syntax_lines::Line;

/// How many parameters the procedure with this number has.
fn parameter_count(script: &Script, number: usize) -> usize
    requires { number < length script.now }
    ensures { result ≡ parameter_count (slice_get script.now number) }
{
    match &script.lines()[script.procedure_line(number)] {
        Line::Proc(_, parameters) => parameters.as_slice().len(),
        _ => 0,
    }
}

/// Why the task at a place can't begin in a script, if it can't.
fn fault_of(place: u32, task: &TaskEntry, script: &Script) -> Option<StartFault>
    ensures { result ≡ fault_of script.now place task.now }
{
    match script.procedure_number(task.proc_name.bytes()) {
        None => Some(StartFault::NoProc(place)),
        Some(number) => {
            if parameter_count(script, number) == task.args.as_slice().len() {
                None
            } else {
                Some(StartFault::Arity(place))
            }
        }
    }
}

/// Why the first of these tasks that can't begin in a script can't, with its place.
fn first_fault(tasks: &[TaskEntry], script: &Script) -> Option<StartFault>
    requires { length tasks.now ≤ 1024 }
    ensures { result ≡ spec.fits tasks.now script.now }
{
    let mut place = 0;
    for task in tasks {
        if let Some(fault) = fault_of(place, task, script) {
            return Some(fault);
        }
        place += 1;
    }
    None
}

/// Why the first task of a policy that can't begin in a script can't, with its place from 0; none
/// where all can.
pub fn fits(policy: &Policy, script: &Script) -> Option<StartFault>
    ensures { result ≡ spec.fits policy.now.tasks script.now }
{
    first_fault(policy.tasks.as_slice(), script)
}
