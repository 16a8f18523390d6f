//! The workload as a whole.
#![tactic(auto, unfolding(crate::specs::Generated::script_text))]

ghost use Rattle.std.specs.Prelude.{◌≡◌, ◌≤◌, IfOk};
ghost use Rattle.lio_host_main.specs.Generated.{made, script_text};

use crate::workload::inputs::make_inputs;
use crate::workload::policy::make_policy;
use lio_clauses::NoMemory;
use lio_values::{List, Text};
use std::alloc::Global;

/// The texts of a workload.
#[derive(Drop)]
pub struct Made {
    /// The policy, with `inputs.len()` inputs and as many tasks.
    pub policy: Text,
    /// The script that the tasks run.
    pub script: Text,
    /// The inputs, in the policy's order.
    pub inputs: List<Text>,
}

/// The script: a task's main procedure forks a child that sends the task's input byte by byte,
/// waits for it and sends one byte more.
fn make_script(alloc: Global) -> Result<Text, NoMemory>
    ensures { IfOk result (λ script. script ≡ script_text) }
{
    let mut script = Vec::from_slice(
        alloc,
        b"proc main v c l\nfork r l 306 0 child v c\nwait n r\nsend c \".\"\nend\n",
    )?;
    script.extend_from_slice(
        b"proc child v c\nunlabel t v\nlet n = len t\nlet i = 0\nlet go = i < n\nwhile go\n",
    )?;
    script.extend_from_slice(
        b"let b = t from i\nlet b = b upto 1\nsend c b\nlet i = i + 1\nlet go = i < n\nend\nreturn n\nend\n",
    )?;
    Text::of_vec(alloc, script)
}

/// The workload of a size: eight principals with a channel each, `count` inputs, and as many tasks,
/// each of which sends its input to its owner's channel byte by byte through a child. Tasks are
/// independent of each other.
pub fn make(alloc: Global, count: u32) -> Result<Made, NoMemory>
    requires some { 1 ≤ count }
    requires most { count ≤ 256 }
    ensures { IfOk result (λ made_texts. made_texts ≡ made count) }
{
    let policy = make_policy(alloc, count)?;
    let script = make_script(alloc)?;
    let inputs = make_inputs(alloc, count)?;
    Ok(Made {
        policy,
        script,
        inputs,
    })
}
