//! Equal configurations.
ghost use Rattle.std.specs.Prelude.{◌≡◌, IfOk, List};
ghost use Rattle.std.specs.Option.{option_map};
ghost use Rattle.lio_syntax.specs.Statements.{Procedure};
ghost use Rattle.lio_task.specs.StateOf.{state_in};

use crate::config::{Config, Holder};
use crate::task::Task;
use lio_clauses::NoMemory;
use std::alloc::Global;

/// An equal task, if there is one.
fn copy_task(alloc: Global, task: &Option<Task>) -> Result<Option<Task>, NoMemory>
    ensures { IfOk result (λ copy. (script : List Procedure)
        → option_map (state_in script) copy ≡ option_map (state_in script) task.now) }
{
    match task {
        Some(task) => Ok(Some(task.copy(alloc)?)),
        None => Ok(None),
    }
}

impl Holder {
    ghost use Rattle.std.specs.Prelude.{◌≡◌, IfOk, List};
    ghost use Rattle.lio_syntax.specs.Statements.{Procedure};
    ghost use Rattle.lio_cells.specs.Node.{at_rest};
    ghost use Rattle.lio_task.specs.Configuration.{cell_of};

    /// A holder of an equal node, which keeps nothing ready, and of an equal task.
    pub fn copy(&self, alloc: Global) -> Result<Holder, NoMemory>
        ensures cell { IfOk result (λ holder. (script : List Procedure)
            → cell_of script holder ≡ cell_of script self.now) }
        ensures node { IfOk result (λ holder. holder.node ≡ at_rest self.now.node) }
    {
        let node = self.node.copy(alloc)?;
        match copy_task(alloc, &self.task) {
            Ok(task) => Ok(Holder { node, task }),
            Err(error) => {
                drop(node);
                Err(error)
            }
        }
    }
}

impl Config {
    ghost use Rattle.std.specs.Prelude.{◌≡◌, IfOk, List};
    ghost use Rattle.lio_syntax.specs.Statements.{Procedure};
    ghost use Rattle.std.specs.Prelude.{map};
    ghost use Rattle.lio_cells.specs.Node.{at_rest};
    ghost use Rattle.lio_task.specs.Configuration.{configuration_of};
    ghost use Rattle.lio_task.specs.Logs.{nodes_of};

    /// An equal configuration, whose nodes have the same logs and waiters, and keep nothing ready.
    pub fn copy(&self, alloc: Global) -> Result<Config, NoMemory>
        ensures configuration { IfOk result (λ config. (script : List Procedure)
            → configuration_of script config ≡ configuration_of script self.now) }
        ensures nodes { IfOk result (λ config. nodes_of config
            ≡ map at_rest (nodes_of self.now)) }
    {
        let mut holders = Vec::new(alloc);
        for holder in &self.holders {
            holders.push(holder.copy(alloc)?)?;
        }
        Ok(Config {
            holders,
            longest: self.longest,
        })
    }
}
