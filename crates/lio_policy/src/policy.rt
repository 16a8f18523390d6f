//! Policies.
use lio_clauses::Names;
use lio_labels::Label;
use lio_values::{List, Plain, Text};
use std::marker::Model;

/// A channel or an input: its name, its label, and the file that it is written to or read from.
#[derive(Debug, Drop)]
pub struct FileEntry {
    /// Its name: 1 to 32 bytes.
    pub name: Text,
    /// Its label.
    pub label: Label,
    /// The name of its file: 1 to 255 bytes.
    pub file: Text,
}

/// An argument of a task.
#[derive(Drop)]
pub enum Arg {
    /// The input with this number.
    Input(u32),
    Fixed(Plain),
    /// A list of arguments, in version 2 alone.
    Items(Args),
}

/// A task: the procedure that it runs, its label and clearance, and the turns, cells and arguments
/// that it is given.
#[derive(Drop)]
pub struct TaskEntry {
    /// Its name: 1 to 32 bytes.
    pub name: Text,
    /// The name of the procedure that it runs.
    pub proc_name: Text,
    /// The label at which it begins.
    pub label: Label,
    /// Its clearance, above which its label never rises.
    pub clearance: Label,
    /// How many turns it has, those of its children among them.
    pub turns: u32,
    /// How many cells it has: a reference and a variable take one, a child one and those that it is
    /// given.
    pub cells: u32,
    /// What its procedure is called with, at most 8.
    pub args: Args,
}

/// A policy: its version, the longest text, the principals, the channels and inputs, and the tasks.
/// Its type keeps the rules on its version, names, labels, flow, arguments, limits and files
/// (`IsPolicy`), which a proof learns where the code reads a field.
#[derive(Drop)]
pub struct Policy {
    /// Its version: 1 or 2.
    pub version: u32,
    /// How many bytes a text may have: 1 to 65,536, and in version 2 to 262,144.
    pub longest: u32,
    /// The principals, at most 64.
    pub names: Names,
    /// The channels, at most 256, and in version 2 at most 1,024.
    pub channels: FileEntries,
    /// The inputs, as many.
    pub inputs: FileEntries,
    /// The tasks, as many.
    pub tasks: TaskEntries,
}

impl Model for Policy {
    ghost use Rattle.lio_policy.specs.Policy.{PolicyParts, IsPolicy};

    ghost Value = { PolicyParts };

    ghost use Rattle.std.specs.Coded.{codes};
    ghost use Rattle.lio_policy.specs.contracts.policy.Arg as arguments;

    ghost coded = { Prim.hlevel (codes, arguments.the_row.coded) };

    ghost view = { λ p. record {
      version = p.version;
      longest = p.longest;
      names = p.names;
      channels = p.channels;
      inputs = p.inputs;
      tasks = p.tasks;
    } };

    ghost invariant = { λ p. IsPolicy (record {
      version = p.version;
      longest = p.longest;
      names = p.names;
      channels = p.channels;
      inputs = p.inputs;
      tasks = p.tasks;
    }) };
}

/// A list of arguments.
pub type Args = List<Arg>;

/// A list of channels or inputs.
pub type FileEntries = List<FileEntry>;

/// A list of tasks.
pub type TaskEntries = List<TaskEntry>;
