//! Drafts: the parts of a policy's document as texts and numbers, before any of them is looked at.
use lio_values::{List, Text};

/// A channel or an input, as it is written.
#[derive(Drop)]
pub struct FileDraft {
    /// Its name.
    pub name: Text,
    /// Its label's text.
    pub label: Text,
    /// The name of its file.
    pub file: Text,
}

/// An argument of a task, as it is written.
#[derive(Drop)]
pub enum ArgDraft {
    /// The input with this name.
    Input(Text),
    /// The channel with this name.
    Channel(Text),
    /// A label's text.
    Label(Text),
    /// The text of a privilege's formula.
    Power(Text),
    Bytes(Text),
    Whole(i64),
    Flag(bool),
    Unit,
    /// A list of arguments, in the second version alone.
    Items(List<ArgDraft>),
}

/// A task, as it is written.
#[derive(Drop)]
pub struct TaskDraft {
    /// Its name.
    pub name: Text,
    /// The name of the procedure that it runs.
    pub proc_name: Text,
    /// Its label's text.
    pub label: Text,
    /// The text of the label that is its clearance.
    pub clearance: Text,
    /// How many turns it has.
    pub turns: u32,
    /// How many cells it has.
    pub cells: u32,
    /// What its procedure is called with.
    pub args: List<ArgDraft>,
}

/// A policy's document, as it is written.
#[derive(Drop)]
pub struct Draft {
    /// Its version; none for a negative one.
    pub version: Option<u64>,
    /// How many bytes a text may have; none for a negative number.
    pub longest: Option<u64>,
    /// The names of the principals.
    pub principals: List<Text>,
    /// The channels.
    pub channels: List<FileDraft>,
    /// The inputs.
    pub inputs: List<FileDraft>,
    /// The tasks.
    pub tasks: List<TaskDraft>,
}
