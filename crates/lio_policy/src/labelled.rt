//! Tasks whose labels and formulas are read, and whose names are not looked up yet.
use lio_labels::Label;
use lio_values::{List, Plain, Text};

/// An argument of a task whose label or formula is read.
#[derive(Drop)]
pub enum LabelledArg {
    /// The input with this name.
    Input(Text),
    /// The channel with this name.
    Channel(Text),
    Fixed(Plain),
    /// A list of arguments.
    Items(List<LabelledArg>),
}

/// A task whose labels and formulas are read.
#[derive(Drop)]
pub struct LabelledTask {
    pub name: Text,
    pub proc_name: Text,
    pub label: Label,
    pub clearance: Label,
    pub turns: u32,
    pub cells: u32,
    pub args: List<LabelledArg>,
}
