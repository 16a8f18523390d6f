//! What a task's next turn does, told without memory.
use lio_syntax_lines::Simple;
use lio_values::{Name, Small, Trap};

/// What a task's next turn does. It takes no memory and is copied: what a turn needs of values is
/// copied when it is taken.
#[derive(Clone, Copy)]
pub enum Plan<'s> {
    /// Nothing: the task has ended.
    Over,
    /// A short step of its own.
    Short(Short<'s>),
    /// The end of the task.
    Ends(Ending),
    /// A refused step, or a turn that is planned in full when it is taken.
    Full(Full<'s>),
}

/// A step of a task's own that takes no memory, but where it binds a new name.
#[derive(Clone, Copy)]
pub enum Short<'s> {
    /// A step of control.
    Control(Control),
    /// The name is bound to the value.
    Set(&'s Name, Small),
}

/// A step of control.
#[derive(Clone, Copy)]
pub enum Control {
    /// Past the mark of a block whose faults were caught, or past a loop whose condition doesn't
    /// hold.
    Pass,
    /// Into the block of an `if`, a `while` or a `try`.
    Enter,
    /// Into the block of an `else`, or past an `if` without one.
    EnterOther,
    /// Back to the caller, since the procedure's body is done.
    Leave,
}

/// Why a task ends that comes to no statement.
#[derive(Clone, Copy)]
pub enum Ending {
    /// It has no turn left.
    Exhausted,
    /// It has nothing left to do, or nothing caught a fault.
    Done,
}

/// A refused step, or the turn of a statement or of its access, which is planned in full when it is
/// taken.
#[derive(Clone, Copy)]
pub enum Full<'s> {
    /// A step that is refused with a fault of this kind.
    Refused(Trap),
    /// The turn of a statement that opens no block.
    Statement(&'s Simple),
    /// The turn of the access of a statement whose raise is done.
    Access(&'s Simple),
}
