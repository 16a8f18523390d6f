//! The turn of a statement or of its access, and how the task goes on after it.
use lio_clauses::NoMemory;
use lio_labels::Label;
use lio_task_control::Environment;
use lio_values::{Act, Content, Fault, Handle, Held, Name, Plain, Reply, Value};

/// The turn of a statement that opens no block, or of its access.
#[derive(Drop)]
pub enum Turn<'s> {
    /// A step that concerns the task alone.
    Step(Onward<'s>),
    /// An act that meets no other node, and its reply.
    Own(Act, Reply, Onward<'s>),
    /// An act that meets a node.
    Visit(Act, Target, Onward<'s>),
}

/// The turn of a statement or of its access, or out of memory.
pub type Attempt<'s> = Result<Turn<'s>, NoMemory>;

/// The node that a turn meets: that of a handle, or the one that is to be made at a number.
#[derive(Drop)]
pub enum Target {
    /// A reference.
    Reference(Handle),
    /// A variable.
    Variable(Handle),
    /// A channel.
    Channel(Handle),
    /// The result of a task.
    Result(Handle),
    /// The node that is made at this number.
    New(u32),
}

/// How a task goes on after the turn of a statement or of its access.
#[derive(Drop)]
pub enum Onward<'s> {
    /// With what comes next.
    Advance,
    /// The name is bound to the value.
    Bind(&'s Name, Value),
    /// The name is bound to the plain value, sealed under the label.
    Seal(&'s Name, Label, Held<Plain>),
    /// With the body of the procedure that the line at a place begins, in this environment; the
    /// name is bound to what it returns.
    Call(&'s Name, Environment, usize),
    /// With the caller, to which the value is returned.
    Return(Value),
    /// At the raised label.
    Raise(Label),
    /// At the raised label, with the access of the statement.
    RaiseTo(Label),
    /// At the first label, with the content, which was sealed under the second, bound to the name,
    /// or thrown.
    Unlabel(&'s Name, Label, Held<Label>, Held<Content>),
    /// With the lower clearance.
    Lower(Label),
    /// The name is bound to the content that was released, sealed under the label.
    Release(&'s Name, Label),
    /// At the raised label, with the content that was exposed bound to the name, or thrown.
    Expose(&'s Name, Label),
    /// The name is bound to the handle of the new reference.
    HoldReference(&'s Name, Label),
    /// The name is bound to the handle of the new variable.
    HoldVariable(&'s Name, Label),
    /// The name is bound to the handle of the child's result; that many more numbers and that many
    /// turns went to the child.
    Fork(&'s Name, Label, u32, u32),
    /// That many more numbers and that many turns went to the child.
    Spawn(u32, u32),
    /// The name is bound to what was got or told, or the fault that was told is thrown.
    BindReply(&'s Name),
    /// With the nearest handler of the fault.
    Throw(Held<Fault>),
    /// Not at all.
    End,
}

impl<'s> Turn<'s> {
    ghost use Rattle.std.specs.Prelude.{◌≡◌};
    ghost use Rattle.lio_task_turns.specs.Turns.{act_in, onward_in};

    /// What it does.
    pub(crate) fn act(self) -> Act
        ensures { result ≡ act_in self.entry }
    {
        match self {
            Turn::Step(onward) => {
                drop(onward);
                Act::Step
            }
            Turn::Own(act, reply, onward) => {
                drop(reply);
                drop(onward);
                act
            }
            Turn::Visit(act, target, onward) => {
                drop(target);
                drop(onward);
                act
            }
        }
    }

    /// How the task goes on.
    pub fn onward(self) -> Onward<'s>
        ensures { result ≡ onward_in self.entry }
    {
        match self {
            Turn::Step(onward) => onward,
            Turn::Own(act, reply, onward) => {
                drop(act);
                drop(reply);
                onward
            }
            Turn::Visit(act, target, onward) => {
                drop(act);
                drop(target);
                onward
            }
        }
    }
}

impl Target {
    ghost use Rattle.std.specs.Prelude.{◌≡◌};
    ghost use Rattle.lio_calculus.specs.Step.{number_of};
    ghost use Rattle.lio_task_turns.specs.Turns.{target_of};

    /// The number of the node.
    pub fn number(&self) -> u32
        ensures { result ≡ number_of (target_of self.now) }
    {
        match self {
            Target::Reference(handle) => handle.number,
            Target::Variable(handle) => handle.number,
            Target::Channel(handle) => handle.number,
            Target::Result(handle) => handle.number,
            Target::New(number) => *number,
        }
    }
}
