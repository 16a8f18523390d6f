//! The answers: how a call of a program, or a step of one, ended.

ghost use Rattle.std.specs.Prelude.{◌≡◌};

use crate::shown::Shown;
use lio_clauses::{NoMemory, TextFault};
use lio_outside::SayFault;
use lio_policy_draft::PolicyFault;
use lio_start::StartFault;
use lio_syntax::ScriptFault;
use lio_values::Text;
use std::fmt;

/// How a call of a program ended. Each program's contract says which of these it gives; of a step
/// of one those alone come that refuse it.
#[derive(Debug, PartialEq, Drop)]
pub enum Status {
    /// What the words ask for was done, and that was said.
    Done,
    /// The words give no command, or the observer's label is none over the policy's principals.
    BadWords,
    /// No file has this name.
    Missing(Text),
    /// The file with this name couldn't be read.
    ReadFault(Text),
    /// The lowest rule that the policy breaks, and the lowest entry at which it does; entry 0 is
    /// the document.
    BadPolicy(u32, u32),
    /// The first line of the script that breaks a rule, and the lowest rule that it breaks; line 0
    /// where the script is too long.
    BadScript(u32, u32),
    /// The place of the first task of the policy that can't begin in the script, from 0, and why.
    BadStart(u32, StartFault),
    /// The file with this name couldn't be written.
    WriteFault(Text),
    /// What the words ask for was done, and that couldn't be said.
    SayFault,
    /// No memory was left.
    NoMemory,
    /// The first line, from 1, at which the history that is to be taken again isn't that of a run;
    /// line 0 where it is too long.
    NotARun(u32),
    /// The first file to be written whose name is that of a file that is read, or of one that is
    /// written before.
    Clash(Text),
    /// The first line, from 1, that isn't that of a turn that the observer can see next, or that is
    /// missing though a task can take a turn; 0 where there are too many bytes.
    NotAView(u32),
}

impl From<NoMemory> for Status {
    ghost use Rattle.lio_front.specs.declared.status.Status.TheVariants.{NoMemory as without_memory};

    ghost from_gives = { λ _ status. status ≡ without_memory };

    fn from(_cause: NoMemory) -> Status {
        Status::NoMemory
    }
}

impl From<TextFault> for Status {
    ghost use Rattle.lio_front.specs.Status.{of_label};

    ghost from_gives = { λ cause status. status ≡ of_label cause };

    fn from(cause: TextFault) -> Status {
        match cause {
            TextFault::BadText(_) | TextFault::Unknown(_) | TextFault::Wide => Status::BadWords,
            TextFault::NoMemory => Status::NoMemory,
        }
    }
}

impl From<PolicyFault> for Status {
    ghost use Rattle.lio_front.specs.Status.{of_policy};

    ghost from_gives = { λ cause status. status ≡ of_policy cause };

    fn from(cause: PolicyFault) -> Status {
        match cause {
            PolicyFault::Bad { rule, entry } => Status::BadPolicy(rule, entry),
            PolicyFault::NoMemory => Status::NoMemory,
        }
    }
}

impl From<ScriptFault> for Status {
    ghost use Rattle.lio_front.specs.Status.{of_script};

    ghost from_gives = { λ cause status. status ≡ of_script cause };

    fn from(cause: ScriptFault) -> Status {
        match cause {
            ScriptFault::Bad { line, rule } => Status::BadScript(line, rule),
            ScriptFault::NoMemory => Status::NoMemory,
        }
    }
}

impl From<StartFault> for Status {
    ghost use Rattle.lio_front.specs.Status.{of_start};

    ghost from_gives = { λ cause status. status ≡ of_start cause };

    fn from(cause: StartFault) -> Status {
        match cause {
            StartFault::NoProc(place) => Status::BadStart(place, cause),
            StartFault::Arity(place) => Status::BadStart(place, cause),
        }
    }
}

impl From<SayFault> for Status {
    ghost use Rattle.lio_front.specs.Status.{of_say};

    ghost from_gives = { λ cause status. status ≡ of_say cause };

    fn from(cause: SayFault) -> Status {
        match cause {
            SayFault::Failed => Status::SayFault,
            SayFault::NoMemory => Status::NoMemory,
        }
    }
}

impl Status {
    ghost use Rattle.std.specs.Prelude.{◌≡◌};
    ghost use Rattle.lio_front.specs.Status.{exit_status};

    /// The exit status of a program that ends with the answer.
    pub fn number(&self) -> u8
        ensures { result ≡ exit_status self.now }
    {
        match self {
            Status::Done => 0,
            Status::BadWords => 1,
            Status::Missing(_) => 2,
            Status::ReadFault(_) => 3,
            Status::BadPolicy(_, _) => 4,
            Status::BadScript(_, _) => 5,
            Status::BadStart(_, _) => 6,
            Status::WriteFault(_) => 7,
            Status::SayFault => 8,
            Status::NoMemory => 9,
            Status::NotARun(_) => 10,
            Status::Clash(_) => 11,
            Status::NotAView(_) => 12,
        }
    }
}

impl fmt::Display for Status {
    fn fmt<W: fmt::Write>(&self, f: &mut fmt::Formatter<W>) -> fmt::Result {
        match self {
            Status::Done => f.write_str("Done"),
            Status::BadWords => f.write_str("BadWords"),
            Status::Missing(name) => {
                let name = Shown(name);
                write!(f, "Missing({name})")
            }
            Status::ReadFault(name) => {
                let name = Shown(name);
                write!(f, "ReadFault({name})")
            }
            Status::BadPolicy(rule, entry) => write!(f, "BadPolicy({rule}, {entry})"),
            Status::BadScript(line, rule) => write!(f, "BadScript({line}, {rule})"),
            Status::BadStart(task, StartFault::NoProc(place)) => {
                write!(f, "BadStart({task}, NoProc({place}))")
            }
            Status::BadStart(task, StartFault::Arity(place)) => {
                write!(f, "BadStart({task}, Arity({place}))")
            }
            Status::WriteFault(name) => {
                let name = Shown(name);
                write!(f, "WriteFault({name})")
            }
            Status::SayFault => f.write_str("SayFault"),
            Status::NoMemory => f.write_str("NoMemory"),
            Status::NotARun(line) => write!(f, "NotARun({line})"),
            Status::Clash(name) => {
                let name = Shown(name);
                write!(f, "Clash({name})")
            }
            Status::NotAView(line) => write!(f, "NotAView({line})"),
        }
    }
}
