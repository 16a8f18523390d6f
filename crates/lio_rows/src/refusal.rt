//! Why a command has no answer.

use lio_clauses::{NoMemory, TextFault};
use lio_policy_draft::PolicyFault;
use lio_rows_commands::Answer;
use lio_rows_fields::FieldFault;
use lio_start::StartFault;
use lio_syntax::ScriptFault;
use std::alloc::AllocError;
use std::fmt;

/// Why a command has no answer.
#[derive(Drop)]
pub enum Refusal {
    /// As a command on the list of principals is refused.
    Lower(lio_rows_commands::Refusal),
    /// The rule that a policy breaks, and the entry.
    BadPolicy(u32, u32),
    /// The line of a script that breaks a rule, and the rule.
    BadScript(u32, u32),
    /// The place of a task that can't begin, and why.
    BadStart(u32, StartFault),
    /// Another number of inputs than the policy has.
    Inputs,
}

/// What is answered where the command is one of a group; none where it is no command of the group.
pub type Answered = Option<Result<Answer, Refusal>>;

impl fmt::Display for Refusal {
    fn fmt<W: fmt::Write>(&self, f: &mut fmt::Formatter<W>) -> fmt::Result {
        match self {
            Refusal::Lower(refusal) => write!(f, "{refusal}"),
            Refusal::BadPolicy(rule, entry) => write!(f, "BadPolicy({rule}, {entry})"),
            Refusal::BadScript(line, rule) => write!(f, "BadScript({line}, {rule})"),
            Refusal::BadStart(place, fault) => write!(f, "BadStart({place}, {fault:?})"),
            Refusal::Inputs => f.write_str("inputs"),
        }
    }
}

impl From<lio_rows_commands::Refusal> for Refusal {
    fn from(refusal: lio_rows_commands::Refusal) -> Refusal {
        Refusal::Lower(refusal)
    }
}

impl From<TextFault> for Refusal {
    fn from(fault: TextFault) -> Refusal {
        Refusal::Lower(lio_rows_commands::Refusal::from(fault))
    }
}

impl From<FieldFault> for Refusal {
    fn from(fault: FieldFault) -> Refusal {
        Refusal::Lower(lio_rows_commands::Refusal::from(fault))
    }
}

impl From<NoMemory> for Refusal {
    fn from(fault: NoMemory) -> Refusal {
        Refusal::Lower(lio_rows_commands::Refusal::from(fault))
    }
}

impl From<AllocError> for Refusal {
    fn from(fault: AllocError) -> Refusal {
        Refusal::Lower(lio_rows_commands::Refusal::from(fault))
    }
}

impl From<PolicyFault> for Refusal {
    fn from(fault: PolicyFault) -> Refusal {
        match fault {
            PolicyFault::Bad { rule, entry } => Refusal::BadPolicy(rule, entry),
            PolicyFault::NoMemory => Refusal::from(NoMemory),
        }
    }
}

impl From<ScriptFault> for Refusal {
    fn from(fault: ScriptFault) -> Refusal {
        match fault {
            ScriptFault::Bad { line, rule } => Refusal::BadScript(line, rule),
            ScriptFault::NoMemory => Refusal::from(NoMemory),
        }
    }
}

impl From<StartFault> for Refusal {
    fn from(fault: StartFault) -> Refusal {
        match fault {
            StartFault::NoProc(place) => Refusal::BadStart(place, fault),
            StartFault::Arity(place) => Refusal::BadStart(place, fault),
        }
    }
}
