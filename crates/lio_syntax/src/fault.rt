//! Why a script isn't read.
use lio_clauses::NoMemory;
use thiserror::Error;

/// Why a script isn't read.
#[derive(Debug, Clone, Copy, PartialEq, Eq, Error)]
pub enum ScriptFault {
    /// The line, counted from 1, breaks the rule; line 0 where the text is too long.
    #[error("line {line} breaks rule {rule}")]
    Bad { line: u32, rule: u32 },
    /// Memory was refused.
    #[error("out of memory")]
    NoMemory,
}

impl From<NoMemory> for ScriptFault {
    ghost use Rattle.std.specs.Prelude.{◌≡◌};
    ghost use Rattle.lio_syntax.specs.declared.fault.ScriptFault.TheVariants.{NoMemory as without_memory};

    ghost from_gives = { λ _ fault. fault ≡ without_memory };

    fn from(_cause: NoMemory) -> ScriptFault {
        ScriptFault::NoMemory
    }
}
