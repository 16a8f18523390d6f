//! Why a line isn't read.
use lio_clauses::NoMemory;

/// Why a line isn't read.
#[derive(Clone, Copy, PartialEq, Eq)]
pub(crate) enum LineFault {
    /// It is none of the forms.
    Invalid,
    /// Memory was refused.
    NoMemory,
}

impl From<NoMemory> for LineFault {
    ghost use Rattle.std.specs.Prelude.{◌≡◌};
    ghost use Rattle.lio_syntax_lines.specs.declared.fault.LineFault.TheVariants.{NoMemory as without_memory};

    ghost from_gives = { λ _ fault. fault ≡ without_memory };

    fn from(_cause: NoMemory) -> LineFault {
        LineFault::NoMemory
    }
}
