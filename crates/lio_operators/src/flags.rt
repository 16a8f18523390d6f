//! Operators on two flags, and on two units.
ghost use Rattle.std.specs.Prelude.{◌≡◌};
ghost use Rattle.lio_operators.specs.Flags as spec;
ghost use Rattle.lio_operators.specs.Outcomes.{given_by};

use lio_syntax_lines::Two;
use lio_values::{Small, Trap};

/// An operator on two flags.
#[inline(always)]
pub(crate) fn on_flags(op: Two, a: bool, b: bool) -> Result<Small, Trap>
    ensures { given_by result ≡ spec.on_flags op a b }
{
    match op {
        Two::Eq => Ok(Small::Flag(a == b)),
        Two::Ne => Ok(Small::Flag(a != b)),
        Two::And => Ok(Small::Flag(a && b)),
        Two::Or => Ok(Small::Flag(a || b)),
        _ => Err(Trap::BadType),
    }
}

/// An operator on two units.
#[inline(always)]
pub(crate) fn on_units(op: Two) -> Result<Small, Trap>
    ensures { given_by result ≡ spec.on_units op }
{
    match op {
        Two::Eq => Ok(Small::Flag(true)),
        Two::Ne => Ok(Small::Flag(false)),
        _ => Err(Trap::BadType),
    }
}
