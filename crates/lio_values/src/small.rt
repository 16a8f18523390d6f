//! Values and faults that take no memory.
ghost use Rattle.std.specs.Prelude.{◌≡◌};
ghost use Rattle.lio_values.specs.Small.{plain_of, kind_of, small_of};

use crate::fault::FaultKind;
use crate::value::Plain;

/// A plain value that takes no memory, so that it is copied.
#[derive(Clone, Copy)]
pub enum Small {
    /// The value that says nothing.
    Unit,
    /// A truth value.
    Flag(bool),
    /// A number of 64 bits with a sign.
    Whole(i64),
}

/// A kind of fault that operators and conditions give without memory: it keeps nothing, so that it
/// is copied.
#[derive(Clone, Copy)]
pub enum Trap {
    /// An operand isn't bound, or isn't of the needed kind.
    BadType,
    /// The number isn't of 64 bits with sign.
    Overflow,
    /// A division by zero.
    DivZero,
}

impl Small {
    /// The small value that a plain value is, if it is one.
    #[inline(always)]
    pub fn of(plain: &Plain) -> Option<Small>
        ensures { result ≡ small_of plain.now }
    {
        match plain {
            Plain::Unit => Some(Small::Unit),
            Plain::Flag(flag) => Some(Small::Flag(*flag)),
            Plain::Whole(number) => Some(Small::Whole(*number)),
            _ => None,
        }
    }

    /// The plain value that it is.
    #[inline(always)]
    pub fn plain(self) -> Plain
        ensures { result ≡ plain_of self }
    {
        match self {
            Small::Unit => Plain::Unit,
            Small::Flag(flag) => Plain::Flag(flag),
            Small::Whole(number) => Plain::Whole(number),
        }
    }
}

impl Trap {
    /// The kind of fault that it is.
    #[inline(always)]
    pub fn kind(self) -> FaultKind
        ensures { result ≡ kind_of self }
    {
        match self {
            Trap::BadType => FaultKind::BadType,
            Trap::Overflow => FaultKind::Overflow,
            Trap::DivZero => FaultKind::DivZero,
        }
    }
}
