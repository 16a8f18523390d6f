//! What operands stand for, and what they are to be.

use lio_syntax_lines::Operand;
use lio_task_control::Environment;
use lio_values::{Plain, Value};

/// What an operand stands for.
#[derive(Clone, Copy)]
pub(crate) enum Seen<'a> {
    /// Nothing: its name isn't bound.
    Unbound,
    /// A sealed value.
    Sealed,
    /// A plain value.
    Plain(&'a Plain),
}

/// A kind of value.
#[derive(Clone, Copy, PartialEq, Eq)]
pub(crate) enum Kind {
    Unit,
    Flag,
    Whole,
    Text,
    Label,
    Privilege,
    Reference,
    Variable,
    TaskResult,
    Channel,
    List,
    Sealed,
}

/// What an operand is to be.
#[derive(Clone, Copy)]
pub(crate) enum Want {
    /// Any value.
    Bound,
    /// A value in which nothing is sealed.
    Pure,
    /// A value of a kind.
    Of(Kind),
    /// A whole that turns and cells can be counted by.
    Count,
    /// What has a label: a sealed value or a handle.
    Labelled,
    /// What `str` writes.
    Writable,
    /// What has an order.
    WholeOrText,
    /// What can be added.
    Addable,
    /// What has a length.
    TextOrList,
    /// What can be equal to another.
    Comparable,
}

/// What an operand stands for.
pub(crate) fn value_seen<'a>(environment: &'a Environment, operand: &'a Operand) -> Seen<'a> {
    match operand {
        Operand::Literal(plain) => Seen::Plain(plain),
        Operand::Name(name) => match environment.get(name) {
            None => Seen::Unbound,
            Some(Value::Sealed(_, _)) => Seen::Sealed,
            Some(Value::Bare(plain)) => Seen::Plain(plain),
        },
    }
}

/// The kind of a plain value.
pub(crate) fn kind_of(plain: &Plain) -> Kind {
    match plain {
        Plain::Unit => Kind::Unit,
        Plain::Flag(_) => Kind::Flag,
        Plain::Whole(_) => Kind::Whole,
        Plain::Bytes(_) => Kind::Text,
        Plain::Lab(_) => Kind::Label,
        Plain::Power(_) => Kind::Privilege,
        Plain::RefOf(_) => Kind::Reference,
        Plain::VarOf(_) => Kind::Variable,
        Plain::ResultOf(_) => Kind::TaskResult,
        Plain::ChanOf(_) => Kind::Channel,
        Plain::Items(_) => Kind::List,
    }
}

impl Seen<'_> {
    /// The kind of the value, if there is one.
    pub fn kind(self) -> Option<Kind> {
        match self {
            Seen::Unbound => None,
            Seen::Sealed => Some(Kind::Sealed),
            Seen::Plain(plain) => Some(kind_of(plain)),
        }
    }
}

impl Kind {
    /// A value of this kind, in words.
    pub fn words(self) -> &'static str {
        match self {
            Kind::Unit => "unit",
            Kind::Flag => "a flag",
            Kind::Whole => "a whole",
            Kind::Text => "a text",
            Kind::Label => "a label",
            Kind::Privilege => "a privilege",
            Kind::Reference => "a reference",
            Kind::Variable => "a variable",
            Kind::TaskResult => "a child's result",
            Kind::Channel => "a channel",
            Kind::List => "a list",
            Kind::Sealed => "a sealed value",
        }
    }
}

impl Want {
    /// What is wanted, in words.
    pub fn words(self) -> &'static str {
        match self {
            Want::Bound => "a value",
            Want::Pure => "a bare value with nothing sealed in it",
            Want::Of(kind) => kind.words(),
            Want::Count => "a whole from 0 to 4294967295",
            Want::Labelled => "a sealed value or a handle",
            Want::Writable => "a whole, a flag or unit",
            Want::WholeOrText => "a whole or a text",
            Want::Addable => "a whole, a text or a list",
            Want::TextOrList => "a text or a list",
            Want::Comparable => "unit, a flag, a whole, a text or a label",
        }
    }

    /// Whether it is met by what an operand stands for.
    pub fn is_met(self, seen: Seen<'_>) -> bool {
        match (self, seen) {
            (Want::Count, Seen::Plain(Plain::Whole(whole))) => u32::try_from(*whole).is_ok(),
            (Want::Pure, Seen::Plain(plain)) => plain.is_pure(),
            _ => match seen.kind() {
                Some(kind) => self.is_met_by(kind),
                None => false,
            },
        }
    }

    /// Whether it is met by values of a kind; no kind is that of counts, and none tells what is
    /// pure.
    fn is_met_by(self, kind: Kind) -> bool {
        match self {
            Want::Bound => true,
            Want::Of(wanted) => kind == wanted,
            Want::Count | Want::Pure => false,
            Want::Labelled => matches!(
                kind,
                Kind::Sealed | Kind::Reference | Kind::Variable | Kind::TaskResult | Kind::Channel
            ),
            Want::Writable => matches!(kind, Kind::Unit | Kind::Flag | Kind::Whole),
            Want::WholeOrText => matches!(kind, Kind::Whole | Kind::Text),
            Want::Addable => matches!(kind, Kind::Whole | Kind::Text | Kind::List),
            Want::TextOrList => matches!(kind, Kind::Text | Kind::List),
            Want::Comparable => matches!(
                kind,
                Kind::Unit | Kind::Flag | Kind::Whole | Kind::Text | Kind::Label
            ),
        }
    }
}
