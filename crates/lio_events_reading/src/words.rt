//! The first words of plain values, kinds of faults, acts and replies, and those of operations.

ghost use Rattle.std.specs.Prelude.{◌≡◌};
ghost use Rattle.lio_events_reading.specs.Words as spec;

/// The first word of a plain value.
#[derive(Clone, Copy)]
pub(crate) enum PlainWord {
    Power,
    Ref,
    Var,
    Result,
    Chan,
}

/// All of them.
const PLAIN_WORDS: [PlainWord; 5] = [
    PlainWord::Power,
    PlainWord::Ref,
    PlainWord::Var,
    PlainWord::Result,
    PlainWord::Chan,
];

impl PlainWord {
    /// The word as it stands in a line.
    fn word(self) -> &'static [u8]
        ensures { result.now ≡ spec.plain_word self }
    {
        match self {
            PlainWord::Power => b"power",
            PlainWord::Ref => b"ref",
            PlainWord::Var => b"var",
            PlainWord::Result => b"result",
            PlainWord::Chan => b"chan",
        }
    }

    /// The one that a word is.
    pub(crate) fn find(word: &[u8]) -> Option<PlainWord>
        ensures { result ≡ spec.plain_of word.now }
    {
        PLAIN_WORDS
            .iter()
            .copied()
            .find(|known| known.word() == word)
    }
}

/// The first word of a kind of fault.
#[derive(Clone, Copy)]
pub(crate) enum KindWord {
    FlowCurrent,
    FlowClearance,
    FlowRaise,
    FlowPrivilege,
    BadType,
    Overflow,
    DivZero,
    TooLong,
    NoTurns,
    NoCells,
    ChildTurns,
    Depth,
    LabelWide,
    User,
}

/// All of them.
const KIND_WORDS: [KindWord; 14] = [
    KindWord::FlowCurrent,
    KindWord::FlowClearance,
    KindWord::FlowRaise,
    KindWord::FlowPrivilege,
    KindWord::BadType,
    KindWord::Overflow,
    KindWord::DivZero,
    KindWord::TooLong,
    KindWord::NoTurns,
    KindWord::NoCells,
    KindWord::ChildTurns,
    KindWord::Depth,
    KindWord::LabelWide,
    KindWord::User,
];

impl KindWord {
    /// The word as it stands in a line.
    fn word(self) -> &'static [u8]
        ensures { result.now ≡ spec.kind_word self }
    {
        match self {
            KindWord::FlowCurrent => b"flow_current",
            KindWord::FlowClearance => b"flow_clearance",
            KindWord::FlowRaise => b"flow_raise",
            KindWord::FlowPrivilege => b"flow_privilege",
            KindWord::BadType => b"bad_type",
            KindWord::Overflow => b"overflow",
            KindWord::DivZero => b"div_zero",
            KindWord::TooLong => b"too_long",
            KindWord::NoTurns => b"no_turns",
            KindWord::NoCells => b"no_cells",
            KindWord::ChildTurns => b"child_turns",
            KindWord::Depth => b"depth",
            KindWord::LabelWide => b"label_wide",
            KindWord::User => b"user",
        }
    }

    /// The one that a word is.
    pub(crate) fn find(word: &[u8]) -> Option<KindWord>
        ensures { result ≡ spec.kind_of word.now }
    {
        KIND_WORDS
            .iter()
            .copied()
            .find(|known| known.word() == word)
    }
}

/// The first word of an act.
#[derive(Clone, Copy)]
pub(crate) enum ActWord {
    Step,
    Seal,
    Raise,
    Lower,
    Release,
    Expose,
    NewRef,
    NewVar,
    Fork,
    Spawn,
    Read,
    Write,
    Take,
    Put,
    Wait,
    Send,
    Ended,
}

/// All of them.
const ACT_WORDS: [ActWord; 17] = [
    ActWord::Step,
    ActWord::Seal,
    ActWord::Raise,
    ActWord::Lower,
    ActWord::Release,
    ActWord::Expose,
    ActWord::NewRef,
    ActWord::NewVar,
    ActWord::Fork,
    ActWord::Spawn,
    ActWord::Read,
    ActWord::Write,
    ActWord::Take,
    ActWord::Put,
    ActWord::Wait,
    ActWord::Send,
    ActWord::Ended,
];

impl ActWord {
    /// The word as it stands in a line.
    fn word(self) -> &'static [u8]
        ensures { result.now ≡ spec.act_word self }
    {
        match self {
            ActWord::Step => b"step",
            ActWord::Seal => b"seal",
            ActWord::Raise => b"raise",
            ActWord::Lower => b"lower",
            ActWord::Release => b"release",
            ActWord::Expose => b"expose",
            ActWord::NewRef => b"newref",
            ActWord::NewVar => b"newvar",
            ActWord::Fork => b"fork",
            ActWord::Spawn => b"spawn",
            ActWord::Read => b"read",
            ActWord::Write => b"write",
            ActWord::Take => b"take",
            ActWord::Put => b"put",
            ActWord::Wait => b"wait",
            ActWord::Send => b"send",
            ActWord::Ended => b"ended",
        }
    }

    /// The one that a word is.
    pub(crate) fn find(word: &[u8]) -> Option<ActWord>
        ensures { result ≡ spec.act_of word.now }
    {
        ACT_WORDS.iter().copied().find(|known| known.word() == word)
    }
}

/// The first word of a reply.
#[derive(Clone, Copy)]
pub(crate) enum ReplyWord {
    Done,
    Got,
    Told,
    Refused,
}

/// All of them.
const REPLY_WORDS: [ReplyWord; 4] = [
    ReplyWord::Done,
    ReplyWord::Got,
    ReplyWord::Told,
    ReplyWord::Refused,
];

impl ReplyWord {
    /// The word as it stands in a line.
    fn word(self) -> &'static [u8]
        ensures { result.now ≡ spec.reply_word self }
    {
        match self {
            ReplyWord::Done => b"ok",
            ReplyWord::Got => b"got",
            ReplyWord::Told => b"told",
            ReplyWord::Refused => b"no",
        }
    }

    /// The one that a word is.
    pub(crate) fn find(word: &[u8]) -> Option<ReplyWord>
        ensures { result ≡ spec.reply_of word.now }
    {
        REPLY_WORDS
            .iter()
            .copied()
            .find(|known| known.word() == word)
    }
}

/// The word of an operation that raises the current label.
#[derive(Clone, Copy)]
pub(crate) enum OpWord {
    Unlabel,
    Taint,
    Read,
    Wait,
    Take,
    Put,
}

/// All of them.
const OP_WORDS: [OpWord; 6] = [
    OpWord::Unlabel,
    OpWord::Taint,
    OpWord::Read,
    OpWord::Wait,
    OpWord::Take,
    OpWord::Put,
];

impl OpWord {
    /// The word as it stands in a line.
    fn word(self) -> &'static [u8]
        ensures { result.now ≡ spec.op_word self }
    {
        match self {
            OpWord::Unlabel => b"unlabel",
            OpWord::Taint => b"taint",
            OpWord::Read => b"read",
            OpWord::Wait => b"wait",
            OpWord::Take => b"take",
            OpWord::Put => b"put",
        }
    }

    /// The one that a word is.
    pub(crate) fn find(word: &[u8]) -> Option<OpWord>
        ensures { result ≡ spec.op_of word.now }
    {
        OP_WORDS.iter().copied().find(|known| known.word() == word)
    }
}
