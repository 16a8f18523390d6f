//! Operators.
#![tactic(auto, unfolding(crate::specs::Operators::one_of, crate::specs::Operators::two_of))]

ghost use Rattle.std.specs.Prelude.{◌≡◌};
ghost use Rattle.lio_syntax_lines.specs.Operators.{one_word, one_of, two_word, two_of};
ghost use Rattle.lio_syntax_lines.specs.Operators.{has_reserved_word};

/// An operator on one value.
#[derive(Clone, Copy)]
pub enum One {
    Not,
    Neg,
    Len,
    Num,
    Str,
    LabelOf,
}

/// An operator on two values.
#[derive(Clone, Copy)]
pub enum Two {
    Add,
    Sub,
    Mul,
    Div,
    Rem,
    Eq,
    Ne,
    Lt,
    Le,
    And,
    Or,
    Join,
    Meet,
    Flows,
    From,
    Upto,
    Find,
    Push,
    At,
}

/// All operators on one value.
const ONES: [One; 6] = [
    One::Not,
    One::Neg,
    One::Len,
    One::Num,
    One::Str,
    One::LabelOf,
];

/// All operators on two values.
const TWOS: [Two; 19] = [
    Two::Add,
    Two::Sub,
    Two::Mul,
    Two::Div,
    Two::Rem,
    Two::Eq,
    Two::Ne,
    Two::Lt,
    Two::Le,
    Two::And,
    Two::Or,
    Two::Join,
    Two::Meet,
    Two::Flows,
    Two::From,
    Two::Upto,
    Two::Find,
    Two::Push,
    Two::At,
];

impl One {
    /// The word as it stands in a line.
    pub fn word(self) -> &'static [u8]
        ensures { result.now ≡ one_word self }
    {
        match self {
            One::Not => b"not",
            One::Neg => b"neg",
            One::Len => b"len",
            One::Num => b"num",
            One::Str => b"str",
            One::LabelOf => b"labelof",
        }
    }

    /// The operator that a word is.
    pub fn find(word: &[u8]) -> Option<One>
        ensures { result ≡ one_of word.now }
    {
        ONES.iter().copied().find(|op| op.word() == word)
    }
}

impl Two {
    /// The word as it stands in a line.
    pub fn word(self) -> &'static [u8]
        ensures { result.now ≡ two_word self }
    {
        match self {
            Two::Add => b"+",
            Two::Sub => b"-",
            Two::Mul => b"*",
            Two::Div => b"/",
            Two::Rem => b"%",
            Two::Eq => b"==",
            Two::Ne => b"!=",
            Two::Lt => b"<",
            Two::Le => b"<=",
            Two::And => b"and",
            Two::Or => b"or",
            Two::Join => b"join",
            Two::Meet => b"meet",
            Two::Flows => b"flows",
            Two::From => b"from",
            Two::Upto => b"upto",
            Two::Find => b"find",
            Two::Push => b"push",
            Two::At => b"at",
        }
    }

    /// The operator that a word is.
    pub fn find(word: &[u8]) -> Option<Two>
        ensures { result ≡ two_of word.now }
    {
        TWOS.iter().copied().find(|op| op.word() == word)
    }

    /// Whether its word is reserved. That of `push` and of `at` is told by its place in the line,
    /// so that it may be a name too.
    pub fn is_reserved(self) -> bool
        ensures { result ≡ has_reserved_word self }
    {
        !matches!(self, Two::Push | Two::At)
    }
}
