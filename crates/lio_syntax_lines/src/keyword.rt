//! The first words of lines.
#![tactic(auto, unfolding(crate::specs::Keyword::keyword_of))]

ghost use Rattle.std.specs.Prelude.{◌≡◌};
ghost use Rattle.lio_syntax_lines.specs.Keyword.{word_of, keyword_of};

/// The first word of a line.
#[derive(Clone, Copy)]
pub enum Keyword {
    Proc,
    Let,
    If,
    Else,
    While,
    Try,
    Catch,
    End,
    Call,
    Return,
    Stop,
    Throw,
    Label,
    Unlabel,
    Taint,
    Lower,
    Relabel,
    NewRef,
    NewVar,
    FullVar,
    Read,
    Write,
    Take,
    Put,
    Fork,
    Spawn,
    Wait,
    Send,
}

/// All of them.
const KEYWORDS: [Keyword; 28] = [
    Keyword::Proc,
    Keyword::Let,
    Keyword::If,
    Keyword::Else,
    Keyword::While,
    Keyword::Try,
    Keyword::Catch,
    Keyword::End,
    Keyword::Call,
    Keyword::Return,
    Keyword::Stop,
    Keyword::Throw,
    Keyword::Label,
    Keyword::Unlabel,
    Keyword::Taint,
    Keyword::Lower,
    Keyword::Relabel,
    Keyword::NewRef,
    Keyword::NewVar,
    Keyword::FullVar,
    Keyword::Read,
    Keyword::Write,
    Keyword::Take,
    Keyword::Put,
    Keyword::Fork,
    Keyword::Spawn,
    Keyword::Wait,
    Keyword::Send,
];

impl Keyword {
    /// The word as it stands in a line.
    pub fn word(self) -> &'static [u8]
        ensures { result.now ≡ word_of self }
    {
        match self {
            Keyword::Proc => b"proc",
            Keyword::Let => b"let",
            Keyword::If => b"if",
            Keyword::Else => b"else",
            Keyword::While => b"while",
            Keyword::Try => b"try",
            Keyword::Catch => b"catch",
            Keyword::End => b"end",
            Keyword::Call => b"call",
            Keyword::Return => b"return",
            Keyword::Stop => b"stop",
            Keyword::Throw => b"throw",
            Keyword::Label => b"label",
            Keyword::Unlabel => b"unlabel",
            Keyword::Taint => b"taint",
            Keyword::Lower => b"lower",
            Keyword::Relabel => b"relabel",
            Keyword::NewRef => b"newref",
            Keyword::NewVar => b"newvar",
            Keyword::FullVar => b"fullvar",
            Keyword::Read => b"read",
            Keyword::Write => b"write",
            Keyword::Take => b"take",
            Keyword::Put => b"put",
            Keyword::Fork => b"fork",
            Keyword::Spawn => b"spawn",
            Keyword::Wait => b"wait",
            Keyword::Send => b"send",
        }
    }

    /// The keyword that a word is.
    pub fn find(word: &[u8]) -> Option<Keyword>
        ensures { result ≡ keyword_of word.now }
    {
        KEYWORDS
            .iter()
            .copied()
            .find(|keyword| keyword.word() == word)
    }
}
