//! Which words stand behind a first word.
use lio_messages_hints::Word;
use lio_syntax_lines::Keyword;

/// Which literals a word of a form may be.
#[derive(Clone, Copy, PartialEq, Eq)]
pub(crate) enum Fits {
    /// Each.
    Any,
    Label,
    Whole,
    Flag,
    Text,
    /// None: names alone.
    Name,
}

/// What a word of a form is.
#[derive(Clone, Copy)]
pub(crate) enum Part {
    /// The name that is bound to what the statement gives.
    Bound,
    /// A name.
    Name(&'static str),
    /// A name or a value.
    Operand(&'static str, Fits),
    /// A word of the form's own, by which it was found.
    Word(&'static str),
}

/// The words of a form behind the first.
#[derive(Clone, Copy)]
pub(crate) struct Form {
    /// The form, as it is written.
    pub text: &'static str,
    /// Its words, each with what it stands for.
    pub parts: &'static [Part],
    /// Whether further operands may follow.
    pub more: bool,
}

const VALUE: Part = Part::Operand("a value", Fits::Any);

const FLAG: Part = Part::Operand("a flag", Fits::Flag);

const LABEL: Part = Part::Operand("a label", Fits::Label);

const RESULT: Part = Part::Bound;

const SEALED: Part = Part::Operand("a sealed value", Fits::Name);

const PRIVILEGE: Part = Part::Operand("a privilege", Fits::Name);

const TURNS: Part = Part::Operand("the child's turns", Fits::Whole);

const CELLS: Part = Part::Operand("the child's cells", Fits::Whole);

const PROCEDURE: Part = Part::Name("the name of a procedure");

const REFERENCE: Part = Part::Operand("a reference", Fits::Name);

const VARIABLE: Part = Part::Operand("a variable", Fits::Name);

const CHANNEL: Part = Part::Operand("a channel", Fits::Name);

/// A form without further operands.
const fn closed_form(text: &'static str, parts: &'static [Part]) -> Form {
    Form {
        text,
        parts,
        more: false,
    }
}

/// A form with any number of further operands.
const fn open_form(text: &'static str, parts: &'static [Part]) -> Form {
    Form {
        text,
        parts,
        more: true,
    }
}

/// The form that begins with a first word; of `let` and `proc` without what their files tell.
fn form_of(keyword: Keyword) -> Form {
    match keyword {
        Keyword::Proc => open_form("proc P X ..", &[PROCEDURE]),
        Keyword::Let => closed_form("let X = A", &[RESULT]),
        Keyword::If => closed_form("if A", &[FLAG]),
        Keyword::Else => closed_form("else", &[]),
        Keyword::While => closed_form("while A", &[FLAG]),
        Keyword::Try => closed_form("try", &[]),
        Keyword::Catch => closed_form(
            "catch X Y",
            &[
                Part::Name("the name of the fault's code"),
                Part::Name("the name of its payload"),
            ],
        ),
        Keyword::End => closed_form("end", &[]),
        Keyword::Call => open_form("call X P A ..", &[RESULT, PROCEDURE]),
        Keyword::Return => closed_form("return A", &[VALUE]),
        Keyword::Stop => closed_form("stop", &[]),
        Keyword::Throw => closed_form("throw A", &[VALUE]),
        Keyword::Label => closed_form("label X L A", &[RESULT, LABEL, VALUE]),
        Keyword::Unlabel => closed_form("unlabel X A", &[RESULT, SEALED]),
        Keyword::Taint => closed_form("taint L", &[LABEL]),
        Keyword::Lower => closed_form("lower L", &[LABEL]),
        Keyword::Relabel => closed_form("relabel X A L P", &[RESULT, SEALED, LABEL, PRIVILEGE]),
        Keyword::NewRef => closed_form("newref X L A", &[RESULT, LABEL, VALUE]),
        Keyword::NewVar => closed_form("newvar X L", &[RESULT, LABEL]),
        Keyword::FullVar => closed_form("fullvar X L A", &[RESULT, LABEL, VALUE]),
        Keyword::Read => closed_form("read X R", &[RESULT, REFERENCE]),
        Keyword::Write => closed_form("write R A", &[REFERENCE, VALUE]),
        Keyword::Take => closed_form("take X V", &[RESULT, VARIABLE]),
        Keyword::Put => closed_form("put V A", &[VARIABLE, VALUE]),
        Keyword::Fork => open_form(
            "fork X L T C P A ..",
            &[RESULT, LABEL, TURNS, CELLS, PROCEDURE],
        ),
        Keyword::Spawn => open_form("spawn T C P A ..", &[TURNS, CELLS, PROCEDURE]),
        Keyword::Wait => closed_form(
            "wait X R",
            &[RESULT, Part::Operand("the result of a child", Fits::Name)],
        ),
        Keyword::Send => closed_form("send C A", &[CHANNEL, Part::Operand("a text", Fits::Text)]),
    }
}

/// How the form that begins with a first word is written.
pub(crate) fn form_text(keyword: Keyword) -> &'static str {
    form_of(keyword).text
}

/// Whether so many words behind a first word are those of its form, the first of them the name that
/// it binds.
pub(crate) fn binds_and_fits(keyword: Keyword, count: usize) -> bool {
    let form = form_of(keyword);
    let is_whole = count == form.parts.len() || (form.more && count > form.parts.len());
    matches!(form.parts.first(), Some(Part::Bound)) && is_whole
}

/// The form of an `unlabel` with a privilege.
const USING: Form = Form {
    text: "unlabel X A using P",
    parts: &[RESULT, SEALED, Part::Word("using"), PRIVILEGE],
    more: false,
};

/// The form of a line that begins with a first word and goes on with these words.
pub(crate) fn form_meant(keyword: Keyword, behind: &[Word<'_>]) -> Form {
    match (keyword, behind) {
        (Keyword::Unlabel, [_, _, word, ..]) if word.is("using") => USING,
        _ => form_of(keyword),
    }
}
