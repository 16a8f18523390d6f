//! First words that were meant.

use lio_syntax_lines::{Keyword, is_name, read_header};

/// The first words of lines, by which others are looked for.
const WORDS: [Keyword; 28] = [
    Keyword::Proc,
    Keyword::Let,
    Keyword::If,
    Keyword::Else,
    Keyword::While,
    Keyword::Try,
    Keyword::Catch,
    Keyword::End,
    Keyword::Call,
    Keyword::Return,
    Keyword::Stop,
    Keyword::Throw,
    Keyword::Label,
    Keyword::Unlabel,
    Keyword::Taint,
    Keyword::Lower,
    Keyword::Relabel,
    Keyword::NewRef,
    Keyword::NewVar,
    Keyword::FullVar,
    Keyword::Read,
    Keyword::Write,
    Keyword::Take,
    Keyword::Put,
    Keyword::Fork,
    Keyword::Spawn,
    Keyword::Wait,
    Keyword::Send,
];

/// Whether two bytes are the same letter, upper-case or not.
fn is_same(one: u8, other: u8) -> bool {
    one == other || (one.is_ascii_uppercase() && one ^ 0x20 == other)
}

/// Whether two words are the same, but for upper-case letters of the first.
fn are_same(one: &[u8], other: &[u8]) -> bool {
    one.len() == other.len() && common_front(one, other) == one.len()
}

/// How many bytes two words have in common at their front.
fn common_front(one: &[u8], other: &[u8]) -> usize {
    let mut same = 0usize;
    for (one, other) in one.iter().zip(other.iter()) {
        if !is_same(*one, *other) {
            return same;
        }
        same = same.saturating_add(1);
    }
    same
}

/// What stands behind so many bytes.
fn behind(word: &[u8], count: usize) -> &[u8] {
    word.get(count..).unwrap_or(b"")
}

/// Whether a word comes of another by one byte that is left out, put in, changed, or exchanged with
/// the next.
fn is_near(one: &[u8], other: &[u8]) -> bool {
    let same = common_front(one, other);
    let (one, other) = (behind(one, same), behind(other, same));
    if are_same(behind(one, 1), other)
        || are_same(one, behind(other, 1))
        || are_same(behind(one, 1), behind(other, 1))
    {
        return true;
    }
    match (one, other) {
        ([a, b, ..], [c, d, ..]) => {
            is_same(*a, *d) && is_same(*b, *c) && are_same(behind(one, 2), behind(other, 2))
        }
        _ => false,
    }
}

/// The first word of a form that was meant by a word, if one is the same but for upper-case
/// letters.
pub fn same_word(word: &[u8]) -> Option<Keyword> {
    for keyword in WORDS {
        if are_same(word, keyword.word()) {
            return Some(keyword);
        }
    }
    None
}

/// The first word of a form that is near to a word of at least 3 bytes, if there is one.
pub fn near_word(word: &[u8]) -> Option<Keyword> {
    if word.len() < 3 {
        return None;
    }
    for keyword in WORDS {
        if is_near(word, keyword.word()) {
            return Some(keyword);
        }
    }
    None
}

/// The name of the first procedure of a script that is near to a name, if there is one.
pub fn similar_procedure<'s>(script: &'s [u8], name: &[u8]) -> Option<&'s [u8]> {
    for line in script.split(|byte| *byte == b'\n') {
        if let Some((header, _)) = read_header(line)
            && is_near(name, header)
        {
            return Some(header);
        }
    }
    None
}

/// Whether a word of at least 3 bytes is near to another one, but for upper-case letters.
pub fn is_similar(word: &[u8], other: &[u8]) -> bool {
    word.len() >= 3 && is_near(word, other)
}

/// Whether a procedure can have this name.
pub fn is_procedure_name(name: &[u8]) -> bool {
    is_name(name)
}
