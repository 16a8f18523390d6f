//! The words of a line.
#![tactic(auto, unfolding(crate::specs::Words::cut, crate::specs::Words::word_len))]

ghost use Rattle.std.specs.Prelude.{◌≡◌, ◌≤◌, ◌∷◌, [], length, ℕ, List, false, MatchOption};
ghost use Rattle.lio_syntax_lines.specs.Words as spec;
ghost use Rattle.lio_syntax_lines.specs.Words.{cut, word_len, words, without_return};

/// Where a byte of a line stands.
#[derive(Clone, Copy, PartialEq, Eq)]
pub(crate) enum Place {
    /// Between words.
    Between,
    /// In a word, outside of quotes and brackets.
    Plain,
    /// In a text.
    Quoted,
    /// Behind a backslash in a text.
    Escaped,
    /// In a label.
    Bracketed,
}

/// Whether a byte is a space or a tab.
fn is_blank(byte: u8) -> bool
    ensures { result ≡ spec.is_blank byte }
{
    byte == b' ' || byte == b'\t'
}

/// Where one stands behind a `<` that begins a word, before these bytes.
fn behind_bracket(bytes: &[u8]) -> Place
    ensures { result ≡ spec.behind_bracket bytes.now }
{
    match bytes {
        [] => Place::Plain,
        [byte, ..] if is_blank(*byte) || *byte == b'=' => Place::Plain,
        _ => Place::Bracketed,
    }
}

/// Where one stands behind the first byte of a word, before these bytes.
fn first_place(byte: u8, bytes: &[u8]) -> Place
    ensures { result ≡ spec.first_place byte bytes.now }
{
    match byte {
        b'"' => Place::Quoted,
        b'<' => behind_bracket(bytes),
        _ => Place::Plain,
    }
}

/// Where one stands behind a further byte of a word.
fn after(place: Place, byte: u8) -> Place
    ensures { result ≡ spec.after place byte }
{
    match (place, byte) {
        (Place::Quoted, b'"') | (Place::Bracketed, b'>') => Place::Plain,
        (Place::Quoted, b'\\') => Place::Escaped,
        (Place::Escaped, _) => Place::Quoted,
        _ => place,
    }
}

/// Whether a word ends before the byte.
fn ends(place: Place, byte: u8) -> bool
    ensures { result ≡ spec.ends place byte }
{
    match place {
        Place::Plain => is_blank(byte),
        _ => false,
    }
}

/// How many bytes belong to a word that has begun.
fn word_len(mut place: Place, bytes: &[u8]) -> usize
    ensures len { result ≡ word_len place bytes.now }
    ensures within { result ≤ length bytes.now }
{
    for (i, &byte) in bytes.iter().enumerate() {
        if ends(place, byte) {
            return i;
        }
        place = after(place, byte);
    }
    bytes.len()
}

/// What stands behind the blanks at the front.
fn past_blanks(bytes: &[u8]) -> &[u8]
    ensures same { words result.now ≡ words bytes.entry.now }
    ensures at_word { (byte : ℕ) (rest : List ℕ)
        → result.now ≡ byte ∷ rest → spec.is_blank byte ≡ false }
{
    let mut rest = bytes;
    while let [b' ' | b'\t', more @ ..] = rest {
        rest = more;
    }
    rest
}

/// The first word, and what stands behind it.
pub fn split_word(line: &[u8]) -> Option<(&[u8], &[u8])>
    ensures { MatchOption result (words line.now ≡ [])
        (λ parts. words line.now ≡ parts.0.now ∷ words parts.1.now) }
{
    let rest = past_blanks(line);
    let [first, behind @ ..] = rest else {
        return None;
    };
    let len = word_len(first_place(*first, behind), behind);
    Some((&rest[..len + 1], &rest[len + 1..]))
}

/// The bytes of a line without the carriage return at its end.
pub fn without_return(line: &[u8]) -> &[u8]
    ensures { result.now ≡ without_return line.now }
{
    line.strip_suffix(b"\r").unwrap_or(line)
}
