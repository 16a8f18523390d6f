//! The lines of a text.
ghost use Rattle.std.specs.Prelude.{◌≡◌, ◌==◌, ◌≤◌, ◌<◌, ◌∷◌, [], length, MatchOption};
ghost use Rattle.std.specs.List.{prefix_len};
ghost use Rattle.lio_syntax.specs.Verdict.{text_lines, is_inside};

/// How many bytes stand before the first line end.
fn line_len(text: &[u8]) -> usize
    ensures len { result ≡ prefix_len is_inside text.now }
    ensures within { result ≤ length text.now }
{
    for (i, &byte) in text.iter().enumerate() {
        if byte == b'\n' {
            return i;
        }
    }
    text.len()
}

/// The first line, without its line end, and what follows it.
pub(crate) fn split_line(text: &[u8]) -> Option<(&[u8], &[u8])>
    ensures { MatchOption result (text_lines text.now ≡ []) (λ parts. (text_lines text.now
        ≡ parts.0.now ∷ text_lines parts.1.now) × (length parts.1.now < length text.now)) }
{
    if text.is_empty() {
        return None;
    }
    let len = line_len(text);
    if len < text.len() {
        Some((&text[..len], &text[len + 1..]))
    } else {
        Some((&text[..len], &text[len..]))
    }
}
