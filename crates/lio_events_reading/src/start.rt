//! What a value begins with.
ghost use Rattle.std.specs.Prelude.{◌≡◌, get_or};
ghost use Rattle.lio_events_reading.specs.Start.{start_at, start_of};

/// What a value or a content begins with.
#[derive(Clone, Copy)]
pub(crate) enum Start {
    /// A text.
    Text,
    /// A label.
    Label,
    /// A list.
    List,
    /// What stands for a content that is hidden.
    Hidden,
    /// A content under a label.
    Sealed,
    /// What stands for no value.
    Empty,
    /// A fault.
    Fault,
    /// Another word, or a number.
    Word,
}

/// The byte at a place, or 0 behind the last one.
pub(crate) fn byte_at(bytes: &[u8], place: usize) -> u8
    ensures { result ≡ get_or bytes.now place 0 }
{
    match bytes.get(place) {
        Some(byte) => *byte,
        None => 0,
    }
}

/// What begins with these bytes, of which the second one doesn't count.
fn start_at(first: u8, third: u8) -> Start
    ensures { result ≡ start_at first third }
{
    if first == b'"' {
        Start::Text
    } else if first == b'<' {
        Start::Label
    } else if first == b'[' {
        Start::List
    } else if first == b'h' {
        Start::Hidden
    } else if first == b's' {
        Start::Sealed
    } else if first == b'e' {
        Start::Empty
    } else if first == b'f' && third == b'u' {
        Start::Fault
    } else {
        Start::Word
    }
}

/// What begins at the front of bytes: the first and the third one tell.
pub(crate) fn start_of(bytes: &[u8]) -> Start
    ensures { result ≡ start_of bytes.now }
{
    start_at(byte_at(bytes, 0), byte_at(bytes, 2))
}
