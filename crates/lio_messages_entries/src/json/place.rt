//! Places of a text as lines and columns.

/// The line and the column of a place of a text, from 1.
pub(crate) fn position_of(bytes: &[u8], place: usize) -> (usize, usize) {
    let mut line = 1usize;
    let mut column = 1usize;
    for byte in bytes.get(..place).unwrap_or(bytes) {
        if *byte == b'\n' {
            line = line.saturating_add(1);
            column = 1;
        } else {
            column = column.saturating_add(1);
        }
    }
    (line, column)
}

/// Whether a byte is a blank of JSON.
pub(crate) fn is_blank(byte: u8) -> bool {
    matches!(byte, b' ' | b'\t' | b'\n' | b'\r')
}

/// The first place from one on at which no blank stands; the end where there is none.
pub(crate) fn behind_blanks(bytes: &[u8], from: usize) -> usize {
    for (blanks, byte) in bytes.get(from..).unwrap_or(b"").iter().enumerate() {
        if !is_blank(*byte) {
            return from.saturating_add(blanks);
        }
    }
    bytes.len()
}

/// The last place before one at which no blank stands, if there is one.
pub(crate) fn before_blanks(bytes: &[u8], end: usize) -> Option<usize> {
    let mut last = None;
    for (place, byte) in bytes.get(..end).unwrap_or(bytes).iter().enumerate() {
        if !is_blank(*byte) {
            last = Some(place);
        }
    }
    last
}

/// The last byte before a place that is no blank, and 0 where there is none.
pub(crate) fn last_byte(bytes: &[u8], end: usize) -> u8 {
    match before_blanks(bytes, end) {
        Some(place) => byte_at(bytes, place),
        None => 0,
    }
}

/// The byte at a place, and 0 where there is none.
pub(crate) fn byte_at(bytes: &[u8], place: usize) -> u8 {
    match bytes.get(place) {
        Some(byte) => *byte,
        None => 0,
    }
}
