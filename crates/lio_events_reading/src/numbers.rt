//! Numbers.
ghost use Rattle.std.specs.Prelude.{◌≡◌, ◌≤◌, ◌<◌, ◌^◌, ℕ, decimal, length};
ghost use Rattle.lio_events.specs.EntryText.{target_text};
ghost use Rattle.lio_events_reading.specs.Fits.{TargetFits};
ghost use Rattle.lio_events_reading.specs.Reading.{Finds};
ghost use Rattle.lio_events_reading.specs.Numbers.{AreLong, blank_decimal, both_text};

use crate::cursor::Cursor;
use crate::start::byte_at;
use std::str;

/// The number that a word is, or 0 where it is none of 64 bits.
fn number_of(word: &[u8]) -> u64
    ensures { (number : ℕ) → number < 2 ^ 64 → word.now ≡ decimal number → result ≡ number }
{
    match str::from_utf8(word) {
        Ok(digits) => digits.parse::<u64>().unwrap_or(0),
        Err(_) => 0,
    }
}

/// Takes a number of 64 bits.
pub(crate) fn long(text: &mut Cursor) -> u64
    ensures finds { Finds decimal (λ number. number < 2 ^ 64) text.old result text.new }
    ensures shorter { length text.new ≤ length text.old }
{
    number_of(text.word())
}

/// Takes a number of 32 bits.
pub(crate) fn number(text: &mut Cursor) -> u32
    ensures finds { Finds decimal (λ number. number < 2 ^ 32) text.old result text.new }
    ensures shorter { length text.new ≤ length text.old }
{
    short(long(text))
}

/// The number, or 0 where it has more than 32 bits.
fn short(number: u64) -> u32
    ensures { number < 2 ^ 32 → result ≡ number }
{
    u32::try_from(number).unwrap_or(0)
}

/// Takes two numbers of 64 bits, each behind a blank.
pub(crate) fn two_longs(text: &mut Cursor) -> (u64, u64)
    ensures finds { Finds both_text AreLong text.old result text.new }
    ensures shorter { length text.new ≤ length text.old }
{
    text.skip(1);
    let first = long(text);
    text.skip(1);
    let second = long(text);
    (first, second)
}

/// Takes a number of 32 bits behind a blank.
pub(crate) fn blank_number(text: &mut Cursor) -> u32
    ensures finds { Finds blank_decimal (λ number. number < 2 ^ 32) text.old result text.new }
    ensures shorter { length text.new ≤ length text.old }
{
    text.skip(1);
    number(text)
}

/// Takes the number of a node, or `-` for none.
pub(crate) fn target(text: &mut Cursor) -> Option<u32>
    ensures finds { Finds target_text TargetFits text.old result text.new }
    ensures fits { TargetFits result }
{
    let first = byte_at(text.rest(), 0);
    let word = text.word();
    if first == b'-' {
        None
    } else {
        Some(short(number_of(word)))
    }
}
