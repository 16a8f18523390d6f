//! Small numbers as words.

ghost use Rattle.std.specs.Prelude.{◌≡◌, ◌≤◌, IfSome};
ghost use Rattle.lio_front.specs.Command as spec;

/// The largest workload.
const LARGEST: u32 = 256;

/// The most workers.
const MOST_WORKERS: u32 = 64;

/// Whether a byte is a decimal digit.
fn is_digit(byte: u8) -> bool
    ensures { result ≡ spec.is_digit byte }
{
    48 <= byte && byte <= 57
}

/// Whether a byte is a decimal digit that may stand first.
fn is_first_digit(byte: u8) -> bool
    ensures { result ≡ spec.is_first_digit byte }
{
    49 <= byte && byte <= 57
}

/// A decimal number of at most three digits, without a sign or a zero in front.
fn number_of(word: &[u8]) -> Option<u32>
    ensures number { result ≡ spec.number_of word.now }
    ensures some { IfSome result (λ number. 1 ≤ number) }
{
    match word {
        [a] if is_first_digit(*a) => Some(u32::from(*a - 48)),
        [a, b] if is_first_digit(*a) && is_digit(*b) => {
            Some(u32::from(*a - 48) * 10 + u32::from(*b - 48))
        }
        [a, b, c] if is_first_digit(*a) && is_digit(*b) && is_digit(*c) => {
            Some(u32::from(*a - 48) * 100 + u32::from(*b - 48) * 10 + u32::from(*c - 48))
        }
        _ => None,
    }
}

/// A number from 1 to the greatest one.
fn up_to(most: u32, word: &[u8]) -> Option<u32>
    ensures number { result ≡ spec.at_most most (spec.number_of word.now) }
    ensures some { IfSome result (λ number. (1 ≤ number) × (number ≤ most)) }
{
    let number = number_of(word)?;
    if number <= most { Some(number) } else { None }
}

/// The size of a generated workload: 1 to 256.
pub(crate) fn size_of(word: &[u8]) -> Option<u32>
    ensures size { result ≡ spec.size_of word.now }
    ensures sized { IfSome result (λ number. (1 ≤ number) × (number ≤ 256)) }
{
    up_to(LARGEST, word)
}

/// The number of workers: 1 to 64.
pub(crate) fn count_of(word: &[u8]) -> Option<u32>
    ensures count { result ≡ spec.count_of word.now }
    ensures counted { IfSome result (λ number. (1 ≤ number) × (number ≤ 64)) }
{
    up_to(MOST_WORKERS, word)
}
