//! The options, and what a word says.

ghost use Rattle.std.specs.Prelude.{◌≡◌};
ghost use Rattle.lio_front.specs.Walk as spec;
ghost use Rattle.lio_front.specs.Sorted.{said_of};

/// An option.
#[derive(Clone, Copy)]
pub enum Name {
    History,
    View,
    Observer,
    Make,
    Workers,
    Check,
}

/// What a word says.
#[derive(Clone, Copy)]
pub(crate) enum Said<'a> {
    /// Only plain words follow.
    Dashes,
    /// The option has the next word as its value.
    Takes(Name),
    /// The option has this value.
    Has(Name, &'a [u8]),
    /// Nothing: it is a plain word.
    Plain,
}

/// What follows an option's name says.
fn said_behind(name: Name, rest: &[u8]) -> Said<'_>
    ensures { said_of result ≡ spec.said_behind name rest.now }
{
    match rest {
        [] => Said::Takes(name),
        [b'=', value @ ..] => Said::Has(name, value),
        _ => Said::Plain,
    }
}

/// What a word says that begins with an option, and else what another reading gives.
fn said_by<'a>(text: &[u8], name: Name, word: &'a [u8], otherwise: Said<'a>) -> Said<'a>
    ensures { said_of result ≡ spec.said_by text.now name word.now (said_of otherwise.entry) }
{
    match word.strip_prefix(text) {
        Some(rest) => said_behind(name, rest),
        None => otherwise,
    }
}

/// What a word says.
pub(crate) fn read_word(word: &[u8]) -> Said<'_>
    ensures { said_of result ≡ spec.said word.now }
{
    if word == b"--".as_slice() {
        return Said::Dashes;
    }
    let checked = said_by(b"--check", Name::Check, word, Said::Plain);
    let counted = said_by(b"--workers", Name::Workers, word, checked);
    let made = said_by(b"--make", Name::Make, word, counted);
    let observed = said_by(b"--observer", Name::Observer, word, made);
    let viewed = said_by(b"--view", Name::View, word, observed);
    said_by(b"--history", Name::History, word, viewed)
}
