//! The words as they are sorted.

ghost use Rattle.std.specs.Prelude.{◌≡◌, ◌++◌, ◌∷◌, ℕ, List, IsTrue, MatchOption, None};
ghost use Rattle.std.specs.Option.{option_map};
ghost use Rattle.lio_front.specs.Command as spec;
ghost use Rattle.lio_front.specs.Command.{command_by, command_of};
ghost use Rattle.lio_front.specs.Sorted.{AreNames, before, bytes_of_words};
ghost use Rattle.lio_front.specs.Sorted.{MayNotCome, sorted_of};
ghost use Rattle.lio_front.specs.Walk.{Walked, walked, with_plain, with_value};

use crate::words::place::Place;
use crate::words::said::{Name, Said, read_word};

/// Whether a word may be a name or a value: it isn't empty and doesn't begin with `-`.
pub fn is_name(word: &[u8]) -> bool
    ensures { result ≡ spec.is_name word.now }
{
    match word {
        [] => false,
        [first, ..] => *first != b'-',
    }
}

/// A word that may be the value of an option that has none so far.
fn only<'a>(so_far: Option<&'a [u8]>, word: &'a [u8]) -> Option<&'a [u8]>
    ensures { MatchOption result (MayNotCome (option_map (λ w. w.now) so_far.entry) word.now)
        (λ value. (so_far.entry ≡ None) × (value.now ≡ word.now) × IsTrue (spec.is_name word.now)) }
{
    match so_far {
        None if is_name(word) => Some(word),
        _ => None,
    }
}

/// The plain words: two at most.
#[derive(Clone, Copy)]
pub(crate) enum Plain<'a> {
    Nothing,
    One(&'a [u8]),
    Two(&'a [u8], &'a [u8]),
}

/// The words that are sorted so far: the plain words, and a value of each option.
#[derive(Clone, Copy)]
pub(crate) struct Sorted<'a> {
    pub plain: Plain<'a>,
    pub history: Option<&'a [u8]>,
    pub view: Option<&'a [u8]>,
    pub observer: Option<&'a [u8]>,
    pub size: Option<&'a [u8]>,
    pub workers: Option<&'a [u8]>,
    pub check: Option<&'a [u8]>,
}

impl<'a> Sorted<'a> {
    /// The words with one more plain word, if it may come.
    fn with_plain(self, word: &'a [u8]) -> Option<Sorted<'a>>
        ensures cases { MatchOption result
            ((rest : Walked) → command_by (before (sorted_of self.entry) (with_plain word.now rest))
            ≡ None)
            (λ next. (rest : Walked) → before (sorted_of self.entry) (with_plain word.now rest)
            ≡ before (sorted_of next) rest) }
        ensures names { AreNames (sorted_of self.entry) → MatchOption result (Unit {0})
            (λ next. AreNames (sorted_of next)) }
    {
        if !is_name(word) {
            return None;
        }
        let plain = match self.plain {
            Plain::Nothing => Plain::One(word),
            Plain::One(first) => Plain::Two(first, word),
            Plain::Two(_, _) => return None,
        };
        Some(Sorted { plain, ..self })
    }

    /// The words with a value of an option, if it may come.
    fn with_value(self, name: Name, word: &'a [u8]) -> Option<Sorted<'a>>
        ensures cases { MatchOption result
            ((rest : Walked) → command_by (before (sorted_of self.entry) (with_value name word.now rest))
            ≡ None)
            (λ next. (rest : Walked) → before (sorted_of self.entry) (with_value name word.now rest)
            ≡ before (sorted_of next) rest) }
        ensures names { AreNames (sorted_of self.entry) → MatchOption result (Unit {0})
            (λ next. AreNames (sorted_of next)) }
    {
        let mut next = self;
        match name {
            Name::History => next.history = Some(only(self.history, word)?),
            Name::View => next.view = Some(only(self.view, word)?),
            Name::Observer => next.observer = Some(only(self.observer, word)?),
            Name::Make => next.size = Some(only(self.size, word)?),
            Name::Workers => next.workers = Some(only(self.workers, word)?),
            Name::Check => next.check = Some(only(self.check, word)?),
        }
        Some(next)
    }

    /// The words with one more, and where the walk then stands, if it may come.
    fn with_word(self, place: Place, word: &'a [u8]) -> Option<(Sorted<'a>, Place)>
        ensures cases { MatchOption result
            ((words : List (List ℕ))
            → command_by (before (sorted_of self.entry) (walked place (word.now ∷ words))) ≡ None)
            (λ next. (words : List (List ℕ))
            → before (sorted_of self.entry) (walked place (word.now ∷ words))
            ≡ before (sorted_of next.0) (walked next.1 words)) }
        ensures names { AreNames (sorted_of self.entry) → MatchOption result (Unit {0})
            (λ next. AreNames (sorted_of next.0)) }
    {
        match place {
            Place::Anywhere => match read_word(word) {
                Said::Dashes => Some((self, Place::PlainOnly)),
                Said::Takes(name) => Some((self, Place::Behind(name))),
                Said::Has(name, value) => Some((self.with_value(name, value)?, Place::Anywhere)),
                Said::Plain => Some((self.with_plain(word)?, Place::Anywhere)),
            },
            Place::Behind(name) => Some((self.with_value(name, word)?, Place::Anywhere)),
            Place::PlainOnly => Some((self.with_plain(word)?, Place::PlainOnly)),
        }
    }
}

/// The words sorted, if none of them breaks the rules of options and of names.
pub(crate) fn sort_words(words: &[String]) -> Option<Sorted<'_>>
    ensures { MatchOption result (command_of (bytes_of_words words.now) ≡ None)
        (λ s. AreNames (sorted_of s)
        × (command_of (bytes_of_words words.now) ≡ command_by (sorted_of s))) }
{
    let mut sorted = Sorted {
        plain: Plain::Nothing,
        history: None,
        view: None,
        observer: None,
        size: None,
        workers: None,
        check: None,
    };
    let mut place = Place::Anywhere;
    for word in words {
        let (next, after) = sorted.with_word(place, word.as_str().as_bytes())?;
        sorted = next;
        place = after;
    }
    match place {
        Place::Behind(_) => None,
        Place::Anywhere | Place::PlainOnly => Some(sorted),
    }
}
