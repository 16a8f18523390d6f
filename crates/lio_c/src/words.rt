//! Words as bytes.

ghost use Rattle.std.specs.Prelude.{◌≡◌, ◌∷◌, [], ◌++◌, ℕ, List, IfOk, IfErr, OnOk};
ghost use Rattle.lio_front.specs.Sorted.{bytes_of_words};
ghost use Rattle.lio_c.specs.Netstrings.{netstrings};
ghost use Rattle.lio_c.specs.Bundle.{WordsRefuse, IsRefusal};

use crate::netstrings::{ItemsFault, read_items};
use crate::refusal::Refusal;
use lio_clauses::NoMemory;
use lio_values::Text;
use std::alloc::Global;
use std::str;

/// Appends a word.
fn push_word(alloc: Global, words: &mut Vec<String>, word: &str) -> Result<(), NoMemory>
    ensures { OnOk result (bytes_of_words words.new.items
        ≡ bytes_of_words words.old.items ++ word.now ∷ []) }
{
    words.push(String::from_str(alloc, word)?)?;
    Ok(())
}

/// Words of these texts.
fn texts_as_words(alloc: Global, items: &[Text]) -> Result<Vec<String>, Refusal>
    ensures ok { IfOk result (λ words. bytes_of_words words.items ≡ items.now) }
    ensures err { IfErr result (WordsRefuse items.now) }
{
    let mut words = Vec::new(alloc);
    for (number, item) in items.iter().enumerate() {
        let Ok(word) = str::from_utf8(item.bytes()) else {
            return Err(Refusal::WordNotText(number));
        };
        push_word(alloc, &mut words, word)?;
    }
    Ok(words)
}

/// The words of which bytes are the netstrings.
pub(crate) fn read_words(alloc: Global, bytes: &[u8]) -> Result<Vec<String>, Refusal>
    ensures ok { IfOk result (λ words. bytes.now ≡ netstrings (bytes_of_words words.items)) }
    ensures err { IfErr result (λ refusal. (files : List ℕ) → IsRefusal bytes.now files refusal) }
{
    match read_items(alloc, bytes) {
        Ok(items) => texts_as_words(alloc, items.as_slice()),
        Err(ItemsFault::Broken(place)) => Err(Refusal::WordsBroken(place)),
        Err(ItemsFault::NoMemory) => Err(Refusal::NoMemory),
    }
}
