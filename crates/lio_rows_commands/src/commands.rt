//! Which command is answered by what.
ghost use Rattle.std.specs.Prelude.{◌≡◌, ◌≢◌, ◌++◌, codes, map, IfSome, OnOk, OnErr};

use crate::answers::Answered;
use crate::{entries, formulas, labels, names, operators};
use lio_clauses::Names;
use std::alloc::Global;

/// What a command over a list of principals answers, if the word and the number of fields are those
/// of one. `names` begins a new list with the names in its fields, and leaves those before a
/// refused one in it; `add` adds the name in its field; no other command changes the list.
pub fn answer(alloc: Global, names: &mut Names, word: &str, fields: &[Vec<u8>]) -> Answered
    ensures begins { word.now ≡ codes "names"
        → IfSome result (λ given. OnOk given (names.new ≡ map (λ field. field.items) fields.now)) }
    ensures adds { word.now ≡ codes "add"
        → IfSome result (λ given. OnOk given (names.new
        ≡ names.old ++ map (λ field. field.items) fields.now)) }
    ensures refused { word.now ≡ codes "add"
        → IfSome result (λ given. OnErr given (names.new ≡ names.old)) }
    ensures stays { word.now ≢ codes "names" → word.now ≢ codes "add" → names.new ≡ names.old }
{
    match word {
        "names" => Some(names::begin(alloc, names, fields)),
        "add" => Some(names::add(alloc, names, fields)),
        _ => answer_over(alloc, names, word, fields),
    }
}

/// What a command answers that changes nothing.
fn answer_over(alloc: Global, names: &Names, word: &str, fields: &[Vec<u8>]) -> Answered {
    if let Some(answer) = names::answer(alloc, names, word, fields) {
        return Some(answer);
    }
    if let Some(answer) = formulas::answer(alloc, names, word, fields) {
        return Some(answer);
    }
    if let Some(answer) = labels::answer(alloc, names, word, fields) {
        return Some(answer);
    }
    if let Some(answer) = entries::answer(alloc, names, word, fields) {
        return Some(answer);
    }
    operators::answer(alloc, names, word, fields)
}
