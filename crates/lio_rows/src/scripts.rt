//! Commands on scripts.
ghost use Rattle.lio_syntax.specs.Verdict.{IsOver};

use crate::refusal::{Answered, Refusal};
use lio_clauses::{Names, NoMemory};
use lio_rows_commands::Answer;
use lio_syntax::{Script, print_script, read_script};
use std::alloc::Global;

/// What a command on scripts answers, if the word and the number of fields are those of one.
pub fn answer(alloc: Global, names: &Names, word: &str, fields: &[Vec<u8>]) -> Answered {
    match (word, fields) {
        ("script", [text]) => Some(script(alloc, names, text)),
        ("copy_script", [text]) => Some(copy(alloc, names, text)),
        _ => None,
    }
}

/// `script TEXT`: the canonical text of the script.
fn script(alloc: Global, names: &Names, text: &[u8]) -> Result<Answer, Refusal> {
    let script = read_script(alloc, text, names)?;
    let text = print_script(alloc, &script, names)?;
    Ok(Answer::Text(text))
}

/// The canonical text of a copy of a script.
fn copied(alloc: Global, names: &Names, script: &Script) -> Result<Vec<u8>, NoMemory>
    requires { IsOver names.now script.now }
{
    let copy = script.copy(alloc)?;
    print_script(alloc, &copy, names)
}

/// `copy_script TEXT`: the canonical text of a copy of the script.
fn copy(alloc: Global, names: &Names, text: &[u8]) -> Result<Answer, Refusal> {
    let script = read_script(alloc, text, names)?;
    let text = copied(alloc, names, &script)?;
    Ok(Answer::Text(text))
}
