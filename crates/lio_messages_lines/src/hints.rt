//! What helps to mend a line of a script that breaks a rule. What a hint says has no contract; rows
//! show it.

use lio_clauses::NoMemory;
use lio_syntax::parameter_count;
use lio_syntax_lines::{Keyword, split_word, without_return};
use lio_values::Text;
use std::alloc::Global;

/// What helps to mend a line.
#[derive(Drop)]
pub(crate) enum Hint {
    Nothing,
    NothingOpen,
    /// The innermost block or procedure that is open before the line.
    Open(OpenAt),
    /// The procedure that isn't there.
    NoProcedure(Text),
    /// The procedure that is given another number of arguments than it has parameters.
    Takes(TakesAt),
}

/// A block or a procedure: the first word of the line that begins it or its last part, and how many
/// lines stand before that one.
#[derive(Drop)]
pub(crate) struct OpenAt {
    pub word: Keyword,
    pub line: usize,
}

/// A procedure, the number of its parameters, and how many arguments it is given.
#[derive(Drop)]
pub(crate) struct TakesAt {
    pub name: Text,
    pub wanted: usize,
    pub given: usize,
}

/// The line of a script with a number, from 1, without its line end; no bytes where there is none.
pub fn line_at(script: &[u8], number: u32) -> &[u8] {
    for (before, line) in script.split(|byte| *byte == b'\n').enumerate() {
        if before as u64 + 1 == number as u64 {
            return without_return(line);
        }
    }
    b""
}

/// The first word of a line, if the language has it.
fn keyword(line: &[u8]) -> Option<Keyword> {
    let (word, _) = split_word(line)?;
    Keyword::find(word)
}

/// Whether a line with this first word ends the innermost block, or the procedure, that is open
/// before it.
fn closes(word: Keyword) -> bool {
    matches!(word, Keyword::End | Keyword::Else | Keyword::Catch)
}

/// Whether a line with this first word opens a block or a procedure.
fn opens(word: Keyword) -> bool {
    matches!(
        word,
        Keyword::Proc | Keyword::If | Keyword::While | Keyword::Try | Keyword::Else | Keyword::Catch
    )
}

/// Goes past a line: what it ends is taken away, and what it opens is put on top.
fn pass(open: &mut Vec<OpenAt>, text: &[u8], line: usize) -> Result<(), NoMemory> {
    let Some(word) = keyword(text) else {
        return Ok(());
    };
    if closes(word) {
        open.pop();
    }
    if opens(word) {
        open.push(OpenAt { word, line })?;
    }
    Ok(())
}

/// The innermost block or procedure that is open before the line with a number.
fn open_before(alloc: Global, script: &[u8], number: u32) -> Result<Hint, NoMemory> {
    let mut open: Vec<OpenAt> = Vec::new(alloc);
    for (before, text) in script.split(|byte| *byte == b'\n').enumerate() {
        if before as u64 + 1 < number as u64 {
            pass(&mut open, without_return(text), before)?;
        }
    }
    Ok(match open.pop() {
        Some(innermost) => Hint::Open(innermost),
        None => Hint::NothingOpen,
    })
}

/// How many words a line has.
fn word_count(line: &[u8]) -> usize {
    let mut rest = line;
    for (count, _) in line.iter().enumerate() {
        let Some((_, behind)) = split_word(rest) else {
            return count;
        };
        rest = behind;
    }
    line.len()
}

/// The procedure that a line calls, forks or spawns, and how many arguments it gives.
fn callee(line: &[u8]) -> Option<(&[u8], usize)> {
    let (word, mut rest) = split_word(line)?;
    let before = match Keyword::find(word)? {
        Keyword::Call => 1,
        Keyword::Fork => 4,
        Keyword::Spawn => 2,
        _ => return None,
    };
    for _word in 0..before {
        let (_, behind) = split_word(rest)?;
        rest = behind;
    }
    let (name, rest) = split_word(rest)?;
    Some((name, word_count(rest)))
}

/// What helps to mend a line that calls, forks or spawns a procedure which isn't there or takes
/// another number of arguments.
fn callee_hint(alloc: Global, script: &[u8], line: &[u8]) -> Result<Hint, NoMemory> {
    let Some((name, given)) = callee(line) else {
        return Ok(Hint::Nothing);
    };
    let wanted = parameter_count(alloc, script, name)?;
    let name = Text::of(alloc, name)?;
    Ok(match wanted {
        None => Hint::NoProcedure(name),
        Some(wanted) => Hint::Takes(TakesAt {
            name,
            wanted,
            given,
        }),
    })
}

/// What helps to mend the line with a number that breaks a rule.
pub(crate) fn hint_at(
    alloc: Global,
    script: &[u8],
    number: u32,
    rule: u32,
) -> Result<Hint, NoMemory> {
    match rule {
        2 => open_before(alloc, script, number),
        3 | 4 => callee_hint(alloc, script, line_at(script, number)),
        _ => Ok(Hint::Nothing),
    }
}
