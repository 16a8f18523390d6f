//! Acts.
ghost use Rattle.std.specs.Prelude.{◌≡◌, codes, IfOk};
ghost use Rattle.lio_events.specs.EntryText.{act_text, op_text};
ghost use Rattle.lio_events.specs.Printable.{IsRaising};
ghost use Rattle.lio_events_reading.specs.Behind as spec;
ghost use Rattle.lio_events_reading.specs.Behind.{op_named, word_of_act};
ghost use Rattle.lio_events_reading.specs.Over.{IsActOver};
ghost use Rattle.lio_events_reading.specs.Reading.{Finds, FindsBefore};

use crate::births::birth_behind;
use crate::cursor::Cursor;
use crate::labels::{blank_label, power, two_labels};
use crate::plain::text_in_quotes;
use crate::values::{blank_content, blank_option, blank_value};
use crate::words::{ActWord, OpWord};
use lio_clauses::{Names, NoMemory};
use lio_values::{Act, Held, Op};
use std::alloc::Global;

/// Takes the operation of a raise, or gives another one where there is none.
fn op(text: &mut Cursor) -> Op
    ensures finds { Finds op_text IsRaising text.old result text.new }
    ensures over { IsRaising result }
{
    match OpWord::find(text.word()) {
        Some(word) => op_of(word),
        None => Op::Unlabel,
    }
}

/// The operation that a word names.
fn op_of(word: OpWord) -> Op
    ensures named { result ≡ op_named word }
    ensures raising { IsRaising result }
{
    match word {
        OpWord::Unlabel => Op::Unlabel,
        OpWord::Taint => Op::Taint,
        OpWord::Read => Op::Read,
        OpWord::Wait => Op::Wait,
        OpWord::Take => Op::Take,
        OpWord::Put => Op::Put,
    }
}

/// Takes a release behind its word.
fn release_behind(text: &mut Cursor, alloc: Global, names: &Names) -> Result<Act, NoMemory>
    ensures finds { IfOk result (λ found. FindsBefore (codes " : ") (spec.act_behind names.now)
        (λ act. IsActOver names.now act × (word_of_act act ≡ ActWord.Release))
        text.old found text.new) }
    ensures over { IfOk result (IsActOver names.now) }
{
    let (source, target) = two_labels(text, alloc, names)?;
    let source = Held::new(alloc, source)?;
    let target = Held::new(alloc, target)?;
    let power = power(text, alloc, names)?;
    let content = blank_content(text, alloc, names)?;
    Ok(Act::Release(source, target, power, content))
}

/// Takes an exposure behind its word.
fn exposure_behind(text: &mut Cursor, alloc: Global, names: &Names) -> Result<Act, NoMemory>
    ensures finds { IfOk result (λ found. FindsBefore (codes " : ") (spec.act_behind names.now)
        (λ act. IsActOver names.now act × (word_of_act act ≡ ActWord.Expose))
        text.old found text.new) }
    ensures over { IfOk result (IsActOver names.now) }
{
    let (source, target) = two_labels(text, alloc, names)?;
    let source = Held::new(alloc, source)?;
    let target = Held::new(alloc, target)?;
    let power = power(text, alloc, names)?;
    let content = blank_content(text, alloc, names)?;
    Ok(Act::Expose(source, target, power, content))
}

/// Takes what stands behind the first word of an act.
fn act_behind(
    word: ActWord,
    text: &mut Cursor,
    alloc: Global,
    names: &Names,
) -> Result<Act, NoMemory>
    ensures finds { IfOk result (λ found. FindsBefore (codes " : ") (spec.act_behind names.now)
        (λ act. IsActOver names.now act × (word_of_act act ≡ word)) text.old found text.new) }
    ensures over { IfOk result (IsActOver names.now) }
{
    match word {
        ActWord::Step => Ok(Act::Step),
        ActWord::Seal => Ok(Act::Seal(blank_label(text, alloc, names)?)),
        ActWord::Raise => {
            text.skip(1);
            let op = op(text);
            let label = blank_label(text, alloc, names)?;
            Ok(Act::Raise(op, label))
        }
        ActWord::Lower => Ok(Act::Lower(blank_label(text, alloc, names)?)),
        ActWord::Release => release_behind(text, alloc, names),
        ActWord::Expose => exposure_behind(text, alloc, names),
        ActWord::NewRef => {
            let label = blank_label(text, alloc, names)?;
            Ok(Act::NewRef(label, blank_value(text, alloc, names)?))
        }
        ActWord::NewVar => {
            let label = blank_label(text, alloc, names)?;
            Ok(Act::NewVar(label, blank_option(text, alloc, names)?))
        }
        ActWord::Fork => Ok(Act::Fork(birth_behind(text, alloc, names)?)),
        ActWord::Spawn => Ok(Act::Spawn(birth_behind(text, alloc, names)?)),
        ActWord::Read => Ok(Act::Read),
        ActWord::Write => Ok(Act::Write(blank_value(text, alloc, names)?)),
        ActWord::Take => Ok(Act::Take),
        ActWord::Put => Ok(Act::Put(blank_value(text, alloc, names)?)),
        ActWord::Wait => Ok(Act::Wait),
        ActWord::Send => {
            text.skip(1);
            Ok(Act::Send(text_in_quotes(text, alloc, names)?))
        }
        ActWord::Ended => Ok(Act::Ended(blank_content(text, alloc, names)?)),
    }
}

/// Takes an act, up to the colon behind it.
pub(crate) fn act(text: &mut Cursor, alloc: Global, names: &Names) -> Result<Act, NoMemory>
    ensures finds { IfOk result (λ found. FindsBefore (codes " : ") (act_text names.now)
        (IsActOver names.now) text.old found text.new) }
    ensures over { IfOk result (IsActOver names.now) }
{
    match ActWord::find(text.word()) {
        Some(word) => act_behind(word, text, alloc, names),
        None => Ok(Act::Step),
    }
}
