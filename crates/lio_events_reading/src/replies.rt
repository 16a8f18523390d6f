//! Replies.
ghost use Rattle.std.specs.Prelude.{◌≡◌, IfOk};
ghost use Rattle.lio_events.specs.EntryText.{reply_text};
ghost use Rattle.lio_events_reading.specs.Behind as spec;
ghost use Rattle.lio_events_reading.specs.Behind.{word_of_reply};
ghost use Rattle.lio_events_reading.specs.Over.{IsReplyOver};
ghost use Rattle.lio_events_reading.specs.Reading.{Finds};

use crate::cursor::Cursor;
use crate::faults::fault;
use crate::values::{blank_content, blank_value};
use crate::words::ReplyWord;
use lio_clauses::{Names, NoMemory};
use lio_values::{Held, Reply};
use std::alloc::Global;

/// Takes a reply.
pub(crate) fn reply(text: &mut Cursor, alloc: Global, names: &Names) -> Result<Reply, NoMemory>
    ensures finds { IfOk result (λ found. Finds (reply_text names.now)
        (IsReplyOver names.now) text.old found text.new) }
    ensures over { IfOk result (IsReplyOver names.now) }
{
    match ReplyWord::find(text.word()) {
        Some(word) => reply_behind(word, text, alloc, names),
        None => Ok(Reply::Done),
    }
}

/// Takes what stands behind the first word of a reply.
fn reply_behind(
    word: ReplyWord,
    text: &mut Cursor,
    alloc: Global,
    names: &Names,
) -> Result<Reply, NoMemory>
    ensures finds { IfOk result (λ found. Finds (spec.reply_behind names.now)
        (λ reply. IsReplyOver names.now reply × (word_of_reply reply ≡ word))
        text.old found text.new) }
    ensures over { IfOk result (IsReplyOver names.now) }
{
    match word {
        ReplyWord::Done => Ok(Reply::Done),
        ReplyWord::Got => Ok(Reply::Got(blank_value(text, alloc, names)?)),
        ReplyWord::Told => Ok(Reply::Told(blank_content(text, alloc, names)?)),
        ReplyWord::Refused => {
            text.skip(1);
            let fault = fault(text, alloc, names)?;
            Ok(Reply::Refused(Held::new(alloc, fault)?))
        }
    }
}
