//! What a channel has received.
ghost use Rattle.std.specs.Prelude.{◌≡◌, IfOk};
ghost use Rattle.lio_events.specs.ChannelBytes.{sent, sent_to, channel_bytes};

use crate::journal::Journal;
use lio_clauses::NoMemory;
use lio_values::{Act, Entry, Reply};
use std::alloc::Global;

/// The text of a send that was carried out.
fn sent<'a>(act: &'a Act, reply: &Reply) -> &'a [u8]
    ensures { result.now ≡ sent act.entry.now reply.now }
{
    match act {
        Act::Send(text) => match reply {
            Reply::Done => text.bytes(),
            Reply::Got(_) | Reply::Told(_) | Reply::Refused(_) => &[],
        },
        _ => &[],
    }
}

/// What an entry sends to a channel.
fn sent_to(channel: u32, entry: &Entry) -> &[u8]
    ensures { result.now ≡ sent_to channel entry.now.target entry.now.act entry.now.reply }
{
    match entry.target {
        Some(target) if target == channel => sent(&entry.act, &entry.reply),
        _ => &[],
    }
}

/// The bytes that the channel with this number has received: the texts of the sends to it, in
/// order.
pub fn channel_bytes(alloc: Global, journal: &Journal, channel: u32) -> Result<Vec<u8>, NoMemory>
    ensures { IfOk result (λ bytes. bytes.items ≡ channel_bytes journal.now channel) }
{
    let mut bytes = Vec::new(alloc);
    for entry in journal.entries() {
        let sent = sent_to(channel, entry);
        if !sent.is_empty() {
            bytes.extend_from_slice(sent)?;
        }
    }
    Ok(bytes)
}
