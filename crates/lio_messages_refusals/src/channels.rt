//! Files that couldn't be read or written.

use lio_messages_hints::{Message, Piece};
use lio_policy::Policy;
use lio_values::Text;

/// How many channels were written, and how many there are.
#[derive(Clone, Copy)]
pub struct Channels {
    written: usize,
    all: usize,
}

/// The channels that are written before the file with a name, in a policy.
pub(crate) fn channels_before(policy: &Policy, name: &Text) -> Channels {
    let channels = policy.channels.as_slice();
    let mut written = 0usize;
    for channel in channels {
        if channel.file.bytes() == name.bytes() {
            break;
        }
        written = written.saturating_add(1);
    }
    Channels {
        written,
        all: channels.len(),
    }
}

/// What stood in the way of a file that couldn't be read or written, and the channels that were
/// written before it, where that is known.
#[derive(Drop)]
pub struct FileFault {
    pub why: Option<String>,
    pub channels: Option<Channels>,
}

/// Tells of a file that couldn't be read.
pub(crate) fn tell_unread(message: &mut Message, read: &str, fault: Option<&FileFault>) {
    message.words(read);
    message.words(" couldn't be read");
    match fault {
        Some(FileFault { why: Some(why), .. }) => {
            message.words(": ");
            message.words(why.as_str());
        }
        _ => message.words("; see that it is a file, and that it may be read"),
    }
}

/// Tells of a file that couldn't be written.
pub(crate) fn tell_unwritten(message: &mut Message, fault: Option<&FileFault>) {
    message.words("the file couldn't be written");
    let Some(FileFault { why, channels }) = fault else {
        return;
    };
    match why {
        Some(why) => {
            message.words(": ");
            message.words(why.as_str());
        }
        None => {
            message.words("; see that it and its folder may be written, and that there is room");
        }
    }
    if let Some(Channels { written, all }) = channels {
        message.fill(
            "; channels written before it: {} of {}",
            Piece::Number(*written as u64),
            Piece::Number(*all as u64),
            Piece::Nothing,
        );
    }
}
