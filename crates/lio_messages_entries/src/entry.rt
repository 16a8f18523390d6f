//! Which thing of a draft an entry is.

use lio_messages_hints::Message;
use lio_policy_draft::{Draft, FileDraft, TaskDraft};
use lio_values::Text;

/// An entry of a draft, with its place in its list.
#[derive(Clone, Copy)]
pub(crate) enum Entry<'d> {
    /// The document.
    Document,
    /// A principal.
    Principal(usize, &'d Text),
    /// A channel.
    Channel(usize, &'d FileDraft),
    /// An input.
    Input(usize, &'d FileDraft),
    /// A task.
    Task(usize, &'d TaskDraft),
}

/// The entry of a draft with a number, as the document where there is none.
pub(crate) fn entry_of(draft: &Draft, number: u32) -> Entry<'_> {
    let Some(place) = (number as usize).checked_sub(1) else {
        return Entry::Document;
    };
    let principals = draft.principals.as_slice();
    if let Some(name) = principals.get(place) {
        return Entry::Principal(place, name);
    }
    let place = place.saturating_sub(principals.len());
    let channels = draft.channels.as_slice();
    if let Some(channel) = channels.get(place) {
        return Entry::Channel(place, channel);
    }
    let place = place.saturating_sub(channels.len());
    let inputs = draft.inputs.as_slice();
    if let Some(input) = inputs.get(place) {
        return Entry::Input(place, input);
    }
    let place = place.saturating_sub(inputs.len());
    match draft.tasks.as_slice().get(place) {
        Some(task) => Entry::Task(place, task),
        None => Entry::Document,
    }
}

/// The most names that are shown.
const MOST_SHOWN: usize = 8;

/// Writes the names of a list's entries: at most 8, with commas between.
pub(crate) fn show_names(message: &mut Message, files: &[FileDraft]) {
    if files.is_empty() {
        message.words("none");
    }
    for (place, file) in files.iter().take(MOST_SHOWN).enumerate() {
        if place > 0 {
            message.words(", ");
        }
        message.bytes(file.name.bytes());
    }
    if files.len() > MOST_SHOWN {
        message.words(", ..");
    }
}
