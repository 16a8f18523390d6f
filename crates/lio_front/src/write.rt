//! Writing the files: the channels', the history and the view.

ghost use Rattle.std.specs.Prelude.{◌≡◌, ◌≤◌, [], ◌∷◌, All, IfErr, OnOk, if◌then◌else◌};
ghost use Rattle.std.specs.Option.{option_map};
ghost use Rattle.lio_events.specs.Printable.{IsPrintable};
ghost use Rattle.lio_labels.specs.Flow.{flows};
ghost use Rattle.lio_outside.specs.Outputs.{kept};
ghost use Rattle.lio_front.specs.Outputs.{journal_output, outputs, outputs_from};
ghost use Rattle.lio_front.specs.Outputs.{OutSays};

use crate::sends::channels_bytes;
use crate::status::Status;
use lio_clauses::Names;
use lio_events::{Journal, print_journal};
use lio_labels::Label;
use lio_outside::{KeepFault, Readers, Store};
use lio_policy::Policy;
use lio_values::Text;
use std::alloc::Global;

/// Who may read the new file of a channel with a label: everyone where all that flows to it is
/// public, and else its owner alone.
fn readers_of(label: &Label, public: &Label) -> Readers
    ensures { result ≡ (if flows label.now public.now then Readers.Everyone else Readers.Owner) }
{
    if label.flows(public) {
        Readers::Everyone
    } else {
        Readers::Owner
    }
}

/// Writes a file, and names it where it can't be written.
fn keep<S: Store>(
    alloc: Global,
    store: &mut S,
    file: &[u8],
    bytes: &[u8],
    readers: Readers,
) -> Result<(), Status>
    ensures count { (S.faults store.old).count ≤ (S.faults store.new).count }
    ensures ok { OnOk result (S.holds store.new ≡ kept (S.holds store.old)
        (record { name = file.now; bytes = bytes.now } ∷ [])) }
    ensures err { IfErr result (OutSays (S.holds store.old) (S.holds store.new)
        (record { name = file.now; bytes = bytes.now } ∷ []) (S.faults store.old)
        (S.faults store.new)) }
{
    let name = Text::of(alloc, file)?;
    match store.keep(alloc, file, bytes, readers) {
        Ok(()) => Ok(()),
        Err(KeepFault::Failed) => Err(Status::WriteFault(name)),
        Err(KeepFault::NoMemory) => Err(Status::NoMemory),
    }
}

/// Writes the channels' files in the policy's order, each with what the channel received.
fn keep_channels<S: Store>(
    alloc: Global,
    store: &mut S,
    policy: &Policy,
    journal: &Journal,
) -> Result<(), Status>
    ensures count { (S.faults store.old).count ≤ (S.faults store.new).count }
    ensures ok { OnOk result (S.holds store.new
        ≡ kept (S.holds store.old) (outputs_from journal.now 0 policy.now.channels)) }
    ensures err { IfErr result (OutSays (S.holds store.old) (S.holds store.new)
        (outputs_from journal.now 0 policy.now.channels) (S.faults store.old)
        (S.faults store.new)) }
{
    let channels = policy.channels.as_slice();
    let public = Label::public(alloc)?;
    let lists = channels_bytes(alloc, journal, channels.len())?;
    for (number, channel) in channels.iter().enumerate() {
        let readers = readers_of(&channel.label, &public);
        keep(
            alloc,
            store,
            channel.file.bytes(),
            lists[number].as_slice(),
            readers,
        )?;
    }
    Ok(())
}

/// Writes a journal's lines, with their tickets or without, where they have a file.
fn keep_journal<S: Store>(
    alloc: Global,
    store: &mut S,
    journal: &Journal,
    ticket: bool,
    names: &Names,
    file: Option<&[u8]>,
) -> Result<(), Status>
    requires { All (IsPrintable names.now) journal.now }
    ensures count { (S.faults store.old).count ≤ (S.faults store.new).count }
    ensures ok { OnOk result (S.holds store.new ≡ kept (S.holds store.old)
        (journal_output names.now ticket journal.now (option_map (λ name. name.now) file.entry))) }
    ensures err { IfErr result (OutSays (S.holds store.old) (S.holds store.new)
        (journal_output names.now ticket journal.now (option_map (λ name. name.now) file.entry))
        (S.faults store.old) (S.faults store.new)) }
{
    let Some(file) = file else {
        return Ok(());
    };
    let text = print_journal(alloc, journal, ticket, names)?;
    keep(alloc, store, file, text.as_slice(), Readers::Owner)
}

/// Writes the channels' files in the policy's order, each with what the channel received, then the
/// history with its tickets, and then what an observer sees without tickets, the last two where
/// they have a file. A new file is its owner's alone, but where its channel's label flows to the
/// public one. After want of memory a first part of the files is written, none or all of them
/// included.
pub fn write_out<S: Store>(
    alloc: Global,
    store: &mut S,
    policy: &Policy,
    journal: &Journal,
    history: Option<&[u8]>,
    view: Option<&[u8]>,
    seen: &Journal,
) -> Result<(), Status>
    requires journal { All (IsPrintable policy.now.names) journal.now }
    requires seen { All (IsPrintable policy.now.names) seen.now }
    ensures count { (S.faults store.old).count ≤ (S.faults store.new).count }
    ensures ok { OnOk result (S.holds store.new ≡ kept (S.holds store.old)
        (outputs policy.now journal.now (option_map (λ name. name.now) history.entry)
        (option_map (λ name. name.now) view.entry) seen.now)) }
    ensures err { IfErr result (OutSays (S.holds store.old) (S.holds store.new)
        (outputs policy.now journal.now (option_map (λ name. name.now) history.entry)
        (option_map (λ name. name.now) view.entry) seen.now)
        (S.faults store.old) (S.faults store.new)) }
{
    keep_channels(alloc, store, policy, journal)?;
    keep_journal(alloc, store, journal, true, &policy.names, history)?;
    keep_journal(alloc, store, seen, false, &policy.names, view)
}
