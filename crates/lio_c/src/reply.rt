//! The reply to a call.

ghost use Rattle.std.specs.Prelude.{◌≡◌, [], ◌∷◌, ◌++◌, IfOk, OnOk};
ghost use Rattle.std.specs.Option.{option_map};
ghost use Rattle.lio_front.specs.Clash.{names_written};
ghost use Rattle.lio_front.specs.Sorted.{bytes_of_words, named};
ghost use Rattle.lio_front.specs.Laws.{name_list};
ghost use Rattle.lio_host_main.specs.Order.{names_added, view_file};
ghost use Rattle.lio_c.specs.Alone.{alone_words};
ghost use Rattle.lio_c.specs.Answers.{AreNamed, names_and_bytes, or_none};
ghost use Rattle.lio_c.specs.Netstrings.{netstrings};
ghost use Rattle.lio_outside.specs.FileMap.{bytes_of};

use crate::alone::read_alone;
use crate::netstrings::print_item;
use lio_clauses::NoMemory;
use lio_front::{Command, Status};
use lio_host_main::Outcome;
use lio_outside::SureStore;
use lio_policy::Policy;
use lio_values::{List, Text};
use std::alloc::Global;

/// The names of the channels' files of a policy.
fn channel_names(alloc: Global, policy: &Policy) -> Result<List<Text>, NoMemory>
    ensures { IfOk result (λ names. names ≡ names_written policy.now []) }
{
    let mut names = List::new(alloc);
    for channel in policy.channels.as_slice() {
        names.push(channel.file.copy(alloc)?)?;
    }
    Ok(names)
}

/// Appends a name, where there is one.
fn push_name(alloc: Global, names: &mut List<Text>, name: Option<&[u8]>) -> Result<(), NoMemory>
    ensures { OnOk result (names.new
        ≡ names.old ++ name_list (option_map (λ text. text.now) name.entry)) }
{
    if let Some(name) = name {
        names.push(Text::of(alloc, name)?)?;
    }
    Ok(())
}

/// The name of the file of the view, where one is asked for.
fn view_name<'a>(command: Command<'a>) -> Option<&'a [u8]>
    ensures { option_map (λ name. name.now) result ≡ view_file (named command.entry) }
{
    match command.view {
        Some(watch) => Some(watch.file),
        None => None,
    }
}

/// The names of the files that a command writes under a policy.
fn names_of(alloc: Global, policy: &Policy, command: Command<'_>) -> Result<List<Text>, NoMemory>
    ensures { IfOk result (λ names. names
        ≡ names_written policy.now (names_added (named command.entry))) }
{
    let mut names = channel_names(alloc, policy)?;
    push_name(alloc, &mut names, command.history)?;
    push_name(alloc, &mut names, view_name(command))?;
    Ok(names)
}

/// The names of the files that were written. Want of memory is answered where a call that was done
/// comes without what was run, which it never does.
pub(crate) fn written(
    alloc: Global,
    words: &[String],
    outcome: &Outcome,
) -> Result<List<Text>, NoMemory>
    ensures { IfOk result (AreNamed (alone_words (bytes_of_words words.now)) outcome.now.status
        outcome.now.job) }
{
    let Status::Done = outcome.status else {
        return Ok(List::new(alloc));
    };
    let Some(job) = &outcome.job else {
        return Err(NoMemory);
    };
    let Some(command) = read_alone(words) else {
        return Err(NoMemory);
    };
    names_of(alloc, job.policy(), command)
}

/// The bytes under a name, or none.
fn bytes_under<'a>(store: &'a SureStore, name: &[u8]) -> &'a [u8]
    ensures { result.now ≡ or_none (bytes_of store.now name.now) }
{
    match store.get(name) {
        Some(bytes) => bytes,
        None => &[],
    }
}

/// Appends each of these names with the bytes under it.
fn print_files(out: &mut Vec<u8>, store: &SureStore, names: &[Text]) -> Result<(), NoMemory>
    ensures { OnOk result (out.new.items
        ≡ out.old.items ++ netstrings (names_and_bytes store.now names.now)) }
{
    for name in names {
        print_item(out, name.bytes())?;
        print_item(out, bytes_under(store, name.bytes()))?;
    }
    Ok(())
}

/// The reply: what was said, a message, and the files with these names.
pub(crate) fn print_reply(
    alloc: Global,
    said: &[u8],
    message: &[u8],
    store: &SureStore,
    names: &[Text],
) -> Result<Vec<u8>, NoMemory>
    ensures { IfOk result (λ reply. reply.items
        ≡ netstrings (said.now ∷ message.now ∷ names_and_bytes store.now names.now)) }
{
    let mut out = Vec::new(alloc);
    print_item(&mut out, said)?;
    print_item(&mut out, message)?;
    print_files(&mut out, store, names)?;
    Ok(out)
}
