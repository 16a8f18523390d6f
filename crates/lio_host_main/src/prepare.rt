//! What a call is to run: the policy, the script and the inputs that its command names.

ghost use Rattle.std.specs.Prelude.{◌≡◌, ◌≤◌, ◌++◌, Ok, IfOk, IfErr, OnOk, length};
ghost use Rattle.std.specs.Option.{option_map};
ghost use Rattle.lio_outside.specs.Asking.{Give, Refuse};
ghost use Rattle.lio_front.specs.Laws.{name_list};
ghost use Rattle.lio_front.specs.Command.{IsCounted, IsSized};
ghost use Rattle.lio_front.specs.Sorted.{mode_named, named, source_named};
ghost use Rattle.lio_host_main.specs.Order.{IsCountedWay, files_read, label_text, names_added};
ghost use Rattle.lio_host_main.specs.Order.{names_read, order_of, replayed, view_file, way_of};
ghost use Rattle.lio_host_main.specs.Verdict.{AreGiven, IsRefusedBy, cause_of, loading};
ghost use Rattle.lio_host_main.specs.Verdict.{loading_from};
ghost use Rattle.lio_host_main.specs.Verdict.{of_source, ordering, taking, told_of};

use crate::order::{Loaded, Order, Way};
use crate::workload_files::{POLICY, SCRIPT, workload};
use lio_audit::MOST_HISTORY_BYTES;
use lio_clauses::NoMemory;
use lio_front::{Command, Mode, Source, Status, Texts, clash, fetch, load, load_inputs};
use lio_outside::Store;
use lio_policy::Policy;
use lio_start::Job;
use lio_values::{List, Text};
use std::alloc::Global;

/// The most bytes of a history.
const MOST_BYTES: u32 = MOST_HISTORY_BYTES as u32;

/// The text of the observer's label.
fn label_of<'a>(command: Command<'a>) -> Option<&'a [u8]>
    ensures { option_map (λ text. text.now) result ≡ label_text (named command.entry) }
{
    match command.view {
        Some(watch) => Some(watch.label),
        None => None,
    }
}

/// The file of the view.
pub(crate) fn view_of<'a>(command: Command<'a>) -> Option<&'a [u8]>
    ensures { option_map (λ name. name.now) result ≡ view_file (named command.entry) }
{
    match command.view {
        Some(watch) => Some(watch.file),
        None => None,
    }
}

/// Appends a name, where there is one.
fn append_name(alloc: Global, names: &mut List<Text>, name: Option<&[u8]>) -> Result<(), NoMemory>
    ensures { OnOk result (names.new
        ≡ names.old ++ name_list (option_map (λ text. text.now) name.entry)) }
{
    if let Some(name) = name {
        names.push(Text::of(alloc, name)?)?;
    }
    Ok(())
}

/// The names of the files that a command writes beside the channels'.
fn added_names(alloc: Global, command: Command<'_>) -> Result<List<Text>, NoMemory>
    ensures { IfOk result (λ names. names ≡ names_added (named command.entry)) }
{
    let mut names = List::new(alloc);
    append_name(alloc, &mut names, command.history)?;
    append_name(alloc, &mut names, view_of(command))?;
    Ok(names)
}

/// The names of the policy and of the script, where they are files.
fn source_names(alloc: Global, source: Source<'_>) -> Result<List<Text>, NoMemory>
    ensures { IfOk result (λ names. names ≡ files_read (source_named source.entry)) }
{
    let mut names = List::new(alloc);
    if let Source::Files(policy, script) = source {
        names.push(Text::of(alloc, policy)?)?;
        names.push(Text::of(alloc, script)?)?;
    }
    Ok(names)
}

/// The history that is taken again, where one is.
fn history_read<'a>(mode: Mode<'a>) -> Option<&'a [u8]>
    ensures { option_map (λ name. name.now) result ≡ replayed (mode_named mode.entry) }
{
    match mode {
        Mode::Replay(file) => Some(file),
        Mode::Rounds | Mode::Workers(_) => None,
    }
}

/// The names of the files that are read of the store beside the inputs.
fn read_names(alloc: Global, command: Command<'_>) -> Result<List<Text>, NoMemory>
    ensures { IfOk result (λ names. names ≡ names_read (named command.entry)) }
{
    let mut names = source_names(alloc, command.source)?;
    append_name(alloc, &mut names, history_read(command.mode))?;
    Ok(names)
}

/// Sees that no file that is written is taken, and fetches the inputs. The store's files stay.
fn take_inputs<S: Store>(
    alloc: Global,
    store: &mut S,
    command: Command<'_>,
    policy: &Policy,
) -> Result<List<Text>, Status>
    ensures files { S.holds store.new ≡ S.holds store.old }
    ensures count { (S.faults store.old).count ≤ (S.faults store.new).count }
    ensures ok { IfOk result (λ inputs. Give (S.holds store.old)
        (taking (named command.entry) policy.now) (Ok inputs)) }
    ensures each { IfOk result (λ inputs. length inputs ≡ length policy.now.inputs) }
    ensures err { IfErr result (λ status. Refuse (cause_of status) (S.holds store.old)
        (taking (named command.entry) policy.now)
        (S.faults store.old) (S.faults store.new) status) }
{
    let added = added_names(alloc, command)?;
    let read = read_names(alloc, command)?;
    if let Some(name) = clash(alloc, policy, &added, &read)? {
        return Err(Status::Clash(name));
    }
    load_inputs(alloc, store, policy)
}

/// Fetches and reads the policy and then the script with these names, sees that no file that is
/// written is taken, and fetches the inputs. The store's files stay.
fn load_from<S: Store>(
    alloc: Global,
    store: &mut S,
    policy: &[u8],
    script: &[u8],
    command: Command<'_>,
    texts: &mut Texts,
) -> Result<Loaded, Status>
    ensures files { S.holds store.new ≡ S.holds store.old }
    ensures count { (S.faults store.old).count ≤ (S.faults store.new).count }
    ensures ok { IfOk result (λ loaded. Give (S.holds store.old)
        (loading_from policy.now script.now (named command.entry)) (Ok loaded)) }
    ensures err { IfErr result (λ status. Refuse (cause_of status) (S.holds store.old)
        (loading_from policy.now script.now (named command.entry))
        (S.faults store.old) (S.faults store.new) status) }
{
    let front = load(alloc, store, policy, script, label_of(command), texts)?;
    match take_inputs(alloc, store, command, &front.policy) {
        Ok(inputs) => Ok(Loaded {
            job: Job::of(front.policy, front.script, inputs),
            observer: front.observer,
        }),
        Err(status) => Err(status),
    }
}

/// Loads what a command runs: the policy and the script of two files, or a generated workload, for
/// which nothing of the store is read. The store's files stay.
fn load_source<S: Store>(
    alloc: Global,
    store: &mut S,
    command: Command<'_>,
    texts: &mut Texts,
) -> Result<Loaded, Status>
    requires { IsSized (source_named command.source) }
    ensures files { S.holds store.new ≡ S.holds store.old }
    ensures count { (S.faults store.old).count ≤ (S.faults store.new).count }
    ensures ok { IfOk result (λ loaded. Give
        (told_of (source_named command.entry.source) (S.holds store.old))
        (loading (named command.entry)) (Ok loaded)) }
    ensures err { IfErr result (λ status. Refuse
        (of_source (source_named command.entry.source) (cause_of status))
        (told_of (source_named command.entry.source) (S.holds store.old))
        (loading (named command.entry)) (S.faults store.old) (S.faults store.new) status) }
{
    match command.source {
        Source::Files(policy, script) => load_from(alloc, store, policy, script, command, texts),
        Source::Made(size) => {
            let mut files = workload(alloc, size)?;
            load_from(alloc, &mut files, POLICY, SCRIPT, command, texts)
        }
    }
}

/// How the turns are taken; a history that is taken again is fetched. The store's files stay.
fn load_way<S: Store>(alloc: Global, store: &mut S, mode: Mode<'_>) -> Result<Way, Status>
    ensures files { S.holds store.new ≡ S.holds store.old }
    ensures count { (S.faults store.old).count ≤ (S.faults store.new).count }
    ensures counted { IsCounted (mode_named mode.entry) → IfOk result IsCountedWay }
    ensures ok { IfOk result (λ way. Give (S.holds store.old)
        (ordering (mode_named mode.entry)) (Ok (way_of way))) }
    ensures err { IfErr result (λ status. Refuse (cause_of status) (S.holds store.old)
        (ordering (mode_named mode.entry)) (S.faults store.old) (S.faults store.new) status) }
{
    match mode {
        Mode::Rounds => Ok(Way::InRounds),
        Mode::Workers(count) => Ok(Way::ByWorkers(count)),
        Mode::Replay(file) => Ok(Way::AsTold(fetch(alloc, store, file, MOST_BYTES)?)),
    }
}

/// Prepares what a command asks for. The bytes of the policy and of the script are handed back as
/// far as they were read, whatever the answer. The store's files stay.
pub fn prepare_order<'a, S: Store>(
    alloc: Global,
    store: &mut S,
    command: Command<'a>,
    texts: &mut Texts,
) -> Result<Order<'a>, Status>
    requires sized { IsSized (source_named command.source) }
    requires counted { IsCounted (mode_named command.mode) }
    ensures files { S.holds store.new ≡ S.holds store.old }
    ensures count { (S.faults store.old).count ≤ (S.faults store.new).count }
    ensures counted { IfOk result (λ order. IsCountedWay order.way) }
    ensures command { IfOk result (λ order. named order.command ≡ named command.entry) }
    ensures ok { IfOk result (λ order. AreGiven (S.holds store.old) (order_of order)) }
    ensures err { IfErr result (λ status. IsRefusedBy (named command.entry) (S.holds store.old)
        (S.faults store.old) (S.faults store.new) status) }
{
    let Loaded { job, observer } = load_source(alloc, store, command, texts)?;
    match load_way(alloc, store, command.mode) {
        Ok(way) => Ok(Order {
            job,
            command,
            observer,
            way,
        }),
        Err(status) => {
            drop(observer);
            drop(job);
            Err(status)
        }
    }
}
