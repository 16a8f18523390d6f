//! What is printed of a refusal.

use crate::channels::{FileFault, tell_unread, tell_unwritten};
use crate::detail::{Detail, refusal_detail};
use crate::entry::{tell_policy, tell_policy_rule};
use crate::line::{tell_script, tell_script_rule};
use crate::program::Program;
use crate::stop::{Stop, tell_line, tell_size, tell_stop};
use crate::task::{tell_some_task, tell_task};
use crate::words::{FileNames, file_names, label_of, tell_words, tell_wrong_label};
use lio_clauses::NoMemory;
use lio_front::{Shown, Status, Texts};
use lio_messages_hints::Message;
use lio_outside::{Say, Store};
use lio_values::Text;
use std::alloc::Global;

/// As what the words name a file.
#[derive(Clone, Copy)]
enum Role {
    Policy,
    Script,
    Record,
    Another,
}

/// As what the words name the file with a name.
fn role_of(name: &Text, names: FileNames<'_>) -> Role {
    let name = name.bytes();
    if names.are_given && name == names.policy.as_bytes() {
        return Role::Policy;
    }
    if names.are_given && name == names.script.as_bytes() {
        return Role::Script;
    }
    match names.record {
        Some(record) if name == record.as_bytes() => Role::Record,
        _ => Role::Another,
    }
}

/// As what a file is read.
fn read_as(program: Program, role: Role) -> &'static str {
    match (role, program) {
        (Role::Policy, _) => "the policy's file",
        (Role::Script, _) => "the script's file",
        (Role::Record, Program::Observer) => "the view's file",
        (Role::Record, _) => "the history's file",
        (Role::Another, Program::Observer) => "the file of an input that this label may learn",
        (Role::Another, _) => "an input's file",
    }
}

/// With what the name of a file that is written clashes.
fn taken_by(role: Role) -> &'static str {
    match role {
        Role::Policy => "it is the policy's own file",
        Role::Script => "it is the script's file",
        Role::Record => "it is the history that is taken again",
        Role::Another => "it is an input's file, or written before",
    }
}

/// Tells of a file that is to be written, and whose name is taken.
fn tell_clash(message: &mut Message, names: FileNames<'_>, name: &Text) {
    message.words(names.policy);
    message.words(": the file ");
    message.show(Shown(name));
    message.words(" is to be written, but ");
    message.words(taken_by(role_of(name, names)));
    message.words("; give the channel or the option another file");
}

/// What stood in the way of a file or of the output, where that is known.
fn fault_in(detail: &Detail) -> Option<&FileFault> {
    match detail {
        Detail::Fault(fault) => Some(fault),
        _ => None,
    }
}

/// Tells of a summary that couldn't be said, and why, where that is known.
fn tell_unsaid(message: &mut Message, program: Program, fault: Option<&FileFault>) {
    message.words(unsaid(program));
    if let Some(FileFault { why: Some(why), .. }) = fault {
        message.words(": ");
        message.words(why.as_str());
    }
}

/// The words for a summary that couldn't be said.
fn unsaid(program: Program) -> &'static str {
    match program {
        Program::Observer => {
            "the view is that of a run, and that couldn't be written to standard output"
        }
        Program::Questions =>
            "the answer couldn't be written to standard output; no file was to be",
        _ => "the files are written, and the summary couldn't be written to standard output",
    }
}

/// Tells of want of memory.
fn without_memory(program: Program) -> &'static str {
    match program {
        Program::Observer => {
            "no memory was left, and nothing is known of the view; give the process more memory"
        }
        Program::Questions => {
            "no memory was left, and the question isn't answered; give the process more memory"
        }
        _ => {
            "no memory was left; a first part of the files may be written; give the process more memory, or the policy's tasks fewer turns"
        }
    }
}

/// Tells of a history or a view that isn't that of a run.
fn tell_record(
    message: &mut Message,
    program: Program,
    names: FileNames<'_>,
    line: u32,
    detail: &Detail,
) {
    let file = match (names.record, program) {
        (Some(file), _) => file,
        (None, Program::Observer) => "view",
        (None, _) => "the history",
    };
    match detail {
        Detail::Stop(stop) => tell_stop(message, program, file, line, stop),
        _ if line == 0 => tell_size(message, program, file),
        _ => tell_line(message, program, file, line),
    }
}

/// Tells what was refused, where, and how to mend it. Nothing where all was done.
fn tell(
    alloc: Global,
    message: &mut Message,
    program: Program,
    status: &Status,
    words: &[String],
    detail: &Detail,
) {
    let names = file_names(program, words);
    let FileNames { policy, script, .. } = names;
    match (status, detail) {
        (Status::Done, _) => {}
        (Status::BadWords, Detail::Label(found)) => {
            tell_wrong_label(message, label_of(program, words).unwrap_or(b""), found);
        }
        (Status::BadWords, _) => tell_words(message, program, words),
        (Status::Missing(name), _) => {
            message.words(read_as(program, role_of(name, names)));
            message.words(
                " isn't there; names are looked up from the folder in which the command is given",
            );
        }
        (Status::ReadFault(name), _) => {
            let read = read_as(program, role_of(name, names));
            tell_unread(message, read, fault_in(detail));
        }
        (Status::BadPolicy(rule, entry), Detail::Entry(found)) => {
            tell_policy(message, policy, *rule, *entry, found);
        }
        (Status::BadPolicy(rule, _), _) => {
            tell_policy_rule(message, policy, *rule);
        }
        (Status::BadScript(line, rule), Detail::Line(found)) => {
            tell_script(alloc, message, script, *line, *rule, found);
        }
        (Status::BadScript(line, rule), _) => {
            tell_script_rule(message, script, *line, *rule);
        }
        (Status::BadStart(_, _), Detail::Task(task)) => {
            tell_task(message, program, policy, script, task);
        }
        (Status::BadStart(_, _), _) => tell_some_task(message, program, policy),
        (Status::WriteFault(_), _) => tell_unwritten(message, fault_in(detail)),
        (Status::SayFault, _) => tell_unsaid(message, program, fault_in(detail)),
        (Status::NoMemory, _) => message.words(without_memory(program)),
        (Status::NotARun(line) | Status::NotAView(line), _) => {
            tell_record(message, program, names, *line, detail);
        }
        (Status::Clash(name), _) => tell_clash(message, names, name),
    }
}

/// What is printed of a refusal: the answer, what was refused, where, and how to mend it. Nothing
/// where all was done.
pub fn refusal_text(
    alloc: Global,
    program: Program,
    status: &Status,
    words: &[String],
    detail: &Detail,
) -> Result<String, NoMemory> {
    let mut message = Message::new(alloc);
    if let Status::Done = status {
        return message.finish();
    }
    message.words(program.name());
    message.words(": ");
    message.show(status);
    message.words(": ");
    tell(alloc, &mut message, program, status, words, detail);
    if let Status::BadWords | Status::Missing(_) = status {
        message.words("\n");
        message.words(program.usage());
    }
    message.finish()
}

/// Prints a refusal on standard error, if there was one; without memory for its words, the answer
/// alone. It is told by the texts that were read, the trouble of the store and of the output, and
/// the line at which a history or a view stops.
pub fn print_refusal<R: AllocGlobal + Eprint, S: Store, W: Say>(
    rt: &R,
    program: Program,
    words: &[String],
    store: &S,
    say: &W,
    status: &Status,
    texts: &Texts,
    stop: Option<Stop>,
) {
    if let Status::Done = status {
        return;
    }
    let alloc = rt.alloc();
    let detail = refusal_detail(alloc, program, words, store, say, status, texts, stop);
    let text = refusal_text(alloc, program, status, words, &detail);
    // A refusal that can't be printed still has its exit status.
    let _ = match text {
        Ok(text) => eprintln!(rt; "{text}"),
        Err(NoMemory) => {
            let name = program.name();
            eprintln!(rt; "{name}: {status}")
        }
    };
}
