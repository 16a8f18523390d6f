//! Why a turn threw a fault, in words.

use crate::printer::Printer;
use crate::seen::{Seen, kind_of, value_seen};
use crate::wrong::{Wrong, wrong_operand};
use lio_labels::{Label, Priv};
use lio_messages_hints::Piece;
use lio_start::Job;
use lio_syntax_lines::{One, Operand, Simple, Two};
use lio_task_control::{Environment, Front, Stood};
use lio_values::{FaultKind, Plain};

/// The word of a kind of fault.
pub(crate) fn kind_word(kind: &FaultKind) -> &'static str {
    match kind {
        FaultKind::FlowCurrent(_, _) => "flow_current",
        FaultKind::FlowClearance(_, _) => "flow_clearance",
        FaultKind::FlowRaise(_, _) => "flow_raise",
        FaultKind::FlowPrivilege(_, _, _) => "flow_privilege",
        FaultKind::BadType => "bad_type",
        FaultKind::Overflow => "overflow",
        FaultKind::DivZero => "div_zero",
        FaultKind::TooLong => "too_long",
        FaultKind::NoTurns => "no_turns",
        FaultKind::NoCells(_, _) => "no_cells",
        FaultKind::ChildTurns(_, _) => "child_turns",
        FaultKind::Depth => "depth",
        FaultKind::LabelWide(_, _) => "label_wide",
        FaultKind::User(_) => "user",
    }
}

/// Writes a plain value.
fn print_plain(printer: &mut Printer<'_>, plain: &Plain) {
    match plain {
        Plain::Flag(true) => printer.words("true"),
        Plain::Flag(false) => printer.words("false"),
        Plain::Whole(whole) => printer.whole(*whole),
        Plain::Bytes(text) => printer.text(text.bytes()),
        Plain::Lab(label) => {
            printer.label("<", label);
            printer.words(">");
        }
        _ => printer.words(kind_of(plain).words()),
    }
}

/// Writes an operand as it stands in a line.
fn print_operand(printer: &mut Printer<'_>, operand: &Operand) {
    match operand {
        Operand::Name(name) => printer.quoted(name.bytes()),
        Operand::Literal(plain) => print_plain(printer, plain),
    }
}

/// Writes the channel for which an operand stands, by its name in the policy.
fn print_channel(
    printer: &mut Printer<'_>,
    job: &Job,
    environment: &Environment,
    operand: &Operand,
) {
    printer.words("channel ");
    if let Seen::Plain(Plain::ChanOf(handle)) = value_seen(environment, operand)
        && let Some(channel) = job.policy().channels.as_slice().get(handle.number as usize)
    {
        printer.quoted(channel.name.bytes());
        return;
    }
    print_operand(printer, operand);
}

/// Writes what a statement was to make or to write, up to its label.
fn print_target(
    printer: &mut Printer<'_>,
    job: &Job,
    environment: &Environment,
    front: &Front<'_, '_>,
) {
    let (Front::Simple(simple) | Front::Access(simple)) = front else {
        printer.words("the target is labelled ");
        return;
    };
    let (words, operand) = match simple {
        Simple::Send(channel, _) => {
            print_channel(printer, job, environment, channel);
            printer.words(" is labelled ");
            return;
        }
        Simple::Write(reference, _) => ("reference ", reference),
        Simple::Take(_, variable) | Simple::Put(variable, _) => ("variable ", variable),
        Simple::Fork(_, _, _, _, _, _) => {
            printer.words("the child's clearance is ");
            return;
        }
        Simple::Lower(_) => {
            printer.words("the new clearance is ");
            return;
        }
        _ => {
            printer.words("what it makes is labelled ");
            return;
        }
    };
    printer.words(words);
    print_operand(printer, operand);
    printer.words(" is labelled ");
}

/// Writes what a task has learned, or that it isn't vouched for, where its label doesn't flow to
/// the target's.
fn print_current(printer: &mut Printer<'_>, current: &Label, target: &Label) {
    let words = if target.secrecy.implies(&current.secrecy) {
        "its current label is "
    } else {
        "it has learned what is labelled "
    };
    printer.label(words, current);
    printer.words("; ");
}

/// Writes who would have to vouch for what a task does, where that alone is wanting.
fn print_integrity(printer: &mut Printer<'_>, current: &Label, target: &Label) {
    if target.secrecy.implies(&current.secrecy) {
        printer.words(", for which ");
        printer.formula(&target.integrity);
        printer.words(" has to vouch");
    }
}

/// Writes why a privilege doesn't let a value flow.
fn print_privilege(printer: &mut Printer<'_>, power: &Priv, source: &Label, target: &Label) {
    printer.words("the privilege of ");
    printer.formula(&power.power);
    printer.label(" doesn't release what is labelled ", source);
    printer.label(" to ", target);
}

/// Writes a wrong operand.
fn print_wrong(printer: &mut Printer<'_>, wrong: Wrong<'_>) {
    print_operand(printer, wrong.operand);
    match wrong.seen.kind() {
        Some(kind) => printer.fill(
            " is {}, {} is wanted",
            Piece::Words(kind.words()),
            Piece::Words(wrong.want.words()),
        ),
        None => printer.words(" isn't bound"),
    }
}

/// Writes which text writes no whole, where `num` was asked for one.
fn print_no_whole(printer: &mut Printer<'_>, environment: &Environment, front: &Front<'_, '_>) {
    if let Front::Simple(Simple::LetOne(_, One::Num, operand)) = front
        && let Seen::Plain(plain) = value_seen(environment, operand)
    {
        print_plain(printer, plain);
        printer.words(" writes no whole");
    }
}

/// Writes which list has no item at which place, where `at` was asked for one.
fn print_no_item(printer: &mut Printer<'_>, environment: &Environment, front: &Front<'_, '_>) {
    if let Front::Simple(Simple::LetTwo(_, list, Two::At, place)) = front
        && let Seen::Plain(plain) = value_seen(environment, place)
    {
        print_operand(printer, list);
        printer.words(" has no item at ");
        print_plain(printer, plain);
    }
}

/// Writes which operand of what comes first isn't bound, or isn't of the needed kind.
fn print_bad_type(printer: &mut Printer<'_>, environment: &Environment, front: &Front<'_, '_>) {
    match wrong_operand(environment, front) {
        Some(wrong) => print_wrong(printer, wrong),
        None => {
            print_no_whole(printer, environment, front);
            print_no_item(printer, environment, front);
        }
    }
}

/// Whether what comes first makes a list of another.
fn makes_list(environment: &Environment, front: &Front<'_, '_>) -> bool {
    match front {
        Front::Simple(Simple::LetTwo(_, _, Two::Push, _)) => true,
        Front::Simple(Simple::LetTwo(_, operand, Two::Add, _)) => {
            matches!(
                value_seen(environment, operand),
                Seen::Plain(Plain::Items(_))
            )
        }
        _ => false,
    }
}

/// Writes what is too long.
fn print_too_long(
    printer: &mut Printer<'_>,
    longest: u32,
    environment: &Environment,
    front: &Front<'_, '_>,
) {
    let template = if makes_list(environment, front) {
        "the list would be deeper than 8, have more than four sealed values, or be larger than {}, the policy's \"longest\""
    } else {
        match front {
            Front::Simple(Simple::Unlabel(..) | Simple::UnlabelUsing(..)) => {
                "the input has more than {} bytes, the policy's \"longest\""
            }
            _ => "the text would have more than {} bytes, the policy's \"longest\"",
        }
    };
    printer.fill(template, Piece::Number(u64::from(longest)), Piece::Nothing);
}

/// Writes why a task's label, or what it would learn, doesn't flow; of no other kind of fault.
fn print_flow(
    printer: &mut Printer<'_>,
    job: &Job,
    environment: &Environment,
    front: &Front<'_, '_>,
    kind: &FaultKind,
) {
    match kind {
        FaultKind::FlowCurrent(current, target) => {
            print_current(printer, current, target);
            print_target(printer, job, environment, front);
            printer.label("", target);
            print_integrity(printer, current, target);
        }
        FaultKind::FlowClearance(target, clearance) => {
            printer.label("its clearance is ", clearance);
            printer.words("; ");
            print_target(printer, job, environment, front);
            printer.label("", target);
        }
        FaultKind::FlowRaise(raised, clearance) => {
            printer.label("it would have learned what is labelled ", raised);
            printer.label("; its clearance is ", clearance);
        }
        FaultKind::FlowPrivilege(power, source, target) => {
            print_privilege(printer, power, source, target);
        }
        _ => {}
    }
}

/// Writes why a task threw a fault that nothing caught, where it stood then.
pub(crate) fn print_reason(printer: &mut Printer<'_>, job: &Job, stood: &Stood) {
    let environment = stood.environment();
    let front = stood.front(job.script());
    let kind = stood.kind();
    let (template, asked, left) = match kind {
        FaultKind::BadType => {
            print_bad_type(printer, environment, &front);
            return;
        }
        FaultKind::TooLong => {
            print_too_long(printer, job.policy().longest, environment, &front);
            return;
        }
        FaultKind::User(plain) => {
            printer.words("it threw ");
            print_plain(printer, plain);
            return;
        }
        FaultKind::LabelWide(left, right) => {
            printer.label("more than 64 clauses come of ", left);
            printer.label(" and ", right);
            return;
        }
        FaultKind::Overflow => ("the result is no whole of 64 bits with sign", 0, 0),
        FaultKind::DivZero => ("the divisor is 0", 0, 0),
        FaultKind::NoTurns => return,
        FaultKind::NoCells(asked, left) => ("cells asked for: {}, left: {}", *asked, *left),
        FaultKind::ChildTurns(asked, left) => ("turns asked for: {}, left: {}", *asked, *left),
        FaultKind::Depth => ("64 calls are open", 0, 0),
        FaultKind::FlowCurrent(..)
        | FaultKind::FlowClearance(..)
        | FaultKind::FlowRaise(..)
        | FaultKind::FlowPrivilege(..) => {
            print_flow(printer, job, environment, &front, kind);
            return;
        }
    };
    printer.fill(template, Piece::Number(asked), Piece::Number(left));
}
