//! References, variables, results and channels.
#![tactic(auto, unfolding(lio_calculus::specs::Plan::plan_simple))]

ghost use Rattle.std.specs.Prelude.{◌≡◌, IfOk, None};
ghost use Rattle.lio_syntax_lines.specs.declared.line.Simple.TheVariants as line;
ghost use Rattle.lio_values.specs.declared.act.Act.TheVariants as act;
ghost use Rattle.lio_values.specs.declared.act.Reply.TheVariants as reply;
ghost use Rattle.lio_task_turns.specs.declared.turn.Turn.TheVariants as turn;
ghost use Rattle.lio_task_turns.specs.declared.turn.Onward.TheVariants as onward;
ghost use Rattle.lio_task_turns.specs.declared.turn.Target.TheVariants as target;
ghost use Rattle.lio_task_turns.specs.Turns.{GuardsNode, Plans, Raises, MakesNode, MakesReference};
ghost use Rattle.lio_task_turns.specs.Turns.{MakesVariable, Sends, Writes};

use lio_guards::Verdict;
use lio_labels::Label;
use lio_syntax_lines::Operand;
use lio_task_turns::{Attempt, Onward, Standing, Target, Turn, both, operands};
use lio_values::{Act, FaultKind, Handle, Held, Name, Op, Reply, Text, Value};
use std::alloc::Global;

/// `newref X L A`
pub fn plan_newref<'s>(
    alloc: Global,
    task: &Standing<'_>,
    name: &'s Name,
    label: &Operand,
    value: &Operand,
) -> Attempt<'s>
    ensures { IfOk result (Plans task.now (line.NewRef name.now label.now value.now)) }
{
    let environment = task.environment();
    let Some(label) = operands::label(environment, label) else {
        return task.bad_type(alloc);
    };
    match operands::value(alloc, environment, value) {
        Ok(Some(value)) => new_reference(alloc, task, name, label, value),
        Ok(None) => task.bad_type(alloc),
        Err(error) => Err(error),
    }
}

/// A new reference with a label, which holds a value.
fn new_reference<'s>(
    alloc: Global,
    task: &Standing<'_>,
    name: &'s Name,
    label: &Label,
    value: Value,
) -> Attempt<'s>
    ensures { IfOk result (MakesReference task.now name.now label.now value) }
{
    let labels = both(label.copy(alloc), label.copy(alloc));
    match both(Held::new(alloc, value), labels) {
        Ok((value, (asked, held))) => {
            let act = Act::NewRef(asked, value);
            let onward = Onward::HoldReference(name, held);
            guarded_node(alloc, task, Op::NewRef, label, act, onward)
        }
        Err(error) => Err(error),
    }
}

/// The turn of an act that makes a node, at the first number.
pub(crate) fn making<'s>(task: &Standing<'_>, act: Act, onward: Onward<'s>) -> Turn<'s>
    ensures { result ≡ turn.Visit act (target.New task.now.first) onward.entry }
{
    Turn::Visit(act, Target::New(task.first), onward)
}

/// An act that makes a node, where there is a number for it.
fn new_node<'s>(alloc: Global, task: &Standing<'_>, act: Act, onward: Onward<'s>) -> Attempt<'s>
    ensures { IfOk result (MakesNode task.now act onward.entry) }
{
    if task.cells >= 1 {
        Ok(making(task, act, onward))
    } else {
        drop(onward);
        task.refused(alloc, act, FaultKind::NoCells(1, u64::from(task.cells)))
    }
}

/// An act that makes a node, where a guard lets it go and there is a number for it.
fn guarded_node<'s>(
    alloc: Global,
    task: &Standing<'_>,
    op: Op,
    label: &Label,
    act: Act,
    onward: Onward<'s>,
) -> Attempt<'s>
    ensures { IfOk result (GuardsNode task.now op label.now act onward.entry) }
{
    match task.verdict(alloc, op, label) {
        Ok(Verdict::Go(current)) => {
            drop(current);
            new_node(alloc, task, act, onward)
        }
        Ok(Verdict::No(kind)) => {
            drop(onward);
            task.refused(alloc, act, kind)
        }
        Err(error) => {
            drop(act);
            drop(onward);
            Err(error)
        }
    }
}

/// `newvar X L`
pub fn plan_newvar<'s>(
    alloc: Global,
    task: &Standing<'_>,
    name: &'s Name,
    label: &Operand,
) -> Attempt<'s>
    ensures { IfOk result (Plans task.now (line.NewVar name.now label.now)) }
{
    match operands::label(task.environment(), label) {
        Some(label) => new_variable(alloc, task, name, label, None),
        None => task.bad_type(alloc),
    }
}

/// `fullvar X L A`
pub fn plan_fullvar<'s>(
    alloc: Global,
    task: &Standing<'_>,
    name: &'s Name,
    label: &Operand,
    value: &Operand,
) -> Attempt<'s>
    ensures { IfOk result (Plans task.now (line.FullVar name.now label.now value.now)) }
{
    let environment = task.environment();
    let Some(label) = operands::label(environment, label) else {
        return task.bad_type(alloc);
    };
    match operands::value(alloc, environment, value) {
        Ok(Some(value)) => new_variable(alloc, task, name, label, Some(value)),
        Ok(None) => task.bad_type(alloc),
        Err(error) => Err(error),
    }
}

/// A new variable with a label, which is full where there is a value.
fn new_variable<'s>(
    alloc: Global,
    task: &Standing<'_>,
    name: &'s Name,
    label: &Label,
    value: Option<Value>,
) -> Attempt<'s>
    ensures { IfOk result (MakesVariable task.now name.now label.now value) }
{
    let labels = both(label.copy(alloc), label.copy(alloc));
    match both(Held::new(alloc, value), labels) {
        Ok((value, (asked, held))) => {
            let act = Act::NewVar(asked, value);
            let onward = Onward::HoldVariable(name, held);
            guarded_node(alloc, task, Op::NewVar, label, act, onward)
        }
        Err(error) => Err(error),
    }
}

/// The raise of a statement that has an access, on a node with this handle.
fn raising<'s>(alloc: Global, task: &Standing<'_>, op: Op, handle: &Handle) -> Attempt<'s>
    ensures { IfOk result (Raises task.now op handle.now) }
{
    match task.verdict(alloc, op, &handle.label) {
        Ok(Verdict::Go(current)) => raise_turn(alloc, op, &handle.label, current),
        Ok(Verdict::No(kind)) => task.refused_raise(alloc, op, &handle.label, kind),
        Err(error) => Err(error),
    }
}

/// The turn that raises the label to this one, before the access.
fn raise_turn<'s>(alloc: Global, op: Op, label: &Label, current: Label) -> Attempt<'s>
    ensures { IfOk result
        (λ made. made ≡ turn.Own (act.Raise op label.now) reply.Done (onward.RaiseTo current)) }
{
    let asked = label.copy(alloc)?;
    let onward = Onward::RaiseTo(current);
    Ok(Turn::Own(Act::Raise(op, asked), Reply::Done, onward))
}

/// `read X R`
pub fn plan_read<'s>(
    alloc: Global,
    task: &Standing<'_>,
    name: &Name,
    reference: &Operand,
) -> Attempt<'s>
    ensures { IfOk result (Plans task.now (line.Read name.now reference.now)) }
{
    match operands::reference(task.environment(), reference) {
        Some(handle) => raising(alloc, task, Op::Read, handle),
        None => task.bad_type(alloc),
    }
}

/// `write R A`
pub fn plan_write<'s>(
    alloc: Global,
    task: &Standing<'_>,
    reference: &Operand,
    value: &Operand,
) -> Attempt<'s>
    ensures { IfOk result (Plans task.now (line.Write reference.now value.now)) }
{
    let environment = task.environment();
    let Some(handle) = operands::reference(environment, reference) else {
        return task.bad_type(alloc);
    };
    match operands::value(alloc, environment, value) {
        Ok(Some(value)) => writing(alloc, task, handle, value),
        Ok(None) => task.bad_type(alloc),
        Err(error) => Err(error),
    }
}

/// The write of a value to a reference.
fn writing<'s>(alloc: Global, task: &Standing<'_>, handle: &Handle, value: Value) -> Attempt<'s>
    ensures { IfOk result (Writes task.now handle.now value) }
{
    match both(Held::new(alloc, value), handle.copy(alloc)) {
        Ok((value, met)) => {
            let turn = Turn::Visit(Act::Write(value), Target::Reference(met), Onward::Advance);
            task.guarded(alloc, Op::Write, &handle.label, turn)
        }
        Err(error) => Err(error),
    }
}

/// `take X V`
pub fn plan_take<'s>(
    alloc: Global,
    task: &Standing<'_>,
    name: &Name,
    variable: &Operand,
) -> Attempt<'s>
    ensures { IfOk result (Plans task.now (line.Take name.now variable.now)) }
{
    match operands::variable(task.environment(), variable) {
        Some(handle) => raising(alloc, task, Op::Take, handle),
        None => task.bad_type(alloc),
    }
}

/// `put V A`
pub fn plan_put<'s>(
    alloc: Global,
    task: &Standing<'_>,
    variable: &Operand,
    value: &Operand,
) -> Attempt<'s>
    ensures { IfOk result (Plans task.now (line.Put variable.now value.now)) }
{
    let environment = task.environment();
    let Some(handle) = operands::variable(environment, variable) else {
        return task.bad_type(alloc);
    };
    if !operands::is_bound(environment, value) {
        return task.bad_type(alloc);
    }
    raising(alloc, task, Op::Put, handle)
}

/// `wait X R`
pub fn plan_wait<'s>(
    alloc: Global,
    task: &Standing<'_>,
    name: &'s Name,
    result_handle: &Operand,
) -> Attempt<'s>
    ensures { IfOk result (Plans task.now (line.Wait name.now result_handle.now)) }
{
    match operands::task_result(task.environment(), result_handle) {
        Some(handle) => raising(alloc, task, Op::Wait, handle),
        None => task.bad_type(alloc),
    }
}

/// `send C A`
pub fn plan_send<'s>(
    alloc: Global,
    task: &Standing<'_>,
    channel: &Operand,
    text: &Operand,
) -> Attempt<'s>
    ensures { IfOk result (Plans task.now (line.Send channel.now text.now)) }
{
    let environment = task.environment();
    let Some(handle) = operands::channel(environment, channel) else {
        return task.bad_type(alloc);
    };
    match operands::text(environment, text) {
        Some(text) => sending(alloc, task, handle, text),
        None => task.bad_type(alloc),
    }
}

/// The message of a text to a channel.
fn sending<'s>(alloc: Global, task: &Standing<'_>, handle: &Handle, text: &Text) -> Attempt<'s>
    ensures { IfOk result (Sends task.now handle.now text.now) }
{
    match both(text.copy(alloc), handle.copy(alloc)) {
        Ok((text, met)) => {
            let turn = Turn::Visit(Act::Send(text), Target::Channel(met), Onward::Advance);
            task.guarded(alloc, Op::Send, &handle.label, turn)
        }
        Err(error) => Err(error),
    }
}
