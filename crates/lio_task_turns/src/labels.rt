//! Sealing, unlabelling, raising, lowering, releasing and exposing.
#![tactic(auto, unfolding(lio_calculus::specs::Plan::plan_simple))]

ghost use Rattle.std.specs.Prelude.{◌≡◌, IfOk};
ghost use Rattle.lio_values.specs.declared.act.Act.TheVariants as act;
ghost use Rattle.lio_values.specs.declared.act.Op.TheVariants as op;
ghost use Rattle.lio_values.specs.declared.act.Reply.TheVariants as reply;
ghost use Rattle.lio_values.specs.declared.value.Content.TheVariants as content;
ghost use Rattle.lio_task_turns.specs.declared.turn.Turn.TheVariants as turn;
ghost use Rattle.lio_task_turns.specs.declared.turn.Onward.TheVariants as onward;

use crate::guarded::both;
use crate::operands;
use crate::standing::Standing;
use crate::turn::{Attempt, Onward, Turn};
use lio_clauses::{NoMemory, beside};
use lio_guards::{Verdict, guard_expose, guard_relabel};
use lio_labels::{Label, Priv};
use lio_syntax_lines::Operand;
use lio_values::{Act, Content, FaultKind, Held, Name, Op, Plain, Reply};
use std::alloc::Global;

impl Standing<'_> {
    ghost use Rattle.std.specs.Prelude.{◌≡◌, IfOk, List};
    ghost use Rattle.lio_syntax_lines.specs.declared.line.Line.{Line};
    ghost use Rattle.lio_syntax_lines.specs.declared.line.Simple.TheVariants as line;
    ghost use Rattle.lio_calculus.specs.Plan as plan;
    ghost use Rattle.lio_guards.specs.declared.verdict.Verdict.TheVariants as verdict;
    ghost use Rattle.lio_values.specs.declared.act.Act.TheVariants as act;
    ghost use Rattle.lio_values.specs.declared.value.Content.TheVariants as content;
    ghost use Rattle.lio_task_turns.specs.Turns.{Is, Lowers, Plans, Seals, Taints, Unlabels};
    ghost use Rattle.lio_task_turns.specs.Turns.{refusal};
    ghost use Rattle.lio_task_turns.specs.StateOf.{state_of};

    /// `label X L A`
    pub fn plan_label<'s>(
        &self,
        alloc: Global,
        name: &'s Name,
        label: &Operand,
        value: &Operand,
    ) -> Attempt<'s>
        ensures { IfOk result (Plans self.now (line.Label name.now label.now value.now)) }
    {
        let environment = self.environment();
        let Some(label) = operands::label(environment, label) else {
            return self.bad_type(alloc);
        };
        match operands::pure(environment, value) {
            Some(plain) => self.sealing(alloc, name, label, plain),
            None => self.bad_type(alloc),
        }
    }

    /// The seal of a plain value under a label.
    fn sealing<'s>(
        &self,
        alloc: Global,
        name: &'s Name,
        label: &Label,
        plain: &Plain,
    ) -> Attempt<'s>
        ensures { IfOk result (Seals self.now name.now label.now plain.now) }
    {
        match seal_turn(alloc, name, label, plain) {
            Ok(turn) => self.guarded(alloc, Op::Seal, label, turn),
            Err(error) => Err(error),
        }
    }

    /// `unlabel X A`
    pub fn plan_unlabel<'s>(&self, alloc: Global, name: &'s Name, value: &Operand) -> Attempt<'s>
        ensures { IfOk result (Plans self.now (line.Unlabel name.now value.now)) }
    {
        match operands::sealed(self.environment(), value) {
            Some((label, content)) => self.unlabelling(alloc, name, label, content),
            None => self.bad_type(alloc),
        }
    }

    /// The raise to a label, under which a content is sealed.
    fn unlabelling<'s>(
        &self,
        alloc: Global,
        name: &'s Name,
        label: &Label,
        content: &Content,
    ) -> Attempt<'s>
        ensures { IfOk result (Unlabels self.now name.now label.now content.now) }
    {
        match self.verdict(alloc, Op::Unlabel, label) {
            Ok(Verdict::Go(current)) => unlabel_turn(alloc, name, label, content, current),
            Ok(Verdict::No(kind)) => self.refused_raise(alloc, Op::Unlabel, label, kind),
            Err(error) => Err(error),
        }
    }

    /// A refused raise, for an operation on a thing with this label.
    pub fn refused_raise<'s>(
        &self,
        alloc: Global,
        op: Op,
        label: &Label,
        kind: FaultKind,
    ) -> Attempt<'s>
        ensures { IfOk result
            (λ planned. planned ≡ refusal self.now (act.Raise op label.now) kind) }
    {
        let (kind, asked) = beside(kind, label.copy(alloc))?;
        self.refused(alloc, Act::Raise(op, asked), kind)
    }

    /// `taint L`
    pub fn plan_taint<'s>(&self, alloc: Global, label: &Operand) -> Attempt<'s>
        ensures { IfOk result (Plans self.now (line.Taint label.now)) }
    {
        match operands::label(self.environment(), label) {
            Some(label) => self.tainting(alloc, label),
            None => self.bad_type(alloc),
        }
    }

    /// The raise to a label.
    fn tainting<'s>(&self, alloc: Global, label: &Label) -> Attempt<'s>
        ensures { IfOk result (Taints self.now label.now) }
    {
        match self.verdict(alloc, Op::Taint, label) {
            Ok(Verdict::Go(current)) => taint_turn(alloc, label, current),
            Ok(Verdict::No(kind)) => self.refused_raise(alloc, Op::Taint, label, kind),
            Err(error) => Err(error),
        }
    }

    /// `lower L`
    pub fn plan_lower<'s>(&self, alloc: Global, label: &Operand) -> Attempt<'s>
        ensures { IfOk result (Plans self.now (line.Lower label.now)) }
    {
        match operands::label(self.environment(), label) {
            Some(label) => self.lowering(alloc, label),
            None => self.bad_type(alloc),
        }
    }

    /// The clearance is lowered to a label.
    fn lowering<'s>(&self, alloc: Global, label: &Label) -> Attempt<'s>
        ensures { IfOk result (Lowers self.now label.now) }
    {
        match lower_turn(alloc, label) {
            Ok(turn) => self.guarded(alloc, Op::Lower, label, turn),
            Err(error) => Err(error),
        }
    }

    /// `relabel X A L P`
    pub fn plan_relabel<'s>(
        &self,
        alloc: Global,
        name: &'s Name,
        value: &Operand,
        label: &Operand,
        power: &Operand,
    ) -> Attempt<'s>
        ensures { IfOk result (Plans self.now
            (line.Relabel name.now value.now label.now power.now)) }
    {
        let environment = self.environment();
        let Some((source, content)) = operands::sealed(environment, value) else {
            return self.bad_type(alloc);
        };
        let Some(target) = operands::label(environment, label) else {
            return self.bad_type(alloc);
        };
        let Some(power) = operands::power(environment, power) else {
            return self.bad_type(alloc);
        };
        self.releasing(alloc, name, source, content, target, power)
    }

    /// The release of a content that is sealed under a label to another, by a privilege.
    fn releasing<'s>(
        &self,
        alloc: Global,
        name: &'s Name,
        source: &Label,
        content: &Content,
        target: &Label,
        power: &Priv,
    ) -> Attempt<'s>
        ensures { IfOk result (λ planned. Is self.now planned
            (λ (lines : List Line). plan.releasing (state_of lines self.now) name.now
            (record { label = source.now; content = content.now }) target.now power.now)) }
    {
        match guard_relabel(alloc, self.label, self.clearance, source, target, power)? {
            Verdict::Go(_current) => release_turn(alloc, name, source, content, target, power),
            Verdict::No(kind) => self.refused_release(alloc, source, target, power, kind),
        }
    }

    /// A refused release, which shows no content.
    fn refused_release<'s>(
        &self,
        alloc: Global,
        source: &Label,
        target: &Label,
        power: &Priv,
        kind: FaultKind,
    ) -> Attempt<'s>
        ensures { IfOk result (λ planned. planned
            ≡ refusal self.now (act.Release source.now target.now power.now content.Hidden) kind) }
    {
        let (kind, act) = beside(kind, hidden_release(alloc, source, target, power))?;
        self.refused(alloc, act, kind)
    }

    /// `unlabel X A using P`
    pub fn plan_unlabel_using<'s>(
        &self,
        alloc: Global,
        name: &'s Name,
        value: &Operand,
        power: &Operand,
    ) -> Attempt<'s>
        ensures { IfOk result (Plans self.now
            (line.UnlabelUsing name.now value.now power.now)) }
    {
        let environment = self.environment();
        let Some((source, content)) = operands::sealed(environment, value) else {
            return self.bad_type(alloc);
        };
        let Some(power) = operands::power(environment, power) else {
            return self.bad_type(alloc);
        };
        self.exposing(alloc, name, source, content, power)
    }

    /// The exposure of a content that is sealed under a label, by a privilege.
    fn exposing<'s>(
        &self,
        alloc: Global,
        name: &'s Name,
        source: &Label,
        content: &Content,
        power: &Priv,
    ) -> Attempt<'s>
        ensures { IfOk result (λ planned. Is self.now planned
            (λ (lines : List Line). plan.exposing (state_of lines self.now) name.now
            (record { label = source.now; content = content.now }) power.now)) }
    {
        match guard_expose(alloc, self.label, self.clearance, source, power)? {
            Verdict::Go(label) => expose_turn(alloc, name, source, content, power, label),
            Verdict::No(kind) => self.refused_expose(alloc, source, power, kind),
        }
    }

    /// A refused exposure, which shows no content. Its second label is the one that doesn't flow to
    /// the clearance, or the source's where a label is too wide.
    fn refused_expose<'s>(
        &self,
        alloc: Global,
        source: &Label,
        power: &Priv,
        kind: FaultKind,
    ) -> Attempt<'s>
        ensures { IfOk result (λ planned. planned ≡ refusal self.now (act.Expose source.now
            (plan.exposed_to source.now (verdict.No kind)) power.now content.Hidden) kind) }
    {
        let act = match &kind {
            FaultKind::FlowRaise(raised, _clearance) => {
                expose_act(alloc, source, raised, power, &Content::Hidden)
            }
            _ => expose_act(alloc, source, source, power, &Content::Hidden),
        };
        let (kind, act) = beside(kind, act)?;
        self.refused(alloc, act, kind)
    }
}

/// The turn that seals a plain value.
fn seal_turn<'s>(alloc: Global, name: &'s Name, label: &Label, plain: &Plain) -> Attempt<'s>
    ensures { IfOk result (λ made. made
        ≡ turn.Own (act.Seal label.now) reply.Done (onward.Seal name.entry label.now plain.now)) }
{
    match both(held_plain(alloc, plain), two_labels(alloc, label)) {
        Ok((plain, (asked, label))) => Ok(Turn::Own(
            Act::Seal(asked),
            Reply::Done,
            Onward::Seal(name, label, plain),
        )),
        Err(error) => Err(error),
    }
}

/// The turn that raises the label to this one, by a taint.
fn taint_turn<'s>(alloc: Global, label: &Label, current: Label) -> Attempt<'s>
    ensures { IfOk result
        (λ made. made ≡ turn.Own (act.Raise op.Taint label.now) reply.Done (onward.Raise current)) }
{
    let asked = label.copy(alloc)?;
    Ok(Turn::Own(
        Act::Raise(Op::Taint, asked),
        Reply::Done,
        Onward::Raise(current),
    ))
}

/// The turn that lowers the clearance to a label.
fn lower_turn<'s>(alloc: Global, label: &Label) -> Attempt<'s>
    ensures { IfOk result
        (λ made. made ≡ turn.Own (act.Lower label.now) reply.Done (onward.Lower label.now)) }
{
    match two_labels(alloc, label) {
        Ok((asked, clearance)) => {
            let onward = Onward::Lower(clearance);
            Ok(Turn::Own(Act::Lower(asked), Reply::Done, onward))
        }
        Err(error) => Err(error),
    }
}

/// The turn that opens a sealed value, at this current label.
fn unlabel_turn<'s>(
    alloc: Global,
    name: &'s Name,
    label: &Label,
    content: &Content,
    current: Label,
) -> Attempt<'s>
    ensures { IfOk result (λ made. made ≡ turn.Own (act.Raise op.Unlabel label.now) reply.Done
        (onward.Unlabel name.entry current label.now content.now)) }
{
    let sealed = both(held_label(alloc, label), held_content(alloc, content));
    let (asked, (source, content)) = both(label.copy(alloc), sealed)?;
    let onward = Onward::Unlabel(name, current, source, content);
    Ok(Turn::Own(Act::Raise(Op::Unlabel, asked), Reply::Done, onward))
}

/// Two equal labels.
fn two_labels(alloc: Global, label: &Label) -> Result<(Label, Label), NoMemory>
    ensures { IfOk result (λ labels. (labels.0 ≡ label.now) × (labels.1 ≡ label.now)) }
{
    both(label.copy(alloc), label.copy(alloc))
}

/// A plain value on the heap.
fn held_plain(alloc: Global, plain: &Plain) -> Result<Held<Plain>, NoMemory>
    ensures { IfOk result (λ held. held ≡ plain.now) }
{
    Held::new(alloc, plain.copy(alloc)?)
}

/// A label on the heap.
fn held_label(alloc: Global, label: &Label) -> Result<Held<Label>, NoMemory>
    ensures { IfOk result (λ held. held ≡ label.now) }
{
    Held::new(alloc, label.copy(alloc)?)
}

/// A content on the heap.
fn held_content(alloc: Global, content: &Content) -> Result<Held<Content>, NoMemory>
    ensures { IfOk result (λ held. held ≡ content.now) }
{
    Held::new(alloc, content.copy(alloc)?)
}

/// The turn that releases a content.
fn release_turn<'s>(
    alloc: Global,
    name: &'s Name,
    source: &Label,
    content: &Content,
    target: &Label,
    power: &Priv,
) -> Attempt<'s>
    ensures { IfOk result (λ made. made ≡ turn.Own (act.Release source.now
        target.now power.now content.now) reply.Done (onward.Release name.entry target.now)) }
{
    let (content, label) = both(held_content(alloc, content), target.copy(alloc))?;
    let act = release_act(alloc, source, target, power, content)?;
    Ok(Turn::Own(act, Reply::Done, Onward::Release(name, label)))
}

/// The release of no content.
fn hidden_release(
    alloc: Global,
    source: &Label,
    target: &Label,
    power: &Priv,
) -> Result<Act, NoMemory>
    ensures { IfOk result
        (λ made. made ≡ act.Release source.now target.now power.now content.Hidden) }
{
    let hidden = Held::new(alloc, Content::Hidden)?;
    release_act(alloc, source, target, power, hidden)
}

/// The release of a content from a label to another by a privilege.
fn release_act(
    alloc: Global,
    source: &Label,
    target: &Label,
    power: &Priv,
    content: Held<Content>,
) -> Result<Act, NoMemory>
    ensures { IfOk result (λ made. made ≡ act.Release source.now target.now power.now content) }
{
    let labels = both(held_label(alloc, source), held_label(alloc, target));
    let (content, (by, (from, to))) = beside(content, both(power.copy(alloc), labels))?;
    Ok(Act::Release(from, to, by, content))
}

/// The turn that exposes a content, and raises the current label to `label`.
fn expose_turn<'s>(
    alloc: Global,
    name: &'s Name,
    source: &Label,
    content: &Content,
    power: &Priv,
    label: Label,
) -> Attempt<'s>
    ensures { IfOk result (λ made. made ≡ turn.Own (act.Expose source.now label power.now
        content.now) reply.Done (onward.Expose name.entry label)) }
{
    let act = expose_act(alloc, source, &label, power, content);
    let (label, act) = beside(label, act)?;
    Ok(Turn::Own(act, Reply::Done, Onward::Expose(name, label)))
}

/// The exposure of a content that is sealed under a label, by a privilege, at a raised label.
fn expose_act(
    alloc: Global,
    source: &Label,
    target: &Label,
    power: &Priv,
    content: &Content,
) -> Result<Act, NoMemory>
    ensures { IfOk result (λ made. made ≡ act.Expose source.now target.now power.now content.now) }
{
    let labels = both(held_label(alloc, source), held_label(alloc, target));
    let (by, ((from, to), content)) = both(
        power.copy(alloc),
        both(labels, held_content(alloc, content)),
    )?;
    Ok(Act::Expose(from, to, by, content))
}
