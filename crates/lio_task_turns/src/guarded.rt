//! Turns that a guard lets go, and refused ones.
ghost use Rattle.std.specs.Prelude.{◌≡◌, IfOk, Ok};
ghost use Rattle.lio_values.specs.declared.act.Act.TheVariants as act;
ghost use Rattle.lio_values.specs.declared.act.Reply.TheVariants as reply;
ghost use Rattle.lio_task_turns.specs.declared.turn.Turn.TheVariants as turn;
ghost use Rattle.lio_task_turns.specs.declared.turn.Onward.TheVariants as onward;

use crate::standing::Standing;
use crate::turn::{Attempt, Onward, Turn};
use lio_clauses::{NoMemory, beside};
use lio_guards::{Verdict, guard, may_write};
use lio_labels::Label;
use lio_values::{Act, Fault, FaultKind, Held, Op, Reply};
use std::alloc::Global;

impl Standing<'_> {
    ghost use Rattle.std.specs.Prelude.{◌≡◌, IfOk};
    ghost use Rattle.lio_values.specs.declared.act.Act.TheVariants as act;
    ghost use Rattle.lio_values.specs.declared.fault.FaultKind.TheVariants as kind;
    ghost use Rattle.lio_guards.specs.Class.{class_of};
    ghost use Rattle.lio_guards.specs.Guard.{guarded};
    ghost use Rattle.lio_guards.specs.declared.class.Class.TheVariants.{Write};
    ghost use Rattle.lio_task_turns.specs.Turns.{Guards, refusal};

    /// The fault of a kind, at the task's label.
    pub fn fault(&self, alloc: Global, kind: FaultKind) -> Result<Held<Fault>, NoMemory>
        ensures { IfOk result (λ fault. fault ≡ record { kind = kind; at = self.now.label.now }) }
    {
        let (kind, at) = beside(kind, self.label.copy(alloc))?;
        Held::new(alloc, Fault { kind, at })
    }

    /// A refused act, which throws the fault that its reply shows.
    pub fn refused<'s>(&self, alloc: Global, act: Act, kind: FaultKind) -> Attempt<'s>
        ensures { IfOk result (λ planned. planned ≡ refusal self.now act kind) }
    {
        let (act, fault) = beside(act, self.fault(alloc, kind))?;
        throw_turn(alloc, act, fault)
    }

    /// The refusal where an operand isn't bound or isn't of the needed kind.
    pub fn bad_type<'s>(&self, alloc: Global) -> Attempt<'s>
        ensures { IfOk result (λ planned. planned ≡ refusal self.now act.Step kind.BadType) }
    {
        self.refused(alloc, Act::Step, FaultKind::BadType)
    }

    /// What a guard says of an operation on a thing with this label.
    pub fn verdict(&self, alloc: Global, op: Op, target: &Label) -> Result<Verdict, NoMemory>
        ensures { IfOk result
            (λ verdict. verdict ≡ guarded op self.now.label.now self.now.clearance.now target.now) }
    {
        guard(alloc, op, self.label, self.clearance, target)
    }

    /// A turn, where the guard of an operation that writes alone lets its act go.
    pub fn guarded<'s>(&self, alloc: Global, op: Op, label: &Label, turn: Turn<'s>) -> Attempt<'s>
        requires { class_of op ≡ Write }
        ensures { IfOk result (Guards self.now op label.now turn.entry) }
    {
        if may_write(self.label, self.clearance, label) {
            Ok(turn)
        } else {
            self.judged(alloc, op, label, turn)
        }
    }

    /// A turn, where the verdict of a guard lets its act go.
    #[inline(never)]
    fn judged<'s>(&self, alloc: Global, op: Op, label: &Label, turn: Turn<'s>) -> Attempt<'s>
        ensures { IfOk result (Guards self.now op label.now turn.entry) }
    {
        let (turn, verdict) = beside(turn, self.verdict(alloc, op, label))?;
        match verdict {
            Verdict::Go(_current) => Ok(turn),
            Verdict::No(kind) => self.refused(alloc, turn.act(), kind),
        }
    }
}

/// An act that is refused with a fault, which its reply shows.
fn throw_turn<'s>(alloc: Global, act: Act, fault: Held<Fault>) -> Attempt<'s>
    ensures { IfOk result
        (λ planned. planned ≡ turn.Own act (reply.Refused fault) (onward.Throw fault)) }
{
    let shown = fault.copy(alloc);
    let ((act, fault), shown) = beside((act, fault), shown)?;
    Ok(Turn::Own(act, Reply::Refused(shown), Onward::Throw(fault)))
}

/// Both values, where there was memory for them.
pub fn both<A: Drop, B: Drop>(
    a: Result<A, NoMemory>,
    b: Result<B, NoMemory>,
) -> Result<(A, B), NoMemory>
    ensures first { IfOk result (λ both. a ≡ Ok both.0) }
    ensures second { IfOk result (λ both. b ≡ Ok both.1) }
{
    beside(a?, b)
}
