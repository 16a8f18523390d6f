//! Frames: what a procedure's names are bound to, and the place at which it goes on.
ghost use Rattle.std.specs.Prelude.{◌≡◌, ◌++◌, List, [], ◌∷◌, map, true, false};
ghost use Rattle.std.specs.Prelude.{MatchOption, MatchBool, IfOk, OnErr};
ghost use Rattle.lio_syntax_lines.specs.declared.line.Line.{Line};
ghost use Rattle.lio_syntax.specs.Lines.{script_lines};
ghost use Rattle.lio_syntax.specs.Environment.{Environment as Bindings};
ghost use Rattle.lio_syntax.specs.Items.{Item, Fail, enter, rest_of};
ghost use Rattle.lio_syntax.specs.Throwing.{thrown};
ghost use Rattle.lio_task_control.specs.Continuation.{body_at, call_over, frame_items};
ghost use Rattle.lio_task_control.specs.Continuation.{frame_over, items_at};
ghost use Rattle.lio_task_control.specs.Front.{IsFront, entered, entered_other};
ghost use Rattle.lio_task_control.specs.Hiding.{HidesFrame};
ghost use Rattle.lio_syntax.specs.Hiding.{hide_item};
ghost use Rattle.lio_task_control.specs.Parts.{CatchesNothing, IsAccessed, IsCaught, SameFrame};
ghost use Rattle.lio_task_control.specs.Parts.{gone_to};

use crate::environment::Environment;
use crate::faults::{code_of, payload_of};
use crate::front::Front;
use crate::places::{
    Handler, accessed_at, begins_procedure, block_place, front_at, handler_at, next_place,
    other_place,
};
use lio_clauses::NoMemory;
use lio_labels::Label;
use lio_syntax::Script;
use lio_values::{Fault, Held, Name, Plain, Value};
use std::alloc::Global;

/// What is left of a procedure at its place.
#[derive(Drop)]
pub(crate) enum Stage {
    /// What comes from there on.
    Rest,
    /// The access of the statement there, whose raise is done, and what comes behind it.
    Access,
    /// Nothing.
    Nothing,
    /// A fault that nothing catches.
    Fail(Held<Fault>),
}

/// What a procedure's names are bound to, and the place at which it goes on: the number of a line,
/// from 0.
#[derive(Drop)]
pub(crate) struct Frame {
    pub(crate) environment: Environment,
    pub(crate) at: usize,
    pub(crate) stage: Stage,
}

/// A call: the frame that it goes back to, and the name that what it returns is bound to.
#[derive(Drop)]
pub(crate) struct Call {
    pub(crate) caller: Frame,
    pub(crate) name: Name,
}

impl Stage {
    /// An equal stage.
    fn copy(&self, alloc: Global) -> Result<Stage, NoMemory>
        ensures { IfOk result (λ stage. stage ≡ self.now) }
    {
        match self {
            Stage::Rest => Ok(Stage::Rest),
            Stage::Access => Ok(Stage::Access),
            Stage::Nothing => Ok(Stage::Nothing),
            Stage::Fail(fault) => Ok(Stage::Fail(fault.copy(alloc)?)),
        }
    }
}

impl Frame {
    /// Before the body of the procedure that the line at a place begins.
    pub(crate) fn of_body(script: &Script, line: usize, environment: Environment) -> Frame
        ensures environment { result.environment ≡ environment }
        ensures items { frame_items (script_lines script.now) result
            ≡ enter (body_at (script_lines script.now) line) [] }
    {
        if begins_procedure(script, line) {
            Frame {
                environment,
                at: line + 1,
                stage: Stage::Rest,
            }
        } else {
            Frame {
                environment,
                at: line,
                stage: Stage::Nothing,
            }
        }
    }

    /// Nothing is bound, and nothing is left.
    pub(crate) fn ended(alloc: Global) -> Frame
        ensures environment { result.environment ≡ [] }
        ensures items { (lines : List Line) → frame_items lines result ≡ [] }
    {
        Frame {
            environment: Environment::new(alloc),
            at: 0,
            stage: Stage::Nothing,
        }
    }

    /// What comes first in it.
    #[inline(always)]
    pub(crate) fn front<'t, 's>(&'t self, script: &'s Script) -> Option<Front<'t, 's>>
        ensures { MatchOption result (frame_items (script_lines script.now) self.now ≡ [])
            (λ front. (items : List Item)
            → IsFront (frame_over (script_lines script.now) self.now items) front) }
    {
        match &self.stage {
            Stage::Rest => front_at(script, self.at),
            Stage::Access => accessed_at(script, self.at),
            Stage::Nothing => None,
            Stage::Fail(fault) => Some(Front::Fail(fault.get())),
        }
    }

    /// Goes on at a place, unless nothing is left.
    #[inline(always)]
    fn go_to(&mut self, at: usize)
        ensures environment { self.new.environment ≡ self.old.environment }
        ensures items { (lines : List Line)
            → frame_items lines self.new ≡ gone_to self.old.stage (items_at lines at) }
    {
        match &self.stage {
            Stage::Rest => self.at = at,
            Stage::Access => {
                self.at = at;
                self.stage = Stage::Rest;
            }
            _ => self.stage = Stage::Nothing,
        }
    }

    /// Goes on behind what comes first.
    #[inline(always)]
    pub(crate) fn advance(&mut self, script: &Script)
        ensures environment { self.new.environment ≡ self.old.environment }
        ensures items { frame_items (script_lines script.now) self.new
            ≡ rest_of (frame_items (script_lines script.now) self.old) }
    {
        self.go_to(next_place(script, self.at));
    }

    /// Enters the block of the statement that comes first.
    pub(crate) fn enter(&mut self, script: &Script)
        ensures environment { self.new.environment ≡ self.old.environment }
        ensures items { frame_items (script_lines script.now) self.new
            ≡ entered (frame_items (script_lines script.now) self.old) }
    {
        self.go_to(block_place(script, self.at));
    }

    /// Enters the block of the `else` of the `if` that comes first, or goes on behind the `if`.
    pub(crate) fn enter_other(&mut self, script: &Script)
        ensures environment { self.new.environment ≡ self.old.environment }
        ensures items { frame_items (script_lines script.now) self.new
            ≡ entered_other (frame_items (script_lines script.now) self.old) }
    {
        self.go_to(other_place(script, self.at));
    }

    /// The access of the statement that comes first comes in its place.
    pub(crate) fn access(&mut self)
        ensures environment { self.new.environment ≡ self.old.environment }
        ensures items { (lines : List Line)
            → IsAccessed (frame_items lines self.old) (frame_items lines self.new) }
    {
        self.stage = Stage::Access;
    }

    /// The handler of faults in it, if there is one.
    fn handler<'s>(&self, script: &'s Script) -> Option<Handler<'s>>
        ensures { MatchOption result
            (CatchesNothing (frame_items (script_lines script.now) self.now))
            (IsCaught (script_lines script.now) (frame_items (script_lines script.now) self.now)) }
    {
        match &self.stage {
            Stage::Rest => handler_at(script, self.at),
            Stage::Access => handler_at(script, self.at),
            Stage::Nothing => None,
            Stage::Fail(_) => None,
        }
    }

    /// Begins the nearest handler of a fault in it, if there is one.
    pub(crate) fn catch(
        &mut self,
        alloc: Global,
        script: &Script,
        fault: &Fault,
    ) -> Result<bool, NoMemory>
        ensures caught { IfOk result (λ found. MatchBool found
            ((items : List Item) → thrown fault.now self.old.environment
            (frame_over (script_lines script.now) self.old items) ≡ record {
              environment = self.new.environment;
              items = frame_over (script_lines script.now) self.new items;
            })
            ((self.new ≡ self.old) × ((environment : Bindings) (items : List Item)
            → thrown fault.now environment (frame_over (script_lines script.now) self.old items)
            ≡ thrown fault.now environment items))) }
        ensures err { OnErr result (self.new ≡ self.old) }
    {
        let Some(handler) = self.handler(script) else {
            return Ok(false);
        };
        let payload = Value::Bare(payload_of(alloc, &fault.kind)?);
        let code = Value::Bare(Plain::Whole(code_of(&fault.kind)));
        self.environment
            .bind_two(alloc, handler.code, code, handler.payload, payload)?;
        self.at = handler.at;
        self.stage = Stage::Rest;
        Ok(true)
    }

    /// Leaves nothing.
    pub(crate) fn finish(&mut self)
        ensures environment { self.new.environment ≡ self.old.environment }
        ensures items { (lines : List Line) → frame_items lines self.new ≡ [] }
    {
        self.stage = Stage::Nothing;
    }

    /// Leaves a fault that nothing catches.
    pub(crate) fn fail(&mut self, fault: Held<Fault>)
        ensures environment { self.new.environment ≡ self.old.environment }
        ensures items { (lines : List Line) → frame_items lines self.new ≡ Fail fault ∷ [] }
    {
        self.stage = Stage::Fail(fault);
    }

    /// Forgets all.
    pub(crate) fn clear(&mut self)
        ensures environment { self.new.environment ≡ [] }
        ensures items { (lines : List Line) → frame_items lines self.new ≡ [] }
    {
        self.environment.clear();
        self.stage = Stage::Nothing;
    }

    /// A frame at the same place, in another environment.
    fn within(&self, alloc: Global, environment: Environment) -> Result<Frame, NoMemory>
        ensures { IfOk result (λ frame. (frame.environment ≡ environment)
            × (frame.at ≡ self.now.at) × (frame.stage ≡ self.now.stage)) }
    {
        let stage = self.stage.copy(alloc)?;
        Ok(Frame {
            environment,
            at: self.at,
            stage,
        })
    }

    /// An equal frame.
    pub(crate) fn copy(&self, alloc: Global) -> Result<Frame, NoMemory>
        ensures { IfOk result (SameFrame self.now) }
    {
        self.within(alloc, self.environment.copy(alloc)?)
    }

    /// The frame as an observer sees it: its values are erased.
    pub(crate) fn erase(&self, alloc: Global, observer: &Label) -> Result<Frame, NoMemory>
        ensures { IfOk result (HidesFrame observer.now self.now) }
    {
        self.within(alloc, self.environment.erase(alloc, observer)?)
    }
}

impl Call {
    /// An equal call.
    pub(crate) fn copy(&self, alloc: Global) -> Result<Call, NoMemory>
        ensures { IfOk result (λ call. (lines : List Line) (items : List Item)
            → call_over lines call items ≡ call_over lines self.now items) }
    {
        let caller = self.caller.copy(alloc)?;
        let name = self.name.copy(alloc)?;
        Ok(Call { caller, name })
    }

    /// The call as an observer sees it: the values of its frame are erased.
    pub(crate) fn erase(&self, alloc: Global, observer: &Label) -> Result<Call, NoMemory>
        ensures { IfOk result (λ call. (lines : List Line) (items : List Item)
            → call_over lines call (map (hide_item observer.now) items)
            ≡ map (hide_item observer.now) (call_over lines self.now items)) }
    {
        let caller = self.caller.erase(alloc, observer)?;
        let name = self.name.copy(alloc)?;
        Ok(Call { caller, name })
    }
}
