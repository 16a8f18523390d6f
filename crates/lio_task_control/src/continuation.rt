//! What a task still has to do.
ghost use Rattle.std.specs.Prelude.{◌≡◌, List, [], IfOk};
ghost use Rattle.lio_syntax_lines.specs.declared.line.Line.{Line};
ghost use Rattle.lio_syntax.specs.Lines.{script_lines};
ghost use Rattle.lio_syntax.specs.Items.{enter, open_calls};
ghost use Rattle.lio_task_control.specs.Continuation.{body_at, place_of};
ghost use Rattle.lio_task_control.specs.Front.{IsFront};
ghost use Rattle.lio_syntax.specs.Hiding.{hide_place};

use crate::environment::Environment;
use crate::frame::{Call, Frame};
use crate::front::Front;
use crate::places::settled;
use crate::stood::{Stood, copy_stood};
use lio_clauses::NoMemory;
use lio_labels::Label;
use lio_syntax::Script;
use lio_values::Held;
use std::alloc::Global;

/// Where a task stands: the running procedure's frame, and the calls that it goes back to, the
/// innermost last.
#[derive(Drop)]
pub struct Continuation {
    pub(crate) calls: Vec<Call>,
    pub(crate) frame: Frame,
    /// Where it stood when it threw a fault that nothing caught, if it did.
    pub(crate) stood: Option<Held<Stood>>,
}

impl Continuation {
    /// Before the body of the procedure that the line at a place begins.
    pub fn of_body(
        alloc: Global,
        script: &Script,
        line: usize,
        environment: Environment,
    ) -> Continuation
        ensures { place_of (script_lines script.now) result ≡ record {
          environment = environment;
          items = enter (body_at (script_lines script.now) line) [];
        } }
    {
        Continuation {
            calls: Vec::new(alloc),
            frame: Frame::of_body(script, line, environment),
            stood: None,
        }
    }

    /// Nothing is bound, and nothing is left.
    pub fn ended(alloc: Global) -> Continuation
        ensures { (lines : List Line)
            → place_of lines result ≡ record { environment = []; items = [] } }
    {
        Continuation {
            calls: Vec::new(alloc),
            frame: Frame::ended(alloc),
            stood: None,
        }
    }

    /// What names are bound to.
    pub fn environment(&self) -> &Environment
        ensures { (lines : List Line) → result.now ≡ (place_of lines self.now).environment }
    {
        &self.frame.environment
    }

    /// How many calls are open.
    pub fn open_calls(&self) -> usize
        ensures { (lines : List Line) → result ≡ open_calls (place_of lines self.now).items }
    {
        self.calls.as_slice().len()
    }

    /// What comes first.
    #[inline(always)]
    pub fn front<'t, 's>(&'t self, script: &'s Script) -> Front<'t, 's>
        ensures { IsFront (place_of (script_lines script.now) self.now).items result }
    {
        if let Some(front) = self.frame.front(script) {
            return front;
        }
        if self.calls.is_empty() {
            Front::Nothing
        } else {
            Front::Back
        }
    }

    /// The line of the script at which it stands, from 0. It is for messages: no clause says which.
    pub fn line(&self, script: &Script) -> usize {
        settled(script, self.frame.at)
    }

    /// Where it stood when it threw a fault that nothing caught, if it did. It is for messages: no
    /// clause says where.
    pub fn stood(&self) -> Option<&Stood> {
        match &self.stood {
            Some(stood) => Some(stood.get()),
            None => None,
        }
    }

    /// An equal continuation.
    pub fn copy(&self, alloc: Global) -> Result<Continuation, NoMemory>
        ensures { IfOk result (λ continuation. (lines : List Line)
            → place_of lines continuation ≡ place_of lines self.now) }
    {
        let mut calls = Vec::new(alloc);
        for call in &self.calls {
            calls.push(call.copy(alloc)?)?;
        }
        let frame = self.frame.copy(alloc)?;
        let stood = copy_stood(alloc, &self.stood);
        Ok(Continuation {
            calls,
            frame,
            stood,
        })
    }

    /// The continuation as an observer sees it: each value in it is erased, and where it stood at a
    /// fault is left out. Source: the erasure of the concurrent calculus of LIO, ICFP 2012.
    pub fn erase(&self, alloc: Global, observer: &Label) -> Result<Continuation, NoMemory>
        ensures { IfOk result (λ continuation. (lines : List Line)
            → place_of lines continuation ≡ hide_place observer.now (place_of lines self.now)) }
    {
        let mut calls = Vec::new(alloc);
        for call in &self.calls {
            calls.push(call.erase(alloc, observer)?)?;
        }
        let frame = self.frame.erase(alloc, observer)?;
        Ok(Continuation {
            calls,
            frame,
            stood: None,
        })
    }
}
