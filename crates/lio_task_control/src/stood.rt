//! Where a task stood when it threw a fault that nothing caught.

use crate::environment::Environment;
use crate::frame::Frame;
use crate::front::Front;
use crate::places::settled;
use lio_clauses::NoMemory;
use lio_syntax::Script;
use lio_values::{Fault, FaultKind, Held};
use std::alloc::Global;

/// The innermost frame of a task when it threw a fault that nothing caught, and the fault. It is
/// for messages: no clause says what it is, and a task goes on without it where memory is wanting.
#[derive(Drop)]
pub struct Stood {
    frame: Frame,
    fault: Fault,
}

impl Stood {
    /// Copies of a frame and of the fault that is thrown in it.
    pub(crate) fn of(alloc: Global, frame: &Frame, fault: &Fault) -> Result<Held<Stood>, NoMemory> {
        let frame = frame.copy(alloc)?;
        let fault = fault.copy(alloc)?;
        Held::new(alloc, Stood { frame, fault })
    }

    /// What names were bound to.
    pub fn environment(&self) -> &Environment {
        &self.frame.environment
    }

    /// What came first: what threw the fault.
    pub fn front<'t, 's>(&'t self, script: &'s Script) -> Front<'t, 's> {
        self.frame.front(script).unwrap_or(Front::Nothing)
    }

    /// The line of the script at which it stood, from 0.
    pub fn line(&self, script: &Script) -> usize {
        settled(script, self.frame.at)
    }

    /// The kind of the fault.
    pub fn kind(&self) -> &FaultKind {
        &self.fault.kind
    }
}

/// An equal one, if there is one and memory for it.
pub(crate) fn copy_stood(alloc: Global, stood: &Option<Held<Stood>>) -> Option<Held<Stood>> {
    match stood {
        Some(stood) => {
            let Stood { frame, fault } = stood.get();
            Stood::of(alloc, frame, fault).ok()
        }
        None => None,
    }
}
