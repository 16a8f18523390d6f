//! How a task goes on.
//!
//! Where `#[tactic(none)]` stands each goal has its answer, so no tactic is tried.
ghost use Rattle.std.specs.Prelude.{◌≡◌, ◌<◌, List, [], ◌∷◌, ◌++◌, IfOk, OnOk, OnErr, MatchBool};
ghost use Rattle.std.specs.Prelude.{vec_len, vec_capacity};
ghost use Rattle.lio_syntax_lines.specs.declared.line.Line.{Line};
ghost use Rattle.lio_syntax_lines.specs.declared.line.Simple.{Simple as Simply};
ghost use Rattle.lio_values.specs.declared.value.Value.TheVariants.{Bare};
ghost use Rattle.lio_values.specs.declared.value.Plain.TheVariants.{Unit as unit};
ghost use Rattle.lio_values.specs.Small.{plain_of};
ghost use Rattle.lio_syntax.specs.Lines.{script_lines};
ghost use Rattle.lio_syntax.specs.Statements.{Do as Simple};
ghost use Rattle.lio_syntax.specs.Environment as spec;
ghost use Rattle.lio_task_control.specs.declared.frame.Call.{Call as Caller};
ghost use Rattle.lio_syntax.specs.Items.{Back, Access, Fail, enter, rest_of};
ghost use Rattle.lio_syntax.specs.Throwing.{returned, thrown};
ghost use Rattle.lio_task_control.specs.Continuation.{body_at, place_of};
ghost use Rattle.lio_task_control.specs.Front.{AtStatement, Begins, IsBack, IsOwn, entered};
ghost use Rattle.lio_task_control.specs.Front.{entered_other};
ghost use Rattle.lio_task_control.specs.Parts.{SameCalls, outermost};

use crate::continuation::Continuation;
use crate::environment::Environment;
use crate::frame::{Call, Frame};
use crate::stood::Stood;
use lio_clauses::NoMemory;
use lio_syntax::Script;
use lio_values::{Fault, Held, Name, Plain, Small, Value};
use std::alloc::Global;
use std::mem;

/// Puts a call on top, for which there is room.
fn put_call(calls: &mut Vec<Call>, call: Call)
    requires { vec_len calls.old < vec_capacity calls.old }
    ensures { calls.new.items ≡ calls.old.items ++ call ∷ [] }
{
    let _ = calls.push(call);
}

impl Continuation {
    /// Goes on behind what comes first. It takes no memory.
    pub fn advance(&mut self, script: &Script)
        requires { IsOwn (place_of (script_lines script.now) self.old).items }
        ensures { let was = place_of (script_lines script.now) self.old in
            place_of (script_lines script.now) self.new ≡ record was { items = rest_of was.items } }
    {
        self.frame.advance(script);
    }

    /// Binds a name, and goes on behind the statement that comes first.
    pub fn bind(
        &mut self,
        alloc: Global,
        script: &Script,
        name: &Name,
        value: Value,
    ) -> Result<(), NoMemory>
        requires { AtStatement (place_of (script_lines script.now) self.old).items }
        ensures ok { OnOk result (let was = place_of (script_lines script.now) self.old in
            place_of (script_lines script.now) self.new ≡ record {
              environment = spec.bind was.environment name.now value;
              items = rest_of was.items;
            }) }
        ensures err { OnErr result (place_of (script_lines script.now) self.new
            ≡ place_of (script_lines script.now) self.old) }
    {
        self.frame.environment.bind(alloc, name, value)?;
        self.frame.advance(script);
        Ok(())
    }

    /// Binds a name to a small value, and goes on behind the statement that comes first.
    #[inline(always)]
    pub fn set(
        &mut self,
        alloc: Global,
        script: &Script,
        name: &Name,
        value: Small,
    ) -> Result<(), NoMemory>
        requires { AtStatement (place_of (script_lines script.now) self.old).items }
        ensures ok { OnOk result (let was = place_of (script_lines script.now) self.old in
            place_of (script_lines script.now) self.new ≡ record {
              environment = spec.bind was.environment name.now (Bare (plain_of value));
              items = rest_of was.items;
            }) }
        ensures err { OnErr result (place_of (script_lines script.now) self.new
            ≡ place_of (script_lines script.now) self.old) }
    {
        self.frame.environment.set(alloc, name, value)?;
        self.frame.advance(script);
        Ok(())
    }

    /// Enters the block of the statement that comes first: an `if`, a `while` or a `try`. It takes
    /// no memory.
    pub fn enter(&mut self, script: &Script)
        requires { AtStatement (place_of (script_lines script.now) self.old).items }
        ensures { let was = place_of (script_lines script.now) self.old in
            place_of (script_lines script.now) self.new ≡ record was { items = entered was.items } }
    {
        self.frame.enter(script);
    }

    /// Enters the block of the `else` of the `if` that comes first; where it has none, goes on
    /// behind it. It takes no memory.
    pub fn enter_other(&mut self, script: &Script)
        requires { AtStatement (place_of (script_lines script.now) self.old).items }
        ensures { let was = place_of (script_lines script.now) self.old in
            place_of (script_lines script.now) self.new
            ≡ record was { items = entered_other was.items } }
    {
        self.frame.enter_other(script);
    }

    /// Calls the procedure that the line at a place begins, in an environment of its own. The name
    /// is bound to what it returns.
    pub fn call(
        &mut self,
        alloc: Global,
        script: &Script,
        name: &Name,
        environment: Environment,
        line: usize,
    ) -> Result<(), NoMemory>
        requires { AtStatement (place_of (script_lines script.now) self.old).items }
        ensures ok { OnOk result (let was = place_of (script_lines script.now) self.old in
            place_of (script_lines script.now) self.new ≡ record {
              environment = environment;
              items = enter (body_at (script_lines script.now) line)
                  (Back was.environment name.now ∷ rest_of was.items);
            }) }
        ensures err { OnErr result (place_of (script_lines script.now) self.new
            ≡ place_of (script_lines script.now) self.old) }
    {
        let name = name.copy(alloc)?;
        self.calls.reserve(1)?;
        self.frame.advance(script);
        let frame = Frame::of_body(script, line, environment);
        let caller = mem::replace(&mut self.frame, frame);
        put_call(&mut self.calls, Call { caller, name });
        Ok(())
    }

    /// Goes back to the caller, in whose environment the call's name is bound to unit.
    pub fn leave(&mut self, alloc: Global, script: &Script) -> Result<(), NoMemory>
        requires { IsBack (place_of (script_lines script.now) self.old).items }
        ensures ok { OnOk result (let was = place_of (script_lines script.now) self.old in
            place_of (script_lines script.now) self.new
            ≡ returned (Bare unit) was.environment was.items) }
        ensures err { OnErr result (place_of (script_lines script.now) self.new
            ≡ place_of (script_lines script.now) self.old) }
    {
        self.go_back(alloc, Value::Bare(Plain::Unit))?;
        Ok(())
    }

    /// Goes back to the caller, in whose environment the call's name is bound to a value; where no
    /// call is open nothing is left.
    pub fn give_back(
        &mut self,
        alloc: Global,
        script: &Script,
        value: Value,
    ) -> Result<(), NoMemory>
        requires { AtStatement (place_of (script_lines script.now) self.old).items }
        ensures ok { OnOk result (let was = place_of (script_lines script.now) self.old in
            place_of (script_lines script.now) self.new
            ≡ returned value was.environment (rest_of was.items)) }
        ensures err { OnErr result (place_of (script_lines script.now) self.new
            ≡ place_of (script_lines script.now) self.old) }
    {
        self.go_back(alloc, value)?;
        Ok(())
    }

    /// Goes on in the frame of the innermost call, if one is open.
    fn resume_caller(&mut self)
        ensures none { self.old.calls.items ≡ []
            → (self.new.calls.items ≡ []) × (self.new.frame ≡ self.old.frame) }
        ensures some { (calls : List Caller) (call : Caller)
            → self.old.calls.items ≡ calls ++ call ∷ []
            → (self.new.calls.items ≡ calls) × (self.new.frame ≡ call.caller) }
    {
        if let Some(call) = self.calls.pop() {
            let Call { caller, .. } = call;
            self.frame = caller;
        }
    }

    /// Goes back to the caller, in whose environment the call's name is bound to a value; where no
    /// call is open nothing is left.
    fn go_back(&mut self, alloc: Global, value: Value) -> Result<(), NoMemory>
        ensures ok { OnOk result ((lines : List Line) → let was = place_of lines self.old in
            place_of lines self.new ≡ returned value was.environment was.items) }
        ensures err { OnErr result ((lines : List Line)
            → place_of lines self.new ≡ place_of lines self.old) }
    {
        let count = self.calls.len();
        if count == 0 {
            drop(value);
            self.frame.finish();
            return Ok(());
        }
        let call = &mut self.calls[count - 1];
        call.caller.environment.bind(alloc, &call.name, value)?;
        self.resume_caller();
        Ok(())
    }

    /// Leaves nothing but a fault that nothing catches, in the environment of the outermost
    /// procedure. Where it stood is kept for messages.
    fn fail(&mut self, alloc: Global, fault: Fault) -> Result<(), NoMemory>
        ensures err { OnErr result (self.new ≡ self.old) }
        ensures ok { OnOk result ((lines : List Line)
            → place_of lines self.new ≡ record {
              environment = outermost self.old.calls.items self.old.frame;
              items = Fail fault ∷ [];
            }) }
    {
        let stood = Stood::of(alloc, &self.frame, &fault).ok();
        let fault = Held::new(alloc, fault)?;
        self.calls.truncate(1);
        self.resume_caller();
        self.frame.fail(fault);
        self.stood = stood;
        Ok(())
    }

    /// Begins the nearest handler of a fault, if there is one.
    #[tactic(none)]
    fn catch(&mut self, alloc: Global, script: &Script, fault: &Fault) -> Result<bool, NoMemory>
        ensures caught { IfOk result (λ found.
            let was = place_of (script_lines script.now) self.old in MatchBool found
            (place_of (script_lines script.now) self.new
            ≡ thrown fault.now was.environment was.items)
            (SameCalls self.old self.new × (thrown fault.now was.environment was.items ≡ record {
              environment = outermost self.old.calls.items self.old.frame;
              items = Fail fault.now ∷ [];
            }))) }
        ensures err { OnErr result (SameCalls self.old self.new) }
    {
        if self.frame.catch(alloc, script, fault)? {
            return Ok(true);
        }
        let mut count = self.calls.len();
        'calls: while count > 0 {
            count -= 1;
            let call = &mut self.calls[count];
            if call.caller.catch(alloc, script, fault)? {
                self.calls.truncate(count + 1);
                self.resume_caller();
                return Ok(true);
            }
        }
        Ok(false)
    }

    /// Throws a fault: the nearest handler begins, or nothing but the fault is left.
    #[tactic(none)]
    pub fn throw(&mut self, alloc: Global, script: &Script, fault: Fault) -> Result<(), NoMemory>
        requires { AtStatement (place_of (script_lines script.now) self.old).items }
        ensures ok { OnOk result (let was = place_of (script_lines script.now) self.old in
            place_of (script_lines script.now) self.new
            ≡ thrown fault was.environment (rest_of was.items)) }
        ensures err { OnErr result (place_of (script_lines script.now) self.new
            ≡ place_of (script_lines script.now) self.old) }
    {
        match self.catch(alloc, script, &fault) {
            Ok(false) => self.fail(alloc, fault),
            Ok(true) => {
                drop(fault);
                Ok(())
            }
            Err(error) => {
                drop(fault);
                Err(error)
            }
        }
    }

    /// The access of the statement that comes first comes in its place. It takes no memory.
    pub fn access(&mut self, script: &Script)
        requires { AtStatement (place_of (script_lines script.now) self.old).items }
        ensures { (simple : Simply)
            → Begins (place_of (script_lines script.now) self.old).items (Simple simple)
            → let was = place_of (script_lines script.now) self.old in
            place_of (script_lines script.now) self.new
            ≡ record was { items = Access simple ∷ rest_of was.items } }
    {
        self.frame.access();
    }

    /// Forgets all. It takes no memory.
    pub fn end(&mut self)
        ensures { (lines : List Line)
            → place_of lines self.new ≡ record { environment = []; items = [] } }
    {
        self.calls.clear();
        self.frame.clear();
    }
}
