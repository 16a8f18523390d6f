//! How a task goes on after its turn.
mod go_on;
mod steps;

ghost use Rattle.std.specs.Prelude.{◌≡◌, IfOk};
ghost use Rattle.lio_calculus.specs.Going.{released};

use crate::task::Task;
use lio_clauses::NoMemory;
use lio_labels::Label;
use lio_syntax::Script;
use lio_task_control::Environment;
use lio_values::{Act, Content, Fault, Handle, Held, Name, Plain, Reply, Small, Value};
use std::alloc::Global;

/// Done, or out of memory, after which all is as before.
type Done = Result<(), NoMemory>;

impl Task {
    ghost use Rattle.std.specs.Prelude.{◌≡◌, ◌+◌, ◌-◌, ◌≤◌, List, [], ◌∷◌, IsTrue, OnOk, OnErr};
    ghost use Rattle.std.specs.Prelude.{true};
    ghost use Rattle.lio_syntax_lines.specs.declared.line.Line.{Line};
    ghost use Rattle.lio_task.specs.StateOf.{state_in, state_of};
    ghost use Rattle.lio_labels.specs.Flow.{flows};
    ghost use Rattle.lio_syntax.specs.Lines.{script_lines};
    ghost use Rattle.lio_syntax.specs.Statements as statement;
    ghost use Rattle.lio_syntax_lines.specs.declared.line.Simple.{Simple as Simply};
    ghost use Rattle.lio_syntax.specs.Items.{Access, Back, enter};
    ghost use Rattle.lio_task_control.specs.Continuation.{body_at};
    ghost use Rattle.lio_task_control.specs.Front.{AtStatement, Begins, IsBack, IsOwn, entered};
    ghost use Rattle.lio_task_control.specs.Front.{entered_other};
    ghost use Rattle.lio_syntax.specs.Throwing.{returned};
    ghost use Rattle.lio_values.specs.declared.value.Value.TheVariants as value;
    ghost use Rattle.lio_values.specs.declared.value.Plain.TheVariants.{Unit as unit};
    ghost use Rattle.lio_values.specs.declared.value.Content.TheVariants as content;
    ghost use Rattle.lio_values.specs.Small.{plain_of};
    ghost use Rattle.lio_calculus.specs.Going as going;
    ghost use Rattle.lio_task.specs.Goes.{spent};

    /// Goes on behind what comes first. It takes no memory.
    fn go_past(&mut self, script: &Script)
        requires { IsOwn (state_in script.now self.old).items }
        ensures { state_in script.now self.new ≡ spent (state_in script.now self.old) }
    {
        self.continuation.advance(script);
        self.turns = self.turns.saturating_sub(1);
    }

    /// A name is bound to a value.
    #[inline(always)]
    fn go_bind(&mut self, alloc: Global, script: &Script, name: &Name, value: Value) -> Done
        requires { AtStatement (state_in script.now self.old).items }
        ensures ok { OnOk result (state_in script.now self.new
            ≡ going.binding (spent (state_in script.now self.old)) name.now value) }
        ensures err { OnErr result (state_in script.now self.new ≡ state_in script.now self.old) }
    {
        self.continuation.bind(alloc, script, name, value)?;
        self.turns = self.turns.saturating_sub(1);
        Ok(())
    }

    /// A name is bound to a small value.
    #[inline(always)]
    fn go_set(&mut self, alloc: Global, script: &Script, name: &Name, small: Small) -> Done
        requires { AtStatement (state_in script.now self.old).items }
        ensures ok { OnOk result (state_in script.now self.new ≡ going.binding
            (spent (state_in script.now self.old)) name.now (value.Bare (plain_of small))) }
        ensures err { OnErr result (state_in script.now self.new ≡ state_in script.now self.old) }
    {
        self.continuation.set(alloc, script, name, small)?;
        self.turns = self.turns.saturating_sub(1);
        Ok(())
    }

    /// A name is bound to a plain value, sealed under a label.
    fn go_seal(
        &mut self,
        alloc: Global,
        script: &Script,
        name: &Name,
        label: Label,
        plain: Plain,
    ) -> Done
        requires { AtStatement (state_in script.now self.old).items }
        ensures ok { OnOk result (state_in script.now self.new ≡ going.binding (spent
            (state_in script.now self.old)) name.now (value.Sealed label (content.Kept plain))) }
        ensures err { OnErr result (state_in script.now self.new ≡ state_in script.now self.old) }
    {
        let content = Held::new(alloc, Content::Kept(plain))?;
        self.go_bind(alloc, script, name, Value::Sealed(label, content))
    }

    /// A fault is thrown.
    fn go_throw(&mut self, alloc: Global, script: &Script, fault: Fault) -> Done
        requires { AtStatement (state_in script.now self.old).items }
        ensures ok { OnOk result (state_in script.now self.new
            ≡ going.throwing (spent (state_in script.now self.old)) fault) }
        ensures err { OnErr result (state_in script.now self.new ≡ state_in script.now self.old) }
    {
        self.continuation.throw(alloc, script, fault)?;
        self.turns = self.turns.saturating_sub(1);
        Ok(())
    }

    /// Binds a name to what a task was given; a fault in it is thrown instead.
    fn go_given(&mut self, alloc: Global, script: &Script, name: &Name, content: Content) -> Done
        requires { AtStatement (state_in script.now self.old).items }
        ensures ok { OnOk result (state_in script.now self.new
            ≡ going.given (spent (state_in script.now self.old)) name.now content) }
        ensures err { OnErr result (state_in script.now self.new ≡ state_in script.now self.old) }
    {
        match content {
            Content::Kept(plain) => self.go_bind(alloc, script, name, Value::Bare(plain)),
            Content::Faulted(fault) => self.go_throw(alloc, script, fault.into_inner()),
            Content::Hidden => self.go_bind(alloc, script, name, Value::Bare(Plain::Unit)),
        }
    }

    /// The body of a procedure begins, in an environment of its own.
    fn go_call(
        &mut self,
        alloc: Global,
        script: &Script,
        name: &Name,
        environment: Environment,
        line: usize,
    ) -> Done
        requires { AtStatement (state_in script.now self.old).items }
        ensures ok { OnOk result (let was = spent (state_in script.now self.old) in
            state_in script.now self.new ≡ record was {
              environment = environment;
              items = enter (body_at (script_lines script.now) line)
                  (Back was.environment name.now ∷ was.items);
            }) }
        ensures err { OnErr result (state_in script.now self.new ≡ state_in script.now self.old) }
    {
        self.continuation
            .call(alloc, script, name, environment, line)?;
        self.turns = self.turns.saturating_sub(1);
        Ok(())
    }

    /// A value is returned to the caller.
    fn go_return(&mut self, alloc: Global, script: &Script, value: Value) -> Done
        requires { AtStatement (state_in script.now self.old).items }
        ensures ok { OnOk result (let was = spent (state_in script.now self.old) in
            state_in script.now self.new
            ≡ going.at was (returned value was.environment was.items)) }
        ensures err { OnErr result (state_in script.now self.new ≡ state_in script.now self.old) }
    {
        self.continuation.give_back(alloc, script, value)?;
        self.turns = self.turns.saturating_sub(1);
        Ok(())
    }

    /// The current label is raised. It takes no memory.
    fn go_raise(&mut self, script: &Script, label: Label)
        requires own { IsOwn (state_in script.now self.old).items }
        requires cleared { IsTrue (flows label self.old.clearance) }
        ensures { state_in script.now self.new
            ≡ record (spent (state_in script.now self.old)) { label = label } }
    {
        self.go_past(script);
        self.label = label;
    }

    /// The current label is raised, and the access of the statement in front comes in its place.
    fn go_raise_to(&mut self, script: &Script, label: Label)
        requires at { AtStatement (state_in script.now self.old).items }
        requires cleared { IsTrue (flows label self.old.clearance) }
        ensures { (simple : Simply) → Begins (state_in script.now self.old).items
            (statement.Do simple) → let was = spent (state_in script.now self.old) in
            state_in script.now self.new
            ≡ record was { label = label; items = Access simple ∷ was.items } }
    {
        self.continuation.access(script);
        self.label = label;
        self.turns = self.turns.saturating_sub(1);
    }

    /// The clearance is lowered. It takes no memory.
    fn go_lower(&mut self, script: &Script, clearance: Label)
        requires own { IsOwn (state_in script.now self.old).items }
        requires cleared { IsTrue (flows self.old.label clearance) }
        ensures { state_in script.now self.new
            ≡ record (spent (state_in script.now self.old)) { clearance = clearance } }
    {
        self.go_past(script);
        self.clearance = clearance;
    }

    /// The task ends. It takes no memory.
    pub(crate) fn go_to_end(&mut self, script: &Script)
        ensures { let was = spent (state_in script.now self.old) in
            state_in script.now self.new ≡ record was {
              environment = [];
              items = [];
              ended = true;
            } }
    {
        self.continuation.end();
        self.turns = self.turns.saturating_sub(1);
        self.ended = true;
    }

    /// Numbers of the range are taken: the first, and so many behind it. It takes no memory.
    fn take_numbers(&mut self, count: u32)
        requires { 1 + count ≤ self.old.cells }
        ensures { (lines : List Line)
            → state_of lines self.new ≡ going.taking (state_of lines self.old) count }
    {
        self.first += 1 + count;
        self.cells -= 1 + count;
    }

    /// The block of the statement that comes first begins. It takes no memory.
    fn go_enter(&mut self, script: &Script)
        requires { AtStatement (state_in script.now self.old).items }
        ensures { let was = state_in script.now self.old in
            state_in script.now self.new ≡ record (spent was) { items = entered was.items } }
    {
        self.continuation.enter(script);
        self.turns = self.turns.saturating_sub(1);
    }

    /// The block of an `else` begins, or what comes behind the `if`. It takes no memory.
    fn go_enter_other(&mut self, script: &Script)
        requires { AtStatement (state_in script.now self.old).items }
        ensures { let was = state_in script.now self.old in
            state_in script.now self.new ≡ record (spent was) { items = entered_other was.items } }
    {
        self.continuation.enter_other(script);
        self.turns = self.turns.saturating_sub(1);
    }

    /// The caller goes on.
    fn go_leave(&mut self, alloc: Global, script: &Script) -> Done
        requires { IsBack (state_in script.now self.old).items }
        ensures ok { OnOk result (let was = state_in script.now self.old in
            state_in script.now self.new ≡ record (going.at was
            (returned (value.Bare unit) was.environment was.items)) { turns = was.turns - 1 }) }
        ensures err { OnErr result (state_in script.now self.new ≡ state_in script.now self.old) }
    {
        self.continuation.leave(alloc, script)?;
        self.turns = self.turns.saturating_sub(1);
        Ok(())
    }

    /// A name is bound to the handle of what was made, which took numbers of the range: the first,
    /// and so many behind it.
    fn go_hold(
        &mut self,
        alloc: Global,
        script: &Script,
        name: &Name,
        handle: Plain,
        count: u32,
    ) -> Done
        requires at { AtStatement (state_in script.now self.old).items }
        requires room { 1 + count ≤ self.old.cells }
        ensures ok { OnOk result (state_in script.now self.new ≡ going.taking (going.binding
            (spent (state_in script.now self.old)) name.now (value.Bare handle)) count) }
        ensures err { OnErr result (state_in script.now self.new ≡ state_in script.now self.old) }
    {
        self.go_bind(alloc, script, name, Value::Bare(handle))?;
        self.take_numbers(count);
        Ok(())
    }

    /// The handle of the first number of the range.
    fn newest(&self, label: Label) -> Handle
        ensures { result ≡ record { number = self.now.first; label = label } }
    {
        Handle {
            number: self.first,
            label,
        }
    }

    /// A child took numbers of the range and turns, and a name is bound to the handle of its
    /// result.
    fn go_fork(
        &mut self,
        alloc: Global,
        script: &Script,
        name: &Name,
        handle: Plain,
        cells: u32,
        turns: u32,
    ) -> Done
        requires at { AtStatement (state_in script.now self.old).items }
        requires room { 1 + cells ≤ self.old.cells }
        ensures ok { OnOk result (let was = spent (state_in script.now self.old) in
            state_in script.now self.new ≡ record (going.taking (going.binding was name.now
            (value.Bare handle)) cells) { turns = was.turns - turns }) }
        ensures err { OnErr result (state_in script.now self.new ≡ state_in script.now self.old) }
    {
        self.go_hold(alloc, script, name, handle, cells)?;
        self.turns = self.turns.saturating_sub(turns);
        Ok(())
    }

    /// A child took numbers of the range and turns. It takes no memory.
    fn go_spawn(&mut self, script: &Script, cells: u32, turns: u32)
        requires own { IsOwn (state_in script.now self.old).items }
        requires room { 1 + cells ≤ self.old.cells }
        ensures { let was = spent (state_in script.now self.old) in
            state_in script.now self.new
            ≡ record (going.taking was cells) { turns = was.turns - turns } }
    {
        self.go_past(script);
        self.take_numbers(cells);
        self.turns = self.turns.saturating_sub(turns);
    }

    /// Raises the current label, and binds a name to what was sealed; a fault in it is thrown
    /// instead.
    fn go_unlabel(
        &mut self,
        alloc: Global,
        script: &Script,
        name: &Name,
        label: Label,
        content: Content,
    ) -> Done
        requires at { AtStatement (state_in script.now self.old).items }
        requires cleared { IsTrue (flows label self.old.clearance) }
        ensures ok { OnOk result (state_in script.now self.new ≡ going.given
            (record (spent (state_in script.now self.old)) { label = label }) name.now content) }
        ensures err { OnErr result (state_in script.now self.new ≡ state_in script.now self.old) }
    {
        self.go_given(alloc, script, name, content)?;
        self.label = label;
        Ok(())
    }

    /// A reply is given.
    fn go_reply(&mut self, alloc: Global, script: &Script, name: &Name, reply: &Reply) -> Done
        requires { AtStatement (state_in script.now self.old).items }
        ensures ok { OnOk result (state_in script.now self.new
            ≡ going.replied (spent (state_in script.now self.old)) name.now reply.now) }
        ensures err { OnErr result (state_in script.now self.new ≡ state_in script.now self.old) }
    {
        match reply {
            Reply::Got(value) => {
                let value = value.get().copy(alloc)?;
                self.go_bind(alloc, script, name, value)
            }
            Reply::Told(content) => {
                let content = content.get().copy(alloc)?;
                self.go_given(alloc, script, name, content)
            }
            _ => {
                self.go_past(script);
                Ok(())
            }
        }
    }

    /// The content that an act releases is bound to a name, sealed under a label.
    fn go_release(
        &mut self,
        alloc: Global,
        script: &Script,
        name: &Name,
        label: Label,
        act: &Act,
    ) -> Done
        requires { AtStatement (state_in script.now self.old).items }
        ensures ok { OnOk result (state_in script.now self.new
            ≡ going.binding (spent (state_in script.now self.old)) name.now
            (value.Sealed label (going.released act.now))) }
        ensures err { OnErr result (state_in script.now self.new ≡ state_in script.now self.old) }
    {
        let content = released(alloc, act)?;
        self.go_bind(alloc, script, name, Value::Sealed(label, content))
    }

    /// Raises the current label, and binds a name to the content that an act exposes; a fault in it
    /// is thrown instead.
    fn go_expose(
        &mut self,
        alloc: Global,
        script: &Script,
        name: &Name,
        label: Label,
        act: &Act,
    ) -> Done
        requires at { AtStatement (state_in script.now self.old).items }
        requires cleared { IsTrue (flows label self.old.clearance) }
        ensures ok { OnOk result (state_in script.now self.new
            ≡ going.given (record (spent (state_in script.now self.old)) { label = label })
            name.now (going.released act.now)) }
        ensures err { OnErr result (state_in script.now self.new ≡ state_in script.now self.old) }
    {
        let content = released(alloc, act)?;
        self.go_unlabel(alloc, script, name, label, content.into_inner())
    }
}

/// The content that an act releases or exposes.
fn released(alloc: Global, act: &Act) -> Result<Held<Content>, NoMemory>
    ensures { IfOk result (λ content. content ≡ released act.now) }
{
    match act {
        Act::Release(_, _, _, content) | Act::Expose(_, _, _, content) => content.copy(alloc),
        _ => Held::new(alloc, Content::Hidden),
    }
}
