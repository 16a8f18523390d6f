//! The names in the lines of a script.

use lio_syntax_lines::{Line, Operand, Operands, Simple};
use lio_values::Name;

/// What a line names.
#[derive(Clone, Copy)]
pub(crate) struct Parts<'s> {
    /// The names that it binds.
    pub binds: Option<&'s Name>,
    pub binds_too: Option<&'s Name>,
    /// The procedure that it calls, and with what.
    pub calls: Option<&'s Name>,
    pub arguments: Option<&'s Operands>,
    /// What else it works on.
    pub first: Option<&'s Operand>,
    pub second: Option<&'s Operand>,
    pub third: Option<&'s Operand>,
}

impl<'s> Parts<'s> {
    /// A line that names nothing.
    fn nothing() -> Parts<'s> {
        Parts {
            binds: None,
            binds_too: None,
            calls: None,
            arguments: None,
            first: None,
            second: None,
            third: None,
        }
    }

    /// The line, where it binds a name.
    fn binding(mut self, name: &'s Name) -> Parts<'s> {
        self.binds = Some(name);
        self
    }

    /// The line, where it works on an operand.
    fn on(mut self, first: &'s Operand) -> Parts<'s> {
        self.first = Some(first);
        self
    }

    /// The line, where it works on two operands.
    fn on_two(mut self, first: &'s Operand, second: &'s Operand) -> Parts<'s> {
        self.first = Some(first);
        self.second = Some(second);
        self
    }

    /// The line, where it works on three operands.
    fn on_three(
        mut self,
        first: &'s Operand,
        second: &'s Operand,
        third: &'s Operand,
    ) -> Parts<'s> {
        self.first = Some(first);
        self.second = Some(second);
        self.third = Some(third);
        self
    }

    /// The line, where it calls a procedure.
    fn calling(mut self, name: &'s Name, arguments: &'s Operands) -> Parts<'s> {
        self.calls = Some(name);
        self.arguments = Some(arguments);
        self
    }

    /// What a statement that opens no block names.
    fn of_simple(simple: &'s Simple) -> Parts<'s> {
        let parts = Parts::nothing();
        match simple {
            Simple::Stop => parts,
            Simple::Let(x, a)
            | Simple::LetOne(x, _, a)
            | Simple::Unlabel(x, a)
            | Simple::NewVar(x, a)
            | Simple::Read(x, a)
            | Simple::Take(x, a)
            | Simple::Wait(x, a) => parts.binding(x).on(a),
            Simple::LetTwo(x, a, _, b)
            | Simple::Label(x, a, b)
            | Simple::UnlabelUsing(x, a, b)
            | Simple::NewRef(x, a, b)
            | Simple::FullVar(x, a, b) => parts.binding(x).on_two(a, b),
            Simple::Relabel(x, a, b, c) => parts.binding(x).on_three(a, b, c),
            Simple::Return(a) | Simple::Throw(a) | Simple::Taint(a) | Simple::Lower(a) => {
                parts.on(a)
            }
            Simple::Write(a, b) | Simple::Put(a, b) | Simple::Send(a, b) => parts.on_two(a, b),
            Simple::Call(x, p, arguments) => parts.binding(x).calling(p, arguments),
            Simple::Fork(x, a, b, c, p, arguments) => {
                parts.binding(x).on_three(a, b, c).calling(p, arguments)
            }
            Simple::Spawn(a, b, p, arguments) => parts.on_two(a, b).calling(p, arguments),
        }
    }

    /// What a line names; of one that begins a procedure nothing.
    pub(crate) fn of(line: &'s Line) -> Parts<'s> {
        match line {
            Line::Proc(_, _) | Line::Else | Line::Try | Line::End => Parts::nothing(),
            Line::If(a) | Line::While(a) => Parts::nothing().on(a),
            Line::Catch(x, y) => {
                let mut parts = Parts::nothing().binding(x);
                parts.binds_too = Some(y);
                parts
            }
            Line::Do(simple) => Parts::of_simple(simple),
        }
    }

    /// The arguments with which it calls a procedure.
    pub(crate) fn arguments(&self) -> &'s [Operand] {
        match self.arguments {
            Some(arguments) => arguments.as_slice(),
            None => &[],
        }
    }

    /// Whether it works on a name.
    pub(crate) fn works_on(&self, name: &Name) -> bool {
        if is_name(self.first, name) || is_name(self.second, name) || is_name(self.third, name) {
            return true;
        }
        for operand in self.arguments() {
            if is_name(Some(operand), name) {
                return true;
            }
        }
        false
    }
}

/// Whether an operand is there and is a name.
fn is_name(operand: Option<&Operand>, name: &Name) -> bool {
    match operand {
        Some(Operand::Name(other)) => other.is(name),
        _ => false,
    }
}
