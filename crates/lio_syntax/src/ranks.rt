//! The ranks of names: the place of each among the names that its procedure binds, in their order.
//! Once all of these are bound, that is the place of its binding. The rank of a procedure's name in
//! a statement is the procedure's number.
ghost use Rattle.std.specs.Prelude.{◌≡◌, OnOk};

use crate::procedures::Procedures;
use lio_clauses::NoMemory;
use lio_syntax_lines::{Line, Operand, Simple};
use lio_values::Name;
use std::alloc::Global;

/// The names that a procedure binds, in their order, each once.
#[derive(Drop)]
struct Ranks {
    names: Vec<Vec<u8>>,
}

/// The name that a statement binds, if it binds one.
fn bound_name(simple: &Simple) -> Option<&Name> {
    match simple {
        Simple::Let(x, ..)
        | Simple::LetOne(x, ..)
        | Simple::LetTwo(x, ..)
        | Simple::Call(x, ..)
        | Simple::Label(x, ..)
        | Simple::Unlabel(x, ..)
        | Simple::UnlabelUsing(x, ..)
        | Simple::Relabel(x, ..)
        | Simple::NewRef(x, ..)
        | Simple::NewVar(x, ..)
        | Simple::FullVar(x, ..)
        | Simple::Read(x, ..)
        | Simple::Take(x, ..)
        | Simple::Fork(x, ..)
        | Simple::Wait(x, ..) => Some(x),
        Simple::Return(_)
        | Simple::Stop
        | Simple::Throw(_)
        | Simple::Taint(_)
        | Simple::Lower(_)
        | Simple::Write(..)
        | Simple::Put(..)
        | Simple::Spawn(..)
        | Simple::Send(..) => None,
    }
}

/// Whether a line begins a procedure.
fn begins_procedure(line: &Line) -> bool {
    matches!(line, Line::Proc(..))
}

/// Sets a name's rank. Those that don't fit are all the same.
fn set_rank(name: &mut Name, rank: usize)
    ensures { name.new ≡ name.old }
{
    name.set_rank(rank.min(u32::MAX as usize) as u32);
}

impl Ranks {
    /// No names.
    fn new(alloc: Global) -> Ranks {
        Ranks {
            names: Vec::new(alloc),
        }
    }

    /// Those of the procedure that begins at a place.
    fn of(alloc: Global, lines: &[Line], begin: usize) -> Result<Ranks, NoMemory> {
        let mut ranks = Ranks::new(alloc);
        for place in begin..lines.len() {
            if place > begin && begins_procedure(&lines[place]) {
                break;
            }
            ranks.add_bound(alloc, &lines[place])?;
        }
        ranks.names.sort()?;
        ranks.names.dedup();
        Ok(ranks)
    }

    /// Adds a name.
    fn add(&mut self, alloc: Global, name: &Name) -> Result<(), NoMemory> {
        Ok(self.names.push(Vec::from_slice(alloc, name.bytes())?)?)
    }

    /// Adds the names that a line binds.
    fn add_bound(&mut self, alloc: Global, line: &Line) -> Result<(), NoMemory> {
        match line {
            Line::Proc(_, parameters) => {
                for name in parameters.as_slice() {
                    self.add(alloc, name)?;
                }
            }
            Line::Catch(code, payload) => {
                self.add(alloc, code)?;
                self.add(alloc, payload)?;
            }
            Line::Do(simple) => {
                if let Some(name) = bound_name(simple) {
                    self.add(alloc, name)?;
                }
            }
            Line::If(_) | Line::Else | Line::While(_) | Line::Try | Line::End => {}
        }
        Ok(())
    }

    /// Sets a name's rank, if the procedure binds it.
    fn rank(&self, name: &mut Name)
        ensures { name.new ≡ name.old }
    {
        if let Ok(rank) = self
            .names
            .binary_search_by(|other| other.as_slice().cmp(name.bytes()))
        {
            set_rank(name, rank);
        }
    }

    /// Sets the rank of the name that an operand is, if it is one.
    fn rank_operand(&self, operand: &mut Operand)
        ensures { operand.new ≡ operand.old }
    {
        match operand {
            Operand::Name(name) => self.rank(name),
            Operand::Literal(_) => {}
        }
    }

    /// Sets the ranks in two operands.
    fn rank_operands(&self, a: &mut Operand, b: &mut Operand)
        ensures first { a.new ≡ a.old }
        ensures second { b.new ≡ b.old }
    {
        self.rank_operand(a);
        self.rank_operand(b);
    }

    /// Sets the ranks of a name and in an operand.
    fn rank_one(&self, x: &mut Name, a: &mut Operand)
        ensures name { x.new ≡ x.old }
        ensures operand { a.new ≡ a.old }
    {
        self.rank(x);
        self.rank_operand(a);
    }

    /// Sets the ranks of a name and in two operands.
    fn rank_two(&self, x: &mut Name, a: &mut Operand, b: &mut Operand)
        ensures name { x.new ≡ x.old }
        ensures first { a.new ≡ a.old }
        ensures second { b.new ≡ b.old }
    {
        self.rank_one(x, a);
        self.rank_operand(b);
    }

    /// Sets the ranks of the names in a statement. Those in a list of arguments are left as they
    /// are.
    fn rank_simple(&self, simple: &mut Simple)
        ensures { simple.new ≡ simple.old }
    {
        match simple {
            Simple::Let(x, a) => self.rank_one(x, a),
            Simple::LetOne(x, _, a) => self.rank_one(x, a),
            Simple::Unlabel(x, a) => self.rank_one(x, a),
            Simple::NewVar(x, a) => self.rank_one(x, a),
            Simple::Read(x, a) => self.rank_one(x, a),
            Simple::Take(x, a) => self.rank_one(x, a),
            Simple::Wait(x, a) => self.rank_one(x, a),
            Simple::LetTwo(x, a, _, b) => self.rank_two(x, a, b),
            Simple::Label(x, a, b) => self.rank_two(x, a, b),
            Simple::UnlabelUsing(x, a, b) => self.rank_two(x, a, b),
            Simple::NewRef(x, a, b) => self.rank_two(x, a, b),
            Simple::FullVar(x, a, b) => self.rank_two(x, a, b),
            Simple::Relabel(x, a, b, c) => {
                self.rank_two(x, a, b);
                self.rank_operand(c);
            }
            Simple::Fork(x, a, b, c, _, _) => {
                self.rank_two(x, a, b);
                self.rank_operand(c);
            }
            Simple::Call(x, _, _) => self.rank(x),
            Simple::Return(a) => self.rank_operand(a),
            Simple::Throw(a) => self.rank_operand(a),
            Simple::Taint(a) => self.rank_operand(a),
            Simple::Lower(a) => self.rank_operand(a),
            Simple::Write(a, b) => self.rank_operands(a, b),
            Simple::Put(a, b) => self.rank_operands(a, b),
            Simple::Send(a, b) => self.rank_operands(a, b),
            Simple::Spawn(a, b, _, _) => self.rank_operands(a, b),
            Simple::Stop => {}
        }
    }

    /// Sets the ranks of the names in a line.
    fn rank_line(&self, line: &mut Line)
        ensures { line.new ≡ line.old }
    {
        match line {
            Line::Do(simple) => self.rank_simple(simple),
            Line::If(condition) => self.rank_operand(condition),
            Line::While(condition) => self.rank_operand(condition),
            Line::Catch(code, payload) => {
                self.rank(code);
                self.rank(payload);
            }
            Line::Proc(..) | Line::Else | Line::Try | Line::End => {}
        }
    }
}

/// Sets the ranks of the names in the lines of a script.
pub(crate) fn rank_names(alloc: Global, lines: &mut [Line]) -> Result<(), NoMemory>
    ensures { OnOk result (lines.new ≡ lines.old) }
{
    let mut ranks = Ranks::new(alloc);
    for place in 0..lines.len() {
        if begins_procedure(&lines[place]) {
            ranks = Ranks::of(alloc, lines, place)?;
        }
        ranks.rank_line(&mut lines[place]);
    }
    Ok(())
}

/// Sets the rank of a procedure's name to the procedure's number, if it has one.
fn rank_procedure(procedures: &Procedures, name: &mut Name)
    ensures { name.new ≡ name.old }
{
    if let Some(number) = procedures.number(name.bytes()) {
        set_rank(name, number);
    }
}

/// Sets the rank of the name of the procedure that a statement calls, forks or spawns.
fn rank_called(procedures: &Procedures, simple: &mut Simple)
    ensures { simple.new ≡ simple.old }
{
    match simple {
        Simple::Call(_, procedure, _) => rank_procedure(procedures, procedure),
        Simple::Fork(_, _, _, _, procedure, _) => rank_procedure(procedures, procedure),
        Simple::Spawn(_, _, procedure, _) => rank_procedure(procedures, procedure),
        _ => {}
    }
}

/// Sets the ranks of the names of procedures in the statements of lines.
pub(crate) fn rank_procedures(procedures: &Procedures, lines: &mut [Line])
    ensures { lines.new ≡ lines.old }
{
    for place in 0..lines.len() {
        if let Line::Do(simple) = &mut lines[place] {
            rank_called(procedures, simple);
        }
    }
}
