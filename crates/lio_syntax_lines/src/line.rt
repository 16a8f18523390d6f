//! What the lines of a script say.
use crate::{One, Two};
use lio_values::{List, Name, Plain};

/// What a statement works on.
#[derive(Drop)]
pub enum Operand {
    /// What the name is bound to.
    Name(Name),
    /// A whole, a text, a label, a flag or unit.
    Literal(Plain),
}

/// A list of operands.
pub type Operands = List<Operand>;

/// The parameters of a procedure.
pub type Parameters = List<Name>;

/// A statement that opens no block. Its parts stand in the order of its form.
#[derive(Drop)]
pub enum Simple {
    /// `let X = A`
    Let(Name, Operand),
    /// `let X = OP A`
    LetOne(Name, One, Operand),
    /// `let X = A OP A`
    LetTwo(Name, Operand, Two, Operand),
    /// `call X P A ..`
    Call(Name, Name, Operands),
    /// `return A`
    Return(Operand),
    /// `stop`
    Stop,
    /// `throw A`
    Throw(Operand),
    /// `label X L A`
    Label(Name, Operand, Operand),
    /// `unlabel X A`
    Unlabel(Name, Operand),
    /// `unlabel X A using P`
    UnlabelUsing(Name, Operand, Operand),
    /// `taint L`
    Taint(Operand),
    /// `lower L`
    Lower(Operand),
    /// `relabel X A L P`
    Relabel(Name, Operand, Operand, Operand),
    /// `newref X L A`
    NewRef(Name, Operand, Operand),
    /// `newvar X L`
    NewVar(Name, Operand),
    /// `fullvar X L A`
    FullVar(Name, Operand, Operand),
    /// `read X R`
    Read(Name, Operand),
    /// `write R A`
    Write(Operand, Operand),
    /// `take X V`
    Take(Name, Operand),
    /// `put V A`
    Put(Operand, Operand),
    /// `fork X L T C P A ..`
    Fork(Name, Operand, Operand, Operand, Name, Operands),
    /// `spawn T C P A ..`
    Spawn(Operand, Operand, Name, Operands),
    /// `wait X R`
    Wait(Name, Operand),
    /// `send C A`
    Send(Operand, Operand),
}

/// What a line says.
#[derive(Drop)]
pub enum Line {
    /// `proc P X ..`: a procedure begins, with these parameters.
    Proc(Name, Parameters),
    /// `if A`
    If(Operand),
    /// `else`
    Else,
    /// `while A`
    While(Operand),
    /// `try`
    Try,
    /// `catch X Y`
    Catch(Name, Name),
    /// `end`
    End,
    /// A statement that opens no block.
    Do(Simple),
}

/// How a line is read.
#[derive(Drop)]
pub enum ParsedLine {
    /// It says nothing: it has no words, or is a comment.
    Blank,
    /// It is none of the forms.
    Invalid,
    /// It says this.
    Says(Line),
}
