//! Printing lines.
#![tactic(auto, unfolding(crate::specs::Words::names_spaced))]

ghost use Rattle.std.specs.Prelude.{◌≡◌, ◌++◌, OnOk, All};
ghost use Rattle.lio_syntax_lines.specs.Keyword.{word_of};
ghost use Rattle.lio_syntax_lines.specs.Words.{names_spaced};
ghost use Rattle.lio_syntax_lines.specs.Operands.{operand_spaced};
ghost use Rattle.lio_syntax_lines.specs.Line.{line_text};
ghost use Rattle.lio_syntax_lines.specs.Words.{spaced};
ghost use Rattle.lio_syntax_lines.specs.Operands.{operands_spaced};
ghost use Rattle.lio_syntax_lines.specs.Simple.{simple_text};
ghost use Rattle.lio_syntax_lines.specs.Operands.{IsOperand};
ghost use Rattle.lio_syntax_lines.specs.Simple.{IsSimple};
ghost use Rattle.lio_syntax_lines.specs.Line.{IsLine};

use crate::Keyword;
use crate::line::{Line, Operand, Simple};
use lio_clauses::{Names, NoMemory};
use lio_values::Name;

/// Appends a first word.
fn print_keyword(out: &mut Vec<u8>, keyword: Keyword) -> Result<(), NoMemory>
    ensures { OnOk result (out.new.items ≡ out.old.items ++ word_of keyword) }
{
    Ok(out.extend_from_slice(keyword.word())?)
}

/// Appends a word behind a blank.
fn print_word(out: &mut Vec<u8>, word: &[u8]) -> Result<(), NoMemory>
    ensures { OnOk result (out.new.items ≡ out.old.items ++ spaced word.now) }
{
    out.push(b' ')?;
    Ok(out.extend_from_slice(word)?)
}

/// Appends an operand behind a blank.
fn print_operand(out: &mut Vec<u8>, names: &Names, operand: &Operand) -> Result<(), NoMemory>
    requires { IsOperand names.now operand.now }
    ensures { OnOk result (out.new.items ≡ out.old.items ++ operand_spaced names.now operand.now) }
{
    match operand {
        Operand::Name(name) => print_word(out, name.bytes()),
        Operand::Literal(plain) => {
            out.push(b' ')?;
            plain.print_to(out, names)
        }
    }
}

/// Appends operands, each behind a blank.
#[tactic(auto, unfolding(crate::specs::Operands::operands_spaced))]
fn print_operands(out: &mut Vec<u8>, names: &Names, operands: &[Operand]) -> Result<(), NoMemory>
    requires { All (IsOperand names.now) operands.now }
    ensures { OnOk result (out.new.items
        ≡ out.old.items ++ operands_spaced names.now operands.now) }
{
    for operand in operands {
        print_operand(out, names, operand)?;
    }
    Ok(())
}

/// Appends names, each behind a blank.
fn print_names(out: &mut Vec<u8>, parameters: &[Name]) -> Result<(), NoMemory>
    ensures { OnOk result (out.new.items ≡ out.old.items ++ names_spaced parameters.now) }
{
    for name in parameters {
        print_word(out, name.bytes())?;
    }
    Ok(())
}

/// Appends `K A`.
fn print_one(
    out: &mut Vec<u8>,
    names: &Names,
    keyword: Keyword,
    a: &Operand,
) -> Result<(), NoMemory>
    requires { IsOperand names.now a.now }
    ensures { OnOk result (out.new.items
        ≡ out.old.items ++ (word_of keyword ++ operand_spaced names.now a.now)) }
{
    print_keyword(out, keyword)?;
    print_operand(out, names, a)
}

/// Appends `K A A`.
fn print_two(
    out: &mut Vec<u8>,
    names: &Names,
    keyword: Keyword,
    a: &Operand,
    b: &Operand,
) -> Result<(), NoMemory>
    requires first { IsOperand names.now a.now }
    requires second { IsOperand names.now b.now }
    ensures { OnOk result (out.new.items ≡ out.old.items
        ++ (word_of keyword ++ operand_spaced names.now a.now ++ operand_spaced names.now b.now)) }
{
    print_one(out, names, keyword, a)?;
    print_operand(out, names, b)
}

/// Appends `K X`.
fn print_name(out: &mut Vec<u8>, keyword: Keyword, x: &Name) -> Result<(), NoMemory>
    ensures { OnOk result (out.new.items ≡ out.old.items ++ (word_of keyword ++ spaced x.now)) }
{
    print_keyword(out, keyword)?;
    print_word(out, x.bytes())
}

/// Appends `K X A`.
fn print_name_one(
    out: &mut Vec<u8>,
    names: &Names,
    keyword: Keyword,
    x: &Name,
    a: &Operand,
) -> Result<(), NoMemory>
    requires { IsOperand names.now a.now }
    ensures { OnOk result (out.new.items
        ≡ out.old.items ++ (word_of keyword ++ spaced x.now ++ operand_spaced names.now a.now)) }
{
    print_name(out, keyword, x)?;
    print_operand(out, names, a)
}

/// Appends `K X A A`.
fn print_name_two(
    out: &mut Vec<u8>,
    names: &Names,
    keyword: Keyword,
    x: &Name,
    a: &Operand,
    b: &Operand,
) -> Result<(), NoMemory>
    requires first { IsOperand names.now a.now }
    requires second { IsOperand names.now b.now }
    ensures { OnOk result (out.new.items ≡ out.old.items ++ (word_of keyword
        ++ spaced x.now ++ operand_spaced names.now a.now ++ operand_spaced names.now b.now)) }
{
    print_name_one(out, names, keyword, x, a)?;
    print_operand(out, names, b)
}

/// Appends `P A ..`, behind a blank.
fn print_called(
    out: &mut Vec<u8>,
    names: &Names,
    p: &Name,
    arguments: &[Operand],
) -> Result<(), NoMemory>
    requires { All (IsOperand names.now) arguments.now }
    ensures { OnOk result (out.new.items
        ≡ out.old.items ++ (spaced p.now ++ operands_spaced names.now arguments.now)) }
{
    print_word(out, p.bytes())?;
    print_operands(out, names, arguments)
}

impl Simple {
    /// Appends its text.
    fn print_to(&self, out: &mut Vec<u8>, names: &Names) -> Result<(), NoMemory>
        requires { IsSimple names.now self.now }
        ensures { OnOk result (out.new.items ≡ out.old.items ++ simple_text names.now self.now) }
    {
        match self {
            Simple::Let(x, a) => {
                print_name(out, Keyword::Let, x)?;
                print_word(out, b"=")?;
                print_operand(out, names, a)
            }
            Simple::LetOne(x, op, a) => {
                print_name(out, Keyword::Let, x)?;
                print_word(out, b"=")?;
                print_word(out, op.word())?;
                print_operand(out, names, a)
            }
            Simple::LetTwo(x, a, op, b) => {
                print_name(out, Keyword::Let, x)?;
                print_word(out, b"=")?;
                print_operand(out, names, a)?;
                print_word(out, op.word())?;
                print_operand(out, names, b)
            }
            Simple::Call(x, p, arguments) => {
                print_name(out, Keyword::Call, x)?;
                print_called(out, names, p, arguments.as_slice())
            }
            Simple::Return(a) => print_one(out, names, Keyword::Return, a),
            Simple::Stop => print_keyword(out, Keyword::Stop),
            Simple::Throw(a) => print_one(out, names, Keyword::Throw, a),
            Simple::Label(x, l, a) => print_name_two(out, names, Keyword::Label, x, l, a),
            Simple::Unlabel(x, a) => print_name_one(out, names, Keyword::Unlabel, x, a),
            Simple::UnlabelUsing(x, a, p) => {
                print_name_one(out, names, Keyword::Unlabel, x, a)?;
                print_word(out, b"using")?;
                print_operand(out, names, p)
            }
            Simple::Taint(l) => print_one(out, names, Keyword::Taint, l),
            Simple::Lower(l) => print_one(out, names, Keyword::Lower, l),
            Simple::Relabel(x, a, l, p) => {
                print_name_two(out, names, Keyword::Relabel, x, a, l)?;
                print_operand(out, names, p)
            }
            Simple::NewRef(x, l, a) => print_name_two(out, names, Keyword::NewRef, x, l, a),
            Simple::NewVar(x, l) => print_name_one(out, names, Keyword::NewVar, x, l),
            Simple::FullVar(x, l, a) => print_name_two(out, names, Keyword::FullVar, x, l, a),
            Simple::Read(x, r) => print_name_one(out, names, Keyword::Read, x, r),
            Simple::Write(r, a) => print_two(out, names, Keyword::Write, r, a),
            Simple::Take(x, v) => print_name_one(out, names, Keyword::Take, x, v),
            Simple::Put(v, a) => print_two(out, names, Keyword::Put, v, a),
            Simple::Fork(x, l, t, c, p, arguments) => {
                print_name_two(out, names, Keyword::Fork, x, l, t)?;
                print_operand(out, names, c)?;
                print_called(out, names, p, arguments.as_slice())
            }
            Simple::Spawn(t, c, p, arguments) => {
                print_two(out, names, Keyword::Spawn, t, c)?;
                print_called(out, names, p, arguments.as_slice())
            }
            Simple::Wait(x, r) => print_name_one(out, names, Keyword::Wait, x, r),
            Simple::Send(c, a) => print_two(out, names, Keyword::Send, c, a),
        }
    }
}

impl Line {
    /// Appends its text, without a line end. Where memory runs out, a part of it may stand at the
    /// end.
    pub fn print_to(&self, out: &mut Vec<u8>, names: &Names) -> Result<(), NoMemory>
        requires { IsLine names.now self.now }
        ensures { OnOk result (out.new.items ≡ out.old.items ++ line_text names.now self.now) }
    {
        match self {
            Line::Proc(p, parameters) => {
                print_name(out, Keyword::Proc, p)?;
                print_names(out, parameters.as_slice())
            }
            Line::If(a) => print_one(out, names, Keyword::If, a),
            Line::Else => print_keyword(out, Keyword::Else),
            Line::While(a) => print_one(out, names, Keyword::While, a),
            Line::Try => print_keyword(out, Keyword::Try),
            Line::Catch(x, y) => {
                print_name(out, Keyword::Catch, x)?;
                print_word(out, y.bytes())
            }
            Line::End => print_keyword(out, Keyword::End),
            Line::Do(simple) => simple.print_to(out, names),
        }
    }
}
