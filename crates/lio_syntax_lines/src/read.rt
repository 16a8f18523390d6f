//! Reading a line.
#![tactic(auto, unfolding(crate::specs::Line::form, crate::specs::Forms::unary))]

ghost use Rattle.std.specs.Prelude.{◌≡◌, Some, None, IfOk, IfErr};
ghost use Rattle.lio_syntax_lines.specs.Forms as spec;
ghost use Rattle.lio_syntax_lines.specs.Line as line_spec;
ghost use Rattle.lio_syntax_lines.specs.Line.{line_of};
ghost use Rattle.lio_syntax_lines.specs.Literals.{IsName};
ghost use Rattle.lio_syntax_lines.specs.Operands.{IsOperand};
ghost use Rattle.lio_syntax_lines.specs.Simple as simple_spec;
ghost use Rattle.lio_syntax_lines.specs.Simple.{IsSimple};
ghost use Rattle.lio_syntax_lines.specs.Line.{IsLine, IsParsed};

use crate::fault::LineFault;
use crate::forms::{Words, read_operand};
use crate::line::{Line, Operand, ParsedLine, Simple};
use crate::{Keyword, One, Two, without_return};
use lio_clauses::{Names, NoMemory, beside};
use lio_values::Name;
use std::alloc::Global;

/// `OP A`, behind `let X =`
fn unary(alloc: Global, names: &Names, x: Name, op: &[u8], a: &[u8]) -> Result<Simple, LineFault>
    requires { IsName x }
    ensures ok { IfOk result (λ simple. spec.unary names.now x op.now a.now ≡ Some simple) }
    ensures sound { IfOk result (IsSimple names.now) }
    ensures invalid { IfErr result
        (λ fault. fault ≡ LineFault.Invalid → spec.unary names.now x op.now a.now ≡ None) }
{
    let Some(op) = One::find(op) else {
        return Err(LineFault::Invalid);
    };
    let a = read_operand(alloc, names, a)?;
    Ok(Simple::LetOne(x, op, a))
}

/// `A OP A`, behind `let X =`
#[tactic(auto, unfolding(crate::specs::Forms::binary))]
fn binary(
    alloc: Global,
    names: &Names,
    x: Name,
    a: &[u8],
    op: &[u8],
    b: &[u8],
) -> Result<Simple, LineFault>
    requires { IsName x }
    ensures ok { IfOk result (λ simple. spec.binary names.now x a.now op.now b.now ≡ Some simple) }
    ensures sound { IfOk result (IsSimple names.now) }
    ensures invalid { IfErr result
        (λ fault. fault ≡ LineFault.Invalid → spec.binary names.now x a.now op.now b.now ≡ None) }
{
    let Some(op) = Two::find(op) else {
        return Err(LineFault::Invalid);
    };
    let a = read_operand(alloc, names, a)?;
    let (a, b) = beside(a, read_operand(alloc, names, b))?;
    Ok(Simple::LetTwo(x, a, op, b))
}

/// What stands behind `let X =`
#[tactic(auto, unfolding(crate::specs::Forms::expression))]
fn expression(alloc: Global, names: &Names, x: Name, words: &mut Words) -> Result<Simple, LineFault>
    requires { IsName x }
    ensures ok { IfOk result (λ simple. spec.expression names.now x words.old ≡ Some simple) }
    ensures sound { IfOk result (IsSimple names.now) }
    ensures invalid { IfErr result
        (λ fault. fault ≡ LineFault.Invalid → spec.expression names.now x words.old ≡ None) }
{
    let Some(first) = words.next() else {
        return Err(LineFault::Invalid);
    };
    let Some(second) = words.next() else {
        return Ok(Simple::Let(x, read_operand(alloc, names, first)?));
    };
    let Some(third) = words.next() else {
        return unary(alloc, names, x, first, second);
    };
    words.end()?;
    binary(alloc, names, x, first, second, third)
}

/// `X =` and what follows it.
#[tactic(auto, unfolding(crate::specs::Forms::assignment))]
fn assignment(alloc: Global, names: &Names, words: &mut Words) -> Result<Simple, LineFault>
    ensures ok { IfOk result (λ simple. spec.assignment names.now words.old ≡ Some simple) }
    ensures sound { IfOk result (IsSimple names.now) }
    ensures invalid { IfErr result
        (λ fault. fault ≡ LineFault.Invalid → spec.assignment names.now words.old ≡ None) }
{
    let x = words.name(alloc)?;
    match words.next() {
        Some(word) if word == b"=".as_slice() => expression(alloc, names, x, words),
        _ => Err(LineFault::Invalid),
    }
}

/// What stands behind `unlabel X A`: nothing, or `using P`
#[tactic(auto, unfolding(crate::specs::Forms::with_power))]
fn with_power(
    alloc: Global,
    names: &Names,
    x: Name,
    a: Operand,
    words: &mut Words,
) -> Result<Simple, LineFault>
    requires name { IsName x }
    requires operand { IsOperand names.now a }
    ensures ok { IfOk result (λ simple. spec.with_power names.now x a words.old ≡ Some simple) }
    ensures sound { IfOk result (IsSimple names.now) }
    ensures invalid { IfErr result
        (λ fault. fault ≡ LineFault.Invalid → spec.with_power names.now x a words.old ≡ None) }
{
    match words.next() {
        None => Ok(Simple::Unlabel(x, a)),
        Some(word) if word == b"using".as_slice() => {
            let (a, p) = beside(a, words.one(alloc, names))?;
            Ok(Simple::UnlabelUsing(x, a, p))
        }
        Some(_) => Err(LineFault::Invalid),
    }
}

/// What stands behind `unlabel`
#[tactic(auto, unfolding(crate::specs::Forms::unlabelling))]
fn unlabelling(alloc: Global, names: &Names, words: &mut Words) -> Result<Simple, LineFault>
    ensures ok { IfOk result (λ simple. spec.unlabelling names.now words.old ≡ Some simple) }
    ensures sound { IfOk result (IsSimple names.now) }
    ensures invalid { IfErr result
        (λ fault. fault ≡ LineFault.Invalid → spec.unlabelling names.now words.old ≡ None) }
{
    let x = words.name(alloc)?;
    let a = words.operand(alloc, names)?;
    with_power(alloc, names, x, a, words)
}

/// The statement that begins with the keyword, if it begins one.
#[tactic(auto, unfolding(crate::specs::Simple::simple))]
fn read_simple(
    alloc: Global,
    names: &Names,
    keyword: Keyword,
    words: &mut Words,
) -> Result<Simple, LineFault>
    ensures ok { IfOk result (λ simple. simple_spec.simple names.now keyword words.old
        ≡ Some simple) }
    ensures sound { IfOk result (IsSimple names.now) }
    ensures invalid { IfErr result
        (λ fault. fault ≡ LineFault.Invalid → simple_spec.simple names.now keyword words.old
        ≡ None) }
{
    match keyword {
        Keyword::Let => assignment(alloc, names, words),
        Keyword::Call => {
            let (x, p, arguments) = words.call(alloc, names)?;
            Ok(Simple::Call(x, p, arguments))
        }
        Keyword::Return => Ok(Simple::Return(words.one(alloc, names)?)),
        Keyword::Stop => {
            words.end()?;
            Ok(Simple::Stop)
        }
        Keyword::Throw => Ok(Simple::Throw(words.one(alloc, names)?)),
        Keyword::Label => {
            let (x, l, a) = words.name_two(alloc, names)?;
            Ok(Simple::Label(x, l, a))
        }
        Keyword::Unlabel => unlabelling(alloc, names, words),
        Keyword::Taint => Ok(Simple::Taint(words.one(alloc, names)?)),
        Keyword::Lower => Ok(Simple::Lower(words.one(alloc, names)?)),
        Keyword::Relabel => {
            let (x, a, l, p) = words.name_three(alloc, names)?;
            Ok(Simple::Relabel(x, a, l, p))
        }
        Keyword::NewRef => {
            let (x, l, a) = words.name_two(alloc, names)?;
            Ok(Simple::NewRef(x, l, a))
        }
        Keyword::NewVar => {
            let (x, l) = words.name_one(alloc, names)?;
            Ok(Simple::NewVar(x, l))
        }
        Keyword::FullVar => {
            let (x, l, a) = words.name_two(alloc, names)?;
            Ok(Simple::FullVar(x, l, a))
        }
        Keyword::Read => {
            let (x, r) = words.name_one(alloc, names)?;
            Ok(Simple::Read(x, r))
        }
        Keyword::Write => {
            let (r, a) = words.two(alloc, names)?;
            Ok(Simple::Write(r, a))
        }
        Keyword::Take => {
            let (x, v) = words.name_one(alloc, names)?;
            Ok(Simple::Take(x, v))
        }
        Keyword::Put => {
            let (v, a) = words.two(alloc, names)?;
            Ok(Simple::Put(v, a))
        }
        Keyword::Fork => {
            let (x, l, t, c, p, arguments) = words.fork(alloc, names)?;
            Ok(Simple::Fork(x, l, t, c, p, arguments))
        }
        Keyword::Spawn => {
            let (t, c, p, arguments) = words.spawn(alloc, names)?;
            Ok(Simple::Spawn(t, c, p, arguments))
        }
        Keyword::Wait => {
            let (x, r) = words.name_one(alloc, names)?;
            Ok(Simple::Wait(x, r))
        }
        Keyword::Send => {
            let (c, a) = words.two(alloc, names)?;
            Ok(Simple::Send(c, a))
        }
        Keyword::Proc
        | Keyword::If
        | Keyword::Else
        | Keyword::While
        | Keyword::Try
        | Keyword::Catch
        | Keyword::End => Err(LineFault::Invalid),
    }
}

/// The line that begins with the keyword.
fn read_form(
    alloc: Global,
    names: &Names,
    keyword: Keyword,
    words: &mut Words,
) -> Result<Line, LineFault>
    ensures ok { IfOk result (λ line. line_spec.form names.now keyword words.old ≡ Some line) }
    ensures sound { IfOk result (IsLine names.now) }
    ensures invalid { IfErr result
        (λ fault. fault ≡ LineFault.Invalid → line_spec.form names.now keyword words.old ≡ None) }
{
    match keyword {
        Keyword::Proc => {
            let (p, parameters) = words.header(alloc)?;
            Ok(Line::Proc(p, parameters))
        }
        Keyword::If => Ok(Line::If(words.one(alloc, names)?)),
        Keyword::Else => {
            words.end()?;
            Ok(Line::Else)
        }
        Keyword::While => Ok(Line::While(words.one(alloc, names)?)),
        Keyword::Try => {
            words.end()?;
            Ok(Line::Try)
        }
        Keyword::Catch => {
            let (x, y) = words.two_names(alloc)?;
            Ok(Line::Catch(x, y))
        }
        Keyword::End => {
            words.end()?;
            Ok(Line::End)
        }
        _ => Ok(Line::Do(read_simple(alloc, names, keyword, words)?)),
    }
}

/// The line that begins with the word.
fn read_words(
    alloc: Global,
    names: &Names,
    first: &[u8],
    words: &mut Words,
) -> Result<Line, LineFault>
    ensures ok { IfOk result (λ line. line_spec.words_line names.now first.now words.old
        ≡ Some line) }
    ensures sound { IfOk result (IsLine names.now) }
    ensures invalid { IfErr result (λ fault. fault ≡ LineFault.Invalid
        → line_spec.words_line names.now first.now words.old ≡ None) }
{
    match Keyword::find(first) {
        Some(keyword) => read_form(alloc, names, keyword, words),
        None => Err(LineFault::Invalid),
    }
}

/// Reads a line, without its line end, over the names of principals.
#[tactic(auto, unfolding(crate::specs::Line::line_of_words))]
pub fn read_line(alloc: Global, names: &Names, bytes: &[u8]) -> Result<ParsedLine, NoMemory>
    ensures ok { IfOk result (λ line. line ≡ line_of names.now bytes.now) }
    ensures sound { IfOk result (IsParsed names.now) }
{
    let mut words = Words::of(without_return(bytes));
    let Some(first) = words.next() else {
        return Ok(ParsedLine::Blank);
    };
    if first.starts_with(b"#") {
        return Ok(ParsedLine::Blank);
    }
    match read_words(alloc, names, first, &mut words) {
        Ok(line) => Ok(ParsedLine::Says(line)),
        Err(LineFault::Invalid) => Ok(ParsedLine::Invalid),
        Err(LineFault::NoMemory) => Err(NoMemory),
    }
}
