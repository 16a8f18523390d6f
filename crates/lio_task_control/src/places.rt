//! Places in a script, and where one goes on from them.
#![tactic(auto, unfolding(lio_syntax::specs::Places::else_at))]

ghost use Rattle.std.specs.Prelude.{◌≡◌, ◌<◌, ◌+◌, ◌++◌, ◌^◌, [], List, length, MatchOption};
ghost use Rattle.std.specs.Prelude.{OnSome};
ghost use Rattle.std.specs.Prelude.{IfSome, MatchBool, slice_get, true};
ghost use Rattle.std.specs.Option.{option_copied};
ghost use Rattle.lio_syntax.specs.Closing.{end_of};
ghost use Rattle.lio_syntax.specs.Lines.{script_lines};
ghost use Rattle.lio_syntax.specs.Places.{else_at, place_at};
ghost use Rattle.lio_syntax.specs.Items.{Item, enter, rest_of};
ghost use Rattle.lio_task_control.specs.Continuation.{accessed, body_at, items_at};
ghost use Rattle.lio_task_control.specs.Front.{IsFront, entered, entered_other};
ghost use Rattle.lio_task_control.specs.Parts.{CatchesNothing, IsCaught, SettlesAt};

use crate::front::Front;
use lio_syntax::Script;
use lio_syntax_lines::Line;
use lio_values::Name;

/// A handler: the names that it binds, and the place at which it begins.
#[derive(Drop)]
pub(crate) struct Handler<'s> {
    pub(crate) code: &'s Name,
    pub(crate) payload: &'s Name,
    pub(crate) at: usize,
}

/// The line at a place.
fn line_at(script: &Script, at: usize) -> Option<&Line>
    ensures line { option_copied result ≡ slice_get (script_lines script.now) at }
    ensures within { OnSome result (at < length (script_lines script.now)) }
    ensures fits { length (script_lines script.now) < 2 ^ 64 }
{
    let lines = script.lines();
    if at < lines.len() {
        Some(&lines[at])
    } else {
        None
    }
}

/// The place behind what a place stands for, and at the end of a block the one behind the block.
fn behind(script: &Script, at: usize) -> usize
    ensures { result ≡ (place_at (script_lines script.now) at).behind }
{
    match script.place(at) {
        Some(place) => place.behind,
        None => at,
    }
}

/// The place of the `else` of the `if` at a place, if it has one.
fn else_of(script: &Script, at: usize) -> Option<usize>
    requires { at < length (script_lines script.now) }
    ensures place { result ≡ else_at (script_lines script.now) at }
    ensures within { IfSome result (λ place. place < length (script_lines script.now)) }
    ensures fits { length (script_lines script.now) < 2 ^ 64 }
{
    let end = script.end_behind(at);
    match line_at(script, end) {
        Some(Line::Else) => Some(end),
        _ => None,
    }
}

/// The place itself, or at the end of a block the one behind the block.
pub(crate) fn settled(script: &Script, at: usize) -> usize
    ensures { SettlesAt (script_lines script.now) at result }
{
    match line_at(script, at) {
        Some(Line::Else) => behind(script, at),
        Some(Line::End) => behind(script, at),
        _ => at,
    }
}

/// The place behind what comes first at a place.
pub(crate) fn next_place(script: &Script, at: usize) -> usize
    ensures { items_at (script_lines script.now) result
        ≡ rest_of (items_at (script_lines script.now) at) }
{
    let at = settled(script, at);
    behind(script, at)
}

/// The place of the block of the statement that comes first at a place, or the one behind it.
pub(crate) fn block_place(script: &Script, at: usize) -> usize
    ensures { items_at (script_lines script.now) result
        ≡ entered (items_at (script_lines script.now) at) }
{
    let at = settled(script, at);
    let Some(line) = line_at(script, at) else {
        return at;
    };
    match line {
        Line::If(_) => at + 1,
        Line::While(_) => at + 1,
        Line::Try => at + 1,
        _ => behind(script, at),
    }
}

/// The place of the block of the `else` of the `if` that comes first at a place, or the one behind
/// the statement.
pub(crate) fn other_place(script: &Script, at: usize) -> usize
    ensures { items_at (script_lines script.now) result
        ≡ entered_other (items_at (script_lines script.now) at) }
{
    let at = settled(script, at);
    let Some(line) = line_at(script, at) else {
        return at;
    };
    match line {
        Line::If(_) => match else_of(script, at) {
            Some(place) => place + 1,
            None => behind(script, at),
        },
        _ => behind(script, at),
    }
}

/// What comes first at a place, if something does.
pub(crate) fn front_at<'t, 's>(script: &'s Script, at: usize) -> Option<Front<'t, 's>>
    ensures { MatchOption result (items_at (script_lines script.now) at ≡ [])
        (λ front. (items : List Item)
        → IsFront (items_at (script_lines script.now) at ++ items) front) }
{
    let at = settled(script, at);
    match line_at(script, at)? {
        Line::Do(simple) => Some(Front::Simple(simple)),
        Line::While(condition) => Some(Front::Loop(condition)),
        Line::If(condition) => Some(Front::Choice(condition)),
        Line::Try => Some(Front::Guarded),
        Line::Catch(..) => Some(Front::Mark),
        _ => None,
    }
}

/// What comes first at a place, if something does, where a statement stands for its access.
pub(crate) fn accessed_at<'t, 's>(script: &'s Script, at: usize) -> Option<Front<'t, 's>>
    ensures { MatchOption result (accessed (items_at (script_lines script.now) at) ≡ [])
        (λ front. (items : List Item)
        → IsFront (accessed (items_at (script_lines script.now) at) ++ items) front) }
{
    match front_at(script, at)? {
        Front::Simple(simple) => Some(Front::Access(simple)),
        front => Some(front),
    }
}

/// Whether the line at a place begins a procedure.
pub(crate) fn begins_procedure(script: &Script, at: usize) -> bool
    ensures body { let body = enter (body_at (script_lines script.now) at) [] in
        MatchBool result (items_at (script_lines script.now) (at + 1) ≡ body) (body ≡ []) }
    ensures within { result ≡ true → at < length (script_lines script.now) }
    ensures fits { length (script_lines script.now) < 2 ^ 64 }
{
    let Some(line) = line_at(script, at) else {
        return false;
    };
    match line {
        Line::Proc(..) => true,
        _ => false,
    }
}

/// The handler of faults in what comes at a place, if there is one.
pub(crate) fn handler_at<'s>(script: &'s Script, at: usize) -> Option<Handler<'s>>
    ensures { MatchOption result (CatchesNothing (items_at (script_lines script.now) at))
        (IsCaught (script_lines script.now) (items_at (script_lines script.now) at)) }
{
    let catch = script.place(at)?.handler;
    match line_at(script, catch)? {
        Line::Catch(code, payload) => Some(Handler {
            code,
            payload,
            at: catch + 1,
        }),
        _ => None,
    }
}
