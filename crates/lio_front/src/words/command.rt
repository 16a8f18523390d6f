//! What the words ask for.

ghost use Rattle.std.specs.Prelude.{◌≡◌, None, Some, All, IfSome, IsTrue, MatchOption};
ghost use Rattle.std.specs.Option.{option_map};
ghost use Rattle.lio_front.specs.Command as spec;
ghost use Rattle.lio_front.specs.Command.{command_of};
ghost use Rattle.lio_front.specs.Sorted.{bytes_of_words, mode_named, named, plain_of};
ghost use Rattle.lio_front.specs.Sorted.{source_named, watch_named, word_list};

use crate::words::numbers::{count_of, size_of};
use crate::words::sorted::{Plain, sort_words};

/// What is run.
#[derive(Clone, Copy)]
pub enum Source<'a> {
    /// The policy and the script of the files with these names.
    Files(&'a [u8], &'a [u8]),
    /// The generated workload of this size: 1 to 256.
    Made(u32),
}

/// A view: what an observer sees, and the file to which it is written.
#[derive(Clone, Copy)]
pub struct Watch<'a> {
    /// The name of the file.
    pub file: &'a [u8],
    /// The text of the observer's label.
    pub label: &'a [u8],
}

/// How the turns are taken.
#[derive(Clone, Copy)]
pub enum Mode<'a> {
    /// The tasks take turns in rounds.
    Rounds,
    /// So many workers take the turns, in whatever order they come to them: 1 to 64.
    Workers(u32),
    /// That of the history in this file.
    Replay(&'a [u8]),
}

/// What the words ask for.
#[derive(Clone, Copy)]
pub struct Command<'a> {
    /// What is run.
    pub source: Source<'a>,
    /// The file of the history, where one is asked for.
    pub history: Option<&'a [u8]>,
    /// The view that is written, where one is asked for.
    pub view: Option<Watch<'a>>,
    /// How the turns are taken.
    pub mode: Mode<'a>,
}

/// What is run, by the plain words and the value of `--make`.
fn read_source<'a>(plain: Plain<'a>, size: Option<&'a [u8]>) -> Option<Source<'a>>
    requires { All (λ word. IsTrue (spec.is_name word)) (plain_of plain) }
    ensures source { option_map source_named result
        ≡ spec.source_of (word_list (option_map (λ word. word.now) size.entry)) (plain_of plain.entry) }
    ensures sized { IfSome result (λ source. spec.IsSized (source_named source)) }
{
    match (size, plain) {
        (None, Plain::Two(policy, script)) => Some(Source::Files(policy, script)),
        (Some(size), Plain::Nothing) => Some(Source::Made(size_of(size)?)),
        _ => None,
    }
}

/// The view that is written, by the values of `--view` and `--observer`: both are there, or none.
fn read_watch<'a>(file: Option<&'a [u8]>, label: Option<&'a [u8]>) -> Option<Option<Watch<'a>>>
    ensures { option_map (option_map watch_named) result
        ≡ spec.watch_of (word_list (option_map (λ word. word.now) file.entry))
        (word_list (option_map (λ word. word.now) label.entry)) }
{
    match (file, label) {
        (None, None) => Some(None),
        (Some(file), Some(label)) => Some(Some(Watch { file, label })),
        _ => None,
    }
}

/// How the turns are taken, by the values of `--workers` and `--check`, of which one at most may be
/// there.
fn read_mode<'a>(count: Option<&'a [u8]>, file: Option<&'a [u8]>) -> Option<Mode<'a>>
    ensures mode { option_map mode_named result
        ≡ spec.mode_of (word_list (option_map (λ word. word.now) count.entry))
        (word_list (option_map (λ word. word.now) file.entry)) }
    ensures counted { IfSome result (λ mode. spec.IsCounted (mode_named mode)) }
{
    match (count, file) {
        (None, None) => Some(Mode::Rounds),
        (Some(count), None) => Some(Mode::Workers(count_of(count)?)),
        (None, Some(file)) => Some(Mode::Replay(file)),
        (Some(_), Some(_)) => None,
    }
}

/// The command that the words give, if they give one.
pub fn read_command(words: &[String]) -> Option<Command<'_>>
    ensures command { MatchOption result (command_of (bytes_of_words words.now) ≡ None)
        (λ c. command_of (bytes_of_words words.now) ≡ Some (named c)) }
    ensures sized { IfSome result (λ c. spec.IsSized (source_named c.source)) }
    ensures counted { IfSome result (λ c. spec.IsCounted (mode_named c.mode)) }
{
    let sorted = sort_words(words)?;
    let source = read_source(sorted.plain, sorted.size)?;
    let view = read_watch(sorted.view, sorted.observer)?;
    let mode = read_mode(sorted.workers, sorted.check)?;
    Some(Command {
        source,
        history: sorted.history,
        view,
        mode,
    })
}
