//! What the words ask for.

ghost use Rattle.std.specs.Prelude.{◌≡◌, ◌∷◌, [], Some, IfSome, MatchOption};
ghost use Rattle.lio_front.specs.Command.{IsSized, Rounds, command_of};
ghost use Rattle.lio_front.specs.Sorted.{bytes_of_words, mode_named, named, source_named};
ghost use Rattle.lio_async_main.specs.Words.{host_words};

use lio_front::{Command, Mode, Source, Watch, is_name};

/// The command of two words, if they may stand.
fn run_command<'a>(policy: &'a [u8], script: &'a [u8]) -> Option<Command<'a>>
    ensures command { MatchOption result (host_words (policy.now ∷ script.now ∷ []) ≡ [])
        (λ c. command_of (host_words (policy.now ∷ script.now ∷ [])) ≡ Some (named c)) }
    ensures sized { IfSome result (λ c. IsSized (source_named c.source)) }
    ensures rounds { IfSome result (λ c. mode_named c.mode ≡ Rounds) }
{
    if is_name(policy) && is_name(script) {
        Some(Command {
            source: Source::Files(policy, script),
            history: None,
            view: None,
            mode: Mode::Rounds,
        })
    } else {
        None
    }
}

/// The command of four words, if they may stand.
fn view_command<'a>(
    policy: &'a [u8],
    script: &'a [u8],
    file: &'a [u8],
    label: &'a [u8],
) -> Option<Command<'a>>
    ensures command { MatchOption result
        (host_words (policy.now ∷ script.now ∷ file.now ∷ label.now ∷ []) ≡ [])
        (λ c. command_of (host_words (policy.now ∷ script.now ∷ file.now ∷ label.now ∷ []))
        ≡ Some (named c)) }
    ensures sized { IfSome result (λ c. IsSized (source_named c.source)) }
    ensures rounds { IfSome result (λ c. mode_named c.mode ≡ Rounds) }
{
    if is_name(policy) && is_name(script) && is_name(file) && is_name(label) {
        Some(Command {
            source: Source::Files(policy, script),
            history: None,
            view: Some(Watch { file, label }),
            mode: Mode::Rounds,
        })
    } else {
        None
    }
}

/// The command that the words give, if they give one: the files of the policy and of the script, or
/// these, the file of a view and its observer's label.
pub fn read_words(words: &[String]) -> Option<Command<'_>>
    ensures command { MatchOption result (host_words (bytes_of_words words.now) ≡ [])
        (λ c. command_of (host_words (bytes_of_words words.now)) ≡ Some (named c)) }
    ensures sized { IfSome result (λ c. IsSized (source_named c.source)) }
    ensures rounds { IfSome result (λ c. mode_named c.mode ≡ Rounds) }
{
    match words {
        [policy, script] => run_command(policy.as_str().as_bytes(), script.as_str().as_bytes()),
        [policy, script, file, label] => view_command(
            policy.as_str().as_bytes(),
            script.as_str().as_bytes(),
            file.as_str().as_bytes(),
            label.as_str().as_bytes(),
        ),
        _ => None,
    }
}
