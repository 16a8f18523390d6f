//! What the words name.

ghost use Rattle.std.specs.Prelude.{◌≡◌, ◌∷◌, [], None, Some, MatchOption};
ghost use Rattle.lio_front.specs.Sorted.{bytes_of_words};
ghost use Rattle.lio_observe_main.specs.Words.{command_of, named};

use lio_front::is_name;

/// The files of the policy, of the script and of a view, and the text of the observer's label.
#[derive(Clone, Copy)]
pub struct Command<'a> {
    pub policy: &'a [u8],
    pub script: &'a [u8],
    pub view: &'a [u8],
    pub label: &'a [u8],
}

/// The command that four words give, if they may stand.
fn command_by<'a>(
    policy: &'a [u8],
    script: &'a [u8],
    view: &'a [u8],
    label: &'a [u8],
) -> Option<Command<'a>>
    ensures { MatchOption result
        (command_of (policy.now ∷ script.now ∷ view.now ∷ label.now ∷ []) ≡ None)
        (λ c. command_of (policy.now ∷ script.now ∷ view.now ∷ label.now ∷ [])
        ≡ Some (named c)) }
{
    if is_name(policy) && is_name(script) && is_name(view) && is_name(label) {
        Some(Command {
            policy,
            script,
            view,
            label,
        })
    } else {
        None
    }
}

/// The command that the words give, if they give one: the files of the policy, of the script and of
/// the view, and the observer's label.
pub fn read_words(words: &[String]) -> Option<Command<'_>>
    ensures { MatchOption result (command_of (bytes_of_words words.now) ≡ None)
        (λ c. command_of (bytes_of_words words.now) ≡ Some (named c)) }
{
    let [policy, script, view, label] = words else {
        return None;
    };
    command_by(
        policy.as_str().as_bytes(),
        script.as_str().as_bytes(),
        view.as_str().as_bytes(),
        label.as_str().as_bytes(),
    )
}
