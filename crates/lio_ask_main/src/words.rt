//! What the words ask.

ghost use Rattle.std.specs.Prelude.{◌≡◌, ◌∷◌, [], None, Some, MatchOption};
ghost use Rattle.lio_front.specs.Sorted.{bytes_of_words};
ghost use Rattle.lio_ask_main.specs.Words as spec;
ghost use Rattle.lio_ask_main.specs.Words.{files_named, named, question_of};

use lio_front::is_name;

/// The files of a policy, of a script and of a history.
#[derive(Clone, Copy)]
pub struct Files<'a> {
    pub policy: &'a [u8],
    pub script: &'a [u8],
    pub history: &'a [u8],
}

/// A question.
#[derive(Clone, Copy)]
pub enum Question<'a> {
    /// What the program answers.
    Help,
    /// Which version it has.
    Version,
    /// What the policy of a file lets flow.
    Explain(&'a [u8]),
    /// The same, as a table for programs.
    Table(&'a [u8]),
    /// Whether the script of the second file fits the policy of the first.
    Check(&'a [u8], &'a [u8]),
    /// How many tasks failed or wait for ever in the run that a history tells.
    Audit(Files<'a>),
    /// At which line of the script the task of each of its turns stood.
    Lines(Files<'a>),
}

/// The question that one word asks.
fn alone(word: &[u8]) -> Option<Question<'_>>
    ensures { MatchOption result (spec.alone word.now ≡ None)
        (λ question. spec.alone word.now ≡ Some (named question)) }
{
    if word == b"help".as_slice() {
        return Some(Question::Help);
    }
    if word == b"version".as_slice() {
        return Some(Question::Version);
    }
    None
}

/// The question that a word asks of a file.
fn of_one<'a>(word: &[u8], policy: &'a [u8]) -> Option<Question<'a>>
    ensures { MatchOption result (spec.of_one word.now policy.now ≡ None)
        (λ question. spec.of_one word.now policy.now ≡ Some (named question)) }
{
    if word == b"explain".as_slice() && is_name(policy) {
        Some(Question::Explain(policy))
    } else {
        None
    }
}

/// The question that a word asks of a file, with an option behind it.
fn of_option<'a>(word: &[u8], policy: &'a [u8], option: &[u8]) -> Option<Question<'a>>
    ensures { MatchOption result (spec.of_option word.now policy.now option.now ≡ None)
        (λ question. spec.of_option word.now policy.now option.now ≡ Some (named question)) }
{
    if word == b"explain".as_slice() && is_name(policy) && option == b"--json".as_slice() {
        Some(Question::Table(policy))
    } else {
        None
    }
}

/// The question that a word asks of two files, or of one with an option behind it.
fn of_two<'a>(word: &[u8], policy: &'a [u8], script: &'a [u8]) -> Option<Question<'a>>
    ensures { MatchOption result (spec.of_two word.now policy.now script.now ≡ None)
        (λ question. spec.of_two word.now policy.now script.now ≡ Some (named question)) }
{
    if word == b"check".as_slice() && is_name(policy) && is_name(script) {
        Some(Question::Check(policy, script))
    } else {
        of_option(word, policy, script)
    }
}

/// The question that a word asks of three files, which may stand.
fn of_files<'a>(word: &[u8], files: Files<'a>) -> Option<Question<'a>>
    ensures { MatchOption result (spec.of_files word.now (files_named files.entry) ≡ None)
        (λ question. spec.of_files word.now (files_named files.entry) ≡ Some (named question)) }
{
    if word == b"audit".as_slice() {
        return Some(Question::Audit(files));
    }
    if word == b"lines".as_slice() {
        return Some(Question::Lines(files));
    }
    None
}

/// The question that a word asks of three files.
fn of_three<'a>(
    word: &[u8],
    policy: &'a [u8],
    script: &'a [u8],
    history: &'a [u8],
) -> Option<Question<'a>>
    ensures { MatchOption result (spec.of_three word.now policy.now script.now history.now ≡ None)
        (λ question. spec.of_three word.now policy.now script.now history.now
        ≡ Some (named question)) }
{
    if is_name(policy) && is_name(script) && is_name(history) {
        let files = Files {
            policy,
            script,
            history,
        };
        of_files(word, files)
    } else {
        None
    }
}

/// The question that the words ask, if they ask one: `help`, `version`, `explain POLICY`,
/// `explain POLICY --json`, `check POLICY SCRIPT`, `audit POLICY SCRIPT HISTORY` or
/// `lines POLICY SCRIPT HISTORY`.
pub fn read_question(words: &[String]) -> Option<Question<'_>>
    ensures { MatchOption result (question_of (bytes_of_words words.now) ≡ None)
        (λ question. question_of (bytes_of_words words.now) ≡ Some (named question)) }
{
    match words {
        [word] => alone(word.as_str().as_bytes()),
        [word, policy] => of_one(word.as_str().as_bytes(), policy.as_str().as_bytes()),
        [word, policy, script] => of_two(
            word.as_str().as_bytes(),
            policy.as_str().as_bytes(),
            script.as_str().as_bytes(),
        ),
        [word, policy, script, history] => of_three(
            word.as_str().as_bytes(),
            policy.as_str().as_bytes(),
            script.as_str().as_bytes(),
            history.as_str().as_bytes(),
        ),
        _ => None,
    }
}
