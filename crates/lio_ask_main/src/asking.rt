//! The call: the words, what is read for the question that they ask, and what is said.

ghost use Rattle.std.specs.Prelude.{◌≡◌, ◌≤◌, false, None, Some, IfOk, IfErr};
ghost use Rattle.lio_outside.specs.Call.{outside};
ghost use Rattle.lio_front.specs.Sorted.{bytes_of_words};
ghost use Rattle.lio_ask_main.specs.Answers.{AreTextsOf, IsAnswered, IsRefused, IsSaid, Says};
ghost use Rattle.lio_ask_main.specs.Words.{Audit, Lines, files_named, named, question_of};
ghost use Rattle.lio_ask_main.specs.Words.{Question as Asks};

use crate::answer::Answer;
use crate::past::{Past, load_past};
use crate::print::{print_help, print_version};
use crate::tell::{Told, tell_audit, tell_check, tell_explain, tell_lines, tell_table};
use crate::words::{Files, Question, read_question};
use lio_clauses::NoMemory;
use lio_front::{Status, Texts};
use lio_outside::{Say, SayFault, Store};
use std::alloc::Global;

/// How a call ended, and what it read.
#[derive(Drop)]
pub struct Asked {
    pub answer: Answer,
    /// The bytes of the policy and of the script, as far as they were read.
    pub texts: Texts,
    /// What was to be taken again, where all of it was read.
    pub past: Option<Past>,
}

/// What is told with this text, which tells of no trouble.
fn told_with(text: Result<Vec<u8>, NoMemory>) -> Result<Told, Status>
    ensures ok { IfOk result (λ told. told.troubled ≡ false) }
    ensures err { IfErr result (λ status. status ≡ Status.NoMemory) }
{
    Ok(Told {
        text: text?,
        troubled: false,
    })
}

/// The bytes of the script, where they were read; else none.
fn script_of(texts: &Texts) -> &[u8] {
    match &texts.script {
        Some(bytes) => bytes.as_slice(),
        None => &[],
    }
}

/// Tells what became of the run that a history tells. The store's files stay.
fn answer_audit<S: Store>(
    alloc: Global,
    store: &mut S,
    files: Files<'_>,
    texts: &mut Texts,
    read: &mut Option<Past>,
) -> Result<Told, Status>
    ensures files { S.holds store.new ≡ S.holds store.old }
    ensures count { (S.faults store.old).count ≤ (S.faults store.new).count }
    ensures ok { IfOk result (λ told. IsAnswered (S.holds store.old)
        (Audit (files_named files.entry)) told.text.items told.troubled) }
    ensures err { IfErr result (IsRefused (S.holds store.old) (Audit (files_named files.entry))
        (S.faults store.old) (S.faults store.new)) }
    ensures texts { AreTextsOf (S.holds store.old) (Audit (files_named files.entry)) texts.old
        → AreTextsOf (S.holds store.old) (Audit (files_named files.entry)) texts.new }
{
    let past = load_past(alloc, store, files, texts)?;
    let told = tell_audit(alloc, &past);
    *read = Some(past);
    told
}

/// Tells at which lines the tasks of the run that a history tells stood. The store's files stay.
fn answer_lines<S: Store>(
    alloc: Global,
    store: &mut S,
    files: Files<'_>,
    texts: &mut Texts,
    read: &mut Option<Past>,
) -> Result<Told, Status>
    ensures files { S.holds store.new ≡ S.holds store.old }
    ensures count { (S.faults store.old).count ≤ (S.faults store.new).count }
    ensures ok { IfOk result (λ told. IsAnswered (S.holds store.old)
        (Lines (files_named files.entry)) told.text.items told.troubled) }
    ensures err { IfErr result (IsRefused (S.holds store.old) (Lines (files_named files.entry))
        (S.faults store.old) (S.faults store.new)) }
    ensures texts { AreTextsOf (S.holds store.old) (Lines (files_named files.entry)) texts.old
        → AreTextsOf (S.holds store.old) (Lines (files_named files.entry)) texts.new }
{
    let past = load_past(alloc, store, files, texts)?;
    let told = tell_lines(alloc, &past, script_of(texts));
    *read = Some(past);
    told
}

/// What is told of a question. The store's files stay.
fn tell<S: Store>(
    alloc: Global,
    store: &mut S,
    question: Question<'_>,
    texts: &mut Texts,
    read: &mut Option<Past>,
) -> Result<Told, Status>
    ensures files { S.holds store.new ≡ S.holds store.old }
    ensures count { (S.faults store.old).count ≤ (S.faults store.new).count }
    ensures ok { IfOk result (λ told. IsAnswered (S.holds store.old) (named question.entry)
        told.text.items told.troubled) }
    ensures err { IfErr result (IsRefused (S.holds store.old) (named question.entry)
        (S.faults store.old) (S.faults store.new)) }
    ensures texts { AreTextsOf (S.holds store.old) (named question.entry) texts.old
        → AreTextsOf (S.holds store.old) (named question.entry) texts.new }
{
    match question {
        Question::Help => told_with(print_help(alloc)),
        Question::Version => told_with(print_version(alloc)),
        Question::Explain(policy) => tell_explain(alloc, store, policy, texts),
        Question::Table(policy) => tell_table(alloc, store, policy, texts),
        Question::Check(policy, script) => tell_check(alloc, store, policy, script, texts),
        Question::Audit(files) => answer_audit(alloc, store, files, texts, read),
        Question::Lines(files) => answer_lines(alloc, store, files, texts, read),
    }
}

/// Says what is told of a question.
fn say_told<W: Say>(alloc: Global, say: &mut W, told: Told) -> Answer
    ensures count { W.faults say.old ≤ W.faults say.new }
    ensures says { IsSaid (W.said say.old) (W.said say.new) (W.faults say.old) (W.faults say.new)
        told.text.items told.troubled result }
{
    let Told { text, troubled } = told;
    match say.say(alloc, text.as_slice()) {
        Ok(()) => Answer::by(troubled),
        Err(SayFault::Failed) => Answer::Plain(Status::SayFault),
        Err(SayFault::NoMemory) => Answer::Plain(Status::NoMemory),
    }
}

/// Answers the question that the words ask, and says the answer. No file is written, whatever the
/// answer: the store's files stay.
pub fn ask<S: Store, W: Say>(alloc: Global, words: &[String], store: &mut S, say: &mut W) -> Asked
    ensures files { S.holds store.new ≡ S.holds store.old }
    ensures count { (S.faults store.old).count ≤ (S.faults store.new).count }
    ensures say_count { W.faults say.old ≤ W.faults say.new }
    ensures says { Says (record {
      words = bytes_of_words words.now;
      before = outside S.holds S.faults W.said W.faults store.old say.old;
      after = outside S.holds S.faults W.said W.faults store.new say.new;
    }) result.answer }
    ensures bad_words { question_of (bytes_of_words words.now) ≡ None
        → result.answer ≡ Answer.Plain Status.BadWords }
    ensures texts { (question : Asks) → question_of (bytes_of_words words.now) ≡ Some question
        → AreTextsOf (S.holds store.old) question result.texts }
{
    let mut texts = Texts::none();
    let mut past = None;
    let Some(question) = read_question(words) else {
        return Asked {
            answer: Answer::Plain(Status::BadWords),
            texts,
            past,
        };
    };
    match tell(alloc, store, question, &mut texts, &mut past) {
        Ok(told) => Asked {
            answer: say_told(alloc, say, told),
            texts,
            past,
        },
        Err(status) => Asked {
            answer: Answer::Plain(status),
            texts,
            past,
        },
    }
}
