//! Commands on runs.
ghost use Rattle.std.specs.Prelude.{◌≡◌, All, IfOk, None, length};
ghost use Rattle.lio_values.specs.Named.{IsContentNamed};
ghost use Rattle.lio_calculus_runs.specs.NameLaws.{IsContentPrintable};
ghost use Rattle.lio_events.specs.Printable.{IsPrintable};
ghost use Rattle.lio_start.specs.Fits.{fits};
ghost use Rattle.lio_syntax.specs.Verdict.{IsOver};

use crate::refusal::{Answered, Refusal};
use lio_clauses::{Names, NoMemory};
use lio_events::{Contents, Journal, print_content, print_journal, releases, view};
use lio_labels::Label;
use lio_policy::{Policy, read_policy};
use lio_rounds::run;
use lio_rows_commands::Answer;
use lio_start::{Job, fits};
use lio_syntax::{Script, read_script};
use lio_values::{Act, Content, Entry, List, Text};
use std::alloc::{AllocError, Global};

/// What is run under a policy: a script, and the inputs.
#[derive(Clone, Copy)]
pub struct Source<'a> {
    pub script: &'a [u8],
    pub inputs: &'a [Vec<u8>],
}

/// What a command on runs answers, if the word and the number of fields are those of one.
pub fn answer(alloc: Global, names: &Names, word: &str, fields: &[Vec<u8>]) -> Answered {
    match (word, fields) {
        ("eval", [expression]) => Some(eval(alloc, names, expression)),
        ("run", [json, script, inputs @ ..]) => {
            Some(history(alloc, json, Source { script, inputs }))
        }
        ("view", [label, json, script, inputs @ ..]) => {
            Some(seen(alloc, label, json, Source { script, inputs }))
        }
        ("releases", [label, json, script, inputs @ ..]) => {
            Some(told(alloc, label, json, Source { script, inputs }))
        }
        _ => None,
    }
}

/// Gives the texts of inputs.
fn texts_of(alloc: Global, inputs: &[Vec<u8>]) -> Result<List<Text>, NoMemory> {
    let mut texts = List::new(alloc);
    for input in inputs {
        texts.push(Text::of(alloc, input)?)?;
    }
    Ok(texts)
}

/// Gives the texts of a policy's inputs.
fn inputs_of(alloc: Global, policy: &Policy, inputs: &[Vec<u8>]) -> Result<List<Text>, Refusal>
    ensures { IfOk result (λ texts. length texts ≡ length policy.now.inputs) }
{
    let texts = texts_of(alloc, inputs)?;
    if texts.as_slice().len() == policy.inputs.as_slice().len() {
        Ok(texts)
    } else {
        Err(Refusal::Inputs)
    }
}

/// Reads a script that fits a policy.
fn script_of(alloc: Global, policy: &Policy, script: &[u8]) -> Result<Script, Refusal>
    ensures fits { IfOk result (λ script. fits policy.now.tasks script ≡ None) }
    ensures over { IfOk result (IsOver policy.now.names) }
{
    let script = read_script(alloc, script, &policy.names)?;
    match fits(policy, &script) {
        None => Ok(script),
        Some(fault) => Err(Refusal::from(fault)),
    }
}

/// Reads what is run under a policy.
fn job_of(alloc: Global, policy: Policy, source: Source<'_>) -> Result<Job, Refusal> {
    let script = script_of(alloc, &policy, source.script)?;
    let inputs = inputs_of(alloc, &policy, source.inputs)?;
    Ok(Job::of(policy, script, inputs))
}

/// Reads a policy, and what is run under it.
pub fn read_job(alloc: Global, json: &[u8], source: Source<'_>) -> Result<Job, Refusal> {
    let policy = read_policy(alloc, json)?;
    job_of(alloc, policy, source)
}

/// Gives the journal of the run by rounds of a job.
fn journal_of(alloc: Global, job: &Job) -> Result<Journal, Refusal>
    ensures { IfOk result (λ journal. All (IsPrintable job.now.policy.names) journal) }
{
    let ran = run(alloc, job)?;
    Ok(ran.journal)
}

/// Gives the history of a run.
fn history_of(alloc: Global, job: &Job) -> Result<Answer, Refusal> {
    let journal = journal_of(alloc, job)?;
    let policy = job.policy();
    let text = print_journal(alloc, &journal, true, &policy.names)?;
    Ok(Answer::Text(text))
}

/// `run JSON SCRIPT INPUT ..`: the history of the run.
fn history(alloc: Global, json: &[u8], source: Source<'_>) -> Result<Answer, Refusal> {
    let job = read_job(alloc, json, source)?;
    history_of(alloc, &job)
}

/// What is run, and the label of an observer over the principals of its policy.
#[derive(Drop)]
pub struct Viewer {
    pub job: Job,
    pub observer: Label,
}

/// Reads a policy, the label of an observer over its principals, and what is run under the policy.
pub fn read_viewer(
    alloc: Global,
    label: &[u8],
    json: &[u8],
    source: Source<'_>,
) -> Result<Viewer, Refusal> {
    let policy = read_policy(alloc, json)?;
    let observer = Label::read(alloc, label, &policy.names)?;
    let job = job_of(alloc, policy, source)?;
    Ok(Viewer { job, observer })
}

/// Gives the view of a journal, as text.
fn view_of(
    alloc: Global,
    journal: &Journal,
    observer: &Label,
    names: &Names,
) -> Result<Vec<u8>, NoMemory>
    requires { All (IsPrintable names.now) journal.now }
{
    let seen = view(alloc, journal, observer)?;
    print_journal(alloc, &seen, false, names)
}

/// Gives the view of a run at an observer's label.
fn seen_of(alloc: Global, job: &Job, observer: &Label) -> Result<Answer, Refusal> {
    let journal = journal_of(alloc, job)?;
    let policy = job.policy();
    let text = view_of(alloc, &journal, observer, &policy.names)?;
    Ok(Answer::Text(text))
}

/// `view LABEL JSON SCRIPT INPUT ..`: the view of the run at the label.
fn seen(alloc: Global, label: &[u8], json: &[u8], source: Source<'_>) -> Result<Answer, Refusal> {
    let it = read_viewer(alloc, label, json, source)?;
    seen_of(alloc, &it.job, &it.observer)
}

/// The lines of contents.
fn lines_of(alloc: Global, contents: &[Content], names: &Names) -> Result<Vec<u8>, NoMemory>
    requires { All (IsContentNamed names.now) contents.now }
{
    let mut text = Vec::new(alloc);
    for content in contents {
        text.extend_from_slice(print_content(alloc, content, names)?.as_slice())?;
        text.push(b'\n')?;
    }
    Ok(text)
}

/// Gives the contents that the run by rounds releases to an observer.
pub fn released(alloc: Global, job: &Job, observer: &Label) -> Result<Contents, Refusal>
    ensures { IfOk result (All (IsContentPrintable job.now.policy.names)) }
{
    let journal = journal_of(alloc, job)?;
    let contents = releases(alloc, &journal, observer)?;
    Ok(contents)
}

/// Gives the contents that a run releases to an observer, as text.
fn told_of(alloc: Global, job: &Job, observer: &Label) -> Result<Answer, Refusal> {
    let contents = released(alloc, job, observer)?;
    let policy = job.policy();
    let text = lines_of(alloc, contents.as_slice(), &policy.names)?;
    Ok(Answer::Text(text))
}

/// `releases LABEL JSON SCRIPT INPUT ..`: the contents that the run releases to the label.
fn told(alloc: Global, label: &[u8], json: &[u8], source: Source<'_>) -> Result<Answer, Refusal> {
    let it = read_viewer(alloc, label, json, source)?;
    told_of(alloc, &it.job, &it.observer)
}

/// The names of principals as a policy lists them.
fn listed(alloc: Global, names: &Names) -> Result<Vec<u8>, AllocError> {
    let mut json = Vec::new(alloc);
    for number in 0..names.len() {
        if number > 0 {
            json.push(b',')?;
        }
        json.push(b'"')?;
        json.extend_from_slice(names.name(number))?;
        json.push(b'"')?;
    }
    Ok(json)
}

/// The policy of one public task that has 20 turns and runs `main` without arguments, over
/// principals.
fn task_policy(alloc: Global, names: &Names) -> Result<Policy, Refusal> {
    let mut json = Vec::from_slice(alloc, br#"{"version":1,"longest":4096,"principals":["#)?;
    json.extend_from_slice(listed(alloc, names)?.as_slice())?;
    json.extend_from_slice(
        br#"],"channels":[],"inputs":[],"tasks":[{"name":"main","proc":"main","label":"True %% True","clearance":"True %% True","turns":20,"cells":0,"args":[]}]}"#,
    )?;
    Ok(read_policy(alloc, json.as_slice())?)
}

/// The script of a task that binds a name to an expression and returns what is bound.
fn task_script(alloc: Global, expression: &[u8]) -> Result<Vec<u8>, AllocError> {
    let mut script = Vec::from_slice(alloc, b"proc main\nlet x = ")?;
    script.extend_from_slice(expression)?;
    script.extend_from_slice(b"\nreturn x\nend\n")?;
    Ok(script)
}

/// The content with which a turn ends a task.
fn ended(alloc: Global, entry: &Entry, names: &Names) -> Result<Answer, Refusal>
    requires { IsPrintable names.now entry.now }
{
    match &entry.act {
        Act::Ended(content) => Ok(Answer::Text(print_content(alloc, content.get(), names)?)),
        _ => Err(Refusal::from(lio_rows_commands::Refusal::NoCommand)),
    }
}

/// The content with which the last turn of a journal ends a task.
fn last_ended(alloc: Global, journal: &Journal, names: &Names) -> Result<Answer, Refusal>
    requires { All (IsPrintable names.now) journal.now }
{
    match journal.entries().last() {
        Some(entry) => ended(alloc, entry, names),
        None => Err(Refusal::from(lio_rows_commands::Refusal::NoCommand)),
    }
}

/// Gives the content with which the last turn of a job's run ends a task.
fn ended_by(alloc: Global, job: &Job) -> Result<Answer, Refusal> {
    let journal = journal_of(alloc, job)?;
    let policy = job.policy();
    last_ended(alloc, &journal, &policy.names)
}

/// `eval EXPRESSION`: the content with which a public task ends that binds a name to the expression
/// and returns what is bound.
fn eval(alloc: Global, names: &Names, expression: &[u8]) -> Result<Answer, Refusal> {
    if expression.contains(&b'\n') {
        return Err(Refusal::BadScript(2, 1));
    }
    let script = task_script(alloc, expression)?;
    let policy = task_policy(alloc, names)?;
    let source = Source {
        script: script.as_slice(),
        inputs: &[],
    };
    let job = job_of(alloc, policy, source)?;
    ended_by(alloc, &job)
}
