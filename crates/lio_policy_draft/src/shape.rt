//! From JSON values to drafts.
#![tactic(auto)]

ghost use Rattle.std.specs.Prelude.{◌≡◌, IfOk};
ghost use Rattle.serde_json.specs.View.{view, items_view};
ghost use Rattle.serde_json.specs.Find.{as_str};
ghost use Rattle.lio_policy_draft.specs.Shape as spec;

use crate::conversion::Conversion;
use crate::draft::{ArgDraft, FileDraft, TaskDraft};
use crate::json::{count_at, has_keys, items_at, text_at, text_of};
use lio_clauses::NoMemory;
use lio_values::{List, Text};
use serde_json::Value;
use std::alloc::Global;

/// Reads the parts of a document of a version by their shape.
#[derive(Drop)]
pub(crate) struct Shape {
    pub(crate) version: Option<u64>,
}

impl Conversion<Value, Text> for Shape {
    ghost gives = { λ _ value. as_str (view value) };

    fn convert(&self, alloc: Global, value: &Value) -> Result<Option<Text>, NoMemory> {
        text_of(alloc, value)
    }
}

impl Conversion<Value, FileDraft> for Shape {
    ghost gives = { λ _ value. spec.file_of (view value) };

    fn convert(&self, alloc: Global, value: &Value) -> Result<Option<FileDraft>, NoMemory> {
        file_draft(alloc, value)
    }
}

impl Conversion<Value, TaskDraft> for Shape {
    ghost gives = { λ shape value. spec.task_of shape.version (view value) };

    fn convert(&self, alloc: Global, value: &Value) -> Result<Option<TaskDraft>, NoMemory> {
        task_draft(alloc, self.version, value)
    }
}

/// The channel or input that a value is.
#[tactic(auto, using(crate::proofs::ShapeLemmas::no_file), unfolding(crate::specs::Shape::file_of))]
fn file_draft(alloc: Global, value: &Value) -> Result<Option<FileDraft>, NoMemory>
    ensures { IfOk result (λ draft. draft ≡ spec.file_of (view value.now)) }
{
    if !has_keys(value, &["file", "label", "name"]) {
        return Ok(None);
    }
    let Some((name, label)) = texts_at(alloc, value, "name", "label")? else {
        return Ok(None);
    };
    let Some(file) = text_at(alloc, value, "file")? else {
        return Ok(None);
    };
    Ok(Some(FileDraft { name, label, file }))
}

/// Whether an argument of this version may be a list of arguments.
fn has_lists(version: Option<u64>) -> bool
    ensures { result ≡ spec.has_lists version }
{
    match version {
        Some(number) => number == 2,
        None => false,
    }
}

/// The argument that a value is in this version.
#[cycle(args)]
fn arg_draft(
    alloc: Global,
    version: Option<u64>,
    value: &Value,
) -> Result<Option<ArgDraft>, NoMemory>
    ensures { IfOk result (λ draft. draft ≡ spec.arg_of version (view value.now)) }
{
    if has_lists(version) && has_keys(value, &["items"]) {
        return Ok(args_at(alloc, version, value, "items")?.map(ArgDraft::Items));
    }
    single_arg(alloc, value)
}

/// The argument that a value is, where it is no list.
#[tactic(auto, unfolding(crate::specs::Shape::single_arg_of))]
fn single_arg(alloc: Global, value: &Value) -> Result<Option<ArgDraft>, NoMemory>
    ensures { IfOk result (λ draft. draft ≡ spec.single_arg_of (view value.now)) }
{
    if has_keys(value, &["input"]) {
        return Ok(text_at(alloc, value, "input")?.map(ArgDraft::Input));
    }
    if has_keys(value, &["channel"]) {
        return Ok(text_at(alloc, value, "channel")?.map(ArgDraft::Channel));
    }
    if has_keys(value, &["label"]) {
        return Ok(text_at(alloc, value, "label")?.map(ArgDraft::Label));
    }
    if has_keys(value, &["power"]) {
        return Ok(text_at(alloc, value, "power")?.map(ArgDraft::Power));
    }
    if has_keys(value, &["text"]) {
        return Ok(text_at(alloc, value, "text")?.map(ArgDraft::Bytes));
    }
    Ok(plain_arg(value))
}

/// The argument that a value is, where it is a number, a truth value or nothing.
#[tactic(auto, unfolding(crate::specs::Shape::plain_arg_of))]
fn plain_arg(value: &Value) -> Option<ArgDraft>
    ensures { result ≡ spec.plain_arg_of (view value.now) }
{
    if has_keys(value, &["whole"]) {
        return Some(ArgDraft::Whole(value.get("whole")?.as_i64()?));
    }
    if has_keys(value, &["flag"]) {
        return Some(ArgDraft::Flag(value.get("flag")?.as_bool()?));
    }
    if has_keys(value, &["unit"]) {
        value.get("unit")?.as_null()?;
        return Some(ArgDraft::Unit);
    }
    None
}

/// The arguments at a key.
#[cycle(args)]
fn args_at(
    alloc: Global,
    version: Option<u64>,
    value: &Value,
    key: &str,
) -> Result<Option<List<ArgDraft>>, NoMemory>
    ensures { IfOk result (λ args. args ≡ spec.args_at version key.now (view value.now)) }
{
    match items_at(value, key) {
        Some(items) => each_arg(alloc, version, items),
        None => Ok(None),
    }
}

/// The arguments that some values are.
#[cycle(args)]
fn each_arg(
    alloc: Global,
    version: Option<u64>,
    items: &[Value],
) -> Result<Option<List<ArgDraft>>, NoMemory>
    ensures { IfOk result (λ args. args ≡ spec.each_arg version (items_view items.now)) }
{
    let mut args = List::new(alloc);
    for item in items {
        let Some(arg) = arg_draft(alloc, version, item)? else {
            return Ok(None);
        };
        args.push(arg)?;
    }
    Ok(Some(args))
}

/// The texts at two keys.
fn texts_at(
    alloc: Global,
    value: &Value,
    first: &str,
    second: &str,
) -> Result<Option<(Text, Text)>, NoMemory>
    ensures { IfOk result (λ texts. texts ≡ spec.texts_at first.now second.now (view value.now)) }
{
    let Some(first) = text_at(alloc, value, first)? else {
        return Ok(None);
    };
    let Some(second) = text_at(alloc, value, second)? else {
        return Ok(None);
    };
    Ok(Some((first, second)))
}

/// The texts of a task.
#[derive(Drop)]
struct TaskTexts {
    name: Text,
    proc_name: Text,
    label: Text,
    clearance: Text,
}

/// The texts of the task that a value is.
fn task_texts(alloc: Global, value: &Value) -> Result<Option<TaskTexts>, NoMemory>
    ensures { IfOk result (λ texts. texts ≡ spec.task_texts (view value.now)) }
{
    let Some((name, proc_name)) = texts_at(alloc, value, "name", "proc")? else {
        return Ok(None);
    };
    let Some((label, clearance)) = texts_at(alloc, value, "label", "clearance")? else {
        return Ok(None);
    };
    Ok(Some(TaskTexts {
        name,
        proc_name,
        label,
        clearance,
    }))
}

/// The task that a value is.
#[tactic(auto, unfolding(crate::specs::Shape::task_of))]
fn task_draft(
    alloc: Global,
    version: Option<u64>,
    value: &Value,
) -> Result<Option<TaskDraft>, NoMemory>
    ensures { IfOk result (λ draft. draft ≡ spec.task_of version (view value.now)) }
{
    if !has_keys(
        value,
        &[
            "args",
            "cells",
            "clearance",
            "label",
            "name",
            "proc",
            "turns",
        ],
    ) {
        return Ok(None);
    }
    let Some(texts) = task_texts(alloc, value)? else {
        return Ok(None);
    };
    let (Some(turns), Some(cells)) = (count_at(value, "turns"), count_at(value, "cells")) else {
        return Ok(None);
    };
    let Some(args) = args_at(alloc, version, value, "args")? else {
        return Ok(None);
    };
    Ok(Some(TaskDraft {
        name: texts.name,
        proc_name: texts.proc_name,
        label: texts.label,
        clearance: texts.clearance,
        turns,
        cells,
        args,
    }))
}
