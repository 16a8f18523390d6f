//! Keys that are missing or unknown, and values of a wrong kind.

use crate::found::{Found, told_by, told_one, told_three, told_two};
use lio_clauses::NoMemory;
use lio_messages_hints::{Message, Piece};
use serde_json::Value;
use std::alloc::Global;

/// The kind of value that a key has.
#[derive(Clone, Copy, PartialEq, Eq)]
enum Kind {
    Text,
    Whole,
    /// A whole number from 0 to 4,294,967,295.
    Count,
    List,
    Flag,
    Null,
}

/// A key, and the kind of its value.
#[derive(Clone, Copy)]
struct Key(&'static str, Kind);

/// The keys of the document.
const DOCUMENT: [Key; 6] = [
    Key("version", Kind::Whole),
    Key("longest", Kind::Whole),
    Key("principals", Kind::List),
    Key("channels", Kind::List),
    Key("inputs", Kind::List),
    Key("tasks", Kind::List),
];

/// The keys of a channel or an input.
const FILE: [Key; 3] = [
    Key("name", Kind::Text),
    Key("label", Kind::Text),
    Key("file", Kind::Text),
];

/// The keys of a task.
const TASK: [Key; 7] = [
    Key("name", Kind::Text),
    Key("proc", Kind::Text),
    Key("label", Kind::Text),
    Key("clearance", Kind::Text),
    Key("turns", Kind::Count),
    Key("cells", Kind::Count),
    Key("args", Kind::List),
];

/// The keys of an argument, of which it has one.
const ARGUMENT: [Key; 8] = [
    Key("input", Kind::Text),
    Key("channel", Kind::Text),
    Key("label", Kind::Text),
    Key("power", Kind::Text),
    Key("text", Kind::Text),
    Key("whole", Kind::Whole),
    Key("flag", Kind::Flag),
    Key("unit", Kind::Null),
];

/// What a value is, in words.
fn what_is(value: &Value) -> &'static str {
    match value {
        Value::Null => "null",
        Value::Bool(_) => "a truth value",
        Value::Number(_) => "a number",
        Value::String(_) => "a text",
        Value::Array(_) => "a list",
        Value::Object(_) => "an object",
    }
}

/// What a kind is, in words.
fn wanted(kind: Kind) -> &'static str {
    match kind {
        Kind::Text => "a text in quotes",
        Kind::Whole => "a whole number",
        Kind::Count => "a whole number from 0 to 4294967295",
        Kind::List => "a list",
        Kind::Flag => "true or false",
        Kind::Null => "null",
    }
}

/// Whether a value is of a kind.
fn is_of(value: &Value, kind: Kind) -> bool {
    match kind {
        Kind::Text => value.as_str().is_some(),
        Kind::Whole => value.as_u64().is_some() || value.is_i64(),
        Kind::Count => match value.as_u64() {
            Some(count) => count <= u32::MAX as u64,
            None => false,
        },
        Kind::List => value.as_array().is_some(),
        Kind::Flag => value.as_bool().is_some(),
        Kind::Null => value.as_null().is_some(),
    }
}

/// The key with a name, if there is one.
fn key_named(keys: &[Key], name: &str) -> Option<Key> {
    for key in keys {
        if key.0 == name {
            return Some(*key);
        }
    }
    None
}

/// The first of the keys that a value lacks, if there is one.
fn lacked(value: &Value, keys: &[Key]) -> Option<Key> {
    for key in keys {
        if value.get(key.0).is_none() {
            return Some(*key);
        }
    }
    None
}

/// What is wrong with the keys of a value.
fn keys_mistake(alloc: Global, value: &Value, keys: &[Key]) -> Found {
    let Some(members) = value.as_object() else {
        let is = Piece::Words(what_is(value));
        return told_one(alloc, "{} stands here; an object is wanted", is);
    };
    for (name, _) in members {
        if key_named(keys, name.as_str()).is_none() {
            return unknown(alloc, name.as_str(), lacked(value, keys));
        }
    }
    for key in keys {
        let name = Piece::Words(key.0);
        let Some(found) = value.get(key.0) else {
            return told_one(alloc, "\"{}\" is missing", name);
        };
        if !is_of(found, key.1) {
            let is = Piece::Words(what_is(found));
            let wanted = Piece::Words(wanted(key.1));
            return told_three(alloc, "\"{}\" is {}; {} is wanted", name, is, wanted);
        }
    }
    Ok(None)
}

/// A key that isn't one, and one that is missing.
fn unknown(alloc: Global, name: &str, lacked: Option<Key>) -> Found {
    let (template, missing) = match lacked {
        Some(key) => ("\"{}\" is no key here; \"{}\" is missing", key.0),
        None => ("\"{}\" is no key here", ""),
    };
    let shown = Piece::Shown(name.as_bytes());
    told_two(alloc, template, shown, Piece::Words(missing))
}

/// The key of an argument that is a list, in policies of version 2.
const ITEMS: Key = Key("items", Kind::List);

/// The key of an argument with a name, if there is one; `lists` is whether an argument may be a
/// list.
fn argument_key(lists: bool, name: &str) -> Option<Key> {
    if lists && name == ITEMS.0 {
        return Some(ITEMS);
    }
    key_named(&ARGUMENT, name)
}

/// Whether an argument of a document may be a list.
fn has_lists(document: &Value) -> bool {
    document.get("version").and_then(Value::as_u64) == Some(2)
}

/// What is wrong with the key and the value of an argument.
fn member_mistake(
    alloc: Global,
    lists: bool,
    name: &str,
    found: &Value,
    number: Piece<'_>,
) -> Found {
    let shown = Piece::Shown(name.as_bytes());
    let Some(key) = argument_key(lists, name) else {
        if name == ITEMS.0 {
            let template = "argument {}: \"{}\" is a key of policies whose \"version\" is 2";
            return told_two(alloc, template, number, shown);
        }
        let last = if lists {
            ", unit and items"
        } else {
            " and unit"
        };
        let template =
            "argument {}: \"{}\" is no key here; there are input, channel, label, power, text, whole, flag{}";
        return told_three(alloc, template, number, shown, Piece::Words(last));
    };
    if is_of(found, key.1) {
        return Ok(None);
    }
    let mut message = Message::new(alloc);
    message.fill(
        "argument {}: \"{}\" is {}",
        number,
        shown,
        Piece::Words(what_is(found)),
    );
    message.words("; ");
    message.words(wanted(key.1));
    message.words(" is wanted");
    told_by(message)
}

/// What is wrong with an argument, which has a place in its list; `lists` is whether it may be a
/// list. What stands in a list isn't looked at.
fn argument_mistake(alloc: Global, lists: bool, value: &Value, place: usize) -> Found {
    let number = Piece::Number(place.saturating_add(1) as u64);
    let Some(members) = value.as_object() else {
        let template =
            "argument {} is {}; an object with one key is wanted, as {\"channel\":\"out\"}";
        return told_two(alloc, template, number, Piece::Words(what_is(value)));
    };
    if members.len() != 1 {
        let count = Piece::Number(members.len() as u64);
        return told_two(
            alloc,
            "argument {} has {} keys; one is wanted",
            number,
            count,
        );
    }
    for (name, found) in members {
        if let Some(mistake) = member_mistake(alloc, lists, name.as_str(), found, number)? {
            return Ok(Some(mistake));
        }
    }
    Ok(None)
}

/// What is wrong with a task's arguments, which stand in no list.
fn arguments_mistake(alloc: Global, lists: bool, task: &Value) -> Found {
    let Some(arguments) = task.get("args").and_then(Value::as_array) else {
        return Ok(None);
    };
    for (place, argument) in arguments.iter().enumerate() {
        if let Some(mistake) = argument_mistake(alloc, lists, argument, place)? {
            return Ok(Some(mistake));
        }
    }
    Ok(None)
}

/// What is wrong with a task.
fn task_mistake(alloc: Global, lists: bool, task: &Value) -> Found {
    match keys_mistake(alloc, task, &TASK)? {
        Some(mistake) => Ok(Some(mistake)),
        None => arguments_mistake(alloc, lists, task),
    }
}

/// What is wrong with a principal.
fn principal_mistake(alloc: Global, value: &Value) -> Found {
    if is_of(value, Kind::Text) {
        return Ok(None);
    }
    let is = Piece::Words(what_is(value));
    told_one(alloc, "it is {}; a text in quotes is wanted", is)
}

/// The items of a list of a document.
fn items<'v>(document: &'v Value, key: &str) -> &'v [Value] {
    match document.get(key).and_then(Value::as_array) {
        Some(items) => items.as_slice(),
        None => &[],
    }
}

/// What is wrong with an entry of a document, by its number from the first principal.
fn item_mistake(alloc: Global, document: &Value, place: usize) -> Found {
    let principals = items(document, "principals");
    if let Some(item) = principals.get(place) {
        return principal_mistake(alloc, item);
    }
    let place = place.saturating_sub(principals.len());
    let channels = items(document, "channels");
    if let Some(item) = channels.get(place) {
        return keys_mistake(alloc, item, &FILE);
    }
    let place = place.saturating_sub(channels.len());
    let inputs = items(document, "inputs");
    if let Some(item) = inputs.get(place) {
        return keys_mistake(alloc, item, &FILE);
    }
    let place = place.saturating_sub(inputs.len());
    match items(document, "tasks").get(place) {
        Some(item) => task_mistake(alloc, has_lists(document), item),
        None => Ok(None),
    }
}

/// What is wrong with the shape of an entry.
pub(crate) fn shape_mistake(alloc: Global, bytes: &[u8], entry: u32) -> Found {
    match Value::from_slice(alloc, bytes) {
        Ok(document) => {
            let found = match (entry as usize).checked_sub(1) {
                None => keys_mistake(alloc, &document, &DOCUMENT),
                Some(place) => item_mistake(alloc, &document, place),
            };
            drop(document);
            found
        }
        Err(refused) => {
            if refused.is_memory() {
                Err(NoMemory)
            } else {
                Ok(None)
            }
        }
    }
}
