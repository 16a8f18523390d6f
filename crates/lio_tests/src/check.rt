//! Answers that are compared with those that are wanted.

use lio_outside::{FetchFault, KeepFault, Readers, Say, SayFault, Store};
use std::alloc::Global;
use std::fmt::Debug;
use std::process::Abort;

/// Compares two values.
pub(crate) fn check_same<T: PartialEq + Debug>(rt: &impl Abort, got: &T, want: &T) {
    assert_eq!(rt; *got, *want);
}

/// Fetches from any store and compares the answer.
pub(crate) fn check_fetch<S: Store>(
    rt: &impl Abort,
    store: &mut S,
    alloc: Global,
    (name, limit): (&[u8], u32),
    want: Result<&[u8], FetchFault>,
) {
    match store.fetch(alloc, name, limit) {
        Ok(bytes) => check_same(rt, &Ok(bytes.as_slice()), &want),
        Err(fault) => check_same(rt, &Err(fault), &want),
    }
}

/// Keeps in any store and compares the answer.
pub(crate) fn check_keep<S: Store>(
    rt: &impl Abort,
    store: &mut S,
    alloc: Global,
    (name, bytes): (&[u8], &[u8]),
    want: Result<(), KeepFault>,
) {
    check_same(
        rt,
        &store.keep(alloc, name, bytes, Readers::Everyone),
        &want,
    );
}

/// Says to any output and compares the answer.
pub(crate) fn check_say<S: Say>(
    rt: &impl Abort,
    output: &mut S,
    alloc: Global,
    bytes: &[u8],
    want: Result<(), SayFault>,
) {
    check_same(rt, &output.say(alloc, bytes), &want);
}
