//! A generated workload as the files of a store.
#![tactic(auto, unfolding(crate::specs::Workload::made_files))]

ghost use Rattle.std.specs.Prelude.{◌≡◌, ◌≤◌, IfOk, OnOk};
ghost use Rattle.lio_outside.specs.FileMap.{with_file};
ghost use Rattle.lio_host_main.specs.Workload.{input_name, made_files, with_inputs};

use crate::workload::{Made, make};
use lio_clauses::NoMemory;
use lio_outside::{Readers, Store, SureStore};
use lio_values::{Text, print_number};
use std::alloc::Global;

/// The name of the policy of a workload.
pub(crate) const POLICY: &[u8] = b"policy";

/// The name of the script of a workload.
pub(crate) const SCRIPT: &[u8] = b"script";

/// Puts a file into a store.
fn put(alloc: Global, store: &mut SureStore, name: &[u8], bytes: &[u8]) -> Result<(), NoMemory>
    ensures { OnOk result (store.new ≡ with_file store.old name.now bytes.now) }
{
    store
        .keep(alloc, name, bytes, Readers::Owner)
        .or(Err(NoMemory))
}

/// Puts the input with a number into a store.
fn put_input(
    alloc: Global,
    store: &mut SureStore,
    number: usize,
    text: &Text,
) -> Result<(), NoMemory>
    ensures { OnOk result (store.new ≡ with_file store.old (input_name number) text.now) }
{
    let mut name = Vec::from_slice(alloc, b"in")?;
    print_number(&mut name, number as u64)?;
    name.extend_from_slice(b".txt")?;
    put(alloc, store, name.as_slice(), text.bytes())
}

/// Puts inputs into a store, numbered from 0.
fn put_inputs(alloc: Global, store: &mut SureStore, inputs: &[Text]) -> Result<(), NoMemory>
    ensures { OnOk result (store.new ≡ with_inputs 0 inputs.now store.old) }
{
    for (number, text) in inputs.iter().enumerate() {
        put_input(alloc, store, number, text)?;
    }
    Ok(())
}

/// The files of the workload of a size.
pub(crate) fn workload(alloc: Global, size: u32) -> Result<SureStore, NoMemory>
    requires some { 1 ≤ size }
    requires most { size ≤ 256 }
    ensures { IfOk result (λ store. store ≡ made_files size) }
{
    let Made {
        policy,
        script,
        inputs,
    } = make(alloc, size)?;
    let mut store = SureStore::new(alloc);
    put(alloc, &mut store, POLICY, policy.bytes())?;
    put(alloc, &mut store, SCRIPT, script.bytes())?;
    put_inputs(alloc, &mut store, inputs.as_slice())?;
    Ok(store)
}
