//! Files as bytes.

ghost use Rattle.std.specs.Prelude.{◌≡◌, ℕ, List, Ok, IfOk, IfErr, OnOk};
ghost use Rattle.lio_outside.specs.FileMap.{no_files, with_file};
ghost use Rattle.lio_c.specs.Bundle.{AreFiles, FilesRefuse, IsRefusal, filed};

use crate::netstrings::{ItemsFault, read_items};
use crate::refusal::Refusal;
use lio_clauses::NoMemory;
use lio_outside::{Readers, Store, SureStore};
use lio_values::Text;
use std::alloc::Global;

/// Puts a file into a store.
fn put(alloc: Global, store: &mut SureStore, name: &[u8], bytes: &[u8]) -> Result<(), NoMemory>
    ensures { OnOk result (store.new ≡ with_file store.old name.now bytes.now) }
{
    store
        .keep(alloc, name, bytes, Readers::Owner)
        .or(Err(NoMemory))
}

/// The files of these texts, which are names and bytes in turn.
fn texts_as_files(alloc: Global, items: &[Text]) -> Result<SureStore, Refusal>
    ensures ok { IfOk result (λ store. filed 0 no_files items.now ≡ Ok store) }
    ensures err { IfErr result (FilesRefuse items.now) }
{
    let mut store = SureStore::new(alloc);
    let mut number = 0;
    while number < items.len() {
        let Some(bytes) = items.get(number + 1) else {
            return Err(Refusal::FileAlone(number));
        };
        let name = items[number].bytes();
        if store.get(name).is_some() {
            return Err(Refusal::FileTwice(number));
        }
        put(alloc, &mut store, name, bytes.bytes())?;
        number += 2;
    }
    Ok(store)
}

/// The files of which bytes are the netstrings, names and bytes in turn.
pub(crate) fn read_files(alloc: Global, bytes: &[u8]) -> Result<SureStore, Refusal>
    ensures ok { IfOk result (AreFiles bytes.now) }
    ensures err { IfErr result (λ refusal. (words : List ℕ) → IsRefusal words bytes.now refusal) }
{
    match read_items(alloc, bytes) {
        Ok(items) => texts_as_files(alloc, items.as_slice()),
        Err(ItemsFault::Broken(place)) => Err(Refusal::FilesBroken(place)),
        Err(ItemsFault::NoMemory) => Err(Refusal::NoMemory),
    }
}
