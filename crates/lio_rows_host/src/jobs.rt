//! The jobs that words name.

use lio_front::{Status, Texts, read_command};
use lio_host_main::{Loaded, Order, prepare_order};
use lio_outside::MemStore;
use std::alloc::Global;

/// The job of an order, and its observer.
fn loaded(order: Order<'_>) -> Loaded {
    let Order {
        job,
        observer,
        way,
        ..
    } = order;
    Loaded { job, observer }
}

/// The job that words of the host name over a store, or the answer where there is none.
pub(crate) fn host_job(
    alloc: Global,
    words: &[String],
    store: &mut MemStore,
) -> Result<Loaded, Status> {
    match read_command(words) {
        Some(command) => Ok(loaded(prepare_order(alloc, store, command, &mut Texts::none())?)),
        None => Err(Status::BadWords),
    }
}

/// The same, by words of the host over futures.
pub(crate) fn futures_job(
    alloc: Global,
    words: &[String],
    store: &mut MemStore,
) -> Result<Loaded, Status> {
    match lio_async_main::read_words(words) {
        Some(command) => Ok(loaded(prepare_order(alloc, store, command, &mut Texts::none())?)),
        None => Err(Status::BadWords),
    }
}
