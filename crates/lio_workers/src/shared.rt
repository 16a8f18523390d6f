//! What workers share.

use lio_runq::{Bound, RunQueue};
use lio_table::Table;

/// The table, and the numbers of the tasks that are to be tried.
pub(crate) struct Shared<B: Bound> {
    pub table: Table,
    pub numbers: RunQueue<B>,
}
