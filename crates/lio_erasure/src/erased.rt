//! What an observer sees of a configuration.
//!
//! Where `#[tactic(none)]` stands each goal has its answer, so no tactic is tried.
ghost use Rattle.std.specs.Prelude.{◌≡◌, IfOk, IsTrue, List};
ghost use Rattle.lio_syntax.specs.Statements.{Procedure};
ghost use Rattle.lio_calculus.specs.Erased.{erase, erase_cell};
ghost use Rattle.lio_task.specs.Configuration.{cell_of, configuration_of};
ghost use Rattle.lio_erasure.specs.Low.{LeavesOutBlanks, is_kept, low_cell_of};
ghost use Rattle.lio_erasure.specs.Low.{low_configuration_of};

use crate::cells::LowConfig;
use crate::hidden::{hidden, is_seen};
use lio_clauses::NoMemory;
use lio_labels::Label;
use lio_task::{Config, Holder};
use std::alloc::Global;

/// A holder as an observer sees it: left out where nothing is or its label doesn't flow to the
/// observer's, and else with its values erased.
#[tactic(none)]
fn erase_holder(
    alloc: Global,
    holder: &Holder,
    observer: &Label,
) -> Result<Option<Holder>, NoMemory>
    ensures erased { IfOk result (λ erased. (script : List Procedure)
        → low_cell_of script erased ≡ erase_cell observer.now (cell_of script holder.now)) }
    ensures kept { IfOk result (λ erased. IsTrue (is_kept erased)) }
{
    if is_seen(holder, observer) {
        Ok(Some(hidden(alloc, holder, observer)?))
    } else {
        Ok(None)
    }
}

/// What an observer sees of a configuration. A cell is left out where nothing is or its label
/// doesn't flow to the observer's; the label of a job is here its task's current label. In the
/// cells that stay each value is erased. Source: the erasure of the concurrent calculus of LIO,
/// ICFP 2012.
pub fn erase_config(alloc: Global, config: &Config, observer: &Label) -> Result<LowConfig, NoMemory>
    ensures erased { IfOk result (λ low. (script : List Procedure) → low_configuration_of script
        config.now.longest low ≡ erase observer.now (configuration_of script config.now)) }
    ensures kept { IfOk result LeavesOutBlanks }
{
    let mut low = LowConfig::new(alloc);
    for holder in &config.holders {
        low.push(erase_holder(alloc, holder, observer)?)?;
    }
    Ok(low)
}
