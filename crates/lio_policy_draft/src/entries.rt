//! The numbers of a draft's entries: 0 is the document; principals, channels, inputs and tasks
//! follow from 1, in this order.
ghost use Rattle.std.specs.Prelude.{◌≡◌, ◌+◌, ◌<◌, ◌^◌, length};
ghost use Rattle.std.specs.List.{filter_map};
ghost use Rattle.lio_clauses.specs.FormulaText.{shown};
ghost use Rattle.lio_policy_draft.specs.Converted.{unmade};
ghost use Rattle.lio_policy_draft.specs.Failing.{Passes};

use crate::conversion::{Conversion, each};
use crate::draft::Draft;
use crate::fault::PolicyFault;
use lio_values::List;
use std::alloc::Global;

/// The number of the first principal.
pub const FIRST_PRINCIPAL: u128 = 1;

/// The number of the first channel.
pub fn first_channel(draft: &Draft) -> u128
    ensures number { result ≡ 1 + length draft.now.principals }
    ensures small { result < 2 ^ 65 }
{
    1 + draft.principals.as_slice().len() as u128
}

/// The number of the first input.
pub fn first_input(draft: &Draft) -> u128
    ensures number { result ≡ 1 + length draft.now.principals + length draft.now.channels }
    ensures small { result < 2 ^ 66 }
{
    first_channel(draft) + draft.channels.as_slice().len() as u128
}

/// The number of the first task.
pub fn first_task(draft: &Draft) -> u128
    ensures number { result
        ≡ 1 + length draft.now.principals + length draft.now.channels + length draft.now.inputs }
    ensures small { result < 2 ^ 67 }
{
    first_input(draft) + draft.inputs.as_slice().len() as u128
}

/// A number, at most 4,294,967,295.
pub fn shown(number: u128) -> u32
    ensures { result ≡ shown number }
{
    number.min(u32::MAX as u128) as u32
}

/// The fault of a rule at an entry.
pub fn fault_at(rule: u32, entry: u128) -> PolicyFault
    ensures { result ≡ PolicyFault.Bad rule (shown entry) }
{
    PolicyFault::Bad {
        rule,
        entry: shown(entry),
    }
}

/// What a conversion makes of all entries from the given one on, or the fault of a rule at the
/// first of which it makes nothing.
pub fn each_entry<X, Y: Drop, C: Conversion<X, Y>>(
    alloc: Global,
    by: &C,
    items: &[X],
    rule: u32,
    first: u128,
) -> Result<List<Y>, PolicyFault>
    requires { first < 2 ^ 67 }
    ensures { Passes rule first (unmade (C.gives by.now) items.now) result
        (λ made. made ≡ filter_map (C.gives by.now) items.now) }
{
    match each(alloc, by, items)? {
        Ok(made) => Ok(made),
        Err(place) => Err(fault_at(rule, first + place as u128)),
    }
}
