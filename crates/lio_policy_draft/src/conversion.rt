//! Making each item of a list into another thing, as far as that can be done.
ghost use Rattle.std.specs.Prelude.{◌≡◌, IfOk};
ghost use Rattle.lio_policy_draft.specs.Converted.{converted};

use lio_clauses::NoMemory;
use lio_values::List;
use std::alloc::Global;

/// A way to make one thing of another, where that can be done.
pub trait Conversion<X, Y> {
    ghost use Rattle.std.specs.Prelude.{Option};

    ghost gives: { Self → X → Option Y };

    /// What it makes of a thing.
    fn convert(&self, alloc: Global, from: &X) -> Result<Option<Y>, NoMemory>
        ensures { IfOk result (λ made. made ≡ gives self.now from.now) };
}

/// What a conversion makes of all items, or the place of the first of which it makes nothing.
pub fn each<X, Y: Drop, C: Conversion<X, Y>>(
    alloc: Global,
    by: &C,
    items: &[X],
) -> Result<Result<List<Y>, usize>, NoMemory>
    ensures { IfOk result (λ made. made ≡ converted (C.gives by.now) items.now) }
{
    let mut made = List::new(alloc);
    for (place, item) in items.iter().enumerate() {
        let Some(one) = by.convert(alloc, item)? else {
            return Ok(Err(place));
        };
        made.push(one)?;
    }
    Ok(Ok(made))
}
