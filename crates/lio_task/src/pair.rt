//! Two places of a list.
ghost use Rattle.std.specs.Prelude.{◌≡◌, ◌<◌, length, get_or};
ghost use Rattle.std.specs.Borrow.{sem};
ghost use Rattle.lio_task.specs.Pair.{LendsPlaces};

/// Lends two different places of a list.
pub(crate) fn pair_mut<T>(xs: &mut [T], i: usize, j: usize) -> (&mut T, &mut T)
    requires other { i ≡ j → ⊥ }
    requires first { i < length xs.old }
    requires second { j < length xs.old }
    ensures* writes_back { sem 𝓛 (LendsPlaces T.row xs.entry i j result) }
    ensures first { result.0.now ≡ get_or xs.old i result.0.now }
    ensures second { result.1.now ≡ get_or xs.old j result.1.now }
{
    if i < j {
        let (front, back) = xs.split_at_mut(j);
        (&mut front[i], &mut back[0])
    } else {
        let (front, back) = xs.split_at_mut(i);
        (&mut back[0], &mut front[j])
    }
}
