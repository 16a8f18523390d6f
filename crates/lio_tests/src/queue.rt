//! What goes in comes out, once.
ghost use Rattle.std.specs.Prelude.{◌≡◌};

use lio_clauses::NoMemory;
use lio_runq::{Bound, RunQueue};
use std::alloc::Global;
use std::marker::Brand;
use std::sync::Wait;
use std::test::Fail;

/// What two pops answer behind a push of 7, below the bound 8.
fn push_and_pop<B: Bound, R: Wait>(
    rt: &R,
    alloc: Global,
    bound: u32,
) -> Result<[Option<u32>; 2], NoMemory>
    requires bound { bound ≡ B.bound }
    requires eight { bound ≡ 8 }
{
    let (queue, mut pass) = RunQueue::<B>::new(alloc, bound)?;
    let pushed = queue.push(rt, &mut pass, 7);
    let first = queue.pop(rt, &mut pass);
    let second = queue.pop(rt, &mut pass);
    queue.destroy();
    pushed?;
    Ok([first, second])
}

#[test]
fn numbers_come_out_as_they_went_in(rt: HostRuntime) -> Result<(), Fail> {
    let got = push_and_pop::<Brand, HostRuntime>(&rt, rt.alloc(), 8)?;
    assert!(&rt; got == [Some(7), None], "7 comes out, once");
    Ok(())
}
