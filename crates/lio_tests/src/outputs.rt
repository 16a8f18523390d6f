//! The outputs in memory on their happy paths.

use crate::check::{check_same, check_say};
use lio_outside::{MemSay, SayFault, SureSay};
use std::alloc::AllocError;

#[test]
fn mem_say_fails_by_list(rt: HostRuntime) -> Result<(), AllocError> {
    let failing = vec![in rt.alloc(); 1]?;
    let mut output = MemSay::new(rt.alloc(), failing);
    check_say(&rt, &mut output, rt.alloc(), b"one ", Ok(()));
    check_say(&rt, &mut output, rt.alloc(), b"lost", Err(SayFault::Failed));
    check_say(&rt, &mut output, rt.alloc(), b"two", Ok(()));
    check_same(&rt, &output.said(), &b"one two".as_slice());
    check_same(&rt, &(output.call_count(), output.fault_count()), &(3, 1));
    Ok(())
}

#[test]
fn sure_say_says(rt: HostRuntime) {
    let mut output = SureSay::new(rt.alloc());
    check_say(&rt, &mut output, rt.alloc(), b"one ", Ok(()));
    check_say(&rt, &mut output, rt.alloc(), b"two", Ok(()));
    check_same(&rt, &output.said(), &b"one two".as_slice());
}
