//! Standard output over a runtime that prints by pieces and fails in mid-stream.

use crate::check::{check_same, check_say};
use lio_outside::SayFault;
use lio_system::RealSay;
use std::cell::Cell;
use std::fmt::Display;
use std::io;
use std::io::ErrorKind;

/// A runtime that prints at most two bytes in a call, and fails once it has printed those that are
/// left.
#[derive(Drop)]
struct FakePrint {
    left: Cell<usize>,
}

impl FakePrint {
    /// The error of an output that is full.
    fn full<T>() -> io::Result<T> {
        Err(io::Error::from(ErrorKind::Other))
    }
}

impl Print for FakePrint {
    fn print<D: Display + Drop>(&self, _value: D) -> io::Result<()> {
        FakePrint::full()
    }

    fn println<D: Display + Drop>(&self, _value: D) -> io::Result<()> {
        FakePrint::full()
    }

    fn write_all(&self, _bytes: &[u8]) -> io::Result<()> {
        FakePrint::full()
    }

    fn write_some(&self, bytes: &[u8]) -> io::Result<usize> {
        let left = self.left.get();
        let count = bytes.len().min(left).min(2);
        if count == 0 {
            return Err(io::Error::from(ErrorKind::Other));
        }
        self.left.set(left - count);
        Ok(count)
    }
}

#[test]
fn real_say_over_a_failing_output(rt: HostRuntime) {
    let print = FakePrint { left: Cell::new(5) };
    let mut output = RealSay::new(&print);
    check_say(&rt, &mut output, rt.alloc(), b"abc", Ok(()));
    check_say(&rt, &mut output, rt.alloc(), b"defg", Err(SayFault::Failed));
    check_say(&rt, &mut output, rt.alloc(), b"", Ok(()));
    check_same(&rt, &output.fault_count(), &1);
    drop(output);
    check_same(&rt, &print.left.get(), &0);
}
