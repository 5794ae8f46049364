// Large programs, which are looked at in little time.

use super::found;
use crate::tests::sources::{numbered, repeated};
use std::alloc::{AllocError, Global};
use std::test::Fail;

/// Methods with ten uses of a local each, and a fault behind them.
#[test]
fn many_methods(rt: HostRuntime) -> Result<(), Fail> {
    let body = "\nx = 1\nx; x; x; x; x; x; x; x; x\nend";
    let source = numbered(rt.alloc(), "", "def f", body, "break", 2_000)?;
    let found = found(rt.alloc(), source.as_str())?;
    assert_eq!(rt; found.as_str(), "BreakOutside 91100");
    Ok(())
}

/// Threads that read a local of outside, which may be assigned behind them.
#[test]
fn many_threads(rt: HostRuntime) -> Result<(), Fail> {
    for (end, fault) in [("", "kept"), ("x = 1", "UnsettledCapture 19")] {
        let source = numbered(rt.alloc(), "x = 1\n", "Thread.new { x + ", " }", end, 2_000)?;
        let found = found(rt.alloc(), source.as_str())?;
        assert_eq!(rt; found.as_str(), fault);
    }
    Ok(())
}

/// A thread in so many blocks, each in the one before it, that uses a local of outside so many times.
fn deep_inside(alloc: Global, blocks: u32, uses: u32) -> Result<String, AllocError> {
    let mut source = repeated(alloc, "x = 1; ", "3.times { ", blocks)?;
    let thread = repeated(alloc, "Thread.new { ", "x; ", uses)?;
    source.push_str(thread.as_str())?;
    repeated(alloc, source.as_str(), "}", blocks.saturating_add(1))
}

/// One thread with many uses of a local of outside, at the top level and in 62 blocks, each in the one before it.
#[test]
fn many_captures(rt: HostRuntime) -> Result<(), Fail> {
    for (blocks, uses, end, fault) in [
        (0, 20_000, "", "kept"),
        (62, 500, "", "kept"),
        (62, 500, "; x = 2", "UnsettledCapture 640"),
    ] {
        let mut source = deep_inside(rt.alloc(), blocks, uses)?;
        source.push_str(end)?;
        let found = found(rt.alloc(), source.as_str())?;
        assert_eq!(rt; found.as_str(), fault);
    }
    Ok(())
}
