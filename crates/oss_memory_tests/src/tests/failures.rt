//! Shelves and sinks that fail by plan, in the middle of a text.

ghost use Rattle.std.specs.Prelude.{◌<◌};

use super::calls::{Told, call, failing_sink, shelf_with, sink, sinks};
use oss_top::Sinks;
use std::alloc::{AllocError, Global};
use std::sync::Wait;
use std::test::Fail;
use std::thread::Threads;

const PROGRAM: &str = "int main() { printf(\"%d\\n\", 0 - 12); }";

const LENT: &str =
    "long x;\nint main() {\nprintf(\"a\");\n#pragma oss task out(x)\nx = 1;\nx = 2;\n}";

#[test]
fn a_file_that_cannot_be_read_is_named(rt: HostRuntime) -> Result<(), Fail> {
    let alloc = rt.alloc();
    let mut shelf = shelf_with(alloc, PROGRAM)?;
    shelf.fail_at(1)?;
    let told = call(&rt, alloc, &["run", "p.c"], &[], shelf, sinks(alloc)?)?;
    assert!(rt; told.is(4, "", "cannot read p.c\n"));
    Ok(())
}

#[test]
fn a_schedule_that_cannot_be_read_is_named(rt: HostRuntime) -> Result<(), Fail> {
    let alloc = rt.alloc();
    let mut shelf = shelf_with(alloc, PROGRAM)?;
    shelf.put("s", b"step 0 1\n".as_slice())?;
    shelf.fail_at(2)?;
    let told = call(&rt, alloc, &["replay", "p.c"], &["s"], shelf, sinks(alloc)?)?;
    assert!(rt; told.is(4, "", "cannot read s\n"));
    Ok(())
}

#[test]
fn an_output_that_fails_holds_a_prefix(rt: HostRuntime) -> Result<(), Fail> {
    let alloc = rt.alloc();
    let sinks = Sinks {
        out: failing_sink(alloc, 1, 3)?,
        err: sink(alloc)?,
    };
    let shelf = shelf_with(alloc, PROGRAM)?;
    let told = call(&rt, alloc, &["run", "p.c"], &[], shelf, sinks)?;
    assert!(rt; told.is(5, "-1", ""));
    Ok(())
}

/// What these words tell where the error output takes pieces of this size and fails at this call.
fn with_failing_errors<R: Threads + Wait + Sync>(
    rt: &R,
    alloc: Global,
    words: &[&str],
    piece: usize,
    at: u32,
) -> Result<Told, AllocError>
    requires { 0 < piece }
{
    let sinks = Sinks {
        out: sink(alloc)?,
        err: failing_sink(alloc, piece, at)?,
    };
    call(rt, alloc, words, &[], shelf_with(alloc, LENT)?, sinks)
}

#[test]
fn an_error_output_that_fails_holds_a_prefix(rt: HostRuntime) -> Result<(), Fail> {
    let alloc = rt.alloc();
    assert!(rt; with_failing_errors(&rt, alloc, &["run"], 3, 3)?.is(5, "", "usage:"));
    assert!(rt; with_failing_errors(&rt, alloc, &["run", "p.c"], 7, 2)?.is(5, "a", "fault: "));
    Ok(())
}
