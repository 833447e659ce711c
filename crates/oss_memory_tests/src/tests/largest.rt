//! The greatest number of cells, in each mode, and one cell more.

use super::calls::{FLOW, MODES, call, shelf_with, sinks};
use std::alloc::AllocError;
use std::process::Abort;
use std::sync::Wait;
use std::test::Fail;
use std::thread::Threads;

/// A task that is given 1,048,576 cells and writes the last of them.
const LARGEST: &str = "long a[1048576];\nint main() {\n#pragma oss task out(a)\na[1048575] = 1;\n}";

/// The same with one cell more.
const TOO_LARGE: &str =
    "long a[1048577];\nint main() {\n#pragma oss task out(a)\na[1048575] = 1;\n}";

/// A run of this program ends so in each mode.
fn assert_in_each_mode<R: Abort + AllocGlobal + Threads + Wait + Sync>(
    rt: &R,
    text: &str,
    status: u8,
    out: &str,
    err: &str,
) -> Result<(), AllocError> {
    let alloc = rt.alloc();
    for options in MODES {
        let shelf = shelf_with(alloc, text)?;
        let told = call(rt, alloc, &["run", "p.c"], options, shelf, sinks(alloc)?)?;
        assert!(rt; told.is(status, out, err));
    }
    Ok(())
}

#[test]
fn as_many_cells_as_there_may_be_are_run_in_each_mode(rt: HostRuntime) -> Result<(), Fail> {
    assert_in_each_mode(&rt, LARGEST, 0, "", "")?;
    Ok(())
}

#[test]
fn one_cell_more_is_refused_in_each_mode(rt: HostRuntime) -> Result<(), Fail> {
    assert_in_each_mode(&rt, TOO_LARGE, 3, "", "refused: TooLarge at line 1\n")?;
    Ok(())
}

/// No clause refuses a call that answers that memory is wanting, whatever there is.
#[test]
fn there_is_memory_for_a_small_run_in_each_mode(rt: HostRuntime) -> Result<(), Fail> {
    assert_in_each_mode(&rt, FLOW, 0, "6\n", "")?;
    Ok(())
}
