//! A table of outputs that fail by plan, run in each mode.

use super::calls::{FLOW, MODES, call, failing_sink, shelf_with, sink};
use oss_io::MemorySink;
use oss_top::Sinks;
use std::alloc::{AllocError, Global};
use std::process::Abort;
use std::sync::Wait;
use std::test::Fail;
use std::thread::Threads;

/// A task that writes a cell and one that reads it, and no wait: main reads what it has lent.
const LENT: &str = "long x, y;
int main() {
#pragma oss task out(x)
  x = 5;
#pragma oss task in(x) out(y)
  y = x + 1;
  printf(\"%ld\\n\", y);
}
";

/// Three lines of output, and a division by 0 before the fourth.
const DIVIDES: &str = "long x, y;
int main() {
#pragma oss task out(x)
  printf(\"1\\n\");
  printf(\"2\\n\");
#pragma oss task inout(y)
  { printf(\"3\\n\"); y = 1 / y; }
  printf(\"4\\n\");
}
";

/// A text without a main.
const REFUSED: &str = "long x;";

/// A run of a program over outputs that take pieces of some size, and fail at a call if one is named; and what it tells.
#[derive(Clone, Copy)]
struct Row {
    text: &'static str,
    piece: usize,
    out_fails: Option<u32>,
    err_fails: Option<u32>,
    out: &'static str,
    err: &'static str,
}

/// A sink that takes pieces of this size, and fails at this call if one is named.
fn planned(alloc: Global, piece: usize, fails: Option<u32>) -> Result<MemorySink, AllocError> {
    if piece == 0 {
        return sink(alloc);
    }
    match fails {
        Some(at) => failing_sink(alloc, piece, at),
        None => {
            let mut sink = sink(alloc)?;
            sink.set_piece(piece);
            Ok(sink)
        }
    }
}

/// A run as the row says has the status 5 in each mode, and leaves what the row says.
fn assert_row<R: Abort + AllocGlobal + Threads + Wait + Sync>(
    rt: &R,
    row: Row,
) -> Result<(), AllocError> {
    let alloc = rt.alloc();
    for options in MODES {
        let sinks = Sinks {
            out: planned(alloc, row.piece, row.out_fails)?,
            err: planned(alloc, row.piece, row.err_fails)?,
        };
        let shelf = shelf_with(alloc, row.text)?;
        let told = call(rt, alloc, &["run", "p.c"], options, shelf, sinks)?;
        assert!(rt; told.is(5, row.out, row.err));
    }
    Ok(())
}

#[test]
fn outputs_that_fail_hold_a_prefix_in_each_mode(rt: HostRuntime) -> Result<(), Fail> {
    let nothing = Row {
        text: FLOW,
        piece: 4096,
        out_fails: Some(1),
        err_fails: None,
        out: "",
        err: "",
    };
    assert_row(&rt, nothing)?;
    let no_line = Row {
        text: LENT,
        piece: 4096,
        out_fails: None,
        err_fails: Some(1),
        out: "",
        err: "",
    };
    assert_row(&rt, no_line)?;
    let one_line = Row {
        text: DIVIDES,
        piece: 1,
        out_fails: Some(3),
        err_fails: None,
        out: "1\n",
        err: "",
    };
    assert_row(&rt, one_line)?;
    let two_bytes = Row {
        text: DIVIDES,
        piece: 1,
        out_fails: None,
        err_fails: Some(3),
        out: "1\n2\n3\n",
        err: "fa",
    };
    assert_row(&rt, two_bytes)?;
    let no_byte = Row {
        text: REFUSED,
        piece: 1,
        out_fails: None,
        err_fails: Some(1),
        out: "",
        err: "",
    };
    assert_row(&rt, no_byte)?;
    Ok(())
}
