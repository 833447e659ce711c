//! What stands below all: the fault of main.

ghost use Rattle.std.specs.Prelude.{◌≡◌, ◌++◌, Some, OnOk};
ghost use Rattle.oss_graph_text.specs.Text.{end_text, main_text};

use crate::points::is_main;
use crate::words::{add, add_stop};
use oss_task_graph::Stop;
use std::alloc::{AllocError, Global};

/// Adds the fault, if it stands in the body of main.
pub(crate) fn add_end(
    alloc: Global,
    fault: &Option<Stop>,
    text: &mut Vec<u8>,
) -> Result<(), AllocError>
    ensures { OnOk result (text.new.items ≡ text.old.items ++ end_text fault.now) }
{
    match fault {
        Some(stop) => add_end_at(alloc, stop, text),
        None => Ok(()),
    }
}

/// Adds a fault, if it stands in the body of main.
fn add_end_at(alloc: Global, stop: &Stop, text: &mut Vec<u8>) -> Result<(), AllocError>
    ensures { OnOk result (text.new.items ≡ text.old.items ++ end_text (Some stop.now)) }
{
    if is_main(stop.task.as_slice()) {
        return add_main(alloc, stop, text);
    }
    Ok(())
}

/// Adds a fault in the body of main.
fn add_main(alloc: Global, stop: &Stop, text: &mut Vec<u8>) -> Result<(), AllocError>
    ensures { OnOk result (text.new.items ≡ text.old.items ++ main_text stop.now) }
{
    add(text, b"  label=\"main")?;
    add_stop(alloc, stop, text)?;
    add(text, b"\";\n  fontcolor=red;\n")
}
