//! Words, numbers and points, behind a text.

ghost use Rattle.std.specs.Prelude.{◌≡◌, ◌++◌, OnOk};
ghost use Rattle.std.specs.Fmt.{decimal};
ghost use Rattle.oss_model.specs.Points.{text_of};
ghost use Rattle.oss_graph_text.specs.Labels.{stop_text};
ghost use Rattle.oss_graph_text.specs.Points.{indent, quoted};

use oss_model::point_text;
use oss_report::word_of_fault;
use oss_task_graph::Stop;
use std::alloc::{AllocError, Global};

/// Adds words.
pub(crate) fn add(text: &mut Vec<u8>, words: &[u8]) -> Result<(), AllocError>
    ensures { OnOk result (text.new.items ≡ text.old.items ++ words.now) }
{
    text.extend_from_slice(words)
}

/// Adds a number.
pub(crate) fn add_number(alloc: Global, number: u32, text: &mut Vec<u8>) -> Result<(), AllocError>
    ensures { OnOk result (text.new.items ≡ text.old.items ++ decimal number) }
{
    let digits = format!(in alloc; "{number}")?;
    add(text, digits.as_bytes())
}

/// Adds the numbers of a point, with dots between them.
pub(crate) fn add_point(alloc: Global, point: &[u16], text: &mut Vec<u8>) -> Result<(), AllocError>
    ensures { OnOk result (text.new.items ≡ text.old.items ++ text_of point.now) }
{
    let numbers = point_text(alloc, point)?;
    add(text, numbers.as_slice())
}

/// Adds a point between quotes, as the name of a node.
pub(crate) fn add_quoted(alloc: Global, point: &[u16], text: &mut Vec<u8>) -> Result<(), AllocError>
    ensures { OnOk result (text.new.items ≡ text.old.items ++ quoted point.now) }
{
    add(text, b"\"")?;
    add_point(alloc, point, text)?;
    add(text, b"\"")
}

/// Adds two blanks for each level.
pub(crate) fn add_indent(level: usize, text: &mut Vec<u8>) -> Result<(), AllocError>
    ensures { OnOk result (text.new.items ≡ text.old.items ++ indent level) }
{
    let mut left = level;
    'levels: while left > 0 {
        add(text, b"  ")?;
        left -= 1;
    }
    Ok(())
}

/// Adds a fault, as a line of a label.
pub(crate) fn add_stop(alloc: Global, stop: &Stop, text: &mut Vec<u8>) -> Result<(), AllocError>
    ensures { OnOk result (text.new.items ≡ text.old.items ++ stop_text stop.now) }
{
    add(text, b"\\n")?;
    add(text, word_of_fault(stop.kind))?;
    add(text, b" at line ")?;
    add_number(alloc, stop.line, text)
}
