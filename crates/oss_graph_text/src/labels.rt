//! What the label of a node tells: the point of its task, the label of its pragma, the line, and the fault in its body.

ghost use Rattle.std.specs.Prelude.{◌≡◌, ◌++◌, Some, OnOk};
ghost use Rattle.std.specs.List.{flat_map};
ghost use Rattle.std.specs.Option.{option_copied};
ghost use Rattle.oss_labels.specs.Lists.{label_at};
ghost use Rattle.oss_graph_text.specs.Labels.{colour_text, fault_text, label_text, line_text, node_text, quoted_byte, told_text};

use crate::points::is_same;
use crate::words::{add, add_number, add_point, add_quoted, add_stop};
use oss_labels::Labels;
use oss_task_graph::{Node, Stop};
use std::alloc::{AllocError, Global};

/// Adds the line of a node, without the blanks before it.
pub(crate) fn add_node(
    alloc: Global,
    labels: &Labels,
    fault: &Option<Stop>,
    node: &Node,
    text: &mut Vec<u8>,
) -> Result<(), AllocError>
    ensures { OnOk result (text.new.items ≡ text.old.items ++ node_text (label_at labels.now) fault.now node.now) }
{
    add_line_of(
        alloc,
        labels.at(node.entry),
        fault,
        node.task.as_slice(),
        node.line,
        text,
    )
}

/// Adds the line of the node of a task, without the blanks before it.
fn add_line_of(
    alloc: Global,
    label: Option<&[u8]>,
    fault: &Option<Stop>,
    task: &[u16],
    line: u32,
    text: &mut Vec<u8>,
) -> Result<(), AllocError>
    ensures { OnOk result (text.new.items ≡ text.old.items ++ line_text (option_copied label.entry) fault.now task.now line) }
{
    add_quoted(alloc, task, text)?;
    add(text, b" [label=\"")?;
    add_told(alloc, label, fault, task, line, text)?;
    add(text, b"\"")?;
    add_colour(fault, task, text)?;
    add(text, b"];\n")
}

/// Adds what the label of a node tells.
fn add_told(
    alloc: Global,
    label: Option<&[u8]>,
    fault: &Option<Stop>,
    task: &[u16],
    line: u32,
    text: &mut Vec<u8>,
) -> Result<(), AllocError>
    ensures { OnOk result (text.new.items ≡ text.old.items ++ told_text (option_copied label.entry) fault.now task.now line) }
{
    add_point(alloc, task, text)?;
    add_label(label, text)?;
    add(text, b"\\nline ")?;
    add_number(alloc, line, text)?;
    add_fault(alloc, fault, task, text)
}

/// Adds the label of a pragma, if there is one.
fn add_label(label: Option<&[u8]>, text: &mut Vec<u8>) -> Result<(), AllocError>
    ensures { OnOk result (text.new.items ≡ text.old.items ++ label_text (option_copied label.entry)) }
{
    match label {
        Some(label) => {
            add(text, b"\\n")?;
            add_bytes(label, text)
        }
        None => Ok(()),
    }
}

/// Adds the bytes of a label, as they are written between quotes.
fn add_bytes(label: &[u8], text: &mut Vec<u8>) -> Result<(), AllocError>
    ensures { OnOk result (text.new.items ≡ text.old.items ++ flat_map quoted_byte label.now) }
{
    for byte in label {
        add_byte(*byte, text)?;
    }
    Ok(())
}

/// Adds a byte of a label, as it is written between quotes.
fn add_byte(byte: u8, text: &mut Vec<u8>) -> Result<(), AllocError>
    ensures { OnOk result (text.new.items ≡ text.old.items ++ quoted_byte byte) }
{
    if byte == b'\n' {
        return add(text, b"\\n");
    }
    if byte == b'"' || byte == b'\\' {
        return add(text, &[b'\\', byte]);
    }
    add(text, &[byte])
}

/// Adds the fault, if it stands in the body of the task with this point.
fn add_fault(
    alloc: Global,
    fault: &Option<Stop>,
    task: &[u16],
    text: &mut Vec<u8>,
) -> Result<(), AllocError>
    ensures { OnOk result (text.new.items ≡ text.old.items ++ fault_text fault.now task.now) }
{
    match fault {
        Some(stop) => add_fault_at(alloc, stop, task, text),
        None => Ok(()),
    }
}

/// Adds a fault, if it stands in the body of the task with this point.
fn add_fault_at(
    alloc: Global,
    stop: &Stop,
    task: &[u16],
    text: &mut Vec<u8>,
) -> Result<(), AllocError>
    ensures { OnOk result (text.new.items ≡ text.old.items ++ fault_text (Some stop.now) task.now) }
{
    if is_same(stop.task.as_slice(), task) {
        return add_stop(alloc, stop, text);
    }
    Ok(())
}

/// Adds that a node is red, if the fault stands in the body of the task with this point.
fn add_colour(fault: &Option<Stop>, task: &[u16], text: &mut Vec<u8>) -> Result<(), AllocError>
    ensures { OnOk result (text.new.items ≡ text.old.items ++ colour_text fault.now task.now) }
{
    match fault {
        Some(stop) => add_colour_at(stop, task, text),
        None => Ok(()),
    }
}

/// Adds that a node is red, if this fault stands in the body of the task with this point.
fn add_colour_at(stop: &Stop, task: &[u16], text: &mut Vec<u8>) -> Result<(), AllocError>
    ensures { OnOk result (text.new.items ≡ text.old.items ++ colour_text (Some stop.now) task.now) }
{
    if is_same(stop.task.as_slice(), task) {
        return add(text, b", color=red");
    }
    Ok(())
}
