//! The lines that tell who began the tasks of a run, and in which order they began.

ghost use Rattle.std.specs.Prelude.{◌≡◌, ◌++◌, ◌∷◌, [], IfOk, OnOk};
ghost use Rattle.std.specs.Fmt.{decimal};
ghost use Rattle.oss_model.specs.Points.{text_of};
ghost use Rattle.oss_report.specs.Runs.{order_line, order_text, who_line, who_text};

use oss_model::{Point, point_text};
use oss_syntax::{Bytes, List};
use std::alloc::{AllocError, Global};

/// `order POINT` and a newline for each of these tasks, in this order. Want of memory is the one error.
pub fn order_lines(alloc: Global, tasks: &List<Point>) -> Result<Bytes, AllocError>
    ensures { IfOk result (λ text. text ≡ order_text tasks.now) }
{
    let mut text = Vec::new(alloc);
    for task in tasks.as_slice() {
        write_order(alloc, task, &mut text)?;
    }
    Ok(Bytes::from_vec(text))
}

/// `who POINT WORKER` and a newline for each of these tasks, in this order, which this worker began. Want of memory is the one error.
pub fn who_lines(alloc: Global, tasks: &List<Point>, worker: u32) -> Result<Bytes, AllocError>
    ensures { IfOk result (λ text. text ≡ who_text worker tasks.now) }
{
    let mut text = Vec::new(alloc);
    for task in tasks.as_slice() {
        write_who(alloc, task, worker, &mut text)?;
    }
    Ok(Bytes::from_vec(text))
}

/// Writes the line of a task that began.
fn write_order(alloc: Global, task: &Point, text: &mut Vec<u8>) -> Result<(), AllocError>
    ensures { OnOk result (text.new.items ≡ text.old.items ++ order_line task.now) }
{
    text.extend_from_slice(b"order ")?;
    write_point(alloc, task, text)?;
    text.push(b'\n')?;
    Ok(())
}

/// Writes the line of a task that this worker began.
fn write_who(alloc: Global, task: &Point, worker: u32, text: &mut Vec<u8>) -> Result<(), AllocError>
    ensures { OnOk result (text.new.items ≡ text.old.items ++ who_line worker task.now) }
{
    text.extend_from_slice(b"who ")?;
    write_point(alloc, task, text)?;
    let end = format!(in alloc; " {worker}\n")?;
    text.extend_from_slice(end.as_bytes())
}

/// Writes the point of a task.
fn write_point(alloc: Global, task: &Point, text: &mut Vec<u8>) -> Result<(), AllocError>
    ensures { OnOk result (text.new.items ≡ text.old.items ++ text_of task.now) }
{
    let at = point_text(alloc, task.as_slice())?;
    text.extend_from_slice(at.as_slice())
}
