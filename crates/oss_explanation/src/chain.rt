//! How tasks came to be, in a sentence each.

ghost use Rattle.std.specs.Prelude.{◌≡◌, ◌++◌, OnOk};
ghost use Rattle.std.specs.List.{flat_map};
ghost use Rattle.std.specs.Option.{option_copied};
ghost use Rattle.oss_labels.specs.Lists.{label_at};
ghost use Rattle.oss_explanation.specs.Sentences.{created_text};
ghost use Rattle.oss_explanation.specs.Text.{included_text, link_text};
ghost use Rattle.oss_explanation.specs.Words.{above as point_above};

use crate::explained::Link;
use crate::labels::add_label;
use crate::names::{add, add_number, add_task_at, add_who_at};
use oss_labels::Labels;
use std::alloc::{AllocError, Global};

/// Adds how each of these tasks came to be.
pub(crate) fn add_chain(
    alloc: Global,
    labels: &Labels,
    chain: &[Link],
    text: &mut Vec<u8>,
) -> Result<(), AllocError>
    ensures { OnOk result (text.new.items ≡ text.old.items ++ flat_map (link_text (label_at labels.now)) chain.now) }
{
    for link in chain {
        add_link(alloc, labels, link, text)?;
    }
    Ok(())
}

/// Adds how a task came to be.
fn add_link(
    alloc: Global,
    labels: &Labels,
    link: &Link,
    text: &mut Vec<u8>,
) -> Result<(), AllocError>
    ensures { OnOk result (text.new.items ≡ text.old.items ++ link_text (label_at labels.now) link.now) }
{
    let task = link.task.as_slice();
    add_created(
        alloc,
        labels,
        link.entry,
        task,
        link.line,
        above(task),
        text,
    )?;
    add_included(link.included, text)?;
    add(text, b".\n")
}

/// Adds how a task came to be whose body begins with this instruction, without the end of the sentence.
pub(crate) fn add_created(
    alloc: Global,
    labels: &Labels,
    entry: u32,
    task: &[u16],
    line: u32,
    creator: &[u16],
    text: &mut Vec<u8>,
) -> Result<(), AllocError>
    ensures { OnOk result (text.new.items ≡ text.old.items
        ++ created_text (label_at labels.now entry) task.now line creator.now) }
{
    add_created_as(alloc, labels.at(entry), task, line, creator, text)
}

/// Adds how a task with this label, or without one, came to be.
fn add_created_as(
    alloc: Global,
    label: Option<&[u8]>,
    task: &[u16],
    line: u32,
    creator: &[u16],
    text: &mut Vec<u8>,
) -> Result<(), AllocError>
    ensures { OnOk result (text.new.items ≡ text.old.items
        ++ created_text (option_copied label.entry) task.now line creator.now) }
{
    add_who_at(alloc, task, text)?;
    add_label(label, text)?;
    add(text, b" was created at line ")?;
    add_number(alloc, line, text)?;
    add(text, b" by ")?;
    add_task_at(alloc, creator, text)
}

/// Adds what is said of a task that runs in the body of its creator.
fn add_included(included: bool, text: &mut Vec<u8>) -> Result<(), AllocError>
    ensures { OnOk result (text.new.items ≡ text.old.items ++ included_text included) }
{
    if included {
        return add(text, b", and is included in it");
    }
    Ok(())
}

/// The point of the creator of a task.
fn above(point: &[u16]) -> &[u16]
    ensures { result.now ≡ point_above point.now }
{
    &point[..point.len().saturating_sub(1)]
}
