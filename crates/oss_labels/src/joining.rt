//! The labels of tasks with the places of their bodies.

ghost use Rattle.std.specs.Prelude.{◌≡◌, ◌++◌, ◌∷◌, [], IfOk, OnOk};
ghost use Rattle.oss_labels.specs.Creations.{joined, joined_one};

use crate::labels::Labelled;
use oss_syntax::Bytes;
use std::alloc::{AllocError, Global};

/// Those of these labels that are there, each with the entry at its place. Of as many entries as labels each has its own.
pub(crate) fn joined(
    alloc: Global,
    entries: &[u32],
    labels: &[Option<Bytes>],
) -> Result<Vec<Labelled>, AllocError>
    ensures { IfOk result (λ list. list.items ≡ joined entries.now labels.now) }
{
    let mut list = Vec::new(alloc);
    let mut left = entries;
    for label in labels {
        match left.split_first() {
            Some((entry, more)) => {
                add(alloc, *entry, label, &mut list)?;
                left = more;
            }
            None => return Ok(list),
        }
    }
    Ok(list)
}

/// Adds a label with this entry, if it is there.
fn add(
    alloc: Global,
    entry: u32,
    label: &Option<Bytes>,
    list: &mut Vec<Labelled>,
) -> Result<(), AllocError>
    ensures { OnOk result (list.new.items ≡ list.old.items ++ joined_one entry label.now) }
{
    if let Some(text) = label {
        let label = Bytes::from_slice(alloc, text.as_slice())?;
        list.push(Labelled { entry, label })?;
    }
    Ok(())
}
