//! The label of a task, behind its name.

ghost use Rattle.std.specs.Prelude.{◌≡◌, ◌++◌, OnOk};
ghost use Rattle.std.specs.List.{flat_map};
ghost use Rattle.std.specs.Option.{option_copied};
ghost use Rattle.oss_explanation.specs.Labels.{label_text, told_byte};

use crate::names::add;
use std::alloc::AllocError;

/// Adds the label of a task, if it has one.
pub(crate) fn add_label(label: Option<&[u8]>, text: &mut Vec<u8>) -> Result<(), AllocError>
    ensures { OnOk result (text.new.items ≡ text.old.items ++ label_text (option_copied label.entry)) }
{
    match label {
        Some(label) => {
            add(text, b" (")?;
            add_bytes(label, text)?;
            add(text, b")")
        }
        None => Ok(()),
    }
}

/// Adds the bytes of a label, as they are written in one line.
fn add_bytes(label: &[u8], text: &mut Vec<u8>) -> Result<(), AllocError>
    ensures { OnOk result (text.new.items ≡ text.old.items ++ flat_map told_byte label.now) }
{
    for byte in label {
        add_byte(*byte, text)?;
    }
    Ok(())
}

/// Adds a byte of a label, as it is written in one line.
fn add_byte(byte: u8, text: &mut Vec<u8>) -> Result<(), AllocError>
    ensures { OnOk result (text.new.items ≡ text.old.items ++ told_byte byte) }
{
    if byte == b'\n' {
        return add(text, b"\\n");
    }
    if byte == b'\t' {
        return add(text, b"\\t");
    }
    if byte == b'"' || byte == b'\\' {
        return add(text, &[b'\\', byte]);
    }
    add(text, &[byte])
}
