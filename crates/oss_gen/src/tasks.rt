//! The lines of the tasks.

ghost use Rattle.std.specs.Prelude.{◌≡◌, ◌++◌, OnOk};
ghost use Rattle.std.specs.Fmt.{decimal};
ghost use Rattle.oss_gen.specs.Generated.{loop_text, nesting_text, section_text, summing_text, task_text, tasks_text, tripling_text};

use crate::numbers::{cell_behind, cell_count, first_cell, next_number};
use std::alloc::{AllocError, Global};

/// Writes so many tasks behind the text, with the numbers behind this one. Want of memory is the one error.
pub(crate) fn write_tasks(
    alloc: Global,
    size: u32,
    start: u8,
    text: &mut Vec<u8>,
) -> Result<(), AllocError>
    ensures { OnOk result (text.new.items ≡ text.old.items ++ tasks_text size 0 start) }
{
    let mut number = start;
    for before in 0..size {
        number = next_number(number);
        write_task(alloc, before, number, text)?;
    }
    Ok(())
}

/// Writes the task that has so many before it.
#[tactic(auto, unfolding(crate::specs::Generated::task_text))]
fn write_task(alloc: Global, before: u32, number: u8, text: &mut Vec<u8>) -> Result<(), AllocError>
    ensures { OnOk result (text.new.items ≡ text.old.items ++ task_text before number) }
{
    match before % 3 {
        0 => write_tripling(alloc, number, text),
        1 => write_nesting(alloc, number, text),
        _ => write_summing(alloc, number, text),
    }
}

/// Writes a task that triples its cells and adds its number.
#[tactic(auto, unfolding(crate::specs::Generated::tripling_text))]
fn write_tripling(alloc: Global, number: u8, text: &mut Vec<u8>) -> Result<(), AllocError>
    ensures { OnOk result (text.new.items ≡ text.old.items ++ tripling_text number) }
{
    text.extend_from_slice(b"#pragma oss task inout(")?;
    write_section(alloc, number, text)?;
    text.extend_from_slice(b")\n")?;
    write_loop(alloc, number, text)?;
    write_with_number(alloc, b"a[i] = a[i] * 3 + ", number, text)?;
    text.extend_from_slice(b";\n")
}

/// Writes a task that creates a task for each of its cells, which adds the number.
#[tactic(auto, unfolding(crate::specs::Generated::nesting_text))]
fn write_nesting(alloc: Global, number: u8, text: &mut Vec<u8>) -> Result<(), AllocError>
    ensures { OnOk result (text.new.items ≡ text.old.items ++ nesting_text number) }
{
    text.extend_from_slice(b"#pragma oss task weakinout(")?;
    write_section(alloc, number, text)?;
    text.extend_from_slice(b")\n")?;
    write_loop(alloc, number, text)?;
    write_with_number(
        alloc,
        b"{\n#pragma oss task inout(a[i])\na[i] += ",
        number,
        text,
    )?;
    text.extend_from_slice(b";\n}\n")
}

/// Writes a task that adds its cells to the sum.
#[tactic(auto, unfolding(crate::specs::Generated::summing_text))]
fn write_summing(alloc: Global, number: u8, text: &mut Vec<u8>) -> Result<(), AllocError>
    ensures { OnOk result (text.new.items ≡ text.old.items ++ summing_text number) }
{
    text.extend_from_slice(b"#pragma oss task in(")?;
    write_section(alloc, number, text)?;
    text.extend_from_slice(b") reduction(+: s)\n")?;
    write_loop(alloc, number, text)?;
    text.extend_from_slice(b"s += a[i];\n")
}

/// Writes the section of a task's cells.
#[tactic(auto, unfolding(crate::specs::Generated::section_text))]
fn write_section(alloc: Global, number: u8, text: &mut Vec<u8>) -> Result<(), AllocError>
    ensures { OnOk result (text.new.items ≡ text.old.items ++ section_text number) }
{
    write_with_number(alloc, b"a[", first_cell(number), text)?;
    write_with_number(alloc, b";", cell_count(number), text)?;
    text.extend_from_slice(b"]")
}

/// Writes the head of a loop over a task's cells.
#[tactic(auto, unfolding(crate::specs::Generated::loop_text))]
fn write_loop(alloc: Global, number: u8, text: &mut Vec<u8>) -> Result<(), AllocError>
    ensures { OnOk result (text.new.items ≡ text.old.items ++ loop_text number) }
{
    write_with_number(alloc, b"for (long i = ", first_cell(number), text)?;
    write_with_number(alloc, b"; i < ", cell_behind(number), text)?;
    text.extend_from_slice(b"; i++) ")?;
    Ok(())
}

/// Writes words and a number behind them.
fn write_with_number(
    alloc: Global,
    words: &[u8],
    number: u8,
    text: &mut Vec<u8>,
) -> Result<(), AllocError>
    ensures { OnOk result (text.new.items ≡ text.old.items ++ words.now ++ decimal number) }
{
    text.extend_from_slice(words)?;
    let digits = format!(in alloc; "{number}")?;
    text.extend_from_slice(digits.as_bytes())
}
