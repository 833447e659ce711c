//! Where the creations of a code lead.

ghost use Rattle.std.specs.Prelude.{◌≡◌, ◌+◌, ◌<◌, ◌^◌, ◌++◌, IfOk, IsOk, OnOk};
ghost use Rattle.oss_labels.specs.Creations.{created_at, creations};

use oss_code::{Code, Instr};
use std::alloc::{AllocError, Global};

/// Where the bodies of the tasks begin that a code creates, in the order in which the creations stand in it.
pub(crate) fn creations(alloc: Global, code: &Code) -> Result<Vec<u32>, AllocError>
    ensures { IfOk result (λ entries. entries.items ≡ creations 0 code.now.instrs) }
{
    let mut entries = Vec::new(alloc);
    let count = code.len();
    for at in 0..count {
        match code.get(at) {
            Some(instr) => add(at, instr, &mut entries)?,
            None => unreachable!(),
        }
    }
    Ok(entries)
}

/// Adds where the body begins of the task that this instruction creates, if it creates one.
fn add(at: usize, instr: &Instr, entries: &mut Vec<u32>) -> Result<(), AllocError>
    ensures { OnOk result (entries.new.items ≡ entries.old.items ++ created_at at instr.now) }
{
    if let Instr::Create(passed) = instr {
        entries.push(entry_behind(at, *passed)?)?;
    }
    Ok(())
}

/// Where the body begins of a task that is created at this place. It takes no memory, and a place of 4,294,967,296 or more
/// is told as want of it.
fn entry_behind(at: usize, passed: u32) -> Result<u32, AllocError>
    ensures entry { IfOk result (λ to. to ≡ at + 1 + passed) }
    ensures fits { at + 1 + passed < 2 ^ 32 → IsOk result }
{
    let Some(next) = at.checked_add(1) else {
        return Err(AllocError);
    };
    let Some(to) = next.checked_add(passed as usize) else {
        return Err(AllocError);
    };
    match u32::try_from(to) {
        Ok(entry) => Ok(entry),
        Err(_) => Err(AllocError),
    }
}
