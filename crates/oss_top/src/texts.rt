//! The lines that the top call tells of words, of files and of a check.

ghost use Rattle.std.specs.Prelude.{◌≡◌, ◌++◌, IfOk};
ghost use Rattle.oss_command.specs.Commands.{usage_line};
ghost use Rattle.oss_top.specs.Forms.{accepted_line, no_fault_line, tasks_line, unread_line};

use oss_syntax::Bytes;
use std::alloc::{AllocError, Global};

/// The usage line.
pub(crate) fn usage(alloc: Global) -> Result<Bytes, AllocError>
    ensures { IfOk result (λ line. line ≡ usage_line) }
{
    Bytes::from_slice(
        alloc,
        b"usage: nest6 run FILE | check FILE | trace FILE | replay FILE SCHEDULE | soak NUMBER SIZE | span FILE | audit FILE\n",
    )
}

/// `cannot read FILE`
pub(crate) fn unread(alloc: Global, file: &str) -> Result<Bytes, AllocError>
    ensures { IfOk result (λ line. line ≡ unread_line file.now) }
{
    let mut line = Vec::from_slice(alloc, b"cannot read ")?;
    line.extend_from_slice(file.as_bytes())?;
    line.push(b'\n')?;
    Ok(Bytes::from_vec(line))
}

/// `ok`
pub(crate) fn accepted(alloc: Global) -> Result<Bytes, AllocError>
    ensures { IfOk result (λ line. line ≡ accepted_line) }
{
    Bytes::from_slice(alloc, b"ok\n")
}

/// `no fault`
pub(crate) fn no_fault(alloc: Global) -> Result<Bytes, AllocError>
    ensures { IfOk result (λ line. line ≡ no_fault_line) }
{
    Bytes::from_slice(alloc, b"no fault\n")
}

/// `tasks T`, and the output behind it.
pub(crate) fn counted(alloc: Global, tasks: u64, output: &Bytes) -> Result<Bytes, AllocError>
    ensures { IfOk result (λ text. text ≡ tasks_line tasks ++ output.now) }
{
    let line = format!(in alloc; "tasks {tasks}\n")?;
    let mut text = Bytes::from_slice(alloc, line.as_bytes())?;
    text.extend(output.as_slice())?;
    Ok(text)
}
