//! The text of a generated program.

ghost use Rattle.std.specs.Prelude.{◌≡◌, ◌≤◌, IfOk};
ghost use Rattle.oss_gen.specs.Generated.{generated_text};

use crate::tasks::write_tasks;
use oss_syntax::Bytes;
use std::alloc::{AllocError, Global};

/// The text of the program with so many tasks that `main` creates, 1 to 9000. Two starts that are alike modulo
/// 256 give one text. Want of memory is the one error.
#[tactic(auto, unfolding(crate::specs::Generated::head_text, crate::specs::Generated::end_text))]
pub fn generated(alloc: Global, start: u64, size: u32) -> Result<Bytes, AllocError>
    requires some { 1 ≤ size }
    requires most { size ≤ 9000 }
    ensures { IfOk result (λ text. text ≡ generated_text start size) }
{
    let mut text = Vec::from_slice(alloc, b"long a[16], s, t;\nint main() {\n")?;
    write_tasks(alloc, size, (start % 256) as u8, &mut text)?;
    text.extend_from_slice(b"#pragma oss taskwait\n")?;
    text.extend_from_slice(b"for (long i = 0; i < 16; i++) t += a[i];\n")?;
    text.extend_from_slice(b"printf(\"%ld %ld\\n\", s, t);\n}\n")?;
    Ok(Bytes::from_vec(text))
}
