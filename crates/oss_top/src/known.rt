//! From the text of a program to what is known of it.

ghost use Rattle.std.specs.Prelude.{◌≤◌, length};
ghost use Rattle.oss_top.specs.ProgramTexts.{IsKnown};

use oss_names::{Known, resolve};
use oss_parse::parse;
use oss_syntax::Refusal;
use std::alloc::Global;

/// Reads the text of a program and checks its static rules. `Refused` comes exactly where the text is refused.
pub(crate) fn known(alloc: Global, text: &[u8]) -> Result<Known, Refusal>
    requires { length text.now ≤ 1048576 }
    ensures { IsKnown text.now result }
{
    match parse(alloc, text) {
        Ok(program) => resolve(alloc, program),
        Err(refusal) => Err(refusal),
    }
}
