//! From the text of a program to its code, and runs of it one task after the other.

ghost use Rattle.std.specs.Prelude.{◌≤◌, length};

use oss_code::Code;
use oss_lower::lower;
use oss_model::Answer;
use oss_names::{Known, resolve};
use oss_parse::parse;
use oss_serial::serial;
use std::process::Abort;

/// What is known of the program of a text.
pub(crate) fn known(rt: &(impl Abort + AllocGlobal), text: &str) -> Known {
    assert!(rt; text.len() <= 1_048_576);
    let program = match parse(rt.alloc(), text.as_bytes()) {
        Ok(program) => program,
        Err(refusal) => panic!(rt; "{refusal:?} of {text}"),
    };
    match resolve(rt.alloc(), program) {
        Ok(known) => known,
        Err(refusal) => panic!(rt; "{refusal:?} of {text}"),
    }
}

/// The code of the program of a text.
pub(crate) fn code_of(rt: &(impl Abort + AllocGlobal), text: &str) -> Code
    ensures { length result.first ≤ 1048576 }
{
    let known = known(rt, text);
    lower(rt.alloc(), &known).expect(rt, "memory")
}

/// The answer of the sequential run of a code.
pub(crate) fn serial_answer(rt: &(impl Abort + AllocGlobal), code: &Code, fuel: u32) -> Answer
    requires { length code.now.first ≤ 1048576 }
{
    let ran = serial(rt.alloc(), code, fuel).expect(rt, "memory");
    ran.answer
}
