//! A program with one task, worked by hand: what it leaves unused, and the text of that.

use oss_audit::{audit, audit_lines};
use oss_code::{Code, CodeParts, Direction, GlobalPlace, Instr, SectionBase, SectionForm};
use oss_meaning::Declared;
use oss_model::Answer;
use oss_syntax::{Cells, List, Mode, NumKind, Range};
use std::process::Abort;
use std::test::Fail;

/// A clause `out`.
const OUT: Declared = Declared {
    mode: Mode::Write,
    strong: true,
    fresh: true,
};

/// A list of these numbers.
fn numbers(rt: &(impl Abort + AllocGlobal), numbers: &[u32]) -> List<u32> {
    List::from_vec(Vec::from_slice(rt.alloc(), numbers).expect(rt, "memory"))
}

/// The code of `long a[5];` and a `main` that creates a task with `out(a)`, which sets `a[2]` to 7.
fn code(rt: &(impl Abort + AllocGlobal)) -> Code {
    let instrs = [
        Instr::Begin,
        Instr::Section(SectionBase::Global(0), SectionForm::Whole, OUT),
        Instr::Create(2),
        Instr::Nothing,
        Instr::Return,
        Instr::Address(0),
        Instr::Push(2),
        Instr::Move(Direction::Forth),
        Instr::Push(7),
        Instr::Store(NumKind::Long),
        Instr::Nothing,
        Instr::Return,
    ];
    let globals = [GlobalPlace {
        range: Range { lo: 0, hi: 5 },
        columns: None,
    }];
    let parts = CodeParts {
        instrs: List::from_vec(Vec::from_array(rt.alloc(), instrs).expect(rt, "memory")),
        lines: numbers(rt, &[3, 3, 3, 5, 5, 4, 4, 4, 4, 4, 4, 4]),
        depths: numbers(rt, &[0, 0, 0, 0, 1, 0, 1, 2, 1, 2, 0, 1]),
        first: Cells::from_vec(vec![in rt.alloc(); 0, 0, 0, 0, 0].expect(rt, "memory")),
        globals: List::from_vec(Vec::from_slice(rt.alloc(), &globals).expect(rt, "memory")),
        functions: numbers(rt, &[]),
    };
    Code::build(rt.alloc(), parts).expect(rt, "a code")
}

#[test]
fn tells_what_a_task_leaves_unused(rt: HostRuntime) -> Result<(), Fail> {
    let code = code(&rt);
    assert!(rt; code.first().len() <= 1_048_576);
    let run = audit(rt.alloc(), &code, 100)?;
    let is_done = match &run.answer {
        Answer::Done(output, cells) => {
            output.as_slice().is_empty() && cells.as_slice() == [0, 0, 7, 0, 0].as_slice()
        }
        Answer::Fault(_, _, _) => false,
    };
    assert!(rt; is_done);
    let text = audit_lines(rt.alloc(), &run.unused)?;
    assert!(rt; text.as_slice() == b"unused 0.0 0 2\nunused 0.0 3 2\n# unused 4\n".as_slice());
    Ok(())
}
