//! A main that makes one task, with two cells, and the field's calls for it.

use crate::trials::{main_job, make_once, touch_once};
use oss_code::{Code, CodeParts, GlobalPlace, Instr, SectionBase, SectionForm};
use oss_field::Field;
use oss_meaning::Declared;
use oss_syntax::{Cells, List, Mode, NumKind, Range};
use std::process::Abort;

/// A list of these numbers.
fn numbers(rt: &(impl Abort + AllocGlobal), numbers: &[u32]) -> List<u32> {
    List::from_vec(Vec::from_slice(rt.alloc(), numbers).expect(rt, "memory"))
}

/// The code of a main over three cells that makes a task with `inout` of two of them, and ends. The task loads its first
/// cell, stores 9 in it, loads it again, and ends.
fn code(rt: &(impl Abort + AllocGlobal)) -> Code {
    let inout = Declared {
        mode: Mode::Write,
        strong: true,
        fresh: false,
    };
    let instrs = [
        Instr::Begin,
        Instr::Section(SectionBase::Global(0), SectionForm::Whole, inout),
        Instr::Create(2),
        Instr::Nothing,
        Instr::Return,
        Instr::Address(0),
        Instr::Load,
        Instr::Drop,
        Instr::Address(0),
        Instr::Push(9),
        Instr::Store(NumKind::Long),
        Instr::Address(0),
        Instr::Load,
        Instr::Drop,
        Instr::Nothing,
        Instr::Return,
    ];
    let globals = [
        GlobalPlace {
            range: Range { lo: 0, hi: 2 },
            columns: None,
        },
        GlobalPlace {
            range: Range { lo: 2, hi: 3 },
            columns: None,
        },
    ];
    let parts = CodeParts {
        instrs: List::from_vec(Vec::from_array(rt.alloc(), instrs).expect(rt, "memory")),
        lines: numbers(rt, &[1, 1, 1, 6, 6, 2, 2, 2, 3, 3, 3, 4, 4, 4, 5, 5]),
        depths: numbers(rt, &[0, 0, 0, 0, 1, 0, 1, 1, 0, 1, 2, 0, 1, 1, 0, 1]),
        first: Cells::from_vec(vec![in rt.alloc(); 4, 5, 6].expect(rt, "memory")),
        globals: List::from_vec(Vec::from_slice(rt.alloc(), &globals).expect(rt, "memory")),
        functions: numbers(rt, &[]),
    };
    Code::build(rt.alloc(), parts).expect(rt, "a code")
}

/// Main makes the task, which is told at once. Its load finds what the cell is at the start, and the load after its store
/// what was stored. Nothing is left to touch then.
#[test]
fn a_task_that_was_made_touches_its_cells(rt: HostRuntime) {
    let code = code(&rt);
    if code.first().len() > 1_048_576 {
        return;
    }
    let job = main_job(rt.alloc(), &code, 100).expect(&rt, "memory");
    let (field, mut seat) = Field::new(rt.alloc(), &code, 100, 4, job).expect(&rt, "memory");
    let mut news = Vec::new(rt.alloc());
    let made = make_once(rt.alloc(), &field, &mut seat, &code, 100, 0, &mut news).expect(
        &rt, "memory",
    );
    assert!(rt; made == Some(1) && news.as_slice() == [1].as_slice());
    drop(news);
    let found = touch_once(&field, &mut seat, &code, 100, 1).expect(&rt, "memory");
    assert!(rt; found == Some(4));
    let stored = touch_once(&field, &mut seat, &code, 100, 1).expect(&rt, "memory");
    assert!(rt; stored == Some(9));
    let found = touch_once(&field, &mut seat, &code, 100, 1).expect(&rt, "memory");
    assert!(rt; found == Some(9));
    let over = touch_once(&field, &mut seat, &code, 100, 1).expect(&rt, "memory");
    assert!(rt; over.is_none());
    drop(seat);
    drop(field);
    drop(code);
}

/// The task wants three entries, and two are left: it is not made, and no job has its number.
#[test]
fn a_task_wants_an_entry_for_each_cell(rt: HostRuntime) {
    let code = code(&rt);
    if code.first().len() > 1_048_576 {
        return;
    }
    let job = main_job(rt.alloc(), &code, 100).expect(&rt, "memory");
    let (field, mut seat) = Field::new(rt.alloc(), &code, 100, 3, job).expect(&rt, "memory");
    let mut news = Vec::new(rt.alloc());
    let made = make_once(rt.alloc(), &field, &mut seat, &code, 100, 0, &mut news).expect(
        &rt, "memory",
    );
    assert!(rt; made.is_none() && news.is_empty());
    drop(news);
    let nobody = touch_once(&field, &mut seat, &code, 100, 1).expect(&rt, "memory");
    assert!(rt; nobody.is_none());
    drop(seat);
    drop(field);
    drop(code);
}
