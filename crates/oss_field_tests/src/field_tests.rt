//! A field in which main alone stores and loads, entries that are drawn in it, and seats that come and go.

use crate::trials::{draw_apart, main_job, touch_once};
use oss_code::{Code, CodeParts, GlobalPlace, Instr};
use oss_field::Field;
use oss_syntax::{Cells, List, NumKind, Range};
use std::process::Abort;

/// A list of these numbers.
fn numbers(rt: &(impl Abort + AllocGlobal), numbers: &[u32]) -> List<u32> {
    List::from_vec(Vec::from_slice(rt.alloc(), numbers).expect(rt, "memory"))
}

/// The code of a main over three cells that stores 9 in the first, loads it, and ends.
fn code(rt: &(impl Abort + AllocGlobal)) -> Code {
    let instrs = [
        Instr::Address(0),
        Instr::Push(9),
        Instr::Store(NumKind::Long),
        Instr::Address(0),
        Instr::Load,
        Instr::Drop,
        Instr::Nothing,
        Instr::Return,
    ];
    let globals = [GlobalPlace {
        range: Range { lo: 0, hi: 3 },
        columns: None,
    }];
    let parts = CodeParts {
        instrs: List::from_vec(Vec::from_array(rt.alloc(), instrs).expect(rt, "memory")),
        lines: numbers(rt, &[1, 1, 1, 2, 2, 2, 3, 3]),
        depths: numbers(rt, &[0, 1, 2, 0, 1, 1, 0, 1]),
        first: Cells::from_vec(vec![in rt.alloc(); 4, 5, 6].expect(rt, "memory")),
        globals: List::from_vec(Vec::from_slice(rt.alloc(), &globals).expect(rt, "memory")),
        functions: numbers(rt, &[]),
    };
    Code::build(rt.alloc(), parts).expect(rt, "a code")
}

/// A load finds what the store before it wrote, and not the first value of the cell. Only main has a job.
#[test]
fn a_load_finds_what_was_stored(rt: HostRuntime) {
    let code = code(&rt);
    if code.first().len() > 1_048_576 {
        return;
    }
    let job = main_job(rt.alloc(), &code, 100).expect(&rt, "memory");
    let (field, mut seat) = Field::new(rt.alloc(), &code, 100, 4, job).expect(&rt, "memory");
    let nobody = touch_once(&field, &mut seat, &code, 3).expect(&rt, "memory");
    assert!(rt; nobody.is_none());
    let stored = touch_once(&field, &mut seat, &code, 0).expect(&rt, "memory");
    assert!(rt; stored == Some(9));
    let found = touch_once(&field, &mut seat, &code, 0).expect(&rt, "memory");
    assert!(rt; found == Some(9));
    let over = touch_once(&field, &mut seat, &code, 0).expect(&rt, "memory");
    assert!(rt; over.is_none());
    drop(seat);
    drop(field);
    drop(code);
}

/// Entries are drawn one after the other, and whoever finds too few gets none. A word that nobody has used has no flag,
/// and its info names main. Beyond the last entry there is none.
#[test]
fn entries_are_drawn_in_turn(rt: HostRuntime) {
    let code = code(&rt);
    if code.first().len() > 1_048_576 {
        return;
    }
    let job = main_job(rt.alloc(), &code, 100).expect(&rt, "memory");
    let (field, mut seat) = Field::new(rt.alloc(), &code, 100, 4, job).expect(&rt, "memory");
    match field.draw(&mut seat, 2) {
        Some(entry) => {
            assert!(rt; entry == 1);
            let too_many = field.draw(&mut seat, 2);
            assert!(rt; too_many.is_none());
        }
        None => panic!(rt; "two entries are left"),
    }
    let flags = field.flags(&mut seat, 2);
    assert!(rt; flags == 0);
    match field.peek_info(2) {
        Some(info) => {
            assert!(rt; info.task == 0 && info.parent == 0);
        }
        None => panic!(rt; "the field has this entry"),
    }
    assert!(rt; field.peek_info(4).is_none());
    drop(seat);
    drop(field);
    drop(code);
}

/// A seat that was split off draws what comes next, and after it was joined the first seat draws on.
#[test]
fn a_seat_is_split_and_joined(rt: HostRuntime) {
    let code = code(&rt);
    if code.first().len() > 1_048_576 {
        return;
    }
    let job = main_job(rt.alloc(), &code, 100).expect(&rt, "memory");
    let (field, mut seat) = Field::new(rt.alloc(), &code, 100, 8, job).expect(&rt, "memory");
    let first = draw_apart(rt.alloc(), &field, &mut seat, 2).expect(&rt, "memory");
    assert!(rt; first == Some(1));
    let next = field.draw(&mut seat, 1);
    assert!(rt; next == Some(3));
    drop(seat);
    drop(field);
    drop(code);
}
