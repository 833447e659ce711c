//! Codes beside what was worked by hand.

use oss_code::{Code, CodeParts, GlobalPlace, Instr, Operator};
use oss_syntax::{BinOp, Cells, List, Range};
use std::process::Abort;

/// The sum of two signed numbers.
const SUM: Operator = Operator {
    op: BinOp::Add,
    left_unsigned: false,
    right_unsigned: false,
};

/// A list of these numbers.
fn numbers(rt: &(impl Abort + AllocGlobal), numbers: &[u32]) -> List<u32> {
    List::from_vec(Vec::from_slice(rt.alloc(), numbers).expect(rt, "memory"))
}

/// The code with these instructions, lines, depths and beginnings of functions, over a global of two cells.
fn built<const N: usize>(
    rt: &(impl Abort + AllocGlobal),
    instrs: [Instr; N],
    lines: &[u32],
    depths: &[u32],
    functions: &[u32],
) -> Option<Code> {
    let place = GlobalPlace {
        range: Range { lo: 1, hi: 3 },
        columns: None,
    };
    Code::build(
        rt.alloc(),
        CodeParts {
            instrs: List::from_vec(Vec::from_array(rt.alloc(), instrs).expect(rt, "memory")),
            lines: numbers(rt, lines),
            depths: numbers(rt, depths),
            first: Cells::from_vec(vec![in rt.alloc(); 5, 0, 7].expect(rt, "memory")),
            globals: List::from_vec(vec![in rt.alloc(); place].expect(rt, "memory")),
            functions: numbers(rt, functions),
        },
    )
}

/// Whether there is such a code, each instruction on line 1.
fn is_code<const N: usize>(
    rt: &(impl Abort + AllocGlobal),
    instrs: [Instr; N],
    depths: &[u32],
    functions: &[u32],
) -> bool {
    built(rt, instrs, &[1; N], depths, functions).is_some()
}

/// `1 + 2`, which the body gives to its caller.
fn sum(rt: &(impl Abort + AllocGlobal)) -> Option<Code> {
    let instrs = [
        Instr::Push(1),
        Instr::Push(2),
        Instr::Apply(SUM),
        Instr::Return,
    ];
    built(rt, instrs, &[3, 4, 5, 6], &[0, 1, 2, 1], &[0, 0])
}

#[test]
fn a_code_has_its_instructions(rt: HostRuntime) {
    let Some(code) = sum(&rt) else {
        panic!(rt; "no code");
    };
    assert_eq!(rt; code.len(), 4);
    assert!(rt; matches!(code.instr(1), Instr::Push(2)));
    assert!(rt; code.get(3).is_some());
    assert!(rt; code.get(4).is_none());
    assert_eq!(rt; code.line_of(2), 5);
    assert_eq!(rt; code.line(3), Some(6));
    assert_eq!(rt; code.line(4), None);
    drop(code);
}

#[test]
fn a_code_has_what_stands_beside(rt: HostRuntime) {
    let Some(code) = sum(&rt) else {
        panic!(rt; "no code");
    };
    assert_eq!(rt; code.deepest(), 2);
    assert_eq!(rt; code.first().as_slice(), [5, 0, 7].as_slice());
    assert_eq!(rt; code.function(1), Some(0));
    assert_eq!(rt; code.function(2), None);
    assert!(rt; code.global(0).is_some());
    assert!(rt; code.global(1).is_none());
    drop(code);
}

#[test]
fn a_loop_and_a_task_are_codes(rt: HostRuntime) {
    let turns = [
        Instr::Push(1),
        Instr::SkipUnless(1),
        Instr::Again(2),
        Instr::Nothing,
        Instr::Return,
    ];
    assert!(rt; is_code(&rt, turns, &[0, 1, 0, 0, 1], &[0]));
    let task = [
        Instr::Begin,
        Instr::Create(2),
        Instr::Nothing,
        Instr::Return,
        Instr::Nothing,
        Instr::Return,
    ];
    assert!(rt; is_code(&rt, task, &[0, 0, 0, 1, 0, 1], &[]));
}

#[test]
fn lists_of_other_lengths_are_no_code(rt: HostRuntime) {
    let line_missing = built(&rt, [Instr::Push(1), Instr::Return], &[1], &[0, 1], &[]).is_some();
    assert!(rt; !line_missing);
    let depth_too_many = is_code(&rt, [Instr::Push(1), Instr::Return], &[0, 1, 0], &[]);
    assert!(rt; !depth_too_many);
    let nothing = is_code(&rt, [], &[], &[]);
    assert!(rt; !nothing);
}

#[test]
fn ways_that_lead_out_are_no_code(rt: HostRuntime) {
    let past_the_end = [
        Instr::Push(1),
        Instr::SkipUnless(2),
        Instr::Push(1),
        Instr::Return,
    ];
    assert!(rt; !is_code(&rt, past_the_end, &[0, 1, 0, 1], &[]));
    let last_leads_on = [Instr::Push(1)];
    assert!(rt; !is_code(&rt, last_leads_on, &[0], &[]));
    let before_the_beginning = [Instr::Again(1), Instr::Push(1), Instr::Return];
    assert!(rt; !is_code(&rt, before_the_beginning, &[0, 0, 1], &[]));
}

#[test]
fn values_that_are_not_there_are_no_code(rt: HostRuntime) {
    let sum_of_one = [Instr::Push(1), Instr::Apply(SUM), Instr::Return];
    assert!(rt; !is_code(&rt, sum_of_one, &[0, 1, 1], &[]));
    let two_depths = [
        Instr::Push(1),
        Instr::SkipUnless(1),
        Instr::Push(2),
        Instr::Push(3),
        Instr::Return,
    ];
    assert!(rt; !is_code(&rt, two_depths, &[0, 1, 0, 1, 2], &[]));
    let value_at_first = [Instr::Push(1), Instr::Return];
    assert!(rt; !is_code(&rt, value_at_first, &[1, 2], &[]));
}

#[test]
fn entries_that_are_not_there_are_no_code(rt: HostRuntime) {
    let function_behind_the_end = [Instr::Push(1), Instr::Return];
    assert!(rt; !is_code(&rt, function_behind_the_end, &[0, 1], &[2]));
    let call_of_none = [
        Instr::Call {
            function: 1,
            arguments: 0,
        },
        Instr::Return,
    ];
    assert!(rt; !is_code(&rt, call_of_none, &[0, 1], &[0]));
    let task_with_a_value = [Instr::Push(1), Instr::Create(0), Instr::Return];
    assert!(rt; !is_code(&rt, task_with_a_value, &[0, 1, 1], &[]));
}
