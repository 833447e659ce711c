//! Worked programs as code: what their bodies do, and on which lines, where each load finds what it finds in
//! the sequential run.

mod made;

use made::{flow, nothing, wrap};
use oss_code::{Code, TaskOrder};
use oss_lower::lower;
use oss_machine::{Ask, Machine};
use oss_names::resolve;
use oss_syntax::{List, Program};
use std::process::Abort;

/// The code of a program that breaks no rule.
fn code(rt: &(impl Abort + AllocGlobal), program: Program) -> Code {
    let known = resolve(rt.alloc(), program).expect(rt, "a program that breaks no rule");
    let code = lower(rt.alloc(), &known).expect(rt, "memory for a code");
    drop(known);
    code
}

/// A letter for an ask: a tick, a creation, a load, a store, a fold, a wait, a print, the end. What begins a
/// creation has none.
fn letter(ask: &Ask) -> Option<u8> {
    match ask {
        Ask::Begin => None,
        Ask::Tick => Some(b'T'),
        Ask::Create(_) => Some(b'C'),
        Ask::Read(_) => Some(b'L'),
        Ask::Write(_, _) => Some(b'S'),
        Ask::Fold(_, _, _) => Some(b'F'),
        Ask::Wait => Some(b'W'),
        Ask::Print(_) => Some(b'P'),
        Ask::End => Some(b'E'),
        _ => Some(b'?'),
    }
}

/// The body that begins with this instruction does this, each act with the last digit of its line, where its
/// loads find this number.
fn assert_does(
    rt: &(impl Abort + AllocGlobal),
    code: &Code,
    entry: u32,
    found: u64,
    wanted: &[u8],
) {
    let order = TaskOrder {
        entry,
        copies: List::new(rt.alloc()),
        accesses: List::new(rt.alloc()),
        when: true,
        last: false,
        wait: false,
        priority: 0,
    };
    let mut machine = Machine::new(rt.alloc(), code, &order).expect(rt, "memory for a machine");
    let mut told = Vec::new(rt.alloc());
    for _ in 0..wanted.len() {
        if let Some(letter) = letter(machine.ask()) {
            told.push(letter).expect(rt, "memory for a letter");
            told.push(48 + (machine.line() % 10) as u8)
                .expect(rt, "memory for a digit");
        }
        if told.len() >= wanted.len() {
            break;
        }
        machine.answer(code, found).expect(rt, "memory for a step");
    }
    assert!(rt; told.as_slice() == wanted);
}

#[test]
fn an_empty_main(rt: HostRuntime) {
    let code = code(&rt, nothing(&rt, rt.alloc()));
    assert_eq!(rt; code.len(), 10);
    assert_does(&rt, &code, 0, 0, b"E1");
    drop(code);
}

/// The second task reads what the first one writes.
#[test]
fn a_flow_between_two_tasks(rt: HostRuntime) {
    let code = code(&rt, flow(&rt, rt.alloc()));
    assert_eq!(rt; code.len(), 50);
    assert_does(&rt, &code, 0, 6, b"T3C3T5C5T7W7T8L8P8E2");
    assert_does(&rt, &code, 15, 0, b"T4S4E3");
    assert_does(&rt, &code, 31, 5, b"T6L6S6E5");
    drop(code);
}

/// Four tasks fold, each created in a turn of a loop; another one prints.
#[test]
fn a_reduction_that_wraps(rt: HostRuntime) {
    let code = code(&rt, wrap(&rt, rt.alloc()));
    assert_eq!(rt; code.len(), 62);
    let main = b"T3T3T3T4C4T3T3T4C4T3T3T4C4T3T3T4C4T3T3T7C7E2";
    assert_does(&rt, &code, 0, 0, main);
    assert_does(&rt, &code, 29, 0, b"T5F5E4");
    assert_does(&rt, &code, 52, 0, b"T8L8P8E7");
    drop(code);
}
