//! Rushes of a main that was worked by hand: it stores 7 in its one cell after each second tick, without end.

use oss_body::{Act, Body, main_body};
use oss_code::{Code, CodeParts, GlobalPlace, Instr};
use oss_syntax::{Cells, FaultKind, List, NumKind, Range};
use std::process::Abort;

/// A list of these numbers.
fn numbers(rt: &(impl Abort + AllocGlobal), numbers: &[u32]) -> List<u32> {
    List::from_vec(Vec::from_slice(rt.alloc(), numbers).expect(rt, "memory"))
}

/// The code of the main.
fn code(rt: &(impl Abort + AllocGlobal)) -> Code {
    let instrs = [
        Instr::Tick,
        Instr::Address(0),
        Instr::Push(7),
        Instr::Store(NumKind::Long),
        Instr::Again(4),
    ];
    let globals = [GlobalPlace {
        range: Range { lo: 0, hi: 1 },
        columns: None,
    }];
    let parts = CodeParts {
        instrs: List::from_vec(Vec::from_array(rt.alloc(), instrs).expect(rt, "memory")),
        lines: numbers(rt, &[1, 2, 2, 2, 3]),
        depths: numbers(rt, &[0, 0, 1, 2, 0]),
        first: Cells::from_vec(vec![in rt.alloc(); 0].expect(rt, "memory")),
        globals: List::from_vec(Vec::from_slice(rt.alloc(), &globals).expect(rt, "memory")),
        functions: numbers(rt, &[]),
    };
    Code::build(rt.alloc(), parts).expect(rt, "a code")
}

/// The body of main at its start, with fuel for so many ticks.
fn begun(rt: &(impl Abort + AllocGlobal), code: &Code, fuel: u32) -> Body {
    assert!(rt; code.first().len() <= 1_048_576);
    main_body(rt.alloc(), code, fuel).expect(rt, "memory")
}

/// With fuel for five ticks there are three stores among them, and the sixth tick is a fault.
#[test]
fn stops_before_a_fault(rt: HostRuntime) {
    let code = code(&rt);
    let mut body = begun(&rt, &code, 5);
    let mut cells = vec![in rt.alloc(); 0].expect(&rt, "memory");
    assert!(rt; !body.ended());
    let count = body.rush(&code, &mut cells, 100);
    assert_eq!(rt; count, 8);
    assert!(rt; cells.as_slice() == [7].as_slice());
    match body.pending() {
        Act::Fault { kind, line, .. } => {
            assert!(rt; *kind == FaultKind::OutOfFuel && *line == 3);
        }
        _ => panic!(rt; "there is no fuel left"),
    }
    drop(body);
    drop(code);
}

/// The second act is the first store.
#[test]
fn stops_where_it_is_told(rt: HostRuntime) {
    let code = code(&rt);
    let mut body = begun(&rt, &code, 5);
    let mut cells = vec![in rt.alloc(); 0].expect(&rt, "memory");
    assert!(rt; !body.ended());
    let count = body.rush(&code, &mut cells, 1);
    assert_eq!(rt; count, 1);
    assert!(rt; cells.as_slice() == [0].as_slice());
    assert!(rt; matches!(body.pending(), Act::Store(0, 7)));
    drop(body);
    drop(code);
}
