//! What a body shows of the task that acts: its context, what it asks, and the accesses of a task that it is about to
//! create; and that a body for which memory is wanting stays as it was. Over a main that was written by hand, which
//! creates a task with `out` of three cells in line 3.

ghost use Rattle.std.specs.Prelude.{◌≡◌, false};
ghost use Rattle.oss_body.specs.Relation.{is_over};

use oss_body::{Act, Body, main_body};
use oss_code::{Code, CodeParts, GlobalPlace, Instr, SectionBase, SectionForm};
use oss_judge::Right;
use oss_machine::Ask;
use oss_meaning::Declared;
use oss_syntax::{Access, Cells, List, Mode, Range};
use std::process::Abort;

/// A list of these numbers.
fn numbers(rt: &(impl Abort + AllocGlobal), numbers: &[u32]) -> List<u32> {
    List::from_vec(Vec::from_slice(rt.alloc(), numbers).expect(rt, "memory"))
}

/// The code of the main.
fn code(rt: &(impl Abort + AllocGlobal)) -> Code {
    let out = Declared {
        mode: Mode::Write,
        strong: true,
        fresh: true,
    };
    let instrs = [
        Instr::Begin,
        Instr::Section(SectionBase::Global(0), SectionForm::Whole, out),
        Instr::Create(2),
        Instr::Nothing,
        Instr::Return,
        Instr::Nothing,
        Instr::Return,
    ];
    let globals = [GlobalPlace {
        range: Range { lo: 0, hi: 3 },
        columns: None,
    }];
    let parts = CodeParts {
        instrs: List::from_vec(Vec::from_array(rt.alloc(), instrs).expect(rt, "memory")),
        lines: numbers(rt, &[3, 3, 3, 4, 4, 5, 5]),
        depths: numbers(rt, &[0, 0, 0, 0, 1, 0, 1]),
        first: Cells::from_vec(vec![in rt.alloc(); 0, 0, 0].expect(rt, "memory")),
        globals: List::from_vec(Vec::from_slice(rt.alloc(), &globals).expect(rt, "memory")),
        functions: numbers(rt, &[]),
    };
    Code::build(rt.alloc(), parts).expect(rt, "a code")
}

/// The body of main at its start, with so much fuel.
fn begun(rt: &(impl Abort + AllocGlobal), code: &Code, fuel: u32) -> Body {
    assert!(rt; code.first().len() <= 1_048_576);
    main_body(rt.alloc(), code, fuel).expect(rt, "memory")
}

/// The accesses are one `out` of the cells 0 to 2.
fn is_out_of_three(accesses: &[Access]) -> bool {
    match accesses.first() {
        Some(access) => {
            accesses.len() == 1
                && access.range.lo == 0
                && access.range.hi == 3
                && access.mode == Mode::Write
                && access.strong
                && access.fresh
        }
        None => false,
    }
}

#[test]
fn a_body_shows_who_acts(rt: HostRuntime) {
    let code = code(&rt);
    let body = begun(&rt, &code, 100);
    assert!(rt; !body.ended());
    let acting = body.acting();
    assert!(rt; acting.fuel() == 100);
    let (right, end) = acting.right_run(0, 9);
    assert!(rt; right == Right::Holds(Mode::Write, true) && end == 3);
    let (right, _) = acting.right_run(3, 9);
    assert!(rt; right == Right::Nothing);
    drop(body);
    drop(code);
}

#[test]
fn a_body_shows_what_is_asked(rt: HostRuntime) {
    let code = code(&rt);
    let body = begun(&rt, &code, 100);
    assert!(rt; !body.ended());
    assert!(rt; matches!(body.asked(), Ask::Create(_)));
    assert!(rt; body.line() == 3);
    match body.pending() {
        Act::Create { creation, .. } => {
            let accesses = creation.get().accesses().expect(&rt, "memory");
            assert!(rt; is_out_of_three(accesses.as_slice()));
        }
        _ => panic!(rt; "main creates a task"),
    }
    drop(body);
    drop(code);
}

/// How many bytes the first pieces of a hoard have.
const LARGEST: usize = 17_179_869_184;

/// How many pieces a hoard has at most.
const MOST: usize = 262_144;

/// All memory that there is, in smaller and smaller pieces.
fn hoard(rt: &(impl Abort + AllocGlobal)) -> Vec<Vec<u8>> {
    let mut pieces = Vec::with_capacity(rt.alloc(), MOST).expect(rt, "memory");
    let mut size = LARGEST;
    for _ in 0..32 {
        take_all(rt, size, &mut pieces);
        size /= 2;
    }
    pieces
}

/// Takes pieces of this size until there is none.
fn take_all(rt: &(impl Abort + AllocGlobal), size: usize, pieces: &mut Vec<Vec<u8>>) {
    for _ in 0..MOST {
        match Vec::with_capacity(rt.alloc(), size) {
            Ok(piece) => pieces.push(piece).expect(rt, "room"),
            Err(_) => return,
        }
    }
}

/// The body is about to create the task, in line 3.
fn creates_out_of_three(rt: &(impl Abort + AllocGlobal), body: &Body) -> bool
    requires { is_over body.now ≡ false }
{
    match body.pending() {
        Act::Create { creation, .. } => {
            let accesses = creation.get().accesses().expect(rt, "memory");
            body.line() == 3 && is_out_of_three(accesses.as_slice())
        }
        _ => false,
    }
}

#[test]
fn a_body_without_memory_stays(rt: HostRuntime) {
    let code = code(&rt);
    let mut body = begun(&rt, &code, 100);
    assert!(rt; !body.ended());
    assert!(rt; creates_out_of_three(&rt, &body));
    assert!(rt; !matches!(body.pending(), Act::Fault { .. }));
    let all = hoard(&rt);
    let wanting = body.advance(&code, 0).is_err();
    drop(all);
    assert!(rt; wanting);
    assert!(rt; !body.ended());
    assert!(rt; creates_out_of_three(&rt, &body));
    assert!(rt; !matches!(body.pending(), Act::Fault { .. }));
    body.advance(&code, 0).expect(&rt, "memory");
    assert!(rt; !body.ended());
    assert!(rt; !matches!(body.pending(), Act::Create { .. }));
    drop(body);
    drop(code);
}
