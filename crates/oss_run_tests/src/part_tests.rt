//! Parts of main, worked by hand.

ghost use Rattle.oss_segment.specs.Segments.{IsKnown};

use oss_code::{Code, CodeParts, GlobalPlace, Instr};
use oss_grammar::Piece;
use oss_kept_tasks::BoxedBody;
use oss_segment::{Segment, segment_of};
use oss_syntax::{Cells, List, NumKind, Range};
use std::process::Abort;

/// A list of these numbers.
fn numbers(rt: &(impl Abort + AllocGlobal), numbers: &[u32]) -> List<u32> {
    List::from_vec(Vec::from_slice(rt.alloc(), numbers).expect(rt, "memory"))
}

/// A code with one cell, which is a global, of these instructions, all on one line, with these depths.
fn code(rt: &(impl Abort + AllocGlobal), instrs: Vec<Instr>, depths: &[u32]) -> Code {
    let lines = vec![in rt.alloc(); 1u32; depths.len()].expect(rt, "memory");
    let globals = [GlobalPlace {
        range: Range { lo: 0, hi: 1 },
        columns: None,
    }];
    let parts = CodeParts {
        instrs: List::from_vec(instrs),
        lines: List::from_vec(lines),
        depths: numbers(rt, depths),
        first: Cells::from_vec(vec![in rt.alloc(); 4].expect(rt, "memory")),
        globals: List::from_vec(Vec::from_slice(rt.alloc(), &globals).expect(rt, "memory")),
        functions: numbers(rt, &[]),
    };
    Code::build(rt.alloc(), parts).expect(rt, "a code")
}

/// The body of main at its start, with fuel for so many ticks.
fn begun(rt: &(impl Abort + AllocGlobal), code: &Code, fuel: u32) -> BoxedBody
    ensures { IsKnown code.now result }
{
    assert!(rt; code.first().len() <= 1_048_576);
    BoxedBody::main(rt.alloc(), code, fuel).expect(rt, "memory")
}

/// The part of a body over one cell, in which 4 stands, under a quota of 4,096 ticks.
fn part(rt: &(impl Abort + AllocGlobal), code: &Code, body: BoxedBody) -> Segment
    requires { IsKnown code.now body }
    ensures { IsKnown code.now result.body }
{
    segment_of(rt.alloc(), code, body, &[4], 4096).expect(rt, "memory")
}

/// Main asks for ticks without end, and has fuel for 5,000.
#[test]
fn stops_at_the_tick_behind_the_quota(rt: HostRuntime) {
    let instrs = vec![in rt.alloc(); Instr::Again(0)].expect(&rt, "memory");
    let code = code(&rt, instrs, &[0]);
    let first = part(&rt, &code, begun(&rt, &code, 5000));
    assert_eq!(rt; first.count, 4096);
    let Segment { body, .. } = first;
    let second = part(&rt, &code, body);
    assert_eq!(rt; second.count, 904);
    drop(second);
    drop(code);
}

/// A print of one letter.
fn print(rt: &(impl Abort + AllocGlobal), letter: u8) -> Instr {
    let pieces = vec![in rt.alloc(); Piece::Plain(letter)].expect(rt, "memory");
    Instr::Print {
        pieces: List::from_vec(pieces),
        arguments: 0,
    }
}

/// Main stores 5, creates a task, prints, waits and ends.
#[test]
fn goes_past_a_wait_that_comes_first(rt: HostRuntime) {
    let instrs = [
        Instr::Address(0),
        Instr::Push(5),
        Instr::Store(NumKind::Long),
        Instr::Begin,
        Instr::Create(4),
        print(&rt, b'm'),
        Instr::Wait,
        Instr::Nothing,
        Instr::Return,
        Instr::Nothing,
        Instr::Return,
    ];
    let instrs = Vec::from_array(rt.alloc(), instrs).expect(&rt, "memory");
    let code = code(&rt, instrs, &[0, 1, 2, 0, 0, 0, 0, 0, 1, 0, 1]);
    let first = part(&rt, &code, begun(&rt, &code, 100));
    assert_eq!(rt; first.count, 3);
    assert!(rt; first.writes.get(0) == Some(5) && first.writes.get(1).is_none());
    assert!(rt; first.children.len() == 1 && !first.children[0].begun());
    assert!(rt; first.prints.len() == 1 && first.prints[0].text.as_slice() == b"m".as_slice());
    assert!(rt; first.prints[0].at.as_slice() == [0, 1].as_slice());
    let Segment { body, .. } = first;
    let second = part(&rt, &code, body);
    assert!(rt; second.count == 2 && second.body.ended());
    drop(second);
    drop(code);
}
