//! Jobs over a main worked by hand: what is told at the start, after acts, here and on other threads, and after new
//! children.

ghost use Rattle.std.specs.Prelude.{◌≡◌, ◌<◌, IfOk};
ghost use Rattle.oss_body.specs.Acts.{goes_on};
ghost use Rattle.oss_jobs.specs.Entries.{cells_in};
ghost use Rattle.oss_judge.specs.Joined.{IsRising};

use oss_body::{Act, main_body};
use oss_code::{Code, CodeParts, GlobalPlace, Instr};
use oss_grammar::Piece;
use oss_jobs::{Job, count_cells};
use oss_judge::Right;
use oss_syntax::{Access, Cells, List, Mode, Range};
use std::alloc::{AllocError, Global};
use std::process::Abort;
use std::thread;
use std::thread::Threads;

/// A list of these numbers.
fn numbers(rt: &(impl Abort + AllocGlobal), numbers: &[u32]) -> List<u32> {
    List::from_vec(Vec::from_slice(rt.alloc(), numbers).expect(rt, "memory"))
}

/// A print of one letter.
fn print(rt: &(impl Abort + AllocGlobal), letter: u8) -> Instr {
    let pieces = vec![in rt.alloc(); Piece::Plain(letter)].expect(rt, "memory");
    Instr::Print {
        pieces: List::from_vec(pieces),
        arguments: 0,
    }
}

/// The code of a main over three cells that prints `x` and then `y`, and ends.
fn code(rt: &(impl Abort + AllocGlobal)) -> Code {
    let instrs = [
        print(rt, b'x'),
        print(rt, b'y'),
        Instr::Nothing,
        Instr::Return,
    ];
    let globals = [GlobalPlace {
        range: Range { lo: 0, hi: 3 },
        columns: None,
    }];
    let parts = CodeParts {
        instrs: List::from_vec(Vec::from_array(rt.alloc(), instrs).expect(rt, "memory")),
        lines: numbers(rt, &[1, 1, 1, 1]),
        depths: numbers(rt, &[0, 0, 0, 1]),
        first: Cells::from_vec(vec![in rt.alloc(); 4, 5, 6].expect(rt, "memory")),
        globals: List::from_vec(Vec::from_slice(rt.alloc(), &globals).expect(rt, "memory")),
        functions: numbers(rt, &[]),
    };
    Code::build(rt.alloc(), parts).expect(rt, "a code")
}

/// The job of main at its start, with this number.
fn job(alloc: Global, code: &Code, task: u32) -> Result<Job, AllocError>
    requires { task < 1000 }
{
    if code.first().len() > 1_048_576 {
        return Err(AllocError);
    }
    let body = main_body(alloc, code, 100)?;
    let accesses = body.accesses()?;
    let mut job = Job::new(alloc, body, &accesses)?;
    job.start(task);
    Ok(job)
}

/// Whether a job can go on from an act: it is no fault.
fn goes(act: &Act) -> bool
    ensures { result ≡ goes_on act.now }
{
    match act {
        Act::Fault { .. } => false,
        Act::Tick => true,
        Act::Load(_) => true,
        Act::Store(_, _) => true,
        Act::Fold { .. } => true,
        Act::Create { .. } => true,
        Act::Await => true,
        Act::Wait => true,
        Act::WaitOn(_) => true,
        Act::Release { .. } => true,
        Act::Print { .. } => true,
        Act::End => true,
    }
}

/// The next act of a job, in which a load would find 0; whether there was one.
fn step(job: &mut Job, code: &Code) -> Result<bool, AllocError> {
    if job.body().ended() || !goes(job.body().pending()) {
        return Ok(false);
    }
    job.advance(code, 0)?;
    Ok(true)
}

/// The access of a task that writes the cells of a range, and no others.
fn written(alloc: Global, range: Range) -> Result<List<Access>, AllocError>
    ensures rising { IfOk result (λ accesses. IsRising accesses) }
{
    let access = Access {
        range,
        mode: Mode::Write,
        strong: true,
        fresh: false,
    };
    Ok(List::from_vec(vec![in alloc; access]?))
}

/// Notes a child with this number that writes the cells of a range.
fn note(alloc: Global, job: &mut Job, child: u32, range: Range) -> Result<(), AllocError>
    requires { child < 1000 }
{
    let accesses = written(alloc, range)?;
    let _cells = count_cells(&accesses);
    job.reserve(&accesses)?;
    job.note(child, &accesses);
    Ok(())
}

/// The job after three acts, in each of which a load would find 0.
fn advanced(job: Job, code: &Code) -> Result<Job, AllocError> {
    let mut job = job;
    for _act in 0..3 {
        if !step(&mut job, code)? {
            return Err(AllocError);
        }
    }
    Ok(job)
}

/// The jobs after three acts each, every one on a thread of its own if one can be made.
fn advanced_apart<R: Threads + Sync>(
    rt: &R,
    jobs: Vec<Job>,
    code: &Code,
) -> Result<Vec<Result<Job, AllocError>>, AllocError> {
    thread::map_vec(rt, jobs, &|job| advanced(job, code))
}

/// Main has a number, and its entries stand behind it; no other cell has one, and there is no child.
#[test]
fn numbers_the_entries_of_a_task(rt: HostRuntime) {
    let code = code(&rt);
    let job = job(rt.alloc(), &code, 7).expect(&rt, "memory");
    assert!(rt; job.task() == 7 && !job.body().begun());
    assert!(rt; job.entry(0) == 8 && job.entry(1) == 9 && job.entry(2) == 10);
    assert!(rt; job.entry(3) == 0 && job.entry(4_294_967_295) == 0);
    assert!(rt; job.cells() == 3);
    assert!(rt; job.body().right(2) == Right::Holds(Mode::Write, true));
    assert!(rt; job.body().right(3) == Right::Nothing);
    assert!(rt; job.last(0).is_none() && job.last_child().is_none());
    assert!(rt; job.prints().is_empty());
    drop(job);
    drop(code);
}

/// What main prints is kept, with its points.
#[test]
fn keeps_what_is_printed(rt: HostRuntime) {
    let code = code(&rt);
    let mut job = job(rt.alloc(), &code, 0).expect(&rt, "memory");
    assert!(rt; step(&mut job, &code).expect(&rt, "memory"));
    assert!(rt; job.prints().len() == 1 && job.prints()[0].text.as_slice() == b"x".as_slice());
    assert!(rt; step(&mut job, &code).expect(&rt, "memory"));
    assert!(rt; step(&mut job, &code).expect(&rt, "memory"));
    assert!(rt; job.body().ended() && !step(&mut job, &code).expect(&rt, "memory"));
    let (body, prints) = job.into_parts();
    assert!(rt; body.ended() && prints.len() == 2);
    assert!(rt; prints[1].text.as_slice() == b"y".as_slice());
    assert!(rt; prints[1].at.as_slice() == [0, 0].as_slice());
    drop(body);
    drop(prints);
    drop(code);
}

/// A later child is the last one on its cells, and an earlier one stays so on the others.
#[test]
fn notes_the_last_children(rt: HostRuntime) {
    let code = code(&rt);
    let mut job = job(rt.alloc(), &code, 0).expect(&rt, "memory");
    note(rt.alloc(), &mut job, 7, Range { lo: 0, hi: 2 }).expect(&rt, "memory");
    assert!(rt; job.last_child() == Some(7));
    assert!(rt; job.last(0) == Some(8) && job.last(1) == Some(9) && job.last(2).is_none());
    note(rt.alloc(), &mut job, 10, Range { lo: 1, hi: 3 }).expect(&rt, "memory");
    assert!(rt; job.last_child() == Some(10));
    assert!(rt; job.last(0) == Some(8) && job.last(1) == Some(11) && job.last(2) == Some(12));
    assert!(rt; job.entry(0) == 1 && job.entry(2) == 3);
    drop(job);
    drop(code);
}

/// Jobs that go on in other threads come back with what they have printed there, and their entries are as they were.
#[test]
fn goes_on_in_another_thread(rt: HostRuntime) {
    let code = code(&rt);
    let first = job(rt.alloc(), &code, 7).expect(&rt, "memory");
    let second = job(rt.alloc(), &code, 40).expect(&rt, "memory");
    let jobs = vec![in rt.alloc(); first, second].expect(&rt, "memory");
    let mut back = advanced_apart(&rt, jobs, &code).expect(&rt, "memory");
    let second = back.pop().expect(&rt, "a job").expect(&rt, "memory");
    let first = back.pop().expect(&rt, "a job").expect(&rt, "memory");
    assert!(rt; back.is_empty() && first.task() == 7 && second.task() == 40);
    assert!(rt; first.entry(1) == 9 && second.entry(1) == 42);
    assert!(rt; first.body().ended() && second.body().ended());
    assert!(rt; first.prints().len() == 2 && second.prints().len() == 2);
    assert!(rt; second.prints()[0].text.as_slice() == b"x".as_slice());
    assert!(rt; second.prints()[1].text.as_slice() == b"y".as_slice());
    drop(first);
    drop(second);
    drop(back);
    drop(code);
}
