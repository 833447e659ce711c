//! A core that is taken apart in the middle of a run, and put together again.

ghost use Rattle.std.specs.Prelude.{◌≡◌, ◌≤◌, ℕ, [], false, length, IfOk, OnOk};
ghost use Rattle.oss_core.specs.Cores.{kept_of};
ghost use Rattle.oss_core.specs.Kept.{IsRunning};

use crate::waves_tests::{code, is_done};
use oss_code::Code;
use oss_core::{ApplyFault, Core};
use oss_deps::{Deps, PlainDeps};
use oss_kept_tasks::Owed;
use oss_model::{Move, TaskNo};
use std::alloc::{AllocError, Global};
use std::process::Abort;

/// Makes a move.
fn make<D: Deps>(core: &mut Core<D>, code: &Code, m: Move) -> Result<(), ApplyFault>
    requires { IsRunning code.now (kept_of D.seen core.old) }
    ensures { OnOk result (IsRunning code.now (kept_of D.seen core.new)) }
{
    core.apply(code, m)
}

/// Makes these moves, one after the other.
fn make_all<D: Deps>(core: &mut Core<D>, code: &Code, moves: &[Move]) -> Result<(), ApplyFault>
    requires { IsRunning code.now (kept_of D.seen core.old) }
    ensures { OnOk result (IsRunning code.now (kept_of D.seen core.new)) }
{
    'moves: for m in moves {
        make(core, code, *m)?;
    }
    Ok(())
}

/// The core, taken apart and put together with its own dependency system: it is the same. It has three tasks, and its
/// cells are 5 and 0.
fn again<R: Abort, D: Deps>(rt: &R, alloc: Global, core: Core<D>) -> Core<D>
    ensures { kept_of D.seen result ≡ kept_of D.seen core }
{
    let (parts, deps) = core.apart();
    assert!(rt; parts.tasks.len() == 3 && parts.tree.count() == 3);
    assert!(rt; parts.cells.as_slice() == [5, 0].as_slice());
    Core::with_deps(alloc, parts, deps)
}

/// The core, taken apart and put together over another dependency system, which was told nothing.
fn anew<D: Deps, E: Deps>(
    alloc: Global,
    code: &Code,
    core: Core<D>,
    fresh: E,
) -> Result<Core<E>, AllocError>
    requires core { IsRunning code.now (kept_of D.seen core) }
    requires opens { (E.seen fresh).opens ≡ [] }
    requires given { (t c : ℕ) → (E.seen fresh).given t c ≡ false }
    ensures { IfOk result (λ core. IsRunning code.now (kept_of E.seen core)) }
{
    let (parts, deps) = core.apart();
    drop(deps);
    Core::together(alloc, parts, fresh)
}

/// Main creates both tasks; the first one stores 5 and prints `a`.
const BEFORE: &[Move] = &[
    Move::Step(TaskNo(0)),
    Move::Step(TaskNo(0)),
    Move::Step(TaskNo(1)),
    Move::Step(TaskNo(1)),
];

/// It ends and gives up its cell.
const BETWEEN: &[Move] = &[Move::Step(TaskNo(1)), Move::Let(TaskNo(1), 0)];

/// The second one stores 7, prints `b`, ends and gives up its cell; main goes past its wait and ends.
const BEHIND: &[Move] = &[
    Move::Step(TaskNo(2)),
    Move::Step(TaskNo(2)),
    Move::Step(TaskNo(2)),
    Move::Let(TaskNo(2), 1),
    Move::Step(TaskNo(0)),
    Move::Step(TaskNo(0)),
];

/// The run over this dependency system has its answer, though its core was taken apart and put together with it, and
/// then over another one.
fn assert_again<R: Abort + AllocGlobal, D: Deps, E: Deps>(rt: &R, code: &Code, deps: D, fresh: E)
    requires opens { (D.seen deps).opens ≡ [] }
    requires given { (t c : ℕ) → (D.seen deps).given t c ≡ false }
    requires fresh_opens { (E.seen fresh).opens ≡ [] }
    requires fresh_given { (t c : ℕ) → (E.seen fresh).given t c ≡ false }
{
    assert!(rt; code.first().len() <= 1_048_576);
    let mut core = Core::new(rt.alloc(), code, 100, deps).expect(rt, "memory");
    make_all(&mut core, code, BEFORE).expect(rt, "moves");
    let mut core = again(rt, rt.alloc(), core);
    make_all(&mut core, code, BETWEEN).expect(rt, "moves");
    let mut core = anew(rt.alloc(), code, core, fresh).expect(rt, "memory");
    make_all(&mut core, code, BEHIND).expect(rt, "moves");
    let answer = core.answer().expect(rt, "memory").expect(rt, "an answer");
    assert!(rt; is_done(&answer, b"ab", &[5, 7]));
    drop(answer);
    drop(core);
}

#[test]
fn goes_on_after_it_was_taken_apart(rt: HostRuntime) {
    let code = code(&rt);
    assert_again(
        &rt,
        &code,
        PlainDeps::new(rt.alloc()),
        PlainDeps::new(rt.alloc()),
    );
    drop(code);
}

/// What is kept of a task can be taken apart too: its body, out of the box, and the cells that it owes.
fn assert_parts<R: Abort, D: Deps>(rt: &R, core: Core<D>) {
    let (mut parts, deps) = core.apart();
    let (body, owed) = parts.tasks.pop().expect(rt, "a task").into_parts();
    let body = body.into_body();
    assert!(rt; body.point().as_slice() == [0, 1].as_slice() && !body.begun());
    assert!(rt; owed.get(0).is_none() && owed.get(1) == Some(Owed::Let));
    drop(body);
    drop(owed);
    drop(parts);
    drop(deps);
}

#[test]
fn has_bodies_and_what_is_owed(rt: HostRuntime) {
    let code = code(&rt);
    assert!(rt; code.first().len() <= 1_048_576);
    let deps = PlainDeps::new(rt.alloc());
    let mut core = Core::new(rt.alloc(), &code, 100, deps).expect(&rt, "memory");
    make_all(&mut core, &code, BEFORE).expect(&rt, "moves");
    assert_parts(&rt, core);
    drop(code);
}
