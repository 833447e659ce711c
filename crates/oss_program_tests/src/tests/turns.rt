//! Runs stepped wave by wave through the calls of the core: turns and passes are those that were worked out by hand.

ghost use Rattle.std.specs.Prelude.{◌≤◌, length};
ghost use Rattle.oss_core.specs.Cores.{kept_of};
ghost use Rattle.oss_core.specs.Kept.{IsRunning};
ghost use Rattle.oss_wakeups.specs.Watches.{HasNoLet, IsWatch};

use crate::tests::reading::code_of;
use crate::tests::waves;
use crate::{pass_once, wave};
use oss_code::Code;
use oss_core::{Core, Passed, Turn};
use oss_deps::{Deps, PlainDeps};
use oss_kept_tasks::BoxedBody;
use oss_model::{Answer, TaskNo};
use oss_sched::{TextMove, WaveRecord, schedule_text};
use oss_syntax::List;
use oss_wakeups::Watch;
use std::process::Abort;

/// A task has fuel for so many ticks.
const FUEL: u32 = 1_000_000;

/// No run of these programs has so many waves, and no wave so many passes behind it.
const MOST: u32 = 100;

/// A run so far: the bodies that serve again, its waves, and how many tasks had a turn in the widest.
#[derive(Drop)]
struct Run {
    spares: Vec<BoxedBody>,
    waves: List<List<TextMove>>,
    widest: u64,
}

/// Notes the turns of a wave.
fn note_turns<D: Deps>(
    rt: &impl Abort,
    core: &Core<D>,
    turns: &[Turn],
    lines: &mut List<TextMove>,
) {
    for turn in turns {
        assert!(rt; turn.task.0 < core.count());
        let point = core.point(turn.task).copy().expect(rt, "memory");
        lines
            .push(TextMove::Step(point, turn.acts))
            .expect(rt, "memory");
    }
}

/// Notes what a pass has given up.
fn note_passed<D: Deps>(
    rt: &impl Abort,
    core: &Core<D>,
    passed: &[Passed],
    lines: &mut List<TextMove>,
) {
    for one in passed {
        assert!(rt; one.task.0 < core.count() && one.range.lo <= one.range.hi);
        let point = core.point(one.task).copy().expect(rt, "memory");
        let count = one.range.hi - one.range.lo;
        let line = if one.joined {
            TextMove::Join(point, one.range.lo, count)
        } else {
            TextMove::Let(point, one.range.lo, count)
        };
        lines.push(line).expect(rt, "memory");
    }
}

/// Makes passes until one gives nothing up, and notes them.
fn make_passes<D: Deps>(
    rt: &impl Abort,
    core: &mut Core<D>,
    code: &Code,
    watch: &mut Watch,
    lines: &mut List<TextMove>,
)
    requires running { IsRunning code.now (kept_of D.seen core.old) }
    requires watch { IsWatch (kept_of D.seen core.old) watch.old }
    ensures running { IsRunning code.now (kept_of D.seen core.new) }
    ensures watch { IsWatch (kept_of D.seen core.new) watch.new }
    ensures quiet { HasNoLet (kept_of D.seen core.new) }
{
    for _ in 0..MOST {
        let passed = pass_once(core, code, watch).expect(rt, "memory");
        if passed.is_empty() {
            return;
        }
        note_passed(rt, core, passed.as_slice(), lines);
    }
    panic!(rt; "passes without end");
}

/// Makes a wave and the passes behind it, and notes them, unless no task may act; then those sleep that wait.
/// Says whether some task acted.
fn make_round<D: Deps>(
    rt: &(impl Abort + AllocGlobal),
    core: &mut Core<D>,
    code: &Code,
    watch: &mut Watch,
    run: &mut Run,
) -> bool
    requires running { IsRunning code.now (kept_of D.seen core.old) }
    requires watch { IsWatch (kept_of D.seen core.old) watch.old }
    requires cells { length code.now.first ≤ 1048576 }
    ensures running { IsRunning code.now (kept_of D.seen core.new) }
    ensures watch { IsWatch (kept_of D.seen core.new) watch.new }
{
    assert!(rt; core.cells().len() <= 1_048_576);
    let turns = wave(rt.alloc(), core, code, watch, &mut run.spares).expect(rt, "memory");
    if turns.is_empty() {
        return false;
    }
    let mut lines = List::new(rt.alloc());
    note_turns(rt, core, turns.as_slice(), &mut lines);
    make_passes(rt, core, code, watch, &mut lines);
    watch.rest(core).expect(rt, "memory");
    run.waves.push(lines).expect(rt, "memory");
    run.widest = run.widest.max(turns.len() as u64);
    true
}

/// Makes rounds until no task may act.
fn make_rounds<D: Deps>(
    rt: &(impl Abort + AllocGlobal),
    core: &mut Core<D>,
    code: &Code,
    watch: &mut Watch,
    run: &mut Run,
)
    requires running { IsRunning code.now (kept_of D.seen core.old) }
    requires watch { IsWatch (kept_of D.seen core.old) watch.old }
    requires cells { length code.now.first ≤ 1048576 }
    ensures { IsRunning code.now (kept_of D.seen core.new) }
{
    for _ in 0..MOST {
        if !make_round(rt, core, code, watch, run) {
            return;
        }
    }
    panic!(rt; "rounds without end");
}

/// A run at its beginning.
fn new_run(rt: &impl AllocGlobal) -> Run {
    Run {
        spares: Vec::new(rt.alloc()),
        waves: List::new(rt.alloc()),
        widest: 0,
    }
}

/// Whether a run has ended and left this in its cells.
fn is_done(answer: &Option<Answer>, cells: &[u64]) -> bool {
    match answer {
        Some(Answer::Done(_, left)) => left.as_slice() == cells,
        Some(Answer::Fault(_, _, _)) => false,
        None => false,
    }
}

/// The waves of a program are these, as a trace tells them, and behind them this is in its cells.
fn assert_waves(rt: &(impl Abort + AllocGlobal), text: &str, wanted: &str, cells: &[u64]) {
    let alloc = rt.alloc();
    let code = code_of(rt, text);
    let mut core = Core::new(alloc, &code, FUEL, PlainDeps::new(alloc)).expect(rt, "memory");
    let mut watch = Watch::new(alloc, &core).expect(rt, "memory");
    let mut run = new_run(rt);
    make_rounds(rt, &mut core, &code, &mut watch, &mut run);
    let answer = core.answer().expect(rt, "memory");
    assert!(rt; is_done(&answer, cells), "{text}");
    let Run { waves, widest, .. } = run;
    let record = WaveRecord {
        waves,
        tasks: core.count(),
        widest,
    };
    let told = schedule_text(alloc, &record).expect(rt, "memory");
    let shown = str::from_utf8(told.as_slice());
    assert!(rt; told.as_slice() == wanted.as_bytes(), "{shown:?} of {text}");
}

/// Whether these tasks have these numbers.
fn are_numbers(tasks: &[TaskNo], numbers: &[u64]) -> bool {
    tasks.len() == numbers.len()
        && tasks
            .iter()
            .zip(numbers)
            .all(|(task, number)| task.0 == *number)
}

/// Behind each round the tasks with these numbers are awake, and behind the last no task may act.
fn assert_rounds<D: Deps>(
    rt: &(impl Abort + AllocGlobal),
    core: &mut Core<D>,
    code: &Code,
    watch: &mut Watch,
    rounds: &[&[u64]],
)
    requires running { IsRunning code.now (kept_of D.seen core.old) }
    requires watch { IsWatch (kept_of D.seen core.old) watch.old }
    requires cells { length code.now.first ≤ 1048576 }
{
    let mut run = new_run(rt);
    for numbers in rounds {
        assert!(rt; make_round(rt, core, code, watch, &mut run));
        let awake = watch.awake();
        assert!(rt; are_numbers(awake, numbers), "{awake:?}");
    }
    assert!(rt; !make_round(rt, core, code, watch, &mut run));
}

/// Behind each round of a program the tasks with these numbers are awake.
fn assert_awake(rt: &(impl Abort + AllocGlobal), text: &str, rounds: &[&[u64]]) {
    let alloc = rt.alloc();
    let code = code_of(rt, text);
    let mut core = Core::new(alloc, &code, FUEL, PlainDeps::new(alloc)).expect(rt, "memory");
    let mut watch = Watch::new(alloc, &core).expect(rt, "memory");
    assert_rounds(rt, &mut core, &code, &mut watch, rounds);
}

#[test]
fn those_sleep_that_wait(rt: HostRuntime) {
    assert_awake(&rt, waves::CHAIN, &[&[1], &[2], &[3], &[0], &[]]);
    assert_awake(&rt, waves::READERS, &[&[1], &[2, 3], &[4], &[0], &[]]);
}

#[test]
fn turns_and_passes_of_programs(rt: HostRuntime) {
    assert_waves(&rt, waves::FLOW, waves::FLOW_WAVES, &[5, 6]);
    assert_waves(&rt, waves::WEAK, waves::WEAK_WAVES, &[1, 2, 3, 4]);
    assert_waves(&rt, waves::WEAK_WAIT, waves::WEAK_WAIT_WAVES, &[1, 2, 3, 4]);
    assert_waves(&rt, waves::REDUCTION, waves::REDUCTION_WAVES, &[0]);
    assert_waves(&rt, waves::RELEASE, waves::RELEASE_WAVES, &[1, 2, 3, 0, 3]);
}

#[test]
fn turns_end_at_the_quota_and_before_waits(rt: HostRuntime) {
    assert_waves(&rt, waves::QUOTA, waves::QUOTA_WAVES, &[1]);
    assert_waves(&rt, waves::WAITS, waves::WAITS_WAVES, &[2]);
}

#[test]
fn neighbouring_cells_are_written_in_one_wave(rt: HostRuntime) {
    assert_waves(
        &rt,
        waves::NEIGHBOURS,
        waves::NEIGHBOURS_WAVES,
        &[2, 1, 3, 4],
    );
}
