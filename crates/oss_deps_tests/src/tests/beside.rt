//! The systems by ranges and by words beside the plain lists: both are told the same at random, and answer
//! alike behind each call.

ghost use Rattle.std.specs.Prelude.{◌≤◌, ◌<◌, ◌+◌};
ghost use Rattle.oss_deps.specs.Seen.{IsNew};
ghost use Rattle.oss_deps_tests.specs.Told.{IsTold};

use crate::Told;
use crate::tests::{self, new_words};
use oss_deps::{Deps, PlainDeps};
use oss_model::TaskNo;
use oss_regions::Regions;
use oss_syntax::{Access, Mode, Op, Range};
use std::process::Abort;

/// How many runs there are.
const RUNS: u64 = 200;

/// How many tasks a run has, main among them.
const TASKS: u64 = 61;

/// The first task that need not be nested in the one before it: a run has a task that is nested four deep.
const LOOSE: u64 = 5;

/// How many cells the accesses of a run have.
const CELLS: u64 = 16;

/// Numbers in no order, the same each time.
#[derive(Clone, Copy)]
struct Dice {
    state: u64,
}

impl Dice {
    fn below(&mut self, sides: u64) -> u64
        requires { 0 < sides }
        ensures { result < sides }
    {
        self.state = self
            .state
            .wrapping_mul(6_364_136_223_846_793_005)
            .wrapping_add(1_442_695_040_888_963_407);
        (self.state >> 33) % sides
    }

    /// A range, as often of few cells as of any number.
    fn range(&mut self) -> Range {
        let lo = self.below(CELLS);
        let size = 1
            + match self.below(2) {
                0 => self.below(CELLS - lo),
                _ => self.below((CELLS - lo).min(4)),
            };
        Range {
            lo: lo as u32,
            hi: (lo + size) as u32,
        }
    }

    fn mode(&mut self) -> Mode {
        match self.below(7) {
            0 => Mode::Read,
            1 => Mode::Fold(Op::Add),
            2 => Mode::Fold(Op::And),
            3 => Mode::Fold(Op::Or),
            4 => Mode::Fold(Op::Xor),
            _ => Mode::Write,
        }
    }

    fn access(&mut self) -> Access {
        Access {
            range: self.range(),
            mode: self.mode(),
            strong: self.below(3) != 0,
            fresh: false,
        }
    }
}

/// The answer names a task.
fn is_some(answer: Option<Option<TaskNo>>) -> Option<bool> {
    match answer {
        Some(Some(_)) => Some(true),
        Some(None) => Some(false),
        None => None,
    }
}

/// Both answer alike of a task.
fn compare<A: Deps, B: Deps>(
    rt: &impl Abort,
    one: &mut Told<A>,
    other: &mut Told<B>,
    task: u64,
    range: Range,
)
    requires one { IsTold (A.seen one.old.system) one.old.opens.items one.old.gives.items }
    requires other { IsTold (B.seen other.old.system) other.old.opens.items other.old.gives.items }
    ensures one { IsTold (A.seen one.new.system) one.new.opens.items one.new.gives.items }
    ensures other { IsTold (B.seen other.new.system) other.new.opens.items other.new.gives.items }
{
    assert_eq!(rt; one.met(task), other.met(task), "met: {task}");
    assert_eq!(rt;
        one.may_join(task, range),
        other.may_join(task, range),
        "join: {task} {range:?}"
    );
    assert_eq!(rt;
        one.children_done(task, range),
        other.children_done(task, range),
        "done: {task} {range:?}"
    );
    assert_eq!(rt;
        is_some(one.obstacle(task)),
        is_some(other.obstacle(task)),
        "obstacle: {task}"
    );
    assert_eq!(rt;
        is_some(one.undone_child(task, range)),
        is_some(other.undone_child(task, range)),
        "child: {task} {range:?}"
    );
}

/// Both answer alike of each task.
fn compare_all<A: Deps, B: Deps>(
    rt: &impl Abort,
    one: &mut Told<A>,
    other: &mut Told<B>,
    range: Range,
)
    requires one { IsTold (A.seen one.old.system) one.old.opens.items one.old.gives.items }
    requires other { IsTold (B.seen other.old.system) other.old.opens.items other.old.gives.items }
    ensures one { IsTold (A.seen one.new.system) one.new.opens.items one.new.gives.items }
    ensures other { IsTold (B.seen other.new.system) other.new.opens.items other.new.gives.items }
{
    'tasks: for task in 0..TASKS {
        compare(rt, one, other, task, range);
    }
}

/// Reserves an access in both, which need not be opened.
fn reserve<A: Deps, B: Deps>(
    rt: &impl Abort,
    one: &mut Told<A>,
    other: &mut Told<B>,
    access: Access,
)
    requires one { IsTold (A.seen one.old.system) one.old.opens.items one.old.gives.items }
    requires other { IsTold (B.seen other.old.system) other.old.opens.items other.old.gives.items }
    ensures one { IsTold (A.seen one.new.system) one.new.opens.items one.new.gives.items }
    ensures other { IsTold (B.seen other.new.system) other.new.opens.items other.new.gives.items }
{
    tests::reserve(rt, one, access);
    tests::reserve(rt, other, access);
}

/// Tells both of a task, if it may be opened.
fn open<A: Deps, B: Deps>(
    rt: &impl Abort,
    one: &mut Told<A>,
    other: &mut Told<B>,
    task: u64,
    parent: u64,
    access: Access,
)
    requires one { IsTold (A.seen one.old.system) one.old.opens.items one.old.gives.items }
    requires other { IsTold (B.seen other.old.system) other.old.opens.items other.old.gives.items }
    ensures one { IsTold (A.seen one.new.system) one.new.opens.items one.new.gives.items }
    ensures other { IsTold (B.seen other.new.system) other.new.opens.items other.new.gives.items }
{
    let opened = tests::open(rt, one, task, parent, access);
    let also = tests::open(rt, other, task, parent, access);
    assert_eq!(rt; opened, also, "open: {task} {parent} {access:?}");
}

/// Tells both that a task gives up a range, if it may.
fn give<A: Deps, B: Deps>(
    rt: &impl Abort,
    one: &mut Told<A>,
    other: &mut Told<B>,
    task: u64,
    range: Range,
)
    requires one { IsTold (A.seen one.old.system) one.old.opens.items one.old.gives.items }
    requires other { IsTold (B.seen other.old.system) other.old.opens.items other.old.gives.items }
    ensures one { IsTold (A.seen one.new.system) one.new.opens.items one.new.gives.items }
    ensures other { IsTold (B.seen other.new.system) other.new.opens.items other.new.gives.items }
{
    let given = tests::give(rt, one, task, range);
    let also = tests::give(rt, other, task, range);
    assert_eq!(rt; given, also, "give: {task} {range:?}");
}

/// Opens the task, below main or below an earlier one, with the first access that may be: several are tried,
/// the last of them below main.
fn open_somewhere<A: Deps, B: Deps>(
    rt: &impl Abort,
    one: &mut Told<A>,
    other: &mut Told<B>,
    task: u64,
    dice: &mut Dice,
)
    requires some { 0 < task }
    requires one { IsTold (A.seen one.old.system) one.old.opens.items one.old.gives.items }
    requires other { IsTold (B.seen other.old.system) other.old.opens.items other.old.gives.items }
    ensures one { IsTold (A.seen one.new.system) one.new.opens.items one.new.gives.items }
    ensures other { IsTold (B.seen other.new.system) other.new.opens.items other.new.gives.items }
{
    'tries: for _ in 0..8 {
        let parent = match dice.below(3) {
            0 => 0,
            _ => dice.below(task),
        };
        open(rt, one, other, task, parent, dice.access());
    }
    open(rt, one, other, task, 0, dice.access());
}

/// Gives up some ranges: several are tried.
fn give_some<A: Deps, B: Deps>(
    rt: &impl Abort,
    one: &mut Told<A>,
    other: &mut Told<B>,
    task: u64,
    dice: &mut Dice,
)
    requires some { 0 < task }
    requires one { IsTold (A.seen one.old.system) one.old.opens.items one.old.gives.items }
    requires other { IsTold (B.seen other.old.system) other.old.opens.items other.old.gives.items }
    ensures one { IsTold (A.seen one.new.system) one.new.opens.items one.new.gives.items }
    ensures other { IsTold (B.seen other.new.system) other.new.opens.items other.new.gives.items }
{
    'tries: for _ in 0..6 {
        give(rt, one, other, dice.below(task), dice.range());
    }
}

/// Asks of some tasks.
fn compare_some<A: Deps, B: Deps>(
    rt: &impl Abort,
    one: &mut Told<A>,
    other: &mut Told<B>,
    task: u64,
    dice: &mut Dice,
)
    requires some { 0 < task }
    requires one { IsTold (A.seen one.old.system) one.old.opens.items one.old.gives.items }
    requires other { IsTold (B.seen other.old.system) other.old.opens.items other.old.gives.items }
    ensures one { IsTold (A.seen one.new.system) one.new.opens.items one.new.gives.items }
    ensures other { IsTold (B.seen other.new.system) other.new.opens.items other.new.gives.items }
{
    'tries: for _ in 0..2 {
        compare(rt, one, other, dice.below(task), dice.range());
    }
}

/// One run.
fn play<A: Deps, B: Deps>(rt: &impl Abort, one: &mut Told<A>, other: &mut Told<B>, dice: &mut Dice)
    requires one { IsTold (A.seen one.old.system) one.old.opens.items one.old.gives.items }
    requires other { IsTold (B.seen other.old.system) other.old.opens.items other.old.gives.items }
    ensures one { IsTold (A.seen one.new.system) one.new.opens.items one.new.gives.items }
    ensures other { IsTold (B.seen other.new.system) other.new.opens.items other.new.gives.items }
{
    let access = dice.access();
    'nested: for task in 1..LOOSE {
        open(rt, one, other, task, task - 1, access);
    }
    'tasks: for task in LOOSE..TASKS {
        reserve(rt, one, other, dice.access());
        open_somewhere(rt, one, other, task, dice);
        compare_some(rt, one, other, task + 1, dice);
        give_some(rt, one, other, task, dice);
        compare_some(rt, one, other, task + 1, dice);
    }
    compare_all(rt, one, other, dice.range());
}

/// One run of a new system beside the plain lists. Gives it back, with what it was told.
fn run_beside<D: Deps>(rt: &(impl Abort + AllocGlobal), system: D, dice: &mut Dice) -> Told<D>
    requires { IsNew (D.seen system) }
{
    let mut one = Told::new(rt.alloc(), PlainDeps::new(rt.alloc()));
    let mut other = Told::new(rt.alloc(), system);
    play(rt, &mut one, &mut other, dice);
    let (opened, given, joins) = one.counts();
    assert!(rt;
        opened == 60 && given > 8 && joins > 0,
        "{opened} {given} {joins}"
    );
    assert!(rt; !one.is_nested_within(LOOSE - 1, 3), "depth");
    drop(one);
    other
}

#[test]
fn ranges_answer_as_lists_do(rt: HostRuntime) {
    let mut dice = Dice { state: 7 };
    'runs: for _ in 0..RUNS {
        drop(run_beside(&rt, Regions::new(rt.alloc()), &mut dice));
    }
}

#[test]
fn words_answer_as_lists_do(rt: HostRuntime) {
    let mut dice = Dice { state: 7 };
    'runs: for _ in 0..RUNS {
        let told = run_beside(&rt, new_words(&rt, 16_777_216), &mut dice);
        assert_eq!(&rt; told.system().entries(), Some(65_536));
        drop(told);
    }
}

/// The accesses of a run have more cells than these entries, so the net is given up on the way.
#[test]
fn words_that_are_given_up_answer_as_lists_do(rt: HostRuntime) {
    let mut dice = Dice { state: 7 };
    'runs: for _ in 0..RUNS {
        let words = new_words(&rt, 64);
        assert_eq!(&rt; words.entries(), Some(64));
        let told = run_beside(&rt, words, &mut dice);
        assert_eq!(&rt; told.system().entries(), None);
        drop(told);
    }
}
