//! What each task waits for at each moment of some lists that were worked by hand, from what is defined of
//! accesses and not from what a system answered. A line has three texts with a letter for each task, main
//! first: whether it may begin, whether its slot may be joined, and whether the accesses of its children are
//! done. A dot stands where there is nothing to ask. And how many accesses regions keep.

ghost use Rattle.std.specs.Prelude.{◌<◌};
ghost use Rattle.oss_deps.specs.Seen.{IsNew};
ghost use Rattle.oss_deps_tests.specs.Told.{IsTold};

use crate::Told;
use crate::tests::{self, new_words};
use oss_deps::{Deps, PlainDeps};
use oss_regions::Regions;
use oss_syntax::{Access, Mode, Op, Range};
use std::alloc::Global;
use std::process::Abort;

/// How many tasks there may be.
pub(crate) const TASKS: usize = 6;

/// What a system is told.
#[derive(Clone, Copy, Debug)]
pub(crate) enum Event {
    Reserve(Access),
    /// A task, and its creator.
    Open(u64, u64, Access),
    Give(u64, Range),
}

/// What a system is told, and its answers behind that.
#[derive(Clone, Copy, Debug)]
struct Moment {
    event: Event,
    met: [u8; TASKS],
    joins: [u8; TASKS],
    done: [u8; TASKS],
}

fn reserve(access: Access, met: [u8; TASKS], joins: [u8; TASKS], done: [u8; TASKS]) -> Moment {
    Moment {
        event: Event::Reserve(access),
        met,
        joins,
        done,
    }
}

fn open(
    task: u64,
    parent: u64,
    access: Access,
    met: [u8; TASKS],
    joins: [u8; TASKS],
    done: [u8; TASKS],
) -> Moment {
    Moment {
        event: Event::Open(task, parent, access),
        met,
        joins,
        done,
    }
}

fn give(
    task: u64,
    lo: u32,
    hi: u32,
    met: [u8; TASKS],
    joins: [u8; TASKS],
    done: [u8; TASKS],
) -> Moment
    requires ordered { lo < hi }
    requires within { hi < 1048576 }
{
    Moment {
        event: Event::Give(task, Range { lo, hi }),
        met,
        joins,
        done,
    }
}

fn access(lo: u32, hi: u32, mode: Mode, strong: bool) -> Access
    requires ordered { lo < hi }
    requires within { hi < 1048576 }
{
    Access {
        range: Range { lo, hi },
        mode,
        strong,
        fresh: false,
    }
}

pub(crate) fn reads(lo: u32, hi: u32) -> Access
    requires ordered { lo < hi }
    requires within { hi < 1048576 }
{
    access(lo, hi, Mode::Read, true)
}

pub(crate) fn writes(lo: u32, hi: u32) -> Access
    requires ordered { lo < hi }
    requires within { hi < 1048576 }
{
    access(lo, hi, Mode::Write, true)
}

/// A weak access that writes.
pub(crate) fn weakly(lo: u32, hi: u32) -> Access
    requires ordered { lo < hi }
    requires within { hi < 1048576 }
{
    access(lo, hi, Mode::Write, false)
}

fn adds(lo: u32, hi: u32) -> Access
    requires ordered { lo < hi }
    requires within { hi < 1048576 }
{
    access(lo, hi, Mode::Fold(Op::Add), true)
}

fn ors(lo: u32, hi: u32) -> Access
    requires ordered { lo < hi }
    requires within { hi < 1048576 }
{
    access(lo, hi, Mode::Fold(Op::Or), true)
}

/// A weak parent with two children, and a reader of a cell of the first child.
fn a_weak_parent() -> [Moment; 8] {
    [
        open(1, 0, weakly(0, 4), *b"yy....", *b"......", *b"ny...."),
        open(2, 1, writes(0, 2), *b"yyy...", *b"......", *b"nny..."),
        open(3, 1, writes(2, 4), *b"yyyy..", *b"......", *b"nnyy.."),
        open(4, 0, reads(0, 1), *b"yyyyn.", *b"......", *b"nnyyy."),
        give(2, 0, 2, *b"yyyyn.", *b"......", *b"nyyyy."),
        give(1, 0, 4, *b"yyyyy.", *b"......", *b"nyyyy."),
        give(4, 0, 1, *b"yyyyy.", *b"......", *b"yyyyy."),
        give(3, 2, 4, *b"yyyyy.", *b"......", *b"yyyyy."),
    ]
}

/// The same, asked at a cell of the second child.
fn the_other_half() -> [Moment; 8] {
    [
        open(1, 0, weakly(0, 4), *b"yy....", *b"......", *b"ny...."),
        open(2, 1, writes(0, 2), *b"yyy...", *b"......", *b"nyy..."),
        open(3, 1, writes(2, 4), *b"yyyy..", *b"......", *b"nnyy.."),
        open(4, 0, reads(0, 1), *b"yyyyn.", *b"......", *b"nnyyy."),
        give(2, 0, 2, *b"yyyyn.", *b"......", *b"nnyyy."),
        give(1, 0, 4, *b"yyyyy.", *b"......", *b"nnyyy."),
        give(4, 0, 1, *b"yyyyy.", *b"......", *b"nnyyy."),
        give(3, 2, 4, *b"yyyyy.", *b"......", *b"yyyyy."),
    ]
}

/// Readers beside readers, a writer behind them, and a reader behind that.
fn readers() -> [Moment; 10] {
    [
        open(1, 0, writes(0, 1), *b"yy....", *b"......", *b"ny...."),
        open(2, 0, reads(0, 1), *b"yyn...", *b"......", *b"nyy..."),
        open(3, 0, reads(0, 1), *b"yynn..", *b"......", *b"nyyy.."),
        open(4, 0, writes(0, 1), *b"yynnn.", *b"......", *b"nyyyy."),
        open(5, 0, reads(0, 1), *b"yynnnn", *b"......", *b"nyyyyy"),
        give(1, 0, 1, *b"yyyynn", *b"......", *b"nyyyyy"),
        give(3, 0, 1, *b"yyyynn", *b"......", *b"nyyyyy"),
        give(2, 0, 1, *b"yyyyyn", *b"......", *b"nyyyyy"),
        give(4, 0, 1, *b"yyyyyy", *b"......", *b"nyyyyy"),
        give(5, 0, 1, *b"yyyyyy", *b"......", *b"yyyyyy"),
    ]
}

/// A run of equal reductions between two writers, and a reader.
fn a_run() -> [Moment; 10] {
    [
        open(1, 0, writes(0, 1), *b"yy....", *b"......", *b"ny...."),
        open(2, 0, adds(0, 1), *b"yyy...", *b"..n...", *b"nyy..."),
        open(3, 0, adds(0, 1), *b"yyyy..", *b"..nn..", *b"nyyy.."),
        open(4, 0, writes(0, 1), *b"yyyyn.", *b"..nn..", *b"nyyyy."),
        open(5, 0, reads(0, 1), *b"yyyynn", *b"..nn..", *b"nyyyyy"),
        give(1, 0, 1, *b"yyyynn", *b"..yy..", *b"nyyyyy"),
        give(3, 0, 1, *b"yyyynn", *b"..yy..", *b"nyyyyy"),
        give(2, 0, 1, *b"yyyyyn", *b"..yy..", *b"nyyyyy"),
        give(4, 0, 1, *b"yyyyyy", *b"..yy..", *b"nyyyyy"),
        give(5, 0, 1, *b"yyyyyy", *b"..yy..", *b"yyyyyy"),
    ]
}

/// A reduction by another operator ends a run.
fn another_operator() -> [Moment; 8] {
    [
        open(1, 0, adds(0, 1), *b"yy....", *b".y....", *b"ny...."),
        open(2, 0, ors(0, 1), *b"yyy...", *b".yn...", *b"nyy..."),
        open(3, 0, adds(0, 1), *b"yyyy..", *b".ynn..", *b"nyyy.."),
        open(4, 0, reads(0, 1), *b"yyyyn.", *b".ynn..", *b"nyyyy."),
        give(1, 0, 1, *b"yyyyn.", *b".yyn..", *b"nyyyy."),
        give(2, 0, 1, *b"yyyyn.", *b".yyy..", *b"nyyyy."),
        give(3, 0, 1, *b"yyyyy.", *b".yyy..", *b"nyyyy."),
        give(4, 0, 1, *b"yyyyy.", *b".yyy..", *b"yyyyy."),
    ]
}

/// A run with runs below both of its reductions, and a reader behind.
fn nested_runs() -> [Moment; 10] {
    [
        open(1, 0, adds(0, 1), *b"yy....", *b".y....", *b"ny...."),
        open(2, 1, adds(0, 1), *b"yyy...", *b".yy...", *b"nny..."),
        open(3, 0, adds(0, 1), *b"yyyy..", *b".yyy..", *b"nnyy.."),
        open(4, 3, adds(0, 1), *b"yyyyy.", *b".yyyy.", *b"nnyny."),
        open(5, 0, reads(0, 1), *b"yyyyyn", *b".yyyy.", *b"nnynyy"),
        give(4, 0, 1, *b"yyyyyn", *b".yyyy.", *b"nnyyyy"),
        give(3, 0, 1, *b"yyyyyn", *b".yyyy.", *b"nnyyyy"),
        give(1, 0, 1, *b"yyyyyn", *b".yyyy.", *b"nnyyyy"),
        give(2, 0, 1, *b"yyyyyy", *b".yyyy.", *b"nyyyyy"),
        give(5, 0, 1, *b"yyyyyy", *b".yyyy.", *b"yyyyyy"),
    ]
}

/// A run with a run below it, and a reduction below a weak writer behind.
fn a_run_below_a_writer() -> [Moment; 10] {
    [
        open(1, 0, adds(0, 1), *b"yy....", *b".y....", *b"ny...."),
        open(2, 1, adds(0, 1), *b"yyy...", *b".yy...", *b"nny..."),
        open(3, 1, adds(0, 1), *b"yyyy..", *b".yyy..", *b"nnyy.."),
        open(4, 0, weakly(0, 1), *b"yyyyy.", *b".yyy..", *b"nnyyy."),
        open(5, 4, adds(0, 1), *b"yyyyyy", *b".yyy.n", *b"nnyyny"),
        give(3, 0, 1, *b"yyyyyy", *b".yyy.n", *b"nnyyny"),
        give(1, 0, 1, *b"yyyyyy", *b".yyy.n", *b"nnyyny"),
        give(2, 0, 1, *b"yyyyyy", *b".yyy.y", *b"nyyyny"),
        give(4, 0, 1, *b"yyyyyy", *b".yyy.y", *b"nyyyny"),
        give(5, 0, 1, *b"yyyyyy", *b".yyy.y", *b"yyyyyy"),
    ]
}

/// Cells that are given up before their task ends, and accesses that were reserved; asked over two cells.
fn a_cell_given_up_early() -> [Moment; 10] {
    [
        reserve(writes(0, 4), *b"y.....", *b"......", *b"y....."),
        open(1, 0, writes(0, 4), *b"yy....", *b"......", *b"ny...."),
        open(2, 0, reads(0, 1), *b"yyn...", *b"......", *b"nyy..."),
        open(3, 0, reads(3, 4), *b"yynn..", *b"......", *b"nyyy.."),
        give(1, 2, 3, *b"yynn..", *b"......", *b"nyyy.."),
        give(1, 0, 1, *b"yyyn..", *b"......", *b"nyyy.."),
        give(2, 0, 1, *b"yyyn..", *b"......", *b"nyyy.."),
        give(1, 1, 2, *b"yyyn..", *b"......", *b"yyyy.."),
        give(1, 3, 4, *b"yyyy..", *b"......", *b"yyyy.."),
        give(3, 3, 4, *b"yyyy..", *b"......", *b"yyyy.."),
    ]
}

/// A writer and its child that are done before cuts come, then a reduction, a reader and a writer of some of
/// their cells.
fn cuts_behind_what_is_done() -> [Moment; 10] {
    [
        open(1, 0, writes(0, 4), *b"yy....", *b"......", *b"ny...."),
        open(2, 1, writes(0, 4), *b"yyy...", *b"......", *b"nny..."),
        give(1, 0, 4, *b"yyy...", *b"......", *b"nny..."),
        give(2, 0, 4, *b"yyy...", *b"......", *b"yyy..."),
        open(3, 0, adds(0, 1), *b"yyyy..", *b"...y..", *b"nyyy.."),
        open(4, 0, reads(0, 2), *b"yyyyn.", *b"...y..", *b"nyyyy."),
        open(5, 0, writes(3, 4), *b"yyyyny", *b"...y..", *b"nyyyyy"),
        give(3, 0, 1, *b"yyyyyy", *b"...y..", *b"nyyyyy"),
        give(4, 0, 2, *b"yyyyyy", *b"...y..", *b"yyyyyy"),
        give(5, 3, 4, *b"yyyyyy", *b"...y..", *b"yyyyyy"),
    ]
}

/// A reduction that is done before a cut parts its cells, and a reader and a writer behind it.
fn a_reduction_that_is_left_out() -> [Moment; 8] {
    [
        open(1, 0, weakly(0, 4), *b"yy....", *b"......", *b"ny...."),
        open(2, 1, adds(0, 2), *b"yyy...", *b"..y...", *b"nny..."),
        give(1, 0, 4, *b"yyy...", *b"..y...", *b"nny..."),
        give(2, 0, 2, *b"yyy...", *b"..y...", *b"yyy..."),
        open(3, 0, reads(1, 2), *b"yyyy..", *b"..y...", *b"yyyy.."),
        open(4, 0, writes(0, 4), *b"yyyyn.", *b"..y...", *b"nyyyy."),
        give(3, 1, 2, *b"yyyyy.", *b"..y...", *b"nyyyy."),
        give(4, 0, 4, *b"yyyyy.", *b"..y...", *b"yyyyy."),
    ]
}

fn letter(answer: Option<bool>) -> u8 {
    match answer {
        Some(true) => b'y',
        Some(false) => b'n',
        None => b'.',
    }
}

/// Asks for each task.
fn ask<D: Deps>(rt: &impl Abort, told: &mut Told<D>, asked: Range, moment: &Moment)
    requires { IsTold (D.seen told.old.system) told.old.opens.items told.old.gives.items }
    ensures { IsTold (D.seen told.new.system) told.new.opens.items told.new.gives.items }
{
    for task in 0..TASKS {
        let number = task as u64;
        assert_eq!(rt;
            letter(told.met(number)),
            moment.met[task],
            "met: {moment:?}"
        );
        assert_eq!(rt;
            letter(told.may_join(number, asked)),
            moment.joins[task],
            "join: {moment:?}"
        );
        assert_eq!(rt;
            letter(told.children_done(number, asked)),
            moment.done[task],
            "done: {moment:?}"
        );
    }
}

/// Tells a system of an event, which is allowed.
pub(crate) fn tell<D: Deps>(rt: &impl Abort, told: &mut Told<D>, event: Event)
    requires { IsTold (D.seen told.old.system) told.old.opens.items told.old.gives.items }
    ensures { IsTold (D.seen told.new.system) told.new.opens.items told.new.gives.items }
{
    match event {
        Event::Reserve(access) => tests::reserve(rt, told, access),
        Event::Open(task, parent, access) => {
            let opened = tests::open(rt, told, task, parent, access);
            assert!(rt; opened, "{event:?}");
        }
        Event::Give(task, range) => {
            let given = tests::give(rt, told, task, range);
            assert!(rt; given, "{event:?}");
        }
    }
}

/// Tells a system one thing after the other, and asks over a range for each task behind each.
fn play<D: Deps>(rt: &impl Abort, alloc: Global, system: D, asked: Range, moments: &[Moment])
    requires { IsNew (D.seen system) }
{
    let mut told = Told::new(alloc, system);
    for moment in moments {
        tell(rt, &mut told, moment.event);
        ask(rt, &mut told, asked, moment);
    }
    drop(told);
}

/// Three systems, each told the same.
fn play_each(rt: &(impl Abort + AllocGlobal), asked: Range, moments: &[Moment]) {
    let alloc = rt.alloc();
    play(rt, alloc, PlainDeps::new(alloc), asked, moments);
    play(rt, alloc, Regions::new(alloc), asked, moments);
    play(rt, alloc, new_words(rt, 16_777_216), asked, moments);
}

#[test]
fn each_system_answers_as_was_worked_by_hand(rt: HostRuntime) {
    let first = Range { lo: 0, hi: 1 };
    let two = Range { lo: 0, hi: 2 };
    let third = Range { lo: 2, hi: 3 };
    play_each(&rt, first, &a_weak_parent());
    play_each(&rt, third, &the_other_half());
    play_each(&rt, first, &readers());
    play_each(&rt, first, &a_run());
    play_each(&rt, first, &another_operator());
    play_each(&rt, first, &nested_runs());
    play_each(&rt, first, &a_run_below_a_writer());
    play_each(&rt, two, &a_cell_given_up_early());
    play_each(&rt, first, &cuts_behind_what_is_done());
    play_each(&rt, first, &a_reduction_that_is_left_out());
}

/// A writer and its child of four cells: their accesses are kept until both are done there and a cut comes.
#[test]
fn what_is_done_is_left_out_at_a_cut(rt: HostRuntime) {
    let alloc = rt.alloc();
    let mut told = Told::new(alloc, Regions::new(alloc));
    assert_eq!(&rt; told.system().kept_at(0), 1);
    tell(&rt, &mut told, Event::Open(1, 0, writes(0, 4)));
    tell(&rt, &mut told, Event::Open(2, 1, writes(0, 4)));
    tell(&rt, &mut told, Event::Give(1, Range { lo: 0, hi: 4 }));
    tell(&rt, &mut told, Event::Give(2, Range { lo: 3, hi: 4 }));
    // the cut at 3 came before the child was done anywhere
    assert_eq!(&rt; told.system().kept_at(0), 3);
    assert_eq!(&rt; told.system().kept_at(3), 3);
    tell(&rt, &mut told, Event::Open(3, 0, adds(3, 4)));
    tell(&rt, &mut told, Event::Give(2, Range { lo: 0, hi: 3 }));
    // no cut divides the cell 3 alone, nor the cells before it as yet
    assert_eq!(&rt; told.system().kept_at(0), 3);
    assert_eq!(&rt; told.system().kept_at(3), 4);
    tell(&rt, &mut told, Event::Open(4, 0, reads(0, 1)));
    assert_eq!(&rt; told.system().kept_at(0), 2);
    assert_eq!(&rt; told.system().kept_at(1), 1);
    assert_eq!(&rt; told.system().kept_at(3), 4);
    drop(told);
}
