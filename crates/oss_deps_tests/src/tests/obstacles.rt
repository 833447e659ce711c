//! Which task stands in the way of each one by the plain lists, and which child is not done, at each moment of
//! some lists that were worked by hand. A line has two texts with a letter for each task, main first: the
//! number of the task that is told, a dash where none is, and a dot where there is nothing to ask.

ghost use Rattle.std.specs.Prelude.{◌<◌};
ghost use Rattle.oss_deps.specs.Seen.{IsNew};
ghost use Rattle.oss_deps_tests.specs.Told.{IsTold};

use crate::Told;
use crate::tests::worked::{Event, TASKS, reads, tell, weakly, writes};
use oss_deps::{Deps, PlainDeps};
use oss_model::TaskNo;
use oss_syntax::{Access, Range};
use std::alloc::Global;
use std::process::Abort;

/// What a system is told, and whom it names behind that.
#[derive(Clone, Copy, Debug)]
struct Naming {
    event: Event,
    obstacles: [u8; TASKS],
    children: [u8; TASKS],
}

fn open(
    task: u64,
    parent: u64,
    access: Access,
    obstacles: [u8; TASKS],
    children: [u8; TASKS],
) -> Naming {
    Naming {
        event: Event::Open(task, parent, access),
        obstacles,
        children,
    }
}

fn give(task: u64, lo: u32, hi: u32, obstacles: [u8; TASKS], children: [u8; TASKS]) -> Naming
    requires ordered { lo < hi }
    requires within { hi < 1048576 }
{
    Naming {
        event: Event::Give(task, Range { lo, hi }),
        obstacles,
        children,
    }
}

/// Each of three writers of one cell is told of the one before it that is not done.
fn a_chain() -> [Naming; 6] {
    [
        open(1, 0, writes(0, 1), *b"--....", *b"1-...."),
        open(2, 0, writes(0, 1), *b"--1...", *b"1--..."),
        open(3, 0, writes(0, 1), *b"--12..", *b"1---.."),
        give(2, 0, 1, *b"--11..", *b"1---.."),
        give(1, 0, 1, *b"----..", *b"3---.."),
        give(3, 0, 1, *b"----..", *b"----.."),
    ]
}

/// Two readers behind two writers, and a writer behind the readers.
fn readers_behind_writers() -> [Naming; 10] {
    [
        open(1, 0, writes(0, 1), *b"--....", *b"1-...."),
        open(2, 0, writes(0, 1), *b"--1...", *b"1--..."),
        open(3, 0, reads(0, 1), *b"--12..", *b"1---.."),
        open(4, 0, reads(0, 1), *b"--122.", *b"1----."),
        open(5, 0, writes(0, 1), *b"--1224", *b"1-----"),
        give(1, 0, 1, *b"---224", *b"2-----"),
        give(2, 0, 1, *b"-----4", *b"3-----"),
        give(4, 0, 1, *b"-----3", *b"3-----"),
        give(3, 0, 1, *b"------", *b"5-----"),
        give(5, 0, 1, *b"------", *b"------"),
    ]
}

/// A child of a weak task is told of an earlier sibling of its creator, and one behind it of that child; asked
/// over two cells, the second of which is given up last.
fn below_a_weak_task() -> [Naming; 9] {
    [
        open(1, 0, writes(0, 2), *b"--....", *b"1-...."),
        open(2, 0, weakly(0, 2), *b"---...", *b"1--..."),
        open(3, 2, writes(0, 1), *b"---1..", *b"1-3-.."),
        open(4, 2, reads(0, 1), *b"---13.", *b"1-3--."),
        give(1, 0, 1, *b"----3.", *b"2-3--."),
        give(3, 0, 1, *b"-----.", *b"2-4--."),
        give(4, 0, 1, *b"-----.", *b"2----."),
        give(2, 0, 2, *b"-----.", *b"1----."),
        give(1, 1, 2, *b"-----.", *b"-----."),
    ]
}

fn digit(named: Option<TaskNo>) -> u8 {
    match named {
        Some(task) => {
            if task.0 < TASKS as u64 {
                b"012345"[task.0 as usize]
            } else {
                b'?'
            }
        }
        None => b'-',
    }
}

fn letter(answer: Option<Option<TaskNo>>) -> u8 {
    match answer {
        Some(named) => digit(named),
        None => b'.',
    }
}

/// Asks for each task.
fn ask<D: Deps>(rt: &impl Abort, told: &mut Told<D>, asked: Range, naming: &Naming)
    requires { IsTold (D.seen told.old.system) told.old.opens.items told.old.gives.items }
    ensures { IsTold (D.seen told.new.system) told.new.opens.items told.new.gives.items }
{
    for task in 0..TASKS {
        let number = task as u64;
        assert_eq!(rt;
            letter(told.obstacle(number)),
            naming.obstacles[task],
            "obstacle: {naming:?}"
        );
        assert_eq!(rt;
            letter(told.undone_child(number, asked)),
            naming.children[task],
            "child: {naming:?}"
        );
    }
}

/// Tells a system one thing after the other, and asks over a range for each task behind each.
fn play<D: Deps>(rt: &impl Abort, alloc: Global, system: D, asked: Range, namings: &[Naming])
    requires { IsNew (D.seen system) }
{
    let mut told = Told::new(alloc, system);
    for naming in namings {
        tell(rt, &mut told, naming.event);
        ask(rt, &mut told, asked, naming);
    }
    drop(told);
}

#[test]
fn lists_name_who_stands_in_the_way(rt: HostRuntime) {
    let alloc = rt.alloc();
    let one = Range { lo: 0, hi: 1 };
    let two = Range { lo: 0, hi: 2 };
    play(&rt, alloc, PlainDeps::new(alloc), one, &a_chain());
    play(
        &rt,
        alloc,
        PlainDeps::new(alloc),
        one,
        &readers_behind_writers(),
    );
    play(&rt, alloc, PlainDeps::new(alloc), two, &below_a_weak_task());
}
