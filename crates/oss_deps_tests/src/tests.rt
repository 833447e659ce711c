//! Dependency systems beside lists that were worked by hand, and beside each other. Each call that wanted
//! memory is made again: nothing is lost by that.

mod beside;
mod obstacles;
mod worked;

ghost use Rattle.std.specs.Prelude.{◌≤◌, ◌<◌};
ghost use Rattle.oss_deps.specs.Seen.{IsNew};
ghost use Rattle.oss_word_deps.specs.Worded.{seen_by};
ghost use Rattle.oss_deps_tests.specs.Told.{IsTold};

use crate::Told;
use oss_deps::Deps;
use oss_syntax::{Access, Range};
use oss_word_deps::WordDeps;
use std::process::Abort;

/// A new system by words, with so many entries at most.
pub(crate) fn new_words(rt: &(impl Abort + AllocGlobal), most: u32) -> WordDeps
    requires { (0 < most) × (most ≤ 16777216) }
    ensures { IsNew (seen_by result) }
{
    match WordDeps::new(rt.alloc(), most) {
        Ok(system) => system,
        Err(_) => WordDeps::new(rt.alloc(), most).expect(rt, "memory"),
    }
}

/// Reserves an access.
pub(crate) fn reserve<D: Deps>(rt: &impl Abort, told: &mut Told<D>, access: Access)
    requires { IsTold (D.seen told.old.system) told.old.opens.items told.old.gives.items }
    ensures { IsTold (D.seen told.new.system) told.new.opens.items told.new.gives.items }
{
    match told.reserve(access) {
        Ok(()) => {}
        Err(_) => told.reserve(access).expect(rt, "memory"),
    }
}

/// Opens a task, where that is allowed, and tells whether it was opened.
pub(crate) fn open<D: Deps>(
    rt: &impl Abort,
    told: &mut Told<D>,
    task: u64,
    parent: u64,
    access: Access,
) -> bool
    requires { IsTold (D.seen told.old.system) told.old.opens.items told.old.gives.items }
    ensures { IsTold (D.seen told.new.system) told.new.opens.items told.new.gives.items }
{
    match told.open(task, parent, access) {
        Ok(opened) => opened,
        Err(_) => told.open(task, parent, access).expect(rt, "memory"),
    }
}

/// Gives up a range, where that is allowed, and tells whether it was given up.
pub(crate) fn give<D: Deps>(rt: &impl Abort, told: &mut Told<D>, task: u64, range: Range) -> bool
    requires { IsTold (D.seen told.old.system) told.old.opens.items told.old.gives.items }
    ensures { IsTold (D.seen told.new.system) told.new.opens.items told.new.gives.items }
{
    match told.give(task, range) {
        Ok(given) => given,
        Err(_) => told.give(task, range).expect(rt, "memory"),
    }
}
