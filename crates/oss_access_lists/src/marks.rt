//! The flags of an access, and which of them go on to its next sibling and to its first child.

ghost use Rattle.oss_model.specs.Rights.{op_eq};
ghost use Rattle.std.specs.Prelude.{◌≡◌, ◌<◌, ◌≤◌, length};
ghost use Rattle.std.proofs.Math.ListN.{set};
ghost use Rattle.oss_access_lists.specs.Flags.{to_next, to_child, is_whole, bits_of, bit};
ghost use Rattle.oss_access_lists.specs.Tables.{marks_at, hang_at, plus, minus, is_none, no_marks, main_marks, no_hang, only_done};

use crate::hang::Hang;
use oss_syntax::{Mode, Op};

/// The flags of an access to a cell. Each is set once, and is never taken back.
#[derive(Clone, Copy)]
pub struct Marks {
    /// Nothing earlier stands in the way of a read.
    pub reads: bool,
    /// The access is a reduction, and nothing earlier stands in the way of its join.
    pub joins: bool,
    /// Nothing earlier stands in the way of a write.
    pub writes: bool,
    /// The task has given up the cell.
    pub given: bool,
    /// The task has given up the cell, and each access of its children to it is done.
    pub done: bool,
    /// The access of each earlier sibling is done.
    pub clear: bool,
}

impl Marks {
    /// The flags as the bits of a number, from the lowest: `reads`, `joins`, `writes`, `given`, `done`,
    /// `clear`. The other bits are 0.
    pub fn bits(self) -> u16
        ensures { result ≡ bits_of self }
    {
        bit(self.reads, 1)
            + bit(self.joins, 2)
            + bit(self.writes, 4)
            + bit(self.given, 8)
            + bit(self.done, 16)
            + bit(self.clear, 32)
    }
}

/// What a flag counts in the number of all.
fn bit(is_set: bool, weight: u16) -> u16
    ensures weight { result ≡ bit is_set weight }
    ensures small { result ≤ weight }
{
    if is_set { weight } else { 0 }
}

/// No flag.
pub(crate) fn no_marks() -> Marks
    ensures { result ≡ no_marks }
{
    Marks {
        reads: false,
        joins: false,
        writes: false,
        given: false,
        done: false,
        clear: false,
    }
}

/// Main may read and write from the start.
pub(crate) fn main_marks() -> Marks
    ensures { result ≡ main_marks }
{
    Marks {
        reads: true,
        joins: false,
        writes: true,
        given: false,
        done: false,
        clear: false,
    }
}

/// What goes up from the last child.
pub(crate) fn only_done() -> Marks
    ensures { result ≡ only_done }
{
    Marks {
        reads: false,
        joins: false,
        writes: false,
        given: false,
        done: true,
        clear: false,
    }
}

/// The flags of both.
pub(crate) fn plus(a: Marks, b: Marks) -> Marks
    ensures { result ≡ plus a b }
{
    Marks {
        reads: a.reads || b.reads,
        joins: a.joins || b.joins,
        writes: a.writes || b.writes,
        given: a.given || b.given,
        done: a.done || b.done,
        clear: a.clear || b.clear,
    }
}

/// The flags of the first that the second has not.
pub(crate) fn minus(a: Marks, b: Marks) -> Marks
    ensures { result ≡ minus a b }
{
    Marks {
        reads: a.reads && !b.reads,
        joins: a.joins && !b.joins,
        writes: a.writes && !b.writes,
        given: a.given && !b.given,
        done: a.done && !b.done,
        clear: a.clear && !b.clear,
    }
}

/// There is no flag.
pub(crate) fn is_none(a: Marks) -> bool
    ensures { result ≡ is_none a }
{
    !(a.reads || a.joins || a.writes || a.given || a.done || a.clear)
}

/// The operators are one.
fn same_op(a: Op, b: Op) -> bool
    ensures { result ≡ op_eq a b }
{
    match a {
        Op::Add => match b {
            Op::Add => true,
            Op::And => false,
            Op::Or => false,
            Op::Xor => false,
        },
        Op::And => match b {
            Op::Add => false,
            Op::And => true,
            Op::Or => false,
            Op::Xor => false,
        },
        Op::Or => match b {
            Op::Add => false,
            Op::And => false,
            Op::Or => true,
            Op::Xor => false,
        },
        Op::Xor => match b {
            Op::Add => false,
            Op::And => false,
            Op::Or => false,
            Op::Xor => true,
        },
    }
}

/// The access is a read.
fn is_read(m: Mode) -> bool
    ensures { result ≡ Rattle.oss_access_lists.specs.Flags.is_read m }
{
    match m {
        Mode::Read => true,
        Mode::Write => false,
        Mode::Fold(_) => false,
    }
}

/// The access is a reduction, by whatever operator.
fn is_fold(m: Mode) -> bool
    ensures { result ≡ Rattle.oss_access_lists.specs.Flags.is_fold m }
{
    match m {
        Mode::Read => false,
        Mode::Write => false,
        Mode::Fold(_) => true,
    }
}

/// Both are reductions by one operator. Their folds commute, so the join of the later one need not wait for the
/// earlier one.
fn same_fold(m: Mode, n: Mode) -> bool
    ensures { result ≡ Rattle.oss_access_lists.specs.Flags.same_fold m n }
{
    match m {
        Mode::Read => false,
        Mode::Write => false,
        Mode::Fold(a) => match n {
            Mode::Read => false,
            Mode::Write => false,
            Mode::Fold(b) => same_op(a, b),
        },
    }
}

/// It is given and done.
fn is_over(x: Marks) -> bool
    ensures { result ≡ Rattle.oss_access_lists.specs.Flags.is_over x }
{
    x.given && x.done
}

/// What goes from an access with these flags to the next sibling.
pub(crate) fn to_next(m: Mode, n: Mode, x: Marks) -> Marks
    ensures { result ≡ to_next m n x }
{
    let over = is_over(x);
    let joins = if same_fold(m, n) {
        x.joins
    } else {
        x.writes && over
    };
    Marks {
        reads: x.reads && (is_read(m) || over),
        joins: is_fold(n) && joins,
        writes: x.writes && over,
        given: false,
        done: false,
        clear: x.clear && over,
    }
}

/// What goes to the first child.
pub(crate) fn to_child(m: Mode, n: Mode, x: Marks) -> Marks
    ensures { result ≡ to_child m n x }
{
    let joins = if same_fold(m, n) { x.joins } else { x.writes };
    Marks {
        reads: x.reads,
        joins: is_fold(n) && joins,
        writes: x.writes,
        given: false,
        done: false,
        clear: true,
    }
}

/// The access and all before it in its list are done.
pub(crate) fn is_whole(x: Marks) -> bool
    ensures { result ≡ is_whole x }
{
    x.clear && is_over(x)
}

/// The flags of an access, none where there is no row.
pub(crate) fn marks_at(all: &[Marks], at: usize) -> Marks
    ensures { result ≡ marks_at all.now at }
{
    match all.get(at) {
        Some(one) => *one,
        None => no_marks(),
    }
}

/// Writes the flags of an access.
pub(crate) fn put(all: &mut [Marks], at: usize, one: Marks)
    requires { at < length all.old }
    ensures { all.new ≡ set all.old at one }
{
    all[at] = one;
}

/// The row of an access; where there is none, that of one which hangs nowhere.
pub(crate) fn hang_at(all: &[Hang], at: usize) -> Hang
    ensures { result ≡ hang_at all.now at }
{
    match all.get(at) {
        Some(one) => *one,
        None => no_hang(),
    }
}

/// So main hangs, and what is no access.
pub(crate) fn no_hang() -> Hang
    ensures { result ≡ no_hang }
{
    Hang {
        hung: false,
        above: 0,
        before: 0,
        next: 0,
        child: 0,
        last: 0,
        mode: Mode::Write,
        gave: false,
    }
}
