//! Lines that read alike: where the first of them stands, and how many tasks have them.

ghost use Rattle.std.specs.Prelude.{◌≡◌, ℕ, List, None, Some, IfOk, OnOk};
ghost use Rattle.oss_missing_text.specs.Counting.{later_alike};
ghost use Rattle.oss_missing_text.specs.Tables.{AreNoted, HasAlike, IsNoted, behind_of, kept_at, noted_at};

use indexmap::IndexMap;
use oss_syntax::{Bytes, List};
use std::alloc::{AllocError, Global};
use std::marker::Model;

/// The tasks that have one line: the numbers of the first one and the last one, and how many they are.
#[derive(Clone, Copy)]
pub struct Alike {
    first: usize,
    last: usize,
    count: usize,
}

/// Of each line the tasks that have it: contracts see the lines of all tasks.
pub struct Table<'t> {
    told: &'t [List<Bytes>],
    alike: IndexMap<&'t [u8], Alike>,
}

// By hand, so that who lets one go calls this, and does not take it apart at each exit.
impl<'t> Drop for Table<'t> {
    fn drop(self) {
        let Table { told: _, alike } = self;
        drop(alike);
    }
}

impl<'t> Model for Table<'t> {
    ghost use Rattle.std.specs.Prelude.{ℕ, List};
    ghost use Rattle.oss_missing_text.specs.Tables.{HasAlike};

    ghost Value = { List (List (List ℕ)) };

    ghost view = { λ t. t.told.now };

    ghost invariant = { λ t. HasAlike t.alike t.told.now };
}

impl<'t> Table<'t> {
    /// A table of the lines of all tasks. It costs what the lines do. Out of memory is the one error.
    pub fn of(alloc: Global, told: &'t [List<Bytes>]) -> Result<Table<'t>, AllocError>
        ensures { IfOk result (λ table. table ≡ told.now) }
    {
        let mut alike = IndexMap::new(alloc);
        note_tasks(&mut alike, told)?;
        Ok(Table { told, alike })
    }

    /// How many tasks behind that with this number have a line; `None` where a task before it has it.
    pub fn later(&self, place: usize, line: &[u8]) -> Option<usize>
        ensures { result ≡ later_alike self.now place line.now }
    {
        behind(self.alike.get(line).copied(), place)
    }
}

/// How many of these tasks stand behind that with this number; `None` where one stands before it.
fn behind(alike: Option<Alike>, place: usize) -> Option<usize>
    ensures { result ≡ behind_of place alike }
{
    match alike {
        Some(alike) => {
            if alike.first < place {
                None
            } else if alike.first == place {
                Some(alike.count.saturating_sub(1))
            } else {
                Some(alike.count)
            }
        }
        None => Some(0),
    }
}

/// Notes the lines of all tasks in a table that has none.
fn note_tasks<'t>(
    alike: &mut IndexMap<&'t [u8], Alike>,
    told: &'t [List<Bytes>],
) -> Result<(), AllocError>
    requires { (line : List ℕ) → kept_at alike.old line ≡ None }
    ensures { OnOk result (HasAlike alike.new told.now) }
{
    for (place, lines) in told.iter().enumerate() {
        note_all(alike, lines.as_slice(), place)?;
    }
    Ok(())
}

/// Notes that the task with this number has these lines.
fn note_all<'t>(
    alike: &mut IndexMap<&'t [u8], Alike>,
    lines: &'t [Bytes],
    place: usize,
) -> Result<(), AllocError>
    ensures { OnOk result (AreNoted alike.old alike.new lines.now place) }
{
    for line in lines {
        note(alike, line.as_slice(), place)?;
    }
    Ok(())
}

/// Notes that the task with this number has a line.
fn note<'t>(
    alike: &mut IndexMap<&'t [u8], Alike>,
    line: &'t [u8],
    place: usize,
) -> Result<(), AllocError>
    ensures { OnOk result (IsNoted alike.old alike.new line.now place) }
{
    let old = alike.get(line).copied();
    alike.insert(line, noted(old, place))?;
    Ok(())
}

/// The tasks that have a line, and the one with this number.
fn noted(old: Option<Alike>, place: usize) -> Alike
    ensures { result ≡ noted_at place old }
{
    match old {
        Some(alike) => with_task(alike, place),
        None => Alike {
            first: place,
            last: place,
            count: 1,
        },
    }
}

/// These tasks, and the one with this number, if it is not the last of them.
fn with_task(alike: Alike, place: usize) -> Alike
    ensures { result ≡ noted_at place (Some alike) }
{
    if alike.last == place {
        return alike;
    }
    Alike {
        first: alike.first,
        last: place,
        count: alike.count.saturating_add(1),
    }
}
