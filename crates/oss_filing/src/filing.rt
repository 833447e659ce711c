//! Rows are linked in the order of their numbers, and then given up.

ghost use Rattle.std.specs.Prelude.{◌≡◌, ◌<◌, ◌≤◌, ◌+◌, ◌*◌, ℕ, [], IfOk, IfSome, length};
ghost use Rattle.oss_filing.specs.Filed.{IsFiled};
ghost use Rattle.oss_filing.specs.Owned.{HasGiven, HasLinked, IsAlone};
ghost use Rattle.oss_filing.specs.Rows.{AreSound};

use crate::own::OwnNet;
use crate::row::Row;
use std::alloc::{AllocError, Global};

/// Links all rows.
fn link_all(net: &mut OwnNet, rows: &[Row])
    requires sound { AreSound rows.now }
    requires alone { IsAlone net.old.known net.old.size × (net.old.known.view.held ≡ []) }
    requires bare { (net.old.known.view.links ≡ []) × (net.old.known.view.gives ≡ []) }
    requires inside { (length rows.now < net.old.size) × (net.old.size ≤ 16777216) }
    ensures linked { HasLinked net.new.known rows.now (length rows.now) }
    ensures alone { IsAlone net.new.known net.new.size × (net.new.known.view.held ≡ []) }
    ensures gives { net.new.known.view.gives ≡ [] }
    ensures size { net.new.size ≡ net.old.size }
{
    for at in 0..rows.len() {
        net.link(at as u32 + 1, rows[at]);
    }
}

/// Gives up each row that is given up.
fn give_all(net: &mut OwnNet, rows: &[Row])
    requires alone { IsAlone net.old.known net.old.size × (net.old.known.view.held ≡ []) }
    requires linked { HasLinked net.old.known rows.now (length rows.now) }
    requires bare { net.old.known.view.gives ≡ [] }
    requires inside { (length rows.now < net.old.size) × (net.old.size ≤ 16777216) }
    ensures linked { HasLinked net.new.known rows.now (length rows.now) }
    ensures given { HasGiven net.new.known rows.now (length rows.now) }
    ensures alone { IsAlone net.new.known net.new.size × (net.new.known.view.held ≡ []) }
    ensures size { net.new.size ≡ net.old.size }
{
    for at in 0..rows.len() {
        if rows[at].given {
            net.give(at as u32 + 1);
        }
    }
}

/// The words of so many entries, from 2 to 16,777,216, over these rows, of which the first is that of the entry 1: the draw
/// word, and of each entry from main's on its state word and its info word. Each row is linked, those that are given up are given up, and no message is under
/// way. `None` where the entries could not be drawn, which a net of its own never shows. Want of memory is the one error.
/// Condition: main's entry and those of the rows are no more than these.
pub fn file(alloc: Global, rows: &[Row], entries: u32) -> Result<Option<Vec<u64>>, AllocError>
    requires sound { AreSound rows.now }
    requires room { length rows.now < entries }
    requires entries { (2 ≤ entries) × (entries ≤ 16777216) }
    ensures { IfOk result (λ made. IfSome made (λ words. IsFiled entries rows.now words.items)) }
{
    match OwnNet::new(alloc, entries)? {
        Some(mut net) => {
            link_all(&mut net, rows);
            give_all(&mut net, rows);
            Ok(Some(net.end()?))
        }
        None => Ok(None),
    }
}
