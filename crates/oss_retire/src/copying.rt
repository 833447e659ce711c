//! A line, copied access by access.

ghost use Rattle.std.specs.Prelude.{◌≡◌, ◌<◌, ◌+◌, ◌++◌, [], ◌∷◌, false, true, length, slice_get, IfOk, OnOk, Some};
ghost use Rattle.oss_model.specs.Rights.{covers};
ghost use Rattle.oss_access_lists.specs.Steps.{IsHung};
ghost use Rattle.oss_access_lists.specs.Tables.{hang_at, marks_at, no_hang, opened_in, wires_of};
ghost use Rattle.oss_access_lists.specs.Wires.{AreWired, IsBelow};
ghost use Rattle.oss_retire.specs.Copies.{AreCopied, AreGivenUp, AreHolding, at_};
ghost use Rattle.oss_retire.specs.Remainder.{AreRising, IsRemainder, is_spent};

use crate::remainder::Remainder;
use oss_access_lists::{AccessList, Marks};
use oss_syntax::Mode;
use std::alloc::{AllocError, Global};

/// The accesses that are kept, and where those of the old line have gone.
#[derive(Drop)]
pub(crate) struct Copy {
    pub(crate) line: AccessList,
    /// The number of the task of each.
    numbers: Vec<usize>,
    /// Of each access of the old line, its place here; 0 for main, and for one that is left out.
    places: Vec<usize>,
    /// Of each, the access in whose list it hangs there.
    owners: Vec<usize>,
}

/// The access is done, and may write.
pub(crate) fn is_spent(flags: Marks) -> bool
    ensures { result ≡ is_spent flags }
{
    flags.done && flags.writes
}

/// The accesses of a line that are not spent, none of them given up.
pub(crate) fn copied(
    alloc: Global,
    line: &AccessList,
    numbers: &[usize],
) -> Result<Copy, AllocError>
    requires settled { line.now.head ≡ 0 }
    requires size { length numbers.now ≡ length line.now.hangs }
    requires some { 0 < length line.now.hangs }
    ensures copied { IfOk result (λ c. AreCopied line.now.hangs line.now.stand numbers.now
        (length line.now.hangs) c.line.hangs c.numbers.items c.places.items c.owners.items) }
    ensures holding { IfOk result (λ c. AreHolding c.line.hangs) }
{
    let mut copy = Copy::new(alloc)?;
    for at in 1..line.count() {
        copy.add(line, numbers, at)?;
    }
    Ok(copy)
}

impl Copy {
    /// Main alone.
    fn new(alloc: Global) -> Result<Copy, AllocError>
        ensures hangs { IfOk result (λ c. c.line.hangs ≡ no_hang ∷ []) }
        ensures rest { IfOk result (λ c. (c.numbers.items ≡ 0 ∷ []) × (c.places.items ≡ 0 ∷ []) ×
            (c.owners.items ≡ 0 ∷ [])) }
    {
        let line = AccessList::new(alloc)?;
        let mut numbers = Vec::new(alloc);
        let mut places = Vec::new(alloc);
        let mut owners = Vec::new(alloc);
        numbers.push(0)?;
        places.push(0)?;
        owners.push(0)?;
        Ok(Copy {
            line,
            numbers,
            places,
            owners,
        })
    }

    /// The place of an access of the old line. The clause `wired` says that the lists are such as grow by openings.
    fn place_of(&self, at: usize) -> usize
        requires { at < length self.now.places.items }
        ensures place { result ≡ at_ self.now.places.items at }
        ensures wired { AreWired (wires_of self.now.line.hangs) }
    {
        let _settled = self.line.is_settled();
        self.places[at]
    }

    /// The access in whose list an access of the old line hangs.
    fn owner_of(&self, line: &AccessList, _numbers: &[usize], at: usize) -> usize
        requires within { (0 < at) × (at < length line.now.hangs) }
        requires copied { AreCopied line.now.hangs line.now.stand _numbers.now at self.now.line.hangs
            self.now.numbers.items self.now.places.items self.now.owners.items }
        ensures { IsBelow (wires_of line.now.hangs).place result at }
    {
        let _settled = line.is_settled();
        let hang = line.hang(at);
        if hang.before == 0 {
            hang.above
        } else {
            self.owners[hang.before]
        }
    }

    /// Hangs an access at the end of a list, and tells its place.
    fn hang(&mut self, above: usize, mode: Mode, number: usize) -> Result<usize, AllocError>
        requires within { above < length self.old.line.hangs }
        requires held { (hang_at self.old.line.hangs above).gave ≡ false }
        requires covered { covers (hang_at self.old.line.hangs above).mode mode ≡ true }
        ensures hangs { OnOk result (self.new.line.hangs ≡ opened_in self.old.line.hangs above mode) }
        ensures hung { OnOk result (IsHung (wires_of self.old.line.hangs) (wires_of self.new.line.hangs) above
            (length self.old.line.hangs)) }
        ensures numbers { OnOk result (self.new.numbers.items ≡ self.old.numbers.items ++ number ∷ []) }
        ensures place { IfOk result (λ place. place ≡ length self.old.line.hangs) }
        ensures rest { (self.new.places.items ≡ self.old.places.items) ×
            (self.new.owners.items ≡ self.old.owners.items) }
    {
        let place = self.line.count();
        self.line.open(above, mode)?;
        self.numbers.push(number)?;
        Ok(place)
    }

    /// Copies an access that is not spent, and tells its place.
    fn keep(
        &mut self,
        line: &AccessList,
        numbers: &[usize],
        at: usize,
        owner: usize,
    ) -> Result<usize, AllocError>
        requires settled { line.now.head ≡ 0 }
        requires size { length numbers.now ≡ length line.now.hangs }
        requires within { (0 < at) × (at < length line.now.hangs) }
        requires below { IsBelow (wires_of line.now.hangs).place owner at }
        requires not_spent { is_spent (marks_at line.now.stand at) ≡ false }
        requires copied { AreCopied line.now.hangs line.now.stand numbers.now at self.old.line.hangs
            self.old.numbers.items self.old.places.items self.old.owners.items }
        requires holding { AreHolding self.old.line.hangs }
        ensures copied { IfOk result (λ place. AreCopied line.now.hangs line.now.stand numbers.now
            (at + 1) self.new.line.hangs self.new.numbers.items (self.new.places.items ++ place ∷ [])
            (self.new.owners.items ++ owner ∷ [])) }
        ensures holding { OnOk result (AreHolding self.new.line.hangs) }
    {
        let _settled = line.is_settled();
        let above = self.place_of(owner);
        let number = numbers[at];
        let place = self.hang(above, line.hang(at).mode, number)?;
        Ok(place)
    }

    /// One more access of the old line: it is copied, if it is not spent.
    fn add(&mut self, line: &AccessList, numbers: &[usize], at: usize) -> Result<(), AllocError>
        requires settled { line.now.head ≡ 0 }
        requires size { length numbers.now ≡ length line.now.hangs }
        requires within { (0 < at) × (at < length line.now.hangs) }
        requires copied { AreCopied line.now.hangs line.now.stand numbers.now at self.old.line.hangs
            self.old.numbers.items self.old.places.items self.old.owners.items }
        requires holding { AreHolding self.old.line.hangs }
        ensures copied { OnOk result (AreCopied line.now.hangs line.now.stand numbers.now
            (at + 1) self.new.line.hangs self.new.numbers.items self.new.places.items self.new.owners.items) }
        ensures holding { OnOk result (AreHolding self.new.line.hangs) }
    {
        let _settled = line.is_settled();
        let owner = self.owner_of(line, numbers, at);
        let place = if is_spent(line.flags(at)) {
            0
        } else {
            self.keep(line, numbers, at, owner)?
        };
        self.places.push(place)?;
        self.owners.push(owner)?;
        Ok(())
    }

    /// Gives up an access of the old line here, if it was copied.
    fn give(&mut self, line: &AccessList, _numbers: &[usize], at: usize)
        requires within { (0 < at) × (at < length line.now.hangs) }
        requires gave { (hang_at line.now.hangs at).gave ≡ true }
        requires copied { AreCopied line.now.hangs line.now.stand _numbers.now (length line.now.hangs)
            self.old.line.hangs self.old.numbers.items self.old.places.items self.old.owners.items }
        requires given { AreGivenUp line.now.hangs line.now.stand (length line.now.hangs) at self.old.line.hangs
            self.old.places.items }
        ensures copied { AreCopied line.now.hangs line.now.stand _numbers.now (length line.now.hangs)
            self.new.line.hangs self.new.numbers.items self.new.places.items self.new.owners.items }
        ensures given { AreGivenUp line.now.hangs line.now.stand (length line.now.hangs)
            (at + 1) self.new.line.hangs self.new.places.items }
    {
        let place = self.place_of(at);
        if place != 0 {
            self.line.give(place);
        }
    }

    /// Gives up here what is given up in the old line.
    pub(crate) fn give_all(&mut self, line: &AccessList, numbers: &[usize])
        requires some { 0 < length line.now.hangs }
        requires copied { AreCopied line.now.hangs line.now.stand numbers.now (length line.now.hangs)
            self.old.line.hangs self.old.numbers.items self.old.places.items self.old.owners.items }
        requires holding { AreHolding self.old.line.hangs }
        ensures copied { AreCopied line.now.hangs line.now.stand numbers.now (length line.now.hangs)
            self.new.line.hangs self.new.numbers.items self.new.places.items self.new.owners.items }
        ensures given { AreGivenUp line.now.hangs line.now.stand (length line.now.hangs) (length line.now.hangs)
            self.new.line.hangs self.new.places.items }
    {
        for at in 1..line.count() {
            if line.hang(at).gave {
                self.give(line, numbers, at);
            }
        }
    }

    /// What is left, once all is given up that was.
    pub(crate) fn told(self, line: &AccessList, numbers: &[usize]) -> Remainder
        requires settled { line.now.head ≡ 0 }
        requires size { length numbers.now ≡ length line.now.hangs }
        requires copied { AreCopied line.now.hangs line.now.stand numbers.now (length line.now.hangs)
            self.line.hangs self.numbers.items self.places.items self.owners.items }
        requires given { AreGivenUp line.now.hangs line.now.stand (length line.now.hangs)
            (length line.now.hangs) self.line.hangs self.places.items }
        ensures remainder { IsRemainder line.now.hangs line.now.stand numbers.now result.line.hangs
            result.numbers.items }
        ensures size { length result.numbers.items ≡ length result.line.hangs }
        ensures main { slice_get result.numbers.items 0 ≡ Some 0 }
        ensures rising { AreRising numbers.now → AreRising result.numbers.items }
        ensures same { result.line ≡ self.line }
    {
        let _settled = line.is_settled();
        let _wired = self.line.is_settled();
        let Copy { line, numbers, .. } = self;
        Remainder { line, numbers }
    }
}
