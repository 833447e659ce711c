//! Points: the numbers from main down to a task or an act of it.

ghost use Rattle.std.specs.Prelude.{◌≡◌, ◌≤◌, ◌<◌, ◌++◌, ◌∷◌, [], ℕ, List as Items, length, None, Some, IfOk, ◌↔◌, OnOk, nat_eq, refl};
ghost use Rattle.std.specs.Cmp.{partial_equiv_from_equiv};
ghost use Rattle.std.specs.Cmp.Lexicographic.{nat_list_cmp_total, nat_list_eq_equiv, pointwise, slice_cmp, texts_po, texts_ties};
ghost use Rattle.std.specs.Fmt.{decimal};
ghost use Rattle.std.specs.Ordering.{MatchOrdering, nat_cmp};
ghost use Rattle.oss_model.specs.Order.{IsBefore};
ghost use Rattle.oss_model.specs.Points.{IsPoint, IsPointText, continued as number_with, kept_point, numbers_from, text_of};

use crate::numbers::Numbers;
use oss_syntax::{Bytes, List};
use std::alloc::{AllocError, Global};
use std::cmp::Ordering;
use std::marker::Model;

/// The point of a task has at most so many numbers, and that of an act one more.
const MOST: usize = 65;

/// Where a task, or an act of it, stands: the numbers from main's 0 down. A few of them take no memory, unless they
/// were read from a text.
pub struct Point {
    alloc: Global,
    numbers: Numbers,
}

// By hand, so that who lets one go calls this, and does not take it apart at each exit.
impl Drop for Point {
    fn drop(self) {
        let Point { alloc: _, numbers } = self;
        drop(numbers);
    }
}

impl Model for Point {
    ghost use Rattle.std.specs.Prelude.{List as Items, ℕ};

    ghost Value = { Items ℕ };

    ghost use Rattle.oss_model.specs.Numbers.{numbers_in};
    ghost use Rattle.oss_model.specs.Points.{IsPoint};

    ghost view = { λ p. numbers_in p.numbers };

    ghost invariant = { λ p. IsPoint (numbers_in p.numbers) };
}

impl Point {
    /// The point of main.
    pub fn main(alloc: Global) -> Result<Point, AllocError>
        ensures { IfOk result (λ main. main ≡ 0 ∷ []) }
    {
        Ok(Point {
            alloc,
            numbers: Numbers::one(0),
        })
    }

    /// The point of the child that a task with this point creates after `k` others. Condition: this point has
    /// fewer than 66 numbers.
    pub fn child(&self, k: u16) -> Result<Point, AllocError>
        requires { length self.now < 66 }
        ensures { IfOk result (λ child. child ≡ self.now ++ k ∷ []) }
    {
        let numbers = self.numbers.with(self.alloc, k)?;
        Ok(Point {
            alloc: self.alloc,
            numbers,
        })
    }

    /// The same point. Want of memory is the one error.
    pub fn copy(&self) -> Result<Point, AllocError>
        ensures { IfOk result (λ copy. copy ≡ self.now) }
    {
        let numbers = self.numbers.copy(self.alloc)?;
        Ok(Point {
            alloc: self.alloc,
            numbers,
        })
    }

    /// The numbers, from main's 0 down.
    pub fn as_slice(&self) -> &[u16]
        ensures numbers { result.now ≡ self.now }
        ensures point { IsPoint self.now }
    {
        self.numbers.as_slice()
    }
}

impl PartialEq for Point {
    ghost eq = { pointwise nat_eq };

    ghost laws = { partial_equiv_from_equiv nat_list_eq_equiv };

    fn eq(&self, other: &Point) -> bool {
        self.numbers.as_slice() == other.numbers.as_slice()
    }
}

impl Eq for Point {
    ghost laws = { nat_list_eq_equiv };
}

impl PartialOrd for Point {
    ghost partial_cmp = { λ p q. Some (slice_cmp nat_cmp p q) };

    ghost laws = { texts_po };

    fn partial_cmp(&self, other: &Point) -> Option<Ordering> {
        Some(self.cmp(other))
    }
}

/// A point comes before another where, at the first place where they differ, it has the smaller number, or ends.
impl Ord for Point {
    ghost cmp = { slice_cmp nat_cmp };

    ghost total = { nat_list_cmp_total };

    ghost matches_partial_cmp = { λ p q. refl };

    ghost matches_eq = { texts_ties };

    fn cmp(&self, other: &Point) -> Ordering
        ensures value { result ≡ slice_cmp nat_cmp self.now other.now }
        ensures order { MatchOrdering result (IsBefore self.now other.now) (self.now ≡ other.now)
            (IsBefore other.now self.now) }
    {
        self.numbers.as_slice().cmp(other.numbers.as_slice())
    }
}

/// The text of a point: its numbers in decimal, joined by dots. Want of memory is the one error.
pub fn point_text(alloc: Global, p: &[u16]) -> Result<Bytes, AllocError>
    ensures { IfOk result (λ text. text ≡ text_of p.now) }
{
    let mut text = Vec::new(alloc);
    let Some((first, more)) = p.split_first() else {
        return Ok(Bytes::from_vec(text));
    };
    write_number(alloc, *first, &mut text)?;
    for n in more {
        text.push(b'.')?;
        write_number(alloc, *n, &mut text)?;
    }
    Ok(Bytes::from_vec(text))
}

/// Writes a number in decimal behind a text.
fn write_number(alloc: Global, n: u16, text: &mut Vec<u8>) -> Result<(), AllocError>
    ensures { OnOk result (text.new.items ≡ text.old.items ++ decimal n) }
{
    let digits = format!(in alloc; "{n}")?;
    text.extend_from_slice(digits.as_bytes())
}

/// The point of a task that a text is; `None` exactly where it is the text of none. Want of memory is the one error.
pub fn read_point(alloc: Global, text: &[u8]) -> Result<Option<Point>, AllocError>
    ensures { IfOk result (λ point. (p : Items ℕ) → (point ≡ Some p) ↔ IsPointText text.now p) }
{
    let Some(numbers) = kept(numbers_of(alloc, text)?) else {
        return Ok(None);
    };
    let numbers = Numbers::listed(alloc, numbers)?;
    Ok(Some(Point { alloc, numbers }))
}

/// The numbers, if they are those of a point of a task.
fn kept(numbers: Option<List<u16>>) -> Option<List<u16>>
    ensures { result ≡ kept_point numbers }
{
    let numbers = numbers?;
    let first = numbers.as_slice().first().copied();
    if first == Some(0) && numbers.len() <= MOST {
        Some(numbers)
    } else {
        None
    }
}

/// The numbers of a text, if it is decimal numbers of 16 bits that are joined by dots.
fn numbers_of(alloc: Global, text: &[u8]) -> Result<Option<List<u16>>, AllocError>
    ensures { IfOk result (λ numbers. numbers ≡ numbers_from None text.now) }
{
    let mut numbers = Vec::new(alloc);
    let mut number = None;
    for b in text {
        if *b == b'.' {
            match number {
                Some(n) => numbers.push(n)?,
                None => return Ok(None),
            }
            number = None;
        } else {
            number = continued(number, *b);
            if number.is_none() {
                return Ok(None);
            }
        }
    }
    match number {
        Some(n) => {
            numbers.push(n)?;
            Ok(Some(List::from_vec(numbers)))
        }
        None => Ok(None),
    }
}

/// The number of the bytes since the last dot, with one more byte.
fn continued(number: Option<u16>, b: u8) -> Option<u16>
    ensures { result ≡ number_with number b }
{
    if b < b'0' || b > b'9' {
        return None;
    }
    let digit = u16::from(b - b'0');
    match number {
        None => Some(digit),
        Some(0) => None,
        Some(n) => n.checked_mul(10)?.checked_add(digit),
    }
}
