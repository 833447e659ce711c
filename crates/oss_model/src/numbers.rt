//! The numbers of a point: a few stand in the point itself, and more in memory of their own.

ghost use Rattle.std.specs.Prelude.{◌≡◌, ◌<◌, ◌++◌, ◌∷◌, [], false, length, IfOk};
ghost use Rattle.oss_model.specs.Numbers.{numbers_in};

use oss_syntax::List;
use std::alloc::{AllocError, Global};
use std::marker::Model;

/// At most seven numbers. They take no memory.
#[derive(Drop)]
pub(crate) struct FewNumbers {
    numbers: [u16; 7],
    count: u8,
}

impl Model for FewNumbers {
    ghost use Rattle.std.specs.Prelude.{List as Items, ℕ, ◌≤◌, take};

    ghost Value = { Items ℕ };

    ghost view = { λ few. take few.count few.numbers };

    ghost invariant = { λ few. few.count ≤ 7 };
}

impl FewNumbers {
    /// No number.
    fn new() -> FewNumbers
        ensures { result ≡ [] }
    {
        FewNumbers {
            numbers: [0; 7],
            count: 0,
        }
    }

    /// The same numbers.
    fn copy(&self) -> FewNumbers
        ensures { result ≡ self.now }
    {
        FewNumbers {
            numbers: self.numbers,
            count: self.count,
        }
    }

    /// The numbers in their order.
    fn as_slice(&self) -> &[u16]
        ensures { result.now ≡ self.now }
    {
        &self.numbers[..self.count as usize]
    }

    /// Whether there is no room for one more.
    fn is_full(&self) -> bool
        ensures { result ≡ false → length self.now < 7 }
    {
        self.count == 7
    }

    /// One more number behind them.
    fn push(&mut self, k: u16)
        requires { length self.old < 7 }
        ensures { self.new ≡ self.old ++ k ∷ [] }
    {
        self.numbers[self.count as usize] = k;
        self.count += 1;
    }
}

/// The numbers of a point.
#[derive(Drop)]
pub(crate) enum Numbers {
    /// They stand here.
    Few(FewNumbers),
    /// They stand in memory of their own.
    Many(Box<Vec<u16>>),
}

impl Numbers {
    /// One number, which takes no memory.
    pub(crate) fn one(k: u16) -> Numbers
        ensures { numbers_in result ≡ k ∷ [] }
    {
        let mut few = FewNumbers::new();
        few.push(k);
        Numbers::Few(few)
    }

    /// The numbers of a list, in a box around the memory that it has.
    pub(crate) fn listed(alloc: Global, list: List<u16>) -> Result<Numbers, AllocError>
        ensures { IfOk result (λ numbers. numbers_in numbers ≡ list) }
    {
        Ok(Numbers::Many(Box::new(alloc, list.into_vec())?))
    }

    /// The numbers in their order.
    pub(crate) fn as_slice(&self) -> &[u16]
        ensures { result.now ≡ numbers_in self.now }
    {
        match self {
            Numbers::Few(few) => few.as_slice(),
            Numbers::Many(many) => many.as_slice(),
        }
    }

    /// The same numbers. A few take no memory.
    pub(crate) fn copy(&self, alloc: Global) -> Result<Numbers, AllocError>
        ensures { IfOk result (λ copy. numbers_in copy ≡ numbers_in self.now) }
    {
        match self {
            Numbers::Few(few) => Ok(Numbers::Few(few.copy())),
            Numbers::Many(many) => {
                let copy = Vec::from_slice(alloc, many.as_slice())?;
                Ok(Numbers::Many(Box::new(alloc, copy)?))
            }
        }
    }

    /// The numbers with one more behind them. A few take no memory.
    pub(crate) fn with(&self, alloc: Global, k: u16) -> Result<Numbers, AllocError>
        ensures { IfOk result (λ more. numbers_in more ≡ numbers_in self.now ++ k ∷ []) }
    {
        match self {
            Numbers::Few(few) => with_more(alloc, few, k),
            Numbers::Many(many) => with_number(alloc, many.as_slice(), k),
        }
    }
}

/// A few numbers with one more behind them. It takes memory where they are no few any more.
fn with_more(alloc: Global, few: &FewNumbers, k: u16) -> Result<Numbers, AllocError>
    ensures { IfOk result (λ more. numbers_in more ≡ few.now ++ k ∷ []) }
{
    if few.is_full() {
        return with_number(alloc, few.as_slice(), k);
    }
    let mut more = few.copy();
    more.push(k);
    Ok(Numbers::Few(more))
}

/// The numbers with one more behind them, in memory of their own.
fn with_number(alloc: Global, numbers: &[u16], k: u16) -> Result<Numbers, AllocError>
    ensures { IfOk result (λ more. numbers_in more ≡ numbers.now ++ k ∷ []) }
{
    let mut more = Vec::with_capacity(alloc, numbers.len() + 1)?;
    more.extend_from_slice(numbers)?;
    more.push(k)?;
    Ok(Numbers::Many(Box::new(alloc, more)?))
}
