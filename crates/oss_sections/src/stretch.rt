//! A part of one dimension: where it begins and how many elements it has. The count is exact and may be
//! negative: the bounds are tested last.
ghost use Rattle.std.specs.Prelude.{◌≡◌, ◌+ℤ◌, ◌-ℤ◌, pos, false};
ghost use Rattle.oss_grammar.specs.SectionCells.{all_columns, is_empty, is_negative_size, last_of, or_zero, signed, stretch_of};
ghost use Rattle.oss_sections.specs.Evaluated.{meant_part};
ghost use Rattle.oss_sections.specs.Stretches.{IsWithin, meant_stretch};

use crate::base::Part;

/// Where a part of a dimension begins and how many elements it has, exactly: `3:1` begins at 3 and has -1 elements.
#[derive(Clone, Copy)]
pub(crate) struct Stretch {
    pub(crate) from: i64,
    pub(crate) size: i128,
}

/// A stretch of which each element is one of its dimension.
#[derive(Clone, Copy)]
pub(crate) struct Inside {
    /// The number of its first element, counted from 0.
    pub(crate) first: u32,
    /// How many elements it has.
    pub(crate) size: u32,
}

/// The stretch of a part of a dimension of `count` elements, seen from the element `index`.
pub(crate) fn stretch_of_part(count: u32, index: u64, part: Part) -> Stretch
    ensures { meant_stretch result ≡ stretch_of count index (meant_part part) }
{
    match part {
        Part::Elements { from, count: size } => Stretch {
            from: as_signed(index.wrapping_add(from)),
            size: i128::from(as_signed(size)),
        },
        Part::Span { lower, upper } => {
            let lower = lower_end(lower);
            Stretch {
                from: as_signed(index.wrapping_add(lower)),
                size: size_of_span(as_signed(lower), last(count, upper)),
            }
        }
    }
}

/// A number of 64 bits, read as signed.
fn as_signed(number: u64) -> i64
    ensures { result ≡ signed number }
{
    number.cast_signed()
}

/// Where a part begins that begins at `lower`, or with its dimension.
fn lower_end(lower: Option<u64>) -> u64
    ensures { result ≡ or_zero lower }
{
    match lower {
        Some(lower) => lower,
        None => 0,
    }
}

/// The last element of a part that ends at `upper`, or with its dimension.
fn last(count: u32, upper: Option<u64>) -> i64
    ensures { result ≡ last_of count upper }
{
    match upper {
        Some(upper) => as_signed(upper),
        None => i64::from(count) - 1,
    }
}

/// How many elements there are from one to another, both included.
fn size_of_span(first: i64, last: i64) -> i128
    ensures { result ≡ (last -ℤ first) +ℤ pos 1 }
{
    i128::from(last) - i128::from(first) + 1
}

/// All columns of an array with so many.
pub(crate) fn whole_row(columns: u32) -> Stretch
    ensures { meant_stretch result ≡ all_columns columns }
{
    Stretch {
        from: 0,
        size: i128::from(columns),
    }
}

impl Stretch {
    /// Whether it has less than no element.
    pub(crate) fn is_negative(&self) -> bool
        ensures { result ≡ is_negative_size (meant_stretch self.now) }
    {
        self.size < 0
    }

    /// Whether it has no element, or less.
    pub(crate) fn is_empty(&self) -> bool
        ensures { result ≡ is_empty (meant_stretch self.now) }
    {
        self.size <= 0
    }

    /// The stretch in a dimension of `count` elements; `None` where it has an element that is none of these.
    /// Condition: it has no negative length.
    pub(crate) fn within(&self, count: u32) -> Option<Inside>
        requires { is_negative_size (meant_stretch self.now) ≡ false }
        ensures { IsWithin count (meant_stretch self.now) result }
    {
        if self.from < 0 || i128::from(count) - i128::from(self.from) < self.size {
            return None;
        }
        Some(Inside {
            first: self.from as u32,
            size: self.size as u32,
        })
    }
}
