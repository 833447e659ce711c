//! The worked examples of the definitions: that these say what is meant, and that each call answers where there
//! is memory.

use oss_sections::{Base, Extent, Part, SectionRefused, add_cell, element_place, section_ranges};
use oss_syntax::{FaultKind, List, Range};
use std::alloc::{AllocError, Global};
use std::process::Abort;
use std::test::Fail;

/// The number that is -1, read as signed.
const MINUS_ONE: u64 = u64::MAX;

/// The array in `long m[3][4];`.
fn array_of_rows() -> Base {
    Base {
        start: 0,
        count: 12,
        columns: Some(4),
        index: 0,
    }
}

/// The array in `long x, a[4];`, or a pointer to its element with this number.
fn array(index: u64) -> Base {
    Base {
        start: 1,
        count: 4,
        columns: None,
        index,
    }
}

/// A pointer that points nowhere.
fn nowhere() -> Base {
    Base {
        start: 0,
        count: 0,
        columns: None,
        index: 0,
    }
}

/// `from;count`
fn elements(from: u64, count: u64) -> Part {
    Part::Elements { from, count }
}

/// `lower:upper`
fn span(lower: Option<u64>, upper: Option<u64>) -> Part {
    Part::Span { lower, upper }
}

/// The ranges are these, as pairs of their ends.
fn are(ranges: &List<Range>, wanted: &[(u32, u32)]) -> bool {
    if ranges.len() != wanted.len() {
        return false;
    }
    for (range, (lo, hi)) in ranges.as_slice().iter().zip(wanted) {
        if range.lo != *lo || range.hi != *hi {
            return false;
        }
    }
    true
}

/// The section names these ranges.
fn names(alloc: Global, base: Base, extent: Extent, wanted: &[(u32, u32)]) -> bool {
    match section_ranges(alloc, &base, &extent) {
        Ok(ranges) => are(&ranges, wanted),
        Err(_) => false,
    }
}

/// The section reaches past its base, and is refused for that.
fn is_out_of_range(alloc: Global, base: Base, extent: Extent) -> bool {
    match section_ranges(alloc, &base, &extent) {
        Err(SectionRefused::Fault(kind)) => kind == FaultKind::OutOfRange,
        _ => false,
    }
}

/// A section of the array of rows names these ranges.
fn assert_rows(rt: &impl Abort, alloc: Global, extent: Extent, wanted: &[(u32, u32)]) {
    assert!(rt; names(alloc, array_of_rows(), extent, wanted));
}

/// A part of a base names these ranges.
fn assert_elements(rt: &impl Abort, alloc: Global, base: Base, part: Part, wanted: &[(u32, u32)]) {
    assert!(rt; names(alloc, base, Extent::Part(part), wanted));
}

#[test]
fn sections_of_rows(rt: HostRuntime) {
    let alloc = rt.alloc();
    let first_rows = span(Some(0), Some(1));
    assert_rows(&rt, alloc, Extent::Whole, &[(0, 12)]);
    assert_rows(&rt, alloc, Extent::Part(elements(2, 1)), &[(8, 12)]);
    assert_rows(&rt, alloc, Extent::Part(first_rows), &[(0, 8)]);
    assert_rows(
        &rt,
        alloc,
        Extent::Grid(first_rows, elements(1, 2)),
        &[(1, 3), (5, 7)],
    );
    assert_rows(
        &rt,
        alloc,
        Extent::Grid(elements(1, 1), span(None, None)),
        &[(4, 8)],
    );
    assert_rows(
        &rt,
        alloc,
        Extent::Grid(elements(9, 0), elements(9, 2)),
        &[],
    );
    let refused = [
        Extent::Grid(elements(0, 2), elements(0, 5)),
        Extent::Grid(elements(0, 1), elements(0, MINUS_ONE)),
        Extent::Grid(elements(9, 0), elements(0, MINUS_ONE)),
        Extent::Grid(elements(0, 1), elements(4, 1)),
        Extent::Grid(elements(3, 1), elements(0, 2)),
        Extent::Part(elements(2, 2)),
    ];
    for extent in refused {
        assert!(rt; is_out_of_range(alloc, array_of_rows(), extent));
    }
}

#[test]
fn sections_of_elements(rt: HostRuntime) {
    let alloc = rt.alloc();
    assert!(rt; names(alloc, array(0), Extent::Whole, &[(1, 5)]));
    assert_elements(&rt, alloc, array(0), elements(1, 2), &[(2, 4)]);
    assert_elements(&rt, alloc, array(0), span(Some(1), None), &[(2, 5)]);
    assert_elements(&rt, alloc, array(0), elements(9, 0), &[]);
    assert_elements(&rt, alloc, array(0), span(Some(3), Some(2)), &[]);
    assert_elements(&rt, alloc, array(MINUS_ONE), elements(1, 2), &[(1, 3)]);
    assert_elements(&rt, alloc, nowhere(), elements(0, 0), &[]);
    for part in [
        span(Some(3), Some(1)),
        elements(4, 1),
        elements(3, MINUS_ONE),
    ] {
        assert!(rt; is_out_of_range(alloc, array(0), Extent::Part(part)));
    }
    assert!(rt; is_out_of_range(alloc, nowhere(), Extent::Part(elements(0, 1))));
}

#[test]
fn places_of_elements(rt: HostRuntime) {
    assert_eq!(rt; element_place(3, 4, 1, Some(2)), Some(6));
    assert_eq!(rt; element_place(3, 4, 2, None), Some(8));
    assert_eq!(rt; element_place(3, 4, 1, Some(4)), None);
    assert_eq!(rt; element_place(3, 4, 3, Some(0)), None);
    assert_eq!(rt; element_place(3, 4, 1, Some(MINUS_ONE)), None);
}

/// The ranges of the cells 3, 4, 9, 1 and 2, put in in this order.
fn some_ranges(alloc: Global) -> Result<List<Range>, AllocError> {
    let mut ranges = List::new(alloc);
    add_cell(alloc, &mut ranges, 3)?;
    add_cell(alloc, &mut ranges, 4)?;
    add_cell(alloc, &mut ranges, 9)?;
    add_cell(alloc, &mut ranges, 1)?;
    add_cell(alloc, &mut ranges, 2)?;
    Ok(ranges)
}

#[test]
fn cells_put_in_one_by_one(rt: HostRuntime) -> Result<(), Fail> {
    let ranges = some_ranges(rt.alloc())?;
    assert!(rt; are(&ranges, &[(3, 5), (9, 10), (1, 3)]));
    Ok(())
}
