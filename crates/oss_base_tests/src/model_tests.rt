//! Points and their texts, worked by hand.

use oss_model::{Point, point_text, read_point};
use std::alloc::{AllocError, Global};
use std::process::Abort;
use std::test::Fail;

/// The text is one of the point with these numbers, and that point has this text.
fn assert_point(rt: &impl Abort, alloc: Global, text: &[u8], numbers: &[u16]) -> Result<(), Fail> {
    match read_point(alloc, text)? {
        Some(point) => assert!(rt; point.as_slice() == numbers),
        None => assert!(rt; false),
    }
    let written = point_text(alloc, numbers)?;
    assert!(rt; written.as_slice() == text);
    Ok(())
}

/// The text is that of no point.
fn is_none(alloc: Global, text: &[u8]) -> Result<bool, AllocError> {
    Ok(read_point(alloc, text)?.is_none())
}

#[test]
fn points_have_texts(rt: HostRuntime) -> Result<(), Fail> {
    let alloc = rt.alloc();
    assert_point(&rt, alloc, b"0", &[0])?;
    assert_point(&rt, alloc, b"0.2", &[0, 2])?;
    assert_point(&rt, alloc, b"0.0.10.65535", &[0, 0, 10, 65_535])?;
    Ok(())
}

#[test]
fn other_texts_are_no_points(rt: HostRuntime) -> Result<(), Fail> {
    let alloc = rt.alloc();
    assert!(rt; is_none(alloc, b"")?);
    assert!(rt; is_none(alloc, b"1")?);
    assert!(rt; is_none(alloc, b"0.")?);
    assert!(rt; is_none(alloc, b".0")?);
    assert!(rt; is_none(alloc, b"0..1")?);
    assert!(rt; is_none(alloc, b"0.01")?);
    assert!(rt; is_none(alloc, b"0.+1")?);
    assert!(rt; is_none(alloc, b"0. 1")?);
    assert!(rt; is_none(alloc, b"0.65536")?);
    Ok(())
}

#[test]
fn a_point_has_at_most_65_numbers(rt: HostRuntime) -> Result<(), Fail> {
    let alloc = rt.alloc();
    let numbers = [0; 66];
    let longest = point_text(alloc, &numbers[..65])?;
    let longer = point_text(alloc, &numbers)?;
    assert!(rt; !is_none(alloc, longest.as_slice())?);
    assert!(rt; is_none(alloc, longer.as_slice())?);
    Ok(())
}

#[test]
fn a_child_is_behind_its_creator(rt: HostRuntime) -> Result<(), Fail> {
    let main = Point::main(rt.alloc())?;
    let child = main.child(2)?;
    assert!(rt; child.as_slice() == [0, 2].as_slice());
    assert!(rt; main < child);
    Ok(())
}
