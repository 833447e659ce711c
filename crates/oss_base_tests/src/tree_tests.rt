//! Trees worked by hand. In the first main creates 1 and 2, and 1 creates 3.

use oss_syntax::Bytes;
use oss_tree::{Point, TaskNo, Tree};
use std::alloc::{AllocError, Global};
use std::process::Abort;
use std::test::Fail;

/// Adds a task that the one with this number creates, and tells its number; 99 where it may create none.
fn added(tree: &mut Tree, creator: u64) -> Result<u64, AllocError> {
    if creator >= tree.count() {
        return Ok(99);
    }
    let task = tree.task(TaskNo(creator));
    if task.children.len() >= 65_535 || task.point.as_slice().len() > 64 {
        return Ok(99);
    }
    let child = tree.add(TaskNo(creator), false)?;
    Ok(child.0)
}

/// Main, 1 and 2 below it, and 3 below 1.
fn family(alloc: Global) -> Result<Tree, AllocError> {
    let mut tree = Tree::new(alloc)?;
    let _first = added(&mut tree, 0)?;
    let _second = added(&mut tree, 0)?;
    let _third = added(&mut tree, 1)?;
    Ok(tree)
}

/// The body of a task ends, if there is the task: the contract asks for one of the tree.
fn end(tree: &mut Tree, task: u64) {
    if task < tree.count() {
        tree.ended(TaskNo(task));
    }
}

/// A task gives up all its cells, if there is the task.
fn give(tree: &mut Tree, task: u64) {
    if task < tree.count() {
        tree.gave_all(TaskNo(task));
    }
}

/// There is the task, and it is complete.
fn is_complete(tree: &Tree, task: u64) -> bool {
    task < tree.count() && tree.complete(TaskNo(task))
}

/// The first child that is not complete, if there is the task.
fn unfinished_child(tree: &Tree, task: u64) -> Option<TaskNo> {
    if task < tree.count() {
        tree.unfinished_child(TaskNo(task))
    } else {
        None
    }
}

/// The task that is found at the point of a task is that task.
fn is_found_at(tree: &Tree, task: u64, point: &[u16]) -> bool {
    task < tree.count()
        && tree.point(TaskNo(task)).as_slice() == point
        && tree.find(point) == Some(TaskNo(task))
}

#[test]
fn tasks_are_found_by_their_points(rt: HostRuntime) -> Result<(), Fail> {
    let tree = family(rt.alloc())?;
    assert!(rt; is_found_at(&tree, 0, &[0]));
    assert!(rt; is_found_at(&tree, 1, &[0, 0]));
    assert!(rt; is_found_at(&tree, 2, &[0, 1]));
    assert!(rt; is_found_at(&tree, 3, &[0, 0, 0]));
    assert!(rt; tree.find(&[0, 2]).is_none());
    assert!(rt; tree.find(&[0, 1, 0]).is_none());
    assert!(rt; tree.find(&[1]).is_none());
    assert!(rt; tree.find(&[]).is_none());
    drop(tree);
    Ok(())
}

/// Which is the least open task, and which child of main is the first that is not complete.
fn assert_open(rt: &impl Abort, tree: &Tree, least: Option<u64>, child: Option<u64>) {
    assert!(rt; tree.least_open() == least.map(TaskNo));
    assert!(rt; unfinished_child(tree, 0) == child.map(TaskNo));
}

#[test]
fn tasks_are_complete_with_their_children(rt: HostRuntime) -> Result<(), Fail> {
    let mut tree = family(rt.alloc())?;
    assert_open(&rt, &tree, Some(3), Some(1));
    give(&mut tree, 3);
    end(&mut tree, 1);
    give(&mut tree, 1);
    assert!(rt; !is_complete(&tree, 3) && !is_complete(&tree, 1));
    end(&mut tree, 2);
    give(&mut tree, 2);
    assert!(rt; is_complete(&tree, 2));
    assert_open(&rt, &tree, Some(3), Some(1));
    end(&mut tree, 3);
    assert!(rt; is_complete(&tree, 3) && is_complete(&tree, 1));
    assert_open(&rt, &tree, Some(0), None);
    let fourth = added(&mut tree, 1)?;
    assert!(rt; fourth == 4);
    assert!(rt; is_found_at(&tree, 4, &[0, 0, 1]));
    assert!(rt; !is_complete(&tree, 1));
    assert_open(&rt, &tree, Some(4), Some(1));
    give(&mut tree, 4);
    end(&mut tree, 4);
    end(&mut tree, 0);
    assert!(rt; is_complete(&tree, 0));
    assert_open(&rt, &tree, None, None);
    drop(tree);
    Ok(())
}

/// A text printed at a point below main.
fn print(alloc: Global, tree: &mut Tree, below: &[u16], text: &[u8]) -> Result<(), AllocError> {
    let at = below_main(alloc, below)?;
    let text = Bytes::from_slice(alloc, text)?;
    tree.print(at, text)
}

/// The point with these numbers behind main's.
fn below_main(alloc: Global, below: &[u16]) -> Result<Point, AllocError> {
    let mut at = Point::main(alloc)?;
    for k in below {
        if at.as_slice().len() < 66 {
            at = at.child(*k)?;
        }
    }
    Ok(at)
}

/// The output up to the point with these numbers behind main's.
fn is_output_before(
    alloc: Global,
    tree: &Tree,
    below: &[u16],
    text: &[u8],
) -> Result<bool, AllocError> {
    let last = below_main(alloc, below)?;
    let output = tree.output_before(&last)?;
    Ok(output.as_slice() == text)
}

#[test]
fn prints_stand_in_point_order(rt: HostRuntime) -> Result<(), Fail> {
    let alloc = rt.alloc();
    let mut tree = Tree::new(alloc)?;
    print(alloc, &mut tree, &[1], b"b")?;
    print(alloc, &mut tree, &[0], b"a")?;
    print(alloc, &mut tree, &[1], b"c")?;
    print(alloc, &mut tree, &[0, 3], b"d")?;
    let output = tree.output()?;
    assert!(rt; output.as_slice() == b"adbc".as_slice());
    assert!(rt; is_output_before(alloc, &tree, &[0], b"a")?);
    assert!(rt; is_output_before(alloc, &tree, &[0, 3], b"ad")?);
    assert!(rt; is_output_before(alloc, &tree, &[0, 4], b"ad")?);
    assert!(rt; is_output_before(alloc, &tree, &[1], b"adbc")?);
    drop(tree);
    Ok(())
}
