//! Runs by one worker through the top call, and what the call without waiting answers.

use oss_io::{MemoryShelf, MemorySink, NoGate};
use oss_top::{Sinks, nest6, unwaited};
use std::alloc::{AllocError, Global};
use std::sync::Wait;
use std::test::Fail;
use std::thread::Threads;

/// A task that another waits for, and one that goes first.
const THREE: &str = "long x, y;
int main() {
#pragma oss task out(x) priority(1)
  x = 1;
#pragma oss task out(y) priority(5)
  y = 1;
#pragma oss task in(x)
  printf(\"a\\n\");
}
";

/// The words of a run by one worker.
const BY_ONE: &[&str] = &["run", "p.c", "--mode=workers", "--workers=1"];

/// These words, and one more.
fn words_of(alloc: Global, words: &[&str], last: &str) -> Result<Vec<String>, AllocError> {
    let mut given = Vec::new(alloc);
    for word in words {
        given.push(String::from_str(alloc, word)?)?;
    }
    given.push(String::from_str(alloc, last)?)?;
    Ok(given)
}

/// Both sinks, empty.
fn sinks(alloc: Global) -> Result<Sinks<MemorySink, MemorySink>, AllocError> {
    Ok(Sinks {
        out: MemorySink::new(alloc, 4096)?,
        err: MemorySink::new(alloc, 4096)?,
    })
}

/// What a run of the program by one worker tells with this word more: the status, and both outputs.
fn told<R: Threads + Wait + Sync>(
    rt: &R,
    alloc: Global,
    word: &str,
) -> Result<(u8, Sinks<MemorySink, MemorySink>), AllocError> {
    let mut shelf = MemoryShelf::new(alloc);
    shelf.put("p.c", THREE.as_bytes())?;
    let words = words_of(alloc, BY_ONE, word)?;
    let mut sinks = sinks(alloc)?;
    let status = nest6(rt, alloc, words.as_slice(), &mut shelf, &mut sinks, &NoGate);
    Ok((status, sinks))
}

#[test]
fn one_worker_tells_of_the_order(rt: HostRuntime) -> Result<(), Fail> {
    let (status, sinks) = told(&rt, rt.alloc(), "--order")?;
    assert_eq!(rt; status, 0);
    assert!(rt; sinks.out.bytes() == b"a\norder 0\norder 0.1\norder 0.0\norder 0.2\n".as_slice());
    assert!(rt; sinks.err.bytes().is_empty());
    Ok(())
}

#[test]
fn one_worker_tells_that_it_began_each_task(rt: HostRuntime) -> Result<(), Fail> {
    let (status, sinks) = told(&rt, rt.alloc(), "--who")?;
    assert_eq!(rt; status, 0);
    assert!(rt; sinks.out.bytes() == b"a\nwho 0 0\nwho 0.0 0\nwho 0.1 0\nwho 0.2 0\n".as_slice());
    Ok(())
}

/// The call without waiting leaves words for workers alone: the shelf would fail at its first call.
#[test]
fn a_run_by_workers_is_left_alone(rt: HostRuntime) -> Result<(), Fail> {
    let alloc = rt.alloc();
    let mut shelf = MemoryShelf::new(alloc);
    shelf.fail_at(1)?;
    let words = words_of(alloc, BY_ONE, "--who")?;
    let mut sinks = sinks(alloc)?;
    let answer = unwaited(
        &rt,
        alloc,
        words.as_slice(),
        &mut shelf,
        &mut sinks,
        &NoGate,
    );
    assert!(rt; answer.is_none());
    assert!(rt; sinks.out.bytes().is_empty() && sinks.err.bytes().is_empty());
    Ok(())
}

/// It does all else as the other call does.
#[test]
fn all_else_is_done_without_waiting(rt: HostRuntime) -> Result<(), Fail> {
    let alloc = rt.alloc();
    let mut shelf = MemoryShelf::new(alloc);
    shelf.put("p.c", THREE.as_bytes())?;
    let words = words_of(alloc, &["run", "p.c"], "--mode=serial")?;
    let mut sinks = sinks(alloc)?;
    let answer = unwaited(
        &rt,
        alloc,
        words.as_slice(),
        &mut shelf,
        &mut sinks,
        &NoGate,
    );
    assert!(rt; answer == Some(0));
    assert!(rt; sinks.out.bytes() == b"a\n".as_slice());
    Ok(())
}
