//! Gates that tasks pass on their way: two tasks that meet on two threads, a count of all that pass, and the
//! numbers of the workers that let them pass.

use oss_io::{Gate, MemoryShelf, MemorySink};
use oss_top::{Sinks, nest6};
use std::process::Abort;
use std::sync::Wait;
use std::sync::atomic::{AtomicU64, Ordering};
use std::thread;
use std::thread::Threads;
use std::time::Duration;

/// A task that waits for another at the gate looks for it so often at most, each time a millisecond later.
const LOOKS: u32 = 2000;

/// Two tasks of one wave, 0.0 and 0.1.
const PAIR: &str = "long x[2];
int main() {
#pragma oss task out(x[0])
  x[0] = 3;
#pragma oss task out(x[1])
  x[1] = 4;
#pragma oss taskwait
  printf(\"%ld\\n\", x[0] + x[1]);
}
";

/// Main, 8 tasks that create 4 each, and 8 tasks more: 49.
const BLOCKS: &str = "long x[1024], y[1024], sum;
#pragma oss task in([n]px) inout([n]py)
void axpy(long a, long *px, long *py, long n) {
  for (long i = 0; i < n; i++) py[i] += a * px[i];
}
int main() {
  for (long i = 0; i < 1024; i++) { x[i] = i; y[i] = 1; }
  for (long b = 0; b < 8; b++) {
#pragma oss task weakin(x[b * 128; 128]) weakinout(y[b * 128; 128])
    for (long k = 0; k < 4; k++)
      axpy(3, &x[b * 128 + k * 32], &y[b * 128 + k * 32], 32);
  }
  for (long b = 0; b < 8; b++) {
#pragma oss task in(y[b * 128; 128]) reduction(+: sum)
    for (long i = 0; i < 128; i++) sum += y[b * 128 + i];
  }
#pragma oss taskwait
  printf(\"%ld\\n\", sum);
}
";

/// A gate at which the tasks 0.0 and 0.1 wait for each other, and at which no other task waits.
#[derive(Drop)]
struct Meeting<'a> {
    clock: &'a HostRuntime,
    first_came: AtomicU64,
    second_came: AtomicU64,
    /// How often one of them saw the other, which did not go on before.
    met: AtomicU64,
    passes: AtomicU64,
}

impl<'a> Meeting<'a> {
    /// Nobody has come.
    fn new(clock: &'a HostRuntime) -> Meeting<'a> {
        Meeting {
            clock,
            first_came: AtomicU64::new(0),
            second_came: AtomicU64::new(0),
            met: AtomicU64::new(0),
            passes: AtomicU64::new(0),
        }
    }

    /// One of the two has come, and looks for the other, which is noted where it comes. It gives up in the end,
    /// so that a run on one thread ends too.
    fn wait(&self, mine: &AtomicU64, other: &AtomicU64) {
        mine.store(1, Ordering::SeqCst);
        for _ in 0..LOOKS {
            if other.load(Ordering::SeqCst) == 1 {
                self.met.fetch_add(1, Ordering::SeqCst);
                return;
            }
            thread::sleep(self.clock, Duration::from_millis(1));
        }
    }
}

impl<'a> Gate for Meeting<'a> {
    fn pass(&self, _worker: u32, point: &[u16]) {
        self.passes.fetch_add(1, Ordering::SeqCst);
        if point == [0, 0].as_slice() {
            self.wait(&self.first_came, &self.second_came);
        } else if point == [0, 1].as_slice() {
            self.wait(&self.second_came, &self.first_came);
        }
    }
}

/// A gate that counts who passes.
#[derive(Drop)]
struct Counting {
    passes: AtomicU64,
}

impl Gate for Counting {
    fn pass(&self, _worker: u32, _point: &[u16]) {
        self.passes.fetch_add(1, Ordering::SeqCst);
    }
}

/// A gate that notes the greatest number of a worker that it is told.
#[derive(Drop)]
struct Numbering {
    greatest: AtomicU64,
}

impl Gate for Numbering {
    fn pass(&self, worker: u32, _point: &[u16]) {
        self.greatest.fetch_max(worker as u64, Ordering::SeqCst);
    }
}

/// Runs a program with these options, behind a gate: it ends, and this is its output.
fn assert_run<R: Abort + AllocGlobal + Threads + Wait + Sync, G: Gate>(
    rt: &R,
    text: &str,
    options: &[&str],
    gate: &G,
    wanted: &str,
) {
    let alloc = rt.alloc();
    let mut shelf = MemoryShelf::new(alloc);
    shelf.put("p.c", text.as_bytes()).expect(rt, "memory");
    let mut words = Vec::new(alloc);
    for word in ["run", "p.c"].iter().chain(options) {
        let word = String::from_str(alloc, word).expect(rt, "memory");
        words.push(word).expect(rt, "memory");
    }
    let mut sinks = Sinks {
        out: MemorySink::new(alloc, 4096).expect(rt, "memory"),
        err: MemorySink::new(alloc, 4096).expect(rt, "memory"),
    };
    let status = nest6(rt, alloc, words.as_slice(), &mut shelf, &mut sinks, gate);
    assert_eq!(rt; status, 0);
    assert!(rt; sinks.out.bytes() == wanted.as_bytes() && sinks.err.bytes().is_empty());
    drop(sinks);
}

#[test]
fn two_tasks_of_a_wave_meet_on_two_workers(rt: HostRuntime) {
    let gate = Meeting::new(&rt);
    assert_run(&rt, PAIR, &["--workers=2"], &gate, "7\n");
    assert_eq!(rt; gate.met.load(Ordering::SeqCst), 2);
    assert_eq!(rt; gate.passes.load(Ordering::SeqCst), 3);
}

/// On one worker the second task sees that the first has come, and the first sees nobody.
#[test]
fn two_tasks_do_not_meet_on_one_worker(rt: HostRuntime) {
    let gate = Meeting::new(&rt);
    assert_run(&rt, PAIR, &["--workers=1"], &gate, "7\n");
    assert_eq!(rt; gate.met.load(Ordering::SeqCst), 1);
    assert_eq!(rt; gate.passes.load(Ordering::SeqCst), 3);
}

#[test]
fn no_task_passes_the_gate_in_a_serial_run(rt: HostRuntime) {
    let gate = Meeting::new(&rt);
    assert_run(&rt, PAIR, &["--mode=serial"], &gate, "7\n");
    assert_eq!(rt; gate.met.load(Ordering::SeqCst), 0);
    assert_eq!(rt; gate.passes.load(Ordering::SeqCst), 0);
}

/// A run of the program with 49 tasks, on workers as these options say.
fn assert_counted<R: Abort + AllocGlobal + Threads + Wait + Sync>(rt: &R, options: &[&str]) {
    let gate = Counting {
        passes: AtomicU64::new(0),
    };
    assert_run(rt, BLOCKS, options, &gate, "1572352\n");
    assert_eq!(rt; gate.passes.load(Ordering::SeqCst), 49);
}

#[test]
fn each_of_49_tasks_passes_the_gate_once(rt: HostRuntime) {
    assert_counted(&rt, &["--workers=1"]);
    assert_counted(&rt, &["--workers=4"]);
    assert_counted(&rt, &["--workers=64"]);
    assert_counted(&rt, &["--mode=workers", "--workers=1"]);
}

/// The greatest number of a worker that the gate is told in a run of the program with 49 tasks, on workers as
/// these options say.
fn greatest_told<R: Abort + AllocGlobal + Threads + Wait + Sync>(rt: &R, options: &[&str]) -> u64 {
    let gate = Numbering {
        greatest: AtomicU64::new(0),
    };
    assert_run(rt, BLOCKS, options, &gate, "1572352\n");
    gate.greatest.load(Ordering::SeqCst)
}

/// Workers are counted from 0, so each number is below how many there are. The 32 tasks on blocks of their own
/// begin in one wave, of which each worker does some, also where no thread can be made for it.
#[test]
fn workers_have_the_numbers_below_how_many_there_are(rt: HostRuntime) {
    for (option, last) in [("--workers=1", 0), ("--workers=2", 1), ("--workers=4", 3)] {
        assert_eq!(rt; greatest_told(&rt, &[option]), last, "{option}");
    }
    assert_eq!(rt; greatest_told(&rt, &["--mode=workers", "--workers=1"]), 0);
}

/// One worker begins the first of the two tasks, which sees nobody, and then the second, which sees that the first has come.
#[test]
fn two_tasks_do_not_meet_in_turns(rt: HostRuntime) {
    let gate = Meeting::new(&rt);
    assert_run(&rt, PAIR, &["--mode=workers", "--workers=1"], &gate, "7\n");
    assert_eq!(rt; gate.met.load(Ordering::SeqCst), 1);
    assert_eq!(rt; gate.passes.load(Ordering::SeqCst), 3);
}
