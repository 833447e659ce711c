//! Crews at work on made-up numbers: two workers that meet, a number that waits for another, and a worker that does everything, alone or since no thread can be
//! made. Each test ends by itself: a worker that looks for another gives up in the end.

ghost use Rattle.std.specs.Prelude.{◌≡◌, ◌≤◌, ◌<◌, length, IfOk};
ghost use Rattle.oss_crew.specs.Numbers.{AllBelow};

use oss_crew::{Ending, News, Shift, Stretch, run_crew};
use std::alloc::{AllocError, Global};
use std::process::Abort;
use std::sync::Wait;
use std::sync::atomic::{AtomicU64, Ordering};
use std::test::Fail;
use std::thread::Threads;
use std::time::Duration;
use std::{env, thread};

/// A worker looks for another so often at most, each time a millisecond later.
const LOOKS: u32 = 2000;

/// The numbers are 0, which makes 1 and 2 ready, 1 and 2.
const LIMIT: u32 = 3;

/// A worker's seat: the number in hand, and how many numbers it has had in hand.
#[derive(Drop)]
struct Chair {
    number: u32,
    taken: u64,
}

/// What becomes of 1 and 2.
#[derive(Clone, Copy)]
enum Kind {
    /// They wait for each other in the hands of two workers.
    Meet,
    /// 1 is laid down until 2 is done, which makes it ready again.
    Follow,
}

/// What three numbers do.
#[derive(Drop)]
struct Three<'a> {
    clock: &'a HostRuntime,
    crew: u64,
    kind: Kind,
    first_came: AtomicU64,
    second_came: AtomicU64,
    /// How often one of the two saw the other.
    met: AtomicU64,
    /// 1 while the number 1 waits for 2.
    waits: AtomicU64,
    /// 1 once the number 2 is done.
    second_done: AtomicU64,
    /// How many numbers are done.
    done: AtomicU64,
}

impl<'a> Three<'a> {
    fn new(clock: &'a HostRuntime, crew: u64, kind: Kind) -> Three<'a>
        ensures { result.crew ≡ crew }
    {
        Three {
            clock,
            crew,
            kind,
            first_came: AtomicU64::new(0),
            second_came: AtomicU64::new(0),
            met: AtomicU64::new(0),
            waits: AtomicU64::new(0),
            second_done: AtomicU64::new(0),
            done: AtomicU64::new(0),
        }
    }

    /// One of the two has come, and looks for the other, for so long at most.
    fn look(&self, mine: &AtomicU64, other: &AtomicU64) {
        mine.store(1, Ordering::SeqCst);
        for _ in 0..LOOKS {
            if other.load(Ordering::SeqCst) == 1 {
                self.met.fetch_add(1, Ordering::SeqCst);
                return;
            }
            thread::sleep(self.clock, Duration::from_millis(1));
        }
    }

    /// The number 1 has to wait: whether 2 is not done, so that whoever does 2 makes it ready. It says that it waits, and then looks once more.
    fn has_to_wait(&self) -> bool {
        self.waits.store(1, Ordering::SeqCst);
        if self.second_done.load(Ordering::SeqCst) == 0 {
            return true;
        }
        self.waits.swap(0, Ordering::SeqCst) == 0
    }

    /// What becomes ready when this number is worked on, in the shift in which two follow each other.
    fn follow(&self, number: u32) -> News
        ensures { AllBelow 3 result.items }
    {
        let mut news = News::new();
        if number == 1 {
            if self.second_done.load(Ordering::SeqCst) == 0 && self.has_to_wait() {
                return news;
            }
            self.done.fetch_add(1, Ordering::SeqCst);
        } else {
            self.done.fetch_add(1, Ordering::SeqCst);
            self.second_done.store(1, Ordering::SeqCst);
            if self.waits.swap(0, Ordering::SeqCst) == 1 {
                drop(news.try_push(1));
            }
        }
        news
    }

    /// The same in the shift in which two meet: nothing.
    fn meet(&self, number: u32) {
        if number == 1 {
            self.look(&self.first_came, &self.second_came);
        } else {
            self.look(&self.second_came, &self.first_came);
        }
        self.done.fetch_add(1, Ordering::SeqCst);
    }

    /// The numbers that 0 makes ready.
    fn both(&self) -> News
        ensures { AllBelow 3 result.items }
    {
        self.done.fetch_add(1, Ordering::SeqCst);
        let mut news = News::new();
        drop(news.try_push(1));
        drop(news.try_push(2));
        news
    }
}

impl<'a> Shift<Chair> for Three<'a> {
    ghost use Rattle.std.specs.Prelude.{◌≡◌, ◌<◌};

    ghost limit = { λ three. 3 };

    ghost crew = { λ three. three.crew };

    ghost rests = { λ three chair. Unit {0} };

    ghost works = { λ three chair. Unit {0} };

    ghost mark = { λ chair. 0 };

    fn begin(&self, _worker: u32, chair: &mut Chair, number: u32) -> bool {
        chair.number = number;
        chair.taken = chair.taken.saturating_add(1);
        true
    }

    fn go_on(&self, _worker: u32, chair: &mut Chair) -> Result<Stretch, AllocError> {
        let news = if chair.number == 0 {
            self.both()
        } else {
            match self.kind {
                Kind::Follow => self.follow(chair.number),
                Kind::Meet => {
                    self.meet(chair.number);
                    News::new()
                }
            }
        };
        Ok(Stretch {
            ending: Ending::Rest,
            news,
        })
    }

    fn put_down(&self, _chair: &mut Chair) {}
}

/// The seats of so many workers.
fn chairs(alloc: Global, count: u64) -> Result<Vec<Chair>, AllocError>
    ensures { IfOk result (λ all. length all.items ≡ count) }
{
    let mut all = Vec::new(alloc);
    for _ in 0..count {
        all.push(Chair {
            number: 0,
            taken: 0,
        })?;
    }
    Ok(all)
}

/// How many numbers workers have had in hand: the busiest of them, and all together.
#[derive(Clone, Copy)]
struct Taken {
    most: u64,
    all: u64,
}

/// Works the shift with its crew, which all come home; how many numbers they have had in hand.
fn worked<R: Abort + Threads + Wait + Sync>(
    rt: &R,
    alloc: Global,
    three: &Three<'_>,
) -> Result<Taken, Fail>
    requires { three.now.crew ≤ 64 }
{
    let seats = chairs(alloc, three.crew)?;
    let back = run_crew(rt, alloc, three, seats, &[0], LIMIT)?;
    let mut taken = Taken { most: 0, all: 0 };
    for chair in back.as_slice() {
        taken.most = taken.most.max(chair.taken);
        taken.all = taken.all.saturating_add(chair.taken);
    }
    Ok(taken)
}

/// Whether who runs the tests says that no thread can be made, as `tests/crew.sh` does.
fn is_without_threads(rt: &HostRuntime) -> bool {
    match env::var(rt, "NEST6_THREADS") {
        Ok(said) => said.as_str() == "none",
        Err(_) => false,
    }
}

#[test]
fn two_workers_meet(rt: HostRuntime) -> Result<(), Fail> {
    let three = Three::new(&rt, 2, Kind::Meet);
    worked(&rt, rt.alloc(), &three)?;
    assert_eq!(rt; three.met.load(Ordering::SeqCst), 2);
    assert_eq!(rt; three.done.load(Ordering::SeqCst), 3);
    Ok(())
}

#[test]
fn a_number_waits_for_another(rt: HostRuntime) -> Result<(), Fail> {
    for crew in 1..5u64 {
        let three = Three::new(&rt, crew, Kind::Follow);
        worked(&rt, rt.alloc(), &three)?;
        assert_eq!(rt; three.done.load(Ordering::SeqCst), 3);
        assert_eq!(rt; three.waits.load(Ordering::SeqCst), 0);
    }
    Ok(())
}

/// The one worker takes 0 and 1, which waits, then 2, and 1 again.
#[test]
fn one_worker_does_everything(rt: HostRuntime) -> Result<(), Fail> {
    let three = Three::new(&rt, 1, Kind::Follow);
    assert_eq!(rt; worked(&rt, rt.alloc(), &three)?.all, 4);
    assert_eq!(rt; three.done.load(Ordering::SeqCst), 3);
    Ok(())
}

/// Four workers take 0, 1 and 2, and 1 once more if it had to wait. Where no thread can be made, one of them takes all, as a worker that is alone does.
#[test]
fn four_workers_take_each_number(rt: HostRuntime) -> Result<(), Fail> {
    let three = Three::new(&rt, 4, Kind::Follow);
    let taken = worked(&rt, rt.alloc(), &three)?;
    if is_without_threads(&rt) {
        assert_eq!(rt; taken.most, 4);
        assert_eq!(rt; taken.all, 4);
    } else {
        assert_eq!(rt; taken.all == 3 || taken.all == 4, true);
        assert_eq!(rt; taken.most <= taken.all, true);
    }
    assert_eq!(rt; three.done.load(Ordering::SeqCst), 3);
    Ok(())
}
