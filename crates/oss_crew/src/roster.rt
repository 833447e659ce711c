//! What a crew shares beside its queue: how much is left to do, who sleeps, and how each is woken. No proof speaks of it: a wrong count would cost time, and no
//! answer. That no wake-up is lost was seen by going through all states of three workers (`bench/model/crew.py`).

use crossbeam_utils::sync::Unparker;
use std::sync::atomic::{AtomicU64, Ordering};

#[derive(Drop)]
pub(crate) struct Roster {
    /// How many numbers are queued or in hand.
    pub(crate) left: AtomicU64,
    /// 1 once everybody goes home.
    pub(crate) closed: AtomicU64,
    /// How many workers sleep, or are about to.
    pub(crate) asleep: AtomicU64,
    /// For each worker 1 while it sleeps, or is about to.
    pub(crate) sleeps: Vec<AtomicU64>,
    /// For each worker what wakes it.
    pub(crate) unparkers: Vec<Unparker>,
}

impl Roster {
    pub(crate) fn is_closed(&self) -> bool {
        self.closed.load(Ordering::SeqCst) == 1
    }

    /// Everybody goes home, sleepers too.
    pub(crate) fn close(&self) {
        self.closed.store(1, Ordering::SeqCst);
        for unparker in self.unparkers.as_slice() {
            unparker.unpark();
        }
    }

    /// One number more is to be done.
    pub(crate) fn one_more(&self) {
        self.left.fetch_add(1, Ordering::SeqCst);
    }

    /// One number less is to be done. Whoever lowers the count to 0 sends everybody home.
    pub(crate) fn one_less(&self) {
        if self.left.fetch_sub(1, Ordering::SeqCst) == 1 {
            self.close();
        }
    }

    /// This worker is about to sleep: whoever queues a number from now on sees it.
    pub(crate) fn lie_down(&self, worker: u32) {
        if let Some(sleep) = self.sleeps.get(worker as usize) {
            sleep.store(1, Ordering::SeqCst);
            self.asleep.fetch_add(1, Ordering::SeqCst);
        }
    }

    /// This worker sleeps no more. False if somebody else has woken it.
    pub(crate) fn get_up(&self, worker: u32) -> bool {
        match self.sleeps.get(worker as usize) {
            Some(sleep) => self.end_sleep(sleep),
            None => false,
        }
    }

    /// Ends one sleep; whether it was still to be ended.
    fn end_sleep(&self, sleep: &AtomicU64) -> bool {
        if sleep.swap(0, Ordering::SeqCst) == 1 {
            self.asleep.fetch_sub(1, Ordering::SeqCst);
            return true;
        }
        false
    }

    /// Wakes one that sleeps, if any does.
    pub(crate) fn wake_one(&self) {
        if self.asleep.load(Ordering::SeqCst) == 0 {
            return;
        }
        for (sleep, unparker) in self.sleeps.as_slice().iter().zip(self.unparkers.as_slice()) {
            if sleep.load(Ordering::SeqCst) == 1 && self.end_sleep(sleep) {
                unparker.unpark();
                return;
            }
        }
    }
}
