//! Waiting for another thread.

use crossbeam_utils::Backoff;
use std::sync::Wait;
use std::thread;
use std::time::{Clock, Duration};

/// How often a thread yields its processor before it sleeps. Where more threads want a processor
/// than there are, one that yields may wait long for its next turn, and one that slept does not.
const YIELDS: u32 = 20;

/// How long a thread first sleeps, in microseconds.
const FIRST_SLEEP: u64 = 16;

/// How long it sleeps at most.
const MAX_SLEEP: u64 = 1024;

/// How a thread waits for others: it spins, then it yields its processor, and at last it sleeps,
/// each time twice as long, up to about a millisecond.
#[derive(Drop)]
pub struct Pause {
    backoff: Backoff,
    yields: u32,
    sleep: u64,
}

impl Pause {
    /// The next wait is a short one.
    pub fn new() -> Pause {
        Pause {
            backoff: Backoff::new(),
            yields: 0,
            sleep: FIRST_SLEEP,
        }
    }

    /// There was progress: the next wait is a short one again.
    pub fn reset(&mut self) {
        self.backoff.reset();
        self.yields = 0;
        self.sleep = FIRST_SLEEP;
    }

    /// Waits a little, and longer with each call since the last progress.
    pub fn wait<R: Wait + Clock>(&mut self, rt: &R) {
        if self.yields >= YIELDS {
            thread::sleep(rt, Duration::from_micros(self.sleep));
            self.sleep = self.sleep.saturating_mul(2).min(MAX_SLEEP);
            return;
        }
        if self.backoff.is_completed() {
            self.yields += 1;
        }
        self.backoff.snooze();
    }
}
