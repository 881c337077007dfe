//! The workers that are at work.

use std::sync::atomic::{AtomicU64, Ordering};

/// How many workers are at work on threads of their own. It only says how long it is worth to look
/// for reports: no contract rests on it.
#[derive(Drop)]
pub(crate) struct AtWork {
    count: AtomicU64,
}

impl AtWork {
    /// No worker is at work.
    pub fn new() -> AtWork {
        AtWork {
            count: AtomicU64::new(0),
        }
    }

    /// One more worker is at work.
    pub fn begin(&self) {
        self.count.fetch_add(1, Ordering::SeqCst);
    }

    /// A worker that was at work has ended, or was not started.
    pub fn end(&self) {
        self.count.fetch_sub(1, Ordering::SeqCst);
    }

    /// Whether none is at work.
    pub fn is_over(&self) -> bool {
        self.count.load(Ordering::SeqCst) == 0
    }
}
