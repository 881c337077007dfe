//! What was missing in a collection: why senders were not checked.

ghost use Rattle.std.specs.Prelude.{◌≡◌, ◌+◌, ◌-◌, ◌<◌, ◌≤◌, ◌^◌, length};
ghost use Rattle.asan_senders.specs.Missing.{IsMissingOf, end_missing, lane_missing};
ghost use Rattle.asan_senders.specs.Missing.{reader_missing, worker_missing};
ghost use Rattle.asan_senders.specs.Ranges.{most_senders};

use crate::sender::Sender;
use std::alloc::Allocator;
use trace_feed::Feed;

/// What a sender needs before it is read.
#[derive(Clone, Copy, Debug)]
pub enum Part {
    /// Its lane, and that of its reports if these are printed as they come.
    Lane,
    /// The thread of its worker.
    Worker,
    /// The thread of its reader.
    Reader,
}

/// How many senders of a collection were not checked, by what they lacked.
#[derive(Clone, Copy, Debug)]
pub struct Missing {
    /// A lane was refused: there was no memory for it. These are `NotStarted`.
    pub lanes: u32,
    /// The thread of the worker could not be started. These are `NotStarted`.
    pub workers: u32,
    /// The thread of the reader could not be started. These are `NotStarted`.
    pub readers: u32,
    /// A lane had no end when all threads had ended. These are `Unsettled`.
    pub ends: u32,
}

impl Missing {
    /// Nothing was missing.
    pub fn nothing() -> Missing
        ensures lanes { result.lanes ≡ 0 }
        ensures workers { result.workers ≡ 0 }
        ensures readers { result.readers ≡ 0 }
        ensures ends { result.ends ≡ 0 }
    {
        Missing {
            lanes: 0,
            workers: 0,
            readers: 0,
            ends: 0,
        }
    }

    /// Counts what was missing of this sender, whose bench is back.
    fn count<F: Feed, A: Allocator + Copy>(&mut self, sender: &Sender<F, A>, is_live: bool)
        requires lanes { self.old.lanes < 2 ^ 32 - 1 }
        requires workers { self.old.workers < 2 ^ 32 - 1 }
        requires readers { self.old.readers < 2 ^ 32 - 1 }
        requires ends { self.old.ends < 2 ^ 32 - 1 }
        ensures lanes { self.new.lanes ≡ self.old.lanes + lane_missing sender.now }
        ensures workers { self.new.workers ≡ self.old.workers + worker_missing sender.now }
        ensures readers { self.new.readers ≡ self.old.readers + reader_missing sender.now }
        ensures ends { self.new.ends ≡ self.old.ends + end_missing is_live sender.now }
    {
        match sender {
            Sender::NotStarted(Part::Lane) => self.lanes += 1,
            Sender::NotStarted(Part::Worker) => self.workers += 1,
            Sender::NotStarted(Part::Reader) => self.readers += 1,
            Sender::Joined(done, _, reports) => {
                if done.lane_end.is_none() || (is_live && reports.is_none()) {
                    self.ends += 1;
                }
            }
            _ => {}
        }
    }
}

/// What was missing of these senders, once all threads have ended and the benches are back. If they
/// are live, their reports were printed as they came.
pub fn missing_among<F: Feed, A: Allocator + Copy>(
    senders: &[Sender<F, A>],
    is_live: bool,
) -> Missing
    requires { length senders.now ≤ most_senders }
    ensures { IsMissingOf is_live senders.now result }
{
    let mut missing = Missing::nothing();
    for sender in senders {
        missing.count(sender, is_live);
    }
    missing
}
