//! Readers on threads of their own: all are started.

ghost use Rattle.std.specs.Prelude.{◌≡◌, ◌<◌, ◌≤◌};
ghost use Rattle.asan_stream.specs.Ranges.{most_events};
ghost use Rattle.asan_stream.specs.Readers.{IsReaderOf};
ghost use Rattle.asan_senders.specs.Senders.{AllFresh, Each, IsFresh, Starts};

use crate::crew::Crew;
use asan_senders::{Part, Reading, Sender};
use asan_stream::{Gate, ReaderDone, run_reader};
use std::alloc::Allocator;
use std::mem;
use std::snapshot::Snapshot;
use std::sync::Wait;
use std::thread::Threads;
use std::time::Clock;
use trace_feed::Feed;

/// Starts a reader where the sender is ready for one and a thread can be made.
fn start<
    's,
    'e: 's,
    F: Feed + Send + Drop + 's,
    G: Gate + Sync,
    A: Allocator + Copy + Send + 's,
    R: Threads + Wait + Clock + Sync,
>(crew: &Crew<'s, 'e, G, R, A>, sender: Sender<F, A>) -> Sender<F, A>
    requires fresh { IsFresh F.seen sender }
    ensures { Starts F.seen crew.now.options.limit sender result }
{
    let (feed, lane) = match sender {
        Sender::Ready(feed, lane) => (feed, lane),
        other => return other,
    };
    let (rt, limit) = (crew.rt, crew.options.limit);
    let promise = Reading {
        feed: Snapshot::of(&feed),
        lane: Snapshot::of(&lane),
        limit,
    };
    let work = move || -> ReaderDone<F, A>
        requires fresh { (F.seen feed).faults ≡ 0 }
        requires limit { (0 < limit) × (limit ≤ most_events) }
        ensures { IsReaderOf F.seen limit feed lane result }
    { run_reader(rt, feed, lane, limit) };
    match crew.scope.spawn_with(promise, work) {
        Ok(handle) => Sender::Running(handle),
        Err(_) => Sender::NotStarted(Part::Reader),
    }
}

/// Starts a reader, where this can be done.
fn start_at<
    's,
    'e: 's,
    F: Feed + Send + Drop + 's,
    G: Gate + Sync,
    A: Allocator + Copy + Send + 's,
    R: Threads + Wait + Clock + Sync,
>(crew: &Crew<'s, 'e, G, R, A>, sender: &mut Sender<F, A>)
    requires fresh { IsFresh F.seen sender.old }
    ensures { Starts F.seen crew.now.options.limit sender.old sender.new }
{
    let was = mem::replace(sender, Sender::NotOpened);
    let _ = mem::replace(sender, start(crew, was));
}

/// Starts a reader for each sender that is ready for one, as long as threads can be made.
pub(crate) fn start_readers<
    's,
    'e: 's,
    F: Feed + Send + Drop + 's,
    G: Gate + Sync,
    A: Allocator + Copy + Send + 's,
    R: Threads + Wait + Clock + Sync,
>(crew: &Crew<'s, 'e, G, R, A>, senders: &mut Vec<Sender<F, A>, A>)
    requires fresh { AllFresh F.seen senders.old.items }
    ensures { Each (Starts F.seen crew.now.options.limit) senders.old.items senders.new.items }
{
    for i in 0..senders.len() {
        start_at(crew, &mut senders[i]);
    }
}
