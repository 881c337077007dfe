//! All threads of a collection are joined: the readers, and then the workers.

ghost use Rattle.std.specs.Prelude.{◌≡◌, vec_len};
ghost use Rattle.asan_senders.specs.Arrivals.{Pairwise};
ghost use Rattle.asan_senders.specs.Senders.{Each, Ends};
ghost use Rattle.asan_senders.specs.Shares.{Returns};

use crate::sender::Sender;
use crate::worker_thread::WorkerThread;
use asan_stream::Bench;
use std::alloc::Allocator;
use std::mem;
use std::thread::Threads;
use trace_feed::Feed;

/// Waits for the reader, where one was started.
fn finish<F: Feed + Drop, A: Allocator + Copy, R: Threads>(
    rt: &R,
    sender: Sender<F, A>,
) -> Sender<F, A>
    ensures { Ends F.seen sender result }
{
    match sender {
        Sender::Running(handle) => Sender::Read(handle.join(rt)),
        other => other,
    }
}

/// Waits for the reader of a sender, if it has one, and leaves what it did in its place.
fn finish_at<F: Feed + Drop, A: Allocator + Copy, R: Threads>(rt: &R, sender: &mut Sender<F, A>)
    ensures { Ends F.seen sender.old sender.new }
{
    let was = mem::replace(sender, Sender::NotOpened);
    let _ = mem::replace(sender, finish(rt, was));
}

/// Waits for all readers.
fn join_readers<F: Feed + Drop, A: Allocator + Copy, R: Threads>(
    rt: &R,
    senders: &mut Vec<Sender<F, A>, A>,
)
    ensures { Each (Ends F.seen) senders.old.items senders.new.items }
{
    for i in 0..senders.len() {
        finish_at(rt, &mut senders[i]);
    }
}

/// Waits for the worker, where one was started. Of benches that are gone nothing comes back.
fn end<A: Allocator + Copy, R: Threads>(
    rt: &R,
    alloc: A,
    checker: WorkerThread<A>,
) -> Vec<Bench<A>, A>
    ensures { Returns checker result }
{
    match checker {
        WorkerThread::Idle(share) => share,
        WorkerThread::Running(handle) => handle.join(rt),
        WorkerThread::Lost => Vec::new(alloc),
    }
}

/// Waits for all workers. The benches come back to their shares.
fn join_workers<A: Allocator + Copy, R: Threads>(
    rt: &R,
    alloc: A,
    workers: Vec<WorkerThread<A>, A>,
    shares: &mut Vec<Vec<Bench<A>, A>, A>,
)
    requires { vec_len workers ≡ vec_len shares.old }
    ensures { Pairwise Returns workers.items shares.new.items }
{
    let mut workers = workers;
    for k in 0..shares.len() {
        let checker = mem::replace(&mut workers[k], WorkerThread::Lost);
        shares[k] = end(rt, alloc, checker);
    }
}

/// Waits for the readers, and then for the workers.
pub fn join_all<F: Feed + Drop, A: Allocator + Copy, R: Threads>(
    rt: &R,
    alloc: A,
    senders: &mut Vec<Sender<F, A>, A>,
    shares: &mut Vec<Vec<Bench<A>, A>, A>,
    workers: Vec<WorkerThread<A>, A>,
)
    requires { vec_len workers ≡ vec_len shares.old }
    ensures senders { Each (Ends F.seen) senders.old.items senders.new.items }
    ensures shares { Pairwise Returns workers.items shares.new.items }
{
    join_readers(rt, senders);
    join_workers(rt, alloc, workers, shares);
}
