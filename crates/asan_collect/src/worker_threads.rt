//! Checkers on threads of their own: all are started.

ghost use Rattle.std.specs.Prelude.{◌≡◌, ◌≤◌, [], vec_capacity, vec_len};
ghost use Rattle.asan_senders.specs.Arrivals.{Pairwise};
ghost use Rattle.asan_senders.specs.Shares.{HaveWorked, WillComeBack};

use crate::crew::Crew;
use asan_senders::{WorkerThread, Working};
use asan_stream::{Bench, Gate, run_checker};
use std::alloc::Allocator;
use std::mem;
use std::snapshot::Snapshot;
use std::sync::Wait;
use std::thread::Threads;
use std::time::Clock;

/// Starts a worker, if it has benches.
fn begin<
    's,
    'e: 's,
    G: Gate + Sync,
    A: Allocator + Copy + Send + 's,
    R: Threads + Wait + Clock + Sync,
>(crew: &Crew<'s, 'e, G, R, A>, share: Vec<Bench<A>, A>) -> WorkerThread<A>
    ensures { WillComeBack share result }
{
    if share.is_empty() {
        return WorkerThread::Idle(share);
    }
    let promise = Working {
        benches: Snapshot::of(&share),
    };
    let (rt, gate, at_work) = (crew.rt, crew.gate, crew.at_work);
    let work = move || -> Vec<Bench<A>, A>
        ensures { HaveWorked share.items result.items }
    {
        let benches = run_checker(rt, share, gate);
        at_work.end();
        benches
    };
    at_work.begin();
    match crew.scope.spawn_with(promise, work) {
        Ok(handle) => WorkerThread::Running(handle),
        Err(_) => {
            at_work.end();
            WorkerThread::Lost
        }
    }
}

/// Starts a worker for each share that has benches. There is room for all workers.
pub(crate) fn start_workers<
    's,
    'e: 's,
    G: Gate + Sync,
    A: Allocator + Copy + Send + 's,
    R: Threads + Wait + Clock + Sync,
>(
    crew: &Crew<'s, 'e, G, R, A>,
    shares: &mut Vec<Vec<Bench<A>, A>, A>,
    room: Vec<WorkerThread<A>, A>,
) -> Vec<WorkerThread<A>, A>
    requires empty { room.items ≡ [] }
    requires room { vec_len shares.old ≤ vec_capacity room }
    ensures same { vec_len shares.new ≡ vec_len shares.old }
    ensures begun { Pairwise WillComeBack shares.old.items result.items }
{
    let mut workers = room;
    for k in 0..shares.len() {
        let share = mem::replace(&mut shares[k], Vec::new(crew.alloc));
        workers.push_reserved(begin(crew, share));
    }
    workers
}
