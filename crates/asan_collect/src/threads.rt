//! All threads of one collection: the workers, the readers, and the calling thread.

ghost use Rattle.std.specs.Prelude.{◌≡◌, ◌<◌, ◌≤◌, [], vec_capacity, vec_len};
ghost use Rattle.asan_collect.specs.FirstWorker.{FirstHasWorked};
ghost use Rattle.asan_senders.specs.Arrivals.{Pairwise};
ghost use Rattle.asan_senders.specs.Closings.{HasPrinted};
ghost use Rattle.asan_senders.specs.Senders.{AllFresh, Becomes, Each, WillBe};
ghost use Rattle.asan_senders.specs.Shares.{AreKept, ComesBack, HaveWorkedForRead, WillComeBack};

use crate::at_work::AtWork;
use crate::collector::Collector;
use crate::crew::Crew;
use crate::printing::print_to_the_end;
use crate::reader_threads::start_readers;
use crate::worker_threads::start_workers;
use asan_senders::{Printers, Sender, WorkerThread, give_up_senders, join_all};
use asan_stream::{Bench, Gate, Options, run_checker};
use std::alloc::Allocator;
use std::io::Write;
use std::sync::Wait;
use std::thread::Threads;
use std::time::Clock;
use std::{mem, thread};
use trace_feed::Feed;

/// What the threads of a collection work on: its senders, and the benches of each worker.
#[derive(Drop)]
pub(crate) struct Work<F: Feed, A: Allocator + Copy> {
    pub senders: Vec<Sender<F, A>, A>,
    pub shares: Vec<Vec<Bench<A>, A>, A>,
}

/// Starts the workers, and then the readers. There is room for all workers.
fn start_all<
    's,
    'e: 's,
    F: Feed + Send + Drop + 's,
    G: Gate + Sync,
    A: Allocator + Copy + Send + 's,
    R: Threads + Wait + Clock + Sync,
>(
    crew: &Crew<'s, 'e, G, R, A>,
    work: &mut Work<F, A>,
    room: Vec<WorkerThread<A>, A>,
) -> Vec<WorkerThread<A>, A>
    requires fresh { AllFresh F.seen work.old.senders.items }
    requires some { 0 < vec_len work.old.shares }
    requires empty { room.items ≡ [] }
    requires room { vec_len work.old.shares ≤ vec_capacity room }
    ensures senders { Each (WillBe F.seen crew.now.options.limit)
        work.old.senders.items work.new.senders.items }
    ensures same { vec_len work.new.shares ≡ vec_len work.old.shares }
    ensures shares { Pairwise WillComeBack work.old.shares.items result.items }
    ensures kept { AreKept result.items work.old.senders.items work.new.senders.items }
{
    let workers = start_workers(crew, &mut work.shares, room);
    give_up_senders(&mut work.senders, &workers);
    start_readers(crew, &mut work.senders);
    workers
}

/// Runs the readers and all workers but the first on threads of their own, and the first worker
/// on this one.
fn run_in<
    's,
    'e: 's,
    F: Feed + Send + Drop + 's,
    G: Gate + Sync,
    A: Allocator + Copy + Send + 's,
    R: Threads + Wait + Clock + Sync,
>(crew: &Crew<'s, 'e, G, R, A>, work: &mut Work<F, A>, room: Vec<WorkerThread<A>, A>)
    requires fresh { AllFresh F.seen work.old.senders.items }
    requires some { 0 < vec_len work.old.shares }
    requires empty { room.items ≡ [] }
    requires room { vec_len work.old.shares ≤ vec_capacity room }
    ensures senders { Each (Becomes F.seen crew.now.options.limit)
        work.old.senders.items work.new.senders.items }
    ensures shares { Each ComesBack work.old.shares.items work.new.shares.items }
    ensures worked { HaveWorkedForRead work.old.senders.items work.new.senders.items
        work.old.shares.items work.new.shares.items }
    ensures first { FirstHasWorked work.old.shares.items work.new.shares.items }
{
    // The first share is empty then, and gets no thread.
    let benches = mem::replace(&mut work.shares[0], Vec::new(crew.alloc));
    let workers = start_all(crew, work, room);
    let benches = run_checker(crew.rt, benches, crew.gate);
    join_all(
        crew.rt,
        crew.alloc,
        &mut work.senders,
        &mut work.shares,
        workers,
    );
    work.shares[0] = benches;
}

/// Runs the readers and the workers. The benches come back to their places.
pub(crate) fn run_all<
    F: Feed + Send + Drop,
    G: Gate + Sync,
    A: Allocator + Copy + Send,
    R: Threads + Wait + Clock + Sync,
>(collector: &Collector<'_, R, G, A>, work: Work<F, A>, room: Vec<WorkerThread<A>, A>) -> Work<F, A>
    requires { AllFresh F.seen work.senders.items × (0 < vec_len work.shares)
        × (room.items ≡ []) × (vec_len work.shares ≤ vec_capacity room) }
    ensures senders { Each (Becomes F.seen collector.now.options.limit)
        work.senders.items result.senders.items }
    ensures shares { Each ComesBack work.shares.items result.shares.items }
    ensures worked { HaveWorkedForRead work.senders.items result.senders.items
        work.shares.items result.shares.items }
    ensures first { FirstHasWorked work.shares.items result.shares.items }
{
    let at_work = &AtWork::new();
    let (rt, gate, options) = (collector.rt, collector.gate, collector.options);
    let alloc = collector.heaps.shared;
    thread::scope(
        thread::scope_env(),
        rt,
        move |scope| -> Work<F, A>
            requires { AllFresh F.seen work.senders.items × (0 < vec_len work.shares)
                × (room.items ≡ []) × (vec_len work.shares ≤ vec_capacity room) }
            ensures senders { Each (Becomes F.seen options.limit)
                work.senders.items result.senders.items }
            ensures shares { Each ComesBack work.shares.items result.shares.items }
            ensures worked { HaveWorkedForRead work.senders.items result.senders.items
                work.shares.items result.shares.items }
            ensures first { FirstHasWorked work.shares.items result.shares.items }
        {
            let mut work = work;
            let crew = Crew {
                scope,
                rt,
                gate,
                at_work,
                alloc,
                options,
            };
            run_in(&crew, &mut work, room);
            work
        },
    )
}

/// Runs the readers and all workers on threads of their own, and prints on this one.
fn print_in<
    's,
    'e: 's,
    F: Feed + Send + Drop + 's,
    G: Gate + Sync,
    W: Write,
    A: Allocator + Copy + Send + 's,
    R: Threads + Wait + Clock + Sync,
>(
    crew: &Crew<'s, 'e, G, R, A>,
    work: &mut Work<F, A>,
    room: Vec<WorkerThread<A>, A>,
    w: &mut W,
    printers: &mut Printers<A>,
)
    requires fresh { AllFresh F.seen work.old.senders.items }
    requires some { 0 < vec_len work.old.shares }
    requires empty { room.items ≡ [] }
    requires room { vec_len work.old.shares ≤ vec_capacity room }
    ensures senders { Each (Becomes F.seen crew.now.options.limit)
        work.old.senders.items work.new.senders.items }
    ensures shares { Each ComesBack work.old.shares.items work.new.shares.items }
    ensures worked { HaveWorkedForRead work.old.senders.items work.new.senders.items
        work.old.shares.items work.new.shares.items }
    ensures printed { HasPrinted (W.contents w.old) (W.contents w.new) printers.old printers.new }
{
    let workers = start_all(crew, work, room);
    print_to_the_end(crew.rt, w, printers, crew.at_work);
    join_all(
        crew.rt,
        crew.alloc,
        &mut work.senders,
        &mut work.shares,
        workers,
    );
}

/// Runs the readers and all workers on threads of their own, and prints on this one what comes
/// through the ports. The benches come back to their places.
pub(crate) fn run_printing<
    F: Feed + Send + Drop,
    G: Gate + Sync,
    W: Write,
    A: Allocator + Copy + Send,
    R: Threads + Wait + Clock + Sync,
>(
    collector: &Collector<'_, R, G, A>,
    work: Work<F, A>,
    room: Vec<WorkerThread<A>, A>,
    w: &mut W,
    printers: Printers<A>,
) -> (Work<F, A>, Printers<A>)
    requires { AllFresh F.seen work.senders.items × (0 < vec_len work.shares)
        × (room.items ≡ []) × (vec_len work.shares ≤ vec_capacity room) }
    ensures senders { Each (Becomes F.seen collector.now.options.limit)
        work.senders.items result.0.senders.items }
    ensures shares { Each ComesBack work.shares.items result.0.shares.items }
    ensures worked { HaveWorkedForRead work.senders.items result.0.senders.items
        work.shares.items result.0.shares.items }
    ensures printed { HasPrinted (W.contents w.old) (W.contents w.new) printers result.1 }
{
    let at_work = &AtWork::new();
    let (rt, gate, options) = (collector.rt, collector.gate, collector.options);
    let alloc = collector.heaps.shared;
    let (back, worked, printers) = thread::scope(
        thread::scope_env(),
        rt,
        move |scope| -> (&mut W, Work<F, A>, Printers<A>)
            requires { AllFresh F.seen work.senders.items × (0 < vec_len work.shares)
                × (room.items ≡ []) × (vec_len work.shares ≤ vec_capacity room) }
            ensures same { result.0.ghost_name ≡ w.entry.ghost_name }
            ensures senders { Each (Becomes F.seen options.limit)
                work.senders.items result.1.senders.items }
            ensures shares { Each ComesBack work.shares.items result.1.shares.items }
            ensures worked { HaveWorkedForRead work.senders.items result.1.senders.items
                work.shares.items result.1.shares.items }
            ensures printed { HasPrinted (W.contents w.entry.now) (W.contents result.0.now)
                printers result.2 }
        {
            let (mut work, mut printers) = (work, printers);
            let crew = Crew {
                scope,
                rt,
                gate,
                at_work,
                alloc,
                options,
            };
            print_in(&crew, &mut work, room, &mut *w, &mut printers);
            (w, work, printers)
        },
    );
    let _ = back;
    (worked, printers)
}
