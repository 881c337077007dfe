//! Collecting: all senders of a door are read and checked, each on its own lane, or the only one on
//! the calling thread.

ghost use Rattle.std.specs.Prelude.{◌≡◌, ◌≤◌, ◌^◌, All, IfOk, OnErr, length};
ghost use Rattle.asan_collect.specs.Rooms.{AreEmptyRooms};
ghost use Rattle.asan_senders.specs.Arrivals.{IsAnswerTo, IsArrived, Pairwise};
ghost use Rattle.asan_senders.specs.Collected.{AreCollected, IsReadIfAlone};
ghost use Rattle.asan_senders.specs.Missing.{HaveCauses};
ghost use Rattle.asan_senders.specs.Ranges.{most_senders};

use crate::NoMemory;
use crate::arrivals::let_in;
use crate::rooms::Rooms;
use crate::threads::{Work, run_all};
use asan_senders::{
    Heaps, Missing, Seats, check_alone, missing_among, only_feed, open_all, place_all, settle_all,
};
use asan_stream::{Gate, OpenGate, Options, Outcome};
use std::alloc::Allocator;
use std::sync::Wait;
use std::thread::Threads;
use std::time::Clock;
use trace_feed::{Arrival, Door, Feed};

/// What a collection runs with.
#[derive(Drop)]
pub struct Collector<'a, R, G, A: Allocator + Copy> {
    /// Where its threads run.
    pub rt: &'a R,
    /// What is called after each event that was checked.
    pub gate: &'a G,
    /// Where its parts take their memory. If the allocator of one checker refuses a growth, that
    /// sender alone ends as `NoMemory`. Reports stay in the memory of their checker.
    pub heaps: Heaps<'a, A>,
    pub options: Options,
}

/// Asks the door until it is over or has given 256 other answers, and then reads and checks the
/// feeds that came, all at the same time: each feed is read on its own thread, and there are
/// `workers` workers. Sender i is checked by worker i mod `workers`; worker 0 works on the calling
/// thread, and each other that has a sender on its own thread. What a reader puts reaches its
/// worker through a lane of `ring` items. The lists, the lanes and the checkers take their memory
/// from `alloc`.
///
/// The outcomes stand in the order of the answers: `NotOpened` for each sender that the door
/// refused, `NotStarted` where a thread or a lane was missing, `Unsettled` where the end of the
/// lane was missing when all threads had ended, and else `Settled` or `NoMemory`. The bytes of one
/// sender change nothing of the others, but all share the threads and the memory of `alloc`.
///
/// The gate is called after each event that was checked. The door must have refused at most 2^32
/// senders before.
///
/// # Errors
///
/// `NoMemory` where there was no room for the lists of 256 senders. The door was not asked then.
pub fn collect<
    D: Door,
    G: Gate + Sync,
    A: Allocator + Copy + Send,
    R: Threads + Wait + Clock + Sync,
>(
    rt: &R,
    alloc: A,
    door: &mut D,
    gate: &G,
    options: Options,
) -> Result<Vec<Outcome<D::Feed, A>, A>, NoMemory>
where
    D::Feed: Send + Drop,
    requires { (D.seen door.old).refusals ≤ 2 ^ 32 }
    ensures collected { IfOk result (λ outcomes. AreCollected D.Feed.seen options
        (D.seen door.old) (D.seen door.new) outcomes.items) }
    ensures unasked { OnErr result (door.new ≡ door.old) }
{
    let collector = Collector {
        rt,
        gate,
        heaps: Heaps::all_from(alloc),
        options,
    };
    collector.collect(door)
}

impl<R, G, A> Collector<'_, R, G, A>
where
    R: Threads + Wait + Clock + Sync,
    G: Gate + Sync,
    A: Allocator + Copy + Send,
{
    /// Does what [`collect`](crate::collect) does.
    ///
    /// # Errors
    ///
    /// `NoMemory` where there was no room for the lists of 256 senders. The door was not asked
    /// then.
    pub fn collect<D: Door>(&self, door: &mut D) -> Result<Vec<Outcome<D::Feed, A>, A>, NoMemory>
    where
        D::Feed: Send + Drop,
        requires { (D.seen door.old).refusals ≤ 2 ^ 32 }
        ensures collected { IfOk result (λ outcomes. AreCollected D.Feed.seen self.now.options
            (D.seen door.old) (D.seen door.new) outcomes.items) }
        ensures unasked { OnErr result (door.new ≡ door.old) }
    {
        Ok(self.collect_counting(door)?.0)
    }

    /// Does what [`collect`](crate::collect) does, and counts what was missing: as many senders are
    /// `NotStarted` or `Unsettled`.
    ///
    /// # Errors
    ///
    /// `NoMemory` where there was no room for the lists of 256 senders. The door was not asked
    /// then.
    pub fn collect_counting<D: Door>(
        &self,
        door: &mut D,
    ) -> Result<(Vec<Outcome<D::Feed, A>, A>, Missing), NoMemory>
    where
        D::Feed: Send + Drop,
        requires { (D.seen door.old).refusals ≤ 2 ^ 32 }
        ensures collected { IfOk result (λ both. AreCollected D.Feed.seen self.now.options
            (D.seen door.old) (D.seen door.new) both.0.items) }
        ensures causes { IfOk result (λ both. HaveCauses both.0.items both.1) }
        ensures unasked { OnErr result (door.new ≡ door.old) }
    {
        let (arrivals, rooms) = let_in(self.heaps.shared, door, self.options)?;
        Ok(self.check_all(arrivals, rooms))
    }

    /// What became of these senders, in order, which are read and checked over threads, and what
    /// was missing.
    fn check_all<F: Feed + Send + Drop>(
        &self,
        arrivals: Vec<Arrival<F>, A>,
        rooms: Rooms<F, A>,
    ) -> (Vec<Outcome<F, A>, A>, Missing)
        requires arrived { All (IsArrived F.seen) arrivals.items }
        requires few { length arrivals.items ≤ most_senders }
        requires room { AreEmptyRooms rooms }
        ensures answers { Pairwise (IsAnswerTo F.seen self.now.options)
            arrivals.items result.0.items }
        ensures causes { HaveCauses result.0.items result.1 }
    {
        let Rooms {
            seats,
            workers,
            outcomes,
        } = rooms;
        let opened = open_all(&self.heaps, arrivals, seats, self.options, false);
        let Seats {
            senders,
            shares,
            ports: _,
        } = opened;
        let back = run_all(self, Work { senders, shares }, workers);
        let Work { senders, shares } = back;
        let mut senders = senders;
        place_all(&mut senders, shares, self.options.quarantine);
        let missing = missing_among(&senders, false);
        (settle_all(senders, outcomes), missing)
    }
}

impl<R, A> Collector<'_, R, OpenGate, A>
where
    R: Threads + Wait + Clock + Sync,
    A: Allocator + Copy + Send,
{
    /// Does what [`collect_counting`](Collector::collect_counting) does. Where one sender came and
    /// no other, it is read and checked on the calling thread, and no thread is started: nothing
    /// can be missing then.
    ///
    /// No contract says on which thread a feed is read: tests show it.
    ///
    /// # Errors
    ///
    /// `NoMemory` where there was no room for the lists of 256 senders. The door was not asked
    /// then.
    pub fn collect_openly<D: Door>(
        &self,
        door: &mut D,
    ) -> Result<(Vec<Outcome<D::Feed, A>, A>, Missing), NoMemory>
    where
        D::Feed: Send + Drop,
        requires { (D.seen door.old).refusals ≤ 2 ^ 32 }
        ensures collected { IfOk result (λ both. AreCollected D.Feed.seen self.now.options
            (D.seen door.old) (D.seen door.new) both.0.items) }
        ensures causes { IfOk result (λ both. HaveCauses both.0.items both.1) }
        ensures alone { IfOk result (λ both. IsReadIfAlone both.0.items) }
        ensures unasked { OnErr result (door.new ≡ door.old) }
    {
        let (arrivals, rooms) = let_in(self.heaps.shared, door, self.options)?;
        Ok(self.check_openly(arrivals, rooms))
    }

    /// What became of these senders, in order, of the only one on the calling thread and of any
    /// others over threads; and what was missing.
    fn check_openly<F: Feed + Send + Drop>(
        &self,
        arrivals: Vec<Arrival<F>, A>,
        rooms: Rooms<F, A>,
    ) -> (Vec<Outcome<F, A>, A>, Missing)
        requires arrived { All (IsArrived F.seen) arrivals.items }
        requires few { length arrivals.items ≤ most_senders }
        requires room { AreEmptyRooms rooms }
        ensures answers { Pairwise (IsAnswerTo F.seen self.now.options)
            arrivals.items result.0.items }
        ensures causes { HaveCauses result.0.items result.1 }
        ensures alone { IsReadIfAlone result.0.items }
    {
        match only_feed(arrivals) {
            Ok(feed) => {
                let outcomes = check_alone(&self.heaps, feed, self.options, rooms.outcomes);
                (outcomes, Missing::nothing())
            }
            Err(arrivals) => self.check_all(arrivals, rooms),
        }
    }
}
