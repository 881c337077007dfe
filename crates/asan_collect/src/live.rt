//! Collecting with live printing: each report is printed while its process still runs.

ghost use Rattle.std.specs.Prelude.{◌≡◌, ◌≤◌, ◌^◌, All, IfOk, OnErr, length};
ghost use Rattle.asan_collect.specs.Rooms.{AreEmptyRooms};
ghost use Rattle.asan_senders.specs.Arrivals.{IsAnswerTo, IsArrived, Pairwise};
ghost use Rattle.asan_senders.specs.Collected.{AreCollected, IsReadIfAlone};
ghost use Rattle.asan_senders.specs.Live.{ArePrinted};
ghost use Rattle.asan_senders.specs.Missing.{HaveCauses};
ghost use Rattle.asan_senders.specs.Ranges.{most_senders};

use crate::NoMemory;
use crate::arrivals::let_in;
use crate::closing::close_all;
use crate::collector::Collector;
use crate::rooms::Rooms;
use crate::threads::{Work, run_printing};
use asan_print::LivePrinter;
use asan_senders::{
    Heaps, Live, Missing, Printers, Seats, check_alone_live, missing_among, only_feed, open_all,
    place_all,
};
use asan_stream::{Gate, OpenGate, Options};
use std::alloc::Allocator;
use std::io::Write;
use std::sync::Wait;
use std::thread::Threads;
use std::time::Clock;
use trace_feed::{Arrival, Door, Feed};

/// Does what [`collect`](crate::collect) does, and prints each report while its process still runs.
/// All workers work on threads of their own, and the calling thread prints. A report reaches it
/// through a lane of `ring` reports.
///
/// The lines of a process are in order those of its text, its end line last. How the lines of
/// several processes are mixed is not promised; at present the end lines come last, in the order of
/// the outcomes, once all threads have ended. Of a process that is `Unsettled` some reports may
/// stand before its end line.
///
/// If a line can't be written, the checks go on, and `wrote` has the fault. Nothing is written
/// after that line, which is tested. A writer that waits holds up the workers, then the readers,
/// and then who writes to them: nothing is lost. The writer isn't flushed.
///
/// # Errors
///
/// `NoMemory` where there was no room for the lists of 256 senders. The door was not asked then,
/// and nothing was written.
pub fn collect_live<
    D: Door,
    G: Gate + Sync,
    W: Write,
    A: Allocator + Copy + Send,
    R: Threads + Wait + Clock + Sync,
>(
    rt: &R,
    alloc: A,
    door: &mut D,
    gate: &G,
    options: Options,
    w: &mut W,
) -> Result<Live<D::Feed, A>, NoMemory>
where
    D::Feed: Send + Drop,
    requires { (D.seen door.old).refusals ≤ 2 ^ 32 }
    ensures collected { IfOk result (λ live. AreCollected D.Feed.seen options
        (D.seen door.old) (D.seen door.new) live.outcomes.items) }
    ensures printed { IfOk result (λ live.
        ArePrinted (W.contents w.old) (W.contents w.new) live.outcomes.items live.wrote) }
    ensures unasked { OnErr result (door.new ≡ door.old) }
    ensures unwritten { OnErr result (w.new ≡ w.old) }
{
    let collector = Collector {
        rt,
        gate,
        heaps: Heaps::all_from(alloc),
        options,
    };
    collector.collect_live(door, w)
}

impl<R, G, A> Collector<'_, R, G, A>
where
    R: Threads + Wait + Clock + Sync,
    G: Gate + Sync,
    A: Allocator + Copy + Send,
{
    /// Does what [`collect_live`](crate::collect_live) does.
    ///
    /// # Errors
    ///
    /// `NoMemory` where there was no room for the lists of 256 senders. The door was not asked
    /// then, and nothing was written.
    pub fn collect_live<D: Door, W: Write>(
        &self,
        door: &mut D,
        w: &mut W,
    ) -> Result<Live<D::Feed, A>, NoMemory>
    where
        D::Feed: Send + Drop,
        requires { (D.seen door.old).refusals ≤ 2 ^ 32 }
        ensures collected { IfOk result (λ live. AreCollected D.Feed.seen self.now.options
            (D.seen door.old) (D.seen door.new) live.outcomes.items) }
        ensures printed { IfOk result (λ live.
            ArePrinted (W.contents w.old) (W.contents w.new) live.outcomes.items live.wrote) }
        ensures unasked { OnErr result (door.new ≡ door.old) }
        ensures unwritten { OnErr result (w.new ≡ w.old) }
    {
        Ok(self.collect_live_counting(door, w)?.0)
    }

    /// Does what [`collect_live`](crate::collect_live) does, and counts what was missing: as many
    /// senders are `NotStarted` or `Unsettled`.
    ///
    /// # Errors
    ///
    /// `NoMemory` where there was no room for the lists of 256 senders. The door was not asked
    /// then, and nothing was written.
    pub fn collect_live_counting<D: Door, W: Write>(
        &self,
        door: &mut D,
        w: &mut W,
    ) -> Result<(Live<D::Feed, A>, Missing), NoMemory>
    where
        D::Feed: Send + Drop,
        requires { (D.seen door.old).refusals ≤ 2 ^ 32 }
        ensures collected { IfOk result (λ both. AreCollected D.Feed.seen self.now.options
            (D.seen door.old) (D.seen door.new) both.0.outcomes.items) }
        ensures causes { IfOk result (λ both. HaveCauses both.0.outcomes.items both.1) }
        ensures printed { IfOk result (λ both. ArePrinted (W.contents w.old) (W.contents w.new)
            both.0.outcomes.items both.0.wrote) }
        ensures unasked { OnErr result (door.new ≡ door.old) }
        ensures unwritten { OnErr result (w.new ≡ w.old) }
    {
        let (arrivals, rooms) = let_in(self.heaps.shared, door, self.options)?;
        Ok(self.check_all_live(arrivals, rooms, w))
    }

    /// What became of these senders, in order, which are read and checked over threads, and whose
    /// lines are printed; and what was missing.
    fn check_all_live<F: Feed + Send + Drop, W: Write>(
        &self,
        arrivals: Vec<Arrival<F>, A>,
        rooms: Rooms<F, A>,
        w: &mut W,
    ) -> (Live<F, A>, Missing)
        requires arrived { All (IsArrived F.seen) arrivals.items }
        requires few { length arrivals.items ≤ most_senders }
        requires room { AreEmptyRooms rooms }
        ensures answers { Pairwise (IsAnswerTo F.seen self.now.options)
            arrivals.items result.0.outcomes.items }
        ensures causes { HaveCauses result.0.outcomes.items result.1 }
        ensures printed { ArePrinted (W.contents w.old) (W.contents w.new)
            result.0.outcomes.items result.0.wrote }
    {
        let Rooms {
            seats,
            workers,
            outcomes,
        } = rooms;
        let opened = open_all(&self.heaps, arrivals, seats, self.options, true);
        let Seats {
            senders,
            shares,
            ports,
        } = opened;
        let printer = LivePrinter::new(self.heaps.shared);
        let printers = Printers { printer, ports };
        let (back, printers) = run_printing(self, Work { senders, shares }, workers, w, printers);
        let Work { senders, shares } = back;
        let mut senders = senders;
        place_all(&mut senders, shares, self.options.quarantine);
        let missing = missing_among(&senders, true);
        (close_all(w, senders, printers, outcomes), missing)
    }
}

impl<R, A> Collector<'_, R, OpenGate, A>
where
    R: Threads + Wait + Clock + Sync,
    A: Allocator + Copy + Send,
{
    /// Does what [`collect_live_counting`](Collector::collect_live_counting) does. Where one sender
    /// came and no other, it is read, checked and printed on the calling thread, and no thread is
    /// started: nothing can be missing then. Each of its reports is printed once the batch of its
    /// event is checked.
    ///
    /// No contract says on which thread a feed is read: tests show it.
    ///
    /// # Errors
    ///
    /// `NoMemory` where there was no room for the lists of 256 senders. The door was not asked
    /// then, and nothing was written.
    pub fn collect_live_openly<D: Door, W: Write>(
        &self,
        door: &mut D,
        w: &mut W,
    ) -> Result<(Live<D::Feed, A>, Missing), NoMemory>
    where
        D::Feed: Send + Drop,
        requires { (D.seen door.old).refusals ≤ 2 ^ 32 }
        ensures collected { IfOk result (λ both. AreCollected D.Feed.seen self.now.options
            (D.seen door.old) (D.seen door.new) both.0.outcomes.items) }
        ensures causes { IfOk result (λ both. HaveCauses both.0.outcomes.items both.1) }
        ensures alone { IfOk result (λ both. IsReadIfAlone both.0.outcomes.items) }
        ensures printed { IfOk result (λ both. ArePrinted (W.contents w.old) (W.contents w.new)
            both.0.outcomes.items both.0.wrote) }
        ensures unasked { OnErr result (door.new ≡ door.old) }
        ensures unwritten { OnErr result (w.new ≡ w.old) }
    {
        let (arrivals, rooms) = let_in(self.heaps.shared, door, self.options)?;
        Ok(self.check_openly_live(arrivals, rooms, w))
    }

    /// What became of these senders, in order, whose lines are printed, of the only one on the
    /// calling thread and of any others over threads; and what was missing.
    fn check_openly_live<F: Feed + Send + Drop, W: Write>(
        &self,
        arrivals: Vec<Arrival<F>, A>,
        rooms: Rooms<F, A>,
        w: &mut W,
    ) -> (Live<F, A>, Missing)
        requires arrived { All (IsArrived F.seen) arrivals.items }
        requires few { length arrivals.items ≤ most_senders }
        requires room { AreEmptyRooms rooms }
        ensures answers { Pairwise (IsAnswerTo F.seen self.now.options)
            arrivals.items result.0.outcomes.items }
        ensures causes { HaveCauses result.0.outcomes.items result.1 }
        ensures alone { IsReadIfAlone result.0.outcomes.items }
        ensures printed { ArePrinted (W.contents w.old) (W.contents w.new)
            result.0.outcomes.items result.0.wrote }
    {
        match only_feed(arrivals) {
            Ok(feed) => {
                let live = check_alone_live(&self.heaps, feed, self.options, w, rooms.outcomes);
                (live, Missing::nothing())
            }
            Err(arrivals) => self.check_all_live(arrivals, rooms, w),
        }
    }
}
