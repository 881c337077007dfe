//! One feed on one thread: its events are checked as they are read.

ghost use Rattle.std.specs.Prelude.{◌≡◌, ◌+◌, ◌<◌, ◌≤◌, ◌^◌, ◌++◌, ℕ, IsTrue, List, length};
ghost use Rattle.std.specs.Prelude.{reverse};
ghost use Rattle.trace_record.specs.declared.event.Event.{Event as AnEvent};
ghost use Rattle.asan_check.specs.Standing.{StandsOrFailed, bound_of, checked_of};
ghost use Rattle.asan_check.specs.Standing.{reports_of as checker_reports};
ghost use Rattle.asan_stream.specs.Outboxes.{IsFront};
ghost use Rattle.asan_stream.specs.Outcomes.{HasCount, HasResults, IsOutcomeOf, StopsSoon, is_read};
ghost use Rattle.asan_stream.specs.Ranges.{most_reports};
ghost use Rattle.asan_stream.specs.Outcomes.{reports_of};

use crate::options::Options;
use crate::outcome::Outcome;
use crate::source::{BATCH_SIZE, Source, batch_room};
use asan_check::{Checker, MAX_FETCHED, Report};
use std::alloc::{Allocator, Global};
use trace_feed::Feed;
use trace_record::{End, Event};

/// Reads `feed` until something ends its stream, and checks the events that its bytes spell, on the
/// calling thread and through a buffer of 4,096 bytes. The checker takes its memory from `alloc`.
/// No read of the feed may have failed before.
///
/// The outcome is `Settled`, or `NoMemory` where a growth of the checker was refused; the stream is
/// read to its end then too. It owns the feed again. No read follows one that failed, one that gave
/// no byte, or one that gave the byte that decides the stream.
pub fn check_feed<F: Feed, A: Allocator + Copy>(
    alloc: A,
    feed: F,
    options: Options,
) -> Outcome<F, A>
    requires fresh { (F.seen feed).faults ≡ 0 }
    ensures outcome { IsOutcomeOf F.seen options feed result }
    ensures soon { StopsSoon F.seen options feed result }
    ensures few { length (reports_of result) ≤ most_reports }
{
    let mut replay = Replay::new(alloc, feed, options);
    while replay.check_more() {}
    replay.into_outcome()
}

/// A feed that is read and checked on the calling thread, a batch of events at a time. Between two
/// batches its reports so far can be seen.
#[derive(Drop)]
pub struct Replay<F, A: Allocator + Copy = Global> {
    source: Source<F>,
    checker: Checker<A>,
    /// Room for the next batch.
    events: [Event; BATCH_SIZE],
}

impl<F: Feed, A: Allocator + Copy> Replay<F, A> {
    ghost use Rattle.std.specs.Prelude.{[]};
    ghost use Rattle.asan_stream.specs.declared.options.Options.{Options as AnOptions};
    ghost use Rattle.asan_stream.specs.Replays.{IsThen, IsThrough, IsUnderWay, checked_by, found_by, left_in};

    /// A feed of which nothing is read yet. Its checker takes its memory from `alloc`. No read of
    /// the feed may have failed before.
    pub fn new(alloc: A, feed: F, options: Options) -> Replay<F, A>
        requires fresh { (F.seen feed).faults ≡ 0 }
        ensures under_way { IsUnderWay F.seen options feed result }
        ensures none { found_by result ≡ [] }
    {
        Replay {
            source: Source::new(feed, options.limit),
            checker: Checker::new(alloc, options.quarantine).unwrap(),
            events: batch_room(),
        }
    }

    /// Reads and checks the next batch, and answers whether there is more to check. The feed is
    /// asked once at most. After the last batch this is not to be called again.
    ///
    /// A checker that has failed stays so: the feed is read to the end of its stream all the same.
    pub fn check_more(&mut self) -> bool
        requires under_way { (options : AnOptions) × (first : F)
            × IsUnderWay F.seen options first self.old }
        ensures then { (options : AnOptions) (first : F) →
            IsUnderWay F.seen options first self.old → IsThen F.seen options first result self.new }
        ensures front { IsFront (found_by self.old) (found_by self.new) }
        ensures less { IsTrue result → left_in self.new < left_in self.old }
    {
        let batch = self.source.next_batch(&mut self.events);
        check_each(&mut self.checker, &self.events[..batch.count]);
        !batch.is_last
    }

    /// The reports so far, in the order of their events.
    pub fn reports(&self) -> &[Report]
        ensures { result.now ≡ found_by self.now }
    {
        self.checker.reports()
    }

    /// What became of the feed. It has no meaning before the last batch. It is settled if all
    /// events were checked. Else it says that memory ran out, and how many were.
    pub fn into_outcome(self) -> Outcome<F, A>
        ensures outcome { (options : AnOptions) (first : F) →
            IsThrough F.seen options first self → IsOutcomeOf F.seen options first result }
        ensures soon { (options : AnOptions) (first : F) →
            IsThrough F.seen options first self → StopsSoon F.seen options first result }
        ensures counted { (options : AnOptions) (first : F) →
            (through : IsThrough F.seen options first self) →
            HasCount (length through.events) (checked_by self) result }
        ensures reports { reports_of result ≡ found_by self }
        ensures read { IsTrue (is_read result) }
    {
        let Replay {
            source,
            checker,
            ..
        } = self;
        let (feed, end) = source.into_end();
        let events = end.events;
        outcome_of(feed, end, checker, events)
    }
}

/// Hands the events to the checker, in order. A failed checker stays failed: the outcome says so.
pub(crate) fn check_each<A: Allocator + Copy>(checker: &mut Checker<A>, events: &[Event])
    requires room { checked_of checker.old + length events.now < 2 ^ 64 }
    ensures stands { (bound : ℕ) (past : List AnEvent) → StandsOrFailed bound checker.old past →
        StandsOrFailed bound checker.new (reverse events.now ++ past) }
    ensures found { (bound : ℕ) (past : List AnEvent) → StandsOrFailed bound checker.old past →
        IsFront (checker_reports checker.old) (checker_reports checker.new) }
    ensures bound { bound_of checker.new ≡ bound_of checker.old }
{
    let (mut from, mut fetched) = (0, 0_usize);
    while from < events.len() {
        from += checker.pass(&events[from..]);
        if from < events.len() {
            let ahead = fetch_ahead(checker, &events[from..], fetched.saturating_sub(from));
            fetched = from.saturating_add(ahead);
            let _ = checker.step(&events[from]);
            from += 1;
        }
    }
}

/// Has the checker fetch the next events, if it has not fetched the first of them. Returns how many
/// of them are not to be fetched again. Between loads and stores, one or two mallocs or frees are
/// not fetched at all: too few wait for memory at the same time.
#[inline]
fn fetch_ahead<A: Allocator + Copy>(
    checker: &mut Checker<A>,
    events: &[Event],
    fetched: usize,
) -> usize
    requires { 0 < length events.now }
    ensures same { checker.new ≡ checker.old }
    ensures most { result ≤ length events.now + fetched }
{
    if fetched > 0 {
        return fetched;
    }
    if !begin_with_changes(events) {
        return 1;
    }
    let count = events.len().min(MAX_FETCHED);
    checker.fetch(&events[..count]);
    count
}

/// Whether each of the next three events is another one than a load or store. No clause speaks of
/// it.
#[inline]
fn begin_with_changes(events: &[Event]) -> bool {
    events.len() > 2 && is_change(&events[1]) && is_change(&events[2])
}

/// Whether an event is another one than a load or store.
#[inline]
fn is_change(event: &Event) -> bool {
    !matches!(event, Event::Load(_) | Event::Store(_))
}

/// What became of a feed whose checker was handed this number of events.
pub(crate) fn outcome_of<F, A: Allocator + Copy>(
    feed: F,
    end: End,
    checker: Checker<A>,
    events: u64,
) -> Outcome<F, A>
    ensures results { (bound : ℕ) (handed : List AnEvent) →
        ∥ StandsOrFailed bound checker (reverse handed) ∥₁ →
        events ≡ length handed → HasResults bound handed feed end result }
    ensures counted { HasCount events (checked_of checker) result }
    ensures reports { reports_of result ≡ checker_reports checker }
    ensures read { IsTrue (is_read result) }
{
    let checked = checker.checked();
    let reports = checker.into_reports();
    if checked < events {
        Outcome::NoMemory {
            feed,
            end,
            checked,
            reports,
        }
    } else {
        Outcome::Settled { feed, end, reports }
    }
}
