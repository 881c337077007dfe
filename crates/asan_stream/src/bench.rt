//! A bench: a checker at the taking end of a lane.

ghost use Rattle.std.specs.Prelude.{◌≡◌, ◌≤◌, length};
ghost use Rattle.trace_lane.specs.Lanes.{taken_list};
ghost use Rattle.asan_check.specs.declared.report.Report.{Report as AReport};
ghost use Rattle.asan_check.specs.Standing.{reports_of};
ghost use Rattle.asan_stream.specs.Items.{events_of, has_end};
ghost use Rattle.asan_stream.specs.Ranges.{most_events};
ghost use Rattle.asan_stream.specs.Checking.{StandsAfter};
ghost use Rattle.asan_stream.specs.Outboxes.{Holds};

use crate::gate::Gate;
use crate::item::Item;
use crate::options::MAX_EVENTS;
use crate::outbox::Outbox;
use crate::replay::check_each;
use crate::room::{Room, pick_events};
use crate::source::batch_room;
use asan_check::{Checker, Report};
use std::alloc::{Allocator, Global};
use trace_lane::{LaneEnd, LaneIn, LaneOut};
use trace_record::Event;

/// A checker, and the taking end of the lane that its events come from. It may have a report lane
/// too, into which it puts the checker's reports as they are found.
///
/// The type keeps that the checker stands where the events taken lead, or has failed among them,
/// and that the reports put are the first of the checker's.
#[derive(Drop)]
pub struct Bench<A: Allocator + Copy = Global> {
    process: u32,
    lane: LaneOut<Item, A>,
    checker: Checker<A>,
    /// How many events were taken.
    events: u32,
    /// Whether the end was taken.
    ended: bool,
    /// Whether the lane was seen to be left.
    left: bool,
    /// Whether the lane was found empty after it was seen to be left.
    dry: bool,
    outbox: Outbox<A>,
    /// Of how many events the gate was called.
    announced: u64,
    ghost stands: { StandsAfter checker (taken_list lane) },
    ghost counted: { events ≡ length (events_of (taken_list lane)) },
    ghost few: { events ≤ most_events },
    ghost ends: { ended ≡ has_end (taken_list lane) },
    ghost sends: { Holds outbox (reports_of checker) },
}

/// What a turn of a bench did.
#[derive(Clone, Copy, Debug, PartialEq, Eq)]
pub enum Turn {
    /// It took one item.
    Took,
    /// It found none, or took none since a report waits for room in the report lane.
    Empty,
    /// The end or 2^24 events were taken before.
    Over,
}

/// What a bench found to do.
#[derive(Clone, Copy, Debug, PartialEq, Eq)]
pub(crate) enum Found {
    /// It took some items.
    Items,
    /// It has to wait for one, or for room for a report.
    None,
    /// It takes no more.
    End,
}

impl<A: Allocator + Copy> Bench<A> {
    ghost use Rattle.std.specs.Prelude.{◌≢◌, ◌↔◌, ◌<◌, ◌++◌, List, [], take, IsTrue, IfSome, None};
    ghost use Rattle.std.specs.Prelude.{Some};
    ghost use Rattle.trace_lane.specs.Lanes.{in_lane, out_lane, put_list, waiting, end_lane};
    ghost use Rattle.trace_lane.specs.Lanes.{end_list};
    ghost use Rattle.asan_check.specs.Standing.{Stands, bound_of};
    ghost use Rattle.asan_stream.specs.Outboxes.{IsFront, KeepsLane};
    ghost use Rattle.asan_stream.specs.Checking.{HasChecked};
    ghost use Rattle.asan_stream.specs.Benches.{Later};
    ghost use Rattle.asan_stream.specs.Benches.{lane_of, process_of, taken_of, bench_bound};
    ghost use Rattle.asan_stream.specs.Benches.{report_lane_of, put_of, found_of, HasReported};
    ghost use Rattle.asan_stream.specs.Benches.{is_over, TakesNoMore, Turns, checker_of};

    /// A bench of this process, without a report lane. Nothing was taken from its lane, and its
    /// checker has checked nothing. Takes no memory.
    pub fn new(process: u32, lane: LaneOut<Item, A>, checker: Checker<A>) -> Bench<A>
        requires fresh { taken_list lane ≡ [] }
        requires stands { Stands (bound_of checker) checker [] }
        ensures process { process_of result ≡ process }
        ensures lane { lane_of result ≡ out_lane lane }
        ensures taken { taken_of result ≡ [] }
        ensures checker { checker_of result ≡ checker }
        ensures bound { bench_bound result ≡ bound_of checker }
        ensures report_lane { report_lane_of result ≡ None }
        ensures put { put_of result ≡ [] }
    {
        Bench::fresh(process, lane, checker, Outbox::closed())
    }

    /// A bench of this process, which puts its checker's reports into a report lane. Nothing was
    /// taken from its lane or put into the report lane, and its checker has checked nothing. Takes
    /// no memory.
    ///
    /// Who takes from the report lane sees the reports in their order, before the gate is called
    /// for their events. While a report waits for room there, the bench takes no item. Once nobody
    /// takes from it any more, the bench lets it go, and works on as one of [`Bench::new`]. No
    /// clause says when: a report lane that is still there is the one that it was given.
    pub fn with_reports(
        process: u32,
        lane: LaneOut<Item, A>,
        checker: Checker<A>,
        reports: LaneIn<Report, A>,
    ) -> Bench<A>
        requires fresh { taken_list lane ≡ [] }
        requires stands { Stands (bound_of checker) checker [] }
        requires fresh_reports { put_list reports ≡ [] }
        ensures process { process_of result ≡ process }
        ensures lane { lane_of result ≡ out_lane lane }
        ensures taken { taken_of result ≡ [] }
        ensures checker { checker_of result ≡ checker }
        ensures bound { bench_bound result ≡ bound_of checker }
        ensures report_lane { report_lane_of result ≡ Some (in_lane reports) }
        ensures put { put_of result ≡ [] }
    {
        Bench::fresh(process, lane, checker, Outbox::open(reports))
    }

    /// A bench with this outbox, into which nothing was put.
    fn fresh(
        process: u32,
        lane: LaneOut<Item, A>,
        checker: Checker<A>,
        outbox: Outbox<A>,
    ) -> Bench<A>
        requires fresh { taken_list lane ≡ [] }
        requires stands { Stands (bound_of checker) checker [] }
        requires fresh_outbox { Holds outbox [] }
        ensures process { process_of result ≡ process }
        ensures lane { result.lane ≡ lane }
        ensures checker { result.checker ≡ checker }
        ensures outbox { result.outbox ≡ outbox }
    {
        Bench {
            process,
            lane,
            checker,
            events: 0,
            ended: false,
            left: false,
            dry: false,
            outbox,
            announced: 0,
        }
    }

    /// Whether the end or 2^24 events were taken.
    fn is_done(&self) -> bool
        ensures { result ≡ is_over (taken_of self.now) }
    {
        self.ended || self.events >= MAX_EVENTS
    }

    /// Puts the reports that wait, as many as there is room for, and calls the gate for each event
    /// that was checked, up to the first whose report still waits. Whether none waits any more.
    fn report<G: Gate>(&mut self, gate: &G) -> bool
        ensures report_lane { KeepsLane (report_lane_of self.old) (report_lane_of self.new) }
        ensures all { IsTrue result ↔ HasReported self.new (found_of self.old) }
        ensures stays { (reports : List AReport) →
            HasReported self.old reports → HasReported self.new reports }
        ensures process { self.new.process ≡ self.old.process }
        ensures lane { self.new.lane ≡ self.old.lane }
        ensures checker { self.new.checker ≡ self.old.checker }
        ensures events { self.new.events ≡ self.old.events }
        ensures ended { self.new.ended ≡ self.old.ended }
    {
        let reports = self.checker.reports();
        let sent = self.outbox.send(reports);
        let checked = match self.outbox.first_waiting(reports) {
            Some(report) => report.number.saturating_sub(1),
            None => self.checker.checked(),
        };
        for before in self.announced..checked {
            gate.checked(self.process, before + 1);
        }
        self.announced = checked;
        sent
    }

    /// Takes the items at hand, as many as there is room for, and hands the events among them to
    /// the checker, in all at most 2^24. The answer is how many items it took.
    #[inline]
    fn take_items(&mut self, items: &mut [Item], events: &mut [Event]) -> usize
        requires some_room { 0 < length items.old }
        requires enough_room { length items.old ≤ length events.old }
        ensures most { result ≤ length items.new }
        ensures takes { taken_of self.new ≡ taken_of self.old ++ take result items.new }
        ensures waits { 0 < length (waiting self.old.lane) →
            waiting self.old.lane ≡ take result items.new ++ waiting self.new.lane }
        ensures some { 0 < length (waiting self.old.lane) → self.old.events < most_events →
            0 < result }
        ensures full { self.old.events ≡ most_events → result ≡ 0 }
        ensures none { result ≡ 0 → self.new.checker ≡ self.old.checker }
        ensures found { IsFront (found_of self.old) (found_of self.new) }
        ensures bound { bench_bound self.new ≡ bench_bound self.old }
        ensures process { self.new.process ≡ self.old.process }
        ensures lane { lane_of self.new ≡ lane_of self.old }
        ensures left { self.new.left ≡ self.old.left }
        ensures outbox { self.new.outbox ≡ self.old.outbox }
    {
        let most = items.len().min((MAX_EVENTS - self.events) as usize);
        let count = self.lane.take_some(&mut items[..most]);
        if count == 0 {
            return 0;
        }
        let among = pick_events(&items[..count], events);
        self.ended |= among.has_end;
        self.events += among.events as u32;
        check_each(&mut self.checker, &events[..among.events]);
        count
    }

    /// Takes one item, if there is one, and checks it if it is an event. Then it puts the report on
    /// it, if there is one and the bench has a report lane, and calls the gate, unless the checker
    /// has failed: a checker that has failed stays so, and its events are taken and dropped.
    ///
    /// Where there is no room for the report, it waits in the bench, and the gate's call with it.
    /// The turns after this one try again to put it. Until it is put they take no item and answer
    /// `Empty`, after the last event too.
    ///
    /// `Over`, exactly where the end or 2^24 events were taken before and no report waits: then it
    /// takes nothing.
    pub fn turn<G: Gate>(&mut self, gate: &G) -> Turn
        ensures turns { Turns self.old result self.new }
        ensures waits { result ≡ Turn.Took → HasReported self.new (found_of self.old) }
        ensures over { result ≡ Turn.Over
            ↔ IsTrue (is_over (taken_of self.old)) × HasReported self.new (found_of self.old) }
    {
        if !self.report(gate) {
            return Turn::Empty;
        }
        if self.is_done() {
            return Turn::Over;
        }
        // Room for one item.
        let event = batch_room()[0];
        let (mut items, mut events) = ([Item::Event(event)], [event]);
        if self.take_items(&mut items, &mut events) == 0 {
            return Turn::Empty;
        }
        self.report(gate);
        Turn::Took
    }

    /// Takes the items at hand, as many as there is room for, checks the events among them, and
    /// then puts the reports on them and calls the gate. It takes none once the end or 2^24 events
    /// were taken.
    fn take_batch<G: Gate>(&mut self, gate: &G, room: &mut Room) -> Found
        ensures later { Later self.old self.new }
        ensures stays { (reports : List AReport) →
            HasReported self.old reports → HasReported self.new reports }
        ensures takes { result ≢ Found.Items → taken_of self.new ≡ taken_of self.old }
        ensures over { IsTrue (is_over (taken_of self.old)) →
            taken_of self.new ≡ taken_of self.old }
        ensures finds { result ≢ Found.Items → found_of self.new ≡ found_of self.old }
        ensures ends { result ≡ Found.End → IsTrue (is_over (taken_of self.old)) }
        ensures dry { result ≡ Found.None → self.new.dry ≡ self.old.left }
    {
        if self.is_done() {
            return Found::End;
        }
        if self.take_items(&mut room.items, &mut room.events) == 0 {
            self.dry = self.left;
            return Found::None;
        }
        self.report(gate);
        Found::Items
    }

    /// Takes and checks a batch of items, unless a report waits, and answers whether there may be
    /// more to do: not once no report waits, and it is over or its lane was found empty after it
    /// was seen to be left. It takes none once the end or 2^24 events were taken.
    pub(crate) fn work<G: Gate>(&mut self, gate: &G, room: &mut Room) -> Found
        ensures later { Later self.old self.new }
        ensures takes { result ≢ Found.Items → taken_of self.new ≡ taken_of self.old }
        ensures over { IsTrue (is_over (taken_of self.old)) →
            taken_of self.new ≡ taken_of self.old }
        ensures waits { result ≡ Found.Items → HasReported self.new (found_of self.old) }
        ensures ends { result ≡ Found.End → HasReported self.new (found_of self.new) }
        ensures no_more { result ≡ Found.End → TakesNoMore self.new }
    {
        let sent = self.report(gate);
        if !sent {
            return Found::None;
        }
        let found = self.take_batch(gate, room);
        if !matches!(found, Found::None) {
            return found;
        }
        self.left = self.lane.is_left();
        if !self.left {
            return Found::None;
        }
        // It may have been left only after the first look: what was put until then is taken first.
        match self.take_batch(gate, room) {
            Found::None => Found::End,
            found => found,
        }
    }

    /// Ends the report lane, into which nothing is put from then on. The end carries the reports
    /// that were put: the first of the checker's.
    ///
    /// `None` where the bench has no report lane, as one of [`Bench::new`] or after an earlier
    /// call, or where nobody takes from it any more.
    pub fn finish_reports(&mut self) -> Option<LaneEnd<Report, A>>
        ensures lane { IfSome result (λ end. report_lane_of self.old ≡ Some (end_lane end)) }
        ensures put { IfSome result (λ end. end_list end ≡ put_of self.old) }
        ensures front { IfSome result (λ end. IsFront (end_list end) (found_of self.old)) }
        ensures none { report_lane_of self.old ≡ None → result ≡ None }
        ensures closed { report_lane_of self.new ≡ None }
        ensures process { process_of self.new ≡ process_of self.old }
        ensures item_lane { lane_of self.new ≡ lane_of self.old }
        ensures taken { taken_of self.new ≡ taken_of self.old }
        ensures checker { checker_of self.new ≡ checker_of self.old }
    {
        self.outbox.finish()
    }

    /// The number of its process.
    pub fn process(&self) -> u32
        ensures { result ≡ process_of self.now }
    {
        self.process
    }

    /// Takes all that is left of its lane, which was finished with this end, and checks the events
    /// of it, in all at most 2^24. Its checker, and how many events it was handed.
    pub(crate) fn drain(self, end: LaneEnd<Item, A>) -> (Checker<A>, u32)
        requires { end_lane end ≡ lane_of self }
        ensures { HasChecked (checker_of self) result.1 result.0 (end_list end) }
    {
        let mut bench = self;
        bench.take_rest(end);
        let Bench {
            checker,
            events,
            ..
        } = bench;
        (checker, events)
    }

    /// Does what [`Bench::drain`] does, in place.
    fn take_rest(&mut self, end: LaneEnd<Item, A>)
        requires { end_lane end ≡ lane_of self.old }
        ensures { HasChecked (checker_of self.old) self.new.events (checker_of self.new)
            (end_list end) }
    {
        let mut room = Room::new();
        let mut left = self.lane.settle(end);
        while left > 0 && self.events < MAX_EVENTS {
            left -= self.take_items(&mut room.items, &mut room.events);
        }
    }
}
