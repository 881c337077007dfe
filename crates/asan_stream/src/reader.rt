//! The reading end of a lane: one feed's events are put into it as they are read, and then their
//! end.

ghost use Rattle.std.specs.Prelude.{◌≡◌, ◌<◌, ◌≤◌, ◌∷◌, ◌++◌, [], IfSome, IsTrue, length};
ghost use Rattle.trace_lane.specs.Lanes.{in_lane, end_lane, put_list, end_list};
ghost use Rattle.asan_stream.specs.declared.item.Item.TheVariants as item;
ghost use Rattle.asan_stream.specs.Items.{event_items};
ghost use Rattle.asan_stream.specs.Ranges.{most_events};
ghost use Rattle.asan_stream.specs.Readers.{IsReaderOf};

use crate::item::Item;
use crate::pause::Pause;
use crate::source::{BATCH_SIZE, Source, batch_room};
use std::alloc::{Allocator, Global};
use std::sync::Wait;
use std::time::Clock;
use trace_feed::Feed;
use trace_lane::{LaneEnd, LaneIn};
use trace_record::{End, Event};

/// What a reader gives back.
#[derive(Drop)]
pub struct ReaderDone<F, A: Allocator + Copy = Global> {
    /// Its feed, as the last read left it.
    pub feed: F,
    /// The end of the stream. It has no meaning where the lane has no end.
    pub end: End,
    /// The end of its lane, or `None` where the lane was left.
    pub lane_end: Option<LaneEnd<Item, A>>,
}

/// Reads `feed` until something ends its stream. Puts the events that its bytes spell into the
/// lane, then the end, and then finishes the lane. It owns the feed again.
///
/// The events of a piece are put before the feed is asked again. Where the lane is full it waits
/// until there is room, or until the lane was left: then it gives up, and `lane_end` is `None`. It
/// takes no memory.
///
/// No read of the feed may have failed before, and the limit on its events is 1 to 2^24.
pub fn run_reader<F: Feed, A: Allocator + Copy, R: Wait + Clock>(
    rt: &R,
    feed: F,
    lane: LaneIn<Item, A>,
    limit: u32,
) -> ReaderDone<F, A>
    requires fresh { (F.seen feed).faults ≡ 0 }
    requires limit { (0 < limit) × (limit ≤ most_events) }
    ensures { IsReaderOf F.seen limit feed lane result }
{
    let mut lane = lane;
    let mut source = Source::new(feed, limit);
    let mut events = batch_room();
    let mut items = [Item::Event(events[0]); BATCH_SIZE];
    loop {
        let batch = source.next_batch(&mut events);
        if !put_events(rt, &mut lane, &events[..batch.count], &mut items) {
            let (feed, end) = source.into_end();
            return ReaderDone {
                feed,
                end,
                lane_end: None,
            };
        }
        if batch.is_last {
            let (feed, end) = source.into_end();
            let lane_end = close(rt, lane, end);
            return ReaderDone {
                feed,
                end,
                lane_end,
            };
        }
    }
}

/// Puts the end, and finishes the lane. `None` where the lane was left.
fn close<A: Allocator + Copy, R: Wait + Clock>(
    rt: &R,
    lane: LaneIn<Item, A>,
    end: End,
) -> Option<LaneEnd<Item, A>>
    ensures { IfSome result (λ e. (end_lane e ≡ in_lane lane)
        × (end_list e ≡ put_list lane ++ item.End end ∷ [])) }
{
    let mut lane = lane;
    if !put_all(rt, &mut lane, &[Item::End(end)]) {
        return None;
    }
    lane.finish()
}

/// Puts a batch of events, and answers whether it could: it gives up where the lane was left. It
/// may overwrite `items`.
fn put_events<A: Allocator + Copy, R: Wait + Clock>(
    rt: &R,
    lane: &mut LaneIn<Item, A>,
    events: &[Event],
    items: &mut [Item],
) -> bool
    requires room { length events.now ≤ length items.old }
    ensures same_room { length items.new ≡ length items.old }
    ensures lane { in_lane lane.new ≡ in_lane lane.old }
    ensures put { IsTrue result → put_list lane.new ≡ put_list lane.old ++ event_items events.now }
{
    for i in 0..events.len() {
        items[i] = Item::Event(events[i]);
    }
    put_all(rt, lane, &items[..events.len()])
}

/// Puts these items, and answers whether it could: it gives up where the lane was left.
fn put_all<A: Allocator + Copy, R: Wait + Clock>(
    rt: &R,
    lane: &mut LaneIn<Item, A>,
    items: &[Item],
) -> bool
    ensures lane { in_lane lane.new ≡ in_lane lane.old }
    ensures put { IsTrue result → put_list lane.new ≡ put_list lane.old ++ items.now }
{
    let mut pause = Pause::new();
    let mut done = 0;
    for _ in rt.forever() {
        let more = lane.put_some(&items[done..]);
        done += more;
        if done == items.len() {
            return true;
        }
        if lane.is_left() {
            return false;
        }
        if more == 0 {
            pause.wait(rt);
        } else {
            pause.reset();
        }
    }
    unreachable!()
}
