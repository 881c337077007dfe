//! Room for the items that a checker takes at a time.

ghost use Rattle.std.specs.Prelude.{◌≡◌, ◌≤◌, length, take};
ghost use Rattle.asan_stream.specs.Items.{events_of, has_end};

use crate::item::Item;
use crate::source::{BATCH_SIZE, batch_room};
use trace_record::Event;

/// Room for a batch of items, and for the events among them.
#[derive(Drop)]
pub(crate) struct Room {
    pub items: [Item; BATCH_SIZE],
    pub events: [Event; BATCH_SIZE],
}

impl Room {
    /// Room with nothing in it yet.
    pub(crate) fn new() -> Room {
        let events = batch_room();
        Room {
            items: [Item::Event(events[0]); BATCH_SIZE],
            events,
        }
    }
}

/// What was found among items.
#[derive(Clone, Copy, Debug)]
pub(crate) struct Among {
    /// How many of them are events.
    pub events: usize,
    /// Whether one of them is an end.
    pub has_end: bool,
}

/// Puts the events among the items at the front of `events`, in order.
pub(crate) fn pick_events(items: &[Item], events: &mut [Event]) -> Among
    requires room { length items.now ≤ length events.old }
    ensures same_room { length events.new ≡ length events.old }
    ensures few { result.events ≤ length items.now }
    ensures events { take result.events events.new ≡ events_of items.now }
    ensures ended { result.has_end ≡ has_end items.now }
{
    let (mut count, mut ended) = (0, false);
    for i in 0..items.len() {
        match &items[i] {
            Item::Event(event) => {
                events[count] = *event;
                count += 1;
            }
            Item::End(_) => ended = true,
        }
    }
    Among {
        events: count,
        has_end: ended,
    }
}
