//! The taking end of a lane.
ghost use Rattle.std.specs.Prelude.{◌≡◌, ◌-◌, ◌≤◌, ◌++◌, length, take, vec_len};
ghost use Rattle.rtrb.specs.Ring.{received};
ghost use Rattle.trace_lane.specs.Pieces.{piece};

use crate::lane_end::LaneEnd;
use rtrb::Consumer;
use std::alloc::{Allocator, Global};

/// The end of a lane that takes. None of its calls waits or takes memory.
///
/// It moves items out of the ring into its own buffer, and gives them from there one by one.
/// Where it is dropped, the items that were not taken are lost, and those that are put later too.
#[derive(Drop)]
pub struct LaneOut<T: Copy + Send, A: Allocator + Copy = Global> {
    ring: Consumer<T, A>,
    // Its items from `from` on, up to `to`, left the ring and wait to be taken.
    buffer: Vec<T, A>,
    from: usize,
    to: usize,
    // Whether the lane was settled: from then on no item moves into the buffer.
    settled: bool,
    ghost in_buffer: { (from ≤ to) × (to ≤ vec_len buffer) },
    ghost last_received: { received ring
        ≡ take (length (received ring) - (to - from)) (received ring)
        ++ piece from to buffer.items },
}

impl<T: Copy + Send, A: Allocator + Copy> LaneOut<T, A> {
    ghost use Rattle.std.specs.Prelude.{◌≡◌, ◌<◌, ◌≤◌, [], ◌∷◌, ◌++◌, length, take};
    ghost use Rattle.std.specs.Prelude.{IfSome, IfNone, IsSome, true, false};
    ghost use Rattle.rtrb.specs.Ring.{received};
    ghost use Rattle.trace_lane.specs.Lanes.{out_lane, end_lane, taken_list, waiting, end_list};

    /// The taking end over a new ring. The whole capacity of the empty buffer is used.
    pub(crate) fn new(ring: Consumer<T, A>, buffer: Vec<T, A>) -> LaneOut<T, A>
        requires { (received ring ≡ []) × (buffer.items ≡ []) }
        ensures ring { result.ring ≡ ring }
        ensures fresh { (taken_list result ≡ []) × (waiting result ≡ []) }
    {
        LaneOut {
            ring,
            buffer,
            from: 0,
            to: 0,
            settled: false,
        }
    }

    /// Takes the oldest item, or `None` where it finds none. A later call may find one.
    ///
    /// Where items are known to wait, as after `settle`, it takes the first of them.
    pub fn take(&mut self) -> Option<T>
        ensures lane { out_lane self.new ≡ out_lane self.old }
        ensures some { IfSome result (λ x. taken_list self.new ≡ taken_list self.old ++ x ∷ []) }
        ensures none { IfNone result ((taken_list self.new ≡ taken_list self.old)
            × (waiting self.old ≡ []) × (waiting self.new ≡ [])) }
        ensures known { 0 < length (waiting self.old)
            → IfSome result (λ x. waiting self.old ≡ x ∷ waiting self.new) }
        ensures succeeds { 0 < length (waiting self.old) → IsSome result }
    {
        if self.from < self.to {
            let item = self.buffer[self.from];
            self.from += 1;
            return Some(item);
        }
        if self.settled {
            self.take_known()
        } else {
            self.refill()
        }
    }

    /// Takes the oldest items that it finds, at most as many as there is room for, and returns how
    /// many. They stand at the front of `room`, in order.
    ///
    /// It does what as many calls of `take` do, and takes less time. 0 says that it finds none, or
    /// that there is no room. Where items are known to wait, it takes none but these.
    pub fn take_some(&mut self, room: &mut [T]) -> usize
        ensures lane { out_lane self.new ≡ out_lane self.old }
        ensures room { length room.new ≡ length room.old }
        ensures most { result ≤ length room.old }
        ensures some { taken_list self.new ≡ taken_list self.old ++ take result room.new }
        ensures none { result ≡ 0 → 0 < length room.old
            → (waiting self.old ≡ []) × (waiting self.new ≡ []) }
        ensures known { 0 < length (waiting self.old)
            → waiting self.old ≡ take result room.new ++ waiting self.new }
    {
        let known = self.known();
        if known == 0 && !self.settled {
            return self.ring.pop_partial_slice(room);
        }
        let count = known.min(room.len());
        for i in 0..count {
            room[i] = self.take().unwrap();
        }
        count
    }

    /// How many items are known to wait.
    fn known(&self) -> usize
        ensures { result ≡ length (waiting self.now) }
    {
        let buffered = self.to - self.from;
        if self.settled {
            buffered + self.ring.cached_slots()
        } else {
            buffered
        }
    }

    /// Takes an item that `settle` found in the ring.
    fn take_known(&mut self) -> Option<T>
        requires empty { self.old.from ≡ self.old.to }
        requires settled { self.old.settled ≡ true }
        ensures lane { out_lane self.new ≡ out_lane self.old }
        ensures some { IfSome result (λ x. (taken_list self.new ≡ taken_list self.old ++ x ∷ [])
            × (waiting self.old ≡ x ∷ waiting self.new)) }
        ensures none { IfNone result ((taken_list self.new ≡ taken_list self.old)
            × (waiting self.old ≡ []) × (waiting self.new ≡ [])) }
    {
        if self.ring.cached_slots() == 0 {
            return None;
        }
        Some(self.ring.pop_known())
    }

    /// Takes the oldest item of the ring, and moves more items into the buffer.
    fn refill(&mut self) -> Option<T>
        requires empty { self.old.from ≡ self.old.to }
        requires unsettled { self.old.settled ≡ false }
        ensures lane { out_lane self.new ≡ out_lane self.old }
        ensures some { IfSome result (λ x. taken_list self.new ≡ taken_list self.old ++ x ∷ []) }
        ensures none { IfNone result ((taken_list self.new ≡ taken_list self.old)
            × (waiting self.new ≡ [])) }
        ensures empty { waiting self.old ≡ [] }
    {
        let item = self.ring.pop().ok()?;
        // Copies of the item make the places that the slice is written to.
        self.buffer.resize(self.buffer.capacity(), item).unwrap();
        self.from = 0;
        self.to = self.ring.pop_partial_slice(&mut self.buffer);
        Some(item)
    }

    /// Whether the putting end was dropped or finished. After a `true` no more items come, but
    /// those that were put before may still wait: a thread takes until `None` before it gives the
    /// lane up.
    ///
    /// No clause speaks of the answer. After a `false` the putting end may be dropped at any time.
    pub fn is_left(&mut self) -> bool
        ensures lane { out_lane self.new ≡ out_lane self.old }
        ensures taken { taken_list self.new ≡ taken_list self.old }
        ensures waits { waiting self.new ≡ waiting self.old }
    {
        // After `settle` the putting end is gone, and a look at the ring may show more items there.
        self.settled || self.ring.is_abandoned()
    }

    /// How many items are left, now that the lane was finished.
    ///
    /// That many takes then succeed: first those that wait in the buffer, then those in the ring.
    /// The items that were taken before, followed by them, are all that was put.
    pub fn settle(&mut self, end: LaneEnd<T, A>) -> usize
        requires { end_lane end ≡ out_lane self.old }
        ensures lane { out_lane self.new ≡ out_lane self.old }
        ensures taken { taken_list self.new ≡ taken_list self.old }
        ensures count { result ≡ length (waiting self.new) }
        ensures all { taken_list self.new ++ waiting self.new ≡ end_list end }
    {
        let LaneEnd { mut ring } = end;
        let in_ring = self.ring.slots_after(&mut ring);
        self.settled = true;
        (self.to - self.from) + in_ring
    }
}
