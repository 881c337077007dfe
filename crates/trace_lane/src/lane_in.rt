//! The putting end of a lane.
ghost use Rattle.std.specs.Prelude.{◌≡◌, ◌+◌, ◌<◌, ◌≤◌, [], ◌∷◌, ◌++◌, length, take};
ghost use Rattle.std.specs.Prelude.{IfErr, IfSome, IsOk, OnOk};
ghost use Rattle.trace_lane.specs.Lanes.{in_lane, end_lane, known_room, put_list, end_list};

use crate::lane_end::LaneEnd;
use rtrb::{Producer, PushError};
use std::alloc::{Allocator, Global};

/// The end of a lane that puts. None of its calls waits or takes memory.
///
/// Where it is dropped, the taking end still takes what was put.
#[derive(Drop)]
pub struct LaneIn<T: Copy + Send, A: Allocator + Copy = Global> {
    pub(crate) ring: Producer<T, A>,
}

impl<T: Copy + Send, A: Allocator + Copy> LaneIn<T, A> {
    /// Puts an item after those that were put before.
    ///
    /// # Errors
    ///
    /// The item itself, where the ring is full. Nothing was put then, and a later call may succeed.
    pub fn put(&mut self, item: T) -> Result<(), T>
        ensures lane { in_lane self.new ≡ in_lane self.old }
        ensures ok { OnOk result (put_list self.new ≡ put_list self.old ++ item ∷ []) }
        ensures full { IfErr result (λ back.
            (back ≡ item) × (put_list self.new ≡ put_list self.old)) }
        ensures room { OnOk result (known_room self.old ≤ known_room self.new + 1) }
        ensures succeeds { 0 < known_room self.old → IsOk result }
    {
        match self.ring.push(item) {
            Ok(()) => Ok(()),
            Err(PushError::Full(back)) => Err(back),
        }
    }

    /// Puts the first of some items, as many as there is room for, and returns how many.
    ///
    /// It does what as many calls of `put` do, one for each of these items in order, and takes less
    /// time. 0 says that the ring is full, or that there are no items.
    pub fn put_some(&mut self, items: &[T]) -> usize
        ensures lane { in_lane self.new ≡ in_lane self.old }
        ensures put { put_list self.new ≡ put_list self.old ++ take result items.now }
        ensures some { result ≤ length items.now }
        ensures room { known_room self.old ≤ known_room self.new + result }
        ensures all { length items.now ≤ known_room self.old → result ≡ length items.now }
    {
        let (put, _) = self.ring.push_partial_slice(items);
        put.len()
    }

    /// Whether the taking end was dropped. After a `true` nothing that is put will be taken, so a
    /// thread may give the lane up.
    ///
    /// No clause speaks of the answer. After a `false` the taking end may be dropped at any time.
    pub fn is_left(&mut self) -> bool
        ensures lane { in_lane self.new ≡ in_lane self.old }
        ensures put { put_list self.new ≡ put_list self.old }
        ensures room { known_room self.old ≤ known_room self.new }
    {
        self.ring.is_abandoned()
    }

    /// Ends the lane and drops this end. What it gives belongs to the same lane and carries every
    /// item that was put. `None` says that the taking end was dropped before; no clause speaks of
    /// when it comes.
    pub fn finish(self) -> Option<LaneEnd<T, A>>
        ensures lane { IfSome result (λ end. end_lane end ≡ in_lane self) }
        ensures all { IfSome result (λ end. end_list end ≡ put_list self) }
    {
        let ring = self.ring.finish()?;
        Some(LaneEnd { ring })
    }
}
