//! The making of a lane.
ghost use Rattle.std.specs.Prelude.{◌≡◌, ◌<◌, ◌≤◌, ◌⊎◌, ◌↔◌, [], IfOk, IfErr};
ghost use Rattle.trace_lane.specs.Lanes.{in_lane, known_room, out_lane, most_items};
ghost use Rattle.trace_lane.specs.Lanes.{put_list, taken_list, waiting};

use crate::lane_in::LaneIn;
use crate::lane_out::LaneOut;
use rtrb::RingBuffer;
use std::alloc::Allocator;
use thiserror::Error;

/// The most items that a ring holds.
pub const MAX_ITEMS: usize = 1 << 16;

/// The most items that the buffer of the taking end holds.
const MAX_BUFFERED: usize = 64;

/// No lane was made.
#[derive(Clone, Copy, Debug, PartialEq, Eq, Error)]
pub enum LaneError {
    /// The capacity is 0, or more than 65,536.
    #[error("a lane holds 1 to 65,536 items")]
    Capacity = 1,
    /// The allocator had no memory for the lane.
    #[error("there was no memory for a lane")]
    NoMemory,
}

/// The two ends of a new lane, whose ring has room for `capacity` items, from 1 to 65,536.
///
/// Its memory is that of the ring and of a buffer of at most 64 items. Both come from `alloc`, and
/// the end that is dropped last gives the ring back.
///
/// # Errors
///
/// `Capacity` exactly where the capacity is out of its range. Else `NoMemory` where the allocator
/// refused memory. Nothing is kept then.
pub fn lane<T: Copy + Send, A: Allocator + Copy>(
    alloc: A,
    capacity: usize,
) -> Result<(LaneIn<T, A>, LaneOut<T, A>), LaneError>
    ensures ends { IfOk result (λ r. in_lane r.0 ≡ out_lane r.1) }
    ensures fresh { IfOk result (λ r. (put_list r.0 ≡ []) × (taken_list r.1 ≡ [])
        × (waiting r.1 ≡ [])) }
    ensures room { IfOk result (λ r. known_room r.0 ≡ capacity) }
    ensures made { IfOk result (λ _. (0 < capacity) × (capacity ≤ most_items)) }
    ensures refused { IfErr result (λ e.
        e ≡ LaneError.Capacity ↔ ((capacity ≡ 0) ⊎ (most_items < capacity))) }
{
    if !(1..=MAX_ITEMS).contains(&capacity) {
        return Err(LaneError::Capacity);
    }
    let Ok(buffer) = Vec::with_capacity(alloc, capacity.min(MAX_BUFFERED)) else {
        return Err(LaneError::NoMemory);
    };
    let Ok((producer, consumer)) = RingBuffer::new(alloc, capacity) else {
        return Err(LaneError::NoMemory);
    };
    Ok((LaneIn { ring: producer }, LaneOut::new(consumer, buffer)))
}
