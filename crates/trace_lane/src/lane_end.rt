//! What is left of the putting end.

use rtrb::Finished;
use std::alloc::{Allocator, Global};

/// What is left of the putting end of a lane that was finished. It owns no memory and knows every
/// item that was put.
///
/// `LaneOut::settle` of the same lane takes it.
#[derive(Drop)]
pub struct LaneEnd<T: Copy + Send, A: Allocator + Copy = Global> {
    pub(crate) ring: Finished<T, A>,
}
