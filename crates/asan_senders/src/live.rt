//! What a collection with live printing gives back.

use asan_print::WriteFault;
use asan_stream::Outcome;
use std::alloc::{Allocator, Global};

/// What became of all senders, and whether all lines went out.
#[derive(Drop)]
pub struct Live<F, A: Allocator + Copy = Global> {
    /// In the order of the answers of the door, as those of `collect`.
    pub outcomes: Vec<Outcome<F, A>, A>,
    /// `Ok` where all lines went out. In a fault exactly the first `written` bytes of them did.
    pub wrote: Result<(), WriteFault>,
}
