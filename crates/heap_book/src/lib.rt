//! The blocks of a process's heap: those that are live, and those that were freed and are held in
//! quarantine.
//!
//! A block's **span** is its bytes, rounded up to whole granules of 8, and a redzone of 32 bytes on
//! each side. The spans of the live blocks and of those in quarantine never share a byte.
//!
//! - **Admission.** A malloc at address 0 is ignored: the allocator had no memory. Any other is
//!   admitted, and its block is live from then on, if the block starts at a multiple of 8, has room
//!   for its redzones from 0 up to 2^47, and its span meets none of a live block or of one in
//!   quarantine. Spans may touch. Otherwise it is refused.
//! - **Free.** A free of address 0 is ignored. Where a live block starts, the block passes to the
//!   back of the quarantine; where one in quarantine starts, it is freed twice; anywhere else the
//!   address is a stranger's.
//! - **Quarantine.** It is a queue with a bound on the bytes of its spans. While they are more than
//!   the bound, the block that was freed first may be let go, and its span is then free again. So a
//!   block that was freed is held as long as its span, with the spans of all blocks that were freed
//!   after it, has at most as many bytes as the bound. A block whose own span has more is not held
//!   at all.
#![tactic(auto)]

mod answers;
mod block;
mod book;
mod free_span;

pub use answers::{Admit, Bound, Freed};
pub use block::Block;
pub use book::{Book, MAX_FETCHED};
pub use std::alloc::AllocError as NoMemory;
