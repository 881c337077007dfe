//! The shadow of a process's memory: one byte for each granule of eight bytes, which says what they
//! are.
//!
//! A shadow byte is 0 where all eight bytes of its granule are addressable, and k from 1 to 7 where
//! the first k are and the others are not. Where none is, it is a code, a byte from 0x80 on, that
//! says why: [`HEAP_REDZONE`] round a block, and else what the caller gave. So a shadow can only
//! describe a granule whose addressable bytes come first, and each call keeps to that:
//!
//! - [`Shadow::mark`] and [`Shadow::block`] set whole granules, but for the last one of a block, of
//!   which the first bytes are addressable.
//! - [`Shadow::poison`] gives its code to each granule that lies wholly in its region. Of a granule
//!   that lies there in part it takes the addressable bytes in the region, if none past the
//!   region's end is addressable; else it leaves that granule as it was.
//! - [`Shadow::unpoison`] makes the bytes of its region addressable, and with each of them all
//!   bytes before it in its granule.
//!
//! An access is checked as AddressSanitizer checks it, by the shadow byte of its first byte alone.
//!
//! The shadow bytes are kept in a tree, and a leaf or a branch of it that was marked whole as one
//! byte. So a call takes memory only for the ends of what it marks, however large that is.
#![tactic(auto)]

mod granule;
mod laws;
mod marks;
mod reader;
mod shadow;

pub use granule::HEAP_REDZONE;
pub use laws::{
    addressable_bytes_lead, all_past_the_end_is_addressable, bad_byte_of_an_access,
    first_unaddressable_of_a_region, poison_of_a_granule, shadow_byte_of_a_granule,
    shadow_check_finds_the_bad_byte, unpoison_of_a_granule,
};
pub use reader::ShadowReader;
pub use shadow::{Cause, Shadow};
pub use std::alloc::AllocError as NoMemory;
