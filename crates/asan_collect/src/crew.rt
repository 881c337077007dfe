//! What the threads of a collection share.

use crate::at_work::AtWork;
use asan_stream::Options;
use std::alloc::Allocator;
use std::thread::Scope;

/// The scope that threads are started in, and what each of them uses.
#[derive(Drop)]
pub(crate) struct Crew<'s, 'e, G, R, A: Allocator + Copy> {
    pub scope: &'s Scope<'s, &'e ()>,
    pub rt: &'e R,
    pub gate: &'e G,
    pub at_work: &'e AtWork,
    /// Where lists take their memory.
    pub alloc: A,
    pub options: Options,
}
