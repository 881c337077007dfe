//! The promise of a reader.

ghost use Rattle.asan_stream.specs.Readers.{IsReaderOf};

use asan_stream::{Item, ReaderDone};
use std::alloc::Allocator;
use std::snapshot::Snapshot;
use std::thread::Promise;
use trace_feed::Feed;
use trace_lane::LaneIn;

/// What a reader was given.
#[derive(Drop)]
pub struct Reading<F, A: Allocator + Copy> {
    pub feed: Snapshot<F>,
    pub lane: Snapshot<LaneIn<Item, A>>,
    pub limit: u32,
}

impl<F: Feed, A: Allocator + Copy> Promise<ReaderDone<F, A>> for Reading<F, A> {
    ghost kept_by = { λ p r.
        IsReaderOf F.seen p.limit p.feed.value p.lane.value r };
}
