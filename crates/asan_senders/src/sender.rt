//! A sender, from its arrival until it is settled.

use crate::missing::Part;
use crate::reading::Reading;
use asan_check::Report;
use asan_stream::{Bench, Item, ReaderDone};
use std::alloc::Allocator;
use std::thread::PromisedHandle;
use trace_feed::Feed;
use trace_lane::{LaneEnd, LaneIn};

/// How far a sender has come.
#[derive(Drop)]
pub enum Sender<F: Feed, A: Allocator + Copy> {
    /// Its feed could not be opened.
    NotOpened,
    /// A lane or a thread was missing.
    NotStarted(Part),
    /// It has a feed and a lane, and no reader yet.
    Ready(F, LaneIn<Item, A>),
    /// Its reader runs.
    Running(PromisedHandle<ReaderDone<F, A>, Reading<F, A>>),
    /// Its reader is done.
    Read(ReaderDone<F, A>),
    /// Its reader is done, and its bench is back, with the end of its report lane, if there is one.
    Joined(ReaderDone<F, A>, Bench<A>, Option<LaneEnd<Report, A>>),
}
