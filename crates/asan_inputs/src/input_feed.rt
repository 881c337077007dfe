//! A feed of a file or of standard input.

use trace_feed::{Feed, FeedFault};

/// The feed of a file, or of standard input.
#[derive(Drop)]
pub enum InputFeed<F, I> {
    File(F),
    Input(I),
}

impl<F: Feed, I: Feed> Feed for InputFeed<F, I> {
    ghost use Rattle.asan_inputs.specs.Inputs.{of_either};

    ghost seen = { of_either F.seen I.seen };

    fn next(&mut self, buf: &mut [u8]) -> Result<usize, FeedFault> {
        match self {
            InputFeed::File(feed) => feed.next(buf),
            InputFeed::Input(feed) => feed.next(buf),
        }
    }

    fn faults(&self) -> u64 {
        match self {
            InputFeed::File(feed) => feed.faults(),
            InputFeed::Input(feed) => feed.faults(),
        }
    }
}
