//! Reading a feed: the events that its bytes spell, a batch at a time, up to the end of its stream.

ghost use Rattle.std.specs.Prelude.{◌≡◌, ◌<◌, ◌≤◌, ◌++◌, ℕ, [], List, None, IsTrue, length, take};
ghost use Rattle.trace_record.specs.declared.event.Event.{Event as AnEvent};
ghost use Rattle.asan_stream.specs.Ranges.{batch_size, most_events};
ghost use Rattle.asan_stream.specs.Pieces.{rest_of};
ghost use Rattle.asan_stream.specs.Sources.{HasRead, HasEnded, AfterBatch, AfterRefill, IsEndOf};

use crate::decode::decode;
use crate::piece::Piece;
use trace_feed::Feed;
use trace_record::{Access, Decoder, End, Event};

/// How many events a batch may have.
pub(crate) const BATCH_SIZE: usize = 64;

/// Room for a batch of events.
pub(crate) fn batch_room() -> [Event; BATCH_SIZE]
    ensures { length result ≡ batch_size }
{
    let event = Event::Load(Access::new(0, 1).unwrap());
    [event; BATCH_SIZE]
}

/// A batch of events.
#[derive(Clone, Copy, Debug)]
pub(crate) struct Batch {
    /// How many events it has.
    pub count: usize,
    /// Whether the stream has ended after them.
    pub is_last: bool,
}

/// A feed that is being read, and its decoder.
#[derive(Drop)]
pub(crate) struct Source<F> {
    feed: F,
    decoder: Decoder,
    /// What was read and is not yet decoded.
    piece: Piece,
}

impl<F: Feed> Source<F> {
    /// Starts to read a feed whose stream may have at most `limit` events, 1 to 2^24. No read of it
    /// may have failed.
    pub(crate) fn new(feed: F, limit: u32) -> Source<F>
        requires fresh { (F.seen feed).faults ≡ 0 }
        requires limit { (0 < limit) × (limit ≤ most_events) }
        ensures { HasRead F.seen limit feed result [] [] }
    {
        Source {
            feed,
            decoder: Decoder::new(limit).unwrap(),
            piece: Piece::new(),
        }
    }

    /// Reads the next events into the front of `events`, which has room for one at least. The feed
    /// is asked once at most, and only when all that it gave before was decoded. After the last
    /// batch this is not to be called again.
    pub(crate) fn next_batch(&mut self, events: &mut [Event]) -> Batch
        requires fresh { (F.seen self.old.feed).faults ≡ 0 }
        requires running { self.old.decoder.stop ≡ None }
        requires some_room { 0 < length events.old }
        ensures room { length events.new ≡ length events.old }
        ensures count { result.count ≤ length events.old }
        ensures read { (limit : ℕ) (first : F) (text : List ℕ) (before : List AnEvent) →
            HasRead F.seen limit first self.old text before →
            AfterBatch F.seen limit first result.is_last self.new text
            (before ++ take result.count events.new) }
    {
        if self.piece.rest().is_empty() && !self.refill() {
            return Batch {
                count: 0,
                is_last: true,
            };
        }
        let decoded = decode(&mut self.decoder, self.piece.rest(), events);
        self.piece.advance(decoded.used);
        Batch {
            count: decoded.count,
            is_last: decoded.end.is_some(),
        }
    }

    /// Asks the feed for its next piece, and answers whether there is one.
    fn refill(&mut self) -> bool
        requires fresh { (F.seen self.old.feed).faults ≡ 0 }
        requires used_up { rest_of self.old.piece ≡ [] }
        ensures decoder { self.new.decoder ≡ self.old.decoder }
        ensures some { IsTrue result → 0 < length (rest_of self.new.piece) }
        ensures read { (limit : ℕ) (first : F) (text : List ℕ) (events : List AnEvent) →
            HasRead F.seen limit first self.old text events →
            AfterRefill F.seen limit first result self.new text events }
    {
        match self.piece.refill(&mut self.feed) {
            Ok(0) | Err(_) => false,
            Ok(_) => true,
        }
    }

    /// The feed, and the end of its stream. It has no meaning before the last batch.
    pub(crate) fn into_end(self) -> (F, End)
        ensures { (limit : ℕ) (first : F) (events : List AnEvent) →
            HasEnded F.seen limit first self events →
            IsEndOf F.seen limit first result.0 events result.1 }
    {
        let Source { feed, decoder, .. } = self;
        let end = if feed.faults() > 0 {
            decoder.at_fault()
        } else {
            decoder.at_end()
        };
        (feed, end)
    }
}
