//! Decoding a piece, some events at a time.

ghost use Rattle.std.specs.Prelude.{◌≡◌, ◌<◌, ◌≤◌, ◌++◌, ℕ, List, None, length, take};
ghost use Rattle.trace_record.specs.declared.event.Event.{Event as AnEvent};
ghost use Rattle.trace_record.specs.Standing.{StandsAt};
ghost use Rattle.asan_stream.specs.Decoding.{HasDecoded};

use trace_record::{Decoder, End, Event, Out};

/// What a decoder has made of a piece.
#[derive(Clone, Copy, Debug)]
pub(crate) struct Decoded {
    /// How many bytes of the piece it used.
    pub used: usize,
    /// How many events these bytes completed.
    pub count: usize,
    /// The end of the stream, if the last of these bytes decided it.
    pub end: Option<End>,
}

/// Decodes a piece until it is used up, the stream has ended, or `events` is full. The events stand
/// at the front of `events`.
pub(crate) fn decode(decoder: &mut Decoder, piece: &[u8], events: &mut [Event]) -> Decoded
    requires running { decoder.old.stop ≡ None }
    ensures used { result.used ≤ length piece.now }
    ensures room { length events.new ≡ length events.old }
    ensures count { result.count ≤ length events.old }
    ensures moved { 0 < length piece.now → 0 < length events.old → 0 < result.used }
    ensures limit { decoder.new.limit ≡ decoder.old.limit }
    ensures decoded { (text : List ℕ) (before : List AnEvent) → StandsAt decoder.old text before →
        HasDecoded decoder.new (text ++ take result.used piece.now)
        (before ++ take result.count events.new) result.end }
{
    let (mut used, mut count) = (0, 0);
    while count < events.len() {
        let ahead = decoder.next_events(&piece[used..], &mut events[count..]);
        used += ahead.used;
        count += ahead.count;
        if count == events.len() {
            break;
        }
        let step = decoder.next(&piece[used..]);
        used += step.used;
        match step.out {
            Out::Got(event) => {
                events[count] = event;
                count += 1;
            }
            Out::Need => break,
            Out::Stop(end) => {
                return Decoded {
                    used,
                    count,
                    end: Some(end),
                };
            }
        }
    }
    Decoded {
        used,
        count,
        end: None,
    }
}
