//! The decoder: it reads one stream, whose bytes come in pieces, and gives its events and its end.

ghost use Rattle.std.specs.Prelude.{◌≡◌, ◌≢◌, ◌<◌, ◌≤◌, ◌↔◌, ◌⊎◌, [], ◌++◌};
ghost use Rattle.std.specs.Prelude.{ℕ, List, drop, length, slice_index, take};
ghost use Rattle.std.specs.Prelude.{IsTrue, IsSome, IfSome, IfNone, IfOk, Some, None, Ok};
ghost use Rattle.trace_record.specs.Ranges.{largest_limit};
ghost use Rattle.trace_record.specs.Reading.{HasNoRecord, Says};
ghost use Rattle.trace_record.specs.Spelling.{record_length, spelling};

use crate::end::{End, Fate, Flaw};
use crate::event::Event;
use crate::fields::read_record;
use crate::format::{ACCESS_LENGTH, CLOSE, HEADER_LENGTH, LOAD, STORE, length_of, read_header};
use crate::partial::Partial;
use crate::version::Version;
use std::marker::Model;

/// The greatest event limit.
pub const MAX_LIMIT: u32 = 1 << 24;

/// Reads one stream, whose bytes come in pieces of any lengths, record by record.
///
/// It takes no memory. Of what it has read it keeps the version, two counts, and the bytes of a
/// header or record that a piece cut.
#[derive(Drop)]
pub struct Decoder {
    limit: u32,
    // Without meaning until the header is whole.
    version: Version,
    events: u64,
    offset: u64,
    partial: Partial,
    stop: Option<End>,
}

impl Model for Decoder {
    ghost use Rattle.trace_record.specs.Standing.{Standing};
    ghost use Rattle.trace_record.specs.Sound.{IsSound};

    ghost Value = { Standing };

    ghost view = { λ d. record {
      limit = d.limit;
      version = d.version;
      events = d.events;
      offset = d.offset;
      rest = d.partial;
      stop = d.stop;
    } };

    ghost invariant = { IsSound };
}

/// What a decoder answers to a piece.
#[derive(Clone, Copy, Debug, PartialEq, Eq)]
pub enum Out {
    /// The next event. The bytes that were used end with its record.
    Got(Event),
    /// The whole piece was used, and the stream goes on.
    Need,
    /// The stream has ended. The byte that decided this is the last that was used.
    Stop(End),
}

/// An answer, and how many bytes of the piece it used.
#[derive(Clone, Copy, Debug, PartialEq, Eq)]
pub struct Step {
    pub used: usize,
    pub out: Out,
}

/// Events that were read ahead: how many they are, and how many bytes of the piece they used.
#[derive(Clone, Copy, Debug, PartialEq, Eq)]
pub struct Ahead {
    pub count: usize,
    pub used: usize,
}

impl Decoder {
    ghost use Rattle.trace_record.specs.Standing.{StandsAt, Answers, Takes, stop_of, end_of};
    ghost use Rattle.trace_record.specs.Standing.{IsBetweenRecords, HasNoneToRead};
    ghost use Rattle.trace_record.specs.Stream.{Spells};

    /// A decoder at the start of a stream that may have at most `limit` events, or `None` unless
    /// the limit is 1 to 2^24.
    pub fn new(limit: u32) -> Option<Decoder>
        ensures made { IsSome result ↔ ((0 < limit) × (limit ≤ largest_limit)) }
        ensures at_start { IfSome result (λ d. (d.limit ≡ limit) × StandsAt d [] []) }
    {
        if limit == 0 || limit > MAX_LIMIT {
            return None;
        }
        Some(Decoder {
            limit,
            version: Version::One,
            events: 0,
            offset: 0,
            partial: Partial::new(),
            stop: None,
        })
    }

    /// Reads what comes next of the stream: up to the end of its next record, or up to the byte
    /// that ends the stream, or all of the piece where it has neither.
    ///
    /// The bytes after that are not looked at: give them again in the next call. After a `Stop`
    /// each call answers the same `Stop`, uses no byte and leaves the decoder as it is.
    #[inline(always)]
    pub fn next(&mut self, piece: &[u8]) -> Step
        ensures used { result.used ≤ length piece.now }
        ensures need { result.out ≡ Out.Need → result.used ≡ length piece.now }
        ensures got { (event : Event) → result.out ≡ Out.Got event → 0 < result.used }
        ensures ended { (end : End) → self.old.stop ≡ None →
            result.out ≡ Out.Stop end → 0 < result.used }
        ensures limit { self.new.limit ≡ self.old.limit }
        ensures stop { self.new.stop ≡ stop_of result.out }
        ensures answers { (text : List ℕ) (events : List Event) → StandsAt self.old text events →
            Answers self.new (text ++ take result.used piece.now) events result.out }
        ensures stopped { IfSome self.old.stop
            (λ end. (result ≡ record { used = 0; out = Out.Stop end }) × (self.new ≡ self.old)) }
    {
        if self.is_between_records() && !piece.is_empty() {
            return self.take_first(piece);
        }
        // Rebuilt from its fields, so that both paths return in registers.
        let Step { used, out } = self.next_apart(piece);
        Step { used, out }
    }

    /// Reads the whole good records that the piece begins with, and puts their events into the
    /// front of `out`, as many as have room there. It stops before anything else: a record that the
    /// piece cuts, a flaw, the close, or an event past the limit. Inside the header or a record,
    /// and after a `Stop`, it reads none. What it leaves is for [`next`](Decoder::next).
    #[inline(never)]
    pub fn next_events(&mut self, piece: &[u8], out: &mut [Event]) -> Ahead
        ensures used { result.used ≤ length piece.now }
        ensures room { length out.new ≡ length out.old }
        ensures count { result.count ≤ length out.old }
        ensures moved { 0 < result.count → 0 < result.used }
        ensures limit { self.new.limit ≡ self.old.limit }
        ensures stop { self.new.stop ≡ self.old.stop }
        ensures answers { (text : List ℕ) (events : List Event) → StandsAt self.old text events →
            StandsAt self.new (text ++ take result.used piece.now)
            (events ++ take result.count out.new) }
        ensures stops { IsBetweenRecords self.old → result.count < length out.old →
            HasNoneToRead self.new (drop result.used piece.now) }
        ensures stopped { IfSome self.old.stop
            (λ _. (result ≡ record { count = 0; used = 0 }) × (self.new ≡ self.old)) }
    {
        let mut count = 0;
        let mut used = 0;
        if self.is_between_records() {
            // The decoder's own counts are changed once, so that the loop stores none.
            let left = u64::from(self.limit) - self.events;
            let room = out.len().min(left as usize);
            while count < room && used < piece.len() {
                let Some(front) = read_front(self.version, &piece[used..]) else {
                    break;
                };
                out[count] = front.event;
                count += 1;
                used += front.size;
            }
            self.events += count as u64;
            self.offset += used as u64;
        }
        Ahead { count, used }
    }

    /// The end where no more bytes come: `Truncated` inside the header or a record, and for an
    /// empty stream too; `NoClose` right after the header or a whole record. After a `Stop` it is
    /// the end that the `Stop` gave.
    pub fn at_end(self) -> End
        ensures stopped { IfSome self.stop (λ end. result ≡ end) }
        ensures ends { (text : List ℕ) (events : List Event) → StandsAt self text events →
            Spells self.limit text events result ×
            ((result.fate ≡ Fate.Truncated) ⊎ (result.fate ≡ Fate.NoClose)) }
    {
        match self.stop {
            Some(end) => end,
            None if self.offset >= HEADER_LENGTH as u64 && self.partial.is_empty() => {
                self.end(Fate::NoClose)
            }
            None => self.end(Fate::Truncated),
        }
    }

    /// The end where the next bytes cannot be read: `ReadFailed`, or after a `Stop` the end that it
    /// gave.
    pub fn at_fault(self) -> End
        ensures stopped { IfSome self.stop (λ end. result ≡ end) }
        ensures ends { (text : List ℕ) (events : List Event) → StandsAt self text events →
            Spells self.limit text events result × (result.fate ≡ Fate.ReadFailed) }
    {
        self.stop.unwrap_or(self.end(Fate::ReadFailed))
    }

    /// Whether the next byte is the first of a record.
    #[inline(always)]
    fn is_between_records(&self) -> bool
        ensures { IsTrue result ↔ IsBetweenRecords self.now }
    {
        self.stop.is_none() && self.offset >= HEADER_LENGTH as u64 && self.partial.is_empty()
    }

    /// Reads what comes next anywhere, as [`next`](Decoder::next) does. Cold: most calls find a
    /// piece that begins with a record.
    #[cold]
    fn next_apart(&mut self, piece: &[u8]) -> Step
        ensures takes { Takes self.old self.new piece.now result }
        ensures need { result.out ≡ Out.Need → result.used ≡ length piece.now }
        ensures stopped { IfSome self.old.stop
            (λ end. (result ≡ record { used = 0; out = Out.Stop end }) × (self.new ≡ self.old)) }
    {
        if let Some(end) = self.stop {
            return Step {
                used: 0,
                out: Out::Stop(end),
            };
        }
        if self.offset >= HEADER_LENGTH as u64 {
            return self.take_record(piece);
        }
        let header = self.take_header(piece);
        match header.out {
            Out::Need if header.used < piece.len() => {
                let record = self.take_record(&piece[header.used..]);
                Step {
                    used: header.used + record.used,
                    out: record.out,
                }
            }
            _ => header,
        }
    }

    /// Takes bytes of the header.
    fn take_header(&mut self, piece: &[u8]) -> Step
        requires running { self.old.stop ≡ None }
        requires in_header { self.old.offset < 8 }
        ensures takes { Takes self.old self.new piece.now result }
        ensures whole { result.out ≡ Out.Need → result.used < length piece.now →
            8 ≤ self.new.offset }
    {
        let missing = HEADER_LENGTH - self.partial.len();
        if piece.len() < missing {
            self.partial.append(piece);
            return Step {
                used: piece.len(),
                out: Out::Need,
            };
        }
        self.partial.append(&piece[..missing]);
        let header = read_header(self.partial.as_slice());
        self.partial.clear();
        match header {
            Some(version) => {
                self.version = version;
                self.offset = HEADER_LENGTH as u64;
                Step {
                    used: missing,
                    out: Out::Need,
                }
            }
            None => Step {
                used: missing,
                out: self.stop(Fate::Malformed(Flaw::Header)),
            },
        }
    }

    /// Takes bytes of one record.
    fn take_record(&mut self, piece: &[u8]) -> Step
        requires running { self.old.stop ≡ None }
        requires in_records { 8 ≤ self.old.offset }
        ensures takes { Takes self.old self.new piece.now result }
        ensures need { result.out ≡ Out.Need → result.used ≡ length piece.now }
    {
        if piece.is_empty() {
            return Step {
                used: 0,
                out: Out::Need,
            };
        }
        if self.partial.is_empty() {
            self.take_first(piece)
        } else {
            self.take_more(piece)
        }
    }

    /// Takes bytes of a record that begins with the piece.
    #[inline(always)]
    fn take_first(&mut self, piece: &[u8]) -> Step
        requires running { self.old.stop ≡ None }
        requires in_records { 8 ≤ self.old.offset }
        requires none_cut { self.old.rest ≡ [] }
        requires begun { 0 < length piece.now }
        ensures takes { Takes self.old self.new piece.now result }
        ensures need { result.out ≡ Out.Need → result.used ≡ length piece.now }
    {
        match piece[0] {
            CLOSE => Step {
                used: 1,
                out: self.stop(Fate::Closed),
            },
            // Most records are these, and their length is a constant.
            LOAD | STORE => self.take_whole(piece, ACCESS_LENGTH),
            code => self.take_whole(piece, length_of(self.version, code)),
        }
    }

    /// Takes a record of `size` bytes that begins with the piece, or keeps its first bytes where
    /// the piece cuts it. No record has 0 bytes: that is the length of an unknown code.
    #[inline(always)]
    fn take_whole(&mut self, piece: &[u8], size: usize) -> Step
        requires running { self.old.stop ≡ None }
        requires in_records { 8 ≤ self.old.offset }
        requires none_cut { self.old.rest ≡ [] }
        requires begun { 0 < length piece.now }
        requires open { slice_index piece.now 0 ≢ 7 }
        requires size { size ≡ record_length self.old.version (slice_index piece.now 0) }
        ensures takes { Takes self.old self.new piece.now result }
        ensures need { result.out ≡ Out.Need → result.used ≡ length piece.now }
    {
        if self.events == u64::from(self.limit) {
            return Step {
                used: 1,
                out: self.stop(Fate::TooMany),
            };
        }
        if size == 0 {
            return Step {
                used: 1,
                out: self.stop(Fate::Malformed(Flaw::Code)),
            };
        }
        if piece.len() < size {
            self.partial.append(piece);
            return Step {
                used: piece.len(),
                out: Out::Need,
            };
        }
        let said = read_record(self.version, &piece[..size]);
        self.finish(said, size, size)
    }

    /// Takes more bytes of the record that was cut.
    fn take_more(&mut self, piece: &[u8]) -> Step
        requires running { self.old.stop ≡ None }
        requires in_records { 8 ≤ self.old.offset }
        requires cut { 0 < length self.old.rest }
        ensures takes { Takes self.old self.new piece.now result }
        ensures need { result.out ≡ Out.Need → result.used ≡ length piece.now }
    {
        let length = length_of(self.version, self.partial.as_slice()[0]);
        let missing = length - self.partial.len();
        if piece.len() < missing {
            self.partial.append(piece);
            return Step {
                used: piece.len(),
                out: Out::Need,
            };
        }
        self.partial.append(&piece[..missing]);
        let said = read_record(self.version, self.partial.as_slice());
        self.partial.clear();
        self.finish(said, length, missing)
    }

    /// Answers what a whole record said: its event, or the end of the stream for its first flaw.
    #[inline(always)]
    fn finish(&mut self, said: Result<Event, Flaw>, size: usize, used: usize) -> Step
        requires running { self.old.stop ≡ None }
        requires in_records { 8 ≤ self.old.offset }
        requires none_cut { self.old.rest ≡ [] }
        requires room { self.old.events < self.old.limit }
        requires size { IfOk said (λ event. size ≡ length (spelling self.old.version event)) }
        ensures used { result.used ≡ used }
        ensures decides { result.out ≢ Out.Need }
        ensures limit { self.new.limit ≡ self.old.limit }
        ensures stop { self.new.stop ≡ stop_of result.out }
        ensures answers { (text : List ℕ) (events : List Event) (rest part : List ℕ) →
            StandsAt (record self.old { rest = rest }) text events →
            Says self.old.version (rest ++ part) said →
            Answers self.new (text ++ part) events result.out }
    {
        match said {
            Ok(event) => {
                self.events += 1;
                self.offset += size as u64;
                Step {
                    used,
                    out: Out::Got(event),
                }
            }
            Err(flaw) => Step {
                used,
                out: self.stop(Fate::Malformed(flaw)),
            },
        }
    }

    /// Ends the stream.
    fn stop(&mut self, fate: Fate) -> Out
        ensures stops { self.new ≡ record self.old { stop = Some (end_of self.old fate) } }
        ensures answer { result ≡ Out.Stop (end_of self.old fate) }
    {
        let end = self.end(fate);
        self.stop = Some(end);
        Out::Stop(end)
    }

    /// The end with this fate, at what was read.
    fn end(&self, fate: Fate) -> End
        ensures { result ≡ end_of self.now fate }
    {
        let close = u64::from(fate == Fate::Closed);
        End {
            fate,
            events: self.events,
            offset: self.offset + close,
        }
    }
}

/// A whole good record: its event, and how many bytes it has.
#[derive(Clone, Copy)]
struct Front {
    event: Event,
    size: usize,
}

/// The record that these bytes begin with, if it is whole and good.
#[inline(always)]
fn read_front(version: Version, bytes: &[u8]) -> Option<Front>
    requires { 0 < length bytes.now }
    ensures some { IfSome result (λ front. (front.size ≤ length bytes.now)
        × Says version (take front.size bytes.now) (Ok front.event)) }
    ensures none { IfNone result (HasNoRecord version bytes.now) }
{
    match bytes[0] {
        // Most records are these, and their length is a constant.
        LOAD | STORE => read_whole(version, bytes, ACCESS_LENGTH),
        code => read_whole(version, bytes, length_of(version, code)),
    }
}

/// The record of `size` bytes that these begin with, if it is whole and good. No record has 0
/// bytes: that is the length of an unknown code.
#[inline(always)]
fn read_whole(version: Version, bytes: &[u8], size: usize) -> Option<Front>
    requires begun { 0 < length bytes.now }
    requires size { size ≡ record_length version (slice_index bytes.now 0) }
    ensures some { IfSome result (λ front. (front.size ≤ length bytes.now)
        × Says version (take front.size bytes.now) (Ok front.event)) }
    ensures none { IfNone result (HasNoRecord version bytes.now) }
{
    if size == 0 || bytes.len() < size {
        return None;
    }
    let event = read_record(version, &bytes[..size]).ok()?;
    Some(Front { event, size })
}
