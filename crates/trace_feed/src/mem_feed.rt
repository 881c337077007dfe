//! A feed over bytes in memory.

ghost use Rattle.std.specs.Prelude.{◌≡◌, ◌+◌, ◌-◌, ◌<◌, ◌≤◌, ◌^◌, ◌↔◌, ◌⊎◌, All, Contains};
ghost use Rattle.std.specs.Prelude.{IfOk, IfSome, IsErr, IsNone, OnErr, Some, drop};
ghost use Rattle.std.specs.Prelude.{if◌then◌else◌, is_ok, length};
ghost use Rattle.std.specs.Io.KnownBytes.{ReadConsumes};
ghost use Rattle.trace_feed.specs.Feeds.{IsFirstStop, bytes_left};

use crate::feed::{Feed, FeedFault};
use std::alloc::{Allocator, Global};
use std::marker::Model;

/// A feed over bytes in memory. Its reads are cut at given places and fail at one. It takes no
/// memory.
#[derive(Drop)]
pub struct MemFeed<A: Allocator + Copy = Global> {
    bytes: Vec<u8, A>,
    cuts: Vec<u64, A>,
    fail_at: Option<u64>,
    place: usize,
    faults: u64,
}

impl<A: Allocator + Copy> Model for MemFeed<A> {
    ghost use Rattle.std.specs.Prelude.{◌≤◌, length};
    ghost use Rattle.trace_feed.specs.Feeds.{Tape};

    ghost Value = { Tape };

    ghost view = { λ f. record {
      bytes = f.bytes.items;
      cuts = f.cuts.items;
      fail_at = f.fail_at;
      place = f.place;
      faults = f.faults;
    } };

    ghost invariant = { λ f. f.place ≤ length f.bytes.items };
}

impl<A: Allocator + Copy> MemFeed<A> {
    /// A feed of `bytes`. No read goes past a place of `cuts`, and each read that starts at
    /// `fail_at` fails.
    ///
    /// A place is the number of bytes before it. The cuts may come in any order, and places past
    /// the end of the bytes change nothing.
    pub fn new(bytes: Vec<u8, A>, cuts: Vec<u64, A>, fail_at: Option<u64>) -> MemFeed<A>
        ensures bytes { result.bytes ≡ bytes.items }
        ensures cuts { result.cuts ≡ cuts.items }
        ensures fail_at { result.fail_at ≡ fail_at }
        ensures at_start { result.place ≡ 0 }
        ensures fresh { result.faults ≡ 0 }
    {
        MemFeed {
            bytes,
            cuts,
            fail_at,
            place: 0,
            faults: 0,
        }
    }

    /// Where a read into `room` bytes stops, or None where it fails.
    fn stop(&self, room: usize) -> Option<usize>
        ensures fails { IsNone result ↔ (self.now.fail_at ≡ Some self.now.place) }
        ensures first { IfSome result (IsFirstStop self.now room) }
        ensures ahead { IfSome result (λ stop. self.now.place ≤ stop) }
        ensures within { IfSome result (λ stop. stop ≤ length self.now.bytes) }
        ensures fits { IfSome result (λ stop. stop ≤ self.now.place + room) }
    {
        let place = self.place as u64;
        if self.fail_at == Some(place) {
            return None;
        }
        let end = self.place + room.min(self.bytes.len() - self.place);
        let cut = first_past(&self.cuts, place, end as u64);
        let stop = first_past(self.fail_at.as_slice(), place, cut);
        Some(stop as usize)
    }
}

impl<A: Allocator + Copy> Feed for MemFeed<A> {
    ghost seen = { λ f. record { to_come = bytes_left f; faults = f.faults } };

    /// Gives the bytes up to the next greater cut, the failing place, the end of the bytes or the
    /// end of `buf`, whichever is first, and leaves the rest of `buf`. It fails where it starts at
    /// the failing place, and nowhere else.
    fn next(&mut self, buf: &mut [u8]) -> Result<usize, FeedFault>
        requires { self.old.faults < 2 ^ 64 - 1 }
        ensures bound { IfOk result (λ n. n ≤ length buf.new) }
        ensures bytes { ReadConsumes (bytes_left self.old) (bytes_left self.new) result buf.new }
        ensures faults { self.new.faults ≡
            (if is_ok result then self.old.faults else self.old.faults + 1) }

        ensures fails { IsErr result ↔ (self.old.fail_at ≡ Some self.old.place) }
        ensures stops { IfOk result (λ n.
            IsFirstStop self.old (length buf.new) (self.old.place + n)) }
        ensures moved { IfOk result (λ n.
            self.new ≡ record self.old { place = self.old.place + n }) }
        ensures stays { OnErr result
            (self.new ≡ record self.old { faults = self.old.faults + 1 }) }
        ensures rest { IfOk result (λ n. drop n buf.new ≡ drop n buf.old) }
        ensures untouched { OnErr result (buf.new ≡ buf.old) }
    {
        let Some(stop) = self.stop(buf.len()) else {
            self.faults += 1;
            return Err(FeedFault);
        };
        let count = stop - self.place;
        buf[..count].copy_from_slice(&self.bytes[self.place..stop]);
        self.place = stop;
        Ok(count)
    }

    fn faults(&self) -> u64 {
        self.faults
    }
}

/// The least of the places past `place`, or `end` where none is less.
fn first_past(places: &[u64], place: u64, end: u64) -> u64
    requires { place ≤ end }
    ensures given { (result ≡ end) ⊎ ((place < result) × Contains places.now result) }
    ensures bounded { result ≤ end }
    ensures first { All (λ other. place < other → result ≤ other) places.now }
{
    let mut first = end;
    for &other in places {
        if place < other && other < first {
            first = other;
        }
    }
    first
}
