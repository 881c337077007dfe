//! A door over files.

ghost use Rattle.std.specs.Prelude.{◌≡◌, ◌==◌, ◌-◌, ◌<◌, ◌^◌, ◌↔◌, [], IsTrue, None, Some};
ghost use Rattle.std.specs.Prelude.{drop, length, map, string_bytes};
ghost use Rattle.trace_feed.specs.Doors.{CountsDown, IfCame, is_over, refusals_after};

use crate::door::{Arrival, Door};
use crate::read_feed::ReadFeed;
use std::alloc::{Allocator, Global};
use std::collections::VecDeque;
use std::fs;
use std::marker::Model;
use std::rt::Files;

/// A door over files, which it opens one after the other, each when it is asked for the next
/// arrival.
#[derive(Drop)]
pub struct PathDoor<'a, R: Files, A: Allocator + Copy = Global> {
    rt: &'a R,
    paths: VecDeque<String<A>, A>,
    refusals: u64,
}

impl<'a, R: Files, A: Allocator + Copy> Model for PathDoor<'a, R, A> {
    ghost use Rattle.std.specs.Prelude.{map, string_bytes};
    ghost use Rattle.trace_feed.specs.Doors.{Paths};

    ghost Value = { Paths };

    ghost view = { λ d. record { paths = map string_bytes d.paths.items; refusals = d.refusals } };
}

impl<'a, R: Files, A: Allocator + Copy> PathDoor<'a, R, A> {
    /// A door over the files of these paths, in order. It opens none of them yet, and keeps `rt`
    /// to do so.
    pub fn new(rt: &'a R, paths: Vec<String<A>, A>) -> PathDoor<'a, R, A>
        ensures paths { result.paths ≡ map string_bytes paths.items }
        ensures none_refused { result.refusals ≡ 0 }
    {
        PathDoor {
            rt,
            paths: VecDeque::from(paths),
            refusals: 0,
        }
    }
}

impl<'a, R: Files, A: Allocator + Copy> Door for PathDoor<'a, R, A> {
    type Feed = ReadFeed<R::File>;

    ghost seen = { λ d. record {
      to_arrive = None;
      left = Some (length d.paths);
      refusals = d.refusals;
      is_shut = length d.paths == 0;
    } };

    /// Opens the next file. One that can't be opened is `Refused`. Each call uses up one path,
    /// until none is left.
    fn next(&mut self) -> Arrival<ReadFeed<R::File>>
        requires { self.old.refusals < 2 ^ 64 - 1 }
        ensures turn { CountsDown
            (Some (length self.old.paths)) (Some (length self.new.paths)) result }
        ensures count { self.new.refusals ≡ refusals_after result self.old.refusals }
        ensures fresh { IfCame (λ f. f.faults ≡ 0) result }
        ensures over { IsTrue (is_over result) → IsTrue (length self.new.paths == 0) }
        ensures stays { IsTrue (length self.old.paths == 0) → IsTrue (is_over result) }

        ensures ends { IsTrue (is_over result) ↔ (self.old.paths ≡ []) }
        ensures in_turn { self.new.paths ≡ drop 1 self.old.paths }
    {
        match self.paths.pop_front() {
            None => Arrival::Over,
            Some(path) => match fs::open(self.rt, path.as_str()) {
                Ok(file) => Arrival::Came(ReadFeed::new(file)),
                Err(_) => {
                    self.refusals += 1;
                    Arrival::Refused
                }
            },
        }
    }

    fn refusals(&self) -> u64 {
        self.refusals
    }
}
