//! A door over files, one of which may be standard input.

ghost use Rattle.std.specs.Prelude.{◌≡◌, ◌==◌, ◌-◌, ◌<◌, ◌^◌, ◌↔◌, [], IfOk, IsSome, IsTrue, Some};
ghost use Rattle.std.specs.Prelude.{false};
ghost use Rattle.std.specs.Prelude.{drop, length, map, string_bytes};
ghost use Rattle.trace_feed.specs.Doors.{CountsDown, IfCame, is_over, refusals_after};
ghost use Rattle.asan_inputs.specs.Inputs.{input_place, is_input, names_with, place_after};
ghost use Rattle.asan_inputs.specs.Inputs.{input_feed_seen, IfInput};

use crate::input_feed::InputFeed;
use std::alloc::{AllocError, Global};
use std::io::Read;
use std::marker::Model;
use std::rt::Files;
use trace_feed::{Arrival, Door, PathDoor, ReadFeed};

/// The name that stands for standard input among files.
pub const INPUT: &str = "-";

/// A door over files, which it opens one after the other, and an input that comes between them, if
/// there is one.
#[derive(Drop)]
pub struct InputDoor<'a, R: Files, I: Read> {
    door: PathDoor<'a, R>,
    /// The input, until it has come.
    input: Option<I>,
    /// How many files come before it.
    before: usize,
}

impl<'a, R: Files, I: Read> Model for InputDoor<'a, R, I> {
    ghost use Rattle.std.specs.Prelude.{◌≤◌, IfSome, length};
    ghost use Rattle.asan_inputs.specs.Inputs.{NamedFiles, bytes_of, names_with, place_of};

    ghost Value = { NamedFiles };

    ghost view = { λ d. record {
      names = names_with (place_of d.input d.before) d.door.paths;
      place = place_of d.input d.before;
      bytes = bytes_of I.remaining d.input;
      refusals = d.door.refusals;
    } };

    ghost invariant = { λ d. IfSome d.input (λ _. d.before ≤ length d.door.paths) };
}

/// A door over the files of these names, in order. The first `-` is `input`, and no file.
#[tactic(auto, using(crate::proofs::Turns::place_within))]
pub fn door_of<'a, R: Files, I: Read + Drop>(
    rt: &'a R,
    alloc: Global,
    names: &[String],
    input: I,
) -> Result<InputDoor<'a, R, I>, AllocError>
    ensures names { IfOk result (λ door. door.names ≡ map string_bytes names.now) }
    ensures place { IfOk result (λ door. door.place ≡ input_place names.now) }
    ensures bytes { IfOk result (λ door. IsSome door.place → door.bytes ≡ I.remaining input) }
    ensures none_refused { IfOk result (λ door. door.refusals ≡ 0) }
{
    let (paths, place) = paths_of(alloc, names)?;
    Ok(InputDoor {
        door: PathDoor::new(rt, paths),
        input: place.is_some().then_some(input),
        before: place.unwrap_or(0),
    })
}

/// The paths of these files, in order, without the first `-`, and the place of it among the names,
/// if there is one.
fn paths_of(alloc: Global, names: &[String]) -> Result<(Vec<String>, Option<usize>), AllocError>
    ensures names { IfOk result (λ found.
        names_with found.1 (map string_bytes found.0.items) ≡ map string_bytes names.now) }
    ensures place { IfOk result (λ found. found.1 ≡ input_place names.now) }
{
    let mut paths = Vec::new(alloc);
    for name in names {
        paths.push(name.clone()?)?;
    }
    match place_of_input(names) {
        Some(place) => {
            paths.remove(place);
            Ok((paths, Some(place)))
        }
        None => Ok((paths, None)),
    }
}

/// The place of the first `-` among these names.
fn place_of_input(names: &[String]) -> Option<usize>
    ensures { result ≡ input_place names.now }
{
    names.iter().position(|name| name.as_str() == INPUT)
}

impl<'a, R: Files, I: Read + Drop> Door for InputDoor<'a, R, I> {
    type Feed = InputFeed<ReadFeed<R::File>, ReadFeed<I>>;

    ghost use Rattle.std.specs.Prelude.{None};

    ghost seen = { λ d. record {
      to_arrive = None;
      left = Some (length d.names);
      refusals = d.refusals;
      is_shut = length d.names == 0;
    } };

    /// Opens the next file, or gives the input in its turn. A file that can't be opened is
    /// `Refused`. Each call uses up one name, until none is left.
    #[tactic(auto, using(crate::proofs::Turns::names_in_turn, crate::proofs::Turns::place_in_turn))]
    fn next(&mut self) -> Arrival<InputFeed<ReadFeed<R::File>, ReadFeed<I>>>
        requires { self.old.refusals < 2 ^ 64 - 1 }
        ensures turn { CountsDown
            (Some (length self.old.names)) (Some (length self.new.names)) result }
        ensures count { self.new.refusals ≡ refusals_after result self.old.refusals }
        ensures fresh { IfCame (λ f. (input_feed_seen f).faults ≡ 0) result }
        ensures over { IsTrue (is_over result) → IsTrue (length self.new.names == 0) }
        ensures stays { IsTrue (length self.old.names == 0) → IsTrue (is_over result) }

        ensures ends { IsTrue (is_over result) ↔ (self.old.names ≡ []) }
        ensures in_turn { self.new.names ≡ drop 1 self.old.names }
        ensures input { IsTrue (is_input result) ↔ (self.old.place ≡ Some 0) }
        ensures bytes { IfInput (λ f. f.to_come ≡ self.old.bytes) result }
        ensures unread { is_input result ≡ false → self.new.bytes ≡ self.old.bytes }
        ensures place { self.new.place ≡ place_after self.old.place }
    {
        if self.before == 0
            && let Some(input) = self.input.take()
        {
            return Arrival::Came(InputFeed::Input(ReadFeed::new(input)));
        }
        self.before = self.before.saturating_sub(1);
        match self.door.next() {
            Arrival::Came(feed) => Arrival::Came(InputFeed::File(feed)),
            Arrival::Refused => Arrival::Refused,
            Arrival::Over => Arrival::Over,
        }
    }

    fn refusals(&self) -> u64 {
        self.door.refusals()
    }
}
