//! A worker: it goes round its benches, a batch each, until all are done.

ghost use Rattle.std.specs.Prelude.{IsTrue};
ghost use Rattle.asan_stream.specs.Benches.{EachLater, EachReported, EachTakesNoMore};

use crate::bench::{Bench, Found};
use crate::gate::Gate;
use crate::pause::Pause;
use crate::room::Room;
use std::alloc::Allocator;
use std::sync::Wait;
use std::time::Clock;

/// What a round of batches found.
#[derive(Drop)]
struct Round {
    /// Whether items were taken.
    took: bool,
    /// Whether no bench takes more, and no report waits.
    ended: bool,
}

/// Goes round the benches, a batch of items each, until each is over, or its lane was found empty
/// after it was seen to be left, and no report waits for room. Where it finds nothing to take or to
/// put it waits. The benches come back in order, each with all its reports put into its report
/// lane, where it still has one.
pub fn run_checker<A: Allocator + Copy, G: Gate, R: Wait + Clock>(
    rt: &R,
    benches: Vec<Bench<A>, A>,
    gate: &G,
) -> Vec<Bench<A>, A>
    ensures later { EachLater benches.items result.items }
    ensures all { EachReported result.items }
    ensures no_more { EachTakesNoMore result.items }
{
    let mut benches = benches;
    check_to_the_end(rt, &mut benches, gate);
    benches
}

/// Does what [`run_checker`] does, in place.
fn check_to_the_end<A: Allocator + Copy, G: Gate, R: Wait + Clock>(
    rt: &R,
    benches: &mut Vec<Bench<A>, A>,
    gate: &G,
)
    ensures later { EachLater benches.old.items benches.new.items }
    ensures all { EachReported benches.new.items }
    ensures no_more { EachTakesNoMore benches.new.items }
{
    let mut pause = Pause::new();
    let mut room = Room::new();
    for _ in rt.forever() {
        let round = go_round(benches, gate, &mut room);
        if round.ended {
            return;
        }
        if round.took {
            pause.reset();
        } else {
            pause.wait(rt);
        }
    }
    unreachable!()
}

/// Has each bench take a batch.
fn go_round<A: Allocator + Copy, G: Gate>(
    benches: &mut Vec<Bench<A>, A>,
    gate: &G,
    room: &mut Room,
) -> Round
    ensures later { EachLater benches.old.items benches.new.items }
    ensures all { IsTrue result.ended → EachReported benches.new.items }
    ensures no_more { IsTrue result.ended → EachTakesNoMore benches.new.items }
{
    let mut round = Round {
        took: false,
        ended: true,
    };
    for i in 0..benches.len() {
        let bench = &mut benches[i];
        match bench.work(gate, room) {
            Found::Items => {
                round.took = true;
                round.ended = false;
            }
            Found::None => round.ended = false,
            Found::End => {}
        }
    }
    round
}
