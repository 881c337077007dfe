//! The end of a collection with live printing: each sender is settled, and its last lines are
//! printed.

ghost use Rattle.std.specs.Prelude.{◌≡◌, ◌≤◌, ℕ, [], List, Option, length, vec_capacity};
ghost use Rattle.asan_print.specs.Ports.{Follows};
ghost use Rattle.asan_senders.specs.Arrivals.{Pairwise};
ghost use Rattle.asan_senders.specs.Live.{ArePrinted};
ghost use Rattle.asan_senders.specs.Ranges.{most_senders};
ghost use Rattle.asan_senders.specs.ReportLanes.{AllFit, lanes_of};
ghost use Rattle.asan_senders.specs.Senders.{AllJoined, AllSayHowFar, Gets};

use asan_senders::{Live, Printers, Sender, close};
use asan_stream::Outcome;
use std::alloc::Allocator;
use std::io::Write;
use std::mem;
use trace_feed::Feed;

/// What became of each sender, in order, whose last lines are printed. There is room for all
/// outcomes.
pub(crate) fn close_all<F: Feed + Drop, W: Write, A: Allocator + Copy>(
    w: &mut W,
    senders: Vec<Sender<F, A>, A>,
    printers: Printers<A>,
    room: Vec<Outcome<F, A>, A>,
) -> Live<F, A>
    requires empty { room.items ≡ [] }
    requires room { most_senders ≤ vec_capacity room }
    requires few { length senders.items ≤ most_senders }
    requires joined { AllJoined senders.items }
    requires ports { length printers.ports.items ≡ length senders.items }
    requires fits { AllFit (lanes_of printers.ports.items) senders.items }
    ensures outcomes { Pairwise (Gets F.seen) senders.items result.outcomes.items }
    ensures far { AllSayHowFar printers.ports.items senders.items result.outcomes.items }
    ensures printed { (start : Option (List ℕ)) →
        Follows start (W.contents w.old) printers.printer printers.ports.items →
        ArePrinted start (W.contents w.new) result.outcomes.items result.wrote }
{
    let Printers { printer, ports } = printers;
    let (mut printer, mut ports) = (printer, ports);
    let (mut senders, mut outcomes) = (senders, room);
    for i in 0..senders.len() {
        let sender = mem::replace(&mut senders[i], Sender::NotOpened);
        let port = mem::replace(&mut ports[i], None);
        let outcome = close(&mut printer, w, i as u32, sender, port);
        outcomes.push_reserved(outcome);
    }
    let wrote = printer.finish(w);
    Live { outcomes, wrote }
}
