//! The calling thread of a collection with live printing: it prints what the workers report.

ghost use Rattle.asan_senders.specs.Closings.{HasPrinted};

use crate::at_work::AtWork;
use asan_senders::Printers;
use asan_stream::Pause;
use std::alloc::Allocator;
use std::io::Write;
use std::sync::Wait;
use std::time::Clock;

/// Prints what is found at the ports, and gives whether there was any.
fn print_round<W: Write, A: Allocator + Copy>(w: &mut W, printers: &mut Printers<A>) -> bool
    ensures { HasPrinted (W.contents w.old) (W.contents w.new) printers.old printers.new }
{
    printers.printer.round(w, &mut printers.ports)
}

/// Prints the reports that come through the ports, until no worker is at work and none is left.
pub(crate) fn print_to_the_end<W: Write, A: Allocator + Copy, R: Wait + Clock>(
    rt: &R,
    w: &mut W,
    printers: &mut Printers<A>,
    at_work: &AtWork,
)
    ensures { HasPrinted (W.contents w.old) (W.contents w.new) printers.old printers.new }
{
    let mut pause = Pause::new();
    for _ in rt.forever() {
        // What was reported before the last worker ended is found after this look.
        let is_last = at_work.is_over();
        if print_round(w, printers) {
            pause.reset();
        } else if is_last {
            return;
        } else {
            pause.wait(rt);
        }
    }
    unreachable!()
}
