//! The printer of a collection, and what it prints from.

ghost use Rattle.std.specs.Prelude.{◌≤◌, length};
ghost use Rattle.asan_senders.specs.Ranges.{most_senders};

use asan_print::{LivePrinter, Port};
use std::alloc::Allocator;

/// The printer, and the ports from which it takes: one for each sender that has a report lane.
#[derive(Drop)]
pub struct Printers<A: Allocator + Copy> {
    pub printer: LivePrinter<A>,
    pub ports: Vec<Option<Port<A>>, A>,
    ghost few: { length ports.items ≤ most_senders },
}
