//! The calls that mark memory.
ghost use Rattle.std.specs.Prelude.{◌≡◌, ◌≢◌, ℕ, ◌+◌, ◌-◌, ◌/◌, ◌%◌, ◌<◌, ◌≤◌, ◌==◌, ◌&&◌};
ghost use Rattle.std.specs.Prelude.{not, if◌then◌else◌, OnOk, OnErr};
ghost use Rattle.shadow_map.specs.States.{IsCode, Fill, Block, Poison, Unpoison};
ghost use Rattle.asan_units.specs.Units.{address_end, granule_size, granule_of};
ghost use Rattle.asan_units.specs.Units.{IsGranuleStart, redzone, round_up};
ghost use Rattle.shadow_map.specs.Shows.{value_at};
ghost use Rattle.shadow_map.specs.Calls.{Adds, AddsInPart, IsBrokenOff};
ghost use Rattle.shadow_map.specs.Granules.{block_byte, changed_in};

use crate::granule::{Change, HEAP_REDZONE, part};
use crate::{NoMemory, Shadow};
use asan_units::{GRANULE, REDZONE};
use page_table::Run;
use std::alloc::Allocator;

/// How many granules a redzone has.
const REDZONE_GRANULES: u64 = REDZONE / GRANULE;

/// After `NoMemory` a call is done in part: there is a granule of its range below which all are as
/// after the call, and from which on all are as before it. The call had still to change that
/// granule, so a granule that keeps its shadow byte is never refused memory. A region of size 0 has
/// no granule, and its call does nothing.
impl<A: Allocator + Copy> Shadow<A> {
    /// Marks the whole granules from one address up to another by a code.
    pub fn mark(&mut self, from: u64, to: u64, code: u8) -> Result<(), NoMemory>
        requires granules { IsGranuleStart from × IsGranuleStart to }
        requires order { from ≤ to }
        requires end { to ≤ address_end }
        requires code { IsCode code }
        ensures ok { OnOk result (Adds self.old self.new (Fill from to code)) }
        ensures err { OnErr result (AddsInPart self.old self.new (Fill from to code)) }
    {
        self.fill(from / GRANULE, to / GRANULE, code)
    }

    /// Marks a block of `size` bytes at `at`, a multiple of 8: its bytes are addressable, and what
    /// is left of its last granule is a heap redzone, as are the 32 bytes before its first granule
    /// and the 32 after its last.
    pub fn block(&mut self, at: u64, size: u64) -> Result<(), NoMemory>
        requires granules { IsGranuleStart at }
        requires room { redzone ≤ at }
        requires end { at + round_up size + redzone ≤ address_end }
        ensures ok { OnOk result (Adds self.old self.new (Block at size)) }
        ensures err { OnErr result (AddsInPart self.old self.new (Block at size)) }
    {
        self.block_granules(at, size)
    }

    /// Poisons `size` bytes from `at` on, with a code that says why. A granule that lies wholly in
    /// this region becomes such poison, whatever it was. Of one that lies there in part the
    /// addressable bytes in the region become such poison, if none of its bytes at the region's end
    /// or past it is addressable; otherwise it stays as it is.
    pub fn poison(&mut self, at: u64, size: u64, code: u8) -> Result<(), NoMemory>
        requires end { at + size ≤ address_end }
        requires code { IsCode code }
        ensures ok { OnOk result (Adds self.old self.new (Poison at size code)) }
        ensures err { OnErr result (AddsInPart self.old self.new (Poison at size code)) }
    {
        self.change(Change::Poisoned(code), at, size)
    }

    /// Makes `size` bytes from `at` on addressable, and with each of them all bytes before it in
    /// its granule.
    pub fn unpoison(&mut self, at: u64, size: u64) -> Result<(), NoMemory>
        requires { at + size ≤ address_end }
        ensures ok { OnOk result (Adds self.old self.new (Unpoison at size)) }
        ensures err { OnErr result (AddsInPart self.old self.new (Unpoison at size)) }
    {
        self.change(Change::Unpoisoned, at, size)
    }

    /// Marks a block, run after run of granules.
    fn block_granules(&mut self, at: u64, size: u64) -> Result<(), NoMemory>
        requires granules { IsGranuleStart at }
        requires room { redzone ≤ at }
        requires end { at + round_up size + redzone ≤ address_end }
        ensures ok { OnOk result ((granule : ℕ) → value_at self.new granule
            ≡ block_byte at size granule (value_at self.old granule)) }
        ensures err { OnErr result (IsBrokenOff (at - redzone) (at + round_up size + redzone)
            (λ shadow granule. block_byte at size granule shadow) self.old self.new) }
    {
        let first = at / GRANULE;
        let redzone = Run {
            length: REDZONE_GRANULES,
            byte: HEAP_REDZONE,
        };
        let whole = Run {
            length: size / GRANULE,
            byte: 0,
        };
        let part = Run {
            length: size.div_ceil(GRANULE) - size / GRANULE,
            byte: (size % GRANULE) as u8,
        };
        self.fill_runs(first - REDZONE_GRANULES, &[redzone, whole, part, redzone])
    }

    /// Changes a region: its whole granules by one fill, and a granule that lies there in part by
    /// itself.
    fn change(&mut self, change: Change, at: u64, size: u64) -> Result<(), NoMemory>
        requires { at + size ≤ address_end }
        ensures ok { OnOk result ((granule : ℕ) → value_at self.new granule
            ≡ changed_in change at (at + size) (value_at self.old granule) granule) }
        ensures err { OnErr result (IsBrokenOff at (at + size)
            (changed_in change at (at + size)) self.old self.new) }
    {
        if size == 0 {
            return Ok(());
        }
        let end = at + size;
        let first = at.div_ceil(GRANULE);
        let stop = end / GRANULE;
        self.change_edge(change, at, end, at)?;
        self.fill(first, stop.max(first), change.inside())?;
        if first <= stop {
            self.change_edge(change, at, end, end)
        } else {
            // Both edges cut one granule, which is changed already.
            Ok(())
        }
    }

    /// Changes the granule that an edge of a region cuts in two, if it cuts one.
    fn change_edge(&mut self, change: Change, at: u64, end: u64, edge: u64) -> Result<(), NoMemory>
        requires { edge ≤ address_end }
        ensures ok { OnOk result ((granule : ℕ) → value_at self.new granule
            ≡ (if granule == granule_of edge && not (edge % granule_size == 0)
            then changed_in change at end (value_at self.old granule) granule
            else value_at self.old granule)) }
        ensures err { OnErr result ((0 < edge % granule_size)
            × ((granule : ℕ) → value_at self.new granule ≡ value_at self.old granule)
            × (changed_in change at end (value_at self.old (granule_of edge)) (granule_of edge)
            ≢ value_at self.old (granule_of edge))) }
    {
        if edge % GRANULE == 0 {
            return Ok(());
        }
        let granule = edge / GRANULE;
        let shadow = change.byte(self.value(granule), part(at, granule), part(end, granule));
        self.fill(granule, granule + 1, shadow)
    }
}
