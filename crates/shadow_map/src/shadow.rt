//! The shadow, and what is asked of it.
ghost use Rattle.page_table.specs.Nodes.{IsFirstNonzero};
ghost use Rattle.page_table.specs.Runs.{length_of, byte_of_runs};
ghost use Rattle.std.specs.Prelude.{◌≡◌, ◌≢◌, ℕ, ◌+◌, ◌-◌, ◌/◌, ◌<◌, ◌≤◌, ◌&&◌, not, nat_le};
ghost use Rattle.std.specs.Prelude.{nat_lt, if◌then◌else◌, List, [], IsTrue, OnOk, OnErr};
ghost use Rattle.shadow_map.specs.States.{Mark, is_addressable, state_of, lift};
ghost use Rattle.shadow_map.specs.States.{least_unaddressable, bad_byte_of};
ghost use Rattle.asan_units.specs.Units.{address_end, granule_count, granule_of, is_width};
ghost use Rattle.shadow_map.specs.Causes.{deciding_granule};
ghost use Rattle.shadow_map.specs.Shows.{Shows, value_at};

use crate::NoMemory;
use crate::granule::{MIN_CODE, front};
use crate::reader::{ShadowReader, bad_byte_by};
use asan_units::{GRANULE, GRANULES};
use page_table::{PageTable, Run};
use std::alloc::{Allocator, Global};

/// The shadow bytes of a process's memory.
///
/// Addresses and sizes are in bytes, and granules are counted from address 0. A byte at 2^47 or
/// past it is never marked, and counts as addressable.
#[derive(Drop)]
pub struct Shadow<A: Allocator + Copy = Global> {
    // The shadow byte of each granule.
    granules: PageTable<A>,
}

/// The shadow bytes that say why an access is bad.
#[derive(Clone, Copy, Debug, PartialEq, Eq)]
pub struct Cause {
    /// The shadow byte of the granule of its first byte.
    pub own: u8,
    /// The shadow byte that decides: the same one if it is a code, else that of the next granule.
    pub deciding: u8,
}

impl<A: Allocator + Copy> Shadow<A> {
    ghost use Rattle.shadow_map.specs.Readers.{shadow_of};

    /// The shadow of memory of which every byte is addressable. Takes no memory.
    #[tactic(auto, unfolding(crate::specs::Shows::value_at))]
    pub fn new(alloc: A) -> Shadow<A>
        ensures { Shows result [] }
    {
        Shadow {
            granules: PageTable::new(alloc),
        }
    }

    /// Makes every byte addressable, and gives back the memory of all marks.
    #[tactic(auto, unfolding(crate::specs::Shows::value_at))]
    pub fn clear(&mut self)
        ensures { Shows self.new [] }
    {
        self.granules.clear();
    }

    /// The shadow byte of a granule, and 0 for one at 2^44 or past it.
    #[inline]
    #[tactic(auto, unfolding(crate::specs::Shows::value_at))]
    pub fn value(&self, granule: u64) -> u8
        ensures kept { granule < granule_count → result ≡ value_at self.now granule }
        ensures past_the_end { granule_count ≤ granule → result ≡ 0 }
        ensures shown { (marks : List Mark) → Shows self.now marks →
            result ≡ lift (state_of marks) granule }
    {
        if granule >= GRANULES {
            return 0;
        }
        self.value_before_end(granule)
    }

    /// A reader of the shadow bytes.
    #[inline]
    pub fn reader(&self) -> ShadowReader<'_, A>
        ensures { shadow_of result ≡ self.now }
    {
        ShadowReader {
            granules: self.granules.reader(),
        }
    }

    /// The bad byte of an access of `width` bytes at `at`: the least of its bytes that is not
    /// addressable. Only the granule of its first byte is looked at, so an access that is bad in
    /// the next one alone has none.
    #[inline]
    pub fn bad_byte(&self, at: u64, width: u8) -> Option<u64>
        requires width { IsTrue (is_width width) }
        requires end { at + width ≤ address_end }
        ensures { (marks : List Mark) → Shows self.now marks →
            result ≡ bad_byte_of (state_of marks) at width }
    {
        self.bad_byte_in_granule(at, width as u64)
    }

    /// The shadow bytes that say why an access at `at` is bad, if it is.
    pub fn cause(&self, at: u64) -> Cause
        ensures own { (marks : List Mark) → Shows self.now marks →
            result.own ≡ lift (state_of marks) (granule_of at) }
        ensures deciding { (marks : List Mark) → Shows self.now marks →
            result.deciding ≡ lift (state_of marks) (deciding_granule (state_of marks) at) }
    {
        let own = self.value(at / GRANULE);
        let deciding = if own < MIN_CODE {
            self.value(at / GRANULE + 1)
        } else {
            own
        };
        Cause { own, deciding }
    }

    /// Whether a byte is not addressable.
    #[inline]
    pub fn is_poisoned(&self, at: u64) -> bool
        ensures { (marks : List Mark) → Shows self.now marks →
            result ≡ not (is_addressable (state_of marks at)) }
    {
        (at % GRANULE) as u8 >= front(self.value(at / GRANULE))
    }

    /// The least of `size` bytes from `at` on that is not addressable. Memory that was never
    /// marked, or was unpoisoned as a whole, costs a few steps, however large it is.
    pub fn first_poisoned(&self, at: u64, size: u64) -> Option<u64>
        requires { at + size ≤ address_end }
        ensures { (marks : List Mark) → Shows self.now marks →
            result ≡ least_unaddressable (state_of marks) at size }
    {
        if size == 0 {
            return None;
        }
        if let Some(byte) = self.bad_byte_in_granule(at, size) {
            return Some(byte);
        }
        let end = at + size;
        let granule = self.first_marked(at / GRANULE + 1, end.div_ceil(GRANULE))?;
        let first = granule * GRANULE;
        self.bad_byte_in_granule(first, end - first)
    }

    /// The first granule from one on, below another, whose shadow byte is not 0.
    #[tactic(auto, unfolding(crate::specs::Shows::value_at))]
    fn first_marked(&self, from: u64, to: u64) -> Option<u64>
        requires { to ≤ granule_count }
        ensures { IsFirstNonzero (λ granule. value_at self.now granule) from to result }
    {
        self.granules.first_nonzero(from, to)
    }

    /// The least of `size` bytes from `at` on, within the granule of `at`, that is not addressable.
    #[inline]
    fn bad_byte_in_granule(&self, at: u64, size: u64) -> Option<u64>
        requires { at < address_end }
        ensures { (marks : List Mark) → Shows self.now marks →
            result ≡ bad_byte_of (state_of marks) at size }
    {
        bad_byte_by(self.value_before_end(at / GRANULE), at, size)
    }

    /// The shadow byte of a granule below 2^44.
    #[inline]
    #[tactic(auto, unfolding(crate::specs::Shows::value_at))]
    fn value_before_end(&self, granule: u64) -> u8
        requires { granule < granule_count }
        ensures kept { result ≡ value_at self.now granule }
        ensures shown { (marks : List Mark) → Shows self.now marks →
            result ≡ lift (state_of marks) granule }
    {
        self.granules.byte(granule)
    }

    /// Sets the shadow bytes of the granules from one up to another. Where a growth is refused,
    /// those below some granule are set, which had still to change, and the others are as they
    /// were.
    #[tactic(auto, unfolding(crate::specs::Shows::value_at))]
    pub(crate) fn fill(&mut self, from: u64, to: u64, value: u8) -> Result<(), NoMemory>
        requires order { from ≤ to }
        requires end { to ≤ granule_count }
        ensures ok { OnOk result ((granule : ℕ) → value_at self.new granule
            ≡ (if nat_le from granule && nat_lt granule to then value
            else value_at self.old granule)) }
        ensures err { OnErr result ((place : ℕ) × (from ≤ place) × (place < to)
            × ((granule : ℕ) → value_at self.new granule
            ≡ (if nat_le from granule && nat_lt granule place then value
            else value_at self.old granule))
            × (value_at self.old place ≢ value)) }
    {
        self.granules.fill(from, to, value)
    }

    /// Sets the shadow bytes of the granules from one on, run after run. Where a growth is refused,
    /// those below some granule are set, which had still to change, and the others are as they
    /// were.
    #[tactic(auto, unfolding(crate::specs::Shows::value_at))]
    pub(crate) fn fill_runs(&mut self, from: u64, runs: &[Run]) -> Result<(), NoMemory>
        requires end { from + length_of runs.now ≤ granule_count }
        ensures ok { OnOk result ((granule : ℕ) → value_at self.new granule
            ≡ (if nat_le from granule && nat_lt granule (from + length_of runs.now)
            then byte_of_runs runs.now (granule - from) else value_at self.old granule)) }
        ensures err { OnErr result ((place : ℕ) × (from ≤ place)
            × (place < from + length_of runs.now)
            × ((granule : ℕ) → value_at self.new granule
            ≡ (if nat_le from granule && nat_lt granule place
            then byte_of_runs runs.now (granule - from) else value_at self.old granule))
            × (value_at self.old place ≢ byte_of_runs runs.now (place - from))) }
    {
        self.granules.fill_runs(from, runs)
    }
}
