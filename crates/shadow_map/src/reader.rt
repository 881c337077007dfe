//! A reader of a shadow, and the rule by which a shadow byte says which byte is bad.
ghost use Rattle.std.specs.Prelude.{◌≡◌, ◌+◌, ◌<◌, ◌≤◌, List, IsTrue};
ghost use Rattle.asan_units.specs.Units.{address_end, granule_of, is_width};
ghost use Rattle.shadow_map.specs.States.{Mark, AreMarks, state_of, lift, bad_byte_of};
ghost use Rattle.shadow_map.specs.Shows.{Shows};

use crate::granule::front;
use asan_units::GRANULE;
use page_table::Reader;
use std::alloc::{Allocator, Global};

/// Checks accesses by the bytes of a shadow, which doesn't change meanwhile. It remembers some
/// parts of the shadow, each for 512 MiB of memory, in which it has looked. There it is faster than
/// [`Shadow::bad_byte`](crate::Shadow::bad_byte).
#[derive(Drop)]
pub struct ShadowReader<'s, A: Allocator + Copy = Global> {
    /// Reads the shadow byte of each granule.
    pub(crate) granules: Reader<'s, A>,
}

impl<'s, A: Allocator + Copy> ShadowReader<'s, A> {
    ghost use Rattle.shadow_map.specs.Readers.{shadow_of};

    /// The bad byte of an access of `width` bytes at `at`, as
    /// [`Shadow::bad_byte`](crate::Shadow::bad_byte) finds it.
    #[inline(always)]
    #[tactic(auto, unfolding(crate::specs::Shows::value_at))]
    pub fn bad_byte(&mut self, at: u64, width: u8) -> Option<u64>
        requires width { IsTrue (is_width width) }
        requires end { at + width ≤ address_end }
        ensures bad { (marks : List Mark) → Shows (shadow_of self.old) marks →
            result ≡ bad_byte_of (state_of marks) at width }
        ensures same { shadow_of self.new ≡ shadow_of self.old }
    {
        bad_byte_by(self.granules.byte(at / GRANULE), at, width as u64)
    }
}

/// The least of `size` bytes from `at` on, within the granule of `at`, that is not addressable, by
/// the shadow byte of that granule.
#[inline]
pub fn bad_byte_by(shadow: u8, at: u64, size: u64) -> Option<u64>
    requires { at < address_end }
    ensures { (marks : List Mark) → AreMarks marks →
        shadow ≡ lift (state_of marks) (granule_of at) →
        result ≡ bad_byte_of (state_of marks) at size }
{
    // Most granules are addressable as a whole.
    if shadow == 0 {
        return None;
    }
    let place = at % GRANULE;
    let bad = place.max(front(shadow) as u64);
    if bad < place + size.min(GRANULE - place) {
        Some(at - place + bad)
    } else {
        None
    }
}
