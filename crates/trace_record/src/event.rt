//! The events of a trace, and the ranges that their numbers keep.

ghost use Rattle.std.specs.Prelude.{◌≡◌, ◌+◌, ◌<◌, ◌≤◌, IsTrue, MatchResult, Some, None};
ghost use Rattle.trace_record.specs.declared.version.Version.TheVariants as version;
ghost use Rattle.trace_record.specs.Ranges.{largest_region};
ghost use Rattle.asan_units.specs.Units.{is_width, address_end};

use crate::end::Flaw;
use crate::shade::{Kind, Shade};
use crate::version::Version;
use asan_units::{ADDRESS_END, is_width};
use std::mem::size_of;

/// The bytes of a load or a store.
#[derive(Clone, Copy, Debug, PartialEq, Eq)]
pub struct Access {
    pub at: u64,
    pub width: u8,
    pub ghost known_width: { IsTrue (is_width width) },
    pub ghost in_range: { at + width ≤ address_end },
}

/// The bytes of a malloc or an unpoison.
#[derive(Clone, Copy, Debug, PartialEq, Eq)]
pub struct Region {
    pub at: u64,
    pub size: u64,
    pub ghost small: { size ≤ largest_region version.Two },
    pub ghost in_range: { at + size ≤ address_end },
}

/// The address of a free.
#[derive(Clone, Copy, Debug, PartialEq, Eq)]
pub struct Place {
    pub at: u64,
    pub ghost in_range: { at < address_end },
}

/// What a traced process did.
#[derive(Clone, Copy, Debug, PartialEq, Eq)]
pub enum Event {
    Load(Access),
    Store(Access),
    Malloc(Region),
    Free(Place),
    Poison(Shade),
    Unpoison(Region),
    /// Nothing: what was said before counts no more, and the history begins anew.
    Anew,
}

// Each event is moved by its bytes from thread to thread, so it is kept small.
const _: () = prove!(size_of::<Event>() == 24);

impl Event {
    ghost use Rattle.trace_record.specs.Spelling.{spells_in};

    /// Whether the event can be spelled in a version. In version 1 a poison of another kind than
    /// user can't, nor can a malloc, a poison or an unpoison of more than 2^28 bytes. `Anew` can
    /// only in version 3, where every event can.
    pub fn spells_in(&self, version: Version) -> bool
        ensures { result ≡ spells_in version self.now }
    {
        match self {
            Event::Malloc(region) | Event::Unpoison(region) => {
                region.size() <= version.largest_region()
            }
            Event::Poison(shade) => {
                (version != Version::One || shade.kind() == Kind::User)
                    && shade.size() <= version.largest_region()
            }
            Event::Load(_) | Event::Store(_) | Event::Free(_) => true,
            Event::Anew => version == Version::Three,
        }
    }
}

impl Access {
    ghost use Rattle.trace_record.specs.Flaws.{access_flaw};

    /// The access of `width` bytes at the address `at`, or the first flaw of these numbers: `Width`
    /// unless the width is 1, 2, 4 or 8, then `Range` if the access ends past 2^47.
    pub fn new(at: u64, width: u8) -> Result<Access, Flaw>
        ensures { MatchResult result
            (λ a. (a.at ≡ at) × (a.width ≡ width)) (λ f. access_flaw at width ≡ Some f) }
    {
        if !is_width(width) {
            return Err(Flaw::Width);
        }
        if at > ADDRESS_END - u64::from(width) {
            return Err(Flaw::Range);
        }
        Ok(Access { at, width })
    }

    /// The address of its first byte.
    pub fn at(&self) -> u64
        ensures { result ≡ self.now.at }
    {
        self.at
    }

    /// How many bytes it has: 1, 2, 4 or 8.
    pub fn width(&self) -> u8
        ensures { result ≡ self.now.width }
    {
        self.width
    }
}

impl Region {
    ghost use Rattle.trace_record.specs.Flaws.{region_flaw};

    /// The region of `size` bytes at the address `at`, or the first flaw of these numbers: `Size`
    /// if it has more than 2^32 bytes, then `Range` if it ends past 2^47. A region of size 0 may
    /// lie at 2^47. One of more than 2^28 bytes has no spelling in version 1.
    pub fn new(at: u64, size: u64) -> Result<Region, Flaw>
        ensures { MatchResult result
            (λ r. (r.at ≡ at) × (r.size ≡ size)) (λ f. region_flaw version.Two at size ≡ Some f) }
    {
        Region::in_version(Version::Two, at, size)
    }

    /// The region of these numbers in a stream of a version, or their first flaw there.
    pub(crate) fn in_version(version: Version, at: u64, size: u64) -> Result<Region, Flaw>
        ensures { MatchResult result
            (λ r. (r.at ≡ at) × (r.size ≡ size) × (region_flaw version at size ≡ None))
            (λ f. region_flaw version at size ≡ Some f) }
    {
        if size > version.largest_region() {
            return Err(Flaw::Size);
        }
        if at > ADDRESS_END - size {
            return Err(Flaw::Range);
        }
        Ok(Region { at, size })
    }

    /// The address of its first byte.
    pub fn at(&self) -> u64
        ensures { result ≡ self.now.at }
    {
        self.at
    }

    /// How many bytes it has, at most 2^32.
    pub fn size(&self) -> u64
        ensures { result ≡ self.now.size }
    {
        self.size
    }
}

impl Place {
    ghost use Rattle.trace_record.specs.Flaws.{place_flaw};

    /// The place at the address `at`, or the flaw `Range` if that is 2^47 or more.
    pub fn new(at: u64) -> Result<Place, Flaw>
        ensures { MatchResult result (λ p. p.at ≡ at) (λ f. place_flaw at ≡ Some f) }
    {
        if at >= ADDRESS_END {
            return Err(Flaw::Range);
        }
        Ok(Place { at })
    }

    /// The address.
    pub fn at(&self) -> u64
        ensures { result ≡ self.now.at }
    {
        self.at
    }
}
