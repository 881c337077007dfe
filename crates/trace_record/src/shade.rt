//! What a poison speaks of: its bytes, and a kind that says what it is for.

ghost use Rattle.std.specs.Prelude.{◌≡◌, ◌+◌, ◌/◌, ◌%◌, ◌<◌, ◌≤◌, MatchResult, Some, None};
ghost use Rattle.trace_record.specs.declared.version.Version.TheVariants as version;
ghost use Rattle.trace_record.specs.Ranges.{largest_region};
ghost use Rattle.asan_units.specs.Units.{address_end};

use crate::end::Flaw;
use crate::event::Region;
use crate::version::Version;

/// How many kinds a number of a [`Shade`] has room for.
const KINDS: u64 = 4;

/// What a poison is for.
#[derive(Clone, Copy, Debug, PartialEq, Eq)]
pub enum Kind {
    /// The traced program poisoned the bytes itself.
    User,
    /// They lie beside a variable on the stack, or are one whose scope has ended.
    Stack,
    /// They lie beside a global variable.
    Global,
}

/// The bytes of a poison, and its kind.
///
/// The size and the kind share one number, so that no event takes more than 24 bytes.
#[derive(Clone, Copy, Debug, PartialEq, Eq)]
pub struct Shade {
    pub at: u64,
    size_and_kind: u64,
    pub ghost known_kind: { size_and_kind % 4 < 3 },
    pub ghost small: { size_and_kind / 4 ≤ largest_region version.Two },
    pub ghost in_range: { at + size_and_kind / 4 ≤ address_end },
}

impl Kind {
    ghost use Rattle.std.specs.Prelude.{MatchOption};
    ghost use Rattle.trace_record.specs.Kinds.{kind_number, largest_kind};

    /// The kind with this number, or `None` if there is none.
    fn numbered(number: u8) -> Option<Kind>
        ensures { MatchOption result (largest_kind < number) (λ k. kind_number k ≡ number) }
    {
        match number {
            0 => Some(Kind::User),
            1 => Some(Kind::Stack),
            2 => Some(Kind::Global),
            _ => None,
        }
    }

    /// Its number in a record: 0 for a user's poison, 1 for the stack's, 2 for a global's.
    pub(crate) fn number(self) -> u8
        ensures number { result ≡ kind_number self }
        ensures known { result < 3 }
    {
        match self {
            Kind::User => 0,
            Kind::Stack => 1,
            Kind::Global => 2,
        }
    }
}

impl Shade {
    ghost use Rattle.trace_record.specs.Flaws.{shade_flaw};
    ghost use Rattle.trace_record.specs.Kinds.{kind_number};
    ghost use Rattle.trace_record.specs.Shades.{shade_size, shade_kind};

    /// The poison of `size` bytes at the address `at`, of the kind with this number: 0 for a user's
    /// poison, 1 for the stack's, 2 for a global's. Or the first flaw of these numbers: `Kind` if
    /// the kind is over 2, then `Size` if it has more than 2^32 bytes, then `Range` if it ends past
    /// 2^47. A poison of size 0 may lie at 2^47.
    pub fn new(at: u64, size: u64, kind: u8) -> Result<Shade, Flaw>
        ensures { MatchResult result
            (λ s. (s.at ≡ at) × (shade_size s ≡ size) × (kind_number (shade_kind s) ≡ kind))
            (λ f. shade_flaw version.Two at size kind ≡ Some f) }
    {
        Shade::in_version(Version::Two, at, size, kind)
    }

    /// The poison of these numbers in a stream of a version, or their first flaw there.
    pub(crate) fn in_version(version: Version, at: u64, size: u64, kind: u8) -> Result<Shade, Flaw>
        ensures { MatchResult result
            (λ s. (s.at ≡ at) × (shade_size s ≡ size) × (kind_number (shade_kind s) ≡ kind)
            × (shade_flaw version at size kind ≡ None))
            (λ f. shade_flaw version at size kind ≡ Some f) }
    {
        let kind = Kind::numbered(kind).ok_or(Flaw::Kind)?;
        Ok(Shade::of(Region::in_version(version, at, size)?, kind))
    }

    /// The poison of these bytes and this kind.
    pub(crate) fn of(region: Region, kind: Kind) -> Shade
        ensures at { result.at ≡ region.at }
        ensures size { shade_size result ≡ region.size }
        ensures kind { shade_kind result ≡ kind }
    {
        Shade {
            at: region.at(),
            size_and_kind: region.size() * KINDS + u64::from(kind.number()),
        }
    }

    /// The address of its first byte.
    pub fn at(&self) -> u64
        ensures { result ≡ self.now.at }
    {
        self.at
    }

    /// How many bytes it has, at most 2^32.
    pub fn size(&self) -> u64
        ensures { result ≡ shade_size self.now }
    {
        self.size_and_kind / KINDS
    }

    /// What it is for.
    pub fn kind(&self) -> Kind
        ensures { result ≡ shade_kind self.now }
    {
        match self.size_and_kind % KINDS {
            0 => Kind::User,
            1 => Kind::Stack,
            _ => Kind::Global,
        }
    }
}
