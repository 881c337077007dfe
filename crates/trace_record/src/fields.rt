//! The numbers of a whole record: they are read from its bytes, and an event is made of them.

ghost use Rattle.std.specs.Prelude.{◌≡◌, ◌+◌, ◌≤◌, ◌<◌};
ghost use Rattle.std.specs.Prelude.{length, take, drop, slice_index, IsTrue, MatchResult, Some};
ghost use Rattle.std.specs.Int.{w64, to_le_bytes};
ghost use Rattle.trace_record.specs.declared.version.Version.{Version};
ghost use Rattle.trace_record.specs.Reading.{Says};
ghost use Rattle.trace_record.specs.Spelling.{bytes_of, fields_of, flaw_of, record_length};
ghost use Rattle.trace_record.specs.Spelling.{spells_in};

use crate::end::Flaw;
use crate::event::{Access, Event, Place, Region};
use crate::format::{
    ACCESS_LENGTH, LOAD, MALLOC, PLACE_LENGTH, POISON, REGION_LENGTH, SHADE_LENGTH,
};
use crate::shade::{Kind, Shade};
use crate::version::Version;
use byteorder::{ByteOrder, LittleEndian};

/// The numbers of a record, before their ranges are tested.
#[derive(Clone, Copy)]
pub enum Numbers {
    /// Those of a load or a store.
    Access { width: u8, at: u64 },
    /// Those of a malloc, an unpoison or a poison of version 1.
    Region { at: u64, size: u64 },
    /// Those of a poison from version 2 on.
    Shade { kind: u8, at: u64, size: u64 },
    /// That of a free.
    Place { at: u64 },
    /// None: a history begins anew.
    Absent,
}

/// What a whole record is made of.
#[derive(Clone, Copy)]
pub struct Fields {
    pub code: u8,
    pub numbers: Numbers,
}

impl Fields {
    ghost use Rattle.trace_record.specs.Spelling.{Fit};

    /// The fields of a whole record. How many bytes it has says which numbers these are, whatever
    /// the version.
    #[inline(always)]
    fn read(bytes: &[u8]) -> Fields
        requires begun { 0 < length bytes.now }
        requires whole { (version : Version)
            × (length bytes.now ≡ record_length version (slice_index bytes.now 0)) }
        ensures spelled { bytes_of result ≡ bytes.now }
        ensures fit { (version : Version) →
            length bytes.now ≡ record_length version (slice_index bytes.now 0) →
            Fit version result }
    {
        let numbers = match bytes.len() {
            ACCESS_LENGTH => Numbers::Access {
                width: bytes[1],
                at: number_at(bytes, 2),
            },
            REGION_LENGTH => Numbers::Region {
                at: number_at(bytes, 1),
                size: number_at(bytes, 9),
            },
            SHADE_LENGTH => Numbers::Shade {
                kind: bytes[1],
                at: number_at(bytes, 2),
                size: number_at(bytes, 10),
            },
            PLACE_LENGTH => Numbers::Place {
                at: number_at(bytes, 1),
            },
            _ => Numbers::Absent,
        };
        Fields {
            code: bytes[0],
            numbers,
        }
    }

    /// The event with these fields in a version, or the first flaw of its numbers.
    #[inline(always)]
    fn event(self, version: Version) -> Result<Event, Flaw>
        requires { Fit version self }
        ensures { MatchResult result
            (λ e. IsTrue (spells_in version e) × (fields_of version e ≡ self))
            (λ f. flaw_of version self.numbers ≡ Some f) }
    {
        let code = self.code;
        match self.numbers {
            Numbers::Access { width, at } => {
                let access = Access::new(at, width)?;
                Ok(if code == LOAD {
                    Event::Load(access)
                } else {
                    Event::Store(access)
                })
            }
            Numbers::Region { at, size } => {
                let region = Region::in_version(version, at, size)?;
                Ok(match code {
                    MALLOC => Event::Malloc(region),
                    POISON => Event::Poison(Shade::of(region, Kind::User)),
                    _ => Event::Unpoison(region),
                })
            }
            Numbers::Shade { kind, at, size } => {
                let shade = Shade::in_version(version, at, size, kind)?;
                Ok(Event::Poison(shade))
            }
            Numbers::Place { at } => Place::new(at).map(Event::Free),
            Numbers::Absent => Ok(Event::Anew),
        }
    }
}

/// What a whole record of a version says: its event, or its first flaw. Inlined with the two steps
/// that it takes, so that a record's numbers stay in registers.
#[inline(always)]
pub fn read_record(version: Version, bytes: &[u8]) -> Result<Event, Flaw>
    requires begun { 0 < length bytes.now }
    requires whole { length bytes.now ≡ record_length version (slice_index bytes.now 0) }
    ensures { Says version bytes.now result }
{
    Fields::read(bytes).event(version)
}

/// The number in the eight bytes from a place.
fn number_at(bytes: &[u8], from: usize) -> u64
    requires { from + 8 ≤ length bytes.now }
    ensures { to_le_bytes w64 result ≡ take 8 (drop from bytes.now) }
{
    LittleEndian::read_u64(&bytes[from..])
}
