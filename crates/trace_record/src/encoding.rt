//! The encoder: it puts the record of an event into a buffer.

ghost use Rattle.std.specs.Prelude.{◌≡◌, ◌+◌, ◌≤◌, [], ◌∷◌, ◌++◌, IsTrue, length, take, drop};
ghost use Rattle.std.specs.Int.{w64, to_le_bytes};
ghost use Rattle.trace_record.specs.Kinds.{kind_number};
ghost use Rattle.trace_record.specs.Shades.{shade_size, shade_kind};
ghost use Rattle.trace_record.specs.Spelling.{spelling, spells_in};

use crate::event::{Access, Event, Place};
use crate::format::{
    ACCESS_LENGTH, ANEW, ANEW_LENGTH, FREE, LOAD, MALLOC, PLACE_LENGTH, POISON, RECORD_ROOM,
    REGION_LENGTH, SHADE_LENGTH, STORE, UNPOISON,
};
use crate::shade::Shade;
use crate::version::Version;
use byteorder::{ByteOrder, LittleEndian};

/// Puts an event's record in a version at the front of `out` and answers how many bytes it has, at
/// most 18. The bytes after it stay.
///
/// The version must be one that the event [spells in](Event::spells_in).
pub fn encode(version: Version, event: &Event, out: &mut [u8; RECORD_ROOM]) -> usize
    requires spells { IsTrue (spells_in version event.now) }
    ensures length { result ≡ length (spelling version event.now) }
    ensures front { take result out.new ≡ spelling version event.now }
    ensures rest { drop result out.new ≡ drop result out.old }
{
    match event {
        Event::Load(access) => encode_access(LOAD, access, out),
        Event::Store(access) => encode_access(STORE, access, out),
        Event::Malloc(region) => encode_region(MALLOC, region.at(), region.size(), out),
        Event::Free(place) => encode_place(FREE, place, out),
        Event::Poison(shade) => match version {
            Version::One => encode_region(POISON, shade.at(), shade.size(), out),
            Version::Two | Version::Three => encode_shade(shade, out),
        },
        Event::Unpoison(region) => encode_region(UNPOISON, region.at(), region.size(), out),
        Event::Anew => encode_anew(out),
    }
}

/// The record of a load or a store.
fn encode_access(code: u8, access: &Access, out: &mut [u8; RECORD_ROOM]) -> usize
    ensures length { result ≡ 10 }
    ensures front { take 10 out.new ≡ code ∷ access.now.width ∷ to_le_bytes w64 access.now.at }
    ensures rest { drop 10 out.new ≡ drop 10 out.old }
{
    out[0] = code;
    out[1] = access.width;
    put_number(out, 2, access.at);
    ACCESS_LENGTH
}

/// The record of a malloc, an unpoison or a poison of version 1.
fn encode_region(code: u8, at: u64, size: u64, out: &mut [u8; RECORD_ROOM]) -> usize
    ensures length { result ≡ 17 }
    ensures front { take 17 out.new ≡ code ∷ to_le_bytes w64 at ++ to_le_bytes w64 size }
    ensures rest { drop 17 out.new ≡ drop 17 out.old }
{
    out[0] = code;
    put_number(out, 1, at);
    put_number(out, 9, size);
    REGION_LENGTH
}

/// The record of a poison from version 2 on.
fn encode_shade(shade: &Shade, out: &mut [u8; RECORD_ROOM]) -> usize
    ensures length { result ≡ 18 }
    ensures front { take 18 out.new ≡ 5 ∷ kind_number (shade_kind shade.now)
        ∷ to_le_bytes w64 shade.now.at ++ to_le_bytes w64 (shade_size shade.now) }
    ensures rest { drop 18 out.new ≡ drop 18 out.old }
{
    out[0] = POISON;
    out[1] = shade.kind().number();
    put_number(out, 2, shade.at());
    put_number(out, 10, shade.size());
    SHADE_LENGTH
}

/// The record of a free.
fn encode_place(code: u8, place: &Place, out: &mut [u8; RECORD_ROOM]) -> usize
    ensures length { result ≡ 9 }
    ensures front { take 9 out.new ≡ code ∷ to_le_bytes w64 place.now.at }
    ensures rest { drop 9 out.new ≡ drop 9 out.old }
{
    out[0] = code;
    put_number(out, 1, place.at);
    PLACE_LENGTH
}

/// The record of a history that begins anew.
fn encode_anew(out: &mut [u8; RECORD_ROOM]) -> usize
    ensures length { result ≡ 1 }
    ensures front { take 1 out.new ≡ 8 ∷ [] }
    ensures rest { drop 1 out.new ≡ drop 1 out.old }
{
    out[0] = ANEW;
    ANEW_LENGTH
}

/// Puts a number, its lowest byte first, at a place of the record.
fn put_number(out: &mut [u8; RECORD_ROOM], from: usize, number: u64)
    requires { from + 8 ≤ 24 }
    ensures front { take (from + 8) out.new ≡ take from out.old ++ to_le_bytes w64 number }
    ensures rest { drop (from + 8) out.new ≡ drop (from + 8) out.old }
{
    LittleEndian::write_u64(&mut out[from..from + 8], number);
}
