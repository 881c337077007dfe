//! A reader of a table, which remembers where it has read last.
ghost use Rattle.std.specs.Prelude.{◌≡◌, ◌<◌, length};
ghost use Rattle.std.specs.List.{All};
ghost use Rattle.asan_units.specs.Units.{granule_count};
ghost use Rattle.page_table.specs.declared.reader.TheConstants.{PLACES};
ghost use Rattle.page_table.specs.Tables.{byte_of};
ghost use Rattle.page_table.specs.Founds.{IsFound, IsFoundArea};

use crate::node::Node;
use crate::table::{Area, PageTable, Part};
use std::alloc::{Allocator, Global};

/// How many granules a part has.
const PART: u64 = 1 << 26;

/// How many granules an area has.
const AREA: u64 = 1 << 33;

/// How many parts a reader remembers.
const PLACES: usize = 4;

/// A part of a table and its number, or no part.
#[derive(Clone, Copy)]
pub(crate) struct Found<'t, A: Allocator + Copy = Global> {
    number: u64,
    part: Option<&'t Part<A>>,
}

/// An area of a table and its number, or no area.
#[derive(Clone, Copy)]
pub(crate) struct FoundArea<'t, A: Allocator + Copy = Global> {
    number: u64,
    area: Option<&'t Area<A>>,
}

/// Reads the bytes of a table, which doesn't change meanwhile. It remembers the first parts of the
/// table that it found, each of 2^26 granules, and finds another granule of such a part in half the
/// steps. For granules of other parts it remembers an area, of 2^33 granules.
#[derive(Drop)]
pub struct Reader<'t, A: Allocator + Copy = Global> {
    /// What it reads.
    table: &'t PageTable<A>,
    /// The parts that it found, each at the place that its number says.
    found: [Found<'t, A>; PLACES],
    /// The area that it found last.
    area: FoundArea<'t, A>,

    ghost places: { length found ≡ PLACES },

    ghost remembered: { All (IsFound table.now) found },

    ghost remembered_area: { IsFoundArea table.now area },
}

/// Where a part of this number is remembered.
#[inline]
fn place_of(number: u64) -> usize
    ensures { result < PLACES }
{
    (number % PLACES as u64) as usize
}

impl<'t, A: Allocator + Copy> Reader<'t, A> {
    ghost use Rattle.page_table.specs.Readers.{table_of};

    /// A reader that has read nothing.
    #[inline]
    pub(crate) fn new(table: &'t PageTable<A>) -> Reader<'t, A>
        ensures { table_of result ≡ table.now }
    {
        Reader {
            table,
            found: [Found {
                number: 0,
                part: None,
            }; PLACES],
            area: FoundArea {
                number: 0,
                area: None,
            },
        }
    }

    /// The byte of a granule.
    #[inline(always)]
    pub fn byte(&mut self, granule: u64) -> u8
        requires { granule < granule_count }
        ensures byte { result ≡ byte_of (table_of self.old) granule }
        ensures same { table_of self.new ≡ table_of self.old }
    {
        let number = granule / PART;
        let all = &self.found[..];
        let found = &all[place_of(number)];
        match found.part {
            Some(part) if found.number == number => part.byte(granule % PART),
            Some(_) => self.byte_beside(granule),
            None => self.byte_of_new_part(granule),
        }
    }

    /// The byte of a granule of a part whose place another one has. It is one step further off, in
    /// the area that was found last.
    #[inline(always)]
    fn byte_beside(&mut self, granule: u64) -> u8
        requires { granule < granule_count }
        ensures byte { result ≡ byte_of (table_of self.old) granule }
        ensures same { table_of self.new ≡ table_of self.old }
    {
        match self.area.area {
            Some(area) if self.area.number == granule / AREA => area.byte(granule % AREA),
            _ => self.byte_of_new_area(granule),
        }
    }

    /// The byte of a granule of a part whose place is free. The part is remembered if the table
    /// keeps it: where it doesn't, the way to the granule's byte is short.
    #[inline(never)]
    fn byte_of_new_part(&mut self, granule: u64) -> u8
        requires { granule < granule_count }
        ensures byte { result ≡ byte_of (table_of self.old) granule }
        ensures same { table_of self.new ≡ table_of self.old }
    {
        let number = granule / PART;
        let Some(part) = self.table.part(number) else {
            return self.table.byte(granule);
        };
        let mut found = self.found;
        let all = &mut found[..];
        all[place_of(number)] = Found {
            number,
            part: Some(part),
        };
        self.found = found;
        part.byte(granule % PART)
    }

    /// The byte of a granule of another area. That is remembered if the table keeps it.
    #[inline(never)]
    fn byte_of_new_area(&mut self, granule: u64) -> u8
        requires { granule < granule_count }
        ensures byte { result ≡ byte_of (table_of self.old) granule }
        ensures same { table_of self.new ≡ table_of self.old }
    {
        let number = granule / AREA;
        let Some(area) = self.table.area(number) else {
            return self.table.byte(granule);
        };
        self.area = FoundArea {
            number,
            area: Some(area),
        };
        area.byte(granule % AREA)
    }
}
