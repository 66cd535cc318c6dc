// String places kept in a table, as C functions. The archive has the C functions of this crate alone.
ghost use Rattle.std.specs.Prelude.{◌≡◌};
ghost use Rattle.string_places.specs.Places.{fill_of, table_after, through_of, buffer_through};
ghost use Rattle.station_c.specs.Answers.{fetch_seen, table_seen};

use crate::Units;
use refusal::Refusal;

// Of how many strings the table has the places.
#[repr(C)]
#[derive(Clone, Copy, Default)]
pub struct FilledTable {
    pub number: u8,
    pub offset: usize,
    pub strings: u32,
}

impl From<Result<u32, Refusal>> for FilledTable {
    ghost from_gives = { λ a y. y ≡ table_seen a };

    fn from(answer: Result<u32, Refusal>) -> FilledTable {
        match answer {
            Ok(strings) => FilledTable {
                strings,
                ..FilledTable::default()
            },
            Err(e) => FilledTable {
                number: e.number,
                offset: e.offset,
                ..FilledTable::default()
            },
        }
    }
}

#[unsafe(no_mangle)]
pub extern "C" fn station_fill(s: &[u8], table: &mut [u32]) -> FilledTable
    ensures value { result ≡ table_seen (fill_of s.now 0 table.old) }
    ensures table_after { table.new ≡ table_after s.now 0 table.old }
{
    FilledTable::from(string_places::fill(s, table))
}

// A string by its entry in the table, without a check.
#[unsafe(no_mangle)]
pub extern "C" fn station_fetch_through(
    s: &[u8],
    table: &[u32],
    index: u32,
    units: &mut [u16],
) -> Units
    ensures value { result ≡ fetch_seen (through_of s.now table.now index units.old) }
    ensures units_after { units.new ≡ buffer_through s.now table.now index units.old }
{
    Units::from(string_places::fetch_through(s, table, index, units))
}
