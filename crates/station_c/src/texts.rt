// The text results of formulas as C functions. The archive has the C functions of this crate alone.
ghost use Rattle.std.specs.Prelude.{◌≡◌};
ghost use Rattle.text_result.specs.FromPlace.{answer_at, buffer_at};
ghost use Rattle.cell_text.specs.CellText.{answer_of, buffer_after};
ghost use Rattle.station_c.specs.Answers.{fetch_seen};

use crate::Units;

// The text result of the first listed cell of an address.
#[unsafe(no_mangle)]
pub extern "C" fn station_text(
    s: &[u8],
    sheet: u32,
    row: u32,
    column: u32,
    units: &mut [u16],
) -> Units
    ensures value { result ≡ fetch_seen (answer_of s.now sheet row column units.old) }
    ensures units_after { units.new ≡ buffer_after s.now sheet row column units.old }
{
    Units::from(cell_text::fetch_cell(s, sheet, row, column, units))
}

// The same for a listed cell, from the place of its value field and without a check.
#[unsafe(no_mangle)]
pub extern "C" fn station_text_at(s: &[u8], field: usize, units: &mut [u16]) -> Units
    ensures value { result ≡ fetch_seen (answer_at s.now field units.old) }
    ensures units_after { units.new ≡ buffer_at s.now field units.old }
{
    Units::from(text_result::text_at(s, field, units))
}
