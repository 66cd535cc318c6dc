// One template, many sessions, as C functions: what the crate `pair_answers` answers. The archive has the C functions of this crate alone.
ghost use Rattle.std.specs.Prelude.{◌≡◌};
ghost use Rattle.pair.specs.Pair.{pair_of, pair_sheet_of, pair_cells_of, pair_correction_of, answer_of, session_after};
ghost use Rattle.pair_texts.specs.Texts.{pair_fetch_of, pair_buffer_of, pair_text_of, pair_text_buffer};
ghost use Rattle.pair_texts.specs.Tables.{pair_fill_of, template_table_after, session_table_after};
ghost use Rattle.pair_answers.specs.Answers.{whose_asked, check_seen, sheet_seen, cells_seen, units_seen, answer_seen, filled_seen};
ghost use Rattle.station_c.specs.Answers.{new_value};

use pair_answers::{Answer, Cells, Check, Filled, Sheet, Units};

#[unsafe(no_mangle)]
pub extern "C" fn station_pair_check(template: &[u8], session: &[u8]) -> Check
    ensures { result ≡ check_seen template.now session.now (pair_of template.now session.now) }
{
    pair_answers::check_seen(template, session)
}

#[unsafe(no_mangle)]
pub extern "C" fn station_pair_sheet(template: &[u8], session: &[u8], sheet: u32) -> Sheet
    ensures { result ≡ sheet_seen template.now session.now (pair_sheet_of template.now session.now sheet) }
{
    pair_answers::sheet_seen(template, session, sheet)
}

#[unsafe(no_mangle)]
pub extern "C" fn station_pair_cells(template: &[u8], session: &[u8], sheet: u32) -> Cells
    ensures { result ≡ cells_seen (pair_cells_of template.now session.now sheet) }
{
    pair_answers::cells_seen(template, session, sheet)
}

#[unsafe(no_mangle)]
pub extern "C" fn station_pair_fetch(
    template: &[u8],
    session: &[u8],
    asked: u8,
    index: u32,
    units: &mut [u16],
) -> Units
    ensures value { result ≡ units_seen (pair_fetch_of template.now session.now (whose_asked asked) index units.old) }
    ensures units_after { units.new ≡ pair_buffer_of template.now session.now (whose_asked asked) index units.old }
{
    pair_answers::fetch_seen(template, session, asked, index, units)
}

#[unsafe(no_mangle)]
pub extern "C" fn station_pair_text(
    template: &[u8],
    session: &[u8],
    sheet: u32,
    row: u32,
    column: u32,
    units: &mut [u16],
) -> Units
    ensures value { result ≡ units_seen (pair_text_of template.now session.now sheet row column units.old) }
    ensures units_after { units.new ≡ pair_text_buffer template.now session.now sheet row column units.old }
{
    pair_answers::text_seen(template, session, sheet, row, column, units)
}

// A new value by its kind, as for `station_correct`.
#[unsafe(no_mangle)]
pub extern "C" fn station_pair_correct(
    template: &[u8],
    session: &mut [u8],
    sheet: u32,
    row: u32,
    column: u32,
    kind: u8,
    number: f64,
    index: u32,
    byte: u8,
) -> Answer
    ensures value { result ≡ answer_seen (answer_of (pair_correction_of template.now session.old sheet row column (new_value kind number index byte))) }
    ensures session_after { session.new ≡ session_after session.old (pair_correction_of template.now session.old sheet row column (new_value kind number index byte)) }
{
    let value = crate::new_value(kind, number, index, byte);
    pair_answers::correct_seen(template, session, sheet, row, column, value)
}

// The template's table, then the session's.
#[unsafe(no_mangle)]
pub extern "C" fn station_pair_fill(
    template: &[u8],
    session: &[u8],
    first: &mut [u32],
    second: &mut [u32],
) -> Filled
    ensures value { result ≡ filled_seen (pair_fill_of template.now session.now first.old second.old) }
    ensures first_after { first.new ≡ template_table_after template.now session.now first.old second.old }
    ensures second_after { second.new ≡ session_table_after template.now session.now first.old second.old }
{
    pair_answers::fill_seen(template, session, first, second)
}
