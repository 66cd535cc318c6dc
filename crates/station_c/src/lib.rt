// The five questions as C functions. Each is defined for every argument; a refusal's number is 0 where there is none, and what isn't answered is 0.
#![tactic(auto)]

mod compacted;
mod comparisons;
mod journals;
mod pairs;
mod sessions;
mod tables;
mod texts;

ghost use Rattle.std.specs.Prelude.{◌≡◌};
ghost use Rattle.formula.specs.Judge.{judge_of};
ghost use Rattle.workbook.specs.Check.{checked_of};
ghost use Rattle.listing.specs.Listing.{next_sheet_of, cells_of};
ghost use Rattle.reading.specs.Cells.{listed_from};
ghost use Rattle.reading.specs.Reading.{rows_of};
ghost use Rattle.fetch.specs.Fetch.{answer_of, buffer_after};
ghost use Rattle.fetch.specs.Strings.{next_string_of, next_buffer};
ghost use Rattle.correction.specs.Correction.{correction_of, answer_of as corrected_of, stream_after};
ghost use Rattle.station_c.specs.Answers.{check_seen, answer_seen, fetch_seen, text_seen, sheet_seen, cells_seen, filled_seen, new_value};
ghost use Rattle.cell_words.specs.Batch.{filled_from};

use fetch::NextString;
use new_value::NewValue;
use reading::Place;
use refusal::Refusal;
use segments::Cursor;

// How many sheets and strings, and the places before the first sheet and the first string.
#[repr(C)]
#[derive(Clone, Copy, Default)]
pub struct Check {
    pub number: u8,
    pub offset: usize,
    pub sheets: usize,
    pub strings: u32,
    pub sheet: usize,
    pub segment: usize,
    pub at: usize,
    pub end: usize,
}

#[repr(C)]
#[derive(Clone, Copy, Default)]
pub struct Answer {
    pub number: u8,
    pub offset: usize,
}

// A string's units are at the front of the buffer.
#[repr(C)]
#[derive(Clone, Copy, Default)]
pub struct Units {
    pub number: u8,
    pub offset: usize,
    pub units: usize,
}

// How many words were written and whether there are more; or the refusal's number, not 0, its offset, and whose it is: 1 the first stream's, 2 the second's.
#[repr(C)]
#[derive(Clone, Copy, Default)]
pub struct Comparison {
    pub number: u8,
    pub which: u8,
    pub offset: usize,
    pub words: usize,
    pub more: bool,
}

// How many bytes the new stream has, which is at the front of the buffer.
#[repr(C)]
#[derive(Clone, Copy, Default)]
pub struct NewStream {
    pub number: u8,
    pub offset: usize,
    pub written: usize,
}

// The same of a session over its template, with whose refusal it is; 2 where it is written.
#[repr(C)]
#[derive(Clone, Copy, Default)]
pub struct NewSession {
    pub whose: u8,
    pub number: u8,
    pub offset: usize,
    pub written: usize,
}

// The next string: its units are at the front of the buffer; 12 where that has fewer units than the string. The place after it.
#[repr(C)]
#[derive(Clone, Copy, Default)]
pub struct SharedString {
    pub ended: bool,
    pub number: u8,
    pub offset: usize,
    pub units: usize,
    pub segment: usize,
    pub at: usize,
    pub end: usize,
}

// A sheet: its BOUNDSHEET, 12 bytes after whose header its name starts, the name's bytes, the bytes of a character, its type, where its cells start, and the place after it.
#[repr(C)]
#[derive(Clone, Copy, Default)]
pub struct Sheet {
    pub ended: bool,
    pub header: usize,
    pub size: usize,
    pub width: usize,
    pub kind: u8,
    pub at: usize,
    pub part: u16,
    pub level: u8,
    pub next: usize,
}

// Where a listing starts.
#[repr(C)]
#[derive(Clone, Copy, Default)]
pub struct Cells {
    pub number: u8,
    pub offset: usize,
    pub at: usize,
    pub part: u16,
    pub level: u8,
}

// So many cells were written; the listing ended, or goes on at the place.
#[repr(C)]
#[derive(Clone, Copy, Default)]
pub struct Filled {
    pub cells: usize,
    pub ended: bool,
    pub at: usize,
    pub part: u16,
    pub level: u8,
}

impl From<Result<(), Refusal>> for Answer {
    ghost from_gives = { λ a y. y ≡ answer_seen a };

    fn from(answer: Result<(), Refusal>) -> Answer {
        match answer {
            Ok(()) => Answer::default(),
            Err(e) => Answer {
                number: e.number,
                offset: e.offset,
            },
        }
    }
}

impl From<Result<usize, Refusal>> for Units {
    ghost from_gives = { λ a y. y ≡ fetch_seen a };

    fn from(answer: Result<usize, Refusal>) -> Units {
        match answer {
            Ok(units) => Units {
                units,
                ..Units::default()
            },
            Err(e) => Units {
                number: e.number,
                offset: e.offset,
                ..Units::default()
            },
        }
    }
}

// The version 0.1.0, a thousand for each part.
#[unsafe(no_mangle)]
pub extern "C" fn station_version() -> u32
    ensures { result ≡ 1000 }
{
    1000
}

#[unsafe(no_mangle)]
pub extern "C" fn station_check(s: &[u8]) -> Check
    ensures { result ≡ check_seen s.now (checked_of s.now 0) }
{
    match workbook::check_with(s, 0) {
        Ok(g) => {
            let first = fetch::first_string(s, g.table);
            Check {
                sheets: workbook::sheet_count(s),
                strings: g.unique,
                sheet: listing::first_sheet(),
                segment: first.seg,
                at: first.at,
                end: first.end,
                ..Check::default()
            }
        }
        Err(e) => Check {
            number: e.number,
            offset: e.offset,
            ..Check::default()
        },
    }
}

#[unsafe(no_mangle)]
pub extern "C" fn station_judge(tokens: &[u8], trailing: &[u8]) -> Answer
    ensures { result ≡ answer_seen (judge_of tokens.now trailing.now) }
{
    Answer::from(formula::judge(tokens, trailing))
}

#[unsafe(no_mangle)]
pub extern "C" fn station_fetch(s: &[u8], index: u32, units: &mut [u16]) -> Units
    ensures value { result ≡ fetch_seen (answer_of s.now index units.old) }
    ensures units_after { units.new ≡ buffer_after s.now index units.old }
{
    Units::from(fetch::fetch(s, index, units))
}

// The next shared string from a place on.
#[unsafe(no_mangle)]
pub extern "C" fn station_next_string(
    s: &[u8],
    segment: usize,
    at: usize,
    end: usize,
    units: &mut [u16],
) -> SharedString
    ensures value { result ≡ text_seen (record { seg = segment; at = at; end = end }) (next_string_of s.now (record { seg = segment; at = at; end = end }) units.old) }
    ensures units_after { units.new ≡ next_buffer s.now (record { seg = segment; at = at; end = end }) units.old }
{
    let from = Cursor {
        seg: segment,
        at,
        end,
    };
    let here = SharedString {
        segment,
        at,
        end,
        ..SharedString::default()
    };
    match fetch::next_string(s, from, units) {
        Ok(Some(NextString { units, next })) => SharedString {
            units,
            segment: next.seg,
            at: next.at,
            end: next.end,
            ..here
        },
        Ok(None) => SharedString {
            ended: true,
            ..here
        },
        Err(e) => SharedString {
            number: e.number,
            offset: e.offset,
            ..here
        },
    }
}

// The next sheet from a place on.
#[unsafe(no_mangle)]
pub extern "C" fn station_next_sheet(s: &[u8], place: usize) -> Sheet
    ensures { result ≡ sheet_seen s.now (next_sheet_of s.now place) }
{
    match listing::next_sheet(s, place) {
        Some(sheet) => Sheet {
            ended: false,
            header: sheet.header,
            size: listing::name_at(s, sheet.header).len(),
            width: sheet.width,
            kind: sheet.type_byte,
            at: sheet.cells.at,
            part: sheet.cells.part,
            level: sheet.cells.level,
            next: sheet.next,
        },
        None => Sheet {
            ended: true,
            ..Sheet::default()
        },
    }
}

#[unsafe(no_mangle)]
pub extern "C" fn station_cells(s: &[u8], sheet: u32) -> Cells
    ensures { result ≡ cells_seen (cells_of s.now sheet) }
{
    match listing::cells(s, sheet) {
        Ok(v) => Cells {
            at: v.at,
            part: v.part,
            level: v.level,
            ..Cells::default()
        },
        Err(e) => Cells {
            number: e.number,
            offset: e.offset,
            ..Cells::default()
        },
    }
}

// The row count of the cells from a place on.
#[unsafe(no_mangle)]
pub extern "C" fn station_rows(s: &[u8], at: usize, part: u16, level: u8) -> u32
    ensures { result ≡ rows_of (listed_from s.now (record { at = at; part = part; level = level })) }
{
    listing::rows(s, Place { at, part, level })
}

// The next cells from a place on, as many as there is room for, four words each.
#[unsafe(no_mangle)]
pub extern "C" fn station_next_cells(
    s: &[u8],
    at: usize,
    part: u16,
    level: u8,
    words: &mut [u64],
) -> Filled
    ensures value { result ≡ filled_seen (filled_from s.now (record { at = at; part = part; level = level }) words.old) }
    ensures words_after { words.new ≡ (filled_from s.now (record { at = at; part = part; level = level }) words.old).words }
{
    let filled = cell_words::fill(s, Place { at, part, level }, words);
    match filled.rest {
        Some(place) => Filled {
            cells: filled.cells,
            ended: false,
            at: place.at,
            part: place.part,
            level: place.level,
        },
        None => Filled {
            cells: filled.cells,
            ended: true,
            ..Filled::default()
        },
    }
}

#[tactic(auto, unfolding(crate::specs::Answers::new_value, steps::specs::Choice::pick))]
pub fn new_value(kind: u8, number: f64, index: u32, byte: u8) -> NewValue
    ensures { result ≡ new_value kind number index byte }
{
    match kind {
        0 => NewValue::Number(number),
        1 => NewValue::Text(index),
        2 => NewValue::Truth(byte),
        _ => NewValue::Error(byte),
    }
}

// A new value by its kind: 0 a number, 1 a text index, 2 a truth, else an error code.
#[unsafe(no_mangle)]
pub extern "C" fn station_correct(
    s: &mut [u8],
    sheet: u32,
    row: u32,
    column: u32,
    kind: u8,
    number: f64,
    index: u32,
    byte: u8,
) -> Answer
    ensures value { result ≡ answer_seen (corrected_of (correction_of s.old 0 0 sheet row column (new_value kind number index byte))) }
    ensures s_after { s.new ≡ stream_after s.old (correction_of s.old 0 0 sheet row column (new_value kind number index byte)) }
{
    let value = new_value(kind, number, index, byte);
    Answer::from(correction::correct(s, sheet, row, column, value))
}
