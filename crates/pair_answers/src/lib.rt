// The answers over a template and a session in plain numbers, as C has them: whose is 1 for the template, 2 for the session, 0 for neither.
#![tactic(auto)]

ghost use Rattle.std.specs.Prelude.{◌≡◌};
ghost use Rattle.new_value.specs.declared.NewValue.{NewValue};
ghost use Rattle.pair.specs.Pair.{pair_of, pair_sheet_of, pair_cells_of, pair_correction_of, answer_of, session_after};
ghost use Rattle.pair_texts.specs.Texts.{pair_fetch_of, pair_buffer_of, pair_text_of, pair_text_buffer};
ghost use Rattle.pair_texts.specs.Tables.{pair_fill_of, template_table_after, session_table_after};
ghost use Rattle.pair_answers.specs.Answers.{whose_number, of_number, stream_of, whose_asked, check_seen, sheet_seen, cells_seen, units_seen, answer_seen, filled_seen};

use globals::Globals;
use new_value::NewValue;
use pair::{Of, PairRefusal, Whose};
use pair_texts::PairFetched;

// What the check tells of one stream: its sheets and strings, and where its first string is.
#[derive(Clone, Copy)]
pub struct Stream {
    pub sheets: usize,
    pub strings: u32,
    pub segment: usize,
    pub at: usize,
    pub end: usize,
}

// Of both streams: first the template's sheets, strings and place, then the session's. `table` says in whose table the session's indices resolve.
#[repr(C)]
#[derive(Clone, Copy, Default)]
pub struct Check {
    pub whose: u8,
    pub number: u8,
    pub offset: usize,
    pub table: u8,
    pub sheet: usize,
    pub sheets: usize,
    pub strings: u32,
    pub segment: usize,
    pub at: usize,
    pub end: usize,
    pub ownsheets: usize,
    pub ownstrings: u32,
    pub ownsegment: usize,
    pub ownat: usize,
    pub ownend: usize,
}

// A sheet: its BOUNDSHEET, 12 bytes after whose header its name starts, the name's bytes, the bytes of a character, its type and its rows.
#[repr(C)]
#[derive(Clone, Copy, Default)]
pub struct Sheet {
    pub whose: u8,
    pub number: u8,
    pub offset: usize,
    pub header: usize,
    pub size: usize,
    pub width: usize,
    pub kind: u8,
    pub rows: u32,
}

// Where a listing starts.
#[repr(C)]
#[derive(Clone, Copy, Default)]
pub struct Cells {
    pub whose: u8,
    pub number: u8,
    pub offset: usize,
    pub at: usize,
    pub part: u16,
    pub level: u8,
}

#[repr(C)]
#[derive(Clone, Copy, Default)]
pub struct Units {
    pub whose: u8,
    pub number: u8,
    pub offset: usize,
    pub units: usize,
}

#[repr(C)]
#[derive(Clone, Copy, Default)]
pub struct Answer {
    pub whose: u8,
    pub number: u8,
    pub offset: usize,
}

// Of how many strings of the template and of the session the tables have the places.
#[repr(C)]
#[derive(Clone, Copy, Default)]
pub struct Filled {
    pub whose: u8,
    pub number: u8,
    pub offset: usize,
    pub strings: u32,
    pub ownstrings: u32,
}

pub fn of_number(of: Of) -> u8
    ensures { result ≡ of_number of }
{
    match of {
        Of::Question => 0,
        Of::Template => 1,
        Of::Session => 2,
    }
}

fn whose_number(whose: Whose) -> u8
    ensures { result ≡ whose_number whose }
{
    of_number(Of::from(whose))
}

// Whose index is asked: the template's by 1, the session's by any other number.
#[tactic(auto, unfolding(crate::specs::Answers::whose_asked, steps::specs::Choice::pick))]
fn whose_asked(asked: u8) -> Whose
    ensures { result ≡ whose_asked asked }
{
    if asked == 1 {
        Whose::Template
    } else {
        Whose::Session
    }
}

#[tactic(auto, unfolding(crate::specs::Answers::stream_of))]
fn stream_of(s: &[u8], g: Globals) -> Stream
    ensures { result ≡ stream_of s.now g.table g.unique }
{
    let first = fetch::first_string(s, g.table);
    Stream {
        sheets: workbook::sheet_count(s),
        strings: string_places::count_of(g.table, g.unique),
        segment: first.seg,
        at: first.at,
        end: first.end,
    }
}

pub fn check_seen(template: &[u8], session: &[u8]) -> Check
    ensures { result ≡ check_seen template.now session.now (pair_of template.now session.now) }
{
    match pair::pair_check(template, session) {
        Ok(both) => {
            let a = stream_of(template, both.template);
            let b = stream_of(session, both.session);
            Check {
                table: whose_number(pair_texts::whose_table(Whose::Session, both.session)),
                sheet: listing::first_sheet(),
                sheets: a.sheets,
                strings: a.strings,
                segment: a.segment,
                at: a.at,
                end: a.end,
                ownsheets: b.sheets,
                ownstrings: b.strings,
                ownsegment: b.segment,
                ownat: b.at,
                ownend: b.end,
                ..Check::default()
            }
        }
        Err(r) => Check {
            whose: whose_number(r.whose),
            number: r.number,
            offset: r.offset,
            ..Check::default()
        },
    }
}

#[tactic(auto, using(crate::proofs::Laws::name_by))]
pub fn sheet_seen(template: &[u8], session: &[u8], n: u32) -> Sheet
    ensures { result ≡ sheet_seen template.now session.now (pair_sheet_of template.now session.now n) }
{
    match pair::pair_sheet(template, session, n) {
        Ok(x) => Sheet {
            whose: whose_number(x.whose),
            header: x.header,
            size: listing::name_at(x.whose.stream(template, session), x.header).len(),
            width: x.width,
            kind: x.type_byte,
            rows: x.rows,
            ..Sheet::default()
        },
        Err(r) => Sheet {
            whose: of_number(r.of),
            number: r.number,
            offset: r.offset,
            ..Sheet::default()
        },
    }
}

pub fn cells_seen(template: &[u8], session: &[u8], n: u32) -> Cells
    ensures { result ≡ cells_seen (pair_cells_of template.now session.now n) }
{
    match pair::pair_cells(template, session, n) {
        Ok(x) => Cells {
            whose: whose_number(x.whose),
            at: x.place.at,
            part: x.place.part,
            level: x.place.level,
            ..Cells::default()
        },
        Err(r) => Cells {
            whose: of_number(r.of),
            number: r.number,
            offset: r.offset,
            ..Cells::default()
        },
    }
}

fn units_seen(answer: Result<PairFetched, PairRefusal>) -> Units
    ensures { result ≡ units_seen answer }
{
    match answer {
        Ok(x) => Units {
            whose: whose_number(x.whose),
            units: x.units,
            ..Units::default()
        },
        Err(r) => Units {
            whose: of_number(r.of),
            number: r.number,
            offset: r.offset,
            units: 0,
        },
    }
}

pub fn fetch_seen(template: &[u8], session: &[u8], asked: u8, index: u32, buf: &mut [u16]) -> Units
    ensures value { result ≡ units_seen (pair_fetch_of template.now session.now (whose_asked asked) index buf.old) }
    ensures buf_after { buf.new ≡ pair_buffer_of template.now session.now (whose_asked asked) index buf.old }
{
    let whose = whose_asked(asked);
    units_seen(pair_texts::pair_fetch(template, session, whose, index, buf))
}

pub fn text_seen(
    template: &[u8],
    session: &[u8],
    n: u32,
    row: u32,
    column: u32,
    buf: &mut [u16],
) -> Units
    ensures value { result ≡ units_seen (pair_text_of template.now session.now n row column buf.old) }
    ensures buf_after { buf.new ≡ pair_text_buffer template.now session.now n row column buf.old }
{
    units_seen(pair_texts::pair_text(template, session, n, row, column, buf))
}

pub fn answer_seen(answer: Result<(), PairRefusal>) -> Answer
    ensures { result ≡ answer_seen answer }
{
    match answer {
        Ok(()) => Answer {
            whose: whose_number(Whose::Session),
            number: 0,
            offset: 0,
        },
        Err(r) => Answer {
            whose: of_number(r.of),
            number: r.number,
            offset: r.offset,
        },
    }
}

pub fn correct_seen(
    template: &[u8],
    session: &mut [u8],
    n: u32,
    row: u32,
    column: u32,
    value: NewValue,
) -> Answer
    ensures value { result ≡ answer_seen (answer_of (pair_correction_of template.now session.old n row column value)) }
    ensures session_after { session.new ≡ session_after session.old (pair_correction_of template.now session.old n row column value) }
{
    answer_seen(pair::pair_correct(template, session, n, row, column, value))
}

pub fn fill_seen(template: &[u8], session: &[u8], first: &mut [u32], second: &mut [u32]) -> Filled
    ensures value { result ≡ filled_seen (pair_fill_of template.now session.now first.old second.old) }
    ensures first_after { first.new ≡ template_table_after template.now session.now first.old second.old }
    ensures second_after { second.new ≡ session_table_after template.now session.now first.old second.old }
{
    match pair_texts::pair_fill(template, session, first, second) {
        Ok(x) => Filled {
            strings: x.template,
            ownstrings: x.session,
            ..Filled::default()
        },
        Err(r) => Filled {
            whose: of_number(r.of),
            number: r.number,
            offset: r.offset,
            ..Filled::default()
        },
    }
}
