// The sheets of a stream, and the cells of a sheet one after the other. The check is made once, when a listing starts.
#![tactic(auto)]

ghost use Rattle.std.specs.Prelude.{◌≡◌, ◌+◌, ◌≤◌, length, take, drop, IfOk};
ghost use Rattle.steps.specs.Items.{nth};
ghost use Rattle.record.specs.Record.{header_at};
ghost use Rattle.globals.specs.Sheets.{sheets_of};
ghost use Rattle.reading.specs.Cells.{place_at, other_item, record_item, cell_item, listed_from};
ghost use Rattle.reading.specs.Reading.{name_at, width_at, type_at, start_by, rows_of, trailing_bytes};
ghost use Rattle.listing.specs.Listing.{sheet_of, name_of, first_sheet, next_sheet_of, cells_of, next_of, tokens_in};
ghost use Rattle.listing.specs.Parts.{item_of, found_sheet, sought_of, SoughtWithin, over_other, RowsBy};

use cell::{Cell, Found};
use globals::Boundsheets;
use reading::Place;
use record::Header;
use refusal::Refusal;
use sheet_agreement::SheetKind;

// A sheet: its type (0 worksheet, 1 macro, 2 chart), the bytes of a character of its name (1 or 2), its row count, up to 65,536.
#[derive(Clone, Copy)]
pub struct Description {
    pub type_byte: u8,
    pub width: usize,
    pub rows: u32,
}

// The next sheet: its BOUNDSHEET, the type and the width that it gives, where the sheet's cells start, and the place after it.
#[derive(Clone, Copy)]
pub struct NextSheet {
    pub header: usize,
    pub type_byte: u8,
    pub width: usize,
    pub cells: Place,
    pub next: usize,
}

// The next cell and the place after it.
#[derive(Clone, Copy)]
pub struct Listed {
    pub cell: Cell,
    pub next: Place,
}

// One step of a listing.
#[derive(Clone, Copy)]
pub enum Step {
    Gives { cell: Cell, next: Place },
    Skips(Place),
    Ends,
}

// One record of a count of rows: the highest row plus one that it has, 0 where it has no cell; and the place after it.
#[derive(Clone, Copy)]
struct RowStep {
    rows: u32,
    next: Place,
}

// A BOUNDSHEET: where its record stands, the BOF it names, and the kind it says.
#[derive(Clone, Copy)]
pub struct Sought {
    pub header: usize,
    pub position: u32,
    pub kind: SheetKind,
}

#[tactic(auto, unfolding(reading::specs::Cells::place_at))]
fn place_at(at: usize, level: u8) -> Place
    ensures { result ≡ place_at at level }
{
    Place { at, part: 0, level }
}

#[tactic(auto, using(crate::proofs::Laws::by_depth))]
fn other_item(v: Place, id: u16, end: usize) -> Step
    ensures { item_of result ≡ other_item v id end }
{
    match reading::past_record(id, v.level, end) {
        Some(next) => Step::Skips(next),
        None => Step::Ends,
    }
}

#[tactic(auto, using(crate::proofs::Laws::part_fits, std::proofs::lemmas::Bool::Decides::nat_tests), unfolding(reading::specs::Cells::record_item, reading::specs::Cells::next_part, steps::specs::Choice::pick))]
fn record_item(s: &[u8], v: Place, id: u16, size: usize, end: usize) -> Step
    requires { v.at + 4 + size ≤ length s.now }
    ensures { item_of result ≡ record_item s.now v id size end }
{
    if v.level == 0 {
        if let Some(found) = cell::record_cell(s, v.at, id, size, v.part) {
            let next = if found.left == 0 {
                place_at(end, v.level)
            } else {
                Place {
                    part: v.part + 1,
                    ..v
                }
            };
            return Step::Gives {
                cell: found.cell,
                next,
            };
        }
    }
    other_item(v, id, end)
}

// One step from a place on: a cell, a record that is passed over, or the end.
#[tactic(auto, using(crate::proofs::Laws::by_header, record::proofs::Laws::body_within))]
pub fn step_at(s: &[u8], v: Place) -> Step
    ensures { item_of result ≡ cell_item s.now v }
{
    match record::header_at(s, v.at) {
        Header::Record {
            kind: id,
            size,
            end,
        } => record_item(s, v, id, size, end),
        Header::Cut | Header::End => Step::Ends,
    }
}

// The next cell from a place on. It doesn't check the stream: `cells` has. Over other bytes, or from a made-up place, it has an answer too, and each
// place that it gives is nearer the end.
#[tactic(auto, using(crate::proofs::Laws::next_laws))]
pub fn next_cell(s: &[u8], from: Place) -> Option<Listed>
    ensures { result ≡ next_of s.now from }
{
    let mut v = from;
    // The record itself says where the next one starts: there is no index to count.
    loop {
        match step_at(s, v) {
            Step::Gives { cell, next } => {
                return Some(Listed { cell, next });
            }
            Step::Skips(next) => {
                v = reading::past_from(s, next);
            }
            Step::Ends => {
                return None;
            }
        }
    }
}

// The cells of a listing from a place on, in order.
#[derive(Clone, Copy)]
pub struct ListedCells<'a> {
    pub stream: &'a [u8],
    pub place: Place,
}

impl<'a> Iterator for ListedCells<'a> {
    ghost use Rattle.std.specs.Iterator.{YieldsFirst, item_count};
    ghost use Rattle.listing.specs.Left.{left};

    type Item = Cell;

    ghost next_gives = { YieldsFirst left };

    ghost remaining = { item_count left };

    #[inline(always)]
    #[tactic(auto, using(crate::proofs::Laws::cell_given, crate::proofs::Laws::no_cell))]
    fn next(&mut self) -> Option<Cell> {
        let listed = next_cell(self.stream, self.place)?;
        self.place = listed.next;
        Some(listed.cell)
    }
}

// Sheet n, counted from 0 in BOUNDSHEET order.
pub fn find_sheet(s: &[u8], n: u32) -> Option<Sought>
    ensures value { result ≡ nth (sheets_of s.now) n found_sheet None }
    ensures sought_within { SoughtWithin (length s.now) result }
{
    let sheet = Boundsheets::of(s).nth(n as usize)?;
    Some(Sought {
        header: sheet.header,
        position: sheet.position,
        kind: sheet.kind,
    })
}

#[tactic(auto, unfolding(reading::specs::Reading::start_by, steps::specs::Choice::pick))]
pub fn first_place(s: &[u8], position: u32, kind: SheetKind) -> Place
    ensures { result ≡ start_by (length s.now) position kind }
{
    match kind {
        SheetKind::Worksheet => place_at(position as usize + 20, 0),
        _ => place_at(s.len(), 0),
    }
}

// The BOUNDSHEET of sheet n of a stream that passes.
#[tactic(auto, using(crate::proofs::Laws::checked_laws))]
fn checked_sheet(s: &[u8], n: u32) -> Result<Sought, Refusal>
    ensures value { result ≡ sought_of s.now n }
    ensures sought_within { IfOk result (λ x. x.header + 12 ≤ length s.now) }
{
    workbook::check_with(s, 0)?;
    find_sheet(s, n).ok_or(Refusal {
        number: 11,
        offset: 0,
    })
}

// Where the listing of sheet n starts.
#[tactic(auto, using(crate::proofs::Laws::cells_by))]
pub fn cells(s: &[u8], n: u32) -> Result<Place, Refusal>
    ensures { result ≡ cells_of s.now n }
{
    let sheet = checked_sheet(s, n)?;
    Ok(first_place(s, sheet.position, sheet.kind))
}

// The name of the sheet whose BOUNDSHEET has its header there.
#[tactic(auto, using(record::proofs::Laws::whole, std::proofs::lemmas::Bool::Decides::nat_tests), unfolding(reading::specs::Reading::name_at, steps::specs::Choice::pick))]
pub fn name_at(s: &[u8], header: usize) -> &[u8]
    ensures { result.now ≡ name_at s.now header }
{
    match record::header_at(s, header) {
        Header::Record { size, end, .. } if size >= 8 => &s[header + 12..end],
        _ => &s[0..0],
    }
}

// The name of sheet n as a part of the stream; empty where the stream is refused or has no such sheet.
#[tactic(auto, using(crate::proofs::Laws::name_by_lem))]
pub fn sheet_name(s: &[u8], n: u32) -> &[u8]
    ensures { result.now ≡ name_of s.now n }
{
    match checked_sheet(s, n) {
        Ok(sheet) => name_at(s, sheet.header),
        Err(_) => &s[0..0],
    }
}

// ---- the row count: a record has one row, so its cells needn't be looked at one by one

// Past a record that has no cell here.
#[tactic(auto, using(crate::proofs::RowCount::row_laws))]
fn other_rows(v: Place, id: u16, end: usize) -> Option<RowStep>
    ensures { result ≡ over_other (other_item v id end) }
{
    match other_item(v, id, end) {
        Step::Skips(next) => Some(RowStep { rows: 0, next }),
        Step::Gives { .. } | Step::Ends => None,
    }
}

#[tactic(auto, using(crate::proofs::RowCount::row_laws))]
fn record_rows(s: &[u8], v: Place, id: u16, size: usize, end: usize) -> Option<RowStep>
    requires { (v.at + 4 + size ≤ length s.now) × (header_at s.now v.at ≡ Header.Record id size end) }
    ensures { RowsBy s.now v result }
{
    let at = v.at;
    if v.level != 0 {
        return other_rows(v, id, end);
    }
    if v.part < cell::cell_count(s, at, id, size) {
        return Some(RowStep {
            rows: u32::from(byte_numbers::u16_at(s, at + 4)) + 1,
            next: place_at(end, 0),
        });
    }
    other_rows(v, id, end)
}

#[tactic(auto, using(crate::proofs::RowCount::row_laws, record::proofs::Laws::body_within))]
fn row_step(s: &[u8], v: Place) -> Option<RowStep>
    ensures { RowsBy s.now v result }
{
    match record::header_at(s, v.at) {
        Header::Record {
            kind: id,
            size,
            end,
        } => record_rows(s, v, id, size, end),
        Header::Cut | Header::End => None,
    }
}

// The row count of the cells from a place on.
pub fn rows(s: &[u8], from: Place) -> u32
    ensures { result ≡ rows_of (listed_from s.now from) }
{
    let mut most: u32 = 0;
    let mut v = from;
    // The record itself says where the next one starts: there is no index to count.
    while let Some(step) = row_step(s, v) {
        most = most.max(step.rows);
        v = step.next;
    }
    most
}

// ---- the sheets

fn type_at(s: &[u8], header: usize) -> u8
    requires { header + 12 ≤ length s.now }
    ensures { result ≡ type_at s.now header }
{
    s[header + 9]
}

fn width_at(s: &[u8], header: usize) -> usize
    requires { header + 12 ≤ length s.now }
    ensures { result ≡ width_at s.now header }
{
    segments::width_of(s[header + 11])
}

// Sheet n.
#[tactic(auto, using(crate::proofs::Laws::sheet_by))]
pub fn sheet(s: &[u8], n: u32) -> Result<Description, Refusal>
    ensures { result ≡ sheet_of s.now n }
{
    let sheet = checked_sheet(s, n)?;
    Ok(Description {
        type_byte: type_at(s, sheet.header),
        width: width_at(s, sheet.header),
        rows: rows(s, first_place(s, sheet.position, sheet.kind)),
    })
}

// Where the sheet list starts, for `next_sheet`: after the globals' BOF. Whoever has checked the stream needs no second check.
pub fn first_sheet() -> usize
    ensures { result ≡ first_sheet }
{
    20
}

// The next sheet from a place on. Like `next_cell` it doesn't check the stream, has an answer for all bytes and places, and comes nearer the end.
#[tactic(auto, using(globals::proofs::Sheets::some_room), unfolding(crate::specs::Listing::next_sheet_of))]
pub fn next_sheet(s: &[u8], from: usize) -> Option<NextSheet>
    ensures { result ≡ next_sheet_of s.now from }
{
    let sheet = globals::next_sheet(s, from)?;
    Some(NextSheet {
        header: sheet.header,
        type_byte: type_at(s, sheet.header),
        width: width_at(s, sheet.header),
        cells: first_place(s, sheet.position, sheet.kind),
        next: sheet.next,
    })
}

// ---- a formula's tokens, as a part of the stream

#[tactic(auto, using(std::proofs::lemmas::Bool::Decides::nat_tests), unfolding(crate::specs::Listing::tokens_in, cell::specs::Cells::tokens_of, steps::specs::Choice::pick))]
pub fn tokens(s: &[u8], cell: Cell) -> &[u8]
    ensures { result.now ≡ tokens_in s.now cell }
{
    let start = cell.tokens.start;
    let size = usize::from(cell.tokens.length);
    if s.len() < start || s.len() - start < size {
        return &s[0..0];
    }
    &s[start..start + size]
}

// ---- the bytes of a formula's record after its tokens

// So many bytes from a place on, or those that are there.
#[tactic(auto, using(std::proofs::lemmas::List::take_all))]
fn bytes_from(s: &[u8], from: usize, count: usize) -> &[u8]
    requires { from ≤ length s.now }
    ensures { result.now ≡ take count (drop from s.now) }
{
    let rest = &s[from..];
    &rest[..count.min(rest.len())]
}

#[tactic(auto, using(std::proofs::lemmas::Bool::Decides::nat_tests), unfolding(reading::specs::Reading::trailing_bytes, reading::specs::Reading::trailing_size, steps::specs::Choice::pick))]
pub fn trailing_bytes(s: &[u8], cell: Cell) -> &[u8]
    ensures { result.now ≡ trailing_bytes s.now cell }
{
    let start = cell.tokens.start;
    let tokens = usize::from(cell.tokens.length);
    if start < 26 || s.len() < start || s.len() - start < tokens {
        return &s[0..0];
    }
    let size = usize::from(byte_numbers::u16_at(s, start - 24));
    if size < 22 + tokens {
        return &s[0..0];
    }
    bytes_from(s, start + tokens, size - (22 + tokens))
}
