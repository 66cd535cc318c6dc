// The session profile: whether a stream is of the kind that the sensors write.
#![tactic(auto)]

ghost use Rattle.std.specs.Prelude.{◌≡◌, ◌<◌, ◌/◌, ◌%◌, OnSome};
ghost use Rattle.reading.specs.Cells.{listed_from};
ghost use Rattle.listing.specs.Listing.{next_of};
ghost use Rattle.profile.specs.Placed.{placed_from};
ghost use Rattle.profile.specs.Profile.{limit_of, amount_in, columns_of, amount_at, seconds_after, ended_at, judged_from, profile_at, profile_of};
ghost use Rattle.profile.specs.Parts.{count_of, listed_in, on_placed, third_cell, outside};

use cell::Cell;
use listing::{ListedCells, Sought, Step};
use reading::Place;
use refusal::Refusal;
use sheet_agreement::SheetKind;
use value::CellValue;

// The next cell with the offset of its record's header, and the place after it.
#[derive(Clone, Copy)]
pub struct NextPlaced {
    pub at: usize,
    pub cell: Cell,
    pub next: Place,
}

// How many rows and columns, and where the cells start.
#[derive(Clone, Copy)]
pub struct Session {
    pub rows: u32,
    pub columns: u32,
    pub cells: Place,
}

// The next cell from a place on, as `listing::next_cell` gives it, and where its record stands.
#[tactic(auto, using(crate::proofs::Placed::placed_laws))]
pub fn next_with_record(s: &[u8], from: Place) -> Option<NextPlaced>
    ensures result_value { listed_in result ≡ next_of s.now from }
    ensures from_value { placed_from s.now from ≡ on_placed s.now result }
{
    let mut v = from;
    // The record itself says where the next one starts: there is no index to count.
    loop {
        match listing::step_at(s, v) {
            Step::Gives { cell, next } => {
                return Some(NextPlaced {
                    at: v.at,
                    cell,
                    next,
                });
            }
            Step::Skips(next) => {
                v = reading::past_from(s, next);
            }
            Step::Ends => {
                return None;
            }
        }
    }
}

// The listed cells from a place on, in order, each with the offset of its record's header.
#[derive(Clone, Copy)]
struct PlacedCells<'a> {
    stream: &'a [u8],
    place: Place,
}

impl<'a> Iterator for PlacedCells<'a> {
    ghost use Rattle.std.specs.Iterator.{YieldsFirstBy, item_count};
    ghost use Rattle.profile.specs.Left.{placed, left};

    type Item = NextPlaced;

    ghost next_gives = { YieldsFirstBy placed left };

    ghost remaining = { item_count left };

    #[inline(always)]
    #[tactic(auto, using(crate::proofs::Laws::placed_none, crate::proofs::Laws::placed_some))]
    fn next(&mut self) -> Option<NextPlaced> {
        let placed = next_with_record(self.stream, self.place)?;
        self.place = placed.next;
        Some(placed)
    }
}

// ---- how many columns a session has, and where its i-th cell stands

#[derive(Clone, Copy)]
enum Columns {
    Two,
    Three,
}

impl Columns {
    fn count(self) -> u32
        ensures { result ≡ count_of self }
    {
        match self {
            Columns::Two => 2,
            Columns::Three => 3,
        }
    }

    fn row(self, i: u32) -> u32
        ensures { result ≡ i / count_of self }
    {
        match self {
            Columns::Two => i / 2,
            Columns::Three => i / 3,
        }
    }

    fn column(self, i: u32) -> u32
        ensures { result ≡ i % count_of self }
    {
        match self {
            Columns::Two => i % 2,
            Columns::Three => i % 3,
        }
    }
}

// ---- a cell

#[tactic(auto, unfolding(crate::specs::Profile::limit_of, steps::specs::Choice::pick))]
fn limit_of(column: u32) -> u32
    ensures { result ≡ limit_of column }
{
    if column == 2 { u32::MAX } else { 65535 }
}

// What a value says in a column: the whole number, within the column's limit.
pub fn amount_in(column: u32, value: CellValue) -> Option<u32>
    ensures { result ≡ amount_in column value }
{
    match value {
        CellValue::Number(x) => number::amount_of(limit_of(column), number::bits_of(x)),
        _ => None,
    }
}

// What the i-th cell says, if it breaks nothing; then it is in one of the first 65,536 rows.
#[tactic(auto, using(std::proofs::lemmas::Bool::Decides::nat_tests), unfolding(crate::specs::Profile::amount_at, steps::specs::Choice::pick))]
fn amount_at(columns: Columns, i: u32, seconds: u32, cell: Cell) -> Option<u32>
    ensures value { result ≡ amount_at (count_of columns) i seconds cell }
    ensures early { OnSome result (i < 196608) }
{
    let column = columns.column(i);
    if u32::from(cell.row) != columns.row(i) || u32::from(cell.column) != column {
        return None;
    }
    let n = amount_in(column, cell.value)?;
    if column == 2 && n < seconds {
        return None;
    }
    Some(n)
}

#[tactic(auto, unfolding(crate::specs::Profile::seconds_after, steps::specs::Choice::pick))]
fn seconds_after(column: u32, seconds: u32, n: u32) -> u32
    ensures { result ≡ seconds_after column seconds n }
{
    if column == 2 { n } else { seconds }
}

// ---- the cells

// The third listed cell from a place on.
fn third_cell(s: &[u8], from: Place) -> Option<Cell>
    ensures { result ≡ third_cell (listed_from s.now from) }
{
    let mut cells = ListedCells {
        stream: s,
        place: from,
    };
    cells.nth(2)
}

#[tactic(auto, using(crate::proofs::Laws::columns_by, std::proofs::lemmas::Bool::Decides::nat_tests), unfolding(crate::specs::Profile::third_of, steps::specs::Choice::pick))]
fn columns_from(s: &[u8], from: Place) -> Columns
    ensures { count_of result ≡ columns_of (listed_from s.now from) }
{
    match third_cell(s, from) {
        Some(cell) if cell.row == 0 && cell.column == 2 => Columns::Three,
        _ => Columns::Two,
    }
}

fn outside(offset: usize) -> Refusal
    ensures { result ≡ outside offset }
{
    Refusal { number: 20, offset }
}

#[tactic(auto, unfolding(crate::specs::Profile::ended_at, steps::specs::Choice::pick))]
fn ended(columns: Columns, i: u32) -> Result<u32, Refusal>
    ensures { result ≡ ended_at (count_of columns) i }
{
    if columns.column(i) == 0 {
        return Ok(columns.row(i));
    }
    Err(outside(0))
}

// How many rows, or the record of the first cell that breaks the profile.
#[tactic(auto, using(crate::proofs::Laws::judge_laws))]
fn judge(s: &[u8], columns: Columns, from: Place) -> Result<u32, Refusal>
    ensures { result ≡ judged_from (count_of columns) 0 0 (placed_from s.now from) }
{
    let mut i: u32 = 0;
    let mut seconds: u32 = 0;
    for placed in (PlacedCells {
        stream: s,
        place: from,
    }) {
        let n = amount_at(columns, i, seconds, placed.cell).ok_or(outside(placed.at))?;
        seconds = seconds_after(columns.column(i), seconds, n);
        i += 1;
    }
    ended(columns, i)
}

// ---- the stream

#[tactic(auto, unfolding(crate::specs::Profile::profile_at))]
fn profile_at(s: &[u8], from: Place) -> Result<Session, Refusal>
    ensures { result ≡ profile_at s.now from }
{
    let columns = columns_from(s, from);
    let rows = judge(s, columns, from)?;
    Ok(Session {
        rows,
        columns: columns.count(),
        cells: from,
    })
}

// Whether a stream is inside the profile.
#[tactic(auto, using(crate::proofs::Laws::profile_laws))]
pub fn profile(s: &[u8]) -> Result<Session, Refusal>
    ensures { result ≡ profile_of s.now }
{
    workbook::check_with(s, 0)?;
    match listing::find_sheet(s, 0) {
        Some(
            Sought {
                position,
                kind: SheetKind::Worksheet,
                ..
            },
        ) if listing::find_sheet(s, 1).is_none() => {
            profile_at(s, listing::first_place(s, position, SheetKind::Worksheet))
        }
        _ => Err(outside(0)),
    }
}
