// Correct one cell of a sheet in place.
#![tactic(auto)]

ghost use Rattle.std.specs.Prelude.{◌≡◌, ◌+◌, ◌*◌, ◌≤◌, length};
ghost use Rattle.cell.specs.Cells.{shape_of, field_of, part_of, start_of};
ghost use Rattle.new_value.specs.Change.{Held};
ghost use Rattle.reading.specs.Cells.{place_at, listed_from};
ghost use Rattle.correction.specs.Correction.{cells_at, no_sheet, correction_in, correction_of, answer_of, stream_after};
ghost use Rattle.correction.specs.Parts.{target_of, with_one, in_row, field_of_cell, met_of, on_target, aim_in, TargetWithin, AimWithin};

use new_value::NewValue;
use reading::Scanned;
use refusal::Refusal;
use value::Field;

// The cells of an address: none, one with its value field, or more.
#[derive(Clone, Copy)]
pub enum Target {
    None,
    One { kind: Field, field: usize },
    Many,
}

// What a correction is aimed at: the value field of the one cell, and the unique count of strings.
#[derive(Clone, Copy)]
pub struct Aim {
    pub kind: Field,
    pub field: usize,
    pub unique: u32,
}

#[tactic(auto, unfolding(cell::specs::Cells::shape_of, steps::specs::Choice::pick))]
fn field_kind(id: u16) -> Field
    ensures { result ≡ field_of (shape_of id) }
{
    match id {
        0x0203 => Field::Float,
        0x027E | 0x00BD => Field::RkWord,
        0x00FD => Field::TextIndex,
        0x0205 => Field::TruthError,
        0x0006 => Field::StoredResult,
        _ => Field::NoField,
    }
}

fn part_size(kind: Field) -> usize
    ensures { result ≡ part_of kind }
{
    match kind {
        Field::StoredResult => 18,
        _ => 2 + value::width_of(kind),
    }
}

fn field_start(kind: Field) -> usize
    ensures { result ≡ start_of kind }
{
    match kind {
        Field::NoField => 0,
        _ => 2,
    }
}

// The value field of the k-th cell of the record at `at`.
#[tactic(auto, using(crate::proofs::Laws::place_laws), unfolding(crate::specs::Parts::field_of_cell))]
fn field_at(id: u16, at: usize, k: usize) -> Target
    requires { (at ≤ 16777216) × (k ≤ 256) }
    ensures { result ≡ field_of_cell id at k }
{
    let kind = field_kind(id);
    let field = at + 8 + k * part_size(kind) + field_start(kind);
    Target::One { kind, field }
}

// Whether a row of so many cells from a column on has the address.
// Only this crate and `cell_text` call it, each for the cells of one record, of which there are at most 256.
#[tactic(auto, using(std::proofs::lemmas::Bool::Decides::nat_tests), unfolding(crate::specs::Parts::in_row, steps::specs::Choice::pick))]
pub fn row_has(here: u16, first: u16, count: u16, row: u32, column: u32) -> bool
    requires { count ≤ 256 }
    ensures { result ≡ in_row here first count row column }
{
    let first = u32::from(first);
    u32::from(here) == row && first <= column && column < first + u32::from(count)
}

fn with_one(found: Target, one: Target) -> Target
    ensures { result ≡ with_one found one }
{
    match found {
        Target::None => one,
        Target::One { .. } | Target::Many => Target::Many,
    }
}

// What was found, with the cell of the address in this row, if it has one.
// Only this crate and `address_lookup` call it, each for the cells of one record, at most 256, of a stream that is not too long.
#[tactic(auto, using(crate::proofs::Laws::met_column), unfolding(crate::specs::Parts::met_of, steps::specs::Choice::pick))]
pub fn with_cell(
    found: Target,
    id: u16,
    at: usize,
    here: u16,
    first: u16,
    count: u16,
    row: u32,
    column: u32,
) -> Target
    requires { (count ≤ 256) × (at ≤ 16777216) }
    ensures { result ≡ met_of found id at here first count row column }
{
    if row_has(here, first, count, row, column) {
        let k = column - u32::from(first);
        return with_one(found, field_at(id, at, k as usize));
    }
    found
}

// The cells of an address, in the listing that starts at the record at `from`.
#[tactic(auto, using(crate::proofs::Laws::find_laws))]
fn find(s: &[u8], from: usize, row: u32, column: u32) -> Target
    requires { length s.now ≤ 16777216 }
    ensures value { result ≡ target_of (cells_at row column (listed_from s.now (place_at from 0))) }
    ensures target_within { TargetWithin (length s.now) result }
{
    let mut at = from;
    let mut level: u8 = 0;
    let mut found = Target::None;
    // The record itself says where the next one starts: there is no index to count.
    while let Some(scanned) = reading::scan(s, at, level) {
        match scanned {
            Scanned::Cells(cells) => {
                found = with_cell(
                    found,
                    cells.id,
                    at,
                    cells.row,
                    cells.first,
                    cells.count,
                    row,
                    column,
                );
                at = cells.next;
            }
            Scanned::Past(next) => {
                at = reading::past_others(s, next.at, next.level);
                level = next.level;
            }
        }
    }
    found
}

fn refused(number: u8) -> Refusal
    ensures { result ≡ record { number = number; offset = 0 } }
{
    Refusal { number, offset: 0 }
}

fn on_target(found: Target, unique: u32) -> Result<Aim, Refusal>
    ensures { result ≡ on_target unique found }
{
    match found {
        Target::None => Err(refused(11)),
        Target::One { kind, field } => Ok(Aim {
            kind,
            field,
            unique,
        }),
        Target::Many => Err(refused(16)),
    }
}

// The refusal for a sheet that the stream hasn't, under a template of so many sheets.
#[tactic(auto, using(std::proofs::lemmas::Bool::Decides::nat_tests), unfolding(crate::specs::Correction::no_sheet, steps::specs::Choice::pick))]
fn no_sheet(sheets: usize, n: u32) -> u8
    ensures { result ≡ no_sheet sheets n }
{
    if (n as usize) < sheets { 17 } else { 11 }
}

// The one cell of an address in a sheet of a stream that passes, with `unique` strings, under a template of so many sheets.
// Only this crate and those above it call it, each after the check.
#[tactic(auto, using(crate::proofs::Laws::aim_laws))]
pub fn cell_of_address(
    s: &[u8],
    unique: u32,
    sheets: usize,
    sheet: u32,
    row: u32,
    column: u32,
) -> Result<Aim, Refusal>
    requires { length s.now ≤ 16777216 }
    ensures value { result ≡ aim_in s.now unique sheets sheet row column }
    ensures aim_within { AimWithin (length s.now) result }
{
    let sheet = listing::find_sheet(s, sheet).ok_or(refused(no_sheet(sheets, sheet)))?;
    let start = listing::first_place(s, sheet.position, sheet.kind);
    on_target(find(s, start.at, row, column), unique)
}

// Correct a cell of a stream that passes, with `unique` strings, under a template of so many sheets: the value goes into its value field, and no other byte
// changes; on a refusal none does.
// Only this crate and `pair` call it, each after the check.
#[tactic(auto, using(crate::proofs::Laws::correct_laws))]
pub fn correct_in(
    s: &mut [u8],
    unique: u32,
    sheets: usize,
    sheet: u32,
    row: u32,
    column: u32,
    value: NewValue,
) -> Result<(), Refusal>
    requires { length s.old ≤ 16777216 }
    ensures value { result ≡ answer_of (correction_in s.old unique sheets sheet row column value) }
    ensures s_after { s.new ≡ stream_after s.old (correction_in s.old unique sheets sheet row column value) }
    ensures held { Held value }
{
    let aim = cell_of_address(&s[..], unique, sheets, sheet, row, column)?;
    new_value::write_value(s, aim.kind, aim.field, value, aim.unique)
}

// Correct a cell. That the value is one that its type holds is what the claims on a correction stand on.
#[tactic(auto, using(crate::proofs::Laws::checked_laws, workbook::proofs::Laws::short))]
pub fn correct(
    s: &mut [u8],
    sheet: u32,
    row: u32,
    column: u32,
    value: NewValue,
) -> Result<(), Refusal>
    ensures value { result ≡ answer_of (correction_of s.old 0 0 sheet row column value) }
    ensures s_after { s.new ≡ stream_after s.old (correction_of s.old 0 0 sheet row column value) }
    ensures held { Held value }
{
    let g = workbook::check_with(&s[..], 0)?;
    correct_in(s, g.unique, 0, sheet, row, column, value)
}
