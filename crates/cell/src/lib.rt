// One cell record of a worksheet: whether it is right, and its cells.
#![tactic(auto, using(crate::proofs::Sizes::product_fits, crate::proofs::Sizes::size_fits, crate::proofs::Sizes::multiple_parts), unfolding(crate::specs::Cells::shape_of, crate::specs::Cells::first_at, crate::specs::Cells::last_at, crate::specs::Cells::row_at, crate::specs::Cells::length_at, crate::specs::Cells::sized, crate::specs::Cells::columns, crate::specs::Cells::multiple, crate::specs::Cells::field_at, crate::specs::Cells::cell_from, crate::specs::Cells::cell_of, crate::specs::Cells::found_of, crate::specs::Cells::fields_fit, crate::specs::Cells::judged, crate::specs::Cells::judge_of, crate::specs::Parts::formula_sized, steps::specs::Choice::pick))]

ghost use Rattle.std.specs.Prelude.{◌≡◌, ◌+◌, ◌*◌, ◌≤◌, ◌<◌, length};
ghost use Rattle.cell.specs.Cells.{shape_of, part_of, start_of, first_at, last_at, sized, columns, multiple, count_of, field_at, tokens_at, found_of, fields_fit, judge_of};
ghost use Rattle.cell.specs.Parts.{judged_in, formula_sized, found_in};
ghost use Rattle.value.specs.Value.{value_of, value_fits};

use refusal::Refusal;
use value::{CellValue, Field};

// The cell records; OTHER is any other record.
#[derive(Clone, Copy)]
pub enum Shape {
    BLANK,
    NUMBER,
    RK,
    LABELSST,
    BOOLERR,
    MULRK,
    MULBLANK,
    FORMULA,
    OTHER,
}

// A formula's tokens, as a part of the stream; of a cell that is no formula none, at 0.
#[derive(Clone, Copy)]
pub struct Tokens {
    pub start: usize,
    pub length: u16,
}

// `field` is where the value field starts, of a blank its format.
#[derive(Clone, Copy)]
pub struct Cell {
    pub row: u16,
    pub column: u16,
    pub value: CellValue,
    pub tokens: Tokens,
    pub format: u16,
    pub kind: Field,
    pub field: usize,
}

// A cell, and how many of its record come after it.
#[derive(Clone, Copy)]
pub struct Found {
    pub cell: Cell,
    pub left: u16,
}

// ---- sizes

// Stream, place and size stay three parameters in what follows: a refusal's offset is the stream's, and a struct of them would be made anew for each record to say no more than this clause.
// How many columns a multiple record says it has; none where they are out of order or over 255.
fn columns(s: &[u8], at: usize, size: usize) -> u16
    requires { (at + 4 + size ≤ length s.now) × (6 ≤ size) }
    ensures { result ≡ columns (first_at s.now at) (last_at s.now at size) }
{
    let first = byte_numbers::u16_at(s, at + 6);
    let last = byte_numbers::u16_at(s, at + 2 + size);
    if last < first || 255 < last {
        return 0;
    }
    last + 1 - first
}

// How many cells a multiple record has, of `part` bytes each; none where its size is wrong.
pub fn multiple_count(s: &[u8], at: usize, size: usize, part: usize) -> u16
    requires { (at + 4 + size ≤ length s.now) × (part ≤ 6) }
    ensures { result ≡ multiple s.now at size part }
{
    if size < 6 {
        return 0;
    }
    let n = columns(s, at, size);
    if size == 6 + part * usize::from(n) {
        return n;
    }
    0
}

// ---- the judgement

// Whether the value of the part at q is right.
#[inline(always)]
fn value_fits(s: &[u8], f: Field, q: usize) -> bool
    requires { q + part_of f ≤ length s.now }
    ensures { result ≡ value_fits f (field_at f s.now q) }
{
    match f {
        Field::RkWord => !number::means_nothing(byte_numbers::u32_at(s, q + 2)),
        Field::TruthError => value::truth_error_fits(byte_numbers::u16_at(s, q + 2)),
        Field::StoredResult => value::result_fits(byte_numbers::u64_at(s, q + 2)),
        _ => true,
    }
}

// Whether the n values from the part at q on are right.
#[inline(always)]
fn fields_fit(s: &[u8], f: Field, q: usize, n: u16) -> bool
    requires { q + n * part_of f ≤ length s.now }
    ensures { result ≡ fields_fit f s.now q n }
{
    for i in 0..n {
        if !value_fits(s, f, q + usize::from(i) * part_of(f)) {
            return false;
        }
    }
    true
}

// Judges a record of n cells. Inlined, since each call knows f: no choice by it is then left.
#[inline(always)]
fn judge(s: &[u8], at: usize, f: Field, n: u16, unique: u32) -> Result<Option<u16>, Refusal>
    requires { 0 < n → at + 8 + n * part_of f ≤ length s.now }
    ensures { result ≡ judged_in s.now at f n unique }
{
    if n == 0 || 255 < byte_numbers::u16_at(s, at + 6) || !fields_fit(s, f, at + 8, n) {
        return Err(Refusal {
            number: 6,
            offset: at,
        });
    }
    match f {
        Field::TextIndex if unique <= byte_numbers::u32_at(s, at + 10) => Err(Refusal {
            number: 9,
            offset: at,
        }),
        _ => Ok(Some(n)),
    }
}

// Judges the record of this type at `at`, whose body has `size` bytes, in a workbook of so many shared strings.
pub fn judge_record(
    s: &[u8],
    at: usize,
    kind: u16,
    size: usize,
    unique: u32,
) -> Result<Option<u16>, Refusal>
    requires { at + 4 + size ≤ length s.now }
    ensures { result ≡ judge_of s.now (shape_of kind) at size unique }
{
    match kind {
        0x0201 => judge(s, at, Field::NoField, one_cell(size, 6), unique),
        0x0203 => judge(s, at, Field::Float, one_cell(size, 14), unique),
        0x027E => judge(s, at, Field::RkWord, one_cell(size, 10), unique),
        0x00FD => judge(s, at, Field::TextIndex, one_cell(size, 10), unique),
        0x0205 => judge(s, at, Field::TruthError, one_cell(size, 8), unique),
        0x00BD => judge(s, at, Field::RkWord, multiple_count(s, at, size, 6), unique),
        0x00BE => judge(
            s,
            at,
            Field::NoField,
            multiple_count(s, at, size, 2),
            unique,
        ),
        0x0006 => judge(
            s,
            at,
            Field::StoredResult,
            formula_cells(s, at, size),
            unique,
        ),
        _ => Ok(None),
    }
}

// Whether all of a FORMULA but its stored result is right: its size, with the tokens that it says it has, and its column.
pub fn formula_sized(s: &[u8], at: usize, size: usize) -> bool
    requires { at + 4 + size ≤ length s.now }
    ensures { result ≡ formula_sized s.now at size }
{
    formula_cells(s, at, size) == 1 && byte_numbers::u16_at(s, at + 6) <= 255
}

// ---- the cells

// The bytes of a cell's part.
#[inline(always)]
fn part_of(f: Field) -> usize
    ensures { result ≡ part_of f }
{
    match f {
        Field::StoredResult => 18,
        _ => 2 + value::width_of(f),
    }
}

// Where in its part the value field starts: after the format; a blank's place is its format.
#[inline(always)]
fn start_of(f: Field) -> usize
    ensures { result ≡ start_of f }
{
    match f {
        Field::NoField => 0,
        _ => 2,
    }
}

// What the value field of the part at q says.
#[inline(always)]
fn value_at(s: &[u8], f: Field, q: usize) -> CellValue
    requires { q + part_of f ≤ length s.now }
    ensures { result ≡ value_of f (field_at f s.now q) }
{
    match f {
        Field::NoField => CellValue::Blank,
        Field::Float => value::float_value(byte_numbers::u64_at(s, q + 2)),
        Field::RkWord => value::rk_value(byte_numbers::u32_at(s, q + 2)),
        Field::TextIndex => CellValue::Text(byte_numbers::u32_at(s, q + 2)),
        Field::TruthError => value::truth_error_value(byte_numbers::u16_at(s, q + 2)),
        Field::StoredResult => {
            CellValue::Formula(value::result_value(byte_numbers::u64_at(s, q + 2)))
        }
    }
}

#[inline(always)]
fn tokens_at(s: &[u8], f: Field, q: usize) -> Tokens
    requires { q + part_of f ≤ length s.now }
    ensures { result ≡ tokens_at f s.now q }
{
    match f {
        Field::StoredResult => Tokens {
            start: q + 18,
            length: byte_numbers::u16_at(s, q + 16),
        },
        _ => Tokens {
            start: 0,
            length: 0,
        },
    }
}

// The k-th of the n cells of a record. Inlined, since each call knows f: no choice by it is then left.
#[inline(always)]
fn cell_at(s: &[u8], at: usize, f: Field, n: u16, k: u16) -> Option<Found>
    requires { (0 < n → at + 8 + n * part_of f ≤ length s.now) × (1 < n → first_at s.now at + n ≤ 256) }
    ensures { result ≡ found_in s.now at f n k }
{
    if n <= k {
        return None;
    }
    let q = at + 8 + usize::from(k) * part_of(f);
    Some(Found {
        cell: Cell {
            row: byte_numbers::u16_at(s, at + 4),
            column: byte_numbers::u16_at(s, at + 6) + k,
            value: value_at(s, f, q),
            tokens: tokens_at(s, f, q),
            format: byte_numbers::u16_at(s, q),
            kind: f,
            field: q + start_of(f),
        },
        left: n - (k + 1),
    })
}

// The k-th cell, counted from 0, of the record of this type at `at`, whose body has `size` bytes.
pub fn record_cell(s: &[u8], at: usize, kind: u16, size: usize, k: u16) -> Option<Found>
    requires { at + 4 + size ≤ length s.now }
    ensures { result ≡ found_of s.now (shape_of kind) at size k }
{
    match kind {
        0x0201 => cell_at(s, at, Field::NoField, one_cell(size, 6), k),
        0x0203 => cell_at(s, at, Field::Float, one_cell(size, 14), k),
        0x027E => cell_at(s, at, Field::RkWord, one_cell(size, 10), k),
        0x00FD => cell_at(s, at, Field::TextIndex, one_cell(size, 10), k),
        0x0205 => cell_at(s, at, Field::TruthError, one_cell(size, 8), k),
        0x00BD => cell_at(s, at, Field::RkWord, multiple_count(s, at, size, 6), k),
        0x00BE => cell_at(s, at, Field::NoField, multiple_count(s, at, size, 2), k),
        0x0006 => cell_at(s, at, Field::StoredResult, formula_cells(s, at, size), k),
        _ => None,
    }
}

// ---- how many cells a record has

fn one_cell(size: usize, needed: usize) -> u16
    ensures { result ≡ sized size needed 1 }
{
    u16::from(size == needed)
}

fn formula_cells(s: &[u8], at: usize, size: usize) -> u16
    requires { at + 4 + size ≤ length s.now }
    ensures { result ≡ count_of Shape.FORMULA s.now at size }
{
    u16::from(22 <= size && 22 + usize::from(byte_numbers::u16_at(s, at + 24)) <= size)
}

// How many cells the record has: none where its size is wrong, and where it is no cell record.
pub fn cell_count(s: &[u8], at: usize, kind: u16, size: usize) -> u16
    requires { at + 4 + size ≤ length s.now }
    ensures { result ≡ count_of (shape_of kind) s.now at size }
{
    match kind {
        0x0201 => one_cell(size, 6),
        0x0203 => one_cell(size, 14),
        0x027E | 0x00FD => one_cell(size, 10),
        0x0205 => one_cell(size, 8),
        0x00BD => multiple_count(s, at, size, 6),
        0x00BE => multiple_count(s, at, size, 2),
        0x0006 => formula_cells(s, at, size),
        _ => 0,
    }
}
