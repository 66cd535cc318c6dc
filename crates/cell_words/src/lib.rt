// Cells in words, four a cell, as many at a time as a lent slice has room for: for those who take a listing across a border.
#![tactic(auto)]

ghost use Rattle.std.specs.Prelude.{◌≡◌, false, ◌+◌, ◌-◌, ◌*◌, ◌≤◌, ◌<◌, length, [], ◌∷◌, ℕ};
ghost use Rattle.std.proofs.lemmas.List.Edits.{sets};
ghost use Rattle.byte_numbers.specs.Bytes.{u16_at, num_at};
ghost use Rattle.number.specs.Rk.{means_nothing, rk_bits};
ghost use Rattle.record.specs.Record.{header_at};
ghost use Rattle.value.specs.Value.{width_of};
ghost use Rattle.cell.specs.Cells.{shape_of, field_of, part_of, start_of, sized, multiple, count_of, no_tokens, tokens_at, cell_of};
ghost use Rattle.reading.specs.Cells.{other_item};
ghost use Rattle.cell_words.specs.Batch.{sizes_word, words_of, filled_seen, filled_from};
ghost use Rattle.cell_words.specs.Parts.{said_of, cells_at, parts_in, PartRoom, PartsRoom, Did, spot_in, past_step, Stepped};

use cell::Shape;
use reading::Place;
use record::Header;
use value::Field;

// How many cells were written; and where the list goes on, if it has not ended.
#[derive(Clone, Copy)]
pub struct Filled {
    pub cells: usize,
    pub rest: Option<Place>,
}

// ---- what a value field says, in words: its kind and its word

#[derive(Clone, Copy)]
struct Said {
    kind: u8,
    word: u64,
}

// Of a word by itself, or one of several in a loop.
#[tactic(auto, using(crate::proofs::Words::rk_laws))]
fn rk_said<const LONE: bool>(word: u32) -> Said
    ensures { result ≡ said_of Field.RkWord word }
{
    if number::means_nothing(word) {
        return Said { kind: 0, word: 0 };
    }
    let bits = if LONE {
        number::lone_rk_bits(word)
    } else {
        number::rk_bits(word)
    };
    Said {
        kind: 1,
        word: bits,
    }
}

#[tactic(auto, using(crate::proofs::Words::byte_laws))]
fn truth_error_said(n: u16) -> Said
    ensures { result ≡ said_of Field.TruthError n }
{
    Said {
        kind: if n >> 8 == 0 { 3 } else { 4 },
        word: u64::from(n % 256),
    }
}

#[tactic(auto, using(crate::proofs::Words::result_laws), unfolding(value::specs::Value::marked_result, steps::specs::Choice::pick))]
fn result_said(n: u64) -> Said
    ensures { result ≡ said_of Field.StoredResult n }
{
    if n >> 48 != 0xFFFF {
        return Said { kind: 5, word: n };
    }
    let byte = (n >> 16) % 256;
    match n % 256 {
        0 => Said { kind: 6, word: 0 },
        1 => Said {
            kind: 7,
            word: byte,
        },
        2 => Said {
            kind: 8,
            word: byte,
        },
        _ => Said { kind: 9, word: 0 },
    }
}

// What the value field at p says.
#[inline(always)]
#[tactic(auto, using(crate::proofs::Words::float_said))]
fn said_at<const LONE: bool>(s: &[u8], field: Field, p: usize) -> Said
    requires { p + width_of field ≤ length s.now }
    ensures { result ≡ said_of field (num_at s.now (width_of field) p) }
{
    match field {
        Field::NoField => Said { kind: 0, word: 0 },
        Field::Float => Said {
            kind: 1,
            word: byte_numbers::u64_at(s, p),
        },
        Field::RkWord => rk_said::<LONE>(byte_numbers::u32_at(s, p)),
        Field::TextIndex => Said {
            kind: 2,
            word: u64::from(byte_numbers::u32_at(s, p)),
        },
        Field::TruthError => truth_error_said(byte_numbers::u16_at(s, p)),
        Field::StoredResult => result_said(byte_numbers::u64_at(s, p)),
    }
}

// ---- four words for a cell

fn part_of(f: Field) -> usize
    ensures { result ≡ part_of f }
{
    match f {
        Field::StoredResult => 18,
        _ => 2 + value::width_of(f),
    }
}

fn start_of(f: Field) -> usize
    ensures { result ≡ start_of f }
{
    match f {
        Field::NoField => 0,
        _ => 2,
    }
}

// The cells of a record, which stand in one row: its header, the kind of their value fields, the row, the column of the first.
#[derive(Clone, Copy)]
struct Cells {
    at: usize,
    field: Field,
    row: u16,
    first: u16,
}

fn cells_at(s: &[u8], at: usize, field: Field) -> Cells
    requires { at + 8 ≤ length s.now }
    ensures { result ≡ cells_at s.now at field }
{
    Cells {
        at,
        field,
        row: byte_numbers::u16_at(s, at + 4),
        first: byte_numbers::u16_at(s, at + 6),
    }
}

fn head_word(row: u16, column: u16, format: u16, kind: u8) -> u64
    ensures { result ≡ row + column * 65536 + format * 4294967296 + kind * 281474976710656 }
{
    u64::from(row)
        + u64::from(column) * 65536
        + u64::from(format) * 4294967296
        + u64::from(kind) * 281474976710656
}

fn put_four(words: &mut [u64], at: usize, a: u64, b: u64, c: u64, d: u64)
    requires { at + 4 ≤ length words.old }
    ensures { words.new ≡ sets words.old at (a ∷ b ∷ c ∷ d ∷ []) }
{
    words[at] = a;
    words[at + 1] = b;
    words[at + 2] = c;
    words[at + 3] = d;
}

// The k-th cell, after the n cells that the words have; `sizes` is how many token bytes it has and how many after them.
#[inline(always)]
#[tactic(auto, using(crate::proofs::Parts::field_room), unfolding(cell::specs::Cells::cell_of, cell::specs::Cells::cell_from, cell::specs::Cells::field_at, cell::specs::Cells::row_at, cell::specs::Cells::first_at))]
fn put_cell<const LONE: bool>(
    s: &[u8],
    cells: Cells,
    k: u16,
    sizes: u64,
    words: &mut [u64],
    n: usize,
)
    requires of_record { cells ≡ cells_at s.now cells.at cells.field }
    requires room { PartRoom s.now cells.field cells.at k words.old n }
    requires sizes { sizes ≡ sizes_word s.now (tokens_at cells.field s.now (cells.at + 8 + k * part_of cells.field)) }
    ensures { words.new ≡ sets words.old (4 * n) (words_of s.now (cell_of s.now cells.field cells.at k)) }
{
    let q = cells.at + 8 + usize::from(k) * part_of(cells.field);
    let p = q + start_of(cells.field);
    let said = said_at::<LONE>(s, cells.field, p);
    let head = head_word(
        cells.row,
        cells.first + k,
        byte_numbers::u16_at(s, q),
        said.kind,
    );
    put_four(words, 4 * n, head, said.word, p as u64, sizes);
}

// What was written of a record, from the k-th cell on: its one cell, the first; of a multiple record's `count` cells those up to the last-th; or none,
// where it has none from there on. The one cell has its own name so that what follows on it needs no counting.
#[derive(Clone, Copy)]
enum Done {
    One,
    Parts { count: u16, last: u16 },
    None,
}

// ---- the records of one cell

#[inline(always)]
#[tactic(auto, using(crate::proofs::Parts::single_laws), unfolding(cell::specs::Cells::sized, steps::specs::Choice::pick))]
fn put_single(
    s: &[u8],
    at: usize,
    size: usize,
    field: Field,
    k: u16,
    words: &mut [u64],
    n: usize,
) -> Done
    requires body { at + 4 + size ≤ length s.now }
    requires plain { (q : ℕ) → tokens_at field s.now q ≡ no_tokens }
    requires room { 4 * n + 4 ≤ length words.old }
    ensures { Did s.now field at (sized size (4 + part_of field) 1) k n 1 words.old words.new result }
{
    if size != 4 + part_of(field) || k != 0 {
        return Done::None;
    }
    put_cell::<true>(s, cells_at(s, at, field), 0, 0, words, n);
    Done::One
}

#[tactic(auto, using(crate::proofs::Parts::formula_laws), unfolding(cell::specs::Cells::length_at, steps::specs::Choice::pick))]
fn put_formula(s: &[u8], at: usize, size: usize, k: u16, words: &mut [u64], n: usize) -> Done
    requires body { at + 4 + size ≤ length s.now }
    requires header { size ≡ u16_at s.now (at + 2) }
    requires small { size ≤ 8224 }
    requires room { 4 * n + 4 ≤ length words.old }
    ensures { Did s.now Field.StoredResult at (count_of Shape.FORMULA s.now at size) k n 1 words.old words.new result }
{
    if size < 22 {
        return Done::None;
    }
    let tokens = byte_numbers::u16_at(s, at + 24);
    if size < 22 + usize::from(tokens) || k != 0 {
        return Done::None;
    }
    let trailing = size - (22 + usize::from(tokens));
    let sizes = u64::from(tokens) + trailing as u64 * 65536;
    put_cell::<true>(s, cells_at(s, at, Field::StoredResult), 0, sizes, words, n);
    Done::One
}

// ---- the cells of a multiple record: they are written by one loop

// The cells from the k-th up to the last-th, without it.
#[inline(always)]
#[tactic(auto, using(crate::proofs::Parts::part_laws))]
fn put_parts(s: &[u8], at: usize, field: Field, k: u16, last: u16, words: &mut [u64], n: usize)
    requires plain { (q : ℕ) → tokens_at field s.now q ≡ no_tokens }
    requires room { PartsRoom s.now field at k last words.old n }
    ensures { words.new ≡ parts_in s.now field at k (last - k) n words.old }
{
    let cells = cells_at(s, at, field);
    let mut before = n;
    for part in k..last {
        put_cell::<false>(s, cells, part, 0, words, before);
        before += 1;
    }
}

// Where the parts from the k-th on end: at the last of `count`, or where `room` is full.
fn last_part(k: u16, count: u16, room: usize) -> u16
    requires { (k < count) × (0 < room) }
    ensures { (k < result) × (result ≤ count) × (result - k ≤ room) }
{
    if usize::from(count - k) <= room {
        return count;
    }
    k + room as u16
}

#[inline(always)]
#[tactic(auto, using(crate::proofs::Parts::many_laws))]
fn put_many(
    s: &[u8],
    at: usize,
    size: usize,
    field: Field,
    k: u16,
    words: &mut [u64],
    n: usize,
    room: usize,
) -> Done
    requires body { at + 4 + size ≤ length s.now }
    requires plain { (q : ℕ) → tokens_at field s.now q ≡ no_tokens }
    requires part { part_of field ≤ 6 }
    requires some { 0 < room }
    requires room { 4 * (n + room) ≤ length words.old }
    ensures { Did s.now field at (multiple s.now at size (part_of field)) k n room words.old words.new result }
{
    let count = cell::multiple_count(s, at, size, part_of(field));
    if count <= k {
        return Done::None;
    }
    let last = last_part(k, count, room);
    put_parts(s, at, field, k, last, words, n);
    Done::Parts { count, last }
}

// ---- any record: one choice by its type, for all that is done with it

#[tactic(auto, using(crate::proofs::Parts::record_laws), unfolding(cell::specs::Cells::shape_of, steps::specs::Choice::pick))]
fn put_record(
    s: &[u8],
    at: usize,
    kind: u16,
    size: usize,
    k: u16,
    words: &mut [u64],
    n: usize,
    room: usize,
) -> Done
    requires body { at + 4 + size ≤ length s.now }
    requires header { size ≡ u16_at s.now (at + 2) }
    requires small { size ≤ 8224 }
    requires some { 0 < room }
    requires room { 4 * (n + room) ≤ length words.old }
    ensures { Did s.now (field_of (shape_of kind)) at (count_of (shape_of kind) s.now at size) k n room words.old words.new result }
{
    match kind {
        0x0201 => put_single(s, at, size, Field::NoField, k, words, n),
        0x0203 => put_single(s, at, size, Field::Float, k, words, n),
        0x027E => put_single(s, at, size, Field::RkWord, k, words, n),
        0x00FD => put_single(s, at, size, Field::TextIndex, k, words, n),
        0x0205 => put_single(s, at, size, Field::TruthError, k, words, n),
        0x00BD => put_many(s, at, size, Field::RkWord, k, words, n, room),
        0x00BE => put_many(s, at, size, Field::NoField, k, words, n, room),
        0x0006 => put_formula(s, at, size, k, words, n),
        _ => Done::None,
    }
}

// A place in the record: at its end, the next record.
#[tactic(auto, using(std::proofs::lemmas::Bool::Decides::nat_tests), unfolding(crate::specs::Parts::spot_in, reading::specs::Cells::place_at, steps::specs::Choice::pick))]
fn spot(at: usize, end: usize, count: u16, k: u16) -> Place
    ensures { result ≡ spot_in at end count k }
{
    if count <= k {
        return Place {
            at: end,
            part: 0,
            level: 0,
        };
    }
    Place {
        at,
        part: k,
        level: 0,
    }
}

// How far a step of a listing came: the next place, and how many cells the words have.
#[derive(Clone, Copy)]
struct Reached {
    place: Place,
    cells: usize,
}

// Past a record that has no cell here.
#[tactic(auto, using(listing::proofs::Laws::by_depth), unfolding(reading::specs::Cells::place_at))]
fn step_past(v: Place, kind: u16, end: usize, n: usize) -> Option<Reached>
    ensures { result ≡ past_step n (other_item v kind end) }
{
    let place = reading::past_record(kind, v.level, end)?;
    Some(Reached { place, cells: n })
}

#[tactic(auto, using(crate::proofs::Steps::step_laws))]
fn step_record(
    s: &[u8],
    v: Place,
    kind: u16,
    size: usize,
    end: usize,
    words: &mut [u64],
    n: usize,
    room: usize,
) -> Option<Reached>
    requires header { header_at s.now v.at ≡ Header.Record kind size end }
    requires body { v.at + 4 + size ≤ length s.now }
    requires some { n < room }
    requires room { 4 * room ≤ length words.old }
    ensures { Stepped s.now room v n words.old words.new result }
{
    if v.level != 0 {
        return step_past(v, kind, end, n);
    }
    match put_record(s, v.at, kind, size, v.part, words, n, room - n) {
        Done::One => Some(Reached {
            place: Place {
                at: end,
                part: 0,
                level: 0,
            },
            cells: n + 1,
        }),
        Done::Parts { count, last } => Some(Reached {
            place: spot(v.at, end, count, last),
            cells: n + usize::from(last - v.part),
        }),
        Done::None => step_past(v, kind, end, n),
    }
}

#[tactic(auto, using(crate::proofs::Steps::over_laws, record::proofs::Laws::body_within))]
fn step(s: &[u8], v: Place, words: &mut [u64], n: usize, room: usize) -> Option<Reached>
    requires some { n < room }
    requires room { 4 * room ≤ length words.old }
    ensures { Stepped s.now room v n words.old words.new result }
{
    match record::header_at(s, v.at) {
        Header::Record { kind, size, end } => step_record(s, v, kind, size, end, words, n, room),
        Header::Cut | Header::End => None,
    }
}

// The next cells from a place on, as many as there is room for. Like `next_cell` it doesn't check the stream and has an answer for all bytes and places.
#[tactic(auto, using(crate::proofs::Laws::fill_laws))]
pub fn fill(s: &[u8], from: Place, words: &mut [u64]) -> Filled
    ensures value { result ≡ filled_seen (filled_from s.now from words.old) }
    ensures words_after { words.new ≡ (filled_from s.now from words.old).words }
{
    let room = words.len() / 4;
    let mut here = Reached {
        place: from,
        cells: 0,
    };
    // A record says how many cells it has, and the count goes up by as many: there is no index that goes up by one.
    while here.cells < room {
        let Some(next) = step(s, here.place, words, here.cells, room) else {
            return Filled {
                cells: here.cells,
                rest: None,
            };
        };
        here = next;
    }
    Filled {
        cells: here.cells,
        rest: Some(here.place),
    }
}
