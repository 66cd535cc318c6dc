// The places of the shared strings, kept in a lent table of 32-bit numbers; and a string fetched through such a table.
#![tactic(auto)]

ghost use Rattle.std.specs.Prelude.{◌≡◌, ◌+◌, ◌-◌, ◌*◌, ◌≤◌, ◌<◌, length, set, replicate};
ghost use Rattle.record.specs.Record.{header_at};
ghost use Rattle.segments.specs.Segments.{list_of};
ghost use Rattle.segments.specs.Parts.{Inside, ends, moved, Passes, stored};
ghost use Rattle.strings.specs.Table.{string_at, next_place, strings};
ghost use Rattle.strings.specs.Parts.{next_string};
ghost use Rattle.fetch.specs.Strings.{buffer_seen};
ghost use Rattle.fetch.specs.Parts.{TableAt};
ghost use Rattle.string_places.specs.Places.{numbers_of, unused, places_at, filled_of, table_of, fill_of, table_after, holds_strings, on_segment, fetched_by, through_of, buffer_through};
ghost use Rattle.string_places.specs.Parts.{Segment, with_entry, count_of};

use record::Header;
use refusal::Refusal;
use segments::Cursor;

// What a fetch is refused with where the table leads to no string.
const ABSENT: Refusal = Refusal {
    number: 11,
    offset: 0,
};

// ---- filling

fn put_entry(table: &mut [u32], j: usize, at: u32, seg: u32)
    requires { j + 2 ≤ length table.old }
    ensures { table.new ≡ set (set table.old j at) (j + 1) seg }
{
    table[j] = at;
    table[j + 1] = seg;
}

// Past the next string, with its place in the table at j.
// A struct of a stream and the fact that it isn't too long would be no plainer: the other facts here are of the stream's bytes and a cursor together.
#[tactic(auto, using(strings::proofs::Laws::next_ends))]
fn put_next(s: &[u8], d: Cursor, j: usize, table: &mut [u32]) -> Result<Cursor, Refusal>
    requires { Inside s.now d × Segment s.now d × (length s.now ≤ 16777216) × (j + 2 ≤ length table.old) }
    ensures result_value { moved result ≡ ends (next_string s.now d) }
    ensures table_after { table.new ≡ with_entry table.old j (next_place s.now d) }
{
    let e = strings::next_place(s, d)?;
    put_entry(table, j, e.at as u32, e.seg as u32);
    strings::skip_string(s, e)
}

// The places of n strings from a place on, two numbers each, at the front of the table.
fn put_places(s: &[u8], from: Cursor, n: u32, table: &mut [u32])
    requires { Inside s.now from × Segment s.now from × (length s.now ≤ 16777216) × (2 * n ≤ length table.old) × Passes (strings s.now n from) }
    ensures { table.new ≡ stored table.old 0 (numbers_of (list_of (strings s.now n from))) }
{
    let mut d = from;
    for i in 0..n as usize {
        d = put_next(s, d, 2 * i, table).unwrap();
    }
}

// All numbers of the table from place `from` on.
#[tactic(auto, using(crate::proofs::Laws::unused_put))]
fn put_unused(table: &mut [u32], from: usize)
    requires { from ≤ length table.old }
    ensures { table.new ≡ stored table.old from (replicate (length table.old - from) unused) }
{
    table[from..].fill(u32::MAX);
}

// How many strings a stream has whose SST is at `table`, 0 where it has none; `unique` is what its check gave.
#[tactic(auto, unfolding(crate::specs::Parts::count_of, steps::specs::Choice::pick))]
pub fn count_of(table: usize, unique: u32) -> u32
    ensures { result ≡ count_of table unique }
{
    if table == 0 { 0 } else { unique }
}

// The places of all n strings of the SST at p, at the front of the table.
#[tactic(auto, using(crate::proofs::Filling::all_laws))]
fn put_all(s: &[u8], p: usize, n: u32, table: &mut [u32])
    requires { (length s.now ≤ 16777216) × TableAt s.now p n × (2 * n ≤ length table.old) }
    ensures { table.new ≡ stored table.old 0 (numbers_of (places_at s.now p)) }
{
    if n == 0 {
        return;
    }
    let size = usize::from(byte_numbers::u16_at(s, p + 2));
    let first = Cursor {
        seg: p,
        at: p + 12,
        end: p + 4 + size,
    };
    put_places(s, first, n, table);
}

// Fill the table for a stream that passed: its SST is at p and has n strings. The answer is how many strings it has the places of.
// Only this crate and `pair_texts` call it, each after the check.
#[tactic(auto, using(crate::proofs::Filling::unused_room))]
pub fn fill_checked(s: &[u8], p: usize, n: u32, table: &mut [u32]) -> Result<u32, Refusal>
    requires { (length s.now ≤ 16777216) × TableAt s.now p n }
    ensures value { result ≡ filled_of (length table.old) (places_at s.now p) }
    ensures table_after { table.new ≡ table_of table.old (places_at s.now p) }
{
    let numbers = 2 * (n as usize);
    if table.len() < numbers {
        return Err(Refusal {
            number: 12,
            offset: 0,
        });
    }
    put_all(s, p, n, table);
    put_unused(table, numbers);
    Ok(n)
}

// Fill the table with the place of each string.
#[tactic(auto, unfolding(crate::specs::Places::fill_of, crate::specs::Places::table_after))]
pub fn fill(s: &[u8], table: &mut [u32]) -> Result<u32, Refusal>
    ensures value { result ≡ fill_of s.now 0 table.old }
    ensures table_after { table.new ≡ table_after s.now 0 table.old }
{
    let g = workbook::check_with(s, 0)?;
    fill_checked(s, g.table, count_of(g.table, g.unique), table)
}

// ---- a fetch through a table

// SST or CONTINUE.
#[tactic(auto, unfolding(steps::specs::Choice::pick))]
fn holds_strings(kind: u16) -> bool
    ensures { result ≡ holds_strings kind }
{
    matches!(kind, 0x00FC | 0x003C)
}

// The units of the string at d; it is judged whole before a unit is written.
#[tactic(auto, using(crate::proofs::Through::whole_laws))]
fn fetch_whole(s: &[u8], d: Cursor, buf: &mut [u16]) -> Result<usize, Refusal>
    requires { Inside s.now d }
    ensures value { result ≡ fetched_by (length buf.old) (string_at s.now d) }
    ensures buf_after { buf.new ≡ buffer_seen buf.old (string_at s.now d) }
{
    match strings::skip_string(s, d) {
        Ok(_) => strings::fetch_at(s, d, buf),
        Err(_) => Err(ABSENT),
    }
}

// The units of the string whose head starts at `at` in the record at p.
#[tactic(auto, using(record::proofs::Laws::whole), unfolding(steps::specs::Choice::pick))]
fn fetch_in(s: &[u8], at: usize, p: usize, buf: &mut [u16]) -> Result<usize, Refusal>
    requires { p < 4294967296 }
    ensures value { result ≡ fetched_by (length buf.old) (on_segment s.now at p (header_at s.now p)) }
    ensures buf_after { buf.new ≡ buffer_seen buf.old (on_segment s.now at p (header_at s.now p)) }
{
    if let Header::Record { kind, size: _, end } = record::header_at(s, p) {
        if holds_strings(kind) && p + 4 <= at && at < end {
            return fetch_whole(s, Cursor { seg: p, at, end }, buf);
        }
    }
    Err(ABSENT)
}

// The units of string `index` by its entry in the table. The stream isn't checked: whoever filled the table has. Over another stream or table it has an
// answer too.
#[tactic(auto, unfolding(crate::specs::Places::through_of, crate::specs::Places::buffer_through, crate::specs::Places::string_by, steps::specs::Choice::pick))]
pub fn fetch_through(s: &[u8], table: &[u32], index: u32, buf: &mut [u16]) -> Result<usize, Refusal>
    ensures value { result ≡ through_of s.now table.now index buf.old }
    ensures buf_after { buf.new ≡ buffer_through s.now table.now index buf.old }
{
    let i = 2 * (index as usize);
    if i + 1 < table.len() {
        return fetch_in(s, table[i] as usize, table[i + 1] as usize, buf);
    }
    Err(ABSENT)
}
