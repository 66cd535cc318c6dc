// Fetch a shared string into a lent buffer of 16-bit units; or all of them, one after the other, after one check.
#![tactic(auto)]

ghost use Rattle.std.specs.Prelude.{◌≡◌, ◌+◌, ◌≤◌, length};
ghost use Rattle.steps.specs.Items.{nth};
ghost use Rattle.byte_numbers.specs.Bytes.{u16_at};
ghost use Rattle.segments.specs.Parts.{Inside};
ghost use Rattle.refusal.specs.Refused.{refuse};
ghost use Rattle.strings.specs.Table.{string_at, nowhere, fetched_of, buffer_of};
ghost use Rattle.reading.specs.Reading.{strings_at};
ghost use Rattle.fetch.specs.Fetch.{answer_of, buffer_after};
ghost use Rattle.fetch.specs.Parts.{TableAt};
ghost use Rattle.fetch.specs.Strings.{first_of, next_seen, next_string_of, buffer_seen, next_buffer};

use refusal::Refusal;
use segments::Cursor;

// The next string: how many units were written, and the place after it.
#[derive(Clone, Copy)]
pub struct NextString {
    pub units: usize,
    pub next: Cursor,
}

// Where the body of the SST ends whose header is at p.
fn table_end(s: &[u8], p: usize) -> usize
    requires { p + 4 + u16_at s.now (p + 2) ≤ length s.now }
    ensures { result ≡ p + 4 + u16_at s.now (p + 2) }
{
    p + 4 + usize::from(byte_numbers::u16_at(s, p + 2))
}

// String `index` of the n strings of the SST at p; p is 0 where there is none.
// Only this crate and `pair_texts` call it, each after the check.
#[tactic(auto, using(crate::proofs::Laws::table_laws))]
pub fn fetch_known(
    s: &[u8],
    p: usize,
    n: u32,
    index: u32,
    buf: &mut [u16],
) -> Result<usize, Refusal>
    requires { TableAt s.now p n }
    ensures value { result ≡ nth (strings_at s.now p) index (fetched_of (length buf.old)) (refuse 11 0) }
    ensures buf_after { buf.new ≡ nth (strings_at s.now p) index (buffer_of buf.old) buf.old }
{
    if n <= index {
        return Err(Refusal {
            number: 11,
            offset: 0,
        });
    }
    strings::fetch_string(s, p, table_end(s, p), index as usize, buf)
}

// The units of string `index`, counted from 0, at the front of the buffer; the answer says how many.
#[tactic(auto, using(crate::proofs::Laws::fetch_laws))]
pub fn fetch(s: &[u8], index: u32, buf: &mut [u16]) -> Result<usize, Refusal>
    ensures value { result ≡ answer_of s.now index buf.old }
    ensures buf_after { buf.new ≡ buffer_after s.now index buf.old }
{
    let g = workbook::check_with(s, 0)?;
    fetch_known(s, g.table, g.unique, index, buf)
}

// ---- all strings, one after the other

fn nowhere() -> Cursor
    ensures { result ≡ nowhere }
{
    Cursor {
        seg: 0,
        at: 0,
        end: 0,
    }
}

// Where the strings start of the table whose SST is at `table`, 0 where there is none.
#[tactic(auto, using(std::proofs::lemmas::Bool::Decides::nat_tests), unfolding(crate::specs::Strings::first_of, steps::specs::Choice::pick))]
pub fn first_string(s: &[u8], table: usize) -> Cursor
    ensures { result ≡ first_of s.now table }
{
    if table == 0 || s.len() < 12 || s.len() - 12 < table {
        return nowhere();
    }
    let size = usize::from(byte_numbers::u16_at(s, table + 2));
    if s.len() - (table + 4) < size {
        return nowhere();
    }
    Cursor {
        seg: table,
        at: table + 12,
        end: table + 4 + size,
    }
}

// The units of the string at d, where it is whole, and the place after it.
#[tactic(auto, using(crate::proofs::Strings::string_laws))]
fn string_from(s: &[u8], d: Cursor, buf: &mut [u16]) -> Result<Option<NextString>, Refusal>
    requires { Inside s.now d }
    ensures value { result ≡ next_seen (length buf.old) (string_at s.now d) }
    ensures buf_after { buf.new ≡ buffer_seen buf.old (string_at s.now d) }
{
    match strings::skip_string(s, d) {
        Err(_) => Ok(None),
        Ok(next) => {
            let units = strings::fetch_at(s, d, buf)?;
            Ok(Some(NextString { units, next }))
        }
    }
}

// The next string from a place on, if one follows; 12 at 0 where the buffer has fewer units than the string. It doesn't check the stream: whoever has the
// first place has. Over other bytes, or from a made-up place, it has an answer too.
#[tactic(auto, unfolding(crate::specs::Strings::next_string_of, crate::specs::Strings::next_buffer, crate::specs::Strings::text_at, strings::specs::Parts::next_string, steps::specs::Choice::pick))]
pub fn next_string(s: &[u8], from: Cursor, buf: &mut [u16]) -> Result<Option<NextString>, Refusal>
    ensures value { result ≡ next_string_of s.now from buf.old }
    ensures buf_after { buf.new ≡ next_buffer s.now from buf.old }
{
    if s.len() < from.end || from.end < from.at {
        return Ok(None);
    }
    match strings::next_place(s, from) {
        Err(_) => Ok(None),
        Ok(d) => string_from(s, d, buf),
    }
}
