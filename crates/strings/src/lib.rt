// The shared string table: an SST and the CONTINUEs right after it.
// A crate above has read the SST's record and found it whole: p is its header, e its end. So the functions may require that both lie in the stream.
#![tactic(auto)]

ghost use Rattle.std.specs.Prelude.{◌≡◌, ◌+◌, ◌≤◌, ◌<◌, ◌↔◌, IsTrue, IfSome, length};
ghost use Rattle.byte_numbers.specs.Bytes.{byte_at};
ghost use Rattle.segments.specs.Segments.{width_of};
ghost use Rattle.segments.specs.Parts.{Inside, ends, moved, Passes};
ghost use Rattle.strings.specs.Table.{phonetic_bit, rich_bit, head_size, runs_at, phonetic_at, head_at, start_size, head, rest, string_at, units_at, next_place, strings, table_of, places_of, place_of, units_of, answer_of, fetched_of, buffer_of};
ghost use Rattle.strings.specs.Parts.{head_read, next_string, Plain};

use refusal::Refusal;
use segments::Cursor;

// A string's head: its characters and their width, its runs, its phonetic bytes.
#[derive(Clone, Copy)]
pub struct Head {
    pub chars: usize,
    pub width: usize,
    pub runs: usize,
    pub phonetic: usize,
}

// A head, and where its string's characters start.
#[derive(Clone, Copy)]
pub struct HeadRead {
    pub head: Head,
    pub chars: Cursor,
}

// How many strings a table has, and where it ends.
#[derive(Clone, Copy)]
pub struct Table {
    pub strings: u32,
    pub end: usize,
}

// Bit 2 of the flags: 1 where a phonetic size follows.
pub fn phonetic_bit(flags: u8) -> usize
    ensures { result ≡ phonetic_bit flags }
{
    usize::from((flags >> 2) & 1)
}

// Bit 3 of the flags: 1 where a run count follows.
pub fn rich_bit(flags: u8) -> usize
    ensures { result ≡ rich_bit flags }
{
    usize::from((flags >> 3) & 1)
}

fn head_size(flags: u8) -> usize
    ensures { result ≡ head_size flags }
{
    3 + 2 * rich_bit(flags) + 4 * phonetic_bit(flags)
}

#[tactic(auto, unfolding(crate::specs::Table::runs_at, steps::specs::Choice::pick))]
fn run_count(s: &[u8], p: usize, flags: u8) -> usize
    requires { p + head_size flags ≤ length s.now }
    ensures { result ≡ runs_at s.now p flags }
{
    if rich_bit(flags) == 1 {
        return usize::from(byte_numbers::u16_at(s, p + 3));
    }
    0
}

#[tactic(auto, unfolding(crate::specs::Table::phonetic_at, steps::specs::Choice::pick))]
fn phonetic_size(s: &[u8], p: usize, flags: u8) -> usize
    requires { p + head_size flags ≤ length s.now }
    ensures { result ≡ phonetic_at s.now p flags }
{
    if phonetic_bit(flags) == 1 {
        return byte_numbers::u32_at(s, p + 3 + 2 * rich_bit(flags)) as usize;
    }
    0
}

// The head at p.
#[tactic(auto, unfolding(crate::specs::Table::head_at))]
fn head_at(s: &[u8], p: usize) -> Head
    requires { p + head_size (byte_at s.now (p + 2)) ≤ length s.now }
    ensures { result ≡ head_at s.now p }
{
    let flags = s[p + 2];
    Head {
        chars: usize::from(byte_numbers::u16_at(s, p)),
        width: segments::width_of(flags),
        runs: run_count(s, p, flags),
        phonetic: phonetic_size(s, p, flags),
    }
}

// The bytes of the head at p and of the first character, if there is one.
#[tactic(auto, unfolding(crate::specs::Table::start_size, steps::specs::Choice::pick))]
fn start_size(s: &[u8], p: usize) -> usize
    requires { p + 3 ≤ length s.now }
    ensures { result ≡ start_size s.now p }
{
    let flags = s[p + 2];
    let size = head_size(flags);
    if byte_numbers::u16_at(s, p) == 0 {
        return size;
    }
    size + segments::width_of(flags)
}

// Here and below stream and cursor stay two parameters, as at `segments::Cursor`.
#[tactic(auto, unfolding(crate::specs::Table::head, segments::specs::Segments::need, steps::specs::Choice::pick))]
pub fn string_head(s: &[u8], d: Cursor) -> Result<HeadRead, Refusal>
    requires { Inside s.now d }
    ensures { head_read result ≡ head s.now d }
{
    let p = d.at;
    let here = d.end - p;
    if here < 3 || here < start_size(s, p) {
        return Err(Refusal {
            number: 8,
            offset: d.seg,
        });
    }
    Ok(HeadRead {
        head: head_at(s, p),
        chars: Cursor {
            at: p + head_size(s[p + 2]),
            ..d
        },
    })
}

// Past a string's runs and phonetic bytes.
#[tactic(auto, using(crate::proofs::Laws::rest_ends))]
fn skip_rest(s: &[u8], h: Head, c: Cursor) -> Result<Cursor, Refusal>
    requires { Inside s.now c }
    ensures { moved result ≡ ends (rest s.now h c) }
{
    let d = segments::skip_items(s, 8, false, 4, h.runs, c)?;
    segments::skip_items(s, 8, false, 1, h.phonetic, d)
}

// Past the string whose head stands at d.
#[tactic(auto, using(crate::proofs::Laws::string_ends))]
pub fn skip_string(s: &[u8], d: Cursor) -> Result<Cursor, Refusal>
    requires { Inside s.now d }
    ensures { moved result ≡ ends (string_at s.now d) }
{
    let HeadRead { head, chars } = string_head(s, d)?;
    let e = segments::skip_items(s, 8, true, head.width, head.chars, chars)?;
    skip_rest(s, head, e)
}

// Where the next string's head stands.
#[tactic(auto, unfolding(crate::specs::Table::next_place, steps::specs::Choice::pick))]
pub fn next_place(s: &[u8], c: Cursor) -> Result<Cursor, Refusal>
    requires { Inside s.now c }
    ensures { moved result ≡ next_place s.now c }
{
    if c.at == c.end {
        return segments::next_segment(s, 8, c);
    }
    Ok(c)
}

// Whether these are a plain string's flags: narrow characters, no runs, no phonetic bytes.
fn is_plain(flags: u8) -> bool
    ensures { IsTrue result ↔ ((width_of flags ≡ 1) × (rich_bit flags ≡ 0) × (phonetic_bit flags ≡ 0)) }
{
    segments::width_of(flags) == 1 && rich_bit(flags) == 0 && phonetic_bit(flags) == 0
}

// The bytes of the string at c where it is a plain one that ends in this segment, as most are.
#[tactic(auto, using(crate::proofs::Laws::plain_there))]
fn plain_size(s: &[u8], c: Cursor) -> Option<usize>
    requires { Inside s.now c }
    ensures { IfSome result (λ n. Plain s.now c n) }
{
    let here = c.end - c.at;
    if here < 3 || !is_plain(s[c.at + 2]) {
        return None;
    }
    let size = 3 + usize::from(byte_numbers::u16_at(s, c.at));
    (size <= here).then_some(size)
}

// Past the next string.
#[tactic(auto, using(crate::proofs::Laws::next_ends))]
pub fn skip_next(s: &[u8], c: Cursor) -> Result<Cursor, Refusal>
    requires { Inside s.now c }
    ensures { moved result ≡ ends (next_string s.now c) }
{
    match plain_size(s, c) {
        Some(size) => Ok(Cursor {
            at: c.at + size,
            ..c
        }),
        None => skip_string(s, next_place(s, c)?),
    }
}

// Past n strings.
#[tactic(auto, using(crate::proofs::Laws::strings_left, crate::proofs::Laws::strings_none))]
pub fn skip_strings(s: &[u8], n: usize, c: Cursor) -> Result<Cursor, Refusal>
    requires { Inside s.now c }
    ensures { moved result ≡ ends (strings s.now n c) }
{
    let mut d = c;
    for _ in 0..n {
        d = skip_next(s, d)?;
    }
    Ok(d)
}

// The table whose SST has its header at p and ends at e.
#[tactic(auto, using(crate::proofs::Laws::table_short, crate::proofs::Laws::table_answer))]
pub fn check_strings(s: &[u8], p: usize, e: usize) -> Result<Table, Refusal>
    requires { (p + 4 ≤ e) × (e ≤ length s.now) }
    ensures { result ≡ answer_of (table_of s.now p e) }
{
    if e - (p + 4) < 8 {
        return Err(Refusal {
            number: 8,
            offset: p,
        });
    }
    let strings = byte_numbers::u32_at(s, p + 8);
    let first = Cursor {
        seg: p,
        at: p + 12,
        end: e,
    };
    let last = skip_strings(s, strings as usize, first)?;
    let end = segments::ends_with_segments(s, 8, last)?.end;
    Ok(Table { strings, end })
}

// The units of the string whose head stands at d, none of it refused, into the buffer; the answer is how many.
pub fn fetch_at(s: &[u8], d: Cursor, buf: &mut [u16]) -> Result<usize, Refusal>
    requires { Inside s.now d × Passes (string_at s.now d) }
    ensures value { result ≡ fetched_of (length buf.old) (units_at s.now d) }
    ensures buf_after { buf.new ≡ buffer_of buf.old (units_at s.now d) }
{
    let HeadRead { head, chars } = string_head(s, d).unwrap();
    if buf.len() < head.chars {
        return Err(Refusal {
            number: 12,
            offset: 0,
        });
    }
    segments::copy_chars(s, 8, head.width, head.chars, chars, buf);
    Ok(head.chars)
}

// The place of string i of the table whose SST has its header at p and ends at e: a table that has it refuses nothing on the way there.
#[tactic(auto, using(crate::proofs::Laws::place_laws))]
fn place_at(s: &[u8], p: usize, e: usize, i: usize) -> Cursor
    requires { (p + 4 ≤ e) × (e ≤ length s.now) × (i < length (places_of s.now p e)) }
    ensures { result ≡ place_of s.now p e i }
{
    let first = Cursor {
        seg: p,
        at: p + 12,
        end: e,
    };
    let c = skip_strings(s, i, first).unwrap();
    next_place(s, c).unwrap()
}

// The units of string i of the table whose SST has its header at p and ends at e, into the buffer.
pub fn fetch_string(
    s: &[u8],
    p: usize,
    e: usize,
    i: usize,
    buf: &mut [u16],
) -> Result<usize, Refusal>
    requires { (p + 4 ≤ e) × (e ≤ length s.now) × (i < length (places_of s.now p e)) }
    ensures value { result ≡ fetched_of (length buf.old) (units_of s.now p e i) }
    ensures buf_after { buf.new ≡ buffer_of buf.old (units_of s.now p e i) }
{
    fetch_at(s, place_at(s, p, e, i), buf)
}
