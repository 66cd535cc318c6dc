// The text result of a formula: the STRING after it and the CONTINUEs right after that.
// A crate above has read the FORMULA's record and found it whole: f is its header, e its end. So the functions may require that they lie in the stream.
#![tactic(auto)]

ghost use Rattle.std.specs.Prelude.{◌≡◌, ◌+◌, ◌*◌, ◌≤◌, ◌<◌, IsTrue, IfSome, IfOk, length};
ghost use Rattle.segments.specs.Segments.{list_of};
ghost use Rattle.segments.specs.Parts.{Inside, ends, moved, Passes};
ghost use Rattle.strings.specs.Table.{fetched_of, buffer_of};
ghost use Rattle.value.specs.Value.{result_of};
ghost use Rattle.text_result.specs.TextResult.{is_text, has_text, between, string_place, is_string, start_size, string_at, text_at, text_of};
ghost use Rattle.text_result.specs.FromPlace.{placed_at, answer_at, buffer_at};
ghost use Rattle.text_result.specs.Parts.{StartsAt, at_end};

use record::Header;
use refusal::Refusal;
use segments::Cursor;

// A formula with a text result: its record stands from `at` to `end`.
#[derive(Clone, Copy)]
pub struct Formula {
    pub at: usize,
    pub end: usize,
}

// Whether a stored result says text. The test alone, since each formula of a stream is asked.
#[tactic(auto, using(crate::proofs::Laws::text_laws))]
fn says_text(n: u64) -> bool
    ensures { result ≡ is_text (result_of n) }
{
    n >> 48 == 0xFFFF && n % 256 == 0
}

// Whether the record is a FORMULA whose stored result is text.
#[tactic(auto, unfolding(crate::specs::TextResult::has_text, steps::specs::Choice::pick))]
pub fn has_text(s: &[u8], kind: u16, at: usize) -> bool
    requires { kind ≡ 0x0006 → at + 18 ≤ length s.now }
    ensures { result ≡ has_text s.now kind at }
{
    kind == 0x0006 && says_text(byte_numbers::u64_at(s, at + 10))
}

// Whether it is a record that may stand between a formula and its STRING.
#[tactic(auto, unfolding(crate::specs::TextResult::between, steps::specs::Choice::pick))]
fn between(kind: u16) -> bool
    ensures { result ≡ between kind }
{
    matches!(kind, 0x04BC | 0x0221 | 0x0236)
}

// Where the STRING of a formula that ends at `e` is looked for.
#[tactic(auto, using(crate::proofs::Laws::record_within), unfolding(crate::specs::TextResult::string_place, steps::specs::Choice::pick))]
pub fn string_place(s: &[u8], e: usize) -> usize
    requires { e ≤ length s.now }
    ensures { (result ≡ string_place s.now e) × (result ≤ length s.now) }
{
    match record::header_at(s, e) {
        Header::Record { kind, size: _, end } if between(kind) => end,
        _ => e,
    }
}

// Whether a whole header of a STRING stands at `p`.
#[tactic(auto, unfolding(crate::specs::TextResult::is_string, steps::specs::Choice::pick))]
pub fn is_string(s: &[u8], p: usize) -> bool
    requires { p ≤ length s.now }
    ensures { result ≡ is_string s.now p }
{
    4 <= s.len() - p && byte_numbers::u16_at(s, p) == 0x0207
}

// The bytes of length and flags at p, and of the first character, if there is one.
#[tactic(auto, unfolding(crate::specs::TextResult::start_size, steps::specs::Choice::pick))]
fn start_size(s: &[u8], p: usize) -> usize
    requires { p + 3 ≤ length s.now }
    ensures { result ≡ start_size s.now p }
{
    if byte_numbers::u16_at(s, p) == 0 {
        return 3;
    }
    3 + segments::width_of(s[p + 2])
}

// Stream and cursor stay two parameters, as at `segments::Cursor`.
// Past the string at c, segment by segment. Not inlined, so that whoever passes a string has the test for a plain one in it and no more.
#[inline(never)]
#[tactic(auto, using(crate::proofs::Laws::string_ends, crate::proofs::Local::start_size_low), unfolding(segments::specs::Segments::need, steps::specs::Choice::pick))]
fn skip_parts(s: &[u8], c: Cursor) -> Result<Cursor, Refusal>
    requires { Inside s.now c }
    ensures { moved result ≡ ends (string_at s.now c) }
{
    let p = c.at;
    let here = c.end - p;
    if here < 3 || here < start_size(s, p) {
        return Err(Refusal {
            number: 6,
            offset: c.seg,
        });
    }
    let width = segments::width_of(s[p + 2]);
    let count = usize::from(byte_numbers::u16_at(s, p));
    let chars = Cursor { at: p + 3, ..c };
    let d = segments::skip_over(s, 6, true, width, count, chars)?;
    segments::ends_with_segments(s, 6, d)
}

// Whether the string at c is a plain one, as most are: it ends where its segment ends, and no CONTINUE follows. Nothing is said of others.
#[tactic(auto, using(crate::proofs::Laws::plain_there))]
pub fn is_plain(s: &[u8], c: Cursor) -> bool
    requires { Inside s.now c }
    ensures { IsTrue result → at_end c ≡ ends (string_at s.now c) }
{
    let p = c.at;
    let here = c.end - p;
    if here < 3 {
        return false;
    }
    let count = usize::from(byte_numbers::u16_at(s, p));
    here == 3 + count * segments::width_of(s[p + 2]) && !segments::continue_at(s, c.end)
}

// Past the string at c, which is to fill its segments.
#[inline(always)]
pub fn skip_string(s: &[u8], c: Cursor) -> Result<Cursor, Refusal>
    requires { Inside s.now c }
    ensures { moved result ≡ ends (string_at s.now c) }
{
    if is_plain(s, c) {
        return Ok(Cursor { at: c.end, ..c });
    }
    skip_parts(s, c)
}

// Where the text result of the formula at f starts, whose STRING is looked for at p.
#[inline(always)]
#[tactic(auto, using(crate::proofs::Laws::body_inside), unfolding(crate::specs::TextResult::text_at, steps::specs::Choice::pick))]
fn string_start(s: &[u8], f: usize, p: usize) -> Result<Cursor, Refusal>
    requires { p ≤ length s.now }
    ensures { StartsAt s.now (text_at s.now f p) result }
{
    if !is_string(s, p) {
        return Err(Refusal {
            number: 6,
            offset: f,
        });
    }
    match record::header_at(s, p) {
        Header::Record {
            kind: _,
            size: _,
            end,
        } => Ok(Cursor {
            seg: p,
            at: p + 4,
            end,
        }),
        Header::Cut | Header::End => Err(Refusal {
            number: 2,
            offset: p,
        }),
    }
}

// Past the text result of the formula whose record stands from f to e.
#[tactic(auto, unfolding(crate::specs::TextResult::text_of))]
pub fn check_text(s: &[u8], f: usize, e: usize) -> Result<Cursor, Refusal>
    requires { e ≤ length s.now }
    ensures { moved result ≡ ends (text_of s.now f e) }
{
    let c = string_start(s, f, string_place(s, e))?;
    skip_string(s, c)
}

// ---- the units of a text result

// Where the text result of the formula whose record stands from f to e starts, if nothing of it is refused.
#[tactic(auto, unfolding(crate::specs::TextResult::text_of))]
pub fn whole_text(s: &[u8], f: usize, e: usize) -> Result<Cursor, Refusal>
    requires { e ≤ length s.now }
    ensures start { StartsAt s.now (text_of s.now f e) result }
    ensures whole { IfOk result (λ c. Passes (string_at s.now c)) }
{
    let c = string_start(s, f, string_place(s, e))?;
    skip_string(s, c)?;
    Ok(c)
}

// The units of the string at c, none of it refused, into the buffer; the answer is how many.
#[tactic(auto, using(crate::proofs::Fetch::text_long, crate::proofs::Fetch::copy_laws))]
fn copy_string(s: &[u8], c: Cursor, buf: &mut [u16]) -> Result<usize, Refusal>
    requires { Inside s.now c × Passes (string_at s.now c) }
    ensures value { result ≡ fetched_of (length buf.old) (list_of (string_at s.now c)) }
    ensures buf_after { buf.new ≡ buffer_of buf.old (list_of (string_at s.now c)) }
{
    let p = c.at;
    let count = usize::from(byte_numbers::u16_at(s, p));
    if buf.len() < count {
        return Err(Refusal {
            number: 12,
            offset: 0,
        });
    }
    let width = segments::width_of(s[p + 2]);
    segments::copy_chars(s, 6, width, count, Cursor { at: p + 3, ..c }, buf);
    Ok(count)
}

// The units of the text result of the formula whose record stands from f to e, into the buffer; none where anything of it is refused.
#[tactic(auto, using(crate::proofs::Fetch::none_units, crate::proofs::Fetch::none_buffer))]
pub fn fetch_text(s: &[u8], f: usize, e: usize, buf: &mut [u16]) -> Result<usize, Refusal>
    requires { e ≤ length s.now }
    ensures value { result ≡ fetched_of (length buf.old) (list_of (text_of s.now f e)) }
    ensures buf_after { buf.new ≡ buffer_of buf.old (list_of (text_of s.now f e)) }
{
    match whole_text(s, f, e) {
        Ok(c) => copy_string(s, c, buf),
        Err(_) => Ok(0),
    }
}

// ---- from the place of a value field

// The formula with a text result whose value field is at `field`.
#[tactic(auto, using(crate::proofs::Laws::record_within), unfolding(crate::specs::FromPlace::placed_at, steps::specs::Choice::pick))]
fn formula_at(s: &[u8], field: usize) -> Option<Formula>
    ensures placed { result ≡ placed_at s.now field }
    ensures within { IfSome result (λ f. f.end ≤ length s.now) }
{
    let at = field.checked_sub(10)?;
    match record::header_at(s, at) {
        Header::Record { kind, size, end } if 22 <= size && has_text(s, kind, at) => {
            Some(Formula { at, end })
        }
        _ => None,
    }
}

// The units of the text result of a listed cell, whose value field is at `field`. It doesn't check the stream: whoever lists it has. Over other bytes, or
// from a made-up place, it has an answer too.
#[tactic(auto, unfolding(crate::specs::FromPlace::answer_at, crate::specs::FromPlace::buffer_at))]
pub fn text_at(s: &[u8], field: usize, buf: &mut [u16]) -> Result<usize, Refusal>
    ensures value { result ≡ answer_at s.now field buf.old }
    ensures buf_after { buf.new ≡ buffer_at s.now field buf.old }
{
    let absent = Refusal {
        number: 11,
        offset: 0,
    };
    let formula = formula_at(s, field).ok_or(absent)?;
    match whole_text(s, formula.at, formula.end) {
        Ok(c) => copy_string(s, c, buf),
        Err(_) => Err(absent),
    }
}
