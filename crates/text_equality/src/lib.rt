// Characters compared: those of two shared strings, wherever their segments part them, those of two names, and those of two text results.
#![tactic(auto)]

ghost use Rattle.std.specs.Prelude.{◌≡◌, ◌-◌, ◌≤◌, length, true};
ghost use Rattle.segments.specs.Segments.{list_of};
ghost use Rattle.segments.specs.Parts.{Inside, Passes};
ghost use Rattle.text_result.specs.TextResult.{string_at, text_at};
ghost use Rattle.reading.specs.Reading.{says_text, text_after};
ghost use Rattle.differences.specs.Differences.{same, chars_of};
ghost use Rattle.differences.specs.Units.{units_by};
ghost use Rattle.text_equality.specs.Characters.{units_in};

mod standing;

use record::Header;
use segments::Cursor;
pub use standing::Chars;
use standing::Run;
use value::{CellValue, FormulaResult};

// Whether two names, of w and v bytes a character, have the same characters.
// A character may take one byte in one name and two in the other, where `==` of slices would find two names.
pub fn same_name(a: &[u8], w: usize, b: &[u8], v: usize) -> bool
    requires { (1 ≤ w) × (w ≤ 2) × (1 ≤ v) × (v ≤ 2) }
    ensures { result ≡ same (chars_of a.now w) (chars_of b.now v) }
{
    Run { bytes: a, width: w }.is_same(&Run { bytes: b, width: v })
}

// ---- text results

// The characters of the string at c, of which nothing is refused.
#[tactic(auto, using(text_result::proofs::Fetch::text_long, crate::proofs::TextResults::string_passes, crate::proofs::TextResults::string_units))]
fn string_chars(s: &[u8], c: Cursor) -> Chars<'_>
    requires { Inside s.now c × Passes (string_at s.now c) }
    ensures { units_in result ≡ list_of (string_at s.now c) }
{
    let p = c.at;
    if c.end - p < 3 {
        return Chars::none(s);
    }
    Chars {
        stream: s,
        count: usize::from(byte_numbers::u16_at(s, p)),
        width: segments::width_of(s[p + 2]),
        place: Cursor {
            seg: c.seg,
            at: p + 3,
            end: c.end,
        },
    }
}

// Of the formula whose header is at f.
#[tactic(auto, using(text_result::proofs::Laws::record_within), unfolding(reading::specs::Reading::text_after))]
fn chars_after(s: &[u8], f: usize) -> Chars<'_>
    ensures { units_in result ≡ text_after s.now f }
{
    match record::header_at(s, f) {
        Header::Record {
            kind: _,
            size: _,
            end,
        } => match text_result::whole_text(s, f, end) {
            Ok(c) => string_chars(s, c),
            Err(_) => Chars::none(s),
        },
        _ => Chars::none(s),
    }
}

// The characters of the text result of a cell with this value, whose value field is at `field`.
#[tactic(auto, unfolding(steps::specs::Choice::pick))]
fn result_chars(s: &[u8], v: CellValue, field: usize) -> Chars<'_>
    ensures { units_in result ≡ units_by s.now v field }
{
    match v {
        CellValue::Formula(r) => match r {
            FormulaResult::Text => chars_after(s, field.saturating_sub(10)),
            _ => Chars::none(s),
        },
        _ => Chars::none(s),
    }
}

// Whether the text results of two cells, with these values and their fields at a and at b, have the same units; a cell without one has none.
// The units stand in two streams, parted by segments: no derive sees them.
pub fn same_result(s: &[u8], v: CellValue, a: usize, t: &[u8], w: CellValue, b: usize) -> bool
    ensures { result ≡ same (units_by s.now v a) (units_by t.now w b) }
{
    result_chars(s, v, a).is_same(&result_chars(t, w, b))
}
