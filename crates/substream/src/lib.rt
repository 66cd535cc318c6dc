// The records of one substream after the globals: a worksheet, a chart or a macro sheet. Called by the check of the stream, which has judged the
// size and kind of the substream's BOF.
#![tactic(auto)]

ghost use Rattle.std.specs.Prelude.{◌≡◌, ◌+◌, ◌≤◌, length};
ghost use Rattle.text_result.specs.TextResult.{text_of};
ghost use Rattle.substream.specs.Substream.{past, past_parent, inner_bof, other_record, dimensions_fit, dimensions_record, on_text, record_in, step_of, substream_in};
ghost use Rattle.substream.specs.Parts.{result_record, formula_record};

use record::Header;
use refusal::Refusal;

// Where the next record stands, and whether a CONTINUE there would have no parent.
#[derive(Clone, Copy)]
pub struct Here {
    pub at: usize,
    pub orphan: bool,
}

// What a record that is right leads to: on to the next, into the substream whose BOF stands there, or out of this one at its end.
#[derive(Clone, Copy)]
pub enum Step {
    More(Here),
    Open(usize),
    Close(usize),
}

fn past(end: usize) -> Here
    ensures { result ≡ past end }
{
    Here {
        at: end,
        orphan: false,
    }
}

fn past_parent(end: usize) -> Here
    ensures { result ≡ past_parent end }
{
    Here {
        at: end,
        orphan: true,
    }
}

// Place and size stay parameters beside the stream, as `record::header_at` gives them: a struct of them would be made anew for each record to say no more than this clause.
#[tactic(auto, unfolding(crate::specs::Substream::inner_bof, steps::specs::Choice::pick))]
fn inner_bof(s: &[u8], kind: u16, at: usize, size: usize) -> Result<Step, Refusal>
    requires { at + 4 + size ≤ length s.now }
    ensures { result ≡ inner_bof s.now kind at size }
{
    if size != 16 {
        return Err(Refusal {
            number: 6,
            offset: at,
        });
    }
    if kind == 0x0040 {
        return Err(Refusal {
            number: 4,
            offset: at,
        });
    }
    if byte_numbers::u16_at(s, at + 6) == 0x0020 {
        return Ok(Step::Open(at));
    }
    Err(Refusal {
        number: 4,
        offset: at,
    })
}

#[tactic(auto, unfolding(crate::specs::Substream::other_record, steps::specs::Choice::pick))]
fn other_record(
    s: &[u8],
    kind: u16,
    v: Here,
    id: u16,
    size: usize,
    end: usize,
) -> Result<Step, Refusal>
    requires { v.at + 4 + size ≤ length s.now }
    ensures { result ≡ other_record s.now kind v id size end }
{
    match id {
        0x0809 => inner_bof(s, kind, v.at, size),
        0x000A if size == 0 => Ok(Step::Close(end)),
        0x000A => Err(Refusal {
            number: 6,
            offset: v.at,
        }),
        0x003C if v.orphan => Err(Refusal {
            number: 7,
            offset: v.at,
        }),
        _ => Ok(Step::More(past(end))),
    }
}

#[tactic(auto, unfolding(crate::specs::Substream::dimensions_fit, steps::specs::Choice::pick))]
fn dimensions_fit(s: &[u8], at: usize, size: usize) -> bool
    requires { at + 4 + size ≤ length s.now }
    ensures { result ≡ dimensions_fit s.now at size }
{
    size == 14
        && byte_numbers::u32_at(s, at + 4) <= 65535
        && byte_numbers::u32_at(s, at + 8) <= 65536
        && byte_numbers::u16_at(s, at + 12) <= 255
        && byte_numbers::u16_at(s, at + 14) <= 256
}

#[tactic(auto, unfolding(crate::specs::Substream::dimensions_record, steps::specs::Choice::pick))]
fn dimensions_record(s: &[u8], at: usize, size: usize, end: usize) -> Result<Step, Refusal>
    requires { at + 4 + size ≤ length s.now }
    ensures { result ≡ dimensions_record s.now at size end }
{
    if dimensions_fit(s, at, size) {
        Ok(Step::More(past(end)))
    } else {
        Err(Refusal {
            number: 6,
            offset: at,
        })
    }
}

// Past the text result of the FORMULA at `at`, which ends at `end`.
#[tactic(auto, using(crate::proofs::Laws::text_past))]
fn text_record(s: &[u8], at: usize, end: usize) -> Result<Step, Refusal>
    requires { end ≤ length s.now }
    ensures { result ≡ on_text (text_of s.now at end) }
{
    let c = text_result::check_text(s, at, end)?;
    Ok(Step::More(past(c.end)))
}

// A FORMULA that is right but for its stored result n, which is looked at once: a number, as most are, is one test.
#[tactic(auto, using(crate::proofs::Laws::result_laws))]
fn result_record(s: &[u8], at: usize, end: usize, n: u64) -> Result<Step, Refusal>
    requires { end ≤ length s.now }
    ensures { result ≡ result_record s.now at end n }
{
    if n >> 48 != 0xFFFF {
        return Ok(Step::More(past_parent(end)));
    }
    if n % 256 == 0 {
        return text_record(s, at, end);
    }
    if value::result_fits(n) {
        return Ok(Step::More(past_parent(end)));
    }
    Err(Refusal {
        number: 6,
        offset: at,
    })
}

#[tactic(auto, using(crate::proofs::Laws::formula_laws))]
fn formula_record(s: &[u8], v: Here, size: usize, end: usize) -> Result<Step, Refusal>
    requires { (v.at + 4 + size ≤ length s.now) × (end ≤ length s.now) }
    ensures { result ≡ formula_record s.now v size end }
{
    let at = v.at;
    if cell::formula_sized(s, at, size) {
        let n = byte_numbers::u64_at(s, at + 10);
        return result_record(s, at, end, n);
    }
    Err(Refusal {
        number: 6,
        offset: at,
    })
}

// Any record directly in a worksheet but a FORMULA.
#[tactic(auto, using(crate::proofs::Laws::passed_plain), unfolding(crate::specs::Substream::record_in, steps::specs::Choice::pick))]
fn sheet_record(
    s: &[u8],
    unique: u32,
    v: Here,
    id: u16,
    size: usize,
    end: usize,
) -> Result<Step, Refusal>
    requires { (v.at + 4 + size ≤ length s.now) × (id ≡ 0x0006 → ⊥) }
    ensures { result ≡ record_in s.now 0x0010 unique v id size end }
{
    if cell::judge_record(s, v.at, id, size, unique)?.is_some() {
        return Ok(Step::More(past_parent(end)));
    }
    match id {
        0x0200 => dimensions_record(s, v.at, size, end),
        0x0207 => Err(Refusal {
            number: 6,
            offset: v.at,
        }),
        _ => other_record(s, 0x0010, v, id, size, end),
    }
}

#[tactic(auto, using(crate::proofs::Laws::record_laws))]
fn record_in(
    s: &[u8],
    kind: u16,
    unique: u32,
    v: Here,
    id: u16,
    size: usize,
    end: usize,
) -> Result<Step, Refusal>
    requires { (v.at + 4 + size ≤ length s.now) × (end ≤ length s.now) }
    ensures { result ≡ record_in s.now kind unique v id size end }
{
    if kind != 0x0010 {
        return other_record(s, kind, v, id, size, end);
    }
    if id == 0x0006 {
        return formula_record(s, v, size, end);
    }
    sheet_record(s, unique, v, id, size, end)
}

#[tactic(auto, using(record::proofs::Laws::body_within, record::proofs::Laws::end_within), unfolding(crate::specs::Substream::step_of))]
fn step_at(s: &[u8], kind: u16, unique: u32, v: Here) -> Result<Step, Refusal>
    ensures { result ≡ step_of s.now kind unique v }
{
    match record::header_at(s, v.at) {
        Header::Record {
            kind: id,
            size,
            end,
        } => record_in(s, kind, unique, v, id, size, end),
        Header::Cut => Err(Refusal {
            number: 2,
            offset: v.at,
        }),
        Header::End => Err(Refusal {
            number: 4,
            offset: s.len(),
        }),
    }
}

// The substream of this kind whose BOF stands at `from`, where `allowance` substreams may lie inside each other: where it ends.
#[tactic(auto, using(crate::proofs::Laws::walk_laws))]
pub fn walk(s: &[u8], kind: u16, unique: u32, from: usize, allowance: u8) -> Result<usize, Refusal>
    requires { from + 20 ≤ length s.now }
    ensures { result ≡ substream_in allowance s.now unique kind from }
{
    if allowance == 0 {
        return Err(Refusal {
            number: 4,
            offset: from,
        });
    }
    if byte_numbers::u16_at(s, from + 4) != 0x0600 {
        return Err(Refusal {
            number: 6,
            offset: from,
        });
    }
    let mut v = past_parent(from + 20);
    // The record itself says where the next one starts, and whether there is a next one.
    loop {
        match step_at(s, kind, unique, v)? {
            Step::More(next) => v = next,
            Step::Open(bof) => v = past(walk(s, 0x0020, unique, bof, allowance - 1)?),
            Step::Close(end) => return Ok(end),
        }
    }
}
