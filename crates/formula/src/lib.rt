// Judging a formula whole: its tokens, the data after them, and its jumps.
#![tactic(auto)]

ghost use Rattle.std.specs.Prelude.{◌≡◌, ◌≤◌, ◌<◌, length, Ok};
ghost use Rattle.tokens.specs.Tokens.{token_of};
ghost use Rattle.jumps.specs.Jumps.{size_of, lands_of};
ghost use Rattle.formula.specs.Judge.{data_by, data_of, judge_of};
ghost use Rattle.formula.specs.Parts.{astray_after, seen_after, left, seen_is, rest_judged, Right, RightToken};

use refusal::Refusal;
use tokens::{Place, Token};

// What was seen of the tokens so far.
#[derive(Clone, Copy)]
struct Seen<'a> {
    // the trailing bytes that are left
    rest: &'a [u8],
    // the offset of the first token with a jump that doesn't land
    astray: Option<usize>,
}

// The data of a classified token as in 0x20 plus, with which d starts.
#[tactic(auto, using(steps::proofs::Choice::arms), unfolding(crate::specs::Judge::data_by))]
fn data_by(id: u8, d: &[u8]) -> Option<usize>
    ensures { result ≡ data_by id d.now }
{
    match id {
        0x20 => trailing::array(d),
        0x26 => trailing::areas(d),
        _ => Some(0),
    }
}

// The data of any token. Bits 5 and 6 of its byte are the operand class.
#[tactic(auto, using(crate::proofs::OneToken::classes), unfolding(crate::specs::Judge::data_of))]
fn data(byte: u8, d: &[u8]) -> Option<usize>
    ensures { result ≡ data_of byte d.now }
{
    match byte >> 5 {
        0 => Some(0),
        _ => data_by(0x20 + (byte & 0x1F), d),
    }
}

#[tactic(auto, using(crate::proofs::OneToken::on_astray))]
fn astray_after(place: Place, astray: Option<usize>) -> Option<usize>
    requires { 0 < size_of (token_of place.bytes.now place.offset place.depth) }
    ensures { result ≡ astray_after astray (lands_of place.entry.bytes.now place.entry.offset place.entry.depth) place.entry.offset }
{
    if astray.is_some() || jumps::jumps_land(place) {
        return astray;
    }
    Some(place.offset)
}

// A token, after what was seen before it; or how many trailing bytes are left where its data is cut or bad.
#[tactic(auto, using(crate::proofs::OneToken::on_data_lem))]
fn after_token<'a>(place: Place, seen: Seen<'a>) -> Result<Seen<'a>, usize>
    requires { 0 < size_of (token_of place.bytes.now place.offset place.depth) }
    ensures { seen_is result ≡ seen_after place.entry.bytes.now place.entry.offset place.entry.depth (left seen.entry) }
{
    let Some(size) = data(place.bytes[0], seen.rest) else {
        return Err(seen.rest.len());
    };
    Ok(Seen {
        rest: &seen.rest[size..],
        astray: astray_after(place, seen.astray),
    })
}

// A token and those inside it. A memory token's inner bytes go to `visit_formula`.
#[cycle(visit_formula_visit_token)]
#[tactic(auto, using(crate::proofs::Visits::on_token_lem))]
fn visit_token<'a>(place: Place, token: Token, seen: Seen<'a>) -> Result<Seen<'a>, usize>
    requires some { 0 < length place.bytes.now }
    requires there { Ok token ≡ token_of place.bytes.now place.offset place.depth }
    ensures { RightToken place.entry.bytes.now place.entry.offset place.entry.depth token (left seen.entry) (seen_is result) }
{
    let here = after_token(place, seen)?;
    match token {
        Token::Plain(_, _, _) => Ok(here),
        Token::Memory(size, head) => visit_formula(place.inside(head, size), here),
    }
}

// The tokens of a formula, one after the other.
#[cycle(visit_formula_visit_token)]
#[tactic(auto, using(crate::proofs::Visits::on_visit_lem))]
fn visit_formula<'a>(formula: Place, before: Seen<'a>) -> Result<Seen<'a>, usize>
    ensures { Right formula.entry.bytes.now formula.entry.offset formula.entry.depth (left before.entry) (seen_is result) }
{
    let mut place = formula;
    let mut seen = before;
    // Each token says how many bytes it takes up: the next one starts there, and no index is counted.
    while !place.bytes.is_empty() {
        let Ok(token) = place.first_token() else {
            return Ok(seen);
        };
        seen = visit_token(place, token, seen)?;
        place = place.after(token.size());
    }
    Ok(seen)
}

// What was seen of all tokens, as an answer. `total` is how many bytes there are, the trailing ones included.
#[tactic(auto, using(crate::proofs::Judged::on_verdict), unfolding(crate::specs::Parts::rest_judged))]
fn verdict(total: usize, seen: Seen) -> Result<(), Refusal>
    requires { length seen.rest.now ≤ total }
    ensures { result ≡ rest_judged total (left seen.entry) }
{
    if !seen.rest.is_empty() {
        return Err(Refusal {
            number: 13,
            offset: total - seen.rest.len(),
        });
    }
    match seen.astray {
        Some(offset) => Err(Refusal { number: 13, offset }),
        None => Ok(()),
    }
}

// The answer for any tokens and any bytes after them.
#[tactic(auto, using(crate::proofs::Judged::on_answer))]
pub fn judge(tokens: &[u8], trailing: &[u8]) -> Result<(), Refusal>
    ensures { result ≡ judge_of tokens.now trailing.now }
{
    tokens::judge_tokens(tokens)?;
    let formula = Place {
        bytes: tokens,
        offset: 0,
        depth: 0,
    };
    let none = Seen {
        rest: trailing,
        astray: None,
    };
    let total = tokens.len() + trailing.len();
    match visit_formula(formula, none) {
        Ok(seen) => verdict(total, seen),
        Err(left) => Err(Refusal {
            number: 13,
            offset: total - left,
        }),
    }
}
