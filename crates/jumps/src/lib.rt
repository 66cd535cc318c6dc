// Jumps in formulas must land: on a token start of their level, or on its end.
#![tactic(auto)]

ghost use Rattle.std.specs.Prelude.{◌≡◌, ◌+◌, ◌*◌, ◌≤◌, ◌<◌, length};
ghost use Rattle.byte_numbers.specs.Bytes.{byte_at};
ghost use Rattle.tokens.specs.Tokens.{token_of};
ghost use Rattle.jumps.specs.Jumps.{table_of, targets_by, size_of, lands_on, all_land, lands_of};

use tokens::Place;

// The target, counted from the token at `place`, is a token start of its level or the level's end.
#[tactic(auto, using(crate::proofs::Laws::on_token_lem))]
fn lands_on(place: Place, target: usize) -> bool
    ensures { result ≡ lands_on place.entry.bytes.now place.entry.offset place.entry.depth target }
{
    let mut at = 0;
    // Each token says how many bytes it takes up: the next one starts there, and no index is counted.
    while at != target && at < place.bytes.len() {
        match place.after(at).first_token() {
            Ok(token) => at += token.size(),
            Err(_) => return false,
        }
    }
    at == target
}

// 0x04: each of so many words after the first four bytes.
#[tactic(auto, using(crate::proofs::Laws::on_word))]
fn table_lands(place: Place, words: usize) -> bool
    requires { 4 + 2 * words ≤ length place.bytes.now }
    ensures { result ≡ all_land place.entry.bytes.now place.entry.offset place.entry.depth (table_of words place.entry.bytes.now 4) }
{
    for i in 0..words {
        let target = 4 + usize::from(byte_numbers::u16_at(place.bytes, 4 + 2 * i));
        if !lands_on(place, target) {
            return false;
        }
    }
    true
}

// 0x19, by its kind.
#[tactic(auto, using(crate::proofs::Laws::on_kind))]
fn attribute_lands(place: Place) -> bool
    requires some { 0 < size_of (token_of place.bytes.now place.offset place.depth) }
    requires attribute { byte_at place.bytes.now 0 ≡ 0x19 }
    ensures { result ≡ all_land place.entry.bytes.now place.entry.offset place.entry.depth (targets_by (byte_at place.entry.bytes.now 1) place.entry.bytes.now) }
{
    let word = usize::from(byte_numbers::u16_at(place.bytes, 2));
    match place.bytes[1] {
        0x02 => lands_on(place, 4 + word),
        0x08 => lands_on(place, 4 + word + 1),
        0x04 => table_lands(place, word + 1),
        _ => true,
    }
}

// All jumps of a token land. The place's bytes end where the token's level does.
#[tactic(auto, using(crate::proofs::Laws::any_token))]
pub fn jumps_land(place: Place) -> bool
    requires { 0 < size_of (token_of place.bytes.now place.offset place.depth) }
    ensures { result ≡ lands_of place.entry.bytes.now place.entry.offset place.entry.depth }
{
    place.bytes[0] != 0x19 || attribute_lands(place)
}
