// Two sheets side by side: records that say the same in both are passed over, one after the other.
#![tactic(auto)]

ghost use Rattle.std.specs.Prelude.{◌≡◌};
ghost use Rattle.reading.specs.Cells.{place_at, listed_from};
ghost use Rattle.cell_addresses.specs.Addresses.{AscendFrom};
ghost use Rattle.records_abreast.specs.Abreast.{SameIf, Ahead};

mod pair;

use pair::Pair;
use reading::Place;

// Where the first stream goes on, and the second.
#[derive(Clone, Copy)]
pub struct Both {
    pub first: Place,
    pub second: Place,
}

// The bytes of the record at a, where that at b has the same cells.
// The cells lie in the bytes of two streams, which no derive compares.
#[tactic(auto, using(crate::proofs::Pairs::pair_same))]
fn same_record(s: &[u8], a: usize, t: &[u8], b: usize, common: u32) -> Option<usize>
    ensures { SameIf s.now t.now common a b result }
{
    let pair = Pair::at(s, a, t, b)?;
    if pair.same_address() && pair.same_values(common) {
        Some(4 + pair.size)
    } else {
        None
    }
}

// A place directly in the sheet, at the head of a record.
#[tactic(auto, unfolding(reading::specs::Cells::place_at))]
fn top(at: usize) -> Place
    ensures { result ≡ place_at at 0 }
{
    Place {
        at,
        part: 0,
        level: 0,
    }
}

// Past all records from a and from b on that say the same in both, and past those that have no cells.
#[tactic(auto, using(crate::proofs::Laws::pass_laws))]
fn pass_records(s: &[u8], a: usize, t: &[u8], b: usize, common: u32) -> Both
    requires { AscendFrom 0 (listed_from s.now (place_at a 0)) × AscendFrom 0 (listed_from t.now (place_at b 0)) }
    ensures { Ahead s.now t.now common (listed_from s.now (place_at a 0)) (listed_from t.now (place_at b 0)) (listed_from s.now result.first) (listed_from t.now result.second) }
{
    let mut x = a;
    let mut y = b;
    // The records themselves say where the next ones start: there is no index to count.
    loop {
        if let Some(size) = same_record(s, x, t, y, common) {
            x += size;
            y += size;
        } else {
            let next = reading::past_others(s, x, 0);
            let after = reading::past_others(t, y, 0);
            if next == x && after == y {
                return Both {
                    first: top(x),
                    second: top(y),
                };
            }
            x = next;
            y = after;
        }
    }
}

// From one place of each listing on; where both are at a record directly in the sheet.
#[tactic(auto, unfolding(reading::specs::Cells::place_at))]
pub fn pass_same(s: &[u8], v: Place, t: &[u8], w: Place, common: u32) -> Both
    requires { AscendFrom 0 (listed_from s.now v) × AscendFrom 0 (listed_from t.now w) }
    ensures { Ahead s.now t.now common (listed_from s.now v) (listed_from t.now w) (listed_from s.now result.first) (listed_from t.now result.second) }
{
    match (v, w) {
        (
            Place {
                at: a,
                part: 0,
                level: 0,
            },
            Place {
                at: b,
                part: 0,
                level: 0,
            },
        ) => pass_records(s, a, t, b, common),
        _ => Both {
            first: v,
            second: w,
        },
    }
}
