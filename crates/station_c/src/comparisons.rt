// The comparison of two revisions as a C function. The archive has the C functions of this crate alone.
ghost use Rattle.std.specs.Prelude.{◌≡◌, length};
ghost use Rattle.compare.specs.Comparison.{comparison_of, answer_of, buffer_after};
ghost use Rattle.station_c.specs.Answers.{side_seen, compared_seen};

use crate::Comparison;
use compare::{CompareRefusal, Compared, Side};

// The first stream or the second.
fn side_number(side: Side) -> u8
    ensures { result ≡ side_seen side }
{
    match side {
        Side::First => 1,
        Side::Second => 2,
    }
}

impl From<Result<Compared, CompareRefusal>> for Comparison {
    ghost from_gives = { λ a y. y ≡ compared_seen a };

    fn from(answer: Result<Compared, CompareRefusal>) -> Comparison {
        match answer {
            Ok(listed) => Comparison {
                words: listed.words,
                more: listed.more,
                ..Comparison::default()
            },
            Err(e) => Comparison {
                number: e.number,
                which: side_number(e.side),
                offset: e.offset,
                ..Comparison::default()
            },
        }
    }
}

// The differences from a key on, a word each.
#[unsafe(no_mangle)]
pub extern "C" fn station_compare(
    first: &[u8],
    second: &[u8],
    from: u64,
    words: &mut [u64],
) -> Comparison
    ensures value { result ≡ compared_seen (answer_of (length words.old) (comparison_of first.now second.now from)) }
    ensures words_after { words.new ≡ buffer_after words.old (comparison_of first.now second.now from) }
{
    Comparison::from(compare::compare(first, second, from, words))
}
