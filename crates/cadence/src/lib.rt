// Cadence: what lies between two neighbouring rows of a session.
#![tactic(auto)]

ghost use Rattle.std.specs.Prelude.{◌≡◌};
ghost use Rattle.cadence.specs.Cadence.{elapsed_of, measured_of, pair_of, cadence_of};
ghost use Rattle.cadence.specs.Steps.{next_number_of, next_row_of, next_pair_of, on_first, pairs_of, nth_pair};

use reading::Place;
use refusal::Refusal;

// Event ticks, turns, and the host's seconds, 0 where there is no third column.
#[derive(Clone, Copy)]
pub struct Row {
    pub ticks: u16,
    pub turns: u16,
    pub seconds: u32,
}

// A pause; the ticks and turns that elapsed and the cadence per minute; or the turns where no ticks elapsed, which gives no cadence.
#[derive(Clone, Copy)]
pub enum Cadence {
    Pause,
    Elapsed {
        ticks: u16,
        turns: u16,
        cadence: u32,
    },
    Still {
        turns: u16,
    },
}

// The number of the next cell, and the place after it.
#[derive(Clone, Copy)]
struct NextNumber {
    number: u32,
    next: Place,
}

// The next row, and the place after it.
#[derive(Clone, Copy)]
struct NextRow {
    row: Row,
    next: Place,
}

// Between two rows: the earlier one, the place of the cells after it, how many columns.
#[derive(Clone, Copy)]
pub struct Position {
    pub earlier: Row,
    pub cells: Place,
    pub columns: u32,
}

// What lies between the rows, and the position after it.
#[derive(Clone, Copy)]
pub struct NextPair {
    pub answer: Cadence,
    pub next: Position,
}

// ---- a row

#[tactic(auto, unfolding(crate::specs::Steps::next_number_of))]
fn next_number(s: &[u8], column: u32, from: Place) -> Option<NextNumber>
    ensures { result ≡ next_number_of s.now column from }
{
    let listed = listing::next_cell(s, from)?;
    Some(NextNumber {
        number: profile::amount_in(column, listed.cell.value)?,
        next: listed.next,
    })
}

#[tactic(auto, using(crate::proofs::Laws::row_laws), unfolding(crate::specs::Steps::next_row_of, crate::specs::Steps::seconds_row, crate::specs::Cadence::row_with, steps::specs::Choice::pick))]
fn next_row(s: &[u8], columns: u32, from: Place) -> Option<NextRow>
    ensures { result ≡ next_row_of s.now columns from }
{
    let ticks = next_number(s, 0, from)?;
    let turns = next_number(s, 1, ticks.next)?;
    let mut last = NextNumber {
        number: 0,
        next: turns.next,
    };
    if columns == 3 {
        last = next_number(s, 2, turns.next)?;
    }
    Some(NextRow {
        row: Row {
            ticks: ticks.number as u16,
            turns: turns.number as u16,
            seconds: last.number,
        },
        next: last.next,
    })
}

// ---- two neighbouring rows

#[tactic(auto, unfolding(crate::specs::Cadence::elapsed_of, steps::specs::Choice::pick))]
fn elapsed(earlier: u16, later: u16) -> u16
    ensures { result ≡ elapsed_of earlier later }
{
    later.wrapping_sub(earlier)
}

#[tactic(auto, unfolding(crate::specs::Cadence::measured_of, steps::specs::Choice::pick))]
fn measured(ticks: u16, turns: u16) -> Cadence
    ensures { result ≡ measured_of ticks turns }
{
    if ticks == 0 {
        return Cadence::Still { turns };
    }
    Cadence::Elapsed {
        ticks,
        turns,
        cadence: u32::from(turns) * 61440 / u32::from(ticks),
    }
}

#[tactic(auto, unfolding(crate::specs::Cadence::pair_of, steps::specs::Choice::pick))]
fn pair(a: Row, b: Row) -> Cadence
    ensures { result ≡ pair_of a b }
{
    if b.seconds.saturating_sub(a.seconds) >= 64 {
        return Cadence::Pause;
    }
    measured(elapsed(a.ticks, b.ticks), elapsed(a.turns, b.turns))
}

// ---- the pairs one after the other

// The next pair from a position on. It doesn't check the stream: `pairs` has. Over other bytes, or from a made-up position, it has an answer too, and each
// position that it gives is nearer the end.
#[tactic(auto, unfolding(crate::specs::Steps::next_pair_of, crate::specs::Steps::position_at))]
pub fn next_pair(s: &[u8], from: Position) -> Option<NextPair>
    ensures { result ≡ next_pair_of s.now from }
{
    let later = next_row(s, from.columns, from.cells)?;
    Some(NextPair {
        answer: pair(from.earlier, later.row),
        next: Position {
            earlier: later.row,
            cells: later.next,
            columns: from.columns,
        },
    })
}

#[tactic(auto, unfolding(crate::specs::Steps::position_at, crate::specs::Cadence::row_with))]
fn first_row(s: &[u8], columns: u32, from: Place) -> Position
    ensures { result ≡ on_first columns from (next_row_of s.now columns from) }
{
    let first = next_row(s, columns, from).unwrap_or(NextRow {
        row: Row {
            ticks: 0,
            turns: 0,
            seconds: 0,
        },
        next: from,
    });
    Position {
        earlier: first.row,
        cells: first.next,
        columns,
    }
}

// Where the pairs of neighbouring rows start, for `next_pair`.
#[tactic(auto, unfolding(crate::specs::Steps::pairs_of))]
pub fn pairs(s: &[u8]) -> Result<Position, Refusal>
    ensures { result ≡ pairs_of s.now }
{
    let session = profile::profile(s)?;
    Ok(first_row(s, session.columns, session.cells))
}

// What lies between the rows from a position on, pair by pair.
#[derive(Clone, Copy)]
struct RowPairs<'a> {
    stream: &'a [u8],
    position: Position,
}

impl<'a> Iterator for RowPairs<'a> {
    ghost use Rattle.std.specs.Iterator.{YieldsFirst, item_count};
    ghost use Rattle.cadence.specs.Left.{left};

    type Item = Cadence;

    ghost next_gives = { YieldsFirst left };

    ghost remaining = { item_count left };

    #[tactic(auto, using(crate::proofs::Steps::no_pair, crate::proofs::Steps::pair_given))]
    fn next(&mut self) -> Option<Cadence> {
        let pair = next_pair(self.stream, self.position)?;
        self.position = pair.next;
        Some(pair.answer)
    }
}

// The n-th pair from a position on; 11 where there is none.
fn nth_pair(s: &[u8], from: Position, n: u32) -> Result<Cadence, Refusal>
    ensures { result ≡ nth_pair s.now from n }
{
    let mut pairs = RowPairs {
        stream: s,
        position: from,
    };
    pairs.nth(n as usize).ok_or(Refusal {
        number: 11,
        offset: 0,
    })
}

// What lies between a row and the next.
#[tactic(auto, using(crate::proofs::Claims::cadence_laws))]
pub fn cadence_at(s: &[u8], row: u32) -> Result<Cadence, Refusal>
    ensures { result ≡ cadence_of s.now row }
{
    let start = pairs(s)?;
    nth_pair(s, start, row)
}
