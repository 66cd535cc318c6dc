// The profile and the cadence in plain numbers, as C sees them. A refusal's number is 0 where there is none, and what isn't answered is 0.
#![tactic(auto)]

ghost use Rattle.std.specs.Prelude.{◌≡◌};
ghost use Rattle.profile.specs.Profile.{profile_of};
ghost use Rattle.cadence.specs.Cadence.{cadence_of};
ghost use Rattle.cadence.specs.Steps.{next_pair_of, pairs_of};
ghost use Rattle.session_answers.specs.Answers.{profile_seen, between_seen, pair_seen, start_seen, position_of, step_seen};

use cadence::{Cadence, NextPair, Position, Row};
use reading::Place;

// How many rows and columns.
#[repr(C)]
#[derive(Clone, Copy, Default)]
pub struct Profile {
    pub number: u8,
    pub offset: usize,
    pub rows: u32,
    pub columns: u32,
}

// Two neighbouring rows, by kind: 0 refused, 1 a pause, 2 no cadence, 3 a cadence.
#[repr(C)]
#[derive(Clone, Copy, Default)]
pub struct Pair {
    pub number: u8,
    pub offset: usize,
    pub kind: u8,
    pub ticks: u16,
    pub turns: u16,
    pub cadence: u32,
}

// Where the pairs start: the first row, the place after it, how many columns.
#[repr(C)]
#[derive(Clone, Copy, Default)]
pub struct Pairs {
    pub number: u8,
    pub offset: usize,
    pub ticks: u16,
    pub turns: u16,
    pub seconds: u32,
    pub at: usize,
    pub part: u16,
    pub level: u8,
    pub columns: u32,
}

// The next pair, of kind 0 where they have ended; then its later row and the place after that.
#[repr(C)]
#[derive(Clone, Copy, Default)]
pub struct Step {
    pub kind: u8,
    pub elapsed: u16,
    pub turned: u16,
    pub cadence: u32,
    pub ticks: u16,
    pub turns: u16,
    pub seconds: u32,
    pub at: usize,
    pub part: u16,
    pub level: u8,
}

// Whether a stream is inside the profile.
pub fn profile_seen(s: &[u8]) -> Profile
    ensures { result ≡ profile_seen (profile_of s.now) }
{
    match profile::profile(s) {
        Ok(session) => Profile {
            rows: session.rows,
            columns: session.columns,
            ..Profile::default()
        },
        Err(refusal) => Profile {
            number: refusal.number,
            offset: refusal.offset,
            ..Profile::default()
        },
    }
}

fn between_seen(a: Cadence) -> Pair
    ensures { result ≡ between_seen a }
{
    match a {
        Cadence::Pause => Pair {
            kind: 1,
            ..Pair::default()
        },
        Cadence::Still { turns } => Pair {
            kind: 2,
            turns,
            ..Pair::default()
        },
        Cadence::Elapsed {
            ticks,
            turns,
            cadence,
        } => Pair {
            kind: 3,
            ticks,
            turns,
            cadence,
            ..Pair::default()
        },
    }
}

// What lies between a row and the next.
pub fn cadence_seen(s: &[u8], row: u32) -> Pair
    ensures { result ≡ pair_seen (cadence_of s.now row) }
{
    match cadence::cadence_at(s, row) {
        Ok(a) => between_seen(a),
        Err(refusal) => Pair {
            number: refusal.number,
            offset: refusal.offset,
            ..Pair::default()
        },
    }
}

// Where the pairs start, for `next_seen`.
pub fn start_seen(s: &[u8]) -> Pairs
    ensures { result ≡ start_seen (pairs_of s.now) }
{
    match cadence::pairs(s) {
        Ok(start) => Pairs {
            ticks: start.earlier.ticks,
            turns: start.earlier.turns,
            seconds: start.earlier.seconds,
            at: start.cells.at,
            part: start.cells.part,
            level: start.cells.level,
            columns: start.columns,
            ..Pairs::default()
        },
        Err(refusal) => Pairs {
            number: refusal.number,
            offset: refusal.offset,
            ..Pairs::default()
        },
    }
}

fn step_seen(pair: NextPair) -> Step
    ensures { result ≡ step_seen (Some pair) }
{
    let between = between_seen(pair.answer);
    Step {
        kind: between.kind,
        elapsed: between.ticks,
        turned: between.turns,
        cadence: between.cadence,
        ticks: pair.next.earlier.ticks,
        turns: pair.next.earlier.turns,
        seconds: pair.next.earlier.seconds,
        at: pair.next.cells.at,
        part: pair.next.cells.part,
        level: pair.next.cells.level,
    }
}

// The next pair from a position on: the earlier row, the place after it, how many columns.
pub fn next_seen(
    s: &[u8],
    ticks: u16,
    turns: u16,
    seconds: u32,
    at: usize,
    part: u16,
    level: u8,
    columns: u32,
) -> Step
    ensures { result ≡ step_seen (next_pair_of s.now (position_of ticks turns seconds at part level columns)) }
{
    let from = Position {
        earlier: Row {
            ticks,
            turns,
            seconds,
        },
        cells: Place { at, part, level },
        columns,
    };
    match cadence::next_pair(s, from) {
        Some(pair) => step_seen(pair),
        None => Step::default(),
    }
}
