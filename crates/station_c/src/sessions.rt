// The profile and the cadence as C functions: what the crate `session_answers` answers. The archive has the C functions of this crate alone.
ghost use Rattle.std.specs.Prelude.{◌≡◌};
ghost use Rattle.profile.specs.Profile.{profile_of};
ghost use Rattle.cadence.specs.Cadence.{cadence_of};
ghost use Rattle.cadence.specs.Steps.{next_pair_of, pairs_of};
ghost use Rattle.session_answers.specs.Answers.{profile_seen, pair_seen, start_seen, position_of, step_seen};

use session_answers::{Pair, Pairs, Profile, Step};

#[unsafe(no_mangle)]
pub extern "C" fn station_profile(s: &[u8]) -> Profile
    ensures { result ≡ profile_seen (profile_of s.now) }
{
    session_answers::profile_seen(s)
}

#[unsafe(no_mangle)]
pub extern "C" fn station_cadence(s: &[u8], row: u32) -> Pair
    ensures { result ≡ pair_seen (cadence_of s.now row) }
{
    session_answers::cadence_seen(s, row)
}

#[unsafe(no_mangle)]
pub extern "C" fn station_pairs(s: &[u8]) -> Pairs
    ensures { result ≡ start_seen (pairs_of s.now) }
{
    session_answers::start_seen(s)
}

#[unsafe(no_mangle)]
pub extern "C" fn station_next_pair(
    s: &[u8],
    ticks: u16,
    turns: u16,
    seconds: u32,
    at: usize,
    part: u16,
    level: u8,
    columns: u32,
) -> Step
    ensures { result ≡ step_seen (next_pair_of s.now (position_of ticks turns seconds at part level columns)) }
{
    session_answers::next_seen(s, ticks, turns, seconds, at, part, level, columns)
}
