// Journal and replay of a session over a template.
#![tactic(auto)]

ghost use Rattle.std.specs.Prelude.{◌≡◌, length};
ghost use Rattle.journal.specs.Entries.{count_in};
ghost use Rattle.pair.specs.Pair.{answer_of, session_after};
ghost use Rattle.pair_journal.specs.Journals.{pair_start_of, start_answer, journal_started, pair_journalled_of, pair_journal_after, pair_replay_of, session_replayed, pair_replay_answer};

use new_value::NewValue;
use pair::PairRefusal;
use replay_entry::Replayed;

// Start a journal for a session.
#[tactic(auto, using(crate::proofs::Laws::start_laws), unfolding(crate::specs::Journals::pair_start_of))]
pub fn pair_start(template: &[u8], session: &[u8], j: &mut [u8]) -> Result<(), PairRefusal>
    ensures value { result ≡ start_answer (pair_start_of template.now session.now (length j.old)) }
    ensures j_after { j.new ≡ journal_started session.now j.old (pair_start_of template.now session.now (length j.old)) }
{
    let unique = pair::pair_check(template, session)?.session.unique;
    journal::start_in(session, j, unique)?;
    Ok(())
}

// Correct a cell of a session and write the entry.
#[tactic(auto, using(crate::proofs::Laws::journalled_laws), unfolding(crate::specs::Journals::pair_journalled_of))]
pub fn pair_journalled(
    template: &[u8],
    session: &mut [u8],
    j: &mut [u8],
    sheet: u32,
    row: u32,
    column: u32,
    value: NewValue,
) -> Result<(), PairRefusal>
    ensures value { result ≡ answer_of (pair_journalled_of template.now session.old j.old sheet row column value) }
    ensures session_after { session.new ≡ session_after session.old (pair_journalled_of template.now session.old j.old sheet row column value) }
    ensures j_after { j.new ≡ pair_journal_after session.old j.old sheet row column value (pair_journalled_of template.now session.old j.old sheet row column value) }
{
    let unique = pair::pair_check(template, &session[..])?.session.unique;
    let sheets = workbook::sheet_count(template);
    journal::correct_in(session, j, unique, sheets, sheet, row, column, value)?;
    Ok(())
}

// Replay a journal on a session, backwards where `back` is true. Where the session or the journal is refused, nothing is written.
#[tactic(auto, using(crate::proofs::Laws::replay_laws), unfolding(crate::specs::Journals::pair_replay_of))]
pub fn pair_replay(
    template: &[u8],
    session: &mut [u8],
    j: &[u8],
    back: bool,
) -> Result<Replayed, PairRefusal>
    ensures value { result ≡ pair_replay_answer (count_in j.now) (pair_replay_of template.now session.old j.now back) }
    ensures session_after { session.new ≡ session_replayed session.old (pair_replay_of template.now session.old j.now back) }
{
    let unique = pair::pair_check(template, &session[..])?.session.unique;
    let sheets = workbook::sheet_count(template);
    let replayed = replay::replay_in(session, j, unique, sheets, back)?;
    Ok(replayed)
}
