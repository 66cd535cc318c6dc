// The journal of corrections and its replay, as C functions: what the crate `journal_answers` answers. The archive has the C functions of this crate alone.
ghost use Rattle.std.specs.Prelude.{◌≡◌, length};
ghost use Rattle.correction.specs.Correction.{answer_of as corrected_of, stream_after};
ghost use Rattle.journal.specs.Entries.{count_in};
ghost use Rattle.journal.specs.Journal.{start_of, start_answer, started_journal, journalled_of, journal_after};
ghost use Rattle.replay_entry.specs.Replay.{replay_of, stream_replayed, answer_replayed};
ghost use Rattle.pair.specs.Pair.{answer_of, session_after};
ghost use Rattle.pair_journal.specs.Journals.{pair_start_of, start_answer as pair_start_answer, journal_started, pair_journalled_of, pair_journal_after, pair_replay_of, session_replayed, pair_replay_answer};
ghost use Rattle.pair_answers.specs.Answers.{answer_seen as pair_seen};
ghost use Rattle.journal_answers.specs.Answers.{answer_seen, replay_seen, pair_replay_seen};
ghost use Rattle.station_c.specs.Answers.{new_value};

use journal_answers::{Answer, Outcome, PairOutcome};

#[unsafe(no_mangle)]
pub extern "C" fn station_journal_start(s: &[u8], journal: &mut [u8]) -> Answer
    ensures value { result ≡ answer_seen (start_answer (start_of s.now 0 (length journal.old))) }
    ensures journal_after { journal.new ≡ started_journal s.now journal.old (start_of s.now 0 (length journal.old)) }
{
    journal_answers::start(s, journal)
}

// A new value by its kind, as for `station_correct`.
#[unsafe(no_mangle)]
pub extern "C" fn station_journal_correct(
    s: &mut [u8],
    journal: &mut [u8],
    sheet: u32,
    row: u32,
    column: u32,
    kind: u8,
    number: f64,
    index: u32,
    byte: u8,
) -> Answer
    ensures value { result ≡ answer_seen (corrected_of (journalled_of s.old 0 0 journal.old sheet row column (new_value kind number index byte))) }
    ensures s_after { s.new ≡ stream_after s.old (journalled_of s.old 0 0 journal.old sheet row column (new_value kind number index byte)) }
    ensures journal_after { journal.new ≡ journal_after s.old journal.old sheet row column (new_value kind number index byte) (journalled_of s.old 0 0 journal.old sheet row column (new_value kind number index byte)) }
{
    let value = crate::new_value(kind, number, index, byte);
    journal_answers::correct(s, journal, sheet, row, column, value)
}

#[unsafe(no_mangle)]
pub extern "C" fn station_replay(s: &mut [u8], journal: &[u8], backwards: bool) -> Outcome
    ensures value { result ≡ replay_seen (answer_replayed (count_in journal.now) (replay_of s.old 0 0 journal.now backwards)) }
    ensures s_after { s.new ≡ stream_replayed s.old (replay_of s.old 0 0 journal.now backwards) }
{
    journal_answers::replay(s, journal, backwards)
}

// ---- a session over a template
#[unsafe(no_mangle)]
pub extern "C" fn station_pair_journal_start(
    template: &[u8],
    session: &[u8],
    journal: &mut [u8],
) -> pair_answers::Answer
    ensures value { result ≡ pair_seen (pair_start_answer (pair_start_of template.now session.now (length journal.old))) }
    ensures journal_after { journal.new ≡ journal_started session.now journal.old (pair_start_of template.now session.now (length journal.old)) }
{
    journal_answers::pair_start(template, session, journal)
}

#[unsafe(no_mangle)]
pub extern "C" fn station_pair_journal_correct(
    template: &[u8],
    session: &mut [u8],
    journal: &mut [u8],
    sheet: u32,
    row: u32,
    column: u32,
    kind: u8,
    number: f64,
    index: u32,
    byte: u8,
) -> pair_answers::Answer
    ensures value { result ≡ pair_seen (answer_of (pair_journalled_of template.now session.old journal.old sheet row column (new_value kind number index byte))) }
    ensures session_after { session.new ≡ session_after session.old (pair_journalled_of template.now session.old journal.old sheet row column (new_value kind number index byte)) }
    ensures journal_after { journal.new ≡ pair_journal_after session.old journal.old sheet row column (new_value kind number index byte) (pair_journalled_of template.now session.old journal.old sheet row column (new_value kind number index byte)) }
{
    let value = crate::new_value(kind, number, index, byte);
    journal_answers::pair_correct(template, session, journal, sheet, row, column, value)
}

#[unsafe(no_mangle)]
pub extern "C" fn station_pair_replay(
    template: &[u8],
    session: &mut [u8],
    journal: &[u8],
    backwards: bool,
) -> PairOutcome
    ensures value { result ≡ pair_replay_seen (pair_replay_answer (count_in journal.now) (pair_replay_of template.now session.old journal.now backwards)) }
    ensures session_after { session.new ≡ session_replayed session.old (pair_replay_of template.now session.old journal.now backwards) }
{
    journal_answers::pair_replay(template, session, journal, backwards)
}
