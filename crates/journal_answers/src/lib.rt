// The answers about journals in plain numbers, as C has them.
#![tactic(auto)]

ghost use Rattle.std.specs.Prelude.{◌≡◌, length};
ghost use Rattle.correction.specs.Correction.{answer_of as corrected_of, stream_after};
ghost use Rattle.journal.specs.Entries.{count_in};
ghost use Rattle.journal.specs.Journal.{start_of, start_answer, started_journal, journalled_of, journal_after};
ghost use Rattle.replay_entry.specs.Replay.{replay_of, stream_replayed, answer_replayed};
ghost use Rattle.pair.specs.Pair.{answer_of, session_after};
ghost use Rattle.pair_journal.specs.Journals.{pair_start_of, start_answer as pair_start_answer, journal_started, pair_journalled_of, pair_journal_after, pair_replay_of, session_replayed, pair_replay_answer};
ghost use Rattle.pair_answers.specs.Answers.{answer_seen as pair_seen};
ghost use Rattle.journal_answers.specs.Answers.{answer_seen, replay_seen, pair_replay_seen};

use new_value::NewValue;
use pair::PairRefusal;
use refusal::Refusal;
use replay_entry::Replayed;

#[repr(C)]
#[derive(Clone, Copy, Default)]
pub struct Answer {
    pub number: u8,
    pub offset: usize,
}

// How many entries were replayed, or the number of the entry that stopped it.
#[repr(C)]
#[derive(Clone, Copy, Default)]
pub struct Outcome {
    pub number: u8,
    pub offset: usize,
    pub stopped: bool,
    pub entries: u32,
}

#[repr(C)]
#[derive(Clone, Copy, Default)]
pub struct PairOutcome {
    pub whose: u8,
    pub number: u8,
    pub offset: usize,
    pub stopped: bool,
    pub entries: u32,
}

// ---- one stream
fn answer_seen(answer: Result<(), Refusal>) -> Answer
    ensures { result ≡ answer_seen answer }
{
    match answer {
        Ok(()) => Answer::default(),
        Err(Refusal { number, offset }) => Answer { number, offset },
    }
}

fn replay_seen(answer: Result<Replayed, Refusal>) -> Outcome
    ensures { result ≡ replay_seen answer }
{
    match answer {
        Ok(Replayed::All(entries)) => Outcome {
            entries,
            ..Outcome::default()
        },
        Ok(Replayed::Stopped { number, entry }) => Outcome {
            number,
            stopped: true,
            entries: entry,
            ..Outcome::default()
        },
        Err(Refusal { number, offset }) => Outcome {
            number,
            offset,
            ..Outcome::default()
        },
    }
}

pub fn start(s: &[u8], j: &mut [u8]) -> Answer
    ensures value { result ≡ answer_seen (start_answer (start_of s.now 0 (length j.old))) }
    ensures j_after { j.new ≡ started_journal s.now j.old (start_of s.now 0 (length j.old)) }
{
    answer_seen(journal::start(s, j))
}

pub fn correct(
    s: &mut [u8],
    j: &mut [u8],
    sheet: u32,
    row: u32,
    column: u32,
    value: NewValue,
) -> Answer
    ensures value { result ≡ answer_seen (corrected_of (journalled_of s.old 0 0 j.old sheet row column value)) }
    ensures s_after { s.new ≡ stream_after s.old (journalled_of s.old 0 0 j.old sheet row column value) }
    ensures j_after { j.new ≡ journal_after s.old j.old sheet row column value (journalled_of s.old 0 0 j.old sheet row column value) }
{
    answer_seen(journal::correct(s, j, sheet, row, column, value))
}

pub fn replay(s: &mut [u8], j: &[u8], back: bool) -> Outcome
    ensures value { result ≡ replay_seen (answer_replayed (count_in j.now) (replay_of s.old 0 0 j.now back)) }
    ensures s_after { s.new ≡ stream_replayed s.old (replay_of s.old 0 0 j.now back) }
{
    replay_seen(replay::replay(s, j, back))
}

// ---- a session over a template
fn pair_replay_seen(answer: Result<Replayed, PairRefusal>) -> PairOutcome
    ensures { result ≡ pair_replay_seen answer }
{
    match answer {
        Ok(Replayed::All(entries)) => PairOutcome {
            entries,
            ..PairOutcome::default()
        },
        Ok(Replayed::Stopped { number, entry }) => PairOutcome {
            number,
            stopped: true,
            entries: entry,
            ..PairOutcome::default()
        },
        Err(refusal) => PairOutcome {
            whose: pair_answers::of_number(refusal.of),
            number: refusal.number,
            offset: refusal.offset,
            ..PairOutcome::default()
        },
    }
}

pub fn pair_start(template: &[u8], session: &[u8], j: &mut [u8]) -> pair_answers::Answer
    ensures value { result ≡ pair_seen (pair_start_answer (pair_start_of template.now session.now (length j.old))) }
    ensures j_after { j.new ≡ journal_started session.now j.old (pair_start_of template.now session.now (length j.old)) }
{
    pair_answers::answer_seen(pair_journal::pair_start(template, session, j))
}

pub fn pair_correct(
    template: &[u8],
    session: &mut [u8],
    j: &mut [u8],
    sheet: u32,
    row: u32,
    column: u32,
    value: NewValue,
) -> pair_answers::Answer
    ensures value { result ≡ pair_seen (answer_of (pair_journalled_of template.now session.old j.old sheet row column value)) }
    ensures session_after { session.new ≡ session_after session.old (pair_journalled_of template.now session.old j.old sheet row column value) }
    ensures j_after { j.new ≡ pair_journal_after session.old j.old sheet row column value (pair_journalled_of template.now session.old j.old sheet row column value) }
{
    pair_answers::answer_seen(pair_journal::pair_journalled(
        template, session, j, sheet, row, column, value,
    ))
}

pub fn pair_replay(template: &[u8], session: &mut [u8], j: &[u8], back: bool) -> PairOutcome
    ensures value { result ≡ pair_replay_seen (pair_replay_answer (count_in j.now) (pair_replay_of template.now session.old j.now back)) }
    ensures session_after { session.new ≡ session_replayed session.old (pair_replay_of template.now session.old j.now back) }
{
    pair_replay_seen(pair_journal::pair_replay(template, session, j, back))
}
