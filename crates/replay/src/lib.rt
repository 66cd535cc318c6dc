// Replay of a journal, forwards and backwards: one entry after the other, until one is refused. The addresses of many entries are looked up in one pass,
// so that a forged journal can't drive the time up. The journal is not written.
#![tactic(auto)]

ghost use Rattle.std.specs.Prelude.{◌≡◌, ◌+◌, ◌-◌, ◌*◌, ◌≤◌, ◌<◌, length};
ghost use Rattle.correction.specs.Parts.{AimWithin};
ghost use Rattle.correction.specs.Correction.{stream_after};
ghost use Rattle.journal.specs.Entries.{count_in, entry_in};
ghost use Rattle.replay_entry.specs.Parts.{entry_aimed};
ghost use Rattle.replay_entry.specs.Replay.{replay_in, replay_of, stream_ran, stream_replayed, answer_ran, answer_replayed};
ghost use Rattle.address_lookup.specs.Known.{Knows};
ghost use Rattle.replay.specs.Parts.{Passes, Formed, step_in, done_of, runs_by, turn_of};

use address_lookup::Lookup;
use correction::{Aim, Target};
use journal::Entry;
use refusal::Refusal;
use replay_entry::Replayed;

// On a stream with so many strings, whose template has so many sheets; backwards where `back` is true.
#[derive(Clone, Copy)]
struct Way {
    unique: u32,
    sheets: usize,
    back: bool,
}

// A journal that has all its entries.
#[derive(Clone, Copy)]
struct Entries<'a> {
    journal: &'a [u8],
    count: u32,
    ghost whole: { 16 + count * 28 ≤ length journal.now },
}

// ---- one entry
// The cell that the entry at `at` names: as it was looked up, or else by a walk.
#[tactic(auto, using(crate::proofs::Laws::aims_laws))]
fn entry_aim(s: &[u8], j: &[u8], at: usize, way: Way, lookup: &Lookup) -> Result<Aim, Refusal>
    requires { (at + 28 ≤ length j.now) × (length s.now ≤ 16777216) × Knows s.now lookup.now }
    ensures value { result ≡ entry_aimed way.unique way.sheets (entry_in j.now at) s.now }
    ensures aim_within { AimWithin (length s.now) result }
{
    match lookup.cell_of_entry(s, j, at, way.unique, way.sheets) {
        Target::One { kind, field } => Ok(Aim {
            kind,
            field,
            unique: way.unique,
        }),
        Target::None | Target::Many => {
            replay_entry::entry_aim(s, Entry::read(j, at), way.unique, way.sheets)
        }
    }
}

// The entry at `at` made again or undone; or the number of its refusal.
#[tactic(auto, using(crate::proofs::Running::step_laws))]
fn take_entry(s: &mut [u8], j: &[u8], at: usize, way: Way, lookup: &Lookup) -> Result<(), u8>
    requires { (at + 28 ≤ length j.now) × (length s.old ≤ 16777216) × Knows s.old lookup.now }
    ensures value { result ≡ done_of (step_in way.back way.unique way.sheets (entry_in j.now at) s.old) }
    ensures s_after { s.new ≡ stream_after s.old (step_in way.back way.unique way.sheets (entry_in j.now at) s.old) }
{
    let aim = entry_aim(&s[..], j, at, way, lookup);
    let write = replay_entry::entry_step(&s[..], Entry::read(j, at), aim, way.back)?;
    byte_numbers::store(s, write.field, value::width_of(write.kind), write.number);
    Ok(())
}

// ---- batches
// How many of the entries that are left are looked up at once.
fn batch(left: u32) -> usize
    ensures { (result ≤ left) × (result ≤ 3072) }
{
    left.min(3072) as usize
}

// Where so many entries stand that come next, after `done` of them.
fn batch_start(back: bool, count: u32, done: u32, many: usize) -> usize
    requires { (done ≤ count) × (many ≤ count - done) }
    ensures { result + many * 28 ≤ 16 + count * 28 }
{
    if back {
        return 16 + ((count - done) as usize - many) * 28;
    }
    16 + done as usize * 28
}

// The addresses of the entries that come after `done` of them, where those of a batch are done.
fn refill(s: &[u8], entries: Entries<'_>, back: bool, done: u32, lookup: &mut Lookup)
    requires { (length s.now ≤ 16777216) × (done ≤ entries.count) × Knows s.now lookup.old }
    ensures { Knows s.now lookup.new }
{
    if done % 3072 == 0 {
        let many = batch(entries.count - done);
        let from = batch_start(back, entries.count, done, many);
        lookup.look_up(s, entries.journal, from, many);
    }
}

// ---- all entries
// The entry that comes after `done` of them: from the first on, or from the last on where `back` is true.
#[tactic(auto, using(crate::proofs::Running::turn_laws))]
fn turn(back: bool, count: u32, done: u32) -> u32
    requires { done < count }
    ensures value { result ≡ turn_of back count done }
    ensures upper_bound { result < count }
{
    if back {
        return count - 1 - done;
    }
    done
}

// It stays out of its callers' frames, which have a check below them: a check and the lookup together would be too deep.
#[inline(never)]
#[tactic(auto, using(crate::proofs::Laws::running_start))]
fn run(s: &mut [u8], entries: Entries<'_>, way: Way) -> Replayed
    requires { Passes s.old way.unique × Formed entries.journal.now entries.count }
    ensures value { result ≡ answer_ran entries.entry.count (runs_by way.back way.unique way.sheets entries.entry.journal.now entries.entry.count s.old) }
    ensures s_after { s.new ≡ stream_ran (runs_by way.back way.unique way.sheets entries.entry.journal.now entries.entry.count s.old) }
{
    let mut lookup = Lookup::new();
    for done in 0..entries.count {
        refill(&s[..], entries, way.back, done, &mut lookup);
        let entry = turn(way.back, entries.count, done);
        let at = journal::entry_at(entry);
        if let Err(number) = take_entry(s, entries.journal, at, way, &lookup) {
            return Replayed::Stopped { number, entry };
        }
    }
    Replayed::All(entries.count)
}

// Replay a journal on a stream that passes, with `unique` strings, backwards where `back` is true; `sheets` is how many sheets the template has. Entries before
// one that is refused stay made. Only this crate and `pair_journal` call it, each after the check.
#[tactic(auto, using(crate::proofs::Running::replay_laws))]
pub fn replay_in(
    s: &mut [u8],
    j: &[u8],
    unique: u32,
    sheets: usize,
    back: bool,
) -> Result<Replayed, Refusal>
    requires { Passes s.old unique }
    ensures value { result ≡ answer_replayed (count_in j.now) (replay_in s.old unique sheets j.now back) }
    ensures s_after { s.new ≡ stream_replayed s.old (replay_in s.old unique sheets j.now back) }
{
    if !journal::journal_fits(j, s.len(), unique) {
        return Err(Refusal {
            number: 21,
            offset: 0,
        });
    }
    let entries = Entries {
        journal: j,
        count: byte_numbers::u32_at(j, 0),
    };
    let way = Way {
        unique,
        sheets,
        back,
    };
    Ok(run(s, entries, way))
}

// Replay a journal on a stream.
#[tactic(auto, using(crate::proofs::Laws::passes_by), unfolding(replay_entry::specs::Replay::replay_of))]
pub fn replay(s: &mut [u8], j: &[u8], back: bool) -> Result<Replayed, Refusal>
    ensures value { result ≡ answer_replayed (count_in j.now) (replay_of s.old 0 0 j.now back) }
    ensures s_after { s.new ≡ stream_replayed s.old (replay_of s.old 0 0 j.now back) }
{
    let globals = workbook::check_with(&s[..], 0)?;
    replay_in(s, j, globals.unique, 0, back)
}
