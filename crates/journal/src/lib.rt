// A journal of granted corrections: its form, and what is written to it; start one; correct a cell and write the entry.
#![tactic(auto)]

ghost use Rattle.std.specs.Prelude.{◌≡◌, ◌+◌, ◌*◌, ◌≤◌, length};
ghost use Rattle.byte_numbers.specs.Bytes.{num_at, bytes_of};
ghost use Rattle.value.specs.Value.{width_of};
ghost use Rattle.journal.specs.Entries.{header, entry_at, entry_in, entry_fits, entries_fit, journal_fits, room_for, entered, logged};
ghost use Rattle.journal.specs.EntryParts.{Room, RoomIf};
ghost use Rattle.std.proofs.lemmas.List.Edits.{sets};
ghost use Rattle.correction.specs.Correction.{answer_of, stream_after};
ghost use Rattle.journal.specs.Journal.{start_in, start_of, start_answer, started_journal, on_room, spot_in, journalled_in, journalled_of, kind_of, number_of, journal_after, entry_of};
ghost use Rattle.journal.specs.Parts.{SpotWithin};

use correction::Aim;
use new_value::NewValue;
use refusal::Refusal;
use value::Field;

// An entry: a cell's address, its new value as a number, and the bytes that its value field held, as a number.
#[derive(Clone, Copy, Debug, PartialEq, Eq)]
pub struct Entry {
    pub sheet: u32,
    pub row: u32,
    pub column: u32,
    // of the new value: number 0, index 1, truth 2, error 3
    pub kind: u16,
    // how many old bytes
    pub width: usize,
    pub old: u64,
    pub new: u64,
}

impl Entry {
    // The entry at `at`.
    // Only this crate and those above it call it, each for an entry that lies in the journal. Inlined, so that what is looked at of an entry is read where it stands.
    #[inline(always)]
    #[tactic(auto, unfolding(crate::specs::Entries::entry_in))]
    pub fn read(j: &[u8], at: usize) -> Entry
        requires { at + 28 ≤ length j.now }
        ensures { result ≡ entry_in j.now at }
    {
        Entry {
            sheet: byte_numbers::u32_at(j, at),
            row: u32::from(byte_numbers::u16_at(j, at + 4)),
            column: u32::from(byte_numbers::u16_at(j, at + 6)),
            kind: byte_numbers::u16_at(j, at + 8),
            width: usize::from(byte_numbers::u16_at(j, at + 10)),
            old: byte_numbers::u64_at(j, at + 12),
            new: byte_numbers::u64_at(j, at + 20),
        }
    }

    // The old bytes are as many as the kind has, and all bytes after them and after the new value are zero.
    #[tactic(auto, using(steps::proofs::Choice::picks), unfolding(crate::specs::Entries::entry_fits, crate::specs::Entries::number_fits, crate::specs::Entries::counts_fit))]
    fn fits(self) -> bool
        ensures { result ≡ entry_fits self.kind self.width self.old self.new }
    {
        match (self.kind, self.width) {
            (0, 8) => true,
            (0, 4) => self.old < 0x1_0000_0000,
            (1, 4) => self.old < 0x1_0000_0000 && self.new < 0x1_0000_0000,
            (2 | 3, 2) => self.old < 0x1_0000 && self.new < 0x100,
            _ => false,
        }
    }

    #[tactic(auto, unfolding(crate::specs::Entries::entered))]
    fn write(self, j: &mut [u8], at: usize)
        requires { at + 28 ≤ length j.old }
        ensures { j.new ≡ entered at self j.old }
    {
        byte_numbers::store(j, at, 4, u64::from(self.sheet));
        byte_numbers::store(j, at + 4, 2, u64::from(self.row));
        byte_numbers::store(j, at + 6, 2, u64::from(self.column));
        byte_numbers::store(j, at + 8, 2, u64::from(self.kind));
        byte_numbers::store(j, at + 10, 2, self.width as u64);
        byte_numbers::store(j, at + 12, 8, self.old);
        byte_numbers::store(j, at + 20, 8, self.new);
    }
}

// Where the i-th entry stands.
pub fn entry_at(i: u32) -> usize
    ensures { result ≡ entry_at i }
{
    16 + i as usize * 28
}

// ---- the form of a journal
// Each of the entries is well-formed.
#[tactic(auto, using(crate::proofs::Entries::entries_laws))]
fn entries_fit(j: &[u8], count: u32) -> bool
    requires { entry_at count ≤ length j.now }
    ensures { result ≡ entries_fit j.now 16 count }
{
    for i in 0..count {
        if !Entry::read(j, entry_at(i)).fits() {
            return false;
        }
    }
    true
}

// The journal is well-formed, and for a stream of this length and unique count.
#[tactic(auto, using(steps::proofs::Choice::picks), unfolding(crate::specs::Entries::journal_fits))]
pub fn journal_fits(j: &[u8], len: usize, unique: u32) -> bool
    ensures { result ≡ journal_fits j.now len unique }
{
    if j.len() < 16
        || byte_numbers::u32_at(j, 4) != 16
        || byte_numbers::u32_at(j, 8) as usize != len
        || byte_numbers::u32_at(j, 12) != unique
    {
        return false;
    }
    let count = byte_numbers::u32_at(j, 0);
    entry_at(count) <= j.len() && entries_fit(j, count)
}

// There is room for one more entry, and the count can grow.
#[tactic(auto, using(steps::proofs::Choice::picks), unfolding(crate::specs::Entries::room_for))]
fn room_for(j: &[u8]) -> bool
    requires { 16 ≤ length j.now }
    ensures value { result ≡ room_for j.now }
    ensures room_if { RoomIf j.now result }
{
    let count = byte_numbers::u32_at(j, 0);
    count < u32::MAX && entry_at(count + 1) <= j.len()
}

// ---- what is written
// The number of the value field of this kind at a place: an entry's old bytes.
// Only this crate and `replay_entry` call it, each for the field of a cell that was found.
#[tactic(auto, using(crate::proofs::Entries::number_none))]
pub fn field_number(s: &[u8], kind: Field, at: usize) -> u64
    requires { at + width_of kind ≤ length s.now }
    ensures { result ≡ num_at s.now (width_of kind) at }
{
    match kind {
        Field::NoField => 0,
        Field::Float | Field::StoredResult => byte_numbers::u64_at(s, at),
        Field::RkWord | Field::TextIndex => u64::from(byte_numbers::u32_at(s, at)),
        Field::TruthError => u64::from(byte_numbers::u16_at(s, at)),
    }
}

#[tactic(auto, unfolding(crate::specs::Entries::header))]
fn put_header(j: &mut [u8], len: usize, unique: u32)
    requires { (16 ≤ length j.old) × (len ≤ 16777216) }
    ensures { j.new ≡ header len unique j.old }
{
    byte_numbers::store(j, 0, 4, 0);
    byte_numbers::store(j, 4, 4, 16);
    byte_numbers::store(j, 8, 4, len as u64);
    byte_numbers::store(j, 12, 4, u64::from(unique));
}

// One entry more, and its count.
#[tactic(auto, unfolding(crate::specs::Entries::logged))]
fn append(j: &mut [u8], entry: Entry)
    requires { Room j.old }
    ensures { j.new ≡ logged entry j.old }
{
    let count = byte_numbers::u32_at(&j[..], 0);
    entry.write(j, entry_at(count));
    byte_numbers::store(j, 0, 4, u64::from(count) + 1);
}

// Start a journal for a stream that passes, with `unique` strings.
// Only this crate and `pair_journal` call it, each after the check.
#[tactic(auto, using(crate::proofs::Laws::start_laws))]
pub fn start_in(s: &[u8], j: &mut [u8], unique: u32) -> Result<(), Refusal>
    requires { length s.now ≤ 16777216 }
    ensures value { result ≡ start_answer (start_in unique (length j.old)) }
    ensures j_after { j.new ≡ started_journal s.now j.old (start_in unique (length j.old)) }
{
    if j.len() < 16 {
        return Err(refused(12));
    }
    put_header(j, s.len(), unique);
    Ok(())
}

// Start a journal.
#[tactic(auto, using(workbook::proofs::Laws::short), unfolding(crate::specs::Journal::start_of))]
pub fn start(s: &[u8], j: &mut [u8]) -> Result<(), Refusal>
    ensures value { result ≡ start_answer (start_of s.now 0 (length j.old)) }
    ensures j_after { j.new ≡ started_journal s.now j.old (start_of s.now 0 (length j.old)) }
{
    let globals = workbook::check_with(s, 0)?;
    start_in(s, j, globals.unique)
}

// ---- a journalled correction
fn refused(number: u8) -> Refusal
    ensures { result ≡ record { number = number; offset = 0 } }
{
    Refusal { number, offset: 0 }
}

#[tactic(auto, using(crate::proofs::Laws::room_laws))]
fn on_room(aim: Result<Aim, Refusal>, room: bool) -> Result<Aim, Refusal>
    ensures { result ≡ on_room room aim }
{
    if room {
        return aim;
    }
    match aim {
        Err(refusal) if refusal.number != 16 => Err(refusal),
        _ => Err(refused(12)),
    }
}

// The one cell of an address in a stream that passes, where the journal has room: all refusals before the value is looked at.
#[tactic(auto, using(crate::proofs::Laws::spot_laws))]
fn spot(
    s: &[u8],
    j: &[u8],
    unique: u32,
    sheets: usize,
    sheet: u32,
    row: u32,
    column: u32,
) -> Result<Aim, Refusal>
    requires { length s.now ≤ 16777216 }
    ensures value { result ≡ spot_in s.now unique sheets j.now sheet row column }
    ensures spot_within { SpotWithin s.now j.now result }
{
    if !journal_fits(j, s.len(), unique) {
        return Err(refused(21));
    }
    let aim = correction::cell_of_address(s, unique, sheets, sheet, row, column);
    let room = room_for(j);
    on_room(aim, room)
}

fn kind_of(value: NewValue) -> u16
    ensures { result ≡ kind_of value }
{
    match value {
        NewValue::Number(_) => 0,
        NewValue::Text(_) => 1,
        NewValue::Truth(_) => 2,
        NewValue::Error(_) => 3,
    }
}

#[tactic(auto, using(crate::proofs::Laws::number_float))]
fn number_of(value: NewValue) -> u64
    ensures { result ≡ number_of value }
{
    match value {
        NewValue::Number(x) => number::bits_of(x),
        NewValue::Text(i) => u64::from(i),
        NewValue::Truth(byte) | NewValue::Error(byte) => u64::from(byte),
    }
}

// Correct a cell of a stream that passes, with `unique` strings, and write the entry; `sheets` is how many sheets the template has.
// Only this crate and `pair_journal` call it, each after the check.
#[tactic(auto, unfolding(crate::specs::Journal::journalled_in))]
pub fn correct_in(
    s: &mut [u8],
    j: &mut [u8],
    unique: u32,
    sheets: usize,
    sheet: u32,
    row: u32,
    column: u32,
    value: NewValue,
) -> Result<(), Refusal>
    requires { length s.old ≤ 16777216 }
    ensures value { result ≡ answer_of (journalled_in s.old unique sheets j.old sheet row column value) }
    ensures s_after { s.new ≡ stream_after s.old (journalled_in s.old unique sheets j.old sheet row column value) }
    ensures j_after { j.new ≡ journal_after s.old j.old sheet row column value (journalled_in s.old unique sheets j.old sheet row column value) }
{
    let aim = spot(&s[..], &j[..], unique, sheets, sheet, row, column)?;
    let n = new_value::plan_of(aim.kind, value, aim.unique)?;
    let width = value::width_of(aim.kind);
    let entry = Entry {
        sheet,
        row,
        column,
        kind: kind_of(value),
        width,
        old: field_number(&s[..], aim.kind, aim.field),
        new: number_of(value),
    };
    append(j, entry);
    byte_numbers::store(s, aim.field, width, n);
    Ok(())
}

// Correct a cell and write the entry.
#[tactic(auto, using(workbook::proofs::Laws::short), unfolding(crate::specs::Journal::journalled_of))]
pub fn correct(
    s: &mut [u8],
    j: &mut [u8],
    sheet: u32,
    row: u32,
    column: u32,
    value: NewValue,
) -> Result<(), Refusal>
    ensures value { result ≡ answer_of (journalled_of s.old 0 0 j.old sheet row column value) }
    ensures s_after { s.new ≡ stream_after s.old (journalled_of s.old 0 0 j.old sheet row column value) }
    ensures j_after { j.new ≡ journal_after s.old j.old sheet row column value (journalled_of s.old 0 0 j.old sheet row column value) }
{
    let globals = workbook::check_with(&s[..], 0)?;
    correct_in(s, j, globals.unique, 0, sheet, row, column, value)
}
