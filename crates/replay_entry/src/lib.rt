// One entry of a journal, made again or undone: a number for a value field, or a refusal. The run over all entries is in the crate `replay`.
#![tactic(auto)]

ghost use Rattle.std.specs.Prelude.{◌≡◌, ◌+◌, ◌≤◌, length, IfOk};
ghost use Rattle.value.specs.Value.{width_of};
ghost use Rattle.correction.specs.Parts.{AimWithin};
ghost use Rattle.replay_entry.specs.Steps.{entry_plan, holds, passes_in, on_make, on_undo};
ghost use Rattle.replay_entry.specs.Parts.{entry_aimed, step_of, step_is};

use correction::Aim;
use journal::Entry;
use refusal::Refusal;
use value::Field;

// What an entry writes: a number into a value field.
#[derive(Clone, Copy)]
pub struct Write {
    pub kind: Field,
    pub field: usize,
    pub number: u64,
}

// All entries are made, so many; or the refusal of one, by its number, with the entry's number in the journal.
// It is no `Result`: the entries before the one that stopped stay made, so both cases tell how far a replay came. What is refused before the first entry is the `Err` beside it.
#[derive(Clone, Copy, Debug, PartialEq, Eq)]
pub enum Replayed {
    All(u32),
    Stopped { number: u8, entry: u32 },
}

// The number that a field of this kind takes for the new value.
#[tactic(auto, using(steps::proofs::Choice::arms), unfolding(crate::specs::Steps::entry_plan))]
fn entry_plan(entry: Entry, kind: Field, unique: u32) -> Result<u64, Refusal>
    ensures { result ≡ entry_plan kind entry.kind entry.new unique }
{
    let byte = (entry.new % 0x100) as u8;
    match entry.kind {
        0 => new_value::number_plan(kind, entry.new),
        1 => new_value::text_plan(kind, (entry.new % 0x1_0000_0000) as u32, unique),
        2 => new_value::pair_plan(kind, truth_error::is_truth(byte), u64::from(byte)),
        _ => new_value::pair_plan(kind, truth_error::is_error(byte), u64::from(byte) + 256),
    }
}

// The field has so many bytes, and they are the number n.
#[tactic(auto, using(steps::proofs::Choice::picks), unfolding(crate::specs::Steps::holds))]
fn holds(s: &[u8], kind: Field, field: usize, width: usize, n: u64) -> bool
    requires { field + width_of kind ≤ length s.now }
    ensures { result ≡ holds s.now kind field width n }
{
    width == value::width_of(kind) && journal::field_number(s, kind, field) == n
}

// The check passes the first bytes of n in a field of this kind.
#[tactic(auto, using(crate::proofs::Laws::pass_laws))]
fn passes_in(kind: Field, unique: u32, n: u64) -> bool
    ensures { result ≡ passes_in kind unique n }
{
    match kind {
        Field::NoField | Field::Float => true,
        Field::RkWord => !number::means_nothing((n % 0x1_0000_0000) as u32),
        Field::TextIndex => n % 0x1_0000_0000 < u64::from(unique),
        Field::TruthError => value::truth_error_fits((n % 0x1_0000) as u16),
        Field::StoredResult => value::result_fits(n),
    }
}

// The entry made again in the field that it names, or the number of its refusal.
#[tactic(auto, using(crate::proofs::Laws::make_laws))]
fn make(s: &[u8], entry: Entry, aim: Aim) -> Result<Write, u8>
    requires { aim.field + width_of aim.kind ≤ length s.now }
    ensures value { step_is result ≡ on_make aim.kind aim.field (holds s.now aim.kind aim.field entry.width entry.old) (entry_plan aim.kind entry.kind entry.new aim.unique) }
    ensures within { IfOk result (λ w. w.field + width_of w.kind ≤ length s.now) }
{
    let Aim {
        kind,
        field,
        unique,
    } = aim;
    let there = holds(s, kind, field, entry.width, entry.old);
    match entry_plan(entry, kind, unique) {
        Err(Refusal { number: 17, .. }) => Err(17),
        _ if !there => Err(19),
        Err(refusal) => Err(refusal.number),
        Ok(number) => Ok(Write {
            kind,
            field,
            number,
        }),
    }
}

// The entry undone.
#[tactic(auto, using(crate::proofs::Laws::undo_laws))]
fn undo(s: &[u8], entry: Entry, aim: Aim) -> Result<Write, u8>
    requires { aim.field + width_of aim.kind ≤ length s.now }
    ensures value { step_is result ≡ on_undo aim.kind aim.field (holds s.now aim.kind aim.field entry.width) (passes_in aim.kind aim.unique entry.old) entry.old (entry_plan aim.kind entry.kind entry.new aim.unique) }
    ensures within { IfOk result (λ w. w.field + width_of w.kind ≤ length s.now) }
{
    let Aim {
        kind,
        field,
        unique,
    } = aim;
    match entry_plan(entry, kind, unique) {
        Err(Refusal { number: 17, .. }) => Err(17),
        Ok(n) if holds(s, kind, field, entry.width, n) => {
            if passes_in(kind, unique, entry.old) {
                return Ok(Write {
                    kind,
                    field,
                    number: entry.old,
                });
            }
            Err(18)
        }
        _ => Err(19),
    }
}

// The cell that an entry names.
// Only `replay` calls it, after the check.
pub fn entry_aim(s: &[u8], entry: Entry, unique: u32, sheets: usize) -> Result<Aim, Refusal>
    requires { length s.now ≤ 16777216 }
    ensures value { result ≡ entry_aimed unique sheets entry s.now }
    ensures aim_within { AimWithin (length s.now) result }
{
    correction::cell_of_address(s, unique, sheets, entry.sheet, entry.row, entry.column)
}

// An entry made again, or undone where `back` is true; `aim` is the cell that it names.
// Only `replay` calls it, after the check.
#[tactic(auto, using(crate::proofs::Laws::step_laws))]
pub fn entry_step(
    s: &[u8],
    entry: Entry,
    aim: Result<Aim, Refusal>,
    back: bool,
) -> Result<Write, u8>
    requires { AimWithin (length s.now) aim }
    ensures value { step_is result ≡ step_of back entry aim s.now }
    ensures within { IfOk result (λ w. w.field + width_of w.kind ≤ length s.now) }
{
    let aim = aim.map_err(|refusal| refusal.number)?;
    if back {
        return undo(s, entry, aim);
    }
    make(s, entry, aim)
}
