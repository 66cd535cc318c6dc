// A new value for a cell: the number that its value field takes, and the field stored.
#![tactic(auto, unfolding(crate::specs::Change::put_if, crate::specs::Change::finite, crate::specs::Change::float_plan, steps::specs::Choice::pick))]

ghost use Rattle.std.specs.Prelude.{◌≡◌, ◌+◌, ◌≤◌, length};
ghost use Rattle.value.specs.Value.{width_of};
ghost use Rattle.new_value.specs.Change.{float_plan, packed_plan, number_plan, put_if, text_plan, pair_plan, plan_of, answer_of, changed};
ghost use Rattle.number.specs.Packing.{pack_of};

use refusal::Refusal;
use value::Field;

#[derive(Clone, Copy)]
pub enum NewValue {
    Number(f64),
    Text(u32),
    Truth(u8),
    Error(u8),
}

// A value has no place in the stream, and so its refusal is at 0.
fn refused(number: u8) -> Refusal
    ensures { result ≡ record { number = number; offset = 0 } }
{
    Refusal { number, offset: 0 }
}

fn put_if(right: bool, n: u64) -> Result<u64, Refusal>
    ensures { result ≡ put_if right n }
{
    if right {
        return Ok(n);
    }
    Err(refused(18))
}

fn float_plan(b: u64) -> Result<u64, Refusal>
    ensures { result ≡ float_plan b }
{
    put_if((b >> 52) & 0x7FF != 0x7FF, b)
}

fn packed_plan(b: u64) -> Result<u64, Refusal>
    ensures { result ≡ packed_plan (pack_of b) }
{
    number::pack(b).map(u64::from).ok_or(refused(18))
}

// The number that a field takes, or the refusal.
pub fn number_plan(f: Field, b: u64) -> Result<u64, Refusal>
    ensures { result ≡ number_plan f b }
{
    match f {
        Field::Float => float_plan(b),
        Field::RkWord => packed_plan(b),
        _ => Err(refused(17)),
    }
}

pub fn text_plan(f: Field, i: u32, unique: u32) -> Result<u64, Refusal>
    ensures { result ≡ text_plan f i unique }
{
    match f {
        Field::TextIndex => put_if(i < unique, u64::from(i)),
        _ => Err(refused(17)),
    }
}

pub fn pair_plan(f: Field, right: bool, n: u64) -> Result<u64, Refusal>
    ensures { result ≡ pair_plan f right n }
{
    match f {
        Field::TruthError => put_if(right, n),
        _ => Err(refused(17)),
    }
}

pub fn plan_of(f: Field, v: NewValue, unique: u32) -> Result<u64, Refusal>
    ensures { result ≡ plan_of f v unique }
{
    match v {
        NewValue::Number(x) => number_plan(f, number::bits_of(x)),
        NewValue::Text(i) => text_plan(f, i, unique),
        NewValue::Truth(t) => pair_plan(f, truth_error::is_truth(t), u64::from(t)),
        NewValue::Error(e) => pair_plan(f, truth_error::is_error(e), u64::from(e) + 256),
    }
}

// The new value stored in the field of kind f at p, or the refusal.
pub fn write_value(
    s: &mut [u8],
    f: Field,
    p: usize,
    v: NewValue,
    unique: u32,
) -> Result<(), Refusal>
    requires { p + width_of f ≤ length s.old }
    ensures value { result ≡ answer_of (plan_of f v unique) }
    ensures s_after { s.new ≡ changed s.old f p (plan_of f v unique) }
{
    let n = plan_of(f, v, unique)?;
    byte_numbers::store(s, p, value::width_of(f), n);
    Ok(())
}
