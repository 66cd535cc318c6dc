// What the value field of a cell says, and whether it is right.
#![tactic(auto, unfolding(crate::specs::Value::float_value, crate::specs::Value::truth_error, crate::specs::Value::result_number, crate::specs::Value::marked_result, crate::specs::Value::result_of, crate::specs::Value::truth_error_fits, crate::specs::Value::marked_fits, crate::specs::Value::result_fits, number::specs::Float64::float_in, steps::specs::Choice::pick))]

ghost use Rattle.std.specs.Prelude.{◌≡◌, ◌%◌};
ghost use Rattle.value.specs.Value.{width_of, result_of, value_of, value_fits, marked_result, marked_fits, result_number};

// The kinds of value field. A blank has none.
#[derive(Clone, Copy)]
pub enum Field {
    NoField,
    Float,
    RkWord,
    TextIndex,
    TruthError,
    StoredResult,
}

// A NaN's pattern is no f64's own, so it is carried as its 64 bits.
#[derive(Clone, Copy)]
pub enum FormulaResult {
    Number(f64),
    NotNumber(u64),
    Text,
    Truth(u8),
    Error(u8),
    Empty,
}

#[derive(Clone, Copy)]
pub enum CellValue {
    Blank,
    Number(f64),
    NotNumber(u64),
    Text(u32),
    Truth(u8),
    Error(u8),
    Formula(FormulaResult),
}

// A table by the kind of a field, as `address_lookup` has one of marks: no number of it is the other's.
pub fn width_of(f: Field) -> usize
    ensures { result ≡ width_of f }
{
    match f {
        Field::NoField => 0,
        Field::Float => 8,
        Field::RkWord => 4,
        Field::TextIndex => 4,
        Field::TruthError => 2,
        Field::StoredResult => 8,
    }
}

// ---- what a field says

pub fn float_value(b: u64) -> CellValue
    ensures { result ≡ value_of Field.Float b }
{
    number::float_in(b).map_or(CellValue::NotNumber(b), CellValue::Number)
}

pub fn rk_value(w: u32) -> CellValue
    ensures { result ≡ value_of Field.RkWord w }
{
    number::decode(w).map_or(CellValue::Blank, CellValue::Number)
}

pub fn truth_error_value(n: u16) -> CellValue
    ensures { result ≡ value_of Field.TruthError n }
{
    let byte = (n % 256) as u8;
    if n >> 8 == 0 {
        return CellValue::Truth(byte);
    }
    CellValue::Error(byte)
}

fn number_result(b: u64) -> FormulaResult
    ensures { result ≡ result_number b }
{
    number::float_in(b).map_or(FormulaResult::NotNumber(b), FormulaResult::Number)
}

// Of a result that is no number: `kind` is its first byte, `byte` its third.
fn marked_result(kind: u8, byte: u8) -> FormulaResult
    ensures { result ≡ marked_result kind byte }
{
    match kind {
        0 => FormulaResult::Text,
        1 => FormulaResult::Truth(byte),
        2 => FormulaResult::Error(byte),
        _ => FormulaResult::Empty,
    }
}

pub fn result_value(n: u64) -> FormulaResult
    ensures { result ≡ result_of n }
{
    if n >> 48 == 0xFFFF {
        return marked_result((n % 256) as u8, ((n >> 16) % 256) as u8);
    }
    number_result(n)
}

// ---- whether it is right

pub fn truth_error_fits(n: u16) -> bool
    ensures { result ≡ value_fits Field.TruthError n }
{
    let byte = (n % 256) as u8;
    match n >> 8 {
        0 => truth_error::is_truth(byte),
        1 => truth_error::is_error(byte),
        _ => false,
    }
}

fn marked_fits(kind: u8, byte: u8) -> bool
    ensures { result ≡ marked_fits kind byte }
{
    match kind {
        0 | 3 => true,
        1 => truth_error::is_truth(byte),
        2 => truth_error::is_error(byte),
        _ => false,
    }
}

pub fn result_fits(n: u64) -> bool
    ensures { result ≡ value_fits Field.StoredResult n }
{
    n >> 48 != 0xFFFF || marked_fits((n % 256) as u8, ((n >> 16) % 256) as u8)
}
