// The data of array constants and cached areas, in the bytes after a formula's tokens: how many bytes it takes up, or nothing where it is cut or bad.
#![tactic(auto)]

ghost use Rattle.std.specs.Prelude.{◌≡◌, ◌≤◌, length};
ghost use Rattle.trailing.specs.Trailing.{sized_of, text_of, truth_of, error_of, element_of, elements_of, array_of, areas_of};

// Data of a known size. Here and below t is the bytes from where the data starts.
#[tactic(auto, using(steps::proofs::Choice::picks), unfolding(crate::specs::Trailing::sized_of))]
fn sized(size: usize, t: &[u8]) -> Option<usize>
    ensures { result ≡ sized_of size t.now }
{
    (size <= t.len()).then_some(size)
}

// A text: kind, length, flags, and the characters, of two bytes each where bit 0 of the flags is set.
#[tactic(auto, using(steps::proofs::Choice::picks, crate::proofs::Laws::characters), unfolding(crate::specs::Trailing::text_of))]
fn text(t: &[u8]) -> Option<usize>
    ensures { result ≡ text_of t.now }
{
    if t.len() < 4 {
        return None;
    }
    let count = usize::from(byte_numbers::u16_at(t, 1));
    let width = 1 + usize::from(t[3] & 1);
    sized(4 + count * width, t)
}

// The next two differ in a test; as a parameter it would need a contract of its own, longer than either.
// A truth, as in cells.
#[tactic(auto, using(steps::proofs::Choice::picks, crate::proofs::Laws::some_if), unfolding(crate::specs::Trailing::truth_of, crate::specs::Trailing::sized_of))]
fn truth(t: &[u8]) -> Option<usize>
    ensures { result ≡ truth_of t.now }
{
    let size = sized(9, t)?;
    truth_error::is_truth(t[1]).then_some(size)
}

// An error code, as in cells.
#[tactic(auto, using(steps::proofs::Choice::picks, crate::proofs::Laws::some_if), unfolding(crate::specs::Trailing::error_of, crate::specs::Trailing::sized_of))]
fn error(t: &[u8]) -> Option<usize>
    ensures { result ≡ error_of t.now }
{
    let size = sized(9, t)?;
    truth_error::is_error(t[1]).then_some(size)
}

// An element of an array, by its kind.
#[tactic(auto, using(steps::proofs::Choice::arms), unfolding(crate::specs::Trailing::element_of, crate::specs::Trailing::element_by))]
fn element(t: &[u8]) -> Option<usize>
    ensures { result ≡ element_of t.now }
{
    let kind = *t.first()?;
    match kind {
        0x00 | 0x01 => sized(9, t),
        0x02 => text(t),
        0x04 => truth(t),
        0x10 => error(t),
        _ => None,
    }
}

// So many elements after an array's sizes. Each has a byte at least, so that a forged count ends with the bytes.
#[tactic(auto, using(crate::proofs::Laws::on_element))]
fn elements(count: usize, t: &[u8]) -> Option<usize>
    requires { 3 ≤ length t.now }
    ensures { result ≡ elements_of count t.now 3 }
{
    let mut at = 3;
    for _ in 0..count {
        at += element(&t[at..])?;
    }
    Some(at)
}

// The data of 0x20: columns and rows, each less one, and the elements.
#[tactic(auto, using(steps::proofs::Choice::picks), unfolding(crate::specs::Trailing::array_of))]
pub fn array(t: &[u8]) -> Option<usize>
    ensures { result ≡ array_of t.now }
{
    if t.len() < 3 {
        return None;
    }
    let columns = usize::from(t[0]) + 1;
    let rows = usize::from(byte_numbers::u16_at(t, 1)) + 1;
    elements(columns * rows, t)
}

// The data of 0x26: a count, and so many areas of eight bytes.
#[tactic(auto, using(steps::proofs::Choice::picks), unfolding(crate::specs::Trailing::areas_of))]
pub fn areas(t: &[u8]) -> Option<usize>
    ensures { result ≡ areas_of t.now }
{
    if t.len() < 2 {
        return None;
    }
    sized(2 + 8 * usize::from(byte_numbers::u16_at(t, 0)), t)
}
