// The slots by which the sheet list is held against the substreams, a window of 1,277,952 positions at a time: a pass over its BOFs and one over the sheets,
// and one more over the BOFs where a slot is still full. A fault is the offset of the BOUNDSHEET or BOF at fault.
#![tactic(auto)]

ghost use Rattle.std.specs.Prelude.{◌≡◌};
ghost use Rattle.sheet_agreement.specs.Agreement.{number_of, kind_of};
ghost use Rattle.sheet_agreement.specs.Slots.{inside, code_of, marks, sooner};

// What a BOUNDSHEET or a BOF says that a sheet is.
#[derive(Clone, Copy, Debug, PartialEq, Eq)]
pub enum SheetKind {
    Worksheet,
    Chart,
    Macro,
    Other,
}

impl SheetKind {
    fn number(self) -> u8
        ensures { result ≡ number_of self }
    {
        match self {
            SheetKind::Worksheet => 1,
            SheetKind::Chart => 2,
            SheetKind::Macro => 3,
            SheetKind::Other => 4,
        }
    }
}

// Each number has a kind, so that whoever keeps a kind as its number may ask with it.
#[tactic(auto, unfolding(crate::specs::Agreement::kind_of, steps::specs::Choice::pick))]
impl From<u32> for SheetKind {
    ghost from_gives = { λ n k. k ≡ kind_of n };

    fn from(number: u32) -> SheetKind {
        match number {
            1 => SheetKind::Worksheet,
            2 => SheetKind::Chart,
            3 => SheetKind::Macro,
            _ => SheetKind::Other,
        }
    }
}

// Of two faults the one that comes first in the stream.
pub fn first_in_stream(a: Option<usize>, b: Option<usize>) -> Option<usize>
    ensures { result ≡ sooner a b }
{
    match (a, b) {
        (Some(h), Some(g)) => Some(h.min(g)),
        _ => a.or(b),
    }
}

// Whether a position lies in the window from `lo` up to `hi`; without `hi` it has no end.
#[tactic(auto, unfolding(crate::specs::Slots::inside))]
pub fn in_window(lo: usize, hi: Option<usize>, p: usize) -> bool
    ensures { result ≡ inside lo hi p }
{
    lo <= p && hi.is_none_or(|end| p < end)
}

// What stands in the slot of a position where a BOF of this kind starts at it; d is how far from the window's start.
pub fn slot_of(d: usize, kind: SheetKind) -> u8
    ensures { result ≡ code_of d kind }
{
    ((d % 24) * 8) as u8 + kind.number()
}

// Whether the slots have a BOF of this kind that starts at a position.
#[tactic(auto, unfolding(crate::specs::Slots::marks))]
pub fn slot_has(slots: &[u8; 53248], lo: usize, p: usize, kind: SheetKind) -> bool
    ensures { result ≡ marks slots.now lo p kind }
{
    if p < lo {
        return false;
    }
    let d = p - lo;
    d < 1277952 && slots[d / 24] == slot_of(d, kind)
}
