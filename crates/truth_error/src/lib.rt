// Truths and error codes: which bytes are right, for cells and for formula tokens alike.
#![tactic(auto, unfolding(crate::specs::Boolerr::is_truth, crate::specs::Boolerr::is_error, steps::specs::Choice::pick))]

ghost use Rattle.std.specs.Prelude.{◌≡◌};
ghost use Rattle.truth_error.specs.Boolerr.{is_truth, is_error};

pub fn is_truth(b: u8) -> bool
    ensures { result ≡ is_truth b }
{
    b <= 1
}

pub fn is_error(b: u8) -> bool
    ensures { result ≡ is_error b }
{
    matches!(b, 0x00 | 0x07 | 0x0F | 0x17 | 0x1D | 0x24 | 0x2A)
}
