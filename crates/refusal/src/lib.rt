// Why a question gets no answer.
#![tactic(auto)]

// The number that the papers give to what is wrong, and the offset where it is.
#[derive(Clone, Copy, Debug, PartialEq, Eq)]
pub struct Refusal {
    pub number: u8,
    pub offset: usize,
}
