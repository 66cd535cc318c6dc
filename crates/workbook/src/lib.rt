// The check of a stream.
#![tactic(auto)]

ghost use Rattle.std.specs.Prelude.{◌≡◌, length};
ghost use Rattle.globals.specs.Sheets.{sheets_of};
ghost use Rattle.workbook.specs.Check.{checked_of, check_of};

use globals::{Boundsheets, Globals};
use refusal::Refusal;

// How many sheets and strings a stream has that passes.
#[derive(Clone, Copy)]
pub struct Passed {
    pub sheets: usize,
    pub strings: u32,
}

// The check for the questions above it: what the globals hold. `unique` is the unique count of strings where the stream has no SST.
#[tactic(auto, using(crate::proofs::Laws::check_laws))]
pub fn check_with(s: &[u8], unique: u32) -> Result<Globals, Refusal>
    ensures { result ≡ checked_of s.now unique }
{
    if 16777216 < s.len() {
        return Err(Refusal {
            number: 1,
            offset: 0,
        });
    }
    let g = globals::walk(s, unique)?;
    let sheets = top_level::walk_top_level(s, g.unique, g.at)?;
    match top_level::sheet_list_agreement(s, g.unique, g.at, sheets) {
        Some(offset) => Err(Refusal { number: 10, offset }),
        None => Ok(g),
    }
}

// How many sheets the BOUNDSHEETs declare.
#[tactic(auto, using(globals::proofs::Sheets::sheets_few))]
pub fn sheet_count(s: &[u8]) -> usize
    ensures { result ≡ length (sheets_of s.now) }
{
    Boundsheets::of(s).count()
}

// Check a stream.
#[tactic(auto, unfolding(crate::specs::Check::check_of))]
pub fn check(s: &[u8]) -> Result<Passed, Refusal>
    ensures { result ≡ check_of s.now }
{
    let g = check_with(s, 0)?;
    Ok(Passed {
        sheets: sheet_count(s),
        strings: g.unique,
    })
}
