// Whether an address has two cells in a sheet, in whatever order they are listed: the rows are gone through a window at a time.
#![tactic(auto)]

ghost use Rattle.std.specs.Prelude.{◌≡◌};
ghost use Rattle.reading.specs.Cells.{place_at, listed_from};
ghost use Rattle.cell_addresses.specs.Addresses.{twice_among};

mod rows;

use rows::{Rows, Stop};

// Whether an address has two or more cells, in the list that starts at `from`.
#[tactic(auto, using(crate::proofs::Laws::below_laws, cell_addresses::proofs::Laws::once_by))]
pub fn twice(s: &[u8], from: usize) -> bool
    ensures { result ≡ twice_among (listed_from s.now (place_at from 0)) }
{
    if cell_addresses::ascends(s, from) {
        return false;
    }
    let mut low = 0;
    // Each window says where the next one starts: there is no index to count.
    while low < 4294967296 {
        let rows = Rows { low };
        match rows.fresh(s, from) {
            Ok(next) => low = next,
            Err(Stop::Twice) => return true,
            Err(Stop::Odd) => return cell_addresses::twice(s, from),
        }
    }
    false
}
