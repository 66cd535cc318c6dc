// One side of a comparison.
ghost use Rattle.reading.specs.Cells.{place_at, listed_from};
ghost use Rattle.cell_addresses.specs.Addresses.{Ascends};
ghost use Rattle.address_windows.specs.Ascending.{ascending, Ascends-prop};

use crate::least_kept;
use crate::source::Source;
use cell_addresses::Head;
use reading::Place;

// A sheet of a stream, whose cells come by address.
#[derive(Clone, Copy)]
pub struct SheetCells<'a> {
    pub stream: &'a [u8],
    pub from: usize,
    pub source: Source<'a>,
    pub ghost ascends: { Ascends (listed_from stream.now (place_at from 0)) (ascending source) } by { Ascends-prop (listed_from stream.now (place_at from 0)) (ascending source) },
}

impl<'a> SheetCells<'a> {
    ghost use Rattle.std.specs.Prelude.{◌≤◌};
    ghost use Rattle.cell_addresses.specs.Addresses.{Least, Onward, When, Follows};
    ghost use Rattle.address_windows.specs.Windows.{side_list};

    // The next cell by address, from k on. Where the addresses ascend, those before `place` are below k.
    #[tactic(auto, using(crate::proofs::Laws::side_laws))]
    pub fn advance(&self, place: Place, k: u64) -> Head
        requires { (k ≤ 4294967296) × When (ascending self.now.source) (Follows self.now.stream.now (listed_from self.now.stream.now (place_at self.now.from 0)) place k) }
        ensures { Least (side_list self.now) k result × When (ascending self.now.source) (Onward self.now.stream.now (listed_from self.now.stream.now (place_at self.now.from 0)) result) }
    {
        match self.source {
            Source::Ascending => cell_addresses::advance(self.stream, self.from, place, true, k),
            Source::Unordered => cell_addresses::advance(self.stream, self.from, place, false, k),
            Source::Window(x) => least_kept(self.stream, x, k),
        }
    }
}
