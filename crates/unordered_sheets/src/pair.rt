// Two sheets whose cells come by address, each in its way.
ghost use Rattle.std.specs.Prelude.{◌≡◌, ◌+◌};

use address_windows::SheetCells;
use cell_addresses::Head;
use cell_differences::Sides;
use reading::Place;

#[derive(Clone, Copy)]
pub(crate) struct SheetPair<'a> {
    pub first: SheetCells<'a>,
    pub second: SheetCells<'a>,
}

impl<'a> Sides for SheetPair<'a> {
    ghost use Rattle.address_windows.specs.Windows.{side_list};
    ghost use Rattle.unordered_sheets.specs.Pair.{SideOn};

    ghost first_cells = { λ x. side_list x.first };

    ghost second_cells = { λ x. side_list x.second };

    ghost first_on = { λ x l place k. SideOn x.first l place k };

    ghost second_on = { λ x l place k. SideOn x.second l place k };

    ghost compares = { λ x s t p q. Unit {0} };

    ghost can_start = { λ x. Unit {0} };

    // Not inlined, nor is `next_both`: two more cells each would stand in the merge's frame, beneath the comparison of two texts.
    #[inline(never)]
    fn start(&self, k: u64) -> (Head, Head) {
        let first = Place {
            at: self.first.from,
            part: 0,
            level: 0,
        };
        let second = Place {
            at: self.second.from,
            part: 0,
            level: 0,
        };
        (self.first.advance(first, k), self.second.advance(second, k))
    }

    fn next_first(&self, place: Place, k: u64) -> Head {
        self.first.advance(place, k)
    }

    fn next_second(&self, place: Place, k: u64) -> Head {
        self.second.advance(place, k)
    }

    #[inline(never)]
    fn next_both(&self, first: Place, second: Place, k: u64) -> (Head, Head) {
        (self.first.advance(first, k), self.second.advance(second, k))
    }
}
