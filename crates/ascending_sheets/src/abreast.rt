// Two sheets whose addresses ascend.
ghost use Rattle.std.specs.Prelude.{◌≡◌};

use cell_addresses::Head;
use cell_differences::Sides;
use reading::Place;

// The first starts at `v` in the stream s, the second at `w` in t; the first `common` strings of both tables are the same.
#[derive(Clone, Copy)]
pub(crate) struct Abreast<'a> {
    pub s: &'a [u8],
    pub v: usize,
    pub t: &'a [u8],
    pub w: usize,
    pub common: u32,
}

impl<'a> Sides for Abreast<'a> {
    ghost use Rattle.reading.specs.Cells.{place_at, listed_from};
    ghost use Rattle.cell_addresses.specs.Addresses.{AscendFrom, Follows};
    ghost use Rattle.records_abreast.specs.Abreast.{Common};

    ghost first_cells = { λ x. listed_from x.s.now (place_at x.v 0) };

    ghost second_cells = { λ x. listed_from x.t.now (place_at x.w 0) };

    ghost first_on = { λ x l place k. Follows x.s.now l place k };

    ghost second_on = { λ x l place k. Follows x.t.now l place k };

    ghost compares = { λ x s t p q. (s ≡ x.s.now) × (t ≡ x.t.now) × Common p q x.common };

    ghost can_start = { λ x. AscendFrom 0 (listed_from x.s.now (place_at x.v 0)) × AscendFrom 0 (listed_from x.t.now (place_at x.w 0)) };

    #[inline(always)]
    fn start(&self, k: u64) -> (Head, Head) {
        let first = Place {
            at: self.v,
            part: 0,
            level: 0,
        };
        let second = Place {
            at: self.w,
            part: 0,
            level: 0,
        };
        self.next_both(first, second, k)
    }

    #[inline(always)]
    fn next_first(&self, place: Place, k: u64) -> Head {
        cell_addresses::seek(self.s, place, k)
    }

    #[inline(always)]
    fn next_second(&self, place: Place, k: u64) -> Head {
        cell_addresses::seek(self.t, place, k)
    }

    // Past what both say alike.
    #[inline(always)]
    fn next_both(&self, first: Place, second: Place, k: u64) -> (Head, Head) {
        let on = records_abreast::pass_same(self.s, first, self.t, second, self.common);
        let x = cell_addresses::seek(self.s, on.first, k);
        let y = cell_addresses::seek(self.t, on.second, k);
        (x, y)
    }
}
