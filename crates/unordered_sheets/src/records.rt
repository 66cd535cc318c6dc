// Where the records of a window are taken from.
ghost use Rattle.std.specs.Prelude.{ℕ, ◌≤◌, List, length};
ghost use Rattle.cell.specs.declared.Cell.{Cell};
ghost use Rattle.reading.specs.Cells.{place_at, listed_from};
ghost use Rattle.address_windows.specs.Windows.{kept, Filled};

use address_windows::Gathered;

pub(crate) trait Records {
    // the stream, and the cells of all the records
    ghost stream: { Self → List ℕ };

    ghost cells: { Self → List Cell };

    // Those of a window into the table, of as much of the window as it has room for.
    fn gather(&self, low: u64, high: u64, t: &mut [u32]) -> Gathered
        requires { high ≤ 4294967296 }
        ensures { Filled (stream self.now) (cells self.now) low high t.old t.new result };
}

// The sheet that starts there.
#[derive(Clone, Copy)]
pub(crate) struct Sheet<'a> {
    pub stream: &'a [u8],
    pub from: usize,
}

impl<'a> Records for Sheet<'a> {
    ghost stream = { λ x. x.stream.now };

    ghost cells = { λ x. listed_from x.stream.now (place_at x.from 0) };

    fn gather(&self, low: u64, high: u64, t: &mut [u32]) -> Gathered {
        address_windows::fill(self.stream, self.from, low, high, t)
    }
}

// What the table of a larger window keeps.
#[derive(Clone, Copy)]
pub(crate) struct Kept<'a> {
    pub stream: &'a [u8],
    pub records: &'a [u32],
}

impl<'a> Records for Kept<'a> {
    ghost stream = { λ x. x.stream.now };

    ghost cells = { λ x. kept x.stream.now x.records.now (length x.records.now) };

    fn gather(&self, low: u64, high: u64, t: &mut [u32]) -> Gathered {
        address_windows::sift(self.stream, self.records, low, high, t)
    }
}
