// Windows of addresses in four sizes, each with the records that have a cell in it.
ghost use Rattle.std.specs.Prelude.{◌≤◌};

use crate::guess::{end_of, wider};
use crate::pair::SheetPair;
use crate::records::{Kept, Records, Sheet};
use address_windows::{KeptRecords, SheetCells, Source};

// A window that two tables hold: where it ends, and how many records of the one sheet and of the other. The next is likely to have its first cell at `near`, and tries
// `width` addresses from there on.
#[derive(Drop)]
pub(crate) struct Stage<const N: usize> {
    pub first: [u32; N],
    pub second: [u32; N],
    pub first_count: usize,
    pub second_count: usize,
    pub high: u64,
    pub near: u64,
    pub width: u64,
    pub ghost size: { N ≤ 65536 },
    pub ghost first_within: { first_count ≤ N },
    pub ghost second_within: { second_count ≤ N },
    pub ghost high_within: { high ≤ 4294967296 },
    pub ghost near_within: { near ≤ 4294967296 },
    pub ghost some: { 1 ≤ width },
    pub ghost width_within: { width ≤ 4294967296 },
}

impl<const N: usize> Stage<N> {
    ghost use Rattle.std.specs.Prelude.{◌≡◌, ◌<◌, List};
    ghost use Rattle.cell.specs.declared.Cell.{Cell};
    ghost use Rattle.address_windows.specs.Windows.{kept, below, side_list};
    ghost use Rattle.unordered_sheets.specs.Unordered.{Holds, Tells};

    // Before the first window.
    pub(crate) fn new(from: u64) -> Stage<N>
        requires { (N ≤ 65536) × (from ≤ 4294967296) }
        ensures { (result.high ≡ 0) × (result.first_count ≡ 0) × (result.second_count ≡ 0) }
    {
        Stage {
            first: [0; N],
            second: [0; N],
            first_count: 0,
            second_count: 0,
            high: 0,
            near: from,
            width: 4294967296,
        }
    }

    // The records of the next window into the tables, where the last one is done: the second takes of as much as the first had room for.
    fn next<A: Records, B: Records>(&mut self, x: &A, y: &B, lo: u64, near: u64, top: u64)
        requires { (near ≤ 4294967296) × (top ≤ 4294967296) }
        ensures { (l m : List Cell) → Tells (A.cells x.now) l lo top → Tells (B.cells y.now) m lo top → Holds (A.stream x.now) (B.stream y.now) l m lo self.old.first self.old.second self.old.high self.old.first_count self.old.second_count → Holds (A.stream x.now) (B.stream y.now) l m lo self.new.first self.new.second self.new.high self.new.first_count self.new.second_count }
    {
        if lo < self.high || top <= lo {
            return;
        }
        let high = end_of(lo, near, self.width, top);
        let one = x.gather(lo, high, &mut self.first);
        let two = y.gather(lo, one.high, &mut self.second);
        // Where the second ended the window sooner, the first says nothing of what comes next.
        let (next, count) = if two.high < one.high {
            (two.high, two.count)
        } else {
            (one.next.min(two.next), one.count.max(two.count))
        };
        self.first_count = one.count;
        self.second_count = two.count;
        self.high = two.high;
        self.near = next;
        self.width = wider(near, two.high, count, N);
    }

    // Of the records of a larger window.
    fn sift<const M: usize>(&mut self, s: &[u8], t: &[u8], larger: &Stage<M>, lo: u64)
        requires { lo ≤ 4294967296 }
        ensures { (l m : List Cell) → Holds s.now t.now l m lo larger.now.first larger.now.second larger.now.high larger.now.first_count larger.now.second_count → Holds s.now t.now l m lo self.old.first self.old.second self.old.high self.old.first_count self.old.second_count → Holds s.now t.now l m lo self.new.first self.new.second self.new.high self.new.first_count self.new.second_count }
    {
        let x = Kept {
            stream: s,
            records: &larger.first[..larger.first_count],
        };
        let y = Kept {
            stream: t,
            records: &larger.second[..larger.second_count],
        };
        // A guess that lies past the larger window is none.
        let near = if self.near < larger.high {
            self.near
        } else {
            lo
        };
        self.next(&x, &y, lo, near, larger.high);
    }

    // The sheets that start at `v` and at `w`, by what the tables keep.
    #[tactic(auto, using(address_windows::proofs::Laws::kept_taken))]
    pub(crate) fn sides<'a>(&'a self, s: &'a [u8], v: usize, t: &'a [u8], w: usize) -> SheetPair<'a>
        ensures { (side_list result.first ≡ below self.now.high (kept s.now self.now.first self.now.first_count)) × (side_list result.second ≡ below self.now.high (kept t.now self.now.second self.now.second_count)) }
    {
        let first = KeptRecords {
            records: &self.first[..self.first_count],
            high: self.high,
        };
        let second = KeptRecords {
            records: &self.second[..self.second_count],
            high: self.high,
        };
        SheetPair {
            first: SheetCells {
                stream: s,
                from: v,
                source: Source::Window(first),
            },
            second: SheetCells {
                stream: t,
                from: w,
                source: Source::Window(second),
            },
        }
    }
}

// Each about an eighth of the one before: the larger the first, the fewer passes over the sheets; the last is looked through for each cell.
#[derive(Drop)]
pub(crate) struct Stages {
    pub far: Stage<3328>,
    pub middle: Stage<416>,
    pub close: Stage<56>,
    pub near: Stage<8>,
}

impl Stages {
    ghost use Rattle.std.specs.Prelude.{◌<◌};
    ghost use Rattle.reading.specs.Cells.{place_at, listed_from};
    ghost use Rattle.unordered_sheets.specs.Staged.{AllHold};

    // The windows from `lo` on, the large one of the sheets that start at `v` and at `w`. Not inlined: what it holds would stand beneath the merge, which is done after.
    #[inline(never)]
    pub(crate) fn next(&mut self, s: &[u8], v: usize, t: &[u8], w: usize, lo: u64)
        requires { (lo < 4294967296) × AllHold s.now t.now (listed_from s.now (place_at v 0)) (listed_from t.now (place_at w 0)) lo self.old }
        ensures { AllHold s.now t.now (listed_from s.now (place_at v 0)) (listed_from t.now (place_at w 0)) lo self.new }
    {
        let x = Sheet { stream: s, from: v };
        let y = Sheet { stream: t, from: w };
        let near = self.far.near;
        self.far.next(&x, &y, lo, near, 4294967296);
        self.middle.sift(s, t, &self.far, lo);
        self.close.sift(s, t, &self.middle, lo);
        self.near.sift(s, t, &self.close, lo);
    }
}
