// The differences between the cells of two sheets in whatever order they are listed: window after window of addresses, with the records that have a cell in it in
// lent tables. A large window takes a pass over both sheets; of its records those of a smaller window are sifted out, and so on down to a few, which are looked
// through for each next cell. Each size is about an eighth of the one before: a record is then looked at some eight times for each.
#![tactic(auto)]

ghost use Rattle.std.specs.Prelude.{◌≡◌, ◌≤◌, ◌<◌, length};
ghost use Rattle.reading.specs.Cells.{place_at, listed_from};
ghost use Rattle.cell_addresses.specs.Addresses.{AscendFrom};
ghost use Rattle.cell_differences.specs.Merge.{puts, put_to, cell_words};

mod guess;
mod pair;
mod records;
mod stage;

use address_windows::{SheetCells, Source};
use pair::SheetPair;
use stage::{Stage, Stages};
use string_links::Tables;

// Two sheets in any order, each gone through for each of its cells. Not inlined, since it is hardly ever asked.
#[inline(never)]
fn merge_unordered(
    tables: &Tables,
    v: usize,
    w: usize,
    base: u64,
    from: u64,
    i: usize,
    out: &mut [u64],
) -> usize
    requires { (base < 576460752303423488) × (from ≤ 4294967296) }
    ensures value { result ≡ put_to (length out.old) i (cell_words tables.now.first.table.stream.now v tables.now.first.table.place tables.now.second.table.stream.now w tables.now.second.table.place base from) }
    ensures out_after { out.new ≡ puts out.old i (cell_words tables.now.first.table.stream.now v tables.now.first.table.place tables.now.second.table.stream.now w tables.now.second.table.place base from) }
{
    let sides = SheetPair {
        first: SheetCells {
            stream: tables.first.table.stream,
            from: v,
            source: Source::Unordered,
        },
        second: SheetCells {
            stream: tables.second.table.stream,
            from: w,
            source: Source::Unordered,
        },
    };
    cell_differences::merge(&sides, tables, base, from, i, out)
}

// One small window after the other. Not inlined: its tables would lie in the frame that has the marks, beneath the order of long strings.
#[inline(never)]
fn merge_windows(
    tables: &Tables,
    v: usize,
    w: usize,
    base: u64,
    from: u64,
    i: usize,
    out: &mut [u64],
) -> usize
    requires { (base < 576460752303423488) × (from ≤ 4294967296) }
    ensures value { result ≡ put_to (length out.old) i (cell_words tables.now.first.table.stream.now v tables.now.first.table.place tables.now.second.table.stream.now w tables.now.second.table.place base from) }
    ensures out_after { out.new ≡ puts out.old i (cell_words tables.now.first.table.stream.now v tables.now.first.table.place tables.now.second.table.stream.now w tables.now.second.table.place base from) }
{
    let s = tables.first.table.stream;
    let t = tables.second.table.stream;
    let mut stages = Stages {
        far: Stage::<3328>::new(from),
        middle: Stage::<416>::new(from),
        close: Stage::<56>::new(from),
        near: Stage::<8>::new(from),
    };
    let mut lo = from;
    let mut j = i;
    // Each window says where it ends, and the next one starts there: there is no index to count.
    while lo < 4294967296 && j <= out.len() {
        stages.next(s, v, t, w, lo);
        let high = stages.near.high;
        // With more cells at one address than a table has room for, there is no window: the sheets themselves are gone through for each cell.
        if high <= lo {
            return merge_unordered(tables, v, w, base, lo, j, out);
        }
        let sides = stages.near.sides(s, v, t, w);
        j = cell_differences::merge(&sides, tables, base, lo, j, out);
        lo = high;
    }
    j
}

// Two sheets whose addresses ascend. Not inlined: it needs none of the tables of a window.
#[inline(never)]
fn merge_ascending(
    tables: &Tables,
    v: usize,
    w: usize,
    base: u64,
    from: u64,
    i: usize,
    out: &mut [u64],
) -> usize
    requires { (base < 576460752303423488) × (from ≤ 4294967296) × AscendFrom 0 (listed_from tables.now.first.table.stream.now (place_at v 0)) × AscendFrom 0 (listed_from tables.now.second.table.stream.now (place_at w 0)) }
    ensures value { result ≡ put_to (length out.old) i (cell_words tables.now.first.table.stream.now v tables.now.first.table.place tables.now.second.table.stream.now w tables.now.second.table.place base from) }
    ensures out_after { out.new ≡ puts out.old i (cell_words tables.now.first.table.stream.now v tables.now.first.table.place tables.now.second.table.stream.now w tables.now.second.table.place base from) }
{
    let sides = SheetPair {
        first: SheetCells {
            stream: tables.first.table.stream,
            from: v,
            source: Source::Ascending,
        },
        second: SheetCells {
            stream: tables.second.table.stream,
            from: w,
            source: Source::Ascending,
        },
    };
    cell_differences::merge(&sides, tables, base, from, i, out)
}

// The differences between the cells of two sheets, which start at `v` in the first stream and at `w` in the second, from address `from` on.
// `base` is the key of address 0. i words stand in the buffer, and the answer is how many then do.
pub fn merge_cells(
    tables: &Tables,
    v: usize,
    w: usize,
    base: u64,
    from: u64,
    i: usize,
    out: &mut [u64],
) -> usize
    requires { (base < 576460752303423488) × (from ≤ 4294967296) }
    ensures value { result ≡ put_to (length out.old) i (cell_words tables.now.first.table.stream.now v tables.now.first.table.place tables.now.second.table.stream.now w tables.now.second.table.place base from) }
    ensures out_after { out.new ≡ puts out.old i (cell_words tables.now.first.table.stream.now v tables.now.first.table.place tables.now.second.table.stream.now w tables.now.second.table.place base from) }
{
    if cell_addresses::ascends(tables.first.table.stream, v)
        && cell_addresses::ascends(tables.second.table.stream, w)
    {
        return merge_ascending(tables, v, w, base, from, i, out);
    }
    merge_windows(tables, v, w, base, from, i, out)
}
