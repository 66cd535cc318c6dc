// The differences between the cells of two sheets whose addresses ascend: what both say alike is passed over record by record, the rest is merged cell by cell.
#![tactic(auto)]

ghost use Rattle.std.specs.Prelude.{◌≡◌, ◌≤◌, ◌<◌, length};
ghost use Rattle.reading.specs.Cells.{place_at, listed_from};
ghost use Rattle.string_links.specs.Links.{strings_in};
ghost use Rattle.cell_addresses.specs.Addresses.{AscendFrom};
ghost use Rattle.cell_differences.specs.Merge.{puts, put_to, cell_words};
ghost use Rattle.records_abreast.specs.Abreast.{Common};

mod abreast;

use abreast::Abreast;
use string_links::Tables;

// The sheets start at `v` in the first stream and at `w` in the second; the first `common` strings of both tables are the same. Else as `cell_differences::merge`.
// Not inlined: what it holds would lie beneath the tables of sheets in any order.
#[inline(never)]
pub fn merge(
    tables: &Tables,
    v: usize,
    w: usize,
    common: u32,
    base: u64,
    from: u64,
    i: usize,
    out: &mut [u64],
) -> usize
    requires { AscendFrom 0 (listed_from tables.now.first.table.stream.now (place_at v 0)) × AscendFrom 0 (listed_from tables.now.second.table.stream.now (place_at w 0)) × Common (strings_in tables.now.first.table) (strings_in tables.now.second.table) common × (from ≤ 4294967296) × (base < 576460752303423488) }
    ensures value { result ≡ put_to (length out.old) i (cell_words tables.now.first.table.stream.now v tables.now.first.table.place tables.now.second.table.stream.now w tables.now.second.table.place base from) }
    ensures out_after { out.new ≡ puts out.old i (cell_words tables.now.first.table.stream.now v tables.now.first.table.place tables.now.second.table.stream.now w tables.now.second.table.place base from) }
{
    let sides = Abreast {
        s: tables.first.table.stream,
        v,
        t: tables.second.table.stream,
        w,
        common,
    };
    cell_differences::merge(&sides, tables, base, from, i, out)
}
