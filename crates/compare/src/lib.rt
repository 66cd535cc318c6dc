// Two revisions compared: the words of their differences, as many as a lent buffer takes, from a key on.
#![tactic(auto)]

ghost use Rattle.std.specs.Prelude.{◌≡◌, ◌+◌, ◌≤◌, ◌<◌, length};
ghost use Rattle.reading.specs.Reading.{reading_of};
ghost use Rattle.reading.specs.Cells.{place_at, listed_from};
ghost use Rattle.globals.specs.Sheets.{sheets_of};
ghost use Rattle.string_marks.specs.Marks.{end_at};
ghost use Rattle.string_links.specs.Links.{strings_in, Marks};
ghost use Rattle.workbook.specs.Check.{checked_of, Right};
ghost use Rattle.cell_addresses.specs.Addresses.{When, AscendFrom};
ghost use Rattle.records_abreast.specs.Abreast.{Common};
ghost use Rattle.cell_differences.specs.Merge.{puts, put_to};
ghost use Rattle.differences.specs.Differences.{twice_in};
ghost use Rattle.compare.specs.Comparison.{comparison_of, answer_of, buffer_after};
ghost use Rattle.compare.specs.Parts.{Narrow, AllAscend, BothAscend, OnceIn, checked_for, start_in, next_in, same_names, name_words, cell_words_in, sheet_words_in, words_in};

use globals::Globals;
use listing::NextSheet;
use string_links::Tables;
use string_marks::{Mark, MarkedTable, Table};

// The stream that a refusal is of.
#[derive(Clone, Copy, Debug, PartialEq, Eq)]
pub enum Side {
    First,
    Second,
}

// How many words were written, and whether there are more.
#[derive(Clone, Copy, Debug, PartialEq, Eq)]
pub struct Compared {
    pub words: usize,
    pub more: bool,
}

// Whose refusal it is, its number and its offset.
#[derive(Clone, Copy, Debug, PartialEq, Eq)]
pub struct CompareRefusal {
    pub side: Side,
    pub number: u8,
    pub offset: usize,
}

// The check of one of the streams.
fn checked(side: Side, s: &[u8]) -> Result<Globals, CompareRefusal>
    ensures { result ≡ checked_for side (checked_of s.now 0) }
{
    workbook::check_with(s, 0).map_err(|r| CompareRefusal {
        side,
        number: r.number,
        offset: r.offset,
    })
}

// ---- addresses

// Whether the addresses ascend in all of the sheets.
#[tactic(auto, using(crate::proofs::Laws::sheet_laws))]
fn all_ascend(s: &[u8]) -> bool
    ensures { When result (AllAscend s.now (sheets_of s.now)) }
{
    let mut from = listing::first_sheet();
    // Each sheet says where the next one is looked for: there is no index to count.
    while let Some(sheet) = listing::next_sheet(s, from) {
        if !cell_addresses::ascends(s, sheet.cells.at) {
            return false;
        }
        from = sheet.next;
    }
    true
}

// Whether an address has two cells in one of the sheets.
#[tactic(auto, using(crate::proofs::Laws::sheet_laws))]
fn twice_in(s: &[u8]) -> bool
    ensures { result ≡ twice_in (reading_of s.now 0).sheets }
{
    let mut from = listing::first_sheet();
    // Each sheet says where the next one is looked for: there is no index to count.
    while let Some(sheet) = listing::next_sheet(s, from) {
        if address_twice::twice(s, sheet.cells.at) {
            return true;
        }
        from = sheet.next;
    }
    false
}

// Whether the addresses ascend in all of the sheets of a stream, where no address has two cells in one of them.
#[tactic(auto, using(crate::proofs::Laws::ascends_are))]
fn ascends_once(side: Side, s: &[u8]) -> Result<bool, CompareRefusal>
    ensures { OnceIn side s.now result }
{
    let ascends = all_ascend(s);
    if !ascends && twice_in(s) {
        return Err(CompareRefusal {
            side,
            number: 16,
            offset: 0,
        });
    }
    Ok(ascends)
}

// ---- one sheet number: the sheet with this number in each stream, where there is one

// Where its cells start: at the end where there is none.
fn start_in(s: &[u8], sheet: Option<NextSheet>) -> usize
    ensures { result ≡ start_in s.now sheet }
{
    match sheet {
        Some(sheet) => sheet.cells.at,
        None => s.len(),
    }
}

// Where the next sheet is looked for.
fn next_in(s: &[u8], sheet: Option<NextSheet>) -> usize
    ensures { result ≡ next_in s.now sheet }
{
    match sheet {
        Some(sheet) => sheet.next,
        None => s.len(),
    }
}

// Whether two sheets have the same name.
// The names lie in the bytes of two streams, in characters of one byte or of two, which no derive compares.
#[tactic(auto, unfolding(crate::specs::Parts::same_names))]
fn same_names(s: &[u8], x: NextSheet, t: &[u8], y: NextSheet) -> bool
    requires { Narrow (Some x) × Narrow (Some y) }
    ensures { result ≡ same_names s.now x t.now y }
{
    let a = listing::name_at(s, x.header);
    let b = listing::name_at(t, y.header);
    text_equality::same_name(a, x.width, b, y.width)
}

// The word of the names, where the sheet is in both and they differ.
#[tactic(auto, using(crate::proofs::Laws::name_laws))]
fn put_name(
    s: &[u8],
    x: Option<NextSheet>,
    t: &[u8],
    y: Option<NextSheet>,
    key: u64,
    from: u64,
    i: usize,
    out: &mut [u64],
) -> usize
    requires { Narrow x × Narrow y × (key < 576460752303423488) }
    ensures value { result ≡ put_to (length out.old) i (name_words s.now x t.now y key from) }
    ensures out_after { out.new ≡ puts out.old i (name_words s.now x t.now y key from) }
{
    let (Some(x), Some(y)) = (x, y) else {
        return i;
    };
    if key < from || same_names(s, x, t, y) {
        return i;
    }
    cell_differences::put(out, i, key * 4)
}

// Both tables with their marks; the first `common` strings are the same in both.
#[derive(Clone, Copy)]
struct Together<'a> {
    tables: Tables<'a>,
    common: u32,
    ghost same: { Common (strings_in tables.first.table) (strings_in tables.second.table) common },
}

impl<'a> Together<'a> {
    // The words of the cells, which start at v in the first stream and at w in the second, from a key on. `up` says that the addresses ascend in both.
    #[tactic(auto, using(crate::proofs::Laws::cells_laws))]
    fn put_cells(
        &self,
        v: usize,
        w: usize,
        up: bool,
        key: u64,
        from: u64,
        i: usize,
        out: &mut [u64],
    ) -> usize
        requires { When up (AscendFrom 0 (listed_from self.now.tables.first.table.stream.now (place_at v 0)) × AscendFrom 0 (listed_from self.now.tables.second.table.stream.now (place_at w 0))) × (key < 288230376151711745) }
        ensures value { result ≡ put_to (length out.old) i (cell_words_in self.now.tables v w key from) }
        ensures out_after { out.new ≡ puts out.old i (cell_words_in self.now.tables v w key from) }
    {
        if key + 8589934592 <= from {
            return i;
        }
        let base = key + 4294967296;
        let low = from.saturating_sub(base);
        if up {
            ascending_sheets::merge(&self.tables, v, w, self.common, base, low, i, out)
        } else {
            unordered_sheets::merge_cells(&self.tables, v, w, base, low, i, out)
        }
    }

    // The words of a sheet number, from a key on; `key` is that of its name.
    #[tactic(auto, using(crate::proofs::Laws::append_laws))]
    fn put_sheet(
        &self,
        x: Option<NextSheet>,
        y: Option<NextSheet>,
        up: bool,
        key: u64,
        from: u64,
        i: usize,
        out: &mut [u64],
    ) -> usize
        requires { When up (AscendFrom 0 (listed_from self.now.tables.first.table.stream.now (place_at (start_in self.now.tables.first.table.stream.now x) 0)) × AscendFrom 0 (listed_from self.now.tables.second.table.stream.now (place_at (start_in self.now.tables.second.table.stream.now y) 0))) × Narrow x × Narrow y × (key < 288230376151711745) }
        ensures value { result ≡ put_to (length out.old) i (sheet_words_in self.now.tables x y key from) }
        ensures out_after { out.new ≡ puts out.old i (sheet_words_in self.now.tables x y key from) }
    {
        let s = self.tables.first.table.stream;
        let t = self.tables.second.table.stream;
        let j = put_name(s, x, t, y, key, from, i, out);
        self.put_cells(start_in(s, x), start_in(t, y), up, key, from, j, out)
    }

    // The words of all sheets, from a key on, into an empty buffer.
    fn list(&self, up: bool, from: u64, out: &mut [u64]) -> usize
        requires { When up (BothAscend self.now.tables.first.table.stream.now self.now.tables.second.table.stream.now) × (length self.now.tables.first.table.stream.now ≤ 16777216) × (length self.now.tables.second.table.stream.now ≤ 16777216) }
        ensures value { result ≡ put_to (length out.old) 0 (words_in self.now.tables.first.table self.now.tables.second.table from) }
        ensures out_after { out.new ≡ puts out.old 0 (words_in self.now.tables.first.table self.now.tables.second.table from) }
    {
        let s = self.tables.first.table.stream;
        let t = self.tables.second.table.stream;
        let mut a = listing::first_sheet();
        let mut b = listing::first_sheet();
        let mut number: u64 = 0;
        let mut j: usize = 0;
        // It goes on while a list has a sheet and the buffer has room: neither is known beforehand, and the number is that of the sheets in both lists.
        while j <= out.len() {
            let x = listing::next_sheet(s, a);
            let y = listing::next_sheet(t, b);
            if x.is_none() && y.is_none() {
                return j;
            }
            j = self.put_sheet(x, y, up, number * 8589934592, from, j, out);
            a = next_in(s, x);
            b = next_in(t, y);
            number += 1;
        }
        j
    }
}

// ---- all of them

// Both tables with their marks, which are linked.
#[tactic(auto, using(string_links::proofs::Laws::marks_agree))]
fn marked<'a>(first: Table<'a>, x: &'a [Mark], second: Table<'a>, y: &'a [Mark]) -> Tables<'a>
    requires { Marks first x.now second y.now × (0 < length x.now) × (0 < length y.now) }
    ensures { (result.first.table ≡ first.entry) × (result.second.table ≡ second.entry) }
{
    Tables {
        first: MarkedTable {
            table: first,
            marks: x,
        },
        second: MarkedTable {
            table: second,
            marks: y,
        },
    }
}

// The words of two revisions, with both tables of strings marked, and their long strings linked in an order: 1,152 marks on each, 27 KB. They don't stand in one
// frame with what a check needs.
#[inline(never)]
fn list_marked<'a>(
    first: &Table<'a>,
    second: &Table<'a>,
    up: bool,
    common: u32,
    from: u64,
    out: &mut [u64],
) -> usize
    requires { When up (BothAscend first.now.stream.now second.now.stream.now) × Common (strings_in first.now) (strings_in second.now) common × (length first.now.stream.now ≤ 16777216) × (length second.now.stream.now ≤ 16777216) }
    ensures value { result ≡ put_to (length out.old) 0 (words_in first.now second.now from) }
    ensures out_after { out.new ≡ puts out.old 0 (words_in first.now second.now from) }
{
    // There is no heap, so the marks have a fixed size and stand here.
    let mut x = [Mark::NONE; 1152];
    // These too: without a heap they have a fixed size.
    let mut y = [Mark::NONE; 1152];
    string_links::mark_both(first, &mut x, second, &mut y);
    let together = Together {
        tables: marked(*first, &x, *second, &y),
        common,
    };
    together.list(up, from, out)
}

// The same, where `up` and `down` say whether the addresses ascend in the first stream and in the second.
fn list_both<'a>(
    first: &Table<'a>,
    up: bool,
    second: &Table<'a>,
    down: bool,
    from: u64,
    out: &mut [u64],
) -> usize
    requires { When up (AllAscend first.now.stream.now (sheets_of first.now.stream.now)) × When down (AllAscend second.now.stream.now (sheets_of second.now.stream.now)) × (length first.now.stream.now ≤ 16777216) × (length second.now.stream.now ≤ 16777216) }
    ensures value { result ≡ put_to (length out.old) 0 (words_in first.now second.now from) }
    ensures out_after { out.new ≡ puts out.old 0 (words_in first.now second.now from) }
{
    if up && down {
        let common = leading_strings::in_common(first, second);
        list_marked(first, second, true, common, from, out)
    } else {
        list_marked(first, second, false, 0, from, out)
    }
}

// The table of strings of a stream that passes the check.
fn table_of(stream: &[u8], g: Globals) -> Table<'_>
    requires { checked_of stream.now 0 ≡ Right g }
    ensures table { (result.stream.now ≡ stream.now) × (result.place ≡ g.table) }
    ensures within { 0 < result.place → end_at result.stream.now result.place ≤ length result.stream.now }
    ensures short { end_at result.stream.now result.place < result.place + 65540 }
    ensures small { length result.stream.now ≤ 16777216 }
{
    Table {
        stream,
        place: g.table,
        count: g.unique,
    }
}

// Compare two revisions: the words of the differences at the keys from `from` on, as many as the buffer takes.
pub fn compare<'a>(
    first: &'a [u8],
    second: &'a [u8],
    from: u64,
    out: &mut [u64],
) -> Result<Compared, CompareRefusal>
    ensures value { result ≡ answer_of (length out.old) (comparison_of first.now second.now from) }
    ensures out_after { out.new ≡ buffer_after out.old (comparison_of first.now second.now from) }
{
    let g = checked(Side::First, first)?;
    let h = checked(Side::Second, second)?;
    let up = ascends_once(Side::First, first)?;
    let down = ascends_once(Side::Second, second)?;
    let room = out.len();
    let found = list_both(
        &table_of(first, g),
        up,
        &table_of(second, h),
        down,
        from,
        out,
    );
    Ok(Compared {
        words: found.min(room),
        more: room < found,
    })
}
