// Fetch the text result of a cell into a lent buffer of 16-bit units.
#![tactic(auto)]

ghost use Rattle.std.specs.Prelude.{◌≡◌, length};
ghost use Rattle.reading.specs.Cells.{place_at, listed_from};
ghost use Rattle.reading.specs.Reading.{start_by};
ghost use Rattle.correction.specs.Correction.{cells_at};
ghost use Rattle.cell_text.specs.CellText.{answer_to, answer_of, buffer_to, buffer_after};
ghost use Rattle.cell_text.specs.Parts.{First};

use reading::Scanned;
use refusal::Refusal;
use sheet_agreement::SheetKind;

// What a fetch of a cell that isn't there, or shows no text, is refused with.
const ABSENT: Refusal = Refusal {
    number: 11,
    offset: 0,
};

// Where a text result is fetched: after the formula whose record stands from `at` to `end`.
#[derive(Clone, Copy)]
pub struct Spot {
    pub at: usize,
    pub end: usize,
}

// The first cell of an address, in the listing that starts at the record at `from`.
#[tactic(auto, using(crate::proofs::Laws::find_laws))]
fn find_first(s: &[u8], from: usize, row: u32, column: u32) -> Option<Spot>
    ensures { First s.now (cells_at row column (listed_from s.now (place_at from 0))) result }
{
    let mut at = from;
    let mut level: u8 = 0;
    // The record itself says where the next one starts: there is no index to count.
    while let Some(scanned) = reading::scan_here(s, at, level) {
        match scanned {
            Scanned::Cells(cells) => {
                if correction::row_has(cells.row, cells.first, cells.count, row, column) {
                    if text_result::has_text(s, cells.id, at) {
                        return Some(Spot {
                            at,
                            end: cells.next,
                        });
                    }
                    return None;
                }
                at = cells.next;
            }
            Scanned::Past(next) => {
                at = next.at;
                level = next.level;
            }
        }
    }
    None
}

// The first cell of an address in the sheet that a BOUNDSHEET names.
fn spot_in(s: &[u8], position: u32, kind: SheetKind, row: u32, column: u32) -> Option<Spot>
    ensures { First s.now (cells_at row column (listed_from s.now (start_by (length s.now) position kind))) result }
{
    let start = listing::first_place(s, position, kind);
    find_first(s, start.at, row, column)
}

// The units of its text result at the front of the buffer; the answer says how many.
#[tactic(auto, using(crate::proofs::Laws::fetch_laws))]
pub fn fetch_in(
    s: &[u8],
    position: u32,
    kind: SheetKind,
    row: u32,
    column: u32,
    buf: &mut [u16],
) -> Result<usize, Refusal>
    ensures value { result ≡ answer_to s.now buf.old (cells_at row column (listed_from s.now (start_by (length s.now) position kind))) }
    ensures buf_after { buf.new ≡ buffer_to s.now buf.old (cells_at row column (listed_from s.now (start_by (length s.now) position kind))) }
{
    let spot = spot_in(s, position, kind, row, column).ok_or(ABSENT)?;
    text_result::fetch_text(s, spot.at, spot.end, buf)
}

// The same in sheet n, after the check.
#[tactic(auto, using(crate::proofs::Laws::cell_laws))]
pub fn fetch_cell(
    s: &[u8],
    sheet: u32,
    row: u32,
    column: u32,
    buf: &mut [u16],
) -> Result<usize, Refusal>
    ensures value { result ≡ answer_of s.now sheet row column buf.old }
    ensures buf_after { buf.new ≡ buffer_after s.now sheet row column buf.old }
{
    workbook::check_with(s, 0)?;
    let found = listing::find_sheet(s, sheet).ok_or(ABSENT)?;
    fetch_in(s, found.position, found.kind, row, column, buf)
}
