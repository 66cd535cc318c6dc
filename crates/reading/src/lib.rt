// What a stream says: the definitions of its reading. The code is what all who go through a sheet's cells share: a place, the way past a record, and the
// cells of a record for those who need their addresses and no values; and the short way past records without any.
#![tactic(auto)]

ghost use Rattle.std.specs.Prelude.{◌≡◌};
ghost use Rattle.reading.specs.Cells.{place_at, other_item};
ghost use Rattle.reading.specs.Parts.{outside_item};
ghost use Rattle.reading.specs.Scan.{scan_of, other, Past, PastFrom};

use record::Header;

// The next record, the next cell in it, and how many substreams inside the sheet's own it lies in.
#[derive(Clone, Copy)]
pub struct Place {
    pub at: usize,
    pub part: u16,
    pub level: u8,
}

// Past a record that holds no cell of the sheet, inside so many substreams: none at the end of the list.
#[tactic(auto, unfolding(crate::specs::Cells::other_item, crate::specs::Cells::place_at, steps::specs::Choice::pick))]
pub fn past_record(id: u16, level: u8, end: usize) -> Option<Place>
    ensures { outside_item result ≡ other_item (place_at 0 level) id end }
{
    let level = match id {
        0x0809 if level < 3 => level + 1,
        0x000A if level != 0 => level - 1,
        0x0809 | 0x000A => return None,
        _ => level,
    };
    Some(Place {
        at: end,
        part: 0,
        level,
    })
}

// The cells of a record, which stand in one row from the first column on; and where the next record stands.
#[derive(Clone, Copy)]
pub struct RecordCells {
    pub id: u16,
    pub row: u16,
    pub first: u16,
    pub count: u16,
    pub next: usize,
}

// The record at a place: its cells; or, where it holds none of the sheet, the place after it.
#[derive(Clone, Copy)]
pub enum Scanned {
    Cells(RecordCells),
    Past(Place),
}

// The record at a place of a sheet's listing: none at its end. It is compiled into the loop that asks, which a call for each record would hold up.
#[inline(always)]
#[tactic(auto, using(record::proofs::Laws::body_within, crate::proofs::Scanning::first_room), unfolding(crate::specs::Scan::scan_of, crate::specs::Scan::record_scan, cell::specs::Cells::row_at, cell::specs::Cells::first_at, steps::specs::Choice::pick))]
pub fn scan_here(s: &[u8], at: usize, level: u8) -> Option<Scanned>
    ensures { result ≡ scan_of s.now at level }
{
    let Header::Record {
        kind: id,
        size,
        end,
    } = record::header_at(s, at)
    else {
        return None;
    };
    if level != 0 {
        return Some(Scanned::Past(past_record(id, level, end)?));
    }
    let count = cell::cell_count(s, at, id, size);
    if count == 0 {
        return Some(Scanned::Past(past_record(id, level, end)?));
    }
    Some(Scanned::Cells(RecordCells {
        id,
        row: byte_numbers::u16_at(s, at + 4),
        first: byte_numbers::u16_at(s, at + 6),
        count,
        next: end,
    }))
}

// The same, by a call.
pub fn scan(s: &[u8], at: usize, level: u8) -> Option<Scanned>
    ensures { result ≡ scan_of s.now at level }
{
    scan_here(s, at, level)
}

// ---- past records without cells

// A record that has no cells and neither opens nor ends a substream.
#[tactic(auto, unfolding(crate::specs::Scan::other, cell::specs::Cells::shape_of, steps::specs::Choice::pick))]
fn is_other(id: u16) -> bool
    ensures { result ≡ other id }
{
    !matches!(
        id,
        0x0201 | 0x0203 | 0x027E | 0x00FD | 0x0205 | 0x00BD | 0x00BE | 0x0006 | 0x0809 | 0x000A
    )
}

// Past such records, where they stand directly in the sheet: a short loop of its own, since a stream may have millions of them.
#[tactic(auto, using(crate::proofs::Scanning::past_laws))]
pub fn past_others(s: &[u8], from: usize, level: u8) -> usize
    ensures { Past s.now level from result }
{
    if level != 0 {
        return from;
    }
    let mut at = from;
    // The record itself says where the next one starts: there is no index to count.
    while let Header::Record { kind, end, .. } = record::header_at(s, at) {
        if !is_other(kind) {
            return at;
        }
        at = end;
    }
    at
}

// The same from a place on.
#[tactic(auto, using(crate::proofs::Scanning::from_start))]
pub fn past_from(s: &[u8], from: Place) -> Place
    ensures { PastFrom s.now from result }
{
    if from.part != 0 {
        return from;
    }
    Place {
        at: past_others(s, from.at, from.level),
        ..from
    }
}
