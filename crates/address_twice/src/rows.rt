// A window of 1,536 rows, with a flag for each address: 256 for each row.
ghost use Rattle.std.specs.Prelude.{◌≡◌, ◌%◌, ◌<◌};

use reading::{RecordCells, Scanned};
use record::Header;

// Why a window isn't gone through to its end: an address of it has two cells, or a record goes past column 255.
#[derive(Clone, Copy)]
pub(crate) enum Stop {
    Twice,
    Odd,
}

// The window from an address on, the first of its row.
#[derive(Clone, Copy)]
pub(crate) struct Rows {
    pub(crate) low: usize,
    ghost round: { low % 65536 ≡ 0 },
    ghost inside: { low < 4294967296 },
}

impl Rows {
    ghost use Rattle.std.specs.Prelude.{◌+◌, ◌*◌, ◌≤◌, length};
    ghost use Rattle.reading.specs.Cells.{place_at, listed_from};
    ghost use Rattle.address_twice.specs.Doubles.{Fits, Marked, Stepped, Clear, PastClear, Passed, Empty};

    // Sets the flags of the n addresses from a on; whether one of them was set already.
    #[tactic(auto, using(crate::proofs::Laws::mark_laws))]
    fn mark(&self, flags: &mut [u64; 6144], a: usize, n: usize) -> bool
        requires { Fits self.now.low a n }
        ensures { Marked flags.old self.now.low a n flags.new result }
    {
        let d = a - self.low;
        let i = d / 65536 * 256 + d % 65536;
        for k in 0..n {
            if flags::flag_at(flags, i + k) != 0 {
                return true;
            }
            flags::set_flag(flags, i + k);
        }
        false
    }

    // A record: its cells are marked where their row is in the window; if it is after the window, the next window starts there at the latest.
    #[tactic(auto, using(crate::proofs::Laws::look_laws))]
    fn look(&self, flags: &mut [u64; 6144], next: usize, cells: RecordCells) -> Result<usize, Stop>
        ensures { Stepped flags.old self.now.low next (cells.row * 65536 + cells.first) cells.count flags.new result }
    {
        let first = usize::from(cells.first);
        let count = usize::from(cells.count);
        if 256 < first + count {
            return Err(Stop::Odd);
        }
        let row = usize::from(cells.row) * 65536;
        if row < self.low {
            return Ok(next);
        }
        if self.low + 100663296 <= row {
            return Ok(row.min(next));
        }
        if self.mark(flags, row + first, count) {
            return Err(Stop::Twice);
        }
        Ok(next)
    }

    // Whether a record has no cell from the window's start on and below `high`, as far as its size and its first bytes tell.
    #[tactic(auto, using(crate::proofs::Laws::clear_laws), unfolding(cell::specs::Cells::row_at, cell::specs::Cells::first_at))]
    fn is_clear(&self, s: &[u8], at: usize, size: usize, high: usize) -> bool
        requires { at + 4 + size ≤ length s.now }
        ensures { Clear s.now at size self.now.low high result }
    {
        if size < 6 {
            return true;
        }
        let row = byte_numbers::u16_at(s, at + 4);
        let first = byte_numbers::u16_at(s, at + 6);
        cell_addresses::is_clear(
            cell_addresses::address_of(row, first),
            self.low as u64,
            high as u64,
        )
    }

    // Past such records, where they stand directly in the sheet: a short loop of its own, since most of a large sheet's records are outside a window.
    #[tactic(auto, using(crate::proofs::Laws::past_laws))]
    fn past_clear(&self, s: &[u8], from: usize, level: u8, high: usize) -> usize
        ensures { PastClear s.now level from self.now.low high result }
    {
        let mut at = from;
        if level != 0 {
            return at;
        }
        // A record's header says where the next one starts: there is no index to count.
        while let Header::Record { kind, size, end } = record::header_at(s, at) {
            if kind == 0x0809 || kind == 0x000A || !self.is_clear(s, at, size, high) {
                break;
            }
            at = end;
        }
        at
    }

    // All records of the sheet. Where the next window starts is 2^32, one past the last address, as long as no cell is met after this window: the least of the starts that
    // were met takes no test for that.
    #[tactic(auto, using(crate::proofs::Laws::pass_laws))]
    fn pass(&self, s: &[u8], from: usize, flags: &mut [u64; 6144]) -> Result<usize, Stop>
        requires { Empty flags.old }
        ensures { Passed (listed_from s.now (place_at from 0)) self.now.low result }
    {
        let mut at = from;
        let mut level: u8 = 0;
        let mut next: usize = 4294967296;
        // What was scanned says where to go on: there is no index to count.
        while let Some(scanned) = reading::scan(s, self.past_clear(s, at, level, next), level) {
            match scanned {
                Scanned::Cells(cells) => {
                    next = self.look(flags, next, cells)?;
                    at = cells.next;
                }
                Scanned::Past(place) => {
                    at = place.at;
                    level = place.level;
                }
            }
        }
        Ok(next)
    }

    // With no flag set: where the next window starts, if no address of this one has two cells.
    #[tactic(auto, using(crate::proofs::Laws::no_flags))]
    pub(crate) fn fresh(&self, s: &[u8], from: usize) -> Result<usize, Stop>
        ensures { Passed (listed_from s.now (place_at from 0)) self.now.low result }
    {
        // No heap, and each address of the window has its flag: 48 KB.
        let mut flags = [0u64; 6144];
        self.pass(s, from, &mut flags)
    }
}
