// A record of each stream, side by side.
ghost use Rattle.std.specs.Prelude.{◌≡◌, ◌+◌, ◌≤◌, ◌<◌, length, IfSome};
ghost use Rattle.cell.specs.Cells.{shape_of, count_of};
ghost use Rattle.cell_addresses.specs.Addresses.{When};

use record::Header;
use value::{CellValue, FormulaResult};

// Two records of this type and size, with so many cells in each.
#[derive(Clone, Copy)]
pub(crate) struct Pair<'a> {
    first: &'a [u8],
    here: usize,
    second: &'a [u8],
    there: usize,
    kind: u16,
    pub(crate) size: usize,
    count: u16,
    ghost some: { 0 < count },
    ghost first_count: { count ≡ count_of (shape_of kind) first.now here size },
    ghost first_within: { here + 4 + size ≤ length first.now },
    ghost second_count: { count ≡ count_of (shape_of kind) second.now there size },
    ghost second_within: { there + 4 + size ≤ length second.now },
}

impl<'a> Pair<'a> {
    ghost use Rattle.records_abreast.specs.Pairs.{Beside, SameAddress, SameWords, SameValues};

    // The records at these places, where they are of one type and size and have as many cells: at least one.
    #[tactic(auto, using(record::proofs::Laws::body_within, record::proofs::Laws::body_end))]
    pub(crate) fn at(
        first: &'a [u8],
        here: usize,
        second: &'a [u8],
        there: usize,
    ) -> Option<Pair<'a>>
        ensures { IfSome result (Beside first.now here second.now there) }
    {
        let Header::Record { kind, size, .. } = record::header_at(first, here) else {
            return None;
        };
        let Header::Record {
            kind: second_kind,
            size: second_size,
            ..
        } = record::header_at(second, there)
        else {
            return None;
        };
        if kind != second_kind || size != second_size {
            return None;
        }
        let count = cell::cell_count(first, here, kind, size);
        if count == 0 || count != cell::cell_count(second, there, kind, size) {
            return None;
        }
        Some(Pair {
            first,
            here,
            second,
            there,
            kind,
            size,
            count,
        })
    }

    // Whether the first cells stand at the same address.
    // Rows and columns lie in the bytes of two streams, which no derive compares.
    #[tactic(auto, using(crate::proofs::Pairs::first_head, crate::proofs::Pairs::second_head), unfolding(cell::specs::Cells::row_at, cell::specs::Cells::first_at))]
    pub(crate) fn same_address(&self) -> bool
        ensures { When result (SameAddress self.now) }
    {
        let (s, t) = (self.first, self.second);
        byte_numbers::u16_at(s, self.here + 4) == byte_numbers::u16_at(t, self.there + 4)
            && byte_numbers::u16_at(s, self.here + 6) == byte_numbers::u16_at(t, self.there + 6)
    }

    // Whether the RK words of two multiple records are the same.
    // The words lie in the bytes of two streams, which no derive compares.
    #[tactic(auto, using(crate::proofs::Pairs::words_room))]
    fn same_words(&self) -> bool
        requires { self.now.kind ≡ 0x00BD }
        ensures { When result (SameWords self.now self.now.count) }
    {
        let (s, t) = (self.first, self.second);
        let (x, y) = (self.here + 8, self.there + 8);
        for i in 0..usize::from(self.count) {
            if byte_numbers::u32_at(s, x + 6 * i + 2) != byte_numbers::u32_at(t, y + 6 * i + 2) {
                return false;
            }
        }
        true
    }

    // Whether two texts have one index, among the first `common` strings, which are the same in both tables.
    // The indices lie in the bytes of two streams, which no derive compares.
    #[tactic(auto, using(crate::proofs::Pairs::text_room, crate::proofs::Pairs::text_says))]
    fn same_text(&self, common: u32) -> bool
        requires { self.now.kind ≡ 0x00FD }
        ensures { When result (SameValues self.now common) }
    {
        let index = byte_numbers::u32_at(self.first, self.here + 8 + 2);
        index < common && index == byte_numbers::u32_at(self.second, self.there + 8 + 2)
    }

    // Whether two stored results are the same, and the text that stands after them.
    // The results lie in the bytes of two streams, which no derive compares.
    #[tactic(auto, using(crate::proofs::Pairs::result_room, crate::proofs::Pairs::result_plain, crate::proofs::Pairs::result_text))]
    fn same_result(&self) -> bool
        requires { self.now.kind ≡ 0x0006 }
        ensures { When result (SameValues self.now 0) }
    {
        let (s, t) = (self.first, self.second);
        let (x, y) = (self.here + 8, self.there + 8);
        if byte_numbers::u64_at(s, x + 2) != byte_numbers::u64_at(t, y + 2) {
            return false;
        }
        if !text_result::has_text(s, 0x0006, self.here) {
            return true;
        }
        let text = CellValue::Formula(FormulaResult::Text);
        text_equality::same_result(s, text, x + 2, t, text, y + 2)
    }

    // Whether the cells have equal values, as far as this is seen at once.
    // The values lie in the bytes of two streams, and the type of the record says how: no derive compares them.
    #[tactic(auto, using(crate::proofs::Pairs::value_laws))]
    pub(crate) fn same_values(&self, common: u32) -> bool
        ensures { When result (SameValues self.now common) }
    {
        let (s, t) = (self.first, self.second);
        let (x, y) = (self.here + 8, self.there + 8);
        match self.kind {
            0x0203 => byte_numbers::u64_at(s, x + 2) == byte_numbers::u64_at(t, y + 2),
            0x027E => byte_numbers::u32_at(s, x + 2) == byte_numbers::u32_at(t, y + 2),
            0x00FD => self.same_text(common),
            0x0006 => self.same_result(),
            0x00BD => self.same_words(),
            0x0205 => byte_numbers::u16_at(s, x + 2) == byte_numbers::u16_at(t, y + 2),
            0x0201 | 0x00BE => true,
            _ => false,
        }
    }
}
