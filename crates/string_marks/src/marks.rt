// Marks, and a table with them.
ghost use Rattle.std.specs.Prelude.{◌≡◌, ◌+◌, ◌≤◌, ◌<◌, ℕ, length};
ghost use Rattle.strings.specs.Table.{place_of};
ghost use Rattle.std.specs.Coded.{Π_prop, →_prop};
ghost use Rattle.string_marks.specs.Marks.{end_at, before_at, cursor_at, cursor_of, segment_of, Tells, Reaches, Reaches-prop};

use crate::table::{Passed, Table};
use segments::Cursor;

// How many strings stand before a mark, where the next one is looked for, and how far that is into the body of its segment. A link tells of the string before it.
#[derive(Clone, Copy)]
pub struct Mark {
    pub before: u32,
    pub at: u32,
    pub into: u16,
    pub link: u16,
}

#[tactic(auto, using(crate::proofs::Laws::cursor_made))]
impl Mark {
    pub const NONE: Mark = Mark {
        before: 0,
        at: 0,
        into: 0,
        link: 0,
    };

    // The mark where these strings were passed. Its link is 1 where the last of them is worth one: a string of few bytes is compared as quickly as a link is looked
    // for. By bytes, since a string of many short segments is dearer than its characters tell.
    pub(crate) fn after(passed: Passed) -> Mark
        requires { (passed.count < 4294967296) × (passed.place.at < 4294967296) × (passed.place.seg + 4 ≤ passed.place.at) × (passed.place.at < passed.place.seg + 65540) }
        ensures { Tells passed.count passed.place result × (result.link ≤ 1) }
    {
        let place = passed.place;
        Mark {
            before: passed.count as u32,
            at: place.at as u32,
            into: (place.at - place.seg - 4) as u16,
            link: u16::from(512 <= passed.last),
        }
    }

    fn cursor(&self, s: &[u8]) -> Cursor
        requires { segment_of self.now + 4 ≤ length s.now }
        ensures { result ≡ cursor_of s.now self.now }
    {
        let at = self.at as usize;
        let seg = at.saturating_sub(usize::from(self.into) + 4);
        Cursor {
            seg,
            at,
            end: seg + 4 + usize::from(byte_numbers::u16_at(s, seg + 2)),
        }
    }
}

// A table whose strings are found by marks.
#[derive(Clone, Copy)]
pub struct MarkedTable<'a> {
    pub table: Table<'a>,
    pub marks: &'a [Mark],
    pub ghost some: { 0 < table.count → 0 < length marks.now },
    pub ghost none_before: { 0 < table.count → before_at marks.now 0 ≡ 0 },
    pub ghost each: { 0 < table.count → (j : ℕ) → j < length marks.now → Reaches table.stream.now table.place (before_at marks.now j) (cursor_at table.stream.now marks.now j) } by { →_prop (Π_prop (λ j. →_prop (Reaches-prop table.stream.now table.place (before_at marks.now j) (cursor_at table.stream.now marks.now j)))) },
}

impl<'a> MarkedTable<'a> {
    // The last mark with at most i strings before it.
    pub fn mark_before(&self, i: usize) -> usize
        requires { 0 < self.now.table.count }
        ensures { (result < length self.now.marks.now) × (before_at self.now.marks.now result ≤ i) }
    {
        let marks = self.marks;
        let after = marks.partition_point(|mark| mark.before as usize <= i);
        if 0 < after && marks[after - 1].before as usize <= i {
            after - 1
        } else {
            0
        }
    }

    // The place of string i, from mark j on.
    #[tactic(auto, using(crate::proofs::Laws::mark_inside, crate::proofs::Laws::mark_ok))]
    pub fn place(&self, j: usize, i: usize) -> Cursor
        requires { (i < self.now.table.count) × (j < length self.now.marks.now) × (before_at self.now.marks.now j ≤ i) }
        ensures { result ≡ place_of self.now.table.stream.now self.now.table.place (end_at self.now.table.stream.now self.now.table.place) i }
    {
        let s = self.table.stream;
        let mark = self.marks[j];
        let passed = strings::skip_strings(s, i - mark.before as usize, mark.cursor(s)).unwrap();
        strings::next_place(s, passed).unwrap()
    }
}
