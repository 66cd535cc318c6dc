// The table of shared strings of a stream.
ghost use Rattle.std.specs.Prelude.{◌≡◌, ◌+◌, ◌≤◌, ◌<◌, length};
ghost use Rattle.strings.specs.Table.{places_of};
ghost use Rattle.string_marks.specs.Marks.{end_at, Marked, Passes};

use crate::marks::Mark;
use record::Header;
use segments::Cursor;

// Where its SST has its header, 0 where there is none, and how many strings it has. Where it has any, its first record lies in the stream.
#[derive(Clone, Copy)]
pub struct Table<'a> {
    pub stream: &'a [u8],
    pub place: usize,
    pub count: u32,
    pub ghost absent: { place ≡ 0 → count ≡ 0 },
    pub ghost within: { 0 < count → end_at stream.now place ≤ length stream.now },
    pub ghost counted: { 0 < place → length (places_of stream.now place (end_at stream.now place)) ≡ count },
}

// So many strings were passed, the last of them with so many bytes; the next is looked for at the place.
#[derive(Clone, Copy)]
pub(crate) struct Passed {
    pub(crate) count: usize,
    pub(crate) place: Cursor,
    pub(crate) last: usize,
}

impl<'a> Table<'a> {
    // Where the body of its SST ends.
    pub fn end(&self) -> usize
        requires { end_at self.now.stream.now self.now.place ≤ length self.now.stream.now }
        ensures { (result ≡ end_at self.now.stream.now self.now.place) × (result < self.now.place + 65540) }
    {
        let s = self.stream;
        self.place + 4 + usize::from(byte_numbers::u16_at(s, self.place + 2))
    }

    // Where the table ends: after its last CONTINUE. Only the distance between marks rests on it.
    fn end_of_all(&self, e: usize) -> usize
        requires { e ≤ length self.now.stream.now }
        ensures { (e ≤ result) × (result ≤ length self.now.stream.now) }
    {
        let s = self.stream;
        let mut p = e;
        // Each record says where the next one starts: there is no index to count.
        while let Header::Record {
            kind: 0x003c,
            size: _,
            end,
        } = record::header_at(s, p)
        {
            p = end;
        }
        p
    }

    // Past those strings after the ones passed that start before an edge.
    fn pass(&self, passed: Passed, edge: usize) -> Passed
        requires { Passes self.now.stream.now self.now.place self.now.count passed }
        ensures { Passes self.now.stream.now self.now.place self.now.count result }
    {
        let s = self.stream;
        let mut here = Passed { last: 0, ..passed };
        // It ends by place as well as by number, and one value moves that holds both: a range would only count beside it.
        while here.count < self.count as usize && here.place.at < edge {
            let Ok(place) = strings::skip_next(s, here.place) else {
                break;
            };
            here = Passed {
                count: here.count + 1,
                place,
                last: place.at.saturating_sub(here.place.at),
            };
        }
        here
    }

    // Puts marks on all of it, at an even distance: the last one stands at the end. A mark tells of a place by four bytes: it holds no place of a longer stream.
    pub fn mark(&self, marks: &mut [Mark])
        requires { (0 < length marks.old) × (length self.now.stream.now ≤ 16777216) }
        ensures { (0 < self.now.count → Marked self.now.stream.now self.now.place marks.new) × (length marks.new ≡ length marks.old) }
    {
        if self.count == 0 {
            return;
        }
        let end = self.end();
        let step = (self.end_of_all(end) - end) / (marks.len() - 1).max(1) + 1;
        let mut edge = self.place + 12;
        let mut passed = Passed {
            count: 0,
            place: Cursor {
                seg: self.place,
                at: edge,
                end,
            },
            last: 0,
        };
        for mark in marks.iter_mut() {
            *mark = Mark::after(passed);
            edge = edge.saturating_add(step);
            passed = self.pass(passed, edge);
        }
    }
}
