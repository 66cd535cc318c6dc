// The records of a stream in order, with what becomes of each when the unused strings are dropped, and the new place of an old offset.
#![tactic(auto)]

ghost use Rattle.std.specs.Prelude.{◌≡◌, ◌+◌, ◌≤◌, ◌<◌, length};
ghost use Rattle.new_places.specs.Parts.{item_of, text_index};
ghost use Rattle.new_places.specs.Places.{LengthOf};
ghost use Rattle.new_stream.specs.Entries.{in_globals, in_later, fate_of, level_after, spot_after, record_item, rest_item, on_header, entry_item};

use new_stream::{Entry, Fate, Spot};
use record::Header;

#[tactic(auto, using(crate::proofs::Laws::told), unfolding(new_stream::specs::Entries::in_globals))]
fn in_globals(id: u16) -> Fate
    ensures { result ≡ in_globals id }
{
    match id {
        0x00FF => Fate::Goes,
        0x00FC => Fate::Table,
        0x0085 => Fate::Sheet,
        _ => Fate::Stays,
    }
}

#[tactic(auto, using(crate::proofs::Laws::told), unfolding(new_stream::specs::Entries::in_later))]
fn in_later(kind: u16, id: u16) -> Fate
    ensures { result ≡ in_later kind id }
{
    match (kind, id) {
        (_, 0x020B) => Fate::Goes,
        (0x0010, 0x00FD) => Fate::Text,
        _ => Fate::Stays,
    }
}

#[tactic(auto, using(crate::proofs::Laws::told), unfolding(new_stream::specs::Entries::fate_of))]
fn fate_of(w: Spot, id: u16) -> Fate
    ensures { result ≡ fate_of w id }
{
    if id == 0x003C {
        return if w.gone { Fate::Goes } else { Fate::Stays };
    }
    if w.level != 1 {
        return Fate::Stays;
    }
    if w.kind == 0x0005 {
        return in_globals(id);
    }
    in_later(w.kind, id)
}

// How deep a spot lies is limited by a clause of each and not by its type: what lasts from a spot to the next is that its level is at most its offset, which `Entries` carries.
#[tactic(auto, using(crate::proofs::Laws::told), unfolding(new_stream::specs::Entries::level_after))]
fn level_after(level: usize, id: u16) -> usize
    requires { level < 9223372036854775808 }
    ensures { result ≡ level_after level id }
{
    match id {
        0x0809 => level + 1,
        0x000A => level.saturating_sub(1),
        _ => level,
    }
}

#[tactic(auto, using(crate::proofs::Laws::told), unfolding(new_stream::specs::Entries::spot_after))]
fn spot_after(s: &[u8], w: Spot, id: u16, end: usize) -> Spot
    requires { (w.at < length s.now) × (w.level < 9223372036854775808) }
    ensures { result ≡ spot_after s.now w id end }
{
    Spot {
        at: end,
        level: level_after(w.level, id),
        kind: if w.level == 0 {
            byte_numbers::u16_or_zeros(s, w.at + 6)
        } else {
            w.kind
        },
        gone: fate_of(w, id).takes_parts(),
    }
}

// What stands at a spot, and the spot after it.
#[derive(Clone, Copy, Debug, PartialEq, Eq)]
pub struct Step {
    pub entry: Entry,
    pub next: Spot,
}

#[tactic(auto, using(crate::proofs::Laws::told), unfolding(new_stream::specs::Entries::record_item))]
fn record_step(s: &[u8], w: Spot, id: u16, size: usize, end: usize) -> Step
    requires { (w.at + 4 + size ≤ length s.now) × (w.level < 9223372036854775808) }
    ensures { item_of (Some result) ≡ record_item s.now w id size end }
{
    Step {
        entry: Entry {
            at: w.at,
            size: 4 + size,
            fate: fate_of(w, id),
        },
        next: spot_after(s, w, id, end),
    }
}

#[tactic(auto, using(crate::proofs::Laws::told), unfolding(new_stream::specs::Entries::rest_item))]
fn rest_step(s: &[u8], w: Spot) -> Option<Step>
    ensures { item_of result ≡ rest_item s.now w }
{
    let end = s.len();
    if end <= w.at {
        return None;
    }
    Some(Step {
        entry: Entry {
            at: w.at,
            size: end - w.at,
            fate: Fate::Stays,
        },
        next: Spot {
            at: end,
            level: 0,
            kind: 0,
            gone: false,
        },
    })
}

#[tactic(auto, using(crate::proofs::Laws::told))]
fn header_step(s: &[u8], w: Spot, id: u16, size: usize, end: usize) -> Option<Step>
    requires { (w.at + 4 + size ≤ length s.now) × (w.level < 9223372036854775808) }
    ensures { item_of result ≡ on_header s.now w (Header.Record id size end) }
{
    if w.level == 0 && id != 0x0809 {
        return rest_step(s, w);
    }
    Some(record_step(s, w, id, size, end))
}

#[inline(always)]
#[tactic(auto, using(crate::proofs::Laws::told, record::proofs::Laws::body_within), unfolding(new_stream::specs::Entries::entry_item))]
fn whole_step(s: &[u8], w: Spot) -> Option<Step>
    requires { w.level < 9223372036854775808 }
    ensures { item_of result ≡ entry_item s.now w }
{
    match record::header_at(s, w.at) {
        Header::Record {
            kind: id,
            size,
            end,
        } => header_step(s, w, id, size, end),
        Header::Cut => rest_step(s, w),
        Header::End => None,
    }
}

// Not inlined, so that a walk has the short step over a cell in it and no more.
#[inline(never)]
fn any_step(s: &[u8], w: Spot) -> Option<Step>
    requires { w.level < 9223372036854775808 }
    ensures { item_of result ≡ entry_item s.now w }
{
    whole_step(s, w)
}

// A record directly in a worksheet, of the types that most of its cells and rows have: between MULRK and RK, and no INDEX.
#[tactic(auto, using(crate::proofs::Laws::told, crate::proofs::Laws::cell_made))]
fn cell_step(w: Spot, id: u16, size: usize, end: usize) -> Step
    requires { (w.level ≡ 1) × (w.kind ≡ 0x0010) × (0x00BD ≤ id) × (id ≤ 0x027E) × (id ≡ 0x020B → ⊥) × (size < 9223372036854775808) }
    ensures { (s : _) → item_of (Some result) ≡ on_header s w (Header.Record id size end) }
{
    Step {
        entry: Entry {
            at: w.at,
            size: 4 + size,
            fate: if id == 0x00FD {
                Fate::Text
            } else {
                Fate::Stays
            },
        },
        next: Spot {
            at: end,
            level: 1,
            kind: 0x0010,
            gone: false,
        },
    }
}

// What stands at a spot. Most records are those of cells; so they are told first, in few steps, which every walk then has in it.
#[inline(always)]
#[tactic(auto, using(crate::proofs::Laws::told, record::proofs::Laws::body_within), unfolding(new_stream::specs::Entries::entry_item))]
pub fn step_at(s: &[u8], w: Spot) -> Option<Step>
    requires { w.level < 9223372036854775808 }
    ensures { item_of result ≡ entry_item s.now w }
{
    if w.level == 1 && w.kind == 0x0010 {
        if let Header::Record {
            kind: id,
            size,
            end,
        } = record::header_at(s, w.at)
        {
            if 0x00BD <= id && id <= 0x027E && id != 0x020B {
                return Some(cell_step(w, id, size, end));
            }
        }
    }
    any_step(s, w)
}

// The records of a stream from a spot on, in order.
#[derive(Clone, Copy, Debug)]
pub struct Entries<'a> {
    pub stream: &'a [u8],
    pub spot: Spot,
    ghost within: { spot.at ≤ length stream.now },
    ghost level: { spot.level ≤ spot.at },
}

impl<'a> Entries<'a> {
    ghost use Rattle.new_stream.specs.Entries.{entries_from, entries_of, top};
    ghost use Rattle.new_places.specs.Left.{left};
    ghost use Rattle.new_places.specs.Places.{sizes, place_for};

    // All of them.
    pub fn of(stream: &'a [u8]) -> Entries<'a>
        ensures { left result ≡ entries_of stream.now }
    {
        Entries::from_top(stream, 0)
    }

    // Those from a place between the top-level substreams on.
    pub fn from_top(stream: &'a [u8], at: usize) -> Entries<'a>
        requires { at ≤ length stream.now }
        ensures { left result ≡ entries_from stream.now (top at) }
    {
        Entries {
            stream,
            spot: Spot::top(at),
        }
    }

    // The new place of the offset p, which is not before the first of them, from the new place of the first, where the new table has so many bytes.
    #[tactic(auto, using(crate::proofs::Places::entry_by_entry, crate::proofs::Walking::left_none, crate::proofs::Walking::left_some, crate::proofs::Walking::step_ahead, crate::proofs::Walking::place_past))]
    pub fn new_place(self, p: usize, first: usize, table: usize) -> usize
        requires { first + sizes table (left self) < 18446744073709551616 }
        ensures { result ≡ first + place_for table (left self.entry) p }
    {
        let mut place = first;
        let mut spot = self.spot;
        // Not by the iterator: whether a record comes before p is told before it is read, and each is read once, whatever it is.
        while spot.at < p {
            let Some(step) = whole_step(self.stream, spot) else {
                break;
            };
            place += step.entry.new_size(table);
            spot = step.next;
        }
        place
    }
}

impl<'a> Iterator for Entries<'a> {
    ghost use Rattle.std.specs.Iterator.{YieldsFirst, item_count};
    ghost use Rattle.new_places.specs.Left.{left};

    type Item = Entry;

    ghost next_gives = { YieldsFirst left };

    ghost remaining = { item_count left };

    #[inline(always)]
    #[tactic(auto, using(crate::proofs::Walking::left_none, crate::proofs::Walking::left_some, crate::proofs::Walking::step_ahead))]
    fn next(&mut self) -> Option<Entry> {
        let step = step_at(self.stream, self.spot)?;
        self.spot = step.next;
        Some(step.entry)
    }
}

// The string index of a listed text cell.
pub fn text_index(s: &[u8], x: Entry) -> Option<u32>
    requires { x.at < 4294967200 }
    ensures { result ≡ text_index s.now x.at x.fate }
{
    match x.fate {
        Fate::Text => Some(byte_numbers::u32_or_zeros(s, x.at + 10)),
        _ => None,
    }
}

// The length of the new stream, where the new table has so many bytes.
pub fn length_with(s: &[u8], table: usize) -> usize
    requires { (length s.now ≤ 16777216) × (table ≤ 16777216) }
    ensures { LengthOf s.now table result }
{
    Entries::of(s).map(|x| x.new_size(table)).sum()
}
