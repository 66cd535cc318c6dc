// The changes that make the copied stream the new one, each by a walk of the old stream's records: new indices of text cells, a chunk of the strings at a time,
// and new positions of BOUNDSHEETs.
#![tactic(auto)]

ghost use Rattle.std.specs.Prelude.{◌≡◌, ◌+◌, ◌*◌, ◌/◌, ◌%◌, ◌≤◌, ◌<◌, length};
ghost use Rattle.new_stream.specs.declared.Fate.TheVariants.{Text, Sheet};
ghost use Rattle.new_stream.specs.Entries.{entries_of, top};
ghost use Rattle.new_stream.specs.Compact.{texts_in, used_below};
ghost use Rattle.new_places.specs.Places.{place_for};
ghost use Rattle.copied_records.specs.Copied.{edited};
ghost use Rattle.flags.specs.Parts.{Ranked};
ghost use Rattle.new_fields.specs.Edited.{text_change, sheet_change, Roomy};
ghost use Rattle.new_fields.specs.Ranks.{rank_in, index_among};
ghost use Rattle.new_fields.specs.Runs.{top_in, reindexed, Reindexed};
ghost use Rattle.new_fields.specs.Slots.{Slots, Grown};

use new_places::{Entries, Step};
use new_stream::{Entry, Fate, Spot};

// The strings from `base` on that have a flag: set where one is used, how many used ones stand before each word of flags, and the new index of the first.
#[derive(Clone, Copy)]
struct Chunk<'a> {
    base: usize,
    start: u64,
    flags: &'a [u64],
    ranks: &'a [u64],
    ghost ranked: { Ranked start flags.now ranks.now },
    ghost low: { start ≤ 4294967296 },
    ghost few: { length flags.now ≤ 65536 },
}

impl Chunk<'_> {
    // The new index of a string, if it is one of these.
    #[tactic(auto, using(crate::proofs::Laws::rank_laws))]
    fn new_index(self, old: usize) -> Option<u64>
        ensures { result ≡ index_among (rank_in self.entry.flags.now self.entry.start self.entry.base) self.entry.base (length self.entry.flags.now * 64) old }
    {
        let flag = old.checked_sub(self.base)?;
        if self.flags.len() <= flag / 64 {
            return None;
        }
        Some(flags::rank_at(self.flags, self.ranks, flag, self.start))
    }
}

// The new index of a text cell, which stands at `place` of the buffer, if its old one is among those of the chunk.
#[tactic(auto, using(crate::proofs::Laws::index_laws))]
fn put_index(s: &[u8], x: Entry, chunk: Chunk<'_>, out: &mut [u8], place: usize)
    requires { (x.at < 4294967200) × (x.fate ≡ Text → place + 14 ≤ length out.old) }
    ensures { out.new ≡ text_change s.now (rank_in chunk.entry.flags.now chunk.entry.start chunk.entry.base) chunk.entry.base (length chunk.entry.flags.now * 64) x.at x.size x.fate out.old place }
{
    if let Some(old) = new_places::text_index(s, x) {
        if let Some(new) = chunk.new_index(old as usize) {
            byte_numbers::store(out, place + 10, 4, new);
        }
    }
}

// The new indices of the text cells whose old ones are among those of the chunk.
// `Roomy` is a fact of stream, table and buffer together: a struct of the three would have to say in each contract that the buffer is still the caller's.
#[tactic(auto, using(crate::proofs::Laws::place_laws, crate::proofs::Laws::text_keeps))]
fn put_indices(s: &[u8], table: usize, chunk: Chunk<'_>, out: &mut [u8])
    requires { Roomy s.now table (length out.old) }
    ensures { out.new ≡ edited (text_change s.now (rank_in chunk.entry.flags.now chunk.entry.start chunk.entry.base) chunk.entry.base (length chunk.entry.flags.now * 64)) table (entries_of s.now) out.old 0 }
{
    let mut place = 0;
    for x in Entries::of(s) {
        put_index(s, x, chunk, out, place);
        place += x.new_size(table);
    }
}

// How many text cells there are, and one more than their highest index.
#[derive(Clone, Copy, Debug, PartialEq, Eq)]
pub struct Census {
    pub total: usize,
    pub top: usize,
}

#[tactic(auto, using(crate::proofs::Indices::count_laws))]
pub fn count_texts(s: &[u8]) -> Census
    requires { length s.now ≤ 16777216 }
    ensures { (result.total ≡ length (texts_in s.now (entries_of s.now))) × (result.top ≡ top_in (texts_in s.now (entries_of s.now)) 0) }
{
    let mut total = 0;
    let mut top = 0;
    for x in Entries::of(s) {
        if let Some(index) = new_places::text_index(s, x) {
            total += 1;
            top = (index as usize + 1).max(top);
        }
    }
    Census { total, top }
}

// The text cells whose index is among those from base on that have a flag here; `start` is the new index of the first used one of them. What it is
// after the last.
#[tactic(auto, using(crate::proofs::Indices::chunk_laws))]
fn reindex_chunk(
    s: &[u8],
    table: usize,
    base: usize,
    start: u64,
    flags: &mut [u64],
    ranks: &mut [u64],
    out: &mut [u8],
) -> u64
    requires { Roomy s.now table (length out.old) × (length flags.old ≡ length ranks.old) × (length flags.old ≤ 65536) × (base ≤ 4294967296) × (start ≡ used_below (texts_in s.now (entries_of s.now)) base) }
    ensures value { result ≡ used_below (texts_in s.now (entries_of s.now)) (base + length flags.old * 64) }
    ensures out_after { (out.new ≡ reindexed s.now table base (length flags.old * 64) out.old) × (length flags.new ≡ length flags.old) × (length ranks.new ≡ length ranks.old) }
{
    used_strings::mark(s, base, flags);
    let next = flags::rank_words(flags, start, ranks);
    let chunk = Chunk {
        base,
        start,
        flags,
        ranks,
    };
    put_indices(s, table, chunk, out);
    next
}

// The new indices of all text cells, whose old ones are below `top`.
#[tactic(auto, using(crate::proofs::Indices::runs_laws))]
pub fn reindex(
    s: &[u8],
    table: usize,
    top: usize,
    flags: &mut [u64],
    ranks: &mut [u64],
    out: &mut [u8],
)
    requires { Roomy s.now table (length out.old) × (length flags.old ≡ length ranks.old) × (0 < length flags.old) × (length flags.old ≤ 65536) × (top ≤ 4294967296) }
    ensures { Reindexed s.now table top out.old out.new }
{
    let k = flags.len() * 64;
    let mut start: u64 = 0;
    for base in (0..top).step_by(k) {
        start = reindex_chunk(s, table, base, start, flags, ranks, out);
    }
}

// Starts of top-level substreams, with their new places, in words that are lent: `count` of them so far, and as many starts as are to be passed over
// before the next.
#[derive(Clone, Copy)]
struct Filling {
    count: usize,
    left: usize,
}

// The word of a place and its new place.
fn word_of(at: usize, place: usize) -> u64
    requires { (at < 4294967296) × (place < 4294967296) }
    ensures { (result / 4294967296 ≡ at) × (result % 4294967296 ≡ place) }
{
    at as u64 * 4294967296 + place as u64
}

// A word more, where there is one.
#[tactic(auto, using(crate::proofs::Slots::grown_laws))]
fn keep(count: usize, every: usize, at: usize, place: usize, slots: &mut [u64]) -> Filling
    requires { at < 4294967296 }
    ensures { Grown count result.count (top at) place slots.old slots.new }
{
    if slots.len() <= count || 4294967296 <= place {
        return Filling { count, left: every };
    }
    slots[count] = word_of(at, place);
    Filling {
        count: count + 1,
        left: every,
    }
}

// At a spot, with its new place.
#[tactic(auto, using(crate::proofs::Slots::grown_laws))]
fn fill_at(f: Filling, every: usize, w: Spot, place: usize, slots: &mut [u64]) -> Filling
    requires { w.at < 4294967296 }
    ensures { Grown f.count result.count w place slots.old slots.new }
{
    if w.level != 0 {
        return f;
    }
    if f.left == 0 {
        return keep(f.count, every, w.at, place, slots);
    }
    Filling {
        count: f.count,
        left: f.left - 1,
    }
}

// The starts of the top-level substreams, each after `every` that are passed over, and how many they are. The first is the stream's.
#[tactic(auto, using(crate::proofs::Slots::fill_laws))]
fn fill(s: &[u8], table: usize, every: usize, slots: &mut [u64]) -> usize
    requires { (length s.now ≤ 16777216) × (table ≤ 16777216) × (0 < length slots.old) }
    ensures { Slots s.now table result slots.new }
{
    slots[0] = 0;
    let mut filling = Filling {
        count: 1,
        left: every,
    };
    let mut spot = Spot::top(0);
    let mut place = 0;
    // By steps: the spot after each entry is what is kept, and `Entries` gives the entries alone.
    while let Some(Step { entry, next }) = new_places::step_at(s, spot) {
        place += entry.new_size(table);
        spot = next;
        filling = fill_at(filling, every, spot, place, slots);
    }
    filling.count
}

// New places of a stream whose new table has so many bytes: those of the starts that are kept in words, by which any other is found.
#[derive(Clone, Copy)]
struct NewPlaces<'a> {
    stream: &'a [u8],
    table: usize,
    words: &'a [u64],
    ghost slots: { Slots stream.now table (length words.now) words.now },
}

impl NewPlaces<'_> {
    // The new place of the offset p.
    fn of(&self, p: usize) -> usize
        ensures { result ≡ place_for self.now.table (entries_of self.now.stream.now) p }
    {
        let words = self.words;
        let after = words.partition_point(|word| (*word / 4294967296) as usize <= p);
        let word = words[after - 1];
        let entries = Entries::from_top(self.stream, (word / 4294967296) as usize);
        entries.new_place(p, (word % 4294967296) as usize, self.table)
    }

    // The new position of a BOUNDSHEET, which stands at `place` of the buffer.
    #[tactic(auto, using(crate::proofs::Laws::position_here))]
    fn put_position(&self, x: Entry, out: &mut [u8], place: usize)
        requires { (x.at < 4294967200) × (x.fate ≡ Sheet → place + 8 ≤ length out.old) }
        ensures { out.new ≡ sheet_change self.now.stream.now (place_for self.now.table (entries_of self.now.stream.now)) x.at x.size x.fate out.old place }
    {
        if let Fate::Sheet = x.fate {
            let old = byte_numbers::u32_or_zeros(self.stream, x.at + 4) as usize;
            let new = self.of(old);
            byte_numbers::store(out, place + 4, 4, new as u64);
        }
    }

    // The new positions of the BOUNDSHEETs.
    #[tactic(auto, using(crate::proofs::Laws::place_laws))]
    fn put_sheets(&self, out: &mut [u8])
        requires { Roomy self.now.stream.now self.now.table (length out.old) }
        ensures { out.new ≡ edited (sheet_change self.now.stream.now (place_for self.now.table (entries_of self.now.stream.now))) self.now.table (entries_of self.now.stream.now) out.old 0 }
    {
        let mut place = 0;
        for x in Entries::of(self.stream) {
            self.put_position(x, out, place);
            place += x.new_size(self.table);
        }
    }
}

// The new positions of the BOUNDSHEETs. Where there are more sheets than words, a word stands for the start of a few: so a position is found by a search among the
// words and a short walk, in whatever order the sheets are listed.
pub fn put_positions(s: &[u8], table: usize, slots: &mut [u64], out: &mut [u8])
    requires { Roomy s.now table (length out.old) × (0 < length slots.old) }
    ensures { out.new ≡ edited (sheet_change s.now (place_for table (entries_of s.now))) table (entries_of s.now) out.old 0 }
{
    let every = workbook::sheet_count(s) / slots.len();
    let count = fill(s, table, every, slots);
    let places = NewPlaces {
        stream: s,
        table,
        words: &slots[..count],
    };
    places.put_sheets(out);
}
