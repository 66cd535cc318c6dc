// Characters where they stand: side by side, and those of a string, whose segments part them.
ghost use Rattle.std.specs.Prelude.{◌≡◌, ◌+◌, ◌-◌, ◌*◌, ◌/◌, ◌≤◌, ◌<◌, [], ◌++◌, ℕ, true, length, get_or};
ghost use Rattle.std.specs.Ordering.{nat_cmp};
ghost use Rattle.std.specs.Cmp.Lexicographic.{slice_cmp};
ghost use Rattle.byte_numbers.specs.Bytes.{num_at};
ghost use Rattle.segments.specs.Segments.{items};
ghost use Rattle.segments.specs.Parts.{Inside, Passes, nums};
ghost use Rattle.differences.specs.Differences.{same, chars_of};
ghost use Rattle.text_equality.specs.Lists.{Alike, rank_of, Passes-prop};

use segments::Cursor;
use std::cmp::Ordering;

// How many characters of w bytes there are in n bytes.
fn chars_in(n: usize, w: usize) -> usize
    requires { (1 ≤ w) × (w ≤ 2) }
    ensures { result ≡ n / w }
{
    if w == 1 { n } else { n / 2 }
}

// Whether eight bytes are the same.
// Its body is one `==` already; it is a function for its clause, which says of each byte what the two numbers say.
#[tactic(auto, using(crate::proofs::Runs::bytes_same))]
fn same_word(x: &[u8], y: &[u8], i: usize) -> bool
    requires { (i + 8 ≤ length x.now) × (i + 8 ≤ length y.now) }
    ensures { result ≡ true → (k : ℕ) → k < 8 → get_or x.now (i + k) 0 ≡ get_or y.now (i + k) 0 }
{
    byte_numbers::u64_at(x, i) == byte_numbers::u64_at(y, i)
}

// Whether eight characters of one byte are those of two bytes, without a test between them.
// Bytes on one side and pairs of bytes on the other are of two types, which no `==` compares.
#[tactic(auto, using(crate::proofs::Runs::lanes_on))]
fn same_eight(narrow: &[u8], a: usize, wide: &[u8], b: usize) -> bool
    requires { (a + 8 ≤ length narrow.now) × (b + 16 ≤ length wide.now) }
    ensures { result ≡ true → (k : ℕ) → k < 8 → num_at narrow.now 1 (a + k) ≡ num_at wide.now 2 (b + 2 * k) }
{
    let mut differing = 0;
    for i in 0..8 {
        differing |= u16::from(narrow[a + i]) ^ byte_numbers::u16_at(wide, b + 2 * i);
    }
    differing == 0
}

// Characters of one width, side by side.
#[derive(Clone, Copy)]
pub struct Run<'a> {
    pub bytes: &'a [u8],
    pub width: usize,
    ghost some: { 1 ≤ width },
    ghost small: { width ≤ 2 },
}

#[tactic(auto, using(crate::proofs::Runs::chars_count))]
impl<'a> Run<'a> {
    ghost use Rattle.text_equality.specs.Characters.{units_of};

    fn count(&self) -> usize
        ensures { result ≡ length (units_of self.now) }
    {
        let bytes = self.bytes;
        chars_in(bytes.len(), self.width)
    }

    #[tactic(auto, using(crate::proofs::Runs::chars_count, crate::proofs::Runs::char_laws))]
    fn unit(&self, i: usize) -> u16
        requires { i < length (units_of self.now) }
        ensures { result ≡ get_or (units_of self.now) i 0 }
    {
        segments::unit_at(self.bytes, self.width, i * self.width)
    }

    // How many are the same from the start on, by words of eight bytes that agree, where both have one width.
    // This answers how many, not whether, as do the next two: no `==` says that.
    // Both runs have as many characters: a struct of the two would be built for one call each time, and turned around in `same_start`.
    fn same_words(&self, other: &Run) -> usize
        requires { (self.now.width ≡ other.now.width) × (length (units_of self.now) ≡ length (units_of other.now)) }
        ensures { Alike (units_of self.now) (units_of other.now) result }
    {
        let x = self.bytes;
        let y = other.bytes;
        let words = self.count() * self.width / 8;
        for i in 0..words {
            if !same_word(x, y, 8 * i) {
                return chars_in(8 * i, self.width);
            }
        }
        chars_in(8 * words, self.width)
    }

    // The same by eights, of characters of one byte and of two. It answers how many, too.
    fn same_eights(&self, other: &Run) -> usize
        requires { (self.now.width ≡ 1) × (other.now.width ≡ 2) × (length (units_of self.now) ≡ length (units_of other.now)) }
        ensures { Alike (units_of self.now) (units_of other.now) result }
    {
        let x = self.bytes;
        let y = other.bytes;
        let eights = x.len() / 8;
        for i in 0..eights {
            if !same_eight(x, 8 * i, y, 16 * i) {
                return 8 * i;
            }
        }
        8 * eights
    }

    // Of a few none: they are compared as quickly as words are looked for, and a segment may hold one. It answers how many, too.
    #[tactic(auto, using(crate::proofs::Runs::chars_count, crate::proofs::Lists::alike_turned))]
    fn same_start(&self, other: &Run) -> usize
        requires { length (units_of self.now) ≡ length (units_of other.now) }
        ensures { Alike (units_of self.now) (units_of other.now) result }
    {
        if self.count() < 8 {
            0
        } else if self.width == other.width {
            self.same_words(other)
        } else if self.width == 1 {
            self.same_eights(other)
        } else {
            other.same_eights(self)
        }
    }

    // Which comes first, of two with as many characters.
    pub fn order(&self, other: &Run) -> Ordering
        requires { length (units_of self.now) ≡ length (units_of other.now) }
        ensures { result ≡ slice_cmp nat_cmp (units_of self.now) (units_of other.now) }
    {
        for i in self.same_start(other)..self.count() {
            let found = self.unit(i).cmp(&other.unit(i));
            if found.is_ne() {
                return found;
            }
        }
        Ordering::Equal
    }

    // Whether two runs have the same characters.
    // Runs of different widths may have them, which a derived `==` would deny.
    pub fn is_same(&self, other: &Run) -> bool
        ensures { result ≡ same (units_of self.now) (units_of other.now) }
    {
        self.count() == other.count() && self.order(other).is_eq()
    }
}

// The characters of a string: how many, the bytes of the first one, and where they start.
#[derive(Clone, Copy)]
pub struct Chars<'a> {
    pub stream: &'a [u8],
    pub count: usize,
    pub width: usize,
    pub place: Cursor,
    ghost inside: { Inside stream.now place },
    ghost some: { 1 ≤ width },
    ghost small: { width ≤ 2 },
    ghost passes: { Passes (items 8 stream.now true width count place) } by { Passes-prop (items 8 stream.now true width count place) },
}

impl<'a> Chars<'a> {
    ghost use Rattle.text_equality.specs.Characters.{units_of, units_in, Entered};

    // None.
    #[tactic(auto, unfolding(segments::specs::Segments::items))]
    pub fn none(stream: &'a [u8]) -> Chars<'a>
        ensures { units_in result ≡ [] }
    {
        Chars {
            stream,
            count: 0,
            width: 1,
            place: Cursor {
                seg: 0,
                at: 0,
                end: 0,
            },
        }
    }

    // The same, the first of them in this segment. They are known to stand there: where this segment has ended, the next one is entered without a test.
    fn entered(&self) -> Chars<'a>
        requires { 1 ≤ self.now.count }
        ensures { Entered self.now result }
    {
        let place = self.place;
        if place.at != place.end {
            return *self;
        }
        let stream = self.stream;
        let seg = place.end;
        let at = seg + 4;
        Chars {
            stream,
            count: self.count,
            width: segments::width_of(stream[at]),
            place: Cursor {
                seg,
                at: at + 1,
                end: at + usize::from(byte_numbers::u16_at(stream, seg + 2)),
            },
        }
    }

    // How many of them stand in this segment.
    fn here(&self) -> usize
        requires { (1 ≤ self.now.count) × (self.now.width ≤ self.now.place.end - self.now.place.at) }
        ensures { (1 ≤ result) × (result ≤ self.now.count) × (self.now.place.at + result * self.now.width ≤ self.now.place.end) }
    {
        let place = self.place;
        segments::fit_items(place.end - place.at, self.width, self.count).count
    }

    // The first n of them, which stand in this segment, and the others.
    #[tactic(auto, using(crate::proofs::Segments::after_laws, crate::proofs::Runs::part_chars, segments::proofs::Laws::nums_length))]
    fn split(&self, n: usize) -> (Run<'a>, Chars<'a>)
        requires { (n ≤ self.now.count) × (self.now.place.at + n * self.now.width ≤ self.now.place.end) }
        ensures units { units_in self.now ≡ units_of result.0 ++ units_in result.1 }
        ensures first { length (units_of result.0) ≡ n }
        ensures rest { result.1.count ≡ self.now.count - n }
    {
        let place = self.place;
        let at = place.at + n * self.width;
        let stream = self.stream;
        let first = Run {
            bytes: &stream[place.at..at],
            width: self.width,
        };
        let rest = Chars {
            stream,
            count: self.count - n,
            width: self.width,
            place: Cursor {
                seg: place.seg,
                at,
                end: place.end,
            },
        };
        (first, rest)
    }

    // Which of two strings comes first: the one with fewer characters, else by the first that differs.
    pub fn order(&self, other: &Chars) -> Ordering
        ensures { result ≡ rank_of (units_in self.now) (units_in other.now) }
    {
        if self.count != other.count {
            return self.count.cmp(&other.count);
        }
        let mut x = *self;
        let mut y = *other;
        // Each turn takes as many as stand in one segment on both sides: there is no index to count.
        while x.count != 0 {
            let a = x.entered();
            let b = y.entered();
            let n = a.here().min(b.here());
            let (first, rest) = a.split(n);
            let (other_first, other_rest) = b.split(n);
            let found = first.order(&other_first);
            if found.is_ne() {
                return found;
            }
            x = rest;
            y = other_rest;
        }
        Ordering::Equal
    }

    // Whether two strings have the same characters.
    // They may have them in other segments, in other places and streams, which a derived `==` would deny.
    #[tactic(auto, using(crate::proofs::Lists::rank_is_same))]
    pub fn is_same(&self, other: &Chars) -> bool
        ensures { result ≡ same (units_in self.now) (units_in other.now) }
    {
        self.order(other).is_eq()
    }
}
