// Writes a string table anew: an SST and its CONTINUEs, into a lent buffer, from strings of an old table.
#![tactic(auto)]

ghost use Rattle.std.specs.Prelude.{◌≡◌, [], ◌+◌, ◌-◌, ◌*◌, ◌≤◌, ◌<◌, ◌↔◌, IsTrue, length};
ghost use Rattle.std.specs.Int.{from_bool};
ghost use Rattle.byte_numbers.specs.Bytes.{num_at};
ghost use Rattle.segments.specs.Segments.{got, items};
ghost use Rattle.segments.specs.Parts.{Inside, Passes, ends};
ghost use Rattle.table_texts.specs.Written.{wide_bit, text_pieces, pieces_of};
ghost use Rattle.table_texts.specs.Texts.{the_text, text_at, kept};
ghost use Rattle.flags.specs.Flags.{flags_from};
ghost use Rattle.table_writer.specs.Writing.{state, wrote, Long, Item, written, Stays, start_size, char_pieces, rest_at, rest_pieces, marked_pieces, with_counts, table_start};
ghost use Rattle.table_writer.specs.Reading.{units_in, end_of, next_in, strings_in, texts_in};

mod chars;
mod texts;
mod writer;

pub use chars::Chars;
use segments::{Cursor, Room};
use strings::{Head, HeadRead};
pub use texts::{NextText, Texts};
pub use writer::Out;
use writer::{Form, NewHead};

// The number of w bytes at p.
#[tactic(auto, using(crate::proofs::Laws::num_laws))]
fn num_at(s: &[u8], w: usize, p: usize) -> u64
    requires { (1 ≤ w) × (w ≤ 4) × (w ≡ 3 → ⊥) × (p + w ≤ length s.now) }
    ensures { result ≡ num_at s.now w p }
{
    match w {
        1 => u64::from(s[p]),
        2 => u64::from(byte_numbers::u16_at(s, p)),
        _ => u64::from(byte_numbers::u32_at(s, p)),
    }
}

// n items of w bytes that stand at c, none of them refused, written with v bytes each, one by one. The answer is where they end.
// What tells of the items are a place and four parameters: with the four in a struct, which was tried, the compiler doesn't take it apart, and a table took half as long again.
#[tactic(auto, using(crate::proofs::Laws::turn_laws))]
fn put_over(
    s: &[u8],
    c: Cursor,
    flagged: bool,
    w: usize,
    n: usize,
    v: usize,
    buf: &mut [u8],
    o: &mut Out,
) -> Cursor
    requires { Inside s.now c × Item flagged w × Item flagged v × Passes (items 8 s.now flagged w n c) × Long (state buf.old o.old) (written flagged v (items 8 s.now flagged w n c)) }
    ensures place_after { got tt result ≡ ends (items 8 s.now flagged w n c) }
    ensures out_after { state buf.new o.new ≡ wrote (state buf.old o.old) (written flagged v (items 8 s.now flagged w n c)) }
{
    let form = Form { flagged, width: v };
    let mut c = c;
    let mut size = w;
    for _ in 0..n {
        let Room { width, place } = segments::room_for(s, 8, flagged, size, c).unwrap();
        o.put_item(buf, form, num_at(s, width, place.at));
        c = Cursor {
            at: place.at + width,
            ..place
        };
        size = width;
    }
    c
}

// Whether n items are written as they are: bytes, of which `here` are left in their segment, into one that has `room` bytes left.
fn stays(w: usize, v: usize, n: usize, here: usize, room: usize) -> bool
    ensures { IsTrue result ↔ Stays w v n here room }
{
    w == 1 && v == 1 && n <= here && n <= room
}

// The same: most often they are bytes of one segment that go into one.
fn put_items(
    s: &[u8],
    c: Cursor,
    flagged: bool,
    w: usize,
    n: usize,
    v: usize,
    buf: &mut [u8],
    o: &mut Out,
) -> Cursor
    requires { Inside s.now c × Item flagged w × Item flagged v × Passes (items 8 s.now flagged w n c) × Long (state buf.old o.old) (written flagged v (items 8 s.now flagged w n c)) }
    ensures place_after { got tt result ≡ ends (items 8 s.now flagged w n c) }
    ensures out_after { state buf.new o.new ≡ wrote (state buf.old o.old) (written flagged v (items 8 s.now flagged w n c)) }
{
    if stays(w, v, n, c.end - c.at, o.room) {
        o.add_from(buf, s, c.at, n);
        return Cursor { at: c.at + n, ..c };
    }
    put_over(s, c, flagged, w, n, v, buf, o)
}

// The bytes of a head and of a first character of v bytes.
pub fn start_size(flags: u8, v: usize) -> usize
    requires { v ≤ 2 }
    ensures { result ≡ start_size flags v }
{
    3 + (2 * strings::rich_bit(flags) + 4 * strings::phonetic_bit(flags)) + v
}

// A string's head and its characters, where it has some. The answer is where they end.
#[tactic(auto, using(crate::proofs::Laws::turn_ok, crate::proofs::Laws::turn_add, crate::proofs::Parts::some_laws))]
fn put_some(chars: &Chars, flags: u8, wide: bool, buf: &mut [u8], o: &mut Out) -> Cursor
    requires { (0 < chars.now.head.chars) × (from_bool wide ≡ wide_bit (units_in chars.now)) × Long (state buf.old o.old) (char_pieces flags chars.now.head (units_in chars.now)) }
    ensures place_after { got tt result ≡ end_of chars.now }
    ensures out_after { state buf.new o.new ≡ wrote (state buf.old o.old) (char_pieces flags chars.now.head (units_in chars.now)) }
{
    let s = chars.stream;
    let old = chars.head;
    let Room { width, place } = segments::room_for(s, 8, true, old.width, chars.place).unwrap();
    let anew = 1 + usize::from(wide);
    o.put_start(
        buf,
        NewHead { flags, wide, old },
        anew,
        num_at(s, width, place.at),
    );
    let next = Cursor {
        at: place.at + width,
        ..place
    };
    put_items(s, next, true, width, old.chars - 1, anew, buf, o)
}

// A string's head and its characters. The answer is where they end.
#[tactic(auto, using(crate::proofs::Parts::none_laws))]
fn put_chars(chars: &Chars, flags: u8, buf: &mut [u8], o: &mut Out) -> Cursor
    requires { Long (state buf.old o.old) (char_pieces flags chars.now.head (units_in chars.now)) }
    ensures place_after { got tt result ≡ end_of chars.now }
    ensures out_after { state buf.new o.new ≡ wrote (state buf.old o.old) (char_pieces flags chars.now.head (units_in chars.now)) }
{
    if 0 < chars.head.chars {
        return put_some(chars, flags, chars.is_wide(), buf, o);
    }
    let head = NewHead {
        flags,
        wide: false,
        old: chars.head,
    };
    o.put_start(buf, head, 0, 0);
    chars.place
}

// Its runs and phonetic bytes, which stand at c.
#[tactic(auto, using(crate::proofs::Parts::rest_laws))]
fn put_rest(s: &[u8], h: Head, c: Cursor, buf: &mut [u8], o: &mut Out) -> Cursor
    requires { Inside s.now c × Passes (rest_at s.now h c) × Long (state buf.old o.old) (rest_pieces (the_text (rest_at s.now h c))) }
    ensures place_after { got tt result ≡ ends (rest_at s.now h c) }
    ensures out_after { state buf.new o.new ≡ wrote (state buf.old o.old) (rest_pieces (the_text (rest_at s.now h c))) }
{
    let phonetic = put_items(s, c, false, 4, h.runs, 4, buf, o);
    put_items(s, phonetic, false, 1, h.phonetic, 1, buf, o)
}

// The string whose head stands at d, none of it refused. The answer is where it ends.
#[tactic(auto, using(crate::proofs::Whole::text_laws))]
fn put_text(s: &[u8], d: Cursor, buf: &mut [u8], o: &mut Out) -> Cursor
    requires { Inside s.now d × Passes (text_at s.now d) × Long (state buf.old o.old) (text_pieces (the_text (text_at s.now d)) []) }
    ensures place_after { got tt result ≡ ends (text_at s.now d) }
    ensures out_after { state buf.new o.new ≡ wrote (state buf.old o.old) (text_pieces (the_text (text_at s.now d)) []) }
{
    let HeadRead { head, chars: place } = strings::string_head(s, d).unwrap();
    let chars = Chars {
        stream: s,
        head,
        place,
    };
    let rest = put_chars(&chars, s[d.at + 2], buf, o);
    put_rest(s, head, rest, buf, o)
}

// The next string. The answer is where it ends.
#[tactic(auto, using(crate::proofs::Many::next_laws))]
fn put_next(next: &NextText, buf: &mut [u8], o: &mut Out) -> Cursor
    requires { Long (state buf.old o.old) (text_pieces (the_text (next_in next.now)) []) }
    ensures place_after { got tt result ≡ ends (next_in next.now) }
    ensures out_after { state buf.new o.new ≡ wrote (state buf.old o.old) (text_pieces (the_text (next_in next.now)) []) }
{
    let s = next.stream;
    let d = strings::next_place(s, next.place).unwrap();
    put_text(s, d, buf, o)
}

// The next string, where its flag is set; else past it.
#[tactic(auto, using(crate::proofs::Many::mark_laws))]
fn put_marked(next: &NextText, mark: u64, buf: &mut [u8], o: &mut Out) -> Cursor
    requires { Long (state buf.old o.old) (marked_pieces mark (the_text (next_in next.now))) }
    ensures place_after { got tt result ≡ ends (next_in next.now) }
    ensures out_after { state buf.new o.new ≡ wrote (state buf.old o.old) (marked_pieces mark (the_text (next_in next.now))) }
{
    if mark == 0 {
        return next.skip();
    }
    put_next(next, buf, o)
}

// Those of the strings whose flags are set. The answer is where the last of them ends. So a table is written chunk by chunk of its strings.
#[tactic(auto, using(crate::proofs::Many::turns_laws))]
pub fn put_texts(texts: &Texts, flags: &[u64], buf: &mut [u8], o: &mut Out) -> Cursor
    requires { (texts.now.count ≤ length flags.now * 64) × Long (state buf.old o.old) (pieces_of (kept (flags_from flags.now 0 texts.now.count) (texts_in texts.now))) }
    ensures place_after { got tt result ≡ ends (strings_in texts.now) }
    ensures out_after { state buf.new o.new ≡ wrote (state buf.old o.old) (pieces_of (kept (flags_from flags.now 0 texts.now.count) (texts_in texts.now))) }
{
    let stream = texts.stream;
    let mut place = texts.place;
    for i in 0..texts.count {
        place = put_marked(
            &NextText { stream, place },
            flags::flag_at(flags, i),
            buf,
            o,
        );
    }
    place
}

// The two counts of the SST at `at`.
#[tactic(auto, unfolding(crate::specs::Writing::with_counts, segments::specs::Parts::stored))]
fn put_counts(buf: &mut [u8], at: usize, total: u32, count: u32)
    requires { at + 12 ≤ length buf.old }
    ensures { buf.new ≡ with_counts buf.old at total count }
{
    byte_numbers::store(buf, at + 4, 4, u64::from(total));
    byte_numbers::store(buf, at + 8, 4, u64::from(count));
}

// The SST of a new table at `at`: its header, and the two counts.
#[tactic(auto, unfolding(crate::specs::Writing::table_start, crate::specs::Writing::state, segments::specs::Parts::stored))]
pub fn open_table(buf: &mut [u8], at: usize, total: u32, count: u32) -> Out
    requires { at + 12 ≤ length buf.old }
    ensures { state buf.new result ≡ table_start buf.old at total count }
{
    byte_numbers::store(buf, at, 2, 0x00fc);
    put_counts(buf, at, total, count);
    Out {
        seg: at,
        at: at + 12,
        room: 8216,
    }
}
