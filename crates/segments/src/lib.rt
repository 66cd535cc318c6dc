// What stands in segments: the body of a record, and on through the CONTINUEs right after it.
// The functions read on from a cursor inside the stream; whoever has found a whole record has one. `number` is the refusal that a break gets.
#![tactic(auto)]

ghost use Rattle.std.specs.Prelude.{◌≡◌, ◌+◌, ◌-◌, ◌*◌, ◌/◌, ◌≤◌, true, length};
ghost use Rattle.byte_numbers.specs.Bytes.{num_at};
ghost use Rattle.segments.specs.Segments.{list_of, continues, next_segment, filled, need, width_of, room, items};
ghost use Rattle.segments.specs.Parts.{Inside, ends, moved, roomed, Passes, Fits, nums, stored};

use record::Header;
use refusal::Refusal;

// A place in a segment: the segment's header, the next byte, the segment's end.
// The bytes and the number of a break stay parameters beside it: a struct of all three would have to say of each answer that bytes and number are the same.
#[derive(Clone, Copy)]
pub struct Cursor {
    pub seg: usize,
    pub at: usize,
    pub end: usize,
}

// An item's width, and where it stands.
#[derive(Clone, Copy)]
pub struct Room {
    pub width: usize,
    pub place: Cursor,
}

// How many items are taken at once, and their bytes.
#[derive(Clone, Copy)]
pub struct Fit {
    pub count: usize,
    pub bytes: usize,
}

// The width of characters that a flags byte tells.
pub fn width_of(flags: u8) -> usize
    ensures { result ≡ width_of flags }
{
    1 + usize::from(flags & 1)
}

// Whether a whole header of a CONTINUE stands at `p`.
#[tactic(auto, unfolding(crate::specs::Segments::continues, steps::specs::Choice::pick))]
pub fn continue_at(s: &[u8], p: usize) -> bool
    requires { p ≤ length s.now }
    ensures { result ≡ continues s.now p }
{
    4 <= s.len() - p && byte_numbers::u16_at(s, p) == 0x003c
}

// The CONTINUE that is needed after this segment.
#[tactic(auto, using(crate::proofs::Laws::segment_laws), unfolding(crate::specs::Segments::next_segment))]
pub fn next_segment(s: &[u8], number: u8, c: Cursor) -> Result<Cursor, Refusal>
    requires { Inside s.now c }
    ensures { moved result ≡ next_segment number s.now c }
{
    let p = c.end;
    if !continue_at(s, p) {
        return Err(Refusal {
            number,
            offset: c.seg,
        });
    }
    match record::header_at(s, p) {
        Header::Record { kind: _, size, end } => {
            if size == 0 {
                return Err(Refusal { number, offset: p });
            }
            Ok(Cursor {
                seg: p,
                at: p + 4,
                end,
            })
        }
        Header::Cut | Header::End => Err(Refusal {
            number: 2,
            offset: p,
        }),
    }
}

// The cursor itself, where what was read up to it fills its segments.
#[tactic(auto, using(crate::proofs::Laws::segment_laws), unfolding(crate::specs::Segments::filled))]
pub fn ends_with_segments(s: &[u8], number: u8, c: Cursor) -> Result<Cursor, Refusal>
    requires { Inside s.now c }
    ensures { moved result ≡ filled number s.now c }
{
    if c.at != c.end {
        return Err(Refusal {
            number,
            offset: c.seg,
        });
    }
    if continue_at(s, c.end) {
        let d = next_segment(s, number, c)?;
        return Err(Refusal {
            number,
            offset: d.seg,
        });
    }
    Ok(c)
}

// Room for `width` bytes in this segment.
#[tactic(auto, unfolding(crate::specs::Segments::need, steps::specs::Choice::pick))]
fn need_here(number: u8, width: usize, place: Cursor) -> Result<Room, Refusal>
    requires { place.at ≤ place.end }
    ensures { roomed result ≡ need number width place }
{
    if place.end - place.at < width {
        return Err(Refusal {
            number,
            offset: place.seg,
        });
    }
    Ok(Room { width, place })
}

// Room for an item of w bytes, in the next segment where this one has ended.
#[tactic(auto, using(crate::proofs::Laws::segment_laws, crate::proofs::Laws::next_laws), unfolding(crate::specs::Segments::room))]
pub fn room_for(s: &[u8], number: u8, flagged: bool, w: usize, c: Cursor) -> Result<Room, Refusal>
    requires { Inside s.now c }
    ensures { roomed result ≡ room number s.now flagged w c }
{
    if c.at != c.end {
        return need_here(number, w, c);
    }
    let d = next_segment(s, number, c)?;
    if flagged {
        let at = d.at;
        return need_here(number, width_of(s[at]), Cursor { at: at + 1, ..d });
    }
    need_here(number, w, d)
}

// How many items of w bytes `here` bytes hold. The widths that occur are divided by without a division.
fn most_of(here: usize, w: usize) -> usize
    requires { 1 ≤ w }
    ensures { result ≡ here / w }
{
    match w {
        1 => here,
        2 => here / 2,
        4 => here / 4,
        _ => here / w,
    }
}

// As many of n items of w bytes as `here` bytes hold.
pub fn fit_items(here: usize, w: usize, n: usize) -> Fit
    requires { (1 ≤ w) × (w ≤ here) × (1 ≤ n) }
    ensures { Fits here w n result.count result.bytes }
{
    let count = n.min(most_of(here, w));
    Fit {
        count,
        bytes: count * w,
    }
}

// Past n items of w bytes each, by what each segment holds of them. With its two callers it stays a function by itself, and `skip_items` a short one.
#[tactic(auto, using(crate::proofs::Laws::skip_laws))]
pub fn skip_over(
    s: &[u8],
    number: u8,
    flagged: bool,
    w: usize,
    n: usize,
    c: Cursor,
) -> Result<Cursor, Refusal>
    requires { Inside s.now c × (1 ≤ w) }
    ensures { moved result ≡ ends (items number s.now flagged w n c) }
{
    let mut size = w;
    let mut left = n;
    let mut d = c;
    // Each turn takes as many as its segment holds, so no `for` counts them.
    while 0 < left {
        let Room { width, place } = room_for(s, number, flagged, size, d)?;
        let k = fit_items(place.end - place.at, width, left);
        d = Cursor {
            at: place.at + k.bytes,
            ..place
        };
        size = width;
        left -= k.count;
    }
    Ok(d)
}

// Past n items of w bytes each: most often they all stand in this segment.
#[tactic(auto, using(crate::proofs::Laws::skip_laws))]
pub fn skip_items(
    s: &[u8],
    number: u8,
    flagged: bool,
    w: usize,
    n: usize,
    c: Cursor,
) -> Result<Cursor, Refusal>
    requires { Inside s.now c × (1 ≤ w) }
    ensures { moved result ≡ ends (items number s.now flagged w n c) }
{
    if n <= most_of(c.end - c.at, w) {
        return Ok(Cursor {
            at: c.at + n * w,
            ..c
        });
    }
    skip_over(s, number, flagged, w, n, c)
}

// The character of w bytes at p.
#[tactic(auto, using(crate::proofs::Laws::unit_laws))]
pub fn unit_at(s: &[u8], w: usize, p: usize) -> u16
    requires { (1 ≤ w) × (w ≤ 2) × (p + w ≤ length s.now) }
    ensures { result ≡ num_at s.now w p }
{
    if w == 1 {
        return u16::from(s[p]);
    }
    byte_numbers::u16_at(s, p)
}

// k characters of w bytes at p, into the buffer from j on.
#[tactic(auto, using(crate::proofs::Laws::stored_byte, crate::proofs::Laws::stored_more), unfolding(crate::specs::Parts::stored, crate::specs::Parts::nums))]
fn copy_units(s: &[u8], w: usize, k: usize, p: usize, buf: &mut [u16], j: usize)
    requires { (1 ≤ w) × (w ≤ 2) × (p + k * w ≤ length s.now) × (j + k ≤ length buf.old) }
    ensures { buf.new ≡ stored buf.old j (nums s.now w k p) }
{
    if w == 1 {
        let mut to = j;
        for byte in &s[p..p + k] {
            buf[to] = u16::from(*byte);
            to += 1;
        }
    } else {
        for i in 0..k {
            buf[j + i] = byte_numbers::u16_at(s, p + i * 2);
        }
    }
}

// As many of n characters of w bytes as this segment holds, into the buffer from j on.
fn copy_here(s: &[u8], w: usize, n: usize, c: Cursor, buf: &mut [u16], j: usize) -> Fit
    requires { Inside s.now c × (1 ≤ w) × (w ≤ 2) × (w ≤ c.end - c.at) × (1 ≤ n) × (j + n ≤ length buf.old) }
    ensures fits { Fits (c.end - c.at) w n result.count result.bytes }
    ensures buf_after { buf.new ≡ stored buf.old j (nums s.now w result.count c.at) }
{
    let k = fit_items(c.end - c.at, w, n);
    copy_units(s, w, k.count, c.at, buf, j);
    k
}

// The n characters at c, none of them refused, into the buffer. Each turn takes as many as its segment holds, so no `for` counts them.
#[tactic(auto, using(crate::proofs::Laws::chars_laws))]
pub fn copy_chars(s: &[u8], number: u8, w: usize, n: usize, c: Cursor, buf: &mut [u16])
    requires { Inside s.now c × (1 ≤ w) × (w ≤ 2) × (n ≤ length buf.old) × Passes (items number s.now true w n c) }
    ensures { buf.new ≡ stored buf.old 0 (list_of (items number s.now true w n c)) }
{
    let mut v = w;
    let mut d = c;
    let mut j: usize = 0;
    while j < n {
        let Ok(Room { width, place }) = room_for(s, number, true, v, d) else {
            return;
        };
        let k = copy_here(s, width, n - j, place, buf, j);
        d = Cursor {
            at: place.at + k.bytes,
            ..place
        };
        v = width;
        j += k.count;
    }
}
