// Where the writer has come to, and the bytes that it adds there.
ghost use Rattle.std.specs.Prelude.{◌≡◌, [], ◌∷◌, ◌+◌, ◌≤◌, length};

use crate::start_size;
use strings::Head;

// The segment's header, the next byte, the bytes that are left in the segment.
// The buffer stays a parameter beside it: a struct of both would have to say in each contract that the buffer is still the caller's.
#[derive(Clone, Copy)]
pub struct Out {
    pub seg: usize,
    pub at: usize,
    pub room: usize,
    pub ghost tidy: { seg + 4 ≤ at },
}

// How an item is written: by how many bytes, and whether a flags byte stands before it where it begins a CONTINUE, as before characters.
#[derive(Clone, Copy)]
pub(crate) struct Form {
    pub(crate) flagged: bool,
    pub(crate) width: usize,
    pub(crate) ghost some: { 1 ≤ width },
    pub(crate) ghost few: { width ≤ 4 },
}

// A head that is written anew: the old flags, whether a character is over 255, and the old head.
#[derive(Clone, Copy)]
pub(crate) struct NewHead {
    pub(crate) flags: u8,
    pub(crate) wide: bool,
    pub(crate) old: Head,
}

impl NewHead {
    ghost use Rattle.std.specs.Int.{from_bool};
    ghost use Rattle.table_writer.specs.Writing.{new_flags};

    // The old bits 2 and 3, and whether it is wide now.
    fn new_flags(self) -> u64
        ensures { result ≡ new_flags self.flags (from_bool self.wide) }
    {
        u64::from(self.wide)
            + (4 * strings::phonetic_bit(self.flags) + 8 * strings::rich_bit(self.flags)) as u64
    }
}

impl Out {
    ghost use Rattle.std.specs.Int.{from_bool};
    ghost use Rattle.byte_numbers.specs.Bytes.{bytes_of};
    ghost use Rattle.segments.specs.Parts.{nums};
    ghost use Rattle.table_texts.specs.Written.{opening_of, piece_of};
    ghost use Rattle.table_writer.specs.Writing.{state, closed, added, opened, step, Long, counts_size, counts_body, lead_body, head_body, start_body, plain_piece, start_size};

    // The size of the segment at hand, into its header.
    #[tactic(auto, unfolding(crate::specs::Writing::closed, crate::specs::Writing::state, segments::specs::Parts::stored))]
    pub fn close(self, buf: &mut [u8])
        requires { self.at ≤ length buf.old }
        ensures { buf.new ≡ closed (state buf.old self) }
    {
        byte_numbers::store(buf, self.seg + 2, 2, (self.at - (self.seg + 4)) as u64);
    }

    // A CONTINUE after it.
    #[tactic(auto, unfolding(crate::specs::Writing::opened, crate::specs::Writing::state, segments::specs::Parts::stored))]
    fn open(&mut self, buf: &mut [u8])
        requires { self.old.at + 4 ≤ length buf.old }
        ensures { state buf.new self.new ≡ opened (state buf.old self.old) }
    {
        self.close(buf);
        byte_numbers::store(buf, self.at, 2, 0x003c);
        *self = Out {
            seg: self.at,
            at: self.at + 4,
            room: 8224,
        };
    }

    // The w bytes of n, in the segment at hand.
    #[tactic(auto, using(byte_numbers::proofs::Laws::length_bytes), unfolding(crate::specs::Writing::added, crate::specs::Writing::state, segments::specs::Parts::stored))]
    fn add(&mut self, buf: &mut [u8], w: usize, n: u64)
        requires { (w ≤ self.old.room) × (self.old.at + w ≤ length buf.old) }
        ensures { state buf.new self.new ≡ added (state buf.old self.old) (bytes_of w n) }
    {
        byte_numbers::store(buf, self.at, w, n);
        self.at += w;
        self.room -= w;
    }

    // n bytes that stand at p of the stream, in the segment at hand.
    #[tactic(auto, using(crate::proofs::Stay::bytes_added))]
    pub(crate) fn add_from(&mut self, buf: &mut [u8], s: &[u8], p: usize, n: usize)
        requires { (p + n ≤ length s.now) × (n ≤ self.old.room) × (self.old.at + n ≤ length buf.old) }
        ensures { state buf.new self.new ≡ added (state buf.old self.old) (nums s.now 1 n p) }
    {
        byte_numbers::copy(s, p, n, buf, self.at);
        self.at += n;
        self.room -= n;
    }

    // A CONTINUE after it for an item, which characters begin with a flags byte.
    #[tactic(auto, using(crate::proofs::Laws::for_laws))]
    fn open_for(&mut self, buf: &mut [u8], form: Form)
        requires { self.old.at + (4 + length (opening_of form.flagged form.width)) ≤ length buf.old }
        ensures { state buf.new self.new ≡ added (opened (state buf.old self.old)) (opening_of form.flagged form.width) }
    {
        self.open(buf);
        if form.flagged {
            self.add(buf, 1, (form.width - 1) as u64);
        }
    }

    // An item, in a CONTINUE where the segment has no room for it.
    #[tactic(auto, using(crate::proofs::Laws::item_laws))]
    pub(crate) fn put_item(&mut self, buf: &mut [u8], form: Form, n: u64)
        requires { Long (state buf.old self.old) (piece_of form.flagged form.width n ∷ []) }
        ensures { state buf.new self.new ≡ step (state buf.old self.old) (piece_of form.flagged form.width n) }
    {
        if self.room < form.width {
            self.open_for(buf, form);
            self.add(buf, form.width, n);
        } else {
            self.add(buf, form.width, n);
        }
    }

    // A head's run count and phonetic size, those that it has.
    #[tactic(auto, using(crate::proofs::Starts::counts_laws))]
    fn add_counts(&mut self, buf: &mut [u8], h: NewHead)
        requires { (counts_size h.flags ≤ self.old.room) × (self.old.at + counts_size h.flags ≤ length buf.old) }
        ensures { state buf.new self.new ≡ added (state buf.old self.old) (counts_body h.flags h.old) }
    {
        self.add(buf, 2 * strings::rich_bit(h.flags), h.old.runs as u64);
        self.add(
            buf,
            4 * strings::phonetic_bit(h.flags),
            h.old.phonetic as u64,
        );
    }

    // A head's length and flags.
    #[tactic(auto, using(crate::proofs::Starts::lead_laws))]
    fn add_lead(&mut self, buf: &mut [u8], h: NewHead)
        requires { (3 ≤ self.old.room) × (self.old.at + 3 ≤ length buf.old) }
        ensures { state buf.new self.new ≡ added (state buf.old self.old) (lead_body h.flags (from_bool h.wide) h.old) }
    {
        self.add(buf, 2, h.old.chars as u64);
        self.add(buf, 1, h.new_flags());
    }

    // A head.
    #[tactic(auto, using(crate::proofs::Starts::head_laws))]
    fn add_head(&mut self, buf: &mut [u8], h: NewHead)
        requires { (3 + counts_size h.flags ≤ self.old.room) × (self.old.at + (3 + counts_size h.flags) ≤ length buf.old) }
        ensures { state buf.new self.new ≡ added (state buf.old self.old) (head_body h.flags (from_bool h.wide) h.old) }
    {
        self.add_lead(buf, h);
        self.add_counts(buf, h);
    }

    // A head, and v bytes of n for its first character, in the segment at hand.
    #[tactic(auto, using(crate::proofs::Starts::first_laws))]
    fn add_start(&mut self, buf: &mut [u8], h: NewHead, v: usize, n: u64)
        requires { (start_size h.flags v ≤ self.old.room) × (self.old.at + start_size h.flags v ≤ length buf.old) }
        ensures { state buf.new self.new ≡ added (state buf.old self.old) (start_body h.flags (from_bool h.wide) h.old v n) }
    {
        self.add_head(buf, h);
        self.add(buf, v, n);
    }

    // They stand together: in a CONTINUE where the segment has no room for them.
    #[tactic(auto, using(crate::proofs::Starts::start_laws))]
    pub(crate) fn put_start(&mut self, buf: &mut [u8], h: NewHead, v: usize, n: u64)
        requires { (v ≤ 2) × Long (state buf.old self.old) (plain_piece (start_body h.flags (from_bool h.wide) h.old v n) ∷ []) }
        ensures { state buf.new self.new ≡ step (state buf.old self.old) (plain_piece (start_body h.flags (from_bool h.wide) h.old v n)) }
    {
        let size = start_size(h.flags, v);
        if self.room < size {
            self.open(buf);
            self.add_start(buf, h, v, n);
        } else {
            self.add_start(buf, h, v, n);
        }
    }
}
