// A count of bytes, and of those that are left in the segment at hand.
ghost use Rattle.std.specs.Prelude.{◌≡◌, ◌≤◌};

use strings::Head;

// The bytes that are left in the segment at hand, and the bytes so far.
#[derive(Clone, Copy)]
pub struct Span {
    pub room: usize,
    pub size: usize,
}

// The bytes of a piece, and those that stand before it where it opens a CONTINUE.
#[derive(Clone, Copy)]
pub(crate) struct PieceSize {
    pub(crate) opening: usize,
    pub(crate) body: usize,
    pub(crate) ghost few: { opening ≤ 1 },
    pub(crate) ghost small: { body ≤ 16 },
}

impl PieceSize {
    // A formatting run.
    const RUN: PieceSize = PieceSize {
        opening: 0,
        body: 4,
    };

    // A byte of phonetic data.
    const BYTE: PieceSize = PieceSize {
        opening: 0,
        body: 1,
    };
}

impl Span {
    ghost use Rattle.table_size.specs.Sizing.{sized_by, sized_items};

    // After a piece.
    #[tactic(auto, unfolding(crate::specs::Sizing::sized_by, steps::specs::Choice::pick))]
    pub(crate) fn piece(self, p: PieceSize) -> Span
        ensures { result ≡ sized_by self p.opening p.body }
    {
        if 16777216 < self.size {
            return self;
        }
        if self.room < p.body {
            return Span {
                room: 8224 - (p.opening + p.body),
                size: self.size + (4 + p.opening + p.body),
            };
        }
        Span {
            room: self.room - p.body,
            size: self.size + p.body,
        }
    }

    // After m such pieces, one by one.
    #[tactic(auto, using(crate::proofs::Laws::items_turn, crate::proofs::Laws::items_end))]
    fn pieces_over(self, p: PieceSize, m: usize) -> Span
        ensures { result ≡ sized_items self p.opening p.body m }
    {
        let mut e = self;
        for _ in 0..m {
            e = e.piece(p);
        }
        e
    }

    // After m such pieces: most often the segment has room for all.
    #[tactic(auto, using(crate::proofs::Laws::whole_laws))]
    pub(crate) fn pieces(self, p: PieceSize, m: usize) -> Span
        ensures { result ≡ sized_items self p.opening p.body m }
    {
        if m <= 8224 && m * p.body <= self.room && self.size <= 16645632 {
            return Span {
                room: self.room - m * p.body,
                size: self.size + m * p.body,
            };
        }
        self.pieces_over(p, m)
    }

    // After a string's runs and phonetic bytes.
    pub(crate) fn rest(self, h: Head) -> Span
        ensures { result ≡ sized_items (sized_items self 0 4 h.runs) 0 1 h.phonetic }
    {
        self.pieces(PieceSize::RUN, h.runs)
            .pieces(PieceSize::BYTE, h.phonetic)
    }
}
