// The size of a string table that is written anew, counted before anything is written.
// The steps are those of the writer, and stay beside them: a trait for both would have to say what the writer asks of its buffer and leaves in it, of which
// counting knows nothing, and counting reads no more of a string than its head and whether it is wide.
#![tactic(auto)]

ghost use Rattle.std.specs.Prelude.{◌≡◌, [], ◌+◌, ◌-◌, ◌*◌, ◌≤◌, ◌<◌, length};
ghost use Rattle.segments.specs.Segments.{got};
ghost use Rattle.segments.specs.Parts.{Inside, Passes, ends};
ghost use Rattle.flags.specs.Flags.{flags_from};
ghost use Rattle.table_texts.specs.Texts.{the_text, text_at, kept};
ghost use Rattle.table_texts.specs.Written.{text_pieces, pieces_of};
ghost use Rattle.table_writer.specs.Writing.{char_pieces, marked_pieces};
ghost use Rattle.table_writer.specs.Reading.{units_in, next_in, strings_in, texts_in};
ghost use Rattle.table_size.specs.Sizing.{sized};

mod span;

use segments::Cursor;
use span::PieceSize;
pub use span::Span;
use strings::HeadRead;
use table_writer::{Chars, NextText, Texts};

// A string's head and characters.
#[tactic(auto, using(crate::proofs::Laws::chars_none))]
fn size_chars(chars: &Chars, flags: u8, g: Span) -> Span
    ensures { result ≡ sized g (char_pieces flags chars.now.head (units_in chars.now)) }
{
    let count = chars.head.chars;
    if 0 < count {
        let width = 1 + usize::from(chars.is_wide());
        let first = g.piece(PieceSize {
            opening: 0,
            body: table_writer::start_size(flags, width),
        });
        return first.pieces(
            PieceSize {
                opening: 1,
                body: width,
            },
            count - 1,
        );
    }
    g.piece(PieceSize {
        opening: 0,
        body: table_writer::start_size(flags, 0),
    })
}

// The string whose head stands at d, none of it refused.
#[tactic(auto, using(crate::proofs::Counting::text_laws))]
fn size_text(s: &[u8], d: Cursor, g: Span) -> Span
    requires { Inside s.now d × Passes (text_at s.now d) }
    ensures { result ≡ sized g (text_pieces (the_text (text_at s.now d)) []) }
{
    let HeadRead { head, chars: place } = strings::string_head(s, d).unwrap();
    let chars = Chars {
        stream: s,
        head,
        place,
    };
    size_chars(&chars, s[d.at + 2], g).rest(head)
}

// The next string.
#[tactic(auto, using(table_writer::proofs::Many::next_laws))]
fn size_next(next: &NextText, g: Span) -> Span
    ensures { result ≡ sized g (text_pieces (the_text (next_in next.now)) []) }
{
    let s = next.stream;
    let d = strings::next_place(s, next.place).unwrap();
    size_text(s, d, g)
}

// The next string, where its flag is set.
#[tactic(auto, unfolding(table_writer::specs::Writing::marked_pieces, crate::specs::Sizing::sized, steps::specs::Choice::pick))]
fn size_marked(next: &NextText, mark: u64, g: Span) -> Span
    ensures { result ≡ sized g (marked_pieces mark (the_text (next_in next.now))) }
{
    if mark == 0 {
        return g;
    }
    size_next(next, g)
}

// Those of the strings whose flags are set; and where the last of them ends.
#[tactic(auto, using(crate::proofs::Counting::turns_laws))]
pub fn size_texts(texts: &Texts, flags: &[u64], g: Span) -> (Span, Cursor)
    requires { texts.now.count ≤ length flags.now * 64 }
    ensures span_value { result.0 ≡ sized g (pieces_of (kept (flags_from flags.now 0 texts.now.count) (texts_in texts.now))) }
    ensures place_after { got tt result.1 ≡ ends (strings_in texts.now) }
{
    let stream = texts.stream;
    let mut place = texts.place;
    let mut span = g;
    for i in 0..texts.count {
        let next = NextText { stream, place };
        span = size_marked(&next, flags::flag_at(flags, i), span);
        place = next.skip();
    }
    (span, place)
}
