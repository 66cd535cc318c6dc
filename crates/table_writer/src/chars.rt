// A string's characters where they stand.
ghost use Rattle.std.specs.Prelude.{◌≡◌, ◌-◌, ◌≤◌, ◌<◌, ℕ, true, get_or};
ghost use Rattle.std.specs.Int.{from_bool};
ghost use Rattle.segments.specs.Segments.{list_of, items};
ghost use Rattle.segments.specs.Parts.{Inside, Passes};
ghost use Rattle.table_texts.specs.Written.{wide_bit};
ghost use Rattle.table_writer.specs.Passing.{Passes-prop};

use crate::num_at;
use segments::{Cursor, Room};
use strings::Head;

// None of them is refused; the string's head tells of them.
#[derive(Clone, Copy)]
pub struct Chars<'a> {
    pub stream: &'a [u8],
    pub head: Head,
    pub place: Cursor,
    pub ghost bytes: { (i : ℕ) → get_or stream.now i 0 < 256 },
    pub ghost inside: { Inside stream.now place },
    pub ghost some: { 1 ≤ head.width },
    pub ghost small: { head.width ≤ 2 },
    pub ghost passes: { Passes (items 8 stream.now true head.width head.chars place) } by { Passes-prop (items 8 stream.now true head.width head.chars place) },
}

impl<'a> Chars<'a> {
    ghost use Rattle.table_writer.specs.Reading.{units_in};

    // Whether one of them is over 255: one by one.
    #[tactic(auto, using(crate::proofs::Laws::wide_laws))]
    fn wide_over(&self) -> bool
        ensures { from_bool result ≡ wide_bit (units_in self.now) }
    {
        let stream = self.stream;
        let mut size = self.head.width;
        let mut place = self.place;
        for _ in 0..self.head.chars {
            let Room { width, place: at } = segments::room_for(
                stream, 8, true, size, place,
            ).unwrap();
            if 255 < num_at(stream, width, at.at) {
                return true;
            }
            place = Cursor {
                at: at.at + width,
                ..at
            };
            size = width;
        }
        false
    }

    // The same: most often they are bytes of one segment.
    pub fn is_wide(&self) -> bool
        ensures { from_bool result ≡ wide_bit (units_in self.now) }
    {
        let place = self.place;
        if self.head.width == 1 && self.head.chars <= place.end - place.at {
            return false;
        }
        self.wide_over()
    }
}
