// Strings of the old table, where they stand.
ghost use Rattle.std.specs.Prelude.{◌≡◌, ◌≤◌, ◌<◌, length};
ghost use Rattle.segments.specs.Segments.{got};
ghost use Rattle.segments.specs.Parts.{Inside, Passes, ends};
ghost use Rattle.strings.specs.Table.{strings};
ghost use Rattle.table_writer.specs.Passing.{Passes-prop};
ghost use Rattle.table_writer.specs.Writing.{next_text};

use segments::Cursor;

// The next string, where it is looked for. None of it is refused.
#[derive(Clone, Copy)]
pub struct NextText<'a> {
    pub stream: &'a [u8],
    pub place: Cursor,
    pub ghost inside: { Inside stream.now place },
    pub ghost passes: { Passes (next_text stream.now place) } by { Passes-prop (next_text stream.now place) },
}

#[tactic(auto, using(crate::proofs::Many::skip_ok))]
impl<'a> NextText<'a> {
    ghost use Rattle.table_writer.specs.Reading.{next_in};

    // Past it.
    pub fn skip(&self) -> Cursor
        ensures { got tt result ≡ ends (next_in self.now) }
    {
        strings::skip_next(self.stream, self.place).unwrap()
    }
}

// So many strings one after another, where the first of them is looked for. None of them is refused.
#[derive(Clone, Copy)]
pub struct Texts<'a> {
    pub stream: &'a [u8],
    pub place: Cursor,
    pub count: usize,
    pub ghost short: { length stream.now ≤ 16777216 },
    pub ghost few: { count < 4294967296 },
    pub ghost inside: { Inside stream.now place },
    pub ghost passes: { Passes (strings stream.now count place) } by { Passes-prop (strings stream.now count place) },
}
