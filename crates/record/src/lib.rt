// The record at a place of the stream: type u16, size u16, body.
#![tactic(auto, unfolding(crate::specs::Record::header_at, steps::specs::Choice::pick))]

ghost use Rattle.std.specs.Prelude.{◌≡◌};
ghost use Rattle.record.specs.Record.{header_at};

// What stands at a place: a record whose body lies from `at + 4` up to `end`; a header or body that passes the stream's end, or a body over
// 8,224 bytes (refusal 2); or the end of the stream itself.
#[derive(Clone, Copy)]
pub enum Header {
    Record { kind: u16, size: usize, end: usize },
    Cut,
    End,
}

pub fn header_at(s: &[u8], at: usize) -> Header
    ensures { result ≡ header_at s.now at }
{
    let n = s.len();
    if n <= at {
        return Header::End;
    }
    if n - at < 4 {
        return Header::Cut;
    }
    let size = usize::from(byte_numbers::u16_at(s, at + 2));
    if 8224 < size || n - (at + 4) < size {
        return Header::Cut;
    }
    Header::Record {
        kind: byte_numbers::u16_at(s, at),
        size,
        end: at + 4 + size,
    }
}
