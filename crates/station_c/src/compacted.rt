// A stream without its unused strings as a C function. The archive has the C functions of this crate alone.
ghost use Rattle.std.specs.Prelude.{◌≡◌};
ghost use Rattle.compact.specs.Compacted.{answer_of, buffer_after};
ghost use Rattle.pair_compact.specs.PairCompact.{pair_compact_of, pair_buffer_after};
ghost use Rattle.station_c.specs.Answers.{compact_seen, pair_compact_seen};

use crate::{NewSession, NewStream};
use pair::PairRefusal;
use refusal::Refusal;

impl From<Result<usize, Refusal>> for NewStream {
    ghost from_gives = { λ a y. y ≡ compact_seen a };

    fn from(answer: Result<usize, Refusal>) -> NewStream {
        match answer {
            Ok(written) => NewStream {
                written,
                ..NewStream::default()
            },
            Err(e) => NewStream {
                number: e.number,
                offset: e.offset,
                ..NewStream::default()
            },
        }
    }
}

// The new stream at the front of the buffer.
#[unsafe(no_mangle)]
pub extern "C" fn station_compact(s: &[u8], out: &mut [u8]) -> NewStream
    ensures value { result ≡ compact_seen (answer_of s.now 0 out.old) }
    ensures out_after { out.new ≡ buffer_after s.now 0 out.old }
{
    NewStream::from(compact::compact(s, out))
}

impl From<Result<usize, PairRefusal>> for NewSession {
    ghost from_gives = { λ a y. y ≡ pair_compact_seen a };

    fn from(answer: Result<usize, PairRefusal>) -> NewSession {
        match answer {
            Ok(written) => NewSession {
                whose: 2,
                written,
                ..NewSession::default()
            },
            Err(e) => NewSession {
                whose: pair_answers::of_number(e.of),
                number: e.number,
                offset: e.offset,
                ..NewSession::default()
            },
        }
    }
}

// The new session at the front of the buffer.
#[unsafe(no_mangle)]
pub extern "C" fn station_pair_compact(
    template: &[u8],
    session: &[u8],
    out: &mut [u8],
) -> NewSession
    ensures value { result ≡ pair_compact_seen (pair_compact_of template.now session.now out.old) }
    ensures out_after { out.new ≡ pair_buffer_after template.now session.now out.old }
{
    NewSession::from(pair_compact::pair_compact(template, session, out))
}
