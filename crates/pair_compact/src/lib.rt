// A session without its unused strings, over its template.
#![tactic(auto)]

ghost use Rattle.std.specs.Prelude.{◌≡◌};
ghost use Rattle.pair_compact.specs.PairCompact.{pair_compact_of, pair_buffer_after};

use pair::PairRefusal;

// The new session at the front of the buffer; the answer is its length.
#[tactic(auto, using(crate::proofs::Laws::pair_laws))]
pub fn pair_compact(template: &[u8], session: &[u8], out: &mut [u8]) -> Result<usize, PairRefusal>
    ensures value { result ≡ pair_compact_of template.now session.now out.old }
    ensures out_after { out.new ≡ pair_buffer_after template.now session.now out.old }
{
    let own = pair::pair_check(template, session)?.session;
    let length = compact::compact_checked(session, own, out)?;
    Ok(length)
}
