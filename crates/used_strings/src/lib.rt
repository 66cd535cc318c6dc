// Which strings are used: flags for the indices from a first one on, by one walk of the stream's records.
#![tactic(auto)]

ghost use Rattle.std.specs.Prelude.{[], ◌∷◌, ◌≤◌, length};
ghost use Rattle.new_stream.specs.Entries.{entries_of};
ghost use Rattle.new_stream.specs.Compact.{texts_in};
ghost use Rattle.used_strings.specs.Marked.{Marked, Flagged};

use new_places::Entries;

#[tactic(auto, using(crate::proofs::Marks::one_laws))]
fn mark_one(index: usize, base: usize, flags: &mut [u64])
    ensures { Marked (index ∷ []) base flags.old flags.new }
{
    if let Some(flag) = index.checked_sub(base) {
        flags::set_flag(flags, flag);
    }
}

// Flag k: set where a listed cell has the index base + k.
#[tactic(auto, using(crate::proofs::Marks::mark_laws))]
pub fn mark(s: &[u8], base: usize, flags: &mut [u64])
    requires { length s.now ≤ 16777216 }
    ensures { Flagged (texts_in s.now (entries_of s.now)) base (length flags.old) flags.new }
{
    flags::clear(flags);
    for x in Entries::of(s) {
        if let Some(index) = new_places::text_index(s, x) {
            mark_one(index as usize, base, flags);
        }
    }
}
