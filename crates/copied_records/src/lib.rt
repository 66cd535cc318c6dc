// What stays of a stream, copied to its new places in a lent buffer. Nothing is written where the new table is to stand.
#![tactic(auto)]

ghost use Rattle.std.specs.Prelude.{◌≡◌, ◌+◌, ◌≤◌, length};
ghost use Rattle.new_stream.specs.Entries.{size_for, entries_of};
ghost use Rattle.new_places.specs.Places.{sizes};
ghost use Rattle.copied_records.specs.Copied.{copied_entry, edited};

use new_places::Entries;
use new_stream::{Entry, Fate};

fn copy_entry(s: &[u8], x: Entry, out: &mut [u8], place: usize)
    requires { (x.at + x.size ≤ length s.now) × (place + size_for 0 x.size x.fate ≤ length out.old) }
    ensures { out.new ≡ copied_entry s.now x.at x.size x.fate out.old place }
{
    match x.fate {
        Fate::Stays | Fate::Text | Fate::Sheet => {
            byte_numbers::copy(s, x.at, x.size, out, place);
        }
        Fate::Goes | Fate::Table => {}
    }
}

// All that stays, each record at its new place.
#[tactic(auto, using(crate::proofs::Editing::edit_laws))]
pub fn copy_kept(s: &[u8], out: &mut [u8], table: usize)
    requires { (length s.now ≤ 16777216) × (table ≤ 16777216) × (sizes table (entries_of s.now) ≤ length out.old) }
    ensures { out.new ≡ edited (copied_entry s.now) table (entries_of s.now) out.old 0 }
{
    let mut place = 0;
    for x in Entries::of(s) {
        copy_entry(s, x, out, place);
        place += x.new_size(table);
    }
}
