// The plan for a new string table, and the table written by it.
ghost use Rattle.std.specs.Prelude.{◌≡◌, ◌+◌, ◌≤◌, length};
ghost use Rattle.table_texts.specs.Written.{table_size};
ghost use Rattle.table_chunks.specs.Chosen.{used_of};

use crate::Words;
use new_places::Entries;
use new_stream::{Entry, Fate};
use table_writer::Texts;

// The strings of the old table; the two counts of the new one, and its bytes.
#[derive(Clone, Copy)]
pub struct Plan<'a> {
    pub texts: Texts<'a>,
    pub total: u32,
    pub count: u32,
    pub size: usize,
    pub ghost counted: { count ≡ length (used_of 0 texts) },
    pub ghost sized: { size ≡ table_size (used_of 0 texts) },
}

impl<'a> Plan<'a> {
    ghost use Rattle.new_stream.specs.declared.Fate.TheVariants.{Table};
    ghost use Rattle.new_stream.specs.Entries.{entries_of};
    ghost use Rattle.copied_records.specs.Copied.{edited};
    ghost use Rattle.new_fields.specs.Edited.{table_change, Roomy};
    ghost use Rattle.compact.specs.Parts.{bytes_for, tabled};

    // The new table at `place` of the buffer, if it stands in the place of this record.
    #[tactic(auto, using(crate::proofs::Laws::entry_laws))]
    fn put_table(&self, x: Entry, flags: &mut Words, out: &mut [u8], place: usize)
        requires { x.fate ≡ Table → place + self.now.size ≤ length out.old }
        ensures { out.new ≡ table_change (bytes_for self.now) x.at x.size x.fate out.old place }
    {
        if let Fate::Table = x.fate {
            table_chunks::put_new(&self.texts, self.total, self.count, flags, out, place);
        }
    }

    // The new table in its place.
    // `Roomy` is a fact of stream, table and buffer together: a struct of the three would have to say in each contract that the buffer is still the caller's.
    fn put_tables(&self, flags: &mut Words, out: &mut [u8])
        requires { Roomy self.now.texts.stream.now self.now.size (length out.old) }
        ensures { out.new ≡ edited (table_change (bytes_for self.now)) self.now.size (entries_of self.now.texts.stream.now) out.old 0 }
    {
        let mut place = 0;
        for x in Entries::of(self.texts.stream) {
            self.put_table(x, flags, out, place);
            place += x.new_size(self.size);
        }
    }

    // What stays, and the new table.
    #[tactic(auto, using(crate::proofs::Laws::write_laws))]
    pub(crate) fn write(&self, flags: &mut Words, out: &mut [u8])
        requires { Roomy self.now.texts.stream.now self.now.size (length out.old) }
        ensures { out.new ≡ tabled self.now out.old }
    {
        copied_records::copy_kept(self.texts.stream, out, self.size);
        self.put_tables(flags, out);
    }
}
