// The new string table, counted and written by chunks of its old strings.
#![tactic(auto)]

ghost use Rattle.std.specs.Prelude.{◌≡◌, ◌+◌, ◌*◌, ◌≤◌, ◌<◌, length};
ghost use Rattle.segments.specs.Segments.{got};
ghost use Rattle.segments.specs.Parts.{ends};
ghost use Rattle.flags.specs.Flags.{set_below};
ghost use Rattle.table_texts.specs.Written.{pieces_of, table_size};
ghost use Rattle.table_writer.specs.Reading.{strings_in};
ghost use Rattle.table_writer.specs.Writing.{state, wrote, Long, with_table};
ghost use Rattle.table_size.specs.Sizing.{sized, Counted};
ghost use Rattle.new_stream.specs.Entries.{entries_of};
ghost use Rattle.new_stream.specs.Compact.{texts_in, used_below};
ghost use Rattle.used_strings.specs.Marked.{Flagged};
ghost use Rattle.table_chunks.specs.Chosen.{used_of};

use segments::Cursor;
use table_size::Span;
use table_writer::{Out, Texts};

// The bytes of the new table, and how many strings it has.
#[derive(Clone, Copy)]
pub struct Extent {
    pub size: usize,
    pub count: usize,
}

// How many of the first n flags are set.
#[tactic(auto, using(crate::proofs::Laws::tally_laws))]
fn count_set(flags: &[u64], n: usize) -> usize
    requires { n ≤ length flags.now * 64 }
    ensures { result ≡ set_below flags.now n }
{
    let mut r = 0;
    for i in 0..n {
        r += flags::flag_at(flags, i) as usize;
    }
    r
}

// The used ones of a chunk of strings, the first of which has the index base: their size, and where the chunk ends.
#[tactic(auto, using(crate::proofs::Laws::chunk_laws))]
fn size_chunk(chunk: &Texts, base: usize, flags: &mut [u64], g: Span) -> (Span, Cursor)
    requires { chunk.now.count ≤ length flags.old * 64 }
    ensures span_value { result.0 ≡ sized g (pieces_of (used_of base chunk.now)) }
    ensures place_after { got tt result.1 ≡ ends (strings_in chunk.now) }
    ensures flags_after { Flagged (texts_in chunk.now.stream.now (entries_of chunk.now.stream.now)) base (length flags.old) flags.new }
{
    used_strings::mark(chunk.stream, base, flags);
    table_size::size_texts(chunk, flags, g)
}

// The same, written; where the chunk ends.
#[tactic(auto, using(crate::proofs::Laws::chunk_laws))]
fn put_chunk(chunk: &Texts, base: usize, flags: &mut [u64], buf: &mut [u8], o: &mut Out) -> Cursor
    requires { (chunk.now.count ≤ length flags.old * 64) × Long (state buf.old o.old) (pieces_of (used_of base chunk.now)) }
    ensures place_after { got tt result ≡ ends (strings_in chunk.now) }
    ensures out_after { state buf.new o.new ≡ wrote (state buf.old o.old) (pieces_of (used_of base chunk.now)) }
    ensures flags_len_unchanged { length flags.new ≡ length flags.old }
{
    used_strings::mark(chunk.stream, base, flags);
    table_writer::put_texts(chunk, flags, buf, o)
}

// The extent of the new table: of the used ones of all strings of the old one.
// That a word is lent stays a fact of three contracts: a type for the words would have to be made of them anew at each call, to say that there is one.
#[tactic(auto, using(crate::proofs::Laws::size_laws, crate::proofs::Laws::word_laws))]
pub fn size_all(texts: &Texts, flags: &mut [u64]) -> Extent
    requires { 0 < length flags.old }
    ensures counted { Counted (used_of 0 texts.now) result.size }
    ensures count_value { (result.count ≡ used_below (texts_in texts.now.stream.now (entries_of texts.now.stream.now)) texts.now.count) × (length flags.new ≡ length flags.old) }
{
    let stream = texts.stream;
    let unique = texts.count;
    let n = flags.len().saturating_mul(64);
    let mut place = texts.place;
    let mut count = 0;
    let mut span = Span {
        room: 8216,
        size: 12,
    };
    for base in (0..unique).step_by(n) {
        let k = n.min(unique - base);
        let chunk = Texts {
            stream,
            place,
            count: k,
        };
        let (after, end) = size_chunk(&chunk, base, flags, span);
        span = after;
        place = end;
        count += count_set(flags, k);
    }
    Extent {
        size: span.size,
        count,
    }
}

// The same strings, written; o is where the table's SST was opened, and then where its last segment ends.
#[tactic(auto, using(crate::proofs::Laws::put_laws, crate::proofs::Laws::word_laws))]
fn put_all(texts: &Texts, flags: &mut [u64], buf: &mut [u8], o: &mut Out)
    requires { (0 < length flags.old) × Long (state buf.old o.old) (pieces_of (used_of 0 texts.now)) }
    ensures out_after { state buf.new o.new ≡ wrote (state buf.old o.old) (pieces_of (used_of 0 texts.now)) }
    ensures flags_len_unchanged { length flags.new ≡ length flags.old }
{
    let stream = texts.stream;
    let unique = texts.count;
    let n = flags.len().saturating_mul(64);
    let mut place = texts.place;
    for base in (0..unique).step_by(n) {
        let chunk = Texts {
            stream,
            place,
            count: n.min(unique - base),
        };
        place = put_chunk(&chunk, base, flags, buf, o);
    }
}

// The table of the used ones of the strings of the old one, into the buffer from `at` on.
#[tactic(auto, using(table_writer::proofs::Finish::table_laws, table_writer::proofs::Finish::all_laws))]
pub fn put_new(texts: &Texts, total: u32, count: u32, flags: &mut [u64], buf: &mut [u8], at: usize)
    requires { (0 < length flags.old) × (count ≡ length (used_of 0 texts.now)) × (at + table_size (used_of 0 texts.now) ≤ length buf.old) }
    ensures buf_after { buf.new ≡ with_table buf.old at total (used_of 0 texts.now) }
    ensures flags_len_unchanged { length flags.new ≡ length flags.old }
{
    let mut out = table_writer::open_table(buf, at, total, count);
    put_all(texts, flags, buf, &mut out);
    out.close(buf);
}
