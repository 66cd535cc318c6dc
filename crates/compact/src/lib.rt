// A stream without its unused strings, into a lent buffer.
#![tactic(auto)]

ghost use Rattle.std.specs.Prelude.{◌≡◌, ◌+◌, ◌≤◌, length};
ghost use Rattle.byte_numbers.specs.Bytes.{u16_at};
ghost use Rattle.new_table.specs.NewTable.{compacted_of};
ghost use Rattle.new_fields.specs.Edited.{Roomy};
ghost use Rattle.compact.specs.Compacted.{answer_to, buffer_to, answer_of, buffer_after};
ghost use Rattle.compact.specs.Parts.{tabled, Rewritten, Passed, Tabled, Untabled, Prepared, Measured};

mod plan;

use globals::Globals;
pub use plan::Plan;
use refusal::Refusal;
use segments::Cursor;
use table_writer::Texts;

// Flags of the strings of a chunk, how many are set before each word of flags, or the starts of substreams with their new places.
type Words = [u64; 3328];

// New indices and positions.
#[tactic(auto, using(crate::proofs::Laws::write_laws))]
fn write_rest(
    s: &[u8],
    size: usize,
    top: usize,
    flags: &mut Words,
    ranks: &mut Words,
    out: &mut [u8],
)
    requires { Roomy s.now size (length out.old) × (top ≤ 4294967296) }
    ensures { Rewritten s.now size top out.old out.new }
{
    new_fields::reindex(s, size, top, flags, ranks, out);
    new_fields::put_positions(s, size, flags, out);
}

// All of the new stream.
#[tactic(auto, using(crate::proofs::Laws::write_laws))]
fn write_new(plan: &Plan, top: usize, flags: &mut Words, ranks: &mut Words, out: &mut [u8])
    requires { (top ≤ 4294967296) × Roomy plan.now.texts.stream.now plan.now.size (length out.old) }
    ensures { Rewritten plan.now.texts.stream.now plan.now.size top (tabled plan.now out.old) out.new }
{
    plan.write(flags, out);
    write_rest(plan.texts.stream, plan.size, top, flags, ranks, out);
}

// The new stream's length, where the new table has so many bytes; 1 if it is too long, 12 if the buffer has fewer bytes.
#[tactic(auto, using(crate::proofs::Answers::measured_large, crate::proofs::Answers::measured_short, crate::proofs::Answers::measured_written))]
fn new_length(s: &[u8], table: usize, room: usize) -> Result<usize, Refusal>
    requires { (length s.now ≤ 16777216) × (table ≤ 16777216) }
    ensures { Measured s.now table room result }
{
    let n = new_places::length_with(s, table);
    if 16777216 < n {
        return Err(Refusal {
            number: 1,
            offset: 0,
        });
    }
    if room < n {
        return Err(Refusal {
            number: 12,
            offset: 0,
        });
    }
    Ok(n)
}

// The new stream by its plan, or 1 or 12.
#[tactic(auto, using(crate::proofs::Answers::finish_laws))]
fn finish(
    plan: &Plan,
    g: Globals,
    top: usize,
    flags: &mut Words,
    ranks: &mut Words,
    out: &mut [u8],
) -> Result<usize, Refusal>
    requires { Prepared plan.now.texts.stream.now g plan.now top }
    ensures value { result ≡ answer_to (compacted_of plan.now.texts.stream.now g) out.old }
    ensures out_after { out.new ≡ buffer_to (compacted_of plan.now.texts.stream.now g) out.old }
{
    let n = new_length(plan.texts.stream, plan.size, out.len())?;
    write_new(plan, top, flags, ranks, out);
    Ok(n)
}

// Where the body of the SST ends whose header is at p.
fn table_end(s: &[u8], p: usize) -> usize
    requires { p + 4 + u16_at s.now (p + 2) ≤ length s.now }
    ensures { result ≡ p + 4 + u16_at s.now (p + 2) }
{
    p + 4 + usize::from(byte_numbers::u16_at(s, p + 2))
}

// A stream with a string table that passes with these globals.
#[tactic(auto, using(crate::proofs::Prepare::with_laws))]
fn with_flags(
    s: &[u8],
    g: Globals,
    flags: &mut Words,
    ranks: &mut Words,
    out: &mut [u8],
) -> Result<usize, Refusal>
    requires { Tabled s.now g }
    ensures value { result ≡ answer_to (compacted_of s.now g) out.old }
    ensures out_after { out.new ≡ buffer_to (compacted_of s.now g) out.old }
{
    let head = g.table;
    let end = table_end(s, head);
    let unique = g.unique as usize;
    let census = new_fields::count_texts(s);
    let texts = Texts {
        stream: s,
        place: Cursor {
            seg: head,
            at: head + 12,
            end,
        },
        count: unique,
    };
    let new = table_chunks::size_all(&texts, flags);
    if 16777216 < new.size {
        return Err(Refusal {
            number: 1,
            offset: 0,
        });
    }
    let plan = Plan {
        texts,
        total: census.total as u32,
        count: new.count as u32,
        size: new.size,
    };
    finish(&plan, g, census.top, flags, ranks, out)
}

// A stream without a string table: its indices stay.
#[tactic(auto, using(crate::proofs::None::without_laws))]
fn with_slots(s: &[u8], g: Globals, slots: &mut Words, out: &mut [u8]) -> Result<usize, Refusal>
    requires { Untabled s.now g }
    ensures value { result ≡ answer_to (compacted_of s.now g) out.old }
    ensures out_after { out.new ≡ buffer_to (compacted_of s.now g) out.old }
{
    let n = new_length(s, 0, out.len())?;
    copied_records::copy_kept(s, out, 0);
    new_fields::put_positions(s, 0, slots, out);
    Ok(n)
}

// A stream that passes with these globals, with words lent for both cases: the stack has room for them once.
fn with_words(
    s: &[u8],
    g: Globals,
    flags: &mut Words,
    ranks: &mut Words,
    out: &mut [u8],
) -> Result<usize, Refusal>
    requires { Passed s.now g }
    ensures value { result ≡ answer_to (compacted_of s.now g) out.old }
    ensures out_after { out.new ≡ buffer_to (compacted_of s.now g) out.old }
{
    if g.table == 0 {
        return with_slots(s, g, flags, out);
    }
    with_flags(s, g, flags, ranks, out)
}

// A stream that passes with these globals, without its unused strings: the flags and ranks of 212,992 strings at a time.
// Only this crate and `pair_compact` call it, each after the check.
pub fn compact_checked(s: &[u8], g: Globals, out: &mut [u8]) -> Result<usize, Refusal>
    requires { Passed s.now g }
    ensures value { result ≡ answer_to (compacted_of s.now g) out.old }
    ensures out_after { out.new ≡ buffer_to (compacted_of s.now g) out.old }
{
    // Fixed memory: there is no heap, and these two stand on the stack once for all that is below.
    let mut flags: Words = [0; 3328];
    let mut ranks: Words = [0; 3328];
    with_words(s, g, &mut flags, &mut ranks, out)
}

// The stream without its unused strings, at the front of the buffer.
#[tactic(auto, using(crate::proofs::Prepare::check_laws))]
pub fn compact(s: &[u8], out: &mut [u8]) -> Result<usize, Refusal>
    ensures value { result ≡ answer_of s.now 0 out.old }
    ensures out_after { out.new ≡ buffer_after s.now 0 out.old }
{
    compact_checked(s, workbook::check_with(s, 0)?, out)
}
