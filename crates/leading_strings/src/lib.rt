// How many strings at the start of two tables are the same in both: most of them, where one stream is a revision of the other.
#![tactic(auto)]

ghost use Rattle.std.specs.Prelude.{◌≡◌, false, ◌+◌, ◌<◌};
ghost use Rattle.text_equality.specs.Characters.{units_in};
ghost use Rattle.string_links.specs.Links.{strings_in, string_in};
ghost use Rattle.records_abreast.specs.Abreast.{Common};
ghost use Rattle.leading_strings.specs.Leading.{Reached};

use segments::Cursor;
use string_marks::Table;
use text_equality::Chars;

// The characters of string i, the next one from the cursor on.
#[tactic(auto, using(crate::proofs::Laws::reached_inside, crate::proofs::Laws::here_ok, crate::proofs::Laws::here_units))]
fn chars_here<'a>(x: &Table<'a>, c: Cursor, i: u32) -> Chars<'a>
    requires { (i < x.now.count) × Reached x.now i c }
    ensures { units_in result ≡ string_in x.now i }
{
    let s = x.stream;
    string_links::chars_of(s, strings::next_place(s, c).unwrap())
}

// The cursor after it, where another string comes.
#[tactic(auto, using(crate::proofs::Laws::reached_inside, crate::proofs::Laws::after_reached))]
fn after(x: &Table, c: Cursor, i: u32) -> Cursor
    requires { (i < x.now.count) × Reached x.now i c }
    ensures { i + 1 < x.now.count → Reached x.now (i + 1) result }
{
    strings::skip_strings(x.stream, 1, c).unwrap_or(c)
}

// Where the first string of a table is looked for.
#[tactic(auto, using(crate::proofs::Laws::later, crate::proofs::Laws::start_fits, crate::proofs::Laws::start_reached))]
fn start(x: &Table) -> Cursor
    requires { 0 < x.now.count }
    ensures { Reached x.now 0 result }
{
    Cursor {
        seg: x.place,
        at: x.place + 12,
        end: x.end(),
    }
}

// Whether a table isn't worth the count: it is empty, or it fills the stream. A string has 3 bytes at least, a cell that shows one has 14: for every 3,600 strings
// there is to be room for a cell.
fn idle(x: &Table) -> bool
    ensures { result ≡ false → 0 < x.now.count }
{
    let n = x.count as usize;
    n == 0 || x.stream.len() < n * 3 + n / 256
}

// The strings that are the same at the start of both tables. Not inlined: what it holds would stand in the frame beneath the largest tables of a comparison.
#[inline(never)]
pub fn in_common(x: &Table, y: &Table) -> u32
    ensures { Common (strings_in x.now) (strings_in y.now) result }
{
    if idle(x) || idle(y) {
        return 0;
    }
    let few = x.count.min(y.count);
    let mut c = start(x);
    let mut d = start(y);
    for i in 0..few {
        if !chars_here(x, c, i).is_same(&chars_here(y, d, i)) {
            return i;
        }
        // A string may go on for many segments: the last one needn't be passed.
        if i + 1 < few {
            c = after(x, c, i);
            d = after(y, d, i);
        }
    }
    few
}
