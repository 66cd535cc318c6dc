// The differences between the cells of two sheets, in the order of their addresses, into a lent buffer.
#![tactic(auto)]

ghost use Rattle.std.specs.Prelude.{◌≡◌, [], ◌∷◌, ◌+◌, ◌*◌, ◌≤◌, ◌<◌, length};
ghost use Rattle.string_links.specs.Links.{strings_in};
ghost use Rattle.differences.specs.Differences.{words_of};
ghost use Rattle.cell_addresses.specs.Addresses.{holds};
ghost use Rattle.cell_differences.specs.Merge.{puts, put_to, at_both, words_between};

mod sides;

use cell_addresses::Head;
pub use sides::Sides;
use std::cmp::Ordering;
use string_links::Tables;

// A word into the buffer, after the i that it has, where it has room; the first word without room is counted too.
#[tactic(auto, using(crate::proofs::Puts::put_laws))]
pub fn put(out: &mut [u64], i: usize, word: u64) -> usize
    ensures value { result ≡ put_to (length out.old) i (word ∷ []) }
    ensures out_after { out.new ≡ puts out.old i (word ∷ []) }
{
    if i < out.len() {
        out[i] = word;
    }
    if i <= out.len() { i + 1 } else { i }
}

// The word of two cells at one address, where their values are unequal.
#[tactic(auto, using(crate::proofs::Laws::unequal_laws))]
fn put_unequal(tables: &Tables, x: &Head, y: &Head, key: u64, i: usize, out: &mut [u64]) -> usize
    requires { key < 1152921504606846976 }
    ensures value { result ≡ put_to (length out.old) i (words_of key (at_both tables.now.first.table.stream.now tables.now.second.table.stream.now (strings_in tables.now.first.table) (strings_in tables.now.second.table) (holds x.now.value x.now.field) (holds y.now.value y.now.field))) }
    ensures out_after { out.new ≡ puts out.old i (words_of key (at_both tables.now.first.table.stream.now tables.now.second.table.stream.now (strings_in tables.now.first.table) (strings_in tables.now.second.table) (holds x.now.value x.now.field) (holds y.now.value y.now.field))) }
{
    if cell_equality::same_cell(tables, x.value, x.field, y.value, y.field) {
        return i;
    }
    put(out, i, key * 4 + 3)
}

// The differences between the cells of two sheets, from address `from` on; the tables have their strings. `base` is the key of address 0. i words stand in the buffer,
// and the answer is how many then do.
pub fn merge<S: Sides>(
    sides: &S,
    tables: &Tables,
    base: u64,
    from: u64,
    i: usize,
    out: &mut [u64],
) -> usize
    requires { (from ≤ 4294967296) × (base < 576460752303423488) × S.can_start sides.now × S.compares sides.now tables.now.first.table.stream.now tables.now.second.table.stream.now (strings_in tables.now.first.table) (strings_in tables.now.second.table) }
    ensures value { result ≡ put_to (length out.old) i (words_between tables.now.first.table.stream.now tables.now.second.table.stream.now (strings_in tables.now.first.table) (strings_in tables.now.second.table) (S.first_cells sides.now) (S.second_cells sides.now) base from) }
    ensures out_after { out.new ≡ puts out.old i (words_between tables.now.first.table.stream.now tables.now.second.table.stream.now (strings_in tables.now.first.table) (strings_in tables.now.second.table) (S.first_cells sides.now) (S.second_cells sides.now) base from) }
{
    let (mut x, mut y) = sides.start(from);
    let mut j = i;
    // Which of the two cells comes first says how to go on: there is no index to count.
    while j <= out.len() {
        match x.address.cmp(&y.address) {
            Ordering::Less => {
                j = put(out, j, (base + x.address) * 4 + 1);
                x = sides.next_first(x.next, x.address + 1);
            }
            Ordering::Greater => {
                j = put(out, j, (base + y.address) * 4 + 2);
                y = sides.next_second(y.next, y.address + 1);
            }
            Ordering::Equal if x.address < 4294967296 => {
                j = put_unequal(tables, &x, &y, base + x.address, j, out);
                (x, y) = sides.next_both(x.next, y.next, x.address + 1);
            }
            Ordering::Equal => return j,
        }
    }
    j
}
