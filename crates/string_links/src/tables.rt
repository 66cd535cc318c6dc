// Both tables, with marks and links.
ghost use Rattle.std.specs.Prelude.{◌≡◌, ◌≤◌, ◌<◌, length};
ghost use Rattle.differences.specs.Differences.{same};
ghost use Rattle.string_marks.specs.Marks.{Kept};
ghost use Rattle.string_links.specs.Links.{string_in, MarkedIn, AllAgree, AllAgree-prop, Marks, LinkOf, Linked, ordered_at};

use crate::order::Order;
use crate::{chars_before, chars_from, mark_of, order};
use string_marks::{Mark, MarkedTable, Table};

// How many marks a table has at most.
const MARKS: usize = 1152;

// Two tables whose links tell of one order of strings.
#[derive(Clone, Copy)]
pub struct Tables<'a> {
    pub first: MarkedTable<'a>,
    pub second: MarkedTable<'a>,
    pub ghost told: { AllAgree first.table first.marks.now second.table second.marks.now } by { AllAgree-prop first.table first.marks.now second.table second.marks.now },
}

impl<'a> Tables<'a> {
    // Whether string i of the first table has the characters of string j of the second.
    // The strings stand in two streams and are known by numbers, which no derive compares.
    pub fn same_text(&self, i: usize, j: usize) -> bool
        ensures { result ≡ same (string_in self.now.first.table i) (string_in self.now.second.table j) }
    {
        let x = &self.first;
        let y = &self.second;
        let a = mark_of(x, i);
        let b = mark_of(y, j);
        let here = link_of(x.marks, a, i);
        let there = link_of(y.marks, b, j);
        if here != 0 && there != 0 {
            here == there
        } else {
            chars_from(x, a, i).is_same(&chars_from(y, b, j))
        }
    }
}

// The link of string i, which is found from mark j on: that of the next mark, where this stands right after it.
#[tactic(auto, using(crate::proofs::Laws::link_laws))]
fn link_of(marks: &[Mark], j: usize, i: usize) -> u16
    requires { j ≤ length marks.now }
    ensures { LinkOf marks.now i result }
{
    let next = j + 1;
    if next < marks.len() && (marks[next].before as usize).saturating_sub(1) == i {
        marks[next].link
    } else {
        0
    }
}

// Links the long strings of the second table to those of the first.
fn link_second(first: &Order, table: &Table, marks: &mut [Mark])
    requires { MarkedIn table.now marks.old }
    ensures { Linked (ordered_at first.now.table.table first.now.table.marks.now first.now.marks.now) (length first.now.marks.now) table.now marks.old marks.new (length marks.new) }
{
    for j in 0..marks.len() {
        if marks[j].link != 0 {
            let x = MarkedTable {
                table: *table,
                marks: &*marks,
            };
            let link = first.link(&chars_before(&x, j));
            marks[j].link = link;
        }
    }
}

// Marks both tables, and links their long strings. The order is done with when they are; compiled into its caller, it would lie on the stack while cells are merged.
#[inline(never)]
pub fn mark_both(first: &Table, x: &mut [Mark], second: &Table, y: &mut [Mark])
    requires { (0 < length x.old) × (0 < length y.old) × (length first.now.stream.now ≤ 16777216) × (length second.now.stream.now ≤ 16777216) }
    ensures { Marks first.now x.new second.now y.new × (length x.new ≡ length x.old) × (length y.new ≡ length y.old) }
{
    // Rattle has no heap: the order stands on the stack.
    let mut order = [0u16; MARKS];
    first.mark(x);
    second.mark(y);
    let count = order::sort(first, &*x, &mut order);
    let long = &order[..count];
    order::number(first, x, long);
    let table = MarkedTable {
        table: *first,
        marks: &*x,
    };
    let ordered = Order { table, marks: long };
    link_second(&ordered, second, y);
}
