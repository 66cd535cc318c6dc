// Marks on a table of shared strings, so that any string is found by few steps. They stand at even distances in bytes: however long the strings are and however many
// segments they have, little lies between a mark and the strings after it. A string that is longer than that distance ends at a mark, where a link tells of its characters.
#![tactic(auto)]

mod marks;
mod table;

pub use marks::{Mark, MarkedTable};
pub use table::Table;
