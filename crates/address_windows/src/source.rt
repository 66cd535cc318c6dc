// Where the cells of a sheet come from, by address.
ghost use Rattle.std.specs.Prelude.{◌≤◌};

// The records that have a cell in a window of addresses, by their offsets, in the order of the stream: their cells below `high` are meant.
#[derive(Clone, Copy)]
pub struct KeptRecords<'a> {
    pub records: &'a [u32],
    pub high: u64,
    pub ghost within: { high ≤ 4294967296 },
}

#[derive(Clone, Copy)]
pub enum Source<'a> {
    // The sheet itself, whose addresses ascend.
    Ascending,
    // The sheet itself: all of it is gone through for each cell.
    Unordered,
    // The records that a table keeps.
    Window(KeptRecords<'a>),
}
