// The stream without its unused strings: what it is, and that it passes the check. The code has what the walk over a stream's records speaks of.
#![tactic(auto)]

ghost use Rattle.std.specs.Prelude.{◌≡◌};
ghost use Rattle.new_stream.specs.Entries.{parts, size_for, top};

// Where a record stands: its place, inside how many substreams (0: between those at the top level), the kind of the top-level substream, and whether
// the record before it is gone.
#[derive(Clone, Copy, Debug, PartialEq, Eq)]
pub struct Spot {
    pub at: usize,
    pub level: usize,
    pub kind: u16,
    pub gone: bool,
}

impl Spot {
    // Between those at the top level.
    pub fn top(at: usize) -> Spot
        ensures { result ≡ top at }
    {
        Spot {
            at,
            level: 0,
            kind: 0,
            gone: false,
        }
    }
}

// What becomes of a record: its bytes stay; it is left out; the new string table stands in its place; it gets a new string index, or a new BOF position.
#[derive(Clone, Copy, Debug, PartialEq, Eq)]
pub enum Fate {
    Stays,
    Goes,
    Table,
    Text,
    Sheet,
}

impl Fate {
    // The CONTINUEs right after it go as well.
    pub fn takes_parts(self) -> bool
        ensures { result ≡ parts self }
    {
        matches!(self, Fate::Goes | Fate::Table)
    }
}

// A record: where its header stands, the bytes of header and body, what becomes of it.
#[derive(Clone, Copy, Debug, PartialEq, Eq)]
pub struct Entry {
    pub at: usize,
    pub size: usize,
    pub fate: Fate,
}

impl Entry {
    // What it adds to the new stream, where the new table has so many bytes.
    pub fn new_size(self, table: usize) -> usize
        ensures { result ≡ size_for table self.size self.fate }
    {
        match self.fate {
            Fate::Stays | Fate::Text | Fate::Sheet => self.size,
            Fate::Goes => 0,
            Fate::Table => table,
        }
    }
}
