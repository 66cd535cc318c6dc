// The addresses of a record's cells.
ghost use Rattle.std.specs.Prelude.{◌≤◌, ◌<◌};

// So many from one on. A record that has no cell has none from address 0 on: where a span ends and what its next address is takes no test for that.
#[derive(Clone, Copy)]
pub struct Span {
    pub address: u64,
    pub count: u64,
    pub ghost low: { address < 4294967296 },
    pub ghost few: { count ≤ 256 },
}

impl Span {
    ghost use Rattle.std.specs.Prelude.{◌≡◌, ◌+◌};
    ghost use Rattle.address_windows.specs.Windows.{FirstFrom};

    pub(crate) fn none() -> Self
        ensures { (result.address ≡ 0) × (result.count ≡ 0) }
    {
        Span {
            address: 0,
            count: 0,
        }
    }

    pub(crate) fn end(&self) -> u64
        ensures { result ≡ self.now.address + self.now.count }
    {
        self.address + self.count
    }

    // The least of its addresses from k on.
    #[tactic(auto, using(crate::proofs::Laws::first_laws))]
    pub(crate) fn first_from(&self, k: u64) -> Option<u64>
        ensures { FirstFrom self.now.address self.now.count k result }
    {
        let first = self.address.max(k);
        if first < self.end() {
            Some(first)
        } else {
            None
        }
    }
}
