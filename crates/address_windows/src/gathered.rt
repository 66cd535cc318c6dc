// What a table took of a window.
ghost use Rattle.std.specs.Prelude.{◌≤◌};

// How many records, where the window ends, and an address at or after its end before which no other record was met. The last is a hint: what is promised of it is only
// where it lies.
#[derive(Clone, Copy)]
pub struct Gathered {
    pub count: usize,
    pub high: u64,
    pub next: u64,
    pub ghost past: { high ≤ next },
    pub ghost top: { next ≤ 4294967296 },
}

impl Gathered {
    ghost use Rattle.std.specs.Prelude.{◌≡◌};
    ghost use Rattle.address_windows.specs.Windows.{Same};

    // Nothing yet, of a window that may be taken whole.
    // Its end may be 2^32, one past the last address, and no more: a bound of one number, as callers reckon it.
    pub(crate) fn none(high: u64) -> Gathered
        requires { high ≤ 4294967296 }
        ensures { (result.count ≡ 0) × (result.high ≡ high) }
    {
        Gathered {
            count: 0,
            high,
            next: 4294967296,
        }
    }

    // With the lesser of two hints, where the second lies past the window too.
    pub(crate) fn hinted(&self, a: u64) -> Gathered
        ensures { Same result self.now }
    {
        let next = if a < self.high {
            self.next
        } else {
            self.next.min(a)
        };
        Gathered {
            count: self.count,
            high: self.high,
            next,
        }
    }
}
