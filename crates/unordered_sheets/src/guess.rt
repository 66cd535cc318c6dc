// Guesses of where the next window starts and how wide it is. Nothing but the time taken depends on them.
ghost use Rattle.std.specs.Prelude.{◌≤◌, ◌<◌};

// The addresses of a row that count are 256: no cell that passes has a column over 255, and what is past it counts as the next row.
fn index_of(a: u64) -> u64
    requires { a ≤ 4294967296 }
    ensures { result ≤ 16777472 }
{
    a / 65536 * 256 + (a % 65536).min(256)
}

// The end of a window of so many addresses from `near` on.
pub(crate) fn end_of(low: u64, near: u64, width: u64, top: u64) -> u64
    requires { (low < top) × (top ≤ 4294967296) × (near ≤ 4294967296) × (width ≤ 4294967296) }
    ensures { (low < result) × (result ≤ top) }
{
    let k = index_of(near) + width;
    let end = k / 256 * 65536 + k % 256;
    if end <= low { top } else { end.min(top) }
}

// How wide a window to try after one with so many records from `near` to `high`: in proportion, with a sixteenth of the table to spare, and at most eight times as wide.
// A table that is full is squeezed, so that one place at least is to spare.
pub(crate) fn wider(near: u64, high: u64, count: usize, room: usize) -> u64
    requires { (near ≤ 4294967296) × (high ≤ 4294967296) × (room ≤ 65536) }
    ensures { (1 ≤ result) × (result ≤ 4294967296) }
{
    let tried = index_of(high).saturating_sub(index_of(near));
    let full = room.saturating_sub(room / 16 + 1);
    if count <= full / 8 {
        (tried * 8).max(1)
    } else {
        (tried * full as u64 / count as u64).clamp(1, 4294967296)
    }
}
