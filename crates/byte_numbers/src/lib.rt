// Little-endian numbers of a byte slice, read and stored. What may be asked only within the slice says so; the questions above look first.
#![tactic(auto, using(crate::proofs::Laws::store_step, crate::proofs::Laws::store_end), unfolding(crate::specs::Bytes::num_at))]

ghost use Rattle.std.specs.Prelude.{◌≡◌, ◌+◌, ◌≤◌, ◌<◌, length, get_or};
ghost use Rattle.std.proofs.lemmas.List.Edits.{sets};
ghost use Rattle.byte_numbers.specs.Bytes.{u16_at, u32_at, u64_at, bytes_at, bytes_of};

// The two bytes at `at`, the lower first.
pub fn u16_at(s: &[u8], at: usize) -> u16
    requires { at + 2 ≤ length s.now }
    ensures { result ≡ u16_at s.now at }
{
    u16::from_le_bytes([s[at], s[at + 1]])
}

// The four bytes at `at`, the lower first.
pub fn u32_at(s: &[u8], at: usize) -> u32
    requires { at + 4 ≤ length s.now }
    ensures { result ≡ u32_at s.now at }
{
    u32::from_le_bytes([s[at], s[at + 1], s[at + 2], s[at + 3]])
}

// The eight bytes at `at`, the lower first.
pub fn u64_at(s: &[u8], at: usize) -> u64
    requires { at + 8 ≤ length s.now }
    ensures { result ≡ u64_at s.now at }
{
    u64::from(u32_at(s, at)) + u64::from(u32_at(s, at + 4)) * 0x1_0000_0000
}

// The same where a number may go past the end: what is past it counts as 0.
fn byte_or_zero(s: &[u8], at: usize) -> u8
    ensures { result ≡ get_or s.now at 0 }
{
    s.get(at).copied().unwrap_or(0)
}

pub fn u16_or_zeros(s: &[u8], at: usize) -> u16
    requires { at + 2 < 18446744073709551616 }
    ensures { result ≡ u16_at s.now at }
{
    u16::from_le_bytes([byte_or_zero(s, at), byte_or_zero(s, at + 1)])
}

pub fn u32_or_zeros(s: &[u8], at: usize) -> u32
    requires { at + 4 < 18446744073709551616 }
    ensures { result ≡ u32_at s.now at }
{
    if at + 4 <= s.len() {
        return u32_at(s, at);
    }
    u32::from(u16_or_zeros(s, at)) + u32::from(u16_or_zeros(s, at + 2)) * 0x1_0000
}

// The w bytes of n, the lower first, stored at `at`.
pub fn store(s: &mut [u8], at: usize, w: usize, n: u64)
    requires { at + w ≤ length s.old }
    ensures { s.new ≡ sets s.old at (bytes_of w n) }
{
    let mut rest = n;
    for to in at..at + w {
        s[to] = (rest % 256) as u8;
        rest >>= 8;
    }
}

// The n bytes from p on, stored at `at`; byte by byte, since the slice's method asks whoever links the archive for `memmove`.
pub fn copy(s: &[u8], p: usize, n: usize, out: &mut [u8], at: usize)
    requires { (p + n ≤ length s.now) × (at + n ≤ length out.old) }
    ensures { out.new ≡ sets out.old at (bytes_at s.now p n) }
{
    for i in 0..n {
        out[at + i] = s[p + i];
    }
}
