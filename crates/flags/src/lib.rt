// Flags in words of 64: which are set, and how many of them stand before one.
#![tactic(auto, using(crate::proofs::Laws::flag_laws))]

ghost use Rattle.std.specs.Prelude.{◌≡◌, ◌+◌, ◌*◌, ◌/◌, ◌%◌, ◌^◌, ◌≤◌, ◌<◌, length};
ghost use Rattle.flags.specs.Flags.{flag_at, set_below};
ghost use Rattle.flags.specs.Parts.{SetOne, zeros, Ranked};

// Flag i: 1 where it is set, else 0.
pub fn flag_at(flags: &[u64], i: usize) -> u64
    requires { i / 64 < length flags.now }
    ensures { result ≡ flag_at flags.now i }
{
    (flags[i / 64] >> (i % 64)) & 1
}

// Flag i is set; one that is past the last word is passed over.
pub fn set_flag(flags: &mut [u64], i: usize)
    ensures { SetOne i flags.old flags.new }
{
    if i / 64 < flags.len() {
        flags[i / 64] |= 1 << (i % 64);
    }
}

// No flag is set.
pub fn clear(flags: &mut [u64])
    ensures { flags.new ≡ zeros (length flags.old) }
{
    flags.fill(0);
}

// For each word `start` and the number of flags that are set in the words before it; what that is after the last.
pub fn rank_words(flags: &[u64], start: u64, ranks: &mut [u64]) -> u64
    requires { (length flags.now ≡ length ranks.old) × (start ≤ 4294967296) × (length flags.now ≤ 65536) }
    ensures value { result ≡ start + set_below flags.now (length flags.now * 64) }
    ensures ranked { Ranked start flags.now ranks.new }
{
    let mut r = start;
    for (j, word) in flags.iter().enumerate() {
        ranks[j] = r;
        r += u64::from(word.count_ones());
    }
    r
}

// `start` and the number of flags that are set before flag i.
pub fn rank_at(flags: &[u64], ranks: &[u64], i: usize, start: u64) -> u64
    requires { Ranked start flags.now ranks.now × (i / 64 < length flags.now) × (start ≤ 4294967296) × (length flags.now ≤ 65536) }
    ensures { result ≡ start + set_below flags.now i }
{
    let before = flags[i / 64] & ((1 << (i % 64)) - 1);
    ranks[i / 64] + u64::from(before.count_ones())
}
