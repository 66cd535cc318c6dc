// Numbers as a workbook holds them: the 64 bits of an f64, and RK words, decoded and packed; whole numbers from 0 up, by the 64 bits of an f64.
#![tactic(auto, using(crate::proofs::Float64::float64_laws, crate::proofs::Decoding::decoding, crate::proofs::Packing::packing, crate::proofs::Amounts::amount_laws))]

ghost use Rattle.std.specs.Prelude.{◌≡◌, false, ◌<◌, ◌/◌, ◌%◌, ◌^◌};
ghost use Rattle.std.specs.Float.{binary64};
ghost use Rattle.std.specs.Float.Ieee.{of_bits, round};
ghost use Rattle.number.specs.Float64.{is_nan_bits, float_in, bits_of};
ghost use Rattle.number.specs.Rk.{whole_sign, whole_size, quotient_bits, rk_bits, means_nothing, rk_of};
ghost use Rattle.number.specs.Packing.{whole_form, pack_of};
ghost use Rattle.number.specs.Amount.{amount_of};

// Whether 64 bits are a NaN's pattern.
pub fn is_nan(b: u64) -> bool
    ensures { result ≡ is_nan_bits b }
{
    b & 0x7FFF_FFFF_FFFF_FFFF > 0x7FF0_0000_0000_0000
}

// The f64 of 64 bits that are no NaN's: an f64 does not keep a NaN's bits.
pub fn float_of(b: u64) -> f64
    requires { is_nan_bits b ≡ false }
    ensures { result ≡ of_bits binary64 b }
{
    f64::from_bits(b)
}

// The f64 of 64 bits, if they are no NaN's.
pub fn float_in(b: u64) -> Option<f64>
    ensures { result ≡ float_in b }
{
    if is_nan(b) {
        return None;
    }
    Some(float_of(b))
}

// The 64 bits of an f64; of a NaN one fixed pattern.
pub fn bits_of(x: f64) -> u64
    ensures { result ≡ bits_of x }
{
    if x.is_nan() {
        return 0x7FF8_0000_0000_0000;
    }
    x.to_bits()
}

// Bit 1 clear and bits 20 to 30 all set.
pub fn means_nothing(w: u32) -> bool
    ensures { result ≡ means_nothing w }
{
    w & 0x7FF0_0002 == 0x7FF0_0000
}

// The signed whole number of 30 bits, the uppermost of which counts 2^30 less than it would unsigned: with that bit turned around they are 2^29 too many.
fn converted(v: u32) -> f64
    requires { v < 2 ^ 30 }
    ensures { result ≡ round binary64 (whole_sign v) (whole_size v) 1 }
{
    f64::from((v ^ 0x2000_0000) as i32 - 0x2000_0000)
}

// The same by its bits: below those of 2^52 they are an f64 as they stand, 2^52 too many.
fn raised(v: u32) -> f64
    requires { v < 2 ^ 30 }
    ensures { result ≡ round binary64 (whole_sign v) (whole_size v) 1 }
{
    f64::from_bits(0x4330_0000_0000_0000 + u64::from(v ^ 0x2000_0000)) - 4503600164241408.0
}

// What no word may be that gets here is asked by a clause of each: callers have just looked, and a type of such words would only carry it from their test to here.
// The 64 bits of the number before any division. Both forms are computed and one is picked by bit 1, among whole numbers and not among floats, whose pick
// would be a branch: a branch would be mispredicted on mixed words. `whole` is the whole-number form.
fn undivided(w: u32, whole: f64) -> u64
    requires { (means_nothing w ≡ false) × (whole ≡ round binary64 (whole_sign (w / 4)) (whole_size (w / 4)) 1) }
    ensures { result ≡ quotient_bits w 1 }
{
    let bits = whole.to_bits();
    if w / 2 % 2 == 0 {
        return u64::from(w >> 2) << 34;
    }
    bits
}

// The 64 bits of the number that the word means. The quotient, too, is computed in any case, and picked by bit 0.
fn bits_with(w: u32, whole: f64) -> u64
    requires { (means_nothing w ≡ false) × (whole ≡ round binary64 (whole_sign (w / 4)) (whole_size (w / 4)) 1) }
    ensures { result ≡ rk_bits w }
{
    let bits = undivided(w, whole);
    let quotient = (f64::from_bits(bits) / 100.0).to_bits();
    if w % 2 == 0 {
        return bits;
    }
    quotient
}

// For words one after the other in a short loop, where the conversion is the shorter way.
pub fn rk_bits(w: u32) -> u64
    requires { means_nothing w ≡ false }
    ensures { result ≡ rk_bits w }
{
    bits_with(w, converted(w >> 2))
}

// For a word by itself. The conversion writes half a register, and there is waited for the division of the word before.
pub fn lone_rk_bits(w: u32) -> u64
    requires { means_nothing w ≡ false }
    ensures { result ≡ rk_bits w }
{
    bits_with(w, raised(w >> 2))
}

// The number that the word means, if it means one.
pub fn decode(w: u32) -> Option<f64>
    ensures { result ≡ rk_of w }
{
    if means_nothing(w) {
        return None;
    }
    Some(f64::from_bits(rk_bits(w)))
}

// The undivided RK word that means the f64 of these 64 bits, if there is one: the float form if it fits, else the whole-number form.
pub fn pack(b: u64) -> Option<u32>
    ensures { result ≡ pack_of b }
{
    if (b >> 52) & 0x7FF == 0x7FF {
        return None;
    }
    if b & 0x3_FFFF_FFFF == 0 {
        return Some((b >> 32) as u32);
    }
    whole_form(b)
}

// The whole-number form of a number that has no float form, and so is no zero.
fn whole_form(b: u64) -> Option<u32>
    requires { 0 < b % 2 ^ 34 }
    ensures { result ≡ whole_form b }
{
    let field = (b >> 52) & 0x7FF;
    if field < 1023 || 1052 < field {
        return None;
    }
    let significand = (b & 0xF_FFFF_FFFF_FFFF) + 0x10_0000_0000_0000;
    let fraction = 1075 - field;
    let size = significand >> fraction;
    if size << fraction != significand {
        return None;
    }
    if b >> 63 == 0 {
        return (size < 0x2000_0000).then(|| size as u32 * 4 + 2);
    }
    (size <= 0x2000_0000).then(|| (0x4000_0000 - size as u32) * 4 + 2)
}

// The whole number from 0 up to the limit that 64 bits mean, if they mean one.
pub fn amount_of(limit: u32, b: u64) -> Option<u32>
    ensures { result ≡ amount_of limit b }
{
    if b == 0 {
        return Some(0);
    }
    let field = b >> 52;
    if field < 1023 || 1054 < field {
        return None;
    }
    let significand = (b & 0xF_FFFF_FFFF_FFFF) + 0x10_0000_0000_0000;
    let fraction = 1075 - field;
    let whole = significand >> fraction;
    if whole << fraction != significand || u64::from(limit) < whole {
        return None;
    }
    Some(whole as u32)
}
