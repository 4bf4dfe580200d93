// f64 to f32, worked out from sign, exponent and fraction bits: to the nearest, a tie to the even one.
#![tactic(auto)]

ghost use Rattle.std.specs.Prelude.{◌≡◌, ◌+◌, ◌/◌, ◌%◌, ◌^◌, ◌<◌, ◌≤◌, Bool, if◌then◌else◌, from_bits};
ghost use Rattle.std.specs.Float.{binary32, binary64};
ghost use Rattle.std.specs.Float.Ieee.{of_fields};
ghost use Rattle.std.specs.Float.Ieee.Nearest.{closest};
ghost use Rattle.rounding.specs.Rounding.{rounded};

// q / 2^sh to the nearest whole number, a tie to the even one. With no branch, since rounding up or down is a matter of
// chance to the processor: half of 2^sh, less one where the quotient is even, carries into the quotient just where it
// is to go up.
fn nearest_shift(q: u64, sh: u64) -> u64
    requires { (0 < sh) × (sh < 64) × (q < 2 ^ 63) }
    ensures { result ≡ closest q (2 ^ sh) }
{
    let odd = (q >> sh) & 1;
    let half = 1u64 << (sh - 1);
    (q + (half - 1) + odd) >> sh
}

// The bits, without the sign's, of the f32 nearest to the f64 of the bits `mag`, which has no sign and is no NaN.
fn narrow_bits(mag: u64) -> u32
    requires { mag ≤ 0x7ff0_0000_0000_0000 }
    ensures { (result ≤ 0x7f80_0000)
        × ((s : Bool) → from_bits binary32 ((if s then 2 ^ 31 else 0) + result) ≡ rounded binary32 (of_fields binary64 s (mag / 2 ^ 52) (mag % 2 ^ 52))) }
{
    let e = mag >> 52;
    if 897 <= e {
        // From 2^-126 on, exponent and digits are rounded as one number: going up carries into the exponent, and to infinity.
        let n = nearest_shift(mag - 0x3800_0000_0000_0000, 29);
        if n < 0x7f80_0000 {
            return n as u32;
        }
        return 0x7f80_0000;
    }
    if e < 873 {
        return 0;
    }
    let q = (mag & 0xf_ffff_ffff_ffff) + 0x10_0000_0000_0000;
    nearest_shift(q, 926 - e) as u32
}

// x at the narrower format: the nearest f32, a tie to the even one, overflow to an infinity, a NaN to a NaN.
pub fn narrow(x: f64) -> f32
    ensures { result ≡ rounded binary32 x }
{
    if x.is_nan() {
        return f32::NAN;
    }
    let b = x.to_bits();
    let sign = (b >> 63) as u32;
    let mag = narrow_bits(b & 0x7fff_ffff_ffff_ffff);
    f32::from_bits((sign << 31) + mag)
}

// How many sizes there are from 2^-126 up to where an infinity is nearest, counted in last places of an f64.
const IN_PLACE: u64 = 0x0fdf_ffff_f000_0000;

// The f32 nearest to x, as an f64: what `narrow` makes of x, widened; rounded in place where x is at least 2^-126 in size and no infinity is
// nearest.
pub fn round32(x: f64) -> f64
    ensures { result ≡ rounded binary32 x }
{
    if x.is_nan() {
        return f64::NAN;
    }
    let b = x.to_bits();
    let mag = b & 0x7fff_ffff_ffff_ffff;
    // From 2^-126 up to where an infinity is nearest. As in `nearest_shift`, what is added carries just where the digits kept go up.
    if std::num::wrapping_sub_u64(mag, 0x3810_0000_0000_0000) < IN_PLACE {
        return f64::from_bits((b + 0x0fff_ffff + ((b >> 29) & 1)) & 0xffff_ffff_e000_0000);
    }
    f64::from(narrow(x))
}
