// Square roots at either format, worked out from sign, exponent and fraction bits, rounded once.
#![tactic(auto)]

ghost use Rattle.std.specs.Prelude.{◌≡◌, ℕ, suc, ◌+◌, ◌-◌, ◌*◌, ◌/◌, ◌%◌, ◌^◌, ◌<◌, ◌≤◌, false, from_bits};
ghost use Rattle.std.specs.Float.{Format, binary32, binary64};
ghost use Rattle.std.specs.Float.Ieee.{prec, emax, low, ones, of_fields};
ghost use Rattle.std.specs.Float.Ieee.Exact.{HasValue};
ghost use Rattle.roots.specs.Roots.{rooted, NearestRoot};

// Bounds such as m < 2^54 are of plain numbers at each step; a struct would be wrapped and unwrapped at each, and say no more.

// A root in digits: q is the whole part of the root of q * q + rest.
#[derive(Clone, Copy)]
struct Root {
    pub q: u64,
    pub rest: u64,
}

// One digit more, as two digits of the number are brought down.
fn digit(r: Root, two: u64) -> Root
    requires { (r.rest ≤ 2 * r.q) × (r.q < 2 ^ 53) × (two < 4) }
    ensures { (result.q * result.q + result.rest ≡ 4 * (r.q * r.q + r.rest) + two) × (result.rest ≤ 2 * result.q) × (result.q ≤ 2 * r.q + 1) }
{
    let rest = r.rest * 4 + two;
    let q = r.q * 2;
    let trial = q * 2 + 1;
    if rest < trial {
        Root { q, rest }
    } else {
        Root {
            q: q + 1,
            rest: rest - trial,
        }
    }
}

// The whole root of m and what is left, digit by digit.
fn digits(m: u64) -> Root
    requires { m < 2 ^ 54 }
    ensures { (result.q * result.q + result.rest ≡ m) × (result.rest ≤ 2 * result.q) }
{
    let mut r = Root { q: 0, rest: 0 };
    let mut left = m;
    for d in 0..27u64 {
        r = digit(r, left >> 52);
        left = (left & 0xf_ffff_ffff_ffff) << 2;
    }
    r
}

// A whole number n: where over is above 0, the one nearest to the root of n * n - n + over.
#[derive(Clone, Copy)]
struct NearRoot {
    pub n: u64,
    pub over: u64,
}

// The whole number nearest to the root of m, by its digits.
fn nearest_by_digits(m: u64) -> NearRoot
    requires { (0 < m) × (m < 2 ^ 54) }
    ensures { NearestRoot m result.n × (result.n * result.n + result.over ≡ m + result.n) }
{
    let r = digits(m);
    if r.q < r.rest {
        NearRoot {
            n: r.q + 1,
            over: r.rest - r.q,
        }
    } else {
        NearRoot {
            n: r.q,
            over: r.rest + r.q,
        }
    }
}

// The guess g, with over where it is the whole number nearest to the root of an m above 0, and 0 where it is not. It is nearest just where
// m - (g * g - g) is above 0 and at most 2 * g; wrapped, what is below 1 is a huge number, so that one comparison tells.
fn tested(m: u64, g: u64) -> NearRoot
    requires { (m < 2 ^ 54) × (g ≤ 2 ^ 28) }
    ensures { (result.n ≡ g) × (0 < result.over → NearestRoot m result.n × (result.n * result.n + result.over ≡ m + result.n))
        × (NearestRoot m g → 0 < result.over) }
{
    let over = (m + g).wrapping_sub(g * g);
    if over.wrapping_sub(1) < g * 2 {
        NearRoot { n: g, over }
    } else {
        NearRoot { n: g, over: 0 }
    }
}

// The whole number nearest to the root of m: the guess g where it passes the test, or one less, since a guess is seldom too
// small; else digit by digit.
fn nearest_root(m: u64, g: u64) -> NearRoot
    requires { (0 < m) × (m < 2 ^ 54) × (g ≤ 2 ^ 28) }
    ensures { NearestRoot m result.n × (result.n * result.n + result.over ≡ m + result.n) }
{
    let first = tested(m, g);
    if 0 < first.over {
        return first;
    }
    let second = tested(m, g.saturating_sub(1));
    if 0 < second.over {
        return second;
    }
    nearest_by_digits(m)
}

// The whole number nearest to the root of m * 4^26, from that of m: 26 digits more by one division. With n and over as r has
// them and c * 2 n + d = over * 2^26, the square of q = n 2^26 + c - 2^25 is m * 4^26 but for (c - 2^25)^2 and d * 2^26, which
// are so small that q is nearest or one too small; the test tells.
fn longer_root(r: NearRoot) -> u64
    requires { (2 ^ 26 ≤ r.n) × (r.n ≤ 2 ^ 27) × (r.over ≤ 2 * r.n) }
    ensures { (m : ℕ) → r.n * r.n + r.over ≡ m + r.n → NearestRoot (m * 2 ^ 52) result }
{
    let twice = r.n * 2;
    let all = r.over << 26;
    let c = all / twice;
    let excess = (all - c * twice + c) << 26;
    let q = (r.n << 26) + c - 0x200_0000;
    if c * c + q + 0x4_0000_0000_0000 < excess {
        q + 1
    } else {
        q
    }
}

// A guess at the root of x that is better than the guess g: for a root r it is
// r ((g + r)^6 + (g - r)^6) / ((g + r)^6 - (g - r)^6). Nothing is claimed of it.
fn better_guess(x: f64, g: f64) -> f64 {
    let s = g * g;
    let u = s + x;
    let sx = s * x;
    let uu = u * u;
    u * (uu + 12.0f64 * sx) / ((g + g) * (3.0f64 * uu + 4.0f64 * sx))
}

// A guess at the root of q * 2^odd * 2^52, for q of 53 digits (compare/bench repeats it). Nothing is claimed but that it has at most 54 digits: whoever asks
// tests it. x is the bits of the number q * 2^odd / 2^52, from 1 up to 4; halved, with a little less than half the bits of 1
// added, they are near those of its root. Of the better guess the fraction is kept and, once 2^53 is added, the last two bits of
// the exponent, which are then the leading digit: 1 below 2, or 2 where rounding has led there.
fn guess(q: u64, odd: u64) -> u64
    requires { (q < 2 ^ 53) × (odd ≤ 1) }
    ensures { result < 2 ^ 54 }
{
    let x = q + ((1022 + odd) << 52);
    let g = better_guess(
        f64::from_bits(x),
        f64::from_bits((x >> 1) + 0x1ff7_a3be_a91d_9b1b),
    );
    if g.is_nan() {
        return 0;
    }
    g.to_bits().wrapping_add(0x20_0000_0000_0000) & 0x3f_ffff_ffff_ffff
}

// q * 2^a
#[derive(Clone, Copy)]
struct Scaled {
    pub q: u64,
    pub a: u64,
}

// t * 2^a with t shifted up to w + 1 digits.
fn lifted(t: u64, a: u64, w: u64) -> Scaled
    requires { (0 < t) × (t < 2 * 2 ^ w) × (w ≤ 52) × (w ≤ a) }
    ensures { (result.q * 2 ^ result.a ≡ t * 2 ^ a) × (2 ^ w ≤ result.q) × (result.q < 2 * 2 ^ w) × (result.a ≤ a) × (a ≤ result.a + w) }
{
    let shift = w - u64::from(t.ilog2());
    Scaled {
        q: t << shift,
        a: a - shift,
    }
}

// The number of the bits b, which is finite and above 0, in the format of w + 1 digits whose smallest value is 2^-least: as
// q * 2^a / 4^least with a q of w + 1 digits.
fn unpacked(b: u64, w: u64, least: u64) -> Scaled
    requires { (0 < b) × (w ≤ 52) × (2 * w < least) × (b / 2 ^ w + least < 4092) }
    ensures { (2 ^ w ≤ result.q) × (result.q < 2 * 2 ^ w) × (w < result.a) × (result.a < 4092)
        × ((f : Format) → prec f ≡ suc w → low f ≡ least → b / 2 ^ w < ones f → (result.a < 4 * emax f)
        × HasValue (of_fields f false (b / 2 ^ w) (b % 2 ^ w)) false (result.q * 2 ^ result.a) (2 ^ (2 * least))) }
{
    let e = b >> w;
    let t = b & ((1u64 << w) - 1);
    if e == 0 {
        lifted(t, least, w)
    } else {
        Scaled {
            q: t + (1u64 << w),
            a: e - 1 + least,
        }
    }
}

// A number's root before its digits are found: its bits are k * 2^w and the digits of the root of q * 2^odd * 2^w, the leading
// one among them.
#[derive(Clone, Copy)]
struct Halving {
    pub q: u64,
    pub odd: u64,
    pub k: u64,
}

// The number of the bits b, as above, with its exponent halved: whatever n is nearest to the root of q * 2^odd * 2^w, the root's
// bits are k * 2^w + n.
fn exponent_halved(b: u64, w: u64, least: u64) -> Halving
    requires { (0 < b) × (w ≤ 52) × (2 * w < least) × (b / 2 ^ w + least < 4092) }
    ensures { (2 ^ w ≤ result.q) × (result.q < 2 * 2 ^ w) × (result.odd ≤ 1) × (result.k < 2046)
        × ((f : Format) → prec f ≡ suc w → low f ≡ least → b / 2 ^ w < ones f → (n : ℕ) → NearestRoot (result.q * 2 ^ result.odd * 2 ^ w) n
        → (result.k * 2 ^ w + n ≤ ones f * 2 ^ w) × (rooted f (of_fields f false (b / 2 ^ w) (b % 2 ^ w)) ≡ from_bits f (result.k * 2 ^ w + n))) }
{
    let s = unpacked(b, w, least);
    let odd = (s.a + w) & 1;
    Halving {
        q: s.q,
        odd: odd,
        k: (s.a - w - odd) >> 1,
    }
}

// The bits of the root of the f64 of the bits b, which is finite and above 0. Its 53 digits are too many to be tested at once: 27
// are guessed and tested, the others found by division.
fn sqrt64_bits(b: u64) -> u64
    requires { (0 < b) × (b < 0x7ff0_0000_0000_0000) }
    ensures { (result ≤ 0x7ff0_0000_0000_0000) × (rooted binary64 (of_fields binary64 false (b / 2 ^ 52) (b % 2 ^ 52)) ≡ from_bits binary64 result) }
{
    let h = exponent_halved(b, 52, 1074);
    let g = (guess(h.q, h.odd) + 0x200_0000) >> 26;
    let r = nearest_root(h.q << h.odd, g);
    (h.k << 52) + longer_root(r)
}

// The same of an f32, whose 24 digits are guessed and tested at once.
fn sqrt32_bits(b: u64) -> u64
    requires { (0 < b) × (b < 0x7f80_0000) }
    ensures { (result ≤ 0x7f80_0000) × (rooted binary32 (of_fields binary32 false (b / 2 ^ 23) (b % 2 ^ 23)) ≡ from_bits binary32 result) }
{
    let h = exponent_halved(b, 23, 149);
    let g = (guess(h.q << 29, h.odd) + 0x1000_0000) >> 29;
    let r = nearest_root(h.q << (23 + h.odd), g);
    (h.k << 23) + r.n
}

// The root of x, rounded once; a NaN below 0. One generic function for both formats would need a trait of their own with the bits, the bounds and a ghost
// format of each: more text than the function said twice.
pub fn sqrt64(x: f64) -> f64
    ensures { result ≡ rooted binary64 x }
{
    if x.is_nan() {
        return x;
    }
    let b = x.to_bits();
    if (0 < b) & (b < 0x7ff0_0000_0000_0000) {
        return f64::from_bits(sqrt64_bits(b));
    }
    if 0x8000_0000_0000_0000 < b {
        return f64::NAN;
    }
    x
}

pub fn sqrt32(x: f32) -> f32
    ensures { result ≡ rooted binary32 x }
{
    if x.is_nan() {
        return x;
    }
    let b = x.to_bits();
    if (0 < b) & (b < 0x7f80_0000) {
        return f32::from_bits(sqrt32_bits(b as u64) as u32);
    }
    if 0x8000_0000 < b {
        return f32::NAN;
    }
    x
}
