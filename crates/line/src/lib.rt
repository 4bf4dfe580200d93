// What programs say, as lines by value: texts, numbers in decimal, floats with six digits, and the lines of a job's run (document 02, Wishes 1 and 2).
// Own functions print and not `write!`: the promises speak of a line by value, and what `write!` makes of a float no promise can name.
#![tactic(auto)]

ghost use Rattle.std.specs.Prelude.{◌≡◌, ◌+◌, ◌%◌, ◌<◌, ◌≤◌, OnOk, length, take};
ghost use Rattle.line.specs.FloatText.{raised, lowered, repeated, scaled_of, whole_part, rounded_six, digits_text};
ghost use Rattle.line.specs.FloatText.{pointed, plain_text, power_text, six_text, size_text, float_text};
ghost use Rattle.line.specs.Text.{decimal, ran_text, refused_text, unreadable_text, unwritten_text, yes_no, empty as Text·empty, with_byte, with_text, line_of};
ghost use Rattle.std.specs.Io.KnownBytes.{Appends};

use std::io::Write;

// The first `used` bytes are the text. An array with a count beside it, since nothing is allocated.
#[derive(Clone, Copy)]
pub struct Line {
    pub bytes: [u8; 256],
    pub used: usize,
}

pub fn empty() -> Line
    ensures { result ≡ Text·empty }
{
    Line {
        bytes: [0; 256],
        used: 0,
    }
}

fn with_byte(l: &mut Line, b: u8)
    ensures { l.new ≡ with_byte l.old b }
{
    if l.used < 256 {
        l.bytes[l.used] = b;
        l.used += 1;
    }
}

// The text goes behind what the line has; what does not fit is left out.
pub fn with_text(l: Line, text: &[u8]) -> Line
    ensures { result ≡ with_text l text.now }
{
    let mut r = l;
    for b in text {
        with_byte(&mut r, *b);
    }
    r
}

pub fn with_decimal(l: Line, n: u64) -> Line
    ensures { result ≡ with_text l (decimal n) }
{
    let mut digits = [0u8; 20];
    let k = io::decimal(n, &mut digits);
    with_text(l, &digits[..k])
}

// ---- floats

// Stands for value × 10^(tens − 405).
#[derive(Clone, Copy)]
pub struct ByTens {
    pub value: f64,
    pub tens: usize,
}

// Stands for d.ddddd × 10^(tens − 400), the digits as one number.
#[derive(Clone, Copy)]
pub struct SixDigits {
    pub digits: u64,
    pub tens: usize,
}

const UNIT_PLACE: usize = 400;

fn raise(s: ByTens) -> ByTens
    requires { 0 < s.tens }
    ensures { (result ≡ raised s) × (s.tens ≤ result.tens + 1) × (result.tens ≤ s.tens) }
{
    if s.value < 100000.0 {
        return ByTens {
            value: s.value * 10.0,
            tens: s.tens - 1,
        };
    }
    s
}

fn lower(s: ByTens) -> ByTens
    requires { s.tens < 1000 }
    ensures { (result ≡ lowered s) × (result.tens ≤ s.tens + 1) }
{
    if s.value < 1000000.0 {
        return s;
    }
    ByTens {
        value: s.value / 10.0,
        tens: s.tens + 1,
    }
}

fn raise_all(s: ByTens) -> ByTens
    requires { s.tens ≡ 405 }
    ensures { (result ≡ repeated raised 400 s) × (result.tens ≤ 405) }
{
    let mut t = s;
    for _i in 0..400usize {
        t = raise(t);
    }
    t
}

fn lower_all(s: ByTens) -> ByTens
    requires { s.tens ≤ 405 }
    ensures { (result ≡ repeated lowered 400 s) × (result.tens ≤ 805) }
{
    let mut t = s;
    for _i in 0..400usize {
        t = lower(t);
    }
    t
}

fn by_tens(x: f64) -> ByTens
    ensures { (result ≡ scaled_of x) × (result.tens ≤ 805) }
{
    lower_all(raise_all(ByTens {
        value: x,
        tens: UNIT_PLACE + 5,
    }))
}

fn whole_part(v: f64) -> u64
    ensures { result ≡ whole_part v }
{
    if 0.0 < v && v < 10000000.0 {
        return std::num::truncating_f64_to_u64(v);
    }
    0
}

fn rounded_six(s: ByTens) -> SixDigits
    requires { s.tens ≤ 805 }
    ensures { (result ≡ rounded_six s) × (result.tens ≤ 806) }
{
    let whole = whole_part(s.value + 0.5);
    if whole < 1000000 {
        return SixDigits {
            digits: whole,
            tens: s.tens,
        };
    }
    SixDigits {
        digits: 100000,
        tens: s.tens + 1,
    }
}

fn digit_byte(n: u64) -> u8
    ensures { result ≡ 48 + n % 10 }
{
    (48 + n % 10) as u8
}

fn digits_text(n: u64) -> [u8; 6]
    ensures { result ≡ digits_text n }
{
    [
        digit_byte(n / 100000),
        digit_byte(n / 10000),
        digit_byte(n / 1000),
        digit_byte(n / 100),
        digit_byte(n / 10),
        digit_byte(n),
    ]
}

// A point behind the first k digits.
fn with_point(l: Line, n: u64, k: usize) -> Line
    requires { k ≤ 6 }
    ensures { result ≡ with_text l (pointed n k) }
{
    let digits = digits_text(n);
    let l = with_text(with_text(l, &digits[..k]), b".");
    with_text(l, &digits[k..])
}

fn with_plain(l: Line, d: SixDigits) -> Line
    requires { (396 ≤ d.tens) × (d.tens ≤ 405) }
    ensures { result ≡ with_text l (plain_text d) }
{
    let tens = d.tens;
    let digits = digits_text(d.digits);
    if tens < UNIT_PLACE {
        let zeros = [48u8; 3];
        let k = UNIT_PLACE - 1 - tens;
        let l = with_text(with_text(l, b"0."), &zeros[..k]);
        return with_text(l, &digits);
    }
    if tens == UNIT_PLACE + 5 {
        return with_text(l, &digits);
    }
    with_point(l, d.digits, tens - UNIT_PLACE + 1)
}

fn with_power(l: Line, d: SixDigits) -> Line
    requires { d.tens ≤ 806 }
    ensures { result ≡ with_text l (power_text d) }
{
    let tens = d.tens;
    let l = with_point(l, d.digits, 1);
    if tens < UNIT_PLACE {
        return with_decimal(with_text(l, b"e-"), (UNIT_PLACE - tens) as u64);
    }
    with_decimal(with_text(l, b"e+"), (tens - UNIT_PLACE) as u64)
}

fn with_six(l: Line, d: SixDigits) -> Line
    requires { d.tens ≤ 806 }
    ensures { result ≡ with_text l (six_text d) }
{
    let tens = d.tens;
    if tens < UNIT_PLACE - 4 || UNIT_PLACE + 5 < tens {
        return with_power(l, d);
    }
    with_plain(l, d)
}

fn with_size(l: Line, x: f64) -> Line
    ensures { result ≡ with_text l (size_text x) }
{
    if x == 0.0 {
        return with_text(l, b"0");
    }
    if x < f64::INFINITY {
        return with_six(l, rounded_six(by_tens(x)));
    }
    with_text(l, b"inf")
}

// Six significant digits.
pub fn with_float(l: Line, x: f64) -> Line
    ensures { result ≡ with_text l (float_text x) }
{
    if x.is_nan() {
        return with_text(l, b"nan");
    }
    if 0x8000_0000_0000_0000 <= x.to_bits() {
        return with_size(with_text(l, b"-"), -x);
    }
    with_size(l, x)
}

// ---- lines

fn with_yes_or_no(l: Line, yes: bool) -> Line
    ensures { result ≡ with_text l (yes_no yes) }
{
    if yes {
        return with_text(l, b"yes");
    }
    with_text(l, b"no")
}

// `poses 2 edges 1 iterations 0 converged yes`
pub fn ran(poses: u64, edges: u64, iterations: u64, converged: bool) -> Line
    ensures { result ≡ line_of (ran_text poses edges iterations converged) }
{
    let l = with_decimal(with_text(empty(), b"poses "), poses);
    let l = with_decimal(with_text(l, b" edges "), edges);
    let l = with_decimal(with_text(l, b" iterations "), iterations);
    let l = with_yes_or_no(with_text(l, b" converged "), converged);
    with_text(l, b"\n")
}

// `refused 31 at 0`
pub fn refused(number: u64, place: u64) -> Line
    ensures { result ≡ line_of (refused_text number place) }
{
    let l = with_decimal(with_text(empty(), b"refused "), number);
    let l = with_decimal(with_text(l, b" at "), place);
    with_text(l, b"\n")
}

pub fn unreadable() -> Line
    ensures { result ≡ line_of unreadable_text }
{
    with_text(empty(), b"can't read the input\n")
}

pub fn unwritten() -> Line
    ensures { result ≡ line_of unwritten_text }
{
    with_text(empty(), b"can't write the output\n")
}

// Where it answers Ok, a writer whose bytes are known has these behind what it had.
fn write<W: Write>(out: &mut W, bytes: &[u8], used: usize) -> std::io::Result<()>
    ensures { OnOk result (used ≤ length bytes.now → Appends (W.contents out.old) (W.contents out.new) (take used bytes.now)) }
{
    if used <= bytes.len() {
        out.write_all(&bytes[..used])?;
    }
    Ok(())
}

// Writes the line to a writer, as standard output; a write that fails is let pass. No contract can say what the system takes of it.
pub fn say<W: Write>(out: &mut W, l: Line) {
    let bytes = l.bytes;
    let _ = write(out, &bytes, l.used);
}
