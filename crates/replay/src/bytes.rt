// Numbers in lent bytes, little-endian, floats by their bits. Past the end all bytes are 0.
ghost use Rattle.std.specs.Prelude.{◌≤◌};

use std::array;

// The i-th N bytes from `at` on.
fn bytes_at<const N: usize>(b: &[u8], at: usize, i: usize) -> [u8; N] {
    let from = at.saturating_add(i.saturating_mul(N));
    array::from_fn(|k| b.get(from.saturating_add(k)).copied().unwrap_or(0))
}

// A number as a record has it.
pub trait Recorded: Copy {
    // The i-th of those from `at` on.
    fn read(b: &[u8], at: usize, i: usize) -> Self;

    // None at a NaN.
    fn bits(self) -> Option<u64>;

    // A NaN is the same as any NaN.
    fn is_same(self, other: Self) -> bool {
        self.bits() == other.bits()
    }
}

impl Recorded for u32 {
    fn read(b: &[u8], at: usize, i: usize) -> u32 {
        u32::from_le_bytes(bytes_at(b, at, i))
    }

    fn bits(self) -> Option<u64> {
        Some(u64::from(self))
    }
}

impl Recorded for f32 {
    fn read(b: &[u8], at: usize, i: usize) -> f32 {
        let bits = u32::from_le_bytes(bytes_at(b, at, i));
        if 0x7f80_0000 < bits % 0x8000_0000 {
            f32::NAN
        } else {
            f32::from_bits(bits)
        }
    }

    fn bits(self) -> Option<u64> {
        if self.is_nan() {
            None
        } else {
            Some(u64::from(self.to_bits()))
        }
    }
}

impl Recorded for f64 {
    fn read(b: &[u8], at: usize, i: usize) -> f64 {
        let bits = u64::from_le_bytes(bytes_at(b, at, i));
        if 0x7ff0_0000_0000_0000 < bits % 0x8000_0000_0000_0000 {
            f64::NAN
        } else {
            f64::from_bits(bits)
        }
    }

    fn bits(self) -> Option<u64> {
        if self.is_nan() {
            None
        } else {
            Some(self.to_bits())
        }
    }
}

// A recorded count, at most `most`.
pub fn count_at(b: &[u8], at: usize, i: usize, most: usize) -> usize
    ensures { result ≤ most }
{
    (u32::read(b, at, i) as usize).min(most)
}

// The list from `at` on.
pub fn list<T: Recorded, const N: usize>(b: &[u8], at: usize) -> [T; N] {
    array::from_fn(|i| T::read(b, at, i))
}

// Whether a list is the same from `at` on.
pub fn same<T: Recorded>(xs: &[T], b: &[u8], at: usize) -> bool {
    xs.iter()
        .enumerate()
        .all(|(i, x)| x.is_same(T::read(b, at, i)))
}
