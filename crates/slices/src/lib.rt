// Copies and clears over lent slices, of any lengths.
#![tactic(auto)]

ghost use Rattle.std.specs.Prelude.{◌≡◌, length, replicate};
ghost use Rattle.numbers.specs.Notation.{num};
ghost use Rattle.slices.specs.Slices.{copied};

// A number that has a +0.
pub trait Zero: Copy {
    ghost zero: { Self };

    fn zero() -> Self
        ensures { result ≡ zero };
}

impl Zero for f32 {
    ghost zero = { num 0 };

    fn zero() -> f32 {
        0.0f32
    }
}

impl Zero for f64 {
    ghost zero = { num 0 };

    fn zero() -> f64 {
        0.0f64
    }
}

// As many as both have. By the index, since the library's copy between two lent lists calls `memmove`, which a host of the archive need not have.
pub fn copy<T: Copy>(from: &[T], to: &mut [T])
    ensures { to.new ≡ copied from.now to.old }
{
    for i in 0..to.len().min(from.len()) {
        to[i] = from[i];
    }
}

// Every number becomes +0.
pub fn clear<T: Zero>(w: &mut [T])
    ensures { w.new ≡ replicate (length w.old) T.zero }
{
    for x in w.iter_mut() {
        *x = T::zero();
    }
}
