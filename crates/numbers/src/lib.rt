// Numbers: total reads of lent numbers, and why a step or a whole input is turned down, for all crates above.
#![tactic(auto)]

ghost use Rattle.std.specs.Prelude.{◌≡◌, slice_index, slice_index_or};
ghost use Rattle.std.specs.Float.{nan};
ghost use Rattle.numbers.specs.Refusals.{ask};
ghost use Rattle.numbers.specs.Walks.{must_be_finite};

// Why numbers can't be had: one is not finite, or lies past the reach of exp.
#[derive(Clone, Copy)]
pub enum Failure {
    Numerical,
}

// A refusal: document 01's number and place. Rows have no other name, on paper, in C and to whoever reads `refused 31 at 0`: an enum of them would say no
// more.
#[derive(Clone, Copy)]
pub struct Refusal {
    pub number: u32,
    pub place: usize,
}

// The refusal of that number at that place, if `bad`.
pub fn ask(bad: bool, number: u32, place: usize) -> Result<(), Refusal>
    ensures { result ≡ ask bad number place }
{
    if bad {
        Err(Refusal { number, place })
    } else {
        Ok(())
    }
}

// A float of either format. Past the end of lent floats its NaN is read.
pub trait Number: Copy {
    ghost nan: { Self };

    fn nan() -> Self
        ensures { result ≡ nan };
}

impl Number for f64 {
    ghost nan = { nan };

    fn nan() -> f64 {
        f64::NAN
    }
}

impl Number for f32 {
    ghost nan = { nan };

    fn nan() -> f32 {
        f32::NAN
    }
}

// What a step says whose number must be finite.
pub fn must_be_finite(x: f32) -> Result<(), Failure>
    ensures { result ≡ must_be_finite x }
{
    let finite = x.is_finite();
    if finite {
        Ok(())
    } else {
        Err(Failure::Numerical)
    }
}

// The i-th of lent numbers, a NaN past their end.
pub fn at<T: Number>(xs: &[T], i: usize) -> T
    ensures { result ≡ slice_index_or xs.now i T.nan }
{
    if i < xs.len() { xs[i] } else { T::nan() }
}

// The i-th of lent indexes, 0 past their end.
pub fn index_at(xs: &[u32], i: usize) -> usize
    ensures { result ≡ slice_index xs.now i }
{
    if i < xs.len() { xs[i] as usize } else { 0 }
}
