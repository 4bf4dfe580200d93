// The profile of a system of n unknowns in a solve's work: whether the work has room for it, where each row of H starts, and where a sum of products of two
// such rows may start. Of any work and any n.
#![tactic(auto)]

ghost use Rattle.std.specs.Prelude.{◌≡◌, ◌*◌, ◌≤◌, leb, length};
ghost use Rattle.profile.specs.Layout.{need};
ghost use Rattle.profile.specs.Starts.{plus_zero, minus_zero, order_for, start_of, starts_of, first_of, start_at};

// Whether n (n + 3) numbers have room.
pub fn has_room(len: usize, n: usize) -> bool
    ensures { result ≡ leb (need n) len }
{
    if n == 0 {
        return true;
    }
    let q = len / n;
    if q < 3 {
        return false;
    }
    n <= q - 3
}

// n where there is room for n unknowns, else 0.
fn order_for(len: usize, n: usize) -> usize
    ensures { result ≡ order_for len n }
{
    if has_room(len, n) { n } else { 0 }
}

fn minus_zero(v: f32) -> bool
    ensures { result ≡ minus_zero v }
{
    v == 0.0 && v.is_sign_negative()
}

fn plus_zero(v: f32) -> bool
    ensures { result ≡ plus_zero v }
{
    v == 0.0 && v.is_sign_positive()
}

// The first j with H(i,j) not +0, and i where there is none.
fn first_in(w: &[f32], n: usize, i: usize) -> usize
    requires { n * n ≤ length w.now }
    ensures { result ≡ start_of w.now n i }
{
    if n <= i {
        return 0;
    }
    (0..i).find(|j| !plus_zero(w[*j * n + i])).unwrap_or(i)
}

// Where each row starts. A run has at most 384 unknowns, 6 for each of 64 free poses; rows past them start at 0.
pub fn starts(w: &[f32], n: usize) -> [usize; 384]
    ensures { result ≡ starts_of w.now n }
{
    let m = order_for(w.len(), n);
    let mut f = [0; 384];
    for i in 0..384 {
        f[i] = first_in(w, m, i);
    }
    f
}

pub fn first_of(f: &[usize; 384], i: usize) -> usize
    ensures { result ≡ first_of f.now i }
{
    if i < 384 { f[i] } else { 0 }
}

// Where the products to be taken from v start, of rows that start at a and at b.
pub fn start(v: f32, a: usize, b: usize) -> usize
    ensures { result ≡ start_at v a b }
{
    if minus_zero(v) {
        return 0;
    }
    a.max(b)
}
