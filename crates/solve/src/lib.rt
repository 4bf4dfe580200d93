// The damped solve: damping on the diagonal, Cholesky, forward and back substitution, in lent work.
// What is +0 by structure, left of a row's first entry that is not +0, is skipped: the bits are those of the plain rule all the same.
#![tactic(auto)]

ghost use Rattle.std.specs.Prelude.{◌≡◌, ◌+◌, ◌-◌, ◌*◌, ◌<◌, ◌≤◌, length, is_some};
ghost use Rattle.std.specs.Float.Ieee.Scale.{finite};
ghost use Rattle.numbers.specs.Walks.{every};
ghost use Rattle.solve.specs.Rule as R;
ghost use Rattle.profile.specs.Layout.{need};
ghost use Rattle.profile.specs.Starts.{first_of};
ghost use Rattle.solve.specs.Work.{work_after, solved_as, leaves};
ghost use Rattle.solve.specs.forms.Profile as P;

// Failed: there is no step. Short: the work is shorter than n (n + 3), and is as it was.
#[derive(Clone, Copy)]
pub enum SolveError {
    Failed,
    Short,
}

// ---- +0 in many places

// The m places from p on.
fn clear(w: &mut [f32], p: usize, m: usize)
    requires { p + m ≤ length w.old }
    ensures { w.new ≡ P.cleared_at w.old p m }
{
    w[p..p + m].fill(0.0);
}

// The rows of L, without the diagonal.
#[tactic(auto, using(profile::proofs::Index::line_within))]
fn clear_rows(w: &mut [f32], n: usize)
    requires { n * n ≤ length w.old }
    ensures { w.new ≡ P.cleared_rows w.old n n }
{
    for i in 0..n {
        clear(w, i * n, i);
    }
}

// All of L.
fn clear_lower(w: &mut [f32], n: usize)
    requires { need n ≤ length w.old }
    ensures { w.new ≡ work_after w.old n (P.step_of w.old n) }
{
    clear_rows(w, n);
    clear(w, n * n, n);
}

// ---- sums and tests

// v less the products of the numbers from p on and from q on, the k-th of each for k from a up to m.
fn less(w: &[f32], v: f32, p: usize, q: usize, a: usize, m: usize) -> f32
    requires { (p + m ≤ length w.now) × (q + m ≤ length w.now) }
    ensures { result ≡ P.less_at w.now v (p + a) (q + a) (m - a) }
{
    let mut s = v;
    for k in a..m {
        s -= w[p + k] * w[q + k];
    }
    s
}

// Above 0 and finite.
fn serves(p: f32) -> bool
    ensures { result ≡ R.serves p }
{
    0.0 < p && p.is_finite()
}

// Whether L(k,i) x(k) is left out of s: row k starts after i, so that it is ±0, and s is no zero.
fn left_out(f: &[usize; 384], i: usize, s: f32, k: usize) -> bool
    ensures { result ≡ P.left_out f.now i s k }
{
    i < profile::first_of(f, k) && s != 0.0
}

// ---- the factor and the substitutions, entry by entry: that i is below n is each entry's own

// A system of n unknowns in its work, and where its rows start.
#[derive(Drop)]
struct System<'a> {
    w: &'a mut [f32],
    n: usize,
    f: [usize; 384],
    ghost room: { need n ≤ length w.now },
}

impl<'a> System<'a> {
    ghost use Rattle.solve.specs.forms.Systems.{Same};

    // L(i,j), the next entry of row i, which stands from p on and starts at s.
    #[tactic(auto, using(profile::proofs::Index::line_within))]
    fn next_entry(&self, i: usize, j: usize, s: usize, p: usize) -> f32
        requires { (i < self.now.n) × (j < i) × (p ≡ i * self.now.n) }
        ensures { result ≡ P.next_entry self.now.w.now self.now.n self.now.f i j s }
    {
        let q = j * self.n;
        let v = self.w[q + i];
        let a = profile::start(v, s, profile::first_of(&self.f, j));
        less(self.w, v, p, q, a, j) / self.w[self.n * self.n + j]
    }

    // Row i of L below the diagonal, from its start s on.
    #[tactic(auto, using(profile::proofs::Index::line_within))]
    fn row_from(&mut self, i: usize, s: usize)
        requires { (i < self.old.n) × (s ≡ first_of self.old.f i) }
        ensures value { self.new.w.now ≡ P.row_from self.old.w.now self.old.n self.old.f i (i - s) }
        ensures same { Same self.old self.new }
    {
        let p = i * self.n;
        for j in s..i {
            self.w[p + j] = self.next_entry(i, j, s, p);
        }
    }

    // The pivot of row i, its products from a on.
    #[tactic(auto, using(profile::proofs::Index::line_within))]
    fn pivot_from(&self, damping: f32, i: usize, a: usize) -> f32
        requires { i < self.now.n }
        ensures { result ≡ P.pivot_from self.now.w.now self.now.n damping i a }
    {
        let p = i * self.n;
        less(self.w, self.w[p + i] + damping, p, p, a, i)
    }

    // L with its diagonal, row by row, up to a pivot that fails.
    fn factor(&mut self, damping: f32) -> Option<()>
        ensures value { (is_some result, self.new.w.now) ≡ P.rows_from self.old.w.now self.old.n self.old.f damping 0 self.old.n }
        ensures same { Same self.old self.new }
    {
        for i in 0..self.n {
            let s = profile::first_of(&self.f, i);
            self.row_from(i, s);
            let p = self.pivot_from(damping, i, s);
            self.w[self.n * self.n + i] = roots::sqrt32(p);
            if !serves(p) {
                return None;
            }
        }
        Some(())
    }

    // y(i)
    #[tactic(auto, using(profile::proofs::Index::line_within))]
    fn next_ahead(&self, i: usize) -> f32
        requires { i < self.now.n }
        ensures { result ≡ P.next_ahead self.now.w.now self.now.n self.now.f i }
    {
        let d = self.n * self.n;
        let g = d + self.n;
        let v = -self.w[g + i];
        let a = profile::start(v, profile::first_of(&self.f, i), 0);
        less(self.w, v, i * self.n, g + self.n, a, i) / self.w[d + i]
    }

    fn forward(&mut self)
        ensures value { self.new.w.now ≡ P.forward_from self.old.w.now self.old.n self.old.f self.old.n }
        ensures same { Same self.old self.new }
    {
        let x = self.n * self.n + self.n + self.n;
        for i in 0..self.n {
            self.w[x + i] = self.next_ahead(i);
        }
    }

    // s less L(k,i) x(k), where the step stands from x on
    #[tactic(auto, using(profile::proofs::Index::line_within))]
    fn next_below(&self, i: usize, s: f32, k: usize, x: usize) -> f32
        requires { (i < k) × (k < self.now.n) × (x ≡ self.now.n * self.now.n + self.now.n + self.now.n) }
        ensures { result ≡ P.next_below self.now.w.now self.now.n self.now.f i s k }
    {
        if left_out(&self.f, i, s, k) {
            return s;
        }
        s - self.w[k * self.n + i] * self.w[x + k]
    }

    // x(i): for all k after i.
    fn back_from(&self, i: usize, x: usize) -> f32
        requires { (i < self.now.n) × (x ≡ self.now.n * self.now.n + self.now.n + self.now.n) }
        ensures { result ≡ P.back_from self.now.w.now self.now.n self.now.f i }
    {
        let mut s = self.w[x + i];
        for k in i + 1..self.n {
            s = self.next_below(i, s, k, x);
        }
        s / self.w[self.n * self.n + i]
    }

    fn backward(&mut self)
        ensures value { self.new.w.now ≡ P.backward_from self.old.w.now self.old.n self.old.f self.old.n }
        ensures same { Same self.old self.new }
    {
        let x = self.n * self.n + self.n + self.n;
        for i in (0..self.n).rev() {
            self.w[x + i] = self.back_from(i, x);
        }
    }

    // Whether the step is finite.
    fn is_finite(&self) -> bool
        ensures { result ≡ every (λ i. finite (P.step_of self.now.w.now self.now.n i)) self.now.n }
    {
        let x = self.n * self.n + self.n + self.n;
        self.w[x..x + self.n].iter().all(|v| (*v).is_finite())
    }

    // The step, if there is one, in its places. L's places are left as they come.
    fn solve(&mut self, damping: f32) -> Option<()>
        ensures value { (is_some result, self.new.w.now) ≡ P.solved_from self.old.w.now self.old.n self.old.f damping }
        ensures same { Same self.old self.new }
    {
        self.factor(damping)?;
        self.forward();
        self.backward();
        self.is_finite().then_some(())
    }
}

// ---- the solve

// The same, of work that is lent.
fn solve_lent(w: &mut [f32], n: usize, f: [usize; 384], damping: f32) -> Option<()>
    requires { need n ≤ length w.old }
    ensures { (is_some result, w.new) ≡ P.solved_from w.old n f damping }
{
    let mut system = System { w, n, f };
    system.solve(damping)
}

// The work w holds a system of n unknowns: its step for the damping.
#[tactic(auto, using(crate::proofs::Close::room_by))]
pub fn solve_damped(w: &mut [f32], n: usize, damping: f32) -> Result<(), SolveError>
    ensures { (result ≡ solved_as w.old n damping) × (w.new ≡ leaves w.old n damping (solved_as w.old n damping)) }
{
    if !profile::has_room(w.len(), n) {
        return Err(SolveError::Short);
    }
    clear_lower(w, n);
    let f = profile::starts(w, n);
    let step = solve_lent(w, n, f, damping);
    if step.is_none() {
        clear(w, n * n + n + n, n);
    }
    clear_lower(w, n);
    step.ok_or(SolveError::Failed)
}
