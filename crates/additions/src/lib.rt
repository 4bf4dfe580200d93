// What an edge adds to the gradient and to the lower triangle of the Hessian, in the work of n unknowns.
// The system stands in solve's layout: H(i,j), j ≤ i, at j n + i; the gradient at n n + n + i.
#![tactic(auto)]

ghost use Rattle.std.specs.Prelude.{◌≡◌, ◌&&◌, ◌+◌, ◌*◌, ◌<◌, ◌≤◌, length};
ghost use Rattle.numbers.specs.Walks.{only};
ghost use Rattle.profile.specs.Layout.{need};
ghost use Rattle.additions.specs.Additions.{fits, dot_of, dot_with, add_to, gradient_added, lower_triangle, entry_added, row_added, block_added};
ghost use Rattle.additions.specs.Additions.{end_added, cross_added, ends_added};

use numbers::Failure;

// Column i of a times column j of b: six products in residual order, from +0.
fn dot(a: &[[f32; 6]; 6], i: usize, b: &[[f32; 6]; 6], j: usize) -> f32
    requires { (i < 6) × (j < 6) }
    ensures { result ≡ dot_of a.now i b.now j }
{
    let mut s: f32 = 0.0;
    for k in 0..6usize {
        s = s + a[k][i] * b[k][j];
    }
    s
}

// Column i of a times a residual.
fn dot_with(a: &[[f32; 6]; 6], i: usize, r: &[f32; 6]) -> f32
    requires { i < 6 }
    ensures { result ≡ dot_with a.now i r.now }
{
    let mut s: f32 = 0.0;
    for k in 0..6usize {
        s = s + a[k][i] * r[k];
    }
    s
}

// v is added to the number at a place, which must be finite then.
fn add_to(w: &mut [f32], at: usize, v: f32) -> Result<(), Failure>
    requires { at < length w.old }
    ensures { (result, w.new) ≡ add_to w.old at v }
{
    let s = w[at] + v;
    w[at] = s;
    numbers::must_be_finite(s)
}

// A pose's gradient, in the part of the work that starts at its block.
fn accumulate_gradient(
    part: &mut [f32],
    dof: usize,
    j: &[[f32; 6]; 6],
    r: &[f32; 6],
) -> Result<(), Failure>
    requires { (dof ≤ 6) × (dof ≤ length part.old) }
    ensures { (result, part.new) ≡ gradient_added dof j.now r.now part.old }
{
    for c in 0..dof {
        add_to(part, c, dot_with(j, c, r))?;
    }
    Ok(())
}

// A system of n unknowns in its work, dof of them a pose. What is called from several places is inlined always: a call would put the fields into memory, and
// each number that is stored in w would have the loops read them again.
#[derive(Drop)]
struct System<'a> {
    w: &'a mut [f32],
    n: usize,
    dof: usize,
    ghost room: { (need n ≤ length w.now) × (dof ≤ 6) },
}

impl<'a> System<'a> {
    ghost use Rattle.additions.specs.Systems.{Same};

    // One entry of the Hessian, if it stands in the lower triangle.
    fn add_entry(
        &mut self,
        row: usize,
        col: usize,
        jr: &[[f32; 6]; 6],
        r: usize,
        jc: &[[f32; 6]; 6],
        c: usize,
    ) -> Result<(), Failure>
        requires { (row < self.old.n) × (col < self.old.n) × (r < 6) × (c < 6) }
        ensures value { (result, self.new.w.now) ≡ entry_added lower_triangle self.old.n row col jr.now r jc.now c self.old.w.now }
        ensures same { Same self.old self.new }
    {
        let above = row < col;
        if above {
            return Ok(());
        }
        let v = dot(jr, r, jc, c);
        add_to(self.w, col * self.n + row, v)
    }

    // Row r of the block of rows rb and columns cb.
    fn accumulate_row(
        &mut self,
        rb: usize,
        cb: usize,
        jr: &[[f32; 6]; 6],
        jc: &[[f32; 6]; 6],
        r: usize,
    ) -> Result<(), Failure>
        requires { (rb * self.old.dof + self.old.dof ≤ self.old.n) × (cb * self.old.dof + self.old.dof ≤ self.old.n) × (r < self.old.dof) }
        ensures value { (result, self.new.w.now) ≡ row_added lower_triangle self.old.n self.old.dof rb cb jr.now jc.now r self.old.w.now }
        ensures same { Same self.old self.new }
    {
        for c in 0..self.dof {
            self.add_entry(rb * self.dof + r, cb * self.dof + c, jr, r, jc, c)?;
        }
        Ok(())
    }

    // The block of rows rb and columns cb, row by row.
    #[inline(always)]
    fn accumulate_hessian(
        &mut self,
        rb: usize,
        cb: usize,
        jr: &[[f32; 6]; 6],
        jc: &[[f32; 6]; 6],
    ) -> Result<(), Failure>
        requires { (rb * self.old.dof + self.old.dof ≤ self.old.n) × (cb * self.old.dof + self.old.dof ≤ self.old.n) }
        ensures value { (result, self.new.w.now) ≡ block_added lower_triangle self.old.n self.old.dof rb cb jr.now jc.now self.old.w.now }
        ensures same { Same self.old self.new }
    {
        for r in 0..self.dof {
            self.accumulate_row(rb, cb, jr, jc, r)?;
        }
        Ok(())
    }

    // A free end: its part of the gradient, then its block on the diagonal.
    #[inline(always)]
    fn end_within(&mut self, b: usize, j: &[[f32; 6]; 6], r: &[f32; 6]) -> Result<(), Failure>
        requires { b * self.old.dof + self.old.dof ≤ self.old.n }
        ensures value { (result, self.new.w.now) ≡ end_added lower_triangle self.old.n self.old.dof b j.now r.now self.old.w.now }
        ensures same { Same self.old self.new }
    {
        let at = self.n * self.n + self.n + b * self.dof;
        accumulate_gradient(&mut self.w[at..], self.dof, j, r)?;
        self.accumulate_hessian(b, b, j, j)
    }

    // The cross block stands below the diagonal: where a's block is smaller, rows come from b's Jacobian.
    fn add_cross(
        &mut self,
        ba: usize,
        bb: usize,
        ja: &[[f32; 6]; 6],
        jb: &[[f32; 6]; 6],
    ) -> Result<(), Failure>
        requires { (ba * self.old.dof + self.old.dof ≤ self.old.n) × (bb * self.old.dof + self.old.dof ≤ self.old.n) }
        ensures value { (result, self.new.w.now) ≡ cross_added lower_triangle self.old.n self.old.dof ba bb ja.now jb.now self.old.w.now }
        ensures same { Same self.old self.new }
    {
        if ba < bb {
            return self.accumulate_hessian(bb, ba, jb, ja);
        }
        self.accumulate_hessian(ba, bb, ja, jb)
    }

    // Two free ends: a, then b, then the cross block.
    fn ends_within(
        &mut self,
        i: usize,
        k: usize,
        ja: &[[f32; 6]; 6],
        jb: &[[f32; 6]; 6],
        r: &[f32; 6],
    ) -> Result<(), Failure>
        requires { (i * self.old.dof + self.old.dof ≤ self.old.n) × (k * self.old.dof + self.old.dof ≤ self.old.n) }
        ensures value { (result, self.new.w.now) ≡ ends_added lower_triangle self.old.n self.old.dof i k ja.now jb.now r.now self.old.w.now }
        ensures same { Same self.old self.new }
    {
        self.end_within(i, ja, r)?;
        self.end_within(k, jb, r)?;
        self.add_cross(i, k, ja, jb)
    }
}

// Whether block b of dof unknowns stands within the n unknowns, and `len` numbers have room for them.
fn block_fits(len: usize, n: usize, dof: usize, b: usize) -> bool
    ensures { result ≡ fits n dof b len }
{
    if !profile::has_room(len, n) {
        return false;
    }
    if 6 < dof {
        return false;
    }
    if n < b {
        return false;
    }
    b * dof + dof <= n
}

// What a free end adds; nothing, where its block stands outside the system.
pub fn add_end(
    w: &mut [f32],
    n: usize,
    dof: usize,
    b: usize,
    j: &[[f32; 6]; 6],
    r: &[f32; 6],
) -> Result<(), Failure>
    ensures { (result, w.new) ≡ only (fits n dof b (length w.old)) (end_added lower_triangle n dof b j.now r.now) w.old }
{
    if !block_fits(w.len(), n, dof, b) {
        return Ok(());
    }
    let mut system = System { w, n, dof };
    system.end_within(b, j, r)
}

// What two free ends add; nothing, where a block stands outside the system.
pub fn add_ends(
    w: &mut [f32],
    n: usize,
    dof: usize,
    i: usize,
    k: usize,
    ja: &[[f32; 6]; 6],
    jb: &[[f32; 6]; 6],
    r: &[f32; 6],
) -> Result<(), Failure>
    ensures { (result, w.new) ≡ only (fits n dof i (length w.old) && fits n dof k (length w.old))
        (ends_added lower_triangle n dof i k ja.now jb.now r.now) w.old }
{
    if !block_fits(w.len(), n, dof, i) {
        return Ok(());
    }
    if !block_fits(w.len(), n, dof, k) {
        return Ok(());
    }
    let mut system = System { w, n, dof };
    system.ends_within(i, k, ja, jb, r)
}
