// The Jacobian of an edge for one of its ends: six rows of DOF numbers, from the cells in which an assembly keeps what it knows of the poses.
#![tactic(auto)]

ghost use Rattle.std.specs.Prelude.{◌≡◌, true, false, ◌+◌, ◌*◌, ◌<◌, ◌≤◌, length};
ghost use Rattle.graph.specs.Lent.{dof_of, edge_at};
ghost use Rattle.costs.specs.Stowed.{stowed_from};
ghost use Rattle.jacobians.specs.Jacobians.{slope, slope_vec, derivative, put_six};
ghost use Rattle.jacobians.specs.Cells.{spot, hinges_along, column_by, column_shared, jacobian_by, cells_of, first_probe, jacobian_at, jacobian_told};

use exp_log::{Both, Twist};
use graph::{Edge, Manifold};
use numbers::Failure;
use residual::{EdgeEndpoint, Hinge, Link};
use rotations::{Quat, Transform, Vec3};

// A Jacobian that can't be had: why, and the columns till then.
#[derive(Clone, Copy)]
pub struct BadJacobian {
    pub why: Failure,
    pub columns: [[f32; 6]; 6],
}

// What the quaternions p and q of an end's probes along axis c give; all shifts have one, which gives `shift`.
fn hinges_along(
    l: Link,
    end: EdgeEndpoint,
    shift: Hinge,
    c: usize,
    p: Quat<f64>,
    q: Quat<f64>,
) -> Both<Hinge>
    ensures { result ≡ hinges_along l end shift c p q }
{
    if c < 3 {
        return Both {
            ahead: shift,
            behind: shift,
        };
    }
    residual::hinges_of(l, end, p, q)
}

fn slope_of(p: f32, q: f32) -> f32
    ensures { result ≡ slope p q }
{
    (p - q) / (2.0 * probes::NUM_JACOBIAN_EPS)
}

fn slope_vec(p: Vec3<f32>, q: Vec3<f32>) -> Vec3<f32>
    ensures { result ≡ slope_vec p q }
{
    Vec3 {
        x: slope_of(p.x, q.x),
        y: slope_of(p.y, q.y),
        z: slope_of(p.z, q.z),
    }
}

// Each derivative must be finite.
fn derivative_of(p: Twist<f32>, q: Twist<f32>) -> Result<Twist<f32>, Failure>
    ensures { result ≡ derivative p q }
{
    let d = Twist {
        t: slope_vec(p.t, q.t),
        r: slope_vec(p.r, q.r),
    };
    residual::six_if_finite(d)
}

// The derivatives from both residuals; the probes of the two cells and the residuals are asked in turn.
fn column_by(
    ahead: Edge,
    behind: Edge,
    both: Both<Result<Twist<f32>, Failure>>,
) -> Result<Twist<f32>, Failure>
    ensures { result ≡ column_by (stowed_from ahead) both.ahead (stowed_from behind) both.behind }
{
    costs::stowed_from(ahead)?;
    let p = both.ahead?;
    costs::stowed_from(behind)?;
    let q = both.behind?;
    derivative_of(p, q)
}

// Cell e, all of which is lent, so that its length is not tested, unlike in `graph::edge_at`.
fn stowed_at(known: &[f32], e: usize) -> Edge
    requires { e * 8 + 8 ≤ length known.now }
    ensures { result ≡ edge_at known.now e }
{
    let at = e * 8;
    Edge {
        measured: Transform {
            q: Quat {
                x: known[at],
                y: known[at + 1],
                z: known[at + 2],
                w: known[at + 3],
            },
            t: Vec3 {
                x: known[at + 4],
                y: known[at + 5],
                z: known[at + 6],
            },
        },
        weight: known[at + 7],
    }
}

// The six derivatives along axis c, from the cells of pose x's probes: (r(+0.001) − r(−0.001)) / (2 × 0.001), all f32. Both residuals are worked out side
// by side, of a cell that holds nothing too, and asked after that.
fn column(
    known: &[f32],
    x: usize,
    l: Link,
    end: EdgeEndpoint,
    shift: Hinge,
    c: usize,
) -> Result<Twist<f32>, Failure>
    requires { (x < 256) × (c < 6) × (26624 ≤ length known.now) }
    ensures { result ≡ column_shared l end shift c (edge_at known.now (spot x c true)) (edge_at known.now (spot x c false)) }
{
    let ahead = stowed_at(known, 256 + (x * 12 + c));
    let behind = stowed_at(known, 256 + (x * 12 + (6 + c)));
    let a = rotations::widened(ahead.measured);
    let b = rotations::widened(behind.measured);
    let hinges = hinges_along(l, end, shift, c, a.q, b.q);
    column_by(
        ahead,
        behind,
        residual::residuals_at(l, end, hinges, a.t, b.t),
    )
}

// A column filled in, row by row.
fn put_six(j: &mut [[f32; 6]; 6], c: usize, d: Twist<f32>)
    requires { c < 6 }
    ensures { j.new ≡ put_six j.old c d }
{
    j[0][c] = d.t.x;
    j[1][c] = d.t.y;
    j[2][c] = d.t.z;
    j[3][c] = d.r.x;
    j[4][c] = d.r.y;
    j[5][c] = d.r.z;
}

// Filled column by column. `shift` is the hinge of all shifts.
fn columns(
    known: &[f32],
    x: usize,
    m: Manifold,
    l: Link,
    end: EdgeEndpoint,
    shift: Hinge,
) -> Result<[[f32; 6]; 6], BadJacobian>
    requires { (x < 256) × (26624 ≤ length known.now) }
    ensures { jacobian_told result ≡ jacobian_by (dof_of m) l end shift (cells_of known.now x) }
{
    let mut j = [[0.0f32; 6]; 6];
    let dof = graph::dof(m);
    for c in 0..dof {
        match column(known, x, l, end, shift, c) {
            Ok(d) => put_six(&mut j, c, d),
            Err(why) => return Err(BadJacobian { why, columns: j }),
        }
    }
    Ok(j)
}

// The first probe of pose x, if all cells are lent and it is one of the 256 poses.
fn first_probe(known: &[f32], x: usize) -> Result<Transform<f32>, Failure>
    ensures { result ≡ first_probe known.now x }
{
    if known.len() < 26624 {
        return Err(Failure::Numerical);
    }
    if 256 <= x {
        return Err(Failure::Numerical);
    }
    costs::stowed(known, 256 + x * 12)
}

// The first probe is asked first, as by the first column; its quaternion is that of all shifts.
pub fn edge_endpoint_jacobian(
    known: &[f32],
    x: usize,
    m: Manifold,
    l: Link,
    end: EdgeEndpoint,
) -> Result<[[f32; 6]; 6], BadJacobian>
    ensures { jacobian_told result ≡ jacobian_at known.now x (dof_of m) l end }
{
    let first = match first_probe(known, x) {
        Ok(t) => rotations::widened(t),
        Err(why) => {
            return Err(BadJacobian {
                why,
                columns: [[0.0f32; 6]; 6],
            });
        }
    };
    let shift = residual::hinge_of(l, end, first.q);
    columns(known, x, m, l, end, shift)
}
