// Whether a joined scan may be printed: the measures and tests of pose_graph.rs, over any edges and any poses (document 02, Wish 2).
#![tactic(auto)]

ghost use Rattle.std.specs.Prelude.{◌≡◌, ◌/◌, ◌<◌, ◌^◌, [], length};
ghost use Rattle.std.specs.Float.Ieee.{lt};
ghost use Rattle.numbers.specs.Notation.{if_then};
ghost use Rattle.graph.specs.Lent.{pose_at};
ghost use Rattle.checks.specs.Input.{lent_graph};
ghost use Rattle.printable.specs.Measures.{edge_residual, squares_of, with_squares, pose_graph_cost, residual_norm, last_residual, measures_of};
ghost use Rattle.printable.specs.Measures.{gravity_cosine, gravity_kept, smallest_cosine, cosine_of};
ghost use Rattle.printable.specs.Printing.{usable, printing, finite_measures};

use exp_log::Twist;
use graph::Manifold;
use numbers::Failure;
use rotations::{Pose, Vec3};

const LEAST_COSINE: f64 = 0.999999995;

// The cost of all edges and the length of the last edge's residual, before a run and after it.
#[derive(Clone, Copy)]
pub struct Measures {
    pub initial_cost: f64,
    pub final_cost: f64,
    pub new_loop_residual_before: f64,
    pub new_loop_residual_after: f64,
}

// Whether it may be printed; else the first test that fails, with what it compared: iterations and limit, the smallest cosine, before and after.
// A no is an answer that is told like the yes, and nobody goes on without it: so this is no Result.
#[derive(Clone, Copy)]
pub enum Printable {
    Yes,
    NoResidual,
    NotConverged(u32, u32),
    Tipped(f64),
    CostKept(f64, f64),
    LastWorse(f64, f64),
}

// ---- edges: of one graph at two lists of poses, so that poses, ends and edges are no one thing here

fn weighted_edge_residual(
    poses: &[f64],
    ends: &[u32],
    edges: &[f32],
    k: usize,
) -> Result<Twist<f32>, Failure>
    requires { k < 2 ^ 62 }
    ensures { result ≡ edge_residual (lent_graph [] ends.now edges.now []) (pose_at poses.now) k }
{
    let a = numbers::index_at(ends, k * 2);
    let b = numbers::index_at(ends, k * 2 + 1);
    residual::weighted_relative_residual(
        graph::pose_at(poses, a),
        graph::pose_at(poses, b),
        graph::edge_at(edges, k),
    )
}

// The sum of six squares.
fn residual_squared(d: Twist<f32>) -> f64
    ensures { result ≡ squares_of d }
{
    let six = residual::six_of(d);
    let mut sum = 0.0f64;
    for x in &six {
        let v = f64::from(*x);
        sum = sum + v * v;
    }
    sum
}

fn add_residual(r: Result<Twist<f32>, Failure>, sum: f64) -> f64
    ensures { result ≡ with_squares r sum }
{
    match r {
        Ok(d) => sum + residual_squared(d),
        Err(_) => sum,
    }
}

// Half the sum over all edges that have a residual.
pub fn pose_graph_cost(poses: &[f64], ends: &[u32], edges: &[f32]) -> f64
    ensures { result ≡ pose_graph_cost (lent_graph [] ends.now edges.now []) (pose_at poses.now) }
{
    let mut sum = 0.0f64;
    for k in 0..ends.len() / 2 {
        sum = add_residual(weighted_edge_residual(poses, ends, edges, k), sum);
    }
    0.5 * sum
}

fn residual_norm(r: Result<Twist<f32>, Failure>) -> f64
    ensures { result ≡ residual_norm r }
{
    match r {
        Ok(d) => roots::sqrt64(residual_squared(d)),
        Err(_) => f64::NAN,
    }
}

// The last edge's; a NaN where it has no residual.
pub fn last_residual_norm(poses: &[f64], ends: &[u32], edges: &[f32]) -> f64
    ensures { result ≡ last_residual (lent_graph [] ends.now edges.now []) (pose_at poses.now) }
{
    let k = (ends.len() / 2).saturating_sub(1);
    residual_norm(weighted_edge_residual(poses, ends, edges, k))
}

// Of the same edges at two lists of poses.
pub fn measures_at(before: &[f64], after: &[f64], ends: &[u32], edges: &[f32]) -> Measures
    ensures { result ≡ measures_of (lent_graph [] ends.now edges.now []) (pose_at before.now) (pose_at after.now) }
{
    Measures {
        initial_cost: pose_graph_cost(before, ends, edges),
        final_cost: pose_graph_cost(after, ends, edges),
        new_loop_residual_before: last_residual_norm(before, ends, edges),
        new_loop_residual_after: last_residual_norm(after, ends, edges),
    }
}

// ---- gravity

fn gravity_cosine(g: Vec3<f64>, before: Pose, after: Pose) -> f64
    ensures { result ≡ gravity_cosine g before after }
{
    let a = rotations::unit_vec(rotations::turn_vec(before.rotation, g));
    let b = rotations::unit_vec(rotations::turn_vec(after.rotation, g));
    rotations::dot_of(a, b)
}

// Not `f64::min`, which would pass over a NaN of the other side.
fn smaller(cosine: f64, least: f64) -> f64
    ensures { result ≡ if_then (lt cosine least) cosine least }
{
    if cosine < least { cosine } else { least }
}

// Gravity of unit length; as many poses as there are before.
fn smallest_cosine(g: Vec3<f64>, before: &[f64], after: &[f64]) -> f64
    ensures { result ≡ smallest_cosine g (length before.now / 12) (pose_at before.now) (pose_at after.now) }
{
    let mut least = 1.0f64;
    for x in 0..before.len() / 12 {
        let cosine = gravity_cosine(g, graph::pose_at(before, x), graph::pose_at(after, x));
        least = smaller(cosine, least);
    }
    least
}

// The smallest cosine between gravity before and after in any camera's frame (of the Rust's largest angle); 1 without gravity.
pub fn min_gravity_cosine(m: Manifold, before: &[f64], after: &[f64]) -> f64
    ensures { result ≡ cosine_of m (length before.now / 12) (pose_at before.now) (pose_at after.now) }
{
    match m {
        Manifold::Se3 => 1.0,
        Manifold::Gravity(g) => smallest_cosine(rotations::unit_vec(g), before, after),
    }
}

pub fn gravity_preserved(m: Manifold, before: &[f64], after: &[f64]) -> bool
    ensures { result ≡ gravity_kept m (length before.now / 12) (pose_at before.now) (pose_at after.now) }
{
    !(min_gravity_cosine(m, before, after) < LEAST_COSINE)
}

// ---- may it be printed

fn metrics_finite(m: Measures) -> bool
    ensures { result ≡ finite_measures m }
{
    m.initial_cost.is_finite()
        & (m.final_cost.is_finite()
            & (m.new_loop_residual_before.is_finite() & m.new_loop_residual_after.is_finite()))
}

pub fn is_usable(converged: bool, preserved: bool, m: Measures) -> bool
    ensures { result ≡ usable converged preserved m }
{
    converged
        & (metrics_finite(m)
            & (preserved
                & ((m.final_cost < m.initial_cost)
                    & (m.new_loop_residual_after <= m.new_loop_residual_before))))
}

// The first test that fails.
pub fn may_be_printed(
    converged: bool,
    iterations: u32,
    limit: u32,
    cosine: f64,
    m: Measures,
) -> Printable
    ensures { result ≡ printing converged iterations limit cosine m }
{
    if !metrics_finite(m) {
        return Printable::NoResidual;
    }
    if !converged {
        return Printable::NotConverged(iterations, limit);
    }
    if cosine < LEAST_COSINE {
        return Printable::Tipped(cosine);
    }
    if !(m.final_cost < m.initial_cost) {
        return Printable::CostKept(m.initial_cost, m.final_cost);
    }
    if !(m.new_loop_residual_after <= m.new_loop_residual_before) {
        return Printable::LastWorse(m.new_loop_residual_before, m.new_loop_residual_after);
    }
    Printable::Yes
}
