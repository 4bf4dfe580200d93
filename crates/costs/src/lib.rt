// The transforms of poses kept in cells of eight numbers, and the cost of the active edges (sparse_pgo.rs).
#![tactic(auto)]

ghost use Rattle.std.specs.Prelude.{◌≡◌, ◌+◌, ◌*◌, ◌/◌, ◌<◌, ◌≤◌, length};
ghost use Rattle.numbers.specs.Walks.{each, well, only, made};
ghost use Rattle.graph.specs.Graph.{is_active};
ghost use Rattle.graph.specs.Lent.{pose_at, edge_at, links_lent};
ghost use Rattle.residual.specs.EdgeParts.{linked_of};
ghost use Rattle.costs.specs.Stowed.{eight_of, with_cell, stowing, stowed_from, stowed_in, known_poses, with_bases, base_in, Based};
ghost use Rattle.costs.specs.Costs.{square_step, priced, price_at, cost_of};

use exp_log::Twist;
use graph::{Edge, LentLinks};
use numbers::Failure;
use residual::Linked;
use rotations::Transform;

// Why a cost can't be had: the first bad edge among all edges, and what is wrong with it.
#[derive(Clone, Copy)]
pub struct BadEdge {
    pub edge: usize,
    pub why: Failure,
}

// ---- transforms stowed in numbers

// These are no array of Results: `stow`, `stowed`, `base_at` and the Jacobians' laws (`Cells`) promise what stands in lent numbers.

// The eight numbers of a cell: quaternion, translation, and whether it could be had.
fn eight_of(x: Result<Transform<f32>, Failure>) -> [f32; 8]
    ensures { result ≡ eight_of x }
{
    match x {
        Ok(a) => {
            let q = a.q;
            let t = a.t;
            [q.x, q.y, q.z, q.w, t.x, t.y, t.z, 1.0]
        }
        Err(_) => [0.0; 8],
    }
}

fn put_cell(l: &mut [f32], e: usize, x: Result<Transform<f32>, Failure>)
    requires { e * 8 + 8 ≤ length l.old }
    ensures { l.new ≡ with_cell l.old e x }
{
    let at = e * 8;
    slices::copy(&eight_of(x), &mut l[at..at + 8]);
}

// Cell e becomes x, where it is lent.
pub fn stow(l: &mut [f32], e: usize, x: Result<Transform<f32>, Failure>)
    ensures { l.new ≡ stowing l.old e x }
{
    if e < l.len() / 8 {
        put_cell(l, e, x);
    }
}

// What the eight numbers of a cell stand for.
pub fn stowed_from(cell: Edge) -> Result<Transform<f32>, Failure>
    ensures { result ≡ stowed_from cell }
{
    let a = cell.measured;
    if 0.0 < cell.weight {
        Ok(a)
    } else {
        Err(Failure::Numerical)
    }
}

// What cell e holds.
pub fn stowed(l: &[f32], e: usize) -> Result<Transform<f32>, Failure>
    ensures { result ≡ stowed_in l.now e }
{
    stowed_from(graph::edge_at(l, e))
}

// How many poses are lent, of the first 256.
pub fn known_poses(poses: &[f64]) -> usize
    ensures { result ≡ known_poses (length poses.now) }
{
    (poses.len() / 12).min(256)
}

// The first cells become the transforms of the first poses.
pub fn fill_bases(known: &mut [f32], poses: &[f64])
    ensures { known.new ≡ with_bases poses.now (known_poses (length poses.now)) known.old }
{
    for x in 0..known_poses(poses) {
        let p = graph::pose_at(poses, x);
        stow(known, x, pose_conversion::checked_pose_to_se3(p));
    }
}

// The transform of pose x: from its cell, if there is one.
pub fn base_at(
    known: &[f32],
    count: usize,
    poses: &[f64],
    x: usize,
) -> Result<Transform<f32>, Failure>
    ensures { result ≡ base_in known.now count poses.now x }
{
    if x < count {
        return stowed(known, x);
    }
    pose_conversion::checked_pose_to_se3(graph::pose_at(poses, x))
}

// Edge k, from pose a to pose b, by the transforms of the first `count` cells.
pub fn linked_at(
    known: &[f32],
    count: usize,
    poses: &[f64],
    edges: &[f32],
    a: usize,
    b: usize,
    k: usize,
) -> Result<Linked, Failure>
    ensures { result ≡ linked_of (base_in known.now count poses.now a) (base_in known.now count poses.now b) (edge_at edges.now k) }
{
    let from = base_at(known, count, poses, a);
    let to = base_at(known, count, poses, b);
    residual::linked_of(from, to, graph::edge_at(edges, k))
}

// ---- the cost

// c and the six squares, each sum finite.
fn add_squares(six: [f32; 6], c: f32) -> Result<f32, Failure>
    ensures { result ≡ made (well (each (square_step six) 6 c)) }
{
    let mut sum = c;
    for j in 0..6usize {
        let v = six[j];
        sum = sum + v * v;
        numbers::must_be_finite(sum)?;
    }
    Ok(sum)
}

// What a residual makes of a cost.
pub fn accumulate_edge_squared_cost(r: Result<Twist<f32>, Failure>, c: f32) -> Result<f32, Failure>
    ensures { result ≡ made (priced r c) }
{
    let d = r?;
    add_squares(residual::six_of(d), c)
}

// What edge k makes of a cost, an edge that is not active passed over.
fn active_edge_cost(
    known: &[f32],
    count: usize,
    poses: &[f64],
    links: LentLinks<'_>,
    k: usize,
    c: f32,
) -> Result<f32, Failure>
    requires { (k < length links.ends.now / 2) × Based poses.now known.now count }
    ensures { result ≡ made (only (is_active (links_lent links.entry) k)
        (price_at (links_lent links.entry) (pose_at poses.now) k) c) }
{
    let a = numbers::index_at(links.ends, k * 2);
    let b = numbers::index_at(links.ends, k * 2 + 1);
    let active = links.slot(a).is_some() | links.slot(b).is_some();
    if !active {
        return Ok(c);
    }
    accumulate_edge_squared_cost(
        residual::six_in(linked_at(known, count, poses, links.edges, a, b, k)),
        c,
    )
}

// The cost of the active edges, the poses' transforms being known.
fn cost_over(
    known: &[f32],
    count: usize,
    poses: &[f64],
    links: LentLinks<'_>,
) -> Result<f32, BadEdge>
    requires { Based poses.now known.now count }
    ensures { result ≡ cost_of (links_lent links.entry) (pose_at poses.now) }
{
    let mut c = 0.0f32;
    for k in 0..links.ends.len() / 2 {
        match active_edge_cost(known, count, poses, links, k, c) {
            Ok(more) => c = more,
            Err(why) => return Err(BadEdge { edge: k, why }),
        }
    }
    Ok(c)
}

// The cost of the active edges at the lent poses.
pub fn active_total_squared_residual_cost(
    poses: &[f64],
    links: LentLinks<'_>,
) -> Result<f32, BadEdge>
    ensures { result ≡ cost_of (links_lent links.entry) (pose_at poses.now) }
{
    let mut known = [0.0f32; 2048];
    fill_bases(&mut known, poses);
    cost_over(&known, known_poses(poses), poses, links)
}
