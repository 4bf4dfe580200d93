// Assembly: the gradient and the lower triangle of the Hessian of the active edges (build_normal_system_with_mapping).
// The system of n unknowns stands in solve's layout: H(i,j), j ≤ i, at j n + i; the gradient at n n + n + i.
#![tactic(auto)]

ghost use Rattle.std.specs.Prelude.{◌≡◌, ◌+◌, ◌*◌, ◌/◌, ◌^◌, ◌<◌, ◌≤◌, length};
ghost use Rattle.numbers.specs.Walks.{each, made};
ghost use Rattle.profile.specs.Layout.{need};
ghost use Rattle.additions.specs.Additions.{lower_triangle};
ghost use Rattle.graph.specs.Lent.{dof_of, pose_at, edge_at, links_lent};
ghost use Rattle.jacobians.specs.FromProbes.{SharesTurn};
ghost use Rattle.jacobians.specs.Cells.{stowed_probes, jacobian_at};
ghost use Rattle.assembly.specs.Assembly.{edge_step, assembled_from, assembled_of};
ghost use Rattle.assembly.specs.FromParts.{one_in, both_in};
ghost use Rattle.assembly.specs.Known.{Axis, Probed, Posed, Ready, Shaped};
ghost use Rattle.pose_conversion.specs.Conversions.{checked_transform};
ghost use Rattle.residual.specs.EdgeParts.{linked_of};
ghost use Rattle.costs.specs.Stowed.{known_poses, Based};
ghost use Rattle.probes.specs.Probes.{probes_of};
ghost use Rattle.probes.specs.Stances.{probing_of, probe_by};

use graph::{LentLinks, Manifold};
use numbers::Failure;
use probes::{Probing, Stance};
use residual::{EdgeEndpoint, Link, Linked};

// Why a system can't be had: the first bad edge among all edges, and what is wrong with it; or the work is too short.
#[derive(Clone, Copy)]
pub enum AssemblyError {
    BadEdge { edge: usize, why: Failure },
    Short,
}

// What is solved for: n is DOF × free.
#[derive(Clone, Copy)]
struct Shape {
    manifold: Manifold,
    n: usize,
}

// ---- what is known of each pose: its transform, and of a free pose its probes

// `known` is one array of 26,624 numbers, lent as a slice, since costs and jacobians promise for slices of any length; x is one of its 256 poses. Neither is
// a struct: each function asks just what its own indexes need.

fn fill_axis(known: &mut [f32], stance: Result<Stance, Failure>, x: usize, c: usize)
    requires { (x < 256) × (c < 6) × (length known.old ≡ 26624) }
    ensures { Axis (probe_by stance) x c known.old known.new }
{
    let probes = probes::probes_at(stance, c);
    costs::stow(known, 256 + (x * 12 + c), probes.ahead);
    costs::stow(known, 256 + (x * 12 + (6 + c)), probes.behind);
}

fn fill_probes(known: &mut [f32], stance: Result<Stance, Failure>, dof: usize, x: usize)
    requires { (x < 256) × (dof ≤ 6) × (length known.old ≡ 26624) }
    ensures { Probed (probe_by stance) x dof known.old known.new }
{
    for c in 0..dof {
        fill_axis(known, stance, x, c);
    }
}

// The probes of a pose that is not free are not asked for.
fn fill_pose(
    known: &mut [f32],
    m: Manifold,
    probing: Probing,
    poses: &[f64],
    slot: Option<usize>,
    x: usize,
)
    requires { (x < 256) × (probing ≡ probing_of m) × (length known.old ≡ 26624) × Based poses.now known.old (known_poses (length poses.now)) }
    ensures { Posed slot (probes_of m (pose_at poses.now x)) x (dof_of m) known.old known.new }
{
    if let Some(_) = slot {
        let base = costs::base_at(known, costs::known_poses(poses), poses, x);
        let stance = probes::stance_of(probing, graph::pose_at(poses, x), base);
        fill_probes(known, stance, graph::dof(m), x);
    }
}

fn fill(known: &mut [f32], m: Manifold, poses: &[f64], links: LentLinks<'_>)
    requires { length known.old ≡ 26624 }
    ensures { Ready m poses.now (links_lent links.entry).slot known.new 256 }
{
    costs::fill_bases(known, poses);
    let probing = probes::probing_of(m);
    for x in 0..256usize {
        let slot = links.slot(x);
        fill_pose(known, m, probing, poses, slot, x);
    }
}

// ---- edges

// Edge k between poses a and b, with its residual.
fn link(
    known: &[f32],
    poses: &[f64],
    edges: &[f32],
    a: usize,
    b: usize,
    k: usize,
) -> Result<Linked, Failure>
    requires { Based poses.now known.now (known_poses (length poses.now)) }
    ensures { result ≡ linked_of (checked_transform (pose_at poses.now a)) (checked_transform (pose_at poses.now b)) (edge_at edges.now k) }
{
    costs::linked_at(known, costs::known_poses(poses), poses, edges, a, b, k)
}

// The Jacobian of an end, or why it can't be had.
fn jacobian(
    known: &[f32],
    x: usize,
    m: Manifold,
    l: Link,
    end: EdgeEndpoint,
) -> Result<[[f32; 6]; 6], Failure>
    ensures { result ≡ made (jacobian_at known.now x (dof_of m) l end) }
{
    jacobians::edge_endpoint_jacobian(known, x, m, l, end).map_err(|bad| bad.why)
}

// An edge whose one free end is pose x.
fn add_one(
    w: &mut [f32],
    n: usize,
    m: Manifold,
    known: &[f32],
    x: usize,
    linked: Result<Linked, Failure>,
    end: EdgeEndpoint,
    block: usize,
) -> Result<(), Failure>
    requires { (block * dof_of m + dof_of m ≤ n) × (x < 256) × (length known.now ≡ 26624) × SharesTurn (stowed_probes known.now x)
        × (need n ≤ length w.old) }
    ensures { (result, w.new) ≡ one_in (dof_of m) n (stowed_probes known.now x) linked end block w.old }
{
    let edge = linked?;
    let r = residual::six_of(edge.six);
    let j = jacobian(known, x, m, edge.link, end)?;
    additions::add_end(w, n, graph::dof(m), block, &j, &r)
}

// An edge with two free ends.
fn add_both(
    w: &mut [f32],
    n: usize,
    m: Manifold,
    known: &[f32],
    a: usize,
    b: usize,
    linked: Result<Linked, Failure>,
    i: usize,
    k: usize,
) -> Result<(), Failure>
    requires { (i * dof_of m + dof_of m ≤ n) × (k * dof_of m + dof_of m ≤ n) × (a < 256) × (b < 256) × (length known.now ≡ 26624)
        × SharesTurn (stowed_probes known.now a) × SharesTurn (stowed_probes known.now b) × (need n ≤ length w.old) }
    ensures { (result, w.new) ≡ both_in (dof_of m) n (stowed_probes known.now a) (stowed_probes known.now b) linked i k w.old }
{
    let edge = linked?;
    let r = residual::six_of(edge.six);
    let ja = jacobian(known, a, m, edge.link, EdgeEndpoint::A)?;
    let jb = jacobian(known, b, m, edge.link, EdgeEndpoint::B)?;
    additions::add_ends(w, n, graph::dof(m), i, k, &ja, &jb, &r)
}

// What edge k adds, by which of its ends are free; nothing if it is not active.
fn add_edge(
    w: &mut [f32],
    shape: Shape,
    known: &[f32],
    poses: &[f64],
    links: LentLinks<'_>,
    k: usize,
) -> Result<(), Failure>
    requires { Shaped shape poses.now links known.now × (need shape.n ≤ length w.old) × (k < 2 ^ 62) }
    ensures { (result, w.new) ≡ edge_step lower_triangle shape.manifold shape.n
        (links_lent links.entry) (pose_at poses.now) k w.old }
{
    let m = shape.manifold;
    let a = numbers::index_at(links.ends, k * 2);
    let b = numbers::index_at(links.ends, k * 2 + 1);
    let sa = links.slot(a);
    let sb = links.slot(b);
    match sa {
        None => match sb {
            None => Ok(()),
            Some(j) => {
                let linked = link(known, poses, links.edges, a, b, k);
                add_one(w, shape.n, m, known, b, linked, EdgeEndpoint::B, j)
            }
        },
        Some(i) => {
            let linked = link(known, poses, links.edges, a, b, k);
            match sb {
                None => add_one(w, shape.n, m, known, a, linked, EdgeEndpoint::A, i),
                Some(j) => add_both(w, shape.n, m, known, a, b, linked, i, j),
            }
        }
    }
}

// All edges in order, up to the first bad one.
fn add_edges(
    w: &mut [f32],
    shape: Shape,
    known: &[f32],
    poses: &[f64],
    links: LentLinks<'_>,
) -> Result<(), AssemblyError>
    requires { Shaped shape poses.now links known.now × (need shape.n ≤ length w.old) }
    ensures { (result, w.new) ≡ assembled_from (each (edge_step lower_triangle shape.manifold shape.n
        (links_lent links.entry) (pose_at poses.now)) (length links.entry.ends.now / 2) w.old) }
{
    for k in 0..links.ends.len() / 2 {
        if let Err(why) = add_edge(w, shape, known, poses, links, k) {
            return Err(AssemblyError::BadEdge { edge: k, why });
        }
    }
    Ok(())
}

// The same, with what they ask of the poses worked out first, once.
fn add_all(
    w: &mut [f32],
    shape: Shape,
    poses: &[f64],
    links: LentLinks<'_>,
) -> Result<(), AssemblyError>
    requires { (shape.n ≡ dof_of shape.manifold * links.free) × (links.free ≤ 4294967295) × (length links.blocks.now ≡ 256)
        × (need shape.n ≤ length w.old) }
    ensures { (result, w.new) ≡ assembled_from (each (edge_step lower_triangle shape.manifold shape.n
        (links_lent links.entry) (pose_at poses.now)) (length links.entry.ends.now / 2) w.old) }
{
    let m = shape.manifold;
    let mut known = [0.0f32; 26624];
    fill(&mut known, m, poses, links);
    add_edges(w, shape, &known, poses, links)
}

// The blocks lent are 256, which the code after it relies on: an array's length is known where it is taken as a slice.
fn count_blocks(blocks: &[u32; 256]) -> usize
    ensures { length blocks.now ≡ 256 }
{
    let all = &blocks[..];
    all.len()
}

// Gradient and lower triangle of the Hessian, from +0, in the work of dof × free unknowns.
pub fn build_normal_system_with_mapping(
    w: &mut [f32],
    m: Manifold,
    poses: &[f64],
    links: LentLinks<'_>,
) -> Result<(), AssemblyError>
    ensures { (result, w.new) ≡ assembled_of m (dof_of m * links.entry.free) (links_lent links.entry) (pose_at poses.now) w.old }
{
    let n = graph::dof(m) * (links.free as usize);
    if !profile::has_room(w.len(), n) {
        return Err(AssemblyError::Short);
    }
    slices::clear(&mut w[..n * (n + 3)]);
    count_blocks(links.blocks);
    let shape = Shape { manifold: m, n };
    add_all(w, shape, poses, links)
}
