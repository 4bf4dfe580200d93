// A scan and the graph that is built of it (pose_graph.rs; document 02, Wish 2): rows 33 and 34, which keyframe an id means, the chain's edges and the loops'.
#![tactic(auto)]

ghost use Rattle.std.specs.Prelude.{◌≡◌, [], ◌∷◌, ◌++◌, ◌+◌, ◌-◌, ◌*◌, ◌/◌, ◌<◌, ◌≤◌, ◌^◌, min, length, take, drop, replicate};
ghost use Rattle.numbers.specs.Notation.{num};
ghost use Rattle.numbers.specs.Refusals.{verdict, says, lowest};
ghost use Rattle.numbers.specs.Walks.{strung};
ghost use Rattle.scans.specs.Scans.{node_of, candidate_node, query_node, node_number, inverse_pose, pose_product};
ghost use Rattle.scans.specs.Scans.{between as Scans·between, chain_edge, loop_edge, scan_edge, scan_ends, edge_numbers};
ghost use Rattle.scans.specs.ScanRows.{unfit_scan, loop_faults, scan_rows};

use graph::Edge;
use numbers::Refusal;
use rotations::Pose;

// One edge more than a run takes. No more are built: rows 1 to 3 do not look at them, and row 3 refuses that many.
const MOST_BUILT: usize = 1025;

// ---- which keyframe an id means, by its number

// That k is below 2^62 lets 2 k + 1 be worked out; it is a bound of an index, not a fact of a scan that a struct would keep.

// The last of equal ids.
fn node_of(ids: &[u32], id: usize) -> Option<usize>
    ensures { result ≡ node_of ids.now id }
{
    for k in (0..ids.len()).rev() {
        if ids[k] as usize == id {
            return Some(k);
        }
    }
    None
}

// The candidate's and the query's, of loop k.
fn loop_nodes(ids: &[u32], loops: &[u32], k: usize) -> (Option<usize>, Option<usize>)
    requires { k < 2 ^ 62 }
    ensures { (result.0 ≡ candidate_node ids.now loops.now k) × (result.1 ≡ query_node ids.now loops.now k) }
{
    let candidate = node_of(ids, numbers::index_at(loops, k * 2));
    let query = node_of(ids, numbers::index_at(loops, k * 2 + 1));
    (candidate, query)
}

// ---- rows 33 and 34

fn unfit_scan(ids: usize, poses: usize, loops: usize, loop_poses: usize, original: usize) -> bool
    ensures { result ≡ unfit_scan ids poses loops loop_poses original }
{
    let unfit_poses = poses % 12 != 0 || poses / 12 != ids;
    let unfit_loops = loops % 2 != 0 || loop_poses % 6 != 0 || loop_poses / 6 != loops;
    ids < 2 || unfit_poses || unfit_loops || original != poses
}

fn loop_34(ids: &[u32], loops: &[u32], k: usize) -> Result<(), Refusal>
    requires { k < 2 ^ 62 }
    ensures { result ≡ says (loop_faults ids.now loops.now) k }
{
    let (candidate, query) = loop_nodes(ids, loops, k);
    numbers::ask(candidate.is_none() || query.is_none(), 34, k)
}

// Row 34.
fn loop_rows(ids: &[u32], loops: &[u32]) -> Result<(), Refusal>
    ensures { result ≡ lowest (loop_faults ids.now loops.now) (length loops.now / 2) }
{
    for k in 0..loops.len() / 2 {
        loop_34(ids, loops, k)?;
    }
    Ok(())
}

// Rows 33 and 34, of ids, loops and the lengths of the rest.
pub fn validate_scan(
    ids: &[u32],
    poses: usize,
    loops: &[u32],
    loop_poses: usize,
    original: usize,
) -> Result<(), Refusal>
    ensures { result ≡ verdict (scan_rows ids.now poses loops.now loop_poses original) }
{
    let unfit = unfit_scan(ids.len(), poses, loops.len(), loop_poses, original);
    numbers::ask(unfit, 33, 0)?;
    loop_rows(ids, loops)
}

// ---- edges

fn inverse_pose(p: Pose) -> Pose
    ensures { result ≡ inverse_pose p }
{
    let back = rotations::transposed(p.rotation);
    Pose {
        rotation: back,
        translation: rotations::negated(rotations::turn_vec(back, p.translation)),
    }
}

fn pose_product(b: Pose, p: Pose) -> Pose
    ensures { result ≡ pose_product b p }
{
    Pose {
        rotation: rotations::mat_product(b.rotation, p.rotation),
        translation: rotations::sum_of(
            rotations::turn_vec(b.rotation, p.translation),
            b.translation,
        ),
    }
}

// The pose from an earlier keyframe to a later one: later · earlier⁻¹, in f64.
pub fn between(earlier: Pose, later: Pose) -> Pose
    ensures { result ≡ Scans·between earlier later }
{
    pose_product(later, inverse_pose(earlier))
}

fn chain_edge(poses: &[f64], k: usize) -> Edge
    requires { k < 2 ^ 62 }
    ensures { result ≡ chain_edge poses.now k }
{
    let p = between(graph::pose_at(poses, k), graph::pose_at(poses, k + 1));
    Edge {
        measured: pose_conversion::pose_to_se3(p),
        weight: 1.0,
    }
}

fn loop_edge(loop_poses: &[f64], weight: f32, k: usize) -> Edge
    ensures { result ≡ loop_edge loop_poses.now weight k }
{
    Edge {
        measured: pose_conversion::pose_to_se3(graph::pose_at(loop_poses, k)),
        weight,
    }
}

// Edge k, where the first `chain` are the chain's.
fn scan_edge(chain: usize, poses: &[f64], loop_poses: &[f64], weight: f32, k: usize) -> Edge
    requires { k < 2 ^ 62 }
    ensures { result ≡ scan_edge chain poses.now loop_poses.now weight k }
{
    if k < chain {
        return chain_edge(poses, k);
    }
    loop_edge(loop_poses, weight, k - chain)
}

fn edge_numbers(e: Edge) -> [f32; 8]
    ensures { result ≡ edge_numbers e }
{
    let q = e.measured.q;
    let t = e.measured.t;
    [q.x, q.y, q.z, q.w, t.x, t.y, t.z, e.weight]
}

// Edge k's eight numbers, in their place.
fn put_edge(edges: &mut [f32], k: usize, e: Edge)
    requires { k * 8 + 8 ≤ length edges.old }
    ensures { edges.new ≡ take (k * 8) edges.old ++ edge_numbers e ++ drop (k * 8 + 8) edges.old }
{
    let at = k * 8;
    slices::copy(&edge_numbers(e), &mut edges[at..at + 8]);
}

// The numbers of the first n edges put into `edges`, of so many keyframes, and zeros behind them; no more than are built. In place, since an array that a
// call gives is copied once more where its parts are lent on.
pub fn build_edges(
    edges: &mut [f32; 8200],
    keyframes: usize,
    poses: &[f64],
    loop_poses: &[f64],
    weight: f32,
    n: usize,
)
    ensures { edges.new ≡ strung (λ k. edge_numbers (scan_edge (keyframes - 1) poses.now loop_poses.now weight k)) (min n 1025)
        ++ replicate (8200 - min n 1025 * 8) (num 0) }
{
    let chain = keyframes.saturating_sub(1);
    *edges = [0.0; 8200];
    for k in 0..n.min(MOST_BUILT) {
        put_edge(edges, k, scan_edge(chain, poses, loop_poses, weight, k));
    }
}

// The same, given; a public name.
pub fn built_edges(
    keyframes: usize,
    poses: &[f64],
    loop_poses: &[f64],
    weight: f32,
    n: usize,
) -> [f32; 8200]
    ensures { result ≡ strung (λ k. edge_numbers (scan_edge (keyframes - 1) poses.now loop_poses.now weight k)) (min n 1025)
        ++ replicate (8200 - min n 1025 * 8) (num 0) }
{
    let mut edges = [0.0; 8200];
    build_edges(&mut edges, keyframes, poses, loop_poses, weight, n);
    edges
}

fn node_number(n: Option<usize>) -> u32
    requires { node_number n < 4294967296 }
    ensures { result ≡ node_number n }
{
    n.unwrap_or(0) as u32
}

// The two ends of edge k. Where it is a loop's there are at most k + 1 keyframes.
fn scan_ends(ids: &[u32], loops: &[u32], k: usize) -> (u32, u32)
    requires { k < 1025 }
    ensures { result.0 ∷ result.1 ∷ [] ≡ scan_ends ids.now loops.now k }
{
    let chain = ids.len().saturating_sub(1);
    if k < chain {
        return (k as u32, (k + 1) as u32);
    }
    let (candidate, query) = loop_nodes(ids, loops, k - chain);
    (node_number(candidate), node_number(query))
}

// The ends of the first n edges put into `ends`, and zeros behind them; no more than are built.
pub fn build_ends(ends: &mut [u32; 2050], ids: &[u32], loops: &[u32], n: usize)
    ensures { ends.new ≡ strung (scan_ends ids.now loops.now) (min n 1025) ++ replicate (2050 - min n 1025 * 2) 0 }
{
    *ends = [0; 2050];
    for k in 0..n.min(MOST_BUILT) {
        let (a, b) = scan_ends(ids, loops, k);
        ends[k * 2] = a;
        ends[k * 2 + 1] = b;
    }
}

// The same, given; a public name.
pub fn built_ends(ids: &[u32], loops: &[u32], n: usize) -> [u32; 2050]
    ensures { result ≡ strung (scan_ends ids.now loops.now) (min n 1025) ++ replicate (2050 - min n 1025 * 2) 0 }
{
    let mut ends = [0; 2050];
    build_ends(&mut ends, ids, loops, n);
    ends
}

// How many are built of so many keyframes and loop ids.
pub fn edges_built(keyframes: usize, loops: usize) -> usize
    ensures { result ≡ min (keyframes - 1 + loops / 2) 1025 }
{
    keyframes
        .saturating_sub(1)
        .saturating_add(loops / 2)
        .min(MOST_BUILT)
}
