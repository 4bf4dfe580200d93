// The scanning bench's step (pose_graph.rs; document 02, Wish 2): chain and loop edges are built of a scan, the graph is run, and what came out is
// judged. Nothing is allocated.
#![tactic(auto)]

ghost use Rattle.std.specs.Prelude.{◌≡◌, [], ◌∷◌, length};
ghost use Rattle.checks.specs.Input.{lent, lent_graph};
ghost use Rattle.scans.specs.Scans.{scan};
ghost use Rattle.pose_graph.specs.Closing.{result_for, room_for, closed_run, loops_closed};

use graph::Manifold;
use numbers::Refusal;
use printable::Measures;
use rows::Settings;
use sparse_pgo::Joined;

// The weight of loop edges, the run's settings, and gravity or none.
#[derive(Clone, Copy)]
pub struct PgoConfig {
    pub loop_edge_weight: f32,
    pub settings: Settings,
    pub manifold: Manifold,
}

// What the run answers, the four measures, and whether it may be printed. The original and the new poses stand in what is lent.
#[derive(Clone, Copy)]
pub struct PgoResult {
    pub run: Joined,
    pub measures: Measures,
    pub usable: bool,
}

// ---- the run, and what is said of it

fn result_of(
    manifold: Manifold,
    poses: &[f64],
    ends: &[u32],
    edges: &[f32],
    out: &[f64],
    run: Joined,
) -> PgoResult
    ensures { result ≡ result_for manifold (lent_graph poses.now ends.now edges.now [])
        poses.now out.now run }
{
    let measures = printable::measures_at(poses, out, ends, edges);
    let preserved = printable::gravity_preserved(manifold, poses, out);
    PgoResult {
        run,
        measures,
        usable: printable::is_usable(run.converged, preserved, measures),
    }
}

// The run of any edges with pose 0 fixed, and what is said of it.
fn run_and_judge(
    config: PgoConfig,
    poses: &[f64],
    ends: &[u32],
    edges: &[f32],
    work32: &mut [f32],
    work64: &mut [f64],
    original: &mut [f64],
    out: &mut [f64],
) -> Result<PgoResult, Refusal>
    requires { length original.old ≡ length poses.now }
    ensures { record { answer = result; work32 = work32.new; work64 = work64.new; original = original.new; out = out.new }
        ≡ closed_run (lent config.manifold poses.now ends.now edges.now (0 ∷ []) config.settings
        (room_for work32.old work64.old out.old))
        work32.old work64.old original.old out.old }
{
    let manifold = config.manifold;
    let run = sparse_pgo::sparse_pose_graph_optimize(
        manifold,
        poses,
        ends,
        edges,
        &[0],
        config.settings,
        work32,
        work64,
        out,
    )?;
    slices::copy(poses, original);
    Ok(result_of(manifold, poses, ends, edges, out, run))
}

// Optimizes a scan: the answer, the new poses in `out` and the given ones in `original`.
pub fn optimize_pose_graph(
    config: PgoConfig,
    ids: &[u32],
    poses: &[f64],
    loops: &[u32],
    loop_poses: &[f64],
    work32: &mut [f32],
    work64: &mut [f64],
    original: &mut [f64],
    out: &mut [f64],
) -> Result<PgoResult, Refusal>
    ensures { record { answer = result; work32 = work32.new; work64 = work64.new; original = original.new; out = out.new }
        ≡ loops_closed config (scan ids.now poses.now loops.now loop_poses.now config.loop_edge_weight)
        work32.old work64.old original.old out.old }
{
    scans::validate_scan(ids, poses.len(), loops, loop_poses.len(), original.len())?;
    let n = scans::edges_built(ids.len(), loops.len());
    let mut ends = [0; 2050];
    scans::build_ends(&mut ends, ids, loops, n);
    let mut edges = [0.0; 8200];
    scans::build_edges(
        &mut edges,
        ids.len(),
        poses,
        loop_poses,
        config.loop_edge_weight,
        n,
    );
    let e = n * 2;
    let g = n * 8;
    run_and_judge(
        config,
        poses,
        &ends[..e],
        &edges[..g],
        work32,
        work64,
        original,
        out,
    )
}
