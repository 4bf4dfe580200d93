// Document 01's sample joins, then those of document 02's Wish 6, then scans of its Wish 2 with whether they may be printed; run and printed, one line each.
#![tactic(auto)]

mod graphs;
mod keyframes;
mod say;

ghost use Rattle.std.specs.Prelude.{◌≤◌};

use graph::Manifold;
use graphs::Graph;
use keyframes::Scan;
use numbers::Refusal;
use pose_graph::{PgoConfig, PgoResult};
use rows::Settings;
use sparse_pgo::Joined;
use std::io::Write;

fn settings(limit: u32, gradient_tolerance: f32) -> Settings {
    Settings {
        limit,
        cost_tolerance: 1e-6,
        gradient_tolerance,
        damping: 0.001,
    }
}

fn usual() -> Settings {
    settings(30, 1e-6)
}

// The first n poses and m edges of a graph, run over lent work. The parameters are those of the library's run.
fn run_over(
    manifold: Manifold,
    g: Graph,
    n: usize,
    m: usize,
    fixed: &[u32],
    s: Settings,
    w32: &mut [f32],
    w64: &mut [f64],
) -> Result<Joined, Refusal>
    requires { (n ≤ 66) × (m ≤ 65) }
{
    let mut out = [0.0f64; 792];
    let poses = g.poses[..n].as_flattened();
    let ends = g.ends[..m].as_flattened();
    let edges = g.edges[..m].as_flattened();
    let to = &mut out[..n * 12];
    match manifold {
        Manifold::Se3 => sparse_pgo::optimize(poses, ends, edges, fixed, s, w32, w64, to),
        Manifold::Gravity(down) => {
            sparse_pgo::optimize_with_gravity(down, poses, ends, edges, fixed, s, w32, w64, to)
        }
    }
}

// Work for 64 free poses with six degrees of freedom, and for 256 poses.
fn run_on(
    manifold: Manifold,
    g: Graph,
    n: usize,
    m: usize,
    fixed: &[u32],
    s: Settings,
) -> Result<Joined, Refusal>
    requires { (n ≤ 66) × (m ≤ 65) }
{
    let mut work32 = [0.0f32; 148608];
    let mut work64 = [0.0f64; 6144];
    run_over(manifold, g, n, m, fixed, s, &mut work32, &mut work64)
}

fn run(g: Graph, n: usize, m: usize, fixed: &[u32]) -> Result<Joined, Refusal>
    requires { (n ≤ 66) × (m ≤ 65) }
{
    run_on(Manifold::Se3, g, n, m, fixed, usual())
}

// ---- in a line

// Poses one apart, from the identity on; no turn anywhere; all edges measured (x,0,0).
fn in_a_line(x: f32, weight: f32) -> Graph {
    graphs::chain(
        graphs::ahead(1.0),
        [0.0, 0.0, 0.0, 1.0, x, 0.0, 0.0, weight],
    )
}

// Pose 0 fixed, pose 1 at (1,0,0), one edge from 0 to 1.
fn two_poses(x: f32, weight: f32, s: Settings) -> Result<Joined, Refusal> {
    run_on(Manifold::Se3, in_a_line(x, weight), 2, 1, &[0], s)
}

fn measured<W: Write>(out: &mut W) {
    say::answer(
        out,
        "two poses, measured (1,0,0)",
        two_poses(1.0, 1.0, usual()),
    );
    say::answer(
        out,
        "two poses, measured (2,0,0)",
        two_poses(2.0, 1.0, usual()),
    );
    say::answer(
        out,
        "two poses, measured (2,0,0), weight 0.5",
        two_poses(2.0, 0.5, usual()),
    );
}

fn limits<W: Write>(out: &mut W) {
    say::answer(out, "limit 1000", two_poses(2.0, 1.0, settings(1000, 1e-6)));
    say::answer(out, "limit 1001", two_poses(2.0, 1.0, settings(1001, 1e-6)));
}

// The two poses over lent work. One free pose: n is 6, so 6 * 9 f32 numbers are needed; two poses: 24 * 2 f64 numbers.
fn over(w32: &mut [f32], w64: &mut [f64]) -> Result<Joined, Refusal> {
    run_over(
        Manifold::Se3,
        in_a_line(2.0, 1.0),
        2,
        1,
        &[0],
        usual(),
        w32,
        w64,
    )
}

fn works<W: Write>(out: &mut W) {
    let mut exact32 = [0.0f32; 54];
    let mut exact64 = [0.0f64; 48];
    let a = over(&mut exact32, &mut exact64);
    say::answer(out, "work of 54 f32 and 48 f64, exact", a);
    let mut short32 = [0.0f32; 53];
    let a = over(&mut short32, &mut exact64);
    say::answer(out, "work of 53 f32 and 48 f64, one short", a);
    let mut short64 = [0.0f64; 47];
    let a = over(&mut exact32, &mut short64);
    say::answer(out, "work of 54 f32 and 47 f64, one short", a);
}

fn zero_weights<W: Write>(out: &mut W) {
    say::answer(
        out,
        "weight 0, gradient tolerance 0",
        two_poses(2.0, 0.0, settings(30, 0.0)),
    );
}

// As the two poses, with pose 2 at (1e300,0,0); edge 1 goes to it.
fn far_pose(from: u32) -> Graph {
    let mut g = in_a_line(2.0, 1.0);
    g.poses[2][9] = 1e300;
    g.ends[1][0] = from;
    g
}

fn far_poses<W: Write>(out: &mut W) {
    say::answer(
        out,
        "a pose at 1e300, named by active edge 1",
        run(far_pose(1), 3, 2, &[0]),
    );
    say::answer(
        out,
        "a pose at 1e300, in no edge",
        run(far_pose(1), 3, 1, &[0]),
    );
    say::answer(
        out,
        "a pose at 1e300, fixed, in an edge of fixed ends",
        run(far_pose(0), 3, 2, &[0, 2]),
    );
}

// Pose 0 fixed; edges measured one and a half.
fn many_free<W: Write>(out: &mut W) {
    let g = in_a_line(1.5, 1.0);
    say::answer(out, "64 free poses in a line", run(g, 65, 64, &[0]));
    say::answer(out, "65 free poses in a line", run(g, 66, 65, &[0]));
}

// ---- a ring that does not close

// 50 views. A true step is a turn by 7.2 degrees about z (the fiftieth part of a full turn) and a shift by 1; what was measured, and what the poses
// come from, is a turn by 7.25 degrees with a rise of 0.01. Only the edge from the last view to the first measured the true step.
fn ring() -> Graph {
    let drifted = graphs::vec(1.0, 0.0, 0.01);
    let g = graphs::chain(
        graphs::step(0.992004949679715, 0.12619896913582976, drifted),
        [0.0, 0.0, 0.063225985, 0.99799925, 1.0, 0.0, 0.01, 1.0],
    );
    let closing = [0.0f32, 0.0, 0.06279052, 0.9980267, 1.0, 0.0, 0.0, 1.0];
    graphs::with_edge(g, 49, [49, 0], closing)
}

fn rings<W: Write>(out: &mut W) {
    let g = ring();
    say::answer(
        out,
        "a ring of 50 views that does not close",
        run(g, 50, 50, &[0]),
    );
    let down = Manifold::Gravity(graphs::vec(0.0, 0.0, -9.81));
    say::answer(
        out,
        "the same ring, with gravity",
        run_on(down, g, 50, 50, &[0], usual()),
    );
}

// ---- loose islands

// 50 views in two passes of 25, the second going on from the first. A true step is a turn by 14.4 degrees about z (the 25th part of a full turn) and a shift
// by 1; what the poses come from is a turn by 14.5 degrees (its cosine and sine) with a rise of 0.01. Edges 24 and 49 go from the last view of a pass back to
// its first and measured the true step; the others go from a view to the next and measured what the poses come from. An edge's turn is a quaternion: its z
// and w are sine and cosine of half the angle, 7.25 degrees, or 7.2 where it closes a pass. Edge 50 goes from the last view of the first pass to the first of
// the second, and measured what the poses come from.
fn two_passes(weight: f32) -> Graph {
    let drifted = graphs::vec(1.0, 0.0, 0.01);
    let g = graphs::chain(
        graphs::step(0.9681476403781077, 0.25038000405444144, drifted),
        [0.0, 0.0, 0.12619896, 0.99200493, 1.0, 0.0, 0.01, 1.0],
    );
    let closing = [0.0f32, 0.0, 0.12533323, 0.9921147, 1.0, 0.0, 0.0, 1.0];
    let bridge = [0.0f32, 0.0, 0.12619896, 0.99200493, 1.0, 0.0, 0.01, weight];
    let g = graphs::with_edge(g, 24, [24, 0], closing);
    let g = graphs::with_edge(g, 49, [49, 25], closing);
    graphs::with_edge(g, 50, [24, 25], bridge)
}

fn islands<W: Write>(out: &mut W) {
    let g = two_passes(1.0);
    say::answer(
        out,
        "two passes of 25 views, no edge between them",
        run(g, 50, 50, &[0]),
    );
    say::answer(
        out,
        "the same, one edge of weight 1 between them",
        run(g, 50, 51, &[0]),
    );
}

fn loose_despite_bridge<W: Write>(out: &mut W) {
    say::answer(
        out,
        "the same, that edge of weight 0",
        run(two_passes(0.0), 50, 51, &[0]),
    );
    say::answer(
        out,
        "the same, that edge of weight -0",
        run(two_passes(-0.0), 50, 51, &[0]),
    );
    say::answer(
        out,
        "the same, weight 1, no view fixed",
        run(two_passes(1.0), 50, 51, &[]),
    );
}

// ---- scans

// Loops of weight 0.5; the last keyframe has the id that is given, and three loops name 40. The work is for three free poses with six degrees of freedom, and
// for four poses.
fn close(manifold: Manifold, settings: Settings, id: u32, s: Scan) -> Result<PgoResult, Refusal> {
    let config = PgoConfig {
        loop_edge_weight: 0.5,
        settings,
        manifold,
    };
    let mut work32 = [0.0f32; 378];
    let mut work64 = [0.0f64; 96];
    let mut original = [0.0f64; 48];
    let mut out = [0.0f64; 48];
    pose_graph::optimize_pose_graph(
        config,
        &[10, 20, 30, id],
        s.poses.as_flattened(),
        &[10, 30, 20, 40, 10, 40, 10, 40],
        s.loop_poses.as_flattened(),
        &mut work32,
        &mut work64,
        &mut original,
        &mut out,
    )
}

// Views 1.25 apart in a line; the loops measured that it is 1, but for the last, which measured three times `last`.
fn line_scan(settings: Settings, id: u32, last: f64) -> Result<PgoResult, Refusal> {
    let s = keyframes::drifted(graphs::ahead(1.25), graphs::ahead(1.0), graphs::ahead(last));
    close(Manifold::Se3, settings, id, s)
}

fn line_scans<W: Write>(out: &mut W) {
    say::closed(
        out,
        "a scan of 4 keyframes, 4 loops that agree",
        line_scan(usual(), 40, 1.0),
    );
    say::closed(
        out,
        "the same, limit 1",
        line_scan(settings(1, 0.0), 40, 1.0),
    );
    say::closed(
        out,
        "the same, the last loop measured the drift",
        line_scan(usual(), 40, 1.25),
    );
    say::closed(
        out,
        "the same, no keyframe 40, which loop 1 names",
        line_scan(usual(), 50, 1.0),
    );
}

// A true step is a turn by 30 degrees about z and a shift by 1; the poses come from a turn by 29 degrees with a rise of 0.01.
fn turning_scan<W: Write>(out: &mut W) {
    let step = graphs::step(
        0.8746197071393957,
        0.48480962024633706,
        graphs::vec(1.0, 0.0, 0.01),
    );
    let truth = graphs::step(0.8660254037844386, 0.5, graphs::vec(1.0, 0.0, 0.0));
    let s = keyframes::drifted(step, truth, truth);
    let down = Manifold::Gravity(graphs::vec(0.0, 0.0, -9.81));
    say::closed(
        out,
        "a scan of 4 keyframes with turns, and gravity",
        close(down, usual(), 40, s),
    );
}

fn main(rt: HostRuntime) {
    let mut out = rt.stdout();
    measured(&mut out);
    limits(&mut out);
    works(&mut out);
    zero_weights(&mut out);
    far_poses(&mut out);
    many_free(&mut out);
    rings(&mut out);
    islands(&mut out);
    loose_despite_bridge(&mut out);
    line_scans(&mut out);
    turning_scan(&mut out);
}
