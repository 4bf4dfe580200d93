// The run over lent work (sparse_pose_graph_optimize), and its entry points for each manifold. work32 is the work of a solve; work64 holds the accepted
// poses, then the trial's. Nothing is allocated.
#![tactic(auto)]

ghost use Rattle.std.specs.Prelude.{◌≡◌, ◌*◌, ◌<◌, ◌≤◌, length};
ghost use Rattle.decisions.specs.Run.{iterations};
ghost use Rattle.graph.specs.Lent.{links_lent};
ghost use Rattle.profile.specs.Layout.{need};
ghost use Rattle.sparse_pgo.specs.Parts.{has_converged, answer_after};
ghost use Rattle.sparse_pgo.specs.Optimize.{optimized_on};
ghost use Rattle.sparse_pgo.specs.forms.Turns.{held_in, Sized, Lent, Holds, AtTop, assembly_in};
ghost use Rattle.sparse_pgo.specs.forms.Turns.{PassedTop, Attempted, Turned, Startable, Started, Begun};

use assembly::AssemblyError;
use decisions::{Assembly, Next, Outcome, State, Why};
use graph::{LentLinks, Manifold};
use numbers::Refusal;
use rotations::Vec3;
use rows::{Room, Settings};

// A finished run: iterations are A + R; Gradient, Step and Cost have converged.
#[derive(Clone, Copy)]
pub struct Joined {
    pub iterations: u32,
    pub converged: bool,
    pub accepted: u32,
    pub rejected: u32,
    pub failed: u32,
    pub first_cost: f32,
    pub last_cost: f32,
    pub why: Why,
}

// What the checks found and the caller set. Gravity is of unit length here; n is DOF times the free poses.
#[derive(Clone, Copy)]
pub struct Setup {
    pub manifold: Manifold,
    pub n: usize,
    pub poses: usize,
    pub settings: Settings,
}

// ---- a turn: `Lent` is the word for all that is lent; w32 and w64 go apart, since the top reads the one and writes the other

// What an assembly comes to: a gradient whose norm is below the tolerance has converged.
fn assembly_of(setup: Setup, made: Result<(), AssemblyError>, w32: &[f32]) -> Assembly
    requires { (setup.n ≤ 384) × (length w32.now ≡ need setup.n) }
    ensures { result ≡ assembly_in setup made w32.now }
{
    match made {
        Err(error) => match error {
            AssemblyError::BadEdge { edge, why: _ } => Assembly::Refused(Refusal {
                number: 21,
                place: edge,
            }),
            AssemblyError::Short => Assembly::Flat,
        },
        Ok(()) => {
            let n = setup.n;
            let from = n * n + n;
            let to = from + n;
            let norm = trials::l2_norm(&w32[from..to]);
            let set = setup.settings;
            if norm < f64::from(set.gradient_tolerance) {
                Assembly::Flat
            } else {
                Assembly::Steep
            }
        }
    }
}

// The top of a turn: the system of the poses, where it is to be assembled and the limit is not reached; and whether a solve follows.
fn pass_top(
    setup: Setup,
    links: LentLinks<'_>,
    s: State,
    poses: &[f64],
    w32: &mut [f32],
) -> Option<Result<Why, Refusal>>
    requires sized { Sized setup links.free × (length w32.old ≡ need setup.n) }
    requires at_top { AtTop setup (links_lent links) s poses.now w32.old }
    ensures { PassedTop setup (links_lent links.entry) s poses.now result w32.new }
{
    let fresh = s.fresh;
    if !fresh {
        return None;
    }
    let set = setup.settings;
    if decisions::at_limit(s, set.limit) {
        return Some(Ok(Why::Budget));
    }
    let m = setup.manifold;
    let made = assembly::build_normal_system_with_mapping(w32, m, poses, links);
    let a = assembly_of(setup, made, w32);
    decisions::pass_top(s, set.limit, a)
}

// A solve of the system in w32 at the damping, and the trial of its step: the poses of an accepted one become the accepted poses.
fn attempt(
    setup: Setup,
    links: LentLinks<'_>,
    s: State,
    w32: &mut [f32],
    w64: &mut [f64],
) -> Outcome
    requires lent { Lent setup links.free w32.old w64.old }
    requires holds { Holds setup (links_lent links) (held_in setup w64.old) w32.old }
    ensures { Attempted setup (links_lent links.entry) s w64.old result w32.new w64.new }
{
    let n = setup.n;
    let Ok(()) = solve::solve_damped(w32, n, s.damping) else {
        return Outcome::Failed;
    };
    let at = n * n + n + n;
    let m = setup.manifold;
    trials::try_step(m, links, s.cost, &w32[at..], w64)
}

fn one_turn(setup: Setup, links: LentLinks<'_>, s: State, w32: &mut [f32], w64: &mut [f64]) -> Next
    requires lent { Lent setup links.free w32.old w64.old × (s.accepted < 4294967295) }
    requires at_top { AtTop setup (links_lent links) s (held_in setup w64.old) w32.old }
    ensures { Turned setup (links_lent links.entry) s w64.old result w32.new w64.new }
{
    let half = setup.poses * 12;
    match pass_top(setup, links, s, &w64[..half], w32) {
        Some(e) => Next::Over(s, e),
        None => {
            let o = attempt(setup, links, s, w32, w64);
            let set = setup.settings;
            decisions::after_solve(s, set.limit, set.cost_tolerance, o)
        }
    }
}

// ---- the answer

// Whether a run that stopped so has converged.
pub fn has_converged(w: Why) -> bool
    ensures { result ≡ has_converged w }
{
    match w {
        Why::Budget => false,
        Why::Gradient => true,
        Why::Step => true,
        Why::Cost => true,
        Why::Damping => false,
    }
}

// What a run says that ended so in the state s, after so many iterations.
pub fn answer_of(
    first: f32,
    s: State,
    e: Result<Why, Refusal>,
    iterations: u32,
) -> Result<Joined, Refusal>
    ensures { result ≡ answer_after iterations first s e }
{
    let why = e?;
    Ok(Joined {
        iterations,
        converged: has_converged(why),
        accepted: s.accepted,
        rejected: s.rejected,
        failed: s.failed,
        first_cost: first,
        last_cost: s.cost,
        why,
    })
}

// ---- the run

// The first cost, then the turns.
fn started(
    setup: Setup,
    links: LentLinks<'_>,
    w32: &mut [f32],
    w64: &mut [f64],
) -> Result<Joined, Refusal>
    requires { Lent setup links.free w32.old w64.old × Startable setup }
    ensures { Started setup (links_lent links.entry) w64.old result w64.new }
{
    let half = setup.poses * 12;
    let found = costs::active_total_squared_residual_cost(&w64[..half], links);
    match found {
        Err(bad) => Err(Refusal {
            number: 20,
            place: bad.edge,
        }),
        Ok(first) => {
            let set = setup.settings;
            let mut s = decisions::begin(first, set.damping);
            loop {
                match one_turn(setup, links, s, w32, w64) {
                    Next::On(t) => {
                        s = t;
                    }
                    Next::Over(t, e) => {
                        return answer_of(first, t, e, t.accepted + t.rejected);
                    }
                }
            }
        }
    }
}

// Poses in, the run, poses out, the work cleared.
fn begun(
    setup: Setup,
    poses: &[f64],
    links: LentLinks<'_>,
    w32: &mut [f32],
    w64: &mut [f64],
    out: &mut [f64],
) -> Result<Joined, Refusal>
    requires lent { Lent setup links.free w32.old w64.old × Startable setup }
    requires poses_len { (length poses.now ≡ setup.poses * 12) × (length out.old ≡ length poses.now) }
    ensures { Begun setup (links_lent links.entry) poses.now w32.old w64.old out.old result w32.new w64.new
        out.new }
{
    let half = setup.poses * 12;
    slices::copy(poses, &mut w64[..half]);
    let a = started(setup, links, w32, w64);
    if let Ok(_) = a {
        slices::copy(&w64[..half], out);
    }
    slices::clear(w32);
    slices::clear(w64);
    a
}

// A run on either manifold: checks, then the run on the needed parts of the work.
pub fn sparse_pose_graph_optimize(
    manifold: Manifold,
    poses: &[f64],
    ends: &[u32],
    edges: &[f32],
    fixed: &[u32],
    settings: Settings,
    work32: &mut [f32],
    work64: &mut [f64],
    out: &mut [f64],
) -> Result<Joined, Refusal>
    ensures { record { answer = result; work32 = work32.new; work64 = work64.new; out = out.new }
        ≡ optimized_on manifold poses.now ends.now edges.now fixed.now settings work32.old work64.old out.old }
{
    let room = Room {
        work32: work32.len(),
        work64: work64.len(),
        out: out.len(),
    };
    let checks = checks::validate_optimizer_inputs(
        manifold, poses, ends, edges, fixed, settings, room,
    );
    let answer = checks.answer;
    let blocks = checks.blocks;
    let c = answer?;
    let n = graph::dof(manifold) * (c.free as usize);
    let n32 = n * (n + 3);
    let n64 = 24 * c.poses;
    let setup = Setup {
        manifold: retraction::unit_manifold(manifold),
        n,
        poses: c.poses,
        settings,
    };
    let links = LentLinks {
        ends,
        edges,
        blocks: &blocks,
        free: c.free,
    };
    begun(
        setup,
        poses,
        links,
        &mut work32[..n32],
        &mut work64[..n64],
        out,
    )
}

// The run with six degrees of freedom a pose. (This and the next are public names, each one call of the run on either manifold.)
pub fn optimize(
    poses: &[f64],
    ends: &[u32],
    edges: &[f32],
    fixed: &[u32],
    settings: Settings,
    work32: &mut [f32],
    work64: &mut [f64],
    out: &mut [f64],
) -> Result<Joined, Refusal>
    ensures { record { answer = result; work32 = work32.new; work64 = work64.new; out = out.new }
        ≡ optimized_on Manifold.Se3 poses.now ends.now edges.now fixed.now settings work32.old work64.old out.old }
{
    sparse_pose_graph_optimize(
        Manifold::Se3,
        poses,
        ends,
        edges,
        fixed,
        settings,
        work32,
        work64,
        out,
    )
}

// The run with four: centres move, and poses turn about gravity.
pub fn optimize_with_gravity(
    gravity: Vec3<f64>,
    poses: &[f64],
    ends: &[u32],
    edges: &[f32],
    fixed: &[u32],
    settings: Settings,
    work32: &mut [f32],
    work64: &mut [f64],
    out: &mut [f64],
) -> Result<Joined, Refusal>
    ensures { record { answer = result; work32 = work32.new; work64 = work64.new; out = out.new }
        ≡ optimized_on (Manifold.Gravity gravity) poses.now ends.now edges.now fixed.now settings work32.old work64.old out.old }
{
    sparse_pose_graph_optimize(
        Manifold::Gravity(gravity),
        poses,
        ends,
        edges,
        fixed,
        settings,
        work32,
        work64,
        out,
    )
}
