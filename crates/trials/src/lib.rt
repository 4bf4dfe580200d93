// The trial of a step over lent numbers: the accepted poses stand first, the trial's behind them, twelve numbers a pose. Whatever is lent, each public
// function has one answer and leaves one list.
#![tactic(auto)]

ghost use Rattle.std.specs.Prelude.{◌≡◌, ◌≤◌, ◌*◌, length, get_or};
ghost use Rattle.std.specs.Float.{nan};
ghost use Rattle.graph.specs.Lent.{links_lent};
ghost use Rattle.trials.specs.Trials.{norm_of, part_of, taken_over, try_answers, try_leaves, trial_in};
ghost use Rattle.trials.specs.forms.Passes.{Moves, Retracted, Evaluated};

use decisions::{Numerical, Outcome, Reason, Trial};
use graph::{LentLinks, Manifold};
use rotations::Pose;

const STEP_SIZE_TOLERANCE: f32 = 1e-6;

// √ of the sum of squares, in f64. (The Rust's finite_l2_norm; that it is finite is a law.)
pub fn l2_norm(v: &[f32]) -> f64
    ensures { result ≡ norm_of (λ i. get_or v.now i nan) (length v.now) }
{
    let mut sum = 0.0f64;
    for x in v {
        let wide = f64::from(*x);
        sum += wide * wide;
    }
    roots::sqrt64(sum)
}

// The DOF numbers of block b of a step, then +0 up to six.
fn delta_of(step: &[f32], dof: usize, b: usize) -> [f32; 6]
    requires { (dof ≤ 6) × (b ≤ 4294967296) }
    ensures { result ≡ part_of dof (λ i. get_or step.now i nan) b }
{
    let mut delta = [0.0f32; 6];
    for j in 0..dof {
        delta[j] = numbers::at(step, b * dof + j);
    }
    delta
}

// A pose of a trial, and whether its retraction went well. No Option or Result: where it did not, the pose stands in the trial as it was, and the next ones are
// still retracted, so both are wanted (`Moves` of specs/forms says both).
#[derive(Clone, Copy)]
struct TrialPose {
    pose: Pose,
    well: bool,
}

// Pose p of the trial: retracted where it is free; as it is where it is not, or cannot be.
fn moved_pose(m: Manifold, links: LentLinks<'_>, step: &[f32], poses: &[f64], p: usize) -> TrialPose
    ensures { Moves m poses.now (λ i. get_or step.now i nan) p ((links_lent links.entry).slot p) result }
{
    let pose = graph::pose_at(poses, p);
    let Some(b) = links.slot(p) else {
        return TrialPose { pose, well: true };
    };
    let delta = delta_of(step, graph::dof(m), b);
    match retraction::retract(m, pose, delta) {
        Ok(moved) => TrialPose {
            pose: moved,
            well: true,
        },
        Err(_) => TrialPose { pose, well: false },
    }
}

// The trial's poses, each from the accepted one. Whether all retractions went well.
fn retract_free(m: Manifold, links: LentLinks<'_>, step: &[f32], w: &mut [f64]) -> bool
    ensures { Retracted m (links_lent links.entry).slot (λ i. get_or step.now i nan) w.old result w.new }
{
    let n = w.len() / 24;
    let half = n * 12;
    let mut well = true;
    for p in 0..n {
        let moved = moved_pose(m, links, step, &w[..half], p);
        let ns = graph::numbers_of(moved.pose);
        let at = half + p * 12;
        w[at..at + 12].copy_from_slice(&ns);
        well &= moved.well;
    }
    well
}

// The trial's poses become the accepted ones.
fn accept(w: &mut [f64])
    ensures { w.new ≡ taken_over w.old }
{
    let half = (w.len() / 24) * 12;
    let (accepted, trial) = w.split_at_mut(half);
    slices::copy(&trial[..half], accepted);
}

// The trial of a step: its poses, then their cost, judged against the cost so far.
fn evaluate_trial(
    m: Manifold,
    links: LentLinks<'_>,
    cost: f32,
    step: &[f32],
    w: &mut [f64],
) -> Trial
    ensures { Evaluated m (links_lent links.entry) cost (λ i. get_or step.now i nan) w.old result w.new }
{
    if !retract_free(m, links, step, w) {
        return Trial::Rejected(Reason::Numerical(Numerical::Retraction));
    }
    let half = (w.len() / 24) * 12;
    let found = costs::active_total_squared_residual_cost(&w[half..], links);
    match found {
        Ok(new) => decisions::judge(cost, new),
        Err(_) => Trial::Rejected(Reason::Numerical(Numerical::Unpriced)),
    }
}

// A step that is not too small is tried, and its poses are taken over where the trial was accepted.
pub fn try_step(
    m: Manifold,
    links: LentLinks<'_>,
    cost: f32,
    step: &[f32],
    w: &mut [f64],
) -> Outcome
    ensures value { result ≡ try_answers m (links_lent links.entry) cost step.now w.old }
    ensures w_value { w.new ≡ try_leaves result w.old (trial_in m (links_lent links.entry).slot (λ i. get_or step.now i nan) w.old) }
{
    let norm = l2_norm(step);
    if norm < f64::from(STEP_SIZE_TOLERANCE) {
        return Outcome::Small;
    }
    let t = evaluate_trial(m, links, cost, step, w);
    if let Trial::Accepted(_) = t {
        accept(w);
    }
    Outcome::Tried(t)
}
