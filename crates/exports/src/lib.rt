// The functions that a host program links: slices cross as pointer and length, numbers as themselves. A slice of another length than named gets
// 4294967295 back, and nothing is changed; elsewhere 0 means done. This is the C interface: names, numbers and lists one by one are as C has them, also where
// two functions differ in a format or in gravity.
#![tactic(auto)]

ghost use Rattle.std.specs.Prelude.{◌≡◌, ◌+◌, ◌*◌, ◌<◌, eqb, length, slice_index_or};
ghost use Rattle.numbers.specs.Notation.{num, if_then, number_at};
ghost use Rattle.rounding.specs.Rounding.{narrowed};
ghost use Rattle.roots.specs.Roots.{root32, root64};
ghost use Rattle.numbers.specs.Refusals.{verdict};
ghost use Rattle.rotations.specs.Rotation.{vec};
ghost use Rattle.rows.specs.Tests.{setting_rows};
ghost use Rattle.job.specs.Format.{space, job_of};
ghost use Rattle.scans.specs.Scans.{scan};
ghost use Rattle.exports.specs.Closings.{closed_nine, scan_lists, gravity_of, closed_told, loops_out, text_out};
ghost use Rattle.exports.specs.Jobs.{bits, read_out, write_out};
ghost use Rattle.exports.specs.Layers.{first_six, matrix_from, transform_from, three};
ghost use Rattle.exports.specs.Layers.{quaternion_out, product_out, inverse_out, log_out, exp_out, retract_out, retract_gravity_out, residual_out, solve_out};
ghost use Rattle.exports.specs.Exported.{settings, told, lists, fits_run, run_out, known, decision_from, fits_decide, decided};
ghost use Rattle.exports.specs.Exported.{assemble_out};

use decisions::Next;
use graph::Manifold;
use job::SettingBits;
use numbers::{Number, Refusal};
use pose_graph::{PgoConfig, PgoResult};
use rotations::{Mat3, Quat, Transform, Vec3};
use rows::Settings;
use solve::SolveError;
use sparse_pgo::Joined;

const UNFIT: u32 = 4294967295;

// ---- numbers in

fn vec_from<T: Number>(l: &[T], j: usize) -> Vec3<T>
    requires { j < 16 }
    ensures { result ≡ record { x = slice_index_or l.now j T.nan; y = slice_index_or l.now (j + 1) T.nan; z = slice_index_or l.now (j + 2) T.nan } }
{
    Vec3 {
        x: numbers::at(l, j),
        y: numbers::at(l, j + 1),
        z: numbers::at(l, j + 2),
    }
}

// Three f32 as a vector of f64.
fn widened_from(l: &[f32], j: usize) -> Vec3<f64>
    requires { j < 16 }
    ensures { result ≡ vec (number_at l.now j) (number_at l.now (j + 1)) (number_at l.now (j + 2)) }
{
    pose_conversion::vec3_to_f64(vec_from(l, j))
}

fn matrix_from(l: &[f32]) -> Mat3<f32>
    ensures { result ≡ matrix_from l.now }
{
    Mat3 {
        x: vec_from(l, 0),
        y: vec_from(l, 3),
        z: vec_from(l, 6),
    }
}

fn transform_from(l: &[f32]) -> Transform<f32>
    ensures { result ≡ transform_from l.now }
{
    let q = Quat {
        x: numbers::at(l, 0),
        y: numbers::at(l, 1),
        z: numbers::at(l, 2),
        w: numbers::at(l, 3),
    };
    Transform {
        q,
        t: vec_from(l, 4),
    }
}

// A step as `retract` takes it: of four numbers it looks at no more than four.
fn step_from(l: &[f32]) -> [f32; 6]
    ensures { result ≡ first_six l.now }
{
    let a = vec_from(l, 0);
    let b = vec_from(l, 3);
    [a.x, a.y, a.z, b.x, b.y, b.z]
}

// ---- the layers

#[unsafe(no_mangle)]
pub extern "C" fn pgo_narrow(x: f64) -> f32
    ensures { result ≡ narrowed x }
{
    rounding::narrow(x)
}

#[unsafe(no_mangle)]
pub extern "C" fn pgo_sqrt32(x: f32) -> f32
    ensures { result ≡ root32 x }
{
    roots::sqrt32(x)
}

#[unsafe(no_mangle)]
pub extern "C" fn pgo_sqrt64(x: f64) -> f64
    ensures { result ≡ root64 x }
{
    roots::sqrt64(x)
}

#[unsafe(no_mangle)]
pub extern "C" fn pgo_quaternion_of_matrix(m: &[f32], out: &mut [f32]) -> u32
    ensures { (result, out.new) ≡ quaternion_out m.now out.old }
{
    if !((m.len() == 9) & (out.len() == 4)) {
        return UNFIT;
    }
    let q = rotations::quat_of_matrix(matrix_from(m));
    slices::copy(&telling::quat_numbers(q), out);
    0
}

#[unsafe(no_mangle)]
pub extern "C" fn pgo_product(a: &[f32], b: &[f32], out: &mut [f32]) -> u32
    ensures { (result, out.new) ≡ product_out a.now b.now out.old }
{
    let fit = (a.len() == 7) & ((b.len() == 7) & (out.len() == 7));
    if !fit {
        return UNFIT;
    }
    let p = rotations::product_of(transform_from(a), transform_from(b));
    slices::copy(&telling::transform_numbers(p), out);
    0
}

#[unsafe(no_mangle)]
pub extern "C" fn pgo_inverse(a: &[f32], out: &mut [f32]) -> u32
    ensures { (result, out.new) ≡ inverse_out a.now out.old }
{
    if !((a.len() == 7) & (out.len() == 7)) {
        return UNFIT;
    }
    let p = rotations::inverse_of(transform_from(a));
    slices::copy(&telling::transform_numbers(p), out);
    0
}

#[unsafe(no_mangle)]
pub extern "C" fn pgo_exp(delta: &[f32], out: &mut [f32]) -> u32
    ensures { (result, out.new) ≡ exp_out delta.now out.old }
{
    if !((delta.len() == 6) & (out.len() == 7)) {
        return UNFIT;
    }
    let Some(a) = exp_log::exp(widened_from(delta, 0), widened_from(delta, 3)) else {
        return 1;
    };
    slices::copy(&telling::transform_numbers(a), out);
    0
}

#[unsafe(no_mangle)]
pub extern "C" fn pgo_log(t: &[f32], out: &mut [f32]) -> u32
    ensures { (result, out.new) ≡ log_out t.now out.old }
{
    if !((t.len() == 7) & (out.len() == 6)) {
        return UNFIT;
    }
    let d = exp_log::log(transform_from(t));
    slices::copy(&residual::six_of(d), out);
    0
}

#[unsafe(no_mangle)]
pub extern "C" fn pgo_retract(pose: &[f64], delta: &[f32], out: &mut [f64]) -> u32
    ensures { (result, out.new) ≡ retract_out pose.now delta.now out.old }
{
    if !((pose.len() == 12) & ((delta.len() == 6) & (out.len() == 12))) {
        return UNFIT;
    }
    let p = graph::pose_at(pose, 0);
    let Ok(p) = retraction::retract(Manifold::Se3, p, step_from(delta)) else {
        return 1;
    };
    slices::copy(&graph::numbers_of(p), out);
    0
}

// g is taken as the unit vector, as given.
#[unsafe(no_mangle)]
pub extern "C" fn pgo_retract_with_gravity(
    g: &[f64],
    pose: &[f64],
    delta: &[f32],
    out: &mut [f64],
) -> u32
    ensures { (result, out.new) ≡ retract_gravity_out g.now pose.now delta.now out.old }
{
    if !((g.len() == 3) & ((pose.len() == 12) & ((delta.len() == 4) & (out.len() == 12)))) {
        return UNFIT;
    }
    let m = Manifold::Gravity(vec_from(g, 0));
    let p = graph::pose_at(pose, 0);
    let Ok(p) = retraction::retract(m, p, step_from(delta)) else {
        return 1;
    };
    slices::copy(&graph::numbers_of(p), out);
    0
}

#[unsafe(no_mangle)]
pub extern "C" fn pgo_residual(a: &[f64], b: &[f64], edge: &[f32], out: &mut [f32]) -> u32
    ensures { (result, out.new) ≡ residual_out a.now b.now edge.now out.old }
{
    if !((a.len() == 12) & ((b.len() == 12) & ((edge.len() == 8) & (out.len() == 6)))) {
        return UNFIT;
    }
    let p = graph::pose_at(a, 0);
    let q = graph::pose_at(b, 0);
    let e = graph::edge_at(edge, 0);
    let Ok(d) = residual::weighted_relative_residual(p, q, e) else {
        return 1;
    };
    slices::copy(&residual::six_of(d), out);
    0
}

// The work is n (n + 3) numbers. No slice has as many as 2^31 unknowns take.
#[unsafe(no_mangle)]
pub extern "C" fn pgo_solve(work: &mut [f32], n: u32, damping: f32) -> u32
    ensures { (result, work.new) ≡ solve_out work.old n damping }
{
    let k = n as usize;
    if 0x8000_0000 <= k {
        return UNFIT;
    }
    if work.len() != k * (k + 3) {
        return UNFIT;
    }
    match solve::solve_damped(work, k, damping) {
        Ok(()) => 0,
        Err(error) => match error {
            SolveError::Failed => 1,
            SolveError::Short => UNFIT,
        },
    }
}

// ---- the runs

fn run_fits(answer: usize, costs: usize) -> bool
    ensures { result ≡ fits_run answer costs }
{
    (answer == 8) & (costs == 2)
}

// The costs of a refusal stay as found.
fn put_answer(answer: &mut [u32], costs: &mut [f32], a: Result<Joined, Refusal>) -> u32
    requires { (length answer.old ≡ 8) × (length costs.old ≡ 2) }
    ensures { (result, answer.new, costs.new) ≡ told costs.old a }
{
    slices::copy(&telling::answer_eight(a), answer);
    match a {
        Ok(j) => {
            slices::copy(&telling::joined_costs(j), costs);
            0
        }
        Err(r) => r.number,
    }
}

fn run(
    m: Manifold,
    poses: &[f64],
    ends: &[u32],
    edges: &[f32],
    fixed: &[u32],
    set: Settings,
    work32: &mut [f32],
    work64: &mut [f64],
    out: &mut [f64],
    answer: &mut [u32],
    costs: &mut [f32],
) -> u32
    ensures { (result, lists work32.new work64.new out.new answer.new costs.new)
        ≡ run_out m poses.now ends.now edges.now fixed.now set
        (lists work32.old work64.old out.old answer.old costs.old) }
{
    if !run_fits(answer.len(), costs.len()) {
        return UNFIT;
    }
    let a = sparse_pgo::sparse_pose_graph_optimize(
        m, poses, ends, edges, fixed, set, work32, work64, out,
    );
    put_answer(answer, costs, a)
}

// Six degrees of freedom a pose. answer: number, place, iterations, converged, A, R, F, stop; costs: first, last.
#[unsafe(no_mangle)]
pub extern "C" fn pgo_optimize(
    poses: &[f64],
    ends: &[u32],
    edges: &[f32],
    fixed: &[u32],
    limit: u32,
    cost_tolerance: f32,
    gradient_tolerance: f32,
    damping: f32,
    work32: &mut [f32],
    work64: &mut [f64],
    out: &mut [f64],
    answer: &mut [u32],
    costs: &mut [f32],
) -> u32
    ensures { (result, lists work32.new work64.new out.new answer.new costs.new)
        ≡ run_out Manifold.Se3 poses.now ends.now edges.now fixed.now
        (settings limit cost_tolerance gradient_tolerance damping)
        (lists work32.old work64.old out.old answer.old costs.old) }
{
    let set = Settings {
        limit,
        cost_tolerance,
        gradient_tolerance,
        damping,
    };
    run(
        Manifold::Se3,
        poses,
        ends,
        edges,
        fixed,
        set,
        work32,
        work64,
        out,
        answer,
        costs,
    )
}

// Four degrees of freedom a pose, gravity as given.
#[unsafe(no_mangle)]
pub extern "C" fn pgo_optimize_with_gravity(
    gx: f64,
    gy: f64,
    gz: f64,
    poses: &[f64],
    ends: &[u32],
    edges: &[f32],
    fixed: &[u32],
    limit: u32,
    cost_tolerance: f32,
    gradient_tolerance: f32,
    damping: f32,
    work32: &mut [f32],
    work64: &mut [f64],
    out: &mut [f64],
    answer: &mut [u32],
    costs: &mut [f32],
) -> u32
    ensures { (result, lists work32.new work64.new out.new answer.new costs.new)
        ≡ run_out (Manifold.Gravity (vec gx gy gz)) poses.now ends.now edges.now fixed.now
        (settings limit cost_tolerance gradient_tolerance damping)
        (lists work32.old work64.old out.old answer.old costs.old) }
{
    let set = Settings {
        limit,
        cost_tolerance,
        gradient_tolerance,
        damping,
    };
    let m = Manifold::Gravity(Vec3 {
        x: gx,
        y: gy,
        z: gz,
    });
    run(
        m, poses, ends, edges, fixed, set, work32, work64, out, answer, costs,
    )
}

// ---- the decisions over a prepared list

// What the list of events leads to; none where it ends before the run does. Where the settings don't pass their checks it is over at once.
fn decide(
    set: Settings,
    cost: f32,
    events: &[u32],
    prices: &[f32],
) -> Option<Result<Joined, Refusal>>
    ensures { result ≡ decision_from set cost events.now prices.now (verdict (setting_rows set)) }
{
    if let Err(r) = rows::validate_settings(set) {
        return Some(Err(r));
    }
    let n = events::drive(
        set.limit,
        set.cost_tolerance,
        cost,
        set.damping,
        events,
        prices,
    );
    let Next::Over(s, e) = n else {
        return None;
    };
    Some(sparse_pgo::answer_of(cost, s, e, s.accepted + s.rejected))
}

// Whether all are events: 0 to 6.
fn known_events(events: &[u32]) -> bool
    ensures { result ≡ known events.now (length events.now) }
{
    let mut good = true;
    for event in events {
        good = good & (*event <= 6);
    }
    good
}

fn decide_fits(answer: usize, costs: usize, events: &[u32], prices: &[f32]) -> bool
    ensures { result ≡ fits_decide answer costs events.now prices.now }
{
    let good = known_events(events);
    (answer == 8) & ((costs == 2) & ((events.len() == prices.len()) & good))
}

#[unsafe(no_mangle)]
pub extern "C" fn pgo_decide(
    limit: u32,
    tolerance: f32,
    cost: f32,
    damping: f32,
    events: &[u32],
    prices: &[f32],
    answer: &mut [u32],
    costs: &mut [f32],
) -> u32
    ensures { (result, answer.new, costs.new) ≡ decided (settings limit tolerance (num 0) damping) cost events.now prices.now answer.old
        costs.old }
{
    if !decide_fits(answer.len(), costs.len(), events, prices) {
        return UNFIT;
    }
    let set = Settings {
        limit,
        cost_tolerance: tolerance,
        gradient_tolerance: 0.0,
        damping,
    };
    let Some(a) = decide(set, cost, events, prices) else {
        return 1;
    };
    put_answer(answer, costs, a)
}

// ---- an assembly alone

fn manifold_of(dof: u32, g: Vec3<f64>) -> Manifold
    ensures { result ≡ if_then (eqb dof 6) Manifold.Se3 (Manifold.Gravity g) }
{
    if dof == 6 {
        return Manifold::Se3;
    }
    Manifold::Gravity(g)
}

// H and gradient in the layout of a solve's work, the rest of its n (n + 3) numbers +0.
#[unsafe(no_mangle)]
pub extern "C" fn pgo_assemble(
    dof: u32,
    gravity: &[f64],
    poses: &[f64],
    ends: &[u32],
    edges: &[f32],
    fixed: &[u32],
    work: &mut [f32],
) -> u32
    ensures { (result, work.new) ≡ assemble_out dof gravity.now poses.now ends.now edges.now fixed.now work.old }
{
    if !((gravity.len() == 3) & ((dof == 6) | (dof == 4))) {
        return UNFIT;
    }
    let m = manifold_of(dof, vec_from(gravity, 0));
    normal_system::assemble_alone(m, poses, ends, edges, fixed, work)
}

// ---- jobs

// Floats cross as their bit patterns. answer: limit, cost tolerance, gradient tolerance, damping, poses, edges, fixed, 0; or number, place and zeros.
#[unsafe(no_mangle)]
pub extern "C" fn pgo_read_job(
    bytes: &[u8],
    poses: &mut [u64],
    ends: &mut [u32],
    edges: &mut [u32],
    fixed: &mut [u32],
    answer: &mut [u32],
) -> u32
    ensures { (result, space poses.new ends.new edges.new fixed.new, answer.new)
        ≡ read_out bytes.now (space poses.old ends.old edges.old fixed.old) answer.old }
{
    if answer.len() != 8 {
        return UNFIT;
    }
    let v = job::read_job(bytes, poses, ends, edges, fixed);
    slices::copy(&telling::read_answer(v), answer);
    telling::read_number(v)
}

// answer: bytes written, 0; or number, place.
#[unsafe(no_mangle)]
pub extern "C" fn pgo_write_job(
    limit: u32,
    cost_tolerance: u32,
    gradient_tolerance: u32,
    damping: u32,
    poses: &[u64],
    ends: &[u32],
    edges: &[u32],
    fixed: &[u32],
    out: &mut [u8],
    answer: &mut [u32],
) -> u32
    ensures { (result, out.new, answer.new)
        ≡ write_out (job_of (bits limit cost_tolerance gradient_tolerance damping) (space poses.now ends.now edges.now fixed.now))
        out.old answer.old }
{
    if answer.len() != 2 {
        return UNFIT;
    }
    let t = SettingBits {
        limit,
        cost_tolerance,
        gradient_tolerance,
        damping,
    };
    let v = job::write_job(t, poses, ends, edges, fixed, out);
    slices::copy(&telling::written_two(v), answer);
    telling::written_number(v)
}

// ---- scans

fn nine_of(c: Result<PgoResult, Refusal>) -> [u32; 9]
    ensures { result ≡ closed_nine c }
{
    match c {
        Ok(x) => telling::judged_nine(x.run, x.usable),
        Err(r) => telling::refused_nine(r),
    }
}

// The costs and the measures of a refusal stay as found.
fn put_closed(
    answer: &mut [u32],
    costs: &mut [f32],
    measures: &mut [f64],
    c: Result<PgoResult, Refusal>,
) -> u32
    requires { (length answer.old ≡ 9) × (length costs.old ≡ 2) × (length measures.old ≡ 4) }
    ensures { (result, answer.new, costs.new, measures.new) ≡ closed_told costs.old measures.old c }
{
    slices::copy(&nine_of(c), answer);
    match c {
        Ok(x) => {
            slices::copy(&telling::joined_costs(x.run), costs);
            slices::copy(&telling::measures_four(x.measures), measures);
            0
        }
        Err(r) => r.number,
    }
}

fn gravity_from(g: &[f64]) -> Manifold
    ensures { result ≡ gravity_of g.now }
{
    if g.len() == 0 {
        return Manifold::Se3;
    }
    Manifold::Gravity(vec_from(g, 0))
}

// A scan's loops closed: gravity is no number or three. answer: the run's eight, then usable; measures: first cost, last cost, the last edge's residual before
// and after.
#[unsafe(no_mangle)]
pub extern "C" fn pgo_close_loops(
    ids: &[u32],
    poses: &[f64],
    loops: &[u32],
    loop_poses: &[f64],
    weight: f32,
    gravity: &[f64],
    limit: u32,
    cost_tolerance: f32,
    gradient_tolerance: f32,
    damping: f32,
    work32: &mut [f32],
    work64: &mut [f64],
    original: &mut [f64],
    out: &mut [f64],
    answer: &mut [u32],
    costs: &mut [f32],
    measures: &mut [f64],
) -> u32
    ensures { (result, scan_lists work32.new work64.new original.new out.new answer.new costs.new measures.new)
        ≡ loops_out (settings limit cost_tolerance gradient_tolerance damping) gravity.now
        (scan ids.now poses.now loops.now loop_poses.now weight)
        (scan_lists work32.old work64.old original.old out.old answer.old costs.old measures.old) }
{
    if !telling::closing_fits(gravity.len(), answer.len(), costs.len(), measures.len()) {
        return UNFIT;
    }
    let config = PgoConfig {
        loop_edge_weight: weight,
        settings: Settings {
            limit,
            cost_tolerance,
            gradient_tolerance,
            damping,
        },
        manifold: gravity_from(gravity),
    };
    let c = pose_graph::optimize_pose_graph(
        config, ids, poses, loops, loop_poses, work32, work64, original, out,
    );
    put_closed(answer, costs, measures, c)
}

// A float with six significant digits, at the start of out; how many bytes.
#[unsafe(no_mangle)]
pub extern "C" fn pgo_float_text(x: f64, out: &mut [u8]) -> u32
    ensures { (result, out.new) ≡ text_out x out.old }
{
    if out.len() != 16 {
        return UNFIT;
    }
    let l = line::with_float(line::empty(), x);
    let text = l.bytes;
    let n = l.used;
    out[..n].copy_from_slice(&text[..n]);
    n as u32
}
