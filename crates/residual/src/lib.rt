// The weighted residual of an edge (weighted_relative_residual of sparse_pgo.rs), and by its parts: with one end at other transforms.
#![tactic(auto)]

ghost use Rattle.std.specs.Prelude.{◌≡◌};
ghost use Rattle.residual.specs.Residuals.{weighted_vec, weighted, six_if_finite, residual_of, six_of};
ghost use Rattle.residual.specs.EdgeParts.{undone_of, error_quat, carried, residual_in, tied, linked_of, six_in};
ghost use Rattle.residual.specs.EdgeParts.{hinge_by, hinge_of, hinges_of, between_of, residuals_at};

use exp_log::{Both, LogTurn, Twist};
use graph::Edge;
use numbers::Failure;
use rotations::{Mat3, Pose, Quat, Transform, Vec3};

// The end of an edge that a Jacobian is of.
#[derive(Clone, Copy)]
pub enum EdgeEndpoint {
    A,
    B,
}

// An edge whose ends and measurement could be had: a⁻¹, b, measured⁻¹ and the weight, with the matrices of b and of measured⁻¹.
#[derive(Clone, Copy)]
pub struct Link {
    pub back: Transform<f64>,
    pub to: Transform<f64>,
    pub to_matrix: Mat3<f64>,
    pub undone: Transform<f64>,
    pub undone_matrix: Mat3<f64>,
    pub weight: f32,
}

// What an end's quaternion gives of a residual, whatever the end's translation: the matrix that turns that translation (of end b: a⁻¹'s),
// ω and D of the error's log, and the residual's rotation.
#[derive(Clone, Copy)]
pub struct Hinge {
    pub matrix: Mat3<f64>,
    pub log: LogTurn,
    pub rotation: Vec3<f32>,
}

// An edge by its parts, and its residual: translation, then rotation.
#[derive(Clone, Copy)]
pub struct Linked {
    pub link: Link,
    pub six: Twist<f32>,
}

// Narrowed, then weighted in f32.
fn weigh_vec(w: f32, v: Vec3<f64>) -> Vec3<f32>
    ensures { result ≡ weighted_vec w v }
{
    Vec3 {
        x: w * rounding::narrow(v.x),
        y: w * rounding::narrow(v.y),
        z: w * rounding::narrow(v.z),
    }
}

fn weigh(w: f32, d: Twist<f64>) -> Twist<f32>
    ensures { result ≡ weighted w d }
{
    Twist {
        t: weigh_vec(w, d.t),
        r: weigh_vec(w, d.r),
    }
}

pub fn six_if_finite(d: Twist<f32>) -> Result<Twist<f32>, Failure>
    ensures { result ≡ six_if_finite d }
{
    if pose_conversion::vec3_f32_is_finite(d.t) & pose_conversion::vec3_f32_is_finite(d.r) {
        Ok(d)
    } else {
        Err(Failure::Numerical)
    }
}

// measured⁻¹, where the weight is finite and what was measured is valid.
fn undone_of(edge: Edge) -> Result<Transform<f32>, Failure>
    ensures { result ≡ undone_of edge }
{
    let finite = edge.weight.is_finite();
    if !finite {
        return Err(Failure::Numerical);
    }
    let measured = pose_conversion::valid_se3(edge.measured)?;
    Ok(rotations::inverse_of(measured))
}

// The quaternion of measured⁻¹ · (b · a⁻¹).
fn error_quat(undone: Quat<f64>, to: Quat<f64>, back: Quat<f64>) -> Quat<f64>
    ensures { result ≡ error_quat undone to back }
{
    let between = rotations::rounded_quat(rotations::quat_product(to, back));
    rotations::rounded_quat(rotations::quat_product(undone, between))
}

// The translation of a product: v turned by the matrix of the first transform, whose translation is t.
fn carry(m: Mat3<f64>, v: Vec3<f64>, t: Vec3<f64>) -> Vec3<f64>
    ensures { result ≡ carried m v t }
{
    rotations::rounded_vec(rotations::sum_of(rotations::turn_vec(m, v), t))
}

// weight × log(measured⁻¹ · (b · a⁻¹))
fn residual_of(l: Link) -> Result<Twist<f32>, Failure>
    ensures { result ≡ residual_in l }
{
    let log = exp_log::log_turn(error_quat(l.undone.q, l.to.q, l.back.q));
    let between = carry(l.to_matrix, l.back.t, l.to.t);
    let d = exp_log::log_at(log, carry(l.undone_matrix, between, l.undone.t));
    six_if_finite(weigh(l.weight, d))
}

fn hinge_by(weight: f32, matrix: Mat3<f64>, log: LogTurn) -> Hinge
    ensures { result ≡ hinge_by weight matrix log }
{
    let w = log.w;
    Hinge {
        matrix,
        log,
        rotation: weigh_vec(weight, w),
    }
}

// Of the end whose quaternion is q.
pub fn hinge_of(l: Link, end: EdgeEndpoint, q: Quat<f64>) -> Hinge
    ensures { result ≡ hinge_of l end q }
{
    let weight = l.weight;
    match end {
        EdgeEndpoint::A => {
            let c = rotations::conjugate_of(q);
            let error = error_quat(l.undone.q, l.to.q, rotations::rounded_quat(c));
            hinge_by(weight, rotations::matrix_of(c), exp_log::log_turn(error))
        }
        EdgeEndpoint::B => {
            let error = error_quat(l.undone.q, q, l.back.q);
            hinge_by(weight, rotations::matrix_of(q), exp_log::log_turn(error))
        }
    }
}

// Of the end whose quaternion is p, and is q, a step of the one and a step of the other in turn.
pub fn hinges_of(l: Link, end: EdgeEndpoint, p: Quat<f64>, q: Quat<f64>) -> Both<Hinge>
    ensures { result ≡ hinges_of l end p q }
{
    let weight = l.weight;
    match end {
        EdgeEndpoint::A => {
            let c = rotations::conjugate_of(p);
            let d = rotations::conjugate_of(q);
            let error = error_quat(l.undone.q, l.to.q, rotations::rounded_quat(c));
            let other = error_quat(l.undone.q, l.to.q, rotations::rounded_quat(d));
            let logs = exp_log::log_turns(error, other);
            Both {
                ahead: hinge_by(weight, rotations::matrix_of(c), logs.ahead),
                behind: hinge_by(weight, rotations::matrix_of(d), logs.behind),
            }
        }
        EdgeEndpoint::B => {
            let error = error_quat(l.undone.q, p, l.back.q);
            let other = error_quat(l.undone.q, q, l.back.q);
            let logs = exp_log::log_turns(error, other);
            Both {
                ahead: hinge_by(weight, rotations::matrix_of(p), logs.ahead),
                behind: hinge_by(weight, rotations::matrix_of(q), logs.behind),
            }
        }
    }
}

// The translations of b · a⁻¹ where the end is at the translations p and q.
fn between_of(
    l: Link,
    end: EdgeEndpoint,
    h: Both<Hinge>,
    p: Vec3<f64>,
    q: Vec3<f64>,
) -> Both<Vec3<f64>>
    ensures { result ≡ between_of l end h p q }
{
    match end {
        EdgeEndpoint::A => {
            let a = rotations::negated(rotations::turn_vec(h.ahead.matrix, p));
            let b = rotations::negated(rotations::turn_vec(h.behind.matrix, q));
            let a = rotations::rounded_vec(a);
            let b = rotations::rounded_vec(b);
            Both {
                ahead: carry(l.to_matrix, a, l.to.t),
                behind: carry(l.to_matrix, b, l.to.t),
            }
        }
        EdgeEndpoint::B => Both {
            ahead: carry(h.ahead.matrix, l.back.t, p),
            behind: carry(h.behind.matrix, l.back.t, q),
        },
    }
}

// The residuals with the end at the translations p and q, a step of the one and a step of the other in turn.
pub fn residuals_at(
    l: Link,
    end: EdgeEndpoint,
    h: Both<Hinge>,
    p: Vec3<f64>,
    q: Vec3<f64>,
) -> Both<Result<Twist<f32>, Failure>>
    ensures { result ≡ residuals_at l end h p q }
{
    let between = between_of(l, end, h, p, q);
    let a = carry(l.undone_matrix, between.ahead, l.undone.t);
    let b = carry(l.undone_matrix, between.behind, l.undone.t);
    let d = exp_log::log_at(h.ahead.log, a);
    let e = exp_log::log_at(h.behind.log, b);
    let t = weigh_vec(l.weight, d.t);
    let u = weigh_vec(l.weight, e.t);
    let r = h.ahead.rotation;
    let s = h.behind.rotation;
    Both {
        ahead: six_if_finite(Twist { t, r }),
        behind: six_if_finite(Twist { t: u, r: s }),
    }
}

fn tie(link: Link) -> Result<Linked, Failure>
    ensures { result ≡ tied link }
{
    let six = residual_of(link)?;
    Ok(Linked { link, six })
}

// An edge from a to b with its residual. The weight, what was measured, b and a are asked in this order.
pub fn linked_of(
    a: Result<Transform<f32>, Failure>,
    b: Result<Transform<f32>, Failure>,
    edge: Edge,
) -> Result<Linked, Failure>
    ensures { result ≡ linked_of a b edge }
{
    let undone = undone_of(edge)?;
    let to = b?;
    let from = a?;
    let b = rotations::widened(to);
    let u = rotations::widened(undone);
    tie(Link {
        back: rotations::widened(rotations::inverse_of(from)),
        to: b,
        to_matrix: rotations::matrix_of(b.q),
        undone: u,
        undone_matrix: rotations::matrix_of(u.q),
        weight: edge.weight,
    })
}

pub fn six_in(x: Result<Linked, Failure>) -> Result<Twist<f32>, Failure>
    ensures { result ≡ six_in x }
{
    Ok(x?.six)
}

// The residual of an edge from a to b.
pub fn weighted_relative_residual(a: Pose, b: Pose, edge: Edge) -> Result<Twist<f32>, Failure>
    ensures { result ≡ residual_of a b edge }
{
    let from = pose_conversion::checked_pose_to_se3(a);
    let to = pose_conversion::checked_pose_to_se3(b);
    six_in(linked_of(from, to, edge))
}

// The six numbers in order.
pub fn six_of(d: Twist<f32>) -> [f32; 6]
    ensures { result ≡ six_of d }
{
    [d.t.x, d.t.y, d.t.z, d.r.x, d.r.y, d.r.z]
}
