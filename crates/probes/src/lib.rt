// The probes of a pose, for its Jacobians: its transforms after a step of 0.001 ahead and behind along each axis. What they share is worked out once.
#![tactic(auto)]

ghost use Rattle.std.specs.Prelude.{◌≡◌, Ok};
ghost use Rattle.pose_conversion.specs.Conversions.{rebuilt};
ghost use Rattle.probes.specs.Stances.{step_quat, step_shift, finite_matrix, turned_by, swing_of, settled_by, swung_by, swings_by, swings_at, joined};
ghost use Rattle.probes.specs.Stances.{probing_of, spin_of, stance_se3, stance_of, probes_se3, probe_gravity, probes_gravity, probes_by};

use exp_log::Both;
use graph::Manifold;
use numbers::Failure;
use rotations::{Mat3, Pose, Quat, Transform, Vec3};

// A pose is moved so far to each side, in its own units along each axis.
pub const NUM_JACOBIAN_EPS: f32 = 0.001;

// The turns of a gravity manifold's probes: of a shift, and of a step ahead and behind along the fourth axis.
#[derive(Clone, Copy)]
pub enum Probing {
    Se3,
    Gravity {
        still: Option<Quat<f64>>,
        ahead: Option<Quat<f64>>,
        behind: Option<Quat<f64>>,
    },
}

// The rotation of a probe with gravity, and its quaternion, where that could be had.
#[derive(Clone, Copy)]
pub struct Spin {
    pub rotation: Mat3<f64>,
    pub swing: Option<Quat<f32>>,
}

// What the probes of a pose share: with Se3 its transform, the matrix of that, and the quaternion of all shifts; with gravity its centre and its three
// rotations.
#[derive(Clone, Copy)]
pub enum Stance {
    Se3 {
        at: Transform<f64>,
        matrix: Mat3<f64>,
        shift: Option<Quat<f32>>,
    },
    Gravity {
        centre: Vec3<f64>,
        still: Spin,
        ahead: Spin,
        behind: Spin,
    },
}

// ---- the steps

// exp of a step along axis c, its quaternion: the same for all shifts.
fn step_quat(c: usize, ahead: bool) -> Quat<f64>
    ensures { result ≡ step_quat c ahead }
{
    let s = if ahead {
        f64::from(0.0005f32)
    } else {
        f64::from(-0.0005f32)
    };
    Quat {
        x: if c == 3 { s } else { 0.0 },
        y: if c == 4 { s } else { 0.0 },
        z: if c == 5 { s } else { 0.0 },
        w: if c < 3 {
            1.0
        } else if c < 6 {
            f64::from(0.9999999f32)
        } else {
            1.0
        },
    }
}

// The translation of a step along axis c, and of its exp.
fn step_shift(c: usize, ahead: bool) -> Vec3<f64>
    ensures { result ≡ step_shift c ahead }
{
    let s = if ahead {
        f64::from(NUM_JACOBIAN_EPS)
    } else {
        f64::from(-NUM_JACOBIAN_EPS)
    };
    Vec3 {
        x: if c == 0 { s } else { 0.0 },
        y: if c == 1 { s } else { 0.0 },
        z: if c == 2 { s } else { 0.0 },
    }
}

// ---- a probe's quaternion and translation

fn finite_matrix(m: Mat3<f32>) -> bool
    ensures { result ≡ finite_matrix m }
{
    pose_conversion::vec3_f32_is_finite(m.x)
        & (pose_conversion::vec3_f32_is_finite(m.y) & pose_conversion::vec3_f32_is_finite(m.z))
}

// The matrix of a quaternion: that of a transform that doesn't move.
fn matrix_again(q: Quat<f32>) -> Mat3<f32>
    ensures { result ≡ rebuilt (turned_by q) }
{
    let nowhere = Vec3 {
        x: 0.0,
        y: 0.0,
        z: 0.0,
    };
    pose_conversion::rebuilt_matrix(Transform { q, t: nowhere })
}

// The quaternion q, whose matrix m must be finite.
fn swing_of(q: Quat<f32>, m: Mat3<f32>) -> Option<Quat<f32>>
    ensures { result ≡ swing_of q m }
{
    if finite_matrix(m) { Some(q) } else { None }
}

// The quaternion of a rotation; its matrix must be finite, and then the rotation is.
fn settled(m: Mat3<f32>) -> Option<Quat<f32>>
    ensures { result ≡ settled_by m }
{
    let q = rotations::quat_of_matrix(m);
    swing_of(q, matrix_again(q))
}

// The pose of quaternion q moved by a step of quaternion e.
fn swing_by(q: Quat<f64>, e: Quat<f64>) -> Option<Quat<f32>>
    ensures { result ≡ swung_by q e }
{
    let b = rotations::rounded_quat(rotations::quat_product(q, e));
    settled(pose_conversion::mat3_to_f32(rotations::matrix_of(b)))
}

// Moved by a step ahead and by one behind along axis c: an operation of the one and of the other in turn, so that a processor works on both at once.
fn swings_by(q: Quat<f64>, c: usize) -> Both<Option<Quat<f32>>>
    ensures { result ≡ swings_by q c }
{
    let a = rotations::quat_product(q, step_quat(c, true));
    let b = rotations::quat_product(q, step_quat(c, false));
    let a = rotations::rounded_quat(a);
    let b = rotations::rounded_quat(b);
    let a = rotations::matrix_of(a);
    let b = rotations::matrix_of(b);
    let a = pose_conversion::mat3_to_f32(a);
    let b = pose_conversion::mat3_to_f32(b);
    let a = rotations::quat_of_matrix(a);
    let b = rotations::quat_of_matrix(b);
    let m = matrix_again(a);
    let n = matrix_again(b);
    Both {
        ahead: swing_of(a, m),
        behind: swing_of(b, n),
    }
}

// The same, with the quaternion of all shifts at hand.
fn swings_at(q: Quat<f64>, shift: Option<Quat<f32>>, c: usize) -> Both<Option<Quat<f32>>>
    ensures { result ≡ swings_at q shift c }
{
    let shifts = c < 3;
    if shifts {
        Both {
            ahead: shift,
            behind: shift,
        }
    } else {
        swings_by(q, c)
    }
}

fn join(s: Option<Quat<f32>>, t: Vec3<f32>) -> Result<Transform<f32>, Failure>
    ensures { result ≡ joined s t }
{
    let q = s.ok_or(Failure::Numerical)?;
    if pose_conversion::vec3_f32_is_finite(t) {
        Ok(Transform { q, t })
    } else {
        Err(Failure::Numerical)
    }
}

// ---- what is shared

// Once an assembly.
pub fn probing_of(m: Manifold) -> Probing
    ensures { result ≡ probing_of m }
{
    match m {
        Manifold::Se3 => Probing::Se3,
        Manifold::Gravity(g) => {
            let eps = f64::from(NUM_JACOBIAN_EPS);
            Probing::Gravity {
                still: exp_log::turn_of(rotations::scaled(-0.0, g)),
                ahead: exp_log::turn_of(rotations::scaled(-eps, g)),
                behind: exp_log::turn_of(rotations::scaled(eps, g)),
            }
        }
    }
}

// The rotation r turned by a probe's turn.
fn spin_of(r: Mat3<f64>, turn: Option<Quat<f64>>) -> Spin
    ensures { result ≡ spin_of r turn }
{
    let Some(q) = turn else {
        return Spin {
            rotation: r,
            swing: None,
        };
    };
    let rotation = rotations::mat_product(r, rotations::matrix_of(q));
    let swing = settled(pose_conversion::mat3_to_f32(rotation));
    Spin { rotation, swing }
}

fn stance_se3(base: Result<Transform<f32>, Failure>) -> Result<Stance, Failure>
    ensures { result ≡ stance_se3 base }
{
    let at = rotations::widened(base?);
    Ok(Stance::Se3 {
        at,
        matrix: rotations::matrix_of(at.q),
        shift: swing_by(at.q, step_quat(0, true)),
    })
}

// Once a free pose p, whose transform is `base`.
pub fn stance_of(
    probing: Probing,
    p: Pose,
    base: Result<Transform<f32>, Failure>,
) -> Result<Stance, Failure>
    ensures { result ≡ stance_of probing p base }
{
    match probing {
        Probing::Se3 => stance_se3(base),
        Probing::Gravity {
            still,
            ahead,
            behind,
        } => {
            if !pose_conversion::validate_pose(p) {
                return Err(Failure::Numerical);
            }
            let r = p.rotation;
            Ok(Stance::Gravity {
                centre: rotations::negated(rotations::turn_vec(
                    rotations::transposed(r),
                    p.translation,
                )),
                still: spin_of(r, still),
                ahead: spin_of(r, ahead),
                behind: spin_of(r, behind),
            })
        }
    }
}

// ---- the probes

fn probes_se3(
    at: Transform<f64>,
    matrix: Mat3<f64>,
    shift: Option<Quat<f32>>,
    c: usize,
) -> Both<Result<Transform<f32>, Failure>>
    ensures { result ≡ probes_se3 at matrix shift c }
{
    let a = rotations::sum_of(rotations::turn_vec(matrix, step_shift(c, true)), at.t);
    let b = rotations::sum_of(rotations::turn_vec(matrix, step_shift(c, false)), at.t);
    let a = pose_conversion::vec3_to_f32(a);
    let b = pose_conversion::vec3_to_f32(b);
    let swings = swings_at(at.q, shift, c);
    let ahead = swings.ahead;
    let behind = swings.behind;
    Both {
        ahead: join(ahead, a),
        behind: join(behind, b),
    }
}

fn probe_gravity(
    centre: Vec3<f64>,
    spin: Spin,
    c: usize,
    ahead: bool,
) -> Result<Transform<f32>, Failure>
    ensures { result ≡ probe_gravity centre spin c ahead }
{
    let moved = rotations::sum_of(centre, step_shift(c, ahead));
    let t = rotations::negated(rotations::turn_vec(spin.rotation, moved));
    let swing = spin.swing;
    join(swing, pose_conversion::vec3_to_f32(t))
}

fn probes_gravity(
    centre: Vec3<f64>,
    a: Spin,
    b: Spin,
    c: usize,
) -> Both<Result<Transform<f32>, Failure>>
    ensures { result ≡ probes_gravity centre a b c }
{
    Both {
        ahead: probe_gravity(centre, a, c, true),
        behind: probe_gravity(centre, b, c, false),
    }
}

fn probes_of(stance: Stance, c: usize) -> Both<Result<Transform<f32>, Failure>>
    ensures { result ≡ probes_by (Ok stance) c }
{
    match stance {
        Stance::Se3 { at, matrix, shift } => probes_se3(at, matrix, shift, c),
        Stance::Gravity {
            centre,
            still,
            ahead,
            behind,
        } => {
            if c >= 3 {
                probes_gravity(centre, ahead, behind, c)
            } else {
                probes_gravity(centre, still, still, c)
            }
        }
    }
}

// Along axis c; none where the stance could not be had.
pub fn probes_at(stance: Result<Stance, Failure>, c: usize) -> Both<Result<Transform<f32>, Failure>>
    ensures { result ≡ probes_by stance c }
{
    match stance {
        Ok(stance) => probes_of(stance, c),
        Err(why) => Both {
            ahead: Err(why),
            behind: Err(why),
        },
    }
}
