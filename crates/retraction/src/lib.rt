// Retraction on each manifold (sparse_pgo.rs): a pose moved by a step.
#![tactic(auto)]

ghost use Rattle.std.specs.Prelude.{◌≡◌, ◌+◌, ◌≤◌};
ghost use Rattle.std.specs.Float.Ieee.Scale.{finite};
ghost use Rattle.numbers.specs.Notation.{number_at};
ghost use Rattle.numbers.specs.Walks.{every};
ghost use Rattle.rotations.specs.Rotation.{vec};
ghost use Rattle.retraction.specs.Retraction.{retract_se3, centre_of, turned_pose, retract_gravity, retract_of, unit_of};

use graph::Manifold;
use numbers::Failure;
use rotations::{Pose, Quat, Vec3};

// A gravity manifold with gravity of length 1, which is what `retract` takes (normalized_gravity).
pub fn unit_manifold(m: Manifold) -> Manifold
    ensures { result ≡ unit_of m }
{
    match m {
        Manifold::Se3 => Manifold::Se3,
        Manifold::Gravity(g) => Manifold::Gravity(rotations::unit_vec(g)),
    }
}

// Whether the first n numbers of a step are finite.
fn validate_delta(delta: [f32; 6], n: usize) -> bool
    requires { n ≤ 6 }
    ensures { result ≡ every (λ j. finite (number_at delta j)) n }
{
    let mut good = true;
    for j in 0..n {
        good = good & delta[j].is_finite();
    }
    good
}

// Three numbers of a step from the j-th on.
fn three_from(delta: [f32; 6], j: usize) -> Vec3<f64>
    requires { j ≤ 3 }
    ensures { result ≡ vec (number_at delta j) (number_at delta (j + 1)) (number_at delta (j + 2)) }
{
    Vec3 {
        x: f64::from(delta[j]),
        y: f64::from(delta[j + 1]),
        z: f64::from(delta[j + 2]),
    }
}

// Se3Manifold's retract.
fn retract_se3(p: Pose, delta: [f32; 6]) -> Result<Pose, Failure>
    ensures { result ≡ retract_se3 p delta }
{
    if !validate_delta(delta, 6) {
        return Err(Failure::Numerical);
    }
    let a = pose_conversion::checked_pose_to_se3(p)?;
    let moved = exp_log::exp(three_from(delta, 0), three_from(delta, 3));
    let e = moved.ok_or(Failure::Numerical)?;
    pose_conversion::checked_se3_to_pose(rotations::product_of(a, e))
}

// The pose's centre, moved by the first three numbers of a step.
fn centre_of(p: Pose, delta: [f32; 6]) -> Vec3<f64>
    ensures { result ≡ centre_of p delta }
{
    let centre = rotations::negated(rotations::turn_vec(
        rotations::transposed(p.rotation),
        p.translation,
    ));
    rotations::sum_of(centre, three_from(delta, 0))
}

// The pose turned by q, its centre at `centre`.
fn turned_pose(p: Pose, centre: Vec3<f64>, q: Quat<f64>) -> Pose
    ensures { result ≡ turned_pose p centre q }
{
    let rotation = rotations::mat_product(p.rotation, rotations::matrix_of(q));
    Pose {
        rotation,
        translation: rotations::negated(rotations::turn_vec(rotation, centre)),
    }
}

// GravityManifold's retract; g has length 1.
fn retract_gravity(g: Vec3<f64>, p: Pose, delta: [f32; 6]) -> Result<Pose, Failure>
    ensures { result ≡ retract_gravity g p delta }
{
    if !(pose_conversion::validate_pose(p) & validate_delta(delta, 4)) {
        return Err(Failure::Numerical);
    }
    let yaw = -f64::from(delta[3]);
    let turned = exp_log::turn_of(rotations::scaled(yaw, g));
    let q = turned.ok_or(Failure::Numerical)?;
    pose_conversion::valid_pose(turned_pose(p, centre_of(p, delta), q))
}

// p moved by the first 6 or 4 numbers of delta, translation first.
pub fn retract(m: Manifold, p: Pose, delta: [f32; 6]) -> Result<Pose, Failure>
    ensures { result ≡ retract_of m p delta }
{
    match m {
        Manifold::Se3 => retract_se3(p, delta),
        Manifold::Gravity(g) => retract_gravity(g, p, delta),
    }
}
