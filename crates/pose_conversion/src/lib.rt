// A pose to a transform and back: pose_conversion.rs, and the validated forms of sparse_pgo.rs.
#![tactic(auto)]

ghost use Rattle.std.specs.Prelude.{◌≡◌};
ghost use Rattle.pose_conversion.specs.Conversions.{vec_f32, vec_f64, mat_f32, mat_f64, transform_of, rebuilt, pose_of};
ghost use Rattle.pose_conversion.specs.Conversions.{finite3, finite_pose, finite_transform, valid_transform, valid_pose, checked_transform, checked_pose};

use numbers::Failure;
use rotations::{Mat3, Pose, Transform, Vec3};

// Conversions and tests have the Rust's names, a format each, so that a reader can hold the two side by side; `From` and one generic test would hide them.

pub fn vec3_to_f32(v: Vec3<f64>) -> Vec3<f32>
    ensures { result ≡ vec_f32 v }
{
    Vec3 {
        x: rounding::narrow(v.x),
        y: rounding::narrow(v.y),
        z: rounding::narrow(v.z),
    }
}

pub fn vec3_to_f64(v: Vec3<f32>) -> Vec3<f64>
    ensures { result ≡ vec_f64 v }
{
    Vec3 {
        x: f64::from(v.x),
        y: f64::from(v.y),
        z: f64::from(v.z),
    }
}

pub fn mat3_to_f32(m: Mat3<f64>) -> Mat3<f32>
    ensures { result ≡ mat_f32 m }
{
    Mat3 {
        x: vec3_to_f32(m.x),
        y: vec3_to_f32(m.y),
        z: vec3_to_f32(m.z),
    }
}

pub fn mat3_to_f64(m: Mat3<f32>) -> Mat3<f64>
    ensures { result ≡ mat_f64 m }
{
    Mat3 {
        x: vec3_to_f64(m.x),
        y: vec3_to_f64(m.y),
        z: vec3_to_f64(m.z),
    }
}

pub fn pose_to_se3(p: Pose) -> Transform<f32>
    ensures { result ≡ transform_of p }
{
    Transform {
        q: rotations::quat_of_matrix(mat3_to_f32(p.rotation)),
        t: vec3_to_f32(p.translation),
    }
}

// The matrix of a transform's quaternion, in f64, then narrowed.
pub fn rebuilt_matrix(a: Transform<f32>) -> Mat3<f32>
    ensures { result ≡ rebuilt a }
{
    let u = rotations::widened(a);
    mat3_to_f32(rotations::matrix_of(u.q))
}

pub fn se3_to_pose(a: Transform<f32>) -> Pose
    ensures { result ≡ pose_of a }
{
    Pose {
        rotation: mat3_to_f64(rebuilt_matrix(a)),
        translation: vec3_to_f64(a.t),
    }
}

pub fn vec3_f64_is_finite(v: Vec3<f64>) -> bool
    ensures { result ≡ finite3 v.x v.y v.z }
{
    v.x.is_finite() & (v.y.is_finite() & v.z.is_finite())
}

pub fn vec3_f32_is_finite(v: Vec3<f32>) -> bool
    ensures { result ≡ finite3 v.x v.y v.z }
{
    v.x.is_finite() & (v.y.is_finite() & v.z.is_finite())
}

// Whether all twelve numbers are finite.
pub fn validate_pose(p: Pose) -> bool
    ensures { result ≡ finite_pose p }
{
    let m = p.rotation;
    vec3_f64_is_finite(m.x)
        & (vec3_f64_is_finite(m.y) & (vec3_f64_is_finite(m.z) & vec3_f64_is_finite(p.translation)))
}

// Whether the rebuilt matrix and the translation are finite; the quaternion itself isn't asked.
pub fn validate_se3(a: Transform<f32>) -> bool
    ensures { result ≡ finite_transform a }
{
    let m = rebuilt_matrix(a);
    vec3_f32_is_finite(m.x)
        & (vec3_f32_is_finite(m.y) & (vec3_f32_is_finite(m.z) & vec3_f32_is_finite(a.t)))
}

pub fn valid_se3(a: Transform<f32>) -> Result<Transform<f32>, Failure>
    ensures { result ≡ valid_transform a }
{
    if validate_se3(a) {
        Ok(a)
    } else {
        Err(Failure::Numerical)
    }
}

pub fn valid_pose(p: Pose) -> Result<Pose, Failure>
    ensures { result ≡ valid_pose p }
{
    if validate_pose(p) {
        Ok(p)
    } else {
        Err(Failure::Numerical)
    }
}

// sparse_pgo.rs's pose_to_se3.
pub fn checked_pose_to_se3(p: Pose) -> Result<Transform<f32>, Failure>
    ensures { result ≡ checked_transform p }
{
    if validate_pose(p) {
        valid_se3(pose_to_se3(p))
    } else {
        Err(Failure::Numerical)
    }
}

// sparse_pgo.rs's se3_to_pose.
pub fn checked_se3_to_pose(a: Transform<f32>) -> Result<Pose, Failure>
    ensures { result ≡ checked_pose a }
{
    if validate_se3(a) {
        valid_pose(se3_to_pose(a))
    } else {
        Err(Failure::Numerical)
    }
}
