// The layers below a run again: numbers, rotations, retraction and residual, one item at a time.
use crate::bytes::Recorded;
use crate::{bytes, inputs};
use exp_log::Twist;
use graph::{Edge, Manifold};
use numbers::Failure;
use rotations::{Mat3, Pose, Transform};
use std::array;

// ---- reading

fn edge_at(b: &[u8], at: usize) -> Edge {
    let xs: [f32; 8] = bytes::list(b, at);
    graph::edge_at(&xs, 0)
}

fn transform_at(b: &[u8], at: usize) -> Transform<f32> {
    edge_at(b, at).measured
}

fn pose_at(b: &[u8], at: usize) -> Pose {
    let xs: [f64; 12] = bytes::list(b, at);
    graph::pose_at(&xs, 0)
}

// The first n of six, then +0.
fn delta_at(b: &[u8], at: usize, n: usize) -> [f32; 6] {
    array::from_fn(|j| if j < n { f32::read(b, at, j) } else { 0.0 })
}

// ---- comparing: a status of 0, then the numbers, from a fixed place of a record on

fn answers<T: Recorded>(xs: &[T], b: &[u8], at: usize) -> bool {
    u32::read(b, at, 0) == 0 && bytes::same(xs, b, at.saturating_add(4))
}

fn same_transform(a: Transform<f32>, b: &[u8], at: usize) -> bool {
    answers(&[a.q.x, a.q.y, a.q.z, a.q.w, a.t.x, a.t.y, a.t.z], b, at)
}

fn same_twist(d: Twist<f32>, b: &[u8], at: usize) -> bool {
    answers(&residual::six_of(d), b, at)
}

fn same_pose(p: Pose, b: &[u8], at: usize) -> bool {
    answers(&graph::numbers_of(p), b, at)
}

fn fails(b: &[u8], at: usize) -> bool {
    u32::read(b, at, 0) == 1
}

fn same_restored(r: Result<Pose, Failure>, b: &[u8], at: usize) -> bool {
    match r {
        Ok(p) => same_pose(p, b, at),
        Err(_) => fails(b, at),
    }
}

// ---- numbers

pub fn same_narrow(b: &[u8]) -> bool {
    rounding::narrow(f64::read(b, 0, 0)).is_same(f32::read(b, 8, 0))
}

pub fn same_sqrt32(b: &[u8]) -> bool {
    roots::sqrt32(f32::read(b, 0, 0)).is_same(f32::read(b, 4, 0))
}

pub fn same_sqrt64(b: &[u8]) -> bool {
    roots::sqrt64(f64::read(b, 0, 0)).is_same(f64::read(b, 8, 0))
}

// ---- rotations

pub fn same_quaternion(b: &[u8]) -> bool {
    let q = rotations::quat_of_matrix(Mat3 {
        x: inputs::vec_at(b, 0),
        y: inputs::vec_at(b, 12),
        z: inputs::vec_at(b, 24),
    });
    answers(&[q.x, q.y, q.z, q.w], b, 36)
}

pub fn same_product(b: &[u8]) -> bool {
    same_transform(
        rotations::product_of(transform_at(b, 0), transform_at(b, 28)),
        b,
        56,
    )
}

pub fn same_inverse(b: &[u8]) -> bool {
    same_transform(rotations::inverse_of(transform_at(b, 0)), b, 28)
}

pub fn same_exp(b: &[u8]) -> bool {
    let t = pose_conversion::vec3_to_f64(inputs::vec_at(b, 0));
    let w = pose_conversion::vec3_to_f64(inputs::vec_at(b, 12));
    match exp_log::exp(t, w) {
        Some(a) => same_transform(a, b, 24),
        None => fails(b, 24),
    }
}

pub fn same_log(b: &[u8]) -> bool {
    same_twist(exp_log::log(transform_at(b, 0)), b, 28)
}

// ---- poses

pub fn same_retract(b: &[u8]) -> bool {
    same_restored(
        retraction::retract(Manifold::Se3, pose_at(b, 0), delta_at(b, 96, 6)),
        b,
        120,
    )
}

// Gravity is taken as the unit vector, as it stands.
pub fn same_retract_with_gravity(b: &[u8]) -> bool {
    let m = Manifold::Gravity(inputs::vec_at(b, 0));
    same_restored(
        retraction::retract(m, pose_at(b, 24), delta_at(b, 120, 4)),
        b,
        136,
    )
}

pub fn same_residual(b: &[u8]) -> bool {
    match residual::weighted_relative_residual(pose_at(b, 0), pose_at(b, 96), edge_at(b, 192)) {
        Ok(d) => same_twist(d, b, 224),
        Err(_) => fails(b, 224),
    }
}
