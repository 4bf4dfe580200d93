// Rotation arithmetic of document 01: vectors, matrices and quaternions in f64, transforms in f32. (exp and log: the crate exp_log.)
#![tactic(auto)]

ghost use Rattle.std.specs.Prelude.{◌≡◌};
ghost use Rattle.rotations.specs.Rotation.{dot, cross, plus, minus, times, matrix_of, turned, transpose, mat_product, conjugate, quat_product, over};
ghost use Rattle.rotations.specs.Rotation.{length_of, unit_vec};
ghost use Rattle.rotations.specs.Rotation.{wide, finished, rounded_vec, rounded_quat, product, inverse};
ghost use Rattle.rotations.specs.FromMatrix.{halved_by, quat_of_matrix};

// Vectors, quaternions, matrices and transforms of numbers of either format: f64 while they are worked with, f32 as they are kept.
#[derive(Clone, Copy)]
pub struct Vec3<T> {
    pub x: T,
    pub y: T,
    pub z: T,
}

#[derive(Clone, Copy)]
pub struct Quat<T> {
    pub x: T,
    pub y: T,
    pub z: T,
    pub w: T,
}

// By columns.
#[derive(Clone, Copy)]
pub struct Mat3<T> {
    pub x: Vec3<T>,
    pub y: Vec3<T>,
    pub z: Vec3<T>,
}

// The Rust's SE3F32, and the same in f64, before it is narrowed.
#[derive(Clone, Copy)]
pub struct Transform<T> {
    pub q: Quat<T>,
    pub t: Vec3<T>,
}

// The Rust's Pose3d: rotation columns x, y, z, then translation; twelve f64.
#[derive(Clone, Copy)]
pub struct Pose {
    pub rotation: Mat3<f64>,
    pub translation: Vec3<f64>,
}

// ---- vectors

pub fn dot_of(a: Vec3<f64>, b: Vec3<f64>) -> f64
    ensures { result ≡ dot a b }
{
    a.x * b.x + a.y * b.y + a.z * b.z
}

pub fn cross_of(a: Vec3<f64>, b: Vec3<f64>) -> Vec3<f64>
    ensures { result ≡ cross a b }
{
    Vec3 {
        x: a.y * b.z - a.z * b.y,
        y: a.z * b.x - a.x * b.z,
        z: a.x * b.y - a.y * b.x,
    }
}

pub fn sum_of(a: Vec3<f64>, b: Vec3<f64>) -> Vec3<f64>
    ensures { result ≡ plus a b }
{
    Vec3 {
        x: a.x + b.x,
        y: a.y + b.y,
        z: a.z + b.z,
    }
}

pub fn negated(a: Vec3<f64>) -> Vec3<f64>
    ensures { result ≡ minus a }
{
    Vec3 {
        x: -a.x,
        y: -a.y,
        z: -a.z,
    }
}

pub fn scaled(k: f64, a: Vec3<f64>) -> Vec3<f64>
    ensures { result ≡ times k a }
{
    Vec3 {
        x: k * a.x,
        y: k * a.y,
        z: k * a.z,
    }
}

pub fn vec_over(a: Vec3<f64>, k: f64) -> Vec3<f64>
    ensures { result ≡ over a k }
{
    Vec3 {
        x: a.x / k,
        y: a.y / k,
        z: a.z / k,
    }
}

pub fn length_of(a: Vec3<f64>) -> f64
    ensures { result ≡ length_of a }
{
    roots::sqrt64(dot_of(a, a))
}

// Divided by its length.
pub fn unit_vec(a: Vec3<f64>) -> Vec3<f64>
    ensures { result ≡ unit_vec a }
{
    vec_over(a, length_of(a))
}

// ---- matrices and quaternions

pub fn matrix_of(q: Quat<f64>) -> Mat3<f64>
    ensures { result ≡ matrix_of q }
{
    Mat3 {
        x: Vec3 {
            x: 1.0 - 2.0 * (q.y * q.y + q.z * q.z),
            y: 2.0 * (q.x * q.y + q.z * q.w),
            z: 2.0 * (q.x * q.z - q.y * q.w),
        },
        y: Vec3 {
            x: 2.0 * (q.x * q.y - q.z * q.w),
            y: 1.0 - 2.0 * (q.x * q.x + q.z * q.z),
            z: 2.0 * (q.y * q.z + q.x * q.w),
        },
        z: Vec3 {
            x: 2.0 * (q.x * q.z + q.y * q.w),
            y: 2.0 * (q.y * q.z - q.x * q.w),
            z: 1.0 - 2.0 * (q.x * q.x + q.y * q.y),
        },
    }
}

// A vector turned by a matrix.
pub fn turn_vec(m: Mat3<f64>, v: Vec3<f64>) -> Vec3<f64>
    ensures { result ≡ turned m v }
{
    Vec3 {
        x: m.x.x * v.x + m.y.x * v.y + m.z.x * v.z,
        y: m.x.y * v.x + m.y.y * v.y + m.z.y * v.z,
        z: m.x.z * v.x + m.y.z * v.y + m.z.z * v.z,
    }
}

// Its rows as columns.
pub fn transposed(m: Mat3<f64>) -> Mat3<f64>
    ensures { result ≡ transpose m }
{
    Mat3 {
        x: Vec3 {
            x: m.x.x,
            y: m.y.x,
            z: m.z.x,
        },
        y: Vec3 {
            x: m.x.y,
            y: m.y.y,
            z: m.z.y,
        },
        z: Vec3 {
            x: m.x.z,
            y: m.y.z,
            z: m.z.z,
        },
    }
}

pub fn mat_product(a: Mat3<f64>, b: Mat3<f64>) -> Mat3<f64>
    ensures { result ≡ mat_product a b }
{
    Mat3 {
        x: turn_vec(a, b.x),
        y: turn_vec(a, b.y),
        z: turn_vec(a, b.z),
    }
}

pub fn conjugate_of(q: Quat<f64>) -> Quat<f64>
    ensures { result ≡ conjugate q }
{
    Quat {
        x: -q.x,
        y: -q.y,
        z: -q.z,
        w: q.w,
    }
}

pub fn quat_product(a: Quat<f64>, b: Quat<f64>) -> Quat<f64>
    ensures { result ≡ quat_product a b }
{
    Quat {
        x: a.w * b.x + a.x * b.w + a.y * b.z - a.z * b.y,
        y: a.w * b.y - a.x * b.z + a.y * b.w + a.z * b.x,
        z: a.w * b.z + a.x * b.y - a.y * b.x + a.z * b.w,
        w: a.w * b.w - a.x * b.x - a.y * b.y - a.z * b.z,
    }
}

// ---- transforms

// A transform's numbers in f64.
pub fn widened(a: Transform<f32>) -> Transform<f64>
    ensures { result ≡ wide a }
{
    Transform {
        q: Quat {
            x: f64::from(a.q.x),
            y: f64::from(a.q.y),
            z: f64::from(a.q.z),
            w: f64::from(a.q.w),
        },
        t: Vec3 {
            x: f64::from(a.t.x),
            y: f64::from(a.t.y),
            z: f64::from(a.t.z),
        },
    }
}

// And back, each number narrowed once.
pub fn finish(a: Transform<f64>) -> Transform<f32>
    ensures { result ≡ finished a }
{
    Transform {
        q: Quat {
            x: rounding::narrow(a.q.x),
            y: rounding::narrow(a.q.y),
            z: rounding::narrow(a.q.z),
            w: rounding::narrow(a.q.w),
        },
        t: Vec3 {
            x: rounding::narrow(a.t.x),
            y: rounding::narrow(a.t.y),
            z: rounding::narrow(a.t.z),
        },
    }
}

// Each number narrowed, and an f64 again.
pub fn rounded_vec(v: Vec3<f64>) -> Vec3<f64>
    ensures { result ≡ rounded_vec v }
{
    Vec3 {
        x: rounding::round32(v.x),
        y: rounding::round32(v.y),
        z: rounding::round32(v.z),
    }
}

pub fn rounded_quat(q: Quat<f64>) -> Quat<f64>
    ensures { result ≡ rounded_quat q }
{
    Quat {
        x: rounding::round32(q.x),
        y: rounding::round32(q.y),
        z: rounding::round32(q.z),
        w: rounding::round32(q.w),
    }
}

pub fn product_of(a: Transform<f32>, b: Transform<f32>) -> Transform<f32>
    ensures { result ≡ product a b }
{
    let u = widened(a);
    let v = widened(b);
    let m = matrix_of(u.q);
    finish(Transform {
        q: quat_product(u.q, v.q),
        t: sum_of(turn_vec(m, v.t), u.t),
    })
}

pub fn inverse_of(a: Transform<f32>) -> Transform<f32>
    ensures { result ≡ inverse a }
{
    let u = widened(a);
    let q = conjugate_of(u.q);
    let m = matrix_of(q);
    finish(Transform {
        q,
        t: negated(turn_vec(m, u.t)),
    })
}

// ---- quaternion from matrix

// (x, y, z, w) times 0.5/√p.
fn halved_by(p: f32, x: f32, y: f32, z: f32, w: f32) -> Quat<f32>
    ensures { result ≡ halved_by p x y z w }
{
    let k = 0.5 / roots::sqrt32(p);
    Quat {
        x: x * k,
        y: y * k,
        z: z * k,
        w: w * k,
    }
}

pub fn quat_of_matrix(m: Mat3<f32>) -> Quat<f32>
    ensures { result ≡ quat_of_matrix m }
{
    if m.z.z <= 0.0 {
        let d = m.y.y - m.x.x;
        let k = 1.0 - m.z.z;
        if d <= 0.0 {
            return halved_by(k - d, k - d, m.x.y + m.y.x, m.x.z + m.z.x, m.y.z - m.z.y);
        }
        return halved_by(k + d, m.x.y + m.y.x, k + d, m.y.z + m.z.y, m.z.x - m.x.z);
    }
    let s = m.y.y + m.x.x;
    let k = 1.0 + m.z.z;
    if s <= 0.0 {
        return halved_by(k - s, m.x.z + m.z.x, m.y.z + m.z.y, k - s, m.x.y - m.y.x);
    }
    halved_by(k + s, m.y.z - m.z.y, m.z.x - m.x.z, m.x.y - m.y.x, k + s)
}
