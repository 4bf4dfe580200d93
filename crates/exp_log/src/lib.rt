// exp and log of transforms, by series, all in f64; a transform or a twist is narrowed once, at the end (document 01, "Rotation arithmetic").
#![tactic(auto)]

ghost use Rattle.std.specs.Prelude.{◌≡◌};
ghost use Rattle.exp_log.specs.ExpLog.{axis, squared, squarings, sine_series, cosine_series, turn_by, turn_of};
ghost use Rattle.exp_log.specs.ExpLog.{small_bend, large_bend, bend, bent, moved_by, exp_of};
ghost use Rattle.exp_log.specs.ExpLog.{upright, halved, arc_series, angle_of, unbend, log_wide, narrowed_twist, log_of};
ghost use Rattle.exp_log.specs.LogParts.{angle_from, log_turn, log_turns, log_at};

use rotations::{Quat, Transform, Vec3};

// A translation and a turn: in f32 a step or a residual, in f64 the same before it is narrowed.
#[derive(Clone, Copy)]
pub struct Twist<T> {
    pub t: Vec3<T>,
    pub r: Vec3<T>,
}

// B and C of document 01.
#[derive(Clone, Copy)]
pub struct Bend {
    pub b: f64,
    pub c: f64,
}

// What a quaternion gives of a log: ω and D of document 01.
#[derive(Clone, Copy)]
pub struct LogTurn {
    pub w: Vec3<f64>,
    pub d: f64,
}

// Two of a kind, as of the probes ahead and behind.
#[derive(Clone, Copy)]
pub struct Both<T> {
    pub ahead: T,
    pub behind: T,
}

// ---- exp

fn axis_of(q: Quat<f64>) -> Vec3<f64>
    ensures { result ≡ axis q }
{
    Vec3 {
        x: q.x,
        y: q.y,
        z: q.z,
    }
}

// A turn twice as far.
fn square(q: Quat<f64>) -> Quat<f64>
    ensures { result ≡ squared q }
{
    let v = axis_of(q);
    let u = rotations::scaled(2.0 * q.w, v);
    Quat {
        x: u.x,
        y: u.y,
        z: u.z,
        w: q.w * q.w - rotations::dot_of(v, v),
    }
}

fn seven_times(q: Quat<f64>) -> Quat<f64>
    ensures { result ≡ squarings 7 q }
{
    let mut p = q;
    for i in 0..7usize {
        p = square(p);
    }
    p
}

const INV_FACT_3: f64 = 1.0 / 6.0;

const INV_FACT_4: f64 = 1.0 / 24.0;

const INV_FACT_5: f64 = 1.0 / 120.0;

const INV_FACT_6: f64 = 1.0 / 720.0;

const INV_FACT_7: f64 = 1.0 / 5040.0;

const INV_FACT_8: f64 = 1.0 / 40320.0;

const INV_FACT_9: f64 = 1.0 / 362880.0;

const INV_FACT_10: f64 = 1.0 / 3628800.0;

const INV_FACT_11: f64 = 1.0 / 39916800.0;

// The series go by Horner's rule, from the last coefficient; t is the negated square of the angle.
fn sine_series(t: f64) -> f64
    ensures { result ≡ sine_series t }
{
    let c = INV_FACT_9 + t * INV_FACT_11;
    let c = INV_FACT_7 + t * c;
    let c = INV_FACT_5 + t * c;
    let c = INV_FACT_3 + t * c;
    1.0 + t * c
}

fn cosine_series(t: f64) -> f64
    ensures { result ≡ cosine_series t }
{
    let c = INV_FACT_8 + t * INV_FACT_10;
    let c = INV_FACT_6 + t * c;
    let c = INV_FACT_4 + t * c;
    let c = 0.5 + t * c;
    1.0 + t * c
}

// The turn by w, with no test of its length.
pub fn turn_by(w: Vec3<f64>) -> Quat<f64>
    ensures { result ≡ turn_by w }
{
    let h = rotations::vec_over(w, 256.0);
    let t = -rotations::dot_of(h, h);
    let v = rotations::scaled(sine_series(t), h);
    seven_times(Quat {
        x: v.x,
        y: v.y,
        z: v.z,
        w: cosine_series(t),
    })
}

// Below it, the square of an angle goes by series.
const SMALL: f64 = 1.0 / 256.0;

fn small_bend(s: f64) -> Bend
    ensures { result ≡ small_bend s }
{
    Bend {
        b: 0.5 + s * (-INV_FACT_4 + s * INV_FACT_6),
        c: INV_FACT_3 + s * (-INV_FACT_5 + s * INV_FACT_7),
    }
}

fn large_bend(s: f64, q: Quat<f64>, w: Vec3<f64>) -> Bend
    ensures { result ≡ large_bend s q w }
{
    let theta = roots::sqrt64(s);
    let sine = rotations::dot_of(axis_of(q), w) / theta;
    Bend {
        b: 2.0 * sine * sine / s,
        c: (theta - 2.0 * sine * q.w) / (s * theta),
    }
}

fn bend_of(q: Quat<f64>, w: Vec3<f64>) -> Bend
    ensures { result ≡ bend q w }
{
    let s = rotations::dot_of(w, w);
    if s < SMALL {
        small_bend(s)
    } else {
        large_bend(s, q, w)
    }
}

// a by I + k[w] + l[w]².
fn bent_by(w: Vec3<f64>, k: f64, l: f64, a: Vec3<f64>) -> Vec3<f64>
    ensures { result ≡ bent w k l a }
{
    let once = rotations::cross_of(w, a);
    rotations::sum_of(
        rotations::sum_of(a, rotations::scaled(k, once)),
        rotations::scaled(l, rotations::cross_of(w, once)),
    )
}

// exp of a turn alone, in f64; none past the reach of exp.
pub fn turn_of(w: Vec3<f64>) -> Option<Quat<f64>>
    ensures { result ≡ turn_of w }
{
    if rotations::dot_of(w, w) > 4096.0 {
        return None;
    }
    Some(turn_by(w))
}

fn moved_by(t: Vec3<f64>, w: Vec3<f64>, q: Quat<f64>) -> Transform<f32>
    ensures { result ≡ moved_by t w q }
{
    let k = bend_of(q, w);
    rotations::finish(Transform {
        q,
        t: bent_by(w, k.b, k.c, t),
    })
}

// exp of the twist of translation t and turn w; none past the reach of exp.
pub fn exp(t: Vec3<f64>, w: Vec3<f64>) -> Option<Transform<f32>>
    ensures { result ≡ exp_of t w }
{
    Some(moved_by(t, w, turn_of(w)?))
}

// ---- log

// The same turn with w at least 0.
fn upright_of(q: Quat<f64>) -> Quat<f64>
    ensures { result ≡ upright q }
{
    if q.w < 0.0 {
        Quat {
            x: -q.x,
            y: -q.y,
            z: -q.z,
            w: -q.w,
        }
    } else {
        q
    }
}

// Half the angle.
fn half(q: Quat<f64>) -> Quat<f64>
    ensures { result ≡ halved q }
{
    let v = axis_of(q);
    Quat {
        x: q.x,
        y: q.y,
        z: q.z,
        w: q.w + roots::sqrt64(rotations::dot_of(v, v) + q.w * q.w),
    }
}

const THIRD: f64 = 1.0 / 3.0;

const FIFTH: f64 = 1.0 / 5.0;

const SEVENTH: f64 = 1.0 / 7.0;

const NINTH: f64 = 1.0 / 9.0;

const ELEVENTH: f64 = 1.0 / 11.0;

const THIRTEENTH: f64 = 1.0 / 13.0;

const FIFTEENTH: f64 = 1.0 / 15.0;

// t is the negated square of the tangent.
fn arc_series(t: f64) -> f64
    ensures { result ≡ arc_series t }
{
    let c = THIRTEENTH + t * FIFTEENTH;
    let c = ELEVENTH + t * c;
    let c = NINTH + t * c;
    let c = SEVENTH + t * c;
    let c = FIFTH + t * c;
    let c = THIRD + t * c;
    1.0 + t * c
}

// The turn of a quaternion halved three times: (16 a) Σ(−a·a)ᵏ/(2k+1), a = v/w.
fn angle_from(h: Quat<f64>) -> Vec3<f64>
    ensures { result ≡ angle_from h }
{
    let a = rotations::vec_over(axis_of(h), h.w);
    rotations::scaled(
        arc_series(-rotations::dot_of(a, a)),
        rotations::scaled(16.0, a),
    )
}

// The turn of an upright quaternion, as angle times axis.
fn angle_of(q: Quat<f64>) -> Vec3<f64>
    ensures { result ≡ angle_of q }
{
    angle_from(half(half(half(q))))
}

const TWELFTH: f64 = 1.0 / 12.0;

const INV_30240: f64 = 1.0 / 30240.0;

// D of document 01.
fn unbend_of(q: Quat<f64>, w: Vec3<f64>) -> f64
    ensures { result ≡ unbend q w }
{
    let s = rotations::dot_of(w, w);
    if s < SMALL {
        return TWELFTH + s * (INV_FACT_6 + s * INV_30240);
    }
    let v = axis_of(q);
    (1.0 - roots::sqrt64(s) / 2.0 * q.w / roots::sqrt64(rotations::dot_of(v, v))) / s
}

// ω and D, from a quaternion alone.
pub fn log_turn(q: Quat<f64>) -> LogTurn
    ensures { result ≡ log_turn q }
{
    let u = upright_of(q);
    let w = angle_of(u);
    LogTurn {
        w,
        d: unbend_of(u, w),
    }
}

// Those of p and of q, a step of the one and a step of the other in turn: the roots of a log wait for each other, those of two don't.
pub fn log_turns(p: Quat<f64>, q: Quat<f64>) -> Both<LogTurn>
    ensures { result ≡ log_turns p q }
{
    let a = upright_of(p);
    let b = upright_of(q);
    let a1 = half(a);
    let b1 = half(b);
    let a2 = half(a1);
    let b2 = half(b1);
    let w = angle_from(half(a2));
    let v = angle_from(half(b2));
    Both {
        ahead: LogTurn {
            w,
            d: unbend_of(a, w),
        },
        behind: LogTurn {
            w: v,
            d: unbend_of(b, v),
        },
    }
}

// The log of a transform whose translation is t, by ω and D of its quaternion.
pub fn log_at(k: LogTurn, t: Vec3<f64>) -> Twist<f64>
    ensures { result ≡ log_at k t }
{
    let w = k.w;
    Twist {
        t: bent_by(w, -0.5, k.d, t),
        r: w,
    }
}

// log before its six numbers are narrowed.
fn log_wide(a: Transform<f32>) -> Twist<f64>
    ensures { result ≡ log_wide a }
{
    let u = rotations::widened(a);
    log_at(log_turn(u.q), u.t)
}

pub fn narrow_twist(d: Twist<f64>) -> Twist<f32>
    ensures { result ≡ narrowed_twist d }
{
    Twist {
        t: Vec3 {
            x: rounding::narrow(d.t.x),
            y: rounding::narrow(d.t.y),
            z: rounding::narrow(d.t.z),
        },
        r: Vec3 {
            x: rounding::narrow(d.r.x),
            y: rounding::narrow(d.r.y),
            z: rounding::narrow(d.r.z),
        },
    }
}

pub fn log(a: Transform<f32>) -> Twist<f32>
    ensures { result ≡ log_of a }
{
    narrow_twist(log_wide(a))
}
