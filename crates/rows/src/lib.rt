// What the rows of the table of refusals ask (document 01): of the input as a whole, of one edge, of one fixed entry, of the free poses and the work; and
// rows 15 to 19, the settings, whole. The table itself, with rows 6 and 26, stands in the crate checks.
#![tactic(auto)]

ghost use Rattle.std.specs.Prelude.{◌≡◌, not, ◌||◌, eqb, ltb, leb};
ghost use Rattle.std.specs.Float.Ieee.Scale.{finite};
ghost use Rattle.numbers.specs.Refusals.{ask, says, verdict};
ghost use Rattle.pose_conversion.specs.Conversions.{finite_transform};
ghost use Rattle.rows.specs.Tests.{bad_gravity, unfit, too_many, short_work, bad_tolerance, bad_damping, fixed_faults, setting_rows};

use graph::{Edge, Manifold};
use numbers::Refusal;

// Gravity of this length or less points nowhere.
const SHORTEST: f64 = 1.0 / 1000000000.0;

#[derive(Clone, Copy)]
pub struct Settings {
    pub limit: u32,
    pub cost_tolerance: f32,
    pub gradient_tolerance: f32,
    pub damping: f32,
}

// The lengths of what is lent to be written.
#[derive(Clone, Copy)]
pub struct Room {
    pub work32: usize,
    pub work64: usize,
    pub out: usize,
}

// ---- rows 1 to 5: the input as a whole; what is asked of lists is their lengths, one by one as document 01 has them

fn bad_gravity(m: Manifold) -> bool
    ensures { result ≡ bad_gravity m }
{
    let Manifold::Gravity(g) = m else {
        return false;
    };
    let length = rotations::length_of(g);
    let number = pose_conversion::vec3_f64_is_finite(g);
    !number || !length.is_finite() || length <= SHORTEST
}

pub fn row_1(m: Manifold) -> Result<(), Refusal>
    ensures { result ≡ ask (bad_gravity m) 1 0 }
{
    numbers::ask(bad_gravity(m), 1, 0)
}

// Edges are 4 × ends, without a product that could be too large.
pub fn row_2(poses: usize, ends: usize, edges: usize, out: usize) -> Result<(), Refusal>
    ensures { result ≡ ask (unfit poses ends edges out) 2 0 }
{
    let fours = edges % 4 == 0 && edges / 4 == ends;
    let unfit = poses % 12 != 0 || ends % 2 != 0 || !fours || out != poses;
    numbers::ask(unfit, 2, 0)
}

pub fn row_3(poses: usize, edges: usize, fixed: usize) -> Result<(), Refusal>
    ensures { result ≡ ask (too_many poses edges fixed) 3 0 }
{
    numbers::ask(256 < poses || 1024 < edges || 256 < fixed, 3, 0)
}

pub fn row_4(poses: usize) -> Result<(), Refusal>
    ensures { result ≡ ask (eqb poses 0) 4 0 }
{
    numbers::ask(poses == 0, 4, 0)
}

pub fn row_5(edges: usize) -> Result<(), Refusal>
    ensures { result ≡ ask (eqb edges 0) 5 0 }
{
    numbers::ask(edges == 0, 5, 0)
}

// ---- rows 7 to 11: of one edge, of one entry

pub fn edge_7(n: usize, a: usize, b: usize, k: usize) -> Result<(), Refusal>
    ensures { result ≡ ask (leb n a || leb n b) 7 k }
{
    numbers::ask(n <= a || n <= b, 7, k)
}

pub fn edge_8(a: usize, b: usize, k: usize) -> Result<(), Refusal>
    ensures { result ≡ ask (eqb a b) 8 k }
{
    numbers::ask(a == b, 8, k)
}

pub fn edge_9(e: Edge, k: usize) -> Result<(), Refusal>
    ensures { result ≡ ask (not (finite e.weight)) 9 k }
{
    numbers::ask(!e.weight.is_finite(), 9, k)
}

pub fn edge_10(e: Edge, k: usize) -> Result<(), Refusal>
    ensures { result ≡ ask (not (finite_transform e.measured)) 10 k }
{
    numbers::ask(!pose_conversion::validate_se3(e.measured), 10, k)
}

pub fn fixed_11(n: usize, fixed: &[u32], k: usize) -> Result<(), Refusal>
    ensures { result ≡ says (fixed_faults n fixed.now) k }
{
    let x = numbers::index_at(fixed, k);
    numbers::ask(n <= x, 11, k)
}

// ---- rows 12 to 14

pub fn row_12(free: u32) -> Result<(), Refusal>
    ensures { result ≡ ask (eqb free 0) 12 0 }
{
    numbers::ask(free == 0, 12, 0)
}

pub fn row_13(free: u32) -> Result<(), Refusal>
    ensures { result ≡ ask (ltb 64 free) 13 0 }
{
    numbers::ask(64 < free, 13, 0)
}

pub fn row_14(n: usize, poses: usize, room: Room) -> Result<(), Refusal>
    ensures { result ≡ ask (short_work n poses room.work32 room.work64) 14 0 }
{
    let short = !profile::has_room(room.work32, n) || room.work64 / 24 < poses;
    numbers::ask(short, 14, 0)
}

// ---- rows 15 to 19: the settings

fn row_15(limit: u32) -> Result<(), Refusal>
    ensures { result ≡ ask (eqb limit 0) 15 0 }
{
    numbers::ask(limit == 0, 15, 0)
}

fn row_16(limit: u32) -> Result<(), Refusal>
    ensures { result ≡ ask (ltb 1000 limit) 16 0 }
{
    numbers::ask(1000 < limit, 16, 0)
}

fn bad_tolerance(t: f32) -> bool
    ensures { result ≡ bad_tolerance t }
{
    !t.is_finite() || t < 0.0
}

// Rows 17 and 18: of either tolerance.
fn tolerance_row(t: f32, number: u32) -> Result<(), Refusal>
    ensures { result ≡ ask (bad_tolerance t) number 0 }
{
    numbers::ask(bad_tolerance(t), number, 0)
}

fn row_19(d: f32) -> Result<(), Refusal>
    ensures { result ≡ ask (bad_damping d) 19 0 }
{
    let positive = 0.0 < d;
    numbers::ask(
        !d.is_finite() || !positive || decisions::LAMBDA_MAX < d,
        19,
        0,
    )
}

// Rows 15 to 19.
pub fn validate_settings(s: Settings) -> Result<(), Refusal>
    ensures { result ≡ verdict (setting_rows s) }
{
    row_15(s.limit)?;
    row_16(s.limit)?;
    tolerance_row(s.cost_tolerance, 17)?;
    tolerance_row(s.gradient_tolerance, 18)?;
    row_19(s.damping)
}
