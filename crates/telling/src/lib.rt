// Answers as the numbers that a host program reads (the C interface): arrays of what a layer, a run, a scan or a job comes to. Nothing is lent here. Where two
// differ in a length, eight or nine, each is the definition's own list, one line of numbers.
#![tactic(auto)]

ghost use Rattle.std.specs.Prelude.{◌≡◌};
ghost use Rattle.telling.specs.Telling.{quat_numbers, transform_numbers, place32, stop_number, flag, joined_eight, joined_costs};
ghost use Rattle.telling.specs.Telling.{refused_eight, answer_eight};
ghost use Rattle.telling.specs.Telling.{read_eight, read_number, read_answer, written_number, written_two, judged_nine, refused_nine, measures_four};
ghost use Rattle.telling.specs.Telling.{fits_closing};

use decisions::Why;
use job::SettingBits;
use job_records::Tally;
use numbers::Refusal;
use printable::Measures;
use rotations::{Quat, Transform};
use sparse_pgo::Joined;

// ---- the layers

pub fn quat_numbers(q: Quat<f32>) -> [f32; 4]
    ensures { result ≡ quat_numbers q }
{
    [q.x, q.y, q.z, q.w]
}

pub fn transform_numbers(a: Transform<f32>) -> [f32; 7]
    ensures { result ≡ transform_numbers a }
{
    [a.q.x, a.q.y, a.q.z, a.q.w, a.t.x, a.t.y, a.t.z]
}

// ---- a run

pub fn place_of(place: usize) -> u32
    ensures { result ≡ place32 place }
{
    u32::try_from(place).unwrap_or(u32::MAX)
}

pub fn stop_number(w: Why) -> u32
    ensures { result ≡ stop_number w }
{
    match w {
        Why::Budget => 1,
        Why::Gradient => 2,
        Why::Step => 3,
        Why::Cost => 4,
        Why::Damping => 5,
    }
}

pub fn flag_of(b: bool) -> u32
    ensures { result ≡ flag b }
{
    u32::from(b)
}

pub fn joined_eight(j: Joined) -> [u32; 8]
    ensures { result ≡ joined_eight j }
{
    let why = j.why;
    let stop = stop_number(why);
    let converged = flag_of(j.converged);
    [
        0,
        0,
        j.iterations,
        converged,
        j.accepted,
        j.rejected,
        j.failed,
        stop,
    ]
}

pub fn joined_costs(j: Joined) -> [f32; 2]
    ensures { result ≡ joined_costs j }
{
    [j.first_cost, j.last_cost]
}

pub fn refused_eight(r: Refusal) -> [u32; 8]
    ensures { result ≡ refused_eight r }
{
    [r.number, place_of(r.place), 0, 0, 0, 0, 0, 0]
}

pub fn answer_eight(a: Result<Joined, Refusal>) -> [u32; 8]
    ensures { result ≡ answer_eight a }
{
    match a {
        Ok(j) => joined_eight(j),
        Err(r) => refused_eight(r),
    }
}

// ---- a scan

// A run's eight, then whether it is usable.
pub fn judged_nine(j: Joined, usable: bool) -> [u32; 9]
    ensures { result ≡ judged_nine j usable }
{
    let why = j.why;
    let stop = stop_number(why);
    let converged = flag_of(j.converged);
    let judged = flag_of(usable);
    [
        0,
        0,
        j.iterations,
        converged,
        j.accepted,
        j.rejected,
        j.failed,
        stop,
        judged,
    ]
}

// A refusal's eight, and 0.
pub fn refused_nine(r: Refusal) -> [u32; 9]
    ensures { result ≡ refused_nine r }
{
    [r.number, place_of(r.place), 0, 0, 0, 0, 0, 0, 0]
}

pub fn measures_four(m: Measures) -> [f64; 4]
    ensures { result ≡ measures_four m }
{
    [
        m.initial_cost,
        m.final_cost,
        m.new_loop_residual_before,
        m.new_loop_residual_after,
    ]
}

// Whether the lengths fit of what is lent for a scan: gravity is no number or three.
pub fn closing_fits(gravity: usize, answer: usize, costs: usize, measures: usize) -> bool
    ensures { result ≡ fits_closing gravity answer costs measures }
{
    ((gravity == 0) | (gravity == 3)) & ((answer == 9) & ((costs == 2) & (measures == 4)))
}

// ---- jobs

pub fn read_eight(t: SettingBits, had: Tally) -> [u32; 8]
    ensures { result ≡ read_eight t had }
{
    [
        t.limit,
        t.cost_tolerance,
        t.gradient_tolerance,
        t.damping,
        place_of(had.poses),
        place_of(had.edges),
        place_of(had.fixed),
        0,
    ]
}

// (The two are public, each by its definition's name; they ask only whether it was refused.)
pub fn read_number(v: Result<(SettingBits, Tally), Refusal>) -> u32
    ensures { result ≡ read_number v }
{
    match v {
        Ok(_) => 0,
        Err(r) => r.number,
    }
}

pub fn read_answer(v: Result<(SettingBits, Tally), Refusal>) -> [u32; 8]
    ensures { result ≡ read_answer v }
{
    match v {
        Ok((t, had)) => read_eight(t, had),
        Err(r) => refused_eight(r),
    }
}

pub fn written_number(v: Result<usize, Refusal>) -> u32
    ensures { result ≡ written_number v }
{
    match v {
        Ok(_) => 0,
        Err(r) => r.number,
    }
}

pub fn written_two(v: Result<usize, Refusal>) -> [u32; 2]
    ensures { result ≡ written_two v }
{
    match v {
        Ok(n) => [place_of(n), 0],
        Err(r) => [r.number, place_of(r.place)],
    }
}
