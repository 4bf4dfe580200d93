// The decisions over a prepared list again, and what they told beside what the record has.
ghost use Rattle.std.specs.Prelude.{◌≤◌};

use crate::bytes::Recorded;
use crate::{bytes, runs};
use decisions::{Next, State, Why};
use rows::Settings;

// No record holds more.
const EVENTS: usize = 2048;

// Status: 0 over, 1 the list ended first, or the refusal's number. How much was written: 0 nothing, 1 the answer, 2 answer and costs. Numbers, and not an enum,
// since they are compared with the record's, whose form is fixed.
#[derive(Clone, Copy)]
struct Told {
    status: u32,
    written: u32,
    answer: [u32; 8],
    costs: [f32; 2],
}

fn turned(answer: [u32; 8]) -> Told {
    Told {
        status: answer[0],
        written: 1,
        answer,
        costs: [0.0, 0.0],
    }
}

fn stopped(first: f32, s: State, w: Why) -> Told {
    let iterations = runs::number_of(decisions::iterations(s));
    Told {
        status: 0,
        written: 2,
        answer: [
            0,
            0,
            iterations,
            u32::from(sparse_pgo::has_converged(w)),
            s.accepted,
            s.rejected,
            s.failed,
            runs::stop_of(w),
        ],
        costs: [first, s.cost],
    }
}

fn tell(first: f32, n: Next) -> Told {
    match n {
        Next::On(_) => Told {
            status: 1,
            written: 0,
            answer: [0, 0, 0, 0, 0, 0, 0, 0],
            costs: [0.0, 0.0],
        },
        Next::Over(s, e) => match e {
            Err(r) => turned(runs::refused(r)),
            Ok(w) => stopped(first, s, w),
        },
    }
}

// The settings are asked first; there is no gradient.
fn decided(b: &[u8], events: &[u32], prices: &[f32]) -> Told {
    let limit = u32::read(b, 0, 0);
    let tolerance = f32::read(b, 0, 1);
    let cost = f32::read(b, 0, 2);
    let damping = f32::read(b, 0, 3);
    let asked = rows::validate_settings(Settings {
        limit,
        cost_tolerance: tolerance,
        gradient_tolerance: 0.0,
        damping,
    });
    match asked {
        Err(r) => turned(runs::refused(r)),
        Ok(()) => tell(
            cost,
            events::drive(limit, tolerance, cost, damping, events, prices),
        ),
    }
}

fn same_told(t: Told, b: &[u8], at: usize) -> bool
    requires { at ≤ 16404 }
{
    bytes::same(&[t.status, t.written], b, at)
        && bytes::same(&t.answer, b, at + 8)
        && bytes::same(&t.costs, b, at + 40)
}

pub fn is_whole(b: &[u8]) -> bool {
    let n = bytes::count_at(b, 16, 0, EVENTS);
    b.len() == 68 + n * 8
}

// Events and prices as many as the record says.
pub fn same_list(b: &[u8]) -> bool {
    let n = bytes::count_at(b, 16, 0, EVENTS);
    let events: [u32; EVENTS] = bytes::list(b, 20);
    let prices: [f32; EVENTS] = bytes::list(b, 20 + n * 4);
    let t = decided(b, &events[..n], &prices[..n]);
    same_told(t, b, 20 + n * 8)
}
