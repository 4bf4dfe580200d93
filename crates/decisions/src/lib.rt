// The decisions of the Levenberg-Marquardt run, apart from its numerics (document 01, "The solve and the run").
// Each contract names its definition in specs/.
#![tactic(auto)]

ghost use Rattle.std.specs.Prelude.{◌≡◌, leb};
ghost use Rattle.decisions.specs.Damping.{increased, decreased};
ghost use Rattle.decisions.specs.Run.{judged, heard, relative, begun, iterations, one_more, failing, accepting, rejecting, solved};
ghost use Rattle.decisions.specs.Run.{assembled, passed, after_turn, stop, after_small};

use numbers::Refusal;

const LAMBDA_FACTOR: f32 = 10.0;

const LAMBDA_MIN: f32 = 1e-10;

pub const LAMBDA_MAX: f32 = 1e10;

// What the run carries by value. Its poses and its system stand in lent work.
#[derive(Clone, Copy)]
pub struct State {
    pub accepted: u32,
    pub rejected: u32,
    pub failed: u32,
    pub solves: u32,
    // the system is to be assembled before the next solve
    pub fresh: bool,
    pub damping: f32,
    pub cost: f32,
}

// Why a trial has no cost: a retraction failed, tested first; or the cost can't be had.
#[derive(Clone, Copy)]
pub enum Numerical {
    Retraction,
    Unpriced,
}

// Why a trial was rejected.
#[derive(Clone, Copy)]
pub enum Reason {
    Cost,
    Numerical(Numerical),
}

// A trial's answer: accepted with its new cost, or rejected. The Rust's TrialOutcome; a rejection is no failure, so this is no Result.
#[derive(Clone, Copy)]
pub enum Trial {
    Accepted(f32),
    Rejected(Reason),
}

// What an assembly comes to: refused, a gradient below its tolerance, or a system to solve. Three ends of a step, of which one goes on: no Result says which.
#[derive(Clone, Copy)]
pub enum Assembly {
    Refused(Refusal),
    Flat,
    Steep,
}

// What a solve comes to, before its trial is judged: ends that a run tells apart, of which none is the failure of another.
#[derive(Clone, Copy)]
pub enum Raw {
    Failed,
    Small,
    Priced(f32),
    Numerical(Numerical),
}

// The same with the trial judged.
#[derive(Clone, Copy)]
pub enum Outcome {
    Failed,
    Small,
    Tried(Trial),
}

// Why a run stopped. Gradient, Step and Cost have converged.
#[derive(Clone, Copy)]
pub enum Why {
    Budget,
    Gradient,
    Step,
    Cost,
    Damping,
}

// A run goes on, or is over: it stopped for a reason, or was refused. Neither is a failure of the other, so this is no Result.
#[derive(Clone, Copy)]
pub enum Next {
    On(State),
    Over(State, Result<Why, Refusal>),
}

pub fn increased_damping(damping: f32) -> f32
    ensures { result ≡ increased damping }
{
    damping * LAMBDA_FACTOR
}

pub fn decreased_damping(damping: f32) -> f32
    ensures { result ≡ decreased damping }
{
    let q = damping / LAMBDA_FACTOR;
    // not max, which would pass over a NaN
    if q < LAMBDA_MIN { LAMBDA_MIN } else { q }
}

pub fn relative_cost_change(cost: f32, new: f32) -> f32
    ensures { result ≡ relative cost new }
{
    if 0.0 < cost {
        (cost - new) / cost
    } else {
        cost - new
    }
}

// A trial that has a cost is accepted where that is strictly lower.
pub fn judge(cost: f32, new: f32) -> Trial
    ensures { result ≡ judged cost new }
{
    if new < cost {
        Trial::Accepted(new)
    } else {
        Trial::Rejected(Reason::Cost)
    }
}

// What a solve comes to, its trial judged against the cost so far.
pub fn hear(cost: f32, e: Raw) -> Outcome
    ensures { result ≡ heard cost e }
{
    match e {
        Raw::Failed => Outcome::Failed,
        Raw::Small => Outcome::Small,
        Raw::Priced(new) => Outcome::Tried(judge(cost, new)),
        Raw::Numerical(n) => Outcome::Tried(Trial::Rejected(Reason::Numerical(n))),
    }
}

pub fn begin(cost: f32, damping: f32) -> State
    ensures { result ≡ begun cost damping }
{
    State {
        accepted: 0,
        rejected: 0,
        failed: 0,
        solves: 0,
        fresh: true,
        damping,
        cost,
    }
}

// One more, up to the largest u32.
pub fn one_more(n: u32) -> u32
    ensures { result ≡ one_more n }
{
    n.saturating_add(1)
}

// A + R, which a u32 need not hold.
pub fn iterations(s: State) -> usize
    ensures { result ≡ iterations s }
{
    s.accepted as usize + s.rejected as usize
}

// Whether the iterations have come to the limit.
pub fn at_limit(s: State, limit: u32) -> bool
    ensures { result ≡ leb limit (iterations s) }
{
    limit as usize <= iterations(s)
}

// ---- what follows a solve

pub fn after_failed_solve(s: State) -> Next
    ensures { result ≡ failing s }
{
    let damping = increased_damping(s.damping);
    let t = State {
        failed: one_more(s.failed),
        solves: one_more(s.solves),
        fresh: false,
        damping,
        ..s
    };
    if LAMBDA_MAX < damping {
        Next::Over(
            t,
            Err(Refusal {
                number: 22,
                place: 0,
            }),
        )
    } else {
        Next::On(t)
    }
}

pub fn after_small_step(s: State) -> Next
    ensures { result ≡ stop (after_small s) Why.Step }
{
    let t = State {
        solves: one_more(s.solves),
        ..s
    };
    Next::Over(t, Ok(Why::Step))
}

pub fn after_accepted(s: State, tolerance: f32, new: f32) -> Next
    ensures { result ≡ accepting s tolerance new }
{
    let change = relative_cost_change(s.cost, new);
    let t = State {
        accepted: one_more(s.accepted),
        solves: one_more(s.solves),
        fresh: true, // the poses are others: their system is to be assembled
        damping: decreased_damping(s.damping),
        cost: new,
        ..s
    };
    if change < tolerance {
        Next::Over(t, Ok(Why::Cost))
    } else {
        Next::On(t)
    }
}

pub fn after_rejected(s: State, limit: u32) -> Next
    ensures { result ≡ rejecting s limit }
{
    let damping = increased_damping(s.damping);
    let t = State {
        rejected: one_more(s.rejected),
        solves: one_more(s.solves),
        fresh: false, // the poses are the same, and so is their system
        damping,
        ..s
    };
    if LAMBDA_MAX < damping {
        return Next::Over(t, Ok(Why::Damping));
    }
    if at_limit(t, limit) {
        return Next::Over(t, Ok(Why::Budget));
    }
    Next::On(t)
}

pub fn after_solve(s: State, limit: u32, tolerance: f32, o: Outcome) -> Next
    ensures { result ≡ solved s limit tolerance o }
{
    match o {
        Outcome::Failed => after_failed_solve(s),
        Outcome::Small => after_small_step(s),
        Outcome::Tried(t) => match t {
            Trial::Accepted(new) => after_accepted(s, tolerance, new),
            Trial::Rejected(_) => after_rejected(s, limit),
        },
    }
}

// ---- the top, and a turn

pub fn gate_of(a: Assembly) -> Option<Result<Why, Refusal>>
    ensures { result ≡ assembled a }
{
    match a {
        Assembly::Refused(r) => Some(Err(r)),
        Assembly::Flat => Some(Ok(Why::Gradient)),
        Assembly::Steep => None,
    }
}

// `a` counts only where the system is to be assembled.
pub fn pass_top(s: State, limit: u32, a: Assembly) -> Option<Result<Why, Refusal>>
    ensures { result ≡ passed limit s a }
{
    let due = s.fresh;
    if due {
        if at_limit(s, limit) {
            Some(Ok(Why::Budget))
        } else {
            gate_of(a)
        }
    } else {
        None
    }
}

pub fn turn(s: State, limit: u32, tolerance: f32, a: Assembly, e: Raw) -> Next
    ensures { result ≡ after_turn limit tolerance s a e }
{
    let cost = s.cost;
    match pass_top(s, limit, a) {
        Some(w) => Next::Over(s, w),
        None => after_solve(s, limit, tolerance, hear(cost, e)),
    }
}
