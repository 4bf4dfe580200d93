// A run's answer, or a scan's, as one line for a person, which goes to the system in one piece. A write that fails is let pass.
use decisions::Why;
use line::Line;
use numbers::Refusal;
use pose_graph::PgoResult;
use sparse_pgo::Joined;
use std::fmt::{self, Write};
use std::io;

// A line that is written on.
#[derive(Clone, Copy)]
struct Draft {
    line: Line,
}

impl fmt::Write for Draft {
    fn write_str(&mut self, s: &str) -> fmt::Result {
        self.line = line::with_text(self.line, s.as_bytes());
        Ok(())
    }
}

// With six digits after the point.
#[derive(Clone, Copy)]
struct Cost(f32);

impl fmt::Display for Cost {
    fn fmt<W: fmt::Write>(&self, f: &mut fmt::Formatter<W>) -> fmt::Result {
        // to the nearest
        let millionths = f64::from(self.0) * 1e6 + 0.5;
        if -1.0 < millionths && millionths < 1e12 {
            let n = std::num::saturating_f64_to_u64(millionths);
            write!(f, "{}.{:06}", n / 1_000_000, n % 1_000_000)
        } else {
            f.write_str("large")
        }
    }
}

fn yes_no(yes: bool) -> &'static str {
    if yes { "yes" } else { "no" }
}

// These names are this line's alone; elsewhere a reason is never printed.
fn reason(why: Why) -> &'static str {
    match why {
        Why::Budget => "Budget",
        Why::Gradient => "Gradient",
        Why::Step => "Step",
        Why::Cost => "Cost",
        Why::Damping => "Damping",
    }
}

fn joined(t: &mut Draft, j: Joined) -> fmt::Result {
    write!(
        t,
        "first cost {}, last cost {}, iterations {} (A {}, R {}, F {}), converged {}, stopped by {}",
        Cost(j.first_cost),
        Cost(j.last_cost),
        j.iterations,
        j.accepted,
        j.rejected,
        j.failed,
        yes_no(j.converged),
        reason(j.why),
    )
}

fn refused(t: &mut Draft, r: Refusal) -> fmt::Result {
    write!(t, "refused {} at {}", r.number, r.place)
}

// What was measured before and after, as `line` writes floats: six digits, which no format of the library gives.
fn change(t: &mut Draft, text: &str, before: f64, after: f64) -> fmt::Result {
    write!(t, "{text}")?;
    t.line = line::with_float(t.line, before);
    write!(t, " to ")?;
    t.line = line::with_float(t.line, after);
    Ok(())
}

// The measured cost is half the sum over all edges.
fn result(t: &mut Draft, r: PgoResult) -> fmt::Result {
    let m = r.measures;
    joined(t, r.run)?;
    change(t, ", measured cost ", m.initial_cost, m.final_cost)?;
    change(
        t,
        ", last edge ",
        m.new_loop_residual_before,
        m.new_loop_residual_after,
    )?;
    write!(t, ", usable {}", yes_no(r.usable))
}

fn run_text(t: &mut Draft, sample: &str, a: Result<Joined, Refusal>) -> fmt::Result {
    write!(t, "{sample}: ")?;
    match a {
        Ok(j) => joined(t, j),
        Err(r) => refused(t, r),
    }?;
    writeln!(t)
}

fn scan_text(t: &mut Draft, sample: &str, c: Result<PgoResult, Refusal>) -> fmt::Result {
    write!(t, "{sample}: ")?;
    match c {
        Ok(r) => result(t, r),
        Err(r) => refused(t, r),
    }?;
    writeln!(t)
}

pub fn answer<W: io::Write>(out: &mut W, sample: &str, a: Result<Joined, Refusal>) {
    let mut t = Draft {
        line: line::empty(),
    };
    let _ = run_text(&mut t, sample, a);
    line::say(out, t.line);
}

pub fn closed<W: io::Write>(out: &mut W, sample: &str, c: Result<PgoResult, Refusal>) {
    let mut t = Draft {
        line: line::empty(),
    };
    let _ = scan_text(&mut t, sample, c);
    line::say(out, t.line);
}
