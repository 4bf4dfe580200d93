// The records of a job file (document 02, Wish 1): which fault the record at a place has, and what it leads to.
#![tactic(auto)]

ghost use Rattle.std.specs.Prelude.{◌≡◌, ◌+◌, ◌≤◌, ◌<◌, ◌^◌, length, Err};
ghost use Rattle.numbers.specs.Refusals.{refusal, says};
ghost use Rattle.job_records.specs.Bytes.{value_at};
ghost use Rattle.job_records.specs.Records.{is_record, may_follow, is_full, end_faults, closed, counted, record_step};

use numbers::Refusal;

// How many poses, edges and fixed entries there are, or there is room for.
#[derive(Clone, Copy)]
pub struct Tally {
    pub poses: usize,
    pub edges: usize,
    pub fixed: usize,
}

// Where reading stands: the place at which a record starts or should, the kind of the record before (0 where there is none), what was counted.
// A kind is a number: any number can stand in a file, and an unknown one is refused by the same definition (`is_record`) that tells the known ones.
#[derive(Clone, Copy)]
pub struct Cursor {
    pub at: usize,
    pub last: u64,
    pub had: Tally,
}

// ---- numbers in bytes

// The number of the two bytes of s from `at` on, the low byte first.
fn pair_at(s: &[u8], at: usize) -> u64
    requires { at + 2 ≤ length s.now }
    ensures { result ≡ value_at 2 s.now at }
{
    u64::from(u16::from_le_bytes(<[u8; 2]>::try_from(&s[at..at + 2]).unwrap()))
}

// ---- which fault a record has

#[tactic(auto, unfolding(crate::specs::Records::is_record))]
fn is_record(kind: u64, len: u64) -> bool
    ensures { result ≡ is_record kind len }
{
    matches!((kind, len), (1, 16) | (2, 96) | (3, 40) | (4, 4) | (5, 0))
}

#[tactic(auto, unfolding(crate::specs::Records::may_follow, numbers::specs::Notation::if_then))]
fn may_follow(last: u64, kind: u64) -> bool
    ensures { result ≡ may_follow last kind }
{
    if last == 0 {
        kind == 1
    } else {
        kind != 1 && last <= kind
    }
}

#[tactic(auto, unfolding(crate::specs::Records::is_full))]
fn is_full(room: Tally, had: Tally, kind: u64) -> bool
    ensures { result ≡ is_full room had kind }
{
    match kind {
        2 => room.poses <= had.poses,
        3 => room.edges <= had.edges,
        4 => room.fixed <= had.fixed,
        _ => false,
    }
}

fn refused(number: u32, place: usize) -> Result<Option<Cursor>, Refusal>
    ensures { result ≡ Err (refusal number place) }
{
    Err(Refusal { number, place })
}

// Behind the end record nothing may stand.
fn close(s: &[u8], at: usize) -> Result<Option<Cursor>, Refusal>
    ensures { result ≡ closed (says (end_faults s.now) at) }
{
    let more = at < s.len();
    if more {
        return refused(30, at);
    }
    Ok(None)
}

#[tactic(auto, unfolding(numbers::specs::Notation::if_then))]
fn count(kind: u64, had: Tally) -> Tally
    requires { ((counted kind had).poses < 2 ^ 64) × ((counted kind had).edges < 2 ^ 64) × ((counted kind had).fixed < 2 ^ 64) }
    ensures { result ≡ counted kind had }
{
    Tally {
        poses: had.poses + usize::from(kind == 2),
        edges: had.edges + usize::from(kind == 3),
        fixed: had.fixed + usize::from(kind == 4),
    }
}

// The record at c: a cut header, then a bad length, kind or order, a cut body, one too many; else what stands behind it, or None at the end.
#[tactic(auto, unfolding(crate::specs::Records::record_step, crate::specs::Records::fault_of, numbers::specs::Notation::if_then))]
pub fn step_at(room: Tally, s: &[u8], c: Cursor) -> Result<Option<Cursor>, Refusal>
    ensures { result ≡ record_step room s.now c }
{
    let at = c.at;
    let left = s.len().saturating_sub(at);
    if left < 4 {
        return refused(31, at);
    }
    let len = pair_at(s, at);
    let kind = pair_at(s, at + 2);
    if !(is_record(kind, len) && may_follow(c.last, kind)) {
        return refused(30, at);
    }
    let n = len as usize;
    if left - 4 < n {
        return refused(31, at);
    }
    if is_full(room, c.had, kind) {
        return refused(32, at);
    }
    if kind == 5 {
        return close(s, at + 4);
    }
    Ok(Some(Cursor {
        at: at + 4 + n,
        last: kind,
        had: count(kind, c.had),
    }))
}
