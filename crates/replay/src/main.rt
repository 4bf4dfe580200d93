// Replays a fixed list of the original Rust's answers, bit by bit: a NaN is the same as any NaN. The list comes on standard input; the file `stdin`
// beside src/ was written by `cargo run --release -p vectors -- FILE` in compare/, whose vectors/src/format.rs describes it.
#![tactic(auto)]

mod bytes;
mod inputs;
mod kinds;
mod layers;
mod lists;
mod runs;
mod say;
mod systems;

ghost use Rattle.std.specs.Prelude.{◌≡◌, ◌+◌, ◌≤◌, IfSome, length, slice_range};

use bytes::Recorded;
use kinds::Kind;
use say::{BadInput, Tally};
use std::io::{Read, Write};

// `PGOV` and version 1.
fn is_headed(file: &[u8]) -> bool {
    u32::read(file, 0, 0) == 0x564f_4750 && u32::read(file, 4, 0) == 1
}

// ---- one record

// One case, a run or an assembly alone, of the lists that the record starts with.
fn same_graph<F: Fn(&[u8], &[f64], &[u32], &[f32], &[u32]) -> bool>(b: &[u8], same: F) -> bool
    requires { F.IsAlwaysCallable same }
{
    let l = inputs::lists_of(b);
    let poses: [f64; inputs::POSES] = bytes::list(b, 72);
    let ends: [u32; inputs::REST] = bytes::list(b, l.ends_at);
    let edges: [f32; inputs::REST] = bytes::list(b, l.edges_at);
    let fixed: [u32; inputs::REST] = bytes::list(b, l.fixed_at);
    same(
        b,
        &poses[..l.poses],
        &ends[..l.ends],
        &edges[..l.edges],
        &fixed[..l.fixed],
    )
}

// How many bytes the first case takes, and whether it is the same; none where a record that is one case is not whole.
fn case(kind: Kind, b: &[u8]) -> Option<(usize, bool)> {
    let found = match kind {
        Kind::Run if runs::is_whole(b) => (b.len(), same_graph(b, runs::same_run)),
        Kind::Assembly if systems::is_whole_assembly(b) => {
            (b.len(), same_graph(b, systems::same_assembly))
        }
        Kind::List if lists::is_whole(b) => (b.len(), lists::same_list(b)),
        Kind::Run | Kind::Assembly | Kind::List => return None,
        Kind::Narrow => (12, layers::same_narrow(b)),
        Kind::Sqrt32 => (8, layers::same_sqrt32(b)),
        Kind::Sqrt64 => (16, layers::same_sqrt64(b)),
        Kind::QuaternionOfMatrix => (56, layers::same_quaternion(b)),
        Kind::Product => (88, layers::same_product(b)),
        Kind::Inverse => (60, layers::same_inverse(b)),
        Kind::Exp => (56, layers::same_exp(b)),
        Kind::Log => (56, layers::same_log(b)),
        Kind::Retract => (220, layers::same_retract(b)),
        Kind::RetractWithGravity => (236, layers::same_retract_with_gravity(b)),
        Kind::Residual => (252, layers::same_residual(b)),
        Kind::Solve => (systems::solve_size(b), systems::same_solve(b)),
    };
    Some(found)
}

// How many cases a record has, and where they start.
fn cases(kind: Kind, b: &[u8]) -> Option<(u32, &[u8])> {
    match kind {
        Kind::Run | Kind::Assembly | Kind::List => Some((1, b)),
        _ => Some((u32::read(b, 0, 0), b.get(4..)?)),
    }
}

// None where the record is of no known form: its cases fill it.
fn replayed<W: Write>(out: &mut W, tally: &mut Tally, kind: Kind, b: &[u8]) -> Option<()> {
    let (n, mut rest) = cases(kind, b)?;
    for _ in 0..n {
        let (size, same) = case(kind, rest)?;
        rest = rest.get(size..)?;
        tally.count(out, kind, same);
    }
    rest.is_empty().then_some(())
}

// ---- records

#[derive(Clone, Copy)]
struct Record<'a> {
    kind: u32,
    bytes: &'a [u8],
    end: usize,
}

// The record at `at`, where all of it is there: what stands behind its kind and its size, up to its end.
fn record_at(file: &[u8], at: usize) -> Option<Record<'_>>
    ensures { IfSome result (λ r. (at + 8 ≤ r.end) × (r.end ≤ length file.now) × (r.bytes.now ≡ slice_range file.now (at + 8) r.end)) }
{
    let kind = u32::read(file, at, 0);
    let size = bytes::count_at(file, at, 1, 16384);
    let from = at.checked_add(8)?;
    let end = from.checked_add(size)?;
    let bytes = file.get(from..end)?;
    Some(Record { kind, bytes, end })
}

fn records<W: Write>(out: &mut W, file: &[u8]) -> Result<Tally, BadInput> {
    if !is_headed(file) {
        return Err(BadInput::NoList);
    }
    let mut tally = Tally::new();
    let mut at = 12;
    for r in 0..u32::read(file, 8, 0) {
        let record = record_at(file, at).ok_or(BadInput::CutShort(r))?;
        let kind = Kind::try_from(record.kind).map_err(|_| BadInput::Unknown(r))?;
        replayed(out, &mut tally, kind, record.bytes).ok_or(BadInput::Unknown(r))?;
        at = record.end;
    }
    if at == file.len() {
        Ok(tally)
    } else {
        Err(BadInput::LeftOver)
    }
}

fn replay<W: Write>(out: &mut W, file: &[u8]) {
    match records(out, file) {
        Ok(tally) => tally.report(out),
        Err(bad) => say::bad_input(out, bad),
    }
}

// A list that could not be read to its end is replayed as far as it came.
fn replay_input<R: Read, W: Write>(from: &mut R, out: &mut W, file: &mut [u8]) {
    let n = input::read_input(from, file).unwrap_or_else(|e| e.bytes);
    replay(out, &file[..n]);
}

// No list is longer.
fn main(rt: HostRuntime) {
    let mut file = [0u8; 400000];
    replay_input(&mut rt.stdin(), &mut rt.stdout(), &mut file);
}
