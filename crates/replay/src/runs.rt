// A run again, and its answer beside the one in the record.
ghost use Rattle.std.specs.Prelude.{◌≤◌};

use crate::bytes::Recorded;
use crate::inputs::Lists;
use crate::{bytes, inputs};
use decisions::Why;
use numbers::Refusal;
use sparse_pgo::Joined;

// Its own numbers, not telling's: the stored list's form is fixed apart from the C interface's.

// What the output holds before a run.
const STALE: f64 = 0.5;

pub fn number_of(i: usize) -> u32 {
    u32::try_from(i).unwrap_or(u32::MAX)
}

// The number that records have.
pub fn stop_of(w: Why) -> u32 {
    match w {
        Why::Budget => 1,
        Why::Gradient => 2,
        Why::Step => 3,
        Why::Cost => 4,
        Why::Damping => 5,
    }
}

pub fn refused(r: Refusal) -> [u32; 8] {
    [r.number, number_of(r.place), 0, 0, 0, 0, 0, 0]
}

fn joined(j: Joined) -> [u32; 8] {
    [
        0,
        0,
        j.iterations,
        u32::from(j.converged),
        j.accepted,
        j.rejected,
        j.failed,
        stop_of(j.why),
    ]
}

fn stale(out: &[f64]) -> bool {
    out.iter().all(|x| x.is_same(STALE))
}

// Whether the record has this answer from `at` on. Where a run is refused the output stays as it was found.
fn same_answer(a: Result<Joined, Refusal>, out: &[f64], b: &[u8], at: usize) -> bool
    requires { at ≤ 65608 }
{
    match a {
        Err(r) => bytes::same(&refused(r), b, at) && stale(out),
        Ok(j) => {
            bytes::same(&joined(j), b, at)
                && bytes::same(&[j.first_cost, j.last_cost], b, at + 32)
                && bytes::same(out, b, at + 40)
        }
    }
}

// The run of these lists over what is lent, each as long as the record says, and the record's answer.
pub fn same_run(b: &[u8], poses: &[f64], ends: &[u32], edges: &[f32], fixed: &[u32]) -> bool {
    let l = inputs::lists_of(b);
    let n32 = bytes::count_at(b, 60, 0, 262144);
    let n64 = bytes::count_at(b, 60, 1, 6144);
    let n = bytes::count_at(b, 60, 2, 2048);
    let mut work32 = [0.0f32; 262144];
    let mut work64 = [0.0f64; 6144];
    let mut out = [STALE; 2048];
    let new = &mut out[..n];
    let a = sparse_pgo::sparse_pose_graph_optimize(
        inputs::manifold_of(b),
        poses,
        ends,
        edges,
        fixed,
        inputs::recorded_settings(b),
        &mut work32[..n32],
        &mut work64[..n64],
        new,
    );
    same_answer(a, new, b, l.end)
}

// A run that was not refused gives its poses.
fn poses_size(l: Lists, number: u32) -> usize
    requires { l.poses ≤ 2048 }
    ensures { result ≤ 16384 }
{
    if number == 0 { l.poses * 8 } else { 0 }
}

pub fn is_whole(b: &[u8]) -> bool {
    let l = inputs::lists_of(b);
    let poses = poses_size(l, u32::read(b, l.end, 0));
    inputs::has_room(b) && b.len() == l.end + 40 + poses
}
