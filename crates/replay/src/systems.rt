// An assembly alone and a solve alone again, beside what the record has.
ghost use Rattle.std.specs.Prelude.{◌≤◌};

use crate::bytes::Recorded;
use crate::{bytes, inputs};
use assembly::AssemblyError;
use graph::LentLinks;
use rows::Room;
use solve::SolveError;

// ---- assembly

// The refusal's number, or 0.
fn assembled(a: Result<(), AssemblyError>) -> u32 {
    match a {
        Ok(()) => 0,
        Err(AssemblyError::BadEdge { edge: _, why: _ }) => 21,
        Err(AssemblyError::Short) => 14,
    }
}

// The work as long as the record says, which is what the system needs. The f64 work and the output are not asked here.
pub fn same_assembly(b: &[u8], poses: &[f64], ends: &[u32], edges: &[f32], fixed: &[u32]) -> bool {
    let l = inputs::lists_of(b);
    let end = l.end;
    let w = bytes::count_at(b, 60, 0, 4096);
    let m = inputs::manifold_of(b);
    let room = Room {
        work32: w,
        work64: 6144,
        out: poses.len(),
    };
    let checks = checks::validate_pose_graph(m, poses, ends, edges, fixed, room);
    let answer = checks.answer;
    let blocks = checks.blocks;
    match answer {
        Err(r) => r.number == u32::read(b, end, 0),
        Ok(c) => {
            let mut work = [0.0f32; 4096];
            let w32 = &mut work[..w];
            let unit = retraction::unit_manifold(m);
            let links = LentLinks {
                ends,
                edges,
                blocks: &blocks,
                free: c.free,
            };
            let number = assembled(assembly::build_normal_system_with_mapping(
                w32, unit, poses, links,
            ));
            number == u32::read(b, end, 0) && (number != 0 || bytes::same(w32, b, end + 8))
        }
    }
}

pub fn is_whole_assembly(b: &[u8]) -> bool {
    let l = inputs::lists_of(b);
    let w = bytes::count_at(b, l.end, 1, 4096);
    inputs::has_room(b) && b.len() == l.end + 8 + w * 4
}

// ---- solve

// A record holds no larger system.
const UNKNOWNS: usize = 64;

fn need(b: &[u8]) -> usize
    ensures { result ≤ 4288 }
{
    let n = bytes::count_at(b, 0, 0, UNKNOWNS);
    n * (n + 3)
}

// How many bytes it takes.
pub fn solve_size(b: &[u8]) -> usize
    ensures { result ≤ 34316 }
{
    12 + need(b) * 8
}

// The number that records have.
fn status_of(s: Result<(), SolveError>) -> u32 {
    match s {
        Ok(()) => 0,
        Err(SolveError::Failed) => 1,
        Err(SolveError::Short) => 2,
    }
}

pub fn same_solve(b: &[u8]) -> bool {
    let n = bytes::count_at(b, 0, 0, UNKNOWNS);
    let w = need(b);
    let mut work: [f32; 4288] = bytes::list(b, 8);
    let w32 = &mut work[..w];
    let status = status_of(solve::solve_damped(w32, n, f32::read(b, 4, 0)));
    status == u32::read(b, 8 + w * 4, 0) && bytes::same(w32, b, 12 + w * 4)
}
