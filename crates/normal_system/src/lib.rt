// The normal system of a lent graph, behind the checks, in lent work that stays as found where it is refused.
#![tactic(auto)]

ghost use Rattle.std.specs.Prelude.{◌≡◌, ◌*◌, ◌≤◌, length};
ghost use Rattle.graph.specs.Lent.{dof_of};
ghost use Rattle.profile.specs.Layout.{need};
ghost use Rattle.normal_system.specs.NormalSystem.{assembling, system_of};
ghost use Rattle.normal_system.specs.forms.Building.{built_out, built_number};

use assembly::AssemblyError;
use graph::{LentLinks, Manifold};
use rows::Room;

// The answer of an assembly alone: 0, or the row that refuses it. An arm for each error, so that each can be got wrong alone.
fn built_number(a: Result<(), AssemblyError>) -> u32
    ensures { result ≡ built_number a }
{
    match a {
        Ok(()) => 0,
        Err(AssemblyError::BadEdge { .. }) => 21,
        Err(AssemblyError::Short) => 21,
    }
}

// The system in all of the work, which stays as found where an edge can't be assembled. `system` is scratch.
fn build_over(
    m: Manifold,
    poses: &[f64],
    links: LentLinks<'_>,
    system: &mut [f32],
    work: &mut [f32],
) -> u32
    requires { (length work.old ≡ need (dof_of m * links.free)) × (length work.old ≤ length system.old) }
    ensures { (result, work.new) ≡ built_out m poses.now links.entry work.old }
{
    let count = work.len();
    let made = assembly::build_normal_system_with_mapping(&mut system[..count], m, poses, links);
    let row = built_number(made);
    if row != 0 {
        return row;
    }
    work.copy_from_slice(&system[..count]);
    0
}

// The lent work is just as long as the system, to which `assemble_alone` cuts it once; only the three functions here say so.
// Scratch is cleared before it is used, and that takes time: so there are three sizes. The first two are those of an evening's fifty views, one of them fixed.

// Fifty views with gravity.
const FIFTY_WITH_GRAVITY: usize = 196 * (196 + 3);

// Fifty views.
const FIFTY: usize = 294 * (294 + 3);

// The most, 64 free poses.
const MOST: usize = 384 * (384 + 3);

// The same in scratch of N numbers.
fn build_sized<const N: usize>(
    m: Manifold,
    poses: &[f64],
    links: LentLinks<'_>,
    work: &mut [f32],
) -> u32
    requires { (length work.old ≡ need (dof_of m * links.free)) × (length work.old ≤ N) × (N ≤ 148608) }
    ensures { (result, work.new) ≡ built_out m poses.now links.entry work.old }
{
    let mut system = [0.0f32; N];
    build_over(m, poses, links, &mut system, work)
}

fn build(m: Manifold, poses: &[f64], links: LentLinks<'_>, work: &mut [f32]) -> u32
    requires { (length work.old ≡ need (dof_of m * links.free)) × (length work.old ≤ 148608) }
    ensures { (result, work.new) ≡ built_out m poses.now links.entry work.old }
{
    if work.len() <= FIFTY_WITH_GRAVITY {
        return build_sized::<FIFTY_WITH_GRAVITY>(m, poses, links, work);
    }
    if work.len() <= FIFTY {
        return build_sized::<FIFTY>(m, poses, links, work);
    }
    build_sized::<MOST>(m, poses, links, work)
}

// The number of the row that refuses, or 0, since C is told just that (`pgo_assemble`, its one caller): H and gradient in the first n (n + 3) numbers of the
// work, the rest of these +0.
pub fn assemble_alone(
    m: Manifold,
    poses: &[f64],
    ends: &[u32],
    edges: &[f32],
    fixed: &[u32],
    work: &mut [f32],
) -> u32
    ensures { (result, work.new) ≡ system_of (assembling m poses.now ends.now edges.now fixed.now work.old) work.old }
{
    let room = Room {
        work32: work.len(),
        work64: 18446744073709551615,
        out: poses.len(),
    };
    let checks = checks::validate_pose_graph(m, poses, ends, edges, fixed, room);
    let answer = checks.answer;
    let blocks = checks.blocks;
    match answer {
        Err(r) => r.number,
        Ok(c) => {
            let n = graph::dof(m) * (c.free as usize);
            let count = n * (n + 3);
            let links = LentLinks {
                ends,
                edges,
                blocks: &blocks,
                free: c.free,
            };
            build(
                retraction::unit_manifold(m),
                poses,
                links,
                &mut work[..count],
            )
        }
    }
}
