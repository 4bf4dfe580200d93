// What lent numbers mean: poses of twelve f64, edges of eight f32, the blocks of poses. Past the end of what is lent a NaN stands, or no block.
#![tactic(auto)]

ghost use Rattle.std.specs.Prelude.{◌≡◌, ◌+◌, ◌^◌, ◌<◌, get_or};
ghost use Rattle.std.specs.Float.{nan};
ghost use Rattle.rotations.specs.Rotation.{vec};
ghost use Rattle.graph.specs.Lent.{dof_of, pose_from, pose_at, numbers_of, edge_from, edge_at, none, slot_in, links_lent};

use rotations::{Mat3, Pose, Quat, Transform, Vec3};

// 2^59: no lent numbers reach as far as a pose or an edge of this number.
const FAR: usize = 0x800_0000_0000_0000;

// Se3: six degrees of freedom a pose. Gravity: four, the turn about this vector.
#[derive(Clone, Copy)]
pub enum Manifold {
    Se3,
    Gravity(Vec3<f64>),
}

// What an edge measured, and its weight.
#[derive(Clone, Copy)]
pub struct Edge {
    pub measured: Transform<f32>,
    pub weight: f32,
}

// The edges of a graph as they are lent, with the block of each pose and how many blocks there are: what tells which edges are active, and where.
#[derive(Clone, Copy)]
pub struct LentLinks<'a> {
    pub ends: &'a [u32],
    pub edges: &'a [f32],
    pub blocks: &'a [u32; 256],
    pub free: u32,
}

// Degrees of freedom a pose.
pub fn dof(m: Manifold) -> usize
    ensures { result ≡ dof_of m }
{
    match m {
        Manifold::Se3 => 6,
        Manifold::Gravity(_) => 4,
    }
}

// Three numbers of a pose that starts at `at`, from its j-th on.
fn vec3_at(poses: &[f64], at: usize, j: usize) -> Vec3<f64>
    requires { (at < 2 ^ 63) × (j < 12) }
    ensures { result ≡ vec (get_or poses.now (at + j) nan) (get_or poses.now (at + (j + 1)) nan) (get_or poses.now (at + (j + 2)) nan) }
{
    Vec3 {
        x: numbers::at(poses, at + j),
        y: numbers::at(poses, at + (j + 1)),
        z: numbers::at(poses, at + (j + 2)),
    }
}

// A pose of NaNs.
fn no_pose() -> Pose
    ensures { result ≡ pose_from (λ _. nan) }
{
    let x = f64::NAN;
    let v = Vec3 { x, y: x, z: x };
    Pose {
        rotation: Mat3 { x: v, y: v, z: v },
        translation: v,
    }
}

// Pose x; NaNs past the end of what is lent.
pub fn pose_at(poses: &[f64], x: usize) -> Pose
    ensures { result ≡ pose_at poses.now x }
{
    if FAR <= x {
        return no_pose();
    }
    let at = x * 12;
    Pose {
        rotation: Mat3 {
            x: vec3_at(poses, at, 0),
            y: vec3_at(poses, at, 3),
            z: vec3_at(poses, at, 6),
        },
        translation: vec3_at(poses, at, 9),
    }
}

// The twelve numbers of a pose.
pub fn numbers_of(p: Pose) -> [f64; 12]
    ensures { result ≡ numbers_of p }
{
    let m = p.rotation;
    let t = p.translation;
    [
        m.x.x, m.x.y, m.x.z, m.y.x, m.y.y, m.y.z, m.z.x, m.z.y, m.z.z, t.x, t.y, t.z,
    ]
}

// The transform that starts at `at`.
fn transform_at(edges: &[f32], at: usize) -> Transform<f32>
    requires { at < 2 ^ 63 }
    ensures { result ≡ (edge_from (λ j. get_or edges.now (at + j) nan)).measured }
{
    Transform {
        q: Quat {
            x: numbers::at(edges, at),
            y: numbers::at(edges, at + 1),
            z: numbers::at(edges, at + 2),
            w: numbers::at(edges, at + 3),
        },
        t: Vec3 {
            x: numbers::at(edges, at + 4),
            y: numbers::at(edges, at + 5),
            z: numbers::at(edges, at + 6),
        },
    }
}

// An edge of NaNs.
fn no_edge() -> Edge
    ensures { result ≡ edge_from (λ _. nan) }
{
    let x = f32::NAN;
    Edge {
        measured: Transform {
            q: Quat {
                x,
                y: x,
                z: x,
                w: x,
            },
            t: Vec3 { x, y: x, z: x },
        },
        weight: x,
    }
}

// Edge k; NaNs past the end of what is lent.
pub fn edge_at(edges: &[f32], k: usize) -> Edge
    ensures { result ≡ edge_at edges.now k }
{
    if FAR <= k {
        return no_edge();
    }
    let at = k * 8;
    Edge {
        measured: transform_at(edges, at),
        weight: numbers::at(edges, at + 7),
    }
}

// The x-th block; none past the end.
pub fn block_at(blocks: &[u32], x: usize) -> u32
    ensures { result ≡ get_or blocks.now x none }
{
    if x < blocks.len() {
        blocks[x]
    } else {
        u32::MAX
    }
}

// Where the numbers of pose x stand in the system: its block, or nowhere.
pub fn slot_at(blocks: &[u32; 256], free: u32, x: usize) -> Option<usize>
    ensures { result ≡ slot_in blocks.now free x }
{
    let b = block_at(blocks, x);
    if b < free { Some(b as usize) } else { None }
}

impl LentLinks<'_> {
    // The slot of pose x.
    pub fn slot(&self, x: usize) -> Option<usize>
        ensures { result ≡ (links_lent self.now).slot x }
    {
        slot_at(self.blocks, self.free, x)
    }
}
