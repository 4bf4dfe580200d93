// Graphs in which each pose comes from the one before by the same step.
use rotations::{Mat3, Pose, Vec3};

// Room for 66 poses and 65 edges; a run takes the first of each.
#[derive(Clone, Copy)]
pub struct Graph {
    pub poses: [[f64; 12]; 66],
    pub ends: [[u32; 2]; 65],
    pub edges: [[f32; 8]; 65],
}

pub fn vec(x: f64, y: f64, z: f64) -> Vec3<f64> {
    Vec3 { x, y, z }
}

// A turn about z, given by its cosine and sine, then a shift.
pub fn step(cos: f64, sin: f64, shift: Vec3<f64>) -> Pose {
    Pose {
        rotation: Mat3 {
            x: vec(cos, sin, 0.0),
            y: vec(0.0 - sin, cos, 0.0),
            z: vec(0.0, 0.0, 1.0),
        },
        translation: shift,
    }
}

// A shift along x alone.
pub fn ahead(x: f64) -> Pose {
    step(1.0, 0.0, vec(x, 0.0, 0.0))
}

pub fn after(s: Pose, p: Pose) -> Pose {
    Pose {
        rotation: rotations::mat_product(s.rotation, p.rotation),
        translation: rotations::sum_of(
            rotations::turn_vec(s.rotation, p.translation),
            s.translation,
        ),
    }
}

// The identity, then step by step.
fn walk(s: Pose) -> [[f64; 12]; 66] {
    let mut poses = [[0.0; 12]; 66];
    let mut p = ahead(0.0);
    for twelve in poses.iter_mut() {
        *twelve = graph::numbers_of(p);
        p = after(s, p);
    }
    poses
}

// Each edge goes from a pose to the next.
fn link() -> [[u32; 2]; 65] {
    let mut ends = [[0; 2]; 65];
    for (k, pair) in ends.iter_mut().enumerate() {
        *pair = [k as u32, k as u32 + 1];
    }
    ends
}

// All edges measured alike.
pub fn chain(s: Pose, edge: [f32; 8]) -> Graph {
    Graph {
        poses: walk(s),
        ends: link(),
        edges: [edge; 65],
    }
}

// Edge k, of 65, is another.
pub fn with_edge(mut g: Graph, k: usize, ends: [u32; 2], edge: [f32; 8]) -> Graph {
    if k < 65 {
        g.ends[k] = ends;
        g.edges[k] = edge;
    }
    g
}
