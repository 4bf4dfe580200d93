// What a graph's record starts with: its head, then poses, ends, edges and fixed entries.
ghost use Rattle.std.specs.Prelude.{◌≤◌};

use crate::bytes;
use crate::bytes::Recorded;
use graph::Manifold;
use rotations::Vec3;
use rows::Settings;

// No record holds more.
pub const POSES: usize = 2048;

pub const REST: usize = 4096;

// How many numbers each list has, and where those after the poses start; `end` is where the last ends.
#[derive(Clone, Copy)]
pub struct Lists {
    pub poses: usize,
    pub ends: usize,
    pub edges: usize,
    pub fixed: usize,
    pub ends_at: usize,
    pub edges_at: usize,
    pub fixed_at: usize,
    pub end: usize,
}

pub fn vec_at<T: Recorded>(b: &[u8], at: usize) -> Vec3<T> {
    Vec3 {
        x: T::read(b, at, 0),
        y: T::read(b, at, 1),
        z: T::read(b, at, 2),
    }
}

pub fn manifold_of(b: &[u8]) -> Manifold {
    if u32::read(b, 0, 0) == 6 {
        Manifold::Se3
    } else {
        Manifold::Gravity(vec_at(b, 4))
    }
}

pub fn lists_of(b: &[u8]) -> Lists
    ensures { (result.poses ≤ 2048) × (result.ends ≤ 4096) × (result.edges ≤ 4096) × (result.fixed ≤ 4096) × (result.end ≤ 65608) }
{
    let poses = bytes::count_at(b, 28, 0, POSES);
    let ends = bytes::count_at(b, 28, 1, REST);
    let edges = bytes::count_at(b, 28, 2, REST);
    let fixed = bytes::count_at(b, 28, 3, REST);
    let ends_at = 72 + poses * 8;
    let edges_at = ends_at + ends * 4;
    let fixed_at = edges_at + edges * 4;
    Lists {
        poses,
        ends,
        edges,
        fixed,
        ends_at,
        edges_at,
        fixed_at,
        end: fixed_at + fixed * 4,
    }
}

pub fn recorded_settings(b: &[u8]) -> Settings {
    Settings {
        limit: u32::read(b, 44, 0),
        cost_tolerance: f32::read(b, 44, 1),
        gradient_tolerance: f32::read(b, 44, 2),
        damping: f32::read(b, 44, 3),
    }
}

// Whether what a run is lent has room.
pub fn has_room(b: &[u8]) -> bool {
    u32::read(b, 60, 0) <= 262144 && u32::read(b, 60, 1) <= 6144 && u32::read(b, 60, 2) <= 2048
}
