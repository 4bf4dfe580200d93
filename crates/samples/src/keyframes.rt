// Scans of four keyframes and four loops (document 02, Wish 2), whose poses drifted: each comes from the one before by a step that is not the true one.
use crate::graphs;
use rotations::Pose;

#[derive(Clone, Copy)]
pub struct Scan {
    pub poses: [[f64; 12]; 4],
    pub loop_poses: [[f64; 12]; 4],
}

// Loops from the first keyframe to the third, from the second to the fourth, and two from the first to the fourth. They measured true steps, but for the last,
// which measured three of `last`.
pub fn drifted(step: Pose, truth: Pose, last: Pose) -> Scan {
    let third = graphs::after(step, step);
    let two = graphs::after(truth, truth);
    let three = graphs::after(last, graphs::after(last, last));
    Scan {
        poses: [graphs::ahead(0.0), step, third, graphs::after(step, third)].map(graph::numbers_of),
        loop_poses: [two, two, graphs::after(truth, two), three].map(graph::numbers_of),
    }
}
