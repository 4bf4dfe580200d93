// The graph checks: refusals 1 to 19 of document 01 and 26 of document 02, free poses and their blocks (validate_optimizer_inputs and validate_pose_graph
// of sparse_pgo.rs). Everything is lent shared, so a refusal can change nothing.
#![tactic(auto)]

ghost use Rattle.std.specs.Prelude.{◌≡◌, [], ℕ, ◌/◌, ◌^◌, ◌<◌, ltb, length, set, take};
ghost use Rattle.numbers.specs.Notation.{if_then};
ghost use Rattle.numbers.specs.Refusals.{says, lowest, verdict};
ghost use Rattle.numbers.specs.Walks.{some, table};
ghost use Rattle.graph.specs.Graph.{touches, is_free};
ghost use Rattle.graph.specs.Lent.{end_a, end_b};
ghost use Rattle.checks.specs.Input.{lent_graph, lent, unset};
ghost use Rattle.checks.specs.Islands.{weighs};
ghost use Rattle.checks.specs.Labels.{label_of, renamed, label_faults, MergesTwo, Labelled};
ghost use Rattle.checks.specs.Table.{pose_faults, edge_faults, graph_rows, Numbered, graph_checks, checks};
ghost use Rattle.checks.specs.Table.{graph_answer as Table·graph_answer, settings_answer as Table·settings_answer};
ghost use Rattle.rows.specs.Tests.{fixed_faults};

use graph::Manifold;
use numbers::Refusal;
use rows::{Room, Settings};

#[derive(Clone, Copy)]
pub struct Counts {
    pub poses: usize,
    pub edges: usize,
    pub free: u32,
}

// The answer, and the block of every pose: u32::MAX for one that is not free, and no Option, since row 26 takes the blocks as labels, of which the largest
// wins, and that must be the one of no free pose.
#[derive(Clone, Copy)]
pub struct Checks {
    pub answer: Result<Counts, Refusal>,
    pub blocks: [u32; 256],
}

// ---- the ends of an edge

fn ends_at(ends: &[u32], k: usize) -> (usize, usize)
    requires { k < 2 ^ 62 }
    ensures { (result.0 ≡ end_a ends.now k) × (result.1 ≡ end_b ends.now k) }
{
    (
        numbers::index_at(ends, k * 2),
        numbers::index_at(ends, k * 2 + 1),
    )
}

// ---- rows 1 to 5: the input as a whole

// Rows 1 to 5. What is lent stays six parameters: a struct would be filled by two public functions for three private ones, which is no plainer.
fn shape_rows(
    manifold: Manifold,
    poses: &[f64],
    ends: &[u32],
    edges: &[f32],
    fixed: &[u32],
    room: Room,
) -> Result<(), Refusal>
    ensures { result ≡ verdict (take 5 (graph_rows (lent manifold poses.now ends.now edges.now fixed.now unset room))) }
{
    rows::row_1(manifold)?;
    rows::row_2(poses.len(), ends.len(), edges.len(), room.out)?;
    rows::row_3(poses.len() / 12, ends.len() / 2, fixed.len())?;
    rows::row_4(poses.len() / 12)?;
    rows::row_5(ends.len() / 2)
}

// ---- rows 6 to 11: pose by pose, edge by edge, entry by entry

fn pose_6(poses: &[f64], x: usize) -> Result<(), Refusal>
    ensures { result ≡ says (pose_faults (lent_graph poses.now [] [] [])) x }
{
    numbers::ask(
        !pose_conversion::validate_pose(graph::pose_at(poses, x)),
        6,
        x,
    )
}

// Row 6.
fn pose_rows(poses: &[f64]) -> Result<(), Refusal>
    ensures { result ≡ lowest (pose_faults (lent_graph poses.now [] [] [])) (length poses.now / 12) }
{
    for x in 0..poses.len() / 12 {
        pose_6(poses, x)?;
    }
    Ok(())
}

fn edge_says(poses: &[f64], ends: &[u32], edges: &[f32], k: usize) -> Result<(), Refusal>
    requires { k < 2 ^ 62 }
    ensures { result ≡ says (edge_faults (lent_graph poses.now ends.now edges.now [])) k }
{
    let (a, b) = ends_at(ends, k);
    let e = graph::edge_at(edges, k);
    rows::edge_7(poses.len() / 12, a, b, k)?;
    rows::edge_8(a, b, k)?;
    rows::edge_9(e, k)?;
    rows::edge_10(e, k)
}

// Rows 7 to 10.
fn edge_rows(poses: &[f64], ends: &[u32], edges: &[f32]) -> Result<(), Refusal>
    ensures { result ≡ lowest (edge_faults (lent_graph poses.now ends.now edges.now [])) (length ends.now / 2) }
{
    for k in 0..ends.len() / 2 {
        edge_says(poses, ends, edges, k)?;
    }
    Ok(())
}

// Row 11.
fn fixed_rows(n: usize, fixed: &[u32]) -> Result<(), Refusal>
    ensures { result ≡ lowest (fixed_faults n fixed.now) (length fixed.now) }
{
    for k in 0..fixed.len() {
        rows::fixed_11(n, fixed, k)?;
    }
    Ok(())
}

// Rows 1 to 11.
fn list_rows(
    manifold: Manifold,
    poses: &[f64],
    ends: &[u32],
    edges: &[f32],
    fixed: &[u32],
    room: Room,
) -> Result<(), Refusal>
    ensures { result ≡ verdict (take 8 (graph_rows (lent manifold poses.now ends.now edges.now fixed.now unset room))) }
{
    shape_rows(manifold, poses, ends, edges, fixed, room)?;
    pose_rows(poses)?;
    edge_rows(poses, ends, edges)?;
    fixed_rows(poses.len() / 12, fixed)
}

// ---- free poses and their blocks

// Sets the mark of pose x; a number past the array has none.
fn mark(marks: &mut [bool; 256], x: usize, value: bool)
    ensures { marks.new ≡ if_then (ltb x 256) (set marks.old x value) marks.old }
{
    if x < 256 {
        marks[x] = value;
    }
}

// The poses that some edge names.
fn named(ends: &[u32]) -> [bool; 256]
    ensures { result ≡ table (λ x. some (touches (lent_graph [] ends.now [] []) x) (length ends.now / 2)) 256 }
{
    let mut marks = [false; 256];
    for k in 0..ends.len() / 2 {
        let (a, b) = ends_at(ends, k);
        mark(&mut marks, a, true);
        mark(&mut marks, b, true);
    }
    marks
}

// Those of them that are not fixed.
fn free_poses(ends: &[u32], fixed: &[u32]) -> [bool; 256]
    ensures { result ≡ table (is_free (lent_graph [] ends.now [] fixed.now)) 256 }
{
    let mut marks = named(ends);
    for x in fixed {
        mark(&mut marks, *x as usize, false);
    }
    marks
}

// The block of every pose, and how many are free.
#[derive(Clone, Copy)]
struct Blocks {
    at: [u32; 256],
    free: u32,
}

// Free poses get the blocks 0, 1, 2 in pose order.
fn numbered(ends: &[u32], fixed: &[u32]) -> Blocks
    ensures { Numbered ends.now fixed.now result.at result.free }
{
    let marks = free_poses(ends, fixed);
    let mut at = [u32::MAX; 256];
    let mut free = 0;
    for (x, is_free) in marks.iter().enumerate() {
        if *is_free {
            at[x] = free;
            free += 1;
        }
    }
    Blocks { at, free }
}

// ---- row 26: loose islands

// A weight that is not zero; -0 is zero too.
fn has_weight(edges: &[f32], k: usize) -> bool
    ensures { result ≡ weighs (lent_graph [] [] edges.now []) k }
{
    let e = graph::edge_at(edges, k);
    e.weight != 0.0
}

// Every pose of one label gets another.
fn relabel(labels: &mut [u32], old: u32, new: u32)
    ensures { (x : ℕ) → x < length labels.old → label_of labels.new x ≡ renamed old new (label_of labels.old x) }
{
    for label in labels.iter_mut() {
        if *label == old {
            *label = new;
        }
    }
}

// Poses a and b, and all with their labels, get the larger of the two. A label is read as a block is: none past the end.
fn merge_labels(labels: &mut [u32], a: usize, b: usize)
    ensures { MergesTwo a b (label_of labels.old) (label_of labels.new) }
{
    let p = graph::block_at(labels, a);
    let q = graph::block_at(labels, b);
    if p < q {
        relabel(labels, p, q);
        return;
    }
    if q < p {
        relabel(labels, q, p);
    }
}

// The labels of row 26: those at the start, and then one for the ends of every edge of non-zero weight.
fn labelled(start: [u32; 256], ends: &[u32], edges: &[f32]) -> [u32; 256]
    ensures { Labelled ends.now edges.now start result }
{
    let mut labels = start;
    for k in 0..ends.len() / 2 {
        if has_weight(edges, k) {
            let (a, b) = ends_at(ends, k);
            merge_labels(&mut labels, a, b);
        }
    }
    labels
}

fn pose_26(labels: &[u32; 256], x: usize) -> Result<(), Refusal>
    ensures { result ≡ says (label_faults labels.now) x }
{
    let l = graph::block_at(labels, x);
    numbers::ask(l != u32::MAX, 26, x)
}

// Row 26.
fn island_rows(labels: &[u32; 256], n: usize) -> Result<(), Refusal>
    ensures { result ≡ lowest (label_faults labels.now) n }
{
    for x in 0..n {
        pose_26(labels, x)?;
    }
    Ok(())
}

// ---- rows 1 to 14 and 26, and the blocks

// Rows 1 to 14 and 26, of poses that are numbered.
fn graph_answer(
    manifold: Manifold,
    poses: &[f64],
    ends: &[u32],
    edges: &[f32],
    fixed: &[u32],
    room: Room,
    numbered: Blocks,
) -> Result<Counts, Refusal>
    requires { Numbered ends.now fixed.now numbered.at numbered.free }
    ensures { result ≡ Table·graph_answer (lent manifold poses.now ends.now edges.now fixed.now unset room) }
{
    let free = numbered.free;
    list_rows(manifold, poses, ends, edges, fixed, room)?;
    rows::row_12(free)?;
    rows::row_13(free)?;
    let labels = labelled(numbered.at, ends, edges);
    let n = poses.len() / 12;
    island_rows(&labels, n)?;
    rows::row_14(graph::dof(manifold) * (free as usize), n, room)?;
    Ok(Counts {
        poses: n,
        edges: ends.len() / 2,
        free,
    })
}

// Rows 1 to 14 and 26, and the blocks.
pub fn validate_pose_graph(
    manifold: Manifold,
    poses: &[f64],
    ends: &[u32],
    edges: &[f32],
    fixed: &[u32],
    room: Room,
) -> Checks
    ensures { result ≡ graph_checks (lent manifold poses.now ends.now edges.now fixed.now unset room) }
{
    let numbered = numbered(ends, fixed);
    let answer = graph_answer(manifold, poses, ends, edges, fixed, room, numbered);
    let blocks = numbered.at;
    Checks { answer, blocks }
}

// ---- all rows

// Rows 15 to 19, where the graph is fit.
fn settings_answer(graph: Result<Counts, Refusal>, settings: Settings) -> Result<Counts, Refusal>
    ensures { result ≡ Table·settings_answer graph settings }
{
    let counts = graph?;
    rows::validate_settings(settings)?;
    Ok(counts)
}

// Rows 1 to 19 and 26, and the blocks.
pub fn validate_optimizer_inputs(
    manifold: Manifold,
    poses: &[f64],
    ends: &[u32],
    edges: &[f32],
    fixed: &[u32],
    settings: Settings,
    room: Room,
) -> Checks
    ensures { result ≡ checks (lent manifold poses.now ends.now edges.now fixed.now settings room) }
{
    let graph = validate_pose_graph(manifold, poses, ends, edges, fixed, room);
    let answer = settings_answer(graph.answer, settings);
    let blocks = graph.blocks;
    Checks { answer, blocks }
}
