// A job's run (document 02, Wishes 1 and 2): a job is read, run with six degrees of freedom a pose, judged, and written again with the new poses. What a
// program says of it is made here too, so that programs only read and write.
#![tactic(auto)]

ghost use Rattle.std.specs.Prelude.{◌≡◌, Err, ◌*◌, ◌≤◌, ◌++◌, length, take, replicate};
ghost use Rattle.std.specs.Float.{binary64};
ghost use Rattle.std.specs.List.{AllZip};
ghost use Rattle.std.specs.Float.Ieee.{of_bits, to_bits};
ghost use Rattle.io.specs.Counts.{IsPrefixLen};
ghost use Rattle.job.specs.Format.{space, job_of, size_of, read_at_most};
ghost use Rattle.printable.specs.declared.Printable.TheVariants as printable;
ghost use Rattle.line.specs.Text.{ascii, line_of};
ghost use Rattle.line.specs.FloatText.{float_text};
ghost use Rattle.join_job.specs.Lent.{run_in, space_in};
ghost use Rattle.join_job.specs.Joining.{patterns, run_of, judged_over, judged_of, joined_with, joined_into};
ghost use Rattle.join_job.specs.Joining.{report_of, report_text, printable_text, second_text, small_room, full_room};

use job::SettingBits;
use job_records::Tally;
use line::Line;
use numbers::Refusal;
use printable::Printable;
use sparse_pgo::Joined;

// What is said of a job's run.
#[derive(Clone, Copy)]
pub struct Report {
    pub poses: usize,
    pub edges: usize,
    pub iterations: u32,
    pub converged: bool,
    pub printable: Printable,
}

// What is said of a job, or why it was turned down; and how many bytes the joined job has, 0 where there is none: `join` promises both.
#[derive(Clone, Copy)]
pub struct Joining {
    pub report: Result<Report, Refusal>,
    pub bytes: usize,
}

// ---- bits and floats, for every pattern: a NaN's pattern gives a NaN, and a NaN one pattern

fn double_of(bits: u64) -> f64
    ensures { result ≡ of_bits binary64 bits }
{
    if 0x7ff0_0000_0000_0000 < bits % 0x8000_0000_0000_0000 {
        return f64::NAN;
    }
    f64::from_bits(bits)
}

fn bits_of(x: f64) -> u64
    ensures { result ≡ to_bits binary64 x }
{
    if x.is_nan() {
        return 0x7ff8_0000_0000_0000;
    }
    x.to_bits()
}

// Each number of `to` becomes what `made` makes of the one of `from` at its place.
fn convert<A: Copy, B: Copy, F: Fn(A) -> B>(from: &[A], to: &mut [B], made: F)
    requires same_length { length to.old ≡ length from.now }
    requires callable { F.IsAlwaysCallable made }
    ensures { AllZip (F.post made) from.now to.new }
{
    for (i, x) in from.iter().enumerate() {
        to[i] = made(*x);
    }
}

// An array of one value, whose length callers know without a look at it.
fn blank<T: Copy, const N: usize>(zero: T) -> [T; N]
    ensures value { result ≡ replicate N zero }
    ensures len { length result ≡ N }
{
    [zero; N]
}

// ---- the run

// A job's settings and numbers, the poses and edges as patterns or as floats.
#[derive(Clone, Copy)]
struct Numbers<'a, P, E> {
    settings: SettingBits,
    poses: &'a [P],
    ends: &'a [u32],
    edges: &'a [E],
    fixed: &'a [u32],
}

// The run over work of its own: for 64 free poses with six degrees of freedom, and for 256 poses.
fn run_over(j: Numbers<'_, f64, f32>, out: &mut [f64]) -> Result<Joined, Refusal>
    ensures value { result ≡ (run_in j.entry out.old).answer }
    ensures out_value { out.new ≡ (run_in j.entry out.old).out }
{
    let mut work32 = [0.0f32; 148608];
    let mut work64 = [0.0f64; 6144];
    sparse_pgo::optimize(
        j.poses,
        j.ends,
        j.edges,
        j.fixed,
        job_terms::settings_of(j.settings),
        &mut work32,
        &mut work64,
        out,
    )
}

// The run, and whether what came out may be printed.
fn judge_over(j: Numbers<'_, f64, f32>, out: &mut [f64]) -> Result<(Joined, Printable), Refusal>
    ensures value { result ≡ judged_over j.entry.settings j.entry.poses.now j.entry.ends.now j.entry.edges.now j.entry.fixed.now out.old }
    ensures out_value { out.new ≡ (run_in j.entry out.old).out }
{
    let joined = run_over(j, out)?;
    let p = job_terms::printable_after(
        joined.converged,
        joined.iterations,
        j.settings.limit,
        j.poses,
        j.ends,
        j.edges,
        out,
    );
    Ok((joined, p))
}

// The run of what was read; the new poses' bits where it succeeds.
fn run_job(j: Numbers<'_, u64, u32>, new: &mut [u64]) -> Result<(Joined, Printable), Refusal>
    requires { (length j.poses.now ≤ 3072) × (length j.edges.now ≤ 8192) × (length new.old ≡ length j.poses.now) }
    ensures value { result ≡ judged_of j.entry.settings (space_in j.entry) }
    ensures value_2 { new.new ≡ patterns binary64 (run_of j.entry.settings (space_in j.entry)).out }
{
    let n = j.poses.len();
    // 256 poses and 1,024 edges.
    let mut doubles = blank::<f64, 3072>(0.0);
    let doubled = &mut doubles[..n];
    convert(j.poses, doubled, double_of);
    let mut singles = blank::<f32, 8192>(0.0);
    let singled = &mut singles[..j.edges.len()];
    convert(j.edges, singled, job_terms::single_of);
    let mut zeros = blank::<f64, 3072>(0.0);
    let out = &mut zeros[..n];
    let floats = Numbers {
        settings: j.settings,
        poses: doubled,
        ends: j.ends,
        edges: singled,
        fixed: j.fixed,
    };
    let a = judge_over(floats, out);
    convert(out, new, bits_of);
    a
}

fn refused(r: Refusal) -> Joining
    ensures { result ≡ record { report = Err r; bytes = 0 } }
{
    Joining {
        report: Err(r),
        bytes: 0,
    }
}

// Runs what was read, and writes the job with the new poses.
fn join_read(j: Numbers<'_, u64, u32>, had: Tally, out: &mut [u8]) -> Joining
    requires { (length j.poses.now ≤ 3072) × (length j.edges.now ≤ 8192) }
    ensures { (result.report, result.bytes, out.new) ≡ joined_with had (job_of j.entry.settings (space_in j.entry)) out.old }
{
    let mut room = blank::<u64, 3072>(0);
    let new = &mut room[..j.poses.len()];
    let a = run_job(j, new);
    let (run, printable) = match a {
        Ok(judged) => judged,
        Err(r) => return refused(r),
    };
    let report = Report {
        poses: had.poses,
        edges: had.edges,
        iterations: run.iterations,
        converged: run.converged,
        printable,
    };
    match job::write_job(j.settings, new, j.ends, j.edges, j.fixed, out) {
        Ok(bytes) => Joining {
            report: Ok(report),
            bytes,
        },
        Err(r) => refused(r),
    }
}

// The same of numbers that stand at the start of larger arrays.
fn join_front(j: Numbers<'_, u64, u32>, had: Tally, out: &mut [u8]) -> Joining
    requires poses_bound { (had.poses ≤ 256) × (had.edges ≤ 1024) × (had.fixed ≤ 256) }
    requires poses_len { (length j.poses.now ≡ 3072) × (length j.ends.now ≡ 2048) × (length j.edges.now ≡ 8192) × (length j.fixed.now ≡ 256) }
    ensures { (result.report, result.bytes, out.new) ≡ joined_with had (job_of j.entry.settings
        (space (take (12 * had.poses) j.entry.poses.now) (take (2 * had.edges) j.entry.ends.now)
        (take (8 * had.edges) j.entry.edges.now) (take had.fixed j.entry.fixed.now))) out.old }
{
    let front = Numbers {
        settings: j.settings,
        poses: &j.poses[..12 * had.poses],
        ends: &j.ends[..2 * had.edges],
        edges: &j.edges[..8 * had.edges],
        fixed: &j.fixed[..had.fixed],
    };
    join_read(front, had, out)
}

// A job of at most so many poses, edges and fixed entries.
fn join_within(room: Tally, bytes: &[u8], out: &mut [u8]) -> Joining
    requires { (room.poses ≤ 256) × (room.edges ≤ 1024) × (room.fixed ≤ 256) }
    ensures { (result.report, result.bytes, out.new) ≡ joined_into room bytes.now out.old }
{
    // 256 poses, 1,024 edges and 256 fixed entries.
    let mut poses = blank::<u64, 3072>(0);
    let mut ends = blank::<u32, 2048>(0);
    let mut edges = blank::<u32, 8192>(0);
    let mut fixed = blank::<u32, 256>(0);
    let p = 12 * room.poses;
    let e = 2 * room.edges;
    let g = 8 * room.edges;
    let f = room.fixed;
    match job::read_job(
        bytes,
        &mut poses[..p],
        &mut ends[..e],
        &mut edges[..g],
        &mut fixed[..f],
    ) {
        Err(r) => refused(r),
        Ok((settings, had)) => {
            let read = Numbers {
                settings,
                poses: &poses,
                ends: &ends,
                edges: &edges,
                fixed: &fixed,
            };
            join_front(read, had, out)
        }
    }
}

// At document 01's limits: the joined job goes to the start of out. (`join` and `join_small` are public names, each one call of what they share.)
pub fn join(bytes: &[u8], out: &mut [u8]) -> Joining
    ensures out_value { (result.report, result.bytes, out.new) ≡ joined_into full_room bytes.now out.old }
    ensures prefix_len { IsPrefixLen result.bytes out.new }
{
    let room = Tally {
        poses: 256,
        edges: 1024,
        fixed: 256,
    };
    join_within(room, bytes, out)
}

// At the wish's own: 16 poses, 64 edges, 16 fixed entries, and nothing but a line is wanted. No job within these limits takes more than 4,568 bytes.
pub fn join_small(bytes: &[u8]) -> Result<Report, Refusal>
    ensures { result ≡ report_of small_room bytes.now }
{
    let room = Tally {
        poses: 16,
        edges: 64,
        fixed: 16,
    };
    // The bytes of 16 poses, 64 edges and 16 fixed entries.
    let mut out = blank::<u8, 4568>(0);
    let j = join_within(room, bytes, &mut out);
    j.report
}

// ---- what a program holds

// No byte of input past these can change the answer of `join_small`, and of `join`; and as many bytes of output as the largest joined job has.
pub fn small_input() -> [u8; 4665]
    ensures value { result ≡ replicate (read_at_most small_room) 0 }
    ensures value_2 { 4665 ≡ length result }
{
    [0; 4665]
}

pub fn full_input() -> [u8; 72825]
    ensures value { result ≡ replicate (read_at_most full_room) 0 }
    ensures value_2 { 72825 ≡ length result }
{
    [0; 72825]
}

pub fn full_output() -> [u8; 72728]
    ensures value { result ≡ replicate (size_of full_room) 0 }
    ensures value_2 { 72728 ≡ length result }
{
    [0; 72728]
}

// ---- what a program says

// The line that a program prints.
pub fn said(r: Result<Report, Refusal>) -> Line
    ensures { result ≡ line_of (report_text r) }
{
    match r {
        Ok(r) => line::ran(
            r.poses as u64,
            r.edges as u64,
            u64::from(r.iterations),
            r.converged,
        ),
        Err(r) => line::refused(u64::from(r.number), r.place as u64),
    }
}

// A text and two numbers.
fn with_two(text: &[u8], before: f64, after: f64) -> Line
    ensures { result ≡ line_of (text.now ++ float_text before ++ ascii ", after " ++ float_text after ++ ascii ")\n") }
{
    let l = line::with_float(line::with_text(line::empty(), text), before);
    let l = line::with_float(line::with_text(l, b", after "), after);
    line::with_text(l, b")\n")
}

fn not_converged(iterations: u32, limit: u32) -> Line
    ensures { result ≡ line_of (printable_text (printable.NotConverged iterations limit)) }
{
    let l = line::with_text(
        line::empty(),
        b"may be printed: no, not converged (iterations ",
    );
    let l = line::with_text(line::with_decimal(l, u64::from(iterations)), b", limit ");
    line::with_text(line::with_decimal(l, u64::from(limit)), b")\n")
}

fn tipped(cosine: f64) -> Line
    ensures { result ≡ line_of (printable_text (printable.Tipped cosine)) }
{
    let l = line::with_text(
        line::empty(),
        b"may be printed: no, gravity tipped (smallest cosine ",
    );
    line::with_text(line::with_float(l, cosine), b", least 0.999999995)\n")
}

fn printable_said(p: Printable) -> Line
    ensures { result ≡ line_of (printable_text p) }
{
    match p {
        Printable::Yes => line::with_text(line::empty(), b"may be printed: yes\n"),
        Printable::NoResidual => line::with_text(
            line::empty(),
            b"may be printed: no, the last edge has no residual\n",
        ),
        Printable::NotConverged(iterations, limit) => not_converged(iterations, limit),
        Printable::Tipped(cosine) => tipped(cosine),
        Printable::CostKept(before, after) => with_two(
            b"may be printed: no, the cost did not fall (before ",
            before,
            after,
        ),
        Printable::LastWorse(before, after) => with_two(
            b"may be printed: no, the last edge got worse (before ",
            before,
            after,
        ),
    }
}

// `join`'s second line; an empty one, which says nothing, where the job was turned down.
pub fn second_said(r: Result<Report, Refusal>) -> Line
    ensures { result ≡ line_of (second_text r) }
{
    match r {
        Ok(r) => printable_said(r.printable),
        Err(_) => line::empty(),
    }
}
