// The job file: a reader and a writer over lent slices (document 02, Wish 1). Floats cross as their bit patterns, so that a NaN keeps its bits.
#![tactic(auto)]

ghost use Rattle.std.specs.Prelude.{◌≡◌, ℕ, ◌+◌, ◌*◌, ◌/◌, ◌≤◌, min, length, get_or, ◌++◌, ltb, Err};
ghost use Rattle.job_records.specs.Bytes.{value_at, values_at, pasted, bytes_of};
ghost use Rattle.job.specs.Format.{scanned_as, IsTaken, taking, filled_by, reading, settings_from, space, room_in, read_into};
ghost use Rattle.job.specs.Format.{settings_record, pose_record, edge_record, fixed_record, encoded, size_of, setting_numbers, job_of, tally_of};
ghost use Rattle.job_records.specs.Records.{kind_at};
ghost use Rattle.numbers.specs.Refusals.{refusal};
ghost use Rattle.numbers.specs.Walks.{table, strung};
ghost use Rattle.job.specs.Writer.{written_into};
ghost use Rattle.job.specs.Lent.{SameLoans, held_in, job_in};

use job_records::{Cursor, Tally};
use numbers::Refusal;

// A run's settings, floats by their bits: a type of its own beside rows' Settings, so that nobody takes a pattern for a number.
#[derive(Clone, Copy)]
pub struct SettingBits {
    pub limit: u32,
    pub cost_tolerance: u32,
    pub gradient_tolerance: u32,
    pub damping: u32,
}

// ---- numbers in bytes

// A number of the file: so many bytes, the low one first.
trait Word: Copy {
    ghost BYTES: { ℕ };

    // the value that a number is written for, and the number that a value is written as
    ghost of: { ℕ → Self };

    ghost number: { Self → ℕ };

    const BYTES: usize;

    // The number of the bytes of s from `at` on.
    fn read(s: &[u8], at: usize) -> Self
        requires { at + BYTES ≤ length s.now }
        ensures { result ≡ of (value_at BYTES s.now at) };

    // Puts the number's bytes into out from `at` on.
    fn put(self, out: &mut [u8], at: usize)
        requires { at + BYTES ≤ length out.old }
        ensures { out.new ≡ pasted at (bytes_of BYTES (number self)) out.old };
}

impl Word for u32 {
    ghost BYTES = { 4 };

    ghost of = { λ x. x };

    ghost number = { λ x. x };

    const BYTES: usize = 4;

    fn read(s: &[u8], at: usize) -> u32 {
        u32::from_le_bytes(<[u8; 4]>::try_from(&s[at..at + 4]).unwrap())
    }

    fn put(self, out: &mut [u8], at: usize) {
        out[at..at + 4].copy_from_slice(&self.to_le_bytes());
    }
}

impl Word for u64 {
    ghost BYTES = { 8 };

    ghost of = { λ x. x };

    ghost number = { λ x. x };

    const BYTES: usize = 8;

    fn read(s: &[u8], at: usize) -> u64 {
        u64::from_le_bytes(<[u8; 8]>::try_from(&s[at..at + 8]).unwrap())
    }

    fn put(self, out: &mut [u8], at: usize) {
        out[at..at + 8].copy_from_slice(&self.to_le_bytes());
    }
}

// Reads as many numbers as `to` holds: those that stand in s from `at` on.
fn take<T: Word>(s: &[u8], at: usize, to: &mut [T])
    requires { at + T.BYTES * length to.old ≤ length s.now }
    ensures { to.new ≡ table (λ i. T.of (value_at T.BYTES s.now (at + T.BYTES * i))) (length to.old) }
{
    for (i, x) in to.iter_mut().enumerate() {
        *x = T::read(s, at + T::BYTES * i);
    }
}

// ---- reading: the records are gone through once to see whether the job is taken, and once more to take it

// At the start: no record stands before, and nothing was counted.
const FIRST: Cursor = Cursor {
    at: 0,
    last: 0,
    had: Tally {
        poses: 0,
        edges: 0,
        fixed: 0,
    },
};

fn scan(room: Tally, s: &[u8]) -> Result<Tally, Refusal>
    ensures { result ≡ scanned_as (reading room s.now) }
{
    let mut c = FIRST;
    while let Some(d) = job_records::step_at(room, s, c)? {
        c = d;
    }
    Ok(c.had)
}

// The lent numbers that a job is read into.
#[derive(Drop)]
struct Lent<'a> {
    poses: &'a mut [u64],
    ends: &'a mut [u32],
    edges: &'a mut [u32],
    fixed: &'a mut [u32],
}

impl Lent<'_> {
    // As many poses, edges and fixed entries as there is room for.
    fn room(&self) -> Tally
        ensures { result ≡ room_in (held_in self.now) }
    {
        Tally {
            poses: self.poses.len() / 12,
            edges: (self.ends.len() / 2).min(self.edges.len() / 8),
            fixed: self.fixed.len(),
        }
    }

    // What the record at c, of a kind, holds goes behind what was taken before.
    #[tactic(auto, using(crate::proofs::Values::taking_steps), unfolding(crate::specs::Format::taking, numbers::specs::Notation::if_then))]
    fn take_record(&mut self, s: &[u8], c: Cursor, kind: u64)
        requires is { kind ≡ kind_at s.now c.at }
        requires pose { kind ≡ 2 → (c.at + 100 ≤ length s.now) × (12 * c.had.poses + 12 ≤ length self.old.poses.now) }
        requires edge { kind ≡ 3 →
            (c.at + 44 ≤ length s.now) × (2 * c.had.edges + 2 ≤ length self.old.ends.now) × (8 * c.had.edges + 8 ≤ length self.old.edges.now) }
        requires fixed { kind ≡ 4 → (c.at + 8 ≤ length s.now) × (c.had.fixed + 1 ≤ length self.old.fixed.now) }
        ensures same { SameLoans self.old self.new }
        ensures taken { held_in self.new ≡ taking s.now c (held_in self.old) }
    {
        let at = c.at;
        let had = c.had;
        match kind {
            2 => {
                let p = 12 * had.poses;
                take(s, at + 4, &mut self.poses[p..p + 12]);
            }
            3 => {
                let e = 2 * had.edges;
                let m = 8 * had.edges;
                take(s, at + 4, &mut self.ends[e..e + 2]);
                take(s, at + 12, &mut self.edges[m..m + 8]);
            }
            4 => {
                self.fixed[had.fixed] = u32::read(s, at + 4);
            }
            _ => {}
        }
    }

    // Every record is taken: the scan found none that is refused.
    fn take_records(&mut self, s: &[u8], room: Tally)
        requires { (room ≡ room_in (held_in self.old)) × IsTaken (reading room s.now) }
        ensures same { SameLoans self.old self.new }
        ensures taken { held_in self.new ≡ filled_by (reading room s.now) (held_in self.old) }
    {
        let mut c = FIRST;
        while let Ok(Some(d)) = job_records::step_at(room, s, c) {
            self.take_record(s, c, d.last);
            c = d;
        }
    }
}

#[tactic(auto, unfolding(numbers::specs::Walks::table))]
fn settings_in(s: &[u8]) -> SettingBits
    requires { 20 ≤ length s.now }
    ensures { result ≡ settings_from (values_at 4 4 s.now 4) }
{
    SettingBits {
        limit: u32::read(s, 4),
        cost_tolerance: u32::read(s, 8),
        gradient_tolerance: u32::read(s, 12),
        damping: u32::read(s, 16),
    }
}

// Reads a job into the lent numbers, as many poses, edges and fixed entries as they hold. What stands behind what was read is as found.
pub fn read_job(
    bytes: &[u8],
    poses: &mut [u64],
    ends: &mut [u32],
    edges: &mut [u32],
    fixed: &mut [u32],
) -> Result<(SettingBits, Tally), Refusal>
    ensures { (result, space poses.new ends.new edges.new fixed.new) ≡
        read_into bytes.now (space poses.old ends.old edges.old fixed.old) }
{
    let mut to = Lent {
        poses,
        ends,
        edges,
        fixed,
    };
    let room = to.room();
    let had = scan(room, bytes)?;
    to.take_records(bytes, room);
    Ok((settings_in(bytes), had))
}

// ---- writing

// Puts the numbers ns into out from `at` on, one behind the other.
fn put_all<T: Word>(out: &mut [u8], at: usize, ns: &[T])
    requires { at + T.BYTES * length ns.now ≤ length out.old }
    ensures { out.new ≡ pasted at (strung (λ i. bytes_of T.BYTES (T.number (get_or ns.now i (T.of 0)))) (length ns.now)) out.old }
{
    for (i, x) in ns.iter().enumerate() {
        x.put(out, at + T::BYTES * i);
    }
}

// ---- records

// The length of a record's body, and its kind.
fn put_header(out: &mut [u8], at: usize, len: u16, kind: u16)
    requires { at + 4 ≤ length out.old }
    ensures { out.new ≡ pasted at (bytes_of 2 len ++ bytes_of 2 kind) out.old }
{
    out[at..at + 2].copy_from_slice(&len.to_le_bytes());
    out[at + 2..at + 4].copy_from_slice(&kind.to_le_bytes());
}

fn put_settings(out: &mut [u8], t: SettingBits)
    requires { 20 ≤ length out.old }
    ensures { out.new ≡ pasted 0 (settings_record (setting_numbers t)) out.old }
{
    let ns = [t.limit, t.cost_tolerance, t.gradient_tolerance, t.damping];
    put_header(out, 0, 16, 1);
    put_all(out, 4, &ns);
}

fn put_poses(out: &mut [u8], at: usize, poses: &[u64], n: usize)
    requires { (at + 100 * n ≤ length out.old) × (12 * n ≤ length poses.now) }
    ensures { out.new ≡ pasted at (strung (pose_record poses.now) n) out.old }
{
    for i in 0..n {
        let r = at + 100 * i;
        put_header(out, r, 96, 2);
        put_all(out, r + 4, &poses[12 * i..12 * i + 12]);
    }
}

fn put_edges(out: &mut [u8], at: usize, ends: &[u32], edges: &[u32], n: usize)
    requires { (at + 44 * n ≤ length out.old) × (2 * n ≤ length ends.now) × (8 * n ≤ length edges.now) }
    ensures { out.new ≡ pasted at (strung (edge_record ends.now edges.now) n) out.old }
{
    for i in 0..n {
        let r = at + 44 * i;
        put_header(out, r, 40, 3);
        put_all(out, r + 4, &ends[2 * i..2 * i + 2]);
        put_all(out, r + 12, &edges[8 * i..8 * i + 8]);
    }
}

fn put_fixed(out: &mut [u8], at: usize, fixed: &[u32])
    requires { at + 8 * length fixed.now ≤ length out.old }
    ensures { out.new ≡ pasted at (strung (fixed_record fixed.now) (length fixed.now)) out.old }
{
    for (i, x) in fixed.iter().enumerate() {
        let r = at + 8 * i;
        put_header(out, r, 4, 4);
        x.put(out, r + 4);
    }
}

// Whether n bytes are too few for a job of so many poses, edges and fixed entries. In 128 bits no sum here can wrap.
fn too_short(n: usize, t: Tally) -> bool
    ensures { result ≡ ltb n (size_of t) }
{
    let size = 24 + 100 * (t.poses as u128) + 44 * (t.edges as u128) + 8 * (t.fixed as u128);
    (n as u128) < size
}

// A job's numbers, to be written.
#[derive(Clone, Copy)]
struct Numbers<'a> {
    settings: SettingBits,
    poses: &'a [u64],
    ends: &'a [u32],
    edges: &'a [u32],
    fixed: &'a [u32],
}

fn put_job(j: Numbers<'_>, had: Tally, out: &mut [u8]) -> usize
    requires { (had ≡ tally_of (job_in j)) × (8 * had.edges ≤ length j.edges.now) × (size_of had ≤ length out.old) }
    ensures { (result ≡ size_of had) × (out.new ≡ pasted 0 (encoded (job_in j.entry)) out.old) }
{
    put_settings(out, j.settings);
    put_poses(out, 20, j.poses, had.poses);
    let edges_at = 20 + 100 * had.poses;
    put_edges(out, edges_at, j.ends, j.edges, had.edges);
    let fixed_at = edges_at + 44 * had.edges;
    put_fixed(out, fixed_at, j.fixed);
    let end_at = fixed_at + 8 * j.fixed.len();
    put_header(out, end_at, 0, 5);
    end_at + 4
}

fn refused(number: u32) -> Result<usize, Refusal>
    ensures { result ≡ Err (refusal number 0) }
{
    Err(Refusal { number, place: 0 })
}

// Writes a job into the start of out; what stands behind it is as found, and where refused everything is.
#[tactic(auto, using(crate::proofs::Encoding::length_encoded), unfolding(crate::specs::Writer::written_into, rows::specs::Tests::unfit))]
pub fn write_job(
    t: SettingBits,
    poses: &[u64],
    ends: &[u32],
    edges: &[u32],
    fixed: &[u32],
    out: &mut [u8],
) -> Result<usize, Refusal>
    ensures { (result, out.new) ≡ written_into (job_of t (space poses.now ends.now edges.now fixed.now)) out.old }
{
    if poses.len() % 12 != 0 || ends.len() % 2 != 0 || edges.len() != 4 * ends.len() {
        return refused(2);
    }
    let had = Tally {
        poses: poses.len() / 12,
        edges: ends.len() / 2,
        fixed: fixed.len(),
    };
    if too_short(out.len(), had) {
        return refused(36);
    }
    let j = Numbers {
        settings: t,
        poses,
        ends,
        edges,
        fixed,
    };
    Ok(put_job(j, had, out))
}
