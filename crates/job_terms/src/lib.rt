// The terms of a job's run (document 02, Wishes 1 and 2): its settings, bit patterns in the job, as floats, and whether what the run gave may be printed.
#![tactic(auto)]

ghost use Rattle.std.specs.Prelude.{◌≡◌};
ghost use Rattle.std.specs.Float.{binary32};
ghost use Rattle.std.specs.Float.Ieee.{of_bits};
ghost use Rattle.job_terms.specs.Terms.{settings_as, printable_after};

use graph::Manifold;
use job::SettingBits;
use printable::Printable;
use rows::Settings;

// The float of a pattern, of every one: a NaN's pattern gives a NaN. (`double_of` of join_job does the same of the other format: a trait over the two would
// hold just these two bodies.)
pub fn single_of(bits: u32) -> f32
    ensures { result ≡ of_bits binary32 bits }
{
    if 0x7f80_0000 < bits % 0x8000_0000 {
        return f32::NAN;
    }
    f32::from_bits(bits)
}

// Each of a job's settings, as the run takes it.
pub fn settings_of(t: SettingBits) -> Settings
    ensures { result ≡ settings_as t }
{
    Settings {
        limit: t.limit,
        cost_tolerance: single_of(t.cost_tolerance),
        gradient_tolerance: single_of(t.gradient_tolerance),
        damping: single_of(t.damping),
    }
}

// Whether a run's new poses may be printed, by how it ended and by the poses given.
pub fn printable_after(
    converged: bool,
    iterations: u32,
    limit: u32,
    poses: &[f64],
    ends: &[u32],
    edges: &[f32],
    new: &[f64],
) -> Printable
    ensures { result ≡ printable_after converged iterations limit poses.now ends.now edges.now new.now }
{
    let m = printable::measures_at(poses, new, ends, edges);
    let cosine = printable::min_gravity_cosine(Manifold::Se3, poses, new);
    printable::may_be_printed(converged, iterations, limit, cosine, m)
}
