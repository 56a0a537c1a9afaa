//! The score of a pair of clusters: the least d at which the two are not in conflict.
ghost use Rattle.std.specs.Prelude.{ℕ, ◌<◌, ◌≤◌, ◌↔◌};
ghost use Rattle.stale_model.specs.Zones.{AreInConflict};

use stale_model::Cluster;

/// The score of two clusters, in each of which the write starts no later than the first operation
/// finishes: the least d, in ticks, at which they are not in conflict (Golab, Li and Shah 2011).
pub fn pair_score(a: &Cluster, b: &Cluster) -> u64
    requires a_starts { a.now.w ≤ a.now.f }
    requires b_starts { b.now.w ≤ b.now.f }
    ensures { (d : ℕ) → AreInConflict d a.now b.now ↔ (d < result) }
{
    let there = b.reads_start().saturating_sub(a.f);
    let back = a.reads_start().saturating_sub(b.f);
    if a.f < b.w {
        back
    } else if b.f < a.w {
        there
    } else {
        there.min(back)
    }
}
