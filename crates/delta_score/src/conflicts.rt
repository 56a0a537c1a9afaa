//! Conflicts among clusters in the order of f, the least latest finish: one order of them serves every d.
ghost use Rattle.std.specs.Prelude.{IfOk, MatchOption};
ghost use Rattle.stale_model.specs.Clusters.{WriteRecordsDiffer};
ghost use Rattle.stale_model.specs.Zones.{HasNoConflict};
ghost use Rattle.zones.specs.Conflicts.{IsConflict};
ghost use Rattle.delta_score.specs.FinishOrders.{IsFinishOrder, AreByFinish};

use stale_model::Cluster;
use std::alloc::{AllocError, Global};
use zones::{conflict_at, last_start};

/// Clusters in the order of f. In the order of records they are nearly sorted, which a stable sort makes use of.
pub fn in_finish_order(alloc: Global, clusters: &[Cluster]) -> Result<Vec<Cluster>, AllocError>
    ensures { IfOk result (λ sorted. IsFinishOrder clusters.now sorted.items) }
{
    let mut sorted = Vec::from_slice(alloc, clusters)?;
    sorted.sort_by_key(|cluster| cluster.f)?;
    Ok(sorted)
}

/// Two clusters in conflict at d, unless no two are. The clusters' write records differ, and they stand in the order
/// of f. Where no two of those before are in conflict, the next one can be in conflict only with the one of them that
/// starts last.
pub fn conflict_in(d: u64, sorted: &[Cluster]) -> Option<(Cluster, Cluster)>
    requires differ { WriteRecordsDiffer sorted.now }
    requires by_finish { AreByFinish sorted.now }
    ensures { MatchOption result (HasNoConflict d sorted.now)
        (λ pair. IsConflict d sorted.now pair.0 pair.1) }
{
    let mut last = 0;
    for place in 1..sorted.len() {
        if conflict_at(d, &sorted[last], &sorted[place]) {
            return Some((sorted[last], sorted[place]));
        }
        if last_start(d, &sorted[last]) < last_start(d, &sorted[place]) {
            last = place;
        }
    }
    None
}
