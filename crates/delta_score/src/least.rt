//! The least d at which no two clusters are in conflict, with what shows it.
ghost use Rattle.std.specs.Prelude.{◌≡◌, ◌-◌, ◌<◌, ◌≤◌, All, IfOk};
ghost use Rattle.stale_model.specs.Zones.{HasNoConflict, last_record, IsFourOfPair};
ghost use Rattle.zones.specs.Conflicts.{HasConflict};
ghost use Rattle.stale_model.specs.Clusters.{WriteRecordsDiffer};
ghost use Rattle.zones.specs.Sweeps.{IsOrderOf};
ghost use Rattle.delta_score.specs.FinishOrders.{AreByFinish};
ghost use Rattle.delta_score.specs.Scores.{IsLeastWithoutConflict, IsLeast, AreBounds, IsNarrowed};

use crate::conflicts::{conflict_in, in_finish_order};
use crate::score::pair_score;
use stale_model::{Cluster, Four, List, Memory};
use std::alloc::Global;
use zones::{Swept, SweptClusters, last_start, sweep, sweep_clusters, writes_of};

/// The least d at which no two clusters of a key are in conflict, and what shows it.
#[derive(Drop, Debug)]
pub struct Least {
    /// The least d, in ticks.
    pub delta: u64,
    /// The write records of the clusters in the zone order at `delta`.
    pub order: List<u32>,
    /// The records of the pair at `delta` - 1; none where `delta` is 0.
    pub refuter: Option<Four>,
}

/// Bounds of the least d without conflict.
#[derive(Clone, Copy)]
struct Bounds {
    /// At each lesser d some two clusters are in conflict.
    low: u64,
    /// Here no two clusters are in conflict.
    high: u64,
}

// By how much, at most, a read starts after the first operation of its cluster finishes. From this d on
// no zone is forward, and no two clusters are in conflict.
fn greatest_span(clusters: &[Cluster]) -> u64
    requires { All (λ c. c.w ≤ c.f) clusters.now }
    ensures { HasNoConflict result clusters.now }
{
    let spans = clusters
        .iter()
        .map(|cluster| cluster.reads_start().saturating_sub(cluster.f));
    spans.max().unwrap_or(0)
}

// The bounds after a pass at d over the clusters in the order of f.
fn narrowed(d: u64, sorted: &[Cluster], bounds: Bounds) -> Bounds
    requires differ { WriteRecordsDiffer sorted.now }
    requires starts { All (λ c. c.w ≤ c.f) sorted.now }
    requires by_finish { AreByFinish sorted.now }
    requires bounds { AreBounds sorted.now bounds }
    requires within { bounds.low ≤ d }
    ensures bounds { AreBounds sorted.now result }
    ensures narrowed { IsNarrowed d bounds result }
{
    if bounds.high <= d {
        return bounds;
    }
    match conflict_in(d, sorted) {
        None => Bounds { high: d, ..bounds },
        Some((earlier, later)) => Bounds {
            low: pair_score(&earlier, &later),
            ..bounds
        },
    }
}

// The least d without conflict. Each turn tries the low bound, which is often the answer, and then
// halves what is left.
fn least_between(sorted: &[Cluster], bounds: Bounds) -> u64
    requires differ { WriteRecordsDiffer sorted.now }
    requires starts { All (λ c. c.w ≤ c.f) sorted.now }
    requires by_finish { AreByFinish sorted.now }
    requires bounds { AreBounds sorted.now bounds }
    ensures least { IsLeastWithoutConflict sorted.now result }
    ensures above { bounds.low ≤ result }
{
    let mut between = bounds;
    while between.low < between.high {
        between = narrowed(between.low, sorted, between);
        let middle = between.low.midpoint(between.high);
        between = narrowed(middle, sorted, between);
    }
    between.low
}

// The least d without conflict. One order of the clusters serves all turns.
fn least_within(alloc: Global, clusters: &[Cluster], bounds: Bounds) -> Result<u64, Memory>
    requires differ { WriteRecordsDiffer clusters.now }
    requires starts { All (λ c. c.w ≤ c.f) clusters.now }
    requires bounds { AreBounds clusters.now bounds }
    ensures least { IfOk result (IsLeastWithoutConflict clusters.now) }
    ensures above { IfOk result (λ delta. bounds.low ≤ delta) }
{
    let Ok(sorted) = in_finish_order(alloc, clusters) else {
        return Err(Memory);
    };
    Ok(least_between(&sorted, bounds))
}

/// The write records in the zone order at d, where no two clusters are in conflict. The error is want of memory.
pub fn order_at(alloc: Global, d: u64, clusters: &[Cluster]) -> Result<List<u32>, Memory>
    requires differ { WriteRecordsDiffer clusters.now }
    requires apart { HasNoConflict d clusters.now }
    ensures { IfOk result (IsOrderOf d clusters.now) }
{
    match sweep(alloc, d, clusters)? {
        Swept::Order(order) => Ok(order),
        Swept::Pair { .. } => unreachable!(),
    }
}

// The record that starts last in a cluster at d.
fn last_record(d: u64, cluster: &Cluster) -> u32
    ensures { result ≡ last_record d cluster.now }
{
    if cluster.w < last_start(d, cluster) {
        cluster.last
    } else {
        cluster.write
    }
}

/// The records of the pair at d, where some two clusters are in conflict. The error is want of memory.
pub fn four_at(alloc: Global, d: u64, clusters: &[Cluster]) -> Result<Four, Memory>
    requires differ { WriteRecordsDiffer clusters.now }
    requires conflict { HasConflict d clusters.now }
    ensures { IfOk result (IsFourOfPair clusters.now d) }
{
    match sweep_clusters(alloc, d, clusters)? {
        SweptClusters::Order(_) => unreachable!(),
        SweptClusters::Pair { earlier, later } => Ok(Four {
            p: earlier.first,
            q: last_record(d, &later),
            q2: later.first,
            p2: last_record(d, &earlier),
        }),
    }
}

/// The least d, in ticks, at which no two clusters are in conflict, with the zone order at it and the
/// records of a conflict just below it. The clusters' write records differ, and in each the write
/// starts no later than the first operation finishes. The error is want of memory.
pub fn least_delta(alloc: Global, clusters: &[Cluster]) -> Result<Least, Memory>
    requires differ { WriteRecordsDiffer clusters.now }
    requires starts { All (λ c. c.w ≤ c.f) clusters.now }
    ensures { IfOk result (IsLeast clusters.now) }
{
    let bounds = match sweep_clusters(alloc, 0, clusters)? {
        SweptClusters::Order(zones) => {
            return Ok(Least {
                delta: 0,
                order: writes_of(alloc, zones.as_slice())?,
                refuter: None,
            });
        }
        SweptClusters::Pair { earlier, later } => Bounds {
            low: pair_score(&earlier, &later),
            high: greatest_span(clusters),
        },
    };
    let delta = least_within(alloc, clusters, bounds)?;
    Ok(Least {
        delta,
        order: order_at(alloc, delta, clusters)?,
        refuter: Some(four_at(alloc, delta - 1, clusters)?),
    })
}
