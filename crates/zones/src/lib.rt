//! The zones of clusters, where reads are taken to start d ticks earlier (Gibbons and Korach 1997;
//! Golab, Li and Shah 2011): the order of zones, their conflicts, and the sweep that finds either an
//! order without conflict or the first conflict.
#![tactic(auto)]

ghost use Rattle.std.specs.Prelude.{◌≡◌, ◌<◌, ◌↔◌, IsTrue, IfOk, MatchOption};
ghost use Rattle.stale_model.specs.Zones.{last_start, AreInConflict, zone_order, HasNoCrossing, IsPair};
ghost use Rattle.stale_model.specs.Clusters.{writes_of, WriteRecordsDiffer};
ghost use Rattle.zones.specs.Sweeps.{IsLaterOfPair, IsClusterSweep, IsSweep};

mod laws;
mod standings;

pub use laws::{pairs_exist, zone_orders_exist};
use stale_model::{Cluster, List, Memory};
use standings::{in_zone_order, standing_at, standing_cmp};
use std::alloc::Global;
use std::cmp::Ordering;

/// What a sweep over clusters finds, by write records.
#[derive(Drop, Debug)]
pub enum Swept {
    /// No two clusters are in conflict: all of them in the zone order.
    Order(List<u32>),
    /// The first cluster of the zone order with an operation that precedes one of an earlier cluster,
    /// and that earlier cluster. The two are in conflict.
    Pair { earlier: u32, later: u32 },
}

/// What a sweep over clusters finds, by the clusters themselves.
#[derive(Drop, Debug)]
pub enum SweptClusters {
    /// No two clusters are in conflict: all of them in the zone order.
    Order(List<Cluster>),
    /// The first cluster of the zone order with an operation that precedes one of an earlier cluster,
    /// and that earlier cluster. The two are in conflict.
    Pair { earlier: Cluster, later: Cluster },
}

/// The greatest earliest start in a cluster, in ticks, where its reads are taken to start d ticks
/// earlier.
pub fn last_start(d: u64, cluster: &Cluster) -> u64
    ensures { result ≡ last_start d cluster.now }
{
    let read = cluster.s.unwrap_or(0);
    cluster.w.max(read.saturating_sub(d))
}

/// The zone order at d: by where zones begin, then backward before forward, then by write record.
pub fn zone_cmp(d: u64, a: &Cluster, b: &Cluster) -> Ordering
    ensures { result ≡ zone_order d a.now b.now }
{
    standing_cmp(&standing_at(d, 0, a), &standing_at(d, 0, b))
}

/// Whether two clusters are in conflict at d: some operation of each precedes one of the other.
pub fn conflict_at(d: u64, a: &Cluster, b: &Cluster) -> bool
    ensures { IsTrue result ↔ AreInConflict d a.now b.now }
{
    a.f < last_start(d, b) && b.f < last_start(d, a)
}

// The first zone with an operation that precedes one of an earlier zone at d.
fn first_crossing(d: u64, zones: &[Cluster]) -> Option<Cluster>
    ensures { MatchOption result (HasNoCrossing d zones.now) (IsLaterOfPair d zones.now) }
{
    let mut greatest = 0;
    for zone in zones {
        if zone.f < greatest {
            return Some(*zone);
        }
        greatest = greatest.max(last_start(d, zone));
    }
    None
}

// The pair at d of zones in order: an earlier and a later one.
fn pair_of(d: u64, zones: &[Cluster]) -> Option<(Cluster, Cluster)>
    ensures { MatchOption result (HasNoCrossing d zones.now)
        (λ pair. IsPair d zones.now pair.0 pair.1) }
{
    let later = first_crossing(d, zones)?;
    let earlier = zones.iter().find(|zone| later.f < last_start(d, zone))?;
    Some((*earlier, later))
}

/// Sweeps over clusters, whose write records differ, in the zone order at d. Answers all of them in
/// that order exactly where no two are in conflict, else the pair. The error is want of memory.
pub fn sweep_clusters(alloc: Global, d: u64, clusters: &[Cluster]) -> Result<SweptClusters, Memory>
    requires { WriteRecordsDiffer clusters.now }
    ensures { IfOk result (IsClusterSweep d clusters.now) }
{
    let Ok(zones) = in_zone_order(alloc, d, clusters) else {
        return Err(Memory);
    };
    match pair_of(d, &zones) {
        None => Ok(SweptClusters::Order(List::from_vec(zones))),
        Some((earlier, later)) => Ok(SweptClusters::Pair { earlier, later }),
    }
}

/// The write record of each cluster. The error is want of memory.
pub fn writes_of(alloc: Global, clusters: &[Cluster]) -> Result<List<u32>, Memory>
    ensures { IfOk result (λ writes. writes ≡ writes_of clusters.now) }
{
    let writes = clusters.iter().map(|cluster| cluster.write).collect(alloc);
    Ok(List::from_vec(writes.map_err(|_| Memory)?))
}

/// Sweeps over clusters, whose write records differ, in the zone order at d. Answers all write records
/// in that order exactly where no two clusters are in conflict, else those of the pair. The error is
/// want of memory.
pub fn sweep(alloc: Global, d: u64, clusters: &[Cluster]) -> Result<Swept, Memory>
    requires { WriteRecordsDiffer clusters.now }
    ensures { IfOk result (IsSweep d clusters.now) }
{
    match sweep_clusters(alloc, d, clusters)? {
        SweptClusters::Order(zones) => Ok(Swept::Order(writes_of(alloc, zones.as_slice())?)),
        SweptClusters::Pair { earlier, later } => Ok(Swept::Pair {
            earlier: earlier.write,
            later: later.write,
        }),
    }
}
