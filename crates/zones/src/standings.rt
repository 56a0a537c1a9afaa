//! Clusters in the zone order. What is sorted is small: the numbers that decide, and the place of the
//! cluster.

ghost use Rattle.std.specs.Prelude.{◌≡◌, ◌<◌, length, All, IfOk};
ghost use Rattle.stale_model.specs.Zones.{IsZoneOrder};
ghost use Rattle.zones.specs.Standings.{standing_of, standing_order, standings_of, AreAtPlaces};

use crate::last_start;
use stale_model::Cluster;
use std::alloc::{AllocError, Global};
use std::cmp::Ordering;

/// Where the zone of a cluster stands in the zone order at some d.
#[derive(Clone, Copy)]
pub(crate) struct Standing {
    /// The tick at which the zone begins.
    start: u64,
    /// The place of the cluster among the clusters, counted from 0.
    place: usize,
    /// The record of the write.
    write: u32,
    /// Whether the zone is forward.
    forward: bool,
}

/// The standing at d of the cluster at this place.
pub(crate) fn standing_at(d: u64, place: usize, cluster: &Cluster) -> Standing
    ensures { result ≡ standing_of d place cluster.now }
{
    let last = last_start(d, cluster);
    Standing {
        start: cluster.f.min(last),
        place,
        write: cluster.write,
        forward: cluster.f < last,
    }
}

/// The zone order of standings: by where zones begin, then backward before forward, then by write
/// record.
pub(crate) fn standing_cmp(a: &Standing, b: &Standing) -> Ordering
    ensures { result ≡ standing_order a.now b.now }
{
    a.start
        .cmp(&b.start)
        .then(a.forward.cmp(&b.forward))
        .then(a.write.cmp(&b.write))
}

// The standing at d of each cluster.
fn standings_of(alloc: Global, d: u64, clusters: &[Cluster]) -> Result<Vec<Standing>, AllocError>
    ensures { IfOk result (λ standings. standings.items ≡ standings_of d clusters.now) }
{
    clusters
        .iter()
        .enumerate()
        .map(|(place, cluster)| standing_at(d, place, cluster))
        .collect(alloc)
}

// The clusters at the places of standings.
fn clusters_at(
    alloc: Global,
    clusters: &[Cluster],
    standings: &[Standing],
) -> Result<Vec<Cluster>, AllocError>
    requires { All (λ s. s.place < length clusters.now) standings.now }
    ensures { IfOk result (λ zones. AreAtPlaces clusters.now standings.now zones.items) }
{
    let mut zones = Vec::with_capacity(alloc, standings.len())?;
    for standing in standings {
        zones.push(clusters[standing.place])?;
    }
    Ok(zones)
}

/// The clusters in the zone order at d. In the order of records they are nearly sorted, which a stable
/// sort makes use of. The error is want of memory.
pub(crate) fn in_zone_order(
    alloc: Global,
    d: u64,
    clusters: &[Cluster],
) -> Result<Vec<Cluster>, AllocError>
    ensures { IfOk result (λ zones. IsZoneOrder d clusters.now zones.items) }
{
    let mut standings = standings_of(alloc, d, clusters)?;
    standings.sort_by(|a, b| standing_cmp(a, b))?;
    clusters_at(alloc, clusters, &standings)
}
