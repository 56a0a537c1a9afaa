//! The least g at which a key has a side order.

ghost use Rattle.std.specs.Prelude.{◌+◌, ◌-◌, ◌^◌, ◌<◌, ◌≤◌, All, IfOk};
ghost use Rattle.stale_model.specs.Operations.{operations};
ghost use Rattle.stale_model.specs.Valid.{IsValidKey};
ghost use Rattle.stale_model.specs.Faults.{IsMatchedKey};
ghost use Rattle.stale_model.specs.Clusters.{AreClusters, WriteRecordsDiffer};
ghost use Rattle.stale_model.specs.Zones.{IsFourOfPair};
ghost use Rattle.zones.specs.Conflicts.{HasConflict};
ghost use Rattle.both_sides.specs.Raised.{IsFreeAt, raised_clusters};
ghost use Rattle.both_sides.specs.Gaps.{HasTicks};
ghost use Rattle.both_sides.specs.LeastSides.{AreSides, IsPrintedSideOrder, IsShownBelow};

use crate::early::early_read;
use crate::gaps::greatest_gap;
use crate::raised::raised_clusters;
use delta_score::{four_at, op_order, order_at};
use stale_model::{Cluster, Four, KeyOps, List, Memory};
use std::alloc::Global;

/// Why nothing less will do.
#[derive(Clone, Copy, Debug, PartialEq, Eq)]
pub enum Shown {
    /// Nothing is less than 0.
    Nothing,
    /// The read of this record is before its write on both sides, at one less; the least such record.
    Early { rec: u32 },
    /// The four records of a conflict at one less, where no read is early there.
    Pair(Four),
}

/// The least g at which a key has a side order.
#[derive(Drop, Debug)]
pub struct Sides {
    /// By how many ticks both ends of every recorded operation are moved.
    pub g: u64,
    /// The records of all operations, 0 for the initial write, in an order at `g`.
    pub order: List<u32>,
    /// Why nothing less will do.
    pub shown: Shown,
}

// The operations in the zone order at 0 of the clusters with f later by 2g, where those are free.
fn side_order(
    alloc: Global,
    g: u64,
    key: &KeyOps,
    clusters: &[Cluster],
) -> Result<List<u32>, Memory>
    requires raise { g ≤ 2 ^ 61 }
    requires valid { IsValidKey key.now }
    requires matched { IsMatchedKey (operations key.now) }
    requires clusters { AreClusters (operations key.now) clusters.now }
    requires free { IsFreeAt (g + g) clusters.now }
    ensures { IfOk result (IsPrintedSideOrder (operations key.now) clusters.now g) }
{
    let Ok(raised) = raised_clusters(alloc, 2 * g, clusters) else {
        return Err(Memory);
    };
    let writes = order_at(alloc, 0, &raised)?;
    op_order(alloc, 0, 1, key, writes.as_slice())
}

// The records of the pair at 0 of the clusters with f later by 2g, where some two of those are in conflict.
fn four_of_raised(alloc: Global, g: u64, clusters: &[Cluster]) -> Result<Four, Memory>
    requires raise { g ≤ 2 ^ 61 }
    requires ticks { All HasTicks clusters.now }
    requires differ { WriteRecordsDiffer clusters.now }
    requires conflict { HasConflict 0 (raised_clusters (g + g) clusters.now) }
    ensures { IfOk result (IsFourOfPair (raised_clusters (g + g) clusters.now) 0) }
{
    let Ok(raised) = raised_clusters(alloc, 2 * g, clusters) else {
        return Err(Memory);
    };
    four_at(alloc, 0, &raised)
}

// Why nothing less than g will do, where the clusters are not free at 2(g - 1).
fn shown_below(alloc: Global, g: u64, key: &KeyOps, clusters: &[Cluster]) -> Result<Shown, Memory>
    requires raise { g ≤ 2 ^ 61 }
    requires valid { IsValidKey key.now }
    requires matched { IsMatchedKey (operations key.now) }
    requires clusters { AreClusters (operations key.now) clusters.now }
    requires not_free { 0 < g → IsFreeAt ((g - 1) + (g - 1)) clusters.now → ⊥ }
    ensures { IfOk result (IsShownBelow (operations key.now) clusters.now g) }
{
    if g == 0 {
        return Ok(Shown::Nothing);
    }
    let below = g - 1;
    match early_read(alloc, below, key)? {
        Some(rec) => Ok(Shown::Early { rec }),
        None => Ok(Shown::Pair(four_of_raised(alloc, below, clusters)?)),
    }
}

/// The least g at which a key is atomic though both ends of every recorded operation are moved by g ticks, so that each
/// starts earlier and ends later; an order there, and why nothing less will do. For a valid key that is neither
/// duplicate nor unmatched, and its clusters. There always is such a g. Takes time n log n in the operations.
///
/// # Errors
/// `Memory` where memory ran out.
pub fn least_sides(alloc: Global, key: &KeyOps, clusters: &[Cluster]) -> Result<Sides, Memory>
    requires valid { IsValidKey key.now }
    requires matched { IsMatchedKey (operations key.now) }
    requires clusters { AreClusters (operations key.now) clusters.now }
    ensures { IfOk result (AreSides (operations key.now) clusters.now) }
{
    let g = greatest_gap(alloc, clusters)?.div_ceil(2);
    Ok(Sides {
        g,
        order: side_order(alloc, g, key, clusters)?,
        shown: shown_below(alloc, g, key, clusters)?,
    })
}
