//! The least Δ for 2-atomicity, by halving.

ghost use Rattle.std.specs.Prelude.{◌≡◌, [], ◌<◌, ◌^◌, length, IfOk};
ghost use Rattle.stale_model.specs.declared.Two.TheVariants.{Yes, No};
ghost use Rattle.stale_model.specs.Clusters.{WriteRecordsDiffer};
ghost use Rattle.stale_model.specs.Chains.{IsAnswer};
ghost use Rattle.lbt_epochs.specs.Lists.{AreListsOf};
ghost use Rattle.lbt_epochs.specs.TwoLaws.{HasListing};
ghost use Rattle.two_delta.specs.Halving.{HasNoListing, AreBounds, IsLeastListed};
ghost use Rattle.two_delta.specs.LeastTwos.{AreOfClearKey, IsPrintedLeast};

use delta_score::least_delta;
use lbt_epochs::{Lists, has_listing_at, two_atomic_at};
use stale_model::{Cluster, List, Memory, Refutation, Two};
use std::alloc::Global;

/// The least d at which the clusters of a key have a listing, and what shows it.
#[derive(Drop, Debug)]
pub struct LeastTwo {
    /// By how many ticks reads have to be taken to start earlier.
    pub delta: u64,
    /// The write records of the clusters, in the order of the listing at `delta`.
    pub listing: List<u32>,
    /// Why there is none at `delta` - 1; nothing exactly where `delta` is 0.
    pub refutation: Option<Refutation>,
}

// The least d with a listing, which lies above `low`, where there is none, and is at most `high`, where there is one.
fn least_between(clusters: &[Cluster], lists: &mut Lists, mut low: u64, mut high: u64) -> u64
    requires lists { AreListsOf clusters.now lists.old }
    requires differ { WriteRecordsDiffer clusters.now }
    requires few { length clusters.now < 2 ^ 32 }
    requires unplaced { lists.old.placed ≡ [] }
    requires bounds { AreBounds clusters.now low high }
    ensures { IsLeastListed clusters.now result }
{
    while low + 1 < high {
        let middle = low.midpoint(high);
        if has_listing_at(middle, clusters, lists) {
            high = middle;
        } else {
            low = middle;
        }
    }
    high
}

// The least d with a listing. 0 is often it; else it is at most the least d at which no two clusters are in conflict.
fn least_listed(alloc: Global, clusters: &[Cluster]) -> Result<u64, Memory>
    requires { AreOfClearKey clusters.now }
    ensures { IfOk result (IsLeastListed clusters.now) }
{
    let mut lists = Lists::prepare(alloc, clusters)?;
    if has_listing_at(0, clusters, &mut lists) {
        return Ok(0);
    }
    let apart = least_delta(alloc, clusters)?;
    Ok(least_between(clusters, &mut lists, 0, apart.delta))
}

// The listing at a d where there is one.
fn listing_at(alloc: Global, d: u64, clusters: &[Cluster]) -> Result<List<u32>, Memory>
    requires differ { WriteRecordsDiffer clusters.now }
    requires few { length clusters.now < 2 ^ 32 }
    requires listed { HasListing d clusters.now }
    ensures { IfOk result (λ listing. IsAnswer d clusters.now (Yes listing)) }
{
    match two_atomic_at(alloc, d, clusters)? {
        Two::Yes(listing) => Ok(listing),
        Two::No(_) => unreachable!(),
    }
}

// The refutation at a d where there is no listing.
fn refutation_at(alloc: Global, d: u64, clusters: &[Cluster]) -> Result<Refutation, Memory>
    requires differ { WriteRecordsDiffer clusters.now }
    requires few { length clusters.now < 2 ^ 32 }
    requires unlisted { HasNoListing d clusters.now }
    ensures { IfOk result (λ refutation. IsAnswer d clusters.now (No refutation)) }
{
    match two_atomic_at(alloc, d, clusters)? {
        Two::Yes(_) => unreachable!(),
        Two::No(refutation) => Ok(refutation),
    }
}

/// The least d at which the clusters of a key have a listing, which is the least at which the key is 2-atomic where
/// reads are taken to start d ticks earlier; the listing there, and the refutation just below. The clusters are those
/// of a key without fault.
///
/// # Errors
/// `Memory` where memory ran out.
pub fn least_two(alloc: Global, clusters: &[Cluster]) -> Result<LeastTwo, Memory>
    requires { AreOfClearKey clusters.now }
    ensures { IfOk result (IsPrintedLeast clusters.now) }
{
    let delta = least_listed(alloc, clusters)?;
    let listing = listing_at(alloc, delta, clusters)?;
    let refutation = match delta.checked_sub(1) {
        Some(below) => Some(refutation_at(alloc, below, clusters)?),
        None => None,
    };
    Ok(LeastTwo {
        delta,
        listing,
        refutation,
    })
}
