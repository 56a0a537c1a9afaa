//! Epochs: the listing of clusters that they find, or the refutation with which one of them ends.
ghost use Rattle.std.specs.Prelude.{◌≡◌, ◌↔◌, [], ◌^◌, ◌<◌, length, map, reverse, All, Some, IfOk, IsTrue};
ghost use Rattle.stale_model.specs.Chains.{IsAnswer};
ghost use Rattle.stale_model.specs.Clusters.{writes_of, WriteRecordsDiffer};
ghost use Rattle.lbt_epochs.specs.Lists.{cluster_at, AreListsOf};
ghost use Rattle.lbt_epochs.specs.Steps.{clusters_left, epochs_of, IsReady, HaveEnded};
ghost use Rattle.lbt_epochs.specs.TwoLaws.{HasListing};

use crate::candidates::{undo_to, writes_at};
use crate::lists::{Lists, cluster_at};
use crate::rounds::{Found, failed_tries, rounds};
use stale_model::{Cluster, List, Memory, Refutation, Two};
use std::alloc::Global;

// The write records of the clusters not placed, in candidate order.
fn left_writes(alloc: Global, clusters: &[Cluster], lists: &Lists) -> Result<List<u32>, Memory>
    requires { IsReady clusters.now lists.now }
    ensures { IfOk result (λ writes. writes ≡ writes_of (clusters_left clusters.now lists.now)) }
{
    let mut writes = Vec::new(alloc);
    let mut next = lists.first_candidate();
    for _ in 0..clusters.len() {
        let Some(at) = next else { break };
        writes
            .push(cluster_at(clusters, at).write)
            .map_err(|_| Memory)?;
        next = lists.next_candidate(at);
    }
    Ok(List::from_vec(writes))
}

// The write records of the clusters at these places, from the last to the first.
fn writes_reversed(alloc: Global, clusters: &[Cluster], places: &[u32]) -> Result<List<u32>, Memory>
    requires { All (λ at. at < length clusters.now) places.now }
    ensures { let in_turn = map (λ at. (cluster_at clusters.now at).write) places.now in
        IfOk result (λ writes. writes ≡ reverse in_turn) }
{
    let mut writes = writes_at(alloc, clusters, places)?.into_vec();
    writes.reverse();
    Ok(List::from_vec(writes))
}

// How epochs ended.
#[derive(Clone, Copy)]
enum Ended {
    AllPlaced,
    // Each candidate fails in a round with this room.
    Stuck { room: u64 },
}

// Epochs, each with its rounds, until all clusters are placed or those left are refuted.
fn place_all(d: u64, clusters: &[Cluster], lists: &mut Lists) -> Ended
    requires ready { IsReady clusters.now lists.old }
    requires few { length clusters.now < 2 ^ 32 }
    requires unplaced { lists.old.placed ≡ [] }
    ensures { HaveEnded d clusters.now lists.old lists.new result }
{
    while lists.first_candidate().is_some() {
        if let Found::Refutes { room } = rounds(d, clusters, lists) {
            return Ended::Stuck { room };
        }
    }
    Ended::AllPlaced
}

// The listing or the refutation with which the epochs end.
fn answer(alloc: Global, d: u64, clusters: &[Cluster], lists: &mut Lists) -> Result<Two, Memory>
    requires ready { IsReady clusters.now lists.old }
    requires few { length clusters.now < 2 ^ 32 }
    requires unplaced { lists.old.placed ≡ [] }
    ensures { IfOk result (λ two. epochs_of d clusters.now lists.old ≡ Some two) }
{
    match place_all(d, clusters, lists) {
        Ended::AllPlaced => Ok(Two::Yes(writes_reversed(alloc, clusters, lists.placed())?)),
        Ended::Stuck { room } => {
            let tries = failed_tries(alloc, d, clusters, lists, room)?;
            let stuck = left_writes(alloc, clusters, lists)?;
            Ok(Two::No(Refutation { stuck, tries }))
        }
    }
}

/// Whether the clusters have a listing where reads are taken to start `d` ticks earlier. The lists are theirs, with none
/// placed, and are given back so: those prepared once serve every d.
pub fn has_listing_at(d: u64, clusters: &[Cluster], lists: &mut Lists) -> bool
    requires lists { AreListsOf clusters.now lists.old }
    requires differ { WriteRecordsDiffer clusters.now }
    requires few { length clusters.now < 2 ^ 32 }
    requires unplaced { lists.old.placed ≡ [] }
    ensures tells { IsTrue result ↔ HasListing d clusters.now }
    ensures kept { lists.new ≡ lists.old }
{
    let ended = place_all(d, clusters, lists);
    undo_to(lists, 0);
    matches!(ended, Ended::AllPlaced)
}

/// The listing of clusters from which orders of operations come in which each read, taken to start `d` ticks earlier,
/// returns one of the last two writes; or why there is none (after Golab, Hurwitz and Li 2013).
///
/// # Errors
/// `Memory` where memory ran out.
pub fn two_atomic_at(alloc: Global, d: u64, clusters: &[Cluster]) -> Result<Two, Memory>
    requires differ { WriteRecordsDiffer clusters.now }
    requires few { length clusters.now < 2 ^ 32 }
    ensures { IfOk result (IsAnswer d clusters.now) }
{
    let mut lists = Lists::prepare(alloc, clusters)?;
    answer(alloc, d, clusters, &mut lists)
}

/// The same where reads are taken as they are.
///
/// # Errors
/// As for [`two_atomic_at`].
pub fn two_atomic(alloc: Global, clusters: &[Cluster]) -> Result<Two, Memory>
    requires differ { WriteRecordsDiffer clusters.now }
    requires few { length clusters.now < 2 ^ 32 }
    ensures { IfOk result (IsAnswer 0 clusters.now) }
{
    two_atomic_at(alloc, 0, clusters)
}
