//! Candidates, each tried as the next one; and what shows that all from one on fail.
ghost use Rattle.std.specs.Prelude.{◌≡◌, ◌<◌, true, length, map, take, All, Contains, IfOk};
ghost use Rattle.lbt_epochs.specs.Lists.{with_placed, left, cluster_at};
ghost use Rattle.lbt_epochs.specs.Steps.{clusters_left, chain_at, AllFailAlone, HasLateWrite, HasThreeLateReads, IsReady, IsTried, ChainFails, HasTry};

use crate::chains::{Ran, late_read, late_write, run};
use crate::lists::{Lists, cluster_at};
use stale_model::{Cluster, List, Memory, Try};
use std::alloc::Global;

/// Undoes what was placed last, until `count` are placed.
pub(crate) fn undo_to(lists: &mut Lists, count: usize)
    ensures { lists.new ≡ with_placed lists.old (take count lists.old.placed) }
{
    while count < lists.placed().len() {
        lists.undo();
    }
}

/// The write records of the clusters at these places.
pub(crate) fn writes_at(
    alloc: Global,
    clusters: &[Cluster],
    places: &[u32],
) -> Result<List<u32>, Memory>
    requires { All (λ at. at < length clusters.now) places.now }
    ensures { let in_turn = map (λ at. (cluster_at clusters.now at).write) places.now in
        IfOk result (λ writes. writes ≡ in_turn) }
{
    let writes = places
        .iter()
        .map(|at| cluster_at(clusters, *at).write)
        .collect(alloc);
    Ok(List::from_vec(writes.map_err(|_| Memory)?))
}

/// Tries the candidate at this place as the next one, with at most `room` clusters after it. A chain that ends stays
/// placed, any other is undone.
pub(crate) fn try_candidate(
    d: u64,
    clusters: &[Cluster],
    lists: &mut Lists,
    at: u32,
    room: u64,
) -> Ran
    requires ready { IsReady clusters.now lists.old }
    requires there { Contains (left lists.old.placed lists.old.candidates) at }
    ensures { IsTried d clusters.now room at lists.old lists.new result }
{
    let before = lists.placed().len();
    match run(d, clusters, lists, at, room) {
        Ran::Ends => Ran::Ends,
        Ran::Cut => {
            undo_to(lists, before);
            Ran::Cut
        }
        Ran::Fails(end) => {
            undo_to(lists, before);
            Ran::Fails(end)
        }
    }
}

/// The try of the candidate at this place, whose chain fails.
pub(crate) fn failed_try(
    alloc: Global,
    d: u64,
    clusters: &[Cluster],
    lists: &mut Lists,
    at: u32,
    room: u64,
) -> Result<Try, Memory>
    requires ready { IsReady clusters.now lists.old }
    requires there { Contains (left lists.old.placed lists.old.candidates) at }
    requires fails { ChainFails (chain_at d clusters.now room at lists.old) }
    ensures { let chain = chain_at d clusters.now room at lists.old in
        IfOk result (HasTry chain lists.old lists.new) }
{
    let before = lists.placed().len();
    let Ran::Fails(end) = run(d, clusters, lists, at, room) else {
        unreachable!()
    };
    let chain = writes_at(alloc, clusters, &lists.placed()[before..])?;
    undo_to(lists, before);
    Ok(Try { chain, end })
}

// Whether a cluster not placed writes after the tick `f`, and its write ends no earlier than it starts.
fn writes_late(f: u64, clusters: &[Cluster], lists: &Lists) -> bool
    requires { IsReady clusters.now lists.now }
    ensures { result ≡ true → HasLateWrite f (clusters_left clusters.now lists.now) }
{
    match late_write(f, clusters, lists) {
        Some(write) => write.w <= write.f,
        None => false,
    }
}

// Whether three clusters not placed have a read that starts after the tick `f`, taken to start `d` ticks earlier.
fn three_read_late(d: u64, f: u64, clusters: &[Cluster], lists: &Lists) -> bool
    requires { IsReady clusters.now lists.now }
    ensures { result ≡ true → HasThreeLateReads d f (clusters_left clusters.now lists.now) }
{
    let third = lists.third_late_read();
    late_read(d, f, clusters, third).is_some()
}

/// Whether it shows that each candidate whose f is this tick or less fails with itself alone: a cluster that is none of
/// them writes later, or three clusters read later, of which two are others than the candidate.
pub(crate) fn all_fail_to(d: u64, f: u64, clusters: &[Cluster], lists: &Lists) -> bool
    requires { IsReady clusters.now lists.now }
    ensures { result ≡ true → AllFailAlone d f (clusters_left clusters.now lists.now) }
{
    writes_late(f, clusters, lists) || three_read_late(d, f, clusters, lists)
}
