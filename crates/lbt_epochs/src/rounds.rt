//! Rounds: each candidate is tried as the next one, with more room for its chain from round to round.
ghost use Rattle.std.specs.Prelude.{◌≡◌, ◌^◌, ◌<◌, length, IfOk};
ghost use Rattle.stale_model.specs.Chains.{round, refutes};
ghost use Rattle.lbt_epochs.specs.Steps.{clusters_left, room_in, IsReady, IsStuck, HasKept, IsFound, WentSo};

use crate::candidates::{all_fail_to, failed_try, try_candidate};
use crate::chains::Ran;
use crate::lists::{Lists, cluster_at};
use stale_model::{Cluster, List, Memory, Try};
use std::alloc::Global;

// How a round went.
enum Went {
    // A chain ends, which stays placed.
    Removes,
    // None ends, and some was cut.
    Repeats,
    // Each fails.
    Refutes,
}

/// What rounds found: a chain that ends, which stays placed, or that none does.
#[derive(Clone, Copy)]
pub(crate) enum Found {
    Removes,
    /// Each candidate fails in a round with this room.
    Refutes { room: u64 },
}

// Tries each candidate in order, until the chain of one ends, or one was cut and all that are still to be tried fail.
fn round(d: u64, clusters: &[Cluster], lists: &mut Lists, room: u64) -> Went
    requires { IsReady clusters.now lists.old }
    ensures { let left = clusters_left clusters.now lists.old in
        WentSo clusters.now (round d room left left) lists.old lists.new result }
{
    let mut some_cut = false;
    let mut next = lists.first_candidate();
    for _ in 0..clusters.len() {
        let Some(at) = next else { break };
        if some_cut && all_fail_to(d, cluster_at(clusters, at).f, clusters, lists) {
            return Went::Repeats;
        }
        match try_candidate(d, clusters, lists, at, room) {
            Ran::Ends => return Went::Removes,
            Ran::Cut => some_cut = true,
            Ran::Fails(_) => {}
        }
        next = lists.next_candidate(at);
    }
    if some_cut {
        Went::Repeats
    } else {
        Went::Refutes
    }
}

/// The tries of a round in which each candidate fails, in their order.
pub(crate) fn failed_tries(
    alloc: Global,
    d: u64,
    clusters: &[Cluster],
    lists: &mut Lists,
    room: u64,
) -> Result<List<Try>, Memory>
    requires ready { IsReady clusters.now lists.old }
    requires stuck { let left = clusters_left clusters.now lists.old in
        IsStuck (round d room left left) }
    ensures { let left = clusters_left clusters.now lists.old in
        let went = round d room left left in
        IfOk result (λ tries. HasKept went (refutes tries) lists.old lists.new) }
{
    let mut tries = Vec::new(alloc);
    let mut next = lists.first_candidate();
    for _ in 0..clusters.len() {
        let Some(at) = next else { break };
        let failed = failed_try(alloc, d, clusters, lists, at, room)?;
        tries.push(failed).map_err(|_| Memory)?;
        next = lists.next_candidate(at);
    }
    Ok(List::from_vec(tries))
}

// How many clusters a chain has at most after its first in this round: 2^round - 1, or no fewer than there are.
fn room_in(round: usize) -> u64
    ensures { result ≡ room_in round }
{
    (1 << round.min(32)) - 1
}

/// Rounds, each with room for twice as long a chain, until no chain is cut in vain.
pub(crate) fn rounds(d: u64, clusters: &[Cluster], lists: &mut Lists) -> Found
    requires ready { IsReady clusters.now lists.old }
    requires few { length clusters.now < 2 ^ 32 }
    ensures { IsFound d clusters.now lists.old lists.new result }
{
    for r in 0..clusters.len() + 1 {
        let room = room_in(r);
        match round(d, clusters, lists, room) {
            Went::Removes => return Found::Removes,
            Went::Repeats => {}
            Went::Refutes => return Found::Refutes { room },
        }
    }
    unreachable!()
}
