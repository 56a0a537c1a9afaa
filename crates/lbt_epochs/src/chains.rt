//! Chains: a cluster that is placed, and after it each one that the cluster placed last asks for.
ghost use Rattle.std.specs.Prelude.{◌≡◌, ◌+◌, ◌<◌, nat_lt, length, map, slice_get, Contains, IfSome};
ghost use Rattle.std.specs.Option.{ForSome};
ghost use Rattle.stale_model.specs.Zones.{reads_start};
ghost use Rattle.lbt_epochs.specs.Lists.{left, cluster_at};
ghost use Rattle.lbt_epochs.specs.Steps.{if_late, IsReady, IsAsked, IsRun};

use crate::lists::{Lists, cluster_at};
use stale_model::{Cluster, End};

// What the cluster placed last asks of those not placed.
enum Asked {
    Nothing,
    // The cluster at this place stands directly before it.
    One(u32),
    Impossible(End),
}

/// How a chain ran, from its first cluster to the one placed last.
#[derive(Drop)]
pub(crate) enum Ran {
    Ends,
    Fails(End),
    Cut,
}

// Whether the last read of a cluster, taken to start `d` ticks earlier, starts after the tick `f`.
fn reads_after(d: u64, f: u64, cluster: &Cluster) -> bool
    ensures { result ≡ nat_lt (f + d) (reads_start cluster.now) }
{
    match cluster.s {
        Some(start) => d < start.saturating_sub(f),
        None => false,
    }
}

/// This place, where the reads of the cluster at it start after the tick `f`, taken to start `d` ticks earlier.
pub(crate) fn late_read(d: u64, f: u64, clusters: &[Cluster], at: Option<u32>) -> Option<u32>
    requires { ForSome at (λ at. at < length clusters.now) }
    ensures late { result ≡ if_late (λ at. reads_start (cluster_at clusters.now at)) (f + d) at }
    ensures within { IfSome result (λ at. at < length clusters.now) }
{
    match at {
        Some(at) if reads_after(d, f, &cluster_at(clusters, at)) => Some(at),
        _ => None,
    }
}

/// The cluster not placed whose write starts latest, where it starts after the tick `f`.
pub(crate) fn late_write(f: u64, clusters: &[Cluster], lists: &Lists) -> Option<Cluster>
    requires { IsReady clusters.now lists.now }
    ensures { let writes = map (cluster_at clusters.now) (left lists.now.placed lists.now.writes) in
        result ≡ if_late (λ c. c.w) f (slice_get writes 0) }
{
    let write = cluster_at(clusters, lists.late_write()?);
    if f < write.w { Some(write) } else { None }
}

// What the cluster at this place asks of those not placed.
fn demand_at(d: u64, clusters: &[Cluster], lists: &Lists, at: u32) -> Asked
    requires ready { IsReady clusters.now lists.now }
    requires within { at < length clusters.now }
    ensures { IsAsked d clusters.now lists.now at result }
{
    let cluster = cluster_at(clusters, at);
    let p = cluster.first;
    if let Some(write) = late_write(cluster.f, clusters, lists) {
        return Asked::Impossible(End::Hard { p, u: write.write });
    }
    let (first, second) = lists.late_reads();
    let first = late_read(d, cluster.f, clusters, first);
    let second = late_read(d, cluster.f, clusters, second);
    match (first, second) {
        (None, _) => Asked::Nothing,
        (Some(one), None) => Asked::One(one),
        (Some(one), Some(other)) => {
            let q = cluster_at(clusters, one).last;
            let q2 = cluster_at(clusters, other).last;
            Asked::Impossible(End::Soft { p, q, q2 })
        }
    }
}

/// Places the cluster at this place, and after it those of its chain: at most `room` more.
pub(crate) fn run(d: u64, clusters: &[Cluster], lists: &mut Lists, first: u32, room: u64) -> Ran
    requires ready { IsReady clusters.now lists.old }
    requires there { Contains (left lists.old.placed lists.old.candidates) first }
    ensures { IsRun d clusters.now room first lists.old lists.new result }
{
    lists.place(first);
    let mut at = first;
    let mut more = room;
    loop {
        match demand_at(d, clusters, lists, at) {
            Asked::Nothing => return Ran::Ends,
            Asked::Impossible(end) => return Ran::Fails(end),
            Asked::One(next) => {
                if more == 0 {
                    return Ran::Cut;
                }
                lists.place(next);
                at = next;
                more -= 1;
            }
        }
    }
}
