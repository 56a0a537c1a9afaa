//! Answers worked by hand, and histories that are large or hard for the search.
ghost use Rattle.std.specs.Prelude.{◌≡◌, ◌*◌, ◌≤◌, ◌<◌, All, IfOk};
ghost use Rattle.stale_model.specs.Clusters.{WriteRecordsDiffer};

use super::*;
use stale_model::{Cluster, Four, Memory};
use std::alloc::Global;
use std::test::Fail;
use zones::{Swept, sweep};

const CLUSTERS: u32 = 500_001;

const SLOTS: u32 = 200_003;

const SCORES: u64 = 3_000;

// A write, and a read that starts once the write of the next slot of time has finished: in the slots up to `scores`, counted
// from 0, it starts as many ticks later as the slot's number says. Where some reads are stale, the clusters take the slots
// out of turn.
fn cluster(place: u32, scores: u64) -> Cluster
    requires { place < CLUSTERS }
    ensures write { result.write ≡ 2 * place }
    ensures starts { result.w ≤ result.f }
{
    let turn = u64::from(place);
    let slot = if scores == 0 {
        turn
    } else {
        turn * 123_607 % u64::from(SLOTS)
    };
    let tick = 10_000 * slot;
    let score = if slot <= scores { slot } else { 0 };
    Cluster {
        write: 2 * place,
        f: tick + 1,
        w: tick,
        s: Some(tick + 10_001 + score),
        first: 2 * place,
        last: 2 * place + 1,
    }
}

fn long_history(alloc: Global, clusters: u32, scores: u64) -> Result<Vec<Cluster>, Memory>
    requires { clusters ≤ CLUSTERS }
    ensures differ { IfOk result (λ history. WriteRecordsDiffer history.items) }
    ensures starts { IfOk result (λ history. All (λ c. c.w ≤ c.f) history.items) }
{
    let mut history = Vec::new(alloc);
    for i in 0..clusters {
        history.push(cluster(i, scores)).map_err(|_| Memory)?;
    }
    Ok(history)
}

#[test]
fn a_long_history_without_stale_reads(rt: HostRuntime) -> Result<(), Fail> {
    let clusters = long_history(rt.alloc(), CLUSTERS, 0)?;
    let least = least_delta(rt.alloc(), &clusters)?;
    assert_eq!(rt; least.delta, 0);
    assert_eq!(rt; least.refuter, None);
    let order = least.order.as_slice();
    assert_eq!(rt; order.len(), CLUSTERS as usize);
    assert!(rt;
        order
            .iter()
            .zip(clusters.iter())
            .all(|(write, cluster)| *write == cluster.write)
    );
    Ok(())
}

// Each pair that a sweep finds scores one more than the pair before it. One sweep a score takes minutes.
#[test]
fn a_long_history_whose_reads_get_staler(rt: HostRuntime) -> Result<(), Fail> {
    let clusters = long_history(rt.alloc(), SLOTS, SCORES)?;
    let least = least_delta(rt.alloc(), &clusters)?;
    assert_eq!(rt; least.delta, SCORES);
    assert_eq!(rt; least.order.as_slice().len(), SLOTS as usize);
    Ok(())
}

// A write that a second write overwrites before a read of it starts.
fn overwritten() -> [Cluster; 3]
    ensures differ { WriteRecordsDiffer result }
    ensures starts { All (λ c. c.w ≤ c.f) result }
{
    let initial = Cluster {
        write: 0,
        f: 0,
        w: 0,
        s: None,
        first: 0,
        last: 0,
    };
    let first = Cluster {
        write: 1,
        f: 2,
        w: 1,
        s: Some(7),
        first: 1,
        last: 3,
    };
    let second = Cluster {
        write: 2,
        f: 4,
        w: 3,
        s: None,
        first: 2,
        last: 2,
    };
    [initial, first, second]
}

#[test]
fn a_read_of_what_was_overwritten(rt: HostRuntime) -> Result<(), Fail> {
    let clusters = overwritten();
    assert_eq!(rt; pair_score(&clusters[1], &clusters[2]), 3);

    let least = least_delta(rt.alloc(), &clusters)?;
    assert_eq!(rt; least.delta, 3);
    assert_eq!(rt; least.order.as_slice(), [0, 1, 2].as_slice());
    assert_eq!(rt;
        least.refuter,
        Some(Four {
            p: 1,
            q: 2,
            q2: 2,
            p2: 3
        })
    );

    match sweep(rt.alloc(), 2, &clusters)? {
        Swept::Pair { earlier, later } => assert_eq!(rt; (earlier, later), (1, 2)),
        Swept::Order(_) => panic!(rt; "a conflict is missed"),
    }
    match sweep(rt.alloc(), 3, &clusters)? {
        Swept::Pair { .. } => panic!(rt; "a conflict that is none"),
        Swept::Order(order) => assert_eq!(rt; order.as_slice(), [0, 1, 2].as_slice()),
    }
    Ok(())
}
