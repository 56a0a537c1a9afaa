//! Answers worked by hand, and two of many clusters.
ghost use Rattle.std.specs.Prelude.{◌≡◌, ◌+◌, ◌*◌, ◌/◌, map, None, Some, IfOk};
ghost use Rattle.std.specs.List.{range_with_len};
ghost use Rattle.stale_model.specs.Clusters.{WriteRecordsDiffer};

use super::*;
use stale_model::{Cluster, End, Memory, Two};
use std::alloc::{AllocError, Global};
use std::test::Fail;

// The cluster of the initial write, without reads.
const INITIAL: Cluster = Cluster {
    write: 0,
    f: 0,
    w: 0,
    s: None,
    first: 0,
    last: 0,
};

// The initial write, and a write after it.
fn writes_alone() -> [Cluster; 2]
    ensures { WriteRecordsDiffer result }
{
    let write = Cluster {
        write: 1,
        f: 2,
        w: 1,
        s: None,
        first: 1,
        last: 1,
    };
    [INITIAL, write]
}

#[test]
fn writes_without_reads(rt: HostRuntime) -> Result<(), Fail> {
    match two_atomic(rt.alloc(), &writes_alone())? {
        Two::Yes(writes) => assert_eq!(rt; writes.as_slice(), [0, 1].as_slice()),
        Two::No(_) => panic!(rt; "a refutation of what has a listing"),
    }
    Ok(())
}

// Two writes at once, a write after both, and then a read of each of the first two.
fn stuck_writes() -> [Cluster; 4]
    ensures { WriteRecordsDiffer result }
{
    let first = Cluster {
        write: 1,
        f: 8,
        w: 1,
        s: Some(12),
        first: 1,
        last: 5,
    };
    let second = Cluster {
        write: 2,
        f: 9,
        w: 2,
        s: Some(12),
        first: 2,
        last: 4,
    };
    let third = Cluster {
        write: 3,
        f: 11,
        w: 10,
        s: None,
        first: 3,
        last: 3,
    };
    [INITIAL, first, second, third]
}

#[test]
fn writes_that_are_stuck(rt: HostRuntime) -> Result<(), Fail> {
    let Two::No(refutation) = two_atomic(rt.alloc(), &stuck_writes())? else {
        panic!(rt; "a listing of what has none")
    };
    assert_eq!(rt; refutation.stuck.as_slice(), [3, 2, 1, 0].as_slice());

    let ends = [
        End::Soft { p: 3, q: 5, q2: 4 },
        End::Hard { p: 2, u: 3 },
        End::Hard { p: 1, u: 3 },
        End::Hard { p: 0, u: 3 },
    ];
    let tries = refutation.tries.as_slice();
    assert_eq!(rt; tries.len(), ends.len());
    for (found, (write, end)) in tries
        .iter()
        .zip(refutation.stuck.as_slice().iter().zip(ends.iter()))
    {
        assert_eq!(rt; found.chain.as_slice(), [*write].as_slice());
        assert_eq!(rt; found.end, *end);
    }
    Ok(())
}

// Three writes one after the other, and then a read of the first.
fn stale_read() -> [Cluster; 4]
    ensures { WriteRecordsDiffer result }
{
    let first = Cluster {
        write: 1,
        f: 2,
        w: 1,
        s: Some(9),
        first: 1,
        last: 4,
    };
    let second = Cluster {
        write: 2,
        f: 4,
        w: 3,
        s: None,
        first: 2,
        last: 2,
    };
    let third = Cluster {
        write: 3,
        f: 6,
        w: 5,
        s: None,
        first: 3,
        last: 3,
    };
    [INITIAL, first, second, third]
}

#[test]
fn reads_that_start_earlier(rt: HostRuntime) -> Result<(), Fail> {
    if let Two::Yes(_) = two_atomic_at(rt.alloc(), 2, &stale_read())? {
        panic!(rt; "a listing of what has none")
    }
    let Two::Yes(writes) = two_atomic_at(rt.alloc(), 3, &stale_read())? else {
        panic!(rt; "a refutation of what has a listing")
    };
    assert_eq!(rt; writes.as_slice(), [0, 1, 2, 3].as_slice());
    Ok(())
}

#[test]
fn one_preparation_for_several_d(rt: HostRuntime) -> Result<(), Fail> {
    let clusters = stale_read();
    let mut lists = Lists::prepare(rt.alloc(), &clusters)?;
    assert!(rt; has_listing_at(3, &clusters, &mut lists));
    assert!(rt; !has_listing_at(2, &clusters, &mut lists));
    assert!(rt; has_listing_at(3, &clusters, &mut lists));
    Ok(())
}

// So many writes, each at a tick of its own, without reads.
fn writes_in_turn(alloc: Global, count: u32) -> Result<Vec<Cluster>, AllocError>
    ensures { IfOk result (λ clusters. clusters.items ≡ map (λ tick. record {
      write = tick;
      f = tick;
      w = tick;
      s = None;
      first = tick;
      last = tick;
    }) (range_with_len 0 count)) }
{
    (0..count)
        .map(|tick| Cluster {
            write: tick,
            f: tick as u64,
            w: tick as u64,
            s: None,
            first: tick,
            last: tick,
        })
        .collect(alloc)
}

// The answer for them.
fn answer_in_turn(alloc: Global, count: u32) -> Result<Two, Memory> {
    let Ok(clusters) = writes_in_turn(alloc, count) else {
        return Err(Memory);
    };
    two_atomic(alloc, &clusters)
}

#[test]
fn more_writes_than_two_bytes_count(rt: HostRuntime) -> Result<(), Fail> {
    let Two::Yes(writes) = answer_in_turn(rt.alloc(), 70_000)? else {
        panic!(rt; "a refutation of what has a listing")
    };
    assert_eq!(rt; writes.as_slice().len(), 70_000);
    for (place, write) in writes.as_slice().iter().enumerate() {
        assert_eq!(rt; *write as usize, place);
    }
    Ok(())
}

// So many writes, one after the other, of which two are read after each second one.
fn pairs_in_turn(alloc: Global, count: u32) -> Result<Vec<Cluster>, AllocError>
    ensures { IfOk result (λ clusters. clusters.items ≡ map (λ turn. record {
      write = turn;
      f = turn * 5 + 1;
      w = turn * 5;
      s = Some (turn / 2 * 10 + 8);
      first = turn;
      last = turn;
    }) (range_with_len 0 count)) }
{
    (0..count)
        .map(|turn| Cluster {
            write: turn,
            f: turn as u64 * 5 + 1,
            w: turn as u64 * 5,
            s: Some(turn as u64 / 2 * 10 + 8),
            first: turn,
            last: turn,
        })
        .collect(alloc)
}

// The places of those whose reads start latest, and third latest.
fn late_reads_of_pairs(alloc: Global, count: u32) -> Result<(Option<u32>, Option<u32>), Memory> {
    let Ok(clusters) = pairs_in_turn(alloc, count) else {
        return Err(Memory);
    };
    let lists = Lists::prepare(alloc, &clusters)?;
    Ok((lists.late_reads().0, lists.third_late_read()))
}

#[test]
fn third_late_read_of_pairs(rt: HostRuntime) -> Result<(), Fail> {
    let (first, third) = late_reads_of_pairs(rt.alloc(), 4)?;
    assert_eq!(rt; first, Some(2));
    assert_eq!(rt; third, Some(0));

    let (first, third) = late_reads_of_pairs(rt.alloc(), 2)?;
    assert_eq!(rt; first, Some(0));
    assert_eq!(rt; third, None);
    Ok(())
}

// The first two candidates, the latest write, and the latest reads.
fn ends_of(lists: &Lists) -> ([Option<u32>; 3], (Option<u32>, Option<u32>)) {
    let first = lists.first_candidate();
    let second = match first {
        Some(first) => lists.next_candidate(first),
        None => None,
    };
    ([first, second, lists.late_write()], lists.late_reads())
}

#[test]
fn a_place_taken_and_put_back(rt: HostRuntime) -> Result<(), Fail> {
    let mut lists = Lists::prepare(rt.alloc(), &stale_read())?;
    let whole = ([Some(3), Some(2), Some(3)], (Some(1), None));
    assert_eq!(rt; ends_of(&lists), whole);
    let Some(first) = lists.first_candidate() else {
        panic!(rt; "no candidate")
    };
    lists.place(first);
    assert_eq!(rt;
        ends_of(&lists),
        ([Some(2), Some(1), Some(2)], (Some(1), None))
    );
    lists.undo();
    assert_eq!(rt; ends_of(&lists), whole);
    Ok(())
}

// The answer for pairs.
fn answer_to_pairs(alloc: Global, count: u32) -> Result<Two, Memory> {
    let Ok(clusters) = pairs_in_turn(alloc, count) else {
        return Err(Memory);
    };
    two_atomic(alloc, &clusters)
}

// Were all candidates tried in each round, these would take minutes.
#[test]
fn pairs_in_short_time(rt: HostRuntime) -> Result<(), Fail> {
    let Two::Yes(writes) = answer_to_pairs(rt.alloc(), 200_000)? else {
        panic!(rt; "a refutation of what has a listing")
    };
    assert_eq!(rt; writes.as_slice().len(), 200_000);
    for (place, write) in writes.as_slice().iter().enumerate() {
        assert_eq!(rt; *write as usize, place);
    }
    Ok(())
}
