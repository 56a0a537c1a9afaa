//! Keys worked by hand.
ghost use Rattle.std.specs.Prelude.{◌≡◌, ◌≤◌, All, length, IfOk};
ghost use Rattle.std.specs.List.Sorted.{IsStrictlyIncreasing};
ghost use Rattle.stale_model.specs.Operations.{records_of};
ghost use Rattle.stale_model.specs.Valid.{IsValidOp, IsValidKey};

use crate::{LeastTwo, least_two};
use clusters::{Sorted, sort_key};
use stale_model::{Bytes, End, INITIAL_WRITE, KeyOps, Kind, List, Memory, Op};
use std::alloc::Global;
use std::test::Fail;

// Three writes one after the other, each of a value of its own.
const FIRST: Op = Op {
    rec: 1,
    value: 1,
    start: 1,
    finish: 2,
    ..INITIAL_WRITE
};

const SECOND: Op = Op {
    rec: 2,
    value: 2,
    start: 3,
    finish: 4,
    ..INITIAL_WRITE
};

const THIRD: Op = Op {
    rec: 3,
    value: 3,
    start: 5,
    finish: 6,
    ..INITIAL_WRITE
};

// A read of the first value, after all writes.
const READ: Op = Op {
    rec: 4,
    kind: Kind::Read,
    value: 1,
    start: 9,
    finish: 10,
    ..INITIAL_WRITE
};

// Three values.
fn three_values(alloc: Global) -> Result<Vec<Bytes>, Memory>
    ensures { IfOk result (λ values. length values.items ≡ 3) }
{
    let first = Bytes::of(alloc, b"a".as_slice())?;
    let second = Bytes::of(alloc, b"b".as_slice())?;
    let third = Bytes::of(alloc, b"c".as_slice())?;
    let mut values = Vec::new(alloc);
    values.push(first).map_err(|_| Memory)?;
    values.push(second).map_err(|_| Memory)?;
    values.push(third).map_err(|_| Memory)?;
    Ok(values)
}

// A key of these operations, with three values.
fn key_of(alloc: Global, ops: &[Op]) -> Result<KeyOps, Memory>
    requires ops { All (IsValidOp 3) ops.now }
    requires rising { IsStrictlyIncreasing (records_of ops.now) }
    requires few { length ops.now ≤ 5 }
    ensures { IfOk result IsValidKey }
{
    let ops = Vec::from_slice(alloc, ops).map_err(|_| Memory)?;
    Ok(KeyOps {
        name: Bytes::of(alloc, b"k".as_slice())?,
        values: List::from_vec(three_values(alloc)?),
        ops: List::from_vec(ops),
    })
}

// What the clusters of a key give, where it has no fault.
fn least_of(alloc: Global, key: &KeyOps) -> Result<Option<LeastTwo>, Memory>
    requires { IsValidKey key.now }
{
    match sort_key(alloc, key)? {
        Sorted::Clear(clusters) => Ok(Some(least_two(alloc, clusters.as_slice())?)),
        _ => Ok(None),
    }
}

// The read starts 3 ticks after the third write ends, and 5 after the second, which is the least d for the last write.
#[test]
fn a_read_of_the_third_last_write(rt: HostRuntime) -> Result<(), Fail> {
    let key = key_of(rt.alloc(), &[FIRST, SECOND, THIRD, READ])?;
    let Some(least) = least_of(rt.alloc(), &key)? else {
        panic!(rt; "a fault of what has none")
    };
    assert_eq!(rt; least.delta, 3);
    assert_eq!(rt; least.listing.as_slice(), [0, 1, 2, 3].as_slice());

    let Some(refutation) = &least.refutation else {
        panic!(rt; "nothing just below")
    };
    assert_eq!(rt; refutation.stuck.as_slice(), [3, 2, 1, 0].as_slice());
    assert_eq!(rt; refutation.tries.as_slice().len(), 4);
    assert_eq!(rt;
        refutation.tries.as_slice()[0].end,
        End::Hard { p: 1, u: 2 }
    );
    Ok(())
}

#[test]
fn a_read_of_the_last_write_but_one(rt: HostRuntime) -> Result<(), Fail> {
    let key = key_of(rt.alloc(), &[FIRST, SECOND, READ])?;
    let Some(least) = least_of(rt.alloc(), &key)? else {
        panic!(rt; "a fault of what has none")
    };
    assert_eq!(rt; least.delta, 0);
    assert_eq!(rt; least.listing.as_slice(), [0, 1, 2].as_slice());
    assert!(rt; least.refutation.is_none());
    Ok(())
}

// Two writes at once, a write after both, and then a read of each of the first two.
fn stuck_writes(alloc: Global) -> Result<KeyOps, Memory>
    ensures { IfOk result IsValidKey }
{
    let first = Op { finish: 8, ..FIRST };
    let second = Op {
        start: 2,
        finish: 9,
        ..SECOND
    };
    let third = Op {
        start: 10,
        finish: 11,
        ..THIRD
    };
    let of_second = Op {
        value: 2,
        start: 12,
        finish: 13,
        ..READ
    };
    let of_first = Op {
        rec: 5,
        value: 1,
        ..of_second
    };
    key_of(alloc, &[first, second, third, of_second, of_first])
}

// The reads start 1 tick after the third write ends. The least d for the last write is 3: they start 3 ticks after the
// second write ends.
#[test]
fn reads_of_two_writes_before_a_third(rt: HostRuntime) -> Result<(), Fail> {
    let Some(least) = least_of(rt.alloc(), &stuck_writes(rt.alloc())?)? else {
        panic!(rt; "a fault of what has none")
    };
    assert_eq!(rt; least.delta, 1);
    assert_eq!(rt; least.listing.as_slice(), [0, 1, 2, 3].as_slice());

    let Some(refutation) = &least.refutation else {
        panic!(rt; "nothing just below")
    };
    assert_eq!(rt; refutation.stuck.as_slice(), [3, 2, 1, 0].as_slice());
    assert_eq!(rt; refutation.tries.as_slice().len(), 4);
    assert_eq!(rt;
        refutation.tries.as_slice()[0].end,
        End::Soft { p: 3, q: 5, q2: 4 }
    );
    Ok(())
}
