//! Keys worked by hand.
ghost use Rattle.std.specs.Prelude.{◌≡◌, ◌≤◌, All, length, IfOk};
ghost use Rattle.std.specs.List.Sorted.{IsStrictlyIncreasing};
ghost use Rattle.stale_model.specs.declared.Kind.TheVariants.{Read, Write};
ghost use Rattle.stale_model.specs.Operations.{records_of};
ghost use Rattle.stale_model.specs.Valid.{IsValidOp, IsValidKey};

use super::*;
use clusters::{Sorted, sort_key};
use stale_model::{Bytes, Four, INITIAL_WRITE, KeyOps, Kind, List, Memory, Op};
use std::alloc::Global;
use std::test::Fail;

// A write from a tick to a tick.
fn write(rec: u32, value: u32, start: u64, finish: u64) -> Op
    ensures { result ≡ record { rec = rec; client = 0; kind = Write; value = value; start = start; finish = finish; slack = 0 } }
{
    Op {
        rec,
        value,
        start,
        finish,
        ..INITIAL_WRITE
    }
}

// A read from a tick to a tick.
fn read(rec: u32, value: u32, start: u64, finish: u64) -> Op
    ensures { result ≡ record { rec = rec; client = 0; kind = Read; value = value; start = start; finish = finish; slack = 0 } }
{
    Op {
        kind: Kind::Read,
        ..write(rec, value, start, finish)
    }
}

// Three texts.
fn three_values(alloc: Global) -> Result<Vec<Bytes>, Memory>
    ensures { IfOk result (λ values. length values.items ≡ 3) }
{
    let a = Bytes::of(alloc, b"a".as_slice())?;
    let b = Bytes::of(alloc, b"b".as_slice())?;
    let c = Bytes::of(alloc, b"c".as_slice())?;
    Ok(vec![in alloc; a, b, c].map_err(|_| Memory)?)
}

// A key of these operations, with three values.
fn key_of(alloc: Global, ops: &[Op]) -> Result<KeyOps, Memory>
    requires ops { All (IsValidOp 3) ops.now }
    requires rising { IsStrictlyIncreasing (records_of ops.now) }
    requires few { length ops.now ≤ 6 }
    ensures { IfOk result IsValidKey }
{
    let ops = Vec::from_slice(alloc, ops).map_err(|_| Memory)?;
    Ok(KeyOps {
        name: Bytes::of(alloc, b"k".as_slice())?,
        values: List::from_vec(three_values(alloc)?),
        ops: List::from_vec(ops),
    })
}

// The least sides of a key that is neither duplicate nor unmatched.
fn sides_of(alloc: Global, key: &KeyOps) -> Result<Option<Sides>, Memory>
    requires { IsValidKey key.now }
{
    match sort_key(alloc, key)? {
        Sorted::Duplicate { .. } | Sorted::Unmatched { .. } => Ok(None),
        Sorted::Early { clusters, .. } | Sorted::Clear(clusters) => {
            Ok(Some(least_sides(alloc, key, clusters.as_slice())?))
        }
    }
}

// Whether the least sides are these.
fn are(sides: Option<Sides>, g: u64, shown: Shown, order: &[u32]) -> bool {
    match sides {
        None => false,
        Some(sides) => sides.g == g && sides.shown == shown && sides.order.as_slice() == order,
    }
}

fn pair(p: u32, q: u32, q2: u32, p2: u32) -> Shown {
    Shown::Pair(Four { p, q, q2, p2 })
}

#[test]
fn a_read_of_what_was_overwritten(rt: HostRuntime) -> Result<(), Fail> {
    let key = key_of(
        rt.alloc(),
        &[write(1, 1, 1, 2), write(2, 2, 3, 4), read(3, 1, 7, 9)],
    )?;
    let sides = sides_of(rt.alloc(), &key)?;
    assert!(rt; are(sides, 1, pair(1, 2, 2, 3), &[0, 2, 1, 3]));
    Ok(())
}

#[test]
fn a_read_before_its_write(rt: HostRuntime) -> Result<(), Fail> {
    let key = key_of(rt.alloc(), &[read(1, 1, 1, 2), write(2, 1, 3, 4)])?;
    let sides = sides_of(rt.alloc(), &key)?;
    assert!(rt; are(sides, 1, Shown::Early { rec: 1 }, &[0, 2, 1]));
    Ok(())
}

#[test]
fn a_read_long_before_its_write(rt: HostRuntime) -> Result<(), Fail> {
    let key = key_of(rt.alloc(), &[read(1, 1, 1, 2), write(2, 1, 6, 7)])?;
    let sides = sides_of(rt.alloc(), &key)?;
    assert!(rt; are(sides, 2, Shown::Early { rec: 1 }, &[0, 2, 1]));
    Ok(())
}

#[test]
fn two_stale_reads(rt: HostRuntime) -> Result<(), Fail> {
    let key = key_of(
        rt.alloc(),
        &[
            write(1, 1, 1, 2),
            write(2, 2, 3, 4),
            write(3, 3, 5, 6),
            read(4, 1, 9, 10),
            read(5, 2, 12, 13),
        ],
    )?;
    let sides = sides_of(rt.alloc(), &key)?;
    assert!(rt; are(sides, 3, pair(1, 5, 2, 4), &[0, 3, 1, 4, 2, 5]));
    Ok(())
}

// At one less than the least no read is early any more, though one is at 0.
#[test]
fn a_stale_read_and_an_early_one(rt: HostRuntime) -> Result<(), Fail> {
    let key = key_of(
        rt.alloc(),
        &[
            write(1, 1, 1, 2),
            write(2, 2, 3, 4),
            read(3, 1, 12, 13),
            read(4, 3, 5, 6),
            write(5, 3, 9, 10),
        ],
    )?;
    let sides = sides_of(rt.alloc(), &key)?;
    assert!(rt; are(sides, 3, pair(1, 5, 4, 3), &[0, 2, 1, 3, 5, 4]));
    Ok(())
}

#[test]
fn reads_of_the_initial_value(rt: HostRuntime) -> Result<(), Fail> {
    let key = key_of(
        rt.alloc(),
        &[read(1, 0, 1, 2), write(2, 1, 3, 4), read(3, 0, 6, 7)],
    )?;
    let sides = sides_of(rt.alloc(), &key)?;
    assert!(rt; are(sides, 1, pair(0, 2, 2, 3), &[0, 1, 3, 2]));
    Ok(())
}

#[test]
fn nothing_is_less_than_zero(rt: HostRuntime) -> Result<(), Fail> {
    let key = key_of(rt.alloc(), &[write(1, 1, 1, 2), read(2, 1, 3, 4)])?;
    let sides = sides_of(rt.alloc(), &key)?;
    assert!(rt; are(sides, 0, Shown::Nothing, &[0, 1, 2]));
    Ok(())
}
