//! What shows the least Δ of keys worked by hand, with one part changed.

ghost use Rattle.std.specs.Prelude.{◌≡◌, ◌≤◌, [], ◌∷◌, length, IfOk};
ghost use Rattle.stale_model.specs.Operations.{operations};
ghost use Rattle.stale_model.specs.Valid.{IsValidKey};
ghost use Rattle.stale_model.specs.Faults.{IsMatchedKey};

use super::*;
use stale_model::{Bytes, End, KeyOps, Kind, List, Memory, Op, Refutation, Try};
use std::alloc::Global;
use std::test::Fail;

const FIRST: Op = Op {
    rec: 1,
    client: 0,
    kind: Kind::Write,
    value: 1,
    start: 1,
    finish: 2,
    slack: 0,
};

const SECOND: Op = Op {
    rec: 2,
    client: 0,
    kind: Kind::Write,
    value: 2,
    start: 3,
    finish: 4,
    slack: 0,
};

const THIRD: Op = Op {
    rec: 3,
    client: 0,
    kind: Kind::Write,
    value: 3,
    start: 5,
    finish: 6,
    slack: 0,
};

fn ops_with(alloc: Global, read: Op) -> Result<Vec<Op>, Memory>
    ensures { IfOk result (λ ops. ops.items ≡ FIRST ∷ SECOND ∷ THIRD ∷ read ∷ []) }
{
    let mut ops = Vec::new(alloc);
    ops.extend_from_slice(&[FIRST, SECOND, THIRD, read])
        .map_err(|_| Memory)?;
    Ok(ops)
}

fn three_values(alloc: Global) -> Result<Vec<Bytes>, Memory>
    ensures { IfOk result (λ values. length values.items ≡ 3) }
{
    let first = Bytes::of(alloc, &[97])?;
    let second = Bytes::of(alloc, &[98])?;
    let third = Bytes::of(alloc, &[99])?;
    let mut values = Vec::new(alloc);
    values.push(first).map_err(|_| Memory)?;
    values.push(second).map_err(|_| Memory)?;
    values.push(third).map_err(|_| Memory)?;
    Ok(values)
}

// Three writes, and a read of this value that starts three ticks after the third has finished.
fn key_with_read_of(alloc: Global, value: u32) -> Result<KeyOps, Memory>
    requires { value ≤ 3 }
    ensures valid { IfOk result IsValidKey }
    ensures matched { IfOk result (λ key. IsMatchedKey (operations key)) }
{
    let name = Bytes::of(alloc, &[107])?;
    let values = three_values(alloc)?;
    let read = Op {
        rec: 4,
        client: 0,
        kind: Kind::Read,
        value,
        start: 9,
        finish: 10,
        slack: 0,
    };
    let ops = ops_with(alloc, read)?;
    Ok(KeyOps {
        name,
        values: List::from_vec(values),
        ops: List::from_vec(ops),
    })
}

fn hard_try(alloc: Global, chain: &[u32], p: u32, u: u32) -> Result<Try, Memory> {
    let mut items = Vec::new(alloc);
    items.extend_from_slice(chain).map_err(|_| Memory)?;
    Ok(Try {
        chain: List::from_vec(items),
        end: End::Hard { p, u },
    })
}

// Why the key with a read of the first value is not 2-atomic at 2: none of the four writes can be the last one.
fn refutation_at_two(alloc: Global) -> Result<Refutation, Memory> {
    let mut stuck = Vec::new(alloc);
    stuck.extend_from_slice(&[3, 2, 1, 0]).map_err(|_| Memory)?;
    let third = hard_try(alloc, &[3, 1], 1, 2)?;
    let second = hard_try(alloc, &[2], 2, 3)?;
    let first = hard_try(alloc, &[1], 1, 3)?;
    let initial = hard_try(alloc, &[0], 0, 3)?;
    let mut tries = Vec::new(alloc);
    tries.push(third).map_err(|_| Memory)?;
    tries.push(second).map_err(|_| Memory)?;
    tries.push(first).map_err(|_| Memory)?;
    tries.push(initial).map_err(|_| Memory)?;
    Ok(Refutation {
        stuck: List::from_vec(stuck),
        tries: List::from_vec(tries),
    })
}

// The answer for the key with a read of this value, beside the refutation.
fn refuted(rt: &HostRuntime, value: u32, delta: u64, order: &[u32]) -> Result<bool, Fail>
    requires { value ≤ 3 }
{
    let alloc = rt.alloc();
    let key = key_with_read_of(alloc, value)?;
    let refutation = refutation_at_two(alloc)?;
    Ok(check_two(alloc, &key, delta, order, Some(&refutation))?)
}

// The answer for the key with a read of this value, without a refutation.
fn unrefuted(rt: &HostRuntime, value: u32, delta: u64, order: &[u32]) -> Result<bool, Fail>
    requires { value ≤ 3 }
{
    let alloc = rt.alloc();
    let key = key_with_read_of(alloc, value)?;
    Ok(check_two(alloc, &key, delta, order, None)?)
}

#[test]
fn read_of_the_third_last_write(rt: HostRuntime) -> Result<(), Fail> {
    assert!(rt; refuted(&rt, 1, 3, &[0, 1, 2, 4, 3])?);
    assert!(rt; !unrefuted(&rt, 1, 3, &[0, 1, 2, 4, 3])?);
    Ok(())
}

#[test]
fn read_of_the_second_last_write(rt: HostRuntime) -> Result<(), Fail> {
    assert!(rt; unrefuted(&rt, 2, 0, &[0, 1, 2, 3, 4])?);
    assert!(rt; !refuted(&rt, 2, 0, &[0, 1, 2, 3, 4])?);
    assert!(rt; !unrefuted(&rt, 2, 1, &[0, 1, 2, 3, 4])?);
    Ok(())
}

#[test]
fn deltas_that_are_not_the_least(rt: HostRuntime) -> Result<(), Fail> {
    assert!(rt; !refuted(&rt, 1, 2, &[0, 1, 2, 4, 3])?);
    assert!(rt; !refuted(&rt, 1, 4, &[0, 1, 2, 4, 3])?);
    assert!(rt; !refuted(&rt, 1, u64::MAX, &[0, 1, 2, 4, 3])?);
    Ok(())
}

#[test]
fn lists_that_are_no_order(rt: HostRuntime) -> Result<(), Fail> {
    assert!(rt; !refuted(&rt, 1, 3, &[0, 1, 2, 3, 4])?);
    assert!(rt; !refuted(&rt, 1, 3, &[0, 1, 2, 4])?);
    Ok(())
}
