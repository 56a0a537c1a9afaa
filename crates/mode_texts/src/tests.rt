//! Rows worked by hand: what is written of small histories.
ghost use Rattle.std.specs.Prelude.{◌≡◌, ◌<◌, ◌≤◌, length, IfOk};
ghost use Rattle.std.specs.List.{AllByRecursion};
ghost use Rattle.std.specs.List.Sorted.{IsStrictlyIncreasing};
ghost use Rattle.stale_model.specs.Operations.{records_of};
ghost use Rattle.stale_model.specs.Valid.{IsValidOp, IsValidKey, IsValidHistory};

use super::*;
use stale_model::{Bytes, History, INITIAL_WRITE, KeyOps, Kind, List, Memory, Op};
use std::alloc::Global;
use std::process::Abort;
use std::test::Fail;

// The write of a value, counted from 1.
fn write(rec: u32, value: u32, start: u64, finish: u64) -> Op
    requires numbered { (1 ≤ rec) × (value ≤ 3) }
    requires ticks { (1 ≤ start) × (start ≤ finish) × (finish < 100) }
    ensures valid { IsValidOp 3 result }
    ensures rec { result.rec ≡ rec }
{
    Op {
        rec,
        value,
        start,
        finish,
        ..INITIAL_WRITE
    }
}

// A read of a value; 0 is absent.
fn read(rec: u32, value: u32, start: u64, finish: u64) -> Op
    requires numbered { (1 ≤ rec) × (value ≤ 3) }
    requires ticks { (1 ≤ start) × (start ≤ finish) × (finish < 100) }
    ensures valid { IsValidOp 3 result }
    ensures rec { result.rec ≡ rec }
{
    Op {
        kind: Kind::Read,
        ..write(rec, value, start, finish)
    }
}

// A key of these operations, with three values.
fn key_of(alloc: Global, name: &[u8], ops: &[Op]) -> Result<KeyOps, Memory>
    requires ops { AllByRecursion (IsValidOp 3) ops.now }
    requires rising { IsStrictlyIncreasing (records_of ops.now) }
    requires few { length ops.now ≤ 6 }
    ensures valid { IfOk result IsValidKey }
    ensures few { IfOk result (λ key. length key.ops ≤ 6) }
{
    let a = Bytes::of(alloc, b"a".as_slice())?;
    let b = Bytes::of(alloc, b"b".as_slice())?;
    let c = Bytes::of(alloc, b"c".as_slice())?;
    let values = Vec::from_array(alloc, [a, b, c]).map_err(|_| Memory)?;
    let ops = Vec::from_slice(alloc, ops).map_err(|_| Memory)?;
    Ok(KeyOps {
        name: Bytes::of(alloc, name)?,
        values: List::from_vec(values),
        ops: List::from_vec(ops),
    })
}

// A history of one key `x` of these operations.
fn history_of(alloc: Global, ops: &[Op]) -> Result<History, Memory>
    requires ops { AllByRecursion (IsValidOp 3) ops.now }
    requires rising { IsStrictlyIncreasing (records_of ops.now) }
    requires few { length ops.now ≤ 6 }
    ensures { IfOk result IsValidHistory }
{
    let key = key_of(alloc, b"x".as_slice(), ops)?;
    let keys = Vec::from_array(alloc, [key]).map_err(|_| Memory)?;
    Ok(History {
        keys: List::from_vec(keys),
        records: 0,
        skipped: 0,
    })
}

// A history of an unmatched key, a duplicate one, one with reads of absent, and one with an early read.
fn four_keys(alloc: Global) -> Result<History, Memory>
    ensures { IfOk result IsValidHistory }
{
    let x = key_of(alloc, b"x".as_slice(), &[read(4, 1, 10, 11)])?;
    let y = key_of(
        alloc,
        b"y".as_slice(),
        &[write(1, 1, 1, 2), write(3, 1, 3, 4)],
    )?;
    let z = key_of(
        alloc,
        b"z".as_slice(),
        &[read(5, 0, 1, 2), write(6, 1, 3, 4), read(7, 0, 6, 7)],
    )?;
    let w = key_of(
        alloc,
        b"w".as_slice(),
        &[read(8, 1, 1, 2), write(9, 1, 3, 4)],
    )?;
    let keys = Vec::from_array(alloc, [x, y, z, w]).map_err(|_| Memory)?;
    Ok(History {
        keys: List::from_vec(keys),
        records: 9,
        skipped: 0,
    })
}

// Demands what is written of a history.
fn demand_texts<R: Abort>(
    rt: &R,
    alloc: Global,
    history: &History,
    two: &str,
    sides: &str,
    live: &str,
) -> Result<(), Fail>
    requires { IsValidHistory history.now }
{
    let text = two_text(alloc, history)?;
    assert_eq!(rt; text.as_slice(), two.as_bytes());
    let text = sides_text(alloc, history)?;
    assert_eq!(rt; text.as_slice(), sides.as_bytes());
    let text = live_text(alloc, history)?;
    assert_eq!(rt; text.as_slice(), live.as_bytes());
    Ok(())
}

#[test]
fn a_read_of_the_last_write_but_one(rt: HostRuntime) -> Result<(), Fail> {
    let ops = [write(1, 1, 1, 2), write(2, 2, 3, 4), read(3, 1, 7, 9)];
    let history = history_of(rt.alloc(), &ops)?;
    demand_texts(
        &rt,
        rt.alloc(),
        &history,
        "key x two 0\norder 0 1 2 3\ntotal keys 1 zero 1 worst 0\n",
        "key x sides 1 pair 1 2 2 3\norder 0 2 1 3\ntotal keys 1 zero 0 worst 1\n",
        "key x record 3 delta 3\ntotal lines 1\n",
    )
}

#[test]
fn a_read_of_the_last_write_but_two(rt: HostRuntime) -> Result<(), Fail> {
    let ops = [
        write(1, 1, 1, 2),
        write(2, 2, 3, 4),
        write(3, 3, 5, 6),
        read(4, 1, 9, 10),
        read(5, 2, 12, 13),
    ];
    let history = history_of(rt.alloc(), &ops)?;
    demand_texts(
        &rt,
        rt.alloc(),
        &history,
        "key x two 3\norder 0 1 2 4 3 5\nstuck 3 2 1 0\ntry 3 soft 3 5 4\ntry 2 hard 2 3\ntry 1 hard 1 3\ntry 0 hard 0 3\ntotal keys 1 zero 0 worst 3\n",
        "key x sides 3 pair 1 5 2 4\norder 0 3 1 4 2 5\ntotal keys 1 zero 0 worst 3\n",
        "key x record 4 delta 5\nkey x record 5 delta 6\ntotal lines 2\n",
    )
}

#[test]
fn two_writes_at_one_time(rt: HostRuntime) -> Result<(), Fail> {
    let ops = [
        write(1, 1, 1, 8),
        write(2, 2, 2, 9),
        write(3, 3, 10, 11),
        read(4, 2, 12, 13),
        read(5, 1, 12, 13),
    ];
    let history = history_of(rt.alloc(), &ops)?;
    demand_texts(
        &rt,
        rt.alloc(),
        &history,
        "key x two 1\norder 0 1 2 4 5 3\nstuck 3 2 1 0\ntry 3 soft 3 5 4\ntry 2 hard 2 3\ntry 1 hard 1 3\ntry 0 hard 0 3\ntotal keys 1 zero 0 worst 1\n",
        "key x sides 2 pair 1 4 2 5\norder 0 3 1 5 2 4\ntotal keys 1 zero 0 worst 2\n",
        "key x record 4 delta 1\nkey x record 5 delta 3\ntotal lines 2\n",
    )
}

#[test]
fn reads_of_absent(rt: HostRuntime) -> Result<(), Fail> {
    let ops = [read(1, 0, 1, 2), write(2, 1, 3, 4), read(3, 0, 6, 7)];
    let history = history_of(rt.alloc(), &ops)?;
    demand_texts(
        &rt,
        rt.alloc(),
        &history,
        "key x two 0\norder 0 1 2 3\ntotal keys 1 zero 1 worst 0\n",
        "key x sides 1 pair 0 2 2 3\norder 0 1 3 2\ntotal keys 1 zero 0 worst 1\n",
        "key x record 3 delta 2\ntotal lines 1\n",
    )
}

#[test]
fn a_read_before_its_write(rt: HostRuntime) -> Result<(), Fail> {
    let ops = [read(1, 1, 1, 2), write(2, 1, 6, 7)];
    let history = history_of(rt.alloc(), &ops)?;
    demand_texts(
        &rt,
        rt.alloc(),
        &history,
        "key x infinite 1\ntotal keys 1 zero 0 worst none\n",
        "key x sides 2 early 1\norder 0 2 1\ntotal keys 1 zero 0 worst 2\n",
        "key x record 2 infinite\ntotal lines 1\n",
    )
}

// The read of the third value is before its write, but not at one tick less than is needed.
#[test]
fn a_read_before_its_write_that_does_not_decide(rt: HostRuntime) -> Result<(), Fail> {
    let ops = [
        write(1, 1, 1, 2),
        write(2, 2, 3, 4),
        read(3, 1, 12, 13),
        read(4, 3, 5, 6),
        write(5, 3, 9, 10),
    ];
    let history = history_of(rt.alloc(), &ops)?;
    demand_texts(
        &rt,
        rt.alloc(),
        &history,
        "key x infinite 4\ntotal keys 1 zero 0 worst none\n",
        "key x sides 3 pair 1 5 4 3\norder 0 2 1 3 5 4\ntotal keys 1 zero 0 worst 3\n",
        "key x record 5 infinite\ntotal lines 1\n",
    )
}

#[test]
fn keys_of_each_kind(rt: HostRuntime) -> Result<(), Fail> {
    let history = four_keys(rt.alloc())?;
    demand_texts(
        &rt,
        rt.alloc(),
        &history,
        "key x unmatched 4\nkey y duplicate 3\nkey z two 0\norder 0 5 6 7\nkey w infinite 8\ntotal keys 4 zero 1 worst 0\n",
        "key x unmatched 4\nkey y duplicate 3\nkey z sides 1 pair 0 6 6 7\norder 0 5 7 6\nkey w sides 1 early 8\norder 0 9 8\ntotal keys 4 zero 0 worst 1\n",
        "key x waiting 1\nkey y duplicate 3\nkey z record 7 delta 2\nkey w record 9 infinite\ntotal lines 4\n",
    )
}

#[test]
fn no_key(rt: HostRuntime) -> Result<(), Fail> {
    let history = History {
        keys: List::from_vec(Vec::new(rt.alloc())),
        records: 0,
        skipped: 0,
    };
    let text = "total keys 0 zero 0 worst none\n";
    demand_texts(&rt, rt.alloc(), &history, text, text, "total lines 0\n")
}
