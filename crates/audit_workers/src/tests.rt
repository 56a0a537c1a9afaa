//! That workers run side by side, and what few keys and many workers give.
ghost use Rattle.std.specs.Prelude.{◌≡◌, ◌≤◌, All, length, IfOk};
ghost use Rattle.std.specs.List.Sorted.{IsStrictlyIncreasing};
ghost use Rattle.stale_model.specs.Operations.{records_of};
ghost use Rattle.stale_model.specs.Valid.{IsValidOp, IsValidKey, IsValidHistory};

use crate::{judge_all, judge_claims};
use audit_ports::{Gate, OpenGate};
use stale_model::{Bytes, History, INITIAL_WRITE, KeyOps, List, Memory, Op, Verdict};
use std::alloc::Global;
use std::sync::atomic::{AtomicU64, Ordering};
use std::test::Fail;
use std::thread;
use ticket_clock::Clock;

const FIRST: Op = Op {
    rec: 1,
    value: 1,
    start: 1,
    finish: 2,
    ..INITIAL_WRITE
};

// Writes the value of the first once more.
const AGAIN: Op = Op {
    rec: 2,
    start: 3,
    finish: 4,
    ..FIRST
};

// A key of these operations, with one value.
fn key_of(alloc: Global, ops: &[Op]) -> Result<KeyOps, Memory>
    requires ops { All (IsValidOp 1) ops.now }
    requires rising { IsStrictlyIncreasing (records_of ops.now) }
    requires few { length ops.now ≤ 2 }
    ensures valid { IfOk result IsValidKey }
    ensures few { IfOk result (λ key. length key.ops ≤ 2) }
{
    let mut values = Vec::new(alloc);
    values
        .push(Bytes::of(alloc, b"a".as_slice())?)
        .map_err(|_| Memory)?;
    let ops = Vec::from_slice(alloc, ops).map_err(|_| Memory)?;
    Ok(KeyOps {
        name: Bytes::of(alloc, b"k".as_slice())?,
        values: List::from_vec(values),
        ops: List::from_vec(ops),
    })
}

// A key that is written once, or twice with one value.
fn key(alloc: Global, duplicate: bool) -> Result<KeyOps, Memory>
    ensures valid { IfOk result IsValidKey }
    ensures few { IfOk result (λ key. length key.ops ≤ 2) }
{
    if duplicate {
        key_of(alloc, &[FIRST, AGAIN])
    } else {
        key_of(alloc, &[FIRST])
    }
}

// A history of such keys.
fn history_of(alloc: Global, duplicates: &[bool]) -> Result<History, Memory>
    requires { length duplicates.now ≤ 64 }
    ensures valid { IfOk result IsValidHistory }
    ensures many { IfOk result (λ history. length history.keys ≡ length duplicates.now) }
{
    let mut keys = Vec::new(alloc);
    for duplicate in duplicates {
        let key = key(alloc, *duplicate)?;
        keys.push(key).map_err(|_| Memory)?;
    }
    Ok(History {
        keys: List::from_vec(keys),
        records: 0,
        skipped: 0,
    })
}

// Holds whoever enters with the first key until one has entered with the second, for so many turns
// at most.
#[derive(Drop)]
struct Meeting {
    turns: u64,
    second_entered: AtomicU64,
    met: AtomicU64,
}

impl Gate for Meeting {
    fn enter(&self, piece: u32) {
        if piece == 1 {
            self.second_entered.store(1, Ordering::SeqCst);
        }
        if piece == 0 {
            for _turn in 0..self.turns {
                if self.second_entered.load(Ordering::SeqCst) == 1 {
                    self.met.store(1, Ordering::SeqCst);
                    return;
                }
                thread::yield_now();
            }
        }
    }

    fn leave(&self, _piece: u32) {}
}

fn is_duplicate(verdict: &Verdict) -> bool {
    matches!(verdict, Verdict::Duplicate { rec: 2 })
}

fn is_fresh(verdict: &Verdict) -> bool {
    matches!(verdict, Verdict::Judged(judgement) if judgement.delta == 0)
}

#[test]
fn two_workers_run_side_by_side(rt: HostRuntime) -> Result<(), Fail> {
    let Ok(history) = history_of(rt.alloc(), &[false, true]) else {
        panic!(rt; "memory")
    };
    let gate = Meeting {
        turns: 10_000_000,
        second_entered: AtomicU64::new(0),
        met: AtomicU64::new(0),
    };
    let Ok(verdicts) = judge_all(&rt, rt.alloc(), &history, 2, &gate) else {
        panic!(rt; "memory")
    };
    assert!(rt;
        gate.met.load(Ordering::SeqCst) == 1,
        "the second key was entered meanwhile"
    );
    assert_eq!(rt; verdicts.as_slice().len(), 2);
    Ok(())
}

#[test]
fn any_number_of_workers_gives_the_same(rt: HostRuntime) -> Result<(), Fail> {
    let Ok(history) = history_of(rt.alloc(), &[false, true, false]) else {
        panic!(rt; "memory")
    };
    for workers in [1, 2, 64] {
        let Ok(verdicts) = judge_all(&rt, rt.alloc(), &history, workers, &OpenGate) else {
            panic!(rt; "memory")
        };
        let verdicts = verdicts.as_slice();
        assert_eq!(rt; verdicts.len(), 3);
        assert!(rt; is_fresh(&verdicts[0]), "{workers} workers: the first key");
        assert!(rt;
            is_duplicate(&verdicts[1]),
            "{workers} workers: the second key"
        );
        assert!(rt; is_fresh(&verdicts[2]), "{workers} workers: the third key");
    }
    Ok(())
}

#[test]
fn few_keys_and_many_workers(rt: HostRuntime) -> Result<(), Fail> {
    let (Ok(none), Ok(one)) = (history_of(rt.alloc(), &[]), history_of(rt.alloc(), &[true])) else {
        panic!(rt; "memory")
    };
    let Ok(verdicts) = judge_all(&rt, rt.alloc(), &none, 64, &OpenGate) else {
        panic!(rt; "memory")
    };
    assert!(rt; verdicts.as_slice().is_empty());
    let Ok(verdicts) = judge_all(&rt, rt.alloc(), &one, 64, &OpenGate) else {
        panic!(rt; "memory")
    };
    assert_eq!(rt; verdicts.as_slice().len(), 1);
    assert!(rt; verdicts.as_slice().iter().all(is_duplicate));
    Ok(())
}

#[test]
fn the_first_seat_claims_all(rt: HostRuntime) -> Result<(), Fail> {
    let Ok(history) = history_of(rt.alloc(), &[true, false]) else {
        panic!(rt; "memory")
    };
    let Ok((clock, mut first)) = Clock::new(rt.alloc(), 6) else {
        panic!(rt; "memory")
    };
    let mut second = clock.split(&mut first, 3);
    let Ok(claims) = judge_claims(rt.alloc(), &history, &clock, &mut first, &OpenGate) else {
        panic!(rt; "memory")
    };
    let Ok(rest) = judge_claims(rt.alloc(), &history, &clock, &mut second, &OpenGate) else {
        panic!(rt; "memory")
    };
    let claims = claims.as_slice();
    assert!(rt;
        claims
            .iter()
            .map(|claim| claim.key)
            .eq([1, 2].iter().copied())
    );
    assert!(rt;
        claims
            .iter()
            .map(|claim| is_duplicate(&claim.verdict))
            .eq([true, false].iter().copied())
    );
    assert!(rt; rest.as_slice().is_empty());
    assert_eq!(rt; clock.look(&mut second), 5);
    Ok(())
}
