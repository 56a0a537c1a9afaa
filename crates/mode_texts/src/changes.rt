//! The changes of a key's score, while its operations are fed.

ghost use Rattle.std.specs.Prelude.{◌≡◌, ◌<◌, ◌≤◌, ◌^◌, ◌==◌, ◌++◌, ◌∷◌, [], if◌then◌else◌, length, All, IfOk, OnOk};
ghost use Rattle.std.specs.Option.{option_eq};
ghost use Rattle.std.specs.List.Sorted.{IsStrictlyIncreasing};
ghost use Rattle.stale_model.specs.Operations.{operations, records_of, latest_finish};
ghost use Rattle.stale_model.specs.Valid.{IsValidKey};
ghost use Rattle.stale_model.specs.Faults.{HasNone, IsDuplicate};
ghost use Rattle.stale_model.specs.Counted.{waiting};
ghost use Rattle.mode_texts.specs.LiveTexts.{IsByFinish, IsLiveVerdict};
ghost use Rattle.mode_texts.specs.LiveSteps.{CanAllBeFed, AreChanges};

use crate::live::{Change, LiveVerdict};
use live_score::Live;
use stale_model::{KeyOps, List, Memory, Op};
use std::alloc::{AllocError, Global};

// Operations in the order in which they finish. They stand by rising record, and the sort is stable.
fn in_finish_order(alloc: Global, ops: &[Op]) -> Result<Vec<Op>, AllocError>
    requires finishes { All (λ a. latest_finish a < 2 ^ 64) ops.now }
    requires rising { IsStrictlyIncreasing (records_of ops.now) }
    ensures { IfOk result (λ sorted. IsByFinish ops.now sorted.items) }
{
    let mut sorted = Vec::from_slice(alloc, ops)?;
    sorted.sort_by_key(|op| op.finish.saturating_add(op.slack))?;
    Ok(sorted)
}

// The greatest number of a value among operations.
fn greatest_value(ops: &[Op]) -> u32
    ensures { All (λ a. a.value ≤ result) ops.now }
{
    ops.iter().map(|op| op.value).max().unwrap_or(0)
}

// Keeps the change that an operation made to the score, if it is another than before.
fn keep_change(
    changes: &mut Vec<Change>,
    rec: u32,
    before: Option<u64>,
    score: Option<u64>,
) -> Result<(), Memory>
    ensures { OnOk result (changes.new.items ≡ changes.old.items
        ++ (if option_eq (λ x y. x == y) score before
        then [] else record { rec = rec; score = score } ∷ [])) }
{
    if score == before {
        return Ok(());
    }
    match changes.push(Change { rec, score }) {
        Ok(()) => Ok(()),
        Err(_) => Err(Memory),
    }
}

// The changes of the score along operations that were fed, and how many reads wait after the last.
#[derive(Drop)]
struct FedChanges {
    changes: Vec<Change>,
    waiting: u32,
}

// The changes along operations with values of at most `values`.
fn changes_along(alloc: Global, values: u32, ops: &[Op]) -> Result<FedChanges, Memory>
    requires can { CanAllBeFed values ops.now }
    requires few { length ops.now ≤ 1000000 }
    ensures changes { IfOk result (λ fed. AreChanges ops.now fed.changes.items) }
    ensures waiting { IfOk result (λ fed. fed.waiting ≡ waiting ops.now) }
{
    let mut live = Live::prepare(alloc, ops.len() as u32, values)?;
    let mut changes = Vec::new(alloc);
    let mut score = Some(0);
    for op in ops {
        let before = score;
        live.feed(op);
        score = live.score();
        keep_change(&mut changes, op.rec, before, score)?;
    }
    Ok(FedChanges {
        changes,
        waiting: live.waiting(),
    })
}

/// What is said of a key that writes no value twice.
pub(crate) fn scored(alloc: Global, key: &KeyOps) -> Result<LiveVerdict, Memory>
    requires valid { IsValidKey key.now }
    requires once { HasNone (IsDuplicate (operations key.now)) }
    ensures { IfOk result (IsLiveVerdict (operations key.now)) }
{
    let ops = key.ops.as_slice();
    let Ok(sorted) = in_finish_order(alloc, ops) else {
        return Err(Memory);
    };
    let fed = changes_along(alloc, greatest_value(ops), sorted.as_slice())?;
    Ok(LiveVerdict::Scored {
        changes: List::from_vec(fed.changes),
        waiting: fed.waiting,
    })
}
