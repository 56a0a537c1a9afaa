//! Judges the keys of a history, by as many workers as are asked for.
#![tactic(auto)]

ghost use Rattle.std.specs.Prelude.{IfOk};
ghost use Rattle.stale_model.specs.Valid.{IsValidKey};
ghost use Rattle.stale_model.specs.Operations.{operations};
ghost use Rattle.stale_model.specs.Faults.{IsClearKey};
ghost use Rattle.stale_model.specs.Clusters.{AreClusters};
ghost use Rattle.stale_model.specs.PrintedVerdicts.{IsPrintedTwo, IsPrintedVerdict, IsPrintedJudgement};
ghost use Rattle.stale_model.specs.Truth.{IsTrueOf};
ghost use Rattle.stale_model.specs.Shown.{IsShown};
ghost use Rattle.audit_workers.specs.Calls.{KeysAreClaimedOnce};
ghost use Rattle.audit_workers.specs.Laws.{VerdictExists, VerdictIsOne, VerdictsAreOne, VerdictsAreShown, VerdictsAreTrue, InfiniteIsExact, TwoTheorem, YesIsExact};

mod claims;
#[cfg(test)]
mod tests;
mod workers;

pub use claims::{Claim, judge_claims};
use clusters::{Sorted, sort_key};
use delta_score::{least_delta, op_order};
use lbt_epochs::two_atomic;
use stale_model::{Cluster, Judgement, KeyOps, Memory, Two, TwoPart, Verdict};
use std::alloc::Global;
pub use workers::judge_all;

// Whether a clear key with these clusters is 2-atomic.
fn two_part(alloc: Global, key: &KeyOps, clusters: &[Cluster]) -> Result<TwoPart, Memory>
    requires valid { IsValidKey key.now }
    requires clear { IsClearKey (operations key.now) }
    requires clusters { AreClusters (operations key.now) clusters.now }
    ensures { IfOk result (IsPrintedTwo (operations key.now) clusters.now) }
{
    match two_atomic(alloc, clusters)? {
        Two::Yes(writes) => Ok(TwoPart::Yes(op_order(alloc, 0, 2, key, writes.as_slice())?)),
        Two::No(refutation) => Ok(TwoPart::No(refutation)),
    }
}

// The judgement of a clear key with these clusters.
fn judge_clear(alloc: Global, key: &KeyOps, clusters: &[Cluster]) -> Result<Judgement, Memory>
    requires valid { IsValidKey key.now }
    requires clear { IsClearKey (operations key.now) }
    requires clusters { AreClusters (operations key.now) clusters.now }
    ensures { IfOk result (IsPrintedJudgement (operations key.now)) }
{
    let least = least_delta(alloc, clusters)?;
    let order = op_order(alloc, least.delta, 1, key, least.order.as_slice())?;
    let two = two_part(alloc, key, clusters)?;
    Ok(Judgement {
        delta: least.delta,
        order,
        four: least.refuter,
        two,
    })
}

// The verdict of a key, as it is printed.
fn verdict_of(alloc: Global, key: &KeyOps) -> Result<Verdict, Memory>
    requires { IsValidKey key.now }
    ensures { IfOk result (IsPrintedVerdict (operations key.now)) }
{
    match sort_key(alloc, key)? {
        Sorted::Duplicate { rec } => Ok(Verdict::Duplicate { rec }),
        Sorted::Unmatched { rec } => Ok(Verdict::Unmatched { rec }),
        Sorted::Early { rec, .. } => Ok(Verdict::Infinite { rec }),
        Sorted::Clear(clusters) => Ok(Verdict::Judged(judge_clear(
            alloc,
            key,
            clusters.as_slice(),
        )?)),
    }
}

/// The verdict of a valid key: the fault and the record that are named, or how stale its reads got
/// (Golab, Li and Shah 2011, decided by the zones of Gibbons and Korach 1997) and whether it is 2-atomic
/// (after Golab, Hurwitz and Li 2013). What it says is true of all orders of all operations of the key.
/// The error says that memory ran out.
pub fn judge_key(alloc: Global, key: &KeyOps) -> Result<Verdict, Memory>
    requires { IsValidKey key.now }
    ensures truth { IfOk result (IsTrueOf (operations key.now)) }
    ensures shown { IfOk result (IsShown (operations key.now)) }
    ensures printed { IfOk result (IsPrintedVerdict (operations key.now)) }
{
    verdict_of(alloc, key)
}

/// Each valid key has a verdict that is printed.
pub fn verdict_exists()
    ensures { VerdictExists }
{}

/// The verdict that is printed of the same operations is one.
pub fn verdict_is_one()
    ensures { VerdictIsOne }
{}

/// The verdicts that are printed of the same keys are one list.
pub fn verdicts_are_one()
    ensures { VerdictsAreOne }
{}

/// The verdict that is printed of a valid key is shown by its orders and records.
pub fn verdicts_are_shown()
    ensures { VerdictsAreShown }
{}

/// The verdict that is printed of a valid key is true.
pub fn verdicts_are_true()
    ensures { VerdictsAreTrue }
{}

/// `Infinite` is true of a key that is neither duplicate nor unmatched exactly where no d has an order.
pub fn infinite_is_exact()
    ensures { InfiniteIsExact }
{}

/// The theorem on 2-atomicity: there is an order in which each read returns one of the last two writes exactly where
/// no read is early and the clusters have a listing (after Golab, Hurwitz and Li 2013).
pub fn two_theorem()
    ensures { TwoTheorem }
{}

/// [`two_atomic_at`](lbt_epochs::two_atomic_at) answers yes exactly where there is such an order.
pub fn yes_is_exact()
    ensures { YesIsExact }
{}

/// Where calls of [`judge_claims`] on one history, at least one and none refused, drew the tickets
/// from 1 on, each once, and no others were drawn, their claims together hold each key once. A
/// [`look`](ticket_clock::Clock::look) tells this of the tickets, where the seats were joined.
pub fn keys_are_claimed_once()
    ensures { KeysAreClaimedOnce }
{}
