//! The moments of an order, in one pass from its end and one from its start.
ghost use Rattle.std.specs.Prelude.{◌≡◌, max, min, All, IfOk};
ghost use Rattle.stale_model.specs.Operations.{earliest_start};
ghost use Rattle.order_moments.specs.InOrder.{FinishFits};
ghost use Rattle.order_moments.specs.Moments.{AreLatest, AreMoments};

use stale_model::{Memory, Op};
use std::alloc::{AllocError, Global};

// For each place of an order the least latest finish of the operations from there on.
fn latest_finishes(alloc: Global, ordered: &[Op]) -> Result<Vec<u64>, AllocError>
    requires { All FinishFits ordered.now }
    ensures { IfOk result (λ latest. AreLatest ordered.now latest.items) }
{
    let mut latest = vec![in alloc; 0; ordered.len()]?;
    let mut least = u64::MAX;
    for place in (0..ordered.len()).rev() {
        least = least.min(ordered[place].latest_finish());
        latest[place] = least;
    }
    Ok(latest)
}

// The moment of an operation, by that of the one before it and by the least latest finish from it on.
fn next_moment(moment: u64, op: &Op, latest: u64) -> u64
    ensures { result ≡ max (min (earliest_start op.now) latest) moment }
{
    op.earliest_start().min(latest).max(moment)
}

// The moments, by the least latest finish from each place on.
fn moments_by(alloc: Global, ordered: &[Op], latest: &[u64]) -> Result<Vec<u64>, AllocError>
    requires { AreLatest ordered.now latest.now }
    ensures { IfOk result (λ moments. AreMoments ordered.now moments.items) }
{
    let mut moments = Vec::with_capacity(alloc, ordered.len())?;
    let mut moment = 0;
    for (place, op) in ordered.iter().enumerate() {
        moment = next_moment(moment, op, latest[place]);
        moments.push(moment)?;
    }
    Ok(moments)
}

// The moments.
fn made_moments(alloc: Global, ordered: &[Op]) -> Result<Vec<u64>, AllocError>
    requires { All FinishFits ordered.now }
    ensures { IfOk result (λ moments. AreMoments ordered.now moments.items) }
{
    let latest = latest_finishes(alloc, ordered)?;
    moments_by(alloc, ordered, &latest)
}

/// The moment of each operation, in ticks, for operations in an order: the greatest, over it and those before it, of the
/// lesser of an operation's earliest start and of the least latest finish from it on. Takes time in proportion to the
/// operations. The error is want of memory.
pub fn moments(alloc: Global, ordered: &[Op]) -> Result<Vec<u64>, Memory>
    requires { All FinishFits ordered.now }
    ensures { IfOk result (λ moments. AreMoments ordered.now moments.items) }
{
    made_moments(alloc, ordered).map_err(|_| Memory)
}
