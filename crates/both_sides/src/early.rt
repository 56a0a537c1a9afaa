//! Reads that are before their write though both ends of operations are moved.

ghost use Rattle.std.specs.Prelude.{◌≡◌, ◌↔◌, ◌+◌, ◌^◌, ◌<◌, ◌≤◌, length, slice_index, IsTrue, IfOk, MatchOption};
ghost use Rattle.stale_model.specs.Operations.{operations, latest_finish};
ghost use Rattle.stale_model.specs.Valid.{IsValidKey};
ghost use Rattle.stale_model.specs.Faults.{HasNone, IsLeastRecord, IsMatchedKey};
ghost use Rattle.both_sides.specs.LeastSides.{IsEarlyOnBothSides};
ghost use Rattle.both_sides.specs.WriteStarts.{AreWriteStarts, IsEarlyBy};

use stale_model::{KeyOps, Kind, Memory, Op};
use std::alloc::{AllocError, Global};

// The earliest start of the write of each value, by the number of the value.
fn write_starts(alloc: Global, key: &KeyOps) -> Result<Vec<u64>, AllocError>
    requires valid { IsValidKey key.now }
    requires matched { IsMatchedKey (operations key.now) }
    ensures { IfOk result (λ starts. AreWriteStarts key.now starts.items) }
{
    let slots = key.values.as_slice().len() + 1;
    let mut starts = vec![in alloc; 0; slots]?;
    for op in key.ops.as_slice() {
        if op.kind == Kind::Write {
            starts[op.value as usize] = op.earliest_start();
        }
    }
    Ok(starts)
}

// Whether an operation is a read that ends before its write starts, though both ends of both are moved by g ticks.
fn is_early(g: u64, starts: &[u64], op: &Op) -> bool
    requires value { op.now.value < length starts.now }
    requires finish { latest_finish op.now + g + g < 2 ^ 64 }
    ensures { IsTrue result ↔ IsEarlyBy g starts.now op.now }
{
    op.kind == Kind::Read && op.latest_finish() + 2 * g < starts[op.value as usize]
}

// The first read that is before its write on both sides at g.
fn first_early(g: u64, key: &KeyOps, starts: &[u64]) -> Option<u32>
    requires raise { g ≤ 2 ^ 61 }
    requires valid { IsValidKey key.now }
    requires matched { IsMatchedKey (operations key.now) }
    requires starts { AreWriteStarts key.now starts.now }
    ensures { MatchOption result (HasNone (IsEarlyOnBothSides (operations key.now) g))
        (IsLeastRecord (IsEarlyOnBothSides (operations key.now) g)) }
{
    for op in key.ops.as_slice() {
        if is_early(g, starts, op) {
            return Some(op.rec);
        }
    }
    None
}

/// The least record of a read that is before its write on both sides at g; none where no read is. Takes time in
/// proportion to the operations and the values. The error is want of memory.
pub(crate) fn early_read(alloc: Global, g: u64, key: &KeyOps) -> Result<Option<u32>, Memory>
    requires raise { g ≤ 2 ^ 61 }
    requires valid { IsValidKey key.now }
    requires matched { IsMatchedKey (operations key.now) }
    ensures { IfOk result (λ early. MatchOption early (HasNone (IsEarlyOnBothSides (operations key.now) g))
        (IsLeastRecord (IsEarlyOnBothSides (operations key.now) g))) }
{
    match write_starts(alloc, key) {
        Ok(starts) => Ok(first_early(g, key, &starts)),
        Err(_) => Err(Memory),
    }
}
