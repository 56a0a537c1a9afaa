//! The fault of a key: which operation is wrong whatever the order.
ghost use Rattle.std.specs.Prelude.{IfOk, MatchOption};
ghost use Rattle.stale_model.specs.Operations.{operations};
ghost use Rattle.stale_model.specs.Valid.{IsValidKey};
ghost use Rattle.stale_model.specs.Faults.{IsLeastRecord, HasNone, IsUnmatched, IsEarly};
ghost use Rattle.cert_checker.specs.States.{StateHolds, AreStarts, AreWrites};

use crate::lists::refill;
use stale_model::{INITIAL_WRITE, KeyOps, Kind, Memory};

// The fault of a key with the record that is named, or that it has none.
#[derive(Clone, Copy)]
pub(crate) enum State {
    // The least record that writes a value which a lesser record wrote.
    Duplicate { rec: u32 },
    // The least record that reads a value which no record writes; no value is written twice.
    Unmatched { rec: u32 },
    // The least record that reads a value and finishes before its write starts; each read has one write.
    Early { rec: u32 },
    // None of these.
    Clear,
}

// The record of the first write whose value was written before. Where there is none, the list has for each value the
// earliest start of its write, none where it is not written.
fn first_duplicate(starts: &mut Vec<Option<u64>>, key: &KeyOps) -> Result<Option<u32>, Memory>
    requires { IsValidKey key.now }
    ensures { IfOk result (AreWrites key.now starts.new.items) }
{
    let slots = key.values.as_slice().len() + 1;
    refill(starts, slots, None)?;
    starts[0] = Some(INITIAL_WRITE.earliest_start());
    for op in key.ops.as_slice() {
        let value = op.value as usize;
        match (op.kind, starts[value]) {
            (Kind::Read, _) => {}
            (Kind::Write, Some(_)) => return Ok(Some(op.rec)),
            (Kind::Write, None) => starts[value] = Some(op.earliest_start()),
        }
    }
    Ok(None)
}

// The record of the first read whose value is not written.
fn first_unmatched(starts: &[Option<u64>], key: &KeyOps) -> Option<u32>
    requires valid { IsValidKey key.now }
    requires starts { AreStarts key.now starts.now }
    ensures { MatchOption result
        (HasNone (IsUnmatched (operations key.now)))
        (IsLeastRecord (IsUnmatched (operations key.now))) }
{
    for op in key.ops.as_slice() {
        match (op.kind, starts[op.value as usize]) {
            (Kind::Read, None) => return Some(op.rec),
            (Kind::Read, Some(_)) => {}
            (Kind::Write, _) => {}
        }
    }
    None
}

// The record of the first read that has certainly finished before its write starts.
fn first_early(starts: &[Option<u64>], key: &KeyOps) -> Option<u32>
    requires valid { IsValidKey key.now }
    requires starts { AreStarts key.now starts.now }
    ensures { MatchOption result
        (HasNone (IsEarly (operations key.now)))
        (IsLeastRecord (IsEarly (operations key.now))) }
{
    for op in key.ops.as_slice() {
        match (op.kind, starts[op.value as usize]) {
            (Kind::Read, Some(start)) => {
                if op.latest_finish() < start {
                    return Some(op.rec);
                }
            }
            (Kind::Read, None) => {}
            (Kind::Write, _) => {}
        }
    }
    None
}

/// The fault of a valid key, with the least record that has it, or that it has none. Takes time in proportion to the
/// operations and the values. The error says that memory ran out.
pub(crate) fn state_of(starts: &mut Vec<Option<u64>>, key: &KeyOps) -> Result<State, Memory>
    requires { IsValidKey key.now }
    ensures { IfOk result (StateHolds (operations key.now)) }
{
    if let Some(rec) = first_duplicate(starts, key)? {
        return Ok(State::Duplicate { rec });
    }
    let starts = starts.as_slice();
    if let Some(rec) = first_unmatched(starts, key) {
        return Ok(State::Unmatched { rec });
    }
    match first_early(starts, key) {
        Some(rec) => Ok(State::Early { rec }),
        None => Ok(State::Clear),
    }
}
