//! The entries of all logs.
ghost use Rattle.std.specs.Prelude.{◌≡◌, IfOk, flat_map};
ghost use Rattle.key_recorder.specs.Letters.{entries_in};
ghost use Rattle.key_recorder.specs.Collected.{IsCollected};

use crate::log::ShardLog;
use stale_model::{Entry, List, Memory};
use std::alloc::{AllocError, Global};

/// All entries of the logs, sorted by start, and on a tie in the order of the logs and then of their
/// entries. The only error is want of memory.
pub fn collect(alloc: Global, logs: Vec<ShardLog>) -> Result<List<Entry>, Memory>
    ensures { IfOk result (IsCollected (flat_map (λ l. entries_in l.taken) logs.items)) }
{
    let entries = all_entries(alloc, &logs)?;
    match by_start(entries) {
        Ok(entries) => Ok(List::from_vec(entries)),
        Err(_) => Err(Memory),
    }
}

// These entries, sorted by start, and on a tie in the order in which they stand.
fn by_start(mut entries: Vec<Entry>) -> Result<Vec<Entry>, AllocError>
    ensures { IfOk result (λ sorted. IsCollected entries.items sorted.items) }
{
    entries.sort_by_key(|entry| entry.start)?;
    Ok(entries)
}

// All entries of the logs, one log after the other.
fn all_entries(alloc: Global, logs: &[ShardLog]) -> Result<Vec<Entry>, Memory>
    ensures { IfOk result (λ entries.
        entries.items ≡ flat_map (λ l. entries_in l.taken) logs.now) }
{
    let mut entries = Vec::new(alloc);
    for log in logs {
        entries
            .extend_from_slice(log.entries())
            .map_err(|_| Memory)?;
    }
    Ok(entries)
}
