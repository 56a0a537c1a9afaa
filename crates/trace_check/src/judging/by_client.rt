//! The entries of each client.
ghost use Rattle.std.specs.Prelude.{◌≡◌, IfOk, map};
ghost use Rattle.std.specs.List.{range_with_len};
ghost use Rattle.stale_model.specs.RecordedRuns.{entries_of};

use stale_model::{Entry, List, Memory};
use std::alloc::Global;

// The entries of this client, in their order.
fn entries_of(alloc: Global, entries: &[Entry], client: u32) -> Result<List<Entry>, Memory>
    ensures { IfOk result (λ own. own ≡ entries_of client entries.now) }
{
    let mut own = Vec::new(alloc);
    for entry in entries {
        if entry.client == client {
            own.push(*entry).map_err(|_| Memory)?;
        }
    }
    Ok(List::from_vec(own))
}

/// The entries of each of so many clients, in their order.
pub(crate) fn entries_by_client(
    alloc: Global,
    clients: u32,
    entries: &[Entry],
) -> Result<List<List<Entry>>, Memory>
    ensures { IfOk result (λ groups. groups ≡ map (λ c. entries_of c entries.now) (range_with_len 0 clients)) }
{
    let mut groups = Vec::new(alloc);
    for client in 0..clients {
        let own = entries_of(alloc, entries, client)?;
        groups.push(own).map_err(|_| Memory)?;
    }
    Ok(List::from_vec(groups))
}
