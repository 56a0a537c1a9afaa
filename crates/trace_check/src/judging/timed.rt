//! Part 2: the order of calls, and the tickets of a run.
ghost use Rattle.std.specs.Prelude.{◌≡◌, ◌↔◌, ◌<◌, ◌∷◌, ◌++◌, [], All, IfOk, IsTrue, flat_map, map};
ghost use Rattle.std.specs.List.{range_with_len};
ghost use Rattle.std.specs.List.Sorted.{IsStrictlyIncreasing};
ghost use Rattle.stale_model.specs.Orders.{IsWithoutRepeats};
ghost use Rattle.stale_model.specs.RecordedRuns.{entries_of, tickets_of, AreTimed};
ghost use Rattle.trace_check.specs.CallSteps.{AreInOrder, AreOneByOne};

use stale_model::{Entry, JournalEntry, List, Memory};
use std::alloc::Global;

// Whether each entry starts after the one before it.
fn are_rising(entries: &[Entry]) -> bool
    ensures { IsTrue result ↔ IsStrictlyIncreasing (map (λ e. e.start) entries.now) }
{
    entries.is_sorted_by(|a, b| a.start < b.start)
}

// Whether each entry finishes after it started.
fn are_ordered(entries: &[Entry]) -> bool
    ensures { IsTrue result ↔ All (λ e. e.start < e.finish) entries.now }
{
    entries.iter().all(|entry| entry.start < entry.finish)
}

// Whether each of these calls of a client finished before the next started.
fn are_one_by_one(own: &[Entry]) -> bool
    ensures { IsTrue result ↔ AreOneByOne own.now }
{
    own.is_sorted_by(|a, b| a.finish < b.start)
}

// Whether each client made one call after the other.
fn are_each_one_by_one(groups: &[List<Entry>]) -> bool
    ensures { IsTrue result ↔ All AreOneByOne groups.now }
{
    groups.iter().all(|own| are_one_by_one(own.as_slice()))
}

// Whether entries stand by rising start, each finished after it started, and each client made one call after the other.
fn are_in_order(entries: &[Entry], groups: &[List<Entry>]) -> bool
    ensures { IsTrue result ↔ AreInOrder entries.now groups.now }
{
    are_rising(entries) && are_ordered(entries) && are_each_one_by_one(groups)
}

// The start and the finish of each entry.
fn call_tickets(alloc: Global, entries: &[Entry]) -> Result<Vec<u64>, Memory>
    ensures { IfOk result (λ tickets. tickets.items ≡ flat_map (λ e. e.start ∷ e.finish ∷ []) entries.now) }
{
    let mut tickets = Vec::new(alloc);
    for entry in entries {
        tickets.push(entry.start).map_err(|_| Memory)?;
        tickets.push(entry.finish).map_err(|_| Memory)?;
    }
    Ok(tickets)
}

// Adds each serve of a journal.
fn add_serves(tickets: &mut Vec<u64>, journal: &[JournalEntry]) -> Result<(), Memory>
    ensures { IfOk result (λ done. tickets.new.items ≡ tickets.old.items ++ map (λ j. j.reply.serve) journal.now) }
{
    for entry in journal {
        tickets.push(entry.reply.serve).map_err(|_| Memory)?;
    }
    Ok(())
}

// The tickets of a run: the start and the finish of each entry, and each serve of a journal.
fn tickets_of(
    alloc: Global,
    entries: &[Entry],
    journals: &[List<JournalEntry>],
) -> Result<Vec<u64>, Memory>
    ensures { IfOk result (λ tickets. tickets.items ≡ tickets_of entries.now journals.now) }
{
    let mut tickets = call_tickets(alloc, entries)?;
    for journal in journals {
        add_serves(&mut tickets, journal.as_slice())?;
    }
    Ok(tickets)
}

// Whether no ticket stands twice.
fn are_distinct(tickets: Vec<u64>) -> bool
    ensures { IsTrue result ↔ IsWithoutRepeats tickets.items }
{
    let mut sorted = tickets;
    sorted.sort_unstable();
    sorted.is_sorted_by(|a, b| *a < *b)
}

/// Whether entries stand by rising start, each client makes one call after the other, and no ticket stands twice. `groups`
/// are the entries of each of so many clients.
pub(crate) fn are_timed(
    alloc: Global,
    clients: u32,
    entries: &[Entry],
    groups: &[List<Entry>],
    journals: &[List<JournalEntry>],
) -> Result<bool, Memory>
    requires groups { groups.now ≡ map (λ c. entries_of c entries.now) (range_with_len 0 clients) }
    requires clients { All (λ e. e.client < clients) entries.now }
    ensures { IfOk result (λ holds. IsTrue holds ↔ AreTimed entries.now journals.now) }
{
    let tickets = tickets_of(alloc, entries, journals)?;
    Ok(are_in_order(entries, groups) && are_distinct(tickets))
}
