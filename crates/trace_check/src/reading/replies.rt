//! The replies that calls took, and the journal of each replica, among the lines of a journal file.
ghost use Rattle.std.specs.Prelude.{◌≡◌, ◌==◌, ℕ, map, filter, unwrap_or, IfOk};
ghost use Rattle.std.specs.Ordering.{nat_cmp};
ghost use Rattle.std.specs.BTreeMap as tree;
ghost use Rattle.stale_model.specs.Calls.{took_of};
ghost use Rattle.trace_check.specs.Reading.{reply_at, with_replies, journals_of};

use stale_model::{Entry, JournalEntry, List, MOST_REPLICAS, Memory, Reply, Took};
use std::alloc::Global;
use std::collections::BTreeMap;

/// A reply, as the call that took it keeps it.
pub(crate) fn took_of(reply: &Reply) -> Took
    ensures { result ≡ took_of reply.now }
{
    Took {
        replica: reply.replica,
        serve: reply.serve,
        stamp: reply.stamp,
        value: reply.value,
    }
}

// The reply of the first line with each serve ticket.
fn replies_of(alloc: Global, lines: &[JournalEntry]) -> Result<BTreeMap<u64, Took>, Memory>
    ensures { IfOk result (λ replies. (ticket : ℕ) → tree.get nat_cmp replies ticket ≡ reply_at lines.now ticket) }
{
    let mut replies = BTreeMap::new(alloc);
    let mut place = lines.len();
    while place > 0 {
        place -= 1;
        let reply = &lines[place].reply;
        replies
            .insert(reply.serve, took_of(reply))
            .map_err(|_| Memory)?;
    }
    Ok(replies)
}

// The reply at the ticket of this one, or else this one.
fn reply_for(replies: &BTreeMap<u64, Took>, took: Took) -> Took
    ensures { result ≡ unwrap_or (tree.get nat_cmp replies.now took.serve) took }
{
    match replies.get(&took.serve) {
        Some(reply) => *reply,
        None => took,
    }
}

// The replies at the tickets of these.
fn replies_for(replies: &BTreeMap<u64, Took>, took: [Took; MOST_REPLICAS]) -> [Took; MOST_REPLICAS]
    ensures { result ≡ map (λ t. unwrap_or (tree.get nat_cmp replies.now t.serve) t) took }
{
    let mut all = took;
    for place in 0..MOST_REPLICAS {
        all[place] = reply_for(replies, took[place]);
    }
    all
}

/// The calls, each with the replies that stand in these lines at its tickets.
pub(crate) fn with_replies(
    alloc: Global,
    lines: &[JournalEntry],
    calls: &[Entry],
) -> Result<List<Entry>, Memory>
    ensures { IfOk result (λ entries. entries ≡ map (with_replies lines.now) calls.now) }
{
    let replies = replies_of(alloc, lines)?;
    let mut entries = Vec::with_capacity(alloc, calls.len()).map_err(|_| Memory)?;
    for call in calls {
        let took = replies_for(&replies, call.took);
        entries.push(Entry { took, ..*call }).map_err(|_| Memory)?;
    }
    Ok(List::from_vec(entries))
}

// The lines of this replica, in their order.
fn journal_of(
    alloc: Global,
    lines: &[JournalEntry],
    replica: u32,
) -> Result<List<JournalEntry>, Memory>
    ensures { IfOk result (λ journal. journal ≡ filter (λ j. j.reply.replica == replica) lines.now) }
{
    let mut journal = Vec::new(alloc);
    for line in lines {
        if line.reply.replica == replica {
            journal.push(*line).map_err(|_| Memory)?;
        }
    }
    Ok(List::from_vec(journal))
}

/// The journal of each replica: its lines, in their order.
pub(crate) fn journals_of(
    alloc: Global,
    replicas: u32,
    lines: &[JournalEntry],
) -> Result<List<List<JournalEntry>>, Memory>
    ensures { IfOk result (λ journals. journals ≡ journals_of replicas lines.now) }
{
    let mut journals = Vec::new(alloc);
    for replica in 0..replicas {
        let journal = journal_of(alloc, lines, replica)?;
        journals.push(journal).map_err(|_| Memory)?;
    }
    Ok(List::from_vec(journals))
}
