//! What calls took: replies that stand in the journals, and what a read returns of them.
ghost use Rattle.std.specs.Prelude.{◌≡◌, ◌↔◌, ◌==◌, ◌≤◌, List, All, IsTrue, IfOk, option_copied, find, map, drop, length};
ghost use Rattle.std.specs.List.{list_any};
ghost use Rattle.stale_model.specs.declared.store.JournalEntry.{JournalEntry};
ghost use Rattle.stale_model.specs.Orders.{IsWithoutRepeats};
ghost use Rattle.stale_model.specs.Settings.{quorum};
ghost use Rattle.stale_model.specs.Journals.{is_repair};
ghost use Rattle.stale_model.specs.Calls.{no_took, taken_by, freshest as freshest_reply};
ghost use Rattle.stale_model.specs.RecordedRuns.{journal_of, tickets_of, IsReplyTo, AreTaken, ReadsFreshest};
ghost use Rattle.trace_check.specs.TakingSteps.{IsByTicket, AreByTicket, AreServedOnce, IsAnswer};

use crate::reading::replies::took_of;
use quorum_client::freshest;
use stale_model::{Ask, Entry, JournalEntry, Kind, List, MOST_REPLICAS, Memory, Settings, Took};
use std::alloc::Global;
use std::collections::BTreeMap;

/// A place that no reply stands in.
const NO_TOOK: Took = Took {
    replica: 0,
    serve: 0,
    stamp: 0,
    value: 0,
};

/// The entries of a journal, by their serve tickets.
type ByTicket<'a> = BTreeMap<u64, &'a JournalEntry>;

/// The replies that a call took.
#[tactic(auto, using(std::proofs::lemmas::List::take_all))]
pub(crate) fn taken_by(call: &Entry) -> &[Took]
    ensures taken { result.now ≡ taken_by call.now }
    ensures few { length result.now ≤ 7 }
{
    let count = call.took_count as usize;
    if count < MOST_REPLICAS {
        &call.took[..count]
    } else {
        &call.took
    }
}

/// The first reply with the greatest stamp of those that a call took; zeros where it took none.
pub(crate) fn freshest_taken(call: &Entry) -> Took
    ensures { result ≡ freshest_reply (taken_by call.now) }
{
    let taken = taken_by(call);
    if taken.is_empty() {
        NO_TOOK
    } else {
        freshest(taken)
    }
}

// Whether a read returns the value of the first reply with the greatest stamp.
fn reads_freshest(call: &Entry) -> bool
    ensures { IsTrue result ↔ ReadsFreshest call.now }
{
    match call.kind {
        Kind::Read => call.value == freshest_taken(call).value,
        Kind::Write => true,
    }
}

/// Whether each read returns the value of the first reply with the greatest stamp.
pub(crate) fn read_freshest(entries: &[Entry]) -> bool
    ensures { IsTrue result ↔ All ReadsFreshest entries.now }
{
    entries.iter().all(|call| reads_freshest(call))
}

// The entries of a journal by their serve tickets: of each ticket the first.
fn by_ticket(alloc: Global, journal: &[JournalEntry]) -> Result<ByTicket<'_>, Memory>
    ensures { IfOk result (λ entries. IsByTicket journal.now entries) }
{
    let mut entries = BTreeMap::new(alloc);
    let mut place = journal.len();
    while place > 0 {
        place -= 1;
        let entry = &journal[place];
        entries
            .insert(entry.reply.serve, entry)
            .map_err(|_| Memory)?;
    }
    Ok(entries)
}

// The entries of each journal by their serve tickets.
fn all_by_ticket(
    alloc: Global,
    journals: &[List<JournalEntry>],
) -> Result<Vec<ByTicket<'_>>, Memory>
    ensures { IfOk result (λ lookups. AreByTicket journals.now lookups.items) }
{
    let mut lookups = Vec::new(alloc);
    for journal in journals {
        let entries = by_ticket(alloc, journal.as_slice())?;
        lookups.push(entries).map_err(|_| Memory)?;
    }
    Ok(lookups)
}

// The entry of the journal of the reply's replica at the reply's ticket.
fn entry_for<'a>(lookups: &[ByTicket<'a>], took: &Took) -> Option<&'a JournalEntry>
    ensures { (journals : List (List JournalEntry)) → AreByTicket journals lookups.now
        → option_copied result ≡ find (λ j. j.reply.serve == took.now.serve) (journal_of journals took.now.replica) }
{
    let entries = lookups.get(took.replica as usize)?;
    entries.get(&took.serve).copied()
}

// Whether a request is a repair.
fn is_repair(ask: Ask) -> bool
    ensures { result ≡ is_repair ask }
{
    match ask {
        Ask::Read | Ask::Write { .. } => false,
        Ask::Repair { .. } => true,
    }
}

// Whether this entry of a journal is what the call took, and was served while it ran.
fn is_answer(call: &Entry, took: &Took, entry: &JournalEntry) -> bool
    ensures { IsTrue result ↔ IsAnswer call.now took.now entry.now }
{
    let reply = &entry.reply;
    !is_repair(entry.request.ask)
        && reply.client == call.client
        && reply.seq == call.seq
        && is_same(took, &took_of(reply))
        && call.start < took.serve
        && took.serve < call.finish
}

// Whether two replies are one.
fn is_same(a: &Took, b: &Took) -> bool
    ensures { IsTrue result ↔ (a.now ≡ b.now) }
{
    a == b
}

// Whether a reply that the call took stands in the journal of its replica, and was served while the call ran.
fn is_reply_to(lookups: &[ByTicket<'_>], call: &Entry, took: &Took) -> bool
    ensures { (journals : List (List JournalEntry)) → AreByTicket journals lookups.now → AreServedOnce journals
        → (IsTrue result ↔ IsReplyTo journals call.now took.now) }
{
    match entry_for(lookups, took) {
        Some(entry) => is_answer(call, took, entry),
        None => false,
    }
}

// Whether one of these replies is of this replica.
fn has_reply(taken: &[Took], replica: u32) -> bool
    ensures { result ≡ list_any (λ t. t.replica == replica) taken.now }
{
    taken.iter().any(|took| took.replica == replica)
}

// Whether no two replies are of one replica.
fn are_apart(taken: &[Took]) -> bool
    ensures { IsTrue result ↔ IsWithoutRepeats (map (λ t. t.replica) taken.now) }
{
    for (place, took) in taken.iter().enumerate() {
        if has_reply(&taken[..place], took.replica) {
            return false;
        }
    }
    true
}

// Whether each of these replies stands in the journal of its replica, and was served while the call ran.
fn are_replies(lookups: &[ByTicket<'_>], call: &Entry, taken: &[Took]) -> bool
    ensures { (journals : List (List JournalEntry)) → AreByTicket journals lookups.now → AreServedOnce journals
        → (IsTrue result ↔ All (IsReplyTo journals call.now) taken.now) }
{
    for took in taken {
        if !is_reply_to(lookups, call, took) {
            return false;
        }
    }
    true
}

// Whether no reply stands behind those that the call took.
fn has_no_others(call: &Entry) -> bool
    requires { call.now.took_count ≤ 7 }
    ensures { IsTrue result ↔ All (λ t. t ≡ no_took) (drop call.now.took_count call.now.took) }
{
    call.took[call.took_count as usize..]
        .iter()
        .all(|took| is_same(took, &NO_TOOK))
}

// How many replies a call of this kind takes.
fn quorum(settings: &Settings, kind: Kind) -> u32
    ensures { result ≡ quorum settings.now kind }
{
    match kind {
        Kind::Read => settings.read_quorum,
        Kind::Write => settings.write_quorum,
    }
}

// Whether a call took as many replies as its quorum says.
fn has_quorum(settings: &Settings, call: &Entry) -> bool
    ensures exact { IsTrue result ↔ (call.now.took_count ≡ quorum settings.now call.now.kind)
        × (length (taken_by call.now) ≡ call.now.took_count) }
    ensures few { IsTrue result → call.now.took_count ≤ 7 }
{
    let count = call.took_count as usize;
    call.took_count == quorum(settings, call.kind) && taken_by(call).len() == count
}

// Whether a call took as many replies as its quorum says, of different replicas, each of them given while it ran.
fn is_taken(settings: &Settings, lookups: &[ByTicket<'_>], call: &Entry) -> bool
    ensures { (journals : List (List JournalEntry)) → AreByTicket journals lookups.now → AreServedOnce journals
        → (IsTrue result ↔ AreTaken settings.now journals call.now) }
{
    let taken = taken_by(call);
    if !has_quorum(settings, call) {
        return false;
    }
    if !are_replies(lookups, call, taken) {
        return false;
    }
    if !are_apart(taken) {
        return false;
    }
    has_no_others(call)
}

// Whether each call took as many replies as its quorum says, of different replicas, each of them given while it ran.
fn are_all_taken(settings: &Settings, lookups: &[ByTicket<'_>], entries: &[Entry]) -> bool
    ensures { (journals : List (List JournalEntry)) → AreByTicket journals lookups.now → AreServedOnce journals
        → (IsTrue result ↔ All (AreTaken settings.now journals) entries.now) }
{
    for call in entries {
        if !is_taken(settings, lookups, call) {
            return false;
        }
    }
    true
}

/// Whether each call took as many replies as its quorum says, of different replicas, each of them given while it ran.
///
/// # Errors
/// Want of memory.
pub(crate) fn are_taken(
    alloc: Global,
    settings: &Settings,
    entries: &[Entry],
    journals: &[List<JournalEntry>],
) -> Result<bool, Memory>
    requires once { IsWithoutRepeats (tickets_of entries.now journals.now) }
    ensures { IfOk result (λ holds. IsTrue holds ↔ All (AreTaken settings.now journals.now) entries.now) }
{
    let lookups = all_by_ticket(alloc, journals)?;
    Ok(are_all_taken(settings, lookups.as_slice(), entries))
}
